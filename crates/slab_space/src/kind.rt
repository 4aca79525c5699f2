/// What a pool holds.
#[derive(Clone, Copy, Debug, PartialEq, Eq, Hash)]
pub enum PoolKind {
    /// Cells of one size, `cell` bytes, a multiple of 4 up to 1,048,576, for objects of `source` bytes.
    /// Of an indexed pool the cells are numbered within the index limit.
    Homogeneous {
        source: u64,
        cell: u64,
        indexed: bool,
    },
    /// Objects of any size.
    Mixed,
}
