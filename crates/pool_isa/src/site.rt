// Where an instruction stands in an image, and what is counted of the pools that it makes.

/// An instruction of an image: its function's number, and its own in the function.
#[derive(Clone, Copy, Debug, PartialEq, Eq, Hash)]
pub struct Site {
    pub function: usize,
    pub place: usize,
}

/// What is counted of the pools that one instruction has made. A count stands still at its type's end.
#[derive(Clone, Copy, Debug, PartialEq, Eq)]
pub struct PoolCounts {
    /// The pools.
    pub made: u64,
    /// The objects that were placed in them.
    pub objects: u64,
    /// The most objects that lived at once in one of them.
    pub peak: u64,
    /// The most slabs that one of them held at once.
    pub slabs: u32,
}
