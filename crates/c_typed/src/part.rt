// Parts of objects.

/// A step from an element of a row, by its index, to a row within it. A row is an array's elements, an allocation's, or one
/// object alone.
#[derive(Clone, Copy, Debug, PartialEq, Eq)]
pub enum Part {
    /// The member of this number, from 0, alone.
    Member { index: u64, number: u32 },
    /// The elements of the array that the element is.
    Elements { index: u64 },
}
