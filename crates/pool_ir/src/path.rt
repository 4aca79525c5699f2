// Paths to objects, by bytes.

use crate::number::Descriptor;
use c_num::IntType;
use tac_ir::{Register, Tree};

/// How a scalar lies in memory.
#[derive(Clone, Copy, Debug, PartialEq, Eq)]
pub enum Slot {
    Integer(IntType),
    /// A pointer as its address, in 8 bytes.
    Address,
    /// A pointer as the index, in 4 bytes, of a cell of the pool that the descriptor holds.
    Index(Descriptor),
}

/// Where a path begins.
#[derive(Drop)]
pub enum Base {
    /// So many bytes behind the beginning of the frame.
    Frame(u64),
    /// So many bytes behind the beginning of the globals.
    Globals(u64),
    /// What a pointer points to.
    Pointed(Register),
    /// The element of this size so many places behind the one that a pointer points to.
    Indexed {
        pointer: Register,
        size: u64,
        number: Tree,
    },
}

/// A step from an object to a part of it.
#[derive(Drop)]
pub enum Step {
    /// The member so many bytes behind the beginning.
    Member(u64),
    /// The element of this size with an index.
    Element { size: u64, index: Tree },
}

/// A path to an object.
#[derive(Drop)]
pub struct Path {
    pub base: Base,
    pub steps: Vec<Step>,
}
