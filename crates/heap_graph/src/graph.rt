// What heap graphs are made of, in memory.

use c_typed::CType;

/// A node by its number, and a slot of it.
#[derive(Clone, Copy, Debug, PartialEq, Eq)]
pub struct Target {
    pub node: usize,
    pub shift: u64,
}

/// What the elements of a node's objects are.
#[derive(Clone, Copy, Debug, PartialEq, Eq)]
pub enum Element {
    /// Nothing tells it.
    Missing,
    OfType(CType),
    /// What is told doesn't agree. Such a node has one slot.
    Collapsed,
}

/// What is known of a node's objects.
#[derive(Clone, Copy, Debug, PartialEq, Eq)]
pub struct Flags {
    pub heap: bool,
    pub stack: bool,
    pub global: bool,
    pub array: bool,
    pub modified: bool,
    pub read: bool,
    pub complete: bool,
    /// While a graph is made, whether it isn't a node of null pointers alone; all nodes of a graph that is made are certain.
    pub certain: bool,
}
