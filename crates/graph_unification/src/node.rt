// Nodes, and the edges of their slots.

use heap_graph::{Element, Flags};

/// The edge of a slot.
#[derive(Clone, Copy)]
pub(crate) struct SlotEdge {
    pub(crate) slot: u64,
    /// The number of the cell that holds its target.
    pub(crate) to: usize,
}

/// A node.
#[derive(Drop)]
pub(crate) struct Node {
    pub(crate) element: Element,
    pub(crate) flags: Flags,
    /// At most one for each slot.
    pub(crate) edges: Vec<SlotEdge>,
    /// The numbers of all cells that point here, and perhaps of some that point to other nodes by now.
    pub(crate) cells: Vec<usize>,
}
