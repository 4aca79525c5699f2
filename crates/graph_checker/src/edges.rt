// Whether the edges of nodes lead from slots to slots.

ghost use Rattle.std.specs.Prelude.{◌≡◌, ◌↔◌, IsTrue};
ghost use Rattle.c_typed.specs.Table.{Interned};
ghost use Rattle.heap_graph.specs.Frozen.{edges_of};
ghost use Rattle.graph_checker.specs.SoundGraphs.Sound.{EdgesAreSound};
ghost use Rattle.graph_checker.specs.Tests.{are_found, ascend_from, is_sound, join_slots, joins_slots};

use crate::slots::is_slot;
use heap_graph::{Edge, FrozenGraph, Node, is_collapsed, same_target};

/// Whether each edge leads to a slot of a node, all from one slot to one target, and those of a collapsed node from its first slot.
pub fn edges_are_sound(graph: &FrozenGraph) -> bool
    ensures { (table : Interned) → IsTrue result ↔ EdgesAreSound table graph.now }
{
    for node in &graph.nodes {
        if !is_sound(graph, node) {
            return false;
        }
    }
    true
}

/// Whether the edges of a node, if it is one, are sound.
fn is_sound(graph: &FrozenGraph, node: &Option<Node>) -> bool
    ensures { result ≡ is_sound graph.now node.now }
{
    match node {
        None => true,
        Some(node) => are_found(node) && join_slots(graph, node),
    }
}

/// Whether each edge is the one that is found at its slot. Where slots ascend, nothing has to be looked up.
fn are_found(node: &Node) -> bool
    ensures { result ≡ are_found (edges_of node.now.edges.items) (edges_of node.now.edges.items) }
{
    if ascend(node.edges.as_slice()) {
        return true;
    }
    for edge in &node.edges {
        if !same_target(node.edge(u128::from(edge.slot)), Some(edge.to)) {
            return false;
        }
    }
    true
}

/// Whether each slot lies behind the one before.
fn ascend(edges: &[Edge]) -> bool
    ensures { result ≡ ascend_from 0 (edges_of edges.now) }
{
    let mut bound: u128 = 0;
    for edge in edges {
        let slot = u128::from(edge.slot);
        if slot < bound {
            return false;
        }
        bound = slot + 1;
    }
    true
}

/// Whether each edge leads from a slot of the node to a slot of a node.
fn join_slots(graph: &FrozenGraph, node: &Node) -> bool
    ensures { result ≡ join_slots graph.now node.now node.now.edges.items }
{
    let one_slot = is_collapsed(node.element);
    for edge in &node.edges {
        if !joins_slots(graph, one_slot, *edge) {
            return false;
        }
    }
    true
}

/// Whether an edge of a node, which may have one slot only, leads from a slot of it to a slot of a node.
fn joins_slots(graph: &FrozenGraph, one_slot: bool, edge: Edge) -> bool
    ensures { result ≡ joins_slots graph.now one_slot edge }
{
    is_slot(graph, Some(edge.to)) && (!one_slot || edge.slot == 0)
}
