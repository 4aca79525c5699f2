// The edges of a node, in the order of their slots.

ghost use Rattle.std.specs.Prelude.{◌≡◌, ◌≤◌, ◌∷◌, ◌++◌, length, take, drop, IfOk, OnOk};
ghost use Rattle.c_typed.specs.Table.{Interned};
ghost use Rattle.graph_unification.specs.Memory.{graph_in, IsGraph};
ghost use Rattle.heap_graph.specs.declared.frozen.Edge as memory_edge;
ghost use Rattle.heap_graph.specs.Frozen.{edges_of};
ghost use Rattle.graph_unification.specs.Freezing.{TellsEdges};
ghost use Rattle.graph_unification.specs.Placing.{placed};

use crate::certain::is_certain;
use crate::graph::Graph;
use heap_graph::Edge;
use std::alloc::{AllocError, Global};

/// The edges of a node to certain nodes.
pub(crate) fn frozen_edges(
    alloc: Global,
    graph: &Graph,
    number: usize,
) -> Result<Vec<Edge>, AllocError>
    ensures { IfOk result (λ edges. (table : Interned) → IsGraph table graph.now → TellsEdges (graph_in table graph.now) number (edges_of edges.items)) }
{
    let mut edges = Vec::new(alloc);
    for index in 0..usize::MAX {
        match graph.edge_at(number, index) {
            Some((slot, to)) => {
                if is_certain(graph, to) {
                    place(&mut edges, Edge { slot, to })?;
                }
            }
            None => return Ok(edges),
        }
    }
    // So many edges fit into no memory.
    Err(AllocError)
}

/// Puts an edge in front of the first one of a later slot.
fn place(edges: &mut Vec<Edge>, edge: Edge) -> Result<(), AllocError>
    ensures { OnOk result (edges.new.items ≡ placed edge edges.old.items) }
{
    let index = index_behind(edges, edge.slot);
    match edges.insert(index, edge) {
        Ok(()) => Ok(()),
        Err(_) => Err(AllocError),
    }
}

/// How many edges stand in front of the first one of a later slot.
fn index_behind(edges: &[Edge], slot: u64) -> usize
    ensures within { result ≤ length edges.now }
    ensures behind { (edge : memory_edge.Edge) → edge.slot ≡ slot → take result edges.now ++ edge ∷ drop result edges.now ≡ placed edge edges.now }
{
    for (index, edge) in edges.iter().enumerate() {
        if slot < edge.slot {
            return index;
        }
    }
    edges.len()
}
