// Edges of copies.

ghost use Rattle.std.specs.Prelude.{◌≡◌, ℕ, option_map, OnOk, Contains};
ghost use Rattle.c_typed.specs.Table.{Interned, structs_in};
ghost use Rattle.heap_graph.specs.Memory.{target_of};
ghost use Rattle.heap_graph.specs.Merging.{IsSound};
ghost use Rattle.heap_graph.specs.Structures.{AreMade};
ghost use Rattle.graph_unification.specs.Memory.{graph_in, IsGraph};
ghost use Rattle.heap_graph.specs.Frozen.{edge_of, bare};
ghost use Rattle.heap_graph.specs.Edges.{EdgesAreFound};
ghost use Rattle.dsa_inlining.specs.Copied.{numbers_in, image, NodesCopied, NodeLinked};
ghost use Rattle.dsa_inlining.specs.Adding.{AreClosed, AreNumbered};
ghost use Rattle.dsa_inlining.specs.Steps.{LeadsToSlot, EdgesAdded, LinksOne};

use crate::copies::Copies;
use c_typed::TypeTable;
use graph_unification::{Graph, Name, set_edge_to};
use heap_graph::{Edge, FrozenGraph, Target, is_collapsed};
use std::alloc::AllocError;

/// Gives the copy of a node the node's edges.
pub(crate) fn copy_edges(
    graph: &mut Graph,
    types: &TypeTable,
    callee: &FrozenGraph,
    escaping: &[usize],
    copies: &Copies,
    number: usize,
) -> Result<(), AllocError>
    requires made { AreMade (structs_in types.now) }
    requires graph { IsGraph types.now graph.old }
    requires sound { IsSound (structs_in types.now) (bare types.now callee.now) }
    requires edges { EdgesAreFound callee.now }
    requires closed { AreClosed callee.now.nodes.items escaping.now }
    requires numbered { (first : ℕ) × AreNumbered (bare types.now callee.now) escaping.now (numbers_in copies.now) first copies.now.next }
    requires copied { NodesCopied (structs_in types.now) (graph_in types.now graph.old) (bare types.now callee.now) (numbers_in copies.now) }
    requires among { Contains escaping.now number }
    ensures graph { OnOk result (IsGraph types.now graph.new) }
    ensures added { OnOk result (EdgesAdded (structs_in types.now) (graph_in types.now graph.old) (graph_in types.now graph.new) (bare types.now callee.now) (numbers_in copies.now)) }
    ensures linked { OnOk result (NodeLinked (graph_in types.now graph.new) (bare types.now callee.now) (numbers_in copies.now) number) }
{
    let _ = escaping;
    let Some(node) = callee.node(number) else {
        return Ok(());
    };
    for edge in &node.edges {
        copy_edge(graph, types, copies, number, *edge)?;
    }
    Ok(())
}

/// Gives the copy of a node an edge.
fn copy_edge(
    graph: &mut Graph,
    types: &TypeTable,
    copies: &Copies,
    number: usize,
    edge: Edge,
) -> Result<(), AllocError>
    requires made { AreMade (structs_in types.now) }
    requires graph { IsGraph types.now graph.old }
    requires from { LeadsToSlot (structs_in types.now) (graph_in types.now graph.old) (image (graph_in types.now graph.old) (numbers_in copies.now) (record { node = number; shift = edge.slot })) }
    requires to { LeadsToSlot (structs_in types.now) (graph_in types.now graph.old) (image (graph_in types.now graph.old) (numbers_in copies.now) (target_of edge.to)) }
    ensures graph { OnOk result (IsGraph types.now graph.new) }
    ensures links { OnOk result (LinksOne (structs_in types.now) (graph_in types.now graph.old) (graph_in types.now graph.new) (numbers_in copies.now) number (edge_of edge)) }
{
    let Some(from) = place(graph, copies, number, edge.slot) else {
        return Ok(());
    };
    let Some(to) = place(graph, copies, edge.to.node, edge.to.shift) else {
        return Ok(());
    };
    set_edge_to(graph, types, from, to)?;
    Ok(())
}

/// Where a slot of a node's copy is.
fn place(graph: &Graph, copies: &Copies, node: usize, slot: u64) -> Option<Target>
    ensures { (table : Interned) → IsGraph table graph.now → LeadsToSlot (structs_in table) (graph_in table graph.now) (image (graph_in table graph.now) (numbers_in copies.now) (record { node = node; shift = slot }))
        → option_map target_of result ≡ image (graph_in table graph.now) (numbers_in copies.now) (record { node = node; shift = slot }) }
{
    let copy = copies.names.get(&node)?;
    let target = graph.target(Name::Copy(*copy))?;
    let (element, _) = graph.node(target.node)?;
    let shift = if is_collapsed(element) {
        0
    } else {
        target.shift.saturating_add(slot)
    };
    Some(Target {
        node: target.node,
        shift,
    })
}
