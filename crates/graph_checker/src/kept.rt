// What is kept of nodes that escape a function, in the graph of its caller.

ghost use Rattle.std.specs.Prelude.{◌≡◌, ◌↔◌, true, Some};
ghost use Rattle.c_typed.specs.Table.{Interned, structs_in};
ghost use Rattle.tac_ir.specs.States.{Owner};
ghost use Rattle.heap_graph.specs.Elements.{HasSlots};
ghost use Rattle.heap_graph.specs.Closed as C;
ghost use Rattle.heap_graph.specs.Graphs as G;
ghost use Rattle.heap_graph.specs.Memory.{target_of, element_in, flags_of};
ghost use Rattle.heap_graph.specs.Structures.{AreMade};
ghost use Rattle.heap_graph.specs.Targets as T;
ghost use Rattle.heap_graph.specs.Frozen.{node_in, edges_of, bare, static_in};
ghost use Rattle.heap_graph.specs.Shows.{ShowsGraph};
ghost use Rattle.graph_checker.specs.Images.{placed};
ghost use Rattle.heap_graph.specs.Embeddings.{AreImages, keeps};

use crate::calls::Caller;
use crate::images::image;
use c_typed::TypeTable;
use heap_graph::{
    Edge, Flags, FrozenGraph, Node, Target, edge_at, element_kept, is_at, shifted, types_differ,
    widened,
};
use indexmap::IndexMap;

/// Whether a node has an image that keeps it.
pub(crate) fn is_kept(
    caller: Caller<'_>,
    embedding: &IndexMap<usize, Target>,
    number: usize,
    node: &Node,
) -> bool
    requires made { AreMade (structs_in caller.types.now) }
    requires some { HasSlots (structs_in caller.types.now) (element_in caller.types.now node.now.element) }
    ensures { (family : C.Family) (owner : Owner) (images : G.Embedding) → ShowsGraph caller.entry.types.now family owner caller.entry.graph.now → AreImages images (static_in embedding.now)
        → (result ≡ true ↔ C.IsKept family owner images number (node_in caller.entry.types.now node.now)) }
{
    match embedding.get(&number) {
        None => false,
        Some(at) => {
            is_node_kept(caller.types, caller.graph, *at, node)
                && are_edges_kept(caller.graph, embedding, *at, node)
        }
    }
}

/// Whether the node of a target keeps what is known of another node.
fn is_node_kept(types: &TypeTable, graph: &FrozenGraph, at: Target, node: &Node) -> bool
    requires made { AreMade (structs_in types.now) }
    requires some { HasSlots (structs_in types.now) (element_in types.now node.now.element) }
    ensures { result ≡ T.at_target (bare types.now graph.now) (Some (target_of at)) (keeps (structs_in types.now) (node_in types.now node.now)) }
{
    match graph.node(at.node) {
        None => false,
        Some(new) => keeps(types, node, new, at.shift),
    }
}

/// Whether a node keeps at a slot what is known of another.
fn keeps(types: &TypeTable, old: &Node, new: &Node, shift: u64) -> bool
    requires made { AreMade (structs_in types.now) }
    requires some { HasSlots (structs_in types.now) (element_in types.now old.now.element) }
    ensures { result ≡ keeps (structs_in types.now) (node_in types.now old.now) (node_in types.now new.now) shift }
{
    element_kept(types, old.element, new.element, shift)
        && flags_kept(old.flags, new.flags)
        && implies(
            old.flags.heap && types_differ(types, old.element, new.element),
            new.flags.array,
        )
}

/// Whether all that is told of a node's objects, but that they are complete, is told of another's.
fn flags_kept(old: Flags, new: Flags) -> bool
    ensures { result ≡ T.flags_kept (flags_of old) (flags_of new) }
{
    implies(old.heap, new.heap)
        && implies(old.stack, new.stack)
        && implies(old.global, new.global)
        && implies(old.array, new.array)
        && implies(old.modified, new.modified)
        && implies(old.read, new.read)
}

/// Whether, where one test holds, so does the other.
fn implies(test: bool, other: bool) -> bool
    ensures { result ≡ T.implies test other }
{
    !test || other
}

/// Whether the edges of a node are those of its image.
fn are_edges_kept(
    graph: &FrozenGraph,
    embedding: &IndexMap<usize, Target>,
    at: Target,
    node: &Node,
) -> bool
    ensures { (table : Interned) (family : C.Family) (owner : Owner) (images : G.Embedding) → ShowsGraph table family owner graph.now → AreImages images (static_in embedding.now)
        → result ≡ C.edges_kept family owner images (Some (target_of at)) (edges_of node.now.edges.items) }
{
    for edge in &node.edges {
        if !is_edge_kept(graph, embedding, at, *edge) {
            return false;
        }
    }
    true
}

/// Whether what an edge leads to has its image where the image of the edge leads.
fn is_edge_kept(
    graph: &FrozenGraph,
    embedding: &IndexMap<usize, Target>,
    at: Target,
    edge: Edge,
) -> bool
    ensures { (table : Interned)
        → result ≡ T.same_target (T.edge_at (bare table graph.now) (T.shifted (bare table graph.now) edge.slot (Some (target_of at))))
        (placed (bare table graph.now) (static_in embedding.now) (Some (target_of edge.to))) }
{
    let own = edge_at(graph, shifted(graph, edge.slot, widened(Some(at))));
    is_at(own, image(graph, embedding, Some(edge.to)))
}
