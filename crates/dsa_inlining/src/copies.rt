// Copies of nodes and of their edges.

ghost use Rattle.std.specs.Prelude.{IfOk, OnOk};
ghost use Rattle.c_typed.specs.Table.{structs_in};
ghost use Rattle.heap_graph.specs.Structures.{AreMade};
ghost use Rattle.heap_graph.specs.Merging.{IsSound};
ghost use Rattle.graph_unification.specs.Memory.{graph_in, IsGraph};
ghost use Rattle.heap_graph.specs.Frozen.{bare};
ghost use Rattle.heap_graph.specs.Edges.{EdgesAreFound};
ghost use Rattle.graph_unification.specs.Going.{GoesOn};
ghost use Rattle.dsa_inlining.specs.Copied.{numbers_in, AreCopied};
ghost use Rattle.dsa_inlining.specs.Adding.{HaveSlots, AreClosed, AreFree, AreNumbered, NamesStay, LeadsCopied};

use crate::edges::copy_edges;
use crate::nodes::copy_nodes;
use c_typed::TypeTable;
use graph_unification::Graph;
use heap_graph::FrozenGraph;
use indexmap::IndexMap;
use std::alloc::{AllocError, Global};

/// Where nodes of a function that is called are in the graph of its caller.
#[derive(Drop)]
pub struct Copies {
    /// The number of the copy's name, by that of the node.
    pub names: IndexMap<usize, usize>,
    /// No copies with this number or a greater one have targets.
    pub next: usize,
}

/// Copies the nodes that escape a function into the graph of its caller, with their edges. The copies get the numbers from the first one on,
/// of which no copy has a target yet.
pub fn copy_escaping(
    alloc: Global,
    graph: &mut Graph,
    types: &TypeTable,
    callee: &FrozenGraph,
    escaping: &[usize],
    first: usize,
) -> Result<Copies, AllocError>
    requires made { AreMade (structs_in types.now) }
    requires graph { IsGraph types.now graph.old }
    requires slots { HaveSlots (structs_in types.now) (bare types.now callee.now) }
    requires sound { IsSound (structs_in types.now) (bare types.now callee.now) }
    requires edges { EdgesAreFound callee.now }
    requires closed { AreClosed callee.now.nodes.items escaping.now }
    requires free { AreFree (graph_in types.now graph.old) first }
    ensures graph { OnOk result (IsGraph types.now graph.new) }
    ensures goes { OnOk result (GoesOn (structs_in types.now) (graph_in types.now graph.old) (graph_in types.now graph.new)) }
    ensures names { OnOk result (NamesStay (graph_in types.now graph.old) (graph_in types.now graph.new) first) }
    ensures free { IfOk result (λ copies. AreFree (graph_in types.now graph.new) copies.next) }
    ensures numbered { IfOk result (λ copies. AreNumbered (bare types.now callee.now) escaping.now (numbers_in copies) first copies.next) }
    ensures copied { IfOk result (λ copies. AreCopied (structs_in types.now) (graph_in types.now graph.new) (bare types.now callee.now) (numbers_in copies)) }
    ensures leads { IfOk result (λ copies. LeadsCopied (structs_in types.now) (graph_in types.now graph.old) (graph_in types.now graph.new) (bare types.now callee.now) (numbers_in copies)) }
{
    let copies = copy_nodes(alloc, graph, types, callee, escaping, first)?;
    for number in escaping {
        copy_edges(graph, types, callee, escaping, &copies, *number)?;
    }
    Ok(copies)
}
