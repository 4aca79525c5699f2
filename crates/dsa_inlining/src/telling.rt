// What is told of copies once all types are known.

ghost use Rattle.c_typed.specs.Table.{structs_in};
ghost use Rattle.heap_graph.specs.Structures.{AreMade};
ghost use Rattle.graph_unification.specs.Memory.{graph_in, IsGraph};
ghost use Rattle.heap_graph.specs.Frozen.{bare};
ghost use Rattle.graph_unification.specs.Going.{GoesOn};
ghost use Rattle.dsa_inlining.specs.Copied.{numbers_in, AreCopied};
ghost use Rattle.dsa_inlining.specs.CallCopies.Telling.{CopyTold, CopiesTold, ArraysTold, AsksCopy, OnlyAsked};

use crate::copies::Copies;
use c_typed::TypeTable;
use graph_unification::{Graph, Name};
use heap_graph::{Flags, FrozenGraph, types_differ};

/// Tells that copies of nodes with allocations are of arrays where they are of other types than these nodes.
pub fn tell_copies(graph: &mut Graph, types: &TypeTable, callee: &FrozenGraph, copies: &Copies)
    requires made { AreMade (structs_in types.now) }
    requires graph { IsGraph types.now graph.old }
    ensures graph { IsGraph types.now graph.new }
    ensures goes { GoesOn (structs_in types.now) (graph_in types.now graph.old) (graph_in types.now graph.new) }
    ensures arrays { ArraysTold (graph_in types.now graph.old) (graph_in types.now graph.new) }
    ensures copied { AreCopied (structs_in types.now) (graph_in types.now graph.old) (bare types.now callee.now) (numbers_in copies.now)
        → AreCopied (structs_in types.now) (graph_in types.now graph.new) (bare types.now callee.now) (numbers_in copies.now) }
    ensures told { CopiesTold (graph_in types.now graph.new) (bare types.now callee.now) (numbers_in copies.now) }
    ensures only { OnlyAsked (AsksCopy (graph_in types.now graph.old) (bare types.now callee.now) (numbers_in copies.now)) (graph_in types.now graph.old) (graph_in types.now graph.new) }
{
    for number in copies.names.keys().as_slice() {
        tell_copy(graph, types, callee, copies, *number);
    }
}

/// Tells so of the copy of one node.
fn tell_copy(
    graph: &mut Graph,
    types: &TypeTable,
    callee: &FrozenGraph,
    copies: &Copies,
    number: usize,
)
    requires made { AreMade (structs_in types.now) }
    requires graph { IsGraph types.now graph.old }
    ensures graph { IsGraph types.now graph.new }
    ensures goes { GoesOn (structs_in types.now) (graph_in types.now graph.old) (graph_in types.now graph.new) }
    ensures arrays { ArraysTold (graph_in types.now graph.old) (graph_in types.now graph.new) }
    ensures told { CopyTold (graph_in types.now graph.new) (bare types.now callee.now) (numbers_in copies.now) number }
    ensures only { OnlyAsked (AsksCopy (graph_in types.now graph.old) (bare types.now callee.now) (numbers_in copies.now)) (graph_in types.now graph.old) (graph_in types.now graph.new) }
{
    let Some(node) = callee.node(number) else {
        return;
    };
    let Some(copy) = copies.names.get(&number) else {
        return;
    };
    let Some(target) = graph.target(Name::Copy(*copy)) else {
        return;
    };
    let Some((element, flags)) = graph.node(target.node) else {
        return;
    };
    if node.flags.heap && types_differ(types, node.element, element) {
        graph.set_flags(
            target.node,
            Flags {
                array: true,
                ..flags
            },
        );
    }
}
