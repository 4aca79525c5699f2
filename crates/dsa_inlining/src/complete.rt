// The nodes that escape no function of a group are complete.

ghost use Rattle.std.specs.Prelude.{◌≡◌, ◌↔◌, ◌<◌, true, length, IfOk};
ghost use Rattle.dsa_inlining.specs.Complete.{HasFunction, AreEscaping, MarksNode, MarksComplete};

use heap_graph::{FrozenGraph, FunctionNames, Node, NodeMarks, reached};
use std::alloc::{AllocError, Global};
use tac_ir::FunctionId;

/// The nodes that escape one of the functions with these names. None escapes `start`.
pub(crate) fn escaping_one(
    alloc: Global,
    graph: &FrozenGraph,
    owners: &[Option<FunctionId>],
    names: &[FunctionNames],
) -> Result<NodeMarks, AllocError>
    requires { length names.now ≡ length owners.now }
    ensures { IfOk result (AreEscaping graph.now owners.now names.now) }
{
    let mut starts = NodeMarks::new(alloc, graph)?;
    for (index, owner) in owners.iter().enumerate() {
        if owner.is_some() {
            starts.add_outside(&names[index]);
        }
    }
    if has_function(owners) {
        starts.add_statics(graph);
    }
    reached(alloc, graph, starts)
}

/// Whether one of the owners is a function and not `start`.
fn has_function(owners: &[Option<FunctionId>]) -> bool
    ensures { (result ≡ true) ↔ HasFunction owners.now }
{
    for owner in owners {
        if owner.is_some() {
            return true;
        }
    }
    false
}

/// Marks exactly those nodes as complete that don't escape.
pub(crate) fn mark_complete(nodes: &mut Vec<Option<Node>>, escaping: &NodeMarks)
    ensures { MarksComplete escaping.now nodes.old.items nodes.new.items }
{
    for number in 0..nodes.len() {
        set_complete(nodes, number, !escaping.is_marked(number));
    }
}

/// Tells of a node, where there is one, whether it is complete.
fn set_complete(nodes: &mut Vec<Option<Node>>, number: usize, complete: bool)
    requires { number < length nodes.old.items }
    ensures { MarksNode number complete nodes.old.items nodes.new.items }
{
    match &mut nodes[number] {
        Some(node) => node.flags.complete = complete,
        None => {}
    }
}
