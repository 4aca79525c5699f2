// Whether all nodes are complete that escape no function of a group.

ghost use Rattle.std.specs.Prelude.{◌≡◌, ℕ, ◌<◌, ◌↔◌, true, length, map, IfOk, All};
ghost use Rattle.c_typed.specs.Table.{Interned};
ghost use Rattle.tac_ir.specs.States.{InFunction};
ghost use Rattle.heap_graph.specs.Graphs.{Graph};
ghost use Rattle.heap_graph.specs.Closed.{Family, graph_of, is_in, is_start, of_group};
ghost use Rattle.heap_graph.specs.Frozen.{optional_node};
ghost use Rattle.heap_graph.specs.Shows.{ShowsGroup};
ghost use Rattle.heap_graph.specs.Edges.{EdgesAreFound};
ghost use Rattle.heap_graph.specs.Complete.{numbers, AreComplete, AreOthersComplete, complete_if};

use crate::frozen::{FrozenGraph, Node};
use crate::marks::NodeMarks;
use crate::program::FunctionGraph;
use crate::search::reached;
use std::alloc::{AllocError, Global};
use tac_ir::FunctionId;

/// Whether all nodes are complete that escape no function of the group.
pub fn complete_closed(
    alloc: Global,
    graph: &FrozenGraph,
    functions: &[FunctionGraph],
    members: &[FunctionId],
) -> Result<bool, AllocError>
    requires edges { EdgesAreFound graph.now }
    requires members { All (λ member. member.0 < length functions.now) members.now }
    ensures { IfOk result (λ closed. (table : Interned) (family : Family) → ShowsGroup table family (numbers members.now) graph.now functions.now
        → (one : ℕ) → is_in one (numbers members.now) ≡ true
        → (closed ≡ true) ↔ AreComplete (graph_of family (InFunction one)) (of_group (numbers members.now))) }
{
    let mut starts = NodeMarks::new(alloc, graph)?;
    for member in members {
        starts.add_outside(&functions[member.0].names);
    }
    starts.add_statics(graph);
    let escaping = reached(alloc, graph, starts)?;
    Ok(others_complete(graph, &escaping))
}

/// Whether all nodes are complete that aren't marked.
fn others_complete(graph: &FrozenGraph, marks: &NodeMarks) -> bool
    ensures { (result ≡ true) ↔ AreOthersComplete graph.now.nodes.items marks.now }
{
    for (number, node) in graph.nodes.iter().enumerate() {
        if !is_complete(node) && !marks.is_marked(number) {
            return false;
        }
    }
    true
}

/// Whether all nodes are complete, as those of `start` have to be: none escapes it.
pub fn all_complete(graph: &FrozenGraph) -> bool
    ensures { (table : Interned) (shown : Graph) → shown.nodes ≡ map (optional_node table) graph.now.nodes.items → (result ≡ true) ↔ AreComplete shown is_start }
{
    for node in &graph.nodes {
        if !is_complete(node) {
            return false;
        }
    }
    true
}

/// Whether a node is complete, where there is one.
fn is_complete(node: &Option<Node>) -> bool
    ensures { result ≡ complete_if node.now }
{
    match node {
        None => true,
        Some(node) => node.flags.complete,
    }
}
