// Embeddings of the nodes that escape a function into the graph of its caller.

ghost use Rattle.std.specs.Prelude.{◌≡◌, ◌↔◌, true, false, get_or};
ghost use Rattle.c_typed.specs.Table.{structs_in};
ghost use Rattle.tac_ir.specs.States.{Owner};
ghost use Rattle.heap_graph.specs.Closed as C;
ghost use Rattle.heap_graph.specs.Graphs as G;
ghost use Rattle.heap_graph.specs.Structures.{AreMade};
ghost use Rattle.heap_graph.specs.Frozen.{static_in};
ghost use Rattle.heap_graph.specs.Shows.{ShowsGraph};
ghost use Rattle.graph_checker.specs.Calling.{DecidesEmbedding};
ghost use Rattle.heap_graph.specs.Embeddings.{NodesHaveSlots, AreImages, AreListed, OnlyMarked, IsKeptIf, AreKept, is_marked};

use crate::calls::Caller;
use crate::kept::is_kept;
use heap_graph::{FrozenGraph, Target};
use indexmap::IndexMap;

/// The nodes that escape a function: marked by their numbers, and listed.
#[derive(Clone, Copy)]
pub struct Escaping<'a> {
    pub marks: &'a [bool],
    pub nodes: &'a [usize],
}

/// Whether exactly the nodes that escape the function that is called have images in the caller's graph, which keep them. The nodes that
/// escape are marked by their numbers.
pub fn embedding_closed(
    caller: Caller<'_>,
    called: &FrozenGraph,
    escaping: &[bool],
    embedding: &IndexMap<usize, Target>,
) -> bool
    requires made { AreMade (structs_in caller.types.now) }
    requires some { NodesHaveSlots caller.types.now called.now }
    ensures { DecidesEmbedding caller.entry called.now escaping.now embedding.now result }
{
    only_marked(called, escaping, embedding) && are_kept(caller, called, escaping, embedding)
}

/// The same, by the nodes that escape alone: it looks at no other node of the graph.
pub fn listed_embedding_closed(
    caller: Caller<'_>,
    called: &FrozenGraph,
    escaping: Escaping<'_>,
    embedding: &IndexMap<usize, Target>,
) -> bool
    requires made { AreMade (structs_in caller.types.now) }
    requires some { NodesHaveSlots caller.types.now called.now }
    ensures { AreListed called.now escaping.entry.marks.now escaping.entry.nodes.now → DecidesEmbedding caller.entry called.now escaping.entry.marks.now embedding.now result }
{
    only_marked(called, escaping.marks, embedding)
        && are_listed_kept(caller, called, escaping, embedding)
}

/// Whether only nodes that are marked have images.
fn only_marked(called: &FrozenGraph, escaping: &[bool], embedding: &IndexMap<usize, Target>) -> bool
    ensures { result ≡ true ↔ OnlyMarked called.now escaping.now (static_in embedding.now) }
{
    for number in embedding.keys().as_slice() {
        if !is_marked(called, escaping, *number) {
            return false;
        }
    }
    true
}

/// Whether a number is that of a node, and marked.
fn is_marked(graph: &FrozenGraph, escaping: &[bool], number: usize) -> bool
    ensures { result ≡ is_marked graph.now escaping.now number }
{
    number < graph.nodes.len() && is_set(escaping, number)
}

/// Whether a number is marked.
fn is_set(marks: &[bool], number: usize) -> bool
    ensures { result ≡ get_or marks.now number false }
{
    marks.get(number).copied().unwrap_or(false)
}

/// Whether each node that is marked has an image that keeps it.
fn are_kept(
    caller: Caller<'_>,
    called: &FrozenGraph,
    escaping: &[bool],
    embedding: &IndexMap<usize, Target>,
) -> bool
    requires made { AreMade (structs_in caller.types.now) }
    requires some { NodesHaveSlots caller.types.now called.now }
    ensures { (family : C.Family) (owner : Owner) (images : G.Embedding) → ShowsGraph caller.entry.types.now family owner caller.entry.graph.now → AreImages images (static_in embedding.now)
        → (result ≡ true ↔ AreKept family owner images caller.entry.types.now called.now escaping.now) }
{
    for number in 0..called.nodes.len() {
        if !is_kept_if(caller, called, escaping, embedding, number) {
            return false;
        }
    }
    true
}

/// The same, where the nodes that are marked are listed.
fn are_listed_kept(
    caller: Caller<'_>,
    called: &FrozenGraph,
    escaping: Escaping<'_>,
    embedding: &IndexMap<usize, Target>,
) -> bool
    requires made { AreMade (structs_in caller.types.now) }
    requires some { NodesHaveSlots caller.types.now called.now }
    ensures { (family : C.Family) (owner : Owner) (images : G.Embedding) → ShowsGraph caller.entry.types.now family owner caller.entry.graph.now → AreImages images (static_in embedding.now)
        → AreListed called.now escaping.entry.marks.now escaping.entry.nodes.now
        → (result ≡ true ↔ AreKept family owner images caller.entry.types.now called.now escaping.entry.marks.now) }
{
    for number in escaping.nodes {
        if !is_kept_if(caller, called, escaping.marks, embedding, *number) {
            return false;
        }
    }
    true
}

/// Whether a number, if it is that of a node that is marked, has an image that keeps the node.
fn is_kept_if(
    caller: Caller<'_>,
    called: &FrozenGraph,
    escaping: &[bool],
    embedding: &IndexMap<usize, Target>,
    number: usize,
) -> bool
    requires made { AreMade (structs_in caller.types.now) }
    requires some { NodesHaveSlots caller.types.now called.now }
    ensures { (family : C.Family) (owner : Owner) (images : G.Embedding) → ShowsGraph caller.entry.types.now family owner caller.entry.graph.now → AreImages images (static_in embedding.now)
        → (result ≡ true ↔ IsKeptIf family owner images caller.entry.types.now called.now escaping.now number) }
{
    match called.node(number) {
        None => true,
        Some(node) => !is_set(escaping, number) || is_kept(caller, embedding, number, node),
    }
}
