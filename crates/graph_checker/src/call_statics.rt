// Variables outside functions and literals at calls out of a group.

ghost use Rattle.std.specs.Prelude.{◌≡◌, ℕ};
ghost use Rattle.c_typed.specs.Table.{Interned};
ghost use Rattle.tac_ir.specs.States.{Owner};
ghost use Rattle.heap_graph.specs.Closed as C;
ghost use Rattle.heap_graph.specs.Graphs as G;
ghost use Rattle.heap_graph.specs.Frozen.{bare, static_in};
ghost use Rattle.heap_graph.specs.Shows.{ShowsGraph};
ghost use Rattle.graph_checker.specs.Images.{static_kept};

use crate::images::image;
use heap_graph::{FrozenGraph, Target, has_target, is_at};
use indexmap::IndexMap;

/// Whether what the graph of the function that is called mentions of the variables outside functions, or of the literals, comes to the
/// targets of the caller's. The program has `count` of them.
pub(crate) fn are_statics_closed(
    graph: &FrozenGraph,
    own: &IndexMap<usize, Target>,
    called: &IndexMap<usize, Target>,
    embedding: &IndexMap<usize, Target>,
    count: usize,
) -> bool
    ensures { (table : Interned) (family : C.Family) (owner : Owner) (callee : G.Graph) (images : G.Embedding) (name : ℕ → G.Name) → ShowsGraph table family owner graph.now
        → ((number : ℕ) → (C.graph_of family owner).targets (name number) ≡ static_in own.now number)
        → ((number : ℕ) → callee.targets (name number) ≡ static_in called.now number)
        → ((node : ℕ) → images node ≡ static_in embedding.now node)
        → result ≡ C.all_statics_closed family owner callee images name count }
{
    for number in called.keys().as_slice() {
        if *number < count && !is_static_closed(graph, own, called, embedding, *number) {
            return false;
        }
    }
    true
}

/// The same of the one with this number.
fn is_static_closed(
    graph: &FrozenGraph,
    own: &IndexMap<usize, Target>,
    called: &IndexMap<usize, Target>,
    embedding: &IndexMap<usize, Target>,
    number: usize,
) -> bool
    ensures { (table : Interned) → result ≡ static_kept (bare table graph.now) (static_in embedding.now) (static_in own.now number) (static_in called.now number) }
{
    match called.get(&number) {
        None => true,
        Some(target) => {
            let own = own.get(&number).copied();
            has_target(own) && is_at(own, image(graph, embedding, Some(*target)))
        }
    }
}
