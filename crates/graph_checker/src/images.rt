// Where targets of the graph of a function that is called are in the caller's graph.

ghost use Rattle.std.specs.Prelude.{◌≡◌, ◌<◌};
ghost use Rattle.c_typed.specs.Table.{Interned};
ghost use Rattle.heap_graph.specs.Frozen.{optional_target, static_in, bare};
ghost use Rattle.heap_graph.specs.Reached.{optional_reached};
ghost use Rattle.graph_checker.specs.Images.{placed, placed_by};

use heap_graph::{FrozenGraph, Reached, Target, shifted, widened};
use indexmap::IndexMap;

/// Where nodes of the graph of the function that is called are in the caller's graph.
#[derive(Clone, Copy)]
pub(crate) enum Places<'a> {
    /// Both are in one group, so they are the same nodes.
    Same,
    Embedded(&'a IndexMap<usize, Target>),
}

/// Where a target is in a graph, if an embedding tells where nodes are.
pub(crate) fn image(
    graph: &FrozenGraph,
    embedding: &IndexMap<usize, Target>,
    target: Option<Target>,
) -> Option<Reached>
    ensures { (table : Interned) → optional_reached result ≡ placed (bare table graph.now) (static_in embedding.now) (optional_target target) }
{
    let target = target?;
    let node = embedding.get(&target.node).copied();
    shifted(graph, target.shift, widened(node))
}

/// Where a target of the function that is called is in the caller's graph.
pub(crate) fn place(
    graph: &FrozenGraph,
    places: Places<'_>,
    target: Option<Target>,
) -> Option<Reached>
    ensures { (table : Interned) → optional_reached result ≡ placed_by (bare table graph.now) places.entry (optional_target target) }
{
    match places {
        Places::Same => widened(target),
        Places::Embedded(embedding) => image(graph, embedding, target),
    }
}
