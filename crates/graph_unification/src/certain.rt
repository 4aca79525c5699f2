// Targets whose nodes are certain.

ghost use Rattle.std.specs.Prelude.{◌≡◌, Some};
ghost use Rattle.c_typed.specs.Table.{Interned};
ghost use Rattle.heap_graph.specs.Memory.{target_of};
ghost use Rattle.graph_unification.specs.Memory.{name_of, graph_in, IsGraph};
ghost use Rattle.heap_graph.specs.Frozen.{optional_target};
ghost use Rattle.heap_graph.specs.Asks as A;
ghost use Rattle.graph_unification.specs.Freezing.{certain_name};

use crate::graph::Graph;
use crate::name::Name;
use heap_graph::Target;

/// Whether a target's node is certain.
pub(crate) fn is_certain(graph: &Graph, target: Target) -> bool
    ensures { (table : Interned) → result ≡ A.is_certain (graph_in table graph.now) (Some (target_of target)) }
{
    match graph.node(target.node) {
        Some((_, flags)) => flags.certain,
        None => false,
    }
}

/// The target of a name, where its node is certain.
pub fn certain_target(graph: &Graph, name: Name) -> Option<Target>
    ensures { (table : Interned) → IsGraph table graph.now → optional_target result ≡ certain_name (graph_in table graph.now) (name_of name) }
{
    match graph.target(name) {
        Some(target) => {
            if is_certain(graph, target) {
                Some(target)
            } else {
                None
            }
        }
        None => None,
    }
}
