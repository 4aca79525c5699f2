// Whether targets are slots of nodes.

ghost use Rattle.std.specs.Prelude.{◌≡◌, ◌↔◌, IsTrue, nat_eq};
ghost use Rattle.indexmap.specs.IndexMap.{IsUnique};
ghost use Rattle.c_typed.specs.Table.{Interned};
ghost use Rattle.heap_graph.specs.Frozen.{bare};
ghost use Rattle.graph_checker.specs.SoundGraphs.Sound.{NamesAreSlots, StaticsAreSlots};
ghost use Rattle.graph_checker.specs.Tests.{are_slots, entry_slots, is_slot_in, other_slots, registers_slots};

use heap_graph::{FrozenGraph, FunctionNames, Target, is_collapsed};
use indexmap::IndexMap;

/// Whether the targets of a function's names are slots of the graph's nodes.
pub fn names_are_slots(graph: &FrozenGraph, names: &FunctionNames) -> bool
    ensures { (table : Interned) → IsTrue result ↔ NamesAreSlots (bare table graph.now) names.now }
{
    registers_slots(graph, names) && other_slots(graph, names)
}

/// Whether the targets of variables outside functions and of literals are slots of the graph's nodes.
pub fn statics_are_slots(graph: &FrozenGraph) -> bool
    ensures { (table : Interned) → IsTrue result ↔ StaticsAreSlots table graph.now }
{
    static_slots(graph, &graph.globals) && static_slots(graph, &graph.literals)
}

/// Whether the targets of a function's registers are slots.
fn registers_slots(graph: &FrozenGraph, names: &FunctionNames) -> bool
    ensures { result ≡ registers_slots graph.now names.now }
{
    are_slots(graph, &names.parameters)
        && are_slots(graph, &names.variables)
        && are_slots(graph, &names.calls)
        && are_slots(graph, &names.arguments)
        && are_slots(graph, &names.expressions)
}

/// Whether the targets of a function's result and of its locals in memory are slots.
fn other_slots(graph: &FrozenGraph, names: &FunctionNames) -> bool
    ensures { result ≡ other_slots graph.now names.now }
{
    is_slot(graph, names.returned)
        && are_slots(graph, &names.parameter_objects)
        && are_slots(graph, &names.variable_objects)
}

/// Whether all these targets are slots.
fn are_slots(graph: &FrozenGraph, targets: &Vec<Option<Target>>) -> bool
    ensures { result ≡ are_slots graph.now targets.now.items }
{
    for target in targets {
        if !is_slot(graph, *target) {
            return false;
        }
    }
    true
}

/// Whether the targets of variables outside functions, or of literals, are slots.
fn static_slots(graph: &FrozenGraph, targets: &IndexMap<usize, Target>) -> bool
    ensures slots { result ≡ entry_slots graph.now targets.now.entries }
    ensures unique { IsUnique nat_eq targets.now }
{
    for (_, target) in targets {
        if !is_slot(graph, Some(*target)) {
            return false;
        }
    }
    true
}

/// Whether a target is a slot of a node. A collapsed node has one slot.
pub(crate) fn is_slot(graph: &FrozenGraph, target: Option<Target>) -> bool
    ensures { result ≡ is_slot_in graph.now target }
{
    match target {
        None => true,
        Some(target) => match graph.node(target.node) {
            None => false,
            Some(node) => !is_collapsed(node.element) || target.shift == 0,
        },
    }
}
