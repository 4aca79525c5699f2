// Steps by which a graph is made.

ghost use Rattle.std.specs.Prelude.{◌≡◌, ◌<◌, true, false, Some, IfOk, OnOk};
ghost use Rattle.c_typed.specs.Table.{Interned, structs_in, type_in};
ghost use Rattle.heap_graph.specs.Graphs.{Name};
ghost use Rattle.heap_graph.specs.Parts.{slots_of};
ghost use Rattle.heap_graph.specs.Targets.{has_target, at_target, edge_at, holds_part};
ghost use Rattle.heap_graph.specs.Structures.{AreMade};
ghost use Rattle.heap_graph.specs.Memory.{target_of};
ghost use Rattle.heap_graph.specs.Merging.{IsSlot, AreOne, HasEdge};
ghost use Rattle.heap_graph.specs.Steps.{IsNode};
ghost use Rattle.graph_unification.specs.Memory.{graph_in, IsGraph};
ghost use Rattle.graph_unification.specs.Asked.{HoldsPart, has_mark, HasMark};
ghost use Rattle.graph_unification.specs.Leading.{Least};

use crate::graph::Graph;
use crate::marks::{Mark, no_flags};
use c_typed::{CType, TypeTable};
use heap_graph::{Element, Target, holds_part};
use std::alloc::AllocError;

/// Makes two targets one.
pub fn make_one(
    graph: &mut Graph,
    types: &TypeTable,
    a: Target,
    b: Target,
) -> Result<bool, AllocError>
    requires made { AreMade (structs_in types.now) }
    requires graph { IsGraph types.now graph.old }
    requires first { IsSlot (structs_in types.now) (graph_in types.now graph.old) (target_of a) }
    requires second { IsSlot (structs_in types.now) (graph_in types.now graph.old) (target_of b) }
    ensures graph { OnOk result (IsGraph types.now graph.new) }
    ensures names { OnOk result ((name : Name) → has_target ((graph_in types.now graph.new).targets name) ≡ has_target ((graph_in types.now graph.old).targets name)) }
    ensures least { OnOk result (Least (structs_in types.now) (graph_in types.now graph.old) (graph_in types.now graph.new) (AreOne (target_of a) (target_of b))) }
    ensures done { IfOk result (λ changed. changed ≡ false → (graph_in types.now graph.new ≡ graph_in types.now graph.old) × (target_of a ≡ target_of b)) }
{
    if a.node == b.node && a.shift == b.shift {
        return Ok(false);
    }
    graph.merge(types, a, b)?;
    Ok(true)
}

/// Tells a type of a target: a part of it begins there, or the node is collapsed.
pub fn tell(
    graph: &mut Graph,
    types: &TypeTable,
    at: Target,
    c_type: CType,
) -> Result<bool, AllocError>
    requires made { AreMade (structs_in types.now) }
    requires graph { IsGraph types.now graph.old }
    requires at { IsSlot (structs_in types.now) (graph_in types.now graph.old) (target_of at) }
    requires some { 0 < slots_of (structs_in types.now) (type_in types.now c_type) }
    ensures graph { OnOk result (IsGraph types.now graph.new) }
    ensures names { OnOk result ((name : Name) → has_target ((graph_in types.now graph.new).targets name) ≡ has_target ((graph_in types.now graph.old).targets name)) }
    ensures least { OnOk result (Least (structs_in types.now) (graph_in types.now graph.old) (graph_in types.now graph.new) (HoldsPart (structs_in types.now) (type_in types.now c_type) (target_of at))) }
    ensures done { IfOk result (λ changed. changed ≡ false → (graph_in types.now graph.new ≡ graph_in types.now graph.old) × (at_target (graph_in types.now graph.old) (Some (target_of at)) (holds_part (structs_in types.now) (type_in types.now c_type)) ≡ true)) }
{
    let Some((element, _)) = graph.node(at.node) else {
        return Ok(false);
    };
    if holds_part(types, c_type, element, at.shift) {
        return Ok(false);
    }
    let told = Element::OfType(types.number_of(c_type));
    let node = graph.new_node(told, no_flags())?;
    graph.merge(types, at, Target { node, shift: 0 })?;
    Ok(true)
}

/// Sets a flag of a node.
pub fn mark(graph: &mut Graph, node: usize, mark: Mark) -> bool
    ensures graph { (table : Interned) → IsGraph table graph.old → IsGraph table graph.new }
    ensures names { (table : Interned) (name : Name) → has_target ((graph_in table graph.new).targets name) ≡ has_target ((graph_in table graph.old).targets name) }
    ensures least { (table : Interned) → AreMade (structs_in table) → IsGraph table graph.old → IsNode (graph_in table graph.old) node → Least (structs_in table) (graph_in table graph.old) (graph_in table graph.new) (HasMark node mark) }
    ensures done { (table : Interned) → IsGraph table graph.old → IsNode (graph_in table graph.old) node → result ≡ false
        → (graph_in table graph.new ≡ graph_in table graph.old) × (at_target (graph_in table graph.old) (Some (record { node = node; shift = 0 })) (λ n shift. has_mark mark n.flags) ≡ true) }
{
    let Some((_, flags)) = graph.node(node) else {
        return false;
    };
    if mark.is_set(flags) {
        return false;
    }
    graph.set_flags(node, mark.set(flags));
    true
}

/// Gives a slot an edge to a target.
pub fn set_edge_to(
    graph: &mut Graph,
    types: &TypeTable,
    at: Target,
    to: Target,
) -> Result<bool, AllocError>
    requires made { AreMade (structs_in types.now) }
    requires graph { IsGraph types.now graph.old }
    requires from { IsSlot (structs_in types.now) (graph_in types.now graph.old) (target_of at) }
    requires to { IsSlot (structs_in types.now) (graph_in types.now graph.old) (target_of to) }
    ensures graph { OnOk result (IsGraph types.now graph.new) }
    ensures names { OnOk result ((name : Name) → has_target ((graph_in types.now graph.new).targets name) ≡ has_target ((graph_in types.now graph.old).targets name)) }
    ensures least { OnOk result (Least (structs_in types.now) (graph_in types.now graph.old) (graph_in types.now graph.new) (HasEdge at.node at.shift (target_of to))) }
    ensures done { IfOk result (λ changed. changed ≡ false → (graph_in types.now graph.new ≡ graph_in types.now graph.old) × (edge_at (graph_in types.now graph.old) (Some (target_of at)) ≡ Some (target_of to))) }
{
    match graph.edge(at.node, at.shift) {
        Some(end) => {
            if end.node == to.node && end.shift == to.shift {
                return Ok(false);
            }
        }
        None => {}
    }
    graph.set_edge(types, at.node, at.shift, to)?;
    Ok(true)
}
