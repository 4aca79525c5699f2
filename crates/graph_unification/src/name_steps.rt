// Steps at the targets of names.

ghost use Rattle.std.specs.Prelude.{◌≡◌, ◌<◌, ◌||◌, true, IfOk, OnOk};
ghost use Rattle.c_typed.specs.Layouts as L;
ghost use Rattle.c_typed.specs.Table.{Interned, structs_in, type_in};
ghost use Rattle.heap_graph.specs.Parts as P;
ghost use Rattle.heap_graph.specs.Structures.{AreMade};
ghost use Rattle.heap_graph.specs.Targets as T;
ghost use Rattle.graph_unification.specs.Memory.{name_of, graph_in, IsGraph};
ghost use Rattle.heap_graph.specs.Asks.{is_certain};
ghost use Rattle.graph_unification.specs.Applying.{Applies, AreSame, IsMarked, IsMarkedIf, IsTold};

use crate::graph::Graph;
use crate::marks::Mark;
use crate::name::Name;
use c_typed::{CType, TypeTable};
use heap_graph::is_complete;
use std::alloc::AllocError;

/// Whether the node of a name's target is certain.
pub(crate) fn is_certain(graph: &Graph, name: Name) -> bool
    ensures { (table : Interned) → IsGraph table graph.now → result ≡ is_certain (graph_in table graph.now) ((graph_in table graph.now).targets (name_of name)) }
{
    let Some(target) = graph.target(name) else {
        return false;
    };
    let Some((_, flags)) = graph.node(target.node) else {
        return false;
    };
    flags.certain
}

/// Makes the targets of two names one.
pub(crate) fn join(
    graph: &mut Graph,
    types: &TypeTable,
    a: Name,
    b: Name,
) -> Result<bool, AllocError>
    requires made { AreMade (structs_in types.now) }
    requires graph { IsGraph types.now graph.old }
    requires first { T.has_target ((graph_in types.now graph.old).targets (name_of a)) ≡ true }
    requires second { T.has_target ((graph_in types.now graph.old).targets (name_of b)) ≡ true }
    ensures graph { OnOk result (IsGraph types.now graph.new) }
    ensures applies { IfOk result (λ changed. Applies (structs_in types.now) changed (graph_in types.now graph.old) (graph_in types.now graph.new) (AreSame (name_of a) (name_of b))) }
{
    let Some(one) = graph.target(a) else {
        return Ok(false);
    };
    let Some(other) = graph.target(b) else {
        return Ok(false);
    };
    crate::steps::make_one(graph, types, one, other)
}

/// Sets a flag of the node of a name's target.
pub(crate) fn mark(graph: &mut Graph, types: &TypeTable, name: Name, mark: Mark) -> bool
    requires made { AreMade (structs_in types.now) }
    requires graph { IsGraph types.now graph.old }
    requires target { T.has_target ((graph_in types.now graph.old).targets (name_of name)) ≡ true }
    ensures graph { IsGraph types.now graph.new }
    ensures applies { Applies (structs_in types.now) result (graph_in types.now graph.old) (graph_in types.now graph.new) (IsMarked (name_of name) mark) }
{
    let _ = types;
    let Some(target) = graph.target(name) else {
        return false;
    };
    crate::steps::mark(graph, target.node, mark)
}

/// Sets a flag of the node of a name's target, if that is asked.
pub(crate) fn mark_if(
    graph: &mut Graph,
    types: &TypeTable,
    asked: bool,
    name: Name,
    flag: Mark,
) -> bool
    requires made { AreMade (structs_in types.now) }
    requires graph { IsGraph types.now graph.old }
    requires target { T.has_target ((graph_in types.now graph.old).targets (name_of name)) ≡ true }
    ensures graph { IsGraph types.now graph.new }
    ensures applies { Applies (structs_in types.now) result (graph_in types.now graph.old) (graph_in types.now graph.new) (IsMarkedIf asked (name_of name) flag) }
{
    if asked {
        mark(graph, types, name, flag)
    } else {
        false
    }
}

/// Tells a type of a name's target, if it is complete.
pub(crate) fn tell(
    graph: &mut Graph,
    types: &TypeTable,
    name: Name,
    c_type: CType,
) -> Result<bool, AllocError>
    requires made { AreMade (structs_in types.now) }
    requires graph { IsGraph types.now graph.old }
    requires target { T.has_target ((graph_in types.now graph.old).targets (name_of name)) ≡ true }
    requires some { L.is_complete (structs_in types.now) (type_in types.now c_type) ≡ true → 0 < P.slots_of (structs_in types.now) (type_in types.now c_type) }
    ensures graph { OnOk result (IsGraph types.now graph.new) }
    ensures told { OnOk result (IsTold (structs_in types.now) (name_of name) (type_in types.now c_type) (graph_in types.now graph.new)) }
    ensures applies { IfOk result (λ changed. Applies (structs_in types.now) changed (graph_in types.now graph.old) (graph_in types.now graph.new) (IsTold (structs_in types.now) (name_of name) (type_in types.now c_type))) }
{
    if !is_complete(types, c_type) {
        return Ok(false);
    }
    let Some(target) = graph.target(name) else {
        return Ok(false);
    };
    crate::steps::tell(graph, types, target, c_type)
}

/// Whether one of two things was changed.
pub(crate) fn either(a: bool, b: bool) -> bool
    ensures { result ≡ (a || b) }
{
    if a { true } else { b }
}
