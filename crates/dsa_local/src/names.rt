// Steps at the targets of names.

ghost use Rattle.std.specs.Prelude.{◌≡◌, true, OnOk};
ghost use Rattle.c_typed.specs.Table.{structs_in};
ghost use Rattle.heap_graph.specs.Structures.{AreMade};
ghost use Rattle.heap_graph.specs.Targets.{has_target};
ghost use Rattle.graph_unification.specs.Memory.{name_of, graph_in, IsGraph};
ghost use Rattle.dsa_local.specs.Joined.{Joins, HaveOne, IsPassed};

use c_typed::TypeTable;
use graph_unification::{Graph, Mark, Name, make_one, mark};
use std::alloc::AllocError;

/// Makes the targets of two names one.
pub(crate) fn join(graph: &mut Graph, types: &TypeTable, a: Name, b: Name) -> Result<(), AllocError>
    requires made { AreMade (structs_in types.now) }
    requires graph { IsGraph types.now graph.old }
    requires first { has_target ((graph_in types.now graph.old).targets (name_of a)) ≡ true }
    requires second { has_target ((graph_in types.now graph.old).targets (name_of b)) ≡ true }
    ensures graph { OnOk result (IsGraph types.now graph.new) }
    ensures joins { OnOk result (Joins (structs_in types.now) (graph_in types.now graph.old) (graph_in types.now graph.new) (HaveOne (name_of a) (name_of b))) }
{
    let Some(one) = graph.target(a) else {
        return Ok(());
    };
    let Some(other) = graph.target(b) else {
        return Ok(());
    };
    make_one(graph, types, one, other)?;
    Ok(())
}

/// Makes the target of an argument certain, and one with that of the formal.
pub(crate) fn pass(
    graph: &mut Graph,
    types: &TypeTable,
    argument: Name,
    formal: Name,
) -> Result<(), AllocError>
    requires made { AreMade (structs_in types.now) }
    requires graph { IsGraph types.now graph.old }
    requires argument { has_target ((graph_in types.now graph.old).targets (name_of argument)) ≡ true }
    requires formal { has_target ((graph_in types.now graph.old).targets (name_of formal)) ≡ true }
    ensures graph { OnOk result (IsGraph types.now graph.new) }
    ensures joins { OnOk result (Joins (structs_in types.now) (graph_in types.now graph.old) (graph_in types.now graph.new) (IsPassed (name_of argument) (name_of formal))) }
{
    let Some(target) = graph.target(argument) else {
        return Ok(());
    };
    mark(graph, target.node, Mark::Certain);
    join(graph, types, argument, formal)
}
