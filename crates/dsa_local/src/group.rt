// The nodes with which the graph of a group begins.

ghost use Rattle.std.specs.Prelude.{◌≡◌, map, Some, IfOk, OnOk};
ghost use Rattle.c_typed.specs.DefinitionViews.{LiteralsStand};
ghost use Rattle.tac_ir.specs.States.{function_of};
ghost use Rattle.tac_ir.specs.Views.{function_in, tac_of};
ghost use Rattle.graph_unification.specs.Memory.{owner_of, graph_in, IsGraph};
ghost use Rattle.graph_unification.specs.Going.{AllNamed};
ghost use Rattle.graph_unification.specs.Standing.{CodeStands};
ghost use Rattle.dsa_local.specs.Beginning.{Begins, AddsMember, AddsOwner};
ghost use Rattle.dsa_local.specs.Told.{NamesTold, NoCopies};

use crate::mentioned::add_mentioned;
use graph_unification::{Graph, add_function};
use std::alloc::{AllocError, Global};
use tac_ir::{Function, FunctionId, Tac};

/// The graph with which that of a group of functions begins; `None` stands for `start`. Each name of a function has a node of its own, and so
/// has each variable outside functions and each literal with which a path begins.
pub fn begin_group(
    alloc: Global,
    tac: &Tac,
    owners: &[Option<FunctionId>],
) -> Result<Graph, AllocError>
    requires code { CodeStands (tac_of tac.now) }
    requires literals { LiteralsStand tac.now.types tac.now.literals.items }
    ensures graph { IfOk result (λ graph. IsGraph tac.now.types graph) }
    ensures begins { IfOk result (λ graph. Begins (tac_of tac.now) (map owner_of owners.now) (graph_in tac.now.types graph)) }
    ensures told { IfOk result (λ graph. NamesTold (tac_of tac.now) (map owner_of owners.now) (graph_in tac.now.types graph)) }
    ensures copies { IfOk result (λ graph. NoCopies (graph_in tac.now.types graph)) }
    ensures named { IfOk result (λ graph. AllNamed (graph_in tac.now.types graph)) }
{
    let mut graph = Graph::new(alloc);
    for owner in owners {
        add_owner(&mut graph, tac, *owner)?;
    }
    Ok(graph)
}

/// Adds the names of a function, or of `start`, and those with which its paths begin.
fn add_owner(graph: &mut Graph, tac: &Tac, owner: Option<FunctionId>) -> Result<(), AllocError>
    requires code { CodeStands (tac_of tac.now) }
    requires literals { LiteralsStand tac.now.types tac.now.literals.items }
    requires graph { IsGraph tac.now.types graph.old }
    ensures graph { OnOk result (IsGraph tac.now.types graph.new) }
    ensures adds { OnOk result (AddsOwner (tac_of tac.now) (owner_of owner) (graph_in tac.now.types graph.old) (graph_in tac.now.types graph.new)) }
{
    match owner {
        None => add_member(graph, tac, owner, &tac.start),
        Some(number) => match tac.functions.get(number.0) {
            Some(function) => add_member(graph, tac, owner, function),
            None => Ok(()),
        },
    }
}

/// The same for a function that is there.
fn add_member(
    graph: &mut Graph,
    tac: &Tac,
    owner: Option<FunctionId>,
    function: &Function,
) -> Result<(), AllocError>
    requires code { CodeStands (tac_of tac.now) }
    requires literals { LiteralsStand tac.now.types tac.now.literals.items }
    requires is { function_of (tac_of tac.now) (owner_of owner) ≡ Some (function_in tac.now.types function.now) }
    requires graph { IsGraph tac.now.types graph.old }
    ensures graph { OnOk result (IsGraph tac.now.types graph.new) }
    ensures adds { OnOk result (AddsMember (tac_of tac.now) (owner_of owner) (function_in tac.now.types function.now) (graph_in tac.now.types graph.old) (graph_in tac.now.types graph.new)) }
{
    add_function(graph, &tac.types, owner, function)?;
    add_mentioned(graph, tac, function.points.as_slice())
}
