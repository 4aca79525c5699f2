// The graph of a group once it isn't changed any more.

ghost use Rattle.std.specs.Prelude.{IfOk, All};
ghost use Rattle.c_typed.specs.Table.{Interned};
ghost use Rattle.graph_unification.specs.Memory.{graph_in, IsGraph};
ghost use Rattle.dsa_inlining.specs.Owners.{IsFunctionOf};
ghost use Rattle.dsa_inlining.specs.GroupFreezing.Groups.{IsFrozenGroup};

use crate::complete::{escaping_one, mark_complete};
use crate::names::names_of_owners;
use graph_unification::{Graph, frozen_graph};
use heap_graph::{FrozenGraph, FunctionNames};
use std::alloc::{AllocError, Global};
use tac_ir::{FunctionId, Tac};

/// The graph of a group that is only read, and the names of the group's functions.
#[derive(Drop)]
pub struct Frozen {
    pub graph: FrozenGraph,
    pub names: Vec<FunctionNames>,
}

/// What is kept of the graph of a group once it isn't changed any more: its certain nodes, of which exactly those are complete that escape
/// none of the owners. The owners are the functions of the group, or none of them for `start`; their names stand in the same order.
pub fn freeze_group(
    alloc: Global,
    tac: &Tac,
    graph: &Graph,
    owners: &[Option<FunctionId>],
) -> Result<Frozen, AllocError>
    requires { All (IsFunctionOf tac.now) owners.now }
    ensures { IfOk result (λ frozen. (table : Interned) → IsGraph table graph.now → IsFrozenGroup table tac.now owners.now (graph_in table graph.now) frozen) }
{
    let globals = graph.globals(alloc)?;
    let literals = graph.literals(alloc)?;
    let mut kept = frozen_graph(alloc, graph, &globals, &literals)?;
    let names = names_of_owners(alloc, tac, graph, owners)?;
    let escaping = escaping_one(alloc, &kept, owners, &names)?;
    mark_complete(&mut kept.nodes, &escaping);
    Ok(Frozen { graph: kept, names })
}
