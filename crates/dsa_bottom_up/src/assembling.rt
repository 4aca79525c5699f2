// The graph of one group.

ghost use Rattle.std.specs.Prelude.{◌≡◌, length, All, IfOk};
ghost use Rattle.tac_ir.specs.Views.{tac_of};
ghost use Rattle.c_typed.specs.Table.{Interned};
ghost use Rattle.graph_unification.specs.Memory.{graph_in, IsGraph};
ghost use Rattle.dsa_local.specs.Told.{NoCopies};
ghost use Rattle.dsa_local.specs.Rounds.{owners_of};
ghost use Rattle.dsa_inlining.specs.Owners.{IsFunctionOf};
ghost use Rattle.dsa_local.specs.Local.{AreScopes, IsJoinedGroup};
ghost use Rattle.dsa_inlining.specs.Before.{graphs_before, is_inside};
ghost use Rattle.dsa_inlining.specs.Crossings.{owners_in, AllReached, IsKnown};
ghost use Rattle.dsa_bottom_up.specs.Assembled.{IsAssembled};
ghost use Rattle.dsa_bottom_up.specs.Assembling.{HasBases, TellEach};

use dsa_inlining::{Before, Crossings, Frozen, JoinedCalls, freeze_group, frozen_crossings};
use dsa_local::{LocalGraph, settle, tell_sizes};
use graph_unification::Graph;
use heap_graph::{FrozenGraph, FunctionGraph, FunctionNames};
use std::alloc::{AllocError, Global};
use tac_ir::FunctionId;

/// What was made of a group: its graph; what that tells of its functions, in the order of the group; and the groups of the functions that these
/// call, of all of whose variables outside functions and literals the graph tells.
#[derive(Drop)]
pub(crate) struct Assembled {
    pub(crate) graph: FrozenGraph,
    pub(crate) functions: Vec<FunctionGraph>,
    pub(crate) bases: Vec<usize>,
}

/// Closes the graph of a group that was begun.
pub(crate) fn assemble(
    alloc: Global,
    before: Before<'_>,
    local: LocalGraph,
    owners: &[Option<FunctionId>],
    group: Option<usize>,
) -> Result<Assembled, AllocError>
    requires known { IsKnown before }
    requires owners { All (IsFunctionOf before.tac.now) owners.now }
    requires reached { AllReached (graphs_before before) group owners.now }
    requires graph { IsGraph before.tac.now.types local.graph }
    requires joined { IsJoinedGroup (tac_of before.tac.now) (owners_in owners.now) (is_inside before.groups.now group) (graph_in before.tac.now.types local.graph) }
    requires copies { NoCopies (graph_in before.tac.now.types local.graph) }
    requires owned { owners_of local.scopes.items ≡ owners_in owners.now }
    requires scopes { AreScopes before.tac.now local.scopes.items }
    ensures assembled { IfOk result (λ made. IsAssembled (graphs_before before.entry) group owners.now (graph_in before.entry.tac.now.types local.graph) made.graph made.functions.items) }
    ensures bases { IfOk result (λ made. HasBases (graphs_before before.entry) made.bases.items made.graph) }
{
    let LocalGraph { mut graph, scopes } = local;
    let joined = before.cross_all(alloc, &mut graph, owners, group)?;
    let JoinedCalls { crossings, bases } = joined;
    settle(before.tac, &scopes, &mut graph)?;
    tell_sizes(before.tac, &scopes, &mut graph);
    before.tell_all(&mut graph, &crossings);
    let Frozen {
        graph: frozen,
        names,
    } = freeze_group(alloc, before.tac, &graph, owners)?;
    let functions = function_graphs(alloc, &graph, names, &crossings)?;
    Ok(Assembled {
        graph: frozen,
        functions,
        bases,
    })
}

/// The names of functions with where the copies at their calls are.
fn function_graphs(
    alloc: Global,
    graph: &Graph,
    names: Vec<FunctionNames>,
    crossings: &[Crossings],
) -> Result<Vec<FunctionGraph>, AllocError>
    requires size { length crossings.now ≡ length names.items }
    ensures { IfOk result (λ functions. (table : Interned) → IsGraph table graph.now → TellEach (graph_in table graph.now) names.items crossings.now functions.items) }
{
    let mut functions = Vec::new(alloc);
    for (place, own) in names.into_iter().enumerate() {
        let embeddings = frozen_crossings(alloc, graph, &crossings[place])?;
        let function = FunctionGraph {
            names: own,
            embeddings,
        };
        match functions.push(function) {
            Ok(()) => {}
            Err(_) => return Err(AllocError),
        }
    }
    Ok(functions)
}
