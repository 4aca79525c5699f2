// The graph of one group.

ghost use Rattle.std.specs.Prelude.{◌≡◌, ◌<◌, ℕ, true, false, [], ◌∷◌, length, map, IfOk, OnOk};
ghost use Rattle.c_typed.specs.DefinitionViews.{LiteralsStand};
ghost use Rattle.tac_ir.specs.States.{InStart};
ghost use Rattle.tac_ir.specs.Views.{tac_of};
ghost use Rattle.tac_ir.specs.Groups.{AreGroups};
ghost use Rattle.graph_unification.specs.Memory.{owner_of, graph_in, IsGraph};
ghost use Rattle.call_graph.specs.RowLists.{Has};
ghost use Rattle.call_graph.specs.ClassLists.{numbers_of};
ghost use Rattle.call_graph.specs.GroupViews.{groups_of, IsOf};
ghost use Rattle.graph_unification.specs.Standing.{CodeStands};
ghost use Rattle.dsa_local.specs.Told.{NoCopies};
ghost use Rattle.dsa_local.specs.Called.{AreCalled};
ghost use Rattle.dsa_local.specs.Joined.{Joins, AllHaveOwn, ClassesJoined};
ghost use Rattle.dsa_local.specs.Members.{code_of, shown, is_inside};
ghost use Rattle.dsa_local.specs.Rounds.{owners_of};
ghost use Rattle.dsa_local.specs.Local.{owners_in, owners_at, is_of, AreScopes, AllCallsJoined, IsJoinedGroup, LeadsJoined, IsLocal};

use crate::called::CalledClasses;
use crate::group::begin_group;
use crate::members::Group;
use crate::rounds::settle;
use call_graph::Groups;
use graph_unification::Graph;
use heap_graph::{Scope, scope_of};
use std::alloc::{AllocError, Global};
use tac_ir::{FunctionId, Tac};

/// The graph of a group while it is made, and what is known of the code of its functions, in the order of the group.
#[derive(Drop)]
pub struct LocalGraph {
    pub graph: Graph,
    pub scopes: Vec<Scope>,
}

/// The graph of a group without its calls out of it.
pub fn local(
    alloc: Global,
    tac: &Tac,
    groups: &Groups,
    called: &CalledClasses,
    number: usize,
) -> Result<LocalGraph, AllocError>
    requires code { CodeStands (tac_of tac.now) }
    requires literals { LiteralsStand tac.now.types tac.now.literals.items }
    requires groups { AreGroups (tac_of tac.now) (groups_of groups.now) }
    requires of { IsOf tac.now groups.now }
    requires called { AreCalled tac.now called.now }
    requires within { number < length groups.now.members.items }
    ensures graph { IfOk result (λ made. IsGraph tac.now.types made.graph) }
    ensures local { IfOk result (λ made. IsLocal (tac_of tac.now) (owners_at (groups_of groups.now) number) (is_of groups.now number) (graph_in tac.now.types made.graph)) }
    ensures owners { IfOk result (λ made. owners_of made.scopes.items ≡ owners_at (groups_of groups.now) number) }
    ensures scopes { IfOk result (λ made. AreScopes tac.now made.scopes.items) }
{
    let LocalGraph { mut graph, scopes } = joined_group(alloc, tac, groups, called, number)?;
    settle(tac, &scopes, &mut graph)?;
    Ok(LocalGraph { graph, scopes })
}

/// The same before points are looked at: names have nodes, and calls within the group use the same nodes.
pub fn joined_group(
    alloc: Global,
    tac: &Tac,
    groups: &Groups,
    called: &CalledClasses,
    number: usize,
) -> Result<LocalGraph, AllocError>
    requires code { CodeStands (tac_of tac.now) }
    requires literals { LiteralsStand tac.now.types tac.now.literals.items }
    requires groups { AreGroups (tac_of tac.now) (groups_of groups.now) }
    requires of { IsOf tac.now groups.now }
    requires called { AreCalled tac.now called.now }
    requires within { number < length groups.now.members.items }
    ensures graph { IfOk result (λ made. IsGraph tac.now.types made.graph) }
    ensures joined { IfOk result (λ made. IsJoinedGroup (tac_of tac.now) (owners_at (groups_of groups.now) number) (is_of groups.now number) (graph_in tac.now.types made.graph)) }
    ensures leads { IfOk result (λ made. LeadsJoined (tac_of tac.now) (owners_at (groups_of groups.now) number) (is_of groups.now number) (graph_in tac.now.types made.graph)) }
    ensures copies { IfOk result (λ made. NoCopies (graph_in tac.now.types made.graph)) }
    ensures owners { IfOk result (λ made. owners_of made.scopes.items ≡ owners_at (groups_of groups.now) number) }
    ensures scopes { IfOk result (λ made. AreScopes tac.now made.scopes.items) }
{
    let members = groups.members[number].as_slice();
    let owners = owners(alloc, members)?;
    let mut graph = begin_group(alloc, tac, &owners)?;
    let group = Group {
        tac,
        groups,
        number,
    };
    group.join_classes(alloc, &mut graph, called)?;
    join_members(group, &mut graph, members)?;
    let scopes = scopes(alloc, tac, members)?;
    Ok(LocalGraph { graph, scopes })
}

/// The graph of `start` before points are looked at. It is in no group.
pub fn joined_start(alloc: Global, tac: &Tac) -> Result<LocalGraph, AllocError>
    requires code { CodeStands (tac_of tac.now) }
    requires literals { LiteralsStand tac.now.types tac.now.literals.items }
    ensures graph { IfOk result (λ made. IsGraph tac.now.types made.graph) }
    ensures joined { IfOk result (λ made. IsJoinedGroup (tac_of tac.now) (InStart ∷ []) (λ number. false) (graph_in tac.now.types made.graph)) }
    ensures leads { IfOk result (λ made. LeadsJoined (tac_of tac.now) (InStart ∷ []) (λ number. false) (graph_in tac.now.types made.graph)) }
    ensures copies { IfOk result (λ made. NoCopies (graph_in tac.now.types made.graph)) }
    ensures owners { IfOk result (λ made. owners_of made.scopes.items ≡ InStart ∷ []) }
    ensures scopes { IfOk result (λ made. AreScopes tac.now made.scopes.items) }
{
    let mut owners = Vec::new(alloc);
    owners.push(None)?;
    let graph = begin_group(alloc, tac, &owners)?;
    let mut scopes = Vec::new(alloc);
    scopes.push(scope_of(alloc, None, &tac.start)?)?;
    Ok(LocalGraph { graph, scopes })
}

/// The functions of a group.
fn owners(alloc: Global, members: &[FunctionId]) -> Result<Vec<Option<FunctionId>>, AllocError>
    ensures { IfOk result (λ made. map owner_of made.items ≡ owners_in (numbers_of members.now)) }
{
    let mut owners = Vec::new(alloc);
    for member in members {
        owners.push(Some(*member))?;
    }
    Ok(owners)
}

/// Joins calls of the functions of a group with what they may call in it.
fn join_members(group: Group, graph: &mut Graph, members: &[FunctionId]) -> Result<(), AllocError>
    requires stands { CodeStands (code_of group) }
    requires groups { AreGroups (code_of group) (groups_of group.groups.now) }
    requires of { IsOf group.tac.now group.groups.now }
    requires inside { (function : ℕ) → Has (numbers_of members.now) function → is_inside group function ≡ true }
    requires graph { IsGraph group.tac.now.types graph.old }
    requires names { AllHaveOwn (code_of group) (is_inside group) (shown group graph.old) }
    requires classes { ClassesJoined (code_of group) (is_inside group) (shown group graph.old) }
    ensures graph { OnOk result (IsGraph group.entry.tac.now.types graph.new) }
    ensures joins { OnOk result (Joins (code_of group.entry).structs (shown group.entry graph.old) (shown group.entry graph.new) (AllCallsJoined (code_of group.entry) (is_inside group.entry) (numbers_of members.now))) }
{
    for member in members {
        group.join_calls(graph, *member)?;
    }
    Ok(())
}

/// What is known of the code of functions.
fn scopes(alloc: Global, tac: &Tac, members: &[FunctionId]) -> Result<Vec<Scope>, AllocError>
    requires within { (function : ℕ) → Has (numbers_of members.now) function → function < length tac.now.functions.items }
    ensures owners { IfOk result (λ made. owners_of made.items ≡ owners_in (numbers_of members.now)) }
    ensures each { IfOk result (λ made. AreScopes tac.now made.items) }
{
    let mut scopes = Vec::new(alloc);
    for member in members {
        scopes.push(scope_of(alloc, Some(*member), &tac.functions[member.0])?)?;
    }
    Ok(scopes)
}
