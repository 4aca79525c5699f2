// Groups whose variables outside functions and literals are joined with copies.

ghost use Rattle.std.specs.Prelude.{◌≡◌, Some, [], OnOk, slice_get};
ghost use Rattle.graph_unification.specs.Memory.{owner_of, IsGraph};
ghost use Rattle.dsa_inlining.specs.GroupStatics.Groups.{HaveStatics};
ghost use Rattle.dsa_inlining.specs.Crossed.{IsCrossed, CallNamed};
ghost use Rattle.dsa_inlining.specs.Joins.{Joins};
ghost use Rattle.dsa_inlining.specs.OuterCalls.Listed.{ToldCome};
ghost use Rattle.dsa_inlining.specs.Shown.{code_of, shown, callee_of, copies_of, IsKnown, HasCopies};
ghost use Rattle.dsa_inlining.specs.Joined.{AreKnownJoined, groups_of, RepresentativesCome, BasesCome, GroupComes, GroupsCome};

use crate::before::Before;
use crate::crossed::{Crossed, join_call, join_statics};
use crate::search::tell_group;
use crate::told_statics::GroupStatics;
use graph_unification::Graph;
use indexmap::IndexSet;
use std::alloc::{AllocError, Global};
use tac_ir::{FunctionId, Register};

/// The groups of which a graph that is made has joined the variables outside functions and the literals: all of them, and those at whose calls
/// it joined them, each once.
#[derive(Drop)]
pub(crate) struct JoinedGroups {
    told: IndexSet<usize>,
    pub(crate) bases: Vec<usize>,
}

impl JoinedGroups {
    /// None yet.
    pub(crate) fn new(alloc: Global) -> JoinedGroups
        ensures told { result.told.keys ≡ [] }
        ensures bases { result.bases.items ≡ [] }
    {
        JoinedGroups {
            told: IndexSet::new(alloc),
            bases: Vec::new(alloc),
        }
    }

    /// Joins a call to a function of this group.
    pub(crate) fn join(
        &mut self,
        alloc: Global,
        graph: &mut Graph,
        crossed: Crossed<'_>,
        before: Before<'_>,
        group: usize,
        owner: Option<FunctionId>,
        site: usize,
        arguments: &[Register],
    ) -> Result<(), AllocError>
        requires known { IsKnown crossed }
        requires graph { IsGraph crossed.tac.now.types graph.old }
        requires copied { HasCopies crossed graph.old }
        requires names { CallNamed (owner_of owner) site arguments.now (shown crossed graph.old) }
        requires statics { HaveStatics crossed.tac.now.types before.graphs.now before.statics.now }
        requires called { slice_get before.graphs.now group ≡ Some crossed.callee.now }
        requires joined { AreKnownJoined (groups_of crossed before) self.old (shown crossed graph.old) }
        ensures graph { OnOk result (IsGraph crossed.entry.tac.now.types graph.new) }
        ensures joins { OnOk result (Joins (code_of crossed.entry) (callee_of crossed.entry)
            (IsCrossed (code_of crossed.entry) (owner_of owner) site arguments.now crossed.entry.called (callee_of crossed.entry) (copies_of crossed.entry))
            (shown crossed.entry graph.old) (shown crossed.entry graph.new)) }
        ensures joined { OnOk result (AreKnownJoined (groups_of crossed.entry before.entry) self.new (shown crossed.entry graph.new)) }
    {
        join_call(crossed, graph, owner, site, arguments)?;
        self.join_told(alloc, graph, crossed, before, group)
    }

    /// Joins the variables outside functions and the literals of which the graph of this group tells with their copies at a call: all of them at
    /// the first one, and then those that stand for the others.
    fn join_told(
        &mut self,
        alloc: Global,
        graph: &mut Graph,
        crossed: Crossed<'_>,
        before: Before<'_>,
        group: usize,
    ) -> Result<(), AllocError>
        requires known { IsKnown crossed }
        requires graph { IsGraph crossed.tac.now.types graph.old }
        requires copied { HasCopies crossed graph.old }
        requires statics { HaveStatics crossed.tac.now.types before.graphs.now before.statics.now }
        requires called { slice_get before.graphs.now group ≡ Some crossed.callee.now }
        requires joined { AreKnownJoined (groups_of crossed before) self.old (shown crossed graph.old) }
        ensures graph { OnOk result (IsGraph crossed.entry.tac.now.types graph.new) }
        ensures joins { OnOk result (Joins (code_of crossed.entry) (callee_of crossed.entry) (ToldCome (callee_of crossed.entry) (callee_of crossed.entry) (copies_of crossed.entry))
            (shown crossed.entry graph.old) (shown crossed.entry graph.new)) }
        ensures joined { OnOk result (AreKnownJoined (groups_of crossed.entry before.entry) self.new (shown crossed.entry graph.new)) }
    {
        if self.told.contains(&group) {
            return join_representatives(crossed, graph, before.statics, group);
        }
        let added = tell_group(alloc, before.statics, &mut self.told, group)?;
        self.bases.push(group)?;
        join_groups(crossed, graph, before.statics, added.as_slice())
    }
}

/// Joins what the graphs of these groups tell, where the other groups of which they have it are among them or were joined before.
fn join_groups(
    crossed: Crossed<'_>,
    graph: &mut Graph,
    all: &[GroupStatics],
    groups: &[usize],
) -> Result<(), AllocError>
    requires known { IsKnown crossed }
    requires graph { IsGraph crossed.tac.now.types graph.old }
    requires copied { HasCopies crossed graph.old }
    ensures graph { OnOk result (IsGraph crossed.entry.tac.now.types graph.new) }
    ensures copied { OnOk result (HasCopies crossed.entry graph.new) }
    ensures joins { OnOk result (Joins (code_of crossed.entry) (callee_of crossed.entry) (GroupsCome all.now (callee_of crossed.entry) (copies_of crossed.entry) groups.now)
        (shown crossed.entry graph.old) (shown crossed.entry graph.new)) }
{
    for group in groups {
        join_group(crossed, graph, all, *group)?;
    }
    Ok(())
}

/// Joins what the functions of a group mention themselves, and for each of its bases those that stand for the others.
fn join_group(
    crossed: Crossed<'_>,
    graph: &mut Graph,
    all: &[GroupStatics],
    group: usize,
) -> Result<(), AllocError>
    requires known { IsKnown crossed }
    requires graph { IsGraph crossed.tac.now.types graph.old }
    requires copied { HasCopies crossed graph.old }
    ensures graph { OnOk result (IsGraph crossed.entry.tac.now.types graph.new) }
    ensures copied { OnOk result (HasCopies crossed.entry graph.new) }
    ensures joins { OnOk result (Joins (code_of crossed.entry) (callee_of crossed.entry) (GroupComes all.now (callee_of crossed.entry) (copies_of crossed.entry) group)
        (shown crossed.entry graph.old) (shown crossed.entry graph.new)) }
{
    let Some(its) = all.get(group) else {
        return Ok(());
    };
    join_statics(crossed, graph, &its.own)?;
    join_bases(crossed, graph, all, its.bases.as_slice())
}

/// Joins for each of these groups those that stand for the others.
fn join_bases(
    crossed: Crossed<'_>,
    graph: &mut Graph,
    all: &[GroupStatics],
    bases: &[usize],
) -> Result<(), AllocError>
    requires known { IsKnown crossed }
    requires graph { IsGraph crossed.tac.now.types graph.old }
    requires copied { HasCopies crossed graph.old }
    ensures graph { OnOk result (IsGraph crossed.entry.tac.now.types graph.new) }
    ensures copied { OnOk result (HasCopies crossed.entry graph.new) }
    ensures joins { OnOk result (Joins (code_of crossed.entry) (callee_of crossed.entry) (BasesCome all.now (callee_of crossed.entry) (copies_of crossed.entry) bases.now)
        (shown crossed.entry graph.old) (shown crossed.entry graph.new)) }
{
    for base in bases {
        join_representatives(crossed, graph, all, *base)?;
    }
    Ok(())
}

/// Joins those that stand for the others of which the graph of a group tells.
fn join_representatives(
    crossed: Crossed<'_>,
    graph: &mut Graph,
    all: &[GroupStatics],
    group: usize,
) -> Result<(), AllocError>
    requires known { IsKnown crossed }
    requires graph { IsGraph crossed.tac.now.types graph.old }
    requires copied { HasCopies crossed graph.old }
    ensures graph { OnOk result (IsGraph crossed.entry.tac.now.types graph.new) }
    ensures copied { OnOk result (HasCopies crossed.entry graph.new) }
    ensures joins { OnOk result (Joins (code_of crossed.entry) (callee_of crossed.entry) (RepresentativesCome all.now (callee_of crossed.entry) (copies_of crossed.entry) group)
        (shown crossed.entry graph.old) (shown crossed.entry graph.new)) }
{
    let Some(its) = all.get(group) else {
        return Ok(());
    };
    join_statics(crossed, graph, &its.representatives)
}
