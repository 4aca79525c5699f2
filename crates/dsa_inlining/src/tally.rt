// Counts of the nodes of a group.

ghost use Rattle.std.specs.Prelude.{◌≡◌, ◌+◌, length, map, IfOk, OnOk};
ghost use Rattle.tac_ir.specs.Views.{tac_of, op_in, callee_in};
ghost use Rattle.graph_unification.specs.Memory.{owner_of};
ghost use Rattle.call_graph.specs.ClassLists.{numbers_of};
ghost use Rattle.dsa_inlining.specs.Counting.{total, copies_to, copies_of, copies_in, count_below};
ghost use Rattle.dsa_inlining.specs.Marks.{is_marked};
ghost use Rattle.dsa_inlining.specs.Tallies.{IsKnown, code_of, beyond, IsNew, Counts, any_of, copies_from, told_from, call_names, called_names, op_mentions, owner_mentions};

use crate::before::Before;
use crate::mentions::Mentions;
use crate::outside::{escaping, is_apart};
use crate::search::tell_group;
use crate::sums::sum;
use indexmap::IndexSet;
use std::alloc::{AllocError, Global};
use tac_ir::{Callee, FunctionId, Op, Tac};

/// Nodes that are counted, and the variables outside functions and the literals that are mentioned, each of which counts once.
#[derive(Drop)]
pub(crate) struct Tally {
    pub(crate) count: u64,
    pub(crate) mentions: Mentions,
    /// The groups whose graphs tell of nothing that isn't mentioned; with each of them its bases.
    told: IndexSet<usize>,
}

impl Tally {
    /// So many nodes, and nothing that is mentioned.
    pub(crate) fn new(alloc: Global, tac: &Tac, count: u64) -> Result<Tally, AllocError>
        ensures { IfOk result (IsNew (tac_of tac.now) count) }
    {
        Ok(Tally {
            count,
            mentions: Mentions::new(alloc, tac)?,
            told: IndexSet::new(alloc),
        })
    }

    /// All of them.
    pub(crate) fn total(&self) -> Result<u64, AllocError>
        ensures { IfOk result (λ total. total ≡ self.now.count + (count_below (length self.now.mentions.globals.items) (is_marked self.now.mentions.globals.items) + count_below (length self.now.mentions.literals.items) (is_marked self.now.mentions.literals.items))) }
    {
        sum(self.count, self.mentions.count()?)
    }

    /// Adds the copies at the calls of a function, or of `start`, and what it mentions.
    pub(crate) fn add_owner(
        &mut self,
        alloc: Global,
        before: Before<'_>,
        group: Option<usize>,
        owner: Option<FunctionId>,
    ) -> Result<(), AllocError>
        requires { IsKnown before }
        ensures { OnOk result (Counts before.entry (copies_in (code_of before.entry) (beyond before.entry group) (owner_of owner)) (owner_mentions (code_of before.entry) (beyond before.entry group) (owner_of owner)) self.old self.new) }
    {
        match owner {
            None => self.add_points(alloc, before, group, before.tac.start.points.as_slice()),
            Some(number) => match before.tac.functions.get(number.0) {
                Some(function) => self.add_points(alloc, before, group, function.points.as_slice()),
                None => Ok(()),
            },
        }
    }

    /// The same of points.
    fn add_points(
        &mut self,
        alloc: Global,
        before: Before<'_>,
        group: Option<usize>,
        points: &[Op],
    ) -> Result<(), AllocError>
        requires { IsKnown before }
        ensures { OnOk result (Counts before.entry (total (copies_of (code_of before.entry) (beyond before.entry group)) (map (op_in before.entry.tac.now.types) points.now)) (any_of (op_mentions (code_of before.entry) (beyond before.entry group)) (map (op_in before.entry.tac.now.types) points.now)) self.old self.new) }
    {
        for op in points {
            self.add_op(alloc, before, group, op)?;
        }
        Ok(())
    }

    /// The same of one point.
    fn add_op(
        &mut self,
        alloc: Global,
        before: Before<'_>,
        group: Option<usize>,
        op: &Op,
    ) -> Result<(), AllocError>
        requires { IsKnown before }
        ensures { OnOk result (Counts before.entry (copies_of (code_of before.entry) (beyond before.entry group) (op_in before.entry.tac.now.types op.now)) (op_mentions (code_of before.entry) (beyond before.entry group) (op_in before.entry.tac.now.types op.now)) self.old self.new) }
    {
        self.mentions.add_path(op);
        match op {
            Op::Call { callee, .. } => self.add_call(alloc, before, group, *callee),
            _ => Ok(()),
        }
    }

    /// Adds the copies at a call, for each function outside the group to which it may come, and what the graphs of these tell of.
    fn add_call(
        &mut self,
        alloc: Global,
        before: Before<'_>,
        group: Option<usize>,
        callee: Callee,
    ) -> Result<(), AllocError>
        requires { IsKnown before }
        ensures { OnOk result (Counts before.entry (copies_to (code_of before.entry) (beyond before.entry group) (length (code_of before.entry).functions) (callee_in before.entry.tac.now.types callee)) (call_names (code_of before.entry) (beyond before.entry group) (callee_in before.entry.tac.now.types callee)) self.old self.new) }
    {
        let targets = before.live_targets(alloc, callee)?;
        self.add_targets(alloc, before, group, targets.as_slice())
    }

    /// The same of these functions.
    fn add_targets(
        &mut self,
        alloc: Global,
        before: Before<'_>,
        group: Option<usize>,
        targets: &[FunctionId],
    ) -> Result<(), AllocError>
        requires { IsKnown before }
        ensures { OnOk result (Counts before.entry (total (copies_from (code_of before.entry) (beyond before.entry group)) (numbers_of targets.now)) (any_of (told_from (code_of before.entry) (beyond before.entry group)) (numbers_of targets.now)) self.old self.new) }
    {
        for target in targets {
            self.add_called(alloc, before, group, target.0)?;
        }
        Ok(())
    }

    /// The same of one function, if it is outside the group.
    fn add_called(
        &mut self,
        alloc: Global,
        before: Before<'_>,
        group: Option<usize>,
        called: usize,
    ) -> Result<(), AllocError>
        requires { IsKnown before }
        ensures { OnOk result (Counts before.entry (copies_from (code_of before.entry) (beyond before.entry group) called) (told_from (code_of before.entry) (beyond before.entry group) called) self.old self.new) }
    {
        if !is_apart(before, group, called) {
            return Ok(());
        }
        self.count = sum(self.count, escaping(before, called) as u64)?;
        self.add_told(alloc, before, called)
    }

    /// Adds what the graph of a function's group tells of: what this and the groups behind it list as their own, each of them once.
    fn add_told(
        &mut self,
        alloc: Global,
        before: Before<'_>,
        called: usize,
    ) -> Result<(), AllocError>
        requires { IsKnown before }
        ensures { OnOk result (Counts before.entry 0 (called_names before.entry called) self.old self.new) }
    {
        let Some(group) = before.groups.group_of.get(called) else {
            return Ok(());
        };
        if *group >= before.graphs.len() {
            return Ok(());
        }
        let added = tell_group(alloc, before.statics, &mut self.told, *group)?;
        self.mentions.add_groups(before.statics, added.as_slice());
        Ok(())
    }
}
