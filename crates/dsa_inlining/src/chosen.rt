// By way of which groups it is told of a group's variables and literals.

ghost use Rattle.std.specs.Prelude.{ℕ, List, Contains, IfOk, OnOk};
ghost use Rattle.dsa_inlining.specs.Choices.{AreAmong};

use crate::own::StaticSets;
use crate::search::tell_group;
use crate::told_statics::{GroupStatics, Statics};
use indexmap::IndexSet;
use std::alloc::{AllocError, Global};
use std::cmp::Reverse;

/// So many times what the graph tells may be gone over by way of the bases.
const MOST: usize = 2;

/// Groups that are chosen as bases one after the other.
#[derive(Drop)]
struct Choice {
    bases: Vec<usize>,
    /// The groups to which the bases lead.
    groups: IndexSet<usize>,
    /// Of what the graphs of these tell.
    statics: StaticSets,
    /// How much may still be gone over by way of further bases.
    left: usize,
}

/// Of these groups some by way of which it is told of all or most of what the graph tells, which are so many: first those whose graphs tell of
/// most, each if its graph tells of something of which those before don't, and as long as it doesn't take too long to go over what stands for
/// others in them, in their bases, and so on.
pub(crate) fn chosen_bases(
    alloc: Global,
    all: &[GroupStatics],
    mut groups: Vec<usize>,
    told: usize,
) -> Result<Vec<usize>, AllocError>
    ensures { IfOk result (λ chosen. AreAmong chosen.items groups.items) }
{
    groups.sort_unstable_by_key(|group| rank(all, *group));
    choose(alloc, all, groups.as_slice(), told.saturating_mul(MOST))
}

/// Of these groups those that are chosen in their order, where so much may be gone over.
fn choose(
    alloc: Global,
    all: &[GroupStatics],
    groups: &[usize],
    most: usize,
) -> Result<Vec<usize>, AllocError>
    ensures { IfOk result (λ chosen. AreAmong chosen.items groups.now) }
{
    let mut choice = Choice {
        bases: Vec::new(alloc),
        groups: IndexSet::new(alloc),
        statics: StaticSets::new(alloc),
        left: most,
    };
    for group in groups {
        choice.consider(alloc, all, *group)?;
    }
    Ok(choice.bases)
}

impl Choice {
    /// Chooses a group, if it adds something and takes no longer than is left.
    fn consider(
        &mut self,
        alloc: Global,
        all: &[GroupStatics],
        group: usize,
    ) -> Result<(), AllocError>
        ensures { OnOk result ((groups : List ℕ) → Contains groups group → AreAmong self.old.bases.items groups → AreAmong self.new.bases.items groups) }
    {
        let added = tell_group(alloc, all, &mut self.groups, group)?;
        let cost = base_cost(all, group).saturating_add(groups_cost(all, added.as_slice()));
        if cost > self.left {
            leave_out(&mut self.groups, added.as_slice());
            return Ok(());
        }
        let before = self.statics.count();
        self.statics.add_groups(all, added.as_slice())?;
        if self.statics.count() > before {
            self.left -= cost;
            self.bases.push(group)?;
        }
        Ok(())
    }
}

/// Leaves these out of a set.
fn leave_out(set: &mut IndexSet<usize>, groups: &[usize]) {
    for group in groups {
        set.swap_remove(group);
    }
}

/// Where a group comes among those that are chosen.
fn rank(all: &[GroupStatics], group: usize) -> (Reverse<usize>, usize) {
    match all.get(group) {
        Some(its) => (Reverse(its.told), its.representatives.count()),
        None => (Reverse(0), 0),
    }
}

/// What it takes to go over the representatives of these groups' bases.
fn groups_cost(all: &[GroupStatics], groups: &[usize]) -> usize {
    let mut cost: usize = 0;
    for group in groups {
        if let Some(its) = all.get(*group) {
            cost = cost.saturating_add(bases_cost(all, &its.bases));
        }
    }
    cost
}

/// What it takes to go over the representatives of these.
fn bases_cost(all: &[GroupStatics], bases: &[usize]) -> usize {
    let mut cost: usize = 0;
    for base in bases {
        cost = cost.saturating_add(base_cost(all, *base));
    }
    cost
}

/// What it takes to go over those of a group.
fn base_cost(all: &[GroupStatics], base: usize) -> usize {
    match all.get(base) {
        Some(its) => its.representatives.count().saturating_add(1),
        None => 1,
    }
}

impl Statics {
    /// How many there are, as far as that is a number of the machine.
    fn count(&self) -> usize {
        self.globals.len().saturating_add(self.literals.len())
    }
}
