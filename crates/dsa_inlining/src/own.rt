// The variables outside functions and the literals of which a group's graph tells, and those of its bases don't.

ghost use Rattle.std.specs.Prelude.{◌≡◌, ℕ, List, [], Contains, IfOk, OnOk};
ghost use Rattle.c_typed.specs.Table.{Interned};
ghost use Rattle.heap_graph.specs.declared.frozen.FrozenGraph as memory_frozen;
ghost use Rattle.dsa_inlining.specs.GroupStatics.Groups.{IsBase, HaveStatics};
ghost use Rattle.dsa_inlining.specs.Own.{AreOthers, AreOwnAmong, AddsOwnAmong, AddsOwn, AddsNumbers, AreOwn};

use crate::search::told_groups;
use crate::told_statics::{GroupStatics, Statics};
use heap_graph::{FrozenGraph, Target};
use indexmap::{IndexMap, IndexSet};
use std::alloc::{AllocError, Global};

/// Sets of variables outside functions and of literals, by their numbers.
#[derive(Drop)]
pub(crate) struct StaticSets {
    globals: IndexSet<usize>,
    literals: IndexSet<usize>,
}

/// Those of which the graph tells, and the graphs of the bases don't.
pub(crate) fn own_statics(
    alloc: Global,
    all: &[GroupStatics],
    graph: &FrozenGraph,
    bases: &[usize],
) -> Result<Statics, AllocError>
    ensures { IfOk result (λ own. (table : Interned) (graphs : List memory_frozen.FrozenGraph) → HaveStatics table graphs all.now
        → ((base : ℕ) → Contains bases.now base → IsBase table graphs graph.now base) → AreOwn table graphs graph.now bases.now own) }
{
    let groups = told_groups(alloc, all, bases)?;
    let told = StaticSets::of_groups(alloc, all, groups.as_slice())?;
    let globals = others(alloc, &graph.globals, &told.globals)?;
    let literals = others(alloc, &graph.literals, &told.literals)?;
    Ok(Statics { globals, literals })
}

impl StaticSets {
    /// None yet.
    pub(crate) fn new(alloc: Global) -> StaticSets
        ensures globals { result.globals.keys ≡ [] }
        ensures literals { result.literals.keys ≡ [] }
    {
        StaticSets {
            globals: IndexSet::new(alloc),
            literals: IndexSet::new(alloc),
        }
    }

    /// What these groups list as their own.
    fn of_groups(
        alloc: Global,
        all: &[GroupStatics],
        groups: &[usize],
    ) -> Result<StaticSets, AllocError>
        ensures { IfOk result (AreOwnAmong all.now groups.now) }
    {
        let mut sets = StaticSets::new(alloc);
        sets.add_groups(all, groups)?;
        Ok(sets)
    }

    /// Adds what these groups list as their own.
    pub(crate) fn add_groups(
        &mut self,
        all: &[GroupStatics],
        groups: &[usize],
    ) -> Result<(), AllocError>
        ensures { OnOk result (AddsOwnAmong all.now groups.now self.old self.new) }
    {
        for group in groups {
            self.add_own(all, *group)?;
        }
        Ok(())
    }

    /// How many there are, as far as that is a number of the machine.
    pub(crate) fn count(&self) -> usize {
        self.globals.len().saturating_add(self.literals.len())
    }

    /// Adds what a group lists as its own.
    fn add_own(&mut self, all: &[GroupStatics], group: usize) -> Result<(), AllocError>
        ensures { OnOk result (AddsOwn all.now group self.old self.new) }
    {
        let Some(its) = all.get(group) else {
            return Ok(());
        };
        add_numbers(&mut self.globals, &its.own.globals)?;
        add_numbers(&mut self.literals, &its.own.literals)
    }
}

/// Adds these to a set.
fn add_numbers(set: &mut IndexSet<usize>, numbers: &[usize]) -> Result<(), AllocError>
    ensures { OnOk result (AddsNumbers set.old.keys set.new.keys numbers.now) }
{
    for number in numbers {
        set.insert(*number)?;
    }
    Ok(())
}

/// The numbers with targets that aren't in the set.
fn others(
    alloc: Global,
    targets: &IndexMap<usize, Target>,
    told: &IndexSet<usize>,
) -> Result<Vec<usize>, AllocError>
    ensures { IfOk result (λ numbers. AreOthers targets.now told.now.keys numbers.items) }
{
    let mut numbers = Vec::new(alloc);
    for number in targets.keys().as_slice() {
        if !told.contains(number) {
            numbers.push(*number)?;
        }
    }
    Ok(numbers)
}
