// How many nodes groups begin with.

ghost use Rattle.std.specs.Prelude.{◌≡◌, ◌<◌, ◌≤◌, ℕ, length, get_or, Err, IfOk, OnOk};
ghost use Rattle.call_graph.specs.ClassLists.{numbers_of};
ghost use Rattle.dsa_inlining.specs.Counting.{total};
ghost use Rattle.heap_graph.specs.declared.program.ProgramGraphs as memory;
ghost use Rattle.call_graph.specs.GroupViews.{groups_of};
ghost use Rattle.dsa_bottom_up.specs.AssembledGroups.Making.{IsGrouped, family_at, BeginsWith, IsMaking};
ghost use Rattle.dsa_bottom_up.specs.Making.{made_in, AreKeptBelow};
ghost use Rattle.dsa_bottom_up.specs.Refused.{limit, GroupCounts, StartCounts};

use crate::making::{Making, owners_of};
use crate::program::{Counts, GraphErr};
use call_graph::Groups;
use dsa_inlining::{group_count, start_count};
use std::alloc::{AllocError, Global};
use tac_ir::{FunctionId, Tac};

/// The most nodes with which a group may begin.
const LIMIT: u64 = 65_536;

impl Making {
    /// Counts the nodes with which the next group begins.
    pub(crate) fn count_group(
        &self,
        alloc: Global,
        tac: &Tac,
        groups: &Groups,
        counts: &Counts,
        number: usize,
    ) -> Result<(), GraphErr>
        requires grouped { IsGrouped tac.now groups.now }
        requires making { IsMaking (made_in tac.now groups.now self.now) number }
        requires kept { AreKeptBelow (made_in tac.now groups.now self.now) number }
        requires within { number < length groups.now.members.items }
        ensures few { OnOk result ((all : memory.ProgramGraphs) → BeginsWith (made_in tac.now groups.now self.now) number all
            → (count : ℕ) × GroupCounts (family_at (made_in tac.now groups.now self.now) all) counts.now.functions.items number count × (count ≤ limit)) }
        ensures many { (count : ℕ) → result ≡ Err (GraphErr.TooMany count) → (limit < count) × ((all : memory.ProgramGraphs) → BeginsWith (made_in tac.now groups.now self.now) number all
            → GroupCounts (family_at (made_in tac.now groups.now self.now) all) counts.now.functions.items number count) }
    {
        let members = groups.members[number].as_slice();
        let owners = owners_of(alloc, members)?;
        let own = own_count(counts, members)?;
        let count = group_count(alloc, self.before(tac, groups), &owners, Some(number), own)?;
        within_limit(count)
    }

    /// Counts the nodes with which `start` begins.
    pub(crate) fn count_start(
        &self,
        alloc: Global,
        tac: &Tac,
        groups: &Groups,
        counts: &Counts,
    ) -> Result<(), GraphErr>
        requires grouped { IsGrouped tac.now groups.now }
        requires making { IsMaking (made_in tac.now groups.now self.now) (length (groups_of groups.now)) }
        requires kept { AreKeptBelow (made_in tac.now groups.now self.now) (length (groups_of groups.now)) }
        ensures few { OnOk result ((all : memory.ProgramGraphs) → BeginsWith (made_in tac.now groups.now self.now) (length (groups_of groups.now)) all
            → (count : ℕ) × StartCounts (family_at (made_in tac.now groups.now self.now) all) counts.now.start count × (count ≤ limit)) }
        ensures many { (count : ℕ) → result ≡ Err (GraphErr.TooMany count) → (limit < count) × ((all : memory.ProgramGraphs) → BeginsWith (made_in tac.now groups.now self.now) (length (groups_of groups.now)) all
            → StartCounts (family_at (made_in tac.now groups.now self.now) all) counts.now.start count) }
    {
        let count = start_count(alloc, self.before(tac, groups), counts.start)?;
        within_limit(count)
    }
}

/// What functions count by themselves, if the sum fits.
fn own_count(counts: &Counts, members: &[FunctionId]) -> Result<u64, AllocError>
    ensures { IfOk result (λ own. own ≡ total (λ function. get_or counts.now.functions.items function 0) (numbers_of members.now)) }
{
    let mut own: u64 = 0;
    for member in members {
        let count = match counts.functions.get(member.0) {
            Some(count) => *count,
            None => 0,
        };
        match own.checked_add(count) {
            Some(sum) => own = sum,
            None => return Err(AllocError),
        }
    }
    Ok(own)
}

fn within_limit(count: u64) -> Result<(), GraphErr>
    ensures few { OnOk result (count ≤ limit) }
    ensures many { (other : ℕ) → result ≡ Err (GraphErr.TooMany other) → (other ≡ count) × (limit < count) }
{
    if count > LIMIT {
        Err(GraphErr::TooMany(count))
    } else {
        Ok(())
    }
}
