// The graphs of a program.

ghost use Rattle.std.specs.Prelude.{◌≡◌, ◌≤◌, ℕ, length, Err, IfOk};
ghost use Rattle.tac_ir.specs.Views.{tac_of};
ghost use Rattle.call_graph.specs.GroupViews.{groups_of};
ghost use Rattle.heap_graph.specs.Closed.{Closed};
ghost use Rattle.heap_graph.specs.Least.{Least};
ghost use Rattle.heap_graph.specs.Programs.{family_in};
ghost use Rattle.dsa_bottom_up.specs.AssembledGroups.Making.{IsGrouped};
ghost use Rattle.dsa_bottom_up.specs.Smallest.{IsSmallest};
ghost use Rattle.heap_graph.specs.Ascending.{GraphsAscend};
ghost use Rattle.dsa_bottom_up.specs.Below.{LeastBelow};
ghost use Rattle.dsa_bottom_up.specs.Refused.{limit, AreFew, StartCounts, IsRefused};

use crate::making::Making;
use call_graph::Groups;
use dsa_local::CalledClasses;
use heap_graph::ProgramGraphs;
use std::alloc::{AllocError, Global};
use tac_ir::Tac;
use thiserror::Error;

/// How many nodes each function of a program counts by itself, and the first values of its variables.
#[derive(Drop)]
pub struct Counts {
    pub functions: Vec<u64>,
    pub start: u64,
}

/// Why a program has no graphs.
#[derive(Clone, Copy, Debug, PartialEq, Eq, Error)]
pub enum GraphErr {
    /// A group of functions, or `start`, would begin with so many nodes; 65,536 is the most.
    #[error("a group of functions with too many nodes")]
    TooMany(u64),
    #[error("out of memory")]
    OutOfMemory,
}

impl From<AllocError> for GraphErr {
    ghost use Rattle.dsa_bottom_up.specs.declared.program.GraphErr.TheVariants as E;

    ghost from_gives = { λ _ e. e ≡ E.OutOfMemory };

    fn from(_: AllocError) -> GraphErr {
        GraphErr::OutOfMemory
    }
}

/// The graphs of a program: callees first, those of groups, and that of `start`.
pub fn bottom_up(
    alloc: Global,
    tac: &Tac,
    groups: &Groups,
    counts: &Counts,
) -> Result<ProgramGraphs, GraphErr>
    requires grouped { IsGrouped tac.now groups.now }
    ensures graphs { IfOk result (λ graphs. length graphs.graphs.items ≡ length groups.now.members.items) }
    ensures functions { IfOk result (λ graphs. length graphs.functions.items ≡ length tac.now.functions.items) }
    ensures closed { IfOk result (λ graphs. Closed (family_in tac.now (groups_of groups.now) graphs)) }
    ensures smallest { IfOk result (λ graphs. (tac_of tac.now).start.parameters ≡ 0 → IsSmallest (family_in tac.now (groups_of groups.now) graphs)) }
    ensures least_below { IfOk result (λ graphs. (tac_of tac.now).start.parameters ≡ 0 → LeastBelow (family_in tac.now (groups_of groups.now) graphs) (length (groups_of groups.now))) }
    ensures least { IfOk result (λ graphs. (tac_of tac.now).start.parameters ≡ 0 → Least (family_in tac.now (groups_of groups.now) graphs)) }
    ensures few { IfOk result (λ graphs. AreFew (family_in tac.now (groups_of groups.now) graphs) counts.now.functions.items (length (groups_of groups.now))) }
    ensures few_first { IfOk result (λ graphs. (count : ℕ) × StartCounts (family_in tac.now (groups_of groups.now) graphs) counts.now.start count × (count ≤ limit)) }
    ensures ascend { IfOk result GraphsAscend }
    ensures refused { (tac_of tac.now).start.parameters ≡ 0 → (count : ℕ) → result ≡ Err (GraphErr.TooMany count) → IsRefused (tac_of tac.now) (groups_of groups.now) counts.now.functions.items counts.now.start count }
{
    let called = CalledClasses::of_program(alloc, tac, &groups.classes)?;
    let mut making = Making::new(alloc, tac, groups)?;
    for number in 0..groups.members.len() {
        making.count_group(alloc, tac, groups, counts, number)?;
        making.add_group(alloc, tac, groups, &called, number)?;
    }
    making.count_start(alloc, tac, groups, counts)?;
    Ok(making.finish(alloc, tac, groups)?)
}
