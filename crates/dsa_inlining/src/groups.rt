// How many nodes the graphs of groups begin with.

ghost use Rattle.std.specs.Prelude.{◌≡◌, None, IfOk};
ghost use Rattle.tac_ir.specs.Views.{tac_of};
ghost use Rattle.dsa_inlining.specs.Before.{graphs_before};
ghost use Rattle.dsa_inlining.specs.Crossings.{owners_in};
ghost use Rattle.dsa_inlining.specs.Counting as C;
ghost use Rattle.dsa_inlining.specs.Sums.{outside_of};
ghost use Rattle.dsa_inlining.specs.Tallies.{IsKnown};

use crate::before::Before;
use crate::tally::Tally;
use heap_graph::StaticNumbers;
use std::alloc::{AllocError, Global};
use tac_ir::FunctionId;

/// How many nodes the graph of a group begins with, if the number fits in 64 bits; `own` is what its functions count by themselves.
pub fn group_count(
    alloc: Global,
    before: Before<'_>,
    owners: &[Option<FunctionId>],
    group: Option<usize>,
    own: u64,
) -> Result<u64, AllocError>
    requires { IsKnown before }
    ensures { IfOk result (λ count. count ≡ C.group_count (tac_of before.entry.tac.now) (outside_of (graphs_before before.entry) group) own (owners_in owners.now)) }
{
    let mut tally = Tally::new(alloc, before.tac, own)?;
    for owner in owners {
        tally.add_owner(alloc, before, group, *owner)?;
    }
    tally.total()
}

/// The same of `start`, whose first values count `own` by themselves and mention what they name.
pub fn start_count(alloc: Global, before: Before<'_>, own: u64) -> Result<u64, AllocError>
    requires { IsKnown before }
    ensures { IfOk result (λ count. count ≡ C.start_count (tac_of before.entry.tac.now) (outside_of (graphs_before before.entry) None) own) }
{
    let numbers = StaticNumbers::of_program(alloc, before.tac)?;
    let mut tally = Tally::new(alloc, before.tac, own)?;
    tally.mentions.add_first(before.tac, &numbers);
    tally.add_owner(alloc, before, None, None)?;
    tally.total()
}
