// Searches for the groups whose variables outside functions and literals are told of.

ghost use Rattle.std.specs.Prelude.{◌≡◌, ◌++◌, IfOk, OnOk};
ghost use Rattle.dsa_inlining.specs.Searched.{AddsTold};
ghost use Rattle.dsa_inlining.specs.GroupStatics.Telling.{bases_of, AreFromBases};

use crate::told_statics::GroupStatics;
use indexmap::IndexSet;
use std::alloc::{AllocError, Global};

/// Adds a group to those of whose variables and literals is told, and with it its bases, their bases, and so on; the answer are those that were
/// added. It takes time for these and their bases alone.
pub fn tell_group(
    alloc: Global,
    all: &[GroupStatics],
    told: &mut IndexSet<usize>,
    group: usize,
) -> Result<Vec<usize>, AllocError>
    ensures { IfOk result (λ added. AddsTold all.now group told.old.keys told.new.keys added.items) }
{
    let mut added = Vec::new(alloc);
    let mut pending = Vec::new(alloc);
    pending.push(group)?;
    while let Some(next) = pending.pop() {
        let is_new = told.insert(next)?;
        if is_new {
            added.push(next)?;
            push_bases(all, next, &mut pending)?;
        }
    }
    Ok(added)
}

/// Adds the bases of a group to the groups that wait.
fn push_bases(
    all: &[GroupStatics],
    group: usize,
    pending: &mut Vec<usize>,
) -> Result<(), AllocError>
    ensures { OnOk result (pending.new.items ≡ pending.old.items ++ bases_of all.now group) }
{
    let Some(its) = all.get(group) else {
        return Ok(());
    };
    pending.extend_from_slice(&its.bases)
}

/// The bases, their bases, and so on.
pub(crate) fn told_groups(
    alloc: Global,
    all: &[GroupStatics],
    bases: &[usize],
) -> Result<IndexSet<usize>, AllocError>
    ensures { IfOk result (λ told. AreFromBases all.now bases.now told.keys) }
{
    let mut told = IndexSet::new(alloc);
    for base in bases {
        tell_group(alloc, all, &mut told, *base)?;
    }
    Ok(told)
}
