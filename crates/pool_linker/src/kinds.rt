// The kinds of pools, and their numbers.

ghost use Rattle.std.specs.Prelude.{◌≡◌, IfOk};
ghost use Rattle.pool_linker.specs.Linking.{once, numbers_of};

use indexmap::IndexSet;
use slab_space::PoolKind;
use std::alloc::{AllocError, Global};

/// The kinds of a list, each once, and the number there of each kind of the list.
#[derive(Debug, Drop)]
pub(crate) struct Numbering {
    pub kinds: Vec<PoolKind>,
    pub numbers: Vec<u64>,
}

impl Numbering {
    /// Numbers the kinds in the order in which they first stand.
    pub(crate) fn of(alloc: Global, kinds: &[PoolKind]) -> Result<Numbering, AllocError>
        ensures kinds { IfOk result (λ numbering. numbering.kinds.items ≡ once kinds.now) }
        ensures numbers { IfOk result (λ numbering. numbering.numbers.items ≡ numbers_of kinds.now) }
    {
        let mut seen = IndexSet::new(alloc);
        let mut numbers = Vec::with_capacity(alloc, kinds.len())?;
        for kind in kinds {
            let (number, _) = seen.insert_full(*kind)?;
            numbers.push(number as u64)?;
        }
        Ok(Numbering {
            kinds: Vec::from_slice(alloc, seen.as_slice())?,
            numbers,
        })
    }
}
