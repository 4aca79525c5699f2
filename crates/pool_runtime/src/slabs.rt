// The slabs of a space, and what the runs of them were taken for.

ghost use Rattle.std.specs.Prelude.{◌≡◌, ◌*◌, ◌≤◌, ◌↔◌, [], Some, slice_get, replicate, IfOk, OnOk, OnErr, None};
ghost use Rattle.slab_space.specs.Runs.{Full, IsLowestRun};
ghost use Rattle.slab_space.specs.Space.{IsZero, with_taken};

use crate::memory::{START, place_of};
use raw_slab::{OutOfMemory, SLAB_BYTES};
use slab_space::{SlabSpace, TakeErr};
use std::alloc::Global;

/// What a run was taken for.
#[derive(Clone, Copy)]
pub(crate) struct Home {
    pub(crate) pool: u64,
    pub(crate) held: Held,
}

#[derive(Clone, Copy)]
pub(crate) enum Held {
    /// The cells of a class, of which this is the run of that number, from 0 on.
    Cells { class: usize, run: usize },
    /// A large object.
    Large,
}

/// The held run that an address lies in, and how far behind the run's begin it lies.
#[derive(Clone, Copy)]
pub(crate) struct Found {
    pub(crate) first: u32,
    pub(crate) within: u64,
    pub(crate) home: Home,
}

#[derive(Drop)]
pub(crate) struct Slabs {
    pub(crate) space: SlabSpace,
    // What the run that begins with a slab was last taken for.
    homes: Vec<Home>,
}

impl Slabs {
    ghost use Rattle.pool_runtime.specs.Tables.{IsSpace};
    ghost use Rattle.pool_runtime.specs.Changes.{KeepsNotes, KeepsAllNotes, FindsCell};

    pub(crate) fn new(alloc: Global, limit: u32) -> Slabs
        requires least { 1 ≤ limit }
        requires most { limit ≤ 1048576 }
        ensures owners { result.space.owners ≡ replicate limit None }
        ensures space { IsSpace result.space }
    {
        Slabs {
            space: SlabSpace::new(alloc, limit),
            homes: Vec::new(alloc),
        }
    }

    /// Takes the lowest run of so many slabs.
    pub(crate) fn take(&mut self, count: u32, home: Home) -> Result<u32, TakeErr>
        requires some { 1 ≤ count }
        requires space { IsSpace self.old.space }
        ensures lowest { IfOk result (IsLowestRun self.old.space.owners count) }
        ensures taken { IfOk result (λ first. self.new.space ≡ with_taken self.old.space first count) }
        ensures zero { IfOk result (λ first. IsZero self.new.space.bytes (4096 * first) (4096 * count)) }
        ensures noted { IfOk result (λ first. slice_get self.new.homes.items first ≡ Some home) }
        ensures notes { IfOk result (KeepsNotes self.old.homes.items self.new.homes.items) }
        ensures full { (result ≡ Err TakeErr.Full) ↔ Full self.old.space.owners count }
        ensures err { OnErr result (self.new.space ≡ self.old.space) }
        ensures err_notes { OnErr result (KeepsAllNotes self.old.homes.items self.new.homes.items) }
    {
        let first = match self.space.take_run(count) {
            Ok(first) => first,
            Err(error) => return Err(error),
        };
        if self.note(first, home).is_err() {
            self.space.give_run(first, count);
            return Err(TakeErr::OutOfMemory);
        }
        Ok(first)
    }

    fn note(&mut self, first: u32, home: Home) -> Result<(), OutOfMemory>
        ensures space { self.new.space ≡ self.old.space }
        ensures noted { OnOk result (slice_get self.new.homes.items first ≡ Some home) }
        ensures notes { OnOk result (KeepsNotes self.old.homes.items self.new.homes.items first) }
        ensures err { OnErr result (KeepsAllNotes self.old.homes.items self.new.homes.items) }
    {
        let room = first as usize + 1;
        if self.homes.len() < room && self.homes.resize(room, home).is_err() {
            return Err(OutOfMemory);
        }
        self.homes[first as usize] = home;
        Ok(())
    }

    pub(crate) fn find(&self, address: u64) -> Option<Found>
        requires { IsSpace self.now.space }
        ensures { FindsCell self.now address result }
    {
        let place = address.checked_sub(START)?;
        let slab = place / SLAB_BYTES as u64;
        if slab >= self.space.limit() as u64 {
            return None;
        }
        let first = self.space.owner(slab as u32)?;
        let within = place.checked_sub(place_of(first))?;
        let home = *self.homes.get(first as usize)?;
        Some(Found {
            first,
            within,
            home,
        })
    }
}
