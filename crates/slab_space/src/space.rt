ghost use Rattle.std.specs.Prelude.{◌≡◌, ◌+◌, ◌*◌, ◌≤◌, ◌<◌, ◌^◌, ◌↔◌, ℕ, length, replicate, IfOk, OnErr, MatchOption, IsSome, Some, None};
ghost use Rattle.run_theory.specs.Words.{zeros, word_at, with_word};
ghost use Rattle.slab_space.specs.Runs.{owner_at, free_count, Full, IsLowestRun, IsHeldRun};
ghost use Rattle.slab_space.specs.Space.{Space, IsZero, with_taken, with_given};

use crate::slots::{HeldSlab, clear, furnish};
use std::alloc::Global;
use std::marker::Model;
use thiserror::Error;

/// Why no run was taken.
#[derive(Clone, Copy, Debug, PartialEq, Eq, Error)]
pub enum TakeErr {
    /// No so many adjacent slabs are free.
    #[error("no free run")]
    Full,
    /// The host has no memory left.
    #[error("out of memory")]
    OutOfMemory,
}

/// The slabs below a limit.
#[derive(Drop)]
pub struct SlabSpace {
    limit: u32,
    slots: Vec<Option<HeldSlab>>,
    held: u32,
    // Every slab below it is held.
    lowest_free: u32,
    alloc: Global,
}

impl Model for SlabSpace {
    ghost use Rattle.slab_space.specs.Space.{Space};

    ghost Value = { Space };

    ghost use Rattle.slab_space.specs.Table.{space_of, IsTable};

    ghost view = { space_of };

    ghost invariant = { IsTable };
}

impl SlabSpace {
    /// A space of `limit` free slabs.
    pub fn new(alloc: Global, limit: u32) -> SlabSpace
        requires least { 1 ≤ limit }
        requires most { limit ≤ 1048576 }
        ensures owners { result.owners ≡ replicate limit None }
        ensures bytes { result.bytes ≡ zeros (4096 * limit) }
    {
        SlabSpace {
            limit,
            slots: Vec::new(alloc),
            held: 0,
            lowest_free: 0,
            alloc,
        }
    }

    /// Takes the lowest `count` adjacent free slabs, whose bytes are zero, and answers the first of them.
    pub fn take_run(&mut self, count: u32) -> Result<u32, TakeErr>
        requires { 1 ≤ count }
        ensures lowest { IfOk result (IsLowestRun self.old.owners count) }
        ensures taken { IfOk result (λ first. self.new ≡ with_taken self.old first count) }
        ensures zero { IfOk result (λ first. IsZero self.new.bytes (4096 * first) (4096 * count)) }
        ensures full { (result ≡ Err TakeErr.Full) ↔ Full self.old.owners count }
        ensures err { OnErr result (self.new ≡ self.old) }
    {
        let Some(first) = self.lowest_run(count) else {
            return Err(TakeErr::Full);
        };
        match furnish(&mut self.slots, self.alloc, first, count, self.limit) {
            Ok(()) => {
                self.held += count;
                if count == 1 || first == self.lowest_free {
                    self.lowest_free = first + count;
                }
                Ok(first)
            }
            Err(_) => Err(TakeErr::OutOfMemory),
        }
    }

    /// The first of the lowest `count` adjacent free slabs.
    fn lowest_run(&self, count: u32) -> Option<u32>
        requires { 1 ≤ count }
        ensures { MatchOption result (Full self.now.owners count) (IsLowestRun self.now.owners count) }
    {
        let mut first = self.lowest_free;
        for at in self.lowest_free..self.slots.len() as u32 {
            if self.slots[at as usize].is_some() {
                first = at + 1;
            } else if at + 1 - first == count {
                return Some(first);
            }
        }
        if count <= self.limit - first {
            Some(first)
        } else {
            None
        }
    }

    /// Gives back a held run; its memory is freed.
    pub fn give_run(&mut self, first: u32, count: u32)
        requires { IsHeldRun self.old.owners first count }
        ensures { self.new ≡ with_given self.old first count }
    {
        clear(
            &mut self.slots,
            first as usize,
            first as usize + count as usize,
        );
        self.held -= count;
        self.lowest_free = self.lowest_free.min(first);
    }

    /// The number in the `width` bytes from `off` on in a held slab, the low byte first.
    pub fn read(&self, slab: u32, off: usize, width: usize) -> u64
        requires held { IsSome (owner_at self.now.owners slab) }
        requires least { 1 ≤ width }
        requires most { width ≤ 8 }
        requires inside { off + width ≤ 4096 }
        ensures word { result ≡ word_at self.now.bytes (4096 * slab + off) width }
        ensures small { result < 256 ^ width }
    {
        match &self.slots[slab as usize] {
            Some(held) => held.memory.read(off, width),
            None => unreachable!(),
        }
    }

    /// Writes the lowest `width` bytes of `word` from `off` on in a held slab, the low byte first.
    pub fn write(&mut self, slab: u32, off: usize, width: usize, word: u64)
        requires held { IsSome (owner_at self.old.owners slab) }
        requires most { width ≤ 8 }
        requires inside { off + width ≤ 4096 }
        ensures { self.new ≡ record self.old { bytes = with_word self.old.bytes (4096 * slab + off) width word } }
    {
        match &mut self.slots[slab as usize] {
            Some(held) => held.memory.write(off, width, word),
            None => unreachable!(),
        }
    }

    /// The first slab of the run that the slab is held in; none where it is free.
    pub fn owner(&self, slab: u32) -> Option<u32>
        requires { slab < length self.now.owners }
        ensures { result ≡ owner_at self.now.owners slab }
    {
        let held = self.slots.get(slab as usize)?.as_ref()?;
        Some(held.run)
    }

    /// How many slabs there are.
    pub fn limit(&self) -> u32
        ensures { result ≡ length self.now.owners }
    {
        self.limit
    }

    /// How many slabs are free.
    pub fn free_slabs(&self) -> u32
        ensures { result ≡ free_count self.now.owners }
    {
        self.limit - self.held
    }
}
