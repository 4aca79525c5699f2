// The memory of the machine beside the frames: globals and pools.

ghost use Rattle.std.specs.Prelude.{◌≡◌, suc, ◌^◌, ◌<◌, ◌≤◌, ◌-◌, true, length, Some, None, Err, IfOk, IfSome, OnOk, OnErr, MatchBool, if◌then◌else◌};
ghost use Rattle.std.specs.Bool.{OnFalse};
ghost use Rattle.slab_space.specs.PoolSteps.{index_exhausted, heap_exhausted};
ghost use Rattle.slab_space.specs.Pools.{lives_of, alloc_step, free_step};
ghost use Rattle.image_form.specs.Form.{IsKind};
ghost use Rattle.pool_isa.specs.Machine.{in_globals, globals_start, heap_word, with_heap_word, with_new_pool, without_pool};
ghost use Rattle.machine.specs.Heaps.{heap_of, PlacesAt, FreesTo};
ghost use Rattle.machine.specs.Promises.{heap_within, Writes};

use crate::pages::Spare;
use crate::region::Region;
use crate::tally::Tally;
use image_form::{Globals, MachineLimits};
use pool_isa::Site;
use pool_runtime::{AllocEnd, OutOfMemory, PoolId, PoolKind, Pools};
use std::alloc::{AllocError, Global};

/// The address of the first byte of the globals.
const GLOBALS_START: u64 = 4096;

/// Globals and pools.
#[derive(Drop)]
pub(crate) struct Heap {
    pub(crate) globals: Region,
    pub(crate) pools: Pools,
    pub(crate) tally: Tally,
    /// For the next write.
    pub(crate) spare: Spare,
}

impl Heap {
    /// The globals begin with their contents, and are zero behind these; there is no pool.
    pub(crate) fn new(
        alloc: Global,
        globals: &Globals,
        limits: MachineLimits,
    ) -> Result<Heap, AllocError>
        requires contents { length globals.now.contents.items ≤ globals.now.size }
        requires least { 1 ≤ limits.slabs }
        requires most { limits.slabs ≤ 1048576 }
        requires index { 1 ≤ limits.index }
        ensures { IfOk result (λ heap. heap_of heap ≡ heap_within globals.now limits) }
    {
        let contents = Vec::from_slice(alloc, &globals.contents)?;
        let behind = globals.size as usize - contents.len();
        Ok(Heap {
            globals: Region::new(alloc, contents, behind)?,
            pools: Pools::new(alloc, limits.slabs, limits.index),
            tally: Tally::new(alloc, limits.slabs),
            spare: Spare::new(alloc),
        })
    }

    /// Where the `size` bytes from `address` on stand in the globals, if they lie there.
    fn offset_of(&self, address: u64, size: usize) -> Option<usize>
        ensures { result ≡ (if in_globals self.now.globals address size then Some (address - globals_start) else None) }
    {
        let offset = address.checked_sub(GLOBALS_START)?;
        let behind = (self.globals.len() as u64).checked_sub(offset)?;
        if size as u64 <= behind {
            Some(offset as usize)
        } else {
            None
        }
    }

    /// The number in the `size` bytes from `address` on, if they lie in the globals or in one live cell or object.
    pub(crate) fn read(&self, address: u64, size: usize) -> Option<u64>
        requires low { 1 ≤ size }
        requires high { size ≤ 8 }
        ensures word { result ≡ heap_word (heap_of self.now) address size }
        ensures small { IfSome result (λ number. number < 256 ^ size) }
    {
        let Some(offset) = self.offset_of(address, size) else {
            return self.pools.load(address, size);
        };
        Some(self.globals.read(offset, size))
    }

    /// Writes the lowest `size` bytes of a word from `address` on, if they lie in the globals or in one live cell or
    /// object, and says whether they do.
    pub(crate) fn write(&mut self, address: u64, word: u64, size: usize) -> bool
        requires low { 1 ≤ size }
        requires high { size ≤ 8 }
        requires spare { 2 ≤ self.old.spare }
        ensures written { Writes result (with_heap_word (heap_of self.old) address size word) (heap_of self.new) }
        ensures kept { OnFalse result (heap_of self.new ≡ heap_of self.old) }
    {
        match self.offset_of(address, size) {
            Some(offset) => {
                self.globals.write(offset, word, size, &mut self.spare);
                true
            }
            None => self.pools.store(address, size, word),
        }
    }

    /// Makes a pool for an instruction, and gives its number.
    pub(crate) fn make_pool(&mut self, site: Site, kind: PoolKind) -> Result<u64, OutOfMemory>
        requires { IsKind kind }
        ensures number { IfOk result (λ pool. pool ≡ suc (length self.old.pools.pools)) }
        ensures ok { OnOk result (heap_of self.new ≡ with_new_pool site kind (heap_of self.old)) }
        ensures err { OnErr result (heap_of self.new ≡ heap_of self.old) }
    {
        if self.tally.reserve().is_err() {
            return Err(OutOfMemory);
        }
        let pool = self.pools.init(kind)?.0;
        self.tally.pool_made(site, pool);
        Ok(pool)
    }

    /// Destroys a living pool.
    pub(crate) fn destroy(&mut self, pool: PoolId)
        requires { lives_of self.old.pools pool.0 ≡ true }
        ensures { heap_of self.new ≡ without_pool pool.0 (heap_of self.old) }
    {
        self.pools.destroy(pool);
        self.tally.pool_destroyed(pool.0);
    }

    /// Places an object of so many bytes in a living pool, and gives its address; 0 for 0 bytes.
    pub(crate) fn place(&mut self, pool: PoolId, bytes: u64) -> Result<u64, AllocEnd>
        requires { lives_of self.old.pools pool.0 ≡ true }
        ensures ok { IfOk result (λ address. PlacesAt pool.0 bytes (heap_of self.old) address (heap_of self.new)) }
        ensures heap { result ≡ Err AllocEnd.HeapExhausted → alloc_step self.old.pools pool.0 bytes ≡ heap_exhausted }
        ensures index { result ≡ Err AllocEnd.IndexExhausted → alloc_step self.old.pools pool.0 bytes ≡ index_exhausted }
        ensures err { OnErr result (heap_of self.new ≡ heap_of self.old) }
    {
        let address = self.pools.alloc(pool, bytes)?;
        if bytes != 0 {
            let peak = self.pools.peak(pool);
            let slabs = self.pools.slabs(pool);
            let free = self.pools.free_slabs();
            self.tally.object_placed(pool.0, peak, slabs, free);
        }
        Ok(address)
    }

    /// Frees the object of a living pool that begins at the address, and says whether there is one.
    pub(crate) fn free(&mut self, pool: PoolId, address: u64) -> bool
        requires { lives_of self.old.pools pool.0 ≡ true }
        ensures freed { MatchBool result (FreesTo pool.0 address (heap_of self.old) (heap_of self.new)) (free_step self.old.pools pool.0 address ≡ None) }
        ensures kept { OnFalse result (heap_of self.new ≡ heap_of self.old) }
    {
        self.pools.free(pool, address).is_ok()
    }
}
