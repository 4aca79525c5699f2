ghost use Rattle.std.specs.Prelude.{◌≡◌, ◌+◌, ◌^◌, ◌<◌, ◌≤◌, ◌↔◌, true, false, if◌then◌else◌, length, IfOk, IfSome, OnOk, OnErr, Ok, Err, Some, None};
ghost use Rattle.slab_space.specs.Pool.{IsKind};
ghost use Rattle.slab_space.specs.PoolSteps.{placed, index_exhausted, heap_exhausted};
ghost use Rattle.pool_runtime.specs.Tables.{IsSpace};
ghost use Rattle.pool_runtime.specs.Changes.{HaveSizes, CoversAt};
ghost use Rattle.slab_space.specs.Pools.{new_pools, init_step, destroy_step, alloc_step, free_step, load_step, store_step, address_of, index_of, lives_of, kind_of, peak_of, live_of, slabs_of, free_slabs_of, TakesSlabs};

use crate::memory::{START, read_word, write_word};
use crate::pool::Pool;
use crate::slabs::Slabs;
use raw_slab::OutOfMemory;
use slab_space::PoolKind;
use std::alloc::Global;
use std::collections::BTreeMap;
use std::marker::Model;
use thiserror::Error;

/// The number of a pool: 1, 2, 3, .. in the order of `init`.
#[derive(Clone, Copy, Debug, PartialEq, Eq)]
pub struct PoolId(pub u64);

/// Why an allocation placed nothing.
#[derive(Clone, Copy, Debug, PartialEq, Eq, Error)]
pub enum AllocEnd {
    /// No so many adjacent slabs are free.
    #[error("heap exhausted")]
    HeapExhausted,
    /// An indexed pool has as many cells as it may.
    #[error("index exhausted")]
    IndexExhausted,
    /// The host has no memory left.
    #[error("out of memory")]
    OutOfMemory,
}

/// No live cell or object of the pool begins at the address.
#[derive(Clone, Copy, Debug, PartialEq, Eq, Error)]
#[error("not live")]
pub struct NotLive;

/// Pools of cells in the slabs below a limit.
#[derive(Drop)]
pub struct Pools {
    slabs: Slabs,
    index: u32,
    pools: BTreeMap<u64, Pool>,
    made: u64,
    alloc: Global,
}

impl Model for Pools {
    ghost use Rattle.slab_space.specs.Pools as seen;

    ghost Value = { seen.Pools };

    ghost use Rattle.pool_runtime.specs.Seen.{pools_of};
    ghost use Rattle.pool_runtime.specs.Tables.{IsPools};

    ghost view = { pools_of };

    ghost invariant = { IsPools };
}

impl Pools {
    /// No pools, in a space of `slabs` slabs; an indexed pool may make `index` cells.
    pub fn new(alloc: Global, slabs: u32, index: u32) -> Pools
        requires least { 1 ≤ slabs }
        requires most { slabs ≤ 1048576 }
        requires index { 1 ≤ index }
        ensures { result ≡ new_pools slabs index }
    {
        Pools {
            slabs: Slabs::new(alloc, slabs),
            index,
            pools: BTreeMap::new(alloc),
            made: 0,
            alloc,
        }
    }

    /// Makes a pool. After 2^64 - 1 pools there is no further number, and the answer is as without memory.
    pub fn init(&mut self, kind: PoolKind) -> Result<PoolId, OutOfMemory>
        requires { IsKind kind }
        ensures number { IfOk result (λ id. id.0 ≡ length self.old.pools + 1) }
        ensures ok { OnOk result (self.new ≡ init_step self.old kind) }
        ensures err { OnErr result (self.new ≡ self.old) }
    {
        let Some(id) = self.made.checked_add(1) else {
            return Err(OutOfMemory);
        };
        let pool = Pool::new(self.alloc, kind)?;
        match self.pools.insert(id, pool) {
            Ok(_) => {
                self.made = id;
                Ok(PoolId(id))
            }
            Err(_) => Err(OutOfMemory),
        }
    }

    pub fn lives(&self, id: PoolId) -> bool
        ensures { result ≡ lives_of self.now id.0 }
    {
        self.pools.contains_key(&id.0)
    }

    /// Ends a pool, and gives all its slabs back.
    pub fn destroy(&mut self, id: PoolId)
        requires { lives_of self.old id.0 ≡ true }
        ensures { self.new ≡ destroy_step self.old id.0 }
    {
        if let Some(pool) = self.pools.remove(&id.0) {
            pool.give_slabs(&mut self.slabs);
        }
    }

    /// Places an object of so many bytes, all zero, and answers its address; 0 for 0 bytes.
    pub fn alloc(&mut self, id: PoolId, bytes: u64) -> Result<u64, AllocEnd>
        requires { lives_of self.old id.0 ≡ true }
        ensures ok { IfOk result (λ address. alloc_step self.old id.0 bytes ≡ placed address self.new) }
        ensures heap { (result ≡ Err AllocEnd.HeapExhausted) ↔ (alloc_step self.old id.0 bytes ≡ heap_exhausted) }
        ensures index { (result ≡ Err AllocEnd.IndexExhausted) ↔ (alloc_step self.old id.0 bytes ≡ index_exhausted) }
        ensures memory { result ≡ Err AllocEnd.OutOfMemory → TakesSlabs self.old (alloc_step self.old id.0 bytes) }
        ensures err { OnErr result (self.new ≡ self.old) }
    {
        if bytes == 0 {
            return Ok(0);
        }
        match self.pools.get_mut(&id.0) {
            Some(pool) => pool.alloc(&mut self.slabs, id.0, bytes, self.index),
            None => Err(AllocEnd::HeapExhausted),
        }
    }

    /// Frees the live cell or object of the pool that begins at the address.
    pub fn free(&mut self, id: PoolId, address: u64) -> Result<(), NotLive>
        requires { lives_of self.old id.0 ≡ true }
        ensures ok { OnOk result (free_step self.old id.0 address ≡ Some self.new) }
        ensures err { OnErr result (free_step self.old id.0 address ≡ None) }
        ensures unchanged { OnErr result (self.new ≡ self.old) }
    {
        let Some(found) = self.slabs.find(address) else {
            return Err(NotLive);
        };
        if found.home.pool != id.0 {
            return Err(NotLive);
        }
        match self.pools.get_mut(&id.0) {
            Some(pool) => pool.free(&mut self.slabs, &found),
            None => Err(NotLive),
        }
    }

    /// The address of a cell by its number in a homogeneous pool; 0 where no such cell was made.
    pub fn address(&self, id: PoolId, index: u32) -> u64
        ensures { result ≡ address_of self.now id.0 index }
    {
        match self.pools.get(&id.0) {
            Some(pool) => pool.address(index),
            None => 0,
        }
    }

    /// The number of the cell of a homogeneous pool that begins at the address; 0 where no such cell was made.
    pub fn index(&self, id: PoolId, address: u64) -> u32
        ensures { result ≡ index_of self.now id.0 address }
    {
        let Some(found) = self.slabs.find(address) else {
            return 0;
        };
        if found.home.pool != id.0 {
            return 0;
        }
        match self.pools.get(&id.0) {
            Some(pool) => pool.index(&found),
            None => 0,
        }
    }

    /// The number in the `width` bytes from an address on, the low byte first; none where they lie in no one live cell
    /// or object.
    pub fn load(&self, address: u64, width: usize) -> Option<u64>
        requires least { 1 ≤ width }
        requires most { width ≤ 8 }
        ensures step { result ≡ load_step self.now address width }
        ensures small { IfSome result (λ word. word < 256 ^ width) }
    {
        if covers(&self.slabs, &self.pools, address, width) {
            Some(read_word(&self.slabs.space, address - START, width))
        } else {
            None
        }
    }

    /// Writes the lowest `width` bytes of `word` from an address on, the low byte first, where they lie in one live cell
    /// or object.
    pub fn store(&mut self, address: u64, width: usize, word: u64) -> bool
        requires least { 1 ≤ width }
        requires most { width ≤ 8 }
        ensures step { store_step self.old address width word ≡ (if result then Some self.new else None) }
        ensures unchanged { result ≡ false → self.new ≡ self.old }
    {
        let there = covers(&self.slabs, &self.pools, address, width);
        if there {
            write_word(&mut self.slabs.space, address - START, width, word);
        }
        there
    }

    /// The kind of a living pool.
    pub fn kind(&self, id: PoolId) -> Option<PoolKind>
        ensures { result ≡ kind_of self.now id.0 }
    {
        match self.pools.get(&id.0) {
            Some(pool) => Some(pool.kind),
            None => None,
        }
    }

    /// The most cells and objects of a pool that were live at once.
    pub fn peak(&self, id: PoolId) -> u64
        ensures { result ≡ peak_of self.now id.0 }
    {
        match self.pools.get(&id.0) {
            Some(pool) => pool.peak,
            None => 0,
        }
    }

    /// How many cells and objects of a pool are live.
    pub fn live(&self, id: PoolId) -> u64
        ensures { result ≡ live_of self.now id.0 }
    {
        match self.pools.get(&id.0) {
            Some(pool) => pool.live,
            None => 0,
        }
    }

    /// How many slabs a pool holds.
    pub fn slabs(&self, id: PoolId) -> u32
        ensures { result ≡ slabs_of self.now id.0 }
    {
        match self.pools.get(&id.0) {
            Some(pool) => pool.slabs,
            None => 0,
        }
    }

    /// How many slabs are free.
    pub fn free_slabs(&self) -> u32
        ensures { result ≡ free_slabs_of self.now }
    {
        self.slabs.space.free_slabs()
    }
}

/// Whether the `width` bytes from an address on lie in one live cell or object.
fn covers(slabs: &Slabs, pools: &BTreeMap<u64, Pool>, address: u64, width: usize) -> bool
    requires space { IsSpace slabs.now.space }
    requires most { width ≤ 8 }
    requires sizes { HaveSizes pools.now }
    ensures { CoversAt slabs.now pools.now address width result }
{
    let Some(found) = slabs.find(address) else {
        return false;
    };
    match pools.get(&found.home.pool) {
        Some(pool) => pool.covers(&found, width),
        None => false,
    }
}
