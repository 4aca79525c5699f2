// What is counted of pools, for each instruction that makes them.

ghost use Rattle.std.specs.Prelude.{◌≡◌, ◌<◌, Some, OnOk};
ghost use Rattle.indexmap.specs.IndexMap.{spare};
ghost use Rattle.pool_isa.specs.Tally.{no_counts, or_none, new_tally, pool_made, pool_destroyed, counts_placed, object_placed};
ghost use Rattle.machine.specs.Heaps.{tally_of};

use indexmap::IndexMap;
use pool_isa::{PoolCounts, Site};
use std::alloc::{AllocError, Global};

/// What is counted of pools.
#[derive(Drop)]
pub(crate) struct Tally {
    /// For each instruction that has made a pool, what is counted of its pools.
    counts: IndexMap<Site, PoolCounts>,
    /// For each living pool the instruction that made it.
    origins: IndexMap<u64, Site>,
    /// The pools made.
    made: u64,
    /// The objects placed.
    objects: u64,
    /// The fewest slabs that were free at once.
    free: u32,
}

/// The counts of an instruction that has made no pool.
fn no_counts() -> PoolCounts
    ensures { result ≡ no_counts }
{
    PoolCounts {
        made: 0,
        objects: 0,
        peak: 0,
        slabs: 0,
    }
}

impl Tally {
    /// No pool was made; so many slabs are free.
    pub(crate) fn new(alloc: Global, slabs: u32) -> Tally
        ensures { tally_of result ≡ new_tally slabs }
    {
        Tally {
            counts: IndexMap::new(alloc),
            origins: IndexMap::new(alloc),
            made: 0,
            objects: 0,
            free: slabs,
        }
    }

    /// The counts of an instruction.
    pub(crate) fn counts(&self, site: Site) -> PoolCounts
        ensures { result ≡ or_none ((tally_of self.now).counts site) }
    {
        match self.counts.get(&site) {
            Some(counts) => *counts,
            None => no_counts(),
        }
    }

    /// The pools made.
    pub(crate) fn made(&self) -> u64
        ensures { result ≡ (tally_of self.now).made }
    {
        self.made
    }

    /// The objects placed.
    pub(crate) fn objects(&self) -> u64
        ensures { result ≡ (tally_of self.now).objects }
    {
        self.objects
    }

    /// The fewest slabs that were free at once.
    pub(crate) fn free(&self) -> u32
        ensures { result ≡ (tally_of self.now).free }
    {
        self.free
    }

    /// Makes room for one more pool.
    pub(crate) fn reserve(&mut self) -> Result<(), AllocError>
        ensures same { tally_of self.new ≡ tally_of self.old }
        ensures counts { OnOk result (0 < spare self.new.counts) }
        ensures origins { OnOk result (0 < spare self.new.origins) }
    {
        self.counts.reserve(1)?;
        self.origins.reserve(1)?;
        Ok(())
    }

    /// An instruction has made a pool.
    pub(crate) fn pool_made(&mut self, site: Site, pool: u64)
        requires counts { 0 < spare self.old.counts }
        requires origins { 0 < spare self.old.origins }
        ensures { tally_of self.new ≡ pool_made site pool (tally_of self.old) }
    {
        let counts = self.counts(site);
        let more = PoolCounts {
            made: counts.made.saturating_add(1),
            ..counts
        };
        self.counts.insert(site, more).unwrap();
        self.origins.insert(pool, site).unwrap();
        self.made = self.made.saturating_add(1);
    }

    /// An object was placed in a pool of an instruction.
    fn count_object(&mut self, site: Site, peak: u64, slabs: u32)
        ensures { tally_of self.new ≡ record (tally_of self.old) { counts = counts_placed peak slabs (Some site) (tally_of self.old).counts } }
    {
        if let Some(counts) = self.counts.get_mut(&site) {
            counts.objects = counts.objects.saturating_add(1);
            counts.peak = counts.peak.max(peak);
            counts.slabs = counts.slabs.max(slabs);
        }
    }

    /// A pool was destroyed.
    pub(crate) fn pool_destroyed(&mut self, pool: u64)
        ensures { tally_of self.new ≡ pool_destroyed pool (tally_of self.old) }
    {
        self.origins.swap_remove(&pool);
    }

    /// An object was placed in a pool, in which at most `peak` objects have lived at once, and which holds `slabs` slabs;
    /// `free` slabs are free.
    pub(crate) fn object_placed(&mut self, pool: u64, peak: u64, slabs: u32, free: u32)
        ensures { tally_of self.new ≡ object_placed pool peak slabs free (tally_of self.old) }
    {
        if let Some(site) = self.origins.get(&pool).copied() {
            self.count_object(site, peak, slabs);
        }
        self.objects = self.objects.saturating_add(1);
        self.free = self.free.min(free);
    }
}
