// A pool: its cells, by class, and its large objects.

ghost use Rattle.std.specs.Prelude.{◌≡◌, ◌+◌, ◌≤◌, ◌<◌, ◌^◌, ℕ, List, [], length, map, max, true, nat_le, position, slice_index_or, IfOk, IfSome, OnOk, Some};
ghost use Rattle.slab_space.specs.Runs.{free_count};
ghost use Rattle.slab_space.specs.Pool.{IsKind, has_room as is_room, class_for as class_of, address_in, numbered, no_cells};
ghost use Rattle.pool_runtime.specs.Changes.{Added};
ghost use Rattle.pool_runtime.specs.Given.{AreGivable, given_all, runs_of, class_runs};
ghost use Rattle.slab_space.specs.PoolSteps.{at_limit};

use crate::cells::Cells;
use crate::memory::{START, need, place_of};
use crate::pools::{AllocEnd, NotLive};
use crate::slabs::{Found, Held, Home, Slabs};
use raw_slab::OutOfMemory;
use slab_space::{PoolKind, SlabSpace, TakeErr};
use std::alloc::Global;
use std::collections::BTreeMap;

#[derive(Drop)]
pub(crate) struct Pool {
    pub(crate) kind: PoolKind,
    // One where the pool is homogeneous.
    classes: Vec<Cells>,
    // How many bytes each large object has, by its first slab.
    large: BTreeMap<u32, u64>,
    pub(crate) slabs: u32,
    pub(crate) live: u64,
    pub(crate) peak: u64,
}

impl Pool {
    ghost use Rattle.pool_runtime.specs.Seen.{class_seen, pool_seen};
    ghost use Rattle.pool_runtime.specs.Tables.{IsSpace, IsPool};
    ghost use Rattle.pool_runtime.specs.Changes.{Changes, Ends, FindsCell, FreesFound, IsNew, AddsRun, placing, placing_in_class, placing_large, cells_in, PlacesCell};
    ghost use Rattle.pool_runtime.specs.Given.{pool_runs};
    ghost use Rattle.pool_runtime.specs.Lookup.{AreSized, cell_of, is_covered, is_homogeneous_kind, is_indexed_kind, index_found};

    pub(crate) fn new(alloc: Global, kind: PoolKind) -> Result<Pool, OutOfMemory>
        requires { IsKind kind }
        ensures { IfOk result (IsNew kind) }
    {
        let mut classes = Vec::new(alloc);
        match kind {
            PoolKind::Homogeneous { cell, .. } => {
                add_class(&mut classes, alloc, cell as u32)?;
            }
            PoolKind::Mixed => {
                for size in [16, 32, 64, 128, 256, 512, 1024, 2048] {
                    add_class(&mut classes, alloc, size)?;
                }
            }
        }
        Ok(Pool {
            kind,
            classes,
            large: BTreeMap::new(alloc),
            slabs: 0,
            live: 0,
            peak: 0,
        })
    }

    /// Places an object of so many bytes, and answers its address.
    pub(crate) fn alloc(
        &mut self,
        slabs: &mut Slabs,
        id: u64,
        bytes: u64,
        limit: u32,
    ) -> Result<u64, AllocEnd>
        requires space { IsSpace slabs.old.space }
        requires pool { IsPool slabs.old id self.old }
        requires counted { self.old.slabs + free_count slabs.old.space.owners ≤ length slabs.old.space.owners }
        requires some { 1 ≤ bytes }
        ensures changes { Changes id slabs.old slabs.new self.old self.new }
        ensures ends { Ends (placing limit slabs.old self.old bytes) slabs.old slabs.new self.old self.new result }
    {
        match self.class_for(bytes) {
            Some(class) => self.alloc_cell(slabs, id, class, limit),
            None => self.alloc_large(slabs, id, bytes),
        }
    }

    /// The class that an object of so many bytes goes to; none where it is large.
    fn class_for(&self, bytes: u64) -> Option<usize>
        requires { 1 ≤ length self.now.classes.items }
        ensures class { (memory : List ℕ) → result ≡ class_of self.now.kind (map (class_seen memory) self.now.classes.items) bytes }
        ensures inside { IfSome result (λ class. class < length self.now.classes.items) }
    {
        match self.kind {
            PoolKind::Homogeneous { .. } => Some(0),
            PoolKind::Mixed => self.least_class(bytes),
        }
    }

    /// The first class whose cells have so many bytes.
    fn least_class(&self, bytes: u64) -> Option<usize>
        ensures class { (memory : List ℕ) → result ≡ position (λ c. nat_le bytes c.size) (map (class_seen memory) self.now.classes.items) }
        ensures inside { IfSome result (λ class. class < length self.now.classes.items) }
    {
        for class in 0..self.classes.len() {
            if bytes <= self.classes[class].size as u64 {
                return Some(class);
            }
        }
        None
    }

    fn alloc_cell(
        &mut self,
        slabs: &mut Slabs,
        id: u64,
        class: usize,
        limit: u32,
    ) -> Result<u64, AllocEnd>
        requires space { IsSpace slabs.old.space }
        requires pool { IsPool slabs.old id self.old }
        requires counted { self.old.slabs + free_count slabs.old.space.owners ≤ length slabs.old.space.owners }
        requires class { class < length self.old.classes.items }
        ensures changes { Changes id slabs.old slabs.new self.old self.new }
        ensures ends { Ends (placing_in_class limit slabs.old self.old class) slabs.old slabs.new self.old self.new result }
    {
        if self.is_limited(class, limit) {
            return Err(AllocEnd::IndexExhausted);
        }
        if self.classes[class].has_room() {
            return Ok(self.take_cell(slabs, id, class));
        }
        match self.add_run(slabs, id, class) {
            Ok(()) => Ok(self.take_cell(slabs, id, class)),
            Err(end) => Err(end),
        }
    }

    /// Makes the next cell of a class live, and answers its address.
    fn take_cell(&mut self, slabs: &mut Slabs, id: u64, class: usize) -> u64
        requires space { IsSpace slabs.old.space }
        requires pool { IsPool slabs.old id self.old }
        requires counted { self.old.slabs + free_count slabs.old.space.owners ≤ length slabs.old.space.owners }
        requires class { class < length self.old.classes.items }
        requires room { is_room (slice_index_or (pool_seen slabs.old.space.bytes self.old).classes class (no_cells 0)) ≡ true }
        ensures changes { Changes id slabs.old slabs.new self.old self.new }
        ensures step { PlacesCell slabs.old slabs.new self.old self.new class result }
    {
        let place = self.classes[class].take(&mut slabs.space);
        self.count_one();
        START + place
    }

    /// Whether the pool may make no further cell of a class and none is free.
    fn is_limited(&self, class: usize, limit: u32) -> bool
        requires { class < length self.now.classes.items }
        ensures { (bytes : List ℕ) → result ≡ at_limit limit self.now.kind (slice_index_or (map (class_seen bytes) self.now.classes.items) class (no_cells 0)) }
    {
        self.is_indexed() && self.classes[class].at_limit(limit)
    }

    fn is_indexed(&self) -> bool
        ensures { result ≡ is_indexed_kind self.now.kind }
    {
        match self.kind {
            PoolKind::Homogeneous { indexed, .. } => indexed,
            PoolKind::Mixed => false,
        }
    }

    /// Takes another run for a class.
    fn add_run(&mut self, slabs: &mut Slabs, id: u64, class: usize) -> Result<(), AllocEnd>
        requires space { IsSpace slabs.old.space }
        requires pool { IsPool slabs.old id self.old }
        requires counted { self.old.slabs + free_count slabs.old.space.owners ≤ length slabs.old.space.owners }
        requires class { class < length self.old.classes.items }
        ensures changes { Changes id slabs.old slabs.new self.old self.new }
        ensures added { AddsRun class slabs.old slabs.new self.old self.new (cells_in slabs.old self.old class) result }
    {
        let cells = &mut self.classes[class];
        let count = cells.run_slabs();
        let held = Held::Cells {
            class,
            run: cells.runs.len(),
        };
        let first = match slabs.take(count, Home { pool: id, held }) {
            Ok(first) => first,
            Err(TakeErr::Full) => return Err(AllocEnd::HeapExhausted),
            Err(TakeErr::OutOfMemory) => return Err(AllocEnd::OutOfMemory),
        };
        match cells.add_run(first) {
            Ok(()) => {
                self.slabs += count;
                Ok(())
            }
            Err(_) => {
                slabs.space.give_run(first, count);
                Err(AllocEnd::OutOfMemory)
            }
        }
    }

    fn alloc_large(&mut self, slabs: &mut Slabs, id: u64, bytes: u64) -> Result<u64, AllocEnd>
        requires space { IsSpace slabs.old.space }
        requires pool { IsPool slabs.old id self.old }
        requires counted { self.old.slabs + free_count slabs.old.space.owners ≤ length slabs.old.space.owners }
        requires some { 1 ≤ bytes }
        ensures changes { Changes id slabs.old slabs.new self.old self.new }
        ensures ends { Ends (placing_large slabs.old self.old bytes) slabs.old slabs.new self.old self.new result }
    {
        let count = need(bytes);
        if count > slabs.space.limit() as u64 {
            return Err(AllocEnd::HeapExhausted);
        }
        let home = Home {
            pool: id,
            held: Held::Large,
        };
        let first = match slabs.take(count as u32, home) {
            Ok(first) => first,
            Err(TakeErr::Full) => return Err(AllocEnd::HeapExhausted),
            Err(TakeErr::OutOfMemory) => return Err(AllocEnd::OutOfMemory),
        };
        match self.large.insert(first, bytes) {
            Ok(_) => {
                self.slabs += count as u32;
                self.count_one();
                Ok(START + place_of(first))
            }
            Err(_) => {
                slabs.space.give_run(first, count as u32);
                Err(AllocEnd::OutOfMemory)
            }
        }
    }

    fn count_one(&mut self)
        requires { self.old.live + 1 < 2 ^ 64 }
        ensures { self.new ≡ record self.old { live = self.old.live + 1; peak = max self.old.peak (self.old.live + 1) } }
    {
        self.live += 1;
        self.peak = self.peak.max(self.live);
    }

    /// Frees the cell or the object that begins at a place.
    pub(crate) fn free(&mut self, slabs: &mut Slabs, found: &Found) -> Result<(), NotLive>
        requires space { IsSpace slabs.old.space }
        requires pool { IsPool slabs.old found.now.home.pool self.old }
        ensures changes { Changes found.now.home.pool slabs.old slabs.new self.old self.new }
        ensures frees { FreesFound slabs.old slabs.new self.old self.new found.now result }
    {
        match found.home.held {
            Held::Cells { class, run } => self.free_cell(slabs, found, class, run),
            Held::Large => self.free_large(slabs, found),
        }
    }

    fn free_cell(
        &mut self,
        slabs: &mut Slabs,
        found: &Found,
        class: usize,
        run: usize,
    ) -> Result<(), NotLive>
        requires space { IsSpace slabs.old.space }
        requires pool { IsPool slabs.old found.now.home.pool self.old }
        requires held { found.now.home.held ≡ Held.Cells class run }
        ensures changes { Changes found.now.home.pool slabs.old slabs.new self.old self.new }
        ensures frees { FreesFound slabs.old slabs.new self.old self.new found.now result }
    {
        let Some((number, off)) = self.cell_at(found, class, run) else {
            return Err(NotLive);
        };
        if off > 0 {
            return Err(NotLive);
        }
        if !self.classes[class].is_live(number) {
            return Err(NotLive);
        }
        self.classes[class].give(&mut slabs.space, number);
        self.live -= 1;
        Ok(())
    }

    fn free_large(&mut self, slabs: &mut Slabs, found: &Found) -> Result<(), NotLive>
        requires space { IsSpace slabs.old.space }
        requires pool { IsPool slabs.old found.now.home.pool self.old }
        requires held { found.now.home.held ≡ Held.Large }
        ensures changes { Changes found.now.home.pool slabs.old slabs.new self.old self.new }
        ensures frees { FreesFound slabs.old slabs.new self.old self.new found.now result }
    {
        if found.within > 0 {
            return Err(NotLive);
        }
        let Some(bytes) = self.large.remove(&found.first) else {
            return Err(NotLive);
        };
        let count = need(bytes) as u32;
        slabs.space.give_run(found.first, count);
        self.slabs -= count;
        self.live -= 1;
        Ok(())
    }

    /// The number of the made cell that a place lies in, and how far behind the cell's begin it lies.
    fn cell_at(&self, found: &Found, class: usize, run: usize) -> Option<(u32, u64)>
        requires sizes { AreSized self.now.classes.items }
        ensures { result ≡ cell_of self.now.classes.items found.now class run }
    {
        let cells = self.classes.get(class)?;
        if *cells.runs.get(run)? == found.first {
            cells.cell_in(run, found.within)
        } else {
            None
        }
    }

    /// Whether the `width` bytes from a place on lie in one live cell or object.
    pub(crate) fn covers(&self, found: &Found, width: usize) -> bool
        requires near { found.now.within < 4294967296 }
        requires most { width ≤ 8 }
        requires sizes { AreSized self.now.classes.items }
        ensures { result ≡ is_covered self.now found.now width }
    {
        match found.home.held {
            Held::Cells { class, run } => match self.cell_at(found, class, run) {
                Some((number, off)) => {
                    let cells = &self.classes[class];
                    cells.is_live(number) && off + width as u64 <= cells.size as u64
                }
                None => false,
            },
            Held::Large => match self.large.get(&found.first) {
                Some(bytes) => found.within + width as u64 <= *bytes,
                None => false,
            },
        }
    }

    fn is_homogeneous(&self) -> bool
        ensures { result ≡ is_homogeneous_kind self.now.kind }
    {
        match self.kind {
            PoolKind::Homogeneous { .. } => true,
            PoolKind::Mixed => false,
        }
    }

    /// The address of a cell by its number; 0 where there is none.
    pub(crate) fn address(&self, number: u32) -> u64
        requires some { 1 ≤ length self.now.classes.items }
        requires sizes { AreSized self.now.classes.items }
        ensures { (bytes : List ℕ) → result ≡ address_in (numbered self.now.kind (map (class_seen bytes) self.now.classes.items)) number }
    {
        if !self.is_homogeneous() || number == 0 {
            return 0;
        }
        let cells = &self.classes[0];
        if number > cells.made() {
            return 0;
        }
        START + cells.place(number)
    }

    /// The number of the cell that begins at a place; 0 where there is none.
    pub(crate) fn index(&self, found: &Found) -> u32
        requires sizes { AreSized self.now.classes.items }
        ensures { result ≡ index_found self.now found.now }
    {
        if !self.is_homogeneous() {
            return 0;
        }
        match found.home.held {
            Held::Cells { class, run } => match self.cell_at(found, class, run) {
                Some((number, 0)) => number,
                _ => 0,
            },
            Held::Large => 0,
        }
    }

    /// Gives all slabs of the pool back.
    pub(crate) fn give_slabs(&self, slabs: &mut Slabs)
        requires space { IsSpace slabs.old.space }
        requires runs { AreGivable (pool_runs self.now) slabs.old.space }
        ensures { slabs.new ≡ record slabs.old { space = given_all (pool_runs self.now) slabs.old.space } }
    {
        give_classes(&mut slabs.space, &self.classes);
        for (first, bytes) in &self.large {
            slabs.space.give_run(*first, need(*bytes) as u32);
        }
    }
}

fn add_class(classes: &mut Vec<Cells>, alloc: Global, size: u32) -> Result<(), OutOfMemory>
    ensures { OnOk result (Added size classes.old.items classes.new.items) }
{
    if classes.push(Cells::new(alloc, size)).is_err() {
        return Err(OutOfMemory);
    }
    Ok(())
}

/// Gives back the runs of some classes.
fn give_classes(space: &mut SlabSpace, classes: &[Cells])
    requires { AreGivable (class_runs classes.now) space.old }
    ensures { space.new ≡ given_all (class_runs classes.now) space.old }
{
    for cells in classes {
        give_runs(space, &cells.runs, cells.run_slabs());
    }
}

/// Gives back runs of `count` slabs.
fn give_runs(space: &mut SlabSpace, runs: &[u32], count: u32)
    requires { AreGivable (runs_of count runs.now) space.old }
    ensures { space.new ≡ given_all (runs_of count runs.now) space.old }
{
    for first in runs {
        space.give_run(*first, count);
    }
}
