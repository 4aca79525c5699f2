// Cells of one size, numbered from 1 in the order in which they are made.

ghost use Rattle.std.specs.Prelude.{◌≡◌, ◌==◌, ◌&&◌, ◌||◌, ◌<◌, ◌≤◌, ◌+◌, ◌-◌, ◌/◌, [], ◌∷◌, ◌++◌, true, false, nat_lt, nat_le, length, replicate, slice_index_or, OnOk, OnErr};
ghost use Rattle.slab_space.specs.Runs.{need as slabs_needed};
ghost use Rattle.slab_space.specs.Pool.{cells_per_run, with_next, with_freed, has_room as is_room};

use crate::memory::{clear, need, place_of, read_word, write_word};
use raw_slab::OutOfMemory;
use slab_space::SlabSpace;
use std::alloc::Global;

#[derive(Drop)]
pub(crate) struct Cells {
    pub(crate) size: u32,
    // The first slabs of the runs that hold them.
    pub(crate) runs: Vec<u32>,
    // Whether each cell that these runs have room for is live.
    live: Vec<bool>,
    made: u32,
    // How many are freed, and the last one freed. In its first 4 bytes stands the one freed before it.
    freed: u32,
    last_freed: u32,
}

impl Cells {
    ghost use Rattle.slab_space.specs.Space.{Space};
    ghost use Rattle.run_theory.specs.Words.{with_word};
    ghost use Rattle.slab_space.specs.Runs.{with_run};
    ghost use Rattle.pool_runtime.specs.Seen.{place as cell_place, class_seen, freed_seen, cell_found, after_next, number_next};
    ghost use Rattle.pool_runtime.specs.Tables.{IsSpace, IsCells, AreRuns};

    pub(crate) fn new(alloc: Global, size: u32) -> Cells
        ensures size { result.size ≡ size }
        ensures runs { result.runs.items ≡ [] }
        ensures live { result.live.items ≡ [] }
        ensures made { result.made ≡ 0 }
        ensures freed { result.freed ≡ 0 }
    {
        Cells {
            size,
            runs: Vec::new(alloc),
            live: Vec::new(alloc),
            made: 0,
            freed: 0,
            last_freed: 0,
        }
    }

    /// The slabs of a run.
    pub(crate) fn run_slabs(&self) -> u32
        ensures { result ≡ slabs_needed self.now.size }
    {
        need(self.size as u64) as u32
    }

    /// The cells in a run.
    fn run_cells(&self) -> u32
        requires { 1 ≤ self.now.size }
        ensures { result ≡ cells_per_run self.now.size }
    {
        (4096 / self.size).max(1)
    }

    /// Where a cell lies in the space.
    pub(crate) fn place(&self, number: u32) -> u64
        requires least { 4 ≤ self.now.size }
        requires most { self.now.size ≤ 1048576 }
        requires some { 1 ≤ number }
        requires inside { (number - 1) / cells_per_run self.now.size < length self.now.runs.items }
        ensures { result ≡ cell_place self.now number }
    {
        let before = number - 1;
        let first = self.runs[(before / self.run_cells()) as usize];
        place_of(first) + self.size as u64 * (before % self.run_cells()) as u64
    }

    /// Whether as many cells were made as may be and none of them is free.
    pub(crate) fn at_limit(&self, limit: u32) -> bool
        ensures { result ≡ (self.now.freed == 0 && nat_le limit self.now.made) }
    {
        self.freed == 0 && limit <= self.made
    }

    /// Whether a cell is there for the next allocation.
    pub(crate) fn has_room(&self) -> bool
        ensures { result ≡ (nat_lt 0 self.now.freed || nat_lt self.now.made (length self.now.live.items)) }
    {
        self.freed > 0 || (self.made as usize) < self.live.len()
    }

    /// Takes another run over, or nothing where memory is short.
    pub(crate) fn add_run(&mut self, first: u32) -> Result<(), OutOfMemory>
        requires least { 4 ≤ self.old.size }
        requires short { length self.old.live.items ≤ 2147483648 }
        ensures runs { OnOk result (self.new.runs.items ≡ self.old.runs.items ++ first ∷ []) }
        ensures live { OnOk result (self.new.live.items ≡ self.old.live.items ++ replicate (cells_per_run self.old.size) false) }
        ensures err_runs { OnErr result (self.new.runs.items ≡ self.old.runs.items) }
        ensures err_live { OnErr result (self.new.live.items ≡ self.old.live.items) }
        ensures others { self.new ≡ record self.old { runs = self.new.runs; live = self.new.live } }
    {
        let room = self.live.len() + self.run_cells() as usize;
        if self.runs.push(first).is_err() {
            return Err(OutOfMemory);
        }
        if self.live.resize(room, false).is_err() {
            self.runs.pop();
            return Err(OutOfMemory);
        }
        Ok(())
    }

    /// Makes the last freed cell live, or the next one, and answers its place.
    pub(crate) fn take(&mut self, space: &mut SlabSpace) -> u64
        requires space { IsSpace space.old }
        requires cells { IsCells space.old.bytes self.old }
        requires runs { AreRuns space.old.owners self.old }
        requires room { is_room (class_seen space.old.bytes self.old) ≡ true }
        ensures place { result ≡ cell_place self.old (number_next self.old) }
        ensures space { space.new ≡ record space.old { bytes = with_run space.old.bytes result self.old.size 0 } }
        ensures seen { class_seen space.new.bytes self.new ≡ with_next (class_seen space.old.bytes self.old) (freed_seen space.old.bytes self.old) }
        ensures cells { IsCells space.new.bytes self.new }
        ensures size { self.new.size ≡ self.old.size }
        ensures same_runs { self.new.runs.items ≡ self.old.runs.items }
    {
        let number = self.next(space);
        let place = self.place(number);
        clear(space, place, self.size as u64);
        self.live[number as usize - 1] = true;
        place
    }

    /// Takes the last freed cell off its list, or makes the next one, and answers its number.
    fn next(&mut self, space: &SlabSpace) -> u32
        requires space { IsSpace space.now }
        requires cells { IsCells space.now.bytes self.old }
        requires runs { AreRuns space.now.owners self.old }
        requires room { is_room (class_seen space.now.bytes self.old) ≡ true }
        ensures number { result ≡ number_next self.old }
        ensures after { self.new ≡ after_next space.now.bytes self.old }
    {
        if self.freed == 0 {
            self.made += 1;
            return self.made;
        }
        let number = self.last_freed;
        self.last_freed = read_word(space, self.place(number), 4) as u32;
        self.freed -= 1;
        number
    }

    /// Frees a live cell.
    pub(crate) fn give(&mut self, space: &mut SlabSpace, number: u32)
        requires space { IsSpace space.old }
        requires cells { IsCells space.old.bytes self.old }
        requires runs { AreRuns space.old.owners self.old }
        requires some { 1 ≤ number }
        requires made { number ≤ self.old.made }
        requires live { slice_index_or self.old.live.items (number - 1) false ≡ true }
        ensures space { space.new ≡ record space.old { bytes = with_word space.old.bytes (cell_place self.old number) 4 self.old.last_freed } }
        ensures seen { class_seen space.new.bytes self.new ≡ with_freed (class_seen space.old.bytes self.old) number }
        ensures cells { IsCells space.new.bytes self.new }
        ensures size { self.new.size ≡ self.old.size }
        ensures same_runs { self.new.runs.items ≡ self.old.runs.items }
    {
        write_word(space, self.place(number), 4, self.last_freed as u64);
        self.live[number as usize - 1] = false;
        self.freed += 1;
        self.last_freed = number;
    }

    /// The number of the cell that has the byte `within` a run, and the byte's place in the cell.
    pub(crate) fn cell_in(&self, run: usize, within: u64) -> Option<(u32, u64)>
        requires least { 4 ≤ self.now.size }
        requires most { self.now.size ≤ 1048576 }
        requires run { run < 1048576 }
        ensures { result ≡ cell_found self.now run within }
    {
        let before = within / self.size as u64;
        if before >= self.run_cells() as u64 {
            return None;
        }
        let number = run as u32 * self.run_cells() + before as u32 + 1;
        if number > self.made {
            return None;
        }
        Some((number, within % self.size as u64))
    }

    pub(crate) fn is_live(&self, number: u32) -> bool
        requires some { 1 ≤ number }
        requires made { number ≤ length self.now.live.items }
        ensures { result ≡ slice_index_or self.now.live.items (number - 1) false }
    {
        self.live[number as usize - 1]
    }

    pub(crate) fn made(&self) -> u32
        ensures { result ≡ self.now.made }
    {
        self.made
    }
}
