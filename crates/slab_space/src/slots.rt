// The table of the slabs reached so far.

ghost use Rattle.std.specs.Prelude.{◌≡◌, ◌+◌, ◌-◌, ◌*◌, ◌≤◌, None, Some, OnOk, OnErr, vec_len};
ghost use Rattle.slab_space.specs.Runs.{IsFreeRun, with_run};
ghost use Rattle.slab_space.specs.Space.{IsZero};
ghost use Rattle.slab_space.specs.Slots.{owners_in, bytes_in, all_owners, all_bytes, Reaches};

use raw_slab::{OutOfMemory, RawSlab};
use std::alloc::Global;

/// A slab that is held: the first slab of its run, and its memory.
#[derive(Drop)]
pub(crate) struct HeldSlab {
    pub(crate) run: u32,
    pub(crate) memory: RawSlab,
}

/// Gives each of `count` free slabs its memory, if there is enough.
pub(crate) fn furnish(
    slots: &mut Vec<Option<HeldSlab>>,
    alloc: Global,
    first: u32,
    count: u32,
    limit: u32,
) -> Result<(), OutOfMemory>
    requires within { vec_len slots.old ≤ limit }
    requires free { IsFreeRun (all_owners slots.old.items limit) first count }
    ensures within { vec_len slots.new ≤ limit }
    ensures owners { OnOk result (all_owners slots.new.items limit ≡ with_run (all_owners slots.old.items limit) first count (Some first)) }
    ensures err { OnErr result (all_owners slots.new.items limit ≡ all_owners slots.old.items limit) }
    ensures bytes { all_bytes slots.new.items limit ≡ all_bytes slots.old.items limit }
    ensures zero { OnOk result (IsZero (all_bytes slots.new.items limit) (4096 * first) (4096 * count)) }
{
    reach(slots, first as usize + count as usize)?;
    fill(slots, alloc, first, count)?;
    Ok(())
}

/// Makes the table reach at least `end` slabs.
fn reach(slots: &mut Vec<Option<HeldSlab>>, end: usize) -> Result<(), OutOfMemory>
    ensures grown { Reaches slots.old.items slots.new.items end }
    ensures reached { OnOk result (end ≤ vec_len slots.new) }
{
    while slots.len() < end {
        match slots.push(None) {
            Ok(()) => {}
            Err(_) => return Err(OutOfMemory),
        }
    }
    Ok(())
}

/// Gives each of `count` free slabs its memory.
fn fill(
    slots: &mut Vec<Option<HeldSlab>>,
    alloc: Global,
    first: u32,
    count: u32,
) -> Result<(), OutOfMemory>
    requires { IsFreeRun (owners_in slots.old.items) first count }
    ensures owners { OnOk result (owners_in slots.new.items ≡ with_run (owners_in slots.old.items) first count (Some first)) }
    ensures err { OnErr result (owners_in slots.new.items ≡ owners_in slots.old.items) }
    ensures bytes { bytes_in slots.new.items ≡ bytes_in slots.old.items }
{
    let start = first as usize;
    for at in start..start + count as usize {
        match RawSlab::new(alloc) {
            Ok(memory) => slots[at] = Some(HeldSlab { run: first, memory }),
            Err(error) => {
                clear(slots, start, at);
                return Err(error);
            }
        }
    }
    Ok(())
}

/// Frees the memory of the slabs from `first` to `end`.
pub(crate) fn clear(slots: &mut Vec<Option<HeldSlab>>, first: usize, end: usize)
    requires order { first ≤ end }
    requires inside { end ≤ vec_len slots.old }
    ensures len { vec_len slots.new ≡ vec_len slots.old }
    ensures owners { owners_in slots.new.items ≡ with_run (owners_in slots.old.items) first (end - first) None }
    ensures bytes { bytes_in slots.new.items ≡ with_run (bytes_in slots.old.items) (4096 * first) (4096 * (end - first)) 0 }
{
    for at in first..end {
        slots[at] = None;
    }
}
