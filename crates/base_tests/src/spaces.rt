use crate::answers::{Answer, DONE};
use slab_space::{SlabSpace, TakeErr};
use std::process::Abort;

/// A run of so many slabs is taken, or given back from its first one on; the last word of a slab is written or read; a slab's
/// owner, and how many slabs are free.
#[derive(Clone, Copy)]
enum Call {
    Take(u32),
    Give(u32, u32),
    Put(u32, u64),
    Word(u32),
    Owner(u32),
    Free,
}

const FULL: Answer = Err("full");

const LOWEST_RUN_IS_TAKEN: [(Call, Answer); 13] = [
    (Call::Take(2), Ok(0)),
    (Call::Take(1), Ok(2)),
    (Call::Take(3), Ok(3)),
    (Call::Free, Ok(2)),
    (Call::Give(2, 1), DONE),
    (Call::Free, Ok(3)),
    (Call::Take(2), Ok(6)),
    (Call::Take(1), Ok(2)),
    (Call::Free, Ok(0)),
    (Call::Take(1), FULL),
    (Call::Give(3, 3), DONE),
    (Call::Take(1), Ok(3)),
    (Call::Take(2), Ok(4)),
];

const FULL_WHERE_NO_ADJACENT_SLABS_ARE_FREE: [(Call, Answer); 11] = [
    (Call::Take(4), FULL),
    (Call::Take(1), Ok(0)),
    (Call::Take(1), Ok(1)),
    (Call::Take(1), Ok(2)),
    (Call::Give(0, 1), DONE),
    (Call::Give(2, 1), DONE),
    (Call::Free, Ok(2)),
    (Call::Take(2), FULL),
    (Call::Free, Ok(2)),
    (Call::Give(1, 1), DONE),
    (Call::Take(3), Ok(0)),
];

const TAKEN_SLABS_READ_AS_ZERO: [(Call, Answer); 6] = [
    (Call::Take(2), Ok(0)),
    (Call::Put(1, 77), DONE),
    (Call::Word(1), Ok(77)),
    (Call::Give(0, 2), DONE),
    (Call::Take(2), Ok(0)),
    (Call::Word(1), Ok(0)),
];

const OTHER_SLABS_STAY_AS_THEY_WERE: [(Call, Answer); 13] = [
    (Call::Take(2), Ok(0)),
    (Call::Take(2), Ok(2)),
    (Call::Put(1, 1), DONE),
    (Call::Put(2, 2), DONE),
    (Call::Put(3, 3), DONE),
    (Call::Give(0, 2), DONE),
    (Call::Owner(1), Err("free")),
    (Call::Owner(2), Ok(2)),
    (Call::Owner(3), Ok(2)),
    (Call::Owner(1_048_575), Err("free")),
    (Call::Word(2), Ok(2)),
    (Call::Word(3), Ok(3)),
    (Call::Free, Ok(1_048_574)),
];

fn owner(space: &SlabSpace, slab: u32) -> Answer {
    if slab >= space.limit() {
        return Err("outside");
    }
    match space.owner(slab) {
        Some(first) => Ok(first as u64),
        None => Err("free"),
    }
}

fn take(space: &mut SlabSpace, count: u32) -> Answer {
    if count == 0 {
        return Err("outside");
    }
    match space.take_run(count) {
        Ok(first) => Ok(first as u64),
        Err(TakeErr::Full) => FULL,
        Err(TakeErr::OutOfMemory) => Err("no memory"),
    }
}

/// Gives a run back, once its owners were looked at.
fn give(space: &mut SlabSpace, first: u32, count: u32) -> Answer {
    let limit = space.limit();
    if count == 0 || first >= limit || count > limit - first {
        return Err("outside");
    }
    for slab in first..first + count {
        if space.owner(slab) != Some(first) {
            return Err("another run");
        }
    }
    space.give_run(first, count);
    DONE
}

fn put(space: &mut SlabSpace, slab: u32, word: u64) -> Answer {
    if slab >= space.limit() || space.owner(slab).is_none() {
        return Err("free");
    }
    space.write(slab, 4088, 8, word);
    DONE
}

fn word(space: &SlabSpace, slab: u32) -> Answer {
    if slab >= space.limit() || space.owner(slab).is_none() {
        return Err("free");
    }
    Ok(space.read(slab, 4088, 8))
}

fn answer(space: &mut SlabSpace, call: Call) -> Answer {
    match call {
        Call::Take(count) => take(space, count),
        Call::Give(first, count) => give(space, first, count),
        Call::Put(slab, number) => put(space, slab, number),
        Call::Word(slab) => word(space, slab),
        Call::Owner(slab) => owner(space, slab),
        Call::Free => Ok(space.free_slabs() as u64),
    }
}

/// Each call has its answer.
fn play(rt: &impl Abort, mut space: SlabSpace, calls: &[(Call, Answer)]) {
    for (row, (call, expected)) in calls.iter().enumerate() {
        assert_eq!(rt; answer(&mut space, *call), *expected, "call {row}");
    }
}

#[test]
fn runs_are_taken_and_given_back(rt: HostRuntime) {
    let alloc = rt.alloc();
    play(&rt, SlabSpace::new(alloc, 8), &LOWEST_RUN_IS_TAKEN);
    play(
        &rt,
        SlabSpace::new(alloc, 3),
        &FULL_WHERE_NO_ADJACENT_SLABS_ARE_FREE,
    );
    play(&rt, SlabSpace::new(alloc, 2), &TAKEN_SLABS_READ_AS_ZERO);
    play(
        &rt,
        SlabSpace::new(alloc, 1_048_576),
        &OTHER_SLABS_STAY_AS_THEY_WERE,
    );
}
