use crate::answers::{Answer, DONE};
use pool_runtime::{AllocEnd, PoolId, PoolKind, Pools};
use std::process::Abort;

const START: u64 = 1 << 44;

const WORD: u64 = 0x0807_0605_0403_0201;

/// What a new pool holds: numbered cells of 16 bytes, cells of 6,000 bytes, or objects of any size.
#[derive(Clone, Copy)]
enum Kind {
    Numbered,
    Wide,
    Mixed,
}

/// A call on a pool, with its number in front; `Init`, `Load`, `Store` and `FreeSlabs` are of no pool.
#[derive(Clone, Copy)]
enum Call {
    Init(Kind),
    Destroy(u64),
    Alloc(u64, u64),
    Free(u64, u64),
    Load(u64, usize),
    Store(u64, usize, u64),
    Lives(u64),
    Index(u64, u64),
    Address(u64, u32),
    Live(u64),
    Peak(u64),
    Slabs(u64),
    FreeSlabs,
}

const NO: Answer = Ok(0);

const YES: Answer = Ok(1);

const NO_CELL: Answer = Err("no cell");

const NOT_LIVE: Answer = Err("not live");

const HEAP_EXHAUSTED: Answer = Err("heap exhausted");

const INDEX_EXHAUSTED: Answer = Err("index exhausted");

const CELLS_ARE_PLACED_UP_TO_THE_INDEX_LIMIT: [(Call, Answer); 13] = [
    (Call::Init(Kind::Numbered), Ok(1)),
    (Call::Alloc(1, 16), Ok(START)),
    (Call::Alloc(1, 16), Ok(START + 16)),
    (Call::Alloc(1, 16), Ok(START + 32)),
    (Call::Alloc(1, 16), INDEX_EXHAUSTED),
    (Call::Free(1, START + 16), DONE),
    (Call::Free(1, START + 16), NOT_LIVE),
    (Call::Live(1), Ok(2)),
    (Call::Alloc(1, 16), Ok(START + 16)),
    (Call::Index(1, START + 16), Ok(2)),
    (Call::Address(1, 2), Ok(START + 16)),
    (Call::Peak(1), Ok(3)),
    (Call::Slabs(1), Ok(1)),
];

const LARGE_OBJECTS_NEED_ADJACENT_SLABS: [(Call, Answer); 11] = [
    (Call::Init(Kind::Mixed), Ok(1)),
    (Call::Alloc(1, 2049), Ok(START)),
    (Call::Alloc(1, 16), Ok(START + 4096)),
    (Call::Alloc(1, 5000), HEAP_EXHAUSTED),
    (Call::Free(1, START), DONE),
    (Call::FreeSlabs, Ok(2)),
    (Call::Alloc(1, 5000), HEAP_EXHAUSTED),
    (Call::Peak(1), Ok(2)),
    (Call::Destroy(1), DONE),
    (Call::FreeSlabs, Ok(3)),
    (Call::Slabs(1), Ok(0)),
];

const ONLY_LIVE_CELLS_ARE_LOADED_AND_STORED: [(Call, Answer); 18] = [
    (Call::Init(Kind::Wide), Ok(1)),
    (Call::Alloc(1, 1), Ok(START)),
    (Call::Store(START + 4092, 8, WORD), YES),
    (Call::Load(START + 4092, 8), Ok(WORD)),
    (Call::Load(START + 4095, 2), Ok(0x0504)),
    (Call::Load(START + 4088, 8), Ok(0x0403_0201_0000_0000)),
    (Call::Load(START + 5992, 8), Ok(0)),
    (Call::Load(START + 5993, 8), NO_CELL),
    (Call::Store(START + 5999, 2, 1), NO),
    (Call::Load(START + 5999, 1), Ok(0)),
    (Call::Free(1, START), DONE),
    (Call::Load(START + 4092, 8), NO_CELL),
    (Call::Alloc(1, 1), Ok(START)),
    (Call::Load(START + 4092, 8), Ok(0)),
    (Call::Alloc(1, 1), Ok(START + 8192)),
    (Call::Load(START + 8192, 4), Ok(0)),
    (Call::Load(START - 8, 8), NO_CELL),
    (Call::Load(u64::MAX, 1), NO_CELL),
];

const NUMBERS_OF_POOLS_ARE_NEVER_USED_AGAIN: [(Call, Answer); 14] = [
    (Call::Init(Kind::Mixed), Ok(1)),
    (Call::Init(Kind::Mixed), Ok(2)),
    (Call::Alloc(2, 100), Ok(START)),
    (Call::Store(START, 8, 77), YES),
    (Call::Destroy(1), DONE),
    (Call::Init(Kind::Mixed), Ok(3)),
    (Call::Lives(1), NO),
    (Call::Lives(2), YES),
    (Call::Alloc(3, 4096), Ok(START + 4096)),
    (Call::Free(3, START), NOT_LIVE),
    (Call::Load(START, 8), Ok(77)),
    (Call::Alloc(3, 0), Ok(0)),
    (Call::Address(2, 1), Ok(0)),
    (Call::Index(2, START), Ok(0)),
];

fn init(pools: &mut Pools, kind: Kind) -> Answer {
    let made = match kind {
        Kind::Numbered => pools.init(PoolKind::Homogeneous {
            source: 16,
            cell: 16,
            indexed: true,
        }),
        Kind::Wide => pools.init(PoolKind::Homogeneous {
            source: 6000,
            cell: 6000,
            indexed: false,
        }),
        Kind::Mixed => pools.init(PoolKind::Mixed),
    };
    match made {
        Ok(id) => Ok(id.0),
        Err(_) => Err("out of memory"),
    }
}

fn destroy(pools: &mut Pools, id: PoolId) -> Answer {
    if !pools.lives(id) {
        return Err("no pool");
    }
    pools.destroy(id);
    DONE
}

fn place(pools: &mut Pools, id: PoolId, bytes: u64) -> Answer {
    if !pools.lives(id) {
        return Err("no pool");
    }
    match pools.alloc(id, bytes) {
        Ok(address) => Ok(address),
        Err(AllocEnd::HeapExhausted) => HEAP_EXHAUSTED,
        Err(AllocEnd::IndexExhausted) => INDEX_EXHAUSTED,
        Err(AllocEnd::OutOfMemory) => Err("out of memory"),
    }
}

fn free(pools: &mut Pools, id: PoolId, address: u64) -> Answer {
    if !pools.lives(id) {
        return Err("no pool");
    }
    match pools.free(id, address) {
        Ok(()) => DONE,
        Err(_) => NOT_LIVE,
    }
}

fn load(pools: &Pools, address: u64, width: usize) -> Answer {
    if width == 0 || width > 8 {
        return Err("no width");
    }
    pools.load(address, width).ok_or("no cell")
}

fn store(pools: &mut Pools, address: u64, width: usize, word: u64) -> Answer {
    if width == 0 || width > 8 {
        return Err("no width");
    }
    Ok(pools.store(address, width, word) as u64)
}

fn answer(pools: &mut Pools, call: Call) -> Answer {
    match call {
        Call::Init(kind) => init(pools, kind),
        Call::Destroy(id) => destroy(pools, PoolId(id)),
        Call::Alloc(id, bytes) => place(pools, PoolId(id), bytes),
        Call::Free(id, address) => free(pools, PoolId(id), address),
        Call::Load(address, width) => load(pools, address, width),
        Call::Store(address, width, word) => store(pools, address, width, word),
        Call::Lives(id) => Ok(pools.lives(PoolId(id)) as u64),
        Call::Index(id, address) => Ok(pools.index(PoolId(id), address) as u64),
        Call::Address(id, index) => Ok(pools.address(PoolId(id), index)),
        Call::Live(id) => Ok(pools.live(PoolId(id))),
        Call::Peak(id) => Ok(pools.peak(PoolId(id))),
        Call::Slabs(id) => Ok(pools.slabs(PoolId(id)) as u64),
        Call::FreeSlabs => Ok(pools.free_slabs() as u64),
    }
}

/// Each call has its answer.
fn play(rt: &impl Abort, mut pools: Pools, calls: &[(Call, Answer)]) {
    for (row, (call, expected)) in calls.iter().enumerate() {
        assert_eq!(rt; answer(&mut pools, *call), *expected, "call {row}");
    }
}

#[test]
fn pools_place_and_free(rt: HostRuntime) {
    let alloc = rt.alloc();
    play(
        &rt,
        Pools::new(alloc, 1, 3),
        &CELLS_ARE_PLACED_UP_TO_THE_INDEX_LIMIT,
    );
    play(
        &rt,
        Pools::new(alloc, 3, 1),
        &LARGE_OBJECTS_NEED_ADJACENT_SLABS,
    );
    play(
        &rt,
        Pools::new(alloc, 8, 1),
        &ONLY_LIVE_CELLS_ARE_LOADED_AND_STORED,
    );
    play(
        &rt,
        Pools::new(alloc, 2, 1),
        &NUMBERS_OF_POOLS_ARE_NEVER_USED_AGAIN,
    );
}
