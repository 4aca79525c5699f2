//! Times the calls on a pool of small cells.
//!
//! A line of the input is a number of live cells. Its answer is a line of the output: that number, and for each call the
//! nanoseconds that it takes on average in a pool with so many live cells.
#![tactic(auto)]

use pool_runtime::{PoolId, PoolKind, Pools};
use std::alloc::{AllocError, Global};
use std::io::{self, BufRead, BufReader, BufWriter, Write};
use std::time::Instant;

const CALLS: u32 = 1_000_000;

const CELL: u64 = 16;

fn place(pools: &mut Pools, id: PoolId) -> u64 {
    if !pools.lives(id) {
        return 0;
    }
    pools.alloc(id, CELL).unwrap_or(0)
}

fn give(pools: &mut Pools, id: PoolId, address: u64) {
    if pools.lives(id) {
        let _ = pools.free(id, address);
    }
}

// The addresses of so many new cells.
fn fill(alloc: Global, pools: &mut Pools, id: PoolId, count: u32) -> Result<Vec<u64>, AllocError> {
    let mut places = Vec::new(alloc);
    for _ in 0..count {
        places.push(place(pools, id))?;
    }
    Ok(places)
}

// An address among them, each in its turn but far from the one before.
fn pick(places: &[u64], turn: u32) -> u64 {
    let step = u64::from(turn).wrapping_mul(2_654_435_761);
    match step.checked_rem(places.len() as u64) {
        Some(at) => places.get(at as usize).copied().unwrap_or(0),
        None => 0,
    }
}

fn main(rt: HostRuntime) -> io::Result<()> {
    let alloc = rt.alloc();
    let mut out = BufWriter::new(alloc, io::writer(&rt))?;
    for line in BufReader::new(alloc, rt.reader())?.lines(alloc) {
        if let Ok(count) = line?.as_str().parse::<u32>() {
            time(&rt, alloc, count, &mut out)?;
        }
    }
    out.flush()
}

fn time<W: Write>(rt: &HostRuntime, alloc: Global, count: u32, out: &mut W) -> io::Result<()> {
    let mut pools = Pools::new(alloc, 65_536, u32::MAX);
    let kind = PoolKind::Homogeneous {
        source: CELL,
        cell: CELL,
        indexed: true,
    };
    let Ok(id) = pools.init(kind) else {
        return writeln!(out, "out of memory");
    };
    let start = Instant::now(rt)?;
    let places = fill(alloc, &mut pools, id, count)?;
    let filled = start.elapsed(rt)?.as_nanos() / u128::from(count.max(1));
    let start = Instant::now(rt)?;
    for turn in 0..CALLS {
        let address = pick(&places, turn);
        give(&mut pools, id, address);
        place(&mut pools, id);
    }
    let again = start.elapsed(rt)?.as_nanos() / u128::from(CALLS);
    let start = Instant::now(rt)?;
    for turn in 0..CALLS {
        pools.store(pick(&places, turn), 8, u64::from(turn));
    }
    let stored = start.elapsed(rt)?.as_nanos() / u128::from(CALLS);
    let start = Instant::now(rt)?;
    let mut sum = 0u64;
    for turn in 0..CALLS {
        sum ^= pools.load(pick(&places, turn), 8).unwrap_or(0);
    }
    let loaded = start.elapsed(rt)?.as_nanos() / u128::from(CALLS);
    let start = Instant::now(rt)?;
    for turn in 0..CALLS {
        let number = pools.index(id, pick(&places, turn));
        sum ^= pools.address(id, number);
    }
    let told = start.elapsed(rt)?.as_nanos() / u128::from(CALLS);
    writeln!(
        out,
        "{count} live: first alloc {filled}, free and alloc {again}, store {stored}, load {loaded}, index and address {told} ({sum})"
    )
}
