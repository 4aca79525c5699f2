//! Answers calls on pools.
//!
//! A line of the input is a call, and its answer is a line of the output. `new SLABS INDEX` begins anew with these limits;
//! `cells SOURCE CELL`, `indexed SOURCE CELL` and `mixed` make a pool; `alloc POOL BYTES`, `free POOL ADDRESS`,
//! `destroy POOL`, `lives POOL`, `address POOL NUMBER`, `index POOL ADDRESS`, `load ADDRESS WIDTH`,
//! `store ADDRESS WIDTH WORD`, `peak POOL`, `live POOL`, `slabs POOL` and `free_slabs` are calls on what stands.
#![tactic(auto)]

use pool_runtime::{AllocEnd, OutOfMemory, PoolId, PoolKind, Pools};
use std::alloc::Global;
use std::fmt::{self, Display};
use std::io::{self, BufRead, BufReader, BufWriter, Write};

#[derive(Clone, Copy)]
enum Call {
    New(u32, u32),
    Init(PoolKind),
    Alloc(PoolId, u64),
    Free(PoolId, u64),
    Destroy(PoolId),
    Lives(PoolId),
    Address(PoolId, u32),
    Index(PoolId, u64),
    Load(u64, usize),
    Store(u64, usize, u64),
    Peak(PoolId),
    Live(PoolId),
    Slabs(PoolId),
    FreeSlabs,
}

#[derive(Clone, Copy)]
enum Answer {
    Done,
    Number(u64),
    Truth(bool),
    Nothing,
    End(AllocEnd),
    NotLive,
    NoPool,
    OutOfRange,
}

impl Display for Answer {
    fn fmt<W: fmt::Write>(&self, f: &mut fmt::Formatter<W>) -> fmt::Result {
        match self {
            Answer::Done => write!(f, "done"),
            Answer::Number(number) => write!(f, "{number}"),
            Answer::Truth(true) => write!(f, "yes"),
            Answer::Truth(false) => write!(f, "no"),
            Answer::Nothing => write!(f, "none"),
            Answer::End(end) => write!(f, "{end}"),
            Answer::NotLive => write!(f, "not live"),
            Answer::NoPool => write!(f, "no pool"),
            Answer::OutOfRange => write!(f, "out of range"),
        }
    }
}

fn pool(word: &str) -> Option<PoolId> {
    word.parse().ok().map(PoolId)
}

fn cells(source: &str, cell: &str, indexed: bool) -> Option<Call> {
    Some(Call::Init(PoolKind::Homogeneous {
        source: source.parse().ok()?,
        cell: cell.parse().ok()?,
        indexed,
    }))
}

fn read(words: &[&str]) -> Option<Call> {
    match *words {
        ["new", slabs, index] => Some(Call::New(slabs.parse().ok()?, index.parse().ok()?)),
        ["cells", source, cell] => cells(source, cell, false),
        ["indexed", source, cell] => cells(source, cell, true),
        ["mixed"] => Some(Call::Init(PoolKind::Mixed)),
        ["load", address, width] => { Some(Call::Load(address.parse().ok()?, width.parse().ok()?)) }
        ["store", address, width, word] => Some(Call::Store(
            address.parse().ok()?,
            width.parse().ok()?,
            word.parse().ok()?,
        )),
        ["free_slabs"] => Some(Call::FreeSlabs),
        [call, id] => read_on_pool(call, pool(id)?),
        [call, id, number] => read_with_number(call, pool(id)?, number),
        _ => None,
    }
}

fn read_on_pool(call: &str, id: PoolId) -> Option<Call> {
    match call {
        "destroy" => Some(Call::Destroy(id)),
        "lives" => Some(Call::Lives(id)),
        "peak" => Some(Call::Peak(id)),
        "live" => Some(Call::Live(id)),
        "slabs" => Some(Call::Slabs(id)),
        _ => None,
    }
}

fn read_with_number(call: &str, id: PoolId, number: &str) -> Option<Call> {
    match call {
        "alloc" => Some(Call::Alloc(id, number.parse().ok()?)),
        "free" => Some(Call::Free(id, number.parse().ok()?)),
        "address" => Some(Call::Address(id, number.parse().ok()?)),
        "index" => Some(Call::Index(id, number.parse().ok()?)),
        _ => None,
    }
}

fn begin(alloc: Global, pools: &mut Pools, slabs: u32, index: u32) -> Answer {
    if !(1..=1_048_576).contains(&slabs) || index < 1 {
        return Answer::OutOfRange;
    }
    *pools = Pools::new(alloc, slabs, index);
    Answer::Done
}

fn made(id: Result<PoolId, OutOfMemory>) -> Answer {
    match id {
        Ok(id) => Answer::Number(id.0),
        Err(OutOfMemory) => Answer::End(AllocEnd::OutOfMemory),
    }
}

fn init(pools: &mut Pools, kind: PoolKind) -> Answer {
    match kind {
        PoolKind::Homogeneous { source, cell, .. } => {
            if !(1..=1_048_576).contains(&source) {
                return Answer::OutOfRange;
            }
            if !(4..=1_048_576).contains(&cell) || cell % 4 != 0 {
                return Answer::OutOfRange;
            }
            made(pools.init(kind))
        }
        PoolKind::Mixed => made(pools.init(kind)),
    }
}

fn place(pools: &mut Pools, id: PoolId, bytes: u64) -> Answer {
    if !pools.lives(id) {
        return Answer::NoPool;
    }
    match pools.alloc(id, bytes) {
        Ok(address) => Answer::Number(address),
        Err(end) => Answer::End(end),
    }
}

fn free(pools: &mut Pools, id: PoolId, address: u64) -> Answer {
    if !pools.lives(id) {
        return Answer::NoPool;
    }
    match pools.free(id, address) {
        Ok(()) => Answer::Done,
        Err(_) => Answer::NotLive,
    }
}

fn destroy(pools: &mut Pools, id: PoolId) -> Answer {
    if !pools.lives(id) {
        return Answer::NoPool;
    }
    pools.destroy(id);
    Answer::Done
}

fn load(pools: &Pools, address: u64, width: usize) -> Answer {
    if !(1..=8).contains(&width) {
        return Answer::OutOfRange;
    }
    match pools.load(address, width) {
        Some(word) => Answer::Number(word),
        None => Answer::Nothing,
    }
}

fn store(pools: &mut Pools, address: u64, width: usize, word: u64) -> Answer {
    if !(1..=8).contains(&width) {
        return Answer::OutOfRange;
    }
    Answer::Truth(pools.store(address, width, word))
}

fn answered(alloc: Global, pools: &mut Pools, call: Call) -> Answer {
    match call {
        Call::New(slabs, index) => begin(alloc, pools, slabs, index),
        Call::Init(kind) => init(pools, kind),
        Call::Alloc(id, bytes) => place(pools, id, bytes),
        Call::Free(id, address) => free(pools, id, address),
        Call::Destroy(id) => destroy(pools, id),
        Call::Lives(id) => Answer::Truth(pools.lives(id)),
        Call::Address(id, number) => Answer::Number(pools.address(id, number)),
        Call::Index(id, address) => Answer::Number(u64::from(pools.index(id, address))),
        Call::Load(address, width) => load(pools, address, width),
        Call::Store(address, width, word) => store(pools, address, width, word),
        Call::Peak(id) => Answer::Number(pools.peak(id)),
        Call::Live(id) => Answer::Number(pools.live(id)),
        Call::Slabs(id) => Answer::Number(u64::from(pools.slabs(id))),
        Call::FreeSlabs => Answer::Number(u64::from(pools.free_slabs())),
    }
}

fn main(rt: HostRuntime) -> io::Result<()> {
    let alloc = rt.alloc();
    let mut out = BufWriter::new(alloc, io::writer(&rt))?;
    let mut pools = Pools::new(alloc, 65_536, u32::MAX);
    for line in BufReader::new(alloc, rt.reader())?.lines(alloc) {
        let line = line?;
        let words: Vec<&str> = line.as_str().split_whitespace().collect(alloc)?;
        match read(&words) {
            Some(call) => writeln!(out, "{}", answered(alloc, &mut pools, call))?,
            None => writeln!(out, "no call")?,
        }
    }
    out.flush()
}
