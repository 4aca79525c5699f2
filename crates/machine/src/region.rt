// The bytes of a frame, or of the globals.

ghost use Rattle.std.specs.Prelude.{◌≡◌, ◌+◌, ◌-◌, ◌^◌, ◌<◌, ◌≤◌, [], ◌++◌, length, take, drop, replicate, IfOk};
ghost use Rattle.std.specs.Bool.{OnTrue, OnFalse};
ghost use Rattle.byteorder.specs.Endian.{little_bytes, little_number};
ghost use Rattle.pool_isa.specs.Machine.{spliced};

use crate::pages::{Paged, Spare};
use crate::words::number_in;
use byteorder::{ByteOrder, LittleEndian};
use std::alloc::{AllocError, Global};
use std::marker::Model;

/// The most bytes that lie in one piece.
const SMALL: usize = 1 << 16;

/// Where the bytes are.
#[derive(Drop)]
enum Store {
    Small(Vec<u8>),
    /// More bytes, which take memory as they are written.
    Large(Paged),
}

/// The bytes of a frame, or of the globals.
#[derive(Drop)]
pub(crate) struct Region {
    store: Store,
}

impl Model for Region {
    ghost use Rattle.std.specs.Prelude.{List, ℕ};
    ghost use Rattle.machine.specs.Regions.{stored_bytes};

    ghost Value = { List ℕ };

    ghost view = { λ region. stored_bytes region.store };
}

/// Whether so many bytes lie in one piece.
pub(crate) fn is_small(len: usize) -> bool {
    len <= SMALL
}

/// Bytes with zeros behind them, in pages.
fn in_pages(alloc: Global, first: &[u8], len: usize) -> Result<Paged, AllocError>
    requires { length first.now ≤ len }
    ensures { IfOk result (λ bytes. bytes ≡ first.now ++ replicate (len - length first.now) 0) }
{
    let mut bytes = Paged::zeros(alloc, len)?;
    let mut spare = Spare::new(alloc);
    for offset in 0..first.len() {
        spare.fill()?;
        bytes.write(offset, u64::from(first[offset]), 1, &mut spare);
    }
    Ok(bytes)
}

/// Writes the lowest `size` bytes of a word from `offset` on, the low byte first.
#[inline(always)]
fn put(bytes: &mut [u8], offset: usize, word: u64, size: usize)
    requires high { size ≤ 8 }
    requires inside { offset + size ≤ length bytes.old }
    ensures { bytes.new ≡ spliced bytes.old offset (little_bytes size word) }
{
    let mut word_bytes = [0u8; 8];
    LittleEndian::write_u64(&mut word_bytes, word);
    bytes[offset..offset + size].copy_from_slice(&word_bytes[..size]);
}

impl Region {
    /// The first bytes, and `extra` zeros behind them.
    pub(crate) fn new(alloc: Global, mut first: Vec<u8>, extra: usize) -> Result<Region, AllocError>
        requires { length first.items + extra < 2 ^ 64 }
        ensures { IfOk result (λ region. region ≡ first.items ++ replicate extra 0) }
    {
        let len = first.len() + extra;
        if is_small(len) {
            first.resize(len, 0)?;
            return Ok(Region {
                store: Store::Small(first),
            });
        }
        let pages = in_pages(alloc, &first, len)?;
        Ok(Region {
            store: Store::Large(pages),
        })
    }

    /// No bytes.
    pub(crate) fn empty(alloc: Global) -> Region
        ensures { result ≡ [] }
    {
        Region {
            store: Store::Small(Vec::new(alloc)),
        }
    }

    /// How many bytes there are.
    #[inline(always)]
    pub(crate) fn len(&self) -> usize
        ensures { result ≡ length self.now }
    {
        match &self.store {
            Store::Small(bytes) => bytes.len(),
            Store::Large(bytes) => bytes.len(),
        }
    }

    /// The number in the `size` bytes from `offset` on, the low byte first.
    #[inline(always)]
    pub(crate) fn read(&self, offset: usize, size: usize) -> u64
        requires low { 1 ≤ size }
        requires high { size ≤ 8 }
        requires inside { offset + size ≤ length self.now }
        ensures word { result ≡ little_number size (take size (drop offset self.now)) }
        ensures small { result < 256 ^ size }
    {
        match &self.store {
            Store::Small(bytes) => number_in(&bytes[offset..offset + size]),
            Store::Large(bytes) => bytes.read(offset, size),
        }
    }

    /// Writes the lowest `size` bytes of a word from `offset` on, the low byte first.
    pub(crate) fn write(&mut self, offset: usize, word: u64, size: usize, spare: &mut Spare)
        requires low { 1 ≤ size }
        requires high { size ≤ 8 }
        requires inside { offset + size ≤ length self.old }
        requires spare { 2 ≤ spare.old }
        ensures { self.new ≡ spliced self.old offset (little_bytes size word) }
    {
        match &mut self.store {
            Store::Small(bytes) => put(bytes, offset, word, size),
            Store::Large(bytes) => bytes.write(offset, word, size, spare),
        }
    }

    /// Writes the lowest `size` bytes of a word from `offset` on, the low byte first, where all bytes lie in one piece, and says
    /// whether they do.
    #[inline(always)]
    pub(crate) fn write_in_place(&mut self, offset: usize, word: u64, size: usize) -> bool
        requires high { size ≤ 8 }
        requires inside { offset + size ≤ length self.old }
        ensures written { OnTrue result (self.new ≡ spliced self.old offset (little_bytes size word)) }
        ensures kept { OnFalse result (self.new ≡ self.old) }
    {
        match &mut self.store {
            Store::Small(bytes) => {
                put(bytes, offset, word, size);
                true
            }
            Store::Large(_) => false,
        }
    }
}
