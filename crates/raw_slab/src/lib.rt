//! A slab: 4,096 bytes of raw memory.
//!
//! `RawSlab` is the one type of the project that holds a raw pointer; `of_page`, `read`, `write` and `into_page` are the
//! only functions that reach it. Contracts see a slab as the list of its bytes.
#![tactic(auto)]

ghost use Rattle.std.specs.Prelude.{◌≡◌, ◌+◌, ◌≤◌, ◌^◌, ◌<◌, ℕ, List, length, IfOk};
ghost use Rattle.std.specs.Borrow.{Array, u8 as byte};
ghost use Rattle.std.specs.Box.Ownership.{box_owns};
ghost use denote.Struct.Lending.{lent_at};
ghost use Rattle.run_theory.specs.Words.{zeros, word_at, with_word};

use byteorder::{ByteOrder, LittleEndian};
use std::alloc::{Allocator, Global};
use std::marker::Model;
use thiserror::Error;

/// The bytes of a slab.
pub const SLAB_BYTES: usize = 4096;

/// The host has no memory left.
#[derive(Clone, Copy, Debug, PartialEq, Eq, Error)]
#[error("out of memory")]
pub struct OutOfMemory;

/// Raw memory of 4,096 bytes.
pub struct RawSlab {
    page: *mut [u8; SLAB_BYTES],
    alloc: Global,
    pub ghost bytes: { List ℕ },
    pub ghost whole: { length bytes ≡ 4096 },
}

impl Model for RawSlab {
    ghost also_owns = { λ s. box_owns (⟦<Global as Allocator>⟧.dealloc_token s.alloc) (Array byte 4096) s.page s.bytes };

    ghost also_shares = { λ s _ κ. lent_at (Array byte 4096) s.page s.bytes κ };
}

impl RawSlab {
    /// A slab of zero bytes.
    #[tactic(auto, unfolding(run_theory::specs::Words::zeros))]
    pub fn new(alloc: Global) -> Result<RawSlab, OutOfMemory>
        ensures { IfOk result (λ slab. slab.bytes ≡ zeros 4096) }
    {
        match Box::new(alloc, [0; SLAB_BYTES]) {
            Ok(page) => Ok(RawSlab::of_page(page)),
            Err(_) => Err(OutOfMemory),
        }
    }

    fn of_page(page: Box<[u8; SLAB_BYTES]>) -> RawSlab
        requires { length page.value ≡ 4096 }
        ensures { result.bytes ≡ page.value }
    {
        let (page, alloc) = Box::into_raw_with_allocator(page);
        RawSlab { page, alloc }
    }

    /// The number in the `width` bytes from `off` on, the low byte first.
    pub fn read(&self, off: usize, width: usize) -> u64
        requires least { 1 ≤ width }
        requires most { width ≤ 8 }
        requires inside { off + width ≤ 4096 }
        ensures word { result ≡ word_at self.now.bytes off width }
        ensures small { result < 256 ^ width }
    {
        let page = unsafe { &*self.page };
        read_word(page, off, width)
    }

    /// Writes the lowest `width` bytes of `word` from `off` on, the low byte first.
    pub fn write(&mut self, off: usize, width: usize, word: u64)
        requires most { width ≤ 8 }
        requires inside { off + width ≤ 4096 }
        ensures { self.new.bytes ≡ with_word self.old.bytes off width word }
    {
        let page = unsafe { &mut *self.page };
        write_word(page, off, width, word);
    }

    fn into_page(self) -> Box<[u8; SLAB_BYTES]> {
        let RawSlab { page, alloc } = self;
        unsafe { Box::from_raw(alloc, page) }
    }
}

impl Drop for RawSlab {
    fn drop(self) {
        drop(self.into_page());
    }
}

fn read_word(page: &[u8; SLAB_BYTES], off: usize, width: usize) -> u64
    requires least { 1 ≤ width }
    requires most { width ≤ 8 }
    requires inside { off + width ≤ 4096 }
    ensures word { result ≡ word_at page.now off width }
    ensures small { result < 256 ^ width }
{
    let bytes = &page[off..off + width];
    match width {
        4 => u64::from(LittleEndian::read_u32(bytes)),
        8 => LittleEndian::read_u64(bytes),
        _ => LittleEndian::read_uint(bytes, width),
    }
}

fn write_word(page: &mut [u8; SLAB_BYTES], off: usize, width: usize, word: u64)
    requires most { width ≤ 8 }
    requires inside { off + width ≤ 4096 }
    ensures { page.new ≡ with_word page.old off width word }
{
    let mut word_bytes = [0u8; 8];
    LittleEndian::write_u64(&mut word_bytes, word);
    page[off..off + width].copy_from_slice(&word_bytes[..width]);
}
