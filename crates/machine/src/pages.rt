// Bytes in pages of 4,096: a page has memory once it is written, and is zero before.

ghost use Rattle.std.specs.Prelude.{◌≡◌, ◌+◌, ◌*◌, ◌^◌, ◌<◌, ◌≤◌, length, take, replicate, IfOk, OnOk, None};
ghost use Rattle.run_theory.specs.Words.{word_at, with_word, zeros};
ghost use Rattle.machine.specs.Pages.{bytes_in};

use raw_slab::{RawSlab, SLAB_BYTES};
use std::alloc::{AllocError, Global};
use std::marker::Model;

/// A page of zero bytes.
#[derive(Drop)]
struct ZeroPage {
    page: RawSlab,
    ghost zero: { page.bytes ≡ zeros 4096 },
}

/// Pages that a write may need: one at most, or two where it crosses from one page to the next.
#[derive(Drop)]
pub(crate) struct Spare {
    pages: Vec<ZeroPage>,
    alloc: Global,
}

impl Model for Spare {
    ghost use Rattle.std.specs.Prelude.{ℕ, length};

    ghost Value = { ℕ };

    ghost view = { λ spare. length spare.pages.items };
}

impl Spare {
    /// No pages.
    pub(crate) fn new(alloc: Global) -> Spare {
        Spare {
            pages: Vec::new(alloc),
            alloc,
        }
    }

    /// Makes sure that there are enough for a write.
    pub(crate) fn fill(&mut self) -> Result<(), AllocError>
        ensures { OnOk result (2 ≤ self.new) }
    {
        if self.pages.len() < 2 {
            self.add()?;
        }
        if self.pages.len() < 2 {
            self.add()?;
        }
        Ok(())
    }

    fn add(&mut self) -> Result<(), AllocError>
        ensures { OnOk result (self.new ≡ self.old + 1) }
    {
        let Ok(page) = RawSlab::new(self.alloc) else {
            return Err(AllocError);
        };
        self.pages.push(ZeroPage { page })?;
        Ok(())
    }

    fn take(&mut self) -> RawSlab
        requires { 1 ≤ self.old }
        ensures page { result.bytes ≡ zeros 4096 }
        ensures count { self.old ≡ self.new + 1 }
    {
        let ZeroPage { page } = self.pages.pop().unwrap();
        page
    }
}

/// The number in the `size` bytes from `offset` on in a page, the low byte first.
fn read_in(pages: &[Option<RawSlab>], page: usize, offset: usize, size: usize) -> u64
    requires there { page < length pages.now }
    requires low { 1 ≤ size }
    requires high { size ≤ 8 }
    requires inside { offset + size ≤ 4096 }
    ensures word { result ≡ word_at (bytes_in pages.now) (4096 * page + offset) size }
    ensures small { result < 256 ^ size }
{
    match &pages[page] {
        Some(bytes) => bytes.read(offset, size),
        None => 0,
    }
}

/// Writes the lowest `size` bytes of a word from `offset` on in a page, the low byte first.
fn write_in(
    pages: &mut [Option<RawSlab>],
    page: usize,
    offset: usize,
    word: u64,
    size: usize,
    spare: &mut Spare,
)
    requires there { page < length pages.old }
    requires high { size ≤ 8 }
    requires inside { offset + size ≤ 4096 }
    requires spare { 1 ≤ spare.old }
    ensures bytes { bytes_in pages.new ≡ with_word (bytes_in pages.old) (4096 * page + offset) size word }
    ensures spare { spare.old ≤ spare.new + 1 }
{
    match &mut pages[page] {
        Some(bytes) => bytes.write(offset, size, word),
        None => {
            let mut bytes = spare.take();
            bytes.write(offset, size, word);
            pages[page] = Some(bytes);
        }
    }
}

/// The number in the `size` bytes from `offset` on, which may lie in two pages.
fn read_across(pages: &[Option<RawSlab>], offset: usize, size: usize) -> u64
    requires low { 1 ≤ size }
    requires high { size ≤ 8 }
    requires inside { offset + size ≤ 4096 * length pages.now }
    ensures word { result ≡ word_at (bytes_in pages.now) offset size }
    ensures small { result < 256 ^ size }
{
    let page = offset / SLAB_BYTES;
    let within = offset % SLAB_BYTES;
    let here = SLAB_BYTES - within;
    if size <= here {
        return read_in(pages, page, within, size);
    }
    let low = read_in(pages, page, within, here);
    let high = read_in(pages, page + 1, 0, size - here);
    low + (high << (8 * here))
}

/// Writes the lowest `size` bytes of a word from `offset` on, which may lie in two pages.
fn write_across(
    pages: &mut [Option<RawSlab>],
    offset: usize,
    word: u64,
    size: usize,
    spare: &mut Spare,
)
    requires high { size ≤ 8 }
    requires inside { offset + size ≤ 4096 * length pages.old }
    requires within { offset < 4096 * length pages.old }
    requires spare { 2 ≤ spare.old }
    ensures { bytes_in pages.new ≡ with_word (bytes_in pages.old) offset size word }
{
    let page = offset / SLAB_BYTES;
    let within = offset % SLAB_BYTES;
    let here = SLAB_BYTES - within;
    if size <= here {
        write_in(pages, page, within, word, size, spare);
    } else {
        write_in(pages, page, within, word, here, spare);
        write_in(pages, page + 1, 0, word >> (8 * here), size - here, spare);
    }
}

/// Bytes in pages.
#[derive(Drop)]
pub(crate) struct Paged {
    len: usize,
    pages: Vec<Option<RawSlab>>,
}

impl Model for Paged {
    ghost use Rattle.std.specs.Prelude.{List, ℕ, ◌*◌, ◌≤◌, length, take};
    ghost use Rattle.machine.specs.Pages.{bytes_in};

    ghost Value = { List ℕ };

    ghost view = { λ p. take p.len (bytes_in p.pages.items) };

    ghost invariant = { λ p. p.len ≤ 4096 * length p.pages.items };
}

impl Paged {
    ghost use Rattle.std.specs.Prelude.{drop, IfOk, replicate};
    ghost use Rattle.byteorder.specs.Endian.{little_bytes, little_number};
    ghost use Rattle.pool_isa.specs.Machine.{spliced};

    /// So many zeros.
    pub(crate) fn zeros(alloc: Global, len: usize) -> Result<Paged, AllocError>
        ensures { IfOk result (λ bytes. bytes ≡ replicate len 0) }
    {
        let count = len / SLAB_BYTES + 1;
        let mut pages = Vec::with_capacity(alloc, count)?;
        for _page in 0..count {
            pages.push(None)?;
        }
        Ok(Paged { len, pages })
    }

    /// How many bytes there are.
    pub(crate) fn len(&self) -> usize
        ensures { result ≡ length self.now }
    {
        self.len
    }

    /// The number in the `size` bytes from `offset` on, the low byte first.
    pub(crate) fn read(&self, offset: usize, size: usize) -> u64
        requires low { 1 ≤ size }
        requires high { size ≤ 8 }
        requires inside { offset + size ≤ length self.now }
        ensures word { result ≡ little_number size (take size (drop offset self.now)) }
        ensures small { result < 256 ^ size }
    {
        read_across(&self.pages, offset, size)
    }

    /// Writes the lowest `size` bytes of a word from `offset` on, the low byte first.
    pub(crate) fn write(&mut self, offset: usize, word: u64, size: usize, spare: &mut Spare)
        requires low { 1 ≤ size }
        requires high { size ≤ 8 }
        requires inside { offset + size ≤ length self.old }
        requires spare { 2 ≤ spare.old }
        ensures { self.new ≡ spliced self.old offset (little_bytes size word) }
    {
        write_across(&mut self.pages, offset, word, size, spare);
    }
}
