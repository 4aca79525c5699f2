// The bytes of a space, where they may lie in more than one slab.

ghost use Rattle.std.specs.Prelude.{◌≡◌, ◌*◌, ◌^◌, ◌<◌, ◌≤◌};
ghost use Rattle.run_theory.specs.Words.{word_at, with_word};
ghost use Rattle.slab_space.specs.Runs.{need as slabs_needed, with_run};
ghost use Rattle.pool_runtime.specs.Tables.{IsSpace, AreHeld};

use raw_slab::SLAB_BYTES;
use slab_space::SlabSpace;

const BYTES: u64 = SLAB_BYTES as u64;

/// The address of the first slab.
pub(crate) const START: u64 = 1 << 44;

/// The slabs that so many bytes need.
pub(crate) fn need(bytes: u64) -> u64
    ensures { result ≡ slabs_needed bytes }
{
    bytes.div_ceil(BYTES)
}

/// The first place of a slab.
pub(crate) fn place_of(slab: u32) -> u64
    ensures { result ≡ 4096 * slab }
{
    slab as u64 * BYTES
}

/// The number in the `width` bytes from a place on, the low byte first.
pub(crate) fn read_word(space: &SlabSpace, place: u64, width: usize) -> u64
    requires space { IsSpace space.now }
    requires least { 1 ≤ width }
    requires most { width ≤ 8 }
    requires held { AreHeld space.now.owners place width }
    ensures word { result ≡ word_at space.now.bytes place width }
    ensures small { result < 256 ^ width }
{
    let slab = (place / BYTES) as u32;
    let off = (place % BYTES) as usize;
    let here = SLAB_BYTES - off;
    if width <= here {
        return space.read(slab, off, width);
    }
    let low = space.read(slab, off, here);
    let high = space.read(slab + 1, 0, width - here);
    low + (high << (8 * here))
}

/// Writes the lowest `width` bytes of `word` from a place on, the low byte first.
pub(crate) fn write_word(space: &mut SlabSpace, place: u64, width: usize, word: u64)
    requires space { IsSpace space.old }
    requires least { 1 ≤ width }
    requires most { width ≤ 8 }
    requires held { AreHeld space.old.owners place width }
    ensures { space.new ≡ record space.old { bytes = with_word space.old.bytes place width word } }
{
    let slab = (place / BYTES) as u32;
    let off = (place % BYTES) as usize;
    let here = SLAB_BYTES - off;
    if width <= here {
        space.write(slab, off, width, word);
    } else {
        space.write(slab, off, here, word);
        space.write(slab + 1, 0, width - here, word >> (8 * here));
    }
}

/// Makes the `count` bytes from a place on zero.
pub(crate) fn clear(space: &mut SlabSpace, place: u64, count: u64)
    requires space { IsSpace space.old }
    requires held { AreHeld space.old.owners place count }
    ensures { space.new ≡ record space.old { bytes = with_run space.old.bytes place count 0 } }
{
    let mut done = 0;
    while done < count {
        let width = (count - done).min(8);
        write_word(space, place + done, width as usize, 0);
        done += width;
    }
}
