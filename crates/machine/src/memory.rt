// The memory of the machine: the frames of the functions that were called.

ghost use Rattle.std.specs.Prelude.{◌≡◌, ℕ, ◌^◌, ◌<◌, ◌≤◌, length, reverse, IfSome};
ghost use Rattle.std.specs.Bool.{OnFalse};
ghost use Rattle.std.specs.Option.{option_map};
ghost use Rattle.byteorder.specs.Endian.{little_bytes, little_number};
ghost use Rattle.pool_isa.specs.Machine.{bytes_at, with_bytes_at};
ghost use Rattle.machine.specs.Promises.{Writes};
ghost use Rattle.machine.specs.Steps.{BeginUpTo, IsStacked};

use crate::activation::Activation;
use crate::pages::Spare;

/// How many frames begin at an address or before it.
fn begun_at(callers: &[Activation], address: u64) -> usize
    requires { IsStacked (reverse callers.now) }
    ensures within { result ≤ length callers.now }
    ensures point { BeginUpTo address callers.now result }
{
    callers.partition_point(|frame| frame.start() <= address)
}

/// The number in the `size` bytes from `address` on, if they lie in the frame of a caller.
pub(crate) fn read_from(callers: &[Activation], address: u64, size: usize) -> Option<u64>
    requires low { 1 ≤ size }
    requires high { size ≤ 8 }
    requires stacked { IsStacked (reverse callers.now) }
    ensures word { result ≡ option_map (little_number size) (bytes_at (reverse callers.now) address size) }
    ensures small { IfSome result (λ number. number < 256 ^ size) }
{
    let last = begun_at(callers, address).checked_sub(1)?;
    callers[last].read(address, size)
}

/// Writes the lowest `size` bytes of a word from `address` on, if they lie in the frame of a caller.
pub(crate) fn write_to(
    callers: &mut [Activation],
    address: u64,
    word: u64,
    size: usize,
    spare: &mut Spare,
) -> bool
    requires low { 1 ≤ size }
    requires high { size ≤ 8 }
    requires spare { 2 ≤ spare.old }
    requires stacked { IsStacked (reverse callers.old) }
    ensures written { Writes result (with_bytes_at (reverse callers.old) address (little_bytes size word)) (reverse callers.new) }
    ensures kept { OnFalse result (callers.new ≡ callers.old) }
    ensures spare { OnFalse result (spare.new ≡ spare.old) }
{
    match begun_at(callers, address).checked_sub(1) {
        Some(last) => callers[last].write(address, word, size, spare),
        None => false,
    }
}
