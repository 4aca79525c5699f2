// Lists in which most numbers have the same value.

ghost use Rattle.std.specs.Prelude.{◌≡◌, ℕ, ◌==◌, if◌then◌else◌, OnOk, get_or};

use std::alloc::AllocError;

/// Gives a number a value. Numbers behind the end of the list have the filler.
pub(crate) fn put<T: Copy>(
    list: &mut Vec<T>,
    number: usize,
    value: T,
    filler: T,
) -> Result<(), AllocError>
    ensures { OnOk result ((other : ℕ) → get_or list.new.items other filler ≡ (if number == other then value else get_or list.old.items other filler)) }
{
    while list.len() <= number {
        list.push(filler)?;
    }
    list[number] = value;
    Ok(())
}
