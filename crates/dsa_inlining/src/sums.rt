// Sums of counts.

ghost use Rattle.std.specs.Prelude.{◌≡◌, ◌+◌, IfOk};

use std::alloc::AllocError;

/// The sum of two counts. One that doesn't fit is want of memory: no graph has so many nodes.
pub(crate) fn sum(first: u64, second: u64) -> Result<u64, AllocError>
    ensures { IfOk result (λ total. total ≡ first + second) }
{
    first.checked_add(second).ok_or(AllocError)
}
