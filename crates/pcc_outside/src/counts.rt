//! Counts of 64 bits that the implementations keep.

ghost use Rattle.std.specs.Prelude.{◌≡◌, ◌+◌, ◌^◌, ◌<◌, ◌≤◌};
ghost use Rattle.pcc_outside.specs.Outside.{Rose, Reaches};
ghost use Rattle.pcc_outside.specs.Memory.{one_more};

/// One more; the count stays at its last value.
pub(crate) fn raised(count: u64) -> u64
    ensures value { result ≡ one_more count }
    ensures rose { Rose count result }
    ensures counted { count ≤ result }
{
    count.saturating_add(1)
}

/// How far a file was read, once `n` bytes from the place `at` on were given too.
pub(crate) fn further(reach: u64, at: u64, n: usize) -> u64
    requires { at + n < 2 ^ 64 }
    ensures reaches { Reaches at n reach result }
    ensures further { reach ≤ result }
{
    if n == 0 {
        reach
    } else {
        reach.max(at + n as u64)
    }
}
