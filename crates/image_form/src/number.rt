// Numbers within a range.

ghost use Rattle.std.specs.Prelude.{◌≡◌, ◌≤◌, ◌++◌, length, IfOk, IfErr};
ghost use Rattle.pool_isa.specs.Number.{number_bytes};
ghost use Rattle.pool_isa.specs.Ranges.{IsWithin};
ghost use Rattle.pool_isa.specs.Spelling.{IsFault};
ghost use Rattle.image_form.specs.Reading.{Spelled, IsDecoded};

use crate::image::ImageErr;

// The number at the front, from `low`, which is 0 or 1, up to `high`, with what follows it; or how many bytes are good.
fn number_front(bytes: &[u8], low: u64, high: u64) -> Result<(u64, &[u8]), usize>
    requires small { low ≤ 1 }
    requires some { low ≤ high }
    ensures parts { IfOk result (λ r. bytes.now ≡ number_bytes r.0 ++ r.1.now) }
    ensures range { IfOk result (λ r. IsWithin low high r.0) }
    ensures fault { IfErr result (λ good. IsFault (Spelled (IsWithin low high) number_bytes) bytes.now good) }
{
    let [byte, rest @ ..] = bytes else {
        return Err(0);
    };
    let byte = u64::from(*byte);
    if byte < low || byte > high {
        return Err(0);
    }
    if byte < 128 {
        return Ok((byte, rest));
    }
    // The bytes that follow stand for 1 at least.
    match number_front(rest, 1, (high - (byte - 128)) / 128) {
        Ok((more, rest)) => Ok((byte - 128 + 128 * more, rest)),
        Err(good) => Err(good + 1),
    }
}

/// The number at a place, from `low`, which is 0 or 1, up to `high`, and the place behind it.
pub(crate) fn number_within(
    bytes: &[u8],
    at: usize,
    low: u64,
    high: u64,
) -> Result<(u64, usize), ImageErr>
    requires within { at ≤ length bytes.now }
    requires small { low ≤ 1 }
    requires some { low ≤ high }
    ensures { IsDecoded (IsWithin low high) number_bytes (λ n. n) bytes.now at result }
{
    match number_front(&bytes[at..], low, high) {
        Ok((number, rest)) => Ok((number, bytes.len() - rest.len())),
        Err(good) => Err(ImageErr::Bad(at + good)),
    }
}

/// The same, of 32 bits.
pub(crate) fn small_number(
    bytes: &[u8],
    at: usize,
    low: u32,
    high: u32,
) -> Result<(u32, usize), ImageErr>
    requires within { at ≤ length bytes.now }
    requires small { low ≤ 1 }
    requires some { low ≤ high }
    ensures { IsDecoded (IsWithin low high) number_bytes (λ n. n) bytes.now at result }
{
    match number_within(bytes, at, u64::from(low), u64::from(high)) {
        Ok((number, end)) => Ok((number as u32, end)),
        Err(fault) => Err(fault),
    }
}
