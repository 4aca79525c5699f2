// Numbers as bytes: LEB128 without sign, in its shortest form.

ghost use Rattle.std.specs.Prelude.{◌≡◌, ℕ, ◌+◌, ◌*◌, ◌^◌, ◌<◌, ◌≤◌, List, ◌++◌, length, take, drop, Ok, IfOk, IfErr, OnOk, OnErr};
ghost use Rattle.pool_isa.specs.Spelling.{StandsAt, IsFault, IsFaultAt};
ghost use Rattle.pool_isa.specs.Number.{number_bytes, IsHighSpelling, IsNumberSpelling};

use std::alloc::AllocError;
use thiserror::Error;

/// No number of 64 bits is spelled here.
#[derive(Clone, Copy, Debug, PartialEq, Eq, Error)]
#[error("no number: the byte at {0} is wrong or missing")]
pub struct BadNumber(pub usize);

fn push_digits(code: &mut Vec<u8>, number: u64) -> Result<(), AllocError>
    ensures ok { OnOk result (code.new.items ≡ code.old.items ++ number_bytes number) }
    ensures kept { take (length code.old.items) code.new.items ≡ code.old.items }
{
    let mut rest = number;
    while rest >= 128 {
        code.push(128 + (rest % 128) as u8)?;
        rest /= 128;
    }
    code.push(rest as u8)?;
    Ok(())
}

/// Writes a number at the end.
pub fn append_number(code: &mut Vec<u8>, number: u64) -> Result<(), AllocError>
    ensures ok { OnOk result (code.new.items ≡ code.old.items ++ number_bytes number) }
    ensures err { OnErr result (code.new.items ≡ code.old.items) }
{
    let start = code.len();
    let pushed = push_digits(code, number);
    if pushed.is_err() {
        code.truncate(start);
    }
    pushed
}

// The high part of a number, which isn't 0 and has at most `more + 1` bytes. Gives it with what follows it, or how
// many bytes are good.
fn high_digits(bytes: &[u8], more: u32) -> Result<(u64, &[u8]), usize>
    requires { more ≤ 8 }
    ensures parts { IfOk result (λ r. bytes.now ≡ number_bytes r.0 ++ r.1.now) }
    ensures positive { IfOk result (λ r. 0 < r.0) }
    ensures bound { IfOk result (λ r. r.0 < 2 * 128 ^ more) }
    ensures fault { IfErr result (λ good. IsFault (IsHighSpelling more) bytes.now good) }
{
    let [byte, rest @ ..] = bytes else {
        return Err(0);
    };
    let low = u64::from(*byte);
    if low == 0 {
        return Err(0);
    }
    if more == 0 {
        return if low == 1 { Ok((low, rest)) } else { Err(0) };
    }
    if low < 128 {
        return Ok((low, rest));
    }
    match high_digits(rest, more - 1) {
        Ok((high, rest)) => Ok((low - 128 + 128 * high, rest)),
        Err(good) => Err(good + 1),
    }
}

// Gives the number at the front with what follows it, or how many bytes are good. It has at most ten bytes.
pub(crate) fn number_front(bytes: &[u8]) -> Result<(u64, &[u8]), usize>
    ensures parts { IfOk result (λ r. bytes.now ≡ number_bytes r.0 ++ r.1.now) }
    ensures bound { IfOk result (λ r. r.0 < 2 ^ 64) }
    ensures fault { IfErr result (λ good. IsFault IsNumberSpelling bytes.now good) }
{
    let [byte, rest @ ..] = bytes else {
        return Err(0);
    };
    let low = u64::from(*byte);
    if low < 128 {
        return Ok((low, rest));
    }
    match high_digits(rest, 8) {
        Ok((high, rest)) => Ok((low - 128 + 128 * high, rest)),
        Err(good) => Err(good + 1),
    }
}

/// Reads the number at a place, and the place after it.
pub fn decode_number(bytes: &[u8], at: usize) -> Result<(u64, usize), BadNumber>
    requires { at ≤ length bytes.now }
    // What is found stands there.
    ensures found { IfOk result (λ r. StandsAt bytes.now at r.1 (number_bytes r.0)) }
    ensures bound { IfOk result (λ r. r.0 < 2 ^ 64) }
    ensures later { IfOk result (λ r. at < r.1) }
    // What stands there is found.
    ensures only { (n : ℕ) (rest : List ℕ) → n < 2 ^ 64 → drop at bytes.now ≡ number_bytes n ++ rest
        → result ≡ Ok (n, at + length (number_bytes n)) }
    // The place is that of the first byte with which no number begins, or the end.
    ensures fault { IfErr result (λ bad. IsFaultAt IsNumberSpelling bytes.now at bad.0) }
{
    match number_front(&bytes[at..]) {
        Ok((number, rest)) => Ok((number, bytes.len() - rest.len())),
        Err(good) => Err(BadNumber(at + good)),
    }
}
