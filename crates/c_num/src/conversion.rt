// Conversions between integer types, and the words that hold values.
ghost use Rattle.std.specs.Prelude.{◌≡◌, ◌^◌, pos};
ghost use Rattle.c_num.specs.Types.{width_of, IsValue};
ghost use Rattle.c_num.specs.Conversion.{IsCongruent, convert_to, word_of};

use crate::IntType;

/// 2 to the number of a word's bits.
const WORD_MODULUS: i128 = 0x1_0000_0000_0000_0000;

/// 2 to the number of bits of a value of type `t`.
fn modulus(t: IntType) -> i128
    ensures { result ≡ pos (2 ^ width_of t) }
{
    match t.width() {
        8 => 0x100,
        16 => 0x1_0000,
        32 => 0x1_0000_0000,
        _ => WORD_MODULUS,
    }
}

/// `v` converted to type `t`: the value of `t` that differs from it by a multiple of 2^width (C17 6.3.1.3).
pub fn convert(v: i128, t: IntType) -> i128
    ensures value { result ≡ convert_to t v }
    ensures in_range { IsValue t result }
    ensures congruent { IsCongruent (2 ^ width_of t) result v }
    ensures same { IsValue t v → result ≡ v }
{
    let modulus = modulus(t);
    let bits = v.rem_euclid(modulus);
    if t.is_signed() && bits >= modulus / 2 {
        bits - modulus
    } else {
        bits
    }
}

/// The word that holds `v` converted to type `t`: its value modulo 2^64, so that the sign fills the higher bits.
pub fn word(v: i128, t: IntType) -> u64
    ensures value { result ≡ word_of t v }
    ensures back { convert_to t (pos result) ≡ convert_to t v }
{
    convert(v, t).rem_euclid(WORD_MODULUS) as u64
}

/// The value of type `t` in a word: what `word` made, and of any other word its lowest bits read as a value of `t`.
pub fn value_of_word(word: u64, t: IntType) -> i128
    ensures value { result ≡ convert_to t (pos word) }
    ensures in_range { IsValue t result }
{
    convert(word as i128, t)
}
