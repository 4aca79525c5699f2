// Quotients and remainders, where a division by zero gives 0 and leaves all.

ghost use Rattle.std.specs.Prelude.{◌≡◌, ◌^◌, pos};
ghost use Rattle.c_num.specs.Conversion.{modulo, word_of};
ghost use Rattle.c_num.specs.Arith.{quotient, remainder};
ghost use Rattle.machine.specs.Words.{value_in};

use crate::bits::{converted_word, signed_value, unsigned_value};
use c_num::IntType;

/// The quotient without its fractional part; of the least value by -1 it wraps.
fn signed_quotient(dividend: i64, divisor: i64) -> u64
    ensures { result ≡ modulo (quotient dividend divisor) (2 ^ 64) }
{
    if divisor == 0 {
        0
    } else {
        dividend.wrapping_div(divisor).cast_unsigned()
    }
}

/// What division leaves, which has the sign of the dividend.
fn signed_remainder(dividend: i64, divisor: i64) -> u64
    ensures { result ≡ modulo (remainder dividend divisor) (2 ^ 64) }
{
    if divisor == 0 {
        dividend.cast_unsigned()
    } else {
        dividend.wrapping_rem(divisor).cast_unsigned()
    }
}

fn unsigned_quotient(dividend: u64, divisor: u64) -> u64
    ensures { pos result ≡ quotient (pos dividend) (pos divisor) }
{
    if divisor == 0 { 0 } else { dividend / divisor }
}

fn unsigned_remainder(dividend: u64, divisor: u64) -> u64
    ensures { pos result ≡ remainder (pos dividend) (pos divisor) }
{
    if divisor == 0 {
        dividend
    } else {
        dividend % divisor
    }
}

/// The word of the quotient.
pub(crate) fn quotient_word(int_type: IntType, left: u64, right: u64) -> u64
    ensures { result ≡ word_of int_type (quotient (value_in int_type left) (value_in int_type right)) }
{
    if int_type.is_signed() {
        let dividend = signed_value(left, int_type);
        let divisor = signed_value(right, int_type);
        converted_word(signed_quotient(dividend, divisor), int_type)
    } else {
        let dividend = unsigned_value(left, int_type);
        let divisor = unsigned_value(right, int_type);
        converted_word(unsigned_quotient(dividend, divisor), int_type)
    }
}

/// The word of what division leaves.
pub(crate) fn remainder_word(int_type: IntType, left: u64, right: u64) -> u64
    ensures { result ≡ word_of int_type (remainder (value_in int_type left) (value_in int_type right)) }
{
    if int_type.is_signed() {
        let dividend = signed_value(left, int_type);
        let divisor = signed_value(right, int_type);
        converted_word(signed_remainder(dividend, divisor), int_type)
    } else {
        let dividend = unsigned_value(left, int_type);
        let divisor = unsigned_value(right, int_type);
        converted_word(unsigned_remainder(dividend, divisor), int_type)
    }
}
