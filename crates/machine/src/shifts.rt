// Shifts, whose amount is taken modulo the width.

ghost use Rattle.std.specs.Prelude.{◌≡◌, ◌<◌, ◌*◌, ◌%◌, ◌^◌, pos};
ghost use Rattle.std.specs.Int.{int_shr};
ghost use Rattle.c_num.specs.Types.{width_of};
ghost use Rattle.c_num.specs.Conversion.{word_of};
ghost use Rattle.machine.specs.Words.{value_in};

use crate::bits::{converted_word, signed_value, unsigned_value};
use c_num::IntType;

/// The amount of a shift.
fn amount_of(int_type: IntType, right: u64) -> u32
    ensures amount { result ≡ right % width_of int_type }
    ensures small { result < 64 }
{
    match int_type {
        IntType::Int | IntType::UInt => (right % 32) as u32,
        IntType::Long | IntType::ULong => (right % 64) as u32,
        IntType::Char | IntType::UChar => (right % 8) as u32,
        IntType::Short | IntType::UShort => (right % 16) as u32,
    }
}

/// The word of the left operand times a power of two.
pub(crate) fn shifted_left_word(int_type: IntType, left: u64, right: u64) -> u64
    ensures { result ≡ word_of int_type (pos (left * 2 ^ (right % width_of int_type))) }
{
    converted_word(left << amount_of(int_type, right), int_type)
}

/// The word of the left operand divided by a power of two, rounded down.
pub(crate) fn shifted_right_word(int_type: IntType, left: u64, right: u64) -> u64
    ensures { result ≡ word_of int_type (int_shr (value_in int_type left) (right % width_of int_type)) }
{
    let amount = amount_of(int_type, right);
    if int_type.is_signed() {
        let shifted = signed_value(left, int_type) >> amount;
        converted_word(shifted.cast_unsigned(), int_type)
    } else {
        converted_word(unsigned_value(left, int_type) >> amount, int_type)
    }
}
