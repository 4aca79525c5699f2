// The lowest bits of a number as a value of a type.

ghost use Rattle.std.specs.Prelude.{◌≡◌, true, false, pos};
ghost use Rattle.c_num.specs.Types.{is_signed};
ghost use Rattle.c_num.specs.Conversion.{word_of};
ghost use Rattle.machine.specs.Words.{converted_word, value_in};

use c_num::IntType;

/// The lowest 8 bits, the highest of which fills the bits above.
fn extend_8(number: u64) -> u64
    ensures { result ≡ word_of IntType.Char (pos number) }
{
    let low = (number & 0xff) as u8;
    i64::from(low.cast_signed()).cast_unsigned()
}

/// The lowest 16 bits, the highest of which fills the bits above.
fn extend_16(number: u64) -> u64
    ensures { result ≡ word_of IntType.Short (pos number) }
{
    let low = (number & 0xffff) as u16;
    i64::from(low.cast_signed()).cast_unsigned()
}

/// The lowest 32 bits, the highest of which fills the bits above.
fn extend_32(number: u64) -> u64
    ensures { result ≡ word_of IntType.Int (pos number) }
{
    let low = (number & 0xffff_ffff) as u32;
    i64::from(low.cast_signed()).cast_unsigned()
}

/// The word of a number that is converted to a type.
pub fn converted_word(number: u64, int_type: IntType) -> u64
    ensures { result ≡ converted_word int_type number }
{
    match int_type {
        IntType::Int => extend_32(number),
        IntType::UInt => number & 0xffff_ffff,
        IntType::Long | IntType::ULong => number,
        IntType::Char => extend_8(number),
        IntType::UChar => number & 0xff,
        IntType::Short => extend_16(number),
        IntType::UShort => number & 0xffff,
    }
}

/// The value of a signed type that a word stands for.
pub(crate) fn signed_value(word: u64, int_type: IntType) -> i64
    requires { is_signed int_type ≡ true }
    ensures { result ≡ value_in int_type word }
{
    converted_word(word, int_type).cast_signed()
}

/// The value of an unsigned type that a word stands for.
pub(crate) fn unsigned_value(word: u64, int_type: IntType) -> u64
    requires { is_signed int_type ≡ false }
    ensures { pos result ≡ value_in int_type word }
{
    converted_word(word, int_type)
}
