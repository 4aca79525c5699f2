// Words of memory: the sizes of types, and the words of values.

ghost use Rattle.std.specs.Prelude.{◌≡◌, ℕ, ◌^◌, ◌<◌, ◌≤◌, List, length, Option};
ghost use Rattle.byteorder.specs.Endian.{little_number};
ghost use Rattle.pcc_outside.specs.Outside.{TakesByte};
ghost use Rattle.pool_isa.specs.Machine.{size_of, bytes_in};
ghost use Rattle.machine.specs.Promises.{TakesWord};

pub(crate) use crate::bits::converted_word;
use byteorder::{ByteOrder, LittleEndian};
use c_num::IntType;
use pool_isa::Width;

/// The bytes of a value.
pub(crate) fn size_of(int_type: IntType) -> usize
    ensures size { result ≡ size_of int_type }
    ensures low { 1 ≤ result }
    ensures high { result ≤ 8 }
{
    match int_type {
        IntType::Char | IntType::UChar => 1,
        IntType::Short | IntType::UShort => 2,
        IntType::Int | IntType::UInt => 4,
        IntType::Long | IntType::ULong => 8,
    }
}

/// The bytes that a store writes.
pub(crate) fn bytes_in(width: Width) -> usize
    ensures size { result ≡ bytes_in width }
    ensures high { result ≤ 8 }
{
    match width {
        Width::One => 1,
        Width::Two => 2,
        Width::Four => 4,
        Width::Eight => 8,
    }
}

/// The number in some bytes, the low one first.
pub(crate) fn number_in(bytes: &[u8]) -> u64
    requires low { 1 ≤ length bytes.now }
    requires high { length bytes.now ≤ 8 }
    ensures word { result ≡ little_number (length bytes.now) bytes.now }
    ensures small { result < 256 ^ length bytes.now }
{
    match bytes.len() {
        4 => u64::from(LittleEndian::read_u32(bytes)),
        8 => LittleEndian::read_u64(bytes),
        1 => u64::from(bytes[0]),
        2 => u64::from(LittleEndian::read_u16(bytes)),
        size => LittleEndian::read_uint(bytes, size),
    }
}

/// The word that `getchar` gives: that of the byte that was read, or of -1 at the end of the input.
pub(crate) fn input_word(byte: Option<u8>) -> u64
    ensures { (before after : Option (List ℕ)) → TakesByte before byte after → TakesWord result before after }
{
    byte.map_or(u64::MAX, u64::from)
}
