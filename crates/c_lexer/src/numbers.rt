// Integer constants (C17 6.4.4.1), among preprocessing numbers (C17 6.4.8).

ghost use Rattle.std.specs.Prelude.{◌≡◌, ◌≤◌, ◌<◌, ◌^◌, ◌∷◌, [], length, drop, slice_index, MatchOption, Some};
ghost use Rattle.std.specs.List.{prefix_len};
ghost use Rattle.c_lexer.specs.Constants.{hexadecimal_value, digits_from, radix, is_digit_of, is_u, is_l, suffix_of, types_of, is_decimal, holds, first_holding, typed, integer_in, integer_of};
ghost use Rattle.c_lexer.specs.Fronts.{number_front, number_run};

use crate::classes::{byte_at, goes_on, is_digit, is_hexadecimal_digit, is_octal_digit};
use crate::front::Front;
use crate::lex_err::LexErr;
use c_grammar::Lexeme;
use c_num::IntType;
use run_theory::Pos;

/// The base of an integer constant.
#[derive(Clone, Copy, Debug)]
pub enum Base {
    Decimal,
    Octal,
    Hexadecimal,
}

/// The suffix of an integer constant: none, `u`, `l`, or both.
#[derive(Clone, Copy, Debug)]
pub enum Suffix {
    Plain,
    Unsigned,
    Long,
    UnsignedLong,
}

impl Base {
    fn radix(self) -> u64
        ensures { result ≡ radix self }
    {
        match self {
            Base::Decimal => 10,
            Base::Octal => 8,
            Base::Hexadecimal => 16,
        }
    }

    fn is_decimal(self) -> bool
        ensures { result ≡ is_decimal self }
    {
        match self {
            Base::Decimal => true,
            Base::Octal | Base::Hexadecimal => false,
        }
    }

    fn has_digit(self, byte: u8) -> bool
        ensures { result ≡ is_digit_of self byte }
    {
        match self {
            Base::Decimal => is_digit(byte),
            Base::Octal => is_octal_digit(byte),
            Base::Hexadecimal => is_hexadecimal_digit(byte),
        }
    }
}

/// The number that begins a text, which stands at `place`.
pub(crate) fn number(text: &[u8], place: Pos) -> Result<Front, LexErr>
    requires { 0 < length text.now }
    ensures { result ≡ number_front place text.now }
{
    let length = 1 + number_run(text);
    match integer_of(&text[..length]) {
        Some(lexeme) => Ok(Front::Token(lexeme, length)),
        None => Err(LexErr::BadLiteral(place)),
    }
}

/// How many bytes behind the first go on with a number.
fn number_run(text: &[u8]) -> usize
    requires { 0 < length text.now }
    ensures value { result ≡ number_run (slice_index text.now 0) (drop 1 text.now) }
    ensures within { result < length text.now }
{
    let mut length = 1;
    while length < text.len() && goes_on(text[length - 1], text[length]) {
        length += 1;
    }
    length - 1
}

/// The integer constant that the bytes of a number are.
fn integer_of(number: &[u8]) -> Option<Lexeme>
    ensures { result ≡ integer_of number.now }
{
    if byte_at(number, 0) != b'0' {
        return integer_in(Base::Decimal, number);
    }
    let second = byte_at(number, 1);
    if second == b'x' || second == b'X' {
        integer_in(Base::Hexadecimal, &number[2..])
    } else {
        integer_in(Base::Octal, number)
    }
}

/// An integer constant in digits of a base, behind what tells the base.
fn integer_in(base: Base, bytes: &[u8]) -> Option<Lexeme>
    ensures { result ≡ integer_in base bytes.now }
{
    let count = digit_run(base, bytes);
    if count == 0 {
        return None;
    }
    let value = value_of(base, &bytes[..count])?;
    let suffix = suffix_of(&bytes[count..])?;
    typed(base, value, suffix)
}

/// How many digits of a base stand at the front.
fn digit_run(base: Base, bytes: &[u8]) -> usize
    ensures value { result ≡ prefix_len (is_digit_of base) bytes.now }
    ensures within { result ≤ length bytes.now }
{
    let mut length = 0;
    while length < bytes.len() && base.has_digit(bytes[length]) {
        length += 1;
    }
    length
}

/// The value of digits of a base, where it is below 2^64.
fn value_of(base: Base, digits: &[u8]) -> Option<u64>
    ensures { MatchOption result (2 ^ 64 ≤ digits_from hexadecimal_value (radix base) 0 digits.now)
        (λ value. value ≡ digits_from hexadecimal_value (radix base) 0 digits.now) }
{
    let mut value: u64 = 0;
    for digit in digits {
        let next = value.checked_mul(base.radix())?;
        value = next.checked_add(u64::from(digit_value(*digit)))?;
    }
    Some(value)
}

/// The value of a digit in whatever base.
pub(crate) fn digit_value(digit: u8) -> u8
    ensures { result ≡ hexadecimal_value digit }
{
    if is_digit(digit) {
        digit - b'0'
    } else if digit < b'a' {
        digit.saturating_sub(55)
    } else {
        digit - 87
    }
}

fn is_u(letter: u8) -> bool
    ensures { result ≡ is_u letter }
{
    letter == b'u' || letter == b'U'
}

fn is_l(letter: u8) -> bool
    ensures { result ≡ is_l letter }
{
    letter == b'l' || letter == b'L'
}

fn suffix_of(letters: &[u8]) -> Option<Suffix>
    ensures { result ≡ suffix_of letters.now }
{
    match letters {
        [] => Some(Suffix::Plain),
        [letter] => one_letter(*letter),
        [letter, other] => two_letters(*letter, *other),
        _ => None,
    }
}

fn one_letter(letter: u8) -> Option<Suffix>
    ensures { result ≡ suffix_of (letter ∷ []) }
{
    if is_u(letter) {
        Some(Suffix::Unsigned)
    } else if is_l(letter) {
        Some(Suffix::Long)
    } else {
        None
    }
}

fn two_letters(letter: u8, other: u8) -> Option<Suffix>
    ensures { result ≡ suffix_of (letter ∷ other ∷ []) }
{
    if (is_u(letter) && is_l(other)) || (is_l(letter) && is_u(other)) {
        Some(Suffix::UnsignedLong)
    } else {
        None
    }
}

/// The constant of the first type that holds the value.
fn typed(base: Base, value: u64, suffix: Suffix) -> Option<Lexeme>
    ensures { result ≡ typed base value (Some suffix) }
{
    let int_type = first_type(base.is_decimal(), value, suffix)?;
    Some(Lexeme::Integer { value, int_type })
}

/// The first type of a constant with a suffix that holds the value.
fn first_type(decimal: bool, value: u64, suffix: Suffix) -> Option<IntType>
    ensures is { result ≡ first_holding value (types_of suffix decimal) }
    ensures small { result ≡ Some IntType.Int → value < 2 ^ 32 }
{
    match suffix {
        Suffix::Plain => {
            if decimal {
                first_holding(value, &[IntType::Int, IntType::Long])
            } else {
                let types = [IntType::Int, IntType::UInt, IntType::Long, IntType::ULong];
                first_holding(value, &types)
            }
        }
        Suffix::Unsigned => first_holding(value, &[IntType::UInt, IntType::ULong]),
        Suffix::Long => {
            if decimal {
                first_holding(value, &[IntType::Long])
            } else {
                first_holding(value, &[IntType::Long, IntType::ULong])
            }
        }
        Suffix::UnsignedLong => first_holding(value, &[IntType::ULong]),
    }
}

/// The first of the types that holds the value.
fn first_holding(value: u64, mut types: &[IntType]) -> Option<IntType>
    ensures is { result ≡ first_holding value types.entry.now }
    ensures small { result ≡ Some IntType.Int → value < 2 ^ 32 }
{
    while let [first, rest @ ..] = types {
        if holds(value, *first) {
            return Some(*first);
        }
        types = rest;
    }
    None
}

/// Whether the value is one of the type's.
fn holds(value: u64, int_type: IntType) -> bool
    ensures { result ≡ holds value int_type }
{
    match int_type {
        IntType::Char => value < 0x80,
        IntType::UChar => value < 0x100,
        IntType::Short => value < 0x8000,
        IntType::UShort => value < 0x1_0000,
        IntType::Int => value < 0x8000_0000,
        IntType::UInt => value < 0x1_0000_0000,
        IntType::Long => value < 0x8000_0000_0000_0000,
        IntType::ULong => true,
    }
}
