// Classes of bytes.

ghost use Rattle.std.specs.Prelude.{◌≡◌, ◌≢◌, ◌<◌, length, slice_index};
ghost use Rattle.c_lexer.specs.Classes.{is_space, is_blank, is_digit, is_octal_digit, is_hexadecimal_digit, is_letter, is_word_byte, is_exponent_sign, goes_on};

/// White space: the bytes 09 to 0D and the space (C17 6.4 paragraph 3).
pub(crate) fn is_space(byte: u8) -> bool
    ensures { result ≡ is_space byte }
{
    matches!(byte, 0x09..=0x0D | b' ')
}

/// A space or a tab (C17 6.10 paragraph 5).
pub(crate) fn is_blank(byte: u8) -> bool
    ensures { result ≡ is_blank byte }
{
    byte == b' ' || byte == b'\t'
}

pub(crate) fn is_digit(byte: u8) -> bool
    ensures { result ≡ is_digit byte }
{
    matches!(byte, b'0'..=b'9')
}

pub(crate) fn is_octal_digit(byte: u8) -> bool
    ensures { result ≡ is_octal_digit byte }
{
    matches!(byte, b'0'..=b'7')
}

pub(crate) fn is_hexadecimal_digit(byte: u8) -> bool
    ensures { result ≡ is_hexadecimal_digit byte }
{
    matches!(byte, b'0'..=b'9' | b'A'..=b'F' | b'a'..=b'f')
}

/// A letter or the low line (C17 6.4.2.1).
pub(crate) fn is_letter(byte: u8) -> bool
    ensures { result ≡ is_letter byte }
{
    matches!(byte, b'A'..=b'Z' | b'a'..=b'z' | b'_')
}

pub(crate) fn is_word_byte(byte: u8) -> bool
    ensures { result ≡ is_word_byte byte }
{
    is_letter(byte) || is_digit(byte)
}

/// A sign directly behind the letter of an exponent, which goes on with a number (C17 6.4.8).
fn is_exponent_sign(before: u8, byte: u8) -> bool
    ensures { result ≡ is_exponent_sign before byte }
{
    matches!(before, b'e' | b'E' | b'p' | b'P') && matches!(byte, b'+' | b'-')
}

/// Whether a number goes on with `byte` behind `before`.
pub(crate) fn goes_on(before: u8, byte: u8) -> bool
    ensures { result ≡ goes_on before byte }
{
    is_word_byte(byte) || byte == b'.' || is_exponent_sign(before, byte)
}

/// The byte at an index, and 0 past the end.
pub(crate) fn byte_at(text: &[u8], index: usize) -> u8
    ensures value { result ≡ slice_index text.now index }
    ensures within { result ≢ 0 → index < length text.now }
{
    if index < text.len() { text[index] } else { 0 }
}
