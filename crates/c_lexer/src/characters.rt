// Escapes (C17 6.4.4.4).

ghost use Rattle.std.specs.Prelude.{◌≡◌, ◌≤◌, length};
ghost use Rattle.std.specs.List.{prefix_len};
ghost use Rattle.c_lexer.specs.Classes.{is_octal_digit, is_hexadecimal_digit};
ghost use Rattle.c_lexer.specs.Constants.{simple_escape, octal_byte, hexadecimal_byte, hexadecimal_digit, escape_value, escape_width, escape_byte};

use crate::classes::{is_hexadecimal_digit, is_octal_digit};

/// The greatest number of digits of an octal escape.
const OCTAL_DIGITS: usize = 3;

/// The byte of the escape whose backslash a text follows, where it is an escape.
pub(crate) fn escape_byte(text: &[u8]) -> Option<u8>
    ensures { result ≡ escape_byte text.now }
{
    escape_value(&text[..escape_width(text)])
}

/// How many bytes behind a backslash belong to its escape: none at the end of the line.
pub(crate) fn escape_width(text: &[u8]) -> usize
    ensures value { result ≡ escape_width text.now }
    ensures within { result ≤ length text.now }
{
    let Some((first, rest)) = text.split_first() else {
        return 0;
    };
    if is_octal_digit(*first) {
        let digits = octal_run(text);
        if digits > OCTAL_DIGITS {
            OCTAL_DIGITS
        } else {
            digits
        }
    } else if *first == b'x' {
        1 + hexadecimal_run(rest)
    } else if *first == b'\n' {
        0
    } else {
        1
    }
}

fn octal_run(text: &[u8]) -> usize
    ensures value { result ≡ prefix_len is_octal_digit text.now }
    ensures within { result ≤ length text.now }
{
    let mut length = 0;
    while length < text.len() && is_octal_digit(text[length]) {
        length += 1;
    }
    length
}

fn hexadecimal_run(text: &[u8]) -> usize
    ensures value { result ≡ prefix_len is_hexadecimal_digit text.now }
    ensures within { result ≤ length text.now }
{
    let mut length = 0;
    while length < text.len() && is_hexadecimal_digit(text[length]) {
        length += 1;
    }
    length
}

/// The byte of the escape whose backslash these bytes follow.
fn escape_value(escape: &[u8]) -> Option<u8>
    ensures { result ≡ escape_value escape.now }
{
    let (first, rest) = escape.split_first()?;
    if is_octal_digit(*first) {
        octal_byte(escape)
    } else if *first == b'x' {
        hexadecimal_byte(rest)
    } else if rest.is_empty() {
        simple_escape(*first)
    } else {
        None
    }
}

/// The byte of at most three octal digits, where it fits.
fn octal_byte(digits: &[u8]) -> Option<u8>
    ensures { result ≡ octal_byte digits.now }
{
    if digits.len() > OCTAL_DIGITS {
        return None;
    }
    let mut value: u8 = 0;
    for digit in digits {
        if !is_octal_digit(*digit) {
            return None;
        }
        value = value.checked_mul(8)?.checked_add(*digit - b'0')?;
    }
    Some(value)
}

/// The byte of at least one hexadecimal digit, where it fits.
fn hexadecimal_byte(digits: &[u8]) -> Option<u8>
    ensures { result ≡ hexadecimal_byte digits.now }
{
    if digits.is_empty() {
        return None;
    }
    let mut value: u8 = 0;
    for digit in digits {
        value = value
            .checked_mul(16)?
            .checked_add(hexadecimal_digit(*digit)?)?;
    }
    Some(value)
}

fn hexadecimal_digit(byte: u8) -> Option<u8>
    ensures { result ≡ hexadecimal_digit byte }
{
    match byte {
        b'0'..=b'9' => Some(byte - b'0'),
        b'A'..=b'F' => Some(byte - b'A' + 10),
        b'a'..=b'f' => Some(byte - b'a' + 10),
        _ => None,
    }
}

/// The byte of an escape of one letter or mark (C17 5.2.2).
fn simple_escape(letter: u8) -> Option<u8>
    ensures { result ≡ simple_escape letter }
{
    match letter {
        b'a' => Some(7),
        b'b' => Some(8),
        b'f' => Some(12),
        b'n' => Some(10),
        b'r' => Some(13),
        b't' => Some(9),
        b'v' => Some(11),
        b'\\' | b'\'' | b'"' | b'?' => Some(letter),
        _ => None,
    }
}
