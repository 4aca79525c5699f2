// Character constants and literals (C17 6.4.4.4, 6.4.5).

ghost use Rattle.std.specs.Prelude.{◌≡◌, ◌≤◌, length, IfOk, IfErr, Ok, Err};
ghost use Rattle.c_lexer.specs.Constants.{quoted, spelled};
ghost use Rattle.c_lexer.specs.Fronts.{as_character, as_literal};
ghost use Rattle.c_lexer.specs.Tokens.{UnlessMemory};

use crate::characters::{escape_byte, escape_width};
use crate::front::Front;
use crate::lex_err::LexErr;
use c_grammar::{ByteString, Lexeme};
use run_theory::Pos;
use std::alloc::Global;

/// What stands between quotes: the bytes it stands for, and how many bytes of the text it takes with its closing quote.
#[derive(Drop)]
struct Quoted {
    bytes: Vec<u8>,
    width: usize,
}

/// A byte between quotes, and how many bytes belong to it behind its first.
#[derive(Clone, Copy)]
struct Spelled {
    byte: u8,
    width: usize,
}

/// The character constant whose opening quote stands at `place`, before the text.
pub(crate) fn character(alloc: Global, text: &[u8], place: Pos) -> Result<Front, LexErr>
    ensures found { IfOk result (λ front. as_character place (quoted place 39 text.now) ≡ Ok front) }
    ensures refused { IfErr result (λ error. UnlessMemory error (as_character place (quoted place 39 text.now) ≡ Err error)) }
{
    let found = match read_quoted(alloc, b'\'', text, place) {
        Ok(found) => found,
        Err(error) => return Err(error),
    };
    match found.bytes.as_slice() {
        [byte] => Ok(Front::Token(Lexeme::Character(*byte), 1 + found.width)),
        _ => Err(LexErr::BadLiteral(place)),
    }
}

/// The literal whose opening quote stands at `place`, before the text.
pub(crate) fn literal(alloc: Global, text: &[u8], place: Pos) -> Result<Front, LexErr>
    ensures found { IfOk result (λ front. as_literal (quoted place 34 text.now) ≡ Ok front) }
    ensures refused { IfErr result (λ error. UnlessMemory error (as_literal (quoted place 34 text.now) ≡ Err error)) }
{
    let found = match read_quoted(alloc, b'"', text, place) {
        Ok(found) => found,
        Err(error) => return Err(error),
    };
    let literal = ByteString::new(found.bytes);
    Ok(Front::Token(Lexeme::Literal(literal), 1 + found.width))
}

/// What stands between quotes, the opening one before the text.
fn read_quoted(alloc: Global, quote: u8, text: &[u8], place: Pos) -> Result<Quoted, LexErr>
    ensures found { IfOk result (λ found. quoted place quote text.now ≡ Ok (found.bytes.items, found.width)) }
    ensures within { IfOk result (λ found. found.width ≤ length text.now) }
    ensures refused { IfErr result (λ error. UnlessMemory error (quoted place quote text.now ≡ Err error)) }
{
    let mut bytes = Vec::new(alloc);
    let mut width = 0;
    let mut rest = text;
    while let Some((first, others)) = rest.split_first() {
        width += 1;
        if *first == quote {
            return Ok(Quoted { bytes, width });
        }
        let spelled = match read_byte(*first, others, place) {
            Ok(spelled) => spelled,
            Err(error) => return Err(error),
        };
        if bytes.push(spelled.byte).is_err() {
            return Err(LexErr::OutOfMemory);
        }
        width += spelled.width;
        rest = &others[spelled.width..];
    }
    Err(LexErr::Unclosed(place))
}

/// The byte that a byte or escape stands for, from its first byte and what follows; the quote stands at `place`.
fn read_byte(first: u8, rest: &[u8], place: Pos) -> Result<Spelled, LexErr>
    ensures found { IfOk result (λ found. spelled place first rest.now ≡ Ok (found.byte, found.width)) }
    ensures within { IfOk result (λ found. found.width ≤ length rest.now) }
    ensures refused { IfErr result (λ error. spelled place first rest.now ≡ Err error) }
{
    if first == b'\n' {
        return Err(LexErr::Unclosed(place));
    }
    if first != b'\\' {
        return Ok(Spelled {
            byte: first,
            width: 0,
        });
    }
    let width = escape_width(rest);
    if width == 0 {
        return Err(LexErr::Unclosed(place));
    }
    match escape_byte(rest) {
        Some(byte) => Ok(Spelled { byte, width }),
        None => Err(LexErr::BadLiteral(place)),
    }
}
