// Names and keywords (C17 6.4.1, 6.4.2).

ghost use Rattle.std.specs.Prelude.{◌≡◌, ◌<◌, ◌≤◌, length, IfOk, IfErr, Ok, Err};
ghost use Rattle.std.specs.List.{prefix_len};
ghost use Rattle.c_lexer.specs.Classes.{is_word_byte};
ghost use Rattle.c_lexer.specs.Fronts.{word_front, word_lexeme};
ghost use Rattle.c_lexer.specs.Tokens.{UnlessMemory};

use crate::classes::is_word_byte;
use crate::front::Front;
use crate::lex_err::LexErr;
use crate::tables::word_kind;
use c_grammar::{ByteString, Lexeme};
use run_theory::Pos;
use std::alloc::{AllocError, Global};

/// The greatest number of bytes of a name.
const NAME_LIMIT: usize = 255;

/// The word that begins a text, which stands at `place`.
pub(crate) fn word(alloc: Global, text: &[u8], place: Pos) -> Result<Front, LexErr>
    requires { 0 < length text.now }
    ensures found { IfOk result (λ front. word_front place text.now ≡ Ok front) }
    ensures refused { IfErr result (λ error. UnlessMemory error (word_front place text.now ≡ Err error)) }
{
    let length = 1 + word_run(&text[1..]);
    if length > NAME_LIMIT {
        return Err(LexErr::NameTooLong(place));
    }
    match word_lexeme(alloc, &text[..length]) {
        Ok(lexeme) => Ok(Front::Token(lexeme, length)),
        Err(_) => Err(LexErr::OutOfMemory),
    }
}

/// How many bytes at the front of a text go on with a word.
fn word_run(text: &[u8]) -> usize
    ensures value { result ≡ prefix_len is_word_byte text.now }
    ensures within { result ≤ length text.now }
{
    let mut length = 0;
    while length < text.len() && is_word_byte(text[length]) {
        length += 1;
    }
    length
}

/// What a word is: a word of the grammar, or a name.
fn word_lexeme(alloc: Global, word: &[u8]) -> Result<Lexeme, AllocError>
    ensures { IfOk result (λ lexeme. lexeme ≡ word_lexeme word.now) }
{
    if let Some(kind) = word_kind(word) {
        return Ok(Lexeme::Fixed(kind));
    }
    let bytes = Vec::from_slice(alloc, word)?;
    Ok(Lexeme::Name(ByteString::new(bytes)))
}
