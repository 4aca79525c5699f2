// Punctuators (C17 6.4.6).

ghost use Rattle.std.specs.Prelude.{◌≡◌};
ghost use Rattle.c_lexer.specs.Fronts.{punctuator_front, punctuator_of};

use crate::front::Front;
use crate::lex_err::LexErr;
use crate::tables::punctuator_kind;
use c_grammar::{Kind, Lexeme};
use run_theory::Pos;

/// The punctuator that begins a text, which stands at `place`.
pub(crate) fn punctuator(text: &[u8], place: Pos) -> Result<Front, LexErr>
    ensures { result ≡ punctuator_front place text.now }
{
    if let Some(kind) = punctuator_of(3, text) {
        return Ok(Front::Token(Lexeme::Fixed(kind), 3));
    }
    if let Some(kind) = punctuator_of(2, text) {
        return Ok(Front::Token(Lexeme::Fixed(kind), 2));
    }
    match punctuator_of(1, text) {
        Some(kind) => Ok(Front::Token(Lexeme::Fixed(kind), 1)),
        None => Err(LexErr::BadByte(place)),
    }
}

/// The kind of the punctuator that so many bytes at the front of a text spell.
fn punctuator_of(count: usize, text: &[u8]) -> Option<Kind>
    ensures { result ≡ punctuator_of count text.now }
{
    if count <= text.len() {
        punctuator_kind(&text[..count])
    } else {
        None
    }
}
