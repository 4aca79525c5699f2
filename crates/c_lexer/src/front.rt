// What stands at the front of a text.

ghost use Rattle.std.specs.Prelude.{◌≡◌, ◌<◌, length, IfOk, IfErr, Ok, Err};
ghost use Rattle.c_lexer.specs.Fronts.{front_of, other_front};
ghost use Rattle.c_lexer.specs.Tokens.{UnlessMemory, width_of};

use crate::classes::{is_digit, is_letter, is_space};
use crate::comments::{block_comment, is_block_comment, is_line_comment, line_length};
use crate::directives::directive;
use crate::lex_err::LexErr;
use crate::numbers::number;
use crate::punctuators::punctuator;
use crate::quoted::{character, literal};
use crate::words::word;
use c_grammar::Lexeme;
use run_theory::Pos;
use std::alloc::Global;

/// What stands at the front of a text, and how many bytes of it that is.
#[derive(Debug, Drop)]
pub enum Front {
    /// White space, a comment or an accepted directive.
    Blank(usize),
    Token(Lexeme, usize),
}

impl Front {
    /// How many bytes of the text stand at its front together.
    pub(crate) fn width(&self) -> usize
        ensures { result ≡ width_of self.now }
    {
        match self {
            Front::Blank(width) => *width,
            Front::Token(_, width) => *width,
        }
    }
}

/// What stands at the front of a text that begins at `place`; `line` tells whether nothing but spaces and tabs stand before
/// it on its line.
pub(crate) fn front_at(alloc: Global, line: bool, text: &[u8], place: Pos) -> Result<Front, LexErr>
    requires { 0 < length text.now }
    ensures found { IfOk result (λ front. front_of line place text.now ≡ Ok front) }
    ensures refused { IfErr result (λ error. UnlessMemory error (front_of line place text.now ≡ Err error)) }
{
    let first = text[0];
    if is_space(first) {
        Ok(Front::Blank(1))
    } else if is_letter(first) {
        word(alloc, text, place)
    } else if is_digit(first) {
        number(text, place)
    } else if first == b'\'' {
        character(alloc, &text[1..], place)
    } else if first == b'"' {
        literal(alloc, &text[1..], place)
    } else if first == b'#' && line {
        directive(text, place)
    } else {
        other(text, place)
    }
}

/// The comment or punctuator at the front of a text that begins at `place`.
fn other(text: &[u8], place: Pos) -> Result<Front, LexErr>
    requires { 0 < length text.now }
    ensures { result ≡ other_front place text.now }
{
    if is_line_comment(text) {
        Ok(Front::Blank(line_length(text)))
    } else if is_block_comment(text) {
        block_comment(text, place)
    } else {
        punctuator(text, place)
    }
}
