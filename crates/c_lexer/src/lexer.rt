// The tokens of a text, from left to right.

ghost use Rattle.std.specs.Prelude.{◌≡◌, ◌+◌, ◌++◌, ◌^◌, ◌<◌, List, length, IfOk, IfErr, OnOk};
ghost use Rattle.run_theory.specs.Places.{first_place, place_behind};
ghost use Rattle.c_grammar.specs.Leaves.{Leaf, leaves_of};
ghost use Rattle.c_lexer.specs.Tokens.{Divides, Faults, StandFrom, IsFoundUnlessMemory, UnlessMemory, line_behind, token_at, width_of};

use crate::classes::is_blank;
use crate::front::{Front, front_at};
use crate::lex_err::LexErr;
use c_grammar::{Lexeme, Token};
use run_theory::Pos;
use std::alloc::Global;

/// The tokens of a text, the last one the end of the text. White space, comments and the directives that include
/// `<stdio.h>`, `<stdlib.h>` or `<stddef.h>` stand between them. A refusal is of the first fault, by place.
pub fn tokens(alloc: Global, text: &[u8]) -> Result<Vec<Token>, LexErr>
    requires { length text.now < 2 ^ 31 }
    ensures found { IfOk result (λ tokens. Divides first_place text.now (leaves_of tokens.items)) }
    ensures spans { IfOk result (λ tokens. StandFrom text.now 0 tokens.items) }
    ensures refused { IfErr result (λ error. UnlessMemory error (Faults first_place text.now error)) }
    // no other: whatever the text divides into is what was found, or memory ran out
    ensures only { (leaves : List Leaf) → Divides first_place text.now leaves → IsFoundUnlessMemory result leaves }
{
    let mut found = Vec::new(alloc);
    let mut rest = text;
    let mut start: usize = 0;
    let mut place = Pos::start();
    let mut line = true;
    while !rest.is_empty() {
        let front = match front_at(alloc, line, rest, place) {
            Ok(front) => front,
            Err(error) => return Err(error),
        };
        let width = front.width();
        match keep(&mut found, front, start, place) {
            Ok(()) => (),
            Err(error) => return Err(error),
        }
        let (taken, others) = rest.split_at(width);
        line = line_behind(line, taken);
        place = behind(place, taken);
        rest = others;
        start += width;
    }
    let end = Token {
        lexeme: Lexeme::EndOfText,
        start,
        end: start,
        place,
    };
    match found.push(end) {
        Ok(()) => Ok(found),
        Err(_) => Err(LexErr::OutOfMemory),
    }
}

/// Appends the token that stands at the front of the text's rest, if one does.
fn keep(found: &mut Vec<Token>, front: Front, start: usize, place: Pos) -> Result<(), LexErr>
    requires { start + width_of front < 2 ^ 32 }
    ensures kept { OnOk result (found.new.items ≡ found.old.items ++ token_at front start place) }
    ensures memory { IfErr result (λ error. error ≡ LexErr.OutOfMemory) }
{
    let Front::Token(lexeme, width) = front else {
        return Ok(());
    };
    let token = Token {
        lexeme,
        start,
        end: start + width,
        place,
    };
    match found.push(token) {
        Ok(()) => Ok(()),
        Err(_) => Err(LexErr::OutOfMemory),
    }
}

/// Whether nothing but spaces and tabs stand on the line behind bytes, where this is so before them or not.
fn line_behind(line: bool, bytes: &[u8]) -> bool
    ensures { result ≡ line_behind line bytes.now }
{
    let mut line = line;
    for byte in bytes {
        line = *byte == b'\n' || (line && is_blank(*byte));
    }
    line
}

/// The place behind bytes, the first of which stands at `place`.
fn behind(place: Pos, bytes: &[u8]) -> Pos
    requires line_room { place.line + length bytes.now < 2 ^ 32 }
    requires column_room { place.column + length bytes.now < 2 ^ 32 }
    ensures { result ≡ place_behind place bytes.now }
{
    let mut place = place;
    for byte in bytes {
        place = place.after(*byte);
    }
    place
}
