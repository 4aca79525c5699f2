// Steps over tokens that have to stand there, and over what nests.

ghost use Rattle.std.specs.Prelude.{◌≡◌, ◌+◌, ◌<◌, ◌≤◌, max, [], length, false, IfOk, IfErr, OnErr};
ghost use Rattle.c_grammar.specs.Runs.{fits_first};
ghost use Rattle.c_grammar.specs.Leaves.{leaves_of};
ghost use Rattle.c_reader.specs.Grammar.{grammar};
ghost use Rattle.c_reader.specs.Shapes.{place_of};
ghost use Rattle.c_reader.specs.Readings.{Begins, Passes};
ghost use Rattle.c_reader.specs.Steps.{second_kind_of};

use crate::syntax_err::SyntaxErr;
use c_grammar::{Kind, Token};
use run_theory::Pos;

/// What was read: its value, how many nodes lie on its longest path, and the tokens behind it.
#[derive(Drop)]
pub struct Read<'a, T> {
    pub value: T,
    pub height: u32,
    pub rest: &'a [Token],
}

/// A token that was passed: its place, and the tokens behind it.
#[derive(Clone, Copy)]
pub struct Passed<'a> {
    pub place: Pos,
    pub rest: &'a [Token],
}

/// The place of the first of the tokens, or of the start of a text where there is none.
pub fn first_place(tokens: &[Token]) -> Pos
    ensures { result ≡ place_of (leaves_of tokens.now) }
{
    match tokens.first() {
        Some(token) => token.place,
        None => Pos::start(),
    }
}

/// The kind of the first of the tokens. Nothing goes on where there is none.
pub fn first_kind(tokens: &[Token]) -> Result<Kind, SyntaxErr>
    ensures found { IfOk result (λ kind. Begins kind (leaves_of tokens.now)) }
    ensures none { OnErr result (leaves_of tokens.now ≡ []) }
    ensures misfit { IfErr result (λ fault. fault ≡ SyntaxErr.At (place_of (leaves_of tokens.now))) }
{
    match tokens.first() {
        Some(token) => Ok(token.lexeme.kind()),
        None => Err(SyntaxErr::At(first_place(tokens))),
    }
}

/// Passes a token of a kind, which has to stand at the front.
pub fn pass(tokens: &[Token], kind: Kind) -> Result<Passed<'_>, SyntaxErr>
    ensures found { IfOk result (λ passed. Passes kind (leaves_of tokens.now) passed.place (leaves_of passed.rest.now)) }
    ensures shorter { IfOk result (λ passed. length passed.rest.now < length tokens.now) }
    ensures none { OnErr result (fits_first grammar kind (leaves_of tokens.now) ≡ false) }
    ensures misfit { IfErr result (λ fault. fault ≡ SyntaxErr.At (place_of (leaves_of tokens.now))) }
{
    match tokens.split_first() {
        Some((token, rest)) => {
            if token.lexeme.kind() == kind {
                Ok(Passed {
                    place: token.place,
                    rest,
                })
            } else {
                Err(SyntaxErr::At(token.place))
            }
        }
        None => Err(SyntaxErr::At(first_place(tokens))),
    }
}

/// The room below a node that begins with the first of the tokens, where `least` is the least height of such a node.
pub fn room_below(tokens: &[Token], least: u32, room: u32) -> Result<u32, SyntaxErr>
    requires { 1 ≤ least }
    ensures found { IfOk result (λ below. below + 1 ≡ room) }
    ensures fits { IfOk result (λ below. least ≤ room) }
    ensures none { OnErr result (room < least) }
    ensures deep { IfErr result (λ fault. fault ≡ SyntaxErr.TooDeep (place_of (leaves_of tokens.now))) }
{
    if room < least {
        return Err(SyntaxErr::TooDeep(first_place(tokens)));
    }
    Ok(room - 1)
}

/// The kind of the second of the tokens, or of the end of a text where there is none.
pub fn second_kind(tokens: &[Token]) -> Kind
    ensures { result ≡ second_kind_of (leaves_of tokens.now) }
{
    match tokens.get(1) {
        Some(token) => token.lexeme.kind(),
        None => Kind::End,
    }
}

/// The room below a node of which a tree of this height was read already, where `least` is the least height of such a
/// node. What goes on begins with the first of the tokens.
pub fn room_behind(tokens: &[Token], least: u32, height: u32, room: u32) -> Result<u32, SyntaxErr>
    requires { 1 ≤ least }
    ensures found { IfOk result (λ below. below + 1 ≡ room) }
    ensures fits { IfOk result (λ below. least ≤ room) }
    ensures left_fits { IfOk result (λ below. height ≤ below) }
    ensures none { OnErr result (room < max least (height + 1)) }
    ensures deep { IfErr result (λ fault. fault ≡ SyntaxErr.TooDeep (place_of (leaves_of tokens.now))) }
{
    if room < least {
        return Err(SyntaxErr::TooDeep(first_place(tokens)));
    }
    if room <= height {
        return Err(SyntaxErr::TooDeep(first_place(tokens)));
    }
    Ok(room - 1)
}
