// Operands that are tokens, and trees that are built of read ones.

ghost use Rattle.std.specs.Prelude.{◌≡◌, ℕ, ◌<◌, ◌≤◌, length, IfOk};
ghost use Rattle.c_grammar.specs.Forms as forms;
ghost use Rattle.c_grammar.specs.Leaves.{leaf_of, leaves_of};
ghost use Rattle.c_syntax.specs.Views.{expr_tree};
ghost use Rattle.c_reader.specs.Shapes.{single_of};
ghost use Rattle.c_reader.specs.ExpressionSteps.{GivesOperand, Chooses, first_single, GivesLiterals};

use crate::name::{copy, token_bytes};
use crate::syntax_err::SyntaxErr;
use crate::token::{first_kind, pass, room_below};
use c_grammar::{ByteString, Kind, Lexeme, Token};
use c_syntax::{Expr, Name};
use run_theory::Pos;
use std::alloc::{AllocError, Global};

/// An expression that was read and may go on: how loosely it binds, how many nodes lie on its longest path, and the
/// tokens behind it.
#[derive(Drop)]
pub(crate) struct Operand<'a> {
    pub(crate) expr: Box<Expr>,
    pub(crate) level: u32,
    pub(crate) height: u32,
    pub(crate) rest: &'a [Token],
}

/// The expression in a box of its own.
pub(crate) fn boxed(alloc: Global, expr: Expr) -> Result<Box<Expr>, AllocError>
    ensures { IfOk result (λ boxed. boxed.value ≡ expr) }
{
    Ok(Box::new(alloc, expr)?)
}

/// The expression that the first of the tokens is alone.
fn single(alloc: Global, tokens: &[Token]) -> Result<Expr, AllocError>
    ensures { IfOk result (λ expr. expr_tree expr ≡ first_single (leaves_of tokens.now)) }
{
    match tokens.first() {
        Some(token) => single_token(alloc, token),
        None => Ok(Expr::Null {
            place: Pos::start(),
        }),
    }
}

/// The expression that a token is alone.
fn single_token(alloc: Global, token: &Token) -> Result<Expr, AllocError>
    ensures { IfOk result (λ expr. expr_tree expr ≡ single_of (leaf_of token.now) token.now.lexeme) }
{
    let place = token.place;
    match &token.lexeme {
        Lexeme::Name(bytes) => {
            let bytes = copy(alloc, bytes)?;
            Ok(Expr::Named(Name { bytes, place }))
        }
        Lexeme::Integer { value, int_type } => {
            Ok(Expr::Integer {
                value: *value,
                int_type: *int_type,
                place,
            })
        }
        Lexeme::Character(byte) => Ok(Expr::Character { byte: *byte, place }),
        Lexeme::Fixed(Kind::EndOfFile) => Ok(Expr::EndOfFile { place }),
        _ => Ok(Expr::Null { place }),
    }
}

/// Reads an expression that is one token of a kind, and no literal.
pub(crate) fn read_single(
    alloc: Global,
    tokens: &[Token],
    kind: Kind,
    room: u32,
) -> Result<Operand<'_>, SyntaxErr>
    ensures gives { (level : ℕ) → Chooses level (forms.Single kind) (leaves_of tokens.now) → GivesOperand level room (leaves_of tokens.now) result }
    ensures shorter { IfOk result (λ read. length read.rest.now < length tokens.now) }
{
    room_below(tokens, 1, room)?;
    let passed = pass(tokens, kind)?;
    let expr = single(alloc, tokens)?;
    Ok(Operand {
        expr: boxed(alloc, expr)?,
        level: 0,
        height: 1,
        rest: passed.rest,
    })
}

/// The bytes of literals that stand one beside another, and the tokens behind these.
#[derive(Drop)]
struct Literals<'a> {
    bytes: Vec<u8>,
    rest: &'a [Token],
}

/// Reads the literals that stand behind a first one, whose bytes are given.
fn read_literals(alloc: Global, tokens: &[Token], first: Vec<u8>) -> Result<Literals<'_>, SyntaxErr>
    ensures gives { (room : ℕ) → GivesLiterals room first.items (leaves_of tokens.now) result }
    ensures shorter { IfOk result (λ read. length read.rest.now ≤ length tokens.now) }
{
    let mut bytes = first;
    let mut rest = tokens;
    loop {
        match first_kind(rest)? {
            Kind::Literal => {
                let literal = token_bytes(alloc, rest)?;
                bytes.extend_from_slice(literal.as_slice())?;
                rest = pass(rest, Kind::Literal)?.rest;
            }
            _ => return Ok(Literals { bytes, rest }),
        }
    }
}

/// Reads adjacent literals, which are joined (C17 5.1.1.2 paragraph 1).
pub(crate) fn read_text(
    alloc: Global,
    tokens: &[Token],
    room: u32,
) -> Result<Operand<'_>, SyntaxErr>
    ensures gives { (level : ℕ) → Chooses level forms.Text (leaves_of tokens.now) → GivesOperand level room (leaves_of tokens.now) result }
    ensures shorter { IfOk result (λ read. length read.rest.now < length tokens.now) }
{
    room_below(tokens, 1, room)?;
    let first = pass(tokens, Kind::Literal)?;
    let literal = token_bytes(alloc, tokens)?;
    let bytes = Vec::from_slice(alloc, literal.as_slice())?;
    let Literals { bytes, rest } = read_literals(alloc, first.rest, bytes)?;
    let literal = Expr::Literal {
        bytes: ByteString::new(bytes),
        place: first.place,
    };
    Ok(Operand {
        expr: boxed(alloc, literal)?,
        level: 0,
        height: 1,
        rest,
    })
}
