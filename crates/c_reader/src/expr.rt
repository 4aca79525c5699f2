// Expressions (C17 6.5), and the names of types and the declarators in them (C17 6.7.6, 6.7.7).

ghost use Rattle.std.specs.Prelude.{◌≡◌, ◌<◌, ◌≤◌, ℕ, length, IfOk};
ghost use Rattle.c_grammar.specs.Runs.{Whole};
ghost use Rattle.c_grammar.specs.Forms as forms;
ghost use Rattle.c_grammar.specs.Leaves.{leaves_of};
ghost use Rattle.c_syntax.specs.Views.{expr_tree};
ghost use Rattle.c_syntax.specs.Views as views;
ghost use Rattle.c_reader.specs.Shapes.{expr_of, arguments_of};
ghost use Rattle.c_reader.specs.Readings.{IsReading};
ghost use Rattle.c_reader.specs.Choices.{form_of, level_of_next};
ghost use Rattle.c_reader.specs.ExpressionSteps.{expr_in, GivesOperand, Chooses, Extends};
ghost use Rattle.c_reader.specs.Terms.{GivesTerm, GivesEnclosedType};

use crate::choice::{First, Next, first_of, next_at};
use crate::declarator::read_type;
use crate::following::{
    read_member, read_pointer_member, read_post_decrement, read_post_increment,
};
use crate::operand::{Operand, read_single, read_text};
use crate::second::{SizeofRow, sizeof_row};
use crate::syntax_err::SyntaxErr;
use crate::term::{
    EnclosedType, Frame, LOOSEST, Term, called, cast, conditional, joined, joining_frame,
    pass_last, sizeof_expr, sizeof_type, wrapped, wrapping_frame,
};
use crate::token::{Read, first_kind, first_place, pass, room_behind, room_below, second_kind};
use c_grammar::{Kind, Token};
use c_syntax::Expr;
use std::alloc::Global;

/// Reads an expression that binds at most as loosely as a level. `room` is how many nodes it may nest.
#[cycle(expr)]
pub fn read_expr(
    alloc: Global,
    tokens: &[Token],
    level: u32,
    room: u32,
) -> Result<Read<'_, Box<Expr>>, SyntaxErr>
    ensures gives { IsReading (Whole forms.Expr level) room (leaves_of tokens.now) expr_of expr_in result }
    ensures shorter { IfOk result (λ read. length read.rest.now < length tokens.now) }
{
    let mut left = read_operand(alloc, tokens, level, room)?;
    while let Some(next) = next_at(left.rest, level, left.level) {
        left = read_next(alloc, left, next, room)?;
    }
    Ok(Read {
        value: left.expr,
        height: left.height,
        rest: left.rest,
    })
}

/// Reads what an expression of a level begins with.
#[cycle(expr)]
fn read_operand(
    alloc: Global,
    tokens: &[Token],
    level: u32,
    room: u32,
) -> Result<Operand<'_>, SyntaxErr>
    ensures gives { GivesOperand level room (leaves_of tokens.now) result }
    ensures shorter { IfOk result (λ read. length read.rest.now < length tokens.now) }
{
    let kind = first_kind(tokens)?;
    match first_of(kind, second_kind(tokens), level) {
        Some(First::Single) => read_single(alloc, tokens, kind, room),
        Some(First::Text) => read_text(alloc, tokens, room),
        Some(First::Cast) => read_cast(alloc, tokens, room),
        Some(First::Sizeof) => read_sizeof(alloc, tokens, room),
        Some(First::Wrapped(wrapping)) => {
            let below = room_below(tokens, 2, room)?;
            let term = read_term(alloc, tokens, wrapping_frame(wrapping), below)?;
            Ok(wrapped(alloc, wrapping, term)?)
        }
        None => Err(SyntaxErr::At(first_place(tokens))),
    }
}

/// Reads what goes on behind an expression.
#[cycle(expr)]
fn read_next<'a>(
    alloc: Global,
    left: Operand<'a>,
    next: Next,
    room: u32,
) -> Result<Operand<'a>, SyntaxErr>
    requires { level_of_next next ≡ forms.level_of_form (form_of next) }
    ensures gives { Extends (form_of next) (expr_tree left.entry.expr.value) left.entry.height left.entry.level (leaves_of left.entry.rest.now) room result }
    ensures shorter { IfOk result (λ read. length read.rest.now < length left.entry.rest.now) }
{
    match next {
        Next::Member => read_member(alloc, left, room),
        Next::PointerMember => read_pointer_member(alloc, left, room),
        Next::PostIncrement => read_post_increment(alloc, left, room),
        Next::PostDecrement => read_post_decrement(alloc, left, room),
        Next::Call => {
            let below = room_behind(left.rest, 1, left.height, room)?;
            let open = pass(left.rest, Kind::OpenParenthesis)?;
            let arguments = read_arguments(alloc, open.rest, below)?;
            let close = pass(arguments.rest, Kind::CloseParenthesis)?;
            Ok(called(alloc, left, open.place, arguments, close.rest)?)
        }
        Next::Conditional => {
            let below = room_behind(left.rest, 2, left.height, room)?;
            let frame = Frame {
                first: Kind::Question,
                level: LOOSEST,
                last: Some(Kind::Colon),
            };
            let then = read_term(alloc, left.rest, frame, below)?;
            let otherwise = read_expr(alloc, then.rest, 14, below)?;
            Ok(conditional(alloc, left, then, otherwise)?)
        }
        Next::Joined(joining) => {
            let below = room_behind(left.rest, 2, left.height, room)?;
            let term = read_term(alloc, left.rest, joining_frame(joining), below)?;
            Ok(joined(alloc, left, joining, term)?)
        }
    }
}

/// Reads a token, an expression, and the token behind it, where the frame has one.
#[cycle(expr)]
fn read_term(
    alloc: Global,
    tokens: &[Token],
    frame: Frame,
    room: u32,
) -> Result<Term<'_>, SyntaxErr>
    ensures gives { GivesTerm frame room (leaves_of tokens.now) result }
    ensures shorter { IfOk result (λ term. length term.rest.now < length tokens.now) }
{
    let first = pass(tokens, frame.first)?;
    let value = read_expr(alloc, first.rest, frame.level, room)?;
    let rest = pass_last(value.rest, frame.last)?;
    Ok(Term {
        place: first.place,
        value: value.value,
        height: value.height,
        rest,
    })
}

/// Reads arguments, of which there may be none.
#[cycle(expr)]
fn read_arguments(
    alloc: Global,
    tokens: &[Token],
    room: u32,
) -> Result<Read<'_, Vec<Expr>>, SyntaxErr>
    ensures gives { IsReading (Whole forms.Arguments 0) room (leaves_of tokens.now) arguments_of (λ values. views.arguments_of values.items) result }
    ensures shorter { IfOk result (λ read. length read.rest.now ≤ length tokens.now) }
{
    let mut values = Vec::new(alloc);
    if !first_kind(tokens)?.begins_expr() {
        return Ok(Read {
            value: values,
            height: 0,
            rest: tokens,
        });
    }
    let first = read_expr(alloc, tokens, LOOSEST, room)?;
    values.push(Box::into_inner(first.value))?;
    let mut height = first.height;
    let mut rest = first.rest;
    while let Kind::Comma = first_kind(rest)? {
        let comma = pass(rest, Kind::Comma)?;
        let next = read_expr(alloc, comma.rest, LOOSEST, room)?;
        values.push(Box::into_inner(next.value))?;
        height = height.max(next.height);
        rest = next.rest;
    }
    Ok(Read {
        value: values,
        height,
        rest,
    })
}

/// Reads `(type) e`.
#[cycle(expr)]
fn read_cast(alloc: Global, tokens: &[Token], room: u32) -> Result<Operand<'_>, SyntaxErr>
    ensures gives { (level : ℕ) → Chooses level forms.Cast (leaves_of tokens.now) → GivesOperand level room (leaves_of tokens.now) result }
    ensures shorter { IfOk result (λ read. length read.rest.now < length tokens.now) }
{
    let below = room_below(tokens, 2, room)?;
    let named = read_enclosed_type(alloc, tokens, below)?;
    let operand = read_expr(alloc, named.rest, 3, below)?;
    Ok(cast(alloc, named, operand)?)
}

/// Reads `sizeof` and its operand.
#[cycle(expr)]
fn read_sizeof(alloc: Global, tokens: &[Token], room: u32) -> Result<Operand<'_>, SyntaxErr>
    ensures gives { (level : ℕ) → Chooses level forms.SizeofRow (leaves_of tokens.now) → GivesOperand level room (leaves_of tokens.now) result }
    ensures shorter { IfOk result (λ read. length read.rest.now < length tokens.now) }
{
    let below = room_below(tokens, 1, room)?;
    let word = pass(tokens, Kind::Sizeof)?;
    match sizeof_row(word.rest, below)? {
        SizeofRow::Type => {
            let named = read_enclosed_type(alloc, word.rest, below)?;
            Ok(sizeof_type(alloc, word.place, named)?)
        }
        SizeofRow::Expr => {
            let operand = read_expr(alloc, word.rest, 2, below)?;
            Ok(sizeof_expr(alloc, word.place, operand)?)
        }
    }
}

/// Reads `(type)`.
#[cycle(expr)]
fn read_enclosed_type(
    alloc: Global,
    tokens: &[Token],
    room: u32,
) -> Result<EnclosedType<'_>, SyntaxErr>
    ensures gives { GivesEnclosedType room (leaves_of tokens.now) result }
    ensures shorter { IfOk result (λ named. length named.rest.now < length tokens.now) }
{
    let open = pass(tokens, Kind::OpenParenthesis)?;
    let named = read_type(alloc, open.rest, false, room)?;
    let type_name = Box::new(alloc, named.value)?;
    let close = pass(named.rest, Kind::CloseParenthesis)?;
    Ok(EnclosedType {
        place: open.place,
        type_name,
        height: named.height,
        rest: close.rest,
    })
}
