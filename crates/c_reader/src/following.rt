// What goes on behind an expression and has no expression of its own.

ghost use Rattle.std.specs.Prelude.{◌+◌, ◌<◌, ℕ, length, IfOk};
ghost use Rattle.c_grammar.specs.Forms as forms;
ghost use Rattle.c_reader.specs.ExpressionSteps.{ExtendsOperand};

use crate::name::pass_name;
use crate::operand::{Operand, boxed};
use crate::syntax_err::SyntaxErr;
use crate::token::{pass, room_behind};
use c_grammar::{Kind, Token};
use c_syntax::Expr;
use std::alloc::Global;

/// Reads `.` and the name of a member.
pub(crate) fn read_member<'a>(
    alloc: Global,
    left: Operand<'a>,
    room: u32,
) -> Result<Operand<'a>, SyntaxErr>
    ensures gives { ExtendsOperand forms.Member left.entry room result }
    ensures shorter { IfOk result (λ read. length read.rest.now < length left.entry.rest.now) }
{
    room_behind(left.rest, 1, left.height, room)?;
    let operator = pass(left.rest, Kind::Dot)?;
    let member = pass_name(alloc, operator.rest)?;
    let expr = Expr::Member {
        object: left.expr,
        member: member.name,
    };
    Ok(Operand {
        expr: boxed(alloc, expr)?,
        level: 1,
        height: left.height + 1,
        rest: member.rest,
    })
}

/// Reads `->` and the name of a member.
pub(crate) fn read_pointer_member<'a>(
    alloc: Global,
    left: Operand<'a>,
    room: u32,
) -> Result<Operand<'a>, SyntaxErr>
    ensures gives { ExtendsOperand forms.PointerMember left.entry room result }
    ensures shorter { IfOk result (λ read. length read.rest.now < length left.entry.rest.now) }
{
    room_behind(left.rest, 1, left.height, room)?;
    let operator = pass(left.rest, Kind::Arrow)?;
    let member = pass_name(alloc, operator.rest)?;
    let expr = Expr::PointerMember {
        pointer: left.expr,
        member: member.name,
    };
    Ok(Operand {
        expr: boxed(alloc, expr)?,
        level: 1,
        height: left.height + 1,
        rest: member.rest,
    })
}

/// Reads `++` behind its operand.
pub(crate) fn read_post_increment<'a>(
    alloc: Global,
    left: Operand<'a>,
    room: u32,
) -> Result<Operand<'a>, SyntaxErr>
    ensures gives { ExtendsOperand forms.PostIncrement left.entry room result }
    ensures shorter { IfOk result (λ read. length read.rest.now < length left.entry.rest.now) }
{
    room_behind(left.rest, 1, left.height, room)?;
    let operator = pass(left.rest, Kind::PlusPlus)?;
    let expr = Expr::PostIncrement { operand: left.expr };
    Ok(Operand {
        expr: boxed(alloc, expr)?,
        level: 1,
        height: left.height + 1,
        rest: operator.rest,
    })
}

/// Reads `--` behind its operand.
pub(crate) fn read_post_decrement<'a>(
    alloc: Global,
    left: Operand<'a>,
    room: u32,
) -> Result<Operand<'a>, SyntaxErr>
    ensures gives { ExtendsOperand forms.PostDecrement left.entry room result }
    ensures shorter { IfOk result (λ read. length read.rest.now < length left.entry.rest.now) }
{
    room_behind(left.rest, 1, left.height, room)?;
    let operator = pass(left.rest, Kind::MinusMinus)?;
    let expr = Expr::PostDecrement { operand: left.expr };
    Ok(Operand {
        expr: boxed(alloc, expr)?,
        level: 1,
        height: left.height + 1,
        rest: operator.rest,
    })
}
