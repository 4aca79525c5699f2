// What stands before or behind an operand: a token, an expression, and perhaps a token behind that.

ghost use Rattle.std.specs.Prelude.{◌≡◌, ℕ, ◌+◌, ◌<◌, ◌≤◌, max, List, [], length, IfOk, IfErr};
ghost use Rattle.c_grammar.specs.Forms as forms;
ghost use Rattle.c_grammar.specs.Leaves.{leaves_of};
ghost use Rattle.c_syntax.specs.Trees as trees;
ghost use Rattle.c_syntax.specs.Views.{expr_tree, type_tree};
ghost use Rattle.c_syntax.specs.Views as views;
ghost use Rattle.c_reader.specs.Choices.{wrapped_form, joined_form, level_of_joined};
ghost use Rattle.c_reader.specs.ExpressionSteps.{expr_in, operand_tree};
ghost use Rattle.c_reader.specs.Terms.{frame_symbols, wrapped_tree, joined_tree, chosen_tree, called_tree, Closes, FailsToClose};

use crate::choice::{Joining, Wrapping, assign_operator, binary_operator, prefix_operator};
use crate::operand::{Operand, boxed};
use crate::syntax_err::SyntaxErr;
use crate::token::{Read, pass};
use c_grammar::{Kind, Token};
use c_syntax::{Expr, TypeName};
use run_theory::Pos;
use std::alloc::{AllocError, Global};

/// How loosely any expression binds.
pub const LOOSEST: u32 = 15;

/// A token, how loosely the expression behind it may bind, and the token that has to stand behind that.
#[derive(Clone, Copy)]
pub(crate) struct Frame {
    pub(crate) first: Kind,
    pub(crate) level: u32,
    pub(crate) last: Option<Kind>,
}

/// What was read in a frame: the place of its first token, the expression, how many nodes lie on that one's longest
/// path, and the tokens behind the frame.
#[derive(Drop)]
pub(crate) struct Term<'a> {
    pub(crate) place: Pos,
    pub(crate) value: Box<Expr>,
    pub(crate) height: u32,
    pub(crate) rest: &'a [Token],
}

/// The name of a type in parentheses: the place of the first of these, the type, how many nodes lie on its longest path,
/// and the tokens behind it all.
#[derive(Drop)]
pub(crate) struct EnclosedType<'a> {
    pub(crate) place: Pos,
    pub(crate) type_name: Box<TypeName>,
    pub(crate) height: u32,
    pub(crate) rest: &'a [Token],
}

/// What stands before an operand, with it.
pub(crate) fn wrapping_frame(wrapping: Wrapping) -> Frame
    ensures { frame_symbols result [] ≡ forms.symbols_of (wrapped_form wrapping) }
{
    match wrapping {
        Wrapping::Parenthesis => {
            Frame {
                first: Kind::OpenParenthesis,
                level: LOOSEST,
                last: Some(Kind::CloseParenthesis),
            }
        }
        Wrapping::Prefix { kind, operand } => {
            Frame {
                first: kind,
                level: operand,
                last: None,
            }
        }
    }
}

/// What stands between two operands, with the second one.
pub(crate) fn joining_frame(joining: Joining) -> Frame
    ensures { frame_symbols result [] ≡ forms.symbols_of (joined_form joining) }
{
    match joining {
        Joining::Index => {
            Frame {
                first: Kind::OpenBracket,
                level: LOOSEST,
                last: Some(Kind::CloseBracket),
            }
        }
        Joining::Assign(kind) => {
            Frame {
                first: kind,
                level: LOOSEST,
                last: None,
            }
        }
        Joining::Binary { kind, right, .. } => {
            Frame {
                first: kind,
                level: right,
                last: None,
            }
        }
    }
}

/// Passes the token that has to stand behind the expression of a frame, where it has one.
pub(crate) fn pass_last(tokens: &[Token], last: Option<Kind>) -> Result<&[Token], SyntaxErr>
    ensures closes { IfOk result (λ rest. Closes last (leaves_of tokens.now) (leaves_of rest.now)) }
    ensures shorter { IfOk result (λ rest. length rest.now ≤ length tokens.now) }
    ensures fails { IfErr result (FailsToClose last (leaves_of tokens.now)) }
{
    match last {
        Some(kind) => Ok(pass(tokens, kind)?.rest),
        None => Ok(tokens),
    }
}

/// An operand with what stands before it.
pub(crate) fn wrapped(
    alloc: Global,
    wrapping: Wrapping,
    term: Term<'_>,
) -> Result<Operand<'_>, AllocError>
    requires { term.height < 4294967295 }
    ensures tree { IfOk result (λ operand. operand_tree operand ≡ wrapped_tree wrapping term.entry.place (expr_in term.entry.value)) }
    ensures level { IfOk result (λ operand. operand.level ≡ forms.level_of_form (wrapped_form wrapping)) }
    ensures height { IfOk result (λ operand. operand.height ≡ term.entry.height + 1) }
    ensures rest { IfOk result (λ operand. operand.rest.now ≡ term.entry.rest.now) }
{
    let height = term.height + 1;
    let rest = term.rest;
    let expr = wrapped_expr(wrapping, term.place, term.value);
    Ok(Operand {
        expr: boxed(alloc, expr)?,
        level: wrapped_level(wrapping),
        height,
        rest,
    })
}

/// An expression with what stands before it at a place.
fn wrapped_expr(wrapping: Wrapping, place: Pos, operand: Box<Expr>) -> Expr
    ensures { expr_tree result ≡ wrapped_tree wrapping place (expr_tree operand.value) }
{
    match wrapping {
        Wrapping::Parenthesis => {
            Expr::Parenthesized {
                place,
                inner: operand,
            }
        }
        Wrapping::Prefix { kind, .. } => {
            Expr::Prefix {
                operator: prefix_operator(kind),
                place,
                operand,
            }
        }
    }
}

/// How loosely an operand binds with what stands before it.
fn wrapped_level(wrapping: Wrapping) -> u32
    ensures { result ≡ forms.level_of_form (wrapped_form wrapping) }
{
    match wrapping {
        Wrapping::Parenthesis => 0,
        Wrapping::Prefix { .. } => 2,
    }
}

/// Two operands with what stands between them.
pub(crate) fn joined<'a>(
    alloc: Global,
    left: Operand<'_>,
    joining: Joining,
    term: Term<'a>,
) -> Result<Operand<'a>, AllocError>
    requires left_fits { left.height < 4294967295 }
    requires right_fits { term.height < 4294967295 }
    ensures tree { IfOk result (λ operand. operand_tree operand ≡ joined_tree joining (operand_tree left.entry) (expr_in term.entry.value)) }
    ensures level { IfOk result (λ operand. operand.level ≡ level_of_joined joining) }
    ensures height { IfOk result (λ operand. operand.height ≡ max left.entry.height term.entry.height + 1) }
    ensures rest { IfOk result (λ operand. operand.rest.now ≡ term.entry.rest.now) }
{
    let height = left.height.max(term.height) + 1;
    let rest = term.rest;
    let expr = joined_expr(joining, left.expr, term.value);
    Ok(Operand {
        expr: boxed(alloc, expr)?,
        level: joined_level(joining),
        height,
        rest,
    })
}

/// Two expressions with what stands between them.
fn joined_expr(joining: Joining, left: Box<Expr>, right: Box<Expr>) -> Expr
    ensures { expr_tree result ≡ joined_tree joining (expr_tree left.value) (expr_tree right.value) }
{
    match joining {
        Joining::Index => {
            Expr::Index {
                array: left,
                index: right,
            }
        }
        Joining::Assign(kind) => {
            Expr::Assign {
                operator: assign_operator(kind),
                object: left,
                value: right,
            }
        }
        Joining::Binary { kind, .. } => {
            Expr::Binary {
                operator: binary_operator(kind),
                left,
                right,
            }
        }
    }
}

/// How loosely two operands bind with what stands between them.
fn joined_level(joining: Joining) -> u32
    ensures { result ≡ level_of_joined joining }
{
    match joining {
        Joining::Index => 1,
        Joining::Assign(_) => 15,
        Joining::Binary { level, .. } => level,
    }
}

/// `c ? t : e`.
pub(crate) fn conditional<'a>(
    alloc: Global,
    condition: Operand<'_>,
    then: Term<'_>,
    otherwise: Read<'a, Box<Expr>>,
) -> Result<Operand<'a>, AllocError>
    requires condition_fits { condition.height < 4294967295 }
    requires then_fits { then.height < 4294967295 }
    requires otherwise_fits { otherwise.height < 4294967295 }
    ensures tree { IfOk result (λ operand. operand_tree operand ≡ chosen_tree condition.entry then.entry otherwise.entry) }
    ensures level { IfOk result (λ operand. operand.level ≡ 14) }
    ensures height { IfOk result (λ operand. operand.height ≡ max (max condition.entry.height then.entry.height) otherwise.entry.height + 1) }
    ensures rest { IfOk result (λ operand. operand.rest.now ≡ otherwise.entry.rest.now) }
{
    let height = condition.height.max(then.height).max(otherwise.height) + 1;
    let rest = otherwise.rest;
    let expr = Expr::Conditional {
        condition: condition.expr,
        then: then.value,
        otherwise: otherwise.value,
    };
    Ok(Operand {
        expr: boxed(alloc, expr)?,
        level: 14,
        height,
        rest,
    })
}

/// A call of a function with its arguments, which stand in parentheses the first of which is at a place.
pub(crate) fn called<'a>(
    alloc: Global,
    function: Operand<'_>,
    opening: Pos,
    arguments: Read<'_, Vec<Expr>>,
    rest: &'a [Token],
) -> Result<Operand<'a>, AllocError>
    requires function_fits { function.height < 4294967295 }
    requires arguments_fit { arguments.height < 4294967295 }
    ensures tree { IfOk result (λ operand. operand_tree operand ≡ called_tree function.entry opening arguments.entry) }
    ensures level { IfOk result (λ operand. operand.level ≡ 1) }
    ensures height { IfOk result (λ operand. operand.height ≡ max function.entry.height arguments.entry.height + 1) }
    ensures rest { IfOk result (λ operand. operand.rest.now ≡ rest.now) }
{
    let height = function.height.max(arguments.height) + 1;
    let expr = Expr::Call {
        function: function.expr,
        open: opening,
        arguments: arguments.value,
    };
    Ok(Operand {
        expr: boxed(alloc, expr)?,
        level: 1,
        height,
        rest,
    })
}

/// `(type) e`.
pub(crate) fn cast<'a>(
    alloc: Global,
    named: EnclosedType<'_>,
    operand: Read<'a, Box<Expr>>,
) -> Result<Operand<'a>, AllocError>
    requires type_fits { named.height < 4294967295 }
    requires operand_fits { operand.height < 4294967295 }
    ensures tree { IfOk result (λ cast.
        operand_tree cast ≡ trees.Cast named.entry.place (type_tree named.entry.type_name.value) (expr_in operand.entry.value)) }
    ensures level { IfOk result (λ cast. cast.level ≡ 3) }
    ensures height { IfOk result (λ cast. cast.height ≡ max named.entry.height operand.entry.height + 1) }
    ensures rest { IfOk result (λ cast. cast.rest.now ≡ operand.entry.rest.now) }
{
    let height = named.height.max(operand.height) + 1;
    let expr = Expr::Cast {
        place: named.place,
        type_name: named.type_name,
        operand: operand.value,
    };
    Ok(Operand {
        expr: boxed(alloc, expr)?,
        level: 3,
        height,
        rest: operand.rest,
    })
}

/// `sizeof (type)`, where `sizeof` stands at a place.
pub(crate) fn sizeof_type<'a>(
    alloc: Global,
    place: Pos,
    named: EnclosedType<'a>,
) -> Result<Operand<'a>, AllocError>
    requires { named.height < 4294967295 }
    ensures tree { IfOk result (λ operand. operand_tree operand ≡ trees.SizeofType place (type_tree named.entry.type_name.value)) }
    ensures level { IfOk result (λ operand. operand.level ≡ 2) }
    ensures height { IfOk result (λ operand. operand.height ≡ named.entry.height + 1) }
    ensures rest { IfOk result (λ operand. operand.rest.now ≡ named.entry.rest.now) }
{
    let expr = Expr::SizeofType {
        place,
        type_name: named.type_name,
    };
    Ok(Operand {
        expr: boxed(alloc, expr)?,
        level: 2,
        height: named.height + 1,
        rest: named.rest,
    })
}

/// `sizeof e`, where `sizeof` stands at a place.
pub(crate) fn sizeof_expr<'a>(
    alloc: Global,
    place: Pos,
    operand: Read<'a, Box<Expr>>,
) -> Result<Operand<'a>, AllocError>
    requires { operand.height < 4294967295 }
    ensures tree { IfOk result (λ sizeof. expr_tree sizeof.expr.value ≡ trees.SizeofExpr place (expr_in operand.entry.value)) }
    ensures level { IfOk result (λ sizeof. sizeof.level ≡ 2) }
    ensures height { IfOk result (λ sizeof. sizeof.height ≡ operand.entry.height + 1) }
    ensures rest { IfOk result (λ sizeof. sizeof.rest.now ≡ operand.entry.rest.now) }
{
    let expr = Expr::SizeofExpr {
        place,
        operand: operand.value,
    };
    Ok(Operand {
        expr: boxed(alloc, expr)?,
        level: 2,
        height: operand.height + 1,
        rest: operand.rest,
    })
}
