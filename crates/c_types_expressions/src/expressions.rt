// Expressions (C17 6.5).

ghost use Rattle.std.specs.Prelude.{IfOk};
ghost use Rattle.c_syntax.specs.Trees as Trees;
ghost use Rattle.c_syntax.specs.Views.{expr_tree, arguments_of, type_tree};
ghost use Rattle.c_types_state.specs.NameTables.{scope_of};
ghost use Rattle.c_types_expressions.specs.Forms.{FindsLibrary};
ghost use Rattle.c_types_expressions.specs.Parts.{PassesExpr, PassesCall, PassesArguments};

use crate::assignments::{assigned_object, assigned_value, operator_of};
use crate::binary::operand;
use crate::calls::{Argument, library};
use crate::constants::{constant, grouped, literal, null};
use crate::declarators::type_named;
use crate::forms::{
    assignment_of, call_of, cast_of, choice_of, combination_of, element_of, member_of,
    pointed_member_of, size_of_expr, size_of_type, stepped,
};
use crate::names::named;
use crate::pass::Pass;
use crate::place::place_of;
use crate::unary::prefixed;
use c_num::{IntType, convert};
use c_syntax::{AssignOperator, BinaryOperator, Expr, TypeName};
use c_typed::Stepping;
use c_types_state::{Checker, Known, NameMeaning, as_condition, as_value};
use run_theory::Pos;
use std::alloc::AllocError;

/// An expression: what is known of it, where it violates nothing that is needed for that.
#[cycle(expr)]
pub fn expr(pass: &mut Pass, tree: &Expr) -> Result<Option<Known>, AllocError>
    ensures { IfOk result (PassesExpr (expr_tree tree.now) pass.old pass.new) }
{
    match tree {
        Expr::Named(name) => named(&mut pass.checker, name),
        Expr::Integer {
            value,
            int_type,
            ..
        } => {
            let value = convert(i128::from(*value), *int_type);
            Ok(Some(constant(pass.alloc(), *int_type, value)?))
        }
        Expr::Character { byte, .. } => {
            let value = convert(i128::from(*byte), IntType::Char);
            Ok(Some(constant(pass.alloc(), IntType::Int, value)?))
        }
        Expr::Literal { bytes, place } => {
            Ok(Some(literal(&mut pass.checker, bytes.as_slice(), *place)?))
        }
        Expr::Null { .. } => Ok(Some(null(&mut pass.checker)?)),
        Expr::EndOfFile { .. } => Ok(Some(constant(pass.alloc(), IntType::Int, -1)?)),
        Expr::Parenthesized { inner, .. } => {
            let part = expr(pass, inner)?;
            grouped(pass.alloc(), place_of(inner), part)
        }
        Expr::Index { array, index } => index_expr(pass, array, index),
        Expr::Call {
            function,
            arguments,
            ..
        } => call_expr(pass, function, arguments.as_slice()),
        Expr::Member { object, member } => {
            let part = expr(pass, object)?;
            member_of(&mut pass.checker, place_of(object), member, part)
        }
        Expr::PointerMember { pointer, member } => {
            let place = place_of(pointer);
            let part = expr(pass, pointer)?;
            let pointer = as_value(&mut pass.checker, place, part)?;
            pointed_member_of(&mut pass.checker, place, member, pointer)
        }
        Expr::PostIncrement { operand } => {
            let part = expr(pass, operand)?;
            stepped(
                &mut pass.checker,
                Stepping::PostIncrement,
                place_of(operand),
                part,
            )
        }
        Expr::PostDecrement { operand } => {
            let part = expr(pass, operand)?;
            stepped(
                &mut pass.checker,
                Stepping::PostDecrement,
                place_of(operand),
                part,
            )
        }
        Expr::Prefix {
            operator,
            place,
            operand,
        } => {
            let part = expr(pass, operand)?;
            prefixed(
                &mut pass.checker,
                *operator,
                *place,
                place_of(operand),
                part,
            )
        }
        Expr::SizeofExpr { place, operand } => {
            let part = expr(pass, operand)?;
            size_of_expr(&mut pass.checker, *place, part)
        }
        Expr::SizeofType { type_name, .. } => {
            let c_type = type_named(pass, type_name)?;
            size_of_type(&mut pass.checker, type_name.simple.place, c_type)
        }
        Expr::Cast {
            place,
            type_name,
            operand,
        } => cast_expr(pass, *place, type_name, operand),
        Expr::Binary {
            operator,
            left,
            right,
        } => binary_expr(pass, *operator, left, right),
        Expr::Conditional {
            condition,
            then,
            otherwise,
        } => conditional_expr(pass, condition, then, otherwise),
        Expr::Assign {
            operator,
            object,
            value,
        } => assign_expr(pass, *operator, object, value),
    }
}

/// `a[i]` (C17 6.5.2.1)
#[cycle(expr)]
fn index_expr(pass: &mut Pass, array: &Expr, index: &Expr) -> Result<Option<Known>, AllocError>
    ensures { IfOk result (PassesExpr (Trees.Index (expr_tree array.now) (expr_tree index.now)) pass.old pass.new) }
{
    let left_place = place_of(array);
    let right_place = place_of(index);
    let part = expr(pass, array)?;
    let left = as_value(&mut pass.checker, left_place, part)?;
    let part = expr(pass, index)?;
    let right = as_value(&mut pass.checker, right_place, part)?;
    element_of(&mut pass.checker, left_place, right_place, left, right)
}

/// A call (C17 6.5.2.2): its arguments come first.
#[cycle(expr)]
fn call_expr(
    pass: &mut Pass,
    function: &Expr,
    arguments: &[Expr],
) -> Result<Option<Known>, AllocError>
    ensures { IfOk result (PassesCall (expr_tree function.now) (arguments_of arguments.now) pass.old pass.new) }
{
    let values = argument_values(pass, arguments)?;
    let known = match library_called(&mut pass.checker, function)? {
        Some(known) => Some(known),
        None => expr(pass, function)?,
    };
    call_of(&mut pass.checker, place_of(function), known, values)
}

/// The values of arguments, in their order.
#[cycle(expr)]
fn argument_values(pass: &mut Pass, arguments: &[Expr]) -> Result<Vec<Argument>, AllocError>
    ensures { IfOk result (PassesArguments (arguments_of arguments.now) pass.old pass.new) }
{
    let mut values = Vec::new(pass.alloc());
    for argument in arguments {
        let place = place_of(argument);
        let part = expr(pass, argument)?;
        let value = as_value(&mut pass.checker, place, part)?;
        values.push(Argument { place, value })?;
    }
    Ok(values)
}

/// A library function that is called by its name, which may stand in parentheses.
fn library_called(checker: &mut Checker, function: &Expr) -> Result<Option<Known>, AllocError>
    ensures { IfOk result (FindsLibrary (scope_of checker.old) (expr_tree function.now) checker.old checker.new) }
{
    let mut function = function;
    let mut groups = 0usize;
    while let Expr::Parenthesized { inner, .. } = function {
        function = inner;
        groups = groups.checked_add(1).ok_or(AllocError)?;
    }
    let Expr::Named(name) = function else {
        return Ok(None);
    };
    match checker.meaning(name.bytes.as_slice()) {
        NameMeaning::Library(called) => Ok(Some(library(checker, called, groups)?)),
        _ => Ok(None),
    }
}

/// `(type) e` (C17 6.5.4)
#[cycle(expr)]
fn cast_expr(
    pass: &mut Pass,
    place: Pos,
    type_name: &TypeName,
    operand: &Expr,
) -> Result<Option<Known>, AllocError>
    ensures { IfOk result (PassesExpr (Trees.Cast place (type_tree type_name.now) (expr_tree operand.now)) pass.old pass.new) }
{
    let operand_place = place_of(operand);
    let c_type = type_named(pass, type_name)?;
    let part = expr(pass, operand)?;
    let value = as_value(&mut pass.checker, operand_place, part)?;
    cast_of(&mut pass.checker, place, c_type, value)
}

/// An operator between two operands.
#[cycle(expr)]
fn binary_expr(
    pass: &mut Pass,
    operator: BinaryOperator,
    left: &Expr,
    right: &Expr,
) -> Result<Option<Known>, AllocError>
    ensures { IfOk result (PassesExpr (Trees.Binary operator (expr_tree left.now) (expr_tree right.now)) pass.old pass.new) }
{
    let place = place_of(left);
    let right_place = place_of(right);
    let part = expr(pass, left)?;
    let a = operand(&mut pass.checker, operator, place, part)?;
    let part = expr(pass, right)?;
    let b = operand(&mut pass.checker, operator, right_place, part)?;
    combination_of(&mut pass.checker, operator, place, right_place, a, b)
}

/// `c ? a : b` (C17 6.5.15)
#[cycle(expr)]
fn conditional_expr(
    pass: &mut Pass,
    condition: &Expr,
    then: &Expr,
    otherwise: &Expr,
) -> Result<Option<Known>, AllocError>
    ensures { IfOk result (PassesExpr (Trees.Conditional (expr_tree condition.now) (expr_tree then.now) (expr_tree otherwise.now)) pass.old pass.new) }
{
    let whole = place_of(condition);
    let then_place = place_of(then);
    let otherwise_place = place_of(otherwise);
    let part = expr(pass, condition)?;
    let tested = as_condition(&mut pass.checker, whole, part)?;
    let part = expr(pass, then)?;
    let a = as_value(&mut pass.checker, then_place, part)?;
    let part = expr(pass, otherwise)?;
    let b = as_value(&mut pass.checker, otherwise_place, part)?;
    choice_of(&mut pass.checker, whole, tested, a, b)
}

/// An assignment (C17 6.5.16).
#[cycle(expr)]
fn assign_expr(
    pass: &mut Pass,
    operator: AssignOperator,
    object: &Expr,
    value: &Expr,
) -> Result<Option<Known>, AllocError>
    ensures { IfOk result (PassesExpr (Trees.Assign operator (expr_tree object.now) (expr_tree value.now)) pass.old pass.new) }
{
    let op = operator_of(operator);
    let place = place_of(object);
    let value_place = place_of(value);
    let part = expr(pass, object)?;
    let target = assigned_object(&mut pass.checker, op, place, part)?;
    let part = expr(pass, value)?;
    let assigned = assigned_value(&mut pass.checker, op, value_place, part)?;
    assignment_of(&mut pass.checker, op, place, value_place, target, assigned)
}
