// What operators give of parts that may not be known.

ghost use Rattle.std.specs.Prelude.{◌≡◌, IfOk};
ghost use Rattle.c_syntax.specs.Views.{name_tree};
ghost use Rattle.c_typed.specs.Table.{Interned, Stands};
ghost use Rattle.c_rules.specs.Operators as rules;
ghost use Rattle.c_types_state.specs.Finding.{IsExpr, ExprStands, expr_in, AllStand, each_in};
ghost use Rattle.c_types_state.specs.NameTables.{scope_of};
ghost use Rattle.c_types_state.specs.Operands.{OperandStands, operand_in, TargetStands};
ghost use Rattle.c_types_expressions.specs.Arguments.{ArgumentsStand, arguments_in};
ghost use Rattle.c_types_expressions.specs.Calls.{call_rule_on};
ghost use Rattle.c_types_expressions.specs.Forms.{size_rule, ConditionStands};
ghost use Rattle.c_types_expressions.specs.Parts.{OfType, OfExpr, OfOperand, OfOperands, OfCast, OfChoice, OfTarget};

use crate::assignments::assignment;
use crate::binary::{choice, combined};
use crate::calls::{Argument, call};
use crate::casts::cast_to;
use crate::members::{object_member, pointer_member};
use crate::pointers::indexed;
use crate::unary::{postfixed, size_of};
use c_num::BinOp;
use c_syntax::{BinaryOperator, Name};
use c_typed::{CType, Stepping};
use c_types_state::{Checker, Condition, Known, Operand, Target, TypedExpr};
use run_theory::Pos;
use std::alloc::AllocError;

/// An operand as an expression.
fn into_known(operand: Option<Operand>) -> Option<Known>
    ensures stands { (table : Interned) → AllStand OperandStands table operand → AllStand ExprStands table result }
    ensures known { (table : Interned) → each_in expr_in table result ≡ each_in operand_in table operand }
{
    match operand {
        Some(
            Operand {
                c_type,
                value,
                constness,
                is_null,
                address,
            },
        ) => Some(Known {
            c_type,
            typed: TypedExpr::Value(value),
            constness,
            is_null,
            address,
        }),
        None => None,
    }
}

/// `a[i]` (C17 6.5.2.1)
pub(crate) fn element_of(
    checker: &mut Checker,
    left_place: Pos,
    right_place: Pos,
    left: Option<Operand>,
    right: Option<Operand>,
) -> Result<Option<Known>, AllocError>
    requires left { AllStand OperandStands checker.old.table left }
    requires right { AllStand OperandStands checker.old.table right }
    ensures { IfOk result (OfOperands (rules.indexed (scope_of checker.old) left_place right_place) left right checker.old checker.new) }
{
    match (left, right) {
        (Some(left), Some(right)) => indexed(checker, left_place, right_place, left, right),
        _ => Ok(None),
    }
}

/// `a.m` (C17 6.5.2.3)
pub(crate) fn member_of(
    checker: &mut Checker,
    whole: Pos,
    member: &Name,
    object: Option<Known>,
) -> Result<Option<Known>, AllocError>
    requires { AllStand ExprStands checker.old.table object }
    ensures { IfOk result (OfExpr (rules.object_member (scope_of checker.old) whole (name_tree member.now)) object checker.old checker.new) }
{
    match object {
        Some(object) => object_member(checker, whole, member, object),
        None => Ok(None),
    }
}

/// `p->m` (C17 6.5.2.3)
pub(crate) fn pointed_member_of(
    checker: &mut Checker,
    whole: Pos,
    member: &Name,
    pointer: Option<Operand>,
) -> Result<Option<Known>, AllocError>
    requires { AllStand OperandStands checker.old.table pointer }
    ensures { IfOk result (OfOperand (rules.pointer_member (scope_of checker.old) whole (name_tree member.now)) pointer checker.old checker.new) }
{
    match pointer {
        Some(pointer) => pointer_member(checker, whole, member, pointer),
        None => Ok(None),
    }
}

/// `a++` or `a--` (C17 6.5.2.4)
pub(crate) fn stepped(
    checker: &mut Checker,
    stepping: Stepping,
    place: Pos,
    object: Option<Known>,
) -> Result<Option<Known>, AllocError>
    requires { AllStand ExprStands checker.old.table object }
    ensures { IfOk result (OfExpr (rules.stepped (scope_of checker.old) stepping place place) object checker.old checker.new) }
{
    Ok(into_known(postfixed(checker, stepping, place, place, object)?))
}

/// `sizeof e` (C17 6.5.3.4)
pub(crate) fn size_of_expr(
    checker: &mut Checker,
    place: Pos,
    operand: Option<Known>,
) -> Result<Option<Known>, AllocError>
    requires { AllStand ExprStands checker.old.table operand }
    ensures { IfOk result (OfExpr (size_rule (scope_of checker.old) place) operand checker.old checker.new) }
{
    match operand {
        Some(operand) => Ok(into_known(size_of(checker, place, operand.c_type)?)),
        None => Ok(None),
    }
}

/// `sizeof (type)` (C17 6.5.3.4)
pub(crate) fn size_of_type(
    checker: &mut Checker,
    place: Pos,
    c_type: Option<CType>,
) -> Result<Option<Known>, AllocError>
    requires { AllStand Stands checker.old.table c_type }
    ensures { IfOk result (OfType IsExpr (rules.size_of (scope_of checker.old) place) c_type checker.old checker.new) }
{
    match c_type {
        Some(c_type) => Ok(into_known(size_of(checker, place, c_type)?)),
        None => Ok(None),
    }
}

/// `(type) e` (C17 6.5.4)
pub(crate) fn cast_of(
    checker: &mut Checker,
    whole: Pos,
    c_type: Option<CType>,
    operand: Option<Operand>,
) -> Result<Option<Known>, AllocError>
    requires c_type { AllStand Stands checker.old.table c_type }
    requires operand { AllStand OperandStands checker.old.table operand }
    ensures { IfOk result (OfCast (rules.cast_to (scope_of checker.old) whole) c_type operand checker.old checker.new) }
{
    match (c_type, operand) {
        (Some(c_type), Some(operand)) => {
            Ok(into_known(cast_to(checker, whole, c_type, operand)?))
        }
        _ => Ok(None),
    }
}

/// An operator between two operands.
pub(crate) fn combination_of(
    checker: &mut Checker,
    operator: BinaryOperator,
    whole: Pos,
    right_place: Pos,
    left: Option<Operand>,
    right: Option<Operand>,
) -> Result<Option<Known>, AllocError>
    requires left { AllStand OperandStands checker.old.table left }
    requires right { AllStand OperandStands checker.old.table right }
    ensures { IfOk result (OfOperands (rules.combined (scope_of checker.old) operator whole right_place) left right checker.old checker.new) }
{
    match (left, right) {
        (Some(left), Some(right)) => Ok(into_known(combined(
            checker,
            operator,
            whole,
            right_place,
            left,
            right,
        )?)),
        _ => Ok(None),
    }
}

/// `c ? a : b` (C17 6.5.15)
pub(crate) fn choice_of(
    checker: &mut Checker,
    whole: Pos,
    condition: Option<Condition>,
    then: Option<Operand>,
    otherwise: Option<Operand>,
) -> Result<Option<Known>, AllocError>
    requires condition { AllStand ConditionStands checker.old.table condition }
    requires then { AllStand OperandStands checker.old.table then }
    requires otherwise { AllStand OperandStands checker.old.table otherwise }
    ensures { IfOk result (OfChoice (rules.choice whole) condition then otherwise checker.old checker.new) }
{
    match (condition, then, otherwise) {
        (Some(condition), Some(then), Some(otherwise)) => {
            Ok(into_known(choice(checker, whole, condition, then, otherwise)?))
        }
        _ => Ok(None),
    }
}

/// An assignment (C17 6.5.16).
pub(crate) fn assignment_of(
    checker: &mut Checker,
    operator: Option<BinOp>,
    whole: Pos,
    value_place: Pos,
    target: Option<Target>,
    operand: Option<Operand>,
) -> Result<Option<Known>, AllocError>
    requires target { AllStand TargetStands checker.old.table target }
    requires operand { AllStand OperandStands checker.old.table operand }
    ensures { IfOk result (OfTarget (rules.assignment operator whole value_place) target operand checker.old checker.new) }
{
    match (target, operand) {
        (Some(target), Some(operand)) => Ok(into_known(assignment(
            checker,
            operator,
            whole,
            value_place,
            target,
            operand,
        )?)),
        _ => Ok(None),
    }
}

/// A call (C17 6.5.2.2).
pub(crate) fn call_of(
    checker: &mut Checker,
    whole: Pos,
    function: Option<Known>,
    arguments: Vec<Argument>,
) -> Result<Option<Known>, AllocError>
    requires function { AllStand ExprStands checker.old.table function }
    requires arguments { ArgumentsStand checker.old.table arguments.items }
    ensures { IfOk result (OfExpr (call_rule_on whole (arguments_in checker.old.table arguments.items)) function checker.old checker.new) }
{
    Ok(into_known(call(checker, whole, function, arguments)?))
}
