// Assignments (C17 6.5.16).

ghost use Rattle.std.specs.Prelude.{◌≡◌, None, IfOk};
ghost use Rattle.c_typed.specs.Table.{Interned};
ghost use Rattle.c_typed.specs.Typed as typed;
ghost use Rattle.c_typed.specs.Views.{value_in, ValueStands};
ghost use Rattle.c_rules.specs.Known.{with_known};
ghost use Rattle.c_rules.specs.Operators as rules;
ghost use Rattle.c_types_state.specs.Finding.{Finds, ExprStands, expr_in, AllStand, each_in};
ghost use Rattle.c_types_state.specs.NameTables.{scope_of};
ghost use Rattle.c_types_state.specs.Operands.{IsOperand, OperandStands, IsTarget, TargetStands, target_in};
ghost use Rattle.c_types_expressions.specs.Assignments.{assigned_object_rule, assigned_value_rule, compound_in};
ghost use Rattle.c_types_state.specs.Promises.{FindsOfPart, FindsOfOne, MakesValue};

use c_num::{BinOp, IntType, common, promote};
use c_rules::TypeRule;
use c_syntax::AssignOperator;
use c_typed::{Shape, Value};
use c_types_state::types::{int_type_of, is_integer, is_pointer, is_pointer_to_complete};
use c_types_state::{
    Checker, Known, Operand, Target, as_integer, as_value, converted, fits, integer_as, modifiable,
    promoted_value,
};
use run_theory::Pos;
use std::alloc::{AllocError, Global};

/// The operator of a compound assignment, that works between the old value and the right operand, where there is one.
pub fn operator_of(operator: AssignOperator) -> Option<BinOp>
    ensures { result ≡ rules.operator_of operator }
{
    match operator {
        AssignOperator::Assign => None,
        AssignOperator::Multiply => Some(BinOp::Mul),
        AssignOperator::Divide => Some(BinOp::Div),
        AssignOperator::Remainder => Some(BinOp::Rem),
        AssignOperator::Add => Some(BinOp::Add),
        AssignOperator::Subtract => Some(BinOp::Sub),
        AssignOperator::ShiftLeft => Some(BinOp::Shl),
        AssignOperator::ShiftRight => Some(BinOp::Shr),
        AssignOperator::BitAnd => Some(BinOp::And),
        AssignOperator::BitXor => Some(BinOp::Xor),
        AssignOperator::BitOr => Some(BinOp::Or),
    }
}

/// What is assigned to.
pub fn assigned_object(
    checker: &mut Checker,
    operator: Option<BinOp>,
    place: Pos,
    part: Option<Known>,
) -> Result<Option<Target>, AllocError>
    requires { AllStand ExprStands checker.old.table part }
    ensures { FindsOfPart IsTarget (λ part. with_known part (assigned_object_rule (scope_of checker.old) operator place)) part checker.old checker.new result }
{
    let Some(known) = part else {
        return Ok(None);
    };
    let Some(target) = modifiable(checker, place, known) else {
        return Ok(None);
    };
    match operator {
        None => Ok(Some(target)),
        Some(op) => Ok(compound_object(checker, op, place, target)),
    }
}

/// The object of a compound assignment: an integer, or of `+=` and `-=` a pointer too.
fn compound_object(checker: &mut Checker, op: BinOp, place: Pos, target: Target) -> Option<Target>
    requires { TargetStands checker.old.table target }
    ensures { Finds IsTarget (rules.compound_object (scope_of checker.old) op place (target_in checker.old.table target)) checker.old checker.new result }
{
    let moves_pointers = match op {
        BinOp::Add | BinOp::Sub => true,
        _ => false,
    };
    let holds = if moves_pointers && is_pointer(checker, target.c_type) {
        let is_complete = is_pointer_to_complete(checker, target.c_type);
        checker.require(is_complete, TypeRule::T14, place)
    } else {
        let is_integer = is_integer(checker, target.c_type);
        checker.require(is_integer, TypeRule::T07, place)
    };
    holds.then_some(target)
}

/// What is assigned, or the right operand.
pub fn assigned_value(
    checker: &mut Checker,
    operator: Option<BinOp>,
    place: Pos,
    part: Option<Known>,
) -> Result<Option<Operand>, AllocError>
    requires { AllStand ExprStands checker.old.table part }
    ensures { IfOk result (Finds IsOperand (with_known (each_in expr_in checker.old.table part) (assigned_value_rule operator place)) checker.old checker.new) }
{
    match operator {
        None => as_value(checker, place, part),
        Some(_) => as_integer(checker, place, part),
    }
}

/// An assignment of a value to an object; the whole stands where the object does.
pub fn assignment(
    checker: &mut Checker,
    operator: Option<BinOp>,
    whole: Pos,
    value_place: Pos,
    target: Target,
    operand: Operand,
) -> Result<Option<Operand>, AllocError>
    requires target { TargetStands checker.old.table target }
    requires operand { OperandStands checker.old.table operand }
    ensures { FindsOfOne IsOperand (rules.assignment operator whole value_place (target_in checker.old.table target)) operand checker.old checker.new result }
{
    match operator {
        Some(op) => {
            let c_type = target.c_type;
            let value = compound_value(checker, op, whole, target, operand)?;
            Ok(Some(Operand::of_type(c_type, value)))
        }
        None => plain_assignment(checker, whole, value_place, target, operand),
    }
}

/// The value of an assignment with `=` (C17 6.5.16.1).
fn plain_assignment(
    checker: &mut Checker,
    whole: Pos,
    value_place: Pos,
    target: Target,
    operand: Operand,
) -> Result<Option<Operand>, AllocError>
    requires target { TargetStands checker.old.table target }
    requires operand { OperandStands checker.old.table operand }
    ensures { FindsOfOne IsOperand (rules.assignment None whole value_place (target_in checker.old.table target)) operand checker.old checker.new result }
{
    let c_type = target.c_type;
    let fits = fits(checker, c_type, &operand);
    if !checker.require(fits, TypeRule::T10, value_place) {
        return Ok(None);
    }
    let alloc = checker.alloc();
    let value = Value::Assign {
        place: whole,
        object: target.into_object(),
        value: converted(checker, whole, c_type, operand)?,
    };
    let value = Box::new(alloc, value)?;
    Ok(Some(Operand::of_type(c_type, value)))
}

/// An operand's value converted to an integer type.
fn operand_as(alloc: Global, int_type: IntType, operand: Operand) -> Result<Box<Value>, AllocError>
    ensures stands { IfOk result (λ value. (table : Interned) → OperandStands table operand → ValueStands table value.value) }
    ensures converted { IfOk result (λ value. (table : Interned) → value_in table value.value ≡ typed.Converted int_type (value_in table operand.value.value)) }
{
    integer_as(alloc, int_type, operand.into_value())
}

/// The value of a compound assignment (C17 6.5.16.2).
fn compound_value(
    checker: &Checker,
    op: BinOp,
    whole: Pos,
    target: Target,
    operand: Operand,
) -> Result<Box<Value>, AllocError>
    requires target { TargetStands checker.now.table target }
    requires operand { OperandStands checker.now.table operand }
    ensures stands { IfOk result (λ value. ValueStands checker.now.table value.value) }
    ensures compound { MakesValue checker.now.table (compound_in checker.now.table op whole target operand) result }
{
    let alloc = checker.alloc();
    let shape = checker.shape(target.c_type);
    let object = target.into_object();
    let Shape::Integer(object_type) = shape else {
        let value = Value::AssignMoved {
            is_minus: op == BinOp::Sub,
            place: whole,
            object,
            number: operand.into_value(),
        };
        return Ok(Box::new(alloc, value)?);
    };
    let (int_type, value) = match op {
        BinOp::Shl | BinOp::Shr => (promote(object_type), promoted_value(checker, operand)?),
        _ => {
            let int_type = common(object_type, int_type_of(checker, operand.c_type));
            (int_type, operand_as(alloc, int_type, operand)?)
        }
    };
    let assignment = Value::AssignArithmetic {
        op,
        place: whole,
        object_type,
        int_type,
        object,
        value,
    };
    Ok(Box::new(alloc, assignment)?)
}
