// Operators of one operand (C17 6.5.2.4, 6.5.3).

ghost use Rattle.std.specs.Prelude.{◌≡◌, ◌||◌, Option, IfOk};
ghost use Rattle.c_typed.specs.Table.{Interned, Stands, type_in, shape_type};
ghost use Rattle.c_typed.specs.Views.{ValueStands, object_in, ObjectStands};
ghost use Rattle.c_rules.specs.Known as known;
ghost use Rattle.c_rules.specs.Known.{with_known};
ghost use Rattle.c_rules.specs.Operators as rules;
ghost use Rattle.c_types_state.specs.Finding.{Finds, IsExpr, ExprStands, AllStand, IsOption};
ghost use Rattle.c_types_state.specs.NameTables.{scope_of};
ghost use Rattle.c_types_state.specs.Operands.{IsOperand};
ghost use Rattle.c_types_expressions.specs.Unary.{prefixed_rule, negation_of, plus_of, minus_of, complement_of, step_of, is_stepped};
ghost use Rattle.c_types_state.specs.Promises.{FindsOfPart, MakesInEach};

use crate::pointers::{address_of, dereferenced};
use c_num::IntType;
use c_rules::{Constness, TypeRule};
use c_syntax::PrefixOperator;
use c_typed::{CType, Object, Shape, Stepping, Value};
use c_types_state::constants::{complemented, logical_not, negated};
use c_types_state::types::{is_integer, is_pointer_to_complete, is_scalar, promoted_type};
use c_types_state::{
    Checker, Known, Operand, TypedExpr, as_condition, as_integer, as_value, modifiable,
    promoted_value,
};
use run_theory::Pos;
use std::alloc::{AllocError, Global};

/// An operator before its operand; the whole stands at the place.
pub fn prefixed(
    checker: &mut Checker,
    operator: PrefixOperator,
    whole: Pos,
    place: Pos,
    operand: Option<Known>,
) -> Result<Option<Known>, AllocError>
    requires { AllStand ExprStands checker.old.table operand }
    ensures { FindsOfPart IsExpr (λ part. with_known part (prefixed_rule (scope_of checker.old) operator whole place)) operand checker.old checker.new result }
{
    match operator {
        PrefixOperator::Dereference => {
            let Some(pointer) = as_value(checker, place, operand)? else {
                return Ok(None);
            };
            dereferenced(checker, whole, pointer)
        }
        PrefixOperator::Address => {
            let Some(operand) = operand else {
                return Ok(None);
            };
            Ok(known_of(address_of(checker, whole, operand)?))
        }
        PrefixOperator::Increment => {
            let stepping = Stepping::PreIncrement;
            Ok(known_of(postfixed(checker, stepping, whole, place, operand)?))
        }
        PrefixOperator::Decrement => {
            let stepping = Stepping::PreDecrement;
            Ok(known_of(postfixed(checker, stepping, whole, place, operand)?))
        }
        PrefixOperator::Not => Ok(known_of(negation(checker, place, operand)?)),
        PrefixOperator::Plus => Ok(known_of(with_plus(checker, place, operand)?)),
        PrefixOperator::Minus => Ok(known_of(with_minus(checker, whole, place, operand)?)),
        PrefixOperator::Complement => Ok(known_of(with_complement(checker, place, operand)?)),
    }
}

/// What is known of an operand, as that of an expression.
fn known_of(operand: Option<Operand>) -> Option<Known>
    ensures { (table : Interned) → (k : Option known.Known) → IsOption (IsOperand table) operand k → IsOption (IsExpr table) result k }
{
    match operand {
        Some(operand) => Some(operand.into_known()),
        None => None,
    }
}

/// `!` (C17 6.5.3.3 paragraph 5)
fn negation(
    checker: &mut Checker,
    place: Pos,
    operand: Option<Known>,
) -> Result<Option<Operand>, AllocError>
    requires { AllStand ExprStands checker.old.table operand }
    ensures { FindsOfPart IsOperand (negation_of place) operand checker.old checker.new result }
{
    let Some(condition) = as_condition(checker, place, operand)? else {
        return Ok(None);
    };
    let value = Box::new(checker.alloc(), Value::Not(condition.test))?;
    Ok(Some(Operand::integer(IntType::Int, logical_not(condition.constness), value)))
}

/// `+` (C17 6.5.3.3 paragraph 2)
fn with_plus(
    checker: &mut Checker,
    place: Pos,
    operand: Option<Known>,
) -> Result<Option<Operand>, AllocError>
    requires { AllStand ExprStands checker.old.table operand }
    ensures { FindsOfPart IsOperand (plus_of place) operand checker.old checker.new result }
{
    let Some(operand) = as_integer(checker, place, operand)? else {
        return Ok(None);
    };
    let int_type = promoted_type(checker, operand.c_type);
    let constness = operand.constness;
    let promoted = promoted_value(checker, operand)?;
    let value = Box::new(checker.alloc(), Value::Plus(promoted))?;
    Ok(Some(Operand::integer(int_type, constness, value)))
}

/// `-` (C17 6.5.3.3 paragraph 3)
fn with_minus(
    checker: &mut Checker,
    whole: Pos,
    place: Pos,
    operand: Option<Known>,
) -> Result<Option<Operand>, AllocError>
    requires { AllStand ExprStands checker.old.table operand }
    ensures { FindsOfPart IsOperand (minus_of whole place) operand checker.old checker.new result }
{
    let Some(operand) = as_integer(checker, place, operand)? else {
        return Ok(None);
    };
    let int_type = promoted_type(checker, operand.c_type);
    let constness = negated(int_type, operand.constness);
    let value = Value::Minus {
        place: whole,
        int_type,
        operand: promoted_value(checker, operand)?,
    };
    let value = Box::new(checker.alloc(), value)?;
    Ok(Some(Operand::integer(int_type, constness, value)))
}

/// `~` (C17 6.5.3.3 paragraph 4)
fn with_complement(
    checker: &mut Checker,
    place: Pos,
    operand: Option<Known>,
) -> Result<Option<Operand>, AllocError>
    requires { AllStand ExprStands checker.old.table operand }
    ensures { FindsOfPart IsOperand (complement_of place) operand checker.old checker.new result }
{
    let Some(operand) = as_integer(checker, place, operand)? else {
        return Ok(None);
    };
    let int_type = promoted_type(checker, operand.c_type);
    let constness = complemented(int_type, operand.constness);
    let value = Value::Complement {
        int_type,
        operand: promoted_value(checker, operand)?,
    };
    let value = Box::new(checker.alloc(), value)?;
    Ok(Some(Operand::integer(int_type, constness, value)))
}

/// `++` and `--` (C17 6.5.2.4, 6.5.3.1), before or behind the operand.
pub fn postfixed(
    checker: &mut Checker,
    stepping: Stepping,
    whole: Pos,
    place: Pos,
    operand: Option<Known>,
) -> Result<Option<Operand>, AllocError>
    requires { AllStand ExprStands checker.old.table operand }
    ensures { FindsOfPart IsOperand (step_of (scope_of checker.old) stepping whole place) operand checker.old checker.new result }
{
    let Some(known) = operand else {
        return Ok(None);
    };
    let Some(target) = modifiable(checker, whole, known) else {
        return Ok(None);
    };
    let is_scalar = is_scalar(checker, target.c_type);
    if !checker.require(is_scalar, TypeRule::T07, place) {
        return Ok(None);
    }
    let can_step = can_step(checker, target.c_type);
    if !checker.require(can_step, TypeRule::T14, whole) {
        return Ok(None);
    }
    let c_type = target.c_type;
    let shape = checker.shape(c_type);
    let value = step_value(
        checker.alloc(),
        stepping,
        whole,
        shape,
        target.into_object(),
    )?;
    Ok(Some(Operand::of_type(c_type, value)))
}

/// Whether an object of a type can be counted up or down: an integer, or a pointer to an object type whose size is known.
fn can_step(checker: &Checker, c_type: CType) -> bool
    requires { Stands checker.now.table c_type }
    ensures { result ≡ is_stepped (scope_of checker.now) (type_in checker.now.table c_type) }
{
    is_integer(checker, c_type) || is_pointer_to_complete(checker, c_type)
}

/// A step of an object of this shape.
fn step_value(
    alloc: Global,
    stepping: Stepping,
    place: Pos,
    shape: Shape,
    object: Box<Object>,
) -> Result<Box<Value>, AllocError>
    ensures stands { IfOk result (λ value. (table : Interned) → ObjectStands table object.value → ValueStands table value.value) }
    ensures step { MakesInEach (λ table. rules.step_value stepping place (shape_type table shape) (object_in table object.value)) result }
{
    let value = match shape {
        Shape::Integer(int_type) => Value::StepInteger {
            stepping,
            place,
            int_type,
            object,
        },
        _ => Value::StepPointer {
            stepping,
            place,
            object,
        },
    };
    Ok(Box::new(alloc, value)?)
}

/// The size of an object type (C17 6.5.3.4).
pub fn size_of(
    checker: &mut Checker,
    place: Pos,
    c_type: CType,
) -> Result<Option<Operand>, AllocError>
    requires { Stands checker.old.table c_type }
    ensures { IfOk result (Finds IsOperand (rules.size_of (scope_of checker.old) place (type_in checker.old.table c_type)) checker.old checker.new) }
{
    let is_complete = checker.is_complete(c_type);
    if !checker.require(is_complete, TypeRule::T05, place) {
        return Ok(None);
    }
    let size = i128::from(checker.size_of(c_type));
    let value = Value::Constant {
        int_type: IntType::ULong,
        value: size,
    };
    let value = Box::new(checker.alloc(), value)?;
    Ok(Some(Operand::integer(IntType::ULong, Constness::Constant(size), value)))
}
