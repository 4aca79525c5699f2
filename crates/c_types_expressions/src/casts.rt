// Casts (C17 6.5.4).

ghost use Rattle.std.specs.Prelude.{◌≡◌, ◌&&◌};
ghost use Rattle.c_typed.specs.Types as T;
ghost use Rattle.c_typed.specs.Table.{Stands, type_in};
ghost use Rattle.c_rules.specs.Operators as rules;
ghost use Rattle.c_types_state.specs.NameTables.{scope_of};
ghost use Rattle.c_types_state.specs.Operands.{IsOperand, OperandStands};
ghost use Rattle.c_types_state.specs.Promises.{FindsOfOne};

use c_num::IntType;
use c_rules::TypeRule;
use c_typed::{CType, Shape, Value};
use c_types_state::constants::converted;
use c_types_state::types::{
    is_function, is_function_pointer, is_integer, is_object_pointer, is_void,
};
use c_types_state::{Address, Checker, Operand, integer_as, leave_unused, retyped};
use run_theory::Pos;
use std::alloc::AllocError;

/// A cast to a type (C17 6.5.4).
pub fn cast_to(
    checker: &mut Checker,
    whole: Pos,
    c_type: CType,
    operand: Operand,
) -> Result<Option<Operand>, AllocError>
    requires c_type { Stands checker.old.table c_type }
    requires operand { OperandStands checker.old.table operand }
    ensures { FindsOfOne IsOperand (rules.cast_to (scope_of checker.old) whole (type_in checker.old.table c_type)) operand checker.old checker.new result }
{
    match checker.shape(c_type) {
        Shape::Void => {
            let mut unused = operand.into_value();
            leave_unused(&mut unused);
            let value = Box::new(checker.alloc(), Value::CastVoid(unused))?;
            Ok(Some(Operand::of_type(c_type, value)))
        }
        Shape::Integer(int_type) => cast_to_integer(checker, whole, int_type, operand),
        Shape::Pointer(target) => cast_to_pointer(checker, whole, c_type, target, operand),
        _ => {
            checker.note(TypeRule::T16, whole);
            Ok(None)
        }
    }
}

/// A cast to an integer type.
fn cast_to_integer(
    checker: &mut Checker,
    whole: Pos,
    int_type: IntType,
    operand: Operand,
) -> Result<Option<Operand>, AllocError>
    requires { OperandStands checker.old.table operand }
    ensures { FindsOfOne IsOperand (rules.cast_to (scope_of checker.old) whole (T.Integer int_type)) operand checker.old checker.new result }
{
    let is_integer = is_integer(checker, operand.c_type);
    if !checker.require(is_integer, TypeRule::T16, whole) {
        return Ok(None);
    }
    let alloc = checker.alloc();
    let constness = converted(int_type, operand.constness);
    let converted = integer_as(alloc, int_type, operand.into_value())?;
    let value = Box::new(alloc, Value::Cast(converted))?;
    Ok(Some(Operand::integer(int_type, constness, value)))
}

/// A cast to a pointer type.
fn cast_to_pointer(
    checker: &mut Checker,
    whole: Pos,
    c_type: CType,
    target: CType,
    operand: Operand,
) -> Result<Option<Operand>, AllocError>
    requires c_type { Stands checker.old.table c_type }
    requires target { Stands checker.old.table target }
    requires pointer { type_in checker.old.table c_type ≡ T.Pointer (type_in checker.old.table target) }
    requires operand { OperandStands checker.old.table operand }
    ensures { FindsOfOne IsOperand (rules.cast_to (scope_of checker.old) whole (type_in checker.old.table c_type)) operand checker.old checker.new result }
{
    let alloc = checker.alloc();
    if operand.is_null {
        let is_null = stays_null(checker, target, operand.c_type);
        let null = Value::MadeNull {
            target,
            value: operand.into_value(),
        };
        let null = Box::new(alloc, null)?;
        return Ok(Some(Operand {
            is_null,
            address: Address::Null,
            ..Operand::of_type(c_type, Box::new(alloc, Value::Cast(null))?)
        }));
    }
    let agrees = if is_function(checker, target) {
        is_function_pointer(checker, operand.c_type)
    } else {
        is_object_pointer(checker, operand.c_type)
    };
    if !checker.require(agrees, TypeRule::T16, whole) {
        return Ok(None);
    }
    let repointed = Value::Repointed {
        place: whole,
        target,
        value: operand.value,
    };
    let value = Box::new(alloc, repointed)?;
    Ok(Some(Operand {
        address: retyped(checker, target, operand.address),
        ..Operand::of_type(c_type, Box::new(alloc, Value::Cast(value))?)
    }))
}

/// Whether a null pointer constant of one type is one too when it is cast to a pointer: an integer, to `void *` (C17
/// 6.3.2.3 paragraph 3).
fn stays_null(checker: &Checker, target: CType, source: CType) -> bool
    requires target { Stands checker.now.table target }
    requires source { Stands checker.now.table source }
    ensures { result ≡ (T.is_void (type_in checker.now.table target) && T.is_integer (type_in checker.now.table source)) }
{
    is_void(checker, target) && is_integer(checker, source)
}
