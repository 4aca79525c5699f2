// Conversions as if by assignment (C17 6.3.2.3, 6.5.16.1).

ghost use Rattle.std.specs.Prelude.{◌≡◌, IfOk};
ghost use Rattle.c_typed.specs.Table.{Interned, Stands, type_in};
ghost use Rattle.c_typed.specs.Typed as typed;
ghost use Rattle.c_typed.specs.Views.{value_in, ValueStands};
ghost use Rattle.c_rules.specs.Operators as rules;
ghost use Rattle.c_types_state.specs.Operands.{OperandStands, operand_in};
ghost use Rattle.c_types_state.specs.Promises.{MakesValue, MakesInEach};

use crate::checker::Checker;
use crate::operands::Operand;
use crate::types::{is_integer, is_object_pointer, is_pointer, is_void_pointer, promoted_type};
use c_num::IntType;
use c_typed::{CType, Shape, Value};
use run_theory::Pos;
use std::alloc::{AllocError, Global};

/// Whether a value may be assigned, passed or returned as one of a type, or be its first value.
pub fn fits(checker: &Checker, target: CType, operand: &Operand) -> bool
    requires target { Stands checker.now.table target }
    requires operand { OperandStands checker.now.table operand.now }
    ensures { result ≡ rules.fits (type_in checker.now.table target) (operand_in checker.now.table operand.now) }
{
    if is_integer(checker, target) && is_integer(checker, operand.c_type) {
        return true;
    }
    is_pointer(checker, target)
        && (operand.is_null || pointer_fits(checker, target, operand.c_type))
}

/// Whether a pointer converts to another type without a cast.
fn pointer_fits(checker: &Checker, target: CType, source: CType) -> bool
    requires target { Stands checker.now.table target }
    requires source { Stands checker.now.table source }
    ensures { result ≡ rules.pointer_fits (type_in checker.now.table target) (type_in checker.now.table source) }
{
    is_pointer(checker, source)
        && (checker.same(target, source)
            || (is_void_pointer(checker, target) && is_object_pointer(checker, source))
            || (is_void_pointer(checker, source) && is_object_pointer(checker, target)))
}

/// A value that fits, converted to the type; where a pointer's conversion may fail, this stands at the place.
pub fn converted(
    checker: &Checker,
    place: Pos,
    target: CType,
    operand: Operand,
) -> Result<Box<Value>, AllocError>
    requires target { Stands checker.now.table target }
    requires operand { OperandStands checker.now.table operand }
    ensures stands { IfOk result (λ value. ValueStands checker.now.table value.value) }
    ensures converted { MakesValue checker.now.table (rules.converted place (type_in checker.now.table target) (operand_in checker.now.table operand)) result }
{
    let alloc = checker.alloc();
    let c_type = operand.c_type;
    let is_null = operand.is_null;
    let value = operand.into_value();
    match checker.shape(target) {
        Shape::Integer(int_type) => integer_as(alloc, int_type, value),
        Shape::Pointer(pointed) => {
            if is_null {
                let null = Value::MadeNull {
                    target: pointed,
                    value,
                };
                Ok(Box::new(alloc, null)?)
            } else if checker.same(target, c_type) {
                Ok(value)
            } else {
                let repointed = Value::Repointed {
                    place,
                    target: pointed,
                    value,
                };
                Ok(Box::new(alloc, repointed)?)
            }
        }
        _ => Ok(value),
    }
}

/// A value that is left as it is, but for a null pointer constant, which becomes a pointer to the target.
pub fn unconverted(alloc: Global, target: CType, operand: Operand) -> Result<Box<Value>, AllocError>
    ensures stands { IfOk result (λ value. (table : Interned) → Stands table target → OperandStands table operand → ValueStands table value.value) }
    ensures unconverted { MakesInEach (λ table. rules.unconverted_value (type_in table target) (operand_in table operand)) result }
{
    if operand.is_null {
        let null = Value::MadeNull {
            target,
            value: operand.into_value(),
        };
        Ok(Box::new(alloc, null)?)
    } else {
        Ok(operand.into_value())
    }
}

/// A value converted to an integer type (C17 6.3.1.3).
pub fn integer_as(
    alloc: Global,
    int_type: IntType,
    value: Box<Value>,
) -> Result<Box<Value>, AllocError>
    ensures stands { IfOk result (λ made. (table : Interned) → ValueStands table value.value → ValueStands table made.value) }
    ensures converted { MakesInEach (λ table. typed.Converted int_type (value_in table value.value)) result }
{
    Ok(Box::new(alloc, Value::Converted { int_type, value })?)
}

/// An operand converted by the integer promotions (C17 6.3.1.1 paragraph 2).
pub fn promoted_value(checker: &Checker, operand: Operand) -> Result<Box<Value>, AllocError>
    requires { OperandStands checker.now.table operand }
    ensures stands { IfOk result (λ value. ValueStands checker.now.table value.value) }
    ensures promoted { MakesValue checker.now.table (rules.promoted_value (operand_in checker.now.table operand)) result }
{
    let int_type = promoted_type(checker, operand.c_type);
    integer_as(checker.alloc(), int_type, operand.into_value())
}
