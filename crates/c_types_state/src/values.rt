// Expressions for their values (C17 6.3.2.1).

ghost use Rattle.std.specs.Prelude.{◌≡◌, Some, IfOk};
ghost use Rattle.c_typed.specs.Table.{Interned, Stands};
ghost use Rattle.c_typed.specs.Views.{value_in, ValueStands};
ghost use Rattle.c_rules.specs.Known.{give, read_value, value_of_typed};
ghost use Rattle.c_rules.specs.Operators as rules;
ghost use Rattle.c_types_state.specs.Finding.{Finds, AllStand, ExprStands, expr_in, TypedStands, typed_in, AddressStands, IsCondition};
ghost use Rattle.c_types_state.specs.Operands.{IsOperand, OperandStands, operand_in};
ghost use Rattle.c_types_state.specs.Promises.{FindsOfPart, value_of_part, scalar_of_part, integer_of_part, condition_of_part, MakesInEach, IsValueAddress};

use crate::addresses::first_element;
use crate::checker::Checker;
use crate::known::{Address, Condition, Known, TypedExpr, read_place};
use crate::operands::Operand;
use crate::types::{decayed, is_array, is_integer, is_scalar, is_struct};
use c_rules::{Constness, TypeRule};
use c_typed::{CType, Value};
use run_theory::Pos;
use std::alloc::{AllocError, Global};

/// An expression for its value, the first token of which stands at the place. No structure is one.
pub fn as_value(
    checker: &mut Checker,
    place: Pos,
    part: Option<Known>,
) -> Result<Option<Operand>, AllocError>
    requires { AllStand ExprStands checker.old.table part }
    ensures { FindsOfPart IsOperand (value_of_part place) part checker.old checker.new result }
{
    let Some(known) = part else {
        return Ok(None);
    };
    let is_value = !is_struct(checker, known.c_type);
    checker.require(is_value, TypeRule::T19, place);
    Ok(Some(read(checker, place, known)?))
}

/// The value of an expression: what an object holds, and the address of an array's first element or of a function.
fn read(checker: &mut Checker, place: Pos, known: Known) -> Result<Operand, AllocError>
    requires { ExprStands checker.old.table known }
    ensures { IfOk result (λ operand. Finds IsOperand (give (read_value place (expr_in checker.old.table known))) checker.old checker.new (Some operand)) }
{
    let Known {
        c_type,
        typed,
        constness,
        is_null,
        address,
    } = known;
    let address = value_address(checker, &typed, c_type, address)?;
    let is_array = is_array(checker, c_type);
    Ok(Operand {
        c_type: decayed(checker, c_type)?,
        value: value_from(checker.alloc(), place, is_array, typed)?,
        constness,
        is_null,
        address,
    })
}

/// The address of an expression's value. What an object holds is read only later.
fn value_address(
    checker: &Checker,
    typed: &TypedExpr,
    c_type: CType,
    address: Address,
) -> Result<Address, AllocError>
    requires c_type { Stands checker.now.table c_type }
    requires address { AddressStands checker.now.table address }
    ensures stands { IfOk result (AddressStands checker.now.table) }
    ensures value { IsValueAddress checker.now.table typed.now c_type address result }
{
    match typed {
        TypedExpr::Object(_) => {
            if is_array(checker, c_type) {
                first_element(checker, address)
            } else {
                Ok(Address::Unknown)
            }
        }
        _ => Ok(address),
    }
}

/// The value of a typed tree, which may be that of an array.
pub fn value_from(
    alloc: Global,
    place: Pos,
    is_array: bool,
    typed: TypedExpr,
) -> Result<Box<Value>, AllocError>
    ensures stands { IfOk result (λ value. (table : Interned) → TypedStands table typed → ValueStands table value.value) }
    ensures value { MakesInEach (λ table. value_of_typed place is_array (typed_in table typed)) result }
{
    match typed {
        TypedExpr::Value(value) => Ok(value),
        TypedExpr::Object(object) => {
            let place = read_place(place, &object);
            let value = if is_array {
                Value::Decay { place, object }
            } else {
                Value::Read { place, object }
            };
            Ok(Box::new(alloc, value)?)
        }
        TypedExpr::Function(function) => Ok(Box::new(alloc, Value::FunctionValue(function))?),
        TypedExpr::Library { .. } => Ok(Box::new(alloc, Value::NullPointer)?),
    }
}

/// A value that is an integer or a pointer.
pub fn as_scalar(
    checker: &mut Checker,
    place: Pos,
    part: Option<Known>,
) -> Result<Option<Operand>, AllocError>
    requires { AllStand ExprStands checker.old.table part }
    ensures { FindsOfPart IsOperand (scalar_of_part place) part checker.old checker.new result }
{
    let Some(operand) = as_value(checker, place, part)? else {
        return Ok(None);
    };
    let holds = is_scalar(checker, operand.c_type);
    if !checker.require(holds, TypeRule::T08, place) {
        return Ok(None);
    }
    Ok(Some(operand))
}

/// A value that is an integer.
pub fn as_integer(
    checker: &mut Checker,
    place: Pos,
    part: Option<Known>,
) -> Result<Option<Operand>, AllocError>
    requires { AllStand ExprStands checker.old.table part }
    ensures { FindsOfPart IsOperand (integer_of_part place) part checker.old checker.new result }
{
    let Some(operand) = as_value(checker, place, part)? else {
        return Ok(None);
    };
    let holds = is_integer(checker, operand.c_type);
    if !checker.require(holds, TypeRule::T07, place) {
        return Ok(None);
    }
    Ok(Some(operand))
}

/// A condition (C17 6.8.4.1, 6.8.5).
pub fn as_condition(
    checker: &mut Checker,
    place: Pos,
    part: Option<Known>,
) -> Result<Option<Condition>, AllocError>
    requires { AllStand ExprStands checker.old.table part }
    ensures { FindsOfPart IsCondition (condition_of_part place) part checker.old checker.new result }
{
    let Some(operand) = as_scalar(checker, place, part)? else {
        return Ok(None);
    };
    Ok(Some(condition_of(checker, place, operand)?))
}

/// An operand as a condition. Of a pointer nothing is constant.
pub fn condition_of(
    checker: &Checker,
    place: Pos,
    operand: Operand,
) -> Result<Condition, AllocError>
    requires { OperandStands checker.now.table operand }
    ensures { IfOk result (λ condition. IsCondition checker.now.table condition (rules.condition_of place (operand_in checker.now.table operand))) }
{
    if is_integer(checker, operand.c_type) {
        return Ok(Condition {
            constness: operand.constness,
            test: operand.into_value(),
        });
    }
    let value = Value::Tested {
        place,
        value: operand.into_value(),
    };
    Ok(Condition {
        test: Box::new(checker.alloc(), value)?,
        constness: Constness::NotConstant,
    })
}

/// The value of a call may be left unused there.
pub fn leave_unused(value: &mut Value)
    ensures stands { (table : Interned) → ValueStands table value.old → ValueStands table value.new }
    ensures unused { (table : Interned) → value_in table value.new ≡ rules.dropped (value_in table value.old) }
{
    match value {
        Value::Call { is_used, .. } => *is_used = false,
        Value::Grouped(inner) => leave_unused(inner),
        _ => {}
    }
}
