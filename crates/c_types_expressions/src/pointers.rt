// Pointers (C17 6.5.2.1, 6.5.3.2, 6.5.6).

ghost use Rattle.std.specs.Prelude.{IfOk};
ghost use Rattle.c_typed.specs.Table.{Stands};
ghost use Rattle.c_typed.specs.Views.{ValueStands, ObjectStands};
ghost use Rattle.c_rules.specs.Operators as rules;
ghost use Rattle.c_types_state.specs.Finding.{Finds, IsExpr, ExprStands, expr_in, AddressStands};
ghost use Rattle.c_types_state.specs.NameTables.{scope_of};
ghost use Rattle.c_types_state.specs.Operands.{IsOperand, OperandStands, operand_in};
ghost use Rattle.c_types_state.specs.Promises.{FindsOfTwo};
ghost use Rattle.c_types_expressions.specs.Unary.{FindsElement, FindsPointer};

use crate::names::object_at;
use c_rules::TypeRule;
use c_typed::{CType, Designator, Object, Value};
use c_types_state::types::{
    is_function_pointer, is_integer, is_pointer, is_pointer_to_complete, target_of,
};
use c_types_state::{Address, Checker, Direction, Known, Operand, TypedExpr, moved};
use run_theory::Pos;
use std::alloc::AllocError;

/// `a[i]`, where either may be the pointer (C17 6.5.2.1).
pub fn indexed(
    checker: &mut Checker,
    left_place: Pos,
    right_place: Pos,
    left: Operand,
    right: Operand,
) -> Result<Option<Known>, AllocError>
    requires left { OperandStands checker.old.table left }
    requires right { OperandStands checker.old.table right }
    ensures { FindsOfTwo IsExpr (rules.indexed (scope_of checker.old) left_place right_place) left right checker.old checker.new result }
{
    let alloc = checker.alloc();
    if !is_pointer(checker, left.c_type) && is_pointer(checker, right.c_type) {
        let index = left.constness;
        let index_type = left.c_type;
        let object = Object::ElementOf {
            place: left_place,
            number: left.into_value(),
            pointer: right.value,
        };
        let object = Box::new(alloc, object)?;
        let address = moved(right.address, Direction::Forward, index);
        return Ok(element(
            checker,
            left_place,
            left_place,
            right.c_type,
            index_type,
            object,
            address,
        ));
    }
    let index = right.constness;
    let index_type = right.c_type;
    let object = Object::Element {
        place: left_place,
        pointer: left.value,
        number: right.into_value(),
    };
    let object = Box::new(alloc, object)?;
    let address = moved(left.address, Direction::Forward, index);
    Ok(element(
        checker,
        left_place,
        right_place,
        left.c_type,
        index_type,
        object,
        address,
    ))
}

/// The element behind a pointer, as this object at an address.
fn element(
    checker: &mut Checker,
    whole: Pos,
    index_place: Pos,
    pointer: CType,
    index: CType,
    object: Box<Object>,
    address: Address,
) -> Option<Known>
    requires pointer { Stands checker.old.table pointer }
    requires index { Stands checker.old.table index }
    requires object { ObjectStands checker.old.table object.value }
    requires address { AddressStands checker.old.table address }
    ensures { FindsElement whole index_place pointer index object address checker.old checker.new result }
{
    let is_complete = is_pointer_to_complete(checker, pointer);
    if !checker.require(is_complete, TypeRule::T14, whole) {
        return None;
    }
    let is_index = is_integer(checker, index);
    if !checker.require(is_index, TypeRule::T07, index_place) {
        return None;
    }
    Some(object_at(target_of(checker, pointer), object, address))
}

/// `*p` (C17 6.5.3.2 paragraph 4)
pub fn dereferenced(
    checker: &mut Checker,
    whole: Pos,
    pointer: Operand,
) -> Result<Option<Known>, AllocError>
    requires { OperandStands checker.old.table pointer }
    ensures { IfOk result (Finds IsExpr (rules.dereferenced (scope_of checker.old) whole (operand_in checker.old.table pointer)) checker.old checker.new) }
{
    let alloc = checker.alloc();
    let target = target_of(checker, pointer.c_type);
    if is_function_pointer(checker, pointer.c_type) {
        let function = Designator::Pointed {
            place: whole,
            pointer: pointer.value,
        };
        return Ok(Some(Known {
            c_type: target,
            typed: TypedExpr::Function(Box::new(alloc, function)?),
            constness: pointer.constness,
            is_null: pointer.is_null,
            address: pointer.address,
        }));
    }
    let is_complete = is_pointer_to_complete(checker, pointer.c_type);
    if !checker.require(is_complete, TypeRule::T14, whole) {
        return Ok(None);
    }
    let object = Object::Pointed {
        place: whole,
        pointer: pointer.value,
    };
    let object = Box::new(alloc, object)?;
    Ok(Some(object_at(target, object, pointer.address)))
}

/// `&` of an object or a function (C17 6.5.3.2 paragraph 3).
pub fn address_of(
    checker: &mut Checker,
    whole: Pos,
    operand: Known,
) -> Result<Option<Operand>, AllocError>
    requires { ExprStands checker.old.table operand }
    ensures { IfOk result (Finds IsOperand (rules.address_of whole (expr_in checker.old.table operand)) checker.old checker.new) }
{
    let alloc = checker.alloc();
    let Known {
        c_type,
        typed,
        address,
        ..
    } = operand;
    match typed {
        TypedExpr::Object(object) => {
            let value = Value::AddressOf {
                place: whole,
                object,
            };
            let value = Box::new(alloc, value)?;
            Ok(Some(pointer_at(checker, c_type, value, address)?))
        }
        TypedExpr::Function(function) => {
            let value = Value::AddressOfFunction(function);
            let value = Box::new(alloc, value)?;
            Ok(Some(pointer_at(checker, c_type, value, address)?))
        }
        _other => {
            checker.note(TypeRule::T09, whole);
            Ok(None)
        }
    }
}

/// A pointer to a type, as this value at an address.
fn pointer_at(
    checker: &mut Checker,
    target: CType,
    value: Box<Value>,
    address: Address,
) -> Result<Operand, AllocError>
    requires target { Stands checker.old.table target }
    requires value { ValueStands checker.old.table value.value }
    requires address { AddressStands checker.old.table address }
    ensures { FindsPointer target value address checker.old checker.new result }
{
    let c_type = checker.pointer_to(target)?;
    Ok(Operand {
        address,
        ..Operand::of_type(c_type, value)
    })
}
