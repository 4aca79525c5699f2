// Expressions in statements and declarations: their values are used, dropped, tested, or converted.

ghost use Rattle.std.specs.Prelude.{◌≡◌, IfOk, OnOk, option_map};
ghost use Rattle.c_syntax.specs.Views.{expr_tree, value_tree};
ghost use Rattle.c_typed.specs.Table.{Interned, Stands};
ghost use Rattle.c_typed.specs.Views.{value_in, ValueStands};
ghost use Rattle.c_rules.specs.Elaborated as elaborated;
ghost use Rattle.c_types_state.specs.Finding.{AllStand, each_in};
ghost use Rattle.c_types_state.specs.Operands.{OperandStands, operand_in};
ghost use Rattle.c_types.specs.Checked.{ChecksValue, ChecksConstant, MakesUnused, MakesOptionalUnused, MakesTest, MakesOptionalTest, MakesSwitched};
ghost use Rattle.c_types.specs.Checked.{MakesReturn, MakesReturned, IsValueAs, CoversValue, AddsExpr};

use c_num::{IntType, promote};
use c_rules::TypeRule;
use c_syntax::Expr;
use c_typed::{CType, Shape, Value};
use c_types_expressions::{Pass, constant_value, expr, is_void, place_of};
use c_types_state::{
    Checker, Operand, as_condition, as_integer, as_value, converted, fits, integer_as, leave_unused,
};
use run_theory::Pos;
use std::alloc::{AllocError, Global};

/// The value of an operand, or null where that isn't known.
fn value_or_null(alloc: Global, operand: Option<Operand>) -> Result<Box<Value>, AllocError>
    ensures stands { IfOk result (λ value. (table : Interned) → AllStand OperandStands table operand → ValueStands table value.value) }
    ensures value { IfOk result (λ value. (table : Interned) → value_in table value.value ≡ elaborated.known_value (each_in operand_in table operand)) }
{
    match operand {
        Some(operand) => Ok(operand.value),
        None => Ok(Box::new(alloc, Value::NullPointer)?),
    }
}

/// An optional value that is held in a box.
pub(crate) fn unboxed(value: Option<Box<Value>>) -> Option<Value>
    ensures { result ≡ option_map (λ value. value.value) value }
{
    match value {
        Some(value) => Some(Box::into_inner(value)),
        None => None,
    }
}

/// An expression for its value.
pub(crate) fn value(pass: &mut Pass, tree: &Expr) -> Result<Option<Operand>, AllocError>
    ensures { IfOk result (ChecksValue (expr_tree tree.now) pass.old pass.new) }
{
    let place = place_of(tree);
    let part = expr(pass, tree)?;
    as_value(&mut pass.checker, place, part)
}

/// An expression for its typed tree alone, which is put behind these.
pub(crate) fn keep_value(
    pass: &mut Pass,
    values: &mut Vec<Value>,
    tree: &Expr,
) -> Result<(), AllocError>
    ensures found { OnOk result (CoversValue (expr_tree tree.now) pass.old pass.new) }
    ensures values { OnOk result (AddsExpr (expr_tree tree.now) pass.old pass.new values.old.items values.new.items) }
{
    let operand = value(pass, tree)?;
    let value = value_or_null(pass.alloc(), operand)?;
    values.push(Box::into_inner(value))?;
    Ok(())
}

/// An expression whose value isn't used (C17 6.8.3 paragraph 2).
pub(crate) fn unused(pass: &mut Pass, tree: &Expr) -> Result<Box<Value>, AllocError>
    ensures { IfOk result (λ made. MakesUnused (expr_tree tree.now) pass.old pass.new made.value) }
{
    let operand = value(pass, tree)?;
    let mut value = value_or_null(pass.alloc(), operand)?;
    leave_unused(&mut value);
    Ok(value)
}

pub(crate) fn optional_unused(
    pass: &mut Pass,
    tree: &Option<Expr>,
) -> Result<Option<Box<Value>>, AllocError>
    ensures { IfOk result (λ made. MakesOptionalUnused (value_tree tree.now) pass.old pass.new (option_map (λ value. value.value) made)) }
{
    match tree {
        Some(tree) => Ok(Some(unused(pass, tree)?)),
        None => Ok(None),
    }
}

/// A condition (C17 6.8.4.1, 6.8.5).
pub(crate) fn condition(pass: &mut Pass, tree: &Expr) -> Result<Box<Value>, AllocError>
    ensures { IfOk result (λ made. MakesTest (expr_tree tree.now) pass.old pass.new made.value) }
{
    let place = place_of(tree);
    let part = expr(pass, tree)?;
    match as_condition(&mut pass.checker, place, part)? {
        Some(condition) => Ok(condition.test),
        None => Ok(Box::new(pass.alloc(), Value::NullPointer)?),
    }
}

pub(crate) fn optional_condition(
    pass: &mut Pass,
    tree: &Option<Expr>,
) -> Result<Option<Box<Value>>, AllocError>
    ensures { IfOk result (λ made. MakesOptionalTest (value_tree tree.now) pass.old pass.new (option_map (λ value. value.value) made)) }
{
    match tree {
        Some(tree) => Ok(Some(condition(pass, tree)?)),
        None => Ok(None),
    }
}

/// The value of a `switch`, after the integer promotions, and its type (C17 6.8.4.2 paragraph 5).
pub(crate) fn switched(
    pass: &mut Pass,
    tree: &Expr,
) -> Result<(Box<Value>, Option<IntType>), AllocError>
    ensures { IfOk result (λ made. MakesSwitched (expr_tree tree.now) pass.old pass.new (made.0.value, made.1)) }
{
    let place = place_of(tree);
    let Some(operand) = value(pass, tree)? else {
        let null = Box::new(pass.alloc(), Value::NullPointer)?;
        return Ok((null, None));
    };
    match pass.checker.shape(operand.c_type) {
        Shape::Integer(int_type) => {
            let int_type = promote(int_type);
            let value = integer_as(pass.alloc(), int_type, operand.value)?;
            Ok((value, Some(int_type)))
        }
        _ => {
            pass.checker.note(TypeRule::T07, place);
            Ok((operand.value, None))
        }
    }
}

/// The value of `return`, in a function with this result (C17 6.8.6.4).
pub(crate) fn returned(
    pass: &mut Pass,
    expected: Option<CType>,
    place: Pos,
    tree: &Option<Expr>,
) -> Result<Option<Box<Value>>, AllocError>
    requires { AllStand Stands pass.old.checker.table expected }
    ensures { IfOk result (λ made. MakesReturn expected place (value_tree tree.now) pass.old pass.new (option_map (λ value. value.value) made)) }
{
    match (expected, tree) {
        (None, Some(tree)) => {
            drop(value(pass, tree)?);
            Ok(Some(Box::new(pass.alloc(), Value::NullPointer)?))
        }
        (Some(c_type), Some(tree)) => Ok(Some(returned_value(pass, c_type, place, tree)?)),
        (Some(c_type), None) => {
            let is_void = is_void(&pass.checker, c_type);
            pass.checker.require(is_void, TypeRule::T22, place);
            Ok(None)
        }
        (None, None) => Ok(None),
    }
}

/// The value of `return` where the result has a type.
fn returned_value(
    pass: &mut Pass,
    expected: CType,
    place: Pos,
    tree: &Expr,
) -> Result<Box<Value>, AllocError>
    requires { Stands pass.old.checker.table expected }
    ensures { IfOk result (λ made. MakesReturned expected place (expr_tree tree.now) pass.old pass.new made.value) }
{
    let is_void = is_void(&pass.checker, expected);
    pass.checker.require(!is_void, TypeRule::T22, place);
    let value_place = place_of(tree);
    let operand = value(pass, tree)?;
    let fits = match &operand {
        Some(operand) => fits(&pass.checker, expected, operand),
        None => true,
    };
    pass.checker
        .require(is_void || fits, TypeRule::T10, value_place);
    value_as(&pass.checker, expected, value_place, operand)
}

/// A value converted to a type as if by assignment; it need not be known.
pub(crate) fn value_as(
    checker: &Checker,
    c_type: CType,
    place: Pos,
    operand: Option<Operand>,
) -> Result<Box<Value>, AllocError>
    requires c_type { Stands checker.now.table c_type }
    requires operand { AllStand OperandStands checker.now.table operand }
    ensures { IfOk result (λ value. IsValueAs place c_type operand checker.now.table value.value) }
{
    match operand {
        Some(operand) => converted(checker, place, c_type, operand),
        None => Ok(Box::new(checker.alloc(), Value::NullPointer)?),
    }
}

/// An integer constant expression that has a value (C17 6.6 paragraph 6).
pub(crate) fn constant_of(pass: &mut Pass, tree: &Expr) -> Result<Option<i128>, AllocError>
    ensures { IfOk result (ChecksConstant (expr_tree tree.now) pass.old pass.new) }
{
    let place = place_of(tree);
    let part = expr(pass, tree)?;
    match as_integer(&mut pass.checker, place, part)? {
        Some(operand) => {
            let constness = operand.constness;
            drop(operand);
            Ok(constant_value(&mut pass.checker, place, constness))
        }
        None => Ok(None),
    }
}
