// First values of scalars outside functions, which are constant (C17 6.7.9 paragraph 4).

ghost use Rattle.std.specs.Prelude.{◌≡◌, nat_le, [], IfOk, OnOk, length as count};
ghost use Rattle.c_syntax.specs.Views.{expr_tree};
ghost use Rattle.c_typed.specs.Types as T;
ghost use Rattle.c_typed.specs.Table.{Stands, type_in};
ghost use Rattle.c_typed.specs.DefinitionViews.{scalar_of};
ghost use Rattle.c_rules.specs.declared.rule.TypeRule.TheVariants as R;
ghost use Rattle.c_rules.specs.Known.{unless};
ghost use Rattle.c_rules.specs.Initializers as rules;
ghost use Rattle.c_rules.specs.Elaborated as elaborated;
ghost use Rattle.c_types_state.specs.Finding.{noted, AddressStands};
ghost use Rattle.c_types_state.specs.NameTables.{scope_of};
ghost use Rattle.c_types_state.specs.Operands.{OperandStands};
ghost use Rattle.c_types.specs.Made.{Covers};
ghost use Rattle.c_types.specs.Checked.{CoversExpr, HoldsExpr, CoversRefused, HoldsText, CoversScalar, HoldsScalar, NotesPointer, first_pointer};
ghost use Rattle.c_types.specs.Checked.{AddsExpr, AddsOperand};

use crate::initializers::Target;
use crate::values::{keep_value, value};
use c_num::{IntType, convert};
use c_rules::{Constness, TypeRule};
use c_syntax::{ByteString, Expr};
use c_typed::{CType, First, Held, Part, Scalar, Shape, Value};
use c_types_expressions::{Pass, is_character, place_of};
use c_types_state::{Address, Checker, Operand, fits, retyped};
use run_theory::Pos;
use std::alloc::{AllocError, Global};

/// An expression as the first value of a global, an element or a member of a type.
pub(crate) fn value_first(
    pass: &mut Pass,
    target: &mut Target,
    values: &mut Vec<Value>,
    index: u64,
    c_type: CType,
    tree: &Expr,
) -> Result<(), AllocError>
    requires { Stands pass.old.checker.table c_type }
    ensures found { OnOk result (CoversExpr (type_in pass.old.checker.table c_type) (expr_tree tree.now) pass.old pass.new) }
    ensures held { OnOk result (HoldsExpr pass.old index (type_in pass.old.checker.table c_type) (expr_tree tree.now) target.old target.new) }
    ensures values { OnOk result (AddsExpr (expr_tree tree.now) pass.old pass.new values.old.items values.new.items) }
{
    match pass.checker.shape(c_type) {
        Shape::Array { element, length } => {
            array_first(pass, target, values, index, element, length, tree)
        }
        Shape::Struct(_) => refused_first(pass, values, TypeRule::T18, tree),
        Shape::Function { .. } => refused_first(pass, values, TypeRule::T10, tree),
        _ => {
            let place = place_of(tree);
            match value(pass, tree)? {
                Some(operand) => {
                    scalar_first(pass, target, values, index, place, c_type, operand)
                }
                None => {
                    values.push(Value::NullPointer)?;
                    Ok(())
                }
            }
        }
    }
}

/// An expression as the first value of an array: only a literal is one, of an array of characters.
fn array_first(
    pass: &mut Pass,
    target: &mut Target,
    values: &mut Vec<Value>,
    index: u64,
    element: CType,
    length: u64,
    tree: &Expr,
) -> Result<(), AllocError>
    requires { Stands pass.old.checker.table element }
    ensures found { OnOk result (CoversExpr (T.Array (type_in pass.old.checker.table element) length) (expr_tree tree.now) pass.old pass.new) }
    ensures held { OnOk result (HoldsExpr pass.old index (T.Array (type_in pass.old.checker.table element) length) (expr_tree tree.now) target.old target.new) }
    ensures values { OnOk result (AddsExpr (expr_tree tree.now) pass.old pass.new values.old.items values.new.items) }
{
    match tree {
        Expr::Literal { bytes, place } => {
            if is_character(&pass.checker, element) {
                text_first(pass, target, index, element, length, bytes, *place)?;
                keep_value(pass, values, tree)
            } else {
                refused_first(pass, values, TypeRule::T18, tree)
            }
        }
        _ => refused_first(pass, values, TypeRule::T18, tree),
    }
}

/// An expression as the first value of what no expression initializes.
fn refused_first(
    pass: &mut Pass,
    values: &mut Vec<Value>,
    kind: TypeRule,
    tree: &Expr,
) -> Result<(), AllocError>
    ensures found { OnOk result (CoversRefused kind (expr_tree tree.now) pass.old pass.new) }
    ensures values { OnOk result (AddsExpr (expr_tree tree.now) pass.old pass.new values.old.items values.new.items) }
{
    let place = place_of(tree);
    keep_value(pass, values, tree)?;
    pass.checker.note(kind, place);
    Ok(())
}

/// A literal as the first bytes of an array of characters; the final zero is cut off where it has no room.
pub(crate) fn text_first(
    pass: &mut Pass,
    target: &mut Target,
    index: u64,
    element: CType,
    length: u64,
    bytes: &ByteString,
    place: Pos,
) -> Result<(), AllocError>
    requires { Stands pass.old.checker.table element }
    ensures found { OnOk result (Covers (unless (nat_le (count bytes.now) length) R.T18 place) [] (scope_of pass.old.checker) pass.old pass.new) }
    ensures held { OnOk result (HoldsText pass.old index element length bytes.now target.old target.new) }
{
    let bytes = bytes.as_slice();
    let has_room = bytes.len() as u64 <= length;
    if !pass.checker.require(has_room, TypeRule::T18, place) {
        return Ok(());
    }
    let mut parts = target.parts_here(pass.alloc())?;
    parts.push(Part::Elements { index })?;
    target.first.push(First::Text {
        parts,
        int_type: character_type(&pass.checker, element),
        bytes: bytes_held(pass.alloc(), length, bytes)?,
    })?;
    Ok(())
}

/// The bytes that a literal stores in an array of so many characters.
fn bytes_held(alloc: Global, length: u64, bytes: &[u8]) -> Result<ByteString, AllocError>
    ensures { IfOk result (λ made. made ≡ elaborated.bytes_held length bytes.now) }
{
    let mut held = Vec::from_slice(alloc, bytes)?;
    if (bytes.len() as u64) < length {
        held.push(0)?;
    }
    Ok(ByteString::new(held))
}

fn character_type(checker: &Checker, element: CType) -> IntType
    requires { Stands checker.now.table element }
    ensures { result ≡ elaborated.character_type (type_in checker.now.table element) }
{
    match checker.shape(element) {
        Shape::Integer(int_type) => int_type,
        _ => IntType::Char,
    }
}

/// A value as the first of a scalar.
fn scalar_first(
    pass: &mut Pass,
    target: &mut Target,
    values: &mut Vec<Value>,
    index: u64,
    place: Pos,
    c_type: CType,
    operand: Operand,
) -> Result<(), AllocError>
    requires c_type { Stands pass.old.checker.table c_type }
    requires operand { OperandStands pass.old.checker.table operand }
    ensures found { OnOk result (CoversScalar place c_type operand pass.old pass.new) }
    ensures held { OnOk result (HoldsScalar pass.old index c_type operand target.old target.new) }
    ensures values { OnOk result (AddsOperand operand pass.old pass.new values.old.items values.new.items) }
{
    let fits = fits(&pass.checker, c_type, &operand);
    let Operand {
        value,
        constness,
        is_null,
        address,
        ..
    } = operand;
    values.push(Box::into_inner(value))?;
    if !pass.checker.require(fits, TypeRule::T10, place) {
        return Ok(());
    }
    let value = match pass.checker.shape(c_type) {
        Shape::Integer(int_type) => {
            drop(address);
            integer_first(&mut pass.checker, place, int_type, constness)
        }
        Shape::Pointer(pointed) => {
            pointer_first(&mut pass.checker, place, pointed, is_null, address)
        }
        _ => return Ok(()),
    };
    let parts = target.parts_here(pass.alloc())?;
    target.first.push(First::Scalar(Held {
        parts,
        index,
        value,
    }))?;
    Ok(())
}

/// An integer constant expression (C17 6.6 paragraph 6).
fn integer_first(
    checker: &mut Checker,
    place: Pos,
    int_type: IntType,
    constness: Constness,
) -> Scalar
    ensures found { checker.new ≡ record checker.old { least = noted checker.old.least (rules.constant_first place constness) } }
    ensures value { scalar_of result ≡ elaborated.integer_first int_type constness }
{
    match constness {
        Constness::Constant(number) => return Scalar::Integer(convert(number, int_type)),
        Constness::NotConstant => checker.note(TypeRule::T17, place),
        Constness::Undefined => checker.note(TypeRule::T24, place),
    }
    Scalar::Integer(0)
}

/// An address constant (C17 6.6 paragraph 9).
fn pointer_first(
    checker: &mut Checker,
    place: Pos,
    pointed: CType,
    is_null: bool,
    address: Address,
) -> Scalar
    requires pointed { Stands checker.old.table pointed }
    requires address { AddressStands checker.old.table address }
    ensures found { NotesPointer place pointed is_null address checker.old checker.new }
    ensures value { scalar_of result ≡ first_pointer checker.old pointed is_null address }
{
    if is_null {
        return Scalar::Null;
    }
    match retyped(checker, pointed, address) {
        Address::Null => Scalar::Null,
        Address::Function(name) => Scalar::Function(name),
        Address::Element {
            root,
            parts,
            index,
            ..
        } => Scalar::Pointer { root, parts, index },
        Address::Unknown => {
            checker.note(TypeRule::T17, place);
            Scalar::Null
        }
        Address::Outside => {
            checker.note(TypeRule::T24, place);
            Scalar::Null
        }
    }
}
