// Initializers (C17 6.7.9).

ghost use Rattle.std.specs.Prelude.{◌≡◌, ◌||◌, Some, IfOk, OnOk, IfSome, IfNone, option_map};
ghost use Rattle.c_syntax.specs.Trees as Trees;
ghost use Rattle.c_syntax.specs.Views.{expr_tree, init_tree, inits_of};
ghost use Rattle.c_typed.specs.Types as T;
ghost use Rattle.c_typed.specs.Table.{Stands, type_in, TagStands};
ghost use Rattle.c_rules.specs.Initializers as rules;
ghost use Rattle.c_rules.specs.Programs as programs;
ghost use Rattle.c_types_state.specs.Finding.{AllStand};
ghost use Rattle.c_types_expressions.specs.Roles.{role_of};
ghost use Rattle.c_types.specs.Checked.{CoversWithin, CoversAllWithin, CoversTooMany, IsNoText, MakesLocalFirst, MakesLocalValue, CoversFirst};
ghost use Rattle.c_types.specs.Checked.{HoldsInit, HoldsMember, CoversElements, HoldsElements, CoversStruct, HoldsStruct, AddsInit, AddsInits};

use crate::scalars::value_first;
use crate::values::{keep_value, value, value_as};
use c_rules::TypeRule;
use c_syntax::{ByteString, Expr, Init};
use c_typed::{CType, First, Part, Shape, StructId, Value};
use c_types_expressions::{LengthRole, Pass, is_character, place_of};
use c_types_state::{Checker, fits};
use run_theory::Pos;
use std::alloc::{AllocError, Global};

/// The place of an initializer's first token.
fn init_place(init: &Init) -> Pos
    ensures { result ≡ rules.init_place (init_tree init.now) }
{
    match init {
        Init::Value(value) => place_of(value),
        Init::List { place, .. } => *place,
    }
}

/// The literal that an expression is.
fn literal_of(tree: &Expr) -> Option<&ByteString>
    ensures { option_map (λ bytes. bytes.now) result ≡ rules.literal_alone (Trees.InitValue (expr_tree tree.now)) }
{
    match tree {
        Expr::Literal { bytes, .. } => Some(bytes),
        _ => None,
    }
}

/// The expression that stands alone in braces.
fn value_in(inits: &[Init]) -> Option<&Expr>
    ensures some { IfSome result (λ tree. inits_of inits.now ≡ Trees.Inits (Trees.InitValue (expr_tree tree.now)) Trees.NoInits) }
    ensures none { IfNone result (IsNoText (inits_of inits.now)) }
{
    if inits.len() != 1 {
        return None;
    }
    match &inits[0] {
        Init::Value(tree) => Some(tree),
        Init::List { .. } => None,
    }
}

/// The literal that an initializer is, in braces or not (C17 6.7.9 paragraph 14).
pub(crate) fn literal_alone(init: &Init) -> Option<&ByteString>
    ensures { option_map (λ bytes. bytes.now) result ≡ rules.literal_alone (init_tree init.now) }
{
    match init {
        Init::Value(tree) => literal_of(tree),
        Init::List { inits, .. } => match value_in(inits) {
            Some(tree) => literal_of(tree),
            None => None,
        },
    }
}

/// Where the length of a global with an initializer may be left out.
pub(crate) fn initialized_role(init: &Option<Init>) -> LengthRole
    ensures { role_of result ≡ programs.role_of (option_map init_tree init.now) }
{
    let Some(init) = init else {
        return LengthRole::Required;
    };
    let plain = match init {
        Init::Value(_) => 1,
        Init::List { inits, .. } => inits.len(),
    };
    let literal = match literal_alone(init) {
        Some(bytes) => Some(bytes.as_slice().len() + 1),
        None => None,
    };
    LengthRole::Initialized { literal, plain }
}

// ---- without a use

/// The rules of the expressions in an initializer alone.
#[cycle(within)]
pub(crate) fn found_within(
    pass: &mut Pass,
    values: &mut Vec<Value>,
    init: &Init,
) -> Result<(), AllocError>
    ensures found { OnOk result (CoversWithin (init_tree init.now) pass.old pass.new) }
    ensures values { OnOk result (AddsInit (init_tree init.now) pass.old pass.new values.old.items values.new.items) }
{
    match init {
        Init::Value(tree) => keep_value(pass, values, tree),
        Init::List { inits, .. } => found_within_all(pass, values, inits),
    }
}

#[cycle(within)]
pub(crate) fn found_within_all(
    pass: &mut Pass,
    values: &mut Vec<Value>,
    inits: &[Init],
) -> Result<(), AllocError>
    ensures found { OnOk result (CoversAllWithin (inits_of inits.now) pass.old pass.new) }
    ensures values { OnOk result (AddsInits (inits_of inits.now) pass.old pass.new values.old.items values.new.items) }
{
    for init in inits {
        found_within(pass, values, init)?;
    }
    Ok(())
}

/// Initializers for which there is no element or member; the first of them is refused (C17 6.7.9 paragraph 2).
fn refuse_too_many(
    pass: &mut Pass,
    values: &mut Vec<Value>,
    inits: &[Init],
) -> Result<(), AllocError>
    ensures found { OnOk result (CoversTooMany (inits_of inits.now) pass.old pass.new) }
    ensures values { OnOk result (AddsInits (inits_of inits.now) pass.old pass.new values.old.items values.new.items) }
{
    if let Some(first) = inits.first() {
        pass.checker.note(TypeRule::T18, init_place(first));
    }
    found_within_all(pass, values, inits)
}

// ---- locals

/// The first value of a local: a scalar alone has one, and no braces.
pub(crate) fn local_first(
    pass: &mut Pass,
    c_type: Option<CType>,
    init: &Init,
) -> Result<Option<Box<Value>>, AllocError>
    requires { AllStand Stands pass.old.checker.table c_type }
    ensures { IfOk result (λ made. MakesLocalFirst c_type (init_tree init.now) pass.old pass.new (option_map (λ value. value.value) made)) }
{
    match (c_type, init) {
        (None, Init::Value(tree)) => {
            drop(value(pass, tree)?);
            Ok(Some(Box::new(pass.alloc(), Value::NullPointer)?))
        }
        (None, Init::List { inits, .. }) => {
            let mut values = Vec::new(pass.alloc());
            found_within_all(pass, &mut values, inits)?;
            Ok(None)
        }
        (Some(_), Init::List { place, inits }) => {
            pass.checker.note(TypeRule::T18, *place);
            let mut values = Vec::new(pass.alloc());
            found_within_all(pass, &mut values, inits)?;
            Ok(None)
        }
        (Some(c_type), Init::Value(tree)) => Ok(Some(local_value(pass, c_type, tree)?)),
    }
}

/// Whether a type is an array or a structure.
fn is_aggregate(checker: &Checker, c_type: CType) -> bool
    requires { Stands checker.now.table c_type }
    ensures { result ≡ (T.is_array (type_in checker.now.table c_type) || T.is_struct (type_in checker.now.table c_type)) }
{
    match checker.shape(c_type) {
        Shape::Array { .. } => true,
        Shape::Struct(_) => true,
        _ => false,
    }
}

/// An expression as the first value of a local.
fn local_value(pass: &mut Pass, c_type: CType, tree: &Expr) -> Result<Box<Value>, AllocError>
    requires { Stands pass.old.checker.table c_type }
    ensures { IfOk result (λ made. MakesLocalValue c_type (expr_tree tree.now) pass.old pass.new made.value) }
{
    let place = place_of(tree);
    let is_scalar = !is_aggregate(&pass.checker, c_type);
    pass.checker.require(is_scalar, TypeRule::T18, place);
    let operand = value(pass, tree)?;
    if is_scalar {
        if let Some(operand) = &operand {
            let fits = fits(&pass.checker, c_type, operand);
            pass.checker.require(fits, TypeRule::T10, place);
        }
    }
    value_as(&pass.checker, c_type, place, operand)
}

// ---- globals: the typed trees of all their expressions are kept

/// Where first values go: the element with an index of the row to which these steps lead.
#[derive(Drop)]
pub(crate) struct Target {
    pub(crate) parts: Vec<Part>,
    pub(crate) first: Vec<First>,
}

impl Target {
    /// A copy of the steps.
    pub(crate) fn parts_here(&self, alloc: Global) -> Result<Vec<Part>, AllocError>
        ensures { IfOk result (λ parts. parts.items ≡ self.now.parts.items) }
    {
        Vec::from_slice(alloc, self.parts.as_slice())
    }
}

/// The initializer of a global, an element or a member of a type, at the element of an index.
#[cycle(first)]
pub(crate) fn first_of(
    pass: &mut Pass,
    target: &mut Target,
    values: &mut Vec<Value>,
    index: u64,
    c_type: Option<CType>,
    init: &Init,
) -> Result<(), AllocError>
    requires { AllStand Stands pass.old.checker.table c_type }
    ensures found { OnOk result (CoversFirst c_type (init_tree init.now) pass.old pass.new) }
    ensures held { OnOk result (HoldsInit pass.old index c_type (init_tree init.now) target.old target.new) }
    ensures values { OnOk result (AddsInit (init_tree init.now) pass.old pass.new values.old.items values.new.items) }
{
    let Some(c_type) = c_type else {
        return found_within(pass, values, init);
    };
    match init {
        Init::Value(tree) => value_first(pass, target, values, index, c_type, tree),
        Init::List { place, inits } => list_first(
            pass, target, values, index, c_type, *place, inits,
        ),
    }
}

/// Initializers in braces.
#[cycle(first)]
fn list_first(
    pass: &mut Pass,
    target: &mut Target,
    values: &mut Vec<Value>,
    index: u64,
    c_type: CType,
    place: Pos,
    inits: &[Init],
) -> Result<(), AllocError>
    requires { Stands pass.old.checker.table c_type }
    ensures found { OnOk result (CoversFirst (Some c_type) (Trees.InitList place (inits_of inits.now)) pass.old pass.new) }
    ensures held { OnOk result (HoldsInit pass.old index (Some c_type) (Trees.InitList place (inits_of inits.now)) target.old target.new) }
    ensures values { OnOk result (AddsInits (inits_of inits.now) pass.old pass.new values.old.items values.new.items) }
{
    match pass.checker.shape(c_type) {
        Shape::Array { element, length } => {
            if let Some(tree) = value_in(inits) {
                if literal_of(tree).is_some() && is_character(&pass.checker, element) {
                    return value_first(pass, target, values, index, c_type, tree);
                }
            }
            target.parts.push(Part::Elements { index })?;
            elements_first(pass, target, values, element, length, inits)?;
            target.parts.pop();
            Ok(())
        }
        Shape::Struct(id) => members_first(pass, target, values, index, id, inits),
        _ => {
            pass.checker.note(TypeRule::T18, place);
            found_within_all(pass, values, inits)
        }
    }
}

/// The elements of an array.
#[cycle(first)]
fn elements_first(
    pass: &mut Pass,
    target: &mut Target,
    values: &mut Vec<Value>,
    element: CType,
    length: u64,
    inits: &[Init],
) -> Result<(), AllocError>
    requires { Stands pass.old.checker.table element }
    ensures found { OnOk result (CoversElements element length (inits_of inits.now) pass.old pass.new) }
    ensures held { OnOk result (HoldsElements pass.old element length (inits_of inits.now) target.old target.new) }
    ensures values { OnOk result (AddsInits (inits_of inits.now) pass.old pass.new values.old.items values.new.items) }
{
    for index in 0..inits.len() {
        if index as u64 >= length {
            return refuse_too_many(pass, values, &inits[index..]);
        }
        first_of(
            pass,
            target,
            values,
            index as u64,
            Some(element),
            &inits[index],
        )?;
    }
    Ok(())
}

/// The members of a structure, within the element of an index.
#[cycle(first)]
fn members_first(
    pass: &mut Pass,
    target: &mut Target,
    values: &mut Vec<Value>,
    index: u64,
    id: StructId,
    inits: &[Init],
) -> Result<(), AllocError>
    requires { TagStands pass.old.checker.table id }
    ensures found { OnOk result (CoversStruct id (inits_of inits.now) pass.old pass.new) }
    ensures held { OnOk result (HoldsStruct pass.old index id (inits_of inits.now) target.old target.new) }
    ensures values { OnOk result (AddsInits (inits_of inits.now) pass.old pass.new values.old.items values.new.items) }
{
    for number in 0..inits.len() {
        let Some(c_type) = pass.checker.member_at(id, number) else {
            return refuse_too_many(pass, values, &inits[number..]);
        };
        member_first(pass, target, values, index, number, c_type, &inits[number])?;
    }
    Ok(())
}

/// A member of a structure, by how many stand before it.
#[cycle(first)]
fn member_first(
    pass: &mut Pass,
    target: &mut Target,
    values: &mut Vec<Value>,
    index: u64,
    number: usize,
    c_type: Option<CType>,
    init: &Init,
) -> Result<(), AllocError>
    requires { AllStand Stands pass.old.checker.table c_type }
    ensures found { OnOk result (CoversFirst c_type (init_tree init.now) pass.old pass.new) }
    ensures held { OnOk result (HoldsMember pass.old index number c_type (init_tree init.now) target.old target.new) }
    ensures values { OnOk result (AddsInit (init_tree init.now) pass.old pass.new values.old.items values.new.items) }
{
    let number = u32::try_from(number).map_err(|_| AllocError)?;
    target.parts.push(Part::Member { index, number })?;
    first_of(pass, target, values, 0, c_type, init)?;
    target.parts.pop();
    Ok(())
}
