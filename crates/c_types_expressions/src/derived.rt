// Arrays, functions and their parameters, of types that may not be known (C17 6.7.6).

ghost use Rattle.std.specs.Prelude.{◌≡◌, IfOk, OnOk, Some, option_map};
ghost use Rattle.c_syntax.specs.Views.{name_tree};
ghost use Rattle.c_typed.specs.Types as T;
ghost use Rattle.c_typed.specs.Table.{Stands, type_in, ListStands, types_in};
ghost use Rattle.c_typed.specs.Kept.{IsObject};
ghost use Rattle.c_rules.specs.Known.{with_known, give};
ghost use Rattle.c_types_state.specs.Checkers.{names_of};
ghost use Rattle.c_rules.specs.Expressions as rules;
ghost use Rattle.c_types_state.specs.Finding.{Finds, IsType, IsTypes, AllStand, each_in};
ghost use Rattle.c_types_state.specs.NameTables.{scope_of};
ghost use Rattle.c_types_state.specs.Staying.{IsSame};
ghost use Rattle.c_types_expressions.specs.Roles.{role_of, length_by};
ghost use Rattle.c_types_expressions.specs.Passes.{TypesStand, list_in};
ghost use Rattle.c_types_expressions.specs.Derived.{element_rule, result_rule, function_rule, IsElement};
ghost use Rattle.c_types_expressions.specs.Parts.{OfType, NotesName, AddsName};

use crate::role::LengthRole;
use c_num::IntType;
use c_rules::{Constness, TypeRule};
use c_syntax::Name;
use c_typed::{CType, Parameters, Shape};
use c_types_state::{Checker, library_function};
use indexmap::IndexSet;
use run_theory::Pos;
use std::alloc::AllocError;

// ---- arrays (C17 6.7.6.2)

/// The type of an array's elements: a complete object type. The declared name, or what stands for it, is here.
pub(crate) fn as_element(checker: &mut Checker, here: Pos, element: Option<CType>) -> Option<CType>
    requires { AllStand Stands checker.old.table element }
    ensures { OfType IsElement (element_rule (scope_of checker.old) here) element checker.old checker.new result }
{
    let c_type = element?;
    let is_complete = checker.is_complete(c_type);
    if !checker.require(is_complete, TypeRule::T05, here) {
        return None;
    }
    Some(c_type)
}

/// An integer constant expression that has a value (C17 6.6 paragraph 6); it begins here.
pub fn constant_value(checker: &mut Checker, place: Pos, constness: Constness) -> Option<i128>
    ensures { Finds IsSame (rules.constant_value place constness) checker.old checker.new result }
{
    match constness {
        Constness::Constant(number) => Some(number),
        Constness::NotConstant => {
            checker.note(TypeRule::T17, place);
            None
        }
        Constness::Undefined => {
            checker.note(TypeRule::T24, place);
            None
        }
    }
}

/// A length that stands there, which is at least 1.
pub(crate) fn positive(checker: &mut Checker, here: Pos, number: i128) -> Option<u64>
    ensures { Finds IsSame (rules.positive here number) checker.old checker.new result }
{
    if number < 1 {
        checker.note(TypeRule::T06, here);
        return None;
    }
    Some(u64::try_from(number).unwrap_or(u64::MAX))
}

/// A length that is left out.
pub(crate) fn missing_length(
    checker: &mut Checker,
    here: Pos,
    role: LengthRole,
    element: Option<CType>,
) -> Option<u64>
    requires { AllStand Stands checker.old.table element }
    ensures { Finds IsSame (rules.length_value here (role_of role) (each_in type_in checker.old.table element) rules.Missing) checker.old checker.new result }
{
    match role {
        LengthRole::Required => {
            checker.note(TypeRule::T06, here);
            None
        }
        LengthRole::Adjusted => Some(1),
        LengthRole::Initialized { literal, plain } => {
            let element = element?;
            Some(initial_length(checker, literal, plain, element) as u64)
        }
    }
}

/// The length of an array of these elements that an initializer gives (C17 6.7.9 paragraph 22).
fn initial_length(checker: &Checker, literal: Option<usize>, plain: usize, element: CType) -> usize
    requires { Stands checker.now.table element }
    ensures { result ≡ length_by literal plain (type_in checker.now.table element) }
{
    match literal {
        Some(size) if is_character(checker, element) => size,
        _ => plain,
    }
}

/// Whether it is a type of one byte (C17 6.2.5 paragraph 15).
pub fn is_character(checker: &Checker, c_type: CType) -> bool
    requires { Stands checker.now.table c_type }
    ensures { result ≡ T.is_character (type_in checker.now.table c_type) }
{
    match checker.shape(c_type) {
        Shape::Integer(IntType::Char) => true,
        Shape::Integer(IntType::UChar) => true,
        _ => false,
    }
}

/// An array of these elements.
pub(crate) fn array_of(
    checker: &mut Checker,
    element: Option<CType>,
    length: Option<u64>,
) -> Result<Option<CType>, AllocError>
    requires { AllStand IsObject checker.old.table element }
    ensures { IfOk result (OfType IsType (λ c_type. with_known length (λ n. give (T.Array c_type n))) element checker.old checker.new) }
{
    match (element, length) {
        (Some(element), Some(length)) => Ok(Some(checker.array_of(element, length)?)),
        _ => Ok(None),
    }
}

// ---- functions (C17 6.7.6.3)

/// The type of a function's result: no array, function or structure.
pub(crate) fn as_result(checker: &mut Checker, here: Pos, returned: Option<CType>) -> Option<CType>
    requires { AllStand Stands checker.old.table returned }
    ensures { OfType IsType (result_rule here) returned checker.old checker.new result }
{
    let c_type = returned?;
    let can_return = match checker.shape(c_type) {
        Shape::Array { .. } | Shape::Function { .. } => false,
        _ => true,
    };
    if !checker.require(can_return, TypeRule::T05, here) {
        return None;
    }
    let is_value = !is_struct(checker, c_type);
    if !checker.require(is_value, TypeRule::T19, here) {
        return None;
    }
    Some(c_type)
}

fn is_struct(checker: &Checker, c_type: CType) -> bool
    requires { Stands checker.now.table c_type }
    ensures { result ≡ T.is_struct (type_in checker.now.table c_type) }
{
    match checker.shape(c_type) {
        Shape::Struct(_) => true,
        _ => false,
    }
}

/// A function with a result and parameters.
pub(crate) fn function_of(
    checker: &mut Checker,
    returned: Option<CType>,
    parameters: Option<Parameters>,
) -> Result<Option<CType>, AllocError>
    requires returned { AllStand Stands checker.old.table returned }
    requires parameters { AllStand ListStands checker.old.table parameters }
    ensures { IfOk result (OfType IsType (function_rule (each_in types_in checker.old.table parameters)) returned checker.old checker.new) }
{
    match (returned, parameters) {
        (Some(returned), Some(parameters)) => Ok(Some(checker.function(returned, parameters)?)),
        _ => Ok(None),
    }
}

/// The list of these types.
pub(crate) fn list_of(checker: &mut Checker, types: &[CType]) -> Result<Parameters, AllocError>
    requires { TypesStand checker.old.table types.now }
    ensures { IfOk result (λ made. Finds IsTypes (give (list_in checker.old.table types.now)) checker.old checker.new (Some made)) }
{
    let mut list = checker.no_parameters()?;
    let mut index = types.len();
    while index > 0 {
        index -= 1;
        list = checker.parameter(types[index], list)?;
    }
    Ok(list)
}

// ---- parameters

/// Notes the name of a parameter, which no other has, nor a library function.
pub(crate) fn note_parameter(
    checker: &mut Checker,
    names: &mut IndexSet<Vec<u8>>,
    name: Option<&Name>,
) -> Result<(), AllocError>
    ensures found { OnOk result (NotesName (names_of names.old.keys) (option_map (λ name. name_tree name.now) name.entry) checker.old checker.new) }
    ensures names { OnOk result (AddsName (names_of names.old.keys) (names_of names.new.keys) (option_map (λ name. name_tree name.now) name.entry)) }
{
    let Some(name) = name else {
        return Ok(());
    };
    let bytes = name.bytes.as_slice();
    let is_new = !names.contains(bytes) && library_function(bytes).is_none();
    checker.require(is_new, TypeRule::T04, name.place);
    if !names.contains(bytes) {
        names.insert(Vec::from_slice(checker.alloc(), bytes)?)?;
    }
    Ok(())
}

/// The type of a parameter, adjusted (C17 6.7.6.3 paragraphs 4, 7 and 8): that of a complete object, and no structure.
pub fn parameter_type(
    checker: &mut Checker,
    here: Pos,
    named: Option<CType>,
) -> Result<Option<CType>, AllocError>
    requires { AllStand Stands checker.old.table named }
    ensures { IfOk result (OfType IsType (rules.parameter_type (scope_of checker.old) here) named checker.old checker.new) }
{
    let Some(named) = named else {
        return Ok(None);
    };
    let c_type = decayed(checker, named)?;
    let is_complete = checker.is_complete(c_type);
    if !checker.require(is_complete, TypeRule::T05, here) {
        return Ok(None);
    }
    let is_value = !is_struct(checker, c_type);
    if !checker.require(is_value, TypeRule::T19, here) {
        return Ok(None);
    }
    Ok(Some(c_type))
}

/// What an array or a function is as a parameter: a pointer.
fn decayed(checker: &mut Checker, c_type: CType) -> Result<CType, AllocError>
    requires { Stands checker.old.table c_type }
    ensures { IfOk result (λ made. Finds IsType (give (T.decayed (type_in checker.old.table c_type))) checker.old checker.new (Some made)) }
{
    match checker.shape(c_type) {
        Shape::Array { element, .. } => checker.pointer_to(element),
        Shape::Function { .. } => checker.pointer_to(c_type),
        _ => Ok(c_type),
    }
}

/// Whether it is `void` (C17 6.2.5 paragraph 19).
pub fn is_void(checker: &Checker, c_type: CType) -> bool
    requires { Stands checker.now.table c_type }
    ensures { result ≡ T.is_void (type_in checker.now.table c_type) }
{
    match checker.shape(c_type) {
        Shape::Void => true,
        _ => false,
    }
}
