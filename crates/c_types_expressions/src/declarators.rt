// The names of types, and declarators (C17 6.7.6, 6.7.7).

ghost use Rattle.std.specs.Prelude.{◌∷◌, [], IfOk, OnOk};
ghost use Rattle.c_syntax.specs.Views.{expr_tree, type_tree, optional_of, declarator_tree, suffixes_of, parameters_of};
ghost use Rattle.c_typed.specs.Table.{Stands};
ghost use Rattle.c_types_state.specs.Checkers.{names_of};
ghost use Rattle.c_types_state.specs.Finding.{AllStand};
ghost use Rattle.c_types_expressions.specs.Suffixes.{suffix_of};
ghost use Rattle.c_types_expressions.specs.Parts.{PassesTypeName, PassesOptional, PassesDeclarator, PassesSuffixes, PassesSuffix};
ghost use Rattle.c_types_expressions.specs.Parts.{PassesLength, PassesParameters, PassesParameter, parameter_name, AddsName};

use crate::derived::{
    array_of, as_element, as_result, constant_value, function_of, list_of, missing_length,
    note_parameter, parameter_type, positive,
};
use crate::expressions::expr;
use crate::pass::Pass;
use crate::place::place_of;
use crate::role::LengthRole;
use crate::words::{is_void_alone, name_place, optional_name, pointed, role_outside, words_type};
use c_syntax::{Declarator, Direct, Expr, Parameter, Suffix, TypeName};
use c_typed::{CType, Parameters};
use c_types_state::as_integer;
use indexmap::IndexSet;
use run_theory::Pos;
use std::alloc::AllocError;

/// A type name (C17 6.7.7).
#[cycle(expr)]
pub(crate) fn type_named(pass: &mut Pass, type_name: &TypeName) -> Result<Option<CType>, AllocError>
    ensures { IfOk result (PassesTypeName (type_tree type_name.now) pass.old pass.new) }
{
    let here = type_name.simple.place;
    let base = words_type(&mut pass.checker, &type_name.simple)?;
    let c_type = optional_type(
        pass,
        here,
        LengthRole::Required,
        base,
        &type_name.declarator,
    )?;
    pass.name_type(here, c_type)?;
    Ok(c_type)
}

/// The type that a declarator, where there is one, makes of that of the words before it; the declared name, or what stands
/// for it, is here.
#[cycle(expr)]
pub fn optional_type(
    pass: &mut Pass,
    here: Pos,
    role: LengthRole,
    base: Option<CType>,
    declarator: &Option<Declarator>,
) -> Result<Option<CType>, AllocError>
    requires { AllStand Stands pass.old.checker.table base }
    ensures { IfOk result (PassesOptional here role base (optional_of declarator.now) pass.old pass.new) }
{
    match declarator {
        Some(declarator) => declared_type(pass, here, role, base, declarator),
        None => Ok(base),
    }
}

/// The type of a declared name, where the words before it name this one; the name, or what stands for it, is here.
#[cycle(expr)]
pub fn declared_type(
    pass: &mut Pass,
    here: Pos,
    role: LengthRole,
    base: Option<CType>,
    declarator: &Declarator,
) -> Result<Option<CType>, AllocError>
    requires { AllStand Stands pass.old.checker.table base }
    ensures { IfOk result (PassesDeclarator here role base (declarator_tree declarator.now) pass.old pass.new) }
{
    let base = pointed(&mut pass.checker, declarator.stars, base)?;
    let outside = role_outside(&declarator.direct, role);
    let outer = suffixes_type(pass, here, outside, base, declarator.suffixes.as_slice())?;
    match &declarator.direct {
        Direct::Nested(inner) => declared_type(pass, here, role, outer, inner),
        _ => Ok(outer),
    }
}

/// What follows in a declarator is read from its end.
#[cycle(expr)]
fn suffixes_type(
    pass: &mut Pass,
    here: Pos,
    role: LengthRole,
    base: Option<CType>,
    suffixes: &[Suffix],
) -> Result<Option<CType>, AllocError>
    requires { AllStand Stands pass.old.checker.table base }
    ensures { IfOk result (PassesSuffixes here role base (suffixes_of suffixes.now) pass.old pass.new) }
{
    let mut c_type = base;
    let mut index = suffixes.len();
    while index > 0 {
        index -= 1;
        let own = if index == 0 {
            role
        } else {
            LengthRole::Required
        };
        c_type = suffix_type(pass, here, own, c_type, &suffixes[index])?;
    }
    Ok(c_type)
}

/// One thing that follows, of elements or a result of this type.
#[cycle(expr)]
fn suffix_type(
    pass: &mut Pass,
    here: Pos,
    role: LengthRole,
    inner: Option<CType>,
    suffix: &Suffix,
) -> Result<Option<CType>, AllocError>
    requires { AllStand Stands pass.old.checker.table inner }
    ensures { IfOk result (PassesSuffix here role inner (suffix_of suffix.now) pass.old pass.new) }
{
    match suffix {
        Suffix::Array(length) => {
            let element = as_element(&mut pass.checker, here, inner);
            let length = match length {
                Some(value) => stated_length(pass, here, value)?,
                None => missing_length(&mut pass.checker, here, role, inner),
            };
            array_of(&mut pass.checker, element, length)
        }
        Suffix::Function(parameters) => {
            let returned = as_result(&mut pass.checker, here, inner);
            let parameters = function_parameters(pass, parameters.as_slice())?;
            function_of(&mut pass.checker, returned, parameters)
        }
    }
}

/// A length that stands there: a positive constant.
#[cycle(expr)]
fn stated_length(pass: &mut Pass, here: Pos, value: &Expr) -> Result<Option<u64>, AllocError>
    ensures { IfOk result (PassesLength here (expr_tree value.now) pass.old pass.new) }
{
    let place = place_of(value);
    let part = expr(pass, value)?;
    let Some(operand) = as_integer(&mut pass.checker, place, part)? else {
        return Ok(None);
    };
    match constant_value(&mut pass.checker, place, operand.constness) {
        Some(number) => Ok(positive(&mut pass.checker, here, number)),
        None => Ok(None),
    }
}

/// The types of a function's parameters; `(void)` has none.
#[cycle(expr)]
fn function_parameters(
    pass: &mut Pass,
    parameters: &[Parameter],
) -> Result<Option<Parameters>, AllocError>
    ensures { IfOk result (PassesParameters (parameters_of parameters.now) pass.old pass.new) }
{
    if is_void_alone(parameters) {
        return Ok(Some(pass.checker.no_parameters()?));
    }
    let mut names = IndexSet::new(pass.alloc());
    let mut types = Vec::new(pass.alloc());
    let mut are_known = true;
    for parameter in parameters {
        match one_parameter(pass, &mut names, parameter)? {
            Some(c_type) => types.push(c_type)?,
            None => are_known = false,
        }
    }
    if !are_known {
        return Ok(None);
    }
    Ok(Some(list_of(&mut pass.checker, types.as_slice())?))
}

/// A parameter's own type, behind others of these names (C17 6.7.6.3).
#[cycle(expr)]
fn one_parameter(
    pass: &mut Pass,
    names: &mut IndexSet<Vec<u8>>,
    parameter: &Parameter,
) -> Result<Option<CType>, AllocError>
    ensures found { IfOk result (PassesParameter (names_of names.old.keys) parameter.now pass.old pass.new) }
    ensures names { OnOk result (AddsName (names_of names.old.keys) (names_of names.new.keys) (parameter_name parameter.now)) }
{
    let name = optional_name(&parameter.declarator);
    let here = name_place(name, parameter.simple.place);
    note_parameter(&mut pass.checker, names, name)?;
    let base = words_type(&mut pass.checker, &parameter.simple)?;
    let named = optional_type(
        pass,
        here,
        LengthRole::Adjusted,
        base,
        &parameter.declarator,
    )?;
    let own = parameter_type(&mut pass.checker, here, named)?;
    pass.name_type(here, own)?;
    Ok(own)
}
