// The parameters of a function, as its first locals (C17 6.9.1).

ghost use Rattle.std.specs.Prelude.{◌≡◌, IfOk, OnOk, length};
ghost use Rattle.c_syntax.specs.Views.{declarator_tree, suffixes_of, parameters_of};
ghost use Rattle.c_rules.specs.Expressions as expressions;
ghost use Rattle.c_rules.specs.Programs as rules;
ghost use Rattle.c_types_state.specs.NameTables.{scope_of};
ghost use Rattle.c_types.specs.Outside.{IsOutside, AllKnown};
ghost use Rattle.c_types.specs.Checked.{CoversEntered, MakesTypes, MakesParameter, DeclaresParameters};

use c_rules::TypeRule;
use c_syntax::{Declarator, Direct, Parameter, Suffix};
use c_typed::CType;
use c_types_expressions::{
    LengthRole, Pass, adds, is_void_alone, optional_name, optional_type, parameter_type, words_type,
};
use std::alloc::AllocError;

/// The parameters of a function's own list, which stands next to its name.
pub fn own_parameters(declarator: &Declarator) -> &[Parameter]
    ensures { parameters_of result.now ≡ rules.own_parameters (declarator_tree declarator.now) }
{
    match &declarator.direct {
        Direct::Nested(inner) if declarator_adds(inner) => own_parameters(inner),
        _ => first_parameters(declarator.suffixes.as_slice()),
    }
}

/// Whether a declarator says more than its name.
fn declarator_adds(declarator: &Declarator) -> bool
    ensures { result ≡ expressions.adds (declarator_tree declarator.now) }
{
    declarator.stars > 0 || !declarator.suffixes.is_empty() || adds(&declarator.direct)
}

/// The parameters of a list that follows first.
fn first_parameters(suffixes: &[Suffix]) -> &[Parameter]
    ensures { parameters_of result.now ≡ rules.first_parameters (suffixes_of suffixes.now) }
{
    match suffixes {
        [first, ..] => match first {
            Suffix::Function(parameters) => parameters.as_slice(),
            Suffix::Array(_) => &[],
        },
        [] => &[],
    }
}

/// Enters a function, whose parameters are its first locals, each with a name. What their types violate was noted before, as
/// that of the function's type. The number that it returns is for leaving the function.
pub(crate) fn enter_function(pass: &mut Pass, declarator: &Declarator) -> Result<usize, AllocError>
    requires { IsOutside (scope_of pass.old.checker) }
    ensures covers { OnOk result (CoversEntered (rules.own_parameters (declarator_tree declarator.now)) pass.old pass.new) }
    ensures outer { IfOk result (λ outer. outer ≡ 0) }
{
    let parameters = own_parameters(declarator);
    if is_void_alone(parameters) {
        return Ok(pass.checker.enter());
    }
    let types = parameter_locals(pass, parameters)?;
    let outer = pass.checker.enter();
    declare_parameters(pass, parameters, types.as_slice())?;
    Ok(outer)
}

/// The types of parameters as locals, without noting anything once more.
fn parameter_locals(
    pass: &mut Pass,
    parameters: &[Parameter],
) -> Result<Vec<Option<CType>>, AllocError>
    ensures made { IfOk result (MakesTypes (parameters_of parameters.now) pass.old pass.new) }
    ensures length { IfOk result (λ types. length types.items ≡ length parameters.now) }
{
    let mut types = Vec::new(pass.alloc());
    for parameter in parameters {
        types.push(parameter_local(pass, parameter)?)?;
    }
    Ok(types)
}

/// The type of a parameter with a name, adjusted.
fn parameter_local(pass: &mut Pass, parameter: &Parameter) -> Result<Option<CType>, AllocError>
    ensures { IfOk result (MakesParameter parameter.now pass.old pass.new) }
{
    let Some(name) = optional_name(&parameter.declarator) else {
        return Ok(None);
    };
    let here = name.place;
    let least = pass.checker.least();
    let named = pass.named.len();
    let base = words_type(&mut pass.checker, &parameter.simple)?;
    let declared = optional_type(
        pass,
        here,
        LengthRole::Adjusted,
        base,
        &parameter.declarator,
    )?;
    let c_type = parameter_type(&mut pass.checker, here, declared)?;
    pass.checker.restore(least);
    pass.named.truncate(named);
    Ok(c_type)
}

/// Declares parameters, each of which has a name, with these types.
fn declare_parameters(
    pass: &mut Pass,
    parameters: &[Parameter],
    types: &[Option<CType>],
) -> Result<(), AllocError>
    requires length { length types.now ≡ length parameters.now }
    requires stand { AllKnown pass.old.checker.table types.now }
    ensures { OnOk result (DeclaresParameters (parameters_of parameters.now) types.now pass.old pass.new) }
{
    for index in 0..parameters.len() {
        let parameter = &parameters[index];
        match optional_name(&parameter.declarator) {
            Some(name) => {
                pass.checker
                    .declare_local(name.bytes.as_slice(), types[index])?;
            }
            None => pass.checker.note(TypeRule::T05, parameter.simple.place),
        }
    }
    Ok(())
}
