// Words of types, and names in declarators (C17 6.7.2, 6.7.6).

ghost use Rattle.std.specs.Prelude.{◌≡◌, IfOk, option_map};
ghost use Rattle.c_syntax.specs.Views.{words_tree, declarator_tree, direct_tree, optional_of, parameters_of, name_tree};
ghost use Rattle.c_typed.specs.Table.{Stands, type_in};
ghost use Rattle.c_rules.specs.Known.{known_already};
ghost use Rattle.c_rules.specs.Expressions as rules;
ghost use Rattle.c_types_state.specs.Finding.{Finds, IsType, AllStand, each_in};
ghost use Rattle.c_types_state.specs.NameTables.{scope_of};
ghost use Rattle.c_types_expressions.specs.Roles.{role_of};

use crate::role::LengthRole;
use c_rules::TypeRule;
use c_syntax::{Declarator, Direct, Name, Parameter, Simple, SimpleKind};
use c_typed::CType;
use c_types_state::Checker;
use run_theory::Pos;
use std::alloc::AllocError;

/// The type that words name (C17 6.7.2).
pub fn words_type(checker: &mut Checker, simple: &Simple) -> Result<Option<CType>, AllocError>
    ensures { IfOk result (Finds IsType (rules.words_type (scope_of checker.old) (words_tree simple.now)) checker.old checker.new) }
{
    match &simple.kind {
        SimpleKind::Void => Ok(Some(CType::VOID)),
        SimpleKind::Integer(int_type) => Ok(Some(CType::integer(*int_type))),
        SimpleKind::Struct(tag) => {
            let is_declared = checker.declares_tag(tag);
            if !checker.require(is_declared, TypeRule::T03, tag.place) {
                return Ok(None);
            }
            Ok(Some(checker.struct_type(tag.bytes.as_slice())?))
        }
    }
}

/// So many pointers to a type (C17 6.7.6.1).
pub(crate) fn pointed(
    checker: &mut Checker,
    stars: usize,
    base: Option<CType>,
) -> Result<Option<CType>, AllocError>
    requires { AllStand Stands checker.old.table base }
    ensures { IfOk result (Finds IsType (known_already (rules.pointed stars (each_in type_in checker.old.table base))) checker.old checker.new) }
{
    let Some(base) = base else {
        return Ok(None);
    };
    let mut c_type = base;
    for _ in 0..stars {
        c_type = checker.pointer_to(c_type)?;
    }
    Ok(Some(c_type))
}

/// Where the length next to the name may be left out: nowhere, where a declarator stands between.
pub(crate) fn role_outside(direct: &Direct, role: LengthRole) -> LengthRole
    ensures { role_of result ≡ rules.role_outside (direct_tree direct.now) (role_of role) }
{
    if adds(direct) {
        LengthRole::Required
    } else {
        role
    }
}

/// Whether what a declarator is built on says more than its name.
pub fn adds(direct: &Direct) -> bool
    ensures { result ≡ rules.direct_adds (direct_tree direct.now) }
{
    match direct {
        Direct::Nested(inner) => {
            inner.stars > 0 || !inner.suffixes.is_empty() || adds(&inner.direct)
        }
        Direct::Named(_) => false,
        Direct::Nothing => false,
    }
}

/// The declared name.
pub fn declared_name(declarator: &Declarator) -> Option<&Name>
    ensures { option_map (λ name. name_tree name.now) result ≡ rules.declared_name (declarator_tree declarator.now) }
{
    match &declarator.direct {
        Direct::Named(name) => Some(name),
        Direct::Nested(inner) => declared_name(inner),
        Direct::Nothing => None,
    }
}

/// The name of a declarator that may be left out.
pub fn optional_name(declarator: &Option<Declarator>) -> Option<&Name>
    ensures { option_map (λ name. name_tree name.now) result ≡ rules.optional_name (optional_of declarator.now) }
{
    match declarator {
        Some(declarator) => declared_name(declarator),
        None => None,
    }
}

/// The place of a name, else another.
pub fn name_place(name: Option<&Name>, place: Pos) -> Pos
    ensures { result ≡ rules.name_place (option_map (λ name. name_tree name.now) name.entry) place }
{
    match name {
        Some(name) => name.place,
        None => place,
    }
}

/// Whether a parameter list is `(void)` (C17 6.7.6.3 paragraph 10).
pub fn is_void_alone(parameters: &[Parameter]) -> bool
    ensures { result ≡ rules.is_void_alone (parameters_of parameters.now) }
{
    match parameters {
        [
            Parameter {
                simple: Simple {
                    kind: SimpleKind::Void,
                    ..
                },
                declarator: None,
            },
        ] => true,
        _ => false,
    }
}
