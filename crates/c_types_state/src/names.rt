// Declared names.

ghost use Rattle.std.specs.Prelude.{◌≡◌, option_map};
ghost use Rattle.c_syntax.specs.Views.{declarator_tree, name_tree};
ghost use Rattle.c_rules.specs.Expressions as rules;

use c_syntax::{Declarator, Direct, Name};

/// The name that a declarator declares (C17 6.7.6).
pub fn declared_name(declarator: &Declarator) -> Option<&Name>
    ensures { option_map (λ name. name_tree name.now) result ≡ rules.declared_name (declarator_tree declarator.now) }
{
    match &declarator.direct {
        Direct::Named(name) => Some(name),
        Direct::Nested(inner) => declared_name(inner),
        Direct::Nothing => None,
    }
}
