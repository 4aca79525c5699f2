// The words of first values.

ghost use Rattle.std.specs.Prelude.{◌≡◌};
ghost use Rattle.c_typed.specs.DefinitionViews as D;
ghost use Rattle.tac_ir.specs.First.{constant_of, static_of};
ghost use Rattle.tac_ir.specs.Views.{tac_of};
ghost use Rattle.pool_rewrite.specs.Rewriting as R;
ghost use Rattle.pool_rewrite.specs.Firsts.{IsFirstProgram, ValueFits, PlaceFits, IsAddress, IsRoot};

use crate::names::Names;
use crate::parts::element_of_row;
use crate::statics::Statics;
use c_num::{IntType, word};
use c_typed::{CType, Part, Scalar, Static};
use tac_ir::{GlobalId, LiteralId, Tac};

/// Where the globals begin.
const GLOBALS_START: u64 = 4096;

/// The word of a function is behind this one by its number and one.
const FUNCTION_WORDS: u64 = 1 << 48;

/// A static object: where it lies among the globals, and its type.
#[derive(Clone, Copy, Debug, PartialEq, Eq)]
pub(crate) struct Root {
    pub(crate) offset: u64,
    pub(crate) c_type: CType,
}

/// What a constant is in a register.
pub(crate) fn word_of(tac: &Tac, statics: &Statics, names: &Names, value: &Scalar) -> u64
    requires program { IsFirstProgram tac.now statics.now names.now }
    requires fits { ValueFits tac.now value.now }
    ensures { result ≡ R.value_word (tac_of tac.now) (constant_of (tac_of tac.now) (D.scalar_of value.now)) }
{
    match value {
        Scalar::Integer(value) => word(*value, IntType::ULong),
        Scalar::Null => 0,
        Scalar::Function(name) => match names.functions.get(name.as_slice()) {
            Some(number) => FUNCTION_WORDS + *number as u64 + 1,
            None => 0,
        },
        Scalar::Pointer { root, parts, index } => {
            address_of(tac, statics, names, root, parts.as_slice(), *index).unwrap_or(0)
        }
    }
}

/// The address of an element of a row in a static object.
fn address_of(
    tac: &Tac,
    statics: &Statics,
    names: &Names,
    root: &Static,
    parts: &[Part],
    index: u64,
) -> Option<u64>
    requires program { IsFirstProgram tac.now statics.now names.now }
    requires fits { PlaceFits tac.now root.now parts.now index }
    ensures { IsAddress tac.now root.now parts.now index result }
{
    let root = root_of(tac, statics, names, root)?;
    let element = element_of_row(&tac.types, root.c_type, parts, index)?;
    Some(GLOBALS_START + root.offset + element.offset)
}

/// The static object that a constant names.
fn root_of(tac: &Tac, statics: &Statics, names: &Names, root: &Static) -> Option<Root>
    requires program { IsFirstProgram tac.now statics.now names.now }
    ensures { IsRoot tac.now (static_of (tac_of tac.now) (D.static_of root.now)) result }
{
    match root {
        Static::Variable(name) => {
            let number = *names.globals.get(name.as_slice())?;
            Some(Root {
                offset: statics.global(GlobalId(number)),
                c_type: tac.globals.get(number)?.c_type,
            })
        }
        Static::Literal(place) => {
            let number = *names.literals.get(place)?;
            Some(Root {
                offset: statics.literal(LiteralId(number)),
                c_type: tac.literals.get(number)?.c_type,
            })
        }
    }
}
