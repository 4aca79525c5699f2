// Types of variables outside functions and of literals.

ghost use Rattle.std.specs.Prelude.{◌≡◌, slice_get};
ghost use Rattle.c_typed.specs.Table.{type_in};
ghost use Rattle.c_typed.specs.DefinitionViews.{LiteralsStand};
ghost use Rattle.tac_ir.specs.Objects.{global_type, literal_object};
ghost use Rattle.tac_ir.specs.Views.{tac_of};
ghost use Rattle.heap_graph.specs.Points as P;

use c_typed::CType;
use tac_ir::{GlobalId, LiteralId, Tac};

/// The type of a variable outside functions.
pub(crate) fn global_type(tac: &Tac, global: GlobalId) -> CType
    ensures { type_in tac.now.types result ≡ P.type_of_inner (global_type (slice_get (tac_of tac.now).globals global.0)) }
{
    match tac.globals.get(global.0) {
        Some(definition) => definition.c_type,
        None => CType::VOID,
    }
}

/// The type of a literal.
pub(crate) fn literal_type(tac: &Tac, literal: LiteralId) -> CType
    requires { LiteralsStand tac.now.types tac.now.literals.items }
    ensures { type_in tac.now.types result ≡ P.type_of_inner (literal_object (slice_get (tac_of tac.now).literals literal.0)) }
{
    match tac.literals.get(literal.0) {
        Some(definition) => definition.c_type,
        None => CType::VOID,
    }
}
