// Variables outside functions and literals.

ghost use Rattle.std.specs.Prelude.{◌≡◌, slice_get};
ghost use Rattle.c_typed.specs.Table.{type_in};
ghost use Rattle.c_typed.specs.DefinitionViews.{LiteralsStand};
ghost use Rattle.tac_ir.specs.Objects.{global_type, literal_object};
ghost use Rattle.tac_ir.specs.Views.{tac_of};
ghost use Rattle.heap_graph.specs.Points as P;
ghost use Rattle.heap_graph.specs.TargetParts.Parts.{root_in, global_part, literal_part};

use crate::frozen::FrozenGraph;
use crate::parts::Root;
use c_typed::CType;
use tac_ir::{GlobalId, LiteralId, Tac};

/// A variable outside functions.
pub fn global_root(tac: &Tac, graph: &FrozenGraph, global: GlobalId) -> Root
    ensures { root_in tac.now.types result ≡ global_part (tac_of tac.now) graph.now global.0 }
{
    Root {
        target: graph.global(global),
        c_type: global_type(tac, global),
    }
}

/// A literal.
pub fn literal_root(tac: &Tac, graph: &FrozenGraph, literal: LiteralId) -> Root
    requires { LiteralsStand tac.now.types tac.now.literals.items }
    ensures { root_in tac.now.types result ≡ literal_part (tac_of tac.now) graph.now literal.0 }
{
    Root {
        target: graph.literal(literal),
        c_type: literal_type(tac, literal),
    }
}

/// The type of a variable outside functions.
fn global_type(tac: &Tac, global: GlobalId) -> CType
    ensures { type_in tac.now.types result ≡ P.type_of_inner (global_type (slice_get (tac_of tac.now).globals global.0)) }
{
    match tac.globals.get(global.0) {
        Some(definition) => definition.c_type,
        None => CType::VOID,
    }
}

/// The type of a literal.
fn literal_type(tac: &Tac, literal: LiteralId) -> CType
    requires { LiteralsStand tac.now.types tac.now.literals.items }
    ensures { type_in tac.now.types result ≡ P.type_of_inner (literal_object (slice_get (tac_of tac.now).literals literal.0)) }
{
    match tac.literals.get(literal.0) {
        Some(definition) => definition.c_type,
        None => CType::VOID,
    }
}
