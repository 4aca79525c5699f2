// Whether the graph of `start` keeps what first values ask.

ghost use Rattle.std.specs.Prelude.{◌≡◌, IfOk};
ghost use Rattle.c_typed.specs.DefinitionViews.{LiteralsStand};
ghost use Rattle.tac_ir.specs.States.{InStart};
ghost use Rattle.tac_ir.specs.Views.{tac_of};
ghost use Rattle.heap_graph.specs.Closed.{Family, first_closed};
ghost use Rattle.heap_graph.specs.Shows.{ShowsGraph};

use crate::values::Values;
use heap_graph::{FrozenGraph, StaticNumbers};
use std::alloc::{AllocError, Global};
use tac_ir::Tac;

/// Whether the graph of `start` keeps what first values ask.
pub fn first_closed(alloc: Global, tac: &Tac, start: &FrozenGraph) -> Result<bool, AllocError>
    requires { LiteralsStand tac.now.types tac.now.literals.items }
    ensures { IfOk result (λ closed. (family : Family) → family.tac ≡ tac_of tac.now → ShowsGraph tac.now.types family InStart start.now → closed ≡ first_closed family 0 family.tac.globals) }
{
    let numbers = StaticNumbers::of_program(alloc, tac)?;
    let values = Values {
        tac,
        start,
        numbers: &numbers,
    };
    Ok(values.globals_closed(tac.globals.as_slice()))
}
