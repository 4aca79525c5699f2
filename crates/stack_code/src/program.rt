// Programs.

ghost use Rattle.std.specs.Prelude.{◌≡◌, IfOk};
ghost use Rattle.pool_ir.specs.Views.{code_of};
ghost use Rattle.stack_code.specs.Emitting.{emitted};
ghost use Rattle.stack_code.specs.Units.{units_code};
ghost use Rattle.stack_code.specs.FitsImage.{FitsImage};

use crate::functions::unit;
use crate::units::Units;
use pool_ir::PoolCode;
use std::alloc::{AllocError, Global};

/// The instructions of a program. The time is linear in the size of the code where functions have few edges: each way from a point looks
/// for its edge among those of the function.
pub fn emit(alloc: Global, code: &PoolCode) -> Result<Units, AllocError>
    requires fits { FitsImage (code_of code.now) }
    ensures code { IfOk result (λ units. units_code units ≡ emitted (code_of code.now)) }
{
    let mut functions = Vec::new(alloc);
    functions.push(unit(alloc, &code.start)?)?;
    for function in &code.functions {
        functions.push(unit(alloc, function)?)?;
    }
    Ok(Units {
        functions,
        kinds: Vec::from_slice(alloc, &code.kinds)?,
        globals: code.globals as u32,
        contents: Vec::from_slice(alloc, &code.contents)?,
    })
}
