// Functions: the blocks of their points one behind another.

ghost use Rattle.std.specs.Prelude.{◌≡◌, IfOk};
ghost use Rattle.pool_ir.specs.Views.{function_of};
ghost use Rattle.stack_code.specs.Emitting.{emitted_function, function_code};
ghost use Rattle.stack_code.specs.Fits.{ArePlaces, UnitFits};
ghost use Rattle.stack_code.specs.Units.{unit_function};

use crate::heights;
use crate::points::push_block;
use crate::pools::push_actions;
use crate::units::Unit;
use pool_ir::Function;
use pool_isa::Instr;
use std::alloc::{AllocError, Global};

/// Where the block of each point begins: blocks are as long wherever they lie.
fn places(alloc: Global, function: &Function) -> Result<Vec<u64>, AllocError>
    requires { UnitFits (function_of function.now) }
    ensures { IfOk result (λ places. ArePlaces (function_of function.now) places.items) }
{
    let nowhere = vec![in alloc; 0u64; function.points.len()]?;
    let mut places = Vec::new(alloc);
    let mut code = Vec::new(alloc);
    push_actions(&mut code, function, &function.entering)?;
    for (number, op) in function.points.iter().enumerate() {
        places.push(code.len() as u64)?;
        push_block(&mut code, function, &nowhere, number, op)?;
    }
    Ok(places)
}

/// The instructions of a function.
fn instructions(alloc: Global, function: &Function) -> Result<Vec<Instr>, AllocError>
    requires { UnitFits (function_of function.now) }
    ensures { IfOk result (λ code. code.items ≡ function_code (function_of function.now)) }
{
    let places = places(alloc, function)?;
    let mut code = Vec::new(alloc);
    push_actions(&mut code, function, &function.entering)?;
    for (number, op) in function.points.iter().enumerate() {
        push_block(&mut code, function, &places, number, op)?;
    }
    Ok(code)
}

/// A function for the machine.
pub(crate) fn unit(alloc: Global, function: &Function) -> Result<Unit, AllocError>
    requires { UnitFits (function_of function.now) }
    ensures { IfOk result (λ unit. unit_function unit ≡ emitted_function (function_of function.now)) }
{
    let code = instructions(alloc, function)?;
    let taken = function.taken + function.frame.parameters;
    Ok(Unit {
        parameters: taken as u32,
        extra: (function.frame.size - 8 * taken as u64) as u32,
        height: heights::of_function(function),
        signature: function.signature.0 as u32,
        code,
    })
}
