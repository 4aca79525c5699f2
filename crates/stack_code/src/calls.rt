// Calls of functions.

ghost use Rattle.std.specs.Prelude.{◌≡◌, ◌++◌, OnOk};
ghost use Rattle.std.specs.List.{AllByRecursion};
ghost use Rattle.pool_ir.specs.Views.{callee_of, descriptors_of, frame_of, function_of};
ghost use Rattle.stack_code.specs.Emitting.{callee_code, calling, descriptors_code, passing, registers_code};
ghost use Rattle.stack_code.specs.Fitting.{CalleeFits};
ghost use Rattle.stack_code.specs.Standing.{HasDescriptor, HasRegister};
ghost use Rattle.stack_code.specs.Fits.{FrameServes};
ghost use Rattle.stack_code.specs.FitsImage.{CalleeInRange};

use crate::words::{push_descriptor, push_register, register_address};
use pool_ir::{Callee, Descriptor, Function};
use pool_isa::Instr;
use std::alloc::AllocError;
use tac_ir::Register;

/// Appends what pushes the words of registers.
fn push_registers(
    code: &mut Vec<Instr>,
    function: &Function,
    registers: &[Register],
) -> Result<(), AllocError>
    requires frame { FrameServes (function_of function.now) }
    requires fit { AllByRecursion (HasRegister (frame_of function.now.frame)) registers.now }
    ensures { OnOk result (code.new.items ≡ code.old.items ++ registers_code (function_of function.now) registers.now) }
{
    for register in registers {
        push_register(code, function, *register)?;
    }
    Ok(())
}

/// Appends what pushes the pools that descriptors hold.
fn push_descriptors(
    code: &mut Vec<Instr>,
    function: &Function,
    descriptors: &[Descriptor],
) -> Result<(), AllocError>
    requires frame { FrameServes (function_of function.now) }
    requires fit { AllByRecursion (HasDescriptor (frame_of function.now.frame)) (descriptors_of descriptors.now) }
    ensures { OnOk result (code.new.items ≡ code.old.items ++ descriptors_code (function_of function.now) (descriptors_of descriptors.now)) }
{
    for descriptor in descriptors {
        push_descriptor(code, function, *descriptor)?;
    }
    Ok(())
}

/// Appends what pushes the word of a function that a pointer tells.
fn push_callee(code: &mut Vec<Instr>, function: &Function, callee: Callee) -> Result<(), AllocError>
    requires frame { FrameServes (function_of function.now) }
    requires fits { CalleeFits (frame_of function.now.frame) (callee_of callee) }
    ensures { OnOk result (code.new.items ≡ code.old.items ++ callee_code (function_of function.now) (callee_of callee)) }
{
    match callee {
        Callee::Function(_) => Ok(()),
        Callee::Through { pointer, .. } => push_register(code, function, pointer),
    }
}

/// Appends what pushes the address of a call's register, the pools that are passed, and the arguments.
pub(crate) fn push_passing(
    code: &mut Vec<Instr>,
    function: &Function,
    site: usize,
    callee: Callee,
    arguments: &[Register],
    pools: &[Descriptor],
) -> Result<(), AllocError>
    requires frame { FrameServes (function_of function.now) }
    requires site { HasRegister (frame_of function.now.frame) (Register.Call site) }
    requires callee { CalleeFits (frame_of function.now.frame) (callee_of callee) }
    requires arguments { AllByRecursion (HasRegister (frame_of function.now.frame)) arguments.now }
    requires pools { AllByRecursion (HasDescriptor (frame_of function.now.frame)) (descriptors_of pools.now) }
    ensures { OnOk result (code.new.items ≡ code.old.items ++ passing (function_of function.now) site (callee_of callee) arguments.now (descriptors_of pools.now)) }
{
    code.push(register_address(function, Register::Call(site)))?;
    push_descriptors(code, function, pools)?;
    push_registers(code, function, arguments)?;
    push_callee(code, function, callee)
}

/// Calls a function. Function 0 of the machine is `start`.
pub(crate) fn call(callee: Callee) -> Instr
    requires { CalleeInRange 4096 (callee_of callee) }
    ensures { result ≡ calling (callee_of callee) }
{
    match callee {
        Callee::Function(function) => Instr::Call(function.0 as u64 + 1),
        Callee::Through { signature, .. } => Instr::CallIndirect(signature.0 as u64),
    }
}
