// The words of a frame, which hold descriptors and registers.

ghost use Rattle.std.specs.Prelude.{◌≡◌, ◌*◌, ◌<◌, ◌++◌, OnOk};
ghost use Rattle.pool_ir.specs.Frames.{word_of_descriptor, word_of_register};
ghost use Rattle.pool_ir.specs.Views.{frame_of, function_of};
ghost use Rattle.stack_code.specs.Emitting.{descriptor_code, register_code};
ghost use Rattle.stack_code.specs.Standing.{HasDescriptor, HasRegister};
ghost use Rattle.stack_code.specs.Fits.{FrameServes};

use c_num::IntType;
use pool_ir::{Descriptor, Function};
use pool_isa::{Instr, Width};
use std::alloc::AllocError;
use tac_ir::{Local, Register};

/// Loads a word.
pub(crate) const LOAD: Instr = Instr::Load(IntType::ULong);

/// Stores a word.
pub(crate) const STORE: Instr = Instr::Store(Width::Eight);

/// Which word of the frame holds a descriptor.
fn descriptor_word(function: &Function, descriptor: Descriptor) -> usize
    requires frame { FrameServes (function_of function.now) }
    requires has { HasDescriptor (frame_of function.now.frame) descriptor.0 }
    ensures word { result ≡ word_of_descriptor (function_of function.now) descriptor.0 }
    ensures low { result < 8388608 }
{
    if descriptor.0 < function.taken {
        descriptor.0
    } else {
        function.frame.parameters + descriptor.0
    }
}

/// Which word of the frame holds a register.
fn register_word(function: &Function, register: Register) -> usize
    requires frame { FrameServes (function_of function.now) }
    requires has { HasRegister (frame_of function.now.frame) register }
    ensures word { result ≡ word_of_register (function_of function.now) register }
    ensures low { result < 8388608 }
{
    let frame = &function.frame;
    let counts = frame.registers;
    let variables = frame.descriptors + frame.parameters;
    let calls = variables + counts.variables;
    let arguments = calls + counts.calls;
    let expressions = arguments + counts.arguments;
    match register {
        Register::Local(Local::Parameter(number)) => function.taken + number,
        Register::Local(Local::Variable(number)) => variables + number,
        Register::Call(number) => calls + number,
        Register::Argument(number) => arguments + number,
        Register::Expression(number) => expressions + number,
        Register::Temporary(number) => expressions + counts.expressions + number,
    }
}

/// Pushes the address of a descriptor's word.
pub(crate) fn descriptor_address(function: &Function, descriptor: Descriptor) -> Instr
    requires frame { FrameServes (function_of function.now) }
    requires has { HasDescriptor (frame_of function.now.frame) descriptor.0 }
    ensures { result ≡ Instr.Local (8 * word_of_descriptor (function_of function.now) descriptor.0) }
{
    Instr::Local(8 * descriptor_word(function, descriptor) as u64)
}

/// Pushes the address of a register's word.
pub(crate) fn register_address(function: &Function, register: Register) -> Instr
    requires frame { FrameServes (function_of function.now) }
    requires has { HasRegister (frame_of function.now.frame) register }
    ensures { result ≡ Instr.Local (8 * word_of_register (function_of function.now) register) }
{
    Instr::Local(8 * register_word(function, register) as u64)
}

/// Appends what pushes the pool that a descriptor holds.
pub(crate) fn push_descriptor(
    code: &mut Vec<Instr>,
    function: &Function,
    descriptor: Descriptor,
) -> Result<(), AllocError>
    requires frame { FrameServes (function_of function.now) }
    requires has { HasDescriptor (frame_of function.now.frame) descriptor.0 }
    ensures { OnOk result (code.new.items ≡ code.old.items ++ descriptor_code (function_of function.now) descriptor.0) }
{
    code.extend_from_slice(&[descriptor_address(function, descriptor), LOAD])
}

/// Appends what pushes the word of a register.
pub(crate) fn push_register(
    code: &mut Vec<Instr>,
    function: &Function,
    register: Register,
) -> Result<(), AllocError>
    requires frame { FrameServes (function_of function.now) }
    requires has { HasRegister (frame_of function.now.frame) register }
    ensures { OnOk result (code.new.items ≡ code.old.items ++ register_code (function_of function.now) register) }
{
    code.extend_from_slice(&[register_address(function, register), LOAD])
}
