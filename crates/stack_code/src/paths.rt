// Paths, each of which pushes an address, and what stands in the slot there.

ghost use Rattle.std.specs.Prelude.{◌≡◌, ◌++◌, map, OnOk};
ghost use Rattle.std.specs.List.{AllByRecursion};
ghost use Rattle.pool_ir.specs.Views.{base_of, frame_of, function_of, path_of, slot_of, step_of};
ghost use Rattle.stack_code.specs.Emitting.{base_code, loading, path_code, scaled, step_code, steps_code, storing, width_of};
ghost use Rattle.stack_code.specs.Fitting.{BaseFits, PathFits, SlotFits, StepFits, TreeFits};
ghost use Rattle.stack_code.specs.Fits.{FrameServes};
ghost use Rattle.stack_code.specs.FitsImage.{BaseInRange, PathInRange};
ghost use Rattle.tac_ir.specs.Views.{tree_of};

use crate::trees::push_tree;
use crate::words::{LOAD, STORE, push_descriptor, push_register};
use c_num::{BinOp, IntType};
use pool_ir::{Base, Function, Path, Slot, Step};
use pool_isa::{Instr, Width};
use std::alloc::AllocError;
use tac_ir::Tree;

/// Where the globals begin.
const GLOBALS_START: u64 = 4096;

/// Adds two words.
const ADD: Instr = Instr::Binary(BinOp::Add, IntType::ULong);

/// Multiplies two words.
const MULTIPLY: Instr = Instr::Binary(BinOp::Mul, IntType::ULong);

/// Appends what pushes so many elements of a size, as bytes.
pub(crate) fn push_scaled(
    code: &mut Vec<Instr>,
    function: &Function,
    size: u64,
    number: &Tree,
) -> Result<(), AllocError>
    requires frame { FrameServes (function_of function.now) }
    requires fits { TreeFits (frame_of function.now.frame) (tree_of number.now) }
    ensures { OnOk result (code.new.items ≡ code.old.items ++ scaled (function_of function.now) size (tree_of number.now)) }
{
    push_tree(code, function, number)?;
    code.extend_from_slice(&[Instr::Constant(size), MULTIPLY])
}

/// Appends what pushes the address where a path begins.
fn push_base(code: &mut Vec<Instr>, function: &Function, base: &Base) -> Result<(), AllocError>
    requires frame { FrameServes (function_of function.now) }
    requires fits { BaseFits (frame_of function.now.frame) (base_of base.now) }
    requires range { BaseInRange (base_of base.now) }
    ensures { OnOk result (code.new.items ≡ code.old.items ++ base_code (function_of function.now) (base_of base.now)) }
{
    match base {
        Base::Frame(offset) => code.extend_from_slice(&[Instr::Local(*offset)]),
        Base::Globals(offset) => {
            code.extend_from_slice(&[Instr::Constant(GLOBALS_START + *offset)])
        }
        Base::Pointed(pointer) => push_register(code, function, *pointer),
        Base::Indexed {
            pointer,
            size,
            number,
        } => {
            push_register(code, function, *pointer)?;
            push_scaled(code, function, *size, number)?;
            code.extend_from_slice(&[ADD])
        }
    }
}

/// Appends what takes a step from an address.
fn push_step(code: &mut Vec<Instr>, function: &Function, step: &Step) -> Result<(), AllocError>
    requires frame { FrameServes (function_of function.now) }
    requires fits { StepFits (frame_of function.now.frame) (step_of step.now) }
    ensures { OnOk result (code.new.items ≡ code.old.items ++ step_code (function_of function.now) (step_of step.now)) }
{
    match step {
        Step::Member(offset) => code.extend_from_slice(&[Instr::Constant(*offset), ADD]),
        Step::Element { size, index } => {
            push_scaled(code, function, *size, index)?;
            code.extend_from_slice(&[ADD])
        }
    }
}

/// Appends what takes steps from an address.
fn push_steps(code: &mut Vec<Instr>, function: &Function, steps: &[Step]) -> Result<(), AllocError>
    requires frame { FrameServes (function_of function.now) }
    requires fits { AllByRecursion (StepFits (frame_of function.now.frame)) (map step_of steps.now) }
    ensures { OnOk result (code.new.items ≡ code.old.items ++ steps_code (function_of function.now) (map step_of steps.now)) }
{
    for step in steps {
        push_step(code, function, step)?;
    }
    Ok(())
}

/// Appends what pushes the address that a path leads to.
pub(crate) fn push_path(
    code: &mut Vec<Instr>,
    function: &Function,
    path: &Path,
) -> Result<(), AllocError>
    requires frame { FrameServes (function_of function.now) }
    requires fits { PathFits (frame_of function.now.frame) (path_of path.now) }
    requires range { PathInRange (path_of path.now) }
    ensures { OnOk result (code.new.items ≡ code.old.items ++ path_code (function_of function.now) (path_of path.now)) }
{
    push_base(code, function, &path.base)?;
    push_steps(code, function, &path.steps)
}

/// How many bytes a value of the type has.
fn width(int_type: IntType) -> Width
    ensures { result ≡ width_of int_type }
{
    match int_type {
        IntType::Char | IntType::UChar => Width::One,
        IntType::Short | IntType::UShort => Width::Two,
        IntType::Int | IntType::UInt => Width::Four,
        IntType::Long | IntType::ULong => Width::Eight,
    }
}

/// Appends what loads from a slot.
pub(crate) fn push_loading(
    code: &mut Vec<Instr>,
    function: &Function,
    slot: Slot,
) -> Result<(), AllocError>
    requires frame { FrameServes (function_of function.now) }
    requires fits { SlotFits (frame_of function.now.frame) (slot_of slot) }
    ensures { OnOk result (code.new.items ≡ code.old.items ++ loading (function_of function.now) (slot_of slot)) }
{
    match slot {
        Slot::Integer(int_type) => code.extend_from_slice(&[Instr::Load(int_type)]),
        Slot::Address => code.extend_from_slice(&[LOAD]),
        Slot::Index(descriptor) => {
            push_descriptor(code, function, descriptor)?;
            code.extend_from_slice(&[Instr::LoadLink])
        }
    }
}

/// Appends what stores to a slot.
pub(crate) fn push_storing(
    code: &mut Vec<Instr>,
    function: &Function,
    slot: Slot,
) -> Result<(), AllocError>
    requires frame { FrameServes (function_of function.now) }
    requires fits { SlotFits (frame_of function.now.frame) (slot_of slot) }
    ensures { OnOk result (code.new.items ≡ code.old.items ++ storing (function_of function.now) (slot_of slot)) }
{
    match slot {
        Slot::Integer(int_type) => code.extend_from_slice(&[Instr::Store(width(int_type))]),
        Slot::Address => code.extend_from_slice(&[STORE]),
        Slot::Index(descriptor) => {
            push_descriptor(code, function, descriptor)?;
            code.extend_from_slice(&[Instr::StoreLink])
        }
    }
}
