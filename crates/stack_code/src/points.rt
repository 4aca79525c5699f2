// The block of a point: what it does is prepared, and done.

ghost use Rattle.std.specs.Prelude.{◌≡◌, ◌<◌, ◌≤◌, ◌++◌, length, OnOk, slice_index, vec_len};
ghost use Rattle.pool_ir.specs.Views.{frame_of, function_of, op_of};
ghost use Rattle.stack_code.specs.Emitting.{block, finishing, preparing};
ghost use Rattle.stack_code.specs.Fitting.{OpFits};
ghost use Rattle.stack_code.specs.Fits.{AreLow, FrameServes, NamesFit, NumbersFit};

use crate::calls::{call, push_passing};
use crate::paths::{push_loading, push_path, push_scaled, push_storing};
use crate::pools::{push_actions, push_edge};
use crate::trees::{push_operand, push_tree};
use crate::ways::{push_keeping, push_way, push_way_at_zero, push_way_or_on};
use crate::words::{push_descriptor, push_register, register_address};
use c_num::{BinOp, IntType, Relation};
use pool_ir::{Function, Op};
use pool_isa::Instr;
use std::alloc::AllocError;
use tac_ir::Register;

/// The words of functions begin behind this one, which is that of `start`.
const FUNCTION_WORDS: u64 = 1 << 48;

/// Appends what prepares a point.
fn push_preparing(code: &mut Vec<Instr>, function: &Function, op: &Op) -> Result<(), AllocError>
    requires frame { FrameServes (function_of function.now) }
    requires fits { OpFits (frame_of function.now.frame) (op_of op.now) }
    requires numbers { NumbersFit (op_of op.now) }
    ensures { OnOk result (code.new.items ≡ code.old.items ++ preparing (function_of function.now) (op_of op.now)) }
{
    match op {
        Op::Reserved => Ok(()),
        Op::Jump(_) => Ok(()),
        Op::Branch {
            int_type,
            condition,
            ..
        } => {
            push_tree(code, function, condition)?;
            code.extend_from_slice(&[Instr::Convert(*int_type)])
        }
        Op::Assign { to, tree } => {
            code.push(register_address(function, *to))?;
            push_tree(code, function, tree)
        }
        Op::Null { to } => {
            code.extend_from_slice(&[register_address(function, *to), Instr::Constant(0)])
        }
        Op::FunctionAddress {
            to,
            function: named,
        } => {
            let word = FUNCTION_WORDS + (named.0 as u64 + 1);
            code.extend_from_slice(&[register_address(function, *to), Instr::Constant(word)])
        }
        Op::Copy { to, from } => {
            code.push(register_address(function, *to))?;
            push_register(code, function, *from)
        }
        Op::Test { to, pointer } => {
            let is_not_null = Instr::Compare(Relation::Ne, IntType::ULong);
            code.push(register_address(function, *to))?;
            push_register(code, function, *pointer)?;
            code.extend_from_slice(&[Instr::Constant(0), is_not_null])
        }
        Op::Move {
            to,
            pointer,
            size,
            is_minus,
            number,
        } => {
            let operator = if *is_minus { BinOp::Sub } else { BinOp::Add };
            code.push(register_address(function, *to))?;
            push_register(code, function, *pointer)?;
            push_scaled(code, function, *size, number)?;
            code.extend_from_slice(&[Instr::Binary(operator, IntType::ULong)])
        }
        Op::Difference {
            to,
            size,
            left,
            right,
        } => {
            let subtract = Instr::Binary(BinOp::Sub, IntType::Long);
            let divide = Instr::Binary(BinOp::Div, IntType::Long);
            code.push(register_address(function, *to))?;
            push_register(code, function, *left)?;
            push_register(code, function, *right)?;
            code.extend_from_slice(&[subtract, Instr::Constant(*size), divide])
        }
        Op::ComparePointers {
            to,
            relation,
            left,
            right,
        } => {
            code.push(register_address(function, *to))?;
            push_register(code, function, *left)?;
            push_register(code, function, *right)?;
            code.extend_from_slice(&[Instr::Compare(*relation, IntType::ULong)])
        }
        Op::Address { to, path } => {
            code.push(register_address(function, *to))?;
            push_path(code, function, path)
        }
        Op::Load { to, path, .. } => {
            code.push(register_address(function, *to))?;
            push_path(code, function, path)
        }
        Op::Store { path, value, .. } => {
            push_path(code, function, path)?;
            push_operand(code, function, value)
        }
        Op::Allocate { site, size, pool } => {
            code.push(register_address(function, Register::Call(*site)))?;
            push_descriptor(code, function, *pool)?;
            push_tree(code, function, size)
        }
        Op::Free { pointer, pool, .. } => {
            push_descriptor(code, function, *pool)?;
            push_register(code, function, *pointer)
        }
        Op::Call {
            site,
            callee,
            arguments,
            pools,
        } => push_passing(code, function, *site, *callee, arguments, pools),
        Op::GetChar { site } => {
            code.extend_from_slice(&[register_address(function, Register::Call(*site))])
        }
        Op::PutChar { site, value } => {
            code.push(register_address(function, Register::Call(*site)))?;
            push_tree(code, function, value)
        }
        Op::Exit { status } => push_tree(code, function, status),
        Op::Return(None) => code.extend_from_slice(&[Instr::Constant(0)]),
        Op::Return(Some(value)) => push_operand(code, function, value),
    }
}

/// Appends what does a point that was prepared by so many instructions, and the way to the point that follows.
fn push_finishing(
    code: &mut Vec<Instr>,
    function: &Function,
    places: &[u64],
    number: usize,
    op: &Op,
    front: usize,
) -> Result<(), AllocError>
    requires frame { FrameServes (function_of function.now) }
    requires fits { OpFits (frame_of function.now.frame) (op_of op.now) }
    requires names { NamesFit (length places.now) number (op_of op.now) }
    requires number { number < length places.now }
    requires low { AreLow places.now }
    requires front { front ≡ length (preparing (function_of function.now) (op_of op.now)) }
    requires prepared { front ≤ vec_len code.old }
    ensures { OnOk result (code.new.items ≡ code.old.items ++ finishing (slice_index places.now) (function_of function.now) number (op_of op.now)) }
{
    match op {
        Op::Reserved => code.extend_from_slice(&[Instr::Trap]),
        Op::Jump(to) => push_way(code, function, places, number, to.0),
        Op::Branch { nonzero, zero, .. } => {
            push_way_at_zero(code, function, places, number, zero.0, front)?;
            push_way_or_on(code, function, places, number, nonzero.0)
        }
        Op::Load { slot, .. } => {
            push_loading(code, function, *slot)?;
            push_keeping(code, function, number)
        }
        Op::Store { slot, .. } => {
            push_storing(code, function, *slot)?;
            push_edge(code, function, number, number + 1)
        }
        Op::Allocate { .. } => {
            code.push(Instr::PoolAlloc)?;
            push_keeping(code, function, number)
        }
        Op::Free { .. } => {
            code.push(Instr::PoolFree)?;
            push_edge(code, function, number, number + 1)
        }
        Op::Call { callee, .. } => {
            code.push(call(*callee))?;
            push_keeping(code, function, number)
        }
        Op::GetChar { .. } => {
            code.push(Instr::GetChar)?;
            push_keeping(code, function, number)
        }
        Op::PutChar { .. } => {
            code.push(Instr::PutChar)?;
            push_keeping(code, function, number)
        }
        Op::Exit { .. } => code.extend_from_slice(&[Instr::Exit]),
        Op::Return(_) => {
            push_actions(code, function, &function.leaving)?;
            code.extend_from_slice(&[Instr::ReturnValue])
        }
        Op::Assign { .. }
        | Op::Null { .. }
        | Op::FunctionAddress { .. }
        | Op::Copy { .. }
        | Op::Test { .. }
        | Op::Move { .. }
        | Op::Difference { .. }
        | Op::ComparePointers { .. }
        | Op::Address { .. } => push_keeping(code, function, number),
    }
}

/// Appends the block of a point, where the blocks lie at these places.
pub(crate) fn push_block(
    code: &mut Vec<Instr>,
    function: &Function,
    places: &[u64],
    number: usize,
    op: &Op,
) -> Result<(), AllocError>
    requires frame { FrameServes (function_of function.now) }
    requires fits { OpFits (frame_of function.now.frame) (op_of op.now) }
    requires names { NamesFit (length places.now) number (op_of op.now) }
    requires number { number < length places.now }
    requires low { AreLow places.now }
    ensures { OnOk result (code.new.items ≡ code.old.items ++ block (slice_index places.now) (function_of function.now) number (op_of op.now)) }
{
    let begin = code.len();
    push_preparing(code, function, op)?;
    let front = code.len() - begin;
    push_finishing(code, function, places, number, op, front)
}
