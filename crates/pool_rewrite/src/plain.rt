// Points that have neither types nor paths nor pools.

ghost use Rattle.std.specs.Prelude.{◌≡◌, true, IfOk};
ghost use Rattle.tac_ir.specs.Views.{operand_of, optional_operand};
ghost use Rattle.pool_rewrite.specs.Kinds.{is_control, is_pointer, is_integer};
ghost use Rattle.pool_rewrite.specs.Made.{MakesPlain};

use pool_ir as pool;
use std::alloc::{AllocError, Global};
use tac_ir::{Op, Operand};

/// The same operand once more.
pub(crate) fn copied_operand(alloc: Global, operand: &Operand) -> Result<Operand, AllocError>
    ensures { IfOk result (λ copy. operand_of copy ≡ operand_of operand.now) }
{
    match operand {
        Operand::Integer(tree) => Ok(Operand::Integer(tree.copied(alloc)?)),
        Operand::Pointer(register) => Ok(Operand::Pointer(*register)),
    }
}

/// What a function returns.
fn copied_return(alloc: Global, value: &Option<Operand>) -> Result<Option<Operand>, AllocError>
    ensures { IfOk result (λ copy. optional_operand copy ≡ optional_operand value.now) }
{
    match value {
        Some(operand) => Ok(Some(copied_operand(alloc, operand)?)),
        None => Ok(None),
    }
}

/// A point that goes on at another, or ends the function or the program.
pub(crate) fn control_point(alloc: Global, op: &Op) -> Result<pool::Op, AllocError>
    requires kind { is_control op.now ≡ true }
    ensures { IfOk result (λ made. MakesPlain op.now made) }
{
    match op {
        Op::Reserved => Ok(pool::Op::Reserved),
        Op::Jump(to) => Ok(pool::Op::Jump(*to)),
        Op::Branch {
            int_type,
            condition,
            nonzero,
            zero,
        } => Ok(pool::Op::Branch {
            int_type: *int_type,
            condition: condition.copied(alloc)?,
            nonzero: *nonzero,
            zero: *zero,
        }),
        Op::Exit { status } => Ok(pool::Op::Exit {
            status: status.copied(alloc)?,
        }),
        Op::Return(value) => Ok(pool::Op::Return(copied_return(alloc, value)?)),
        _ => unreachable!(),
    }
}

/// A point that writes a pointer to a register.
pub(crate) fn pointer_point(op: &Op) -> pool::Op
    requires kind { is_pointer op.now ≡ true }
    ensures { MakesPlain op.now result }
{
    match op {
        Op::Null { to } => pool::Op::Null { to: *to },
        Op::FunctionAddress { to, function } => pool::Op::FunctionAddress {
            to: *to,
            function: *function,
        },
        Op::Copy { to, from } => pool::Op::Copy {
            to: *to,
            from: *from,
        },
        Op::Repoint { to, from, .. } => pool::Op::Copy {
            to: *to,
            from: *from,
        },
        _ => unreachable!(),
    }
}

/// A point that writes an integer to a register, or puts one out.
pub(crate) fn integer_point(alloc: Global, op: &Op) -> Result<pool::Op, AllocError>
    requires kind { is_integer op.now ≡ true }
    ensures { IfOk result (λ made. MakesPlain op.now made) }
{
    match op {
        Op::Assign { to, tree } => Ok(pool::Op::Assign {
            to: *to,
            tree: tree.copied(alloc)?,
        }),
        Op::Test { to, pointer } => Ok(pool::Op::Test {
            to: *to,
            pointer: *pointer,
        }),
        Op::ComparePointers {
            to,
            relation,
            left,
            right,
        } => Ok(pool::Op::ComparePointers {
            to: *to,
            relation: *relation,
            left: *left,
            right: *right,
        }),
        Op::GetChar { site } => Ok(pool::Op::GetChar { site: *site }),
        Op::PutChar { site, value } => Ok(pool::Op::PutChar {
            site: *site,
            value: value.copied(alloc)?,
        }),
        _ => unreachable!(),
    }
}
