// Trees and operands, each of which pushes one word.

ghost use Rattle.std.specs.Prelude.{◌≡◌, ◌++◌, OnOk};
ghost use Rattle.pool_ir.specs.Views.{frame_of, function_of};
ghost use Rattle.stack_code.specs.Emitting.{operand_code, tree_code};
ghost use Rattle.stack_code.specs.Fitting.{OperandFits, TreeFits};
ghost use Rattle.stack_code.specs.Fits.{FrameServes};
ghost use Rattle.tac_ir.specs.Views.{operand_of, tree_of};

use crate::words::push_register;
use c_num::{IntType, Relation, word};
use pool_ir::Function;
use pool_isa::Instr;
use std::alloc::AllocError;
use tac_ir::{Operand, Tree};

/// Appends what computes a tree.
pub(crate) fn push_tree(
    code: &mut Vec<Instr>,
    function: &Function,
    tree: &Tree,
) -> Result<(), AllocError>
    requires frame { FrameServes (function_of function.now) }
    requires fits { TreeFits (frame_of function.now.frame) (tree_of tree.now) }
    ensures { OnOk result (code.new.items ≡ code.old.items ++ tree_code (function_of function.now) (tree_of tree.now)) }
{
    match tree {
        Tree::Constant(value) => {
            code.extend_from_slice(&[Instr::Constant(word(*value, IntType::ULong))])
        }
        Tree::Held(register) => push_register(code, function, *register),
        Tree::Convert { int_type, operand } => {
            push_tree(code, function, operand)?;
            code.extend_from_slice(&[Instr::Convert(*int_type)])
        }
        Tree::Complement { int_type, operand } => {
            push_tree(code, function, operand)?;
            code.extend_from_slice(&[Instr::Complement(*int_type)])
        }
        Tree::Not { int_type, operand } => {
            push_tree(code, function, operand)?;
            code.extend_from_slice(&[Instr::Constant(0), Instr::Compare(Relation::Eq, *int_type)])
        }
        Tree::Arithmetic {
            operator,
            int_type,
            left,
            right,
        } => {
            push_tree(code, function, left)?;
            push_tree(code, function, right)?;
            code.extend_from_slice(&[Instr::Binary(*operator, *int_type)])
        }
        Tree::Compare {
            relation,
            int_type,
            left,
            right,
        } => {
            push_tree(code, function, left)?;
            push_tree(code, function, right)?;
            code.extend_from_slice(&[Instr::Compare(*relation, *int_type)])
        }
    }
}

/// Appends what pushes an operand.
pub(crate) fn push_operand(
    code: &mut Vec<Instr>,
    function: &Function,
    operand: &Operand,
) -> Result<(), AllocError>
    requires frame { FrameServes (function_of function.now) }
    requires fits { OperandFits (frame_of function.now.frame) (operand_of operand.now) }
    ensures { OnOk result (code.new.items ≡ code.old.items ++ operand_code (function_of function.now) (operand_of operand.now)) }
{
    match operand {
        Operand::Integer(tree) => push_tree(code, function, tree),
        Operand::Pointer(register) => push_register(code, function, *register),
    }
}
