// Integers that are known without registers.

ghost use Rattle.std.specs.Prelude.{◌≡◌, Some};
ghost use Rattle.c_num.specs.Types.{IsValue};
ghost use Rattle.c_num.specs.Arith as N;
ghost use Rattle.tac_ir.specs.Trees.{no_registers, computes, computed, truth, where_defined, where_value};
ghost use Rattle.tac_ir.specs.Views.{tree_of};

use c_num::{BinOp, IntType, Relation, binary, compare, complement, convert};
use tac_ir::Tree;

/// The integer that a tree computes, where no register holds one.
pub fn constant_of(tree: &Tree) -> Option<i128>
    ensures { result ≡ computes no_registers (tree_of tree.now) }
{
    match tree {
        Tree::Constant(value) => Some(*value),
        Tree::Held(_) => None,
        Tree::Convert { int_type, operand } => {
            let value = constant_of(operand)?;
            Some(convert(value, *int_type))
        }
        Tree::Complement { int_type, operand } => {
            let value = constant_of(operand)?;
            if int_type.contains(value) {
                Some(complement(*int_type, value))
            } else {
                None
            }
        }
        Tree::Not { int_type, operand } => {
            let value = constant_of(operand)?;
            if int_type.contains(value) {
                Some(truth(value == 0))
            } else {
                None
            }
        }
        Tree::Arithmetic {
            operator,
            int_type,
            left,
            right,
        } => {
            let a = constant_of(left)?;
            let b = constant_of(right)?;
            computed(*operator, *int_type, a, b)
        }
        Tree::Compare {
            relation,
            int_type,
            left,
            right,
        } => {
            let a = constant_of(left)?;
            let b = constant_of(right)?;
            compared(*relation, *int_type, a, b)
        }
    }
}

/// What an operator gives on values of a type, where that is defined.
fn computed(operator: BinOp, int_type: IntType, a: i128, b: i128) -> Option<i128>
    ensures { result ≡ computed operator int_type a b }
{
    if !int_type.contains(a) {
        return None;
    }
    if is_shift(operator) {
        return outcome(operator, int_type, a, b);
    }
    if !int_type.contains(b) {
        return None;
    }
    outcome(operator, int_type, a, b)
}

fn outcome(operator: BinOp, int_type: IntType, a: i128, b: i128) -> Option<i128>
    requires left { IsValue int_type a }
    requires right { N.IsRightOperand operator int_type b }
    ensures { result ≡ where_defined (N.outcome_of operator int_type a b) }
{
    binary(operator, int_type, a, b).ok()
}

/// 1 where a relation holds between values of a type, else 0.
fn compared(relation: Relation, int_type: IntType, a: i128, b: i128) -> Option<i128>
    ensures { result ≡ where_value int_type a (where_value int_type b (Some (truth (N.compare_of relation a b)))) }
{
    if !int_type.contains(a) {
        return None;
    }
    if !int_type.contains(b) {
        return None;
    }
    Some(truth(compare(relation, a, b)))
}

fn is_shift(operator: BinOp) -> bool
    ensures { result ≡ N.is_shift operator }
{
    match operator {
        BinOp::Shl | BinOp::Shr => true,
        _ => false,
    }
}

/// The int that comparisons give.
fn truth(test: bool) -> i128
    ensures { result ≡ truth test }
{
    if test { 1 } else { 0 }
}
