// How many operands there are at once.

ghost use Rattle.std.specs.Prelude.{◌≡◌, ◌≤◌, map};
ghost use Rattle.pool_ir.specs.Views.{base_of, function_of, op_of, path_of, step_of};
ghost use Rattle.stack_code.specs.Emitting as emitting;
ghost use Rattle.tac_ir.specs.Views.{operand_of, tree_of};

use pool_ir::{Base, Function, Op, Path, Step};
use tac_ir::{Operand, Tree};

/// While a tree is computed.
fn of_tree(tree: &Tree) -> u32
    requires { emitting.tree_height (tree_of tree.now) ≤ 65536 }
    ensures { result ≡ emitting.tree_height (tree_of tree.now) }
{
    match tree {
        Tree::Constant(_) => 1,
        Tree::Held(_) => 1,
        Tree::Convert { operand, .. } => of_tree(operand),
        Tree::Complement { operand, .. } => of_tree(operand),
        Tree::Not { operand, .. } => of_tree(operand).max(2),
        Tree::Arithmetic { left, right, .. } => of_tree(left).max(of_tree(right) + 1),
        Tree::Compare { left, right, .. } => of_tree(left).max(of_tree(right) + 1),
    }
}

fn of_operand(operand: &Operand) -> u32
    requires { emitting.operand_height (operand_of operand.now) ≤ 65536 }
    ensures { result ≡ emitting.operand_height (operand_of operand.now) }
{
    match operand {
        Operand::Integer(tree) => of_tree(tree),
        Operand::Pointer(_) => 1,
    }
}

/// While a number of elements is scaled, beside an address.
fn of_scaled(number: &Tree) -> u32
    requires { emitting.scaled_height (tree_of number.now) ≤ 65536 }
    ensures { result ≡ emitting.scaled_height (tree_of number.now) }
{
    (of_tree(number) + 1).max(3)
}

fn of_base(base: &Base) -> u32
    requires { emitting.base_height (base_of base.now) ≤ 65536 }
    ensures { result ≡ emitting.base_height (base_of base.now) }
{
    match base {
        Base::Frame(_) => 1,
        Base::Globals(_) => 1,
        Base::Pointed(_) => 1,
        Base::Indexed { number, .. } => of_scaled(number),
    }
}

fn of_step(step: &Step) -> u32
    requires { emitting.step_height (step_of step.now) ≤ 65536 }
    ensures { result ≡ emitting.step_height (step_of step.now) }
{
    match step {
        Step::Member(_) => 2,
        Step::Element { index, .. } => of_scaled(index),
    }
}

fn of_steps(steps: &[Step]) -> u32
    requires { emitting.steps_height (map step_of steps.now) ≤ 65536 }
    ensures { result ≡ emitting.steps_height (map step_of steps.now) }
{
    let mut height = 1;
    for step in steps {
        height = of_step(step).max(height);
    }
    height
}

fn of_path(path: &Path) -> u32
    requires { emitting.path_height (path_of path.now) ≤ 65536 }
    ensures { result ≡ emitting.path_height (path_of path.now) }
{
    of_base(&path.base).max(of_steps(&path.steps))
}

/// While a point is prepared.
fn of_point(op: &Op) -> u32
    requires { emitting.preparing_height (op_of op.now) ≤ 65536 }
    ensures { result ≡ emitting.preparing_height (op_of op.now) }
{
    match op {
        Op::Branch { condition, .. } => of_tree(condition),
        Op::Assign { tree, .. } => of_tree(tree) + 1,
        Op::Test { .. } => 3,
        Op::Move { number, .. } => of_scaled(number) + 1,
        Op::Difference { .. } => 3,
        Op::ComparePointers { .. } => 3,
        Op::Address { path, .. } => of_path(path) + 1,
        Op::Load { path, .. } => of_path(path) + 1,
        Op::Store { path, value, .. } => of_path(path).max(of_operand(value) + 1),
        Op::Allocate { size, .. } => of_tree(size) + 2,
        Op::Call {
            arguments,
            pools,
            ..
        } => (2 + pools.len() + arguments.len()) as u32,
        Op::PutChar { value, .. } => of_tree(value) + 1,
        Op::Exit { status } => of_tree(status),
        Op::Return(Some(value)) => of_operand(value),
        Op::Return(None)
        | Op::Reserved
        | Op::Jump(_)
        | Op::Null { .. }
        | Op::FunctionAddress { .. }
        | Op::Copy { .. }
        | Op::Free { .. }
        | Op::GetChar { .. } => 2,
    }
}

/// How many operands a function may hold at once: what is done with pools, and links, need three.
pub(crate) fn of_function(function: &Function) -> u32
    requires { emitting.height_of (function_of function.now) ≤ 65536 }
    ensures { result ≡ emitting.height_of (function_of function.now) }
{
    let mut height = 3;
    for op in &function.points {
        height = of_point(op).max(height);
    }
    height
}
