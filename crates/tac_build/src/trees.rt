// Trees of operators.

ghost use Rattle.std.specs.Prelude.{◌≡◌, pos, IfOk};
ghost use Rattle.c_num.specs.Types.{common_of};
ghost use Rattle.c_num.specs.declared.IntType.TheVariants as I;
ghost use Rattle.c_num.specs.declared.BinOp.TheVariants as B;
ghost use Rattle.tac_ir.specs.Code as C;
ghost use Rattle.tac_ir.specs.Views.{tree_of};
ghost use Rattle.tac_build.specs.Code.{truth_tree, compound_tree, step_operator, is_up, gives_old};

use c_num::{BinOp, IntType, Relation, common};
use c_typed::Stepping;
use std::alloc::{AllocError, Global};
use tac_ir::{Register, Tree};

/// A value, converted (C17 6.3.1.3).
pub fn conversion(int_type: IntType, operand: Box<Tree>) -> Tree
    ensures { tree_of result ≡ C.Convert int_type (tree_of operand.value) }
{
    Tree::Convert { int_type, operand }
}

/// The bitwise complement (C17 6.5.3.3).
pub fn complement(int_type: IntType, operand: Box<Tree>) -> Tree
    ensures { tree_of result ≡ C.Complement int_type (tree_of operand.value) }
{
    Tree::Complement { int_type, operand }
}

/// Whether a value is 0 (C17 6.5.3.3).
pub fn negated(int_type: IntType, operand: Box<Tree>) -> Tree
    ensures { tree_of result ≡ C.Not int_type (tree_of operand.value) }
{
    Tree::Not { int_type, operand }
}

/// Zero less a value (C17 6.5.3.3 paragraph 3).
pub fn negative(alloc: Global, int_type: IntType, operand: Box<Tree>) -> Result<Tree, AllocError>
    ensures { IfOk result (λ tree. tree_of tree ≡ C.Arithmetic B.Sub int_type (C.Constant (pos 0)) (tree_of operand.value)) }
{
    Ok(Tree::Arithmetic {
        operator: BinOp::Sub,
        int_type,
        left: Box::new(alloc, Tree::Constant(0))?,
        right: operand,
    })
}

/// Arithmetic on two values of the type (C17 6.5.5 to 6.5.12).
pub fn arithmetic(operator: BinOp, int_type: IntType, left: Box<Tree>, right: Box<Tree>) -> Tree
    ensures { tree_of result ≡ C.Arithmetic operator int_type (tree_of left.value) (tree_of right.value) }
{
    Tree::Arithmetic {
        operator,
        int_type,
        left,
        right,
    }
}

/// A comparison of two values of the type (C17 6.5.8, 6.5.9).
pub fn comparison(relation: Relation, int_type: IntType, left: Box<Tree>, right: Box<Tree>) -> Tree
    ensures { tree_of result ≡ C.Compare relation int_type (tree_of left.value) (tree_of right.value) }
{
    Tree::Compare {
        relation,
        int_type,
        left,
        right,
    }
}

/// Whether an integer isn't 0.
pub fn truth(alloc: Global, int_type: IntType, operand: Box<Tree>) -> Result<Tree, AllocError>
    ensures { IfOk result (λ tree. tree_of tree ≡ truth_tree int_type (tree_of operand.value)) }
{
    let is_zero = Box::new(alloc, negated(int_type, operand))?;
    Ok(negated(IntType::Int, is_zero))
}

/// What a register holds, converted.
fn converted_register(
    alloc: Global,
    int_type: IntType,
    register: Register,
) -> Result<Box<Tree>, AllocError>
    ensures { IfOk result (λ tree. tree_of tree.value ≡ C.Convert int_type (C.Held register)) }
{
    let held = Box::new(alloc, Tree::Held(register))?;
    Ok(Box::new(alloc, conversion(int_type, held))?)
}

/// What a compound assignment or a step does to an integer: the type of the object, and the operator and the type in which it works.
#[derive(Clone, Copy, Debug, PartialEq, Eq)]
pub struct Update {
    pub operator: BinOp,
    pub object_type: IntType,
    pub int_type: IntType,
}

impl Update {
    /// That of `x++` and its like, which add 1 to x or subtract it (C17 6.5.3.1 paragraph 2).
    pub fn of_step(stepping: Stepping, object_type: IntType) -> Update
        ensures operator { result.operator ≡ step_operator stepping }
        ensures object_type { result.object_type ≡ object_type }
        ensures int_type { result.int_type ≡ common_of object_type I.Int }
    {
        let operator = if is_up(stepping) {
            BinOp::Add
        } else {
            BinOp::Sub
        };
        Update {
            operator,
            object_type,
            int_type: common(object_type, IntType::Int),
        }
    }

    /// The new value, from the old one in a register and the operand (C17 6.5.16.2 paragraph 3).
    pub fn new_value(
        self,
        alloc: Global,
        old: Register,
        operand: Box<Tree>,
    ) -> Result<Box<Tree>, AllocError>
        ensures { IfOk result (λ tree. tree_of tree.value ≡ compound_tree self.operator self.object_type self.int_type old (tree_of operand.value)) }
    {
        let old = converted_register(alloc, self.int_type, old)?;
        let computed = arithmetic(self.operator, self.int_type, old, operand);
        let computed = Box::new(alloc, computed)?;
        Ok(Box::new(alloc, conversion(self.object_type, computed))?)
    }
}

/// Whether a step adds (C17 6.5.2.4, 6.5.3.1).
pub fn is_up(stepping: Stepping) -> bool
    ensures { result ≡ is_up stepping }
{
    match stepping {
        Stepping::PreIncrement => true,
        Stepping::PostIncrement => true,
        Stepping::PreDecrement => false,
        Stepping::PostDecrement => false,
    }
}

/// Whether the value of a step is the old one (C17 6.5.2.4 paragraph 2).
pub fn gives_old(stepping: Stepping) -> bool
    ensures { result ≡ gives_old stepping }
{
    match stepping {
        Stepping::PostIncrement => true,
        Stepping::PostDecrement => true,
        Stepping::PreIncrement => false,
        Stepping::PreDecrement => false,
    }
}
