// Trees and paths that are needed twice.

ghost use Rattle.std.specs.Prelude.{◌≡◌, IfOk};
ghost use Rattle.c_typed.specs.Table.{Interned};
ghost use Rattle.tac_ir.specs.Views.{tree_of, base_in, step_of, path_in};

use crate::path::{Base, Path, Step};
use crate::tree::Tree;
use std::alloc::{AllocError, Global};

/// A copy in a box.
#[cycle(copies)]
fn boxed(alloc: Global, tree: &Tree) -> Result<Box<Tree>, AllocError>
    ensures { IfOk result (λ copy. tree_of copy.value ≡ tree_of tree.now) }
{
    Ok(Box::new(alloc, tree.copied(alloc)?)?)
}

impl Tree {
    /// The same tree once more.
    #[cycle(copies)]
    pub fn copied(&self, alloc: Global) -> Result<Tree, AllocError>
        ensures { IfOk result (λ copy. tree_of copy ≡ tree_of self.now) }
    {
        match self {
            Tree::Constant(value) => Ok(Tree::Constant(*value)),
            Tree::Held(register) => Ok(Tree::Held(*register)),
            Tree::Convert { int_type, operand } => Ok(Tree::Convert {
                int_type: *int_type,
                operand: boxed(alloc, operand)?,
            }),
            Tree::Complement { int_type, operand } => Ok(Tree::Complement {
                int_type: *int_type,
                operand: boxed(alloc, operand)?,
            }),
            Tree::Not { int_type, operand } => Ok(Tree::Not {
                int_type: *int_type,
                operand: boxed(alloc, operand)?,
            }),
            Tree::Arithmetic {
                operator,
                int_type,
                left,
                right,
            } => Ok(Tree::Arithmetic {
                operator: *operator,
                int_type: *int_type,
                left: boxed(alloc, left)?,
                right: boxed(alloc, right)?,
            }),
            Tree::Compare {
                relation,
                int_type,
                left,
                right,
            } => Ok(Tree::Compare {
                relation: *relation,
                int_type: *int_type,
                left: boxed(alloc, left)?,
                right: boxed(alloc, right)?,
            }),
        }
    }
}

impl Base {
    /// The same base once more.
    pub fn copied(&self, alloc: Global) -> Result<Base, AllocError>
        ensures { IfOk result (λ copy. (table : Interned) → base_in table copy ≡ base_in table self.now) }
    {
        match self {
            Base::Local(local) => Ok(Base::Local(*local)),
            Base::Global(global) => Ok(Base::Global(*global)),
            Base::Literal(literal) => Ok(Base::Literal(*literal)),
            Base::Pointed { pointer, target } => Ok(Base::Pointed {
                pointer: *pointer,
                target: *target,
            }),
            Base::Indexed {
                pointer,
                target,
                number,
            } => Ok(Base::Indexed {
                pointer: *pointer,
                target: *target,
                number: number.copied(alloc)?,
            }),
        }
    }
}

impl Step {
    /// The same step once more.
    pub fn copied(&self, alloc: Global) -> Result<Step, AllocError>
        ensures { IfOk result (λ copy. step_of copy ≡ step_of self.now) }
    {
        match self {
            Step::Member(number) => Ok(Step::Member(*number)),
            Step::Element(index) => Ok(Step::Element(index.copied(alloc)?)),
        }
    }
}

impl Path {
    /// The same path once more.
    pub fn copied(&self, alloc: Global) -> Result<Path, AllocError>
        ensures { IfOk result (λ copy. (table : Interned) → path_in table copy ≡ path_in table self.now) }
    {
        let base = self.base.copied(alloc)?;
        let mut steps = Vec::new(alloc);
        for step in &self.steps {
            steps.push(step.copied(alloc)?)?;
        }
        Ok(Path { base, steps })
    }
}
