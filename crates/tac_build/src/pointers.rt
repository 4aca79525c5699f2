// Points that handle pointers (C17 6.3.2.3, 6.5.6, 6.5.8, 6.5.9).

ghost use Rattle.std.specs.Prelude.{OnOk, IfOk};
ghost use Rattle.c_num.specs.declared.IntType.TheVariants as I;
ghost use Rattle.c_typed.specs.Table.{type_in};
ghost use Rattle.tac_ir.specs.Code as C;
ghost use Rattle.tac_ir.specs.Views.{tree_of};
ghost use Rattle.tac_build.specs.Code.{GivesInteger, GivesPointer, MovesPointer};
ghost use Rattle.tac_build.specs.Building.{pointer_in, Grows, Leads, Lowers, HasRoom, Adds};

use crate::builder::Builder;
use crate::lowered::{Lowered, PointerValue};
use c_num::{IntType, Relation};
use c_typed::CType;
use std::alloc::AllocError;
use tac_ir::{Op, Tree};

impl Builder {
    /// A null pointer (C17 6.3.2.3 paragraph 3).
    pub fn null(&mut self, target: CType) -> Result<Lowered, AllocError>
        requires room { HasRoom self.old 1 }
        ensures code { IfOk result (Lowers (λ table points. GivesPointer points C.Null (type_in table target)) self.old self.new) }
        ensures grows { OnOk result (Grows self.old self.new) }
        ensures adds { OnOk result (Adds self.old self.new 1) }
    {
        let to = self.expression();
        self.pointer_value(Op::Null { to }, target)
    }

    /// A pointer, converted to one to the target.
    pub fn repoint(&mut self, from: PointerValue, target: CType) -> Result<Lowered, AllocError>
        requires room { HasRoom self.old 1 }
        ensures code { IfOk result (Lowers (λ table points. GivesPointer points (λ register. C.Repoint register (type_in table target) from.register) (type_in table target)) self.old self.new) }
        ensures grows { OnOk result (Grows self.old self.new) }
        ensures adds { OnOk result (Adds self.old self.new 1) }
    {
        let op = Op::Repoint {
            to: self.expression(),
            target,
            from: from.register,
        };
        self.pointer_value(op, target)
    }

    /// Whether a pointer isn't null.
    pub fn test_pointer(&mut self, from: PointerValue) -> Result<Lowered, AllocError>
        requires room { HasRoom self.old 1 }
        ensures code { IfOk result (Lowers (λ table points. GivesInteger points (λ register. C.Test register from.register) I.Int) self.old self.new) }
        ensures grows { OnOk result (Grows self.old self.new) }
        ensures adds { OnOk result (Adds self.old self.new 1) }
    {
        let op = Op::Test {
            to: self.temporary(),
            pointer: from.register,
        };
        self.integer_value(op, IntType::Int)
    }

    /// A comparison of pointers (C17 6.5.8, 6.5.9).
    pub fn compare_pointers(
        &mut self,
        relation: Relation,
        left: PointerValue,
        right: PointerValue,
    ) -> Result<Lowered, AllocError>
        requires room { HasRoom self.old 1 }
        ensures code { IfOk result (Lowers (λ table points. GivesInteger points (λ register. C.ComparePointers register relation left.register right.register) I.Int) self.old self.new) }
        ensures grows { OnOk result (Grows self.old self.new) }
        ensures adds { OnOk result (Adds self.old self.new 1) }
    {
        let op = Op::ComparePointers {
            to: self.temporary(),
            relation,
            left: left.register,
            right: right.register,
        };
        self.integer_value(op, IntType::Int)
    }

    /// How many elements lie between two pointers (C17 6.5.6 paragraph 9).
    pub fn difference(
        &mut self,
        left: PointerValue,
        right: PointerValue,
    ) -> Result<Lowered, AllocError>
        requires room { HasRoom self.old 1 }
        ensures code { IfOk result (Lowers (λ table points. GivesInteger points (λ register. C.Difference register (type_in table left.target) left.register right.register) I.Long) self.old self.new) }
        ensures grows { OnOk result (Grows self.old self.new) }
        ensures adds { OnOk result (Adds self.old self.new 1) }
    {
        let op = Op::Difference {
            to: self.temporary(),
            element: left.target,
            left: left.register,
            right: right.register,
        };
        self.integer_value(op, IntType::Long)
    }

    /// A pointer that moves by a number, from a register to a register (C17 6.5.6 paragraph 8).
    pub fn move_pointer(
        &mut self,
        from: PointerValue,
        is_minus: bool,
        number: Box<Tree>,
    ) -> Result<PointerValue, AllocError>
        requires room { HasRoom self.old 1 }
        ensures code { IfOk result (λ given. Leads (λ table points start end. MovesPointer points from.register (type_in table from.target) is_minus (tree_of number.value) start end (pointer_in table given)) self.old self.new) }
        ensures grows { OnOk result (Grows self.old self.new) }
        ensures adds { OnOk result (Adds self.old self.new 1) }
    {
        let op = Op::Move {
            to: self.expression(),
            pointer: from.register,
            element: from.target,
            is_minus,
            number: Box::into_inner(number),
        };
        self.give_pointer(op, from.target)
    }

    /// The same, as what an expression comes to.
    pub fn moved(
        &mut self,
        from: PointerValue,
        is_minus: bool,
        number: Box<Tree>,
    ) -> Result<Lowered, AllocError>
        requires room { HasRoom self.old 1 }
        ensures code { IfOk result (Lowers (λ table points. MovesPointer points from.register (type_in table from.target) is_minus (tree_of number.value)) self.old self.new) }
        ensures grows { OnOk result (Grows self.old self.new) }
        ensures adds { OnOk result (Adds self.old self.new 1) }
    {
        let PointerValue { register, target } = self.move_pointer(from, is_minus, number)?;
        Ok(Lowered::Pointer { register, target })
    }
}
