// Branches in expressions, and where their ways meet.

ghost use Rattle.std.specs.Prelude.{◌≡◌, suc, pos, ◌<◌, ◌≤◌, true, if◌then◌else◌, List, length, OnOk, IfOk};
ghost use Rattle.c_typed.specs.Table.{Interned};
ghost use Rattle.tac_ir.specs.Code as C;
ghost use Rattle.tac_ir.specs.Views.{tree_of, op_in};
ghost use Rattle.tac_build.specs.Code.{HasOp, Emits, Writes, Joins, JoinsWith, truth_tree};
ghost use Rattle.tac_build.specs.Building.{lowered_in, joined_in, IsScalar, IsValue, AreAlike, is_filled, Fills, Grows, GrowsBut, IsReserved, points_in, spot_of, Leads, Lowers, Decides, EndsWay, MeetsWay, HasRoom, Adds};

use crate::builder::Builder;
use crate::lowered::{IntegerValue, Lowered};
use crate::trees::truth;
use c_num::IntType;
use c_typed::CType;
use std::alloc::AllocError;
use tac_ir::{Op, PointId, Register, Tree};

/// What comes to a register on each way.
#[derive(Clone, Copy, Debug, PartialEq, Eq)]
pub enum Joined {
    Integer {
        register: Register,
        int_type: IntType,
    },
    Pointer {
        register: Register,
        target: CType,
    },
    Nothing,
}

/// The way that is taken where a condition isn't 0: what comes to a register on it, and its end, a jump to where the ways meet.
#[derive(Clone, Copy, Debug, PartialEq, Eq)]
pub struct Way {
    pub joined: Joined,
    pub end: PointId,
}

/// The point behind one.
pub fn behind(at: PointId) -> PointId
    requires { at.0 < 18446744073709551615 }
    ensures { result.0 ≡ suc at.0 }
{
    PointId(at.0 + 1)
}

/// A branch on an integer.
pub fn branch(condition: IntegerValue, nonzero: PointId, zero: PointId) -> Op
    ensures code { (table : Interned) → op_in table result ≡ C.Branch condition.int_type (tree_of condition.tree.value) nonzero.0 zero.0 }
    ensures filled { is_filled result ≡ true }
{
    Op::Branch {
        int_type: condition.int_type,
        condition: Box::into_inner(condition.tree),
        nonzero,
        zero,
    }
}

/// The branch on the left operand of `&&` or `||`, to the right one or past it.
fn decision(is_and: bool, left: IntegerValue, right: PointId, short: PointId) -> Op
    ensures code { (table : Interned) → op_in table result ≡ C.Branch left.int_type (tree_of left.tree.value) (if is_and then right.0 else short.0) (if is_and then short.0 else right.0) }
    ensures filled { is_filled result ≡ true }
{
    if is_and {
        branch(left, right, short)
    } else {
        branch(left, short, right)
    }
}

/// What the left operand of `&&` or `||` decides.
fn decided(is_and: bool) -> Tree
    ensures { tree_of result ≡ C.Constant (if is_and then pos 0 else pos 1) }
{
    if is_and {
        Tree::Constant(0)
    } else {
        Tree::Constant(1)
    }
}

impl Builder {
    /// The end of `&&` or `||`, behind the right operand: whether that isn't 0, or what the left one decides (C17 6.5.13, 6.5.14).
    pub fn decide(
        &mut self,
        is_and: bool,
        to: Register,
        test: PointId,
        left: IntegerValue,
        right: IntegerValue,
    ) -> Result<Lowered, AllocError>
        requires { IsReserved self.old test.0 }
        ensures code { IfOk result (Lowers (λ table. Decides is_and to test.0 left right) self.old self.new) }
        ensures grows { OnOk result (GrowsBut test.0 self.old self.new) }
        ensures adds { OnOk result (Adds self.old self.new 0) }
    {
        self.assign_truth(to, right)?;
        let jump = self.reserve()?;
        self.fill_decision(is_and, test, left);
        let tree = decided(is_and);
        self.append(Op::Assign { to, tree })?;
        self.fill_jump(jump);
        self.held(to, IntType::Int)
    }

    /// Whether an integer isn't 0 comes to a register.
    fn assign_truth(&mut self, to: Register, value: IntegerValue) -> Result<(), AllocError>
        ensures code { OnOk result (Leads (λ table points. Emits points (C.Assign to (truth_tree value.int_type (tree_of value.tree.value)))) self.old self.new) }
        ensures grows { OnOk result (Grows self.old self.new) }
        ensures adds { OnOk result (Adds self.old self.new 0) }
    {
        let tree = truth(self.alloc, value.int_type, value.tree)?;
        self.append(Op::Assign { to, tree })
    }

    /// Fills in the branch on the left operand of `&&` or `||`: it leads to the right one behind it, or to the point that comes next.
    fn fill_decision(&mut self, is_and: bool, test: PointId, left: IntegerValue)
        requires { IsReserved self.old test.0 }
        ensures code { (table : Interned) (points : List C.Op) → Fills (points_in table self.new) points → HasOp points test.0 (C.Branch left.int_type (tree_of left.tree.value) (if is_and then suc test.0 else length self.old.points.items) (if is_and then length self.old.points.items else suc test.0)) }
        ensures spot { (table : Interned) → spot_of table self.new ≡ spot_of table self.old }
        ensures grows { GrowsBut test.0 self.old self.new }
        ensures counts { self.new.counts ≡ self.old.counts }
    {
        let short = self.here();
        self.fill(test, decision(is_and, left, behind(test), short));
    }

    /// The end of the way of `c ? a : b` that is taken where the condition isn't 0 (C17 6.5.15).
    pub fn end_way(
        &mut self,
        test: PointId,
        condition: IntegerValue,
        one: Lowered,
    ) -> Result<Way, AllocError>
        requires reserved { IsReserved self.old test.0 }
        requires value { IsValue one }
        requires room { HasRoom self.old 1 }
        ensures code { IfOk result (λ way. Leads (λ table. EndsWay test.0 condition (lowered_in table one) (joined_in table way.joined) way.end.0) self.old self.new) }
        ensures reserved { IfOk result (λ way. IsReserved self.new way.end.0) }
        ensures beyond { IfOk result (λ way. length self.old.points.items ≤ way.end.0) }
        ensures grows { OnOk result (GrowsBut test.0 self.old self.new) }
        ensures adds { OnOk result (Adds self.old self.new 1) }
    {
        let joined = self.join(one)?;
        let end = self.reserve()?;
        self.fill_test(test, condition);
        Ok(Way { joined, end })
    }

    /// The end of the other way, where both meet.
    pub fn join_ways(&mut self, way: Way, other: Lowered) -> Result<Lowered, AllocError>
        requires reserved { IsReserved self.old way.end.0 }
        requires alike { AreAlike way.joined other }
        ensures code { IfOk result (Lowers (λ table. MeetsWay (joined_in table way.joined) (lowered_in table other) way.end.0) self.old self.new) }
        ensures grows { OnOk result (GrowsBut way.end.0 self.old self.new) }
        ensures adds { OnOk result (Adds self.old self.new 0) }
    {
        self.join_with(way.joined, other)?;
        self.fill_jump(way.end);
        self.joined_value(way.joined)
    }

    /// Fills in a branch that leads to the point behind it, or to the one that comes next.
    pub fn fill_test(&mut self, test: PointId, condition: IntegerValue)
        requires { IsReserved self.old test.0 }
        ensures code { (table : Interned) (points : List C.Op) → Fills (points_in table self.new) points → HasOp points test.0 (C.Branch condition.int_type (tree_of condition.tree.value) (suc test.0) (length self.old.points.items)) }
        ensures spot { (table : Interned) → spot_of table self.new ≡ spot_of table self.old }
        ensures grows { GrowsBut test.0 self.old self.new }
        ensures counts { self.new.counts ≡ self.old.counts }
    {
        let here = self.here();
        self.fill(test, branch(condition, behind(test), here));
    }

    /// A value comes to a register.
    pub fn write(&mut self, to: Register, value: Lowered) -> Result<(), AllocError>
        requires { IsScalar value }
        ensures code { OnOk result (Leads (λ table points. Writes points to (lowered_in table value)) self.old self.new) }
        ensures grows { OnOk result (Grows self.old self.new) }
        ensures adds { OnOk result (Adds self.old self.new 0) }
    {
        match value {
            Lowered::Integer { tree, .. } => self.append(Op::Assign {
                to,
                tree: Box::into_inner(tree),
            }),
            Lowered::Pointer { register, .. } => self.append(Op::Copy { to, from: register }),
            _ => unreachable!(),
        }
    }

    /// The value of a way comes to a new register of its kind.
    fn join(&mut self, one: Lowered) -> Result<Joined, AllocError>
        requires value { IsValue one }
        requires room { HasRoom self.old 1 }
        ensures code { IfOk result (λ joined. Leads (λ table points start end. Joins points (lowered_in table one) start end (joined_in table joined)) self.old self.new) }
        ensures grows { OnOk result (Grows self.old self.new) }
        ensures adds { OnOk result (Adds self.old self.new 1) }
    {
        match one {
            Lowered::Integer { int_type, tree } => {
                let register = self.temporary();
                self.append(Op::Assign {
                    to: register,
                    tree: Box::into_inner(tree),
                })?;
                self.counts.temporaries += 1;
                Ok(Joined::Integer { register, int_type })
            }
            Lowered::Pointer {
                register: from,
                target,
            } => {
                let register = self.expression();
                self.append(Op::Copy { to: register, from })?;
                self.counts.expressions += 1;
                Ok(Joined::Pointer { register, target })
            }
            Lowered::Nothing => Ok(Joined::Nothing),
            Lowered::Object { .. } => unreachable!(),
        }
    }

    /// The value of the other way comes to the same register.
    fn join_with(&mut self, joined: Joined, other: Lowered) -> Result<(), AllocError>
        requires { AreAlike joined other }
        ensures code { OnOk result (Leads (λ table points. JoinsWith points (joined_in table joined) (lowered_in table other)) self.old self.new) }
        ensures grows { OnOk result (Grows self.old self.new) }
        ensures adds { OnOk result (Adds self.old self.new 0) }
    {
        match joined {
            Joined::Integer { register, .. } => self.write(register, other),
            Joined::Pointer { register, .. } => self.write(register, other),
            Joined::Nothing => Ok(()),
        }
    }

    /// What both ways come to.
    fn joined_value(&self, joined: Joined) -> Result<Lowered, AllocError>
        ensures { IfOk result (λ lowered. (table : Interned) → lowered_in table lowered ≡ joined_in table joined) }
    {
        match joined {
            Joined::Integer { register, int_type } => self.held(register, int_type),
            Joined::Pointer { register, target } => Ok(Lowered::Pointer { register, target }),
            Joined::Nothing => Ok(Lowered::Nothing),
        }
    }
}
