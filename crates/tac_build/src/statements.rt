// Statements and blocks (C17 6.8). The ways out of a loop or a `switch` meet at one point, to which `break` goes.

ghost use Rattle.std.specs.Prelude.{◌≡◌, ◌+◌, true, false, List, length, OnOk, IfOk};
ghost use Rattle.tac_build.specs.Lowering.{names_for, AddsFewer, types_of_source, IsSource, scope_of, IsScope, ValueTyped, LieInMemory};
ghost use Rattle.tac_build.specs.LoweringStatements.{StmtTyped, BlockTyped, ConditionTyped, TestTyped, StepTyped, ReturnTyped, Foretold, Declares, EffectLowers, ConditionLowers, TestLowers, StepLowers, OwnLowers, TurnsLower, StmtLowers, BlockLowers, turn_op, IsOperand};
ghost use Rattle.tac_build.specs.Taken.{taken_stmt, taken_block, taken_in_turns};
ghost use Rattle.tac_build.specs.Building.{lowered_in, IsScalar, is_filled, Fills, Grows, GrowsBut, IsReserved, points_in, spot_of, HasRoom, Adds};
ghost use Rattle.tac_build.specs.Homes.{takes, takes_optional, takes_stmt, takes_block};
ghost use Rattle.tac_build.specs.Code.{HasOp};
ghost use Rattle.tac_ir.specs.Code as C;
ghost use Rattle.tac_ir.specs.Views.{operand_of, op_in};
ghost use Rattle.c_typed.specs.Types.{CType};
ghost use Rattle.c_typed.specs.Table.{Interned};
ghost use Rattle.c_typed.specs.Typed as T;
ghost use Rattle.c_typed.specs.Views.{value_in};
ghost use Rattle.c_typed.specs.StatementViews.{optional_value_in, stmt_in, block_in};
ghost use Rattle.c_typed.specs.TypedNodes.{value_nodes, optional_nodes, stmt_nodes, block_nodes};
ghost use Rattle.c_typed.specs.Statements.{Within};

use crate::addressed::Addressed;
use crate::builder::Builder;
use crate::conditions::{behind, branch};
use crate::homes::Home;
use crate::lowered::{IntegerValue, Lowered, Mode, integer};
use crate::names::Source;
use c_typed::{BlockItem, Stmt, Value};
use std::alloc::AllocError;
use tac_ir::{Op, Operand, PointId};

/// The point to which `break` goes (C17 6.8.6.3), and that to which `continue` goes (C17 6.8.6.2).
#[derive(Clone, Copy, Debug, PartialEq, Eq)]
pub struct Ways {
    pub broken: PointId,
    pub continued: PointId,
}

impl Builder {
    /// An expression whose value is dropped (C17 6.8.3 paragraph 2).
    pub fn effect(
        &mut self,
        value: &Value,
        source: &Source,
        scope: &[Home],
    ) -> Result<(), AllocError>
        requires source { IsSource source.now }
        requires homes { IsScope source.now scope.now }
        requires typed { ValueTyped source.now scope.now value.now }
        requires lives { LieInMemory (scope_of source.now scope.now) (λ number. takes false number (value_in (types_of_source source.now) value.now)) }
        requires room { HasRoom self.old (names_for (value_nodes (value_in (types_of_source source.now) value.now))) }
        ensures code { OnOk result (EffectLowers source.now scope.now value.now self.old self.new) }
        ensures grows { OnOk result (Grows self.old self.new) }
        ensures adds { OnOk result (Adds self.old self.new (names_for (value_nodes (value_in (types_of_source source.now) value.now)))) }
        ensures variables { OnOk result (self.new.counts.variables ≡ self.old.counts.variables) }
    {
        self.value(value, source, scope, Mode::Dropped)?;
        Ok(())
    }

    /// An expression whose value is dropped, or nothing.
    fn optional_effect(
        &mut self,
        value: &Option<Value>,
        source: &Source,
        scope: &[Home],
    ) -> Result<(), AllocError>
        requires source { IsSource source.now }
        requires homes { IsScope source.now scope.now }
        requires typed { StepTyped source.now scope.now value.now }
        requires lives { LieInMemory (scope_of source.now scope.now) (λ number. takes_optional number (optional_value_in (types_of_source source.now) value.now)) }
        requires room { HasRoom self.old (names_for (optional_nodes (optional_value_in (types_of_source source.now) value.now))) }
        ensures code { OnOk result (StepLowers source.now scope.now value.now self.old self.new) }
        ensures grows { OnOk result (Grows self.old self.new) }
        ensures adds { OnOk result (Adds self.old self.new (names_for (optional_nodes (optional_value_in (types_of_source source.now) value.now)))) }
        ensures variables { OnOk result (self.new.counts.variables ≡ self.old.counts.variables) }
    {
        match value {
            Some(value) => self.effect(value, source, scope),
            None => Ok(()),
        }
    }

    /// A condition.
    fn condition(
        &mut self,
        value: &Value,
        source: &Source,
        scope: &[Home],
    ) -> Result<IntegerValue, AllocError>
        requires source { IsSource source.now }
        requires homes { IsScope source.now scope.now }
        requires typed { ConditionTyped source.now scope.now value.now }
        requires lives { LieInMemory (scope_of source.now scope.now) (λ number. takes false number (value_in (types_of_source source.now) value.now)) }
        requires room { HasRoom self.old (names_for (value_nodes (value_in (types_of_source source.now) value.now))) }
        ensures code { IfOk result (ConditionLowers source.now scope.now value.now self.old self.new) }
        ensures grows { OnOk result (Grows self.old self.new) }
        ensures adds { OnOk result (AddsFewer self.old self.new (names_for (value_nodes (value_in (types_of_source source.now) value.now)))) }
        ensures variables { OnOk result (self.new.counts.variables ≡ self.old.counts.variables) }
    {
        Ok(integer(self.value(value, source, scope, Mode::Kept)?))
    }

    /// What a function returns (C17 6.8.6.4).
    fn returned(
        &mut self,
        value: &Option<Value>,
        source: &Source,
        scope: &[Home],
    ) -> Result<(), AllocError>
        requires source { IsSource source.now }
        requires homes { IsScope source.now scope.now }
        requires typed { (returned : CType) × ReturnTyped source.now scope.now returned value.now }
        requires lives { LieInMemory (scope_of source.now scope.now) (λ number. takes_optional number (optional_value_in (types_of_source source.now) value.now)) }
        requires room { HasRoom self.old (names_for (optional_nodes (optional_value_in (types_of_source source.now) value.now))) }
        ensures code { OnOk result (OwnLowers source.now scope.now (T.Return (optional_value_in (types_of_source source.now) value.now)) self.old self.new) }
        ensures grows { OnOk result (Grows self.old self.new) }
        ensures adds { OnOk result (Adds self.old self.new (names_for (optional_nodes (optional_value_in (types_of_source source.now) value.now)))) }
        ensures variables { OnOk result (self.new.counts.variables ≡ self.old.counts.variables) }
    {
        match value {
            Some(value) => {
                let given = self.value(value, source, scope, Mode::Kept)?;
                self.append(Op::Return(Some(operand(given))))
            }
            None => self.append(Op::Return(None)),
        }
    }

    /// A statement.
    #[cycle(statements)]
    pub fn statement(
        &mut self,
        stmt: &Stmt,
        source: &Source,
        addressed: &Addressed,
        scope: &mut Vec<Home>,
        ways: Ways,
    ) -> Result<(), AllocError>
        requires source { IsSource source.now }
        requires homes { IsScope source.now scope.old.items }
        requires typed { (within : Within) × StmtTyped source.now scope.old.items within stmt.now }
        requires lives { LieInMemory (scope_of source.now scope.old.items) (λ number. takes_stmt number (stmt_in (types_of_source source.now) stmt.now)) }
        requires foretold { Foretold addressed.now self.old.counts.variables (taken_stmt (length scope.old.items) (stmt_in (types_of_source source.now) stmt.now)) }
        requires room { HasRoom self.old (names_for (stmt_nodes (stmt_in (types_of_source source.now) stmt.now))) }
        ensures code { OnOk result (StmtLowers source.now scope.old.items ways stmt.now self.old self.new) }
        ensures scope { OnOk result (scope.new.items ≡ scope.old.items) }
        ensures grows { OnOk result (Grows self.old self.new) }
        ensures adds { OnOk result (Adds self.old self.new (names_for (stmt_nodes (stmt_in (types_of_source source.now) stmt.now)))) }
        ensures variables { OnOk result (Declares self.old self.new (taken_stmt (length scope.old.items) (stmt_in (types_of_source source.now) stmt.now))) }
    {
        match stmt {
            Stmt::Block(items) => self.block(items.as_slice(), source, addressed, scope, ways),
            Stmt::Empty => Ok(()),
            Stmt::Expression(value) => self.effect(value, source, scope.as_slice()),
            Stmt::If { condition, then } => {
                let condition = self.condition(condition, source, scope.as_slice())?;
                let test = self.reserve()?;
                self.statement(then, source, addressed, scope, ways)?;
                self.fill_test(test, condition);
                Ok(())
            }
            Stmt::IfElse {
                condition,
                then,
                otherwise,
            } => {
                let condition = self.condition(condition, source, scope.as_slice())?;
                let test = self.reserve()?;
                self.statement(then, source, addressed, scope, ways)?;
                let jump = self.reserve()?;
                self.fill_test(test, condition);
                self.statement(otherwise, source, addressed, scope, ways)?;
                self.fill_jump(jump);
                Ok(())
            }
            Stmt::While { condition, body } => {
                self.while_loop(body, condition, source, addressed, scope)
            }
            Stmt::DoWhile { body, condition } => {
                self.do_loop(body, condition, source, addressed, scope)
            }
            Stmt::For {
                start,
                condition,
                step,
                body,
            } => {
                let outside = scope.len();
                self.start(start, source, addressed, scope)?;
                self.turns(body, condition, step, source, addressed, scope)?;
                scope.truncate(outside);
                Ok(())
            }
            Stmt::Switch { value, items } => {
                self.switch(items.as_slice(), value, source, addressed, scope, ways)
            }
            Stmt::Break => self.append(Op::Jump(ways.broken)),
            Stmt::Continue => self.append(Op::Jump(ways.continued)),
            Stmt::Return(value) => self.returned(value, source, scope.as_slice()),
        }
    }

    /// The test, the way out, the body, and the way back to the test (C17 6.8.5.1).
    #[cycle(statements)]
    fn while_loop(
        &mut self,
        body: &Stmt,
        condition: &Value,
        source: &Source,
        addressed: &Addressed,
        scope: &mut Vec<Home>,
    ) -> Result<(), AllocError>
        requires source { IsSource source.now }
        requires homes { IsScope source.now scope.old.items }
        requires condition { ConditionTyped source.now scope.old.items condition.now }
        requires typed { (within : Within) × StmtTyped source.now scope.old.items within body.now }
        requires tested { LieInMemory (scope_of source.now scope.old.items) (λ number. takes false number (value_in (types_of_source source.now) condition.now)) }
        requires lives { LieInMemory (scope_of source.now scope.old.items) (λ number. takes_stmt number (stmt_in (types_of_source source.now) body.now)) }
        requires foretold { Foretold addressed.now self.old.counts.variables (taken_stmt (length scope.old.items) (stmt_in (types_of_source source.now) body.now)) }
        requires room { HasRoom self.old (names_for (value_nodes (value_in (types_of_source source.now) condition.now) + stmt_nodes (stmt_in (types_of_source source.now) body.now))) }
        ensures code { OnOk result (OwnLowers source.now scope.old.items (T.While (value_in (types_of_source source.now) condition.now) (stmt_in (types_of_source source.now) body.now)) self.old self.new) }
        ensures scope { OnOk result (scope.new.items ≡ scope.old.items) }
        ensures grows { OnOk result (Grows self.old self.new) }
        ensures adds { OnOk result (Adds self.old self.new (names_for (value_nodes (value_in (types_of_source source.now) condition.now) + stmt_nodes (stmt_in (types_of_source source.now) body.now)))) }
        ensures variables { OnOk result (Declares self.old self.new (taken_stmt (length scope.old.items) (stmt_in (types_of_source source.now) body.now))) }
    {
        let entry = self.here();
        let condition = self.condition(condition, source, scope.as_slice())?;
        let exit = behind(self.here());
        self.append(branch(condition, behind(exit), exit))?;
        let exit = self.reserve()?;
        let ways = Ways {
            broken: exit,
            continued: entry,
        };
        self.statement(body, source, addressed, scope, ways)?;
        self.append(Op::Jump(entry))?;
        self.fill_jump(exit);
        Ok(())
    }

    /// The way to the body, the way out, the way to the test, the body, and the test (C17 6.8.5.2).
    #[cycle(statements)]
    fn do_loop(
        &mut self,
        body: &Stmt,
        condition: &Value,
        source: &Source,
        addressed: &Addressed,
        scope: &mut Vec<Home>,
    ) -> Result<(), AllocError>
        requires source { IsSource source.now }
        requires homes { IsScope source.now scope.old.items }
        requires condition { ConditionTyped source.now scope.old.items condition.now }
        requires typed { (within : Within) × StmtTyped source.now scope.old.items within body.now }
        requires tested { LieInMemory (scope_of source.now scope.old.items) (λ number. takes false number (value_in (types_of_source source.now) condition.now)) }
        requires lives { LieInMemory (scope_of source.now scope.old.items) (λ number. takes_stmt number (stmt_in (types_of_source source.now) body.now)) }
        requires foretold { Foretold addressed.now self.old.counts.variables (taken_stmt (length scope.old.items) (stmt_in (types_of_source source.now) body.now)) }
        requires room { HasRoom self.old (names_for (stmt_nodes (stmt_in (types_of_source source.now) body.now) + value_nodes (value_in (types_of_source source.now) condition.now))) }
        ensures code { OnOk result (OwnLowers source.now scope.old.items (T.DoWhile (stmt_in (types_of_source source.now) body.now) (value_in (types_of_source source.now) condition.now)) self.old self.new) }
        ensures scope { OnOk result (scope.new.items ≡ scope.old.items) }
        ensures grows { OnOk result (Grows self.old self.new) }
        ensures adds { OnOk result (Adds self.old self.new (names_for (stmt_nodes (stmt_in (types_of_source source.now) body.now) + value_nodes (value_in (types_of_source source.now) condition.now)))) }
        ensures variables { OnOk result (Declares self.old self.new (taken_stmt (length scope.old.items) (stmt_in (types_of_source source.now) body.now))) }
    {
        let entry = self.reserve()?;
        let exit = self.reserve()?;
        let check = self.reserve()?;
        let inside = self.here();
        self.fill_jump(entry);
        let ways = Ways {
            broken: exit,
            continued: check,
        };
        self.statement(body, source, addressed, scope, ways)?;
        self.fill_jump(check);
        let condition = self.condition(condition, source, scope.as_slice())?;
        self.append(branch(condition, inside, exit))?;
        self.fill_jump(exit);
        Ok(())
    }

    /// A `for` behind its start: the test, the way out, the step, the way to the test, the body, and the way to the step (C17
    /// 6.8.5.3).
    #[cycle(statements)]
    fn turns(
        &mut self,
        body: &Stmt,
        condition: &Option<Value>,
        step: &Option<Value>,
        source: &Source,
        addressed: &Addressed,
        scope: &mut Vec<Home>,
    ) -> Result<(), AllocError>
        requires source { IsSource source.now }
        requires homes { IsScope source.now scope.old.items }
        requires condition { TestTyped source.now scope.old.items condition.now }
        requires step { StepTyped source.now scope.old.items step.now }
        requires typed { (within : Within) × StmtTyped source.now scope.old.items within body.now }
        requires lives { LieInMemory (scope_of source.now scope.old.items) (taken_in_turns (optional_value_in (types_of_source source.now) condition.now) (optional_value_in (types_of_source source.now) step.now) (stmt_in (types_of_source source.now) body.now)) }
        requires foretold { Foretold addressed.now self.old.counts.variables (taken_stmt (length scope.old.items) (stmt_in (types_of_source source.now) body.now)) }
        requires room { HasRoom self.old (names_for (optional_nodes (optional_value_in (types_of_source source.now) condition.now) + (optional_nodes (optional_value_in (types_of_source source.now) step.now) + stmt_nodes (stmt_in (types_of_source source.now) body.now)))) }
        ensures code { OnOk result (TurnsLower source.now scope.old.items condition.now step.now body.now self.old self.new) }
        ensures scope { OnOk result (scope.new.items ≡ scope.old.items) }
        ensures grows { OnOk result (Grows self.old self.new) }
        ensures adds { OnOk result (Adds self.old self.new (names_for (optional_nodes (optional_value_in (types_of_source source.now) condition.now) + (optional_nodes (optional_value_in (types_of_source source.now) step.now) + stmt_nodes (stmt_in (types_of_source source.now) body.now))))) }
        ensures variables { OnOk result (Declares self.old self.new (taken_stmt (length scope.old.items) (stmt_in (types_of_source source.now) body.now))) }
    {
        let head = self.here();
        let condition = self.optional_condition(condition, source, scope.as_slice())?;
        let test = self.reserve()?;
        let exit = self.reserve()?;
        let next = self.here();
        self.optional_effect(step, source, scope.as_slice())?;
        self.append(Op::Jump(head))?;
        self.fill_turn(test, condition, exit);
        let ways = Ways {
            broken: exit,
            continued: next,
        };
        self.statement(body, source, addressed, scope, ways)?;
        self.append(Op::Jump(next))?;
        self.fill_jump(exit);
        Ok(())
    }

    /// A condition, where there is one.
    fn optional_condition(
        &mut self,
        value: &Option<Value>,
        source: &Source,
        scope: &[Home],
    ) -> Result<Option<IntegerValue>, AllocError>
        requires source { IsSource source.now }
        requires homes { IsScope source.now scope.now }
        requires typed { TestTyped source.now scope.now value.now }
        requires lives { LieInMemory (scope_of source.now scope.now) (λ number. takes_optional number (optional_value_in (types_of_source source.now) value.now)) }
        requires room { HasRoom self.old (names_for (optional_nodes (optional_value_in (types_of_source source.now) value.now))) }
        ensures code { IfOk result (TestLowers source.now scope.now value.now self.old self.new) }
        ensures grows { OnOk result (Grows self.old self.new) }
        ensures adds { OnOk result (Adds self.old self.new (names_for (optional_nodes (optional_value_in (types_of_source source.now) value.now)))) }
        ensures variables { OnOk result (self.new.counts.variables ≡ self.old.counts.variables) }
    {
        match value {
            Some(value) => Ok(Some(self.condition(value, source, scope)?)),
            None => Ok(None),
        }
    }

    /// Fills in the test of a `for`, which leads to the body that comes next, or out. Without a condition it leads to the body (C17
    /// 6.8.5.3 paragraph 2).
    fn fill_turn(&mut self, test: PointId, condition: Option<IntegerValue>, exit: PointId)
        requires { IsReserved self.old test.0 }
        ensures code { (table : Interned) (points : List C.Op) → Fills (points_in table self.new) points → HasOp points test.0 (turn_op condition (length self.old.points.items) exit.0) }
        ensures spot { (table : Interned) → spot_of table self.new ≡ spot_of table self.old }
        ensures grows { GrowsBut test.0 self.old self.new }
        ensures counts { self.new.counts ≡ self.old.counts }
    {
        let inside = self.here();
        self.fill(test, turn(condition, inside, exit));
    }

    /// The items of a block (C17 6.8.2).
    #[cycle(statements)]
    pub fn block(
        &mut self,
        items: &[BlockItem],
        source: &Source,
        addressed: &Addressed,
        scope: &mut Vec<Home>,
        ways: Ways,
    ) -> Result<(), AllocError>
        requires source { IsSource source.now }
        requires homes { IsScope source.now scope.old.items }
        requires typed { (within : Within) × BlockTyped source.now scope.old.items within items.now }
        requires lives { LieInMemory (scope_of source.now scope.old.items) (λ number. takes_block number (block_in (types_of_source source.now) items.now)) }
        requires foretold { Foretold addressed.now self.old.counts.variables (taken_block (length scope.old.items) (block_in (types_of_source source.now) items.now)) }
        requires room { HasRoom self.old (names_for (block_nodes (block_in (types_of_source source.now) items.now))) }
        ensures code { OnOk result (BlockLowers source.now scope.old.items ways items.now self.old self.new) }
        ensures scope { OnOk result (scope.new.items ≡ scope.old.items) }
        ensures grows { OnOk result (Grows self.old self.new) }
        ensures adds { OnOk result (Adds self.old self.new (names_for (block_nodes (block_in (types_of_source source.now) items.now)))) }
        ensures variables { OnOk result (Declares self.old self.new (taken_block (length scope.old.items) (block_in (types_of_source source.now) items.now))) }
    {
        let outside = scope.len();
        for item in items {
            match item {
                BlockItem::Local(local) => self.declare(local, source, addressed, scope)?,
                BlockItem::Statement(stmt) => {
                    self.statement(stmt, source, addressed, scope, ways)?
                }
            }
        }
        scope.truncate(outside);
        Ok(())
    }
}

/// A branch on a condition, or a jump where there is none.
fn turn(condition: Option<IntegerValue>, nonzero: PointId, zero: PointId) -> Op
    ensures code { (table : Interned) → op_in table result ≡ turn_op condition nonzero.0 zero.0 }
    ensures filled { is_filled result ≡ true }
{
    match condition {
        Some(condition) => branch(condition, nonzero, zero),
        None => Op::Jump(nonzero),
    }
}

/// A value that a function returns.
fn operand(value: Lowered) -> Operand
    requires { IsScalar value }
    ensures { (table : Interned) → IsOperand (lowered_in table value) (operand_of result) }
{
    match value {
        Lowered::Integer { tree, .. } => Operand::Integer(Box::into_inner(tree)),
        Lowered::Pointer { register, .. } => Operand::Pointer(register),
        _ => unreachable!(),
    }
}
