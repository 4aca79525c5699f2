// Statements: the locals that they declare, and how many of their expressions count.

ghost use Rattle.std.specs.Prelude.{◌≡◌, ◌++◌, ◌∷◌, [], OnOk, IfOk};
ghost use Rattle.dsa_bottom_up.specs.Counts.{CountsEffect, CountsLocal, CountsLocals, CountsStart, CountsStmt, CountsBlock, CountsItems, CountsBlockItem, CountsSwitchItem, CountsIf, CountsIfElse, CountsTurns, scope_behind, scope_at_start};

use crate::counts::sum;
use crate::names::Names;
use c_typed::{BlockItem, CType, ForStart, LocalDef, Stmt, SwitchItem, TypeTable, Value};
use std::alloc::AllocError;

impl Names {
    /// An expression of a statement.
    fn effect(&self, types: &TypeTable, scope: &[CType], value: &Value) -> Result<u64, AllocError>
        ensures { IfOk result (CountsEffect types.now self.now scope.now value.now) }
    {
        let value = self.value(types, scope, value)?;
        Ok(value.count)
    }

    /// A local begins to live; its first value stands in its own scope (C17 6.2.1 paragraph 7).
    fn local(
        &self,
        types: &TypeTable,
        scope: &mut Vec<CType>,
        local: &LocalDef,
    ) -> Result<u64, AllocError>
        ensures count { IfOk result (CountsLocal types.now self.now scope.old.items local.now) }
        ensures scope { OnOk result (scope.new.items ≡ scope.old.items ++ local.now.c_type ∷ []) }
    {
        scope.push(local.c_type)?;
        let first = self.optional(types, scope.as_slice(), &local.first)?;
        sum(1, first)
    }

    /// The locals of a declaration.
    fn locals(
        &self,
        types: &TypeTable,
        scope: &mut Vec<CType>,
        locals: &[LocalDef],
    ) -> Result<u64, AllocError>
        ensures count { IfOk result (CountsLocals types.now self.now scope.old.items locals.now) }
        ensures scope { OnOk result (scope.new.items ≡ scope_behind scope.old.items locals.now) }
    {
        let mut count = 0;
        for local in locals {
            let one = self.local(types, scope, local)?;
            count = sum(count, one)?;
        }
        Ok(count)
    }

    /// What a `for` begins with (C17 6.8.5.3).
    fn start(
        &self,
        types: &TypeTable,
        scope: &mut Vec<CType>,
        start: &ForStart,
    ) -> Result<u64, AllocError>
        ensures count { IfOk result (CountsStart types.now self.now scope.old.items start.now) }
        ensures scope { OnOk result (scope.new.items ≡ scope_at_start scope.old.items start.now) }
    {
        match start {
            ForStart::Nothing => Ok(0),
            ForStart::Value(value) => self.effect(types, scope.as_slice(), value),
            ForStart::Locals(locals) => self.locals(types, scope, locals.as_slice()),
        }
    }

    /// A statement.
    #[cycle(statements)]
    fn statement(
        &self,
        types: &TypeTable,
        scope: &mut Vec<CType>,
        stmt: &Stmt,
    ) -> Result<u64, AllocError>
        ensures count { IfOk result (CountsStmt types.now self.now scope.old.items stmt.now) }
        ensures scope { OnOk result (scope.new.items ≡ scope.old.items) }
    {
        match stmt {
            Stmt::Block(items) => self.block(types, scope, items.as_slice()),
            Stmt::Empty => Ok(0),
            Stmt::Expression(value) => self.effect(types, scope.as_slice(), value),
            Stmt::If { condition, then } => { self.under(types, scope, condition, then) }
            Stmt::IfElse {
                condition,
                then,
                otherwise,
            } => { self.either(types, scope, condition, then, otherwise) }
            Stmt::While { condition, body } => { self.under(types, scope, condition, body) }
            Stmt::DoWhile { body, condition } => { self.under(types, scope, condition, body) }
            Stmt::For {
                start,
                condition,
                step,
                body,
            } => {
                let outside = scope.len();
                let start = self.start(types, scope, start)?;
                let turns = self.turns(types, scope, condition, step, body)?;
                scope.truncate(outside);
                sum(start, turns)
            }
            Stmt::Switch { value, items } => {
                let value = self.effect(types, scope.as_slice(), value)?;
                let items = self.items(types, scope, items.as_slice())?;
                sum(value, items)
            }
            Stmt::Break => Ok(0),
            Stmt::Continue => Ok(0),
            Stmt::Return(value) => self.optional(types, scope.as_slice(), value),
        }
    }

    /// A condition, and what stands under it.
    #[cycle(statements)]
    fn under(
        &self,
        types: &TypeTable,
        scope: &mut Vec<CType>,
        condition: &Value,
        body: &Stmt,
    ) -> Result<u64, AllocError>
        ensures count { IfOk result (CountsIf types.now self.now scope.old.items condition.now body.now) }
        ensures scope { OnOk result (scope.new.items ≡ scope.old.items) }
    {
        let condition = self.effect(types, scope.as_slice(), condition)?;
        let body = self.statement(types, scope, body)?;
        sum(condition, body)
    }

    /// `if` with `else` (C17 6.8.4.1)
    #[cycle(statements)]
    fn either(
        &self,
        types: &TypeTable,
        scope: &mut Vec<CType>,
        condition: &Value,
        then: &Stmt,
        otherwise: &Stmt,
    ) -> Result<u64, AllocError>
        ensures count { IfOk result (CountsIfElse types.now self.now scope.old.items condition.now then.now otherwise.now) }
        ensures scope { OnOk result (scope.new.items ≡ scope.old.items) }
    {
        let condition = self.effect(types, scope.as_slice(), condition)?;
        let then = self.statement(types, scope, then)?;
        let otherwise = self.statement(types, scope, otherwise)?;
        let branches = sum(then, otherwise)?;
        sum(condition, branches)
    }

    /// The turns of a `for` (C17 6.8.5.3).
    #[cycle(statements)]
    fn turns(
        &self,
        types: &TypeTable,
        scope: &mut Vec<CType>,
        condition: &Option<Value>,
        step: &Option<Value>,
        body: &Stmt,
    ) -> Result<u64, AllocError>
        ensures count { IfOk result (CountsTurns types.now self.now scope.old.items condition.now step.now body.now) }
        ensures scope { OnOk result (scope.new.items ≡ scope.old.items) }
    {
        let condition = self.optional(types, scope.as_slice(), condition)?;
        let step = self.optional(types, scope.as_slice(), step)?;
        let body = self.statement(types, scope, body)?;
        let turn = sum(step, body)?;
        sum(condition, turn)
    }

    /// The items of a block (C17 6.8.2).
    #[cycle(statements)]
    pub(crate) fn block(
        &self,
        types: &TypeTable,
        scope: &mut Vec<CType>,
        items: &[BlockItem],
    ) -> Result<u64, AllocError>
        ensures count { IfOk result (CountsBlock types.now self.now scope.old.items items.now) }
        ensures scope { OnOk result (scope.new.items ≡ scope.old.items) }
    {
        let outside = scope.len();
        let mut count = 0;
        for item in items {
            let one = self.block_item(types, scope, item)?;
            count = sum(count, one)?;
        }
        scope.truncate(outside);
        Ok(count)
    }

    /// The items of a `switch` (C17 6.8.4.2).
    #[cycle(statements)]
    fn items(
        &self,
        types: &TypeTable,
        scope: &mut Vec<CType>,
        items: &[SwitchItem],
    ) -> Result<u64, AllocError>
        ensures count { IfOk result (CountsItems types.now self.now scope.old.items items.now) }
        ensures scope { OnOk result (scope.new.items ≡ scope.old.items) }
    {
        let mut count = 0;
        for item in items {
            let one = self.switch_item(types, scope, item)?;
            count = sum(count, one)?;
        }
        Ok(count)
    }

    /// A local or a statement.
    #[cycle(statements)]
    fn block_item(
        &self,
        types: &TypeTable,
        scope: &mut Vec<CType>,
        item: &BlockItem,
    ) -> Result<u64, AllocError>
        ensures { IfOk result (CountsBlockItem types.now self.now scope.old.items scope.new.items item.now) }
    {
        match item {
            BlockItem::Local(local) => self.local(types, scope, local),
            BlockItem::Statement(stmt) => self.statement(types, scope, stmt),
        }
    }

    /// A label or a statement.
    #[cycle(statements)]
    fn switch_item(
        &self,
        types: &TypeTable,
        scope: &mut Vec<CType>,
        item: &SwitchItem,
    ) -> Result<u64, AllocError>
        ensures { IfOk result (CountsSwitchItem types.now self.now scope.old.items scope.new.items item.now) }
    {
        match item {
            SwitchItem::Case(_) => Ok(0),
            SwitchItem::Default => Ok(0),
            SwitchItem::Statement(stmt) => self.statement(types, scope, stmt),
        }
    }
}
