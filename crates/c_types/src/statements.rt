// Statements and blocks (C17 6.8).

ghost use Rattle.std.specs.Prelude.{◌≡◌, true, IfOk, OnOk};
ghost use Rattle.run_theory.specs.declared.place.Pos.{Pos};
ghost use Rattle.c_syntax.specs.Trees as Trees;
ghost use Rattle.c_syntax.specs.Views.{stmt_tree, for_tree, block_of, switch_of};
ghost use Rattle.c_typed.specs.Table.{Stands};
ghost use Rattle.c_types_state.specs.Finding.{AllStand};
ghost use Rattle.c_types_state.specs.NameTables.{scope_of};
ghost use Rattle.c_types.specs.Parts.{part_labels, part_default, SameLabels};
ghost use Rattle.c_types.specs.Checked.{MakesStmt, MakesFor, MakesStart, MakesBlock, CoversItem, AddsItem, MakesSwitch, MakesPart};

use crate::declarations::{block_declaration, declaration_locals};
use crate::labels::{Labels, converted_label};
use crate::values::{
    condition, constant_of, optional_condition, optional_unused, returned, switched, unboxed,
    unused,
};
use c_num::IntType;
use c_rules::TypeRule;
use c_syntax::{BlockItem, Expr, ForFirst, Stmt, SwitchItem};
use c_typed as typed;
use c_typed::CType;
use c_types_expressions::Pass;
use std::alloc::{AllocError, Global};

/// What surrounds a statement: the result of its function, where that has a type, and whether `break` and `continue` may
/// stand there (C17 6.8.6).
#[derive(Clone, Copy, Debug, PartialEq, Eq)]
pub(crate) struct Around {
    pub(crate) returned: Option<CType>,
    pub(crate) may_break: bool,
    pub(crate) may_continue: bool,
}

impl Around {
    fn within_loop(self) -> Around
        ensures { result ≡ record self { may_break = true; may_continue = true } }
    {
        Around {
            may_break: true,
            may_continue: true,
            ..self
        }
    }

    fn within_switch(self) -> Around
        ensures { result ≡ record self { may_break = true } }
    {
        Around {
            may_break: true,
            ..self
        }
    }
}

/// A typed statement in a box.
fn boxed(alloc: Global, stmt: typed::Stmt) -> Result<Box<typed::Stmt>, AllocError>
    ensures { IfOk result (λ made. made.value ≡ stmt) }
{
    Ok(Box::new(alloc, stmt)?)
}

/// A statement: what it violates, and its typed tree.
#[cycle(stmt)]
fn statement(pass: &mut Pass, around: Around, stmt: &Stmt) -> Result<Box<typed::Stmt>, AllocError>
    requires { AllStand Stands pass.old.checker.table around.returned }
    ensures { IfOk result (λ made. MakesStmt around (stmt_tree stmt.now) pass.old pass.new made.value) }
{
    let alloc = pass.alloc();
    match stmt {
        Stmt::Block(block) => block_stmt(pass, around, block.items.as_slice()),
        Stmt::Empty { .. } => boxed(alloc, typed::Stmt::Empty),
        Stmt::Expression(value) => {
            let value = unused(pass, value)?;
            let value = Box::into_inner(value);
            boxed(alloc, typed::Stmt::Expression(value))
        }
        Stmt::If {
            condition: tested,
            then,
            ..
        } => {
            let condition = condition(pass, tested)?;
            let then = statement(pass, around, then)?;
            let condition = Box::into_inner(condition);
            boxed(alloc, typed::Stmt::If { condition, then })
        }
        Stmt::IfElse {
            condition: tested,
            then,
            otherwise,
            ..
        } => {
            let condition = condition(pass, tested)?;
            let then = statement(pass, around, then)?;
            let otherwise = statement(pass, around, otherwise)?;
            let condition = Box::into_inner(condition);
            let made = typed::Stmt::IfElse {
                condition,
                then,
                otherwise,
            };
            boxed(alloc, made)
        }
        Stmt::While {
            condition: tested,
            body,
            ..
        } => {
            let condition = condition(pass, tested)?;
            let body = statement(pass, around.within_loop(), body)?;
            let condition = Box::into_inner(condition);
            boxed(alloc, typed::Stmt::While { condition, body })
        }
        Stmt::Do {
            body,
            condition: tested,
            ..
        } => {
            let body = statement(pass, around.within_loop(), body)?;
            let condition = condition(pass, tested)?;
            let condition = Box::into_inner(condition);
            boxed(alloc, typed::Stmt::DoWhile { body, condition })
        }
        Stmt::For {
            first,
            condition,
            step,
            body,
            ..
        } => for_stmt(pass, around, first, condition, step, body),
        Stmt::Switch { value, items, .. } => {
            let (value, int_type) = switched(pass, value)?;
            let items = switch_items(pass, around.within_switch(), int_type, items.as_slice())?;
            let value = Box::into_inner(value);
            boxed(alloc, typed::Stmt::Switch { value, items })
        }
        Stmt::Break { place } => {
            pass.checker
                .require(around.may_break, TypeRule::T20, *place);
            boxed(alloc, typed::Stmt::Break)
        }
        Stmt::Continue { place } => {
            pass.checker
                .require(around.may_continue, TypeRule::T20, *place);
            boxed(alloc, typed::Stmt::Continue)
        }
        Stmt::Return { place, value } => {
            let value = returned(pass, around.returned, *place, value)?;
            let value = unboxed(value);
            boxed(alloc, typed::Stmt::Return(value))
        }
    }
}

/// A block, whose names are in scope in it alone (C17 6.8.2).
#[cycle(stmt)]
fn block_stmt(
    pass: &mut Pass,
    around: Around,
    items: &[BlockItem],
) -> Result<Box<typed::Stmt>, AllocError>
    requires { AllStand Stands pass.old.checker.table around.returned }
    ensures { IfOk result (λ made. (place : Pos) → MakesStmt around (Trees.BlockStmt place (block_of items.now)) pass.old pass.new made.value) }
{
    let outer = pass.checker.enter();
    let items = block_items(pass, around, items)?;
    pass.checker.leave(outer);
    boxed(pass.alloc(), typed::Stmt::Block(items))
}

/// `for`, whose names are in scope in it alone (C17 6.8.5.3).
#[cycle(stmt)]
fn for_stmt(
    pass: &mut Pass,
    around: Around,
    first: &ForFirst,
    condition: &Option<Expr>,
    step: &Option<Expr>,
    body: &Stmt,
) -> Result<Box<typed::Stmt>, AllocError>
    requires { AllStand Stands pass.old.checker.table around.returned }
    ensures { IfOk result (λ made. MakesFor around first.now condition.now step.now body.now pass.old pass.new made.value) }
{
    let outer = pass.checker.enter();
    let start = for_start(pass, first)?;
    let condition = optional_condition(pass, condition)?;
    let step = optional_unused(pass, step)?;
    let body = statement(pass, around.within_loop(), body)?;
    pass.checker.leave(outer);
    let start = Box::into_inner(start);
    let condition = unboxed(condition);
    let step = unboxed(step);
    let made = typed::Stmt::For {
        start,
        condition,
        step,
        body,
    };
    boxed(pass.alloc(), made)
}

/// What a `for` begins with (C17 6.8.5.3).
fn for_start(pass: &mut Pass, first: &ForFirst) -> Result<Box<typed::ForStart>, AllocError>
    ensures { IfOk result (λ made. MakesStart (for_tree first.now) pass.old pass.new made.value) }
{
    let alloc = pass.alloc();
    match first {
        ForFirst::Nothing => Ok(Box::new(alloc, typed::ForStart::Nothing)?),
        ForFirst::Expression(value) => {
            let value = unused(pass, value)?;
            let value = Box::into_inner(value);
            Ok(Box::new(alloc, typed::ForStart::Value(value))?)
        }
        ForFirst::Declaration(declaration) => {
            let locals = declaration_locals(pass, declaration)?;
            Ok(Box::new(alloc, typed::ForStart::Locals(locals))?)
        }
    }
}

/// What stands in a block, whose names are in scope behind their declarations.
#[cycle(stmt)]
pub(crate) fn block_items(
    pass: &mut Pass,
    around: Around,
    items: &[BlockItem],
) -> Result<Vec<typed::BlockItem>, AllocError>
    requires { AllStand Stands pass.old.checker.table around.returned }
    ensures { IfOk result (MakesBlock around (block_of items.now) pass.old pass.new) }
{
    let mut made = Vec::new(pass.alloc());
    for item in items {
        block_item(pass, around, item, &mut made)?;
    }
    Ok(made)
}

/// Adds what an item of a block is to those before it.
#[cycle(stmt)]
fn block_item(
    pass: &mut Pass,
    around: Around,
    item: &BlockItem,
    made: &mut Vec<typed::BlockItem>,
) -> Result<(), AllocError>
    requires { AllStand Stands pass.old.checker.table around.returned }
    ensures covers { OnOk result (CoversItem around item.now pass.old pass.new) }
    ensures made { OnOk result (AddsItem around item.now pass.old pass.new made.old.items made.new.items) }
{
    match item {
        BlockItem::Declaration(declaration) => block_declaration(pass, declaration, made),
        BlockItem::Statement(stmt) => {
            let stmt = statement(pass, around, stmt)?;
            let stmt = Box::into_inner(stmt);
            Ok(made.push(typed::BlockItem::Statement(stmt))?)
        }
    }
}

/// What stands in a `switch`. Labels are converted to this type (C17 6.8.4.2 paragraph 5).
#[cycle(stmt)]
fn switch_items(
    pass: &mut Pass,
    around: Around,
    int_type: Option<IntType>,
    items: &[SwitchItem],
) -> Result<Vec<typed::SwitchItem>, AllocError>
    requires { AllStand Stands pass.old.checker.table around.returned }
    ensures { IfOk result (MakesSwitch around int_type (switch_of items.now) pass.old pass.new) }
{
    let mut labels = Labels::new(pass.alloc());
    let mut made = Vec::new(pass.alloc());
    for item in items {
        let item = switch_item(pass, around, int_type, &mut labels, item)?;
        made.push(item)?;
    }
    Ok(made)
}

/// One of these, behind these labels.
#[cycle(stmt)]
fn switch_item(
    pass: &mut Pass,
    around: Around,
    int_type: Option<IntType>,
    labels: &mut Labels,
    item: &SwitchItem,
) -> Result<typed::SwitchItem, AllocError>
    requires { AllStand Stands pass.old.checker.table around.returned }
    ensures made { IfOk result (MakesPart around int_type labels.old item.now pass.old pass.new) }
    ensures labels { OnOk result (SameLabels labels.new.values.keys (part_labels (scope_of pass.old.checker) int_type item.now labels.old.values.keys)) }
    ensures has_default { OnOk result (labels.new.has_default ≡ part_default item.now labels.old.has_default) }
{
    match item {
        SwitchItem::Case { place, value } => {
            let stated = constant_of(pass, value)?;
            let label = converted_label(int_type, stated);
            let is_new = labels.add(label)?;
            pass.checker.require(is_new, TypeRule::T21, *place);
            Ok(typed::SwitchItem::Case(label.unwrap_or(0)))
        }
        SwitchItem::Default { place } => {
            let is_first = labels.add_default();
            pass.checker.require(is_first, TypeRule::T21, *place);
            Ok(typed::SwitchItem::Default)
        }
        SwitchItem::Statement(stmt) => {
            let stmt = statement(pass, around, stmt)?;
            let stmt = Box::into_inner(stmt);
            Ok(typed::SwitchItem::Statement(stmt))
        }
    }
}
