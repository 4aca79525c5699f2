// What of statements has labels.

ghost use Rattle.std.specs.Prelude.{◌≡◌, ◌++◌, OnOk, option_map};
ghost use Rattle.c_syntax.specs.Views.{name_tree, words_tree, init_tree, init_declarator_tree, declaration_tree, value_tree, for_tree, stmt_tree, block_of, switch_of};
ghost use Rattle.c_rules.specs.Names.{entered};
ghost use Rattle.c_rules.specs.Expressions as expressions;
ghost use Rattle.c_rules.specs.Statements as rules;
ghost use Rattle.c_types.specs.Parts.{behind_block, item_scope};
ghost use Rattle.graph_text.specs.Adding.{scope_at, AddsHere, item_marks, part_marks, marks_in_turns};
ghost use Rattle.graph_text.specs.Marks.{local_mark, marks_in_first, marks_in_local, marks_in_declaration, marks_in_start, marks_in_stmt, marks_in_block, marks_in_switch};

use crate::marks::{Mark, Marker};
use c_syntax::{
    BlockItem, Declaration, Expr, ForFirst, Init, InitDeclarator, Name, Simple, Stmt, SwitchItem,
};
use c_types::declare_local;
use c_types_expressions::declared_name;
use std::alloc::AllocError;

impl Marker {
    /// A declaration in a block.
    fn declaration(&mut self, tree: &Declaration) -> Result<(), AllocError>
        ensures scope { OnOk result (scope_at self.new ≡ (rules.declaration (scope_at self.old) (declaration_tree tree.now)).scope) }
        ensures marks { AddsHere (λ scope. marks_in_declaration scope (declaration_tree tree.now)) self.old self.new result }
    {
        for declarator in tree.declarators.as_slice() {
            self.local(&tree.simple, declarator)?;
        }
        Ok(())
    }

    /// A local, which is in scope in its own initializer (C17 6.2.1 paragraph 7).
    fn local(&mut self, simple: &Simple, tree: &InitDeclarator) -> Result<(), AllocError>
        ensures scope { OnOk result (scope_at self.new ≡ (rules.declare_local simple.now.place (expressions.words_type (scope_at self.old) (words_tree simple.now)).known (init_declarator_tree tree.now) (scope_at self.old)).scope) }
        ensures marks { AddsHere (λ scope. marks_in_local scope simple.now.place (expressions.words_type scope (words_tree simple.now)).known (init_declarator_tree tree.now)) self.old self.new result }
    {
        self.declarator(&tree.declarator)?;
        self.declare(simple, tree)?;
        self.name(declared_name(&tree.declarator))?;
        self.first(&tree.init)
    }

    /// Declares a local.
    fn declare(&mut self, simple: &Simple, tree: &InitDeclarator) -> Result<(), AllocError>
        ensures scope { OnOk result (scope_at self.new ≡ (rules.declare_local simple.now.place (expressions.words_type (scope_at self.old) (words_tree simple.now)).known (init_declarator_tree tree.now) (scope_at self.old)).scope) }
        ensures marks { self.new.marks ≡ self.old.marks }
    {
        declare_local(&mut self.pass, simple, tree)
    }

    /// The name of a local.
    fn name(&mut self, name: Option<&Name>) -> Result<(), AllocError>
        ensures scope { OnOk result (scope_at self.new ≡ scope_at self.old) }
        ensures marks { AddsHere (λ scope. local_mark (option_map (λ name. name_tree name.now) name.entry)) self.old self.new result }
    {
        match name {
            Some(name) => {
                let bytes = Vec::from_slice(self.pass.alloc(), name.bytes.as_slice())?;
                self.add(Mark::Local(bytes))
            }
            None => Ok(()),
        }
    }

    /// The initializer of a local, where there is one.
    fn first(&mut self, tree: &Option<Init>) -> Result<(), AllocError>
        ensures scope { OnOk result (scope_at self.new ≡ scope_at self.old) }
        ensures marks { AddsHere (λ scope. marks_in_first scope (option_map init_tree tree.now)) self.old self.new result }
    {
        match tree {
            Some(init) => self.init(init),
            None => Ok(()),
        }
    }

    /// What a `for` begins with.
    fn start(&mut self, tree: &ForFirst) -> Result<(), AllocError>
        ensures scope { OnOk result (scope_at self.new ≡ (rules.for_start (scope_at self.old) (for_tree tree.now)).scope) }
        ensures marks { AddsHere (λ scope. marks_in_start scope (for_tree tree.now)) self.old self.new result }
    {
        match tree {
            ForFirst::Nothing => Ok(()),
            ForFirst::Expression(value) => self.expr(true, value),
            ForFirst::Declaration(declaration) => self.declaration(declaration),
        }
    }

    #[cycle(stmt)]
    fn stmt(&mut self, tree: &Stmt) -> Result<(), AllocError>
        ensures scope { OnOk result (scope_at self.new ≡ scope_at self.old) }
        ensures marks { AddsHere (λ scope. marks_in_stmt scope (stmt_tree tree.now)) self.old self.new result }
    {
        match tree {
            Stmt::Block(block) => self.inner_block(block.items.as_slice()),
            Stmt::Expression(value) => self.expr(true, value),
            Stmt::If {
                condition,
                then,
                ..
            } => {
                self.expr(true, condition)?;
                self.stmt(then)
            }
            Stmt::IfElse {
                condition,
                then,
                otherwise,
                ..
            } => {
                self.expr(true, condition)?;
                self.stmt(then)?;
                self.stmt(otherwise)
            }
            Stmt::While {
                condition,
                body,
                ..
            } => {
                self.expr(true, condition)?;
                self.stmt(body)
            }
            Stmt::Do {
                body,
                condition,
                ..
            } => {
                self.stmt(body)?;
                self.expr(true, condition)
            }
            Stmt::For {
                first,
                condition,
                step,
                body,
                ..
            } => self.for_stmt(first, condition, step, body),
            Stmt::Switch { value, items, .. } => {
                self.expr(true, value)?;
                self.switch(items.as_slice())
            }
            Stmt::Return { value, .. } => self.optional(value),
            _ => Ok(()),
        }
    }

    /// A block, whose names are in scope in it alone (C17 6.8.2).
    #[cycle(stmt)]
    fn inner_block(&mut self, items: &[BlockItem]) -> Result<(), AllocError>
        ensures scope { OnOk result (scope_at self.new ≡ scope_at self.old) }
        ensures marks { AddsHere (λ scope. marks_in_block (entered scope) (block_of items.now)) self.old self.new result }
    {
        let outer = self.enter();
        self.block(items)?;
        self.leave(outer);
        Ok(())
    }

    /// `for`, whose names are in scope in it alone (C17 6.8.5.3).
    #[cycle(stmt)]
    fn for_stmt(
        &mut self,
        first: &ForFirst,
        condition: &Option<Expr>,
        step: &Option<Expr>,
        body: &Stmt,
    ) -> Result<(), AllocError>
        ensures scope { OnOk result (scope_at self.new ≡ scope_at self.old) }
        ensures marks { AddsHere (λ scope. marks_in_start (entered scope) (for_tree first.now) ++ marks_in_turns (rules.for_start (entered scope) (for_tree first.now)).scope (value_tree condition.now) (value_tree step.now) (stmt_tree body.now)) self.old self.new result }
    {
        let outer = self.enter();
        self.start(first)?;
        self.optional(condition)?;
        self.optional(step)?;
        self.stmt(body)?;
        self.leave(outer);
        Ok(())
    }

    /// What stands in a block, whose names are in scope behind their declarations.
    #[cycle(stmt)]
    pub(crate) fn block(&mut self, items: &[BlockItem]) -> Result<(), AllocError>
        ensures scope { OnOk result (scope_at self.new ≡ behind_block (scope_at self.old) (block_of items.now)) }
        ensures marks { AddsHere (λ scope. marks_in_block scope (block_of items.now)) self.old self.new result }
    {
        for item in items {
            self.item(item)?;
        }
        Ok(())
    }

    #[cycle(stmt)]
    fn item(&mut self, item: &BlockItem) -> Result<(), AllocError>
        ensures scope { OnOk result (scope_at self.new ≡ item_scope (scope_at self.old) item.now) }
        ensures marks { AddsHere (λ scope. item_marks scope item.now) self.old self.new result }
    {
        match item {
            BlockItem::Declaration(declaration) => self.declaration(declaration),
            BlockItem::Statement(stmt) => self.stmt(stmt),
        }
    }

    #[cycle(stmt)]
    fn switch(&mut self, items: &[SwitchItem]) -> Result<(), AllocError>
        ensures scope { OnOk result (scope_at self.new ≡ scope_at self.old) }
        ensures marks { AddsHere (λ scope. marks_in_switch scope (switch_of items.now)) self.old self.new result }
    {
        for item in items {
            self.part(item)?;
        }
        Ok(())
    }

    #[cycle(stmt)]
    fn part(&mut self, item: &SwitchItem) -> Result<(), AllocError>
        ensures scope { OnOk result (scope_at self.new ≡ scope_at self.old) }
        ensures marks { AddsHere (λ scope. part_marks scope item.now) self.old self.new result }
    {
        match item {
            SwitchItem::Case { value, .. } => self.expr(false, value),
            SwitchItem::Default { .. } => Ok(()),
            SwitchItem::Statement(stmt) => self.stmt(stmt),
        }
    }
}
