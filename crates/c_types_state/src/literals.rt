// The literals of a program, in the order of its text (C17 6.4.5).

ghost use Rattle.std.specs.Prelude.{◌≡◌, IfOk, OnOk, map};
ghost use Rattle.c_syntax.specs.Views.{expr_tree, type_tree, declarator_tree, parameters_of, value_tree, init_tree, init_declarator_tree};
ghost use Rattle.c_syntax.specs.Views.{declaration_tree, for_tree, stmt_tree, block_of, switch_of, member_tree, base_tree, item_tree, program_tree};
ghost use Rattle.c_typed.specs.Table.{Grows};
ghost use Rattle.c_typed.specs.DefinitionViews.{literal_of, LiteralsStand};
ghost use Rattle.c_rules.specs.Elaborated as rules;
ghost use Rattle.c_types_state.specs.Lists.{MakesLiteral, text_of, item_literals, suffix_literals};
ghost use Rattle.c_types_state.specs.Listed.{declarator_literals, ListsLiterals};

use c_num::IntType;
use c_syntax::{
    Base, BlockItem, Declaration, Declarator, Direct, Expr, ForFirst, Init, InitDeclarator, Item,
    Member, Parameter, Program, Stmt, Suffix, SwitchItem, TypeName,
};
use c_typed::{ByteString, CType, LiteralDef, TypeTable};
use run_theory::Pos;
use std::alloc::{AllocError, Global};

/// The literals of a program, with their types.
pub fn literals_of(
    alloc: Global,
    types: &mut TypeTable,
    program: &Program,
) -> Result<Vec<LiteralDef>, AllocError>
    ensures literals { IfOk result (λ made. map literal_of made.items ≡ rules.literals_in_items (program_tree program.now).items) }
    ensures stand { IfOk result (λ made. LiteralsStand types.new made.items) }
    ensures grows { OnOk result (Grows types.old types.new) }
{
    let mut literals = Vec::new(alloc);
    for text in texts_of(alloc, program)? {
        literals.push(text.with_type(types)?)?;
    }
    Ok(literals)
}

/// The literals of a program, without their types.
fn texts_of(alloc: Global, program: &Program) -> Result<Vec<Text>, AllocError>
    ensures { IfOk result (λ made. map text_of made.items ≡ rules.literals_in_items (program_tree program.now).items) }
{
    let mut literals = Literals {
        alloc,
        found: Vec::new(alloc),
    };
    for item in program.items.as_slice() {
        literals.of_item(item)?;
    }
    Ok(literals.found)
}

/// A literal of the text, without the zero at its end.
#[derive(Drop)]
struct Text {
    place: Pos,
    bytes: ByteString,
}

impl Text {
    /// With its type: an array with room for the zero (C17 6.4.5 paragraph 6).
    fn with_type(self, types: &mut TypeTable) -> Result<LiteralDef, AllocError>
        ensures { IfOk result (λ made. MakesLiteral types.old types.new self made) }
    {
        let length = self.bytes.as_slice().len() as u64 + 1;
        let c_type = types.array_of(CType::integer(IntType::Char), length)?;
        Ok(LiteralDef {
            place: self.place,
            bytes: self.bytes,
            c_type,
        })
    }
}

#[derive(Drop)]
struct Literals {
    alloc: Global,
    found: Vec<Text>,
}

impl Literals {
    fn of_item(&mut self, item: &Item) -> Result<(), AllocError>
        ensures { ListsLiterals (item_literals (item_tree item.now)) self.old self.new result }
    {
        match item {
            Item::Declaration { base, declarators } => {
                self.of_base(base)?;
                self.of_declarators(declarators.as_slice())
            }
            Item::Function {
                base,
                declarator,
                body,
            } => {
                self.of_base(base)?;
                self.of_declarator(declarator)?;
                self.of_block(body.items.as_slice())
            }
        }
    }

    fn of_base(&mut self, base: &Base) -> Result<(), AllocError>
        ensures { ListsLiterals (rules.literals_in_base (base_tree base.now)) self.old self.new result }
    {
        match base {
            Base::Simple(_) => Ok(()),
            Base::Struct { members, .. } => {
                for member in members.as_slice() {
                    self.of_member(member)?;
                }
                Ok(())
            }
        }
    }

    fn of_member(&mut self, member: &Member) -> Result<(), AllocError>
        ensures { ListsLiterals (rules.literals_in_each (member_tree member.now).declarators) self.old self.new result }
    {
        for declarator in member.declarators.as_slice() {
            self.of_declarator(declarator)?;
        }
        Ok(())
    }

    #[cycle(expr)]
    fn of_expr(&mut self, tree: &Expr) -> Result<(), AllocError>
        ensures { ListsLiterals (rules.literals_in (expr_tree tree.now)) self.old self.new result }
    {
        match tree {
            Expr::Literal { bytes, place } => {
                self.found.push(Text {
                    place: *place,
                    bytes: ByteString::from_slice(self.alloc, bytes.as_slice())?,
                })?;
                Ok(())
            }
            Expr::Parenthesized { inner, .. } => self.of_expr(inner),
            Expr::Index { array, index } => {
                self.of_expr(array)?;
                self.of_expr(index)
            }
            Expr::Call {
                function,
                arguments,
                ..
            } => {
                self.of_expr(function)?;
                for argument in arguments.as_slice() {
                    self.of_expr(argument)?;
                }
                Ok(())
            }
            Expr::Member { object, .. } => self.of_expr(object),
            Expr::PointerMember { pointer, .. } => self.of_expr(pointer),
            Expr::PostIncrement { operand } => self.of_expr(operand),
            Expr::PostDecrement { operand } => self.of_expr(operand),
            Expr::Prefix { operand, .. } => self.of_expr(operand),
            Expr::SizeofExpr { operand, .. } => self.of_expr(operand),
            Expr::SizeofType { type_name, .. } => self.of_type(type_name),
            Expr::Cast {
                type_name,
                operand,
                ..
            } => {
                self.of_type(type_name)?;
                self.of_expr(operand)
            }
            Expr::Binary { left, right, .. } => {
                self.of_expr(left)?;
                self.of_expr(right)
            }
            Expr::Conditional {
                condition,
                then,
                otherwise,
            } => {
                self.of_expr(condition)?;
                self.of_expr(then)?;
                self.of_expr(otherwise)
            }
            Expr::Assign { object, value, .. } => {
                self.of_expr(object)?;
                self.of_expr(value)
            }
            _ => Ok(()),
        }
    }

    #[cycle(expr)]
    fn of_type(&mut self, type_name: &TypeName) -> Result<(), AllocError>
        ensures { ListsLiterals (rules.literals_in_type (type_tree type_name.now)) self.old self.new result }
    {
        match &type_name.declarator {
            Some(declarator) => self.of_declarator(declarator),
            None => Ok(()),
        }
    }

    #[cycle(expr)]
    fn of_declarator(&mut self, declarator: &Declarator) -> Result<(), AllocError>
        ensures { ListsLiterals (rules.literals_in_declarator (declarator_tree declarator.now)) self.old self.new result }
    {
        if let Direct::Nested(inner) = &declarator.direct {
            self.of_declarator(inner)?;
        }
        for suffix in declarator.suffixes.as_slice() {
            self.of_suffix(suffix)?;
        }
        Ok(())
    }

    #[cycle(expr)]
    fn of_suffix(&mut self, suffix: &Suffix) -> Result<(), AllocError>
        ensures { ListsLiterals (suffix_literals suffix.now) self.old self.new result }
    {
        match suffix {
            Suffix::Array(Some(length)) => self.of_expr(length),
            Suffix::Array(None) => Ok(()),
            Suffix::Function(parameters) => self.of_parameters(parameters.as_slice()),
        }
    }

    #[cycle(expr)]
    fn of_parameters(&mut self, parameters: &[Parameter]) -> Result<(), AllocError>
        ensures { ListsLiterals (rules.literals_in_parameters (parameters_of parameters.now)) self.old self.new result }
    {
        for parameter in parameters {
            if let Some(declarator) = &parameter.declarator {
                self.of_declarator(declarator)?;
            }
        }
        Ok(())
    }

    fn of_value(&mut self, value: &Option<Expr>) -> Result<(), AllocError>
        ensures { ListsLiterals (rules.literals_in_value (value_tree value.now)) self.old self.new result }
    {
        match value {
            Some(value) => self.of_expr(value),
            None => Ok(()),
        }
    }

    fn of_init(&mut self, init: &Init) -> Result<(), AllocError>
        ensures { ListsLiterals (rules.literals_in_init (init_tree init.now)) self.old self.new result }
    {
        match init {
            Init::Value(value) => self.of_expr(value),
            Init::List { inits, .. } => {
                for init in inits.as_slice() {
                    self.of_init(init)?;
                }
                Ok(())
            }
        }
    }

    fn of_init_declarator(&mut self, tree: &InitDeclarator) -> Result<(), AllocError>
        ensures { ListsLiterals (declarator_literals tree.now) self.old self.new result }
    {
        self.of_declarator(&tree.declarator)?;
        match &tree.init {
            Some(init) => self.of_init(init),
            None => Ok(()),
        }
    }

    fn of_declarators(&mut self, declarators: &[InitDeclarator]) -> Result<(), AllocError>
        ensures { ListsLiterals (rules.literals_in_declarators (map init_declarator_tree declarators.now)) self.old self.new result }
    {
        for declarator in declarators {
            self.of_init_declarator(declarator)?;
        }
        Ok(())
    }

    fn of_declaration(&mut self, declaration: &Declaration) -> Result<(), AllocError>
        ensures { ListsLiterals (rules.literals_in_declarators (declaration_tree declaration.now).declarators) self.old self.new result }
    {
        self.of_declarators(declaration.declarators.as_slice())
    }

    fn of_start(&mut self, first: &ForFirst) -> Result<(), AllocError>
        ensures { ListsLiterals (rules.literals_in_start (for_tree first.now)) self.old self.new result }
    {
        match first {
            ForFirst::Nothing => Ok(()),
            ForFirst::Expression(value) => self.of_expr(value),
            ForFirst::Declaration(declaration) => self.of_declaration(declaration),
        }
    }

    #[cycle(stmt)]
    fn of_stmt(&mut self, stmt: &Stmt) -> Result<(), AllocError>
        ensures { ListsLiterals (rules.literals_in_stmt (stmt_tree stmt.now)) self.old self.new result }
    {
        match stmt {
            Stmt::Block(block) => self.of_block(block.items.as_slice()),
            Stmt::Expression(value) => self.of_expr(value),
            Stmt::If {
                condition,
                then,
                ..
            } => {
                self.of_expr(condition)?;
                self.of_stmt(then)
            }
            Stmt::IfElse {
                condition,
                then,
                otherwise,
                ..
            } => {
                self.of_expr(condition)?;
                self.of_stmt(then)?;
                self.of_stmt(otherwise)
            }
            Stmt::While {
                condition,
                body,
                ..
            } => {
                self.of_expr(condition)?;
                self.of_stmt(body)
            }
            Stmt::Do {
                body,
                condition,
                ..
            } => {
                self.of_stmt(body)?;
                self.of_expr(condition)
            }
            Stmt::For {
                first,
                condition,
                step,
                body,
                ..
            } => {
                self.of_start(first)?;
                self.of_value(condition)?;
                self.of_value(step)?;
                self.of_stmt(body)
            }
            Stmt::Switch { value, items, .. } => {
                self.of_expr(value)?;
                self.of_switch(items.as_slice())
            }
            Stmt::Return { value, .. } => self.of_value(value),
            _ => Ok(()),
        }
    }

    #[cycle(stmt)]
    fn of_block(&mut self, items: &[BlockItem]) -> Result<(), AllocError>
        ensures { ListsLiterals (rules.literals_in_block (block_of items.now)) self.old self.new result }
    {
        for item in items {
            match item {
                BlockItem::Declaration(declaration) => self.of_declaration(declaration)?,
                BlockItem::Statement(stmt) => self.of_stmt(stmt)?,
            }
        }
        Ok(())
    }

    #[cycle(stmt)]
    fn of_switch(&mut self, items: &[SwitchItem]) -> Result<(), AllocError>
        ensures { ListsLiterals (rules.literals_in_switch (switch_of items.now)) self.old self.new result }
    {
        for item in items {
            match item {
                SwitchItem::Case { value, .. } => self.of_expr(value)?,
                SwitchItem::Default { .. } => {}
                SwitchItem::Statement(stmt) => self.of_stmt(stmt)?,
            }
        }
        Ok(())
    }
}
