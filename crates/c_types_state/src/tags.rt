// The tags that a program declares: those of each `struct NAME` outside function bodies and parameter lists (C17 6.2.1
// paragraph 7), the structures that it completes, and the functions that it defines.

ghost use Rattle.std.specs.Prelude.{◌≡◌, OnOk};
ghost use Rattle.c_syntax.specs.Views.{expr_tree, type_tree, declarator_tree, words_tree, init_tree, base_tree, program_tree};
ghost use Rattle.c_rules.specs.Programs as rules;
ghost use Rattle.c_types_state.specs.Lists.{with_tags, with_outline, with_outline_base, suffix_tags};
ghost use Rattle.c_types_state.specs.Listed.{member_tags, declarator_tags};

use crate::checker::Checker;
use crate::names::declared_name;
use c_syntax::{
    Base, Declarator, Direct, Expr, Init, InitDeclarator, Item, Member, Program, Simple,
    SimpleKind, Suffix, TypeName,
};
use std::alloc::AllocError;

/// What is known where a program begins.
pub fn outermost(checker: &mut Checker, program: &Program) -> Result<(), AllocError>
    ensures { OnOk result (checker.new ≡ with_outline (program_tree program.now).items checker.old) }
{
    for item in program.items.as_slice() {
        match item {
            Item::Declaration { base, declarators } => {
                tags_in_base(checker, base)?;
                for tree in declarators.as_slice() {
                    tags_in_init_declarator(checker, tree)?;
                }
            }
            Item::Function {
                base,
                declarator,
                ..
            } => {
                tags_in_base(checker, base)?;
                tags_in_declarator(checker, declarator)?;
                if let Some(name) = declared_name(declarator) {
                    checker.add_defined(name.bytes.as_slice())?;
                }
            }
        }
    }
    Ok(())
}

fn tags_in_base(checker: &mut Checker, base: &Base) -> Result<(), AllocError>
    ensures { OnOk result (checker.new ≡ with_outline_base (base_tree base.now) checker.old) }
{
    match base {
        Base::Simple(simple) => tag_of(checker, simple),
        Base::Struct { name, members, .. } => {
            checker.add_tag(name)?;
            checker.add_completed(name.bytes.as_slice())?;
            for member in members.as_slice() {
                tags_in_member(checker, member)?;
            }
            Ok(())
        }
    }
}

fn tags_in_member(checker: &mut Checker, member: &Member) -> Result<(), AllocError>
    ensures { OnOk result (checker.new ≡ with_tags (member_tags member.now) checker.old) }
{
    tag_of(checker, &member.simple)?;
    for declarator in member.declarators.as_slice() {
        tags_in_declarator(checker, declarator)?;
    }
    Ok(())
}

fn tag_of(checker: &mut Checker, simple: &Simple) -> Result<(), AllocError>
    ensures { OnOk result (checker.new ≡ with_tags (rules.tag_of (words_tree simple.now).words) checker.old) }
{
    match &simple.kind {
        SimpleKind::Struct(tag) => checker.add_tag(tag),
        _ => Ok(()),
    }
}

fn tags_in_init_declarator(checker: &mut Checker, tree: &InitDeclarator) -> Result<(), AllocError>
    ensures { OnOk result (checker.new ≡ with_tags (declarator_tags tree.now) checker.old) }
{
    tags_in_declarator(checker, &tree.declarator)?;
    match &tree.init {
        Some(init) => tags_in_init(checker, init),
        None => Ok(()),
    }
}

fn tags_in_init(checker: &mut Checker, init: &Init) -> Result<(), AllocError>
    ensures { OnOk result (checker.new ≡ with_tags (rules.tags_in_init (init_tree init.now)) checker.old) }
{
    match init {
        Init::Value(value) => tags_in(checker, value),
        Init::List { inits, .. } => {
            for init in inits.as_slice() {
                tags_in_init(checker, init)?;
            }
            Ok(())
        }
    }
}

#[cycle(tags)]
fn tags_in(checker: &mut Checker, tree: &Expr) -> Result<(), AllocError>
    ensures { OnOk result (checker.new ≡ with_tags (rules.tags_in (expr_tree tree.now)) checker.old) }
{
    match tree {
        Expr::Parenthesized { inner, .. } => tags_in(checker, inner),
        Expr::Index { array, index } => {
            tags_in(checker, array)?;
            tags_in(checker, index)
        }
        Expr::Call {
            function,
            arguments,
            ..
        } => {
            tags_in(checker, function)?;
            for argument in arguments.as_slice() {
                tags_in(checker, argument)?;
            }
            Ok(())
        }
        Expr::Member { object, .. } => tags_in(checker, object),
        Expr::PointerMember { pointer, .. } => tags_in(checker, pointer),
        Expr::PostIncrement { operand } | Expr::PostDecrement { operand } => {
            tags_in(checker, operand)
        }
        Expr::Prefix { operand, .. } => tags_in(checker, operand),
        Expr::SizeofExpr { operand, .. } => tags_in(checker, operand),
        Expr::SizeofType { type_name, .. } => tags_in_type(checker, type_name),
        Expr::Cast {
            type_name,
            operand,
            ..
        } => {
            tags_in_type(checker, type_name)?;
            tags_in(checker, operand)
        }
        Expr::Binary { left, right, .. } => {
            tags_in(checker, left)?;
            tags_in(checker, right)
        }
        Expr::Conditional {
            condition,
            then,
            otherwise,
        } => {
            tags_in(checker, condition)?;
            tags_in(checker, then)?;
            tags_in(checker, otherwise)
        }
        Expr::Assign { object, value, .. } => {
            tags_in(checker, object)?;
            tags_in(checker, value)
        }
        _ => Ok(()),
    }
}

#[cycle(tags)]
fn tags_in_type(checker: &mut Checker, type_name: &TypeName) -> Result<(), AllocError>
    ensures { OnOk result (checker.new ≡ with_tags (rules.tags_in_type (type_tree type_name.now)) checker.old) }
{
    tag_of(checker, &type_name.simple)?;
    match &type_name.declarator {
        Some(declarator) => tags_in_declarator(checker, declarator),
        None => Ok(()),
    }
}

#[cycle(tags)]
fn tags_in_declarator(checker: &mut Checker, declarator: &Declarator) -> Result<(), AllocError>
    ensures { OnOk result (checker.new ≡ with_tags (rules.tags_in_declarator (declarator_tree declarator.now)) checker.old) }
{
    if let Direct::Nested(inner) = &declarator.direct {
        tags_in_declarator(checker, inner)?;
    }
    for suffix in declarator.suffixes.as_slice() {
        tags_in_suffix(checker, suffix)?;
    }
    Ok(())
}

#[cycle(tags)]
fn tags_in_suffix(checker: &mut Checker, suffix: &Suffix) -> Result<(), AllocError>
    ensures { OnOk result (checker.new ≡ with_tags (suffix_tags suffix.now) checker.old) }
{
    match suffix {
        Suffix::Array(Some(length)) => tags_in(checker, length),
        _ => Ok(()),
    }
}
