// Declarations in blocks (C17 6.7).

ghost use Rattle.std.specs.Prelude.{IfOk, OnOk, option_map};
ghost use Rattle.c_syntax.specs.Views.{name_tree, init_declarator_tree, declaration_tree};
ghost use Rattle.c_typed.specs.Table.{Stands};
ghost use Rattle.c_types_state.specs.Finding.{AllStand};
ghost use Rattle.c_types_state.specs.NameTables.{scope_of};
ghost use Rattle.c_types_expressions.specs.Derived.{element_rule, IsElement};
ghost use Rattle.c_types_expressions.specs.Parts.{OfType};
ghost use Rattle.c_types.specs.Checked.{CoversDeclaration, AddsDeclaration, MakesLocals, MakesDeclared, CoversName};

use crate::initializers::local_first;
use crate::values::unboxed;
use c_rules::TypeRule;
use c_syntax::{Declaration, InitDeclarator, Name};
use c_typed::{BlockItem, CType, LocalDef};
use c_types_expressions::{LengthRole, Pass, declared_name, declared_type, name_place, words_type};
use c_types_state::{Checker, library_function};
use run_theory::Pos;
use std::alloc::AllocError;

/// Adds the locals of a declaration to what stands in its block.
pub(crate) fn block_declaration(
    pass: &mut Pass,
    declaration: &Declaration,
    made: &mut Vec<BlockItem>,
) -> Result<(), AllocError>
    ensures covers { OnOk result (CoversDeclaration (declaration_tree declaration.now) pass.old pass.new) }
    ensures made { OnOk result (AddsDeclaration (declaration_tree declaration.now) pass.old pass.new made.old.items made.new.items) }
{
    for local in declaration_locals(pass, declaration)? {
        made.push(BlockItem::Local(local))?;
    }
    Ok(())
}

/// The locals that a declaration declares.
pub(crate) fn declaration_locals(
    pass: &mut Pass,
    declaration: &Declaration,
) -> Result<Vec<LocalDef>, AllocError>
    ensures { IfOk result (MakesLocals (declaration_tree declaration.now) pass.old pass.new) }
{
    let mut locals = Vec::new(pass.alloc());
    let base = words_type(&mut pass.checker, &declaration.simple)?;
    for declarator in declaration.declarators.as_slice() {
        locals.push(local(pass, declaration.simple.place, base, declarator)?)?;
    }
    Ok(locals)
}

/// One declarator of a declaration; its scope begins before its initializer (C17 6.2.1 paragraph 7).
pub(crate) fn local(
    pass: &mut Pass,
    place: Pos,
    base: Option<CType>,
    tree: &InitDeclarator,
) -> Result<LocalDef, AllocError>
    requires { AllStand Stands pass.old.checker.table base }
    ensures { IfOk result (MakesDeclared place base (init_declarator_tree tree.now) pass.old pass.new) }
{
    let name = declared_name(&tree.declarator);
    let here = name_place(name, place);
    let declared = declared_type(pass, here, LengthRole::Required, base, &tree.declarator)?;
    let own = as_object(&mut pass.checker, here, declared);
    pass.name_type(here, own)?;
    declare(pass, name, own)?;
    let first = match &tree.init {
        Some(init) => local_first(pass, own, init)?,
        None => None,
    };
    let first = unboxed(first);
    Ok(LocalDef {
        c_type: own.unwrap_or(CType::VOID),
        first,
    })
}

/// The type of an object, whose size is known (C17 6.7 paragraph 7).
pub(crate) fn as_object(checker: &mut Checker, here: Pos, c_type: Option<CType>) -> Option<CType>
    requires { AllStand Stands checker.old.table c_type }
    ensures { OfType IsElement (element_rule (scope_of checker.old) here) c_type checker.old checker.new result }
{
    let c_type = c_type?;
    let is_complete = checker.is_complete(c_type);
    if !checker.require(is_complete, TypeRule::T05, here) {
        return None;
    }
    Some(c_type)
}

/// Declares a local, which is no library function and is declared once in its block.
fn declare(pass: &mut Pass, name: Option<&Name>, c_type: Option<CType>) -> Result<(), AllocError>
    requires { AllStand Stands pass.old.checker.table c_type }
    ensures { OnOk result (CoversName (option_map (λ name. name_tree name.now) name.entry) c_type pass.old pass.new) }
{
    let Some(name) = name else {
        return pass.checker.declare_local(&[], c_type);
    };
    let bytes = name.bytes.as_slice();
    let is_new = library_function(bytes).is_none() && !pass.checker.is_local_here(bytes);
    pass.checker.require(is_new, TypeRule::T04, name.place);
    pass.checker.declare_local(bytes, c_type)
}
