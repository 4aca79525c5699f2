// What stands outside functions (C17 6.9).

ghost use Rattle.std.specs.Prelude.{◌≡◌, ℕ, Some, List, IfOk, OnOk, map, option_map};
ghost use Rattle.c_syntax.specs.Views.{name_tree, init_declarator_tree, init_tree, item_tree};
ghost use Rattle.c_typed.specs.Types as T;
ghost use Rattle.c_typed.specs.Table.{Interned, Stands, type_in, KnownStands};
ghost use Rattle.c_typed.specs.DefinitionViews.{TypesStand};
ghost use Rattle.c_rules.specs.Programs as rules;
ghost use Rattle.c_rules.specs.Elaborated as elaborated;
ghost use Rattle.c_types_state.specs.Finding.{IsType, AllStand, each_in};
ghost use Rattle.c_types_state.specs.NameTables.{scope_of};
ghost use Rattle.c_types.specs.Outside.{IsOutside, outside_rule, body_rule, row_of, clash};
ghost use Rattle.c_types_expressions.specs.Parts.{OfType};
ghost use Rattle.c_types.specs.Checked.{ReachesItem, DefinesItem, CoversFile, DefinesFile, CoversDeclarator, DefinesDeclarator, DefinesGlobal};
ghost use Rattle.c_types.specs.Checked.{CoversFunction, DefinesFunction, CoversOutside, CoversAgain, IsJoined, CoversMain, MakesMain, MakesFirst};
ghost use Rattle.c_types.specs.Checked.{AddsOptional, AddsFirstOfDeclarator, AddsFirstOfFile, AddsFirstOfItem};

use crate::defined::Defined;
use crate::initializers::{Target, first_of, initialized_role};
use crate::parameters::enter_function;
use crate::statements::{Around, block_items};
use crate::structures::base_type;
use c_num::IntType;
use c_rules::TypeRule;
use c_syntax::{Block, Declarator, Init, InitDeclarator, Item, Name};
use c_typed as typed;
use c_typed::{ByteString, CType, Shape, Value};
use c_types_expressions::{LengthRole, Pass, declared_name, declared_type};
use c_types_state::{Checker, FileEntry, library_function};
use run_theory::Pos;
use std::alloc::AllocError;

/// An item: what it violates, and what it defines.
pub(crate) fn item(
    pass: &mut Pass,
    defined: &mut Defined,
    values: &mut Vec<Value>,
    item: &Item,
) -> Result<(), AllocError>
    requires { IsOutside (scope_of pass.old.checker) }
    ensures reaches { OnOk result (ReachesItem (item_tree item.now) pass.old pass.new) }
    ensures defined { OnOk result (DefinesItem (item_tree item.now) pass.old pass.new defined.old defined.new) }
    ensures values { OnOk result (AddsFirstOfItem (item_tree item.now) pass.old pass.new values.old.items values.new.items) }
{
    match item {
        Item::Declaration { base, declarators } => {
            let c_type = base_type(pass, base)?;
            file_declarators(pass, defined, values, c_type, declarators.as_slice())
        }
        Item::Function {
            base,
            declarator,
            body,
        } => {
            let c_type = base_type(pass, base)?;
            match declared_name(declarator) {
                Some(name) => function(pass, defined, c_type, declarator, body, name),
                None => Ok(()),
            }
        }
    }
}

/// The declarators of a declaration outside functions.
fn file_declarators(
    pass: &mut Pass,
    defined: &mut Defined,
    values: &mut Vec<Value>,
    base: Option<CType>,
    trees: &[InitDeclarator],
) -> Result<(), AllocError>
    requires { AllStand Stands pass.old.checker.table base }
    ensures covers { OnOk result ((place : Pos) → CoversFile place base (map init_declarator_tree trees.now) pass.old pass.new) }
    ensures defined { OnOk result ((place : Pos) → DefinesFile place base (map init_declarator_tree trees.now) pass.old pass.new defined.old defined.new) }
    ensures values { OnOk result ((place : Pos) → AddsFirstOfFile place base (map init_declarator_tree trees.now) pass.old pass.new values.old.items values.new.items) }
{
    for tree in trees {
        file_declarator(pass, defined, values, base, tree)?;
    }
    Ok(())
}

/// A declarator outside functions: of a variable, or of a function without a body.
fn file_declarator(
    pass: &mut Pass,
    defined: &mut Defined,
    values: &mut Vec<Value>,
    base: Option<CType>,
    tree: &InitDeclarator,
) -> Result<(), AllocError>
    requires { AllStand Stands pass.old.checker.table base }
    ensures covers { OnOk result ((place : Pos) → CoversDeclarator place base (init_declarator_tree tree.now) pass.old pass.new) }
    ensures defined { OnOk result (DefinesDeclarator base (init_declarator_tree tree.now) pass.old pass.new defined.old defined.new) }
    ensures values { OnOk result (AddsFirstOfDeclarator base (init_declarator_tree tree.now) pass.old pass.new values.old.items values.new.items) }
{
    let Some(name) = declared_name(&tree.declarator) else {
        return Ok(());
    };
    let role = initialized_role(&tree.init);
    let declared = declared_type(pass, name.place, role, base, &tree.declarator)?;
    let own = as_outside(&mut pass.checker, name.place, declared);
    pass.name_type(name.place, own)?;
    declare_outside(pass, name, own, tree.init.is_some(), false)?;
    let first = first_values(pass, values, own, &tree.init)?;
    define_global(&pass.checker, defined, name, own, first)
}

/// Adds a variable, where a name outside functions is one.
fn define_global(
    checker: &Checker,
    defined: &mut Defined,
    name: &Name,
    c_type: Option<CType>,
    first: Vec<typed::First>,
) -> Result<(), AllocError>
    requires { AllStand Stands checker.now.table c_type }
    ensures { OnOk result (DefinesGlobal (name_tree name.now) c_type first.items checker.now.table defined.old defined.new) }
{
    let Some(c_type) = c_type else {
        return Ok(());
    };
    if is_function(checker, c_type) {
        return Ok(());
    }
    defined.globals.add(name.bytes.as_slice(), c_type, first)
}

/// A function with its body (C17 6.9.1).
fn function(
    pass: &mut Pass,
    defined: &mut Defined,
    base: Option<CType>,
    declarator: &Declarator,
    body: &Block,
    name: &Name,
) -> Result<(), AllocError>
    requires base { AllStand Stands pass.old.checker.table base }
    requires outside { IsOutside (scope_of pass.old.checker) }
    ensures covers { OnOk result (CoversFunction base declarator.now body.now name.now pass.old pass.new) }
    ensures defined { OnOk result (DefinesFunction base declarator.now body.now name.now pass.old pass.new defined.old defined.new) }
{
    let declared = declared_type(pass, name.place, LengthRole::Required, base, declarator)?;
    let own = as_function(&mut pass.checker, name.place, declared);
    pass.name_type(name.place, own)?;
    declare_outside(pass, name, own, false, true)?;
    let outer = enter_function(pass, declarator)?;
    let around = Around {
        returned: returned_by(&pass.checker, own),
        may_break: false,
        may_continue: false,
    };
    let body = block_items(pass, around, body.items.as_slice())?;
    pass.checker.leave(outer);
    defined.functions.push(typed::FunctionDef {
        name: ByteString::from_slice(pass.alloc(), name.bytes.as_slice())?,
        c_type: own.unwrap_or(CType::VOID),
        parameters: parameters_of(&pass.checker, own)?,
        returned: around.returned.unwrap_or(CType::VOID),
        body,
    })?;
    Ok(())
}

/// The type of a name outside functions that has no body: a function, or a complete object type.
fn as_outside(checker: &mut Checker, here: Pos, c_type: Option<CType>) -> Option<CType>
    requires { AllStand Stands checker.old.table c_type }
    ensures { OfType IsType (outside_rule (scope_of checker.old) here) c_type checker.old checker.new result }
{
    let c_type = c_type?;
    let is_known = is_function(checker, c_type) || checker.is_complete(c_type);
    if !checker.require(is_known, TypeRule::T05, here) {
        return None;
    }
    Some(c_type)
}

/// The type of a name that has a body: a function. One that isn't keeps its type for the other rules of its declaration.
fn as_function(checker: &mut Checker, here: Pos, c_type: Option<CType>) -> Option<CType>
    requires { AllStand Stands checker.old.table c_type }
    ensures { OfType IsType (body_rule here) c_type checker.old checker.new result }
{
    let c_type = c_type?;
    let is_function = is_function(checker, c_type);
    checker.require(is_function, TypeRule::T05, here);
    Some(c_type)
}

fn is_function(checker: &Checker, c_type: CType) -> bool
    requires { Stands checker.now.table c_type }
    ensures { result ≡ T.is_function (type_in checker.now.table c_type) }
{
    match checker.shape(c_type) {
        Shape::Function { .. } => true,
        _ => false,
    }
}

/// Declares a name outside functions, in the place of what was known of it (C17 6.7 paragraph 4, 6.9 paragraph 3).
fn declare_outside(
    pass: &mut Pass,
    name: &Name,
    c_type: Option<CType>,
    has_init: bool,
    has_body: bool,
) -> Result<(), AllocError>
    requires { AllStand Stands pass.old.checker.table c_type }
    ensures { OnOk result (CoversOutside (name_tree name.now) c_type has_init has_body pass.old pass.new) }
{
    let bytes = name.bytes.as_slice();
    let is_free = library_function(bytes).is_none();
    pass.checker.require(is_free, TypeRule::T04, name.place);
    note_main(pass, name, c_type)?;
    let entry = FileEntry {
        c_type,
        has_init,
        has_body,
    };
    let joined = note_again(pass, name, entry);
    pass.checker.put_file_entry(bytes, joined)
}

/// What is known of a name from its declarations so far and this one, which has to agree with them.
fn note_again(pass: &mut Pass, name: &Name, entry: FileEntry) -> FileEntry
    requires { KnownStands pass.old.checker.table entry.c_type }
    ensures covers { CoversAgain (name_tree name.now) entry pass.old pass.new }
    ensures stands { KnownStands pass.new.checker.table result.c_type }
    ensures joined { IsJoined name.now.bytes entry pass.old pass.new result }
{
    let Some(old) = pass.checker.file_entry(name.bytes.as_slice()) else {
        return entry;
    };
    let agrees = !clashes(&pass.checker, old, entry);
    pass.checker.require(agrees, TypeRule::T04, name.place);
    joined(old, entry)
}

/// The type of `main`, where it is that (C17 5.1.2.2.1).
fn note_main(pass: &mut Pass, name: &Name, c_type: Option<CType>) -> Result<(), AllocError>
    requires { AllStand Stands pass.old.checker.table c_type }
    ensures { OnOk result (CoversMain (name_tree name.now) c_type pass.old pass.new) }
{
    if name.bytes.as_slice() == b"main".as_slice() {
        let is_main = is_main_type(pass, c_type)?;
        pass.checker.require(is_main, TypeRule::T02, name.place);
    }
    Ok(())
}

/// Whether it is `int (void)`, where it is known.
fn is_main_type(pass: &mut Pass, c_type: Option<CType>) -> Result<bool, AllocError>
    requires { AllStand Stands pass.old.checker.table c_type }
    ensures { IfOk result (MakesMain c_type pass.old pass.new) }
{
    let Some(c_type) = c_type else {
        return Ok(true);
    };
    let none = pass.checker.no_parameters()?;
    let main = pass.checker.function(CType::integer(IntType::Int), none)?;
    Ok(pass.checker.same(c_type, main))
}

/// The same name once more: with another type, a second initializer or a second body.
fn clashes(checker: &Checker, old: FileEntry, new: FileEntry) -> bool
    requires old { KnownStands checker.now.table old.c_type }
    requires new { KnownStands checker.now.table new.c_type }
    ensures { (name : List ℕ) → result ≡ clash (row_of checker.now.table name old) (row_of checker.now.table name new) }
{
    let differs = match (old.c_type, new.c_type) {
        (Some(old), Some(new)) => !checker.same(old, new),
        _ => false,
    };
    differs || (old.has_init && new.has_init) || (old.has_body && new.has_body)
}

/// What is known of a name from two of its declarations.
fn joined(old: FileEntry, new: FileEntry) -> FileEntry
    ensures joined { (table : Interned) (name : List ℕ) → row_of table name result ≡ rules.joined_name (Some (row_of table name old)) (row_of table name new) }
    ensures stands { (table : Interned) → KnownStands table old.c_type → KnownStands table new.c_type → KnownStands table result.c_type }
{
    FileEntry {
        c_type: old.c_type.or(new.c_type),
        has_init: old.has_init || new.has_init,
        has_body: old.has_body || new.has_body,
    }
}

/// The first values that an initializer, where there is one, gives a global.
fn first_values(
    pass: &mut Pass,
    values: &mut Vec<Value>,
    c_type: Option<CType>,
    init: &Option<Init>,
) -> Result<Vec<typed::First>, AllocError>
    requires { AllStand Stands pass.old.checker.table c_type }
    ensures made { IfOk result (MakesFirst c_type (option_map init_tree init.now) pass.old pass.new) }
    ensures values { IfOk result (λ _. AddsOptional (option_map init_tree init.now) pass.old pass.new values.old.items values.new.items) }
{
    let mut target = Target {
        parts: Vec::new(pass.alloc()),
        first: Vec::new(pass.alloc()),
    };
    if let Some(init) = init {
        first_of(pass, &mut target, values, 0, c_type, init)?;
    }
    Ok(target.first)
}

/// The result of a function.
fn returned_by(checker: &Checker, c_type: Option<CType>) -> Option<CType>
    requires { AllStand Stands checker.now.table c_type }
    ensures stands { AllStand Stands checker.now.table result }
    ensures returned { each_in type_in checker.now.table result ≡ rules.result_of (each_in type_in checker.now.table c_type) }
{
    match checker.shape(c_type?) {
        Shape::Function { result, .. } => Some(result),
        _ => None,
    }
}

/// The types of a function's parameters, in their order.
fn parameters_of(checker: &Checker, c_type: Option<CType>) -> Result<Vec<CType>, AllocError>
    requires { AllStand Stands checker.now.table c_type }
    ensures stand { IfOk result (λ types. TypesStand checker.now.table types.items) }
    ensures types { IfOk result (λ types. map (type_in checker.now.table) types.items ≡ elaborated.parameters_of (each_in type_in checker.now.table c_type)) }
{
    let mut types = Vec::new(checker.alloc());
    let Some(c_type) = c_type else {
        return Ok(types);
    };
    let Shape::Function { parameters, .. } = checker.shape(c_type) else {
        return Ok(types);
    };
    let mut rest = parameters;
    while let Some((first, others)) = checker.first_parameter(rest) {
        types.push(first)?;
        rest = others;
    }
    Ok(types)
}
