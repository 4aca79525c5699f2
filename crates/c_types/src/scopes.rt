// What is declared at a place of a text, for a pass over a program that was checked.

ghost use Rattle.std.specs.Prelude.{◌≡◌, IfOk, OnOk};
ghost use Rattle.c_syntax.specs.Views.{words_tree, declarator_tree, init_declarator_tree, item_tree};
ghost use Rattle.c_rules.specs.Expressions.{words_type};
ghost use Rattle.c_rules.specs.Statements as statements;
ghost use Rattle.c_rules.specs.Programs as programs;
ghost use Rattle.c_types_state.specs.NameTables.{scope_of};
ghost use Rattle.c_types.specs.Outside.{IsOutside};

use crate::declarations::local;
use crate::defined::Defined;
use crate::items::item;
use crate::parameters::enter_function;
use c_syntax::{Declarator, InitDeclarator, Item, Simple};
use c_types_expressions::{Pass, words_type};
use std::alloc::AllocError;

/// Declares what an item declares.
pub fn declare_item(pass: &mut Pass, tree: &Item) -> Result<(), AllocError>
    requires { IsOutside (scope_of pass.old.checker) }
    ensures scope { OnOk result (scope_of pass.new.checker ≡ (programs.item (scope_of pass.old.checker) (item_tree tree.now)).scope) }
    ensures outside { OnOk result (IsOutside (scope_of pass.new.checker)) }
{
    let mut defined = Defined::new(pass.alloc());
    let mut values = Vec::new(pass.alloc());
    item(pass, &mut defined, &mut values, tree)?;
    Ok(())
}

/// Declares a local, where these words stand before its declarator.
pub fn declare_local(
    pass: &mut Pass,
    simple: &Simple,
    tree: &InitDeclarator,
) -> Result<(), AllocError>
    ensures { OnOk result (scope_of pass.new.checker ≡ (statements.declare_local simple.now.place (words_type (scope_of pass.old.checker) (words_tree simple.now)).known (init_declarator_tree tree.now) (scope_of pass.old.checker)).scope) }
{
    let base = words_type(&mut pass.checker, simple)?;
    drop(local(pass, simple.place, base, tree)?);
    Ok(())
}

/// Enters a function, whose parameters are its first locals. The number that it returns is for leaving it.
pub fn enter_body(pass: &mut Pass, declarator: &Declarator) -> Result<usize, AllocError>
    requires { IsOutside (scope_of pass.old.checker) }
    ensures scope { OnOk result (scope_of pass.new.checker ≡ (programs.entered_function (scope_of pass.old.checker) (programs.own_parameters (declarator_tree declarator.now))).scope) }
    ensures outer { IfOk result (λ outer. outer ≡ 0) }
{
    enter_function(pass, declarator)
}
