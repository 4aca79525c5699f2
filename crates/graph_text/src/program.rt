// What the things of a program are called.

ghost use Rattle.std.specs.Prelude.{◌≡◌, ◌++◌, IfOk, OnOk, length, map};
ghost use Rattle.c_syntax.specs.Views.{item_tree, program_tree};
ghost use Rattle.c_rules.specs.Programs as rules;
ghost use Rattle.c_types.specs.Outside.{IsOutside};
ghost use Rattle.graph_text.specs.Adding.{scope_at};
ghost use Rattle.graph_text.specs.ProgramLabels as L;

use crate::function_labels::{FunctionLabels, Labels};
use crate::marks::Marker;
use c_syntax::{Item, Program};
use c_typed::GlobalDef;
use c_types::declare_item;
use c_types_expressions::declared_name;
use c_types_state::outermost;
use std::alloc::{AllocError, Global};
use tac_ir::Tac;

/// What the things of a program, which has this code, are called in the text of its graphs.
pub fn labels(alloc: Global, program: &Program, tac: &Tac) -> Result<Labels, AllocError>
    ensures { IfOk result (λ labels. L.labels_in labels ≡ L.labels_of (program_tree program.now) (map (λ global. global.name) tac.now.globals.items) (length tac.now.literals.items)) }
{
    Ok(Labels {
        functions: functions(alloc, program)?,
        globals: global_names(alloc, tac.globals.as_slice())?,
        literals: literal_numbers(alloc, tac.literals.len())?,
    })
}

/// The functions of a program.
fn functions(alloc: Global, program: &Program) -> Result<Vec<FunctionLabels>, AllocError>
    ensures { IfOk result (λ functions. map L.own_in functions.items ≡ L.items_labels (rules.outermost (program_tree program.now)) (program_tree program.now).items) }
{
    let mut marker = before_items(alloc, program)?;
    marker.functions(alloc, program.items.as_slice())
}

/// A pass over a program, before its items.
fn before_items(alloc: Global, program: &Program) -> Result<Marker, AllocError>
    ensures { IfOk result (λ marker. scope_at marker ≡ rules.outermost (program_tree program.now)) }
{
    let mut marker = Marker::new(alloc);
    outermost(&mut marker.pass.checker, program)?;
    Ok(marker)
}

impl Marker {
    /// The functions that items define.
    fn functions(
        &mut self,
        alloc: Global,
        items: &[Item],
    ) -> Result<Vec<FunctionLabels>, AllocError>
        requires { IsOutside (scope_at self.old) }
        ensures { IfOk result (λ functions. map L.own_in functions.items ≡ L.items_labels (scope_at self.old) (map item_tree items.now)) }
    {
        let mut functions = Vec::new(alloc);
        for tree in items {
            self.declare_item(tree)?;
            self.add_function(&mut functions, tree)?;
        }
        Ok(functions)
    }

    /// Declares what an item declares.
    fn declare_item(&mut self, tree: &Item) -> Result<(), AllocError>
        requires { IsOutside (scope_at self.old) }
        ensures scope { OnOk result (scope_at self.new ≡ (rules.item (scope_at self.old) (item_tree tree.now)).scope) }
        ensures outside { OnOk result (IsOutside (scope_at self.new)) }
    {
        declare_item(&mut self.pass, tree)
    }

    /// Adds the function that an item defines.
    fn add_function(
        &mut self,
        functions: &mut Vec<FunctionLabels>,
        tree: &Item,
    ) -> Result<(), AllocError>
        requires { IsOutside (scope_at self.old) }
        ensures scope { OnOk result (scope_at self.new ≡ scope_at self.old) }
        ensures functions { OnOk result (map L.own_in functions.new.items ≡ map L.own_in functions.old.items ++ L.item_labels (scope_at self.old) (item_tree tree.now)) }
    {
        match tree {
            Item::Declaration { .. } => Ok(()),
            Item::Function {
                declarator,
                body,
                ..
            } => match declared_name(declarator) {
                Some(name) => {
                    let own = self.function(name, declarator, body)?;
                    functions.push(own)?;
                    Ok(())
                }
                None => Ok(()),
            },
        }
    }
}

/// The names of variables outside functions.
fn global_names(alloc: Global, globals: &[GlobalDef]) -> Result<Vec<Vec<u8>>, AllocError>
    ensures { IfOk result (λ names. map (λ name. name.items) names.items ≡ map (λ global. global.name) globals.now) }
{
    let mut names = Vec::new(alloc);
    for global in globals {
        names.push(Vec::from_slice(alloc, global.name.as_slice())?)?;
    }
    Ok(names)
}

/// The numbers from one to this.
fn literal_numbers(alloc: Global, count: usize) -> Result<Vec<u64>, AllocError>
    ensures { IfOk result (λ numbers. numbers.items ≡ L.numbers_to count) }
{
    let mut numbers = Vec::new(alloc);
    for before in 0..count {
        numbers.push(before as u64 + 1)?;
    }
    Ok(numbers)
}
