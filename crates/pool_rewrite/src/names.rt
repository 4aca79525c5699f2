// The numbers of functions and static objects by their names and places.

ghost use Rattle.std.specs.Prelude.{IfOk};
ghost use Rattle.pool_rewrite.specs.Names.{NumbersFunctions, NumbersGlobals, NumbersLiterals, AreNames};

use c_typed::{GlobalDef, LiteralDef};
use indexmap::IndexMap;
use run_theory::Pos;
use std::alloc::{AllocError, Global};
use tac_ir::{Function, Tac};

/// The numbers of functions and of variables outside functions by their names, and of literals by their places: that of the first of
/// several.
#[derive(Drop)]
pub(crate) struct Names {
    pub(crate) functions: IndexMap<Vec<u8>, usize>,
    pub(crate) globals: IndexMap<Vec<u8>, usize>,
    pub(crate) literals: IndexMap<Pos, usize>,
}

impl Names {
    /// Those of a program.
    pub(crate) fn of_program(alloc: Global, tac: &Tac) -> Result<Names, AllocError>
        ensures { IfOk result (λ made. AreNames tac.now made) }
    {
        let functions = function_numbers(alloc, tac.functions.as_slice())?;
        let globals = global_numbers(alloc, tac.globals.as_slice())?;
        let literals = literal_numbers(alloc, tac.literals.as_slice())?;
        Ok(Names {
            functions,
            globals,
            literals,
        })
    }
}

fn function_numbers(
    alloc: Global,
    functions: &[Function],
) -> Result<IndexMap<Vec<u8>, usize>, AllocError>
    ensures { IfOk result (λ numbers. NumbersFunctions numbers 0 functions.now) }
{
    let mut numbers = IndexMap::new(alloc);
    let mut number = functions.len();
    while number > 0 {
        number -= 1;
        let name = Vec::from_slice(alloc, functions[number].name.as_slice())?;
        numbers.insert(name, number)?;
    }
    Ok(numbers)
}

fn global_numbers(
    alloc: Global,
    globals: &[GlobalDef],
) -> Result<IndexMap<Vec<u8>, usize>, AllocError>
    ensures { IfOk result (λ numbers. NumbersGlobals numbers 0 globals.now) }
{
    let mut numbers = IndexMap::new(alloc);
    let mut number = globals.len();
    while number > 0 {
        number -= 1;
        let name = Vec::from_slice(alloc, globals[number].name.as_slice())?;
        numbers.insert(name, number)?;
    }
    Ok(numbers)
}

fn literal_numbers(
    alloc: Global,
    literals: &[LiteralDef],
) -> Result<IndexMap<Pos, usize>, AllocError>
    ensures { IfOk result (λ numbers. NumbersLiterals numbers 0 literals.now) }
{
    let mut numbers = IndexMap::new(alloc);
    let mut number = literals.len();
    while number > 0 {
        number -= 1;
        numbers.insert(literals[number].place, number)?;
    }
    Ok(numbers)
}
