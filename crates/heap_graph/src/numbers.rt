// The numbers of variables outside functions and of literals.

ghost use Rattle.std.specs.Prelude.{IfOk};
ghost use Rattle.heap_graph.specs.Numbers.{NumbersGlobals, NumbersLiterals, AreNumbers, IsGlobal, IsLiteral};

use c_typed::{GlobalDef, LiteralDef};
use indexmap::IndexMap;
use run_theory::Pos;
use std::alloc::{AllocError, Global};
use tac_ir::{GlobalId, LiteralId, Tac};

/// The numbers of variables outside functions by their names, and of literals by their places: that of the first of several.
#[derive(Drop)]
pub struct StaticNumbers {
    globals: IndexMap<Vec<u8>, usize>,
    literals: IndexMap<Pos, usize>,
}

impl StaticNumbers {
    /// Those of a program.
    pub fn of_program(alloc: Global, tac: &Tac) -> Result<StaticNumbers, AllocError>
        ensures { IfOk result (λ made. AreNumbers tac.now made) }
    {
        let globals = global_numbers(alloc, tac.globals.as_slice())?;
        let literals = literal_numbers(alloc, tac.literals.as_slice())?;
        Ok(StaticNumbers { globals, literals })
    }

    /// The first variable of a name.
    pub fn global(&self, name: &[u8]) -> Option<GlobalId>
        ensures { IsGlobal self.now name.now result }
    {
        match self.globals.get(name) {
            Some(number) => Some(GlobalId(*number)),
            None => None,
        }
    }

    /// The first literal at a place.
    pub fn literal(&self, place: Pos) -> Option<LiteralId>
        ensures { IsLiteral self.now place result }
    {
        match self.literals.get(&place) {
            Some(number) => Some(LiteralId(*number)),
            None => None,
        }
    }
}

fn global_numbers(
    alloc: Global,
    globals: &[GlobalDef],
) -> Result<IndexMap<Vec<u8>, usize>, AllocError>
    ensures { IfOk result (λ numbers. NumbersGlobals numbers 0 globals.now) }
{
    let mut numbers = IndexMap::new(alloc);
    let mut number = globals.len();
    while number > 0 {
        number -= 1;
        let name = Vec::from_slice(alloc, globals[number].name.as_slice())?;
        numbers.insert(name, number)?;
    }
    Ok(numbers)
}

fn literal_numbers(
    alloc: Global,
    literals: &[LiteralDef],
) -> Result<IndexMap<Pos, usize>, AllocError>
    ensures { IfOk result (λ numbers. NumbersLiterals numbers 0 literals.now) }
{
    let mut numbers = IndexMap::new(alloc);
    let mut number = literals.len();
    while number > 0 {
        number -= 1;
        numbers.insert(literals[number].place, number)?;
    }
    Ok(numbers)
}
