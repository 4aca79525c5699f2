// A program with the numbers of what its names and places stand for.

ghost use Rattle.std.specs.Prelude.{◌≡◌, ℕ, true, List, Some, is_some, IfOk};
ghost use Rattle.tac_build.specs.Lowering.{program_in, types_of_source, IsSource};
ghost use Rattle.c_typed.specs.DefinitionViews.{ProgramStands, program_of};
ghost use Rattle.c_typed.specs.Table.{Stands, type_in};
ghost use Rattle.tac_build.specs.Numbers.{NumbersFunctions, NumbersGlobals, NumbersLiterals};
ghost use Rattle.c_typed.specs.Typed as T;
ghost use Rattle.c_typed.specs.Programs.{IsWellTyped};
ghost use Rattle.tac_ir.specs.First.{named_global, placed_literal};
ghost use Rattle.tac_build.specs.Code.{function_number, type_of_function};

use c_typed::{CType, FunctionDef, GlobalDef, LiteralDef, Program, TypeTable};
use indexmap::IndexMap;
use run_theory::Pos;
use std::alloc::{AllocError, Global};
use tac_ir::{FunctionId, GlobalId, LiteralId};

/// The numbers of functions and of variables outside functions by their names, and of literals by their places. Where several have
/// one name, it is the number of the first.
#[derive(Drop)]
pub struct Names {
    functions: IndexMap<Vec<u8>, usize>,
    globals: IndexMap<Vec<u8>, usize>,
    literals: IndexMap<Pos, usize>,
}

/// A program that is lowered.
#[derive(Drop)]
pub struct Source {
    pub program: Program,
    pub names: Names,
}

/// A variable outside functions, and its type.
#[derive(Clone, Copy, Debug, PartialEq, Eq)]
pub struct GlobalAt {
    pub global: GlobalId,
    pub c_type: CType,
}

fn function_numbers(
    alloc: Global,
    functions: &[FunctionDef],
) -> Result<IndexMap<Vec<u8>, usize>, AllocError>
    ensures { IfOk result (λ numbers. NumbersFunctions numbers 0 functions.now) }
{
    let mut numbers = IndexMap::new(alloc);
    let mut number = functions.len();
    while number > 0 {
        number -= 1;
        let name = Vec::from_slice(alloc, functions[number].name.as_slice())?;
        numbers.insert(name, number)?;
    }
    Ok(numbers)
}

fn global_numbers(
    alloc: Global,
    globals: &[GlobalDef],
) -> Result<IndexMap<Vec<u8>, usize>, AllocError>
    ensures { IfOk result (λ numbers. NumbersGlobals numbers 0 globals.now) }
{
    let mut numbers = IndexMap::new(alloc);
    let mut number = globals.len();
    while number > 0 {
        number -= 1;
        let name = Vec::from_slice(alloc, globals[number].name.as_slice())?;
        numbers.insert(name, number)?;
    }
    Ok(numbers)
}

fn literal_numbers(
    alloc: Global,
    literals: &[LiteralDef],
) -> Result<IndexMap<Pos, usize>, AllocError>
    ensures { IfOk result (λ numbers. NumbersLiterals numbers 0 literals.now) }
{
    let mut numbers = IndexMap::new(alloc);
    let mut number = literals.len();
    while number > 0 {
        number -= 1;
        numbers.insert(literals[number].place, number)?;
    }
    Ok(numbers)
}

impl Names {
    /// The names of a program.
    fn of_program(alloc: Global, program: &Program) -> Result<Names, AllocError>
        ensures functions { IfOk result (λ names. NumbersFunctions names.functions 0 program.now.functions.items) }
        ensures globals { IfOk result (λ names. NumbersGlobals names.globals 0 program.now.globals.items) }
        ensures literals { IfOk result (λ names. NumbersLiterals names.literals 0 program.now.literals.items) }
    {
        let functions = function_numbers(alloc, program.functions.as_slice())?;
        let globals = global_numbers(alloc, program.globals.as_slice())?;
        let literals = literal_numbers(alloc, program.literals.as_slice())?;
        Ok(Names {
            functions,
            globals,
            literals,
        })
    }
}

impl Source {
    pub fn new(alloc: Global, program: Program) -> Result<Source, AllocError>
        requires stand { ProgramStands program }
        requires well_typed { IsWellTyped (program_of program) }
        ensures source { IfOk result IsSource }
        ensures program { IfOk result (λ source. source.program ≡ program) }
    {
        let names = Names::of_program(alloc, &program)?;
        Ok(Source { program, names })
    }

    /// The types of the program.
    pub fn types(&self) -> &TypeTable
        ensures { result.now ≡ types_of_source self.now }
    {
        &self.program.types
    }

    /// The function of a name.
    pub fn function(&self, name: &[u8]) -> FunctionId
        requires source { IsSource self.now }
        requires there { is_some (function_number 0 (program_in self.now).functions name.now) ≡ true }
        ensures { function_number 0 (program_in self.now).functions name.now ≡ Some result.0 }
    {
        match self.names.functions.get(name) {
            Some(number) => FunctionId(*number),
            None => unreachable!(),
        }
    }

    /// The type of a function.
    pub fn function_type(&self, function: FunctionId) -> CType
        requires source { IsSource self.now }
        requires there { (name : List ℕ) × (function_number 0 (program_in self.now).functions name ≡ Some function.0) }
        ensures { Stands (types_of_source self.now) result × ((name : List ℕ) → function_number 0 (program_in self.now).functions name ≡ Some function.0 → type_of_function (program_in self.now).functions name ≡ Some (type_in (types_of_source self.now) result)) }
    {
        self.program.functions[function.0].c_type
    }

    /// The variable of a name.
    pub fn global(&self, name: &[u8]) -> GlobalAt
        requires source { IsSource self.now }
        requires there { is_some (named_global 0 (program_in self.now).globals name.now) ≡ true }
        ensures { Stands (types_of_source self.now) result.c_type × ((found : ℕ × T.GlobalDef) × (named_global 0 (program_in self.now).globals name.now ≡ Some found) × (result.global.0 ≡ found.0) × (type_in (types_of_source self.now) result.c_type ≡ found.1.c_type)) }
    {
        match self.names.globals.get(name) {
            Some(number) => GlobalAt {
                global: GlobalId(*number),
                c_type: self.program.globals[*number].c_type,
            },
            None => unreachable!(),
        }
    }

    /// The literal at a place.
    pub fn literal(&self, place: Pos) -> LiteralId
        requires source { IsSource self.now }
        requires there { is_some (placed_literal 0 (program_in self.now).literals place) ≡ true }
        ensures { (found : ℕ × T.LiteralDef) × (placed_literal 0 (program_in self.now).literals place ≡ Some found) × (result.0 ≡ found.0) }
    {
        match self.names.literals.get(&place) {
            Some(number) => LiteralId(*number),
            None => unreachable!(),
        }
    }
}
