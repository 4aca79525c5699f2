// The counts of functions.

ghost use Rattle.std.specs.Prelude.{◌≡◌, [], IfOk};
ghost use Rattle.c_typed.specs.Views.{values_in, ValuesStand};
ghost use Rattle.c_typed.specs.DefinitionViews.{program_of, ProgramStands};
ghost use Rattle.dsa_bottom_up.specs.Counting.{counted_functions, counted_values, within};
ghost use Rattle.dsa_bottom_up.specs.Counts.{CountsDefinition};

use crate::counts::sum;
use crate::names::Names;
use c_typed::{FunctionDef, Program, TypeTable, Value};
use std::alloc::{AllocError, Global};

impl Names {
    /// A function: its parameters are the first locals.
    fn definition(
        &self,
        alloc: Global,
        types: &TypeTable,
        function: &FunctionDef,
    ) -> Result<u64, AllocError>
        ensures { IfOk result (CountsDefinition types.now self.now function.now) }
    {
        let mut scope = Vec::from_slice(alloc, function.parameters.as_slice())?;
        let body = self.block(types, &mut scope, function.body.as_slice())?;
        sum(function.parameters.len() as u64, body)
    }
}

/// For each function of a program, how many parameters and locals it has, and expressions of pointer, array or function type.
pub fn expression_counts(alloc: Global, program: &Program) -> Result<Vec<u64>, AllocError>
    requires { ProgramStands program.now }
    ensures { IfOk result (λ counts. counts.items ≡ counted_functions (program_of program.now)) }
{
    let names = Names::of_program(alloc, program)?;
    let mut counts = Vec::new(alloc);
    let functions = program.functions.as_slice();
    for function in functions {
        let count = names.definition(alloc, &program.types, function)?;
        counts.push(count)?;
    }
    Ok(counts)
}

/// How many expressions of pointer, array or function type stand in values outside functions.
pub fn value_count(alloc: Global, program: &Program, values: &[Value]) -> Result<u64, AllocError>
    requires { ValuesStand program.now.types values.now }
    ensures { IfOk result (λ count. count ≡ counted_values (within (program_of program.now) []) (values_in program.now.types values.now)) }
{
    let names = Names::of_program(alloc, program)?;
    let scope = Vec::new(alloc);
    names.values(&program.types, scope.as_slice(), values)
}
