// Whether a function has the locals in memory that have targets.

ghost use Rattle.std.specs.Prelude.{◌≡◌, ◌↔◌, true, IsTrue, IfOk};
ghost use Rattle.c_typed.specs.Table.{Interned};
ghost use Rattle.tac_ir.specs.Views.{function_in};
ghost use Rattle.graph_checker.specs.SoundGraphs.Sound.{ObjectsAreOwn};
ghost use Rattle.graph_checker.specs.Tests.{AreMarked, parameter_numbers, variable_numbers};

use call_graph::marks;
use heap_graph::{FunctionNames, Target, has_target};
use std::alloc::{AllocError, Global};
use tac_ir::{Function, Local, LocalObject};

/// Numbers of locals in memory.
#[derive(Drop)]
struct ObjectNumbers {
    parameters: Vec<usize>,
    variables: Vec<usize>,
}

/// Whether a function has the locals in memory that have targets.
pub(crate) fn objects_are_own(
    alloc: Global,
    function: &Function,
    names: &FunctionNames,
) -> Result<bool, AllocError>
    ensures { IfOk result (λ own. (table : Interned) → (own ≡ true) ↔ ObjectsAreOwn (function_in table function.now) names.now) }
{
    let own = numbers_of(alloc, function.objects.as_slice())?;
    let parameters = &names.parameter_objects;
    let variables = &names.variable_objects;
    let own_parameters = marks(alloc, parameters.len(), own.parameters.as_slice())?;
    let own_variables = marks(alloc, variables.len(), own.variables.as_slice())?;
    Ok(are_marked(parameters, &own_parameters) && are_marked(variables, &own_variables))
}

/// The numbers of the locals among objects, by their kind.
fn numbers_of(alloc: Global, objects: &[LocalObject]) -> Result<ObjectNumbers, AllocError>
    ensures parameters { IfOk result (λ numbers. numbers.parameters.items ≡ parameter_numbers objects.now) }
    ensures variables { IfOk result (λ numbers. numbers.variables.items ≡ variable_numbers objects.now) }
{
    let mut parameters = Vec::new(alloc);
    let mut variables = Vec::new(alloc);
    for object in objects {
        match object.local {
            Local::Parameter(number) => parameters.push(number)?,
            Local::Variable(number) => variables.push(number)?,
        }
    }
    Ok(ObjectNumbers {
        parameters,
        variables,
    })
}

/// Whether each number that has a target is marked.
fn are_marked(targets: &Vec<Option<Target>>, marks: &Vec<bool>) -> bool
    ensures { IsTrue result ↔ AreMarked targets.now.items marks.now.items }
{
    for number in 0..targets.len() {
        let is_marked = marks.get(number).copied().unwrap_or(false);
        if !is_marked && has_target(targets[number]) {
            return false;
        }
    }
    true
}
