// Whether the names that have targets are the program's.

ghost use Rattle.std.specs.Prelude.{◌≡◌, ◌↔◌, true, drop, IsTrue, IfOk};
ghost use Rattle.c_typed.specs.Table.{Interned};
ghost use Rattle.tac_ir.specs.Views.{function_in, tac_of};
ghost use Rattle.graph_checker.specs.SoundGraphs.Sound.{NamesAreOwn, StaticsAreOwn};
ghost use Rattle.graph_checker.specs.Tests.{are_below, have_none, registers_within};

use crate::sound_objects::objects_are_own;
use heap_graph::{FrozenGraph, FunctionNames, Target, has_target};
use std::alloc::{AllocError, Global};
use tac_ir::{Function, Tac};

/// Whether a function has the registers and the locals in memory that have targets.
pub fn names_are_own(
    alloc: Global,
    function: &Function,
    names: &FunctionNames,
) -> Result<bool, AllocError>
    ensures { IfOk result (λ own. (table : Interned) → (own ≡ true) ↔ NamesAreOwn (function_in table function.now) names.now) }
{
    let objects = objects_are_own(alloc, function, names)?;
    Ok(objects && registers_are_own(function, names))
}

/// Whether a program has the variables outside functions and the literals that have targets.
pub fn statics_are_own(tac: &Tac, graph: &FrozenGraph) -> bool
    ensures { IsTrue result ↔ StaticsAreOwn (tac_of tac.now) graph.now }
{
    are_below(graph.globals.keys().as_slice(), tac.globals.len())
        && are_below(graph.literals.keys().as_slice(), tac.literals.len())
}

/// Whether a function has the registers that have targets.
fn registers_are_own(function: &Function, names: &FunctionNames) -> bool
    ensures { result ≡ registers_within function.now names.now }
{
    let counts = function.counts;
    have_none(&names.parameters, function.parameters)
        && have_none(&names.variables, counts.variables)
        && have_none(&names.calls, counts.calls)
        && have_none(&names.arguments, counts.arguments)
        && have_none(&names.expressions, counts.expressions)
}

/// Whether there are no targets from a number on.
fn have_none(targets: &Vec<Option<Target>>, first: usize) -> bool
    ensures { result ≡ have_none (drop first targets.now.items) }
{
    for number in first..targets.len() {
        if has_target(targets[number]) {
            return false;
        }
    }
    true
}

/// Whether all numbers are below a count.
fn are_below(numbers: &[usize], count: usize) -> bool
    ensures { result ≡ are_below count numbers.now }
{
    for number in numbers {
        if *number >= count {
            return false;
        }
    }
    true
}
