// Functions whose address is taken.

ghost use Rattle.std.specs.Prelude.{◌≡◌, ◌++◌, IfOk, OnOk};
ghost use Rattle.tac_ir.specs.Views.{tac_of};
ghost use Rattle.call_graph.specs.RowLists.{gathered};
ghost use Rattle.call_graph.specs.TakenLists.{at_point, at_function, at_value, at_first, at_global, TellsTaken};

use crate::mark_list::marks;
use crate::names::function_numbers;
use c_typed::{First, GlobalDef, Scalar};
use indexmap::IndexMap;
use std::alloc::{AllocError, Global};
use tac_ir::{Function, Op, Tac};

/// Of each function, whether its address is taken.
pub(crate) fn taken_functions(alloc: Global, tac: &Tac) -> Result<Vec<bool>, AllocError>
    ensures { IfOk result (λ made. TellsTaken (tac_of tac.now) made.items) }
{
    let names = function_numbers(alloc, tac.functions.as_slice())?;
    let mut taken = Vec::new(alloc);
    add_functions(&mut taken, tac.functions.as_slice())?;
    add_points(&mut taken, tac.start.points.as_slice())?;
    add_globals(&mut taken, &names, tac.globals.as_slice())?;
    marks(alloc, tac.functions.len(), taken.as_slice())
}

/// Adds those whose address functions take.
fn add_functions(taken: &mut Vec<usize>, functions: &[Function]) -> Result<(), AllocError>
    ensures { OnOk result (taken.new.items ≡ taken.old.items ++ gathered at_function functions.now) }
{
    for function in functions {
        add_points(taken, function.points.as_slice())?;
    }
    Ok(())
}

/// Adds those whose address points take.
fn add_points(taken: &mut Vec<usize>, points: &[Op]) -> Result<(), AllocError>
    ensures { OnOk result (taken.new.items ≡ taken.old.items ++ gathered at_point points.now) }
{
    for op in points {
        if let Op::FunctionAddress { function, .. } = op {
            taken.push(function.0)?;
        }
    }
    Ok(())
}

/// Adds those that the first values of variables name.
fn add_globals(
    taken: &mut Vec<usize>,
    names: &IndexMap<Vec<u8>, usize>,
    globals: &[GlobalDef],
) -> Result<(), AllocError>
    ensures { OnOk result (taken.new.items ≡ taken.old.items ++ gathered (at_global names.now) globals.now) }
{
    for global in globals {
        add_firsts(taken, names, global.first.as_slice())?;
    }
    Ok(())
}

/// Adds those that first values name.
fn add_firsts(
    taken: &mut Vec<usize>,
    names: &IndexMap<Vec<u8>, usize>,
    firsts: &[First],
) -> Result<(), AllocError>
    ensures { OnOk result (taken.new.items ≡ taken.old.items ++ gathered (at_first names.now) firsts.now) }
{
    for first in firsts {
        if let First::Scalar(held) = first {
            add_value(taken, names, &held.value)?;
        }
    }
    Ok(())
}

/// Adds the function that a first value names.
fn add_value(
    taken: &mut Vec<usize>,
    names: &IndexMap<Vec<u8>, usize>,
    value: &Scalar,
) -> Result<(), AllocError>
    ensures { OnOk result (taken.new.items ≡ taken.old.items ++ at_value names.now value.now) }
{
    if let Scalar::Function(name) = value {
        if let Some(number) = names.get(name.as_slice()).copied() {
            taken.push(number)?;
        }
    }
    Ok(())
}
