// The labels that marks give.

ghost use Rattle.std.specs.Prelude.{◌≡◌, ◌<◌, ◌++◌, IfOk, OnOk, map};
ghost use Rattle.graph_text.specs.Adding.{mark_of};
ghost use Rattle.graph_text.specs.ProgramLabels as L;

use crate::marks::Mark;
use std::alloc::{AllocError, Global};

/// Which call of the text that gives a pointer each call is that is done; 0 where it gives none.
pub(crate) fn call_numbers(alloc: Global, marks: &[Mark]) -> Result<Vec<u64>, AllocError>
    ensures { IfOk result (λ numbers. numbers.items ≡ L.call_numbers 0 (map mark_of marks.now)) }
{
    let mut numbers = Vec::new(alloc);
    let mut before = 0;
    for mark in marks {
        before = add_call(&mut numbers, before, mark)?;
    }
    Ok(numbers)
}

/// Adds the number of a call, where so many stand before it. Gives how many stand behind it.
fn add_call(numbers: &mut Vec<u64>, before: u64, mark: &Mark) -> Result<u64, AllocError>
    requires { before < 18446744073709551615 }
    ensures behind { IfOk result (λ behind. behind ≡ L.calls_behind before (mark_of mark.now)) }
    ensures numbers { OnOk result (numbers.new.items ≡ numbers.old.items ++ L.own_call before (mark_of mark.now)) }
{
    match mark {
        Mark::Call {
            is_done,
            is_pointer,
        } => add_number(numbers, before, *is_done, *is_pointer),
        Mark::Local(_) => Ok(before),
        Mark::Argument { .. } => Ok(before),
    }
}

/// Which argument for a pointer each argument is that is passed; 0 where it is for none.
pub(crate) fn argument_numbers(alloc: Global, marks: &[Mark]) -> Result<Vec<u64>, AllocError>
    ensures { IfOk result (λ numbers. numbers.items ≡ L.argument_numbers 0 (map mark_of marks.now)) }
{
    let mut numbers = Vec::new(alloc);
    let mut before = 0;
    for mark in marks {
        before = add_argument(&mut numbers, before, mark)?;
    }
    Ok(numbers)
}

/// Adds the number of an argument, where so many stand before it. Gives how many stand behind it.
fn add_argument(numbers: &mut Vec<u64>, before: u64, mark: &Mark) -> Result<u64, AllocError>
    requires { before < 18446744073709551615 }
    ensures behind { IfOk result (λ behind. behind ≡ L.arguments_behind before (mark_of mark.now)) }
    ensures numbers { OnOk result (numbers.new.items ≡ numbers.old.items ++ L.own_argument before (mark_of mark.now)) }
{
    match mark {
        Mark::Argument {
            is_done,
            is_pointer,
        } => add_number(numbers, before, *is_done, *is_pointer),
        Mark::Local(_) => Ok(before),
        Mark::Call { .. } => Ok(before),
    }
}

/// Adds a number where something is done; 0 where it is no pointer.
fn add_number(
    numbers: &mut Vec<u64>,
    before: u64,
    is_done: bool,
    is_pointer: bool,
) -> Result<u64, AllocError>
    requires { before < 18446744073709551615 }
    ensures behind { IfOk result (λ behind. behind ≡ L.number_behind before is_pointer) }
    ensures numbers { OnOk result (numbers.new.items ≡ numbers.old.items ++ L.own_number before is_done is_pointer) }
{
    if is_done {
        numbers.push(if is_pointer { before + 1 } else { 0 })?;
    }
    if is_pointer {
        Ok(before + 1)
    } else {
        Ok(before)
    }
}

/// The names of locals.
pub(crate) fn local_names(alloc: Global, marks: &[Mark]) -> Result<Vec<Vec<u8>>, AllocError>
    ensures { IfOk result (λ names. map (λ name. name.items) names.items ≡ L.local_names (map mark_of marks.now)) }
{
    let mut names = Vec::new(alloc);
    for mark in marks {
        add_local(alloc, &mut names, mark)?;
    }
    Ok(names)
}

/// Adds the name of a local.
fn add_local(alloc: Global, names: &mut Vec<Vec<u8>>, mark: &Mark) -> Result<(), AllocError>
    ensures { OnOk result (map (λ name. name.items) names.new.items ≡ map (λ name. name.items) names.old.items ++ L.own_local (mark_of mark.now)) }
{
    match mark {
        Mark::Local(name) => {
            names.push(Vec::from_slice(alloc, name.as_slice())?)?;
            Ok(())
        }
        Mark::Call { .. } => Ok(()),
        Mark::Argument { .. } => Ok(()),
    }
}
