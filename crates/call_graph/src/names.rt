// The numbers of functions by their names.

ghost use Rattle.std.specs.Prelude.{IfOk};
ghost use Rattle.call_graph.specs.TakenLists.{NumbersFunctions};

use indexmap::IndexMap;
use std::alloc::{AllocError, Global};
use tac_ir::Function;

/// The number of each function by its name, that of the first of several.
pub(crate) fn function_numbers(
    alloc: Global,
    functions: &[Function],
) -> Result<IndexMap<Vec<u8>, usize>, AllocError>
    ensures { IfOk result (λ numbers. NumbersFunctions numbers 0 functions.now) }
{
    let mut numbers = IndexMap::new(alloc);
    let mut number = functions.len();
    while number > 0 {
        number -= 1;
        let name = Vec::from_slice(alloc, functions[number].name.as_slice())?;
        numbers.insert(name, number)?;
    }
    Ok(numbers)
}
