// Which numbers stand in a list.

ghost use Rattle.std.specs.Prelude.{IfOk};
ghost use Rattle.call_graph.specs.Rows.{AreMarks};

use std::alloc::{AllocError, Global};

/// Of each number below a count, whether it stands in a list.
pub fn marks(alloc: Global, count: usize, numbers: &[usize]) -> Result<Vec<bool>, AllocError>
    ensures { IfOk result (λ made. AreMarks count numbers.now made.items) }
{
    let mut marks = Vec::from_elem(alloc, false, count)?;
    for number in numbers {
        if *number < count {
            marks[*number] = true;
        }
    }
    Ok(marks)
}
