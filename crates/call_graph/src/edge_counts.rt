// How many edges lead to each node.

ghost use Rattle.std.specs.Prelude.{IfOk};
ghost use Rattle.call_graph.specs.Orders.{AreCounts};

use std::alloc::{AllocError, Global};

pub(crate) fn counts(
    alloc: Global,
    nodes: usize,
    edges: &[(usize, usize)],
) -> Result<Vec<usize>, AllocError>
    ensures { IfOk result (λ made. AreCounts nodes edges.now made.items) }
{
    let mut counts = Vec::from_elem(alloc, 0, nodes)?;
    for edge in edges {
        if edge.1 < nodes {
            counts[edge.1] += 1;
        }
    }
    Ok(counts)
}
