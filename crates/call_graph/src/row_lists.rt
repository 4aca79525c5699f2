// The edges of a graph by the nodes from which they lead.

ghost use Rattle.std.specs.Prelude.{IfOk, OnOk};
ghost use Rattle.call_graph.specs.Rows.{AreRows, AreEmpty, AddsEdge};

use std::alloc::{AllocError, Global};

/// To which nodes each of so many nodes has edges, in the order of the edges. Edges from other nodes are left out.
pub fn rows(
    alloc: Global,
    nodes: usize,
    edges: &[(usize, usize)],
) -> Result<Vec<Vec<usize>>, AllocError>
    ensures { IfOk result (λ made. AreRows nodes edges.now made) }
{
    let mut rows = empty_rows(alloc, nodes)?;
    for edge in edges {
        add_edge(&mut rows, *edge)?;
    }
    Ok(rows)
}

fn empty_rows(alloc: Global, nodes: usize) -> Result<Vec<Vec<usize>>, AllocError>
    ensures { IfOk result (λ made. AreEmpty nodes made) }
{
    let mut rows = Vec::new(alloc);
    for _ in 0..nodes {
        rows.push(Vec::new(alloc))?;
    }
    Ok(rows)
}

/// Adds an edge. One from another node is left out.
pub fn add_edge(rows: &mut Vec<Vec<usize>>, edge: (usize, usize)) -> Result<(), AllocError>
    ensures { OnOk result (AddsEdge edge rows.old rows.new) }
{
    if let Some(row) = rows.get_mut(edge.0) {
        row.push(edge.1)?;
    }
    Ok(())
}
