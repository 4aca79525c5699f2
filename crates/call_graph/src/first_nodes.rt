// Components by their first nodes.

ghost use Rattle.std.specs.Prelude.{◌≡◌, length, IfOk};
ghost use Rattle.call_graph.specs.Heads.{AreHeads, AreInside, turned_edges};

use indexmap::IndexMap;
use std::alloc::{AllocError, Global};

/// Of each node, the first one that has the same number.
pub fn heads(alloc: Global, numbers: &[usize]) -> Result<Vec<usize>, AllocError>
    ensures { IfOk result (λ made. AreHeads numbers.now made.items) }
{
    let mut firsts: IndexMap<usize, usize> = IndexMap::new(alloc);
    let mut heads = Vec::new(alloc);
    for (node, number) in numbers.iter().enumerate() {
        match firsts.get(number).copied() {
            Some(first) => heads.push(first)?,
            None => {
                firsts.insert(*number, node)?;
                heads.push(node)?;
            }
        }
    }
    Ok(heads)
}

/// The edges between components, each the other way round.
pub(crate) fn turned_edges(
    alloc: Global,
    edges: &[(usize, usize)],
    heads: &[usize],
) -> Result<Vec<(usize, usize)>, AllocError>
    requires { AreInside (length heads.now) edges.now }
    ensures { IfOk result (λ made. made.items ≡ turned_edges heads.now edges.now) }
{
    let mut turned = Vec::new(alloc);
    for edge in edges {
        let caller = heads[edge.0];
        let callee = heads[edge.1];
        if caller != callee {
            turned.push((callee, caller))?;
        }
    }
    Ok(turned)
}
