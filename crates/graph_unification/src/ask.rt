// What is still asked of a graph.

ghost use Rattle.std.specs.Prelude.{◌≡◌, ◌∷◌, ◌++◌, map, reverse, OnOk};
ghost use Rattle.graph_unification.specs.Turns.{asked_again};

use crate::node::SlotEdge;
use std::alloc::AllocError;

/// What is still asked of a graph. Targets are those that cells hold when it is settled.
#[derive(Clone, Copy, Debug, PartialEq, Eq)]
pub(crate) enum Ask {
    /// The targets of two cells are one.
    One(usize, usize),
    /// The node to which a cell points is collapsed.
    Collapse(usize),
    /// The slot to which a cell points has an edge to the target of another.
    Points { at: usize, to: usize },
}

/// Asks for one thing more, before all others.
pub(crate) fn push(work: &mut Vec<Ask>, ask: Ask) -> Result<(), AllocError>
    ensures { OnOk result (reverse work.new.items ≡ ask ∷ reverse work.old.items) }
{
    match work.push(ask) {
        Ok(()) => Ok(()),
        Err(_) => Err(AllocError),
    }
}

/// Asks for edges at a slot, before all others.
pub(crate) fn push_edges(
    work: &mut Vec<Ask>,
    at: usize,
    edges: &[SlotEdge],
) -> Result<(), AllocError>
    ensures { OnOk result (reverse work.new.items ≡ map (asked_again at) edges.now ++ reverse work.old.items) }
{
    let mut left = edges.len();
    while left > 0 {
        left -= 1;
        push(
            work,
            Ask::Points {
                at,
                to: edges[left].to,
            },
        )?;
    }
    Ok(())
}
