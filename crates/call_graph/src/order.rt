// Components in their order.

ghost use Rattle.std.specs.Prelude.{◌≡◌, ◌<◌, length, slice_index, IfOk, OnOk};
ghost use Rattle.call_graph.specs.Orders.{AreOfComponents, IsOrder, Begins, AreCovered, CountsDown, Places};

use crate::edge_counts::counts;
use crate::first_nodes::turned_edges;
use crate::row_lists::rows;
use std::alloc::{AllocError, Global};
use std::collections::BTreeSet;

/// Components, each by its first node, while they are put in order.
#[derive(Drop)]
pub(crate) struct Ordering {
    /// Of each component, how many of its edges lead to components that aren't placed.
    pub(crate) counts: Vec<usize>,
    /// The components that may come next.
    pub(crate) ready: BTreeSet<usize>,
    pub(crate) placed: Vec<usize>,
}

impl Ordering {
    /// The beginning, with the components that have no edges to others.
    fn new(alloc: Global, heads: &[usize], counts: Vec<usize>) -> Result<Ordering, AllocError>
        requires { length counts.items ≡ length heads.now }
        ensures { IfOk result (λ made. Begins heads.now counts.items made) }
    {
        let mut ready = BTreeSet::new(alloc);
        for (node, head) in heads.iter().enumerate() {
            if node == *head && counts[node] == 0 {
                ready.insert(node)?;
            }
        }
        Ok(Ordering {
            counts,
            ready,
            placed: Vec::new(alloc),
        })
    }

    /// Places a component to which these have edges.
    fn place(&mut self, head: usize, callers: &[usize]) -> Result<(), AllocError>
        requires { AreCovered callers.now self.old.counts.items }
        ensures { OnOk result (Places head callers.now self.old self.new) }
    {
        self.placed.push(head)?;
        for caller in callers {
            self.count_down(*caller)?;
        }
        Ok(())
    }

    /// One edge less leads to a component that isn't placed.
    fn count_down(&mut self, caller: usize) -> Result<(), AllocError>
        requires inside { caller < length self.old.counts.items }
        requires some { 0 < slice_index self.old.counts.items caller }
        ensures { OnOk result (CountsDown caller self.old self.new) }
    {
        self.counts[caller] -= 1;
        if self.counts[caller] == 0 {
            self.ready.insert(caller)?;
        }
        Ok(())
    }
}

/// The components of nodes that are numbered by them, each by its first node, in their order.
pub fn in_order(
    alloc: Global,
    edges: &[(usize, usize)],
    heads: &[usize],
) -> Result<Vec<usize>, AllocError>
    requires { AreOfComponents edges.now heads.now }
    ensures { IfOk result (λ order. IsOrder heads.now edges.now order.items) }
{
    let turned = turned_edges(alloc, edges, heads)?;
    let counts = counts(alloc, heads.len(), turned.as_slice())?;
    let callers = rows(alloc, heads.len(), turned.as_slice())?;
    let mut ordering = Ordering::new(alloc, heads, counts)?;
    while let Some(head) = ordering.ready.pop_first() {
        ordering.place(head, callers[head].as_slice())?;
    }
    Ok(ordering.placed)
}
