// Searches along edges.

ghost use Rattle.std.specs.Prelude.{◌≡◌, length, IfOk, OnOk};
ghost use Rattle.heap_graph.specs.Edges.{LeadsTo, AreReached, Grows};

use crate::frozen::FrozenGraph;
use crate::marks::NodeMarks;
use std::alloc::{AllocError, Global};

/// The nodes that were come to so far, and the numbers of those of them whose edges weren't followed yet.
#[derive(Drop)]
struct Search {
    found: NodeMarks,
    pending: Vec<usize>,
}

impl Search {
    /// Follows the edges of a node.
    fn follow(&mut self, graph: &FrozenGraph, number: usize) -> Result<(), AllocError>
        ensures { OnOk result (Grows self.old self.new (LeadsTo graph.now.nodes.items number)) }
    {
        let Some(node) = graph.node(number) else {
            return Ok(());
        };
        for edge in &node.edges {
            self.come_to(edge.to.node)?;
        }
        Ok(())
    }

    /// Marks a node whose edges are to be followed, where it isn't marked.
    fn come_to(&mut self, number: usize) -> Result<(), AllocError>
        ensures { OnOk result (Grows self.old self.new (λ other. number ≡ other)) }
    {
        if self.found.is_new(number) {
            self.pending.push(number)?;
            self.found.add(number);
        }
        Ok(())
    }
}

/// All nodes to which edges lead from these.
pub fn reached(
    alloc: Global,
    graph: &FrozenGraph,
    starts: NodeMarks,
) -> Result<NodeMarks, AllocError>
    requires { length starts.marks.items ≡ length graph.now.nodes.items }
    ensures { IfOk result (AreReached graph.now.nodes.items starts) }
{
    let pending = starts.numbers(alloc)?;
    let mut search = Search {
        found: starts,
        pending,
    };
    while let Some(number) = search.pending.pop() {
        search.follow(graph, number)?;
    }
    Ok(search.found)
}
