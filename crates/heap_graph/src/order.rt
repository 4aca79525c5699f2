// Nodes in the order of a search.

ghost use Rattle.std.specs.Prelude.{◌≡◌, ◌<◌, ◌++◌, [], ◌∷◌, length, map, reverse, replicate, set, IfOk, OnOk};
ghost use Rattle.heap_graph.specs.Orders.{EdgesAscend, number_of, IsOrderOf};
ghost use Rattle.heap_graph.specs.Searches.{IsNumbered, GoesOn};

use crate::frozen::{Edge, FrozenGraph};
use std::alloc::{AllocError, Global};

/// Nodes of a graph in an order, each once.
#[derive(Drop)]
pub struct NodeOrder {
    order: Vec<usize>,
    /// Of each of the graph's numbers, where its node stands in the order, from 1, or 0.
    numbers: Vec<usize>,
}

impl NodeOrder {
    /// The nodes in their order.
    pub fn as_slice(&self) -> &[usize]
        ensures { result.now ≡ self.now.order.items }
    {
        self.order.as_slice()
    }

    /// Where a node stands in the order, from 1, or 0.
    pub fn number(&self, node: usize) -> usize
        ensures { result ≡ number_of self.now node }
    {
        self.numbers.get(node).copied().unwrap_or(0)
    }

    /// None of a graph's nodes.
    fn new(alloc: Global, graph: &FrozenGraph) -> Result<NodeOrder, AllocError>
        ensures order { IfOk result (λ made. made.order.items ≡ []) }
        ensures numbers { IfOk result (λ made. made.numbers.items ≡ replicate (length graph.now.nodes.items) 0) }
    {
        Ok(NodeOrder {
            order: Vec::new(alloc),
            numbers: Vec::from_elem(alloc, 0, graph.nodes.len())?,
        })
    }

    /// Adds a node at the end.
    fn add(&mut self, node: usize) -> Result<(), AllocError>
        requires { node < length self.old.numbers.items }
        ensures order { OnOk result (self.new.order.items ≡ self.old.order.items ++ node ∷ []) }
        ensures numbers { OnOk result (self.new.numbers.items ≡ set self.old.numbers.items node (length self.new.order.items)) }
    {
        self.order.push(node)?;
        self.numbers[node] = self.order.len();
        Ok(())
    }

    /// Goes on with a node: where it is there and isn't in the order, it is added, and what it leads to is to be gone on with first.
    fn go_on(
        &mut self,
        alloc: Global,
        graph: &FrozenGraph,
        pending: &mut Vec<usize>,
        node: usize,
    ) -> Result<(), AllocError>
        requires size { length self.old.numbers.items ≡ length graph.now.nodes.items }
        requires ascend { EdgesAscend graph.now.nodes.items }
        requires numbered { IsNumbered self.old }
        ensures { OnOk result (GoesOn graph.now.nodes.items node self.old self.new pending.old.items pending.new.items) }
    {
        if self.number(node) != 0 {
            return Ok(());
        }
        let Some(found) = graph.node(node) else {
            return Ok(());
        };
        self.add(node)?;
        let mut next = reversed_ends(alloc, &found.edges)?;
        pending.append(&mut next)?;
        Ok(())
    }
}

/// The nodes to which edges lead, that of the last edge first.
fn reversed_ends(alloc: Global, edges: &[Edge]) -> Result<Vec<usize>, AllocError>
    ensures { IfOk result (λ nodes. nodes.items ≡ map (λ edge. edge.to.node) (reverse edges.now)) }
{
    edges.iter().rev().map(|edge| edge.to.node).collect(alloc)
}

/// Nodes, the last first.
fn reversed(alloc: Global, nodes: &[usize]) -> Result<Vec<usize>, AllocError>
    ensures { IfOk result (λ made. made.items ≡ reverse nodes.now) }
{
    nodes.iter().rev().copied().collect(alloc)
}

/// The nodes that are come to from these, depth first.
pub fn ordered(
    alloc: Global,
    graph: &FrozenGraph,
    starts: &[usize],
) -> Result<NodeOrder, AllocError>
    requires { EdgesAscend graph.now.nodes.items }
    ensures { IfOk result (IsOrderOf graph.now.nodes.items starts.now) }
{
    let mut made = NodeOrder::new(alloc, graph)?;
    let mut pending = reversed(alloc, starts)?;
    while let Some(node) = pending.pop() {
        made.go_on(alloc, graph, &mut pending, node)?;
    }
    Ok(made)
}
