// Graphs of certain nodes.

ghost use Rattle.std.specs.Prelude.{IfOk};
ghost use Rattle.c_typed.specs.Table.{Interned};
ghost use Rattle.heap_graph.specs.Graphs.{node_at};
ghost use Rattle.graph_unification.specs.Memory.{graph_in, IsGraph};
ghost use Rattle.heap_graph.specs.Frozen.{optional_node};
ghost use Rattle.graph_unification.specs.Freezing.{Freezes, FreezesAll, TellsGraph};

use crate::edges::frozen_edges;
use crate::graph::Graph;
use crate::static_targets::{StaticKind, static_targets};
use heap_graph::{FrozenGraph, Node};
use std::alloc::{AllocError, Global};

/// The graph of certain nodes. The numbers are those of the variables outside functions and of the literals that may have targets.
pub fn frozen_graph(
    alloc: Global,
    graph: &Graph,
    globals: &[usize],
    literals: &[usize],
) -> Result<FrozenGraph, AllocError>
    ensures { IfOk result (λ frozen. (table : Interned) → IsGraph table graph.now → TellsGraph table (graph_in table graph.now) globals.now literals.now frozen) }
{
    let nodes = frozen_nodes(alloc, graph)?;
    let globals = static_targets(alloc, graph, StaticKind::Global, globals)?;
    let literals = static_targets(alloc, graph, StaticKind::Literal, literals)?;
    Ok(FrozenGraph {
        nodes,
        globals,
        literals,
    })
}

/// The certain nodes at their numbers.
fn frozen_nodes(alloc: Global, graph: &Graph) -> Result<Vec<Option<Node>>, AllocError>
    ensures { IfOk result (λ nodes. (table : Interned) → IsGraph table graph.now → FreezesAll table (graph_in table graph.now) nodes.items) }
{
    let mut nodes = Vec::new(alloc);
    for number in 0..graph.node_count() {
        let node = frozen_node(alloc, graph, number)?;
        match nodes.push(node) {
            Ok(()) => {}
            Err(_) => return Err(AllocError),
        }
    }
    Ok(nodes)
}

/// A node, where it is certain.
fn frozen_node(alloc: Global, graph: &Graph, number: usize) -> Result<Option<Node>, AllocError>
    ensures { IfOk result (λ node. (table : Interned) → IsGraph table graph.now → Freezes (graph_in table graph.now) (node_at (graph_in table graph.now) number) (optional_node table node)) }
{
    match graph.node(number) {
        Some((element, flags)) => {
            if !flags.certain {
                return Ok(None);
            }
            let edges = frozen_edges(alloc, graph, number)?;
            Ok(Some(Node {
                element,
                flags,
                edges,
            }))
        }
        None => Ok(None),
    }
}
