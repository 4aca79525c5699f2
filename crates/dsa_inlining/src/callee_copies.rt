// Where nodes of a callee are, once a graph isn't changed any more.

ghost use Rattle.std.specs.Prelude.{IfOk};
ghost use Rattle.c_typed.specs.Table.{Interned};
ghost use Rattle.graph_unification.specs.Memory.{graph_in, IsGraph};
ghost use Rattle.dsa_inlining.specs.Copies.{TellsCopies};

use graph_unification::{Graph, Name, certain_target};
use heap_graph::Target;
use indexmap::IndexMap;
use std::alloc::{AllocError, Global};

/// The targets of the copies of a callee's nodes, where they are certain: an embedding. Each node is told with the number of its copy's name.
pub fn frozen_copies(
    alloc: Global,
    graph: &Graph,
    copies: &IndexMap<usize, usize>,
) -> Result<IndexMap<usize, Target>, AllocError>
    ensures { IfOk result (λ targets. (table : Interned) → IsGraph table graph.now → TellsCopies (graph_in table graph.now) copies.now targets) }
{
    let mut targets = IndexMap::new(alloc);
    for (node, copy) in copies.iter() {
        match certain_target(graph, Name::Copy(*copy)) {
            Some(target) => match targets.insert(*node, target) {
                Ok(_) => {}
                Err(_) => return Err(AllocError),
            },
            None => {}
        }
    }
    Ok(targets)
}
