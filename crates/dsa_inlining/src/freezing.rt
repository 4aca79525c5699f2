// Where copies are, once a graph isn't changed any more.

ghost use Rattle.std.specs.Prelude.{IfOk};
ghost use Rattle.c_typed.specs.Table.{Interned};
ghost use Rattle.graph_unification.specs.Memory.{graph_in, IsGraph};
ghost use Rattle.dsa_inlining.specs.Crossings.{TellsCrossings};

use crate::before::Crossings;
use crate::callee_copies::frozen_copies;
use graph_unification::Graph;
use heap_graph::{Crossing, Target};
use indexmap::IndexMap;
use std::alloc::{AllocError, Global};

/// Where the copies at the calls of one function are in the graph that is only read.
pub fn frozen_crossings(
    alloc: Global,
    graph: &Graph,
    own: &Crossings,
) -> Result<IndexMap<Crossing, IndexMap<usize, Target>>, AllocError>
    ensures { IfOk result (λ embeddings. (table : Interned) → IsGraph table graph.now → TellsCrossings (graph_in table graph.now) own.now embeddings) }
{
    let mut embeddings = IndexMap::new(alloc);
    for (crossing, copies) in own.copies.iter() {
        let targets = frozen_copies(alloc, graph, &copies.names)?;
        match embeddings.insert(*crossing, targets) {
            Ok(old) => drop(old),
            Err(_) => return Err(AllocError),
        }
    }
    Ok(embeddings)
}
