// Of each node in which variables outside functions or literals lie, one of these.

ghost use Rattle.std.specs.Prelude.{IfOk};
ghost use Rattle.c_typed.specs.Table.{Interned};
ghost use Rattle.heap_graph.specs.Frozen.{bare};
ghost use Rattle.dsa_inlining.specs.GroupStatics.Listed.{Represents};
ghost use Rattle.dsa_inlining.specs.Seen.{SeesNodes};

use crate::told_statics::Statics;
use heap_graph::{FrozenGraph, Target};
use indexmap::{IndexMap, IndexSet};
use std::alloc::{AllocError, Global};

impl Statics {
    /// Of each node of a graph in which variables outside functions or literals lie, one.
    pub fn representatives(alloc: Global, graph: &FrozenGraph) -> Result<Statics, AllocError>
        ensures { IfOk result (λ made. (table : Interned) → Represents made (bare table graph.now)) }
    {
        let mut seen = IndexSet::new(alloc);
        let globals = first_of_nodes(alloc, &mut seen, &graph.globals)?;
        let literals = first_of_nodes(alloc, &mut seen, &graph.literals)?;
        Ok(Statics { globals, literals })
    }
}

/// The numbers with targets in nodes that weren't seen yet, one of each node. These nodes are seen then.
fn first_of_nodes(
    alloc: Global,
    seen: &mut IndexSet<usize>,
    targets: &IndexMap<usize, Target>,
) -> Result<Vec<usize>, AllocError>
    ensures { IfOk result (λ numbers. SeesNodes targets.now seen.old.keys seen.new.keys numbers.items) }
{
    let mut numbers = Vec::new(alloc);
    for (number, target) in targets.iter() {
        let is_new = seen.insert(target.node)?;
        if is_new {
            numbers.push(*number)?;
        }
    }
    Ok(numbers)
}
