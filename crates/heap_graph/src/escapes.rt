// Which nodes escape a function.

ghost use Rattle.std.specs.Prelude.{◌≡◌, ℕ, ◌<◌, ◌↔◌, true, length, IfOk};
ghost use Rattle.c_typed.specs.Table.{Interned};
ghost use Rattle.tac_ir.specs.States.{Owner};
ghost use Rattle.heap_graph.specs.Escaping.{Escapes};
ghost use Rattle.heap_graph.specs.Closed.{Family, graph_of};
ghost use Rattle.heap_graph.specs.Shows.{ShowsGraph, ShowsNames};
ghost use Rattle.heap_graph.specs.Marks.{is_marked};
ghost use Rattle.heap_graph.specs.Edges.{EdgesAreFound};

use crate::frozen::{FrozenGraph, FunctionNames};
use crate::marks::NodeMarks;
use crate::search::reached;
use std::alloc::{AllocError, Global};

/// The nodes that escape the function with these names.
pub fn escaping(
    alloc: Global,
    graph: &FrozenGraph,
    names: &FunctionNames,
) -> Result<NodeMarks, AllocError>
    requires { EdgesAreFound graph.now }
    ensures size { IfOk result (λ marks. length marks.marks.items ≡ length graph.now.nodes.items) }
    ensures escapes { IfOk result (λ marks. (table : Interned) (family : Family) (owner : Owner) → ShowsGraph table family owner graph.now → ShowsNames family owner names.now
        → (number : ℕ) → number < length graph.now.nodes.items → (is_marked marks number ≡ true) ↔ Escapes (graph_of family owner) owner number) }
{
    let mut starts = NodeMarks::new(alloc, graph)?;
    starts.add_outside(names);
    starts.add_statics(graph);
    reached(alloc, graph, starts)
}
