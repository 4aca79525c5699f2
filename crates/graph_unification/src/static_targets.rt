// The targets of variables outside functions and of literals.

ghost use Rattle.std.specs.Prelude.{◌≡◌, IfOk};
ghost use Rattle.c_typed.specs.Table.{Interned};
ghost use Rattle.graph_unification.specs.Memory.{name_of, graph_in, IsGraph};
ghost use Rattle.graph_unification.specs.Freezing.{TellsStatics, static_name};

use crate::certain::certain_target;
use crate::graph::Graph;
use crate::name::Name;
use heap_graph::Target;
use indexmap::IndexMap;
use std::alloc::{AllocError, Global};
use tac_ir::{GlobalId, LiteralId};

/// What lies outside functions.
#[derive(Clone, Copy)]
pub(crate) enum StaticKind {
    Global,
    Literal,
}

impl StaticKind {
    /// The name of the one with a number.
    fn name(self, number: usize) -> Name
        ensures { name_of result ≡ static_name self number }
    {
        match self {
            StaticKind::Global => Name::Global(GlobalId(number)),
            StaticKind::Literal => Name::Literal(LiteralId(number)),
        }
    }
}

/// The targets of those with these numbers, where their nodes are certain.
pub(crate) fn static_targets(
    alloc: Global,
    graph: &Graph,
    kind: StaticKind,
    numbers: &[usize],
) -> Result<IndexMap<usize, Target>, AllocError>
    ensures { IfOk result (λ targets. (table : Interned) → IsGraph table graph.now → TellsStatics (graph_in table graph.now) (static_name kind) numbers.now targets) }
{
    let mut targets = IndexMap::new(alloc);
    for number in numbers {
        match certain_target(graph, kind.name(*number)) {
            Some(target) => match targets.insert(*number, target) {
                Ok(_) => {}
                Err(_) => return Err(AllocError),
            },
            None => {}
        }
    }
    Ok(targets)
}
