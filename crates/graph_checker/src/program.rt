// A program with its groups and graphs, and what they tell of one function.

ghost use Rattle.std.specs.Prelude.{◌≡◌, ◌<◌, length, slice_get, Some};
ghost use Rattle.heap_graph.specs.Closed.{group_of};
ghost use Rattle.tac_ir.specs.States.{InStart, InFunction};
ghost use Rattle.graph_checker.specs.Programs.{family_of, IsProgram, IsMember};

use c_typed::CType;
use call_graph::Groups;
use heap_graph::{Crossing, FrozenGraph, FunctionNames, ProgramGraphs, Target};
use indexmap::IndexMap;
use tac_ir::{FunctionId, Tac};

/// A program with its groups and their graphs.
#[derive(Clone, Copy)]
pub struct Program<'a> {
    pub tac: &'a Tac,
    pub groups: &'a Groups,
    pub graphs: &'a ProgramGraphs,
}

/// A function, or `start`, which has no group.
#[derive(Clone, Copy)]
pub struct Member<'a> {
    pub graph: &'a FrozenGraph,
    pub names: &'a FunctionNames,
    pub embeddings: &'a IndexMap<Crossing, IndexMap<usize, Target>>,
    pub c_type: CType,
    pub group: Option<usize>,
}

impl<'a> Program<'a> {
    /// What is known of a function.
    pub fn member(self, function: FunctionId) -> Member<'a>
        requires program { IsProgram self }
        requires within { function.0 < length self.tac.now.functions.items }
        ensures member { IsMember self.entry.tac.now.types (family_of self.entry) (InFunction function.0) result }
        ensures stored { slice_get self.entry.graphs.now.graphs.items (group_of (family_of self.entry) function.0) ≡ Some result.graph.now }
    {
        let group = self.groups.group_of[function.0];
        let own = &self.graphs.functions[function.0];
        Member {
            graph: &self.graphs.graphs[group],
            names: &own.names,
            embeddings: &own.embeddings,
            c_type: self.tac.functions[function.0].c_type,
            group: Some(group),
        }
    }

    /// What is known of `start`.
    pub fn start(self) -> Member<'a>
        ensures { IsMember self.entry.tac.now.types (family_of self.entry) InStart result }
    {
        Member {
            graph: &self.graphs.start,
            names: &self.graphs.start_function.names,
            embeddings: &self.graphs.start_function.embeddings,
            c_type: CType::VOID,
            group: None,
        }
    }
}
