// What graphs of groups tell of variables outside functions and literals.

ghost use Rattle.std.specs.Prelude.{◌≡◌, ℕ, List, length, Contains, IfOk};
ghost use Rattle.c_typed.specs.Table.{Interned};
ghost use Rattle.heap_graph.specs.Frozen.{bare};
ghost use Rattle.heap_graph.specs.declared.frozen.FrozenGraph as memory_frozen;
ghost use Rattle.dsa_inlining.specs.Aligned.{AreAligned};

use crate::chosen::chosen_bases;
use crate::own::own_statics;
use heap_graph::FrozenGraph;
use std::alloc::{AllocError, Global};

/// Variables outside functions and literals, by their numbers.
#[derive(Drop)]
pub struct Statics {
    pub globals: Vec<usize>,
    pub literals: Vec<usize>,
}

/// What the graph of a group tells of variables outside functions and literals.
#[derive(Drop)]
pub struct GroupStatics {
    /// Some of the groups, by their numbers, to whose functions those of the group make calls: of all of which the graphs of these tell it tells, too.
    pub bases: Vec<usize>,
    /// Those of which the graphs of the bases don't tell.
    pub own: Statics,
    /// Of each node of the graph in which some lie, one.
    pub representatives: Statics,
    /// Of how many the graph tells, as far as that is a number of the machine.
    pub(crate) told: usize,
}

impl GroupStatics {
    ghost use Rattle.dsa_inlining.specs.GroupStatics.Groups.{IsBase, IsTold, HaveStatics};

    /// Those of the next group, whose graph has joined what the graphs of these groups tell. As bases it has some of these, by way of which it takes
    /// at most about twice as long to go over what it tells as it does one by one.
    pub fn of_graph(
        alloc: Global,
        all: &[GroupStatics],
        graph: &FrozenGraph,
        bases: Vec<usize>,
    ) -> Result<GroupStatics, AllocError>
        ensures { IfOk result (λ made. (table : Interned) (graphs : List memory_frozen.FrozenGraph) → length graphs ≡ length all.now → HaveStatics table graphs all.now
            → AreAligned (bare table graph.now) (bare table graph.now) → ((base : ℕ) → Contains bases.items base → IsBase table graphs graph.now base) → IsTold table graphs (length graphs) graph.now made) }
    {
        let told = graph.globals.len().saturating_add(graph.literals.len());
        let bases = chosen_bases(alloc, all, bases, told)?;
        let own = own_statics(alloc, all, graph, &bases)?;
        let representatives = Statics::representatives(alloc, graph)?;
        Ok(GroupStatics {
            bases,
            own,
            representatives,
            told,
        })
    }
}
