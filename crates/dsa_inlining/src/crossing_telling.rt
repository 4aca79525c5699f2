// What is told of the copies at calls once all types are known.

ghost use Rattle.std.specs.Prelude.{◌≡◌, ℕ, Some};
ghost use Rattle.c_typed.specs.Table.{structs_in};
ghost use Rattle.heap_graph.specs.Structures.{AreMade};
ghost use Rattle.graph_unification.specs.Memory.{graph_in, IsGraph};
ghost use Rattle.graph_unification.specs.Going.{GoesOn};
ghost use Rattle.dsa_inlining.specs.declared.copies.Copies as memory_copies;
ghost use Rattle.dsa_inlining.specs.Copied.{numbers_in};
ghost use Rattle.dsa_inlining.specs.CallCopies.Telling.{CopiesTold, ArraysTold, AsksCopy, OnlyAsked};
ghost use Rattle.dsa_inlining.specs.Before.{graphs_before, IsReached, nodes_reached};
ghost use Rattle.dsa_inlining.specs.Asking.{AsksOwn, AsksCall};
ghost use Rattle.dsa_inlining.specs.Crossings.{copies_at, EachStands, AllCopiesTold};

use crate::before::{Before, Crossings};
use crate::copies::Copies;
use crate::telling::tell_copies;
use graph_unification::Graph;

impl<'a> Before<'a> {
    /// Tells of all copies what types tell in the end.
    pub fn tell_all(self, graph: &mut Graph, all: &[Crossings])
        requires made { AreMade (structs_in self.tac.now.types) }
        requires graph { IsGraph self.tac.now.types graph.old }
        requires stand { EachStands (graphs_before self) all.now (graph_in self.tac.now.types graph.old) }
        ensures graph { IsGraph self.entry.tac.now.types graph.new }
        ensures goes { GoesOn (structs_in self.entry.tac.now.types) (graph_in self.entry.tac.now.types graph.old) (graph_in self.entry.tac.now.types graph.new) }
        ensures arrays { ArraysTold (graph_in self.entry.tac.now.types graph.old) (graph_in self.entry.tac.now.types graph.new) }
        ensures told { AllCopiesTold (graphs_before self.entry) all.now (graph_in self.entry.tac.now.types graph.new) }
        ensures only { OnlyAsked (AsksCall (graphs_before self.entry) all.now (graph_in self.entry.tac.now.types graph.old)) (graph_in self.entry.tac.now.types graph.old) (graph_in self.entry.tac.now.types graph.new) }
    {
        for own in all {
            self.tell_own(graph, own);
        }
    }

    /// Tells so of the copies at the calls of one function.
    fn tell_own(self, graph: &mut Graph, own: &Crossings)
        requires made { AreMade (structs_in self.tac.now.types) }
        requires graph { IsGraph self.tac.now.types graph.old }
        requires reached { (site called : ℕ) (copies : memory_copies.Copies) → copies_at own.now site called ≡ Some copies → IsReached (graphs_before self) called }
        ensures graph { IsGraph self.entry.tac.now.types graph.new }
        ensures goes { GoesOn (structs_in self.entry.tac.now.types) (graph_in self.entry.tac.now.types graph.old) (graph_in self.entry.tac.now.types graph.new) }
        ensures arrays { ArraysTold (graph_in self.entry.tac.now.types graph.old) (graph_in self.entry.tac.now.types graph.new) }
        ensures told { (site called : ℕ) (copies : memory_copies.Copies) → copies_at own.now site called ≡ Some copies → (reached : IsReached (graphs_before self.entry) called)
            → CopiesTold (graph_in self.entry.tac.now.types graph.new) (nodes_reached (graphs_before self.entry) called reached) (numbers_in copies) }
        ensures only { OnlyAsked (AsksOwn (graphs_before self.entry) own.now (graph_in self.entry.tac.now.types graph.old)) (graph_in self.entry.tac.now.types graph.old) (graph_in self.entry.tac.now.types graph.new) }
    {
        for (crossing, copies) in own.copies.iter() {
            self.tell_one(graph, crossing.called, copies);
        }
    }

    /// Tells so of the copies at one call, to this function.
    fn tell_one(self, graph: &mut Graph, called: usize, copies: &Copies)
        requires made { AreMade (structs_in self.tac.now.types) }
        requires graph { IsGraph self.tac.now.types graph.old }
        requires reached { IsReached (graphs_before self) called }
        ensures graph { IsGraph self.entry.tac.now.types graph.new }
        ensures goes { GoesOn (structs_in self.entry.tac.now.types) (graph_in self.entry.tac.now.types graph.old) (graph_in self.entry.tac.now.types graph.new) }
        ensures arrays { ArraysTold (graph_in self.entry.tac.now.types graph.old) (graph_in self.entry.tac.now.types graph.new) }
        ensures told { (reached : IsReached (graphs_before self.entry) called)
            → CopiesTold (graph_in self.entry.tac.now.types graph.new) (nodes_reached (graphs_before self.entry) called reached) (numbers_in copies.now) }
        ensures only { (reached : IsReached (graphs_before self.entry) called)
            → OnlyAsked (AsksCopy (graph_in self.entry.tac.now.types graph.old) (nodes_reached (graphs_before self.entry) called reached) (numbers_in copies.now)) (graph_in self.entry.tac.now.types graph.old) (graph_in self.entry.tac.now.types graph.new) }
    {
        let callee = self.graph_of(called);
        tell_copies(graph, &self.tac.types, callee, copies);
    }
}
