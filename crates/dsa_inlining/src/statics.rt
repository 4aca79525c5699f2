// Variables outside functions and literals.

ghost use Rattle.std.specs.Prelude.{OnOk};
ghost use Rattle.heap_graph.specs.Graphs.{OfGlobal, OfLiteral};
ghost use Rattle.graph_unification.specs.Memory.{IsGraph};
ghost use Rattle.dsa_inlining.specs.Crossed.{Comes};
ghost use Rattle.dsa_inlining.specs.Joins.{Joins};
ghost use Rattle.dsa_inlining.specs.OuterCalls.Listed.{ListedCome};
ghost use Rattle.dsa_inlining.specs.Shown.{code_of, shown, callee_of, copies_of, IsKnown, HasCopies};

use crate::crossed::Crossed;
use graph_unification::{Graph, Name, add_global, add_literal};
use std::alloc::AllocError;
use tac_ir::{GlobalId, LiteralId};

impl<'a> Crossed<'a> {
    /// Makes the variables outside functions with these numbers one with their copies, where the graph of the function that is called tells of
    /// them.
    pub(crate) fn join_listed_globals(
        self,
        graph: &mut Graph,
        numbers: &[usize],
    ) -> Result<(), AllocError>
        requires known { IsKnown self }
        requires graph { IsGraph self.tac.now.types graph.old }
        requires copied { HasCopies self graph.old }
        ensures graph { OnOk result (IsGraph self.entry.tac.now.types graph.new) }
        ensures joins { OnOk result (Joins (code_of self.entry) (callee_of self.entry) (ListedCome (callee_of self.entry) (copies_of self.entry) OfGlobal numbers.now) (shown self.entry graph.old) (shown self.entry graph.new)) }
    {
        for number in numbers {
            self.join_global(graph, *number)?;
        }
        Ok(())
    }

    /// The same of the one with this number.
    fn join_global(self, graph: &mut Graph, number: usize) -> Result<(), AllocError>
        requires known { IsKnown self }
        requires graph { IsGraph self.tac.now.types graph.old }
        requires copied { HasCopies self graph.old }
        ensures graph { OnOk result (IsGraph self.entry.tac.now.types graph.new) }
        ensures joins { OnOk result (Joins (code_of self.entry) (callee_of self.entry) (Comes (callee_of self.entry) (copies_of self.entry) (OfGlobal number) (OfGlobal number)) (shown self.entry graph.old) (shown self.entry graph.new)) }
    {
        let global = GlobalId(number);
        let Some(target) = self.callee.global(global) else {
            return Ok(());
        };
        let Some(definition) = self.tac.globals.get(number) else {
            return Ok(());
        };
        add_global(graph, &self.tac.types, global, definition.c_type)?;
        self.join_image(graph, Name::Global(global), target)
    }

    /// Makes the literals with these numbers one with their copies, where the graph of the function that is called tells of them.
    pub(crate) fn join_listed_literals(
        self,
        graph: &mut Graph,
        numbers: &[usize],
    ) -> Result<(), AllocError>
        requires known { IsKnown self }
        requires graph { IsGraph self.tac.now.types graph.old }
        requires copied { HasCopies self graph.old }
        ensures graph { OnOk result (IsGraph self.entry.tac.now.types graph.new) }
        ensures joins { OnOk result (Joins (code_of self.entry) (callee_of self.entry) (ListedCome (callee_of self.entry) (copies_of self.entry) OfLiteral numbers.now) (shown self.entry graph.old) (shown self.entry graph.new)) }
    {
        for number in numbers {
            self.join_literal(graph, *number)?;
        }
        Ok(())
    }

    /// The same of the one with this number.
    fn join_literal(self, graph: &mut Graph, number: usize) -> Result<(), AllocError>
        requires known { IsKnown self }
        requires graph { IsGraph self.tac.now.types graph.old }
        requires copied { HasCopies self graph.old }
        ensures graph { OnOk result (IsGraph self.entry.tac.now.types graph.new) }
        ensures joins { OnOk result (Joins (code_of self.entry) (callee_of self.entry) (Comes (callee_of self.entry) (copies_of self.entry) (OfLiteral number) (OfLiteral number)) (shown self.entry graph.old) (shown self.entry graph.new)) }
    {
        let literal = LiteralId(number);
        let Some(target) = self.callee.literal(literal) else {
            return Ok(());
        };
        let Some(definition) = self.tac.literals.get(number) else {
            return Ok(());
        };
        add_literal(graph, &self.tac.types, literal, definition.c_type)?;
        self.join_image(graph, Name::Literal(literal), target)
    }
}
