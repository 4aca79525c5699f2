// Names that come to copies of the nodes of a function that is called.

ghost use Rattle.std.specs.Prelude.{◌≡◌, true, Some, option_map, OnOk};
ghost use Rattle.heap_graph.specs.Memory.{target_of};
ghost use Rattle.heap_graph.specs.Targets.{has_target};
ghost use Rattle.graph_unification.specs.Memory.{owner_of, name_of, IsGraph};
ghost use Rattle.dsa_inlining.specs.Copied.{image};
ghost use Rattle.dsa_inlining.specs.Steps.{LeadsToSlot};
ghost use Rattle.dsa_inlining.specs.OuterCalls.Listed.{ListCome};
ghost use Rattle.dsa_inlining.specs.Crossed.{IsImage, IsJoined, IsCopied, CallNamed};
ghost use Rattle.dsa_inlining.specs.Joins.{Joins};
ghost use Rattle.dsa_inlining.specs.Shown.{code_of, shown, callee_of, copies_of, IsKnown, HasCopies};

use crate::copies::Copies;
use crate::told_statics::Statics;
use graph_unification::{Graph, Name, make_one};
use heap_graph::{FrozenGraph, FunctionNames, Target, is_collapsed};
use std::alloc::AllocError;
use tac_ir::{FunctionId, Register, Tac};

/// A function that is called from another group: its number, the graph of its group, its names there, and the copies of the nodes that
/// escape it in the caller's graph.
#[derive(Clone, Copy)]
pub struct Crossed<'a> {
    pub tac: &'a Tac,
    pub called: usize,
    pub callee: &'a FrozenGraph,
    pub names: &'a FunctionNames,
    pub copies: &'a Copies,
}

/// Makes what a call passes and is given one with the copies of the nodes of the function that is called.
pub fn join_call(
    crossed: Crossed<'_>,
    graph: &mut Graph,
    owner: Option<FunctionId>,
    site: usize,
    arguments: &[Register],
) -> Result<(), AllocError>
    requires known { IsKnown crossed }
    requires graph { IsGraph crossed.tac.now.types graph.old }
    requires copied { HasCopies crossed graph.old }
    requires names { CallNamed (owner_of owner) site arguments.now (shown crossed graph.old) }
    ensures graph { OnOk result (IsGraph crossed.entry.tac.now.types graph.new) }
    ensures copied { OnOk result (HasCopies crossed.entry graph.new) }
    ensures joins { OnOk result (Joins (code_of crossed.entry) (callee_of crossed.entry)
        (IsJoined (code_of crossed.entry) (owner_of owner) site arguments.now crossed.entry.called (callee_of crossed.entry) (copies_of crossed.entry))
        (shown crossed.entry graph.old) (shown crossed.entry graph.new)) }
{
    crossed.pass_arguments(graph, owner, arguments)?;
    crossed.take_result(graph, owner, site)
}

/// Makes variables outside functions and literals one with their copies. Those of which the graph of the function that is called doesn't tell are
/// left as they are; the others get targets where they have none.
pub fn join_statics(
    crossed: Crossed<'_>,
    graph: &mut Graph,
    statics: &Statics,
) -> Result<(), AllocError>
    requires known { IsKnown crossed }
    requires graph { IsGraph crossed.tac.now.types graph.old }
    requires copied { HasCopies crossed graph.old }
    ensures graph { OnOk result (IsGraph crossed.entry.tac.now.types graph.new) }
    ensures copied { OnOk result (HasCopies crossed.entry graph.new) }
    ensures joins { OnOk result (Joins (code_of crossed.entry) (callee_of crossed.entry) (ListCome (callee_of crossed.entry) (copies_of crossed.entry) statics.now)
        (shown crossed.entry graph.old) (shown crossed.entry graph.new)) }
{
    crossed.join_listed_globals(graph, statics.globals.as_slice())?;
    crossed.join_listed_literals(graph, statics.literals.as_slice())
}

impl<'a> Crossed<'a> {
    /// Makes the target of a name one with the place in the caller's graph of a target of the function that is called.
    pub(crate) fn join_image(
        self,
        graph: &mut Graph,
        name: Name,
        target: Target,
    ) -> Result<(), AllocError>
        requires known { IsKnown self }
        requires graph { IsGraph self.tac.now.types graph.old }
        requires copied { HasCopies self graph.old }
        requires target { IsCopied (code_of self).structs (callee_of self) (copies_of self) (target_of target) }
        requires named { has_target ((shown self graph.old).targets (name_of name)) ≡ true }
        ensures graph { OnOk result (IsGraph self.entry.tac.now.types graph.new) }
        ensures joins { OnOk result (Joins (code_of self.entry) (callee_of self.entry) (IsImage (copies_of self.entry) (name_of name) (target_of target)) (shown self.entry graph.old) (shown self.entry graph.new)) }
    {
        let Some(place) = self.place(graph, target) else {
            return Ok(());
        };
        let Some(own) = graph.target(name) else {
            return Ok(());
        };
        make_one(graph, &self.tac.types, own, place)?;
        Ok(())
    }

    /// Where a target of the function that is called is.
    fn place(self, graph: &Graph, target: Target) -> Option<Target>
        requires graph { IsGraph self.tac.now.types graph.now }
        requires slot { LeadsToSlot (code_of self).structs (shown self graph.now) (image (shown self graph.now) (copies_of self) (target_of target)) }
        ensures { option_map target_of result ≡ image (shown self.entry graph.now) (copies_of self.entry) (target_of target) }
    {
        let copy = self.copies.names.get(&target.node)?;
        let own = graph.target(Name::Copy(*copy))?;
        let (element, _) = graph.node(own.node)?;
        let shift = if is_collapsed(element) {
            0
        } else {
            own.shift.saturating_add(target.shift)
        };
        Some(Target {
            node: own.node,
            shift,
        })
    }
}
