// Calls out of a group are joined with copies.

ghost use Rattle.std.specs.Prelude.{◌≡◌, ℕ, Some, All, IfOk, OnOk};
ghost use Rattle.c_typed.specs.Table.{structs_in};
ghost use Rattle.tac_ir.specs.Views.{tac_of, op_in};
ghost use Rattle.graph_unification.specs.Memory.{owner_of, graph_in, IsGraph};
ghost use Rattle.call_graph.specs.RowLists.{Has};
ghost use Rattle.graph_unification.specs.Going.{GoesOn};
ghost use Rattle.dsa_inlining.specs.Adding.{AreFree};
ghost use Rattle.call_graph.specs.ClassLists.{numbers_of};
ghost use Rattle.dsa_local.specs.Told.{NamesTold, NoCopies};
ghost use Rattle.dsa_inlining.specs.Owners.{function_at, IsFunctionOf};
ghost use Rattle.dsa_inlining.specs.Crossed.{CallNamed};
ghost use Rattle.dsa_inlining.specs.Before.{graphs_before, is_inside, IsReached};
ghost use Rattle.dsa_inlining.specs.Crossings.{owners_in, AreReached, AllReached, IsKnown, IsCalledFrom, AreCrossed, NumbersApart};
ghost use Rattle.dsa_inlining.specs.Joined.{AreKnownJoined};
ghost use Rattle.dsa_inlining.specs.Bases.{AreBases};
ghost use Rattle.dsa_inlining.specs.CallSteps.{shown, IsPoint, OwnerNamed, CallOut, OwnStands, HasEntry, TargetCrosses, TargetsCross, PointCrosses, Crosses, OwnerCrosses, AllLead};

use crate::before::{Before, Crossings, JoinedCalls};
use crate::copies::copy_escaping;
use crate::crossed::Crossed;
use crate::joined::JoinedGroups;
use graph_unification::Graph;
use heap_graph::{Crossing, FrozenGraph, FunctionNames};
use indexmap::IndexMap;
use std::alloc::{AllocError, Global};
use tac_ir::{Function, FunctionId, Op, Register, Tac};

/// A function whose calls are joined, and the number of its group; `start` is in none.
#[derive(Clone, Copy)]
pub(crate) struct Caller {
    pub(crate) owner: Option<FunctionId>,
    pub(crate) group: Option<usize>,
}

impl<'a> Before<'a> {
    /// Copies what escapes each function of another group that calls of the owners may reach, and joins the calls with the copies.
    pub fn cross_all(
        self,
        alloc: Global,
        graph: &mut Graph,
        owners: &[Option<FunctionId>],
        group: Option<usize>,
    ) -> Result<JoinedCalls, AllocError>
        requires known { IsKnown self }
        requires owners { All (IsFunctionOf self.tac.now) owners.now }
        requires reached { AllReached (graphs_before self) group owners.now }
        requires graph { IsGraph self.tac.now.types graph.old }
        requires told { NamesTold (tac_of self.tac.now) (owners_in owners.now) (graph_in self.tac.now.types graph.old) }
        requires copies { NoCopies (graph_in self.tac.now.types graph.old) }
        ensures graph { OnOk result (IsGraph self.entry.tac.now.types graph.new) }
        ensures goes { OnOk result (GoesOn (structs_in self.entry.tac.now.types) (graph_in self.entry.tac.now.types graph.old) (graph_in self.entry.tac.now.types graph.new)) }
        ensures told { OnOk result (NamesTold (tac_of self.entry.tac.now) (owners_in owners.now) (graph_in self.entry.tac.now.types graph.new)) }
        ensures crossed { IfOk result (λ all. AreCrossed (graphs_before self.entry) group owners.now all.crossings.items (graph_in self.entry.tac.now.types graph.new)) }
        ensures apart { IfOk result (λ all. NumbersApart all.crossings.items) }
        ensures leads { IfOk result (λ all. AllLead (graphs_before self.entry) group owners.now all.crossings.items (graph_in self.entry.tac.now.types graph.old) (graph_in self.entry.tac.now.types graph.new)) }
        ensures bases { IfOk result (λ all. AreBases (graphs_before self.entry) all.bases.items (graph_in self.entry.tac.now.types graph.new)) }
    {
        let mut all = Vec::new(alloc);
        let mut joined = JoinedGroups::new(alloc);
        let mut next = 0;
        for owner in owners {
            let caller = Caller {
                owner: *owner,
                group,
            };
            let own = self.cross_owner(alloc, graph, &mut joined, caller, next)?;
            next = own.next;
            all.push(own)?;
        }
        Ok(JoinedCalls {
            crossings: all,
            bases: joined.bases,
        })
    }

    /// Does so for one owner. The copies get the numbers from the first one on.
    fn cross_owner(
        self,
        alloc: Global,
        graph: &mut Graph,
        joined: &mut JoinedGroups,
        caller: Caller,
        first: usize,
    ) -> Result<Crossings, AllocError>
        requires known { IsKnown self }
        requires owner { IsFunctionOf self.tac.now caller.owner }
        requires reached { AreReached (graphs_before self) caller.group (owner_of caller.owner) }
        requires graph { IsGraph self.tac.now.types graph.old }
        requires named { OwnerNamed (tac_of self.tac.now) (owner_of caller.owner) (shown self graph.old) }
        requires free { AreFree (shown self graph.old) first }
        requires joined { AreKnownJoined (graphs_before self) joined.old (shown self graph.old) }
        ensures graph { OnOk result (IsGraph self.entry.tac.now.types graph.new) }
        ensures crosses { IfOk result (λ own. OwnerCrosses (graphs_before self.entry) caller.group (owner_of caller.owner) first own (shown self.entry graph.old) (shown self.entry graph.new)) }
        ensures joined { OnOk result (AreKnownJoined (graphs_before self.entry) joined.new (shown self.entry graph.new)) }
    {
        let function = function_of(self.tac, caller.owner);
        let mut own = Crossings {
            copies: IndexMap::new(alloc),
            next: first,
        };
        for op in function.points.as_slice() {
            self.cross_op(alloc, graph, joined, &mut own, caller, op)?;
        }
        Ok(own)
    }

    /// Does so for a point, if it is a call.
    fn cross_op(
        self,
        alloc: Global,
        graph: &mut Graph,
        joined: &mut JoinedGroups,
        own: &mut Crossings,
        caller: Caller,
        op: &Op,
    ) -> Result<(), AllocError>
        requires known { IsKnown self }
        requires reached { AreReached (graphs_before self) caller.group (owner_of caller.owner) }
        requires point { IsPoint (tac_of self.tac.now) (owner_of caller.owner) (op_in self.tac.now.types op.now) }
        requires graph { IsGraph self.tac.now.types graph.old }
        requires named { OwnerNamed (tac_of self.tac.now) (owner_of caller.owner) (shown self graph.old) }
        requires stands { OwnStands (graphs_before self) caller.group (owner_of caller.owner) own.old (shown self graph.old) }
        requires joined { AreKnownJoined (graphs_before self) joined.old (shown self graph.old) }
        ensures graph { OnOk result (IsGraph self.entry.tac.now.types graph.new) }
        ensures crosses { OnOk result (Crosses (graphs_before self.entry) caller.group (owner_of caller.owner)
            (PointCrosses (graphs_before self.entry) caller.group (owner_of caller.owner) (op_in self.entry.tac.now.types op.now)) own.old own.new (shown self.entry graph.old) (shown self.entry graph.new)) }
        ensures joined { OnOk result (AreKnownJoined (graphs_before self.entry) joined.new (shown self.entry graph.new)) }
    {
        match op {
            Op::Call {
                site,
                callee,
                arguments,
            } => {
                let targets = self.live_targets(alloc, *callee)?;
                self.cross_targets(
                    alloc, graph, joined, own, caller, *site, arguments, &targets,
                )
            }
            _ => Ok(()),
        }
    }

    /// Does so for a call that may come to these functions.
    fn cross_targets(
        self,
        alloc: Global,
        graph: &mut Graph,
        joined: &mut JoinedGroups,
        own: &mut Crossings,
        caller: Caller,
        site: usize,
        arguments: &[Register],
        targets: &[FunctionId],
    ) -> Result<(), AllocError>
        requires known { IsKnown self }
        requires out { (called : ℕ) → Has (numbers_of targets.now) called → CallOut (graphs_before self) caller.group (owner_of caller.owner) site called }
        requires graph { IsGraph self.tac.now.types graph.old }
        requires named { CallNamed (owner_of caller.owner) site arguments.now (shown self graph.old) }
        requires stands { OwnStands (graphs_before self) caller.group (owner_of caller.owner) own.old (shown self graph.old) }
        requires joined { AreKnownJoined (graphs_before self) joined.old (shown self graph.old) }
        ensures graph { OnOk result (IsGraph self.entry.tac.now.types graph.new) }
        ensures crosses { OnOk result (Crosses (graphs_before self.entry) caller.group (owner_of caller.owner)
            (TargetsCross (graphs_before self.entry) caller.group (owner_of caller.owner) site arguments.now (numbers_of targets.now)) own.old own.new (shown self.entry graph.old) (shown self.entry graph.new)) }
        ensures joined { OnOk result (AreKnownJoined (graphs_before self.entry) joined.new (shown self.entry graph.new)) }
    {
        for called in targets {
            self.cross_one(alloc, graph, joined, own, caller, site, arguments, called.0)?;
        }
        Ok(())
    }

    /// Does so for one function to which a call may come, if it is of another group.
    fn cross_one(
        self,
        alloc: Global,
        graph: &mut Graph,
        joined: &mut JoinedGroups,
        own: &mut Crossings,
        caller: Caller,
        site: usize,
        arguments: &[Register],
        called: usize,
    ) -> Result<(), AllocError>
        requires known { IsKnown self }
        requires out { CallOut (graphs_before self) caller.group (owner_of caller.owner) site called }
        requires graph { IsGraph self.tac.now.types graph.old }
        requires named { CallNamed (owner_of caller.owner) site arguments.now (shown self graph.old) }
        requires stands { OwnStands (graphs_before self) caller.group (owner_of caller.owner) own.old (shown self graph.old) }
        requires joined { AreKnownJoined (graphs_before self) joined.old (shown self graph.old) }
        ensures graph { OnOk result (IsGraph self.entry.tac.now.types graph.new) }
        ensures crosses { OnOk result (Crosses (graphs_before self.entry) caller.group (owner_of caller.owner)
            (TargetCrosses (graphs_before self.entry) caller.group (owner_of caller.owner) site arguments.now called) own.old own.new (shown self.entry graph.old) (shown self.entry graph.new)) }
        ensures joined { OnOk result (AreKnownJoined (graphs_before self.entry) joined.new (shown self.entry graph.new)) }
    {
        if self.is_inside(caller.group, called) {
            return Ok(());
        }
        self.copy_called(alloc, graph, own, caller, site, called)?;
        self.join_called(alloc, graph, joined, own, caller, site, arguments, called)
    }

    /// Copies what escapes a function for a call that has no copies of it yet.
    fn copy_called(
        self,
        alloc: Global,
        graph: &mut Graph,
        own: &mut Crossings,
        caller: Caller,
        site: usize,
        called: usize,
    ) -> Result<(), AllocError>
        requires known { IsKnown self }
        requires called { IsCalledFrom (graphs_before self) caller.group (owner_of caller.owner) site called }
        requires reached { IsReached (graphs_before self) called }
        requires graph { IsGraph self.tac.now.types graph.old }
        requires stands { OwnStands (graphs_before self) caller.group (owner_of caller.owner) own.old (shown self graph.old) }
        ensures graph { OnOk result (IsGraph self.entry.tac.now.types graph.new) }
        ensures crosses { OnOk result (Crosses (graphs_before self.entry) caller.group (owner_of caller.owner)
            (HasEntry (graphs_before self.entry) site called) own.old own.new (shown self.entry graph.old) (shown self.entry graph.new)) }
    {
        if own.copies.get(&Crossing { site, called }).is_some() {
            return Ok(());
        }
        let callee = self.graph_of(called);
        let escaping = self.escaping_of(called);
        let copies = copy_escaping(alloc, graph, &self.tac.types, callee, escaping, own.next)?;
        own.next = copies.next;
        own.copies.insert(Crossing { site, called }, copies)?;
        Ok(())
    }

    /// Joins a call with the copies that it has, and notes the group of the function that is called as joined.
    fn join_called(
        self,
        alloc: Global,
        graph: &mut Graph,
        joined: &mut JoinedGroups,
        own: &Crossings,
        caller: Caller,
        site: usize,
        arguments: &[Register],
        called: usize,
    ) -> Result<(), AllocError>
        requires known { IsKnown self }
        requires entry { HasEntry (graphs_before self) site called own.now (shown self graph.old) }
        requires called { IsCalledFrom (graphs_before self) caller.group (owner_of caller.owner) site called }
        requires graph { IsGraph self.tac.now.types graph.old }
        requires named { CallNamed (owner_of caller.owner) site arguments.now (shown self graph.old) }
        requires stands { OwnStands (graphs_before self) caller.group (owner_of caller.owner) own.now (shown self graph.old) }
        requires joined { AreKnownJoined (graphs_before self) joined.old (shown self graph.old) }
        ensures graph { OnOk result (IsGraph self.entry.tac.now.types graph.new) }
        ensures crosses { OnOk result (Crosses (graphs_before self.entry) caller.group (owner_of caller.owner)
            (TargetCrosses (graphs_before self.entry) caller.group (owner_of caller.owner) site arguments.now called) own.now own.now (shown self.entry graph.old) (shown self.entry graph.new)) }
        ensures joined { OnOk result (AreKnownJoined (graphs_before self.entry) joined.new (shown self.entry graph.new)) }
    {
        let Some(copies) = own.copies.get(&Crossing { site, called }) else {
            return Ok(());
        };
        let crossed = Crossed {
            tac: self.tac,
            called,
            callee: self.graph_of(called),
            names: self.names_of(called),
            copies,
        };
        let group = self.group_of(called);
        joined.join(
            alloc,
            graph,
            crossed,
            self,
            group,
            caller.owner,
            site,
            arguments,
        )?;
        Ok(())
    }

    /// The number of the group of a function.
    fn group_of(self, called: usize) -> usize
        requires reached { IsReached (graphs_before self) called }
        ensures { (reached : IsReached (graphs_before self.entry) called) → reached.group ≡ result }
    {
        self.groups.group_of[called]
    }

    /// The graph of the group of a function.
    pub(crate) fn graph_of(self, called: usize) -> &'a FrozenGraph
        requires reached { IsReached (graphs_before self) called }
        ensures { (reached : IsReached (graphs_before self.entry) called) → reached.graph ≡ result.now }
    {
        &self.graphs[self.groups.group_of[called]]
    }

    /// The names of a function.
    fn names_of(self, called: usize) -> &'a FunctionNames
        requires reached { IsReached (graphs_before self) called }
        ensures { (reached : IsReached (graphs_before self.entry) called) → reached.own.names ≡ result.now }
    {
        &self.functions[called].names
    }

    /// The nodes that escape a function.
    fn escaping_of(self, called: usize) -> &'a [usize]
        requires reached { IsReached (graphs_before self) called }
        ensures { (reached : IsReached (graphs_before self.entry) called) → reached.numbers ≡ result.now }
    {
        match self.escaping.get(called) {
            Some(numbers) => numbers,
            None => &[],
        }
    }

    /// Whether a function is of the group of this number.
    fn is_inside(self, group: Option<usize>, called: usize) -> bool
        ensures { result ≡ is_inside self.entry.groups.now group called }
    {
        let Some(own) = group else {
            return false;
        };
        match self.groups.group_of.get(called) {
            Some(number) => *number == own,
            None => false,
        }
    }
}

/// The function of an owner.
fn function_of(tac: &Tac, owner: Option<FunctionId>) -> &Function
    requires { IsFunctionOf tac.now owner }
    ensures { function_at tac.now (owner_of owner) ≡ Some result.now }
{
    match owner {
        None => &tac.start,
        Some(function) => &tac.functions[function.0],
    }
}
