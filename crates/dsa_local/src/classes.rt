// Functions to which one call may come through a pointer.

ghost use Rattle.std.specs.Prelude.{◌<◌, length, OnOk};
ghost use Rattle.graph_unification.specs.Memory.{IsGraph};
ghost use Rattle.graph_unification.specs.Standing.{CodeStands};
ghost use Rattle.call_graph.specs.GroupViews.{IsOf};
ghost use Rattle.dsa_local.specs.Joined.{Joins, AreJoined, ClassJoined, ClassesJoined, AllHaveOwn, BothNamed};
ghost use Rattle.dsa_local.specs.Called.{AreCalled};
ghost use Rattle.dsa_local.specs.Members.{code_of, shown, is_inside};

use crate::called::CalledClasses;
use crate::members::{Group, formal};
use crate::names::join;
use graph_unification::{Graph, Name};
use std::alloc::{AllocError, Global};
use tac_ir::FunctionId;

impl<'a> Group<'a> {
    /// Makes formals and results of functions one to which a call of the program may come through a pointer.
    pub fn join_classes(
        self,
        alloc: Global,
        graph: &mut Graph,
        called: &CalledClasses,
    ) -> Result<(), AllocError>
        requires stands { CodeStands (code_of self) }
        requires groups { IsOf self.tac.now self.groups.now }
        requires called { AreCalled self.tac.now called.now }
        requires graph { IsGraph self.tac.now.types graph.old }
        requires names { AllHaveOwn (code_of self) (is_inside self) (shown self graph.old) }
        ensures graph { OnOk result (IsGraph self.entry.tac.now.types graph.new) }
        ensures joins { OnOk result (Joins (code_of self.entry).structs (shown self.entry graph.old) (shown self.entry graph.new) (ClassesJoined (code_of self.entry) (is_inside self.entry))) }
    {
        let Some(members) = self.groups.members.get(self.number) else {
            return Ok(());
        };
        for member in members.as_slice() {
            self.join_class(alloc, graph, called, member.0)?;
        }
        Ok(())
    }

    /// Does so for the class that begins with a function, if calls may come to it.
    fn join_class(
        self,
        alloc: Global,
        graph: &mut Graph,
        called: &CalledClasses,
        first: usize,
    ) -> Result<(), AllocError>
        requires stands { CodeStands (code_of self) }
        requires groups { IsOf self.tac.now self.groups.now }
        requires called { AreCalled self.tac.now called.now }
        requires graph { IsGraph self.tac.now.types graph.old }
        requires names { AllHaveOwn (code_of self) (is_inside self) (shown self graph.old) }
        ensures graph { OnOk result (IsGraph self.entry.tac.now.types graph.new) }
        ensures joins { OnOk result (Joins (code_of self.entry).structs (shown self.entry graph.old) (shown self.entry graph.new) (ClassJoined (code_of self.entry) (is_inside self.entry) first)) }
    {
        let Some(callee) = called.call_to(first) else {
            return Ok(());
        };
        let targets = self.groups.classes.targets(alloc, self.tac, callee)?;
        if !self.has_all(&targets) {
            return Ok(());
        }
        for other in targets.as_slice() {
            self.join_functions(graph, first, other.0)?;
        }
        Ok(())
    }

    /// Makes formals and results of two functions of a type one.
    fn join_functions(self, graph: &mut Graph, a: usize, b: usize) -> Result<(), AllocError>
        requires stands { CodeStands (code_of self) }
        requires within { a < length self.tac.now.functions.items }
        requires graph { IsGraph self.tac.now.types graph.old }
        requires names { BothNamed (code_of self) a b (shown self graph.old) }
        ensures graph { OnOk result (IsGraph self.entry.tac.now.types graph.new) }
        ensures joins { OnOk result (Joins (code_of self.entry).structs (shown self.entry graph.old) (shown self.entry graph.new) (AreJoined (code_of self.entry) a b)) }
    {
        let types = &self.tac.types;
        for number in 0..self.tac.functions[a].parameters {
            join(graph, types, formal(a, number), formal(b, number))?;
        }
        let returned = Name::Returned(Some(FunctionId(a)));
        join(graph, types, returned, Name::Returned(Some(FunctionId(b))))
    }
}
