// What points ask of pointers alone.

ghost use Rattle.std.specs.Prelude.{◌≡◌, ◌<◌, true, Some, IfOk, OnOk};
ghost use Rattle.c_typed.specs.Layouts as L;
ghost use Rattle.c_typed.specs.Table.{type_in};
ghost use Rattle.tac_ir.specs.declared.register.Register.TheVariants as R;
ghost use Rattle.tac_ir.specs.Views.{operand_of, optional_operand};
ghost use Rattle.heap_graph.specs.Parts as P;
ghost use Rattle.heap_graph.specs.Points as Q;
ghost use Rattle.heap_graph.specs.Targets as T;
ghost use Rattle.graph_unification.specs.Memory.{name_of, IsGraph};
ghost use Rattle.heap_graph.specs.Asks as A;
ghost use Rattle.graph_unification.specs.Applying.{code_of, owner_of, shown, IsKnown, AppliesTo, IsTaken, IsOfArray, IsOfType};
ghost use Rattle.graph_unification.specs.Fits.{has_own, TakesFit, ReturnFits};

use crate::applied::Applied;
use crate::graph::Graph;
use crate::marks::Mark;
use crate::name::Name;
use crate::name_steps::{either, is_certain, join, mark, tell};
use c_typed::CType;
use std::alloc::AllocError;
use tac_ir::{Operand, Register};

impl<'a> Applied<'a> {
    /// What a register holds comes to the target of a name, unless it is a null pointer constant's.
    pub(crate) fn take(
        self,
        graph: &mut Graph,
        taker: Name,
        from: Register,
    ) -> Result<bool, AllocError>
        requires known { IsKnown self }
        requires graph { IsGraph self.tac.now.types graph.old }
        requires fits { TakesFit (code_of self) (shown self graph.old) (owner_of self) (T.has_target ((shown self graph.old).targets (name_of taker))) from }
        ensures graph { OnOk result (IsGraph self.entry.tac.now.types graph.new) }
        ensures applies { IfOk result (λ changed. AppliesTo self.entry changed graph.old graph.new (IsTaken (code_of self.entry) (owner_of self.entry) (name_of taker) from)) }
    {
        if self.scope.nulls.is_marked(from) {
            return Ok(false);
        }
        join(graph, &self.tac.types, taker, self.own(from))
    }

    /// What a register points to is an array's element, if its node is certain.
    fn mark_array(self, graph: &mut Graph, from: Register) -> bool
        requires known { IsKnown self }
        requires graph { IsGraph self.tac.now.types graph.old }
        ensures graph { IsGraph self.entry.tac.now.types graph.new }
        ensures applies { AppliesTo self.entry result graph.old graph.new (IsOfArray (code_of self.entry) (owner_of self.entry) from) }
    {
        if self.scope.nulls.is_marked(from) {
            return false;
        }
        let name = self.own(from);
        if !is_certain(graph, name) {
            return false;
        }
        mark(graph, &self.tac.types, name, Mark::Array)
    }

    /// What a register points to is of a type, if its node is certain.
    fn tell_behind(
        self,
        graph: &mut Graph,
        target: CType,
        from: Register,
    ) -> Result<bool, AllocError>
        requires known { IsKnown self }
        requires graph { IsGraph self.tac.now.types graph.old }
        requires some { L.is_complete (code_of self).structs (type_in self.tac.now.types target) ≡ true → 0 < P.slots_of (code_of self).structs (type_in self.tac.now.types target) }
        ensures graph { OnOk result (IsGraph self.entry.tac.now.types graph.new) }
        ensures applies { IfOk result (λ changed. AppliesTo self.entry changed graph.old graph.new (IsOfType (code_of self.entry) (owner_of self.entry) (type_in self.entry.tac.now.types target) from)) }
    {
        if self.scope.nulls.is_marked(from) {
            return Ok(false);
        }
        let name = self.own(from);
        if !is_certain(graph, name) {
            return Ok(false);
        }
        tell(graph, &self.tac.types, name, target)
    }

    /// A pointer moves within an array.
    pub(crate) fn move_pointer(
        self,
        graph: &mut Graph,
        to: Register,
        from: Register,
    ) -> Result<bool, AllocError>
        requires known { IsKnown self }
        requires graph { IsGraph self.tac.now.types graph.old }
        requires fits { TakesFit (code_of self) (shown self graph.old) (owner_of self) (has_own (code_of self) (shown self graph.old) (owner_of self) to) from }
        ensures graph { OnOk result (IsGraph self.entry.tac.now.types graph.new) }
        ensures applies { IfOk result (λ changed. AppliesTo self.entry changed graph.old graph.new (λ other. A.move_asked (code_of self.entry) other (owner_of self.entry) to from ≡ true)) }
    {
        let taken = self.take(graph, self.own(to), from)?;
        let marked = self.mark_array(graph, from);
        Ok(either(taken, marked))
    }

    /// A pointer is converted to one to a type.
    pub(crate) fn repoint(
        self,
        graph: &mut Graph,
        to: Register,
        target: CType,
        from: Register,
    ) -> Result<bool, AllocError>
        requires known { IsKnown self }
        requires graph { IsGraph self.tac.now.types graph.old }
        requires fits { TakesFit (code_of self) (shown self graph.old) (owner_of self) (has_own (code_of self) (shown self graph.old) (owner_of self) to) from }
        requires some { L.is_complete (code_of self).structs (type_in self.tac.now.types target) ≡ true → 0 < P.slots_of (code_of self).structs (type_in self.tac.now.types target) }
        ensures graph { OnOk result (IsGraph self.entry.tac.now.types graph.new) }
        ensures applies { IfOk result (λ changed. AppliesTo self.entry changed graph.old graph.new (λ other. A.repoint_asked (code_of self.entry) other (owner_of self.entry) to (type_in self.entry.tac.now.types target) from ≡ true)) }
    {
        let taken = self.take(graph, self.own(to), from)?;
        let told = self.tell_behind(graph, target, from)?;
        Ok(either(taken, told))
    }

    /// What an allocation gives points to a node of allocations.
    pub(crate) fn allocate(self, graph: &mut Graph, site: usize) -> bool
        requires known { IsKnown self }
        requires graph { IsGraph self.tac.now.types graph.old }
        requires target { has_own (code_of self) (shown self graph.old) (owner_of self) (R.Call site) ≡ true }
        ensures graph { IsGraph self.entry.tac.now.types graph.new }
        ensures applies { AppliesTo self.entry result graph.old graph.new (λ other. A.allocate_asked (code_of self.entry) other (owner_of self.entry) site ≡ true) }
    {
        let name = self.own(Register::Call(site));
        let types = &self.tac.types;
        let sure = mark(graph, types, name, Mark::Certain);
        let heap = mark(graph, types, name, Mark::Heap);
        either(sure, heap)
    }

    /// A pointer that a function returns comes to its result.
    pub(crate) fn give_back(
        self,
        graph: &mut Graph,
        value: &Option<Operand>,
    ) -> Result<bool, AllocError>
        requires known { IsKnown self }
        requires graph { IsGraph self.tac.now.types graph.old }
        requires fits { ReturnFits (code_of self) (shown self graph.old) (owner_of self) (optional_operand value.now) }
        ensures graph { OnOk result (IsGraph self.entry.tac.now.types graph.new) }
        ensures applies { IfOk result (λ changed. AppliesTo self.entry changed graph.old graph.new (λ other. Q.return_closed (code_of self.entry) other (owner_of self.entry) (optional_operand value.now) ≡ true)) }
    {
        match value {
            None => Ok(false),
            Some(operand) => self.give(graph, operand),
        }
    }

    fn give(self, graph: &mut Graph, operand: &Operand) -> Result<bool, AllocError>
        requires known { IsKnown self }
        requires graph { IsGraph self.tac.now.types graph.old }
        requires fits { ReturnFits (code_of self) (shown self graph.old) (owner_of self) (Some (operand_of operand.now)) }
        ensures graph { OnOk result (IsGraph self.entry.tac.now.types graph.new) }
        ensures applies { IfOk result (λ changed. AppliesTo self.entry changed graph.old graph.new (λ other. Q.return_closed (code_of self.entry) other (owner_of self.entry) (Some (operand_of operand.now)) ≡ true)) }
    {
        match operand {
            Operand::Integer(_) => Ok(false),
            Operand::Pointer(register) => self.take(graph, self.returned(), *register),
        }
    }
}
