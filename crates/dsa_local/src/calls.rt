// Calls within a group.

ghost use Rattle.std.specs.Prelude.{◌≡◌, ◌<◌, true, length, OnOk};
ghost use Rattle.c_typed.specs.Table.{type_in};
ghost use Rattle.tac_ir.specs.declared.register.Register.TheVariants as R;
ghost use Rattle.tac_ir.specs.States.{InFunction};
ghost use Rattle.tac_ir.specs.Views.{op_in};
ghost use Rattle.tac_ir.specs.Groups.{AreGroups};
ghost use Rattle.heap_graph.specs.Graphs.{OfRegister, OfResult};
ghost use Rattle.heap_graph.specs.Targets.{has_target};
ghost use Rattle.heap_graph.specs.Closed as C;
ghost use Rattle.heap_graph.specs.Points as P;
ghost use Rattle.graph_unification.specs.Memory.{IsGraph};
ghost use Rattle.graph_unification.specs.Standing.{CodeStands};
ghost use Rattle.call_graph.specs.GroupViews.{groups_of, IsOf};
ghost use Rattle.dsa_local.specs.Joined.{Joins, ArePassed, IsTaken, IsJoined, OpJoined, CallsJoined, ClassesJoined, AllHaveOwn, PassedNamed, CallNamed};
ghost use Rattle.dsa_local.specs.Members.{code_of, shown, is_inside, IsOwnPoint};

use crate::members::{Group, formal, register};
use crate::names::{join, pass};
use c_typed::{CType, Shape, TypeTable};
use graph_unification::{Graph, Name};
use heap_graph::is_data_pointer;
use std::alloc::AllocError;
use tac_ir::{FunctionId, Op, Register};

impl<'a> Group<'a> {
    /// Makes arguments and formals one, and calls and results, for each call of a function that may come to functions of the group.
    pub fn join_calls(self, graph: &mut Graph, caller: FunctionId) -> Result<(), AllocError>
        requires stands { CodeStands (code_of self) }
        requires groups { AreGroups (code_of self) (groups_of self.groups.now) }
        requires of { IsOf self.tac.now self.groups.now }
        requires inside { is_inside self caller.0 ≡ true }
        requires graph { IsGraph self.tac.now.types graph.old }
        requires names { AllHaveOwn (code_of self) (is_inside self) (shown self graph.old) }
        requires classes { ClassesJoined (code_of self) (is_inside self) (shown self graph.old) }
        ensures graph { OnOk result (IsGraph self.entry.tac.now.types graph.new) }
        ensures joins { OnOk result (Joins (code_of self.entry).structs (shown self.entry graph.old) (shown self.entry graph.new) (CallsJoined (code_of self.entry) (is_inside self.entry) caller.0)) }
    {
        let Some(function) = self.tac.functions.get(caller.0) else {
            return Ok(());
        };
        for op in function.points.as_slice() {
            self.join_op(graph, caller, op)?;
        }
        Ok(())
    }

    /// Does so for a point, if it is a call.
    fn join_op(self, graph: &mut Graph, caller: FunctionId, op: &Op) -> Result<(), AllocError>
        requires stands { CodeStands (code_of self) }
        requires groups { AreGroups (code_of self) (groups_of self.groups.now) }
        requires of { IsOf self.tac.now self.groups.now }
        requires point { IsOwnPoint self caller.0 (op_in self.tac.now.types op.now) }
        requires graph { IsGraph self.tac.now.types graph.old }
        requires names { AllHaveOwn (code_of self) (is_inside self) (shown self graph.old) }
        requires classes { ClassesJoined (code_of self) (is_inside self) (shown self graph.old) }
        ensures graph { OnOk result (IsGraph self.entry.tac.now.types graph.new) }
        ensures joins { OnOk result (Joins (code_of self.entry).structs (shown self.entry graph.old) (shown self.entry graph.new) (OpJoined (code_of self.entry) (is_inside self.entry) (InFunction caller.0) (op_in self.entry.tac.now.types op.now))) }
    {
        match op {
            Op::Call {
                site,
                callee,
                arguments,
            } => {
                let Some(called) = self.groups.classes.first_target(self.tac, *callee) else {
                    return Ok(());
                };
                if !self.has(called) {
                    return Ok(());
                }
                self.join_call(graph, caller, *site, arguments, called)
            }
            _ => Ok(()),
        }
    }

    /// Makes arguments and formals of a function one, and the call and the result.
    fn join_call(
        self,
        graph: &mut Graph,
        caller: FunctionId,
        site: usize,
        arguments: &[Register],
        called: usize,
    ) -> Result<(), AllocError>
        requires stands { CodeStands (code_of self) }
        requires within { called < length self.tac.now.functions.items }
        requires graph { IsGraph self.tac.now.types graph.old }
        requires names { CallNamed (code_of self) (InFunction caller.0) site arguments.now called (shown self graph.old) }
        ensures graph { OnOk result (IsGraph self.entry.tac.now.types graph.new) }
        ensures joins { OnOk result (Joins (code_of self.entry).structs (shown self.entry graph.old) (shown self.entry graph.new) (IsJoined (code_of self.entry) (InFunction caller.0) site arguments.now called)) }
    {
        let c_type = self.tac.functions[called].c_type;
        self.pass_arguments(graph, caller, arguments, called, c_type)?;
        self.take_result(graph, caller, site, called, c_type)
    }

    /// Makes arguments one with formals where these are pointers to objects or to void.
    fn pass_arguments(
        self,
        graph: &mut Graph,
        caller: FunctionId,
        arguments: &[Register],
        called: usize,
        c_type: CType,
    ) -> Result<(), AllocError>
        requires stands { CodeStands (code_of self) }
        requires c_type { C.function_type (code_of self) called ≡ type_in self.tac.now.types c_type }
        requires graph { IsGraph self.tac.now.types graph.old }
        requires names { PassedNamed (code_of self) (InFunction caller.0) arguments.now called (shown self graph.old) }
        ensures graph { OnOk result (IsGraph self.entry.tac.now.types graph.new) }
        ensures joins { OnOk result (Joins (code_of self.entry).structs (shown self.entry graph.old) (shown self.entry graph.new) (ArePassed (InFunction caller.0) called (C.parameters_of (type_in self.entry.tac.now.types c_type)) arguments.now)) }
    {
        let types = &self.tac.types;
        let Shape::Function { parameters, .. } = types.shape(types.number_of(c_type)) else {
            return Ok(());
        };
        let mut parameters = parameters;
        for (number, argument) in arguments.iter().enumerate() {
            let Some((first, others)) = types.first_parameter(parameters) else {
                return Ok(());
            };
            if is_data_pointer(types, first) {
                let own = register(caller, *argument);
                pass(graph, types, own, formal(called, number))?;
            }
            parameters = others;
        }
        Ok(())
    }

    /// Makes a call one with the result where this is a pointer to an object or to void.
    fn take_result(
        self,
        graph: &mut Graph,
        caller: FunctionId,
        site: usize,
        called: usize,
        c_type: CType,
    ) -> Result<(), AllocError>
        requires stands { CodeStands (code_of self) }
        requires graph { IsGraph self.tac.now.types graph.old }
        requires call { has_target ((shown self graph.old).targets (OfRegister (InFunction caller.0) (R.Call site))) ≡ true }
        requires returned { has_target ((shown self graph.old).targets (OfResult (InFunction called))) ≡ true }
        ensures graph { OnOk result (IsGraph self.entry.tac.now.types graph.new) }
        ensures joins { OnOk result (Joins (code_of self.entry).structs (shown self.entry graph.old) (shown self.entry graph.new) (IsTaken (InFunction caller.0) site called (type_in self.entry.tac.now.types c_type))) }
    {
        let types = &self.tac.types;
        if !gives_data_pointer(types, c_type) {
            return Ok(());
        }
        let call = register(caller, Register::Call(site));
        join(graph, types, call, Name::Returned(Some(FunctionId(called))))
    }
}

/// Whether functions of a type give a pointer to an object or to void.
fn gives_data_pointer(types: &TypeTable, c_type: CType) -> bool
    ensures { result ≡ P.is_data_pointer (C.result_of (type_in types.now c_type)) }
{
    match types.shape(types.number_of(c_type)) {
        Shape::Void => false,
        Shape::Integer(_) => false,
        Shape::Pointer(_) => false,
        Shape::Array { .. } => false,
        Shape::Struct(_) => false,
        Shape::Function { result, .. } => is_data_pointer(types, result),
    }
}
