// What a call passes and what it is given.

ghost use Rattle.std.specs.Prelude.{◌≡◌, ℕ, true, slice_get, Some, OnOk};
ghost use Rattle.c_typed.specs.Table.{type_in};
ghost use Rattle.tac_ir.specs.declared.register.Register.{Register};
ghost use Rattle.tac_ir.specs.declared.register.Register.TheVariants as R;
ghost use Rattle.heap_graph.specs.Closed as C;
ghost use Rattle.heap_graph.specs.Graphs.{OfRegister};
ghost use Rattle.heap_graph.specs.Points as P;
ghost use Rattle.heap_graph.specs.Targets.{has_target};
ghost use Rattle.graph_unification.specs.Memory.{owner_of, IsGraph};
ghost use Rattle.dsa_inlining.specs.Crossed.{ArePassed, IsPassed, IsGiven};
ghost use Rattle.dsa_inlining.specs.Joins.{Joins};
ghost use Rattle.dsa_inlining.specs.Shown.{code_of, shown, callee_of, copies_of, IsKnown, HasCopies};

use crate::crossed::Crossed;
use c_typed::{CType, Shape, TypeTable};
use graph_unification::{Graph, Name};
use heap_graph::is_data_pointer;
use std::alloc::AllocError;
use tac_ir::{FunctionId, Local, Register};

impl<'a> Crossed<'a> {
    /// Makes arguments that are pointers to objects or to void one with the copies of the formals.
    pub(crate) fn pass_arguments(
        self,
        graph: &mut Graph,
        owner: Option<FunctionId>,
        arguments: &[Register],
    ) -> Result<(), AllocError>
        requires known { IsKnown self }
        requires graph { IsGraph self.tac.now.types graph.old }
        requires copied { HasCopies self graph.old }
        requires named { (number : ℕ) (argument : Register) → slice_get arguments.now number ≡ Some argument → has_target ((shown self graph.old).targets (OfRegister (owner_of owner) argument)) ≡ true }
        ensures graph { OnOk result (IsGraph self.entry.tac.now.types graph.new) }
        ensures joins { OnOk result (Joins (code_of self.entry) (callee_of self.entry)
            (ArePassed (callee_of self.entry) (copies_of self.entry) (owner_of owner) self.entry.called (C.parameters_of (C.function_type (code_of self.entry) self.entry.called)) arguments.now)
            (shown self.entry graph.old) (shown self.entry graph.new)) }
    {
        let types = &self.tac.types;
        let c_type = self.tac.functions[self.called].c_type;
        let Shape::Function { parameters, .. } = types.shape(types.number_of(c_type)) else {
            return Ok(());
        };
        let mut parameters = parameters;
        for (number, argument) in arguments.iter().enumerate() {
            let Some((first, others)) = types.first_parameter(parameters) else {
                return Ok(());
            };
            if is_data_pointer(types, first) {
                self.pass(graph, owner, *argument, number)?;
            }
            parameters = others;
        }
        Ok(())
    }

    /// Makes an argument one with the copy of the formal of its number.
    fn pass(
        self,
        graph: &mut Graph,
        owner: Option<FunctionId>,
        argument: Register,
        number: usize,
    ) -> Result<(), AllocError>
        requires known { IsKnown self }
        requires graph { IsGraph self.tac.now.types graph.old }
        requires copied { HasCopies self graph.old }
        requires formal { has_target ((callee_of self).targets (C.formal self.called number)) ≡ true }
        requires named { has_target ((shown self graph.old).targets (OfRegister (owner_of owner) argument)) ≡ true }
        ensures graph { OnOk result (IsGraph self.entry.tac.now.types graph.new) }
        ensures joins { OnOk result (Joins (code_of self.entry) (callee_of self.entry)
            (IsPassed (callee_of self.entry) (copies_of self.entry) (OfRegister (owner_of owner) argument) (C.formal self.entry.called number))
            (shown self.entry graph.old) (shown self.entry graph.new)) }
    {
        let formal = Register::Local(Local::Parameter(number));
        let Some(target) = self.names.register(formal) else {
            return Ok(());
        };
        let name = Name::Register {
            function: owner,
            register: argument,
        };
        self.join_image(graph, name, target)
    }

    /// Makes a call one with the copy of the result where this is a pointer to an object or to void.
    pub(crate) fn take_result(
        self,
        graph: &mut Graph,
        owner: Option<FunctionId>,
        site: usize,
    ) -> Result<(), AllocError>
        requires known { IsKnown self }
        requires graph { IsGraph self.tac.now.types graph.old }
        requires copied { HasCopies self graph.old }
        requires named { has_target ((shown self graph.old).targets (OfRegister (owner_of owner) (R.Call site))) ≡ true }
        ensures graph { OnOk result (IsGraph self.entry.tac.now.types graph.new) }
        ensures joins { OnOk result (Joins (code_of self.entry) (callee_of self.entry)
            (IsGiven (callee_of self.entry) (copies_of self.entry) (owner_of owner) site self.entry.called (C.function_type (code_of self.entry) self.entry.called))
            (shown self.entry graph.old) (shown self.entry graph.new)) }
    {
        if !gives_data_pointer(&self.tac.types, self.tac.functions[self.called].c_type) {
            return Ok(());
        }
        let Some(target) = self.names.returned else {
            return Ok(());
        };
        let call = Name::Register {
            function: owner,
            register: Register::Call(site),
        };
        self.join_image(graph, call, target)
    }
}

/// Whether functions of a type give a pointer to an object or to void.
fn gives_data_pointer(types: &TypeTable, c_type: CType) -> bool
    ensures { result ≡ P.is_data_pointer (C.result_of (type_in types.now c_type)) }
{
    match types.shape(types.number_of(c_type)) {
        Shape::Void => false,
        Shape::Integer(_) => false,
        Shape::Pointer(_) => false,
        Shape::Array { .. } => false,
        Shape::Struct(_) => false,
        Shape::Function { result, .. } => is_data_pointer(types, result),
    }
}
