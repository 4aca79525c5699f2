// Calls (C17 6.5.2.2, 7.21.7, 7.22.3, 7.22.4.4).

ghost use Rattle.std.specs.Prelude.{◌≡◌, OnOk, IfOk, suc, true, Some};
ghost use Rattle.c_num.specs.declared.IntType.TheVariants as I;
ghost use Rattle.c_typed.specs.declared.typed.LibraryFunction.TheVariants as F;
ghost use Rattle.c_typed.specs.Table.{Stands, HasShape, type_in};
ghost use Rattle.tac_ir.specs.declared.register.Register.TheVariants as R;
ghost use Rattle.tac_ir.specs.Code as C;
ghost use Rattle.tac_ir.specs.Views.{callee_in};
ghost use Rattle.tac_build.specs.Spots.{AsInteger};
ghost use Rattle.tac_build.specs.Code.{call_gives, Emits, Addresses};
ghost use Rattle.tac_build.specs.Building.{lowered_in, IsInteger, IsPointer, IsFunctionType, returned_by, LibraryGives, Grows, Leads, Lowers, HasRoom, Adds, LibraryTakes};
ghost use Rattle.tac_build.specs.Lowering.{names_for, AddsFewer, types_of_source, IsSource, scope_of, context_in, IsScope, DesignatorTyped, ValuesTyped, LibraryTyped, LieInMemory, LoweredHolds, CallsThrough, DesignatorLowers, ArgumentsLower, LibraryLowers};
ghost use Rattle.tac_build.specs.Homes.{takes_called, takes_any};
ghost use Rattle.c_typed.specs.Views.{designator_in, values_in};
ghost use Rattle.c_typed.specs.Types.{CTypes};
ghost use Rattle.c_typed.specs.TypedNodes.{designator_nodes, values_nodes};
ghost use Rattle.c_typed.specs.Expressions.{all_scalar, types_of};

use crate::builder::Builder;
use crate::homes::Home;
use crate::lowered::{Lowered, Mode, integer, pointer};
use crate::names::Source;
use c_num::IntType;
use c_typed::{CType, Designator, LibraryFunction, Shape, TypeTable, Value};
use std::alloc::AllocError;
use tac_ir::{Callee, Op, Register};

/// What is called, and its type.
#[derive(Clone, Copy, Debug, PartialEq, Eq)]
pub struct Called {
    pub callee: Callee,
    pub c_type: CType,
}

/// The type of what a function of a type returns.
fn returned_type(types: &TypeTable, c_type: CType) -> Shape
    requires stands { Stands types.now c_type }
    requires kind { IsFunctionType (type_in types.now c_type) }
    ensures { HasShape types.now (returned_by (type_in types.now c_type)) result }
{
    match types.shape(c_type) {
        Shape::Function {
            result: returned,
            ..
        } => types.shape(returned),
        _ => unreachable!(),
    }
}

impl Builder {
    /// A function, or a pointer to one (C17 6.3.2.1 paragraph 4).
    #[cycle(values)]
    pub fn designator(
        &mut self,
        function: &Designator,
        source: &Source,
        scope: &[Home],
    ) -> Result<Called, AllocError>
        requires source { IsSource source.now }
        requires homes { IsScope source.now scope.now }
        requires typed { DesignatorTyped source.now scope.now function.now }
        requires lives { LieInMemory (scope_of source.now scope.now) (λ number. takes_called number (designator_in (types_of_source source.now) function.now)) }
        requires room { HasRoom self.old (names_for (designator_nodes (designator_in (types_of_source source.now) function.now))) }
        ensures code { IfOk result (DesignatorLowers source.now scope.now function.now self.old self.new) }
        ensures grows { OnOk result (Grows self.old self.new) }
        ensures adds { OnOk result (AddsFewer self.old self.new (names_for (designator_nodes (designator_in (types_of_source source.now) function.now)))) }
    {
        match function {
            Designator::Named(name) => {
                let function = source.function(name.as_slice());
                Ok(Called {
                    callee: Callee::Function(function),
                    c_type: source.function_type(function),
                })
            }
            Designator::Grouped(inner) => self.designator(inner, source, scope),
            Designator::Pointed { pointer, .. } => {
                let found = self.value(pointer, source, scope, Mode::Kept)?;
                Ok(through(found))
            }
            Designator::ThroughPointer { pointer, .. } => {
                let found = self.value(pointer, source, scope, Mode::Kept)?;
                Ok(through(found))
            }
        }
    }

    /// Arguments, which come to registers of their own in their order.
    #[cycle(values)]
    pub fn arguments(
        &mut self,
        arguments: &[Value],
        source: &Source,
        scope: &[Home],
    ) -> Result<Vec<Register>, AllocError>
        requires source { IsSource source.now }
        requires homes { IsScope source.now scope.now }
        requires typed { ValuesTyped source.now scope.now arguments.now }
        requires scalars { (c_types : CTypes) → types_of (context_in source.now scope.now) (values_in (types_of_source source.now) arguments.now) ≡ Some c_types → all_scalar c_types ≡ true }
        requires lives { LieInMemory (scope_of source.now scope.now) (λ number. takes_any number (values_in (types_of_source source.now) arguments.now)) }
        requires room { HasRoom self.old (suc (names_for (values_nodes (values_in (types_of_source source.now) arguments.now)))) }
        ensures code { IfOk result (λ registers. ArgumentsLower source.now scope.now arguments.now self.old self.new registers.items) }
        ensures grows { OnOk result (Grows self.old self.new) }
        ensures adds { OnOk result (Adds self.old self.new (names_for (values_nodes (values_in (types_of_source source.now) arguments.now)))) }
    {
        let mut registers = Vec::new(self.alloc);
        for argument in arguments {
            let register = self.new_argument();
            let given = self.value(argument, source, scope, Mode::Kept)?;
            self.write(register, given)?;
            registers.push(register)?;
        }
        Ok(registers)
    }

    /// A call of a library function.
    #[cycle(values)]
    pub fn library_call(
        &mut self,
        function: LibraryFunction,
        arguments: &[Value],
        source: &Source,
        scope: &[Home],
    ) -> Result<Lowered, AllocError>
        requires source { IsSource source.now }
        requires homes { IsScope source.now scope.now }
        requires typed { LibraryTyped source.now scope.now function arguments.now }
        requires lives { LieInMemory (scope_of source.now scope.now) (λ number. takes_any number (values_in (types_of_source source.now) arguments.now)) }
        requires room { HasRoom self.old (suc (names_for (values_nodes (values_in (types_of_source source.now) arguments.now)))) }
        ensures code { IfOk result (LibraryLowers source.now scope.now function arguments.now self.old self.new) }
        ensures grows { OnOk result (Grows self.old self.new) }
        ensures adds { OnOk result (Adds self.old self.new (suc (names_for (values_nodes (values_in (types_of_source source.now) arguments.now))))) }
    {
        let site = self.new_call();
        match arguments {
            [] => self.get_char(site),
            [argument] => {
                let given = self.value(argument, source, scope, Mode::Kept)?;
                self.library(function, site, given)
            }
            _ => unreachable!(),
        }
    }

    /// A library function of one argument.
    fn library(
        &mut self,
        function: LibraryFunction,
        site: usize,
        argument: Lowered,
    ) -> Result<Lowered, AllocError>
        requires { LibraryTakes function argument }
        ensures code { IfOk result (Lowers (λ table points. LibraryGives function site points (lowered_in table argument)) self.old self.new) }
        ensures grows { OnOk result (Grows self.old self.new) }
        ensures adds { OnOk result (Adds self.old self.new 0) }
    {
        match function {
            LibraryFunction::Malloc => self.allocate(site, argument),
            LibraryFunction::Free => self.release(site, argument),
            LibraryFunction::PutChar => self.put_char(site, argument),
            LibraryFunction::Exit => self.exit(argument),
            LibraryFunction::GetChar => unreachable!(),
        }
    }

    /// `malloc` (C17 7.22.3.4)
    fn allocate(&mut self, site: usize, argument: Lowered) -> Result<Lowered, AllocError>
        requires { IsInteger argument }
        ensures code { IfOk result (Lowers (λ table points. LibraryGives F.Malloc site points (lowered_in table argument)) self.old self.new) }
        ensures grows { OnOk result (Grows self.old self.new) }
        ensures adds { OnOk result (Adds self.old self.new 0) }
    {
        let size = Box::into_inner(integer(argument).tree);
        self.append(Op::Allocate { site, size })?;
        Ok(Lowered::Pointer {
            register: Register::Call(site),
            target: CType::VOID,
        })
    }

    /// `free` (C17 7.22.3.3)
    fn release(&mut self, site: usize, argument: Lowered) -> Result<Lowered, AllocError>
        requires { IsPointer argument }
        ensures code { IfOk result (Lowers (λ table points. LibraryGives F.Free site points (lowered_in table argument)) self.old self.new) }
        ensures grows { OnOk result (Grows self.old self.new) }
        ensures adds { OnOk result (Adds self.old self.new 0) }
    {
        let pointer = pointer(argument).register;
        self.append(Op::Free { site, pointer })?;
        Ok(Lowered::Nothing)
    }

    /// `getchar` (C17 7.21.7.6)
    fn get_char(&mut self, site: usize) -> Result<Lowered, AllocError>
        ensures code { IfOk result (Lowers (λ table points start end lowered. Emits points (C.GetChar site) start end × (lowered ≡ AsInteger I.Int (C.Held (R.Call site)))) self.old self.new) }
        ensures grows { OnOk result (Grows self.old self.new) }
        ensures adds { OnOk result (Adds self.old self.new 0) }
    {
        self.append(Op::GetChar { site })?;
        self.held(Register::Call(site), IntType::Int)
    }

    /// `putchar` (C17 7.21.7.8)
    fn put_char(&mut self, site: usize, argument: Lowered) -> Result<Lowered, AllocError>
        requires { IsInteger argument }
        ensures code { IfOk result (Lowers (λ table points. LibraryGives F.PutChar site points (lowered_in table argument)) self.old self.new) }
        ensures grows { OnOk result (Grows self.old self.new) }
        ensures adds { OnOk result (Adds self.old self.new 0) }
    {
        let value = Box::into_inner(integer(argument).tree);
        self.append(Op::PutChar { site, value })?;
        self.held(Register::Call(site), IntType::Int)
    }

    /// `exit` (C17 7.22.4.4)
    fn exit(&mut self, argument: Lowered) -> Result<Lowered, AllocError>
        requires { IsInteger argument }
        ensures code { IfOk result (Lowers (λ table points. LibraryGives F.Exit 0 points (lowered_in table argument)) self.old self.new) }
        ensures grows { OnOk result (Grows self.old self.new) }
        ensures adds { OnOk result (Adds self.old self.new 0) }
    {
        let status = Box::into_inner(integer(argument).tree);
        self.append(Op::Exit { status })?;
        Ok(Lowered::Nothing)
    }

    /// A call of a function.
    pub fn call(
        &mut self,
        called: Called,
        site: usize,
        arguments: Vec<Register>,
    ) -> Result<(), AllocError>
        ensures code { OnOk result (Leads (λ table points. Emits points (C.Call site (callee_in table called.callee) arguments.items)) self.old self.new) }
        ensures grows { OnOk result (Grows self.old self.new) }
        ensures adds { OnOk result (Adds self.old self.new 0) }
    {
        self.append(Op::Call {
            site,
            callee: called.callee,
            arguments,
        })
    }

    /// What a call of a function of a type gives: where its value isn't used, nothing.
    pub fn given(
        &self,
        is_used: bool,
        c_type: CType,
        site: usize,
        types: &TypeTable,
    ) -> Result<Lowered, AllocError>
        requires stands { Stands types.now c_type }
        requires kind { IsFunctionType (type_in types.now c_type) }
        ensures code { IfOk result (λ lowered. lowered_in types.now lowered ≡ call_gives is_used (type_in types.now c_type) site) }
        ensures holds { IfOk result (LoweredHolds types.now) }
    {
        if !is_used {
            return Ok(Lowered::Nothing);
        }
        let register = Register::Call(site);
        match returned_type(types, c_type) {
            Shape::Integer(int_type) => self.held(register, int_type),
            Shape::Pointer(target) => Ok(Lowered::Pointer { register, target }),
            _ => Ok(Lowered::Nothing),
        }
    }

    /// The address of what is called, as a value (C17 6.3.2.1 paragraph 4).
    pub fn function_address(&mut self, called: Called) -> Result<Lowered, AllocError>
        requires room { HasRoom self.old 1 }
        ensures code { IfOk result (Lowers (λ table points. Addresses points (callee_in table called.callee) (type_in table called.c_type)) self.old self.new) }
        ensures grows { OnOk result (Grows self.old self.new) }
        ensures adds { OnOk result (Adds self.old self.new 1) }
    {
        match called.callee {
            Callee::Function(function) => {
                let to = self.expression();
                self.pointer_value(Op::FunctionAddress { to, function }, called.c_type)
            }
            Callee::Through { pointer, c_type } => Ok(Lowered::Pointer {
                register: pointer,
                target: c_type,
            }),
        }
    }
}

/// What a pointer to functions points to.
fn through(found: Lowered) -> Called
    requires { IsPointer found }
    ensures { CallsThrough found result }
{
    let found = pointer(found);
    Called {
        callee: Callee::Through {
            pointer: found.register,
            c_type: found.target,
        },
        c_type: found.target,
    }
}
