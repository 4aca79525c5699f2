// The nodes with which the names of a function begin.

ghost use Rattle.std.specs.Prelude.{◌≡◌, ℕ, false, map, slice_get, OnOk};
ghost use Rattle.c_typed.specs.Table.{structs_in, type_in};
ghost use Rattle.tac_ir.specs.Views.{function_in};
ghost use Rattle.heap_graph.specs.Closed.{parameters_of};
ghost use Rattle.heap_graph.specs.Graphs.{OfRegister};
ghost use Rattle.heap_graph.specs.Memory.{flags_of};
ghost use Rattle.graph_unification.specs.Memory.{name_of, owner_of, graph_in, IsGraph};
ghost use Rattle.graph_unification.specs.Adding.{AddsMissing, AddsEach};
ghost use Rattle.graph_unification.specs.GraphNames.First.{pointer_flags, pointer_node, is_pointer_there, numbered, formal_at, numbered_at, AddsFunction, ObjectsHaveSlots, formals_in, FormalsStand, first_of, others_of};

use crate::graph::Graph;
use crate::name::Name;
use crate::names::add_missing;
use crate::objects::add_objects;
use c_typed::{CType, Parameters, Shape, TypeTable};
use heap_graph::{Element, Flags, is_data_pointer};
use std::alloc::AllocError;
use tac_ir::{Function, FunctionId, Local, Register};

/// Registers that are numbered in a function, beside its parameters.
#[derive(Clone, Copy)]
enum Numbered {
    Variable,
    Call,
    Argument,
    Expression,
}

/// Gives each name of a function a node of its own, where it has no target yet: its registers but those of integers, its result, and its
/// locals in memory. The nodes of formals that are pointers to objects or to void are certain, and those of locals.
pub fn add_function(
    graph: &mut Graph,
    types: &TypeTable,
    owner: Option<FunctionId>,
    function: &Function,
) -> Result<(), AllocError>
    requires graph { IsGraph types.now graph.old }
    requires slots { ObjectsHaveSlots (structs_in types.now) (map (λ object. type_in types.now object.c_type) function.now.objects.items) }
    ensures graph { OnOk result (IsGraph types.now graph.new) }
    ensures adds { OnOk result (AddsFunction (graph_in types.now graph.old) (graph_in types.now graph.new) (owner_of owner) (function_in types.now function.now)) }
{
    let counts = function.counts;
    add_parameters(graph, types, owner, function)?;
    add_numbered(graph, types, owner, Numbered::Variable, counts.variables)?;
    add_numbered(graph, types, owner, Numbered::Call, counts.calls)?;
    add_numbered(graph, types, owner, Numbered::Argument, counts.arguments)?;
    add_numbered(
        graph,
        types,
        owner,
        Numbered::Expression,
        counts.expressions,
    )?;
    add_pointer(graph, types, Name::Returned(owner), false)?;
    add_objects(graph, types, owner, &function.objects)
}

/// Gives each parameter of a function a node. That of a pointer to an object or to void is certain.
fn add_parameters(
    graph: &mut Graph,
    types: &TypeTable,
    owner: Option<FunctionId>,
    function: &Function,
) -> Result<(), AllocError>
    requires { IsGraph types.now graph.old }
    ensures graph { OnOk result (IsGraph types.now graph.new) }
    ensures adds { OnOk result (AddsEach (graph_in types.now graph.old) (graph_in types.now graph.new) (formal_at (owner_of owner)) (λ number. pointer_node (is_pointer_there (slice_get (parameters_of (type_in types.now function.now.c_type)) number))) function.now.parameters) }
{
    let mut left = formals_of(types, function.c_type);
    for number in 0..function.parameters {
        let (is_pointer, others) = split(types, left);
        left = others;
        let register = Register::Local(Local::Parameter(number));
        add_register(graph, types, owner, register, is_pointer)?;
    }
    Ok(())
}

/// Gives so many registers of a kind nodes.
fn add_numbered(
    graph: &mut Graph,
    types: &TypeTable,
    owner: Option<FunctionId>,
    kind: Numbered,
    count: usize,
) -> Result<(), AllocError>
    requires { IsGraph types.now graph.old }
    ensures graph { OnOk result (IsGraph types.now graph.new) }
    ensures adds { OnOk result (AddsEach (graph_in types.now graph.old) (graph_in types.now graph.new) (numbered_at (owner_of owner) kind) (λ number. pointer_node false) count) }
{
    for number in 0..count {
        add_register(graph, types, owner, register_of(kind, number), false)?;
    }
    Ok(())
}

/// Gives a register a node.
fn add_register(
    graph: &mut Graph,
    types: &TypeTable,
    owner: Option<FunctionId>,
    register: Register,
    is_certain: bool,
) -> Result<(), AllocError>
    requires { IsGraph types.now graph.old }
    ensures graph { OnOk result (IsGraph types.now graph.new) }
    ensures adds { OnOk result (AddsMissing (graph_in types.now graph.old) (graph_in types.now graph.new) (OfRegister (owner_of owner) register) (pointer_node is_certain)) }
{
    let name = Name::Register {
        function: owner,
        register,
    };
    add_pointer(graph, types, name, is_certain)
}

/// Gives what a pointer points to a node, of which nothing is told.
fn add_pointer(
    graph: &mut Graph,
    types: &TypeTable,
    name: Name,
    is_certain: bool,
) -> Result<(), AllocError>
    requires { IsGraph types.now graph.old }
    ensures graph { OnOk result (IsGraph types.now graph.new) }
    ensures adds { OnOk result (AddsMissing (graph_in types.now graph.old) (graph_in types.now graph.new) (name_of name) (pointer_node is_certain)) }
{
    add_missing(
        graph,
        types,
        name,
        Element::Missing,
        pointer_flags(is_certain),
    )
}

/// The register of a kind that has this number.
fn register_of(kind: Numbered, number: usize) -> Register
    ensures { result ≡ numbered kind number }
{
    match kind {
        Numbered::Variable => Register::Local(Local::Variable(number)),
        Numbered::Call => Register::Call(number),
        Numbered::Argument => Register::Argument(number),
        Numbered::Expression => Register::Expression(number),
    }
}

/// The flags of a node of which nothing is told but whether it is certain.
fn pointer_flags(certain: bool) -> Flags
    ensures { flags_of result ≡ pointer_flags certain }
{
    Flags {
        heap: false,
        stack: false,
        global: false,
        array: false,
        modified: false,
        read: false,
        complete: false,
        certain,
    }
}

/// The formals of functions of a type.
fn formals_of(types: &TypeTable, c_type: CType) -> Option<Parameters>
    ensures stand { FormalsStand types.now result }
    ensures are { formals_in types.now result ≡ parameters_of (type_in types.now c_type) }
{
    match types.shape(types.number_of(c_type)) {
        Shape::Void => None,
        Shape::Integer(_) => None,
        Shape::Pointer(_) => None,
        Shape::Array { .. } => None,
        Shape::Struct(_) => None,
        Shape::Function { parameters, .. } => Some(parameters),
    }
}

/// Whether the first formal is a pointer to an object or to void, and the other formals.
fn split(types: &TypeTable, formals: Option<Parameters>) -> (bool, Option<Parameters>)
    requires { FormalsStand types.now formals }
    ensures stand { FormalsStand types.now result.1 }
    ensures first { result.0 ≡ is_pointer_there (first_of (formals_in types.now formals)) }
    ensures others { formals_in types.now result.1 ≡ others_of (formals_in types.now formals) }
{
    match formals {
        None => (false, None),
        Some(parameters) => match types.first_parameter(parameters) {
            None => (false, None),
            Some((first, others)) => (is_data_pointer(types, first), Some(others)),
        },
    }
}
