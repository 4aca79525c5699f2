// Calls within a group of functions, and out of it.

ghost use Rattle.std.specs.Prelude.{◌≡◌, ℕ, ◌&&◌, Option};
ghost use Rattle.c_typed.specs.Table.{type_in};
ghost use Rattle.tac_ir.specs.declared.register.Local.TheVariants as L;
ghost use Rattle.tac_ir.specs.declared.register.Register.TheVariants as R;
ghost use Rattle.tac_ir.specs.States.{Owner};
ghost use Rattle.heap_graph.specs.Closed as C;
ghost use Rattle.heap_graph.specs.Graphs as G;
ghost use Rattle.heap_graph.specs.Points as P;
ghost use Rattle.heap_graph.specs.Targets as T;
ghost use Rattle.heap_graph.specs.Frozen.{optional_target, register_target, bare, static_in};
ghost use Rattle.heap_graph.specs.Reached.{optional_reached};
ghost use Rattle.heap_graph.specs.Shows.{ShowsNames};
ghost use Rattle.graph_checker.specs.Images.{placed, AreFormals};
ghost use Rattle.graph_checker.specs.Calling.{DecidesInner, DecidesOuter};

use crate::call_statics::are_statics_closed;
use crate::images::{Places, image, place};
use c_typed::{CType, Shape, TypeTable};
use heap_graph::{
    FrozenGraph, FunctionNames, Reached, Target, has_target, is_at, is_data_pointer, same_target,
};
use indexmap::IndexMap;
use tac_ir::{Local, Register};

/// The function that calls: its group's graph and its names.
#[derive(Clone, Copy)]
pub struct Caller<'a> {
    pub types: &'a TypeTable,
    pub graph: &'a FrozenGraph,
    pub names: &'a FunctionNames,
}

/// The function that is called: its group's graph, its names and its type.
#[derive(Clone, Copy)]
pub struct Called<'a> {
    pub graph: &'a FrozenGraph,
    pub names: &'a FunctionNames,
    pub c_type: CType,
}

/// Whether a call within a group uses the nodes of the function that is called.
pub fn inner_call(
    caller: Caller<'_>,
    called: &FunctionNames,
    c_type: CType,
    site: usize,
    arguments: &[Register],
) -> bool
    ensures { DecidesInner caller.entry called.now c_type site arguments.now result }
{
    are_passed(caller, called, Places::Same, c_type, arguments)
        && is_shared(caller, called, c_type, site)
}

/// Whether a call out of a group uses the images of the nodes that escape the function that is called. `globals` and `literals` are the
/// numbers of the program's variables outside functions and literals.
pub fn outer_call(
    caller: Caller<'_>,
    called: Called<'_>,
    embedding: &IndexMap<usize, Target>,
    globals: usize,
    literals: usize,
    site: usize,
    arguments: &[Register],
) -> bool
    ensures { DecidesOuter caller.entry called.entry embedding.now globals literals site arguments.now result }
{
    let graph = caller.graph;
    are_passed(
        caller,
        called.names,
        Places::Embedded(embedding),
        called.c_type,
        arguments,
    ) && is_taken(caller, called, embedding, site)
        && are_statics_closed(
            graph,
            &graph.globals,
            &called.graph.globals,
            embedding,
            globals,
        )
        && are_statics_closed(
            graph,
            &graph.literals,
            &called.graph.literals,
            embedding,
            literals,
        )
}

/// Whether each argument that is a pointer to an object or to void has a target, to which that of the formal comes.
fn are_passed(
    caller: Caller<'_>,
    called: &FunctionNames,
    places: Places<'_>,
    c_type: CType,
    arguments: &[Register],
) -> bool
    ensures { (family : C.Family) (owner : Owner) (formals : ℕ → Option G.Target) → ShowsNames family owner caller.entry.names.now
        → AreFormals (bare caller.entry.types.now caller.entry.graph.now) places.entry called.now formals
        → result ≡ C.arguments_closed family owner formals 0 (C.parameters_of (type_in caller.entry.types.now c_type)) arguments.now }
{
    let types = caller.types;
    let Shape::Function { parameters, .. } = types.shape(types.number_of(c_type)) else {
        return true;
    };
    let mut parameters = parameters;
    for (number, argument) in arguments.iter().enumerate() {
        let Some((first, others)) = types.first_parameter(parameters) else {
            return true;
        };
        let formal = called.register(Register::Local(Local::Parameter(number)));
        if !is_passed(
            caller,
            first,
            *argument,
            place(caller.graph, places, formal),
        ) {
            return false;
        }
        parameters = others;
    }
    true
}

/// Whether an argument has a target, to which that of the formal comes, where it is a pointer to an object or to void.
fn is_passed(caller: Caller<'_>, c_type: CType, argument: Register, formal: Option<Reached>) -> bool
    ensures { result ≡ T.implies (P.is_data_pointer (type_in caller.entry.types.now c_type))
        (T.has_target (register_target caller.entry.names.now argument) && T.same_target (register_target caller.entry.names.now argument) (optional_reached formal)) }
{
    if !is_data_pointer(caller.types, c_type) {
        return true;
    }
    let target = caller.names.register(argument);
    has_target(target) && is_at(target, formal)
}

/// Whether a call and the function that is called give the same target, where they give a pointer to an object or to void.
fn is_shared(caller: Caller<'_>, called: &FunctionNames, c_type: CType, site: usize) -> bool
    ensures { result ≡ T.implies (P.is_data_pointer (C.result_of (type_in caller.entry.types.now c_type)))
        (T.same_target (register_target caller.entry.names.now (R.Call site)) (optional_target called.now.returned)) }
{
    if !gives_data_pointer(caller.types, c_type) {
        return true;
    }
    same_target(caller.names.register(Register::Call(site)), called.returned)
}

/// Whether a call gives the image of what the function that is called gives, where this is a pointer to an object or to void with a target.
fn is_taken(
    caller: Caller<'_>,
    called: Called<'_>,
    embedding: &IndexMap<usize, Target>,
    site: usize,
) -> bool
    ensures { (returned : Option G.Target)
        → returned ≡ placed (bare caller.entry.types.now caller.entry.graph.now) (static_in embedding.now) (optional_target called.entry.names.now.returned)
        → result ≡ T.implies (P.is_data_pointer (C.result_of (type_in caller.entry.types.now called.entry.c_type)))
        (T.implies (T.has_target returned) (T.same_target (register_target caller.entry.names.now (R.Call site)) returned)) }
{
    if !gives_data_pointer(caller.types, called.c_type) {
        return true;
    }
    match image(caller.graph, embedding, called.names.returned) {
        None => true,
        Some(returned) => is_at(caller.names.register(Register::Call(site)), Some(returned)),
    }
}

/// Whether functions of a type give a pointer to an object or to void.
fn gives_data_pointer(types: &TypeTable, c_type: CType) -> bool
    ensures { result ≡ P.is_data_pointer (C.result_of (type_in types.now c_type)) }
{
    match types.shape(types.number_of(c_type)) {
        Shape::Void => false,
        Shape::Integer(_) => false,
        Shape::Pointer(_) => false,
        Shape::Array { .. } => false,
        Shape::Struct(_) => false,
        Shape::Function { result, .. } => is_data_pointer(types, result),
    }
}
