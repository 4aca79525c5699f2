// Nodes of objects: locals in memory, variables outside functions, and literals.

ghost use Rattle.std.specs.Prelude.{◌≡◌, [], map, OnOk};
ghost use Rattle.c_typed.specs.Table.{structs_in, type_in};
ghost use Rattle.tac_ir.specs.Views.{object_in};
ghost use Rattle.heap_graph.specs.Targets as T;
ghost use Rattle.heap_graph.specs.Graphs.{OfType, OfGlobal, OfLiteral};
ghost use Rattle.heap_graph.specs.Memory.{element_in, ElementStands, flags_of};
ghost use Rattle.graph_unification.specs.Memory.{name_of, owner_of, graph_in, IsGraph};
ghost use Rattle.graph_unification.specs.Adding.{AddsMissing};
ghost use Rattle.graph_unification.specs.GraphNames.First.{local_flags, static_flags, object_node, HasSlot, ObjectsHaveSlots, AddsObjects};

use crate::graph::Graph;
use crate::name::Name;
use crate::names::add_missing;
use c_typed::{CType, TypeTable};
use heap_graph::{Element, Flags, elements_of, is_array};
use std::alloc::AllocError;
use tac_ir::{FunctionId, GlobalId, LiteralId, LocalObject};

/// Gives a variable outside functions a node, where it has no target yet.
pub fn add_global(
    graph: &mut Graph,
    types: &TypeTable,
    number: GlobalId,
    c_type: CType,
) -> Result<(), AllocError>
    requires graph { IsGraph types.now graph.old }
    requires slot { HasSlot (structs_in types.now) (type_in types.now c_type) }
    ensures graph { OnOk result (IsGraph types.now graph.new) }
    ensures adds { OnOk result (AddsMissing (graph_in types.now graph.old) (graph_in types.now graph.new) (OfGlobal number.0) (object_node (type_in types.now c_type) (static_flags (type_in types.now c_type)))) }
{
    let flags = static_flags(types, c_type);
    add_object(graph, types, Name::Global(number), c_type, flags)
}

/// Gives a literal a node, where it has no target yet.
pub fn add_literal(
    graph: &mut Graph,
    types: &TypeTable,
    number: LiteralId,
    c_type: CType,
) -> Result<(), AllocError>
    requires graph { IsGraph types.now graph.old }
    requires slot { HasSlot (structs_in types.now) (type_in types.now c_type) }
    ensures graph { OnOk result (IsGraph types.now graph.new) }
    ensures adds { OnOk result (AddsMissing (graph_in types.now graph.old) (graph_in types.now graph.new) (OfLiteral number.0) (object_node (type_in types.now c_type) (static_flags (type_in types.now c_type)))) }
{
    let flags = static_flags(types, c_type);
    add_object(graph, types, Name::Literal(number), c_type, flags)
}

/// Gives each local in memory a node, where it has no target yet.
pub(crate) fn add_objects(
    graph: &mut Graph,
    types: &TypeTable,
    owner: Option<FunctionId>,
    objects: &[LocalObject],
) -> Result<(), AllocError>
    requires graph { IsGraph types.now graph.old }
    requires slots { ObjectsHaveSlots (structs_in types.now) (map (λ object. type_in types.now object.c_type) objects.now) }
    ensures graph { OnOk result (IsGraph types.now graph.new) }
    ensures adds { OnOk result (AddsObjects (graph_in types.now graph.old) (graph_in types.now graph.new) (owner_of owner) (map (object_in types.now) objects.now)) }
{
    for object in objects {
        let name = Name::Object {
            function: owner,
            local: object.local,
        };
        let flags = local_flags(types, object.c_type);
        add_object(graph, types, name, object.c_type, flags)?;
    }
    Ok(())
}

/// Gives an object of a type a node, where it has no target yet.
fn add_object(
    graph: &mut Graph,
    types: &TypeTable,
    name: Name,
    c_type: CType,
    flags: Flags,
) -> Result<(), AllocError>
    requires graph { IsGraph types.now graph.old }
    requires slot { HasSlot (structs_in types.now) (type_in types.now c_type) }
    ensures graph { OnOk result (IsGraph types.now graph.new) }
    ensures adds { OnOk result (AddsMissing (graph_in types.now graph.old) (graph_in types.now graph.new) (name_of name) (object_node (type_in types.now c_type) (flags_of flags))) }
{
    let element = element_of(types, c_type);
    add_missing(graph, types, name, element, flags)
}

/// What is an element of an object of a type.
fn element_of(types: &TypeTable, c_type: CType) -> Element
    ensures stands { ElementStands types.now result }
    ensures is { element_in types.now result ≡ OfType (T.elements_of (type_in types.now c_type)) }
{
    Element::OfType(types.number_of(elements_of(types, c_type)))
}

/// The flags of a local in memory.
fn local_flags(types: &TypeTable, c_type: CType) -> Flags
    ensures { flags_of result ≡ local_flags (type_in types.now c_type) }
{
    Flags {
        heap: false,
        stack: true,
        global: false,
        array: is_array(types, c_type),
        modified: false,
        read: false,
        complete: false,
        certain: true,
    }
}

/// The flags of a variable outside functions or of a literal.
fn static_flags(types: &TypeTable, c_type: CType) -> Flags
    ensures { flags_of result ≡ static_flags (type_in types.now c_type) }
{
    Flags {
        heap: false,
        stack: false,
        global: true,
        array: is_array(types, c_type),
        modified: false,
        read: false,
        complete: false,
        certain: true,
    }
}
