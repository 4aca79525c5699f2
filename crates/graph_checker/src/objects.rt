// What heap graphs ask of locals in memory.

ghost use Rattle.std.specs.Prelude.{◌≡◌, ◌&&◌, map};
ghost use Rattle.c_typed.specs.Table.{structs_in, type_in};
ghost use Rattle.tac_ir.specs.States.{Owner};
ghost use Rattle.tac_ir.specs.Views.{object_in};
ghost use Rattle.heap_graph.specs.Closed.{Family, locals_closed};
ghost use Rattle.heap_graph.specs.Memory.{flags_of};
ghost use Rattle.heap_graph.specs.Targets as T;
ghost use Rattle.heap_graph.specs.Structures.{AreMade};
ghost use Rattle.heap_graph.specs.Frozen.{bare, optional_target, node_in};
ghost use Rattle.heap_graph.specs.Shows.{ShowsGraph, ShowsNames};
ghost use Rattle.graph_checker.specs.Objects.{kept_at, is_object, HasSlot, ObjectsHaveSlots};

use c_typed::{CType, TypeTable};
use heap_graph::{
    Flags, FrozenGraph, FunctionNames, Node, Target, elements_of, holds_part, is_array,
};
use tac_ir::LocalObject;

/// Where an object is: in a function's frame, or outside functions.
#[derive(Clone, Copy)]
pub(crate) enum Place {
    Frame,
    Static,
}

/// Whether each local in memory is an object of its target's node.
pub fn locals_closed(
    types: &TypeTable,
    graph: &FrozenGraph,
    names: &FunctionNames,
    objects: &[LocalObject],
) -> bool
    requires made { AreMade (structs_in types.now) }
    requires some { ObjectsHaveSlots (structs_in types.now) (map (λ object. type_in types.now object.c_type) objects.now) }
    ensures { (family : Family) (owner : Owner) → ShowsGraph types.now family owner graph.now → ShowsNames family owner names.now → result ≡ locals_closed family owner (map (object_in types.now) objects.now) }
{
    for object in objects {
        let target = names.object(object.local);
        if !object_closed(types, graph, object.c_type, Place::Frame, target) {
            return false;
        }
    }
    true
}

/// Whether an object is one of its target's node: its type, or that of its elements, is a part.
pub(crate) fn object_closed(
    types: &TypeTable,
    graph: &FrozenGraph,
    c_type: CType,
    place: Place,
    target: Option<Target>,
) -> bool
    requires made { AreMade (structs_in types.now) }
    requires some { HasSlot (structs_in types.now) (type_in types.now c_type) }
    ensures { result ≡ is_object (structs_in types.now) (bare types.now graph.now) (type_in types.now c_type) (kept_at place) (optional_target target) }
{
    match target {
        None => false,
        Some(target) => match graph.node(target.node) {
            None => false,
            Some(node) => is_of_node(types, c_type, place, node, target.shift),
        },
    }
}

/// Whether an object may begin at a slot of a node's objects.
fn is_of_node(types: &TypeTable, c_type: CType, place: Place, node: &Node, shift: u64) -> bool
    requires made { AreMade (structs_in types.now) }
    requires some { HasSlot (structs_in types.now) (type_in types.now c_type) }
    ensures { result ≡ (T.holds_part (structs_in types.now) (T.elements_of (type_in types.now c_type)) (node_in types.now node.now) shift && (kept_at place (flags_of node.now.flags) && T.implies (T.is_array (type_in types.now c_type)) node.now.flags.array)) }
{
    is_part(types, c_type, node, shift) && is_kept(types, c_type, place, node.flags)
}

/// Whether an object's type, or that of its elements, is a part of a node's objects at a slot.
fn is_part(types: &TypeTable, c_type: CType, node: &Node, shift: u64) -> bool
    requires made { AreMade (structs_in types.now) }
    requires some { HasSlot (structs_in types.now) (type_in types.now c_type) }
    ensures { result ≡ T.holds_part (structs_in types.now) (T.elements_of (type_in types.now c_type)) (node_in types.now node.now) shift }
{
    holds_part(types, elements_of(types, c_type), node.element, shift)
}

/// Whether a node's objects may be there, and elements of arrays where the object is an array.
fn is_kept(types: &TypeTable, c_type: CType, place: Place, flags: Flags) -> bool
    ensures { result ≡ (kept_at place (flags_of flags) && T.implies (T.is_array (type_in types.now c_type)) flags.array) }
{
    let is_there = match place {
        Place::Frame => flags.stack,
        Place::Static => flags.global,
    };
    is_there && (!is_array(types, c_type) || flags.array)
}
