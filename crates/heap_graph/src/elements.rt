// What elements of nodes tell.

ghost use Rattle.std.specs.Prelude.{◌≡◌, ◌<◌, List};
ghost use Rattle.c_typed.specs.Table.{structs_in, type_in};
ghost use Rattle.heap_graph.specs.declared.graph.Element as memory_element;
ghost use Rattle.heap_graph.specs.Graphs as G;
ghost use Rattle.heap_graph.specs.Memory.{element_in};
ghost use Rattle.heap_graph.specs.Parts as P;
ghost use Rattle.heap_graph.specs.Structures.{AreMade};
ghost use Rattle.heap_graph.specs.Targets as T;
ghost use Rattle.heap_graph.specs.Elements.{HasSlots};

use crate::graph::Element;
use crate::part::{alike, has_part};
use c_typed::{CType, TypeTable};

/// Whether a part of a type begins at a slot of a node's objects, or the node is collapsed.
pub fn holds_part(types: &TypeTable, c_type: CType, element: Element, shift: u64) -> bool
    requires made { AreMade (structs_in types.now) }
    requires some { 0 < P.slots_of (structs_in types.now) (type_in types.now c_type) }
    ensures { (flags : G.Flags) (edges : List G.Edge) → result ≡ T.holds_part (structs_in types.now) (type_in types.now c_type) (record { element = element_in types.now element; flags = flags; edges = edges }) shift }
{
    match element {
        Element::Missing => false,
        Element::OfType(own) => has_part(
            types,
            types.number_of(own),
            shift,
            types.number_of(c_type),
        ),
        Element::Collapsed => true,
    }
}

/// Whether what one node's element tells is kept by another's at a slot: its type is a part there, and what is collapsed stays so.
pub fn element_kept(types: &TypeTable, old: Element, new: Element, shift: u64) -> bool
    requires made { AreMade (structs_in types.now) }
    requires some { HasSlots (structs_in types.now) (element_in types.now old) }
    ensures { (flags : G.Flags) (edges : List G.Edge) → result ≡ T.element_kept (structs_in types.now) (element_in types.now old) (record { element = element_in types.now new; flags = flags; edges = edges }) shift }
{
    match old {
        Element::Missing => true,
        Element::OfType(c_type) => holds_part(types, c_type, new, shift),
        Element::Collapsed => match new {
            Element::Missing => false,
            Element::OfType(_) => false,
            Element::Collapsed => true,
        },
    }
}

/// Whether both have types, and these aren't the same in graphs.
pub fn types_differ(types: &TypeTable, a: Element, b: Element) -> bool
    ensures { result ≡ T.types_differ (element_in types.now a) (element_in types.now b) }
{
    match a {
        Element::Missing => false,
        Element::OfType(one) => match b {
            Element::Missing => false,
            Element::OfType(other) => !alike(types, types.number_of(one), types.number_of(other)),
            Element::Collapsed => false,
        },
        Element::Collapsed => false,
    }
}
