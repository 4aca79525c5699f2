// Parts without slots: arrays of what has no size. They lie in arrays alone.

ghost use Rattle.std.specs.Prelude.{◌≡◌, true, List};
ghost use Rattle.c_typed.specs.Table.{structs_in, type_in};
ghost use Rattle.c_typed.specs.Sizes.{are_filled};
ghost use Rattle.heap_graph.specs.Graphs as G;
ghost use Rattle.heap_graph.specs.Memory.{element_in};
ghost use Rattle.heap_graph.specs.Parts as P;
ghost use Rattle.heap_graph.specs.Structures.{AreMade};
ghost use Rattle.heap_graph.specs.Targets as T;

use c_typed::{CType, TypeTable};
use heap_graph::{Element, alike, element_type, is_array};

/// Whether an array without slots is a part that begins at a slot of a node's objects, or the node is collapsed.
pub(crate) fn holds_slotless(types: &TypeTable, array: CType, element: Element, shift: u64) -> bool
    requires made { AreMade (structs_in types.now) }
    requires filled { are_filled (structs_in types.now) ≡ true }
    requires array { T.is_array (type_in types.now array) ≡ true }
    requires none { P.slots_of (structs_in types.now) (type_in types.now array) ≡ 0 }
    ensures { (flags : G.Flags) (edges : List G.Edge) → result ≡ T.holds_part (structs_in types.now) (type_in types.now array) (record { element = element_in types.now element; flags = flags; edges = edges }) shift }
{
    match element {
        Element::Missing => false,
        Element::OfType(own) => has_slotless(types, own, shift, array),
        Element::Collapsed => true,
    }
}

/// Whether an array without slots is a part of a type that begins at a slot.
fn has_slotless(types: &TypeTable, own: CType, slot: u64, array: CType) -> bool
    requires made { AreMade (structs_in types.now) }
    requires filled { are_filled (structs_in types.now) ≡ true }
    requires array { T.is_array (type_in types.now array) ≡ true }
    requires none { P.slots_of (structs_in types.now) (type_in types.now array) ≡ 0 }
    ensures { result ≡ P.has_part (structs_in types.now) (type_in types.now own) slot (type_in types.now array) }
{
    let mut whole = own;
    while is_array(types, whole) {
        if begins(types, whole, slot, array) {
            return true;
        }
        whole = element_type(types, whole);
    }
    false
}

/// Whether the slot is a type's first and the type is the part's.
fn begins(types: &TypeTable, own: CType, slot: u64, part: CType) -> bool
    ensures { result ≡ P.begins (type_in types.now own) slot (type_in types.now part) }
{
    slot == 0 && alike(types, types.number_of(own), types.number_of(part))
}
