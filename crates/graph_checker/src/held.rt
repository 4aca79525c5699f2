// What the objects of a node are told to be.

ghost use Rattle.std.specs.Prelude.{◌≡◌, true};
ghost use Rattle.c_typed.specs.Layouts.{is_complete};
ghost use Rattle.c_typed.specs.Table.{structs_in, type_in};
ghost use Rattle.c_typed.specs.Sizes.{are_filled};
ghost use Rattle.tac_ir.specs.Views.{tree_of};
ghost use Rattle.heap_graph.specs.Targets as G;
ghost use Rattle.heap_graph.specs.Memory.{element_in};
ghost use Rattle.heap_graph.specs.Structures.{AreMade};
ghost use Rattle.heap_graph.specs.Frozen.{bare, optional_target, node_in};
ghost use Rattle.graph_checker.specs.Held.{is_allocation, is_size_of};

use crate::slotless::holds_slotless;
use c_typed::{CType, TypeTable};
use heap_graph::{
    Element, FrozenGraph, Node, Target, constant_of, holds_part, is_complete, size_of, slots_of,
};
use tac_ir::Tree;

/// Whether what a pointer to a type tells is so where it points to.
pub fn points_to(
    types: &TypeTable,
    graph: &FrozenGraph,
    told: CType,
    target: Option<Target>,
) -> bool
    requires made { AreMade (structs_in types.now) }
    requires filled { are_filled (structs_in types.now) ≡ true }
    ensures { result ≡ G.points_to (structs_in types.now) (bare types.now graph.now) (type_in types.now told) (optional_target target) }
{
    if !is_complete(types, told) {
        return true;
    }
    match target {
        None => true,
        Some(target) => match graph.node(target.node) {
            None => false,
            Some(node) => holds_complete(types, told, node, target.shift),
        },
    }
}

/// Whether a part of a complete type begins at a slot of a node's objects, or the node is collapsed.
fn holds_complete(types: &TypeTable, told: CType, node: &Node, shift: u64) -> bool
    requires made { AreMade (structs_in types.now) }
    requires filled { are_filled (structs_in types.now) ≡ true }
    requires complete { is_complete (structs_in types.now) (type_in types.now told) ≡ true }
    ensures { result ≡ G.holds_part (structs_in types.now) (type_in types.now told) (node_in types.now node.now) shift }
{
    if slots_of(types, types.number_of(told)) == 0 {
        holds_slotless(types, told, node.element, shift)
    } else {
        holds_part(types, told, node.element, shift)
    }
}

/// Whether a target's objects may be allocations of a size: of an array's elements, unless the size is that of one object.
pub fn is_allocated(
    types: &TypeTable,
    graph: &FrozenGraph,
    target: Option<Target>,
    size: &Tree,
) -> bool
    ensures { result ≡ is_allocation (structs_in types.now) (bare types.now graph.now) (optional_target target) (tree_of size.now) }
{
    match target {
        None => false,
        Some(target) => match graph.node(target.node) {
            None => false,
            Some(node) => {
                node.flags.heap && (is_size_of(types, size, node.element) || node.flags.array)
            }
        },
    }
}

/// Whether a size is a constant, that of an object of the type.
fn is_size_of(types: &TypeTable, size: &Tree, element: Element) -> bool
    ensures { result ≡ is_size_of (structs_in types.now) (tree_of size.now) (element_in types.now element) }
{
    match element {
        Element::Missing => false,
        Element::OfType(c_type) => match constant_of(size) {
            None => false,
            Some(value) => value == i128::from(size_of(types, c_type)),
        },
        Element::Collapsed => false,
    }
}
