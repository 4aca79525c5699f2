// Parts of objects.

ghost use Rattle.std.specs.Prelude.{◌≡◌, ℕ, ◌+◌, ◌<◌, ◌^◌, IfSome};
ghost use Rattle.c_typed.specs.Table.{structs_in};
ghost use Rattle.heap_graph.specs.Targets as G;
ghost use Rattle.heap_graph.specs.Frozen.{bare};
ghost use Rattle.heap_graph.specs.TargetParts.Parts.{part_in};

use crate::frozen::FrozenGraph;
use crate::graph::Target;
use crate::targets::{Reached, shifted};
use crate::types::{element_type, slots_before, type_of_member};
use c_typed::{CType, TypeTable};

/// An object: its target and its type, `void` where that isn't known.
#[derive(Clone, Copy)]
pub struct Root {
    pub target: Option<Target>,
    pub c_type: CType,
}

/// A part of an object: where it begins, and its type.
#[derive(Clone, Copy)]
pub struct Part {
    pub target: Option<Reached>,
    pub c_type: CType,
}

/// The member of this number.
pub fn member_part(types: &TypeTable, graph: &FrozenGraph, part: Part, number: u32) -> Part
    requires { IfSome part.target (λ r. r.shift + 2 ^ 62 < 2 ^ 128) }
    ensures is { part_in types.now result ≡ G.member_part (structs_in types.now) (bare types.now graph.now) number (part_in types.now part) }
    ensures small { (bound : ℕ) → IfSome part.target (λ r. r.shift + 2 ^ 62 < bound) → IfSome result.target (λ r. r.shift < bound) }
{
    let slots = slots_before(types, part.c_type, number);
    Part {
        target: shifted(graph, slots, part.target),
        c_type: type_of_member(types, part.c_type, number),
    }
}

/// The elements of the array.
pub fn element_part(types: &TypeTable, part: Part) -> Part
    ensures is { part_in types.now result ≡ G.element_part (part_in types.now part) }
    ensures same { result.target ≡ part.target }
{
    Part {
        target: part.target,
        c_type: element_type(types, part.c_type),
    }
}
