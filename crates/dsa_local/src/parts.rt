// Steps from an object to a part of it.

ghost use Rattle.std.specs.Prelude.{◌≡◌, ◌<◌, ◌^◌, ◌==◌, ◌||◌, not, map};
ghost use Rattle.std.specs.List.{list_any};
ghost use Rattle.c_typed.specs.Table.{structs_in, type_in};
ghost use Rattle.heap_graph.specs.Points as P;
ghost use Rattle.graph_unification.specs.Fits.{slots_to};
ghost use Rattle.graph_unification.specs.GraphPremises.First.{step_in};
ghost use Rattle.dsa_local.specs.Moved.{moves};

use c_typed::{CType, Part, TypeTable};
use heap_graph::{element_type, slots_before, type_of_member};

/// Whether steps have a member.
pub fn has_member(parts: &[Part]) -> bool
    ensures { result ≡ list_any P.is_member (map step_in parts.now) }
{
    for part in parts {
        match part {
            Part::Member { .. } => return true,
            Part::Elements { .. } => (),
        }
    }
    false
}

/// How many slots lie in front of the part to which steps lead.
pub fn slots_to(types: &TypeTable, parts: &[Part], c_type: CType) -> u64
    requires small { slots_to (structs_in types.now) (map step_in parts.now) (type_in types.now c_type) < 2 ^ 64 }
    ensures { result ≡ slots_to (structs_in types.now) (map step_in parts.now) (type_in types.now c_type) }
{
    let mut slots = 0;
    let mut own = c_type;
    for part in parts {
        match part {
            Part::Member { number, .. } => {
                slots += slots_before(types, own, *number);
                own = type_of_member(types, own, *number);
            }
            Part::Elements { .. } => own = element_type(types, own),
        }
    }
    slots
}

/// Whether an element of a row other than the first is named, or one of an array.
pub fn is_moved(parts: &[Part], index: u64) -> bool
    ensures { result ≡ (list_any moves parts.now || not (index == 0)) }
{
    for part in parts {
        match part {
            Part::Member { index, .. } => {
                if *index != 0 {
                    return true;
                }
            }
            Part::Elements { .. } => return true,
        }
    }
    index != 0
}
