// Steps within an object.

ghost use Rattle.std.specs.Prelude.{◌≡◌, ◌<◌, ◌^◌, map};
ghost use Rattle.std.specs.List.{list_any};
ghost use Rattle.c_typed.specs.Table.{structs_in, type_in};
ghost use Rattle.tac_ir.specs.Views.{step_of};
ghost use Rattle.heap_graph.specs.Points as P;
ghost use Rattle.graph_unification.specs.Fits.{slots_to};

use c_typed::{CType, TypeTable};
use heap_graph::{element_type, slots_before, type_of_member};
use tac_ir::Step;

/// Whether a path has a member.
pub(crate) fn has_member(steps: &[Step]) -> bool
    ensures { result ≡ list_any P.is_member (map step_of steps.now) }
{
    for step in steps {
        match step {
            Step::Member(_) => return true,
            Step::Element(_) => (),
        }
    }
    false
}

/// Whether a path has an element of an array.
pub(crate) fn has_element(steps: &[Step]) -> bool
    ensures { result ≡ list_any P.is_element (map step_of steps.now) }
{
    for step in steps {
        match step {
            Step::Element(_) => return true,
            Step::Member(_) => (),
        }
    }
    false
}

/// How many slots lie in front of the part to which steps lead.
pub(crate) fn slots_to(types: &TypeTable, steps: &[Step], c_type: CType) -> u64
    requires small { slots_to (structs_in types.now) (map step_of steps.now) (type_in types.now c_type) < 2 ^ 64 }
    ensures { result ≡ slots_to (structs_in types.now) (map step_of steps.now) (type_in types.now c_type) }
{
    let mut slots = 0;
    let mut own = c_type;
    for step in steps {
        match step {
            Step::Member(number) => {
                slots += slots_before(types, own, *number);
                own = type_of_member(types, own, *number);
            }
            Step::Element(_) => own = element_type(types, own),
        }
    }
    slots
}
