// How two nodes lie to each other.

ghost use Rattle.std.specs.Prelude.{◌≡◌, ◌<◌};
ghost use Rattle.c_typed.specs.Table.{Stands, type_in, structs_in};
ghost use Rattle.heap_graph.specs.Structures.{AreMade};
ghost use Rattle.heap_graph.specs.Graphs.{OfType};
ghost use Rattle.heap_graph.specs.Memory.{element_in, ElementStands};
ghost use Rattle.heap_graph.specs.Merging.{slots};
ghost use Rattle.heap_graph.specs.Relations.{relation};
ghost use Rattle.graph_unification.specs.Lying.{relation_in};

use c_typed::{CType, TypeTable};
use heap_graph::{Element, has_part};

/// How two nodes lie to each other, of which two slots have to be one.
#[derive(Clone, Copy, Debug, PartialEq, Eq)]
pub(crate) enum Relation {
    /// The first lies in the second, behind so many of its slots.
    Inside(u64),
    /// The second lies in the first.
    Around(u64),
    /// They don't agree.
    Clashing,
}

/// How a node of an element lies to another, of which two slots have to be one.
pub(crate) fn relation_of(types: &TypeTable, a: Element, i: u64, b: Element, j: u64) -> Relation
    requires made { AreMade (structs_in types.now) }
    requires first { ElementStands types.now a }
    requires second { ElementStands types.now b }
    requires from { i < slots (structs_in types.now) (element_in types.now a) }
    requires to { j < slots (structs_in types.now) (element_in types.now b) }
    ensures { relation_in result ≡ relation (structs_in types.now) (element_in types.now a) i (element_in types.now b) j }
{
    match a {
        Element::Missing => Relation::Inside(j),
        Element::OfType(t) => match b {
            Element::Missing => Relation::Around(i),
            Element::OfType(u) => relation_of_types(types, t, i, u, j),
            Element::Collapsed => Relation::Clashing,
        },
        Element::Collapsed => match b {
            Element::Missing => Relation::Around(i),
            Element::OfType(_) => Relation::Clashing,
            Element::Collapsed => Relation::Inside(0),
        },
    }
}

/// That of nodes of two types.
fn relation_of_types(types: &TypeTable, t: CType, i: u64, u: CType, j: u64) -> Relation
    requires made { AreMade (structs_in types.now) }
    requires first { Stands types.now t }
    requires second { Stands types.now u }
    requires from { i < slots (structs_in types.now) (OfType (type_in types.now t)) }
    requires to { j < slots (structs_in types.now) (OfType (type_in types.now u)) }
    ensures { relation_in result ≡ relation (structs_in types.now) (OfType (type_in types.now t)) i (OfType (type_in types.now u)) j }
{
    if i <= j && has_part(types, u, j - i, t) {
        return Relation::Inside(j - i);
    }
    if j <= i && has_part(types, t, i - j, u) {
        return Relation::Around(i - j);
    }
    Relation::Clashing
}
