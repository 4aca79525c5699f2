// Parts of types.

ghost use Rattle.std.specs.Prelude.{◌≡◌, ◌<◌, false, option_map};
ghost use Rattle.c_typed.specs.Types.{is_array, is_function};
ghost use Rattle.c_typed.specs.Layouts.{layouts, known_layout};
ghost use Rattle.c_typed.specs.Table.{Stands, KnownStands, TagStands, known_in, type_in, tag_in, structs_in};
ghost use Rattle.heap_graph.specs.Structures.{AreMade};
ghost use Rattle.heap_graph.specs.Parts as parts;
ghost use Rattle.heap_graph.specs.Searching.{IsElement, PointsTo, Leads, IsMemberOver};

use c_typed::{CType, Shape, StructId, TypeTable};

/// How many slots a type has.
pub fn slots_of(types: &TypeTable, t: CType) -> u64
    requires { Stands types.now t }
    ensures { result ≡ parts.slots_of (structs_in types.now) (type_in types.now t) }
{
    types.slots(t)
}

/// Whether a part of a type begins at a slot of another: the type itself at its first slot, or one of its parts.
pub fn has_part(types: &TypeTable, own: CType, slot: u64, part: CType) -> bool
    requires made { AreMade (structs_in types.now) }
    requires own { Stands types.now own }
    requires part { Stands types.now part }
    requires some { 0 < parts.slots_of (structs_in types.now) (type_in types.now part) }
    ensures { result ≡ parts.has_part (structs_in types.now) (type_in types.now own) slot (type_in types.now part) }
{
    let mut whole = own;
    let mut at = slot;
    while !begins(types, whole, at, part) {
        let Some((next, rest)) = lead(types, whole, at) else {
            return false;
        };
        whole = next;
        at = rest;
    }
    true
}

/// Whether the slot is a type's first and the type is the part's.
fn begins(types: &TypeTable, own: CType, slot: u64, part: CType) -> bool
    requires own { Stands types.now own }
    requires part { Stands types.now part }
    ensures { result ≡ parts.begins (type_in types.now own) slot (type_in types.now part) }
{
    slot == 0 && alike(types, own, part)
}

/// The element or the member of a type in which the parts at a slot lie, and the slot there.
fn lead(types: &TypeTable, own: CType, slot: u64) -> Option<(CType, u64)>
    requires made { AreMade (structs_in types.now) }
    requires own { Stands types.now own }
    ensures { Leads types.now (type_in types.now own) slot result }
{
    match types.shape(own) {
        Shape::Array { element, .. } => Some((element, slot)),
        Shape::Struct(id) => match member_over(types, id, slot) {
            Some((member, front)) => Some((member, slot - front)),
            None => None,
        },
        Shape::Void => None,
        Shape::Integer(_) => None,
        Shape::Pointer(_) => None,
        Shape::Function { .. } => None,
    }
}

/// Whether two types are the same in graphs, where there are two types of pointers.
pub fn alike(types: &TypeTable, a: CType, b: CType) -> bool
    requires a { Stands types.now a }
    requires b { Stands types.now b }
    ensures { result ≡ parts.alike (type_in types.now a) (type_in types.now b) }
{
    let mut one = a;
    let mut other = b;
    while let Some((element, length)) = element_of(types, one) {
        let Some((inner, count)) = element_of(types, other) else {
            return false;
        };
        if length != count {
            return false;
        }
        one = element;
        other = inner;
    }
    alike_but_arrays(types, one, other)
}

/// The same, where the first is no array.
fn alike_but_arrays(types: &TypeTable, a: CType, b: CType) -> bool
    requires a { Stands types.now a }
    requires b { Stands types.now b }
    requires plain { is_array (type_in types.now a) ≡ false }
    ensures { result ≡ parts.alike (type_in types.now a) (type_in types.now b) }
{
    let Some(one) = points_to_function(types, a) else {
        return types.same(a, b);
    };
    let Some(other) = points_to_function(types, b) else {
        return false;
    };
    one == other
}

/// The type of an array's elements, and their number.
fn element_of(types: &TypeTable, t: CType) -> Option<(CType, u64)>
    requires { Stands types.now t }
    ensures { IsElement types.now (type_in types.now t) result }
{
    match types.shape(t) {
        Shape::Array { element, length } => Some((element, length)),
        Shape::Struct(_) => None,
        Shape::Void => None,
        Shape::Integer(_) => None,
        Shape::Pointer(_) => None,
        Shape::Function { .. } => None,
    }
}

/// Of a pointer, whether it points to functions.
fn points_to_function(types: &TypeTable, t: CType) -> Option<bool>
    requires { Stands types.now t }
    ensures { PointsTo (type_in types.now t) result }
{
    match types.shape(t) {
        Shape::Pointer(target) => Some(is_a_function(types, target)),
        Shape::Array { .. } => None,
        Shape::Struct(_) => None,
        Shape::Void => None,
        Shape::Integer(_) => None,
        Shape::Function { .. } => None,
    }
}

fn is_a_function(types: &TypeTable, t: CType) -> bool
    requires { Stands types.now t }
    ensures { result ≡ is_function (type_in types.now t) }
{
    match types.shape(t) {
        Shape::Function { .. } => true,
        Shape::Array { .. } => false,
        Shape::Struct(_) => false,
        Shape::Void => false,
        Shape::Integer(_) => false,
        Shape::Pointer(_) => false,
    }
}

/// The type of the member of a structure that has a slot, and the slots in front of it.
fn member_over(types: &TypeTable, id: StructId, slot: u64) -> Option<(CType, u64)>
    requires made { AreMade (structs_in types.now) }
    requires id { TagStands types.now id }
    ensures { IsMemberOver types.now (tag_in types.now id) slot result }
{
    let mut front = 0;
    let mut number = 0;
    while let Some(member) = types.member_at(id, number) {
        let slots = member_slots(types, member);
        if slot - front < slots {
            return with_front(member, front);
        }
        front += slots;
        number += 1;
    }
    None
}

/// The type of a member, where it has one, and the slots in front of it.
fn with_front(member: Option<CType>, front: u64) -> Option<(CType, u64)>
    ensures { result ≡ option_map (λ t. (t, front)) member }
{
    match member {
        Some(t) => Some((t, front)),
        None => None,
    }
}

/// How many slots a member has, where it has a type.
fn member_slots(types: &TypeTable, member: Option<CType>) -> u64
    requires { KnownStands types.now member }
    ensures { result ≡ (known_layout (layouts (structs_in types.now)) (known_in types.now.tags types.now.entries member)).slots }
{
    match member {
        Some(t) => types.slots(t),
        None => 0,
    }
}
