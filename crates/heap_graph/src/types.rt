// What the table of types tells of any number: one that stands for no type is taken as `void`.

ghost use Rattle.std.specs.Prelude.{◌≡◌, ◌≤◌};
ghost use Rattle.c_typed.specs.Layouts as L;
ghost use Rattle.c_typed.specs.Table.{structs_in, type_in};
ghost use Rattle.tac_ir.specs.Layouts as T;
ghost use Rattle.tac_ir.specs.Views.{scalar_in};
ghost use Rattle.heap_graph.specs.Targets as G;
ghost use Rattle.heap_graph.specs.Points as P;
ghost use Rattle.heap_graph.specs.Types.{is_function};

use c_typed::{CType, Shape, Step, TypeTable};
use tac_ir::Scalar;

/// The size of an object of a type in bytes.
pub fn size_of(types: &TypeTable, c_type: CType) -> u64
    ensures { result ≡ T.size_of (structs_in types.now) (type_in types.now c_type) }
{
    types.size_of(types.number_of(c_type))
}

/// Whether it is an object type whose size is known.
pub fn is_complete(types: &TypeTable, c_type: CType) -> bool
    ensures { result ≡ L.is_complete (structs_in types.now) (type_in types.now c_type) }
{
    types.is_complete(types.number_of(c_type))
}

/// Whether it is a type of functions.
pub fn is_function(types: &TypeTable, c_type: CType) -> bool
    ensures { result ≡ is_function (type_in types.now c_type) }
{
    match types.shape(types.number_of(c_type)) {
        Shape::Void => false,
        Shape::Integer(_) => false,
        Shape::Pointer(_) => false,
        Shape::Array { .. } => false,
        Shape::Struct(_) => false,
        Shape::Function { .. } => true,
    }
}

/// Whether it is a pointer to an object or to void.
pub fn is_data_pointer(types: &TypeTable, c_type: CType) -> bool
    ensures { result ≡ P.is_data_pointer (type_in types.now c_type) }
{
    match types.shape(types.number_of(c_type)) {
        Shape::Void => false,
        Shape::Integer(_) => false,
        Shape::Pointer(target) => !is_function(types, target),
        Shape::Array { .. } => false,
        Shape::Struct(_) => false,
        Shape::Function { .. } => false,
    }
}

/// Whether a scalar in memory is a pointer to an object or to void.
pub fn is_data_scalar(types: &TypeTable, scalar: Scalar) -> bool
    ensures { result ≡ P.is_data_pointer (scalar_in types.now scalar) }
{
    match scalar {
        Scalar::Integer(_) => false,
        Scalar::Pointer(target) => !is_function(types, target),
    }
}

/// Whether it is an array.
pub fn is_array(types: &TypeTable, c_type: CType) -> bool
    ensures { result ≡ G.is_array (type_in types.now c_type) }
{
    match types.shape(types.number_of(c_type)) {
        Shape::Void => false,
        Shape::Integer(_) => false,
        Shape::Pointer(_) => false,
        Shape::Array { .. } => true,
        Shape::Struct(_) => false,
        Shape::Function { .. } => false,
    }
}

/// The type of an array's elements, or `void`.
pub fn element_type(types: &TypeTable, c_type: CType) -> CType
    ensures { type_in types.now result ≡ G.element_type (type_in types.now c_type) }
{
    match types.shape(types.number_of(c_type)) {
        Shape::Void => CType::VOID,
        Shape::Integer(_) => CType::VOID,
        Shape::Pointer(_) => CType::VOID,
        Shape::Array { element, .. } => element,
        Shape::Struct(_) => CType::VOID,
        Shape::Function { .. } => CType::VOID,
    }
}

/// What an object of a type has as elements: those of an array, or itself.
pub fn elements_of(types: &TypeTable, c_type: CType) -> CType
    ensures { type_in types.now result ≡ G.elements_of (type_in types.now c_type) }
{
    match types.shape(types.number_of(c_type)) {
        Shape::Void => c_type,
        Shape::Integer(_) => c_type,
        Shape::Pointer(_) => c_type,
        Shape::Array { element, .. } => element,
        Shape::Struct(_) => c_type,
        Shape::Function { .. } => c_type,
    }
}

/// How many slots lie in front of a structure's member.
pub fn slots_before(types: &TypeTable, c_type: CType, number: u32) -> u64
    ensures is { result ≡ G.slots_before (structs_in types.now) (type_in types.now c_type) number }
    ensures small { result ≤ L.greatest }
{
    types.slot_of(types.number_of(c_type), &[Step::Member(number)])
}

/// The type of a structure's member, or `void`.
pub fn type_of_member(types: &TypeTable, c_type: CType, number: u32) -> CType
    ensures { type_in types.now result ≡ G.type_of_member (structs_in types.now) (type_in types.now c_type) number }
{
    match types.shape(types.number_of(c_type)) {
        Shape::Void => CType::VOID,
        Shape::Integer(_) => CType::VOID,
        Shape::Pointer(_) => CType::VOID,
        Shape::Array { .. } => CType::VOID,
        Shape::Struct(id) => match types.member_at(id, number as usize) {
            None => CType::VOID,
            Some(None) => CType::VOID,
            Some(Some(member)) => member,
        },
        Shape::Function { .. } => CType::VOID,
    }
}
