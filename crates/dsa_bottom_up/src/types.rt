// Types that are made of others.

ghost use Rattle.std.specs.Prelude.{◌≡◌, slice_get, map};
ghost use Rattle.c_typed.specs.Types.{decayed};
ghost use Rattle.c_typed.specs.Table.{Interned, type_in, HasShape, shape_type, structs_in};
ghost use Rattle.c_typed.specs.Expressions.{member_of};
ghost use Rattle.dsa_bottom_up.specs.ExpressionTypes.{type_or_void, target_of, returned_by, library_type};

use c_num::IntType;
use c_typed::{CType, LibraryFunction, Shape, TypeTable};

/// What a type is; `void` where the number stands for none.
pub(crate) fn shape_of(types: &TypeTable, c_type: CType) -> Shape
    ensures { HasShape types.now (type_in types.now c_type) result }
{
    types.shape(types.number_of(c_type))
}

/// What an object is as a value (C17 6.3.2.1 paragraph 3).
pub(crate) fn decayed(types: &TypeTable, c_type: CType) -> Shape
    ensures { shape_type types.now result ≡ decayed (type_in types.now c_type) }
{
    match shape_of(types, c_type) {
        Shape::Array { element, .. } => Shape::Pointer(element),
        Shape::Function { .. } => Shape::Pointer(c_type),
        shape => shape,
    }
}

/// What a pointer points to.
pub(crate) fn target(shape: Shape) -> CType
    ensures { (table : Interned) → type_in table result ≡ target_of (shape_type table shape) }
{
    match shape {
        Shape::Pointer(target) => target,
        _ => CType::VOID,
    }
}

/// What a function returns.
pub(crate) fn returned(types: &TypeTable, c_type: CType) -> Shape
    ensures { shape_type types.now result ≡ returned_by (type_in types.now c_type) }
{
    match shape_of(types, c_type) {
        Shape::Function {
            result: returned,
            ..
        } => shape_of(types, returned),
        _ => Shape::Void,
    }
}

/// What a library function returns.
pub(crate) fn library_returned(function: LibraryFunction) -> Shape
    ensures { (table : Interned) → shape_type table result ≡ library_type function }
{
    match function {
        LibraryFunction::Malloc => Shape::Pointer(CType::VOID),
        LibraryFunction::Free => Shape::Void,
        LibraryFunction::GetChar => Shape::Integer(IntType::Int),
        LibraryFunction::PutChar => Shape::Integer(IntType::Int),
        LibraryFunction::Exit => Shape::Void,
    }
}

/// The type of the member with this number of a structure (C17 6.5.2.3).
pub(crate) fn member(types: &TypeTable, c_type: CType, number: u32) -> CType
    ensures { type_in types.now result ≡ type_or_void (member_of (structs_in types.now) number (type_in types.now c_type)) }
{
    match shape_of(types, c_type) {
        Shape::Struct(id) => match types.member_at(id, number as usize) {
            Some(c_type) => c_type.unwrap_or(CType::VOID),
            None => CType::VOID,
        },
        _ => CType::VOID,
    }
}

/// The type of the local with a number.
pub(crate) fn local(scope: &[CType], number: usize) -> CType
    ensures { (table : Interned) → type_in table result ≡ type_or_void (slice_get (map (type_in table) scope.now) number) }
{
    match scope.get(number) {
        Some(c_type) => *c_type,
        None => CType::VOID,
    }
}
