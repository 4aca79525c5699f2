// The names of types.

ghost use Rattle.std.specs.Prelude.{◌≡◌, ◌++◌, OnOk};
ghost use Rattle.c_typed.specs.Table.{Stands, type_in};
ghost use Rattle.heap_graph.specs.Memory.{element_in};
ghost use Rattle.graph_text.specs.Parts.{integer_text, innermost, base_text, lengths_text, type_text, element_text, IsArrayOf};

use crate::number::put_number;
use c_num::IntType;
use c_typed::{CType, Shape, TypeTable};
use heap_graph::Element;
use std::alloc::AllocError;

/// Appends the type of a node's element.
pub fn put_element(
    text: &mut Vec<u8>,
    table: &TypeTable,
    element: Element,
) -> Result<(), AllocError>
    ensures { OnOk result (text.new.items ≡ text.old.items ++ element_text (element_in table.now element)) }
{
    match element {
        Element::Missing => text.push(b'?')?,
        Element::OfType(c_type) => put_type(text, table, table.number_of(c_type))?,
        Element::Collapsed => text.push(b'*')?,
    }
    Ok(())
}

/// Appends the name of a type: what the elements are in the end, and then the lengths of arrays, the outermost first.
fn put_type(text: &mut Vec<u8>, table: &TypeTable, c_type: CType) -> Result<(), AllocError>
    requires { Stands table.now c_type }
    ensures { OnOk result (text.new.items ≡ text.old.items ++ type_text (type_in table.now c_type)) }
{
    put_base(text, table, innermost(table, c_type))?;
    put_lengths(text, table, c_type)
}

/// The elements of an array and their number.
fn array_of(table: &TypeTable, c_type: CType) -> Option<(CType, u64)>
    requires { Stands table.now c_type }
    ensures { IsArrayOf table.now (type_in table.now c_type) result }
{
    match table.shape(c_type) {
        Shape::Array { element, length } => Some((element, length)),
        _ => None,
    }
}

/// What the elements of arrays of arrays are in the end.
fn innermost(table: &TypeTable, c_type: CType) -> CType
    requires { Stands table.now c_type }
    ensures stands { Stands table.now result }
    ensures means { type_in table.now result ≡ innermost (type_in table.now c_type) }
{
    let mut inner = c_type;
    while let Some((element, _)) = array_of(table, inner) {
        inner = element;
    }
    inner
}

/// Appends the lengths of arrays of arrays.
fn put_lengths(text: &mut Vec<u8>, table: &TypeTable, c_type: CType) -> Result<(), AllocError>
    requires { Stands table.now c_type }
    ensures { OnOk result (text.new.items ≡ text.old.items ++ lengths_text (type_in table.now c_type)) }
{
    let mut inner = c_type;
    while let Some((element, length)) = array_of(table, inner) {
        text.push(b'[')?;
        put_number(text, length)?;
        text.push(b']')?;
        inner = element;
    }
    Ok(())
}

/// Appends the name of a type that is no array.
fn put_base(text: &mut Vec<u8>, table: &TypeTable, c_type: CType) -> Result<(), AllocError>
    requires { Stands table.now c_type }
    ensures { OnOk result (text.new.items ≡ text.old.items ++ base_text (type_in table.now c_type)) }
{
    match table.shape(c_type) {
        Shape::Void => text.extend_from_slice(b"void"),
        Shape::Integer(int_type) => text.extend_from_slice(integer_name(int_type).as_bytes()),
        Shape::Pointer(_) => text.extend_from_slice(b"pointer"),
        Shape::Array { .. } => Ok(()),
        Shape::Struct(id) => {
            text.extend_from_slice(b"struct ")?;
            text.extend_from_slice(table.tag(id))
        }
        Shape::Function { .. } => text.extend_from_slice(b"function"),
    }
}

/// The name of an integer type (C17 6.7.2 paragraph 2).
fn integer_name(int_type: IntType) -> &'static str
    ensures { result.now ≡ integer_text int_type }
{
    match int_type {
        IntType::Char => "char",
        IntType::UChar => "unsigned char",
        IntType::Short => "short",
        IntType::UShort => "unsigned short",
        IntType::Int => "int",
        IntType::UInt => "unsigned int",
        IntType::Long => "long",
        IntType::ULong => "unsigned long",
    }
}
