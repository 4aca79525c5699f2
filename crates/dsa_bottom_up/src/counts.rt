// What is found of a tree.

ghost use Rattle.std.specs.Prelude.{◌≡◌, ◌+◌, IfOk};
ghost use Rattle.c_typed.specs.Table.{Interned, type_in, shape_type};
ghost use Rattle.dsa_bottom_up.specs.Counting.{point};

use crate::types::shape_of;
use c_typed::{CType, Shape, TypeTable};
use std::alloc::AllocError;

/// How many expressions of pointer, array or function type stand in a tree, and the type of the whole.
#[derive(Clone, Copy)]
pub(crate) struct Counted {
    pub(crate) count: u64,
    pub(crate) shape: Shape,
}

/// The same of an expression for an object or a function, whose type is in the table.
#[derive(Clone, Copy)]
pub(crate) struct CountedPlace {
    pub(crate) count: u64,
    pub(crate) c_type: CType,
}

impl Counted {
    pub(crate) fn new(shape: Shape, count: u64) -> Counted
        ensures shape { result.shape ≡ shape }
        ensures count { result.count ≡ count }
    {
        Counted { count, shape }
    }
}

impl CountedPlace {
    pub(crate) fn new(c_type: CType, count: u64) -> CountedPlace
        ensures c_type { result.c_type ≡ c_type }
        ensures count { result.count ≡ count }
    {
        CountedPlace { count, c_type }
    }
}

/// The sum of two counts. One that doesn't fit is want of memory: no program has so many nodes.
pub(crate) fn sum(first: u64, second: u64) -> Result<u64, AllocError>
    ensures { IfOk result (λ total. total ≡ first + second) }
{
    first.checked_add(second).ok_or(AllocError)
}

/// One for an expression that counts.
fn point(shape: Shape) -> u64
    ensures { (table : Interned) → result ≡ point (shape_type table shape) }
{
    match shape {
        Shape::Void => 0,
        Shape::Integer(_) => 0,
        Shape::Pointer(_) => 1,
        Shape::Array { .. } => 1,
        Shape::Struct(_) => 0,
        Shape::Function { .. } => 1,
    }
}

/// An expression of this type, with so many below it.
pub(crate) fn expression(shape: Shape, below: u64) -> Result<Counted, AllocError>
    ensures shape { IfOk result (λ counted. counted.shape ≡ shape) }
    ensures count { (table : Interned) → IfOk result (λ counted. counted.count ≡ point (shape_type table shape) + below) }
{
    let count = sum(point(shape), below)?;
    Ok(Counted { count, shape })
}

/// An expression of this type for an object, with so many below it.
pub(crate) fn place(
    types: &TypeTable,
    c_type: CType,
    below: u64,
) -> Result<CountedPlace, AllocError>
    ensures c_type { IfOk result (λ counted. counted.c_type ≡ c_type) }
    ensures count { IfOk result (λ counted. counted.count ≡ point (type_in types.now c_type) + below) }
{
    let count = sum(point(shape_of(types, c_type)), below)?;
    Ok(CountedPlace { count, c_type })
}
