// What the table of types tells of any number: one that stands for no type is taken as `void`.

ghost use Rattle.std.specs.Prelude.{◌≡◌, ◌≤◌};
ghost use Rattle.c_typed.specs.Layouts as L;
ghost use Rattle.c_typed.specs.Table.{structs_in, type_in};
ghost use Rattle.tac_ir.specs.Layouts.{size_of};
ghost use Rattle.pool_rewrite.specs.Placing.{begins};
ghost use Rattle.pool_rewrite.specs.Rewritable.{layout_in_table, known_type};

use c_typed::{CType, TypeTable};

/// The size of an object of a type in bytes.
pub(crate) fn size_of(types: &TypeTable, c_type: CType) -> u64
    ensures { result ≡ size_of (structs_in types.now) (type_in types.now c_type) }
{
    types.size_of(types.number_of(c_type))
}

/// Where an object of a type begins that lies behind so many bytes (C17 6.2.8 paragraph 1).
pub(crate) fn begin_of(types: &TypeTable, c_type: CType, front: u64) -> u64
    requires { front ≤ L.greatest }
    ensures { result ≡ begins front (layout_in_table types.now c_type) }
{
    aligned(front, types.align_of(types.number_of(c_type)))
}

/// The least multiple of an alignment from a number on.
fn aligned(front: u64, alignment: u64) -> u64
    requires small { front ≤ L.greatest }
    requires least { 1 ≤ alignment }
    requires most { alignment ≤ 8 }
    ensures { result ≡ L.aligned alignment front }
{
    (front + alignment - 1) / alignment * alignment
}

/// The size of a type, where there is one.
pub(crate) fn known_size(types: &TypeTable, c_type: Option<CType>) -> u64
    ensures { result ≡ size_of (structs_in types.now) (known_type types.now c_type) }
{
    match c_type {
        Some(t) => size_of(types, t),
        None => 0,
    }
}
