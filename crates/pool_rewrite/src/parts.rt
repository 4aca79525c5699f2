// Where parts of static objects lie.

ghost use Rattle.std.specs.Prelude.{◌≡◌, ◌≤◌};
ghost use Rattle.c_typed.specs.Layouts.{greatest};
ghost use Rattle.c_typed.specs.Table.{structs_in};
ghost use Rattle.tac_ir.specs.Layouts as T;
ghost use Rattle.pool_rewrite.specs.Made.{IsInner, inner_in};
ghost use Rattle.pool_rewrite.specs.Firsts.{PartFits, PartsFit, whole_of, element_in};

use crate::paths::{Inner, member_place};
use crate::sizes::size_of;
use c_typed::{CType, Part, Shape, TypeTable};

/// The element with this index in the row to which steps lead from an object of a type.
pub(crate) fn element_of_row(
    types: &TypeTable,
    c_type: CType,
    parts: &[Part],
    index: u64,
) -> Option<Inner>
    requires { PartsFit (structs_in types.now) parts.now index (whole_of types.now c_type) }
    ensures { IsInner types.now (element_in (structs_in types.now) (whole_of types.now c_type) parts.now index) result }
{
    let mut inner = Inner { offset: 0, c_type };
    for part in parts {
        inner = part_of(types, inner, *part)?;
    }
    Some(moved(types, inner, index))
}

/// The element so many places behind one.
fn moved(types: &TypeTable, inner: Inner, index: u64) -> Inner
    requires { (T.moved (structs_in types.now) index (inner_in types.now inner)).offset ≤ greatest }
    ensures { inner_in types.now result ≡ T.moved (structs_in types.now) index (inner_in types.now inner) }
{
    Inner {
        offset: inner.offset + index * size_of(types, inner.c_type),
        c_type: inner.c_type,
    }
}

/// The row to which a step leads from an element of a row.
fn part_of(types: &TypeTable, inner: Inner, part: Part) -> Option<Inner>
    requires { PartFits (structs_in types.now) part (inner_in types.now inner) }
    ensures { IsInner types.now (T.part_of (structs_in types.now) part (inner_in types.now inner)) result }
{
    match part {
        Part::Member { index, number } => member_of(types, moved(types, inner, index), number),
        Part::Elements { index } => elements_of(types, moved(types, inner, index)),
    }
}

fn member_of(types: &TypeTable, whole: Inner, number: u32) -> Option<Inner>
    requires { whole.offset ≤ greatest }
    ensures { IsInner types.now (T.member_of (structs_in types.now) number (inner_in types.now whole)) result }
{
    let member = member_place(types, Some(whole.c_type), number)?;
    Some(Inner {
        offset: whole.offset + member.offset,
        c_type: member.c_type,
    })
}

fn elements_of(types: &TypeTable, whole: Inner) -> Option<Inner>
    ensures { IsInner types.now (T.element_of (structs_in types.now) 0 (inner_in types.now whole)) result }
{
    match types.shape(types.number_of(whole.c_type)) {
        Shape::Array { element, .. } => Some(Inner {
            offset: whole.offset,
            c_type: element,
        }),
        _ => None,
    }
}
