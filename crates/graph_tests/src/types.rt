// Tables of types for tests.

ghost use Rattle.std.specs.Prelude.{◌≡◌, Some, IfOk};
ghost use Rattle.c_typed.specs.Types as T;
ghost use Rattle.c_typed.specs.Table.{Stands, type_in, TagStands, tag_in};
ghost use Rattle.graph_tests.specs.Objects.{IsSized, AreSized, Adds, AreTypes};

use c_num::IntType;
use c_typed::{CType, Member, Shape, StructId, TypeTable};
use std::alloc::{AllocError, Global};

/// More slots than this can't be counted.
const MOST_SLOTS: u64 = 1 << 61;

/// A type, made of others by their places in a list.
#[derive(Clone, Copy)]
pub(crate) enum Row {
    Integer(IntType),
    Pointer(usize),
    Array(usize, u64),
    /// A structure by its tag, with two members.
    Pair(u8, usize, usize),
}

/// Types in the order in which they were made.
#[derive(Drop)]
pub(crate) struct Types {
    pub(crate) table: TypeTable,
    pub(crate) list: Vec<CType>,
}

impl Types {
    pub(crate) fn get(&self, index: usize) -> Result<CType, AllocError>
        requires { AreTypes self.now.table self.now.list.items }
        ensures { IfOk result (λ t. IsSized self.now.table t) }
    {
        at(&self.table, &self.list, index)
    }
}

/// The types of these rows.
pub(crate) fn build(alloc: Global, rows: &[Row]) -> Result<Types, AllocError>
    ensures { IfOk result (λ types. AreTypes types.table types.list.items) }
{
    let mut table = TypeTable::new(alloc);
    let mut list = Vec::new(alloc);
    for row in rows {
        let made = make(alloc, &mut table, &list, *row)?;
        list.push(made)?;
    }
    Ok(Types { table, list })
}

/// The type at a place of a list.
fn at(table: &TypeTable, list: &[CType], index: usize) -> Result<CType, AllocError>
    requires { AreSized table.now list.now }
    ensures { IfOk result (λ t. IsSized table.now t) }
{
    let _ = table;
    match list.get(index) {
        Some(t) => Ok(*t),
        None => Err(AllocError),
    }
}

/// The type of a row.
fn make(alloc: Global, table: &mut TypeTable, list: &[CType], row: Row) -> Result<CType, AllocError>
    requires { AreSized table.old list.now }
    ensures { IfOk result (λ t. Adds table.old table.new t) }
{
    match row {
        Row::Integer(t) => Ok(CType::integer(t)),
        Row::Pointer(index) => {
            let target = at(table, list, index)?;
            table.pointer_to(target)
        }
        Row::Array(index, length) => {
            let element = at(table, list, index)?;
            array(table, element, length)
        }
        Row::Pair(tag, first, second) => {
            let a = at(table, list, first)?;
            let b = at(table, list, second)?;
            pair(alloc, table, tag, a, b)
        }
    }
}

fn array(table: &mut TypeTable, element: CType, length: u64) -> Result<CType, AllocError>
    requires { IsSized table.old element }
    ensures { IfOk result (λ t. Adds table.old table.new t) }
{
    table.array_of(element, length)
}

fn member(alloc: Global, c_type: CType) -> Result<Member, AllocError>
    ensures { IfOk result (λ made. made.c_type ≡ Some c_type) }
{
    Ok(Member {
        name: Vec::from_slice(alloc, b"m")?,
        c_type: Some(c_type),
    })
}

/// The number of a structure's tag.
fn id_of(table: &TypeTable, t: CType) -> Result<StructId, AllocError>
    requires { Stands table.now t }
    ensures tag { IfOk result (λ id. TagStands table.now id) }
    ensures means { IfOk result (λ id. type_in table.now t ≡ T.Struct (tag_in table.now id)) }
{
    match table.shape(t) {
        Shape::Struct(id) => Ok(id),
        _ => Err(AllocError),
    }
}

/// A structure with two members.
fn pair(
    alloc: Global,
    table: &mut TypeTable,
    tag: u8,
    a: CType,
    b: CType,
) -> Result<CType, AllocError>
    requires a { IsSized table.old a }
    requires b { IsSized table.old b }
    ensures { IfOk result (λ t. Adds table.old table.new t) }
{
    let made = table.struct_type(&[tag])?;
    let id = id_of(table, made)?;
    if table.is_completed(id) {
        return Err(AllocError);
    }
    let first = member(alloc, a)?;
    let second = member(alloc, b)?;
    let members = vec![in alloc; first, second]?;
    table.complete(id, members)?;
    if table.slots(made) > MOST_SLOTS {
        return Err(AllocError);
    }
    Ok(made)
}
