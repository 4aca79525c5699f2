// Sizes that were worked out by hand, by the rules of C17 6.2.8 and 6.7.2.1 with each scalar aligned to its size.

ghost use Rattle.std.specs.Prelude.{◌≡◌, false, Some, IfOk};
ghost use Rattle.c_typed.specs.Types as T;
ghost use Rattle.c_typed.specs.Layouts.{is_complete};
ghost use Rattle.c_typed.specs.Table.{Interned, structs_in, Stands, type_in, TagStands, tag_in};
ghost use Rattle.c_typed.specs.Kept.{IsObject};

use c_num::IntType;
use c_typed::{CType, Member, Shape, Step, StructId, TypeTable};
use std::alloc::{AllocError, Global};
use std::process::Abort;
use std::test::Fail;

/// How a type is made, of the types of other rows by their numbers; the members of a structure are `a`, `b` and `c`.
#[derive(Clone, Copy)]
enum Make {
    Integer(IntType),
    ToVoid,
    Array(usize, u64),
    Pair(&'static str, usize, usize),
    Triple(&'static str, usize, usize, usize),
}

const VOID_POINTER: usize = 0;

const CHAR: usize = 1;

const USHORT: usize = 2;

const INT: usize = 3;

const LONG: usize = 4;

const LARGE: usize = 5;

const SMALL: usize = 6;

const NESTED: usize = 7;

const CHARS: usize = 8;

const ROWS: usize = 9;

const SMALLS: usize = 10;

const AROUND: usize = 11;

const LONGS: usize = 12;

const ARRAYS: usize = 13;

const BOTH: usize = 14;

const WHOLE: usize = 15;

const GREATEST: u64 = 1 << 62;

/// Types, in the order in which they are made, with their sizes, alignments and slots.
const TYPES: [(usize, Make, (u64, u64, u64)); 16] = [
    (VOID_POINTER, Make::ToVoid, (8, 8, 1)),
    (CHAR, Make::Integer(IntType::Char), (1, 1, 1)),
    (USHORT, Make::Integer(IntType::UShort), (2, 2, 1)),
    (INT, Make::Integer(IntType::Int), (4, 4, 1)),
    (LONG, Make::Integer(IntType::Long), (8, 8, 1)),
    // struct large { char a; long b; char c; };
    (LARGE, Make::Triple("large", CHAR, LONG, CHAR), (24, 8, 3)),
    // struct small { char a; int b; };
    (SMALL, Make::Pair("small", CHAR, INT), (8, 4, 2)),
    // struct nested { char a; struct small b; char c; };
    (
        NESTED,
        Make::Triple("nested", CHAR, SMALL, CHAR),
        (16, 4, 4),
    ),
    // char[2][1048577]
    (CHARS, Make::Array(CHAR, 1048577), (1048577, 1, 1)),
    (ROWS, Make::Array(CHARS, 2), (2097154, 1, 1)),
    // struct small [3]
    (SMALLS, Make::Array(SMALL, 3), (24, 4, 2)),
    // struct around { struct small a[3]; char b; };
    (AROUND, Make::Pair("around", SMALLS, CHAR), (28, 4, 3)),
    // sizes end at 2^62
    (LONGS, Make::Array(LONG, u64::MAX), (GREATEST, 8, 1)),
    (ARRAYS, Make::Array(LONGS, u64::MAX), (GREATEST, 8, 1)),
    (BOTH, Make::Pair("both", ARRAYS, LONG), (GREATEST, 8, 2)),
    // struct whole { int a; struct small b[3]; char c; };
    (WHOLE, Make::Triple("whole", INT, SMALLS, CHAR), (32, 4, 4)),
];

/// The members of a type by how many stand before them, with their offsets and types.
const PLACES: [(usize, usize, Option<(u64, usize)>); 4] = [
    (LARGE, 1, Some((8, LONG))),
    (LARGE, 2, Some((16, CHAR))),
    (LARGE, 3, None),
    (CHAR, 0, None),
];

/// Parts of a type, each with the slot at which it begins.
const SLOTS: [(usize, &[Step], u64); 3] = [
    (
        WHOLE,
        &[Step::Member(1), Step::Element(2), Step::Member(1)],
        2,
    ),
    (WHOLE, &[Step::Member(2)], 3),
    (WHOLE, &[], 0),
];

/// An integer type.
fn integer(int_type: IntType) -> CType
    ensures { (table : Interned) → IsObject table result }
{
    CType::integer(int_type)
}

/// A type that was made.
fn of_row(table: &TypeTable, made: &[CType], row: usize) -> CType
    ensures { Stands table.now result }
{
    match made.get(row) {
        Some(t) => table.number_of(*t),
        None => table.number_of(CType::VOID),
    }
}

/// One that is a complete object type.
fn object(table: &TypeTable, made: &[CType], row: usize) -> Result<CType, AllocError>
    ensures { IfOk result (λ t. IsObject table.now t) }
{
    let t = of_row(table, made, row);
    if table.is_complete(t) {
        Ok(t)
    } else {
        Err(AllocError)
    }
}

/// The number of a structure's tag.
fn id_of(table: &TypeTable, t: CType) -> Result<StructId, AllocError>
    requires { Stands table.now t }
    ensures { IfOk result (λ id. TagStands table.now id) }
{
    match table.shape(t) {
        Shape::Struct(id) => Ok(id),
        _ => Err(AllocError),
    }
}

/// A structure that isn't completed, and the number of its tag.
fn open_structure(table: &mut TypeTable, tag: &str) -> Result<(CType, StructId), AllocError>
    ensures stands { IfOk result (λ made. TagStands table.new made.1) }
    ensures unfinished { IfOk result (λ made. is_complete (structs_in table.new) (T.Struct (tag_in table.new made.1)) ≡ false) }
{
    let made = table.struct_type(tag.as_bytes())?;
    let id = id_of(table, made)?;
    if table.is_completed(id) {
        return Err(AllocError);
    }
    Ok((made, id))
}

fn member(alloc: Global, name: &str, c_type: CType) -> Result<Member, AllocError>
    ensures { IfOk result (λ made. made.c_type ≡ Some c_type) }
{
    Ok(Member {
        name: Vec::from_slice(alloc, name.as_bytes())?,
        c_type: Some(c_type),
    })
}

/// A structure with members `a` and `b`.
fn pair(
    alloc: Global,
    table: &mut TypeTable,
    tag: &str,
    made: &[CType],
    a: usize,
    b: usize,
) -> Result<CType, AllocError> {
    let (whole, id) = open_structure(table, tag)?;
    let a = object(table, made, a)?;
    let b = object(table, made, b)?;
    let members = vec![in alloc; member(alloc, "a", a)?, member(alloc, "b", b)?]?;
    table.complete(id, members)?;
    Ok(whole)
}

/// A structure with members `a`, `b` and `c`.
fn triple(
    alloc: Global,
    table: &mut TypeTable,
    tag: &str,
    made: &[CType],
    a: usize,
    b: usize,
    c: usize,
) -> Result<CType, AllocError> {
    let (whole, id) = open_structure(table, tag)?;
    let a = object(table, made, a)?;
    let b = object(table, made, b)?;
    let c = object(table, made, c)?;
    let first = member(alloc, "a", a)?;
    let second = member(alloc, "b", b)?;
    let third = member(alloc, "c", c)?;
    let members = vec![in alloc; first, second, third]?;
    table.complete(id, members)?;
    Ok(whole)
}

fn made_of(
    alloc: Global,
    table: &mut TypeTable,
    made: &[CType],
    making: Make,
) -> Result<CType, AllocError> {
    match making {
        Make::Integer(int_type) => Ok(CType::integer(int_type)),
        Make::ToVoid => {
            let void = table.number_of(CType::VOID);
            table.pointer_to(void)
        }
        Make::Array(element, length) => {
            let element = object(table, made, element)?;
            table.array_of(element, length)
        }
        Make::Pair(tag, a, b) => pair(alloc, table, tag, made, a, b),
        Make::Triple(tag, a, b, c) => triple(alloc, table, tag, made, a, b, c),
    }
}

/// The types of all rows.
fn make_all(alloc: Global, table: &mut TypeTable) -> Result<Vec<CType>, AllocError> {
    let mut made = Vec::new(alloc);
    for (_, making, _) in TYPES {
        let t = made_of(alloc, table, &made, making)?;
        made.push(t)?;
    }
    Ok(made)
}

/// Size, alignment and slots.
fn layout(table: &TypeTable, t: CType) -> (u64, u64, u64)
    requires { Stands table.now t }
{
    (table.size_of(t), table.align_of(t), table.slots(t))
}

fn have_layouts(rt: &impl Abort, table: &TypeTable, made: &[CType]) {
    for (row, _, expected) in TYPES {
        let found = layout(table, of_row(table, made, row));
        assert_eq!(rt; found, expected, "row {row}");
    }
}

fn have_places(rt: &impl Abort, table: &TypeTable, made: &[CType]) {
    for (row, number, expected) in PLACES {
        let found = table.member_place(of_row(table, made, row), number);
        let found = found.map(|place| (place.offset, place.c_type));
        let expected = expected.map(|(offset, row)| (offset, made.get(row).copied()));
        assert_eq!(rt; found, expected, "member {number} of row {row}");
    }
}

fn have_slots(rt: &impl Abort, table: &TypeTable, made: &[CType]) {
    for (row, path, expected) in SLOTS {
        let found = table.slot_of(of_row(table, made, row), path);
        assert_eq!(rt; found, expected, "{path:?}");
    }
}

#[test]
fn types_have_their_layouts(rt: HostRuntime) -> Result<(), Fail> {
    let mut table = TypeTable::new(rt.alloc());
    let made = make_all(rt.alloc(), &mut table)?;
    have_layouts(&rt, &table, &made);
    have_places(&rt, &table, &made);
    have_slots(&rt, &table, &made);
    Ok(())
}

/// Whether the pointers to a type are the same as before, and a tag's structure, where other types were made between.
fn made_twice(table: &mut TypeTable) -> Result<(bool, bool), AllocError> {
    let int = integer(IntType::Int);
    let first = table.pointer_to(int)?;
    let tagged = table.struct_type(b"list")?;
    let again = table.pointer_to(int)?;
    let same = table.struct_type(b"list")?;
    Ok((again == first, same == tagged))
}

/// Functions of no parameters and of one pointer: whether they are the same, whether the parameters are split as they
/// were made, and whether the second has its shape.
fn two_functions(table: &mut TypeTable) -> Result<[bool; 4], AllocError> {
    let int = integer(IntType::Int);
    let none = table.no_parameters()?;
    let ends = table.first_parameter(none).is_none();
    let other = table.function(int, none)?;
    let to_int = table.pointer_to(int)?;
    let one = table.parameter(to_int, none)?;
    let function = table.function(int, one)?;
    let shape = Shape::Function {
        result: int,
        parameters: one,
    };
    Ok([
        table.same(function, other),
        table.first_parameter(one) == Some((to_int, none)),
        ends,
        table.shape(function) == shape,
    ])
}

/// `struct list { struct list *a; int b; };`, made before it is completed: whether it was complete before and is then, its size,
/// and the numbers of the members `b` and `c`.
fn completed_later(
    alloc: Global,
    table: &mut TypeTable,
) -> Result<(bool, bool, u64, [Option<u32>; 2]), AllocError> {
    let list = table.struct_type(b"list")?;
    let link = table.pointer_to(list)?;
    let made = [link, integer(IntType::Int), list];
    let before = table.is_complete(of_row(table, &made, 2));
    pair(alloc, table, "list", &made, 0, 1)?;
    let list = of_row(table, &made, 2);
    let b = table.member(list, b"b").map(|member| member.number);
    let c = table.member(list, b"c").map(|member| member.number);
    let size = table.size_of(list);
    Ok((before, table.is_complete(list), size, [b, c]))
}

/// Whether the tag of a structure is read back.
fn tag_is_kept(table: &mut TypeTable) -> Result<bool, AllocError> {
    let list = table.struct_type(b"list")?;
    let id = id_of(table, list)?;
    Ok(table.tag(id) == b"list".as_slice())
}

#[test]
fn a_type_is_made_once(rt: HostRuntime) -> Result<(), Fail> {
    let found = made_twice(&mut TypeTable::new(rt.alloc()))?;
    assert_eq!(rt; found, (true, true));
    Ok(())
}

#[test]
fn functions_have_their_parameters(rt: HostRuntime) -> Result<(), Fail> {
    let found = two_functions(&mut TypeTable::new(rt.alloc()))?;
    assert_eq!(rt; found, [false, true, true, true]);
    Ok(())
}

#[test]
fn structures_are_completed_later(rt: HostRuntime) -> Result<(), Fail> {
    let found = completed_later(rt.alloc(), &mut TypeTable::new(rt.alloc()))?;
    assert_eq!(rt; found, (false, true, 16, [Some(1), None]));
    Ok(())
}

#[test]
fn a_tag_is_read_back(rt: HostRuntime) -> Result<(), Fail> {
    let is_kept = tag_is_kept(&mut TypeTable::new(rt.alloc()))?;
    assert!(rt; is_kept);
    Ok(())
}
