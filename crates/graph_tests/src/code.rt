// A list is made by one function and gone through by another.

ghost use Rattle.std.specs.Prelude.{◌≡◌, IfOk, OnOk};
ghost use Rattle.c_typed.specs.Table.{structs_in};
ghost use Rattle.graph_tests.specs.Plain.{IsPlain};

use c_num::{IntType, Relation};
use c_typed::{CType, TypeTable};
use run_theory::ByteString;
use std::alloc::{AllocError, Global};
use tac_ir::{
    Base, Callee, Counts, Function, FunctionId, Local, Op, Operand, Path, PointId, Register,
    Scalar, Tac, Tree,
};

/// The types of the program: a list is made of cells that point to the next.
#[derive(Clone, Copy)]
pub(crate) struct CellTypes {
    pub(crate) cell: CType,
    maker: CType,
    reader: CType,
}

fn cell_types(table: &mut TypeTable) -> Result<CellTypes, AllocError>
    ensures { OnOk result (structs_in table.new ≡ structs_in table.old) }
{
    let cell = table.pointer_to(CType::VOID)?;
    let to_cell = table.pointer_to(cell)?;
    let none = table.no_parameters()?;
    let maker = table.function(to_cell, none)?;
    let reader = table.function(CType::integer(IntType::Int), none)?;
    Ok(CellTypes {
        cell,
        maker,
        reader,
    })
}

/// A point, with the cells' type left out.
#[derive(Clone, Copy)]
enum Row {
    Null(Register),
    Copy(Register, Register),
    /// Makes a cell.
    Allocate,
    /// The pointer to cells that the call gives.
    Repoint(Register),
    /// Stores what the second has where the first points.
    Store(Register, Register),
    /// Loads from where the second points.
    Load(Register, Register),
    Call(usize),
    Differ(Register, Register),
    Branch(usize, usize),
    Return(Register),
    /// Returns 0.
    Done,
    Exit,
}

const LIST: Register = Register::Local(Local::Variable(0));

const CELL: Register = Register::Local(Local::Variable(1));

const TEST: Register = Register::Temporary(0);

/// void **makelist(void)
const MAKING: [Row; 11] = [
    Row::Null(Register::Expression(0)),
    Row::Copy(LIST, Register::Expression(0)),
    Row::Allocate,
    Row::Repoint(Register::Expression(1)),
    Row::Copy(CELL, Register::Expression(1)),
    Row::Copy(Register::Expression(2), CELL),
    Row::Copy(Register::Expression(3), CELL),
    Row::Copy(Register::Expression(4), LIST),
    Row::Store(Register::Expression(3), Register::Expression(4)),
    Row::Copy(LIST, CELL),
    Row::Return(LIST),
];

/// int main(void)
const READING: [Row; 9] = [
    Row::Call(0),
    Row::Copy(LIST, Register::Call(0)),
    Row::Null(Register::Expression(0)),
    Row::Differ(LIST, Register::Expression(0)),
    Row::Branch(5, 8),
    Row::Copy(Register::Expression(2), LIST),
    Row::Load(Register::Expression(3), Register::Expression(2)),
    Row::Copy(LIST, Register::Expression(3)),
    Row::Done,
];

/// Calls `main`.
const STARTING: [Row; 2] = [Row::Call(1), Row::Exit];

/// The cell to which a register points.
fn cell_at(alloc: Global, pointer: Register, cell: CType) -> Path {
    Path {
        base: Base::Pointed {
            pointer,
            target: cell,
        },
        steps: Vec::new(alloc),
    }
}

fn point(alloc: Global, cell: CType, row: Row) -> Op {
    match row {
        Row::Null(to) => Op::Null { to },
        Row::Copy(to, from) => Op::Copy { to, from },
        Row::Allocate => Op::Allocate {
            site: 0,
            size: Tree::Constant(8),
        },
        Row::Repoint(to) => Op::Repoint {
            to,
            target: cell,
            from: Register::Call(0),
        },
        Row::Store(pointer, value) => Op::Store {
            path: cell_at(alloc, pointer, cell),
            scalar: Scalar::Pointer(CType::VOID),
            value: Operand::Pointer(value),
        },
        Row::Load(to, pointer) => Op::Load {
            to,
            scalar: Scalar::Pointer(CType::VOID),
            path: cell_at(alloc, pointer, cell),
        },
        Row::Call(function) => Op::Call {
            site: 0,
            callee: Callee::Function(FunctionId(function)),
            arguments: Vec::new(alloc),
        },
        Row::Differ(left, right) => Op::ComparePointers {
            to: TEST,
            relation: Relation::Ne,
            left,
            right,
        },
        Row::Branch(nonzero, zero) => Op::Branch {
            int_type: IntType::Int,
            condition: Tree::Held(TEST),
            nonzero: PointId(nonzero),
            zero: PointId(zero),
        },
        Row::Return(register) => Op::Return(Some(Operand::Pointer(register))),
        Row::Done => Op::Return(Some(Operand::Integer(Tree::Constant(0)))),
        Row::Exit => Op::Exit {
            status: Tree::Held(Register::Call(0)),
        },
    }
}

fn points(alloc: Global, cell: CType, rows: &[Row]) -> Result<Vec<Op>, AllocError> {
    let mut points = Vec::new(alloc);
    for row in rows {
        points.push(point(alloc, cell, *row))?;
    }
    Ok(points)
}

fn function(
    alloc: Global,
    name: &str,
    c_type: CType,
    cell: CType,
    rows: &[Row],
) -> Result<Function, AllocError> {
    let points = points(alloc, cell, rows)?;
    Ok(Function {
        name: ByteString::from_slice(alloc, name.as_bytes())?,
        c_type,
        parameters: 0,
        counts: Counts {
            variables: 2,
            calls: 2,
            arguments: 1,
            expressions: 5,
            temporaries: 2,
        },
        objects: Vec::new(alloc),
        points,
    })
}

fn functions(alloc: Global, made: CellTypes) -> Result<Vec<Function>, AllocError> {
    let mut functions = Vec::new(alloc);
    functions.push(function(alloc, "makelist", made.maker, made.cell, &MAKING)?)?;
    functions.push(function(alloc, "main", made.reader, made.cell, &READING)?)?;
    Ok(functions)
}

/// The program, and the type of its cells.
pub(crate) fn program(alloc: Global) -> Result<(Tac, CType), AllocError>
    ensures { IfOk result (λ made. IsPlain made.0) }
{
    let mut types = TypeTable::new(alloc);
    let made = cell_types(&mut types)?;
    let functions = functions(alloc, made)?;
    let start = function(alloc, "", CType::VOID, made.cell, &STARTING)?;
    let tac = Tac {
        types,
        globals: Vec::new(alloc),
        literals: Vec::new(alloc),
        functions,
        start,
    };
    Ok((tac, made.cell))
}
