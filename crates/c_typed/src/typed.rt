// Typed trees of expressions.

use crate::c_type::CType;
use c_num::{BinOp, IntType, Relation};
use run_theory::{ByteString, Pos};

/// The library functions (C17 7.21.7, 7.22.3, 7.22.4.4).
#[derive(Clone, Copy, Debug, PartialEq, Eq)]
pub enum LibraryFunction {
    Malloc,
    Free,
    GetChar,
    PutChar,
    Exit,
}

/// `++` and `--`, before or behind their operand (C17 6.5.2.4, 6.5.3.1).
#[derive(Clone, Copy, Debug, PartialEq, Eq)]
pub enum Stepping {
    PreIncrement,
    PreDecrement,
    PostIncrement,
    PostDecrement,
}

/// An expression for its value. A place is that of the first token of the expression that the node belongs to.
#[cycle(value)]
#[derive(Drop)]
pub enum Value {
    /// An integer constant, a character constant, `EOF` or the value of `sizeof`, as a value of its type (C17 6.4.4, 6.5.3.4).
    Constant {
        int_type: IntType,
        value: i128,
    },
    /// `NULL`
    NullPointer,
    /// A value in parentheses (C17 6.5.1 paragraph 5).
    Grouped(Box<Value>),
    /// What an object holds (C17 6.3.2.1 paragraph 2).
    Read {
        place: Pos,
        object: Box<Object>,
    },
    /// The address of an array's first element (C17 6.3.2.1 paragraph 3).
    Decay {
        place: Pos,
        object: Box<Object>,
    },
    /// The address of a function (C17 6.3.2.1 paragraph 4).
    FunctionValue(Box<Designator>),
    /// An integer, converted (C17 6.3.1.3).
    Converted {
        int_type: IntType,
        value: Box<Value>,
    },
    /// A pointer, converted to one to the target (C17 6.3.2.3).
    Repointed {
        place: Pos,
        target: CType,
        value: Box<Value>,
    },
    /// A null pointer constant, converted to a pointer to the target (C17 6.3.2.3 paragraph 3).
    MadeNull {
        target: CType,
        value: Box<Value>,
    },
    /// Whether a pointer isn't null.
    Tested {
        place: Pos,
        value: Box<Value>,
    },
    Plus(Box<Value>),
    Minus {
        place: Pos,
        int_type: IntType,
        operand: Box<Value>,
    },
    Complement {
        int_type: IntType,
        operand: Box<Value>,
    },
    Not(Box<Value>),
    /// An operator between integers of one type, or between the operands of a shift (C17 6.5.5 to 6.5.12).
    Arithmetic {
        op: BinOp,
        place: Pos,
        int_type: IntType,
        left: Box<Value>,
        right: Box<Value>,
    },
    /// A comparison of integers (C17 6.5.8, 6.5.9).
    Compare {
        relation: Relation,
        left: Box<Value>,
        right: Box<Value>,
    },
    ComparePointers {
        relation: Relation,
        place: Pos,
        left: Box<Value>,
        right: Box<Value>,
    },
    /// A pointer and a number behind it (C17 6.5.6 paragraph 8).
    PointerPlus {
        place: Pos,
        pointer: Box<Value>,
        number: Box<Value>,
    },
    /// A number and a pointer behind it.
    NumberPlus {
        place: Pos,
        number: Box<Value>,
        pointer: Box<Value>,
    },
    PointerMinus {
        place: Pos,
        pointer: Box<Value>,
        number: Box<Value>,
    },
    /// How many elements lie between two pointers (C17 6.5.6 paragraph 9).
    PointerDifference {
        place: Pos,
        left: Box<Value>,
        right: Box<Value>,
    },
    And {
        left: Box<Value>,
        right: Box<Value>,
    },
    Or {
        left: Box<Value>,
        right: Box<Value>,
    },
    /// `c ? a : b` (C17 6.5.15)
    Conditional {
        condition: Box<Value>,
        then: Box<Value>,
        otherwise: Box<Value>,
    },
    AddressOf {
        place: Pos,
        object: Box<Object>,
    },
    AddressOfFunction(Box<Designator>),
    /// A cast, of a value that is converted already (C17 6.5.4).
    Cast(Box<Value>),
    CastVoid(Box<Value>),
    /// An assignment of a value that is converted already (C17 6.5.16.1).
    Assign {
        place: Pos,
        object: Box<Object>,
        value: Box<Value>,
    },
    /// A compound assignment to an integer: its type, that in which the operator works, and the value, converted to that
    /// unless the operator shifts (C17 6.5.16.2).
    AssignArithmetic {
        op: BinOp,
        place: Pos,
        object_type: IntType,
        int_type: IntType,
        object: Box<Object>,
        value: Box<Value>,
    },
    /// `+=` or `-=` to a pointer.
    AssignMoved {
        is_minus: bool,
        place: Pos,
        object: Box<Object>,
        number: Box<Value>,
    },
    StepInteger {
        stepping: Stepping,
        place: Pos,
        int_type: IntType,
        object: Box<Object>,
    },
    StepPointer {
        stepping: Stepping,
        place: Pos,
        object: Box<Object>,
    },
    /// A call of a function of a type, and whether its value is used (C17 6.5.2.2).
    Call {
        is_used: bool,
        place: Pos,
        function: Box<Designator>,
        c_type: CType,
        arguments: Vec<Value>,
    },
    /// A call of a library function, whose name stands in so many parentheses.
    LibraryCall {
        function: LibraryFunction,
        groups: usize,
        place: Pos,
        arguments: Vec<Value>,
    },
}

/// An expression for its object (C17 6.3.2.1 paragraph 1).
#[cycle(value)]
#[derive(Drop)]
pub enum Object {
    /// A local, by how many others were in scope at its declaration.
    Local(usize),
    /// A variable outside functions.
    Global(ByteString),
    /// A literal (C17 6.4.5), with its type.
    Literal {
        place: Pos,
        bytes: ByteString,
        c_type: CType,
    },
    /// An object in parentheses. Its value is read at the place of what stands in them.
    Grouped {
        place: Pos,
        inner: Box<Object>,
    },
    /// What a pointer points to (C17 6.5.3.2).
    Pointed {
        place: Pos,
        pointer: Box<Value>,
    },
    /// `p[i]` (C17 6.5.2.1)
    Element {
        place: Pos,
        pointer: Box<Value>,
        number: Box<Value>,
    },
    /// `i[p]`
    ElementOf {
        place: Pos,
        number: Box<Value>,
        pointer: Box<Value>,
    },
    /// `s.m`, where this many members stand before `m` (C17 6.5.2.3).
    MemberOf {
        place: Pos,
        object: Box<Object>,
        number: u32,
    },
    /// `p->m`
    PointedMember {
        place: Pos,
        pointer: Box<Value>,
        number: u32,
    },
}

/// An expression for its function (C17 6.3.2.1 paragraph 4).
#[cycle(value)]
#[derive(Drop)]
pub enum Designator {
    /// A function's name.
    Named(ByteString),
    /// A function in parentheses.
    Grouped(Box<Designator>),
    /// `*p`
    Pointed { place: Pos, pointer: Box<Value> },
    /// A pointer that is called.
    ThroughPointer { place: Pos, pointer: Box<Value> },
}
