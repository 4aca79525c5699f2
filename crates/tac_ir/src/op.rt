// What is done at a point.

use crate::path::Path;
use crate::register::{FunctionId, PointId, Register};
use crate::tree::Tree;
use c_num::{IntType, Relation};
use c_typed::CType;

/// The type of a scalar in memory (C17 6.2.5 paragraph 21).
#[derive(Clone, Copy, Debug, PartialEq, Eq)]
pub enum Scalar {
    Integer(IntType),
    /// A pointer to the type.
    Pointer(CType),
}

/// A value that a point takes.
#[derive(Drop)]
pub enum Operand {
    Integer(Tree),
    Pointer(Register),
}

/// What is called.
#[derive(Clone, Copy, Debug, PartialEq, Eq)]
pub enum Callee {
    Function(FunctionId),
    /// What a pointer to functions of the type points to.
    Through { pointer: Register, c_type: CType },
}

/// What is done at a point. It goes on at the one behind, unless another is named. A call's site is its number in the function, as
/// in `Register::Call`.
#[derive(Drop)]
pub enum Op {
    /// A point that is not filled in yet. No run comes to one.
    Reserved,
    /// Goes on at another point.
    Jump(PointId),
    /// Goes on at one of two points: at the second where a value of the type is 0.
    Branch {
        int_type: IntType,
        condition: Tree,
        nonzero: PointId,
        zero: PointId,
    },
    /// Computes an integer.
    Assign {
        to: Register,
        tree: Tree,
    },
    /// The null pointer (C17 6.3.2.3 paragraph 3).
    Null {
        to: Register,
    },
    /// The address of a function (C17 6.3.2.1 paragraph 4).
    FunctionAddress {
        to: Register,
        function: FunctionId,
    },
    /// Copies a pointer.
    Copy {
        to: Register,
        from: Register,
    },
    /// 1 where a pointer isn't null, else 0.
    Test {
        to: Register,
        pointer: Register,
    },
    /// The element of the type so many places behind the one that a pointer points to, or before it (C17 6.5.6 paragraph 8).
    Move {
        to: Register,
        pointer: Register,
        element: CType,
        is_minus: bool,
        number: Tree,
    },
    /// How many elements of the type lie between two pointers (C17 6.5.6 paragraph 9).
    Difference {
        to: Register,
        element: CType,
        left: Register,
        right: Register,
    },
    /// Compares two pointers, and gives 1 or 0 (C17 6.5.8, 6.5.9).
    ComparePointers {
        to: Register,
        relation: Relation,
        left: Register,
        right: Register,
    },
    /// A pointer, converted to one to the target (C17 6.3.2.3). An allocation that has no type becomes an array of the target.
    Repoint {
        to: Register,
        target: CType,
        from: Register,
    },
    /// The address of an object (C17 6.5.3.2, 6.3.2.1 paragraph 3).
    Address {
        to: Register,
        path: Path,
    },
    Load {
        to: Register,
        scalar: Scalar,
        path: Path,
    },
    Store {
        path: Path,
        scalar: Scalar,
        value: Operand,
    },
    /// `malloc` (C17 7.22.3.4)
    Allocate {
        site: usize,
        size: Tree,
    },
    /// `free` (C17 7.22.3.3)
    Free {
        site: usize,
        pointer: Register,
    },
    /// A call, with the arguments in their order (C17 6.5.2.2).
    Call {
        site: usize,
        callee: Callee,
        arguments: Vec<Register>,
    },
    /// `getchar` (C17 7.21.7.6)
    GetChar {
        site: usize,
    },
    /// `putchar` (C17 7.21.7.8)
    PutChar {
        site: usize,
        value: Tree,
    },
    /// `exit` (C17 7.22.4.4)
    Exit {
        status: Tree,
    },
    /// Ends the function (C17 6.8.6.4).
    Return(Option<Operand>),
}
