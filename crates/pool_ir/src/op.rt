// What is done at a point.

use crate::number::{Descriptor, Signature};
use crate::path::{Path, Slot};
use c_num::{IntType, Relation};
use tac_ir::{FunctionId, Operand, PointId, Register, Tree};

/// What is called.
#[derive(Clone, Copy, Debug, PartialEq, Eq)]
pub enum Callee {
    Function(FunctionId),
    /// What a pointer to functions of the signature points to.
    Through {
        pointer: Register,
        signature: Signature,
    },
}

/// What is done at a point. It goes on at the one behind, unless another is named. A call's site is its number in the function.
#[derive(Drop)]
pub enum Op {
    /// A point to which no run comes.
    Reserved,
    /// Goes on at another point.
    Jump(PointId),
    /// Goes on at one of two points: at the second where a value of the type is 0.
    Branch {
        int_type: IntType,
        condition: Tree,
        nonzero: PointId,
        zero: PointId,
    },
    /// Computes an integer.
    Assign {
        to: Register,
        tree: Tree,
    },
    /// The null pointer.
    Null {
        to: Register,
    },
    /// The address of a function.
    FunctionAddress {
        to: Register,
        function: FunctionId,
    },
    /// Copies a pointer.
    Copy {
        to: Register,
        from: Register,
    },
    /// 1 where a pointer isn't null, else 0.
    Test {
        to: Register,
        pointer: Register,
    },
    /// The element of this size so many places behind the one that a pointer points to, or before it.
    Move {
        to: Register,
        pointer: Register,
        size: u64,
        is_minus: bool,
        number: Tree,
    },
    /// How many elements of this size lie between two pointers.
    Difference {
        to: Register,
        size: u64,
        left: Register,
        right: Register,
    },
    /// Compares two pointers, and gives 1 or 0.
    ComparePointers {
        to: Register,
        relation: Relation,
        left: Register,
        right: Register,
    },
    /// The address of an object.
    Address {
        to: Register,
        path: Path,
    },
    Load {
        to: Register,
        slot: Slot,
        path: Path,
    },
    Store {
        path: Path,
        slot: Slot,
        value: Operand,
    },
    /// Takes so many bytes of a pool.
    Allocate {
        site: usize,
        size: Tree,
        pool: Descriptor,
    },
    /// Gives them back to it.
    Free {
        site: usize,
        pointer: Register,
        pool: Descriptor,
    },
    /// A call, with the arguments in their order, and with the pools that are passed.
    Call {
        site: usize,
        callee: Callee,
        arguments: Vec<Register>,
        pools: Vec<Descriptor>,
    },
    GetChar {
        site: usize,
    },
    PutChar {
        site: usize,
        value: Tree,
    },
    Exit {
        status: Tree,
    },
    /// Ends the function.
    Return(Option<Operand>),
}
