// Functions and programs in three-address code.

use crate::op::Op;
use crate::register::Local;
use c_typed::{CType, GlobalDef, LiteralDef, TypeTable};
use run_theory::ByteString;

/// How many registers of each kind a function has, beside its parameters.
#[derive(Clone, Copy, Debug, PartialEq, Eq)]
pub struct Counts {
    pub variables: usize,
    pub calls: usize,
    pub arguments: usize,
    pub expressions: usize,
    pub temporaries: usize,
}

/// A parameter or local that lies in memory: an array, a structure, or one whose address is taken.
#[derive(Clone, Copy, Debug, PartialEq, Eq)]
pub struct LocalObject {
    pub local: Local,
    pub c_type: CType,
}

/// A function. It begins at its first point.
#[derive(Drop)]
pub struct Function {
    pub name: ByteString,
    pub c_type: CType,
    pub parameters: usize,
    pub counts: Counts,
    pub objects: Vec<LocalObject>,
    pub points: Vec<Op>,
}

/// A program in three-address code, with the table of its types. Static objects hold at first what the typed program says (C17 6.7.9).
/// `start` calls `main`, and ends with what that gives.
#[derive(Drop)]
pub struct Tac {
    pub types: TypeTable,
    pub globals: Vec<GlobalDef>,
    pub literals: Vec<LiteralDef>,
    pub functions: Vec<Function>,
    pub start: Function,
}
