// Typed definitions, and the program (C17 6.9).

use crate::c_type::CType;
use crate::part::Part;
use crate::statement::BlockItem;
use crate::type_table::TypeTable;
use c_num::IntType;
use run_theory::{ByteString, Pos};

/// An object that lives as long as the program (C17 6.2.4 paragraph 3).
#[derive(Drop)]
pub enum Static {
    /// A variable outside functions.
    Variable(ByteString),
    /// A literal, by its place.
    Literal(Pos),
}

/// The first value of a scalar (C17 6.7.9).
#[derive(Drop)]
pub enum Scalar {
    Integer(i128),
    Null,
    Function(ByteString),
    /// The element with an index in a row to which steps lead from an object.
    Pointer {
        root: Static,
        parts: Vec<Part>,
        index: u64,
    },
}

/// A scalar within an object, with its first value: steps lead to a row, of which it is the element with this index.
#[derive(Drop)]
pub struct Held {
    pub parts: Vec<Part>,
    pub index: u64,
    pub value: Scalar,
}

/// First values that an initializer gives.
#[derive(Drop)]
pub enum First {
    Scalar(Held),
    /// The bytes of a literal, as the first elements of the row to which the steps lead, converted to their type (C17 6.7.9
    /// paragraph 14).
    Text {
        parts: Vec<Part>,
        int_type: IntType,
        bytes: ByteString,
    },
}

/// A variable outside functions, with its first values; a scalar that isn't among them is zero or null (C17 6.7.9 paragraph
/// 10).
#[derive(Drop)]
pub struct GlobalDef {
    pub name: ByteString,
    pub c_type: CType,
    pub first: Vec<First>,
}

/// A literal of the text, without the zero at its end, and its type, an array with room for that (C17 6.4.5 paragraph 6).
#[derive(Drop)]
pub struct LiteralDef {
    pub place: Pos,
    pub bytes: ByteString,
    pub c_type: CType,
}

/// A function (C17 6.9.1).
#[derive(Drop)]
pub struct FunctionDef {
    pub name: ByteString,
    pub c_type: CType,
    pub parameters: Vec<CType>,
    pub returned: CType,
    pub body: Vec<BlockItem>,
}

/// A program, with the table of its types.
#[derive(Drop)]
pub struct Program {
    pub types: TypeTable,
    /// The structures that it completes, each once.
    pub completed: Vec<ByteString>,
    pub globals: Vec<GlobalDef>,
    pub literals: Vec<LiteralDef>,
    pub functions: Vec<FunctionDef>,
}
