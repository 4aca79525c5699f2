// Expressions, and the types and declarators that stand in them.

use crate::name::Name;
use crate::operator::{AssignOperator, BinaryOperator, PrefixOperator};
use c_num::IntType;
use run_theory::{ByteString, Pos};

/// An expression (C17 6.5). Where its first token is one of its own, it holds the place of that token.
#[cycle(expr)]
#[derive(Drop)]
pub enum Expr {
    /// The name of a variable or function (C17 6.5.1).
    Named(Name),
    /// An integer constant (C17 6.4.4.1).
    Integer {
        value: u64,
        int_type: IntType,
        place: Pos,
    },
    /// A character constant: the byte that stands for it (C17 6.4.4.4).
    Character {
        byte: u8,
        place: Pos,
    },
    /// Adjacent literals joined, without the zero at their end (C17 6.4.5).
    Literal {
        bytes: ByteString,
        place: Pos,
    },
    /// `NULL` (C17 7.19)
    Null {
        place: Pos,
    },
    /// `EOF`, the `int` -1 (C17 7.21.1)
    EndOfFile {
        place: Pos,
    },
    /// An expression in parentheses (C17 6.5.1).
    Parenthesized {
        place: Pos,
        inner: Box<Expr>,
    },
    /// `a[i]` (C17 6.5.2.1)
    Index {
        array: Box<Expr>,
        index: Box<Expr>,
    },
    /// A call (C17 6.5.2.2), with the place of its `(`.
    Call {
        function: Box<Expr>,
        open: Pos,
        arguments: Vec<Expr>,
    },
    /// `a.m` (C17 6.5.2.3)
    Member {
        object: Box<Expr>,
        member: Name,
    },
    /// `p->m` (C17 6.5.2.3)
    PointerMember {
        pointer: Box<Expr>,
        member: Name,
    },
    /// `a++` (C17 6.5.2.4)
    PostIncrement {
        operand: Box<Expr>,
    },
    /// `a--` (C17 6.5.2.4)
    PostDecrement {
        operand: Box<Expr>,
    },
    /// An operator before its operand (C17 6.5.3).
    Prefix {
        operator: PrefixOperator,
        place: Pos,
        operand: Box<Expr>,
    },
    /// `sizeof e` (C17 6.5.3.4)
    SizeofExpr {
        place: Pos,
        operand: Box<Expr>,
    },
    /// `sizeof (type)` (C17 6.5.3.4)
    SizeofType {
        place: Pos,
        type_name: Box<TypeName>,
    },
    /// `(type) e` (C17 6.5.4)
    Cast {
        place: Pos,
        type_name: Box<TypeName>,
        operand: Box<Expr>,
    },
    /// An operator between two operands.
    Binary {
        operator: BinaryOperator,
        left: Box<Expr>,
        right: Box<Expr>,
    },
    /// `c ? a : b` (C17 6.5.15)
    Conditional {
        condition: Box<Expr>,
        then: Box<Expr>,
        otherwise: Box<Expr>,
    },
    /// An assignment (C17 6.5.16).
    Assign {
        operator: AssignOperator,
        object: Box<Expr>,
        value: Box<Expr>,
    },
}

/// The words of a type (C17 6.7.2), other than a struct with its members.
#[derive(Debug, Drop)]
pub enum SimpleKind {
    /// `void`
    Void,
    /// An integer type. `signed char` and `char` are one here.
    Integer(IntType),
    /// `struct` and its name.
    Struct(Name),
}

/// The words of a type, and the place of the first.
#[derive(Debug, Drop)]
pub struct Simple {
    pub place: Pos,
    pub kind: SimpleKind,
}

/// The name of a type (C17 6.7.7): words, perhaps with a declarator that has no name.
#[cycle(expr)]
#[derive(Drop)]
pub struct TypeName {
    pub simple: Simple,
    pub declarator: Option<Declarator>,
}

/// A declarator (C17 6.7.6): its stars, then its name or a declarator in parentheses, then what follows these. It is
/// read from the inside out, what follows before the stars.
#[cycle(expr)]
#[derive(Drop)]
pub struct Declarator {
    pub stars: usize,
    pub direct: Direct,
    pub suffixes: Vec<Suffix>,
}

/// What a declarator is built on.
#[cycle(expr)]
#[derive(Drop)]
pub enum Direct {
    /// The declared name.
    Named(Name),
    /// A declarator in parentheses.
    Nested(Box<Declarator>),
    /// Nothing, in the name of a type or a parameter without a name.
    Nothing,
}

/// What follows in a declarator.
#[cycle(expr)]
#[derive(Drop)]
pub enum Suffix {
    /// `[n]` or `[]` (C17 6.7.6.2)
    Array(Option<Expr>),
    /// `(parameters)` (C17 6.7.6.3)
    Function(Vec<Parameter>),
}

/// A parameter (C17 6.7.6.3).
#[cycle(expr)]
#[derive(Drop)]
pub struct Parameter {
    pub simple: Simple,
    pub declarator: Option<Declarator>,
}
