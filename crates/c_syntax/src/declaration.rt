// Declarations, and the program.

use crate::expr::{Declarator, Expr, Simple};
use crate::name::Name;
use crate::statement::Block;
use run_theory::Pos;

/// An initializer (C17 6.7.9).
#[derive(Drop)]
pub enum Init {
    /// A value.
    Value(Expr),
    /// Initializers in braces, and the place of the first brace.
    List { place: Pos, inits: Vec<Init> },
}

/// A declarator, perhaps with a first value.
#[derive(Drop)]
pub struct InitDeclarator {
    pub declarator: Declarator,
    pub init: Option<Init>,
}

/// A declaration of variables or functions in a block (C17 6.7).
#[derive(Drop)]
pub struct Declaration {
    pub simple: Simple,
    pub declarators: Vec<InitDeclarator>,
}

/// Members that are declared together (C17 6.7.2.1).
#[derive(Drop)]
pub struct Member {
    pub simple: Simple,
    pub declarators: Vec<Declarator>,
}

/// The words of a type outside functions, where a struct may have its members.
#[derive(Drop)]
pub enum Base {
    Simple(Simple),
    /// `struct`, its name and its members; the place is that of the first word.
    Struct {
        place: Pos,
        name: Name,
        members: Vec<Member>,
    },
}

/// What stands outside functions (C17 6.9).
#[derive(Drop)]
pub enum Item {
    /// A declaration; without declarators it is of a struct.
    Declaration {
        base: Base,
        declarators: Vec<InitDeclarator>,
    },
    /// A function, or what is written as one (C17 6.9.1).
    Function {
        base: Base,
        declarator: Declarator,
        body: Block,
    },
}

/// A program (C17 6.9), and the place of its end.
#[derive(Drop)]
pub struct Program {
    pub items: Vec<Item>,
    pub end: Pos,
}
