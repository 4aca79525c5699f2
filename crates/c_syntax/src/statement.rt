// Statements.

use crate::declaration::Declaration;
use crate::expr::Expr;
use run_theory::Pos;

/// A block (C17 6.8.2), and the place of its brace.
#[cycle(stmt)]
#[derive(Drop)]
pub struct Block {
    pub place: Pos,
    pub items: Vec<BlockItem>,
}

/// What stands in a block.
#[cycle(stmt)]
#[derive(Drop)]
pub enum BlockItem {
    Declaration(Declaration),
    Statement(Stmt),
}

/// A statement (C17 6.8), and the place of its first token where that is one of its own.
#[cycle(stmt)]
#[derive(Drop)]
pub enum Stmt {
    Block(Block),
    /// `;` alone (C17 6.8.3)
    Empty {
        place: Pos,
    },
    /// An expression whose value is dropped (C17 6.8.3).
    Expression(Expr),
    /// `if` (C17 6.8.4.1)
    If {
        place: Pos,
        condition: Expr,
        then: Box<Stmt>,
    },
    /// `if` with `else` (C17 6.8.4.1)
    IfElse {
        place: Pos,
        condition: Expr,
        then: Box<Stmt>,
        otherwise: Box<Stmt>,
    },
    /// `while` (C17 6.8.5.1)
    While {
        place: Pos,
        condition: Expr,
        body: Box<Stmt>,
    },
    /// `do` (C17 6.8.5.2)
    Do {
        place: Pos,
        body: Box<Stmt>,
        condition: Expr,
    },
    /// `for` (C17 6.8.5.3)
    For {
        place: Pos,
        first: ForFirst,
        condition: Option<Expr>,
        step: Option<Expr>,
        body: Box<Stmt>,
    },
    /// `switch` (C17 6.8.4.2)
    Switch {
        place: Pos,
        value: Expr,
        items: Vec<SwitchItem>,
    },
    /// `break` (C17 6.8.6.3)
    Break {
        place: Pos,
    },
    /// `continue` (C17 6.8.6.2)
    Continue {
        place: Pos,
    },
    /// `return` (C17 6.8.6.4)
    Return {
        place: Pos,
        value: Option<Expr>,
    },
}

/// What a `for` begins with.
#[derive(Drop)]
pub enum ForFirst {
    Nothing,
    Declaration(Declaration),
    Expression(Expr),
}

/// What stands in the braces of a `switch`.
#[cycle(stmt)]
#[derive(Drop)]
pub enum SwitchItem {
    /// `case` and its value
    Case { place: Pos, value: Expr },
    /// `default`
    Default { place: Pos },
    Statement(Stmt),
}
