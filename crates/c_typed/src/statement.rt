// Typed statements (C17 6.8).

use crate::c_type::CType;
use crate::typed::Value;

/// A local that begins to live, with its first value (C17 6.2.4 paragraph 5, 6.7.9).
#[derive(Drop)]
pub struct LocalDef {
    pub c_type: CType,
    pub first: Option<Value>,
}

/// What a `for` begins with (C17 6.8.5.3).
#[derive(Drop)]
pub enum ForStart {
    Nothing,
    Value(Value),
    Locals(Vec<LocalDef>),
}

/// A statement.
#[cycle(stmt)]
#[derive(Drop)]
pub enum Stmt {
    /// A block (C17 6.8.2).
    Block(Vec<BlockItem>),
    /// `;` alone (C17 6.8.3)
    Empty,
    /// An expression whose value is dropped (C17 6.8.3).
    Expression(Value),
    /// `if` (C17 6.8.4.1)
    If {
        condition: Value,
        then: Box<Stmt>,
    },
    /// `if` with `else` (C17 6.8.4.1)
    IfElse {
        condition: Value,
        then: Box<Stmt>,
        otherwise: Box<Stmt>,
    },
    /// `while` (C17 6.8.5.1)
    While {
        condition: Value,
        body: Box<Stmt>,
    },
    /// `do` (C17 6.8.5.2)
    DoWhile {
        body: Box<Stmt>,
        condition: Value,
    },
    /// `for` (C17 6.8.5.3)
    For {
        start: ForStart,
        condition: Option<Value>,
        step: Option<Value>,
        body: Box<Stmt>,
    },
    /// `switch` (C17 6.8.4.2)
    Switch {
        value: Value,
        items: Vec<SwitchItem>,
    },
    /// `break` (C17 6.8.6.3)
    Break,
    /// `continue` (C17 6.8.6.2)
    Continue,
    /// `return` (C17 6.8.6.4)
    Return(Option<Value>),
}

/// What stands in a block (C17 6.8.2).
#[cycle(stmt)]
#[derive(Drop)]
pub enum BlockItem {
    Local(LocalDef),
    Statement(Stmt),
}

/// What stands in the block of a `switch` (C17 6.8.1, 6.8.4.2).
#[cycle(stmt)]
#[derive(Drop)]
pub enum SwitchItem {
    /// `case`, with its label converted to the type of the value.
    Case(i128),
    /// `default`
    Default,
    Statement(Stmt),
}
