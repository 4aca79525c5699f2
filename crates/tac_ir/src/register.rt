// What code names: functions, static objects, points and registers.

/// A function of the program, by how many are defined before it.
#[derive(Clone, Copy, Debug, PartialEq, Eq)]
pub struct FunctionId(pub usize);

/// A variable outside functions, by how many are defined before it.
#[derive(Clone, Copy, Debug, PartialEq, Eq)]
pub struct GlobalId(pub usize);

/// A literal, by how many stand before it in the text.
#[derive(Clone, Copy, Debug, PartialEq, Eq)]
pub struct LiteralId(pub usize);

/// A point of a function, by how many stand before it.
#[derive(Clone, Copy, Debug, PartialEq, Eq)]
pub struct PointId(pub usize);

/// A parameter or a local of a function (C17 6.2.4 paragraph 5).
#[derive(Clone, Copy, Debug, PartialEq, Eq)]
pub enum Local {
    /// A parameter, by how many stand before it.
    Parameter(usize),
    /// A local of the body, by how many declarations stand before its own.
    Variable(usize),
}

/// A register of an activation, by what it stands for.
#[derive(Clone, Copy, Debug, PartialEq, Eq)]
pub enum Register {
    /// A local in a register; of a parameter in memory, the argument that is stored there at entry.
    Local(Local),
    /// What a call gives, by how many calls have their parenthesis before this one's.
    Call(usize),
    /// An argument, by how many begin before it.
    Argument(usize),
    /// An expression of pointer type that is none of these.
    Expression(usize),
    /// An integer that is needed later.
    Temporary(usize),
}
