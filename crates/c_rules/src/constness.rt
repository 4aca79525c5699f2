// What is known of a value before the program runs.

/// The value of an integer constant expression (C17 6.6 paragraph 6).
#[derive(Clone, Copy, Debug, PartialEq, Eq)]
pub enum Constness {
    /// It is none.
    NotConstant,
    /// It is one, and its value is undefined.
    Undefined,
    Constant(i128),
}
