// Where a length may be left out.

/// Where an array's length may be left out (C17 6.7.6.2): nowhere; in a parameter, which is a pointer (6.7.6.3 paragraph 7);
/// or in a global with an initializer that gives the length (6.7.9 paragraph 22).
#[derive(Clone, Copy, Debug, PartialEq, Eq)]
pub enum LengthRole {
    Required,
    Adjusted,
    Initialized {
        /// The size of the literal with its zero that the initializer is, in braces or not.
        literal: Option<usize>,
        /// How many initializers there are in its braces.
        plain: usize,
    },
}
