//! The text of what a heap graph tells of a node: its element's type, and its flags.
//!
//! `specs/Parts.antt` says what is written.
//!
//! The text of the heap graphs of a program: of each group its functions, the names that have targets, and the nodes.
//!
//! `specs/Texts.antt` says what the text is.
//!
//! What the things of a program are called in the text of its graphs: the names of functions, parameters and variables, and which calls, arguments
//! and literals of the text they are.
//!
//! `specs/Marks.antt` says what of a text is called something, and `specs/Labels.antt` how.
#![tactic(auto)]

mod called;
mod element;
mod expressions;
mod flags;
mod function_labels;
mod functions;
mod graphs;
mod lines;
mod marks;
mod names;
mod number;
mod numbers;
mod program;
mod statements;

pub use element::put_element;
pub use flags::put_flags;
pub use function_labels::{FunctionLabels, Labels};
pub use graphs::graph_lines;
pub use marks::Mark;
pub use names::{Kind, Name, Named, Owner};
pub use number::put_number;
pub use program::labels;
