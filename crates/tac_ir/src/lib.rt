//! Three-address code of the whole language: each function is a list of points over registers and objects.
//!
//! The form is that of a register transfer language (as RTL of CompCert; Leroy, CACM 2009). A point goes on at the one behind it, but
//! for jumps and branches. Pointers are handled by points of their own, each with registers that stand for a variable or an expression
//! of the program; integers are computed by trees. `specs/Meaning.antt` says what the code does.
//!
//! Which functions call which.
//!
//! `specs/Targets.antt` says which functions a call may reach.
//!
//! A program has one list of groups of functions. A crate of proofs alone.
#![tactic(auto)]

mod copies;
mod op;
mod path;
mod program;
mod register;
mod tree;

pub use op::{Callee, Op, Operand, Scalar};
pub use path::{Base, Path, Step};
pub use program::{Counts, Function, LocalObject, Tac};
pub use register::{FunctionId, GlobalId, LiteralId, Local, PointId, Register};
pub use tree::Tree;
