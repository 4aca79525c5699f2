//! Places in a text: lines and columns, which both count from 1, and the place behind each byte.
//!
//! The theory of runs: how a run ends, what it leaves behind, and when one run follows another.
//!
//! The reference, three-address code and the machine are all runs on an input with a budget. What is said of
//! such runs, and proved once for all of them, stands here: `specs/Runs.antt` has the definitions.
//!
//! Bytes in order, as names and literals are made of: contracts see them as a list.
#![tactic(auto)]

mod byte_string;
mod ends;
mod place;
pub mod place_laws;
pub mod run_laws;

pub use byte_string::ByteString;
pub use ends::{TrapKind, UbKind};
pub use place::Pos;
