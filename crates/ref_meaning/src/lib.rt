//! Values, places and objects of the reference in memory (C17 6.2.4, 6.2.6), and what operators do with pointers.
//!
//! The reference, run: what a program does with an input, unit by unit (C17 5.1.2.3).
#![tactic(auto)]

mod call;
mod control;
mod entry;
mod first_operand;
mod first_store;
mod label;
mod object;
mod operand;
mod pointer;
mod run;
mod statement;
mod store;
mod value;

pub use object::{Content, Elements};
pub use run::{RefEnd, RefRun};
pub use store::Store;
pub use value::{Name, Place, Row, Scalar, Stop};
