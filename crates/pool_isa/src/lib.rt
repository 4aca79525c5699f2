//! The machine's instructions, and the one spelling of each as bytes.
//!
//! Which ranges of memory a step of the machine loads and stores, and that each of them is safe. A crate of definitions and proofs alone.
#![tactic(auto)]

mod code;
mod head;
mod instr;
mod laws;
mod number;
mod reading;
mod site;
mod writing;

pub use instr::{Instr, Width};
pub use laws::{no_instruction_begins_another, no_number_begins_another, number_grammar};
pub use number::{BadNumber, append_number, decode_number};
pub use reading::{BadInstr, decode_one};
pub use site::{PoolCounts, Site};
pub use writing::{append, encode};
