//! The machine's instructions of code with pools, and that they do what it does. A crate of definitions and proofs alone.
//!
//! Code with pools that fits an image: definitions, and that its instructions then keep the ranges of an image.
//!
//! From code with pools to the instructions of the machine.
//!
//! Descriptors and registers are words of the frame, and no operand is left between points. The points of a function are laid out in their
//! order, behind what is done at its entry, and a jump leads from a point to another that isn't laid out behind it. What is emitted is
//! defined in pool_stack (`specs/Emitting.antt`: `emitted`), which shows what it does.
#![tactic(auto)]

mod calls;
mod functions;
mod heights;
mod paths;
mod points;
mod pools;
mod program;
mod trees;
mod units;
mod ways;
mod words;

pub use program::emit;
pub use units::{Unit, Units};
