//! The machine: it runs an image on a source of input and a sink of output.
//!
//! What an image does is in `pool_isa`'s `specs/Machine.antt`. `specs/Run.antt` says what a run answers.
//!
//! The operators of a machine on words of 64 bits, each at an integer type.
//!
//! A word stands for the value of the type that its lowest bits are. The operators work on words, without wider numbers.
#![tactic(auto)]

mod activation;
mod arithmetic;
mod bits;
mod calls;
mod division;
mod ends;
mod heap;
mod inner_loop;
mod loaded;
mod memory;
mod operands;
mod operators;
mod pages;
mod pools;
mod region;
mod report;
mod shifts;
mod tally;
mod words;

pub use bits::converted_word;
pub use ends::RunEnd;
pub use loaded::Machine;
pub use operators::{binary_word, compared_word, complement_word, negated_word};
pub use pool_isa::PoolCounts;
pub use report::{Report, ReportRow};
