//! Lowering: from the typed tree of a program to three-address code.
//!
//! `specs/ProgramCode.antt` says when three-address code is the code of a program. `lower` makes such code of a program that is well
//! typed: only want of memory is an error.
#![tactic(auto)]

mod addressed;
mod assignments;
mod builder;
mod calls;
mod conditions;
mod declarations;
mod functions;
mod homes;
mod lowered;
mod lowering;
mod names;
mod objects;
mod pointers;
mod statements;
mod switches;
mod trees;
mod values;

pub use lowering::lower;
