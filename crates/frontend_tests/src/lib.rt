//! Tests of `c_lexer`, by its public calls. They stand apart, since a crate with tests is proved twice.
//!
//! Tests of `c_reader`, by its public call. They stand apart, since a crate with tests is proved twice.
//!
//! Tests of `c_typed`, by its public calls. They stand apart, since a crate with tests is proved twice.
#![tactic(auto)]

#[cfg(test)]
mod lexer;
#[cfg(test)]
mod reader;
#[cfg(test)]
mod typed;
