//! Tokens of a source text (C17 6.4).
#![tactic(auto)]

mod characters;
mod classes;
mod comments;
mod directives;
mod front;
mod laws;
mod lex_err;
mod lexer;
mod numbers;
mod punctuators;
mod quoted;
mod tables;
mod words;

pub use laws::{
    faults_leave_no_division, texts_divide_in_one_way, texts_divide_or_have_a_fault,
    texts_have_one_fault,
};
pub use lex_err::LexErr;
pub use lexer::tokens;
