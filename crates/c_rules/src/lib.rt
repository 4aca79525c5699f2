//! The type rules of the language and its typed trees, as definitions (C17 6.2 to 6.9).
//!
//! Elaboration keeps types: the typed tree of a program that violates no rule is well typed (C17 6.5 to 6.9).
//!
//! The typed tree of a program has at most three nodes for each of its syntax tree.
//!
//! The expressions of a typed tree nest at most three nodes deep for each one of its syntax tree.
#![tactic(auto)]

mod constness;
mod rule;
mod violation;

pub use constness::Constness;
pub use rule::TypeRule;
pub use violation::{Violation, is_before};
