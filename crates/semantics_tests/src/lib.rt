//! Tests of `ref_store` and `ref_meaning`, by their public calls. They stand apart, since a crate with tests is proved twice.
//!
//! What some programs do by the reference, from their syntax trees on, and how many units they spend (`proofs/Answers.antt`).
#![tactic(auto)]

#[cfg(test)]
mod runs;
#[cfg(test)]
mod sources;
#[cfg(test)]
mod stores;
