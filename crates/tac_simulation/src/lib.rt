//! The code of a program does what the program means: three-address code passes its points in the order of the reference's evaluation.
//! A crate of proofs alone.
#![tactic(auto)]
