//! Frames, static objects and numbers of functions of lowered code lie in their ranges. A crate of proofs alone.
//!
//! First values of the code of a well typed program stand where scalars of its static objects are. A crate of proofs alone.
//!
//! What code with pools asks of three-address code is so of the code of each accepted program. A crate of proofs alone.
//!
//! Rewritten code fits into frames of the machine. A crate of proofs alone.
//!
//! Lowered code has few operands at once. A crate of proofs alone.
//!
//! The code with one pool of an accepted program fits an image. A crate of proofs alone.
//!
//! Three-address code on the machine, by code with pools. A crate of proofs alone.
//!
//! What the machine runs of a program's emitted code follows the program: proofs alone.
#![tactic(auto)]
