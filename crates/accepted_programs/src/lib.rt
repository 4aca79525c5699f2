//! The syntax tree of a program that is read from a text has at most one node for each byte, and one for its end.
//!
//! The expressions of a program that is read from a text nest no deeper than the grammar's trees may.
//!
//! The literals of a program that is read from a text are found at their places (C17 6.4.5).
//!
//! Objects of an accepted text have a byte at least: no structure is without members, and no array without elements.
//!
//! The expressions of the typed tree of a program whose text is accepted nest at most 1,024 nodes deep.
//!
//! A program within the limits has small types: those of its objects and of the pointers that it converts have exact sizes.
//!
//! The calls of an accepted program have few arguments. A crate of proofs alone.
//!
//! A text that is read, checked and within the limits has a typed tree that its meaning may be given: a well typed one, whose objects get types of exact sizes with a byte at least.
//!
//! The structures of an accepted program have few slots. A crate of proofs alone.
#![tactic(auto)]
