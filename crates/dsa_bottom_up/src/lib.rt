//! That the graph of a group is closed once all is told of it that is asked: what was told while it was made holds of its certain nodes.
//!
//! The graphs of a program's groups, put together one after the other: what is told of a group's graph while it is made closes the group in
//! each family of graphs that has it. A crate of definitions and proofs alone.
//!
//! The graphs of a program that are made bottom-up are the least: there is a map from them to each other closed family of the program and its
//! groups, and no flag of a node can be taken away.
//!
//! No flag of a node of graphs that are made bottom-up can be taken away: so they are the least.
//!
//! The heap graphs of a program, bottom-up: the graph of one group of functions after the other, callees first, and that of `start`
//! (Lattner, Lenharth, Adve: Making Context-Sensitive Points-to Analysis with Heap Cloning Practical For The Real World, PLDI 2007).
//!
//! `specs/Refused.antt` says when a group begins with too many nodes.
//!
//! From the three-address code of a program to the groups of its functions and their heap graphs.
//!
//! `specs/Graphed.antt` says which groups and graphs the code has, and when it is refused for them.
//!
//! A program is refused for its graphs once: any two families of it whose graphs of the groups before one are closed and the least count as many
//! nodes for that group. A crate of proofs.
//!
//! A program has one three-address code: a relation on the typed tree tells every point. A crate of proofs alone.
//!
//! The three-address code of a program stands as its heap graphs need it. A crate of proofs alone.
//!
//! Lowered code calls by name only functions of the program, and no two points of a function have one call site. A crate of proofs alone.
//!
//! How many nodes the graph of each function begins with: one for each of its parameters and locals, and one for each of its expressions
//! of pointer, array or function type.
//!
//! `specs/Counting.antt` says what counts, and `specs/ExpressionTypes.antt` which types expressions have.
#![tactic(auto)]

mod assembling;
mod counting;
mod counts;
mod expressions;
mod functions;
mod graphed;
mod making;
mod names;
mod places;
mod program;
mod statements;
mod types;

pub use functions::{expression_counts, value_count};
pub use graphed::{CodeGraphs, heap_graphs, own_counts};
pub use program::{Counts, GraphErr, bottom_up};
