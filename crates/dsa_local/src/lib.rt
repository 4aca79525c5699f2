//! The nodes with which the graph of a group of functions begins: those of their names, and of the variables outside functions and the
//! literals with which their paths begin.
//!
//! Calls within a group of functions, in a heap graph that is being made: arguments and formals are one, and so are calls and results;
//! functions to which one call may come through a pointer share formals and result.
//!
//! `specs/Joined.antt` says what holds of the graph afterwards.
//!
//! What the points of a group's functions ask is done to a graph that is being made, in rounds, until nothing is left to do; and what is told of
//! allocations at the end.
//!
//! What the first values of variables outside functions ask of the graph of `start` while it is made: each acts as a store into its variable.
//!
//! The graph of a group of functions without its calls out of the group (the local phase of Data Structure Analysis): what the points of its
//! functions and the calls within the group ask of it holds.
//!
//! `specs/Local.antt` says so.
//!
//! Maps into graphs with all flags are maps of graphs that have got flags more. A crate of proofs.
#![tactic(auto)]

mod agenda;
mod called;
mod calls;
mod changes;
mod classes;
mod code;
mod edges;
mod graphs;
mod group;
mod members;
mod mentioned;
mod names;
mod parts;
mod places;
mod roots;
mod rounds;
mod sizes;
mod stores;
mod values;

pub use called::CalledClasses;
pub use changes::{mark, mention};
pub use edges::point;
pub use graphs::{LocalGraph, joined_group, joined_start, local};
pub use group::begin_group;
pub use members::Group;
pub use parts::{has_member, is_moved, slots_to};
pub use places::place;
pub use roots::{Root, static_root};
pub use rounds::settle;
pub use sizes::tell_sizes;
pub use values::apply_first;
