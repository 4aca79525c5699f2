//! Heap graphs of Data Structure Analysis (Lattner, Lenharth, Adve, PLDI 2007): nodes stand for the objects of a program.
//!
//! `specs/Graphs.antt` has the graphs as plain data, `specs/Closed.antt` says when those of a program are closed.
//!
//! What points ask of a graph that is being made, and what that says of the graph of its certain nodes. A crate of definitions and proofs.
//!
//! In a graph that is being made every name has a target. A node is certain unless it may be that of null pointers alone; when the graph is
//! made the others are left out. A graph that is made is completed by one node, to which all points that points to nothing; what is asked
//! while a graph is made holds there.
//!
//! Graphs with all flags: with them closed graphs stay closed, and maps to graphs lead to the same places. A crate of definitions and proofs.
//!
//! A map from the least graphs to others keeps targets, elements and edges, but flags need not be kept. Into graphs with all flags each
//! map keeps them.
//!
//! Which types are parts of others, and at which of their slots they begin.
//!
//! What the elements of nodes tell of the types of their objects' parts.
//!
//! What heap graphs ask of types: those of a table by any number, of which one that stands for no type is taken as `void`.
//!
//! Heap graphs that are only read.
//!
//! `specs/Frozen.antt` has the plain graphs for which these stand.
//!
//! Objects at targets of heap graphs that are only read, and parts of them.
//!
//! What is asked often of a function's code: which registers hold null pointer constants, the types of its locals in memory, and what a tree
//! computes without registers.
//!
//! Collects what is asked often of a function's code.
//!
//! The numbers of variables outside functions by their names, and of literals by their places.
//!
//! The heap graphs of a program that are only read: one for each group of its functions, that of `start`, and the embeddings of calls from
//! a group to another.
//!
//! `specs/Programs.antt` has the plain graphs for which these stand.
//!
//! Searches along the edges of heap graphs that are only read: which nodes escape a function, and which are needed.
//!
//! `specs/Marks.antt` and `specs/Edges.antt` say what is searched for.
//!
//! The order in which nodes of a heap graph stand in its text: depth first from some nodes, along edges in the order of their slots.
//!
//! `specs/Orders.antt` says what the order is.
//!
//! Whether the graphs of a program are closed.
//!
//! `specs/Faults.antt` says what is asked of one group of functions.
#![tactic(auto)]

mod complete;
mod elements;
mod escapes;
mod frozen;
mod graph;
mod marks;
mod needed;
mod numbers;
mod order;
mod part;
mod parts;
mod program;
mod scope;
mod scopes;
mod search;
mod statics;
mod tables;
mod targets;
mod trees;
mod types;

pub use complete::{all_complete, complete_closed};
pub use elements::{element_kept, holds_part, types_differ};
pub use escapes::escaping;
pub use frozen::{Edge, FrozenGraph, FunctionNames, Node};
pub use graph::{Element, Flags, Target};
pub use marks::NodeMarks;
pub use needed::NeededNodes;
pub use numbers::StaticNumbers;
pub use order::{NodeOrder, ordered};
pub use part::{alike, has_part, slots_of};
pub use parts::{Part, Root, element_part, member_part};
pub use program::{Crossing, FunctionGraph, ProgramGraphs};
pub use scope::{LocalTypes, RegisterMarks, Scope};
pub use scopes::scope_of;
pub use search::reached;
pub use statics::{global_root, literal_root};
pub use targets::{
    Reached, edge_at, has_target, is_array_if, is_at, is_collapsed, is_modified, is_read,
    same_target, shifted, widened,
};
pub use trees::constant_of;
pub use types::{
    element_type, elements_of, is_array, is_complete, is_data_pointer, is_data_scalar, is_function,
    size_of, slots_before, type_of_member,
};
