//! Heap graphs in memory, and merging. What has a target names a cell that holds it, so that a node is renamed only in the cells that point to it.
//!
//! The nodes with which the graph of a group of functions begins: one for each name.
//!
//! The steps by which a heap graph is made. Each tests first whether anything has to be done, and tells whether the graph was changed.
//!
//! What points ask of a heap graph that is being made is done to it.
//!
//! How a heap graph goes on while it is made: what is told of it is kept.
//!
//! What is known of the code of a program before its heap graphs are made, and that then each point fits a graph with its names.
//!
//! A graph that was made becomes one that is only read, of its certain nodes alone.
//!
//! `specs/Freezing.antt` says what is told of nodes, edges and names.
#![tactic(auto)]

mod applied;
mod apply;
mod ask;
mod cells;
mod certain;
mod edges;
mod functions;
mod graph;
mod hints;
mod marks;
mod merging;
mod name;
mod name_steps;
mod name_targets;
mod names;
mod node;
mod node_graphs;
mod nodes;
mod object_points;
mod object_steps;
mod objects;
mod paths;
mod points;
mod relation;
mod static_targets;
mod statics;
mod steps;

pub use applied::Applied;
pub use certain::certain_target;
pub use functions::add_function;
pub use graph::Graph;
pub use marks::Mark;
pub use name::Name;
pub use name_targets::{Owned, frozen_names};
pub use names::add_name;
pub use node_graphs::frozen_graph;
pub use objects::{add_global, add_literal};
pub use steps::{make_one, mark, set_edge_to, tell};
