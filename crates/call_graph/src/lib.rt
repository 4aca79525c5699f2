//! Graphs, whose nodes are numbers, by the nodes to which each leads.
//!
//! `specs/Rows.antt` says what they are.
//!
//! The strong components of a graph.
//!
//! `specs/Searches.antt` says what they are.
//!
//! The order of a graph's strong components: callees first, and of those that may come next the one with the first node.
//!
//! `specs/Orders.antt` says what that is.
//!
//! Lists of numbers by number, of which equal ones share their memory.
//!
//! `specs/Lists.antt` says which list each number has.
//!
//! The functions that each call may reach.
//!
//! `specs/TargetLists.antt` says which they are, by `is_target` of call_groups.
//!
//! The groups of a program's functions: the strong components of the graph of calls, callees first.
//!
//! `AreGroups` of call_groups says what they are.
#![tactic(auto)]

mod class_table;
mod components;
mod edge_counts;
mod first_nodes;
mod function_keys;
mod graph;
mod group_lists;
mod grouping;
mod lists;
mod mark_list;
mod names;
mod order;
mod row_lists;
mod taken;

pub use class_table::{Classes, functions};
pub use components::component_numbers;
pub use first_nodes::heads;
pub use group_lists::Groups;
pub use grouping::groups;
pub use lists::SharedLists;
pub use mark_list::marks;
pub use order::in_order;
pub use row_lists::{add_edge, rows};
