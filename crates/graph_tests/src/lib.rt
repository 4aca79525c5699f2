//! Tests of call_graph, heap_graph, graph_unification and graph_checker, by their public calls. They stand apart, since a crate with tests is
//! proved twice.
#![tactic(auto)]

#[cfg(test)]
mod code;
#[cfg(test)]
mod faults;
#[cfg(test)]
mod fitting;
#[cfg(test)]
mod graphs;
#[cfg(test)]
mod heap_graphs;
#[cfg(test)]
mod known_calls;
#[cfg(test)]
mod order;
#[cfg(test)]
mod programs;
#[cfg(test)]
mod scenes;
#[cfg(test)]
mod sights;
#[cfg(test)]
mod targets;
#[cfg(test)]
mod types;
