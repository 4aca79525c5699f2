// The graphs of a program.

use crate::frozen::{FrozenGraph, FunctionNames};
use crate::graph::Target;
use indexmap::IndexMap;

/// A call out of a group: its site in the function that calls, and a function to which it may come.
#[derive(Clone, Copy, Debug, PartialEq, Eq, Hash)]
pub struct Crossing {
    pub site: usize,
    pub called: usize,
}

/// What the graphs of a program tell of a function: the targets of its names, and for each of its calls out of its group where the nodes
/// that escape the function that is called are in its own graph, by their numbers in the other.
#[derive(Drop)]
pub struct FunctionGraph {
    pub names: FunctionNames,
    pub embeddings: IndexMap<Crossing, IndexMap<usize, Target>>,
}

/// The graphs of a program: by the numbers of groups, and that of `start`; what they tell of functions, by the numbers of functions.
#[derive(Drop)]
pub struct ProgramGraphs {
    pub graphs: Vec<FrozenGraph>,
    pub functions: Vec<FunctionGraph>,
    pub start: FrozenGraph,
    pub start_function: FunctionGraph,
}
