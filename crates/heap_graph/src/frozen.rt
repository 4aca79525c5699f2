// Heap graphs that aren't changed any more.

ghost use Rattle.std.specs.Prelude.{◌≡◌};
ghost use Rattle.heap_graph.specs.Graphs.{edge_in};
ghost use Rattle.heap_graph.specs.Frozen.{optional_target, edges_of, register_target, object_target, target_in, static_in, NodeIs};

use crate::graph::{Element, Flags, Target};
use indexmap::IndexMap;
use tac_ir::{GlobalId, LiteralId, Local, Register};

/// What the pointer at a slot points to.
#[derive(Clone, Copy, Debug, PartialEq, Eq)]
pub struct Edge {
    pub slot: u64,
    pub to: Target,
}

#[derive(Drop)]
pub struct Node {
    pub element: Element,
    pub flags: Flags,
    pub edges: Vec<Edge>,
}

/// The targets of a function's names, by their numbers.
#[derive(Drop)]
pub struct FunctionNames {
    pub parameters: Vec<Option<Target>>,
    pub variables: Vec<Option<Target>>,
    pub calls: Vec<Option<Target>>,
    pub arguments: Vec<Option<Target>>,
    pub expressions: Vec<Option<Target>>,
    pub parameter_objects: Vec<Option<Target>>,
    pub variable_objects: Vec<Option<Target>>,
    pub returned: Option<Target>,
}

/// The graph of a group of functions, without the names of the functions. A number may be that of no node any more. Of variables outside
/// functions and of literals those that the group mentions have targets, by their numbers.
#[derive(Drop)]
pub struct FrozenGraph {
    pub nodes: Vec<Option<Node>>,
    pub globals: IndexMap<usize, Target>,
    pub literals: IndexMap<usize, Target>,
}

impl Node {
    /// What the pointer at a slot points to.
    pub fn edge(&self, slot: u128) -> Option<Target>
        ensures { optional_target result ≡ edge_in (edges_of self.now.edges.items) slot }
    {
        for edge in &self.edges {
            if u128::from(edge.slot) == slot {
                return Some(edge.to);
            }
        }
        None
    }
}

impl FunctionNames {
    /// The target of a register.
    pub fn register(&self, register: Register) -> Option<Target>
        ensures { optional_target result ≡ register_target self.now register }
    {
        match register {
            Register::Local(Local::Parameter(number)) => target_at(&self.parameters, number),
            Register::Local(Local::Variable(number)) => target_at(&self.variables, number),
            Register::Call(number) => target_at(&self.calls, number),
            Register::Argument(number) => target_at(&self.arguments, number),
            Register::Expression(number) => target_at(&self.expressions, number),
            Register::Temporary(_) => None,
        }
    }

    /// The target of a local in memory.
    pub fn object(&self, local: Local) -> Option<Target>
        ensures { optional_target result ≡ object_target self.now local }
    {
        match local {
            Local::Parameter(number) => target_at(&self.parameter_objects, number),
            Local::Variable(number) => target_at(&self.variable_objects, number),
        }
    }
}

impl FrozenGraph {
    /// The node of a number.
    pub fn node(&self, number: usize) -> Option<&Node>
        ensures { NodeIs self.now.nodes.items number result }
    {
        match self.nodes.get(number) {
            Some(node) => node.as_ref(),
            None => None,
        }
    }

    /// The target of a variable outside functions.
    pub fn global(&self, global: GlobalId) -> Option<Target>
        ensures { optional_target result ≡ static_in self.now.globals global.0 }
    {
        self.globals.get(&global.0).copied()
    }

    /// The target of a literal.
    pub fn literal(&self, literal: LiteralId) -> Option<Target>
        ensures { optional_target result ≡ static_in self.now.literals literal.0 }
    {
        self.literals.get(&literal.0).copied()
    }
}

/// The target of the name with this number.
fn target_at(targets: &Vec<Option<Target>>, number: usize) -> Option<Target>
    ensures { optional_target result ≡ target_in targets.now.items number }
{
    match targets.get(number) {
        Some(target) => *target,
        None => None,
    }
}
