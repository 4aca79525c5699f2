// Nodes of a graph that are marked.

ghost use Rattle.std.specs.Prelude.{◌≡◌, true, not, set, get_or, IfOk};
ghost use Rattle.heap_graph.specs.Frozen.{optional_target, static_in, target_in};
ghost use Rattle.heap_graph.specs.Marks.{is_marked, IsFresh, IsNodeOf, IsAmong, IsMentionedBy, IsOutside, Adds, AreMarked};

use crate::frozen::{FrozenGraph, FunctionNames};
use crate::graph::Target;
use indexmap::IndexMap;
use std::alloc::{AllocError, Global};

/// Nodes of a graph, by their numbers.
#[derive(Drop)]
pub struct NodeMarks {
    marks: Vec<bool>,
}

impl NodeMarks {
    /// None of a graph's nodes.
    pub fn new(alloc: Global, graph: &FrozenGraph) -> Result<NodeMarks, AllocError>
        ensures { IfOk result (IsFresh graph.now.nodes.items) }
    {
        Ok(NodeMarks {
            marks: Vec::from_elem(alloc, false, graph.nodes.len())?,
        })
    }

    /// Whether a node is one of these.
    pub fn is_marked(&self, number: usize) -> bool
        ensures { result ≡ is_marked self.now number }
    {
        self.marks.get(number).copied().unwrap_or(false)
    }

    /// Of each number of the graph, whether its node is one of these.
    pub fn as_slice(&self) -> &[bool]
        ensures { result.now ≡ self.now.marks.items }
    {
        self.marks.as_slice()
    }

    /// Whether a number is one of the graph's and its node none of these.
    pub(crate) fn is_new(&self, number: usize) -> bool
        ensures { result ≡ not (get_or self.now.marks.items number true) }
    {
        !self.marks.get(number).copied().unwrap_or(true)
    }

    /// Adds the node of a number, where the graph has this number.
    pub(crate) fn add(&mut self, number: usize)
        ensures { self.new.marks.items ≡ set self.old.marks.items number true }
    {
        if number < self.marks.len() {
            self.marks[number] = true;
        }
    }

    /// Adds the node of a target.
    pub(crate) fn add_target(&mut self, target: Option<Target>)
        ensures { Adds self.old self.new (IsNodeOf (optional_target target)) }
    {
        if let Some(target) = target {
            self.add(target.node);
        }
    }

    /// Adds the nodes of targets.
    pub(crate) fn add_targets(&mut self, targets: &[Option<Target>])
        ensures { Adds self.old self.new (IsAmong (target_in targets.now)) }
    {
        for target in targets {
            self.add_target(*target);
        }
    }

    /// Adds the nodes of targets that are found by numbers.
    pub(crate) fn add_found(&mut self, targets: &IndexMap<usize, Target>)
        ensures { Adds self.old self.new (IsAmong (static_in targets.now)) }
    {
        for (_, target) in targets.iter() {
            self.add_target(Some(*target));
        }
    }

    /// Adds the nodes of variables outside functions and of literals.
    pub fn add_statics(&mut self, graph: &FrozenGraph)
        ensures { Adds self.old self.new (IsMentionedBy graph.now) }
    {
        self.add_found(&graph.globals);
        self.add_found(&graph.literals);
    }

    /// Adds the nodes of a function's formals and of its result.
    pub fn add_outside(&mut self, names: &FunctionNames)
        ensures { Adds self.old self.new (IsOutside names.now) }
    {
        self.add_targets(&names.parameters);
        self.add_target(names.returned);
    }

    /// The numbers of these nodes.
    pub fn numbers(&self, alloc: Global) -> Result<Vec<usize>, AllocError>
        ensures { IfOk result (λ numbers. AreMarked self.now numbers.items) }
    {
        let mut numbers = Vec::new(alloc);
        for (number, marked) in self.marks.iter().enumerate() {
            if *marked {
                numbers.push(number)?;
            }
        }
        Ok(numbers)
    }
}
