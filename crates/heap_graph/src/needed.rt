// Which nodes of a graph are needed.

ghost use Rattle.std.specs.Prelude.{IfOk, IsTrue, ◌↔◌};
ghost use Rattle.c_typed.specs.Table.{Interned};
ghost use Rattle.heap_graph.specs.Frozen.{optional_target, bare};
ghost use Rattle.heap_graph.specs.Marks.{IsFresh, IsNodeOf, IsNamedBy, IsMentionedBy, IsImageOf, Adds};
ghost use Rattle.heap_graph.specs.Complete.{AreAllMarked};

use crate::frozen::{FrozenGraph, FunctionNames};
use crate::graph::Target;
use crate::marks::NodeMarks;
use indexmap::IndexMap;
use std::alloc::{AllocError, Global};

/// The nodes of a graph that are named or embedded, as far as they were added.
#[derive(Drop)]
pub struct NeededNodes {
    marks: NodeMarks,
}

impl NeededNodes {
    /// None of a graph's nodes.
    pub fn new(alloc: Global, graph: &FrozenGraph) -> Result<NeededNodes, AllocError>
        ensures { IfOk result (λ needed. IsFresh graph.now.nodes.items needed.marks) }
    {
        Ok(NeededNodes {
            marks: NodeMarks::new(alloc, graph)?,
        })
    }

    /// Adds the node of a target.
    pub fn add(&mut self, target: Option<Target>)
        ensures { Adds self.old.marks self.new.marks (IsNodeOf (optional_target target)) }
    {
        self.marks.add_target(target);
    }

    /// Adds the nodes of a function's registers, its result and its locals in memory.
    pub fn add_names(&mut self, names: &FunctionNames)
        ensures { Adds self.old.marks self.new.marks (IsNamedBy names.now) }
    {
        self.marks.add_targets(&names.parameters);
        self.marks.add_targets(&names.variables);
        self.marks.add_targets(&names.calls);
        self.marks.add_targets(&names.arguments);
        self.marks.add_targets(&names.expressions);
        self.marks.add_targets(&names.parameter_objects);
        self.marks.add_targets(&names.variable_objects);
        self.marks.add_target(names.returned);
    }

    /// Adds the nodes of variables outside functions and of literals.
    pub fn add_statics(&mut self, graph: &FrozenGraph)
        ensures { Adds self.old.marks self.new.marks (IsMentionedBy graph.now) }
    {
        self.marks.add_statics(graph);
    }

    /// Adds the images of nodes.
    pub fn add_images(&mut self, embedding: &IndexMap<usize, Target>)
        ensures { Adds self.old.marks self.new.marks (IsImageOf embedding.now) }
    {
        self.marks.add_found(embedding);
    }

    /// Whether each node of the graph was added.
    pub fn are_all(&self, graph: &FrozenGraph) -> bool
        ensures { (table : Interned) → IsTrue result ↔ AreAllMarked (bare table graph.now) self.now.marks }
    {
        for (number, node) in graph.nodes.iter().enumerate() {
            if node.is_some() && !self.marks.is_marked(number) {
                return false;
            }
        }
        true
    }
}
