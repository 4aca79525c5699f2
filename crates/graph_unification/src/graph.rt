// Heap graphs in memory: how they are built and read.

ghost use Rattle.std.specs.Prelude.{◌≡◌, ℕ, [], length, option_map, IfOk, OnOk};
ghost use Rattle.c_typed.specs.Table.{Interned, structs_in};
ghost use Rattle.heap_graph.specs.Graphs.{OfGlobal, OfLiteral, node_at};
ghost use Rattle.heap_graph.specs.Targets.{has_target};
ghost use Rattle.heap_graph.specs.Memory.{target_of, element_in, ElementStands, flags_of};
ghost use Rattle.heap_graph.specs.Merging.{IsSlot};
ghost use Rattle.graph_unification.specs.Cells.{has_number};
ghost use Rattle.graph_unification.specs.Memory.{name_of, graph_in, IsGraph};
ghost use Rattle.graph_unification.specs.Changes.{IsBlank, AddsNode, SetsTarget, SetsFlags, edge_found, edge_numbered, told_edge, TellsNode, TellsStanding};

use crate::hints::Hints;
use crate::name::{Name, NameKey, globals_among, literals_among};
use crate::node::Node;
use crate::nodes::Nodes;
use heap_graph::{Element, Flags, Target};
use indexmap::IndexMap;
use std::alloc::{AllocError, Global};

/// The graph of a group of functions. A node keeps its number until it becomes part of another.
#[derive(Drop)]
pub struct Graph {
    pub(crate) nodes: Nodes,
    /// The cells that hold the targets of names.
    pub(crate) names: IndexMap<NameKey, usize>,
}

impl Graph {
    /// A graph without nodes and names.
    #[tactic(none)]
    pub fn new(alloc: Global) -> Graph
        ensures graph { (table : Interned) → IsGraph table result }
        ensures blank { (table : Interned) → IsBlank (graph_in table result) }
    {
        Graph {
            nodes: Nodes {
                alloc,
                list: Vec::new(alloc),
                cells: Vec::new(alloc),
                hints: Hints::new(alloc),
            },
            names: IndexMap::new(alloc),
        }
    }

    /// The number of a new node, which has no edges.
    #[tactic(none)]
    pub fn new_node(&mut self, element: Element, flags: Flags) -> Result<usize, AllocError>
        ensures graph { OnOk result ((table : Interned) → IsGraph table self.old → ElementStands table element → IsGraph table self.new) }
        ensures adds { IfOk result (λ number. (table : Interned) → IsGraph table self.old → AddsNode (graph_in table self.old) (graph_in table self.new) number (record { element = element_in table element; flags = flags_of flags; edges = [] })) }
    {
        let number = self.nodes.list.len();
        let node = Node {
            element,
            flags,
            edges: Vec::new(self.nodes.alloc),
            cells: Vec::new(self.nodes.alloc),
        };
        match self.nodes.list.push(Some(node)) {
            Ok(()) => {}
            Err(_) => return Err(AllocError),
        }
        Ok(number)
    }

    /// How many numbers nodes had so far: they are below it.
    pub fn node_count(&self) -> usize
        ensures { (table : Interned) → result ≡ length (graph_in table self.now).nodes }
    {
        self.nodes.list.len()
    }

    /// The target of a name.
    #[tactic(none)]
    pub fn target(&self, name: Name) -> Option<Target>
        ensures { (table : Interned) → IsGraph table self.now → option_map target_of result ≡ (graph_in table self.now).targets (name_of name) }
    {
        match self.names.get(&name.key()) {
            Some(cell) => Some(self.nodes.find(*cell)),
            None => None,
        }
    }

    /// Gives a name a target, in place of the one that it may have.
    #[tactic(none)]
    pub fn set_target(&mut self, name: Name, to: Target) -> Result<(), AllocError>
        ensures graph { OnOk result ((table : Interned) → IsGraph table self.old → IsSlot (structs_in table) (graph_in table self.old) (target_of to) → IsGraph table self.new) }
        ensures sets { OnOk result ((table : Interned) → IsGraph table self.old → IsSlot (structs_in table) (graph_in table self.old) (target_of to) → SetsTarget (graph_in table self.old) (graph_in table self.new) (name_of name) (target_of to)) }
    {
        let cell = self.nodes.new_name_cell(name, to)?;
        match self.names.insert(name.key(), cell) {
            Ok(_) => Ok(()),
            Err(_) => Err(AllocError),
        }
    }

    /// The element and the flags of a node.
    #[tactic(none)]
    pub fn node(&self, number: usize) -> Option<(Element, Flags)>
        ensures stands { (table : Interned) → IsGraph table self.now → TellsStanding table result }
        ensures tells { (table : Interned) → TellsNode table (node_at (graph_in table self.now) number) result }
    {
        match self.nodes.list.get(number)? {
            Some(node) => Some((node.element, node.flags)),
            None => None,
        }
    }

    /// The target of the edge of a slot.
    #[tactic(none)]
    pub fn edge(&self, number: usize, slot: u64) -> Option<Target>
        ensures { (table : Interned) → IsGraph table self.now → option_map target_of result ≡ edge_found (graph_in table self.now) number slot }
    {
        match self.nodes.edge(number, slot) {
            Some(cell) => Some(self.nodes.find(cell)),
            None => None,
        }
    }

    /// The slot and the target of an edge of a node, by how many stand before it.
    #[tactic(none)]
    pub fn edge_at(&self, number: usize, index: usize) -> Option<(u64, Target)>
        ensures { (table : Interned) → IsGraph table self.now → option_map told_edge result ≡ edge_numbered (graph_in table self.now) number index }
    {
        match self.nodes.list.get(number)? {
            Some(node) => {
                let edge = node.edges.get(index)?;
                Some((edge.slot, self.nodes.find(edge.to)))
            }
            None => None,
        }
    }

    /// Sets the flags of a node.
    #[tactic(none)]
    pub fn set_flags(&mut self, number: usize, flags: Flags)
        ensures graph { (table : Interned) → IsGraph table self.old → IsGraph table self.new }
        ensures sets { (table : Interned) → SetsFlags (graph_in table self.old) (graph_in table self.new) number (flags_of flags) }
    {
        match self.nodes.element(number) {
            Some(_) => self.nodes.set_flags(number, flags),
            None => {}
        }
    }

    /// A name whose node became certain where it wasn't, by flags or by merging. Each name is told once; those that never had a node that
    /// wasn't certain aren't told.
    #[tactic(none)]
    pub fn take_certain(&mut self) -> Option<Name>
        ensures graph { (table : Interned) → IsGraph table self.old → IsGraph table self.new }
        ensures same { (table : Interned) → graph_in table self.new ≡ graph_in table self.old }
    {
        self.nodes.hints.take()
    }

    /// The numbers of the variables outside functions that have targets.
    #[tactic(none)]
    pub fn globals(&self, alloc: Global) -> Result<Vec<usize>, AllocError>
        ensures { IfOk result (λ numbers. (table : Interned) (number : ℕ) → has_number numbers.items number ≡ has_target ((graph_in table self.now).targets (OfGlobal number))) }
    {
        globals_among(alloc, self.names.keys().as_slice())
    }

    /// The numbers of the literals that have targets.
    #[tactic(none)]
    pub fn literals(&self, alloc: Global) -> Result<Vec<usize>, AllocError>
        ensures { IfOk result (λ numbers. (table : Interned) (number : ℕ) → has_number numbers.items number ≡ has_target ((graph_in table self.now).targets (OfLiteral number))) }
    {
        literals_among(alloc, self.names.keys().as_slice())
    }
}
