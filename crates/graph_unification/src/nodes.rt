// The nodes of a graph, and the cells that point to them.

ghost use Rattle.std.specs.Prelude.{◌≡◌, ◌<◌, [], ◌∷◌, length, IfOk, OnOk};
ghost use Rattle.heap_graph.specs.Memory.{target_of, flags_of};
ghost use Rattle.heap_graph.specs.Steps.{both_flags};
ghost use Rattle.graph_unification.specs.Memory.{content, made_edge};
ghost use Rattle.graph_unification.specs.Turns.{element_at, is_flat, edges_in, IsThere, AddsCell, HoldsCells, Gains, Joins, Flattens, AddsEdge, Retypes, ChangesFlags};

use crate::cells::{flatten, rename};
use crate::hints::Hints;
use crate::name::Name;
use crate::node::{Node, SlotEdge};
use heap_graph::{Element, Flags, Target};
use std::alloc::{AllocError, Global};
use std::mem;

/// The nodes of a graph, each by its number, and the cells in which targets are kept.
#[derive(Drop)]
pub(crate) struct Nodes {
    pub(crate) alloc: Global,
    /// None where a node became part of another.
    pub(crate) list: Vec<Option<Node>>,
    pub(crate) cells: Vec<Target>,
    pub(crate) hints: Hints,
}

impl Nodes {
    /// What a cell holds. One that isn't there would point to no node.
    pub(crate) fn find(&self, cell: usize) -> Target
        ensures { target_of result ≡ content self.now cell }
    {
        match self.cells.get(cell) {
            Some(target) => *target,
            None => Target {
                node: self.list.len(),
                shift: 0,
            },
        }
    }

    /// The element of a node.
    pub(crate) fn element(&self, node: usize) -> Option<Element>
        ensures { result ≡ element_at self.now.list.items node }
    {
        match self.list.get(node)? {
            Some(node) => Some(node.element),
            None => None,
        }
    }

    /// Whether a node is collapsed.
    pub(crate) fn is_collapsed(&self, node: usize) -> bool
        ensures { result ≡ is_flat (element_at self.now.list.items node) }
    {
        match self.element(node) {
            Some(element) => match element {
                Element::Collapsed => true,
                Element::Missing => false,
                Element::OfType(_) => false,
            },
            None => false,
        }
    }

    /// The cell of the edge of a slot.
    pub(crate) fn edge(&self, node: usize, slot: u64) -> Option<usize>
        ensures { result ≡ made_edge (edges_in self.now.list.items node) slot }
    {
        match self.list.get(node)? {
            Some(node) => edge_of(&node.edges, slot),
            None => None,
        }
    }

    /// How many edges a node has.
    pub(crate) fn edge_count(&self, node: usize) -> usize
        ensures { result ≡ length (edges_in self.now.list.items node) }
    {
        match self.list.get(node) {
            Some(node) => match node {
                Some(node) => node.edges.len(),
                None => 0,
            },
            None => 0,
        }
    }

    /// How many cells may point to a node.
    pub(crate) fn cell_count(&self, node: usize) -> usize {
        match self.list.get(node) {
            Some(node) => match node {
                Some(node) => node.cells.len(),
                None => 0,
            },
            None => 0,
        }
    }

    /// The number of a new cell, which holds a target.
    #[tactic(none)]
    pub(crate) fn new_cell(&mut self, to: Target) -> Result<usize, AllocError>
        ensures { IfOk result (λ number. AddsCell self.old self.new number to) }
    {
        let number = self.cells.len();
        match self.cells.push(to) {
            Ok(()) => {}
            Err(_) => return Err(AllocError),
        }
        self.hold(to.node, number)?;
        self.hints.make_room(self.cells.len())?;
        Ok(number)
    }

    /// The number of a new cell for a name, which holds a target.
    #[tactic(none)]
    pub(crate) fn new_name_cell(&mut self, name: Name, to: Target) -> Result<usize, AllocError>
        ensures { IfOk result (λ number. AddsCell self.old self.new number to) }
    {
        let number = self.new_cell(to)?;
        self.hints.note_name(number, name)?;
        Ok(number)
    }

    /// Notes with a node that a cell points to it.
    #[tactic(none)]
    fn hold(&mut self, number: usize, cell: usize) -> Result<(), AllocError>
        ensures cells { self.new.cells ≡ self.old.cells }
        ensures list { OnOk result (HoldsCells self.old.list.items self.new.list.items number (cell ∷ [])) }
    {
        if number >= self.list.len() {
            return Ok(());
        }
        match &mut self.list[number] {
            Some(node) => match node.cells.push(cell) {
                Ok(()) => Ok(()),
                Err(_) => Err(AllocError),
            },
            None => Ok(()),
        }
    }

    /// Makes a node part of another, in which its slots lie behind so many others. The edges that it had are returned.
    #[tactic(none)]
    pub(crate) fn join(
        &mut self,
        part: usize,
        whole: usize,
        distance: u64,
    ) -> Result<Vec<SlotEdge>, AllocError>
        requires part { IsThere self.old.list.items part }
        requires whole { IsThere self.old.list.items whole }
        requires differ { part ≡ whole → ⊥ }
        ensures joins { OnOk result (Joins self.old self.new part whole distance) }
        ensures edges { IfOk result (λ edges. edges.items ≡ edges_in self.old.list.items part) }
    {
        match mem::replace(&mut self.list[part], None) {
            Some(gone) => {
                rename(&mut self.cells, &gone.cells, part, whole, distance);
                self.gain(whole, gone.flags, &gone.cells)?;
                Ok(gone.edges)
            }
            None => Ok(Vec::new(self.alloc)),
        }
    }

    /// Adds flags to those of a node, and cells that point to it.
    #[tactic(none)]
    fn gain(&mut self, number: usize, flags: Flags, cells: &[usize]) -> Result<(), AllocError>
        requires { number < length self.old.list.items }
        ensures cells { self.new.cells ≡ self.old.cells }
        ensures list { OnOk result (Gains self.old.list.items self.new.list.items number flags cells.now) }
    {
        match &mut self.list[number] {
            Some(node) => {
                let is_certain = node.flags.certain;
                self.hints
                    .note_cells(is_certain, flags.certain, &node.cells);
                self.hints.note_cells(flags.certain, is_certain, cells);
                node.flags = both(node.flags, flags);
                node.cells.extend_from_slice(cells)
            }
            None => Ok(()),
        }
    }

    /// Collapses a node. The edges that it had are returned.
    #[tactic(none)]
    pub(crate) fn flatten(&mut self, number: usize) -> Vec<SlotEdge>
        requires { number < length self.old.list.items }
        ensures flattens { Flattens self.old self.new number }
        ensures edges { result.items ≡ edges_in self.old.list.items number }
    {
        match &mut self.list[number] {
            Some(node) => {
                node.element = Element::Collapsed;
                flatten(&mut self.cells, &node.cells, number);
                mem::replace(&mut node.edges, Vec::new(self.alloc))
            }
            None => Vec::new(self.alloc),
        }
    }

    /// Gives a slot an edge, where it has none.
    #[tactic(none)]
    pub(crate) fn add_edge(&mut self, number: usize, slot: u64, to: usize) -> Result<(), AllocError>
        requires { number < length self.old.list.items }
        ensures { OnOk result (AddsEdge self.old self.new number slot to) }
    {
        match &mut self.list[number] {
            Some(node) => match node.edges.push(SlotEdge { slot, to }) {
                Ok(()) => Ok(()),
                Err(_) => Err(AllocError),
            },
            None => Ok(()),
        }
    }

    /// Gives a node another element.
    #[tactic(none)]
    pub(crate) fn retype(&mut self, number: usize, element: Element)
        requires { number < length self.old.list.items }
        ensures { Retypes self.old self.new number element }
    {
        match &mut self.list[number] {
            Some(node) => node.element = element,
            None => {}
        }
    }

    /// Gives a node other flags.
    #[tactic(none)]
    pub(crate) fn set_flags(&mut self, number: usize, flags: Flags)
        requires { number < length self.old.list.items }
        ensures { ChangesFlags self.old self.new number flags }
    {
        match &mut self.list[number] {
            Some(node) => {
                self.hints
                    .note_cells(node.flags.certain, flags.certain, &node.cells);
                node.flags = flags;
            }
            None => {}
        }
    }
}

/// The cell of the edge of a slot.
fn edge_of(edges: &[SlotEdge], slot: u64) -> Option<usize>
    ensures { result ≡ made_edge edges.now slot }
{
    for edge in edges {
        if edge.slot == slot {
            return Some(edge.to);
        }
    }
    None
}

/// The flags of a node that two became.
fn both(a: Flags, b: Flags) -> Flags
    ensures { flags_of result ≡ both_flags (flags_of a) (flags_of b) }
{
    Flags {
        heap: a.heap || b.heap,
        stack: a.stack || b.stack,
        global: a.global || b.global,
        array: a.array || b.array,
        modified: a.modified || b.modified,
        read: a.read || b.read,
        complete: a.complete && b.complete,
        certain: a.certain || b.certain,
    }
}
