// Merging: what is asked is a list, and each turn settles the first thing, or asks for others in its place.

ghost use Rattle.std.specs.Prelude.{◌≡◌, ◌++◌, [], ◌∷◌, reverse, OnOk};
ghost use Rattle.c_typed.specs.Table.{structs_in};
ghost use Rattle.heap_graph.specs.Structures.{AreMade};
ghost use Rattle.heap_graph.specs.Memory.{target_of};
ghost use Rattle.heap_graph.specs.Merging.{IsSlot, LeastWith, AreOne, IsCollapsed, HasEdge};
ghost use Rattle.heap_graph.specs.Steps.{One, Collapse, Points, IsNode, IsOf, AllAreOf};
ghost use Rattle.graph_unification.specs.Memory.{content, graph_in, IsGraph};
ghost use Rattle.graph_unification.specs.Turns.{ask_in, asks_in, asked_of_clash, IsThere, AsksEdges, Lays, Links, Goes};

use crate::ask::{Ask, push, push_edges};
use crate::graph::Graph;
use crate::node::SlotEdge;
use crate::nodes::Nodes;
use crate::relation::{Relation, relation_of};
use c_typed::TypeTable;
use heap_graph::Target;
use std::alloc::AllocError;

impl Graph {
    /// Makes two targets one.
    #[tactic(none)]
    pub fn merge(&mut self, types: &TypeTable, a: Target, b: Target) -> Result<(), AllocError>
        requires made { AreMade (structs_in types.now) }
        requires graph { IsGraph types.now self.old }
        requires first { IsSlot (structs_in types.now) (graph_in types.now self.old) (target_of a) }
        requires second { IsSlot (structs_in types.now) (graph_in types.now self.old) (target_of b) }
        ensures graph { OnOk result (IsGraph types.now self.new) }
        ensures least { OnOk result (LeastWith (structs_in types.now) (graph_in types.now self.old) (graph_in types.now self.new) (AreOne (target_of a) (target_of b))) }
    {
        let first = self.nodes.new_cell(a)?;
        let second = self.nodes.new_cell(b)?;
        self.settle(types, Ask::One(first, second))
    }

    /// Collapses a node.
    #[tactic(none)]
    pub fn collapse(&mut self, types: &TypeTable, node: usize) -> Result<(), AllocError>
        requires made { AreMade (structs_in types.now) }
        requires graph { IsGraph types.now self.old }
        requires node { IsNode (graph_in types.now self.old) node }
        ensures graph { OnOk result (IsGraph types.now self.new) }
        ensures least { OnOk result (LeastWith (structs_in types.now) (graph_in types.now self.old) (graph_in types.now self.new) (IsCollapsed node)) }
    {
        if self.nodes.edge_count(node) == 0 {
            drop(self.nodes.flatten(node));
            return Ok(());
        }
        let first = self.nodes.new_cell(Target { node, shift: 0 })?;
        self.settle(types, Ask::Collapse(first))
    }

    /// Gives a slot an edge to a target, which becomes one with that of the edge that it has.
    #[tactic(none)]
    pub fn set_edge(
        &mut self,
        types: &TypeTable,
        node: usize,
        slot: u64,
        to: Target,
    ) -> Result<(), AllocError>
        requires made { AreMade (structs_in types.now) }
        requires graph { IsGraph types.now self.old }
        requires from { IsSlot (structs_in types.now) (graph_in types.now self.old) (record { node = node; shift = slot }) }
        requires to { IsSlot (structs_in types.now) (graph_in types.now self.old) (target_of to) }
        ensures graph { OnOk result (IsGraph types.now self.new) }
        ensures least { OnOk result (LeastWith (structs_in types.now) (graph_in types.now self.old) (graph_in types.now self.new) (HasEdge node slot (target_of to))) }
    {
        let at = self.nodes.new_cell(Target { node, shift: slot })?;
        let end = self.nodes.new_cell(to)?;
        self.settle(types, Ask::Points { at, to: end })
    }

    /// Settles what is asked, and what that asks for.
    #[tactic(none)]
    fn settle(&mut self, types: &TypeTable, ask: Ask) -> Result<(), AllocError>
        requires made { AreMade (structs_in types.now) }
        requires graph { IsGraph types.now self.old }
        requires asks { IsOf (structs_in types.now) (graph_in types.now self.old) (ask_in self.old.nodes ask) }
        ensures { OnOk result (Goes types.now self.old self.new (ask_in self.old.nodes ask ∷ []) []) }
    {
        let mut work = Vec::new(self.nodes.alloc);
        push(&mut work, ask)?;
        for _turn in 0..u64::MAX {
            match work.pop() {
                Some(next) => self.turn(types, &mut work, next)?,
                None => return Ok(()),
            }
        }
        Err(AllocError)
    }

    /// Settles one thing that is asked, or asks for others in its place.
    #[tactic(none)]
    fn turn(&mut self, types: &TypeTable, work: &mut Vec<Ask>, ask: Ask) -> Result<(), AllocError>
        requires made { AreMade (structs_in types.now) }
        requires graph { IsGraph types.now self.old }
        requires ask { IsOf (structs_in types.now) (graph_in types.now self.old) (ask_in self.old.nodes ask) }
        requires asks { AllAreOf (structs_in types.now) (graph_in types.now self.old) (asks_in self.old.nodes (reverse work.old.items)) }
        ensures { OnOk result (Goes types.now self.old self.new (ask_in self.old.nodes ask ∷ asks_in self.old.nodes (reverse work.old.items)) (asks_in self.new.nodes (reverse work.new.items))) }
    {
        match ask {
            Ask::One(a, b) => self.unite(types, work, a, b),
            Ask::Collapse(cell) => self.flatten(types, work, cell),
            Ask::Points { at, to } => self.point(types, work, at, to),
        }
    }

    /// Makes the targets of two cells one.
    #[tactic(none)]
    fn unite(
        &mut self,
        types: &TypeTable,
        work: &mut Vec<Ask>,
        a: usize,
        b: usize,
    ) -> Result<(), AllocError>
        requires made { AreMade (structs_in types.now) }
        requires graph { IsGraph types.now self.old }
        requires first { IsSlot (structs_in types.now) (graph_in types.now self.old) (content self.old.nodes a) }
        requires second { IsSlot (structs_in types.now) (graph_in types.now self.old) (content self.old.nodes b) }
        requires asks { AllAreOf (structs_in types.now) (graph_in types.now self.old) (asks_in self.old.nodes (reverse work.old.items)) }
        ensures { OnOk result (Goes types.now self.old self.new (One (content self.old.nodes a) (content self.old.nodes b) ∷ asks_in self.old.nodes (reverse work.old.items)) (asks_in self.new.nodes (reverse work.new.items))) }
    {
        let first = self.nodes.find(a);
        let second = self.nodes.find(b);
        if first.node != second.node {
            return self.relate(types, work, a, b);
        }
        if first.shift == second.shift {
            return Ok(());
        }
        push(work, Ask::Collapse(a))
    }

    /// Makes the targets of two cells one, which are slots of two nodes.
    #[tactic(none)]
    fn relate(
        &mut self,
        types: &TypeTable,
        work: &mut Vec<Ask>,
        a: usize,
        b: usize,
    ) -> Result<(), AllocError>
        requires made { AreMade (structs_in types.now) }
        requires graph { IsGraph types.now self.old }
        requires first { IsSlot (structs_in types.now) (graph_in types.now self.old) (content self.old.nodes a) }
        requires second { IsSlot (structs_in types.now) (graph_in types.now self.old) (content self.old.nodes b) }
        requires differ { (content self.old.nodes a).node ≡ (content self.old.nodes b).node → ⊥ }
        requires asks { AllAreOf (structs_in types.now) (graph_in types.now self.old) (asks_in self.old.nodes (reverse work.old.items)) }
        ensures { OnOk result (Goes types.now self.old self.new (One (content self.old.nodes a) (content self.old.nodes b) ∷ asks_in self.old.nodes (reverse work.old.items)) (asks_in self.new.nodes (reverse work.new.items))) }
    {
        let first = self.nodes.find(a);
        let second = self.nodes.find(b);
        let Some(one) = self.nodes.element(first.node) else {
            return Ok(());
        };
        let Some(other) = self.nodes.element(second.node) else {
            return Ok(());
        };
        match relation_of(types, one, first.shift, other, second.shift) {
            Relation::Inside(distance) => {
                self.nodes.lay(work, first.node, second.node, distance)
            }
            Relation::Around(distance) => {
                self.nodes.lay(work, second.node, first.node, distance)
            }
            Relation::Clashing => clash(work, a, b),
        }
    }

    /// Collapses the node to which a cell points, and asks for its edges at its one slot.
    #[tactic(none)]
    fn flatten(
        &mut self,
        types: &TypeTable,
        work: &mut Vec<Ask>,
        cell: usize,
    ) -> Result<(), AllocError>
        requires made { AreMade (structs_in types.now) }
        requires graph { IsGraph types.now self.old }
        requires node { IsNode (graph_in types.now self.old) (content self.old.nodes cell).node }
        requires asks { AllAreOf (structs_in types.now) (graph_in types.now self.old) (asks_in self.old.nodes (reverse work.old.items)) }
        ensures { OnOk result (Goes types.now self.old self.new (Collapse (content self.old.nodes cell).node ∷ asks_in self.old.nodes (reverse work.old.items)) (asks_in self.new.nodes (reverse work.new.items))) }
    {
        let _ = types;
        let node = self.nodes.find(cell).node;
        if self.nodes.is_collapsed(node) {
            return Ok(());
        }
        let edges = self.nodes.flatten(node);
        push_edges(work, cell, &edges)
    }

    /// Gives a slot an edge, or asks that the target of the edge that it has be one with that of the new one.
    #[tactic(none)]
    fn point(
        &mut self,
        types: &TypeTable,
        work: &mut Vec<Ask>,
        at: usize,
        to: usize,
    ) -> Result<(), AllocError>
        requires made { AreMade (structs_in types.now) }
        requires graph { IsGraph types.now self.old }
        requires from { IsSlot (structs_in types.now) (graph_in types.now self.old) (content self.old.nodes at) }
        requires to { IsSlot (structs_in types.now) (graph_in types.now self.old) (content self.old.nodes to) }
        requires asks { AllAreOf (structs_in types.now) (graph_in types.now self.old) (asks_in self.old.nodes (reverse work.old.items)) }
        ensures { OnOk result (Goes types.now self.old self.new (Points (content self.old.nodes at).node (content self.old.nodes at).shift (content self.old.nodes to) ∷ asks_in self.old.nodes (reverse work.old.items)) (asks_in self.new.nodes (reverse work.new.items))) }
    {
        let _ = types;
        let here = self.nodes.find(at);
        match self.nodes.edge(here.node, here.shift) {
            Some(own) => push(work, Ask::One(own, to)),
            None => self.nodes.add_edge(here.node, here.shift, to),
        }
    }
}

impl Nodes {
    /// Makes a node part of another in which it lies. Where both begin at the same slot, the one to which fewer cells point is the part.
    #[tactic(none)]
    fn lay(
        &mut self,
        work: &mut Vec<Ask>,
        part: usize,
        whole: usize,
        distance: u64,
    ) -> Result<(), AllocError>
        requires part { IsThere self.old.list.items part }
        requires whole { IsThere self.old.list.items whole }
        requires differ { part ≡ whole → ⊥ }
        ensures { OnOk result (Lays self.old self.new part whole distance (reverse work.old.items) (reverse work.new.items)) }
    {
        if distance > 0 || self.cell_count(part) <= self.cell_count(whole) {
            return self.link(work, part, whole, distance);
        }
        match self.element(whole) {
            Some(element) => {
                self.retype(part, element);
                self.link(work, whole, part, 0)
            }
            None => Ok(()),
        }
    }

    /// Makes a node part of another, and asks for its edges there.
    #[tactic(none)]
    fn link(
        &mut self,
        work: &mut Vec<Ask>,
        part: usize,
        whole: usize,
        distance: u64,
    ) -> Result<(), AllocError>
        requires part { IsThere self.old.list.items part }
        requires whole { IsThere self.old.list.items whole }
        requires differ { part ≡ whole → ⊥ }
        ensures { OnOk result (Links self.old self.new part whole distance (reverse work.old.items) (reverse work.new.items)) }
    {
        let edges = self.join(part, whole, distance)?;
        self.ask_edges(work, whole, distance, &edges)
    }

    /// Asks for edges behind so many slots of a node, before all others.
    #[tactic(none)]
    fn ask_edges(
        &mut self,
        work: &mut Vec<Ask>,
        node: usize,
        distance: u64,
        edges: &[SlotEdge],
    ) -> Result<(), AllocError>
        ensures { OnOk result (AsksEdges node distance self.old (reverse work.old.items) edges.now self.new (reverse work.new.items)) }
    {
        let mut left = edges.len();
        while left > 0 {
            left -= 1;
            let edge = edges[left];
            let at = self.new_cell(Target {
                node,
                shift: edge.slot.saturating_add(distance),
            })?;
            push(work, Ask::Points { at, to: edge.to })?;
        }
        Ok(())
    }
}

/// Asks that the nodes of two targets, which don't agree, be collapsed, and the targets one.
#[tactic(none)]
fn clash(work: &mut Vec<Ask>, a: usize, b: usize) -> Result<(), AllocError>
    ensures { OnOk result (reverse work.new.items ≡ asked_of_clash a b ++ reverse work.old.items) }
{
    push(work, Ask::One(a, b))?;
    push(work, Ask::Collapse(b))?;
    push(work, Ask::Collapse(a))
}
