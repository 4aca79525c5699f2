// Targets, and what holds of their nodes.

ghost use Rattle.std.specs.Prelude.{◌≡◌, ℕ, ◌+◌, ◌<◌, ◌^◌, IfSome};
ghost use Rattle.c_typed.specs.Table.{Interned};
ghost use Rattle.heap_graph.specs.Targets as G;
ghost use Rattle.heap_graph.specs.Memory.{element_in};
ghost use Rattle.heap_graph.specs.Frozen.{optional_target, bare};
ghost use Rattle.heap_graph.specs.Reached.{optional_reached};

use crate::frozen::FrozenGraph;
use crate::graph::{Element, Target};

/// A node by its number, and a slot that may lie behind all of its slots.
#[derive(Clone, Copy)]
pub struct Reached {
    pub node: usize,
    pub shift: u128,
}

/// The same target.
pub fn widened(target: Option<Target>) -> Option<Reached>
    ensures same { optional_reached result ≡ optional_target target }
    ensures small { IfSome result (λ r. r.shift < 2 ^ 64) }
{
    match target {
        None => None,
        Some(target) => Some(Reached {
            node: target.node,
            shift: u128::from(target.shift),
        }),
    }
}

/// Whether two are the same target, or there is neither.
pub fn same_target(a: Option<Target>, b: Option<Target>) -> bool
    ensures { result ≡ G.same_target (optional_target a) (optional_target b) }
{
    match a {
        None => match b {
            None => true,
            Some(_) => false,
        },
        Some(a) => match b {
            None => false,
            Some(b) => a.node == b.node && a.shift == b.shift,
        },
    }
}

/// Whether two are the same target, or there is neither.
pub fn is_at(target: Option<Target>, other: Option<Reached>) -> bool
    ensures { result ≡ G.same_target (optional_target target) (optional_reached other) }
{
    match target {
        None => match other {
            None => true,
            Some(_) => false,
        },
        Some(target) => match other {
            None => false,
            Some(other) => target.node == other.node && u128::from(target.shift) == other.shift,
        },
    }
}

/// Whether there is a target.
pub fn has_target(target: Option<Target>) -> bool
    ensures { result ≡ G.has_target (optional_target target) }
{
    match target {
        None => false,
        Some(_) => true,
    }
}

/// So many slots behind a target. A collapsed node has one slot.
pub fn shifted(graph: &FrozenGraph, slots: u64, from: Option<Reached>) -> Option<Reached>
    requires { IfSome from (λ r. r.shift + slots < 2 ^ 128) }
    ensures at { (table : Interned) → optional_reached result ≡ G.shifted (bare table graph.now) slots (optional_reached from) }
    ensures small { (bound : ℕ) → IfSome from (λ r. r.shift + slots < bound) → IfSome result (λ r. r.shift < bound) }
{
    let from = from?;
    match graph.node(from.node) {
        None => None,
        Some(node) => Some(Reached {
            node: from.node,
            shift: if is_collapsed(node.element) {
                0
            } else {
                from.shift + u128::from(slots)
            },
        }),
    }
}

/// What the pointer there points to.
pub fn edge_at(graph: &FrozenGraph, from: Option<Reached>) -> Option<Target>
    ensures { (table : Interned) → optional_target result ≡ G.edge_at (bare table graph.now) (optional_reached from) }
{
    let from = from?;
    match graph.node(from.node) {
        None => None,
        Some(node) => node.edge(from.shift),
    }
}

/// Whether a node is collapsed.
pub fn is_collapsed(element: Element) -> bool
    ensures { (table : Interned) → result ≡ G.is_collapsed (element_in table element) }
{
    match element {
        Element::Missing => false,
        Element::OfType(_) => false,
        Element::Collapsed => true,
    }
}

// ---- flags

/// Whether a target's node is there, and of an array where this is asked.
pub fn is_array_if(graph: &FrozenGraph, target: Option<Target>, asked: bool) -> bool
    ensures { (table : Interned) → result ≡ G.at_target (bare table graph.now) (optional_target target) (λ node shift. G.implies asked node.flags.array) }
{
    match target {
        None => true,
        Some(target) => match graph.node(target.node) {
            None => false,
            Some(node) => !asked || node.flags.array,
        },
    }
}

/// Whether a target's node is read.
pub fn is_read(graph: &FrozenGraph, target: Option<Target>) -> bool
    ensures { (table : Interned) → result ≡ G.at_target (bare table graph.now) (optional_target target) (λ node shift. node.flags.read) }
{
    match target {
        None => true,
        Some(target) => match graph.node(target.node) {
            None => false,
            Some(node) => node.flags.read,
        },
    }
}

/// Whether a target's node is written.
pub fn is_modified(graph: &FrozenGraph, target: Option<Target>) -> bool
    ensures { (table : Interned) → result ≡ G.at_target (bare table graph.now) (optional_target target) (λ node shift. node.flags.modified) }
{
    match target {
        None => true,
        Some(target) => match graph.node(target.node) {
            None => false,
            Some(node) => node.flags.modified,
        },
    }
}
