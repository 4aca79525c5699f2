// What first values ask of the graph of `start`.

ghost use Rattle.std.specs.Prelude.{◌≡◌, ◌==◌, ◌||◌, not, map};
ghost use Rattle.std.specs.List.{list_any};
ghost use Rattle.c_typed.specs.Table.{Interned};
ghost use Rattle.c_typed.specs.DefinitionViews.{static_of, scalar_of, held_of, first_of, all_first, global_in};
ghost use Rattle.heap_graph.specs.Frozen.{optional_target};
ghost use Rattle.heap_graph.specs.Reached.{optional_reached};
ghost use Rattle.heap_graph.specs.Closed as F;
ghost use Rattle.heap_graph.specs.TargetParts.Parts.{root_in};
ghost use Rattle.graph_checker.specs.Values.{IsProgram, family_of, place_in, is_stored, nothing};

use c_typed::{CType, First, GlobalDef, Held, Part, Scalar, Static};
use heap_graph::{
    FrozenGraph, Reached, Root, StaticNumbers, Target, edge_at, element_part, global_root,
    has_target, is_array_if, is_at, is_modified, literal_root, member_part, widened,
};
use tac_ir::{GlobalId, Tac};

/// A program with the graph of `start`, and the numbers of what its first values name.
#[derive(Clone, Copy)]
pub(crate) struct Values<'a> {
    pub(crate) tac: &'a Tac,
    pub(crate) start: &'a FrozenGraph,
    pub(crate) numbers: &'a StaticNumbers,
}

impl<'a> Values<'a> {
    /// Whether the graph keeps what the first values of all variables outside functions ask.
    pub(crate) fn globals_closed(&self, globals: &[GlobalDef]) -> bool
        requires program { IsProgram self.now }
        ensures { result ≡ F.first_closed (family_of self.now) 0 (map (global_in self.now.tac.now.types) globals.now) }
    {
        for (number, global) in globals.iter().enumerate() {
            let root = Root {
                target: self.start.global(GlobalId(number)),
                c_type: global.c_type,
            };
            if !self.all_closed(root, global.first.as_slice()) {
                return false;
            }
        }
        true
    }

    /// Whether it keeps what the first values of a variable ask.
    fn all_closed(&self, global: Root, firsts: &[First]) -> bool
        requires program { IsProgram self.now }
        ensures { result ≡ F.all_held_closed (family_of self.now) (root_in self.now.tac.now.types global) (all_first firsts.now) }
    {
        for first in firsts {
            if !self.one_closed(global, first) {
                return false;
            }
        }
        true
    }

    fn one_closed(&self, global: Root, first: &First) -> bool
        requires program { IsProgram self.now }
        ensures { result ≡ F.all_held_closed (family_of self.now) (root_in self.now.tac.now.types global) (first_of first.now) }
    {
        match first {
            First::Scalar(held) => self.held_closed(global, held),
            First::Text { bytes, .. } => bytes.as_slice().is_empty() || self.is_stored(global),
        }
    }

    /// Whether a variable has a target that is written.
    fn is_stored(&self, global: Root) -> bool
        ensures { result ≡ is_stored (family_of self.now) (root_in self.now.tac.now.types global) }
    {
        has_target(global.target) && is_modified(self.start, global.target)
    }

    fn held_closed(&self, global: Root, held: &Held) -> bool
        requires program { IsProgram self.now }
        ensures { result ≡ F.held_closed (family_of self.now) (root_in self.now.tac.now.types global) (held_of held.now) }
    {
        if !self.is_stored(global) {
            return false;
        }
        let at = self.place_of(global, held.parts.as_slice());
        self.constant_closed(edge_at(self.start, at), &held.value)
    }

    fn constant_closed(&self, edge: Option<Target>, value: &Scalar) -> bool
        requires program { IsProgram self.now }
        ensures { result ≡ F.constant_closed (family_of self.now) (optional_target edge) (scalar_of value.now) }
    {
        match value {
            Scalar::Integer(_) => true,
            Scalar::Null => true,
            Scalar::Function(_) => true,
            Scalar::Pointer { root, parts, index } => {
                self.place_closed(edge, root, parts.as_slice(), *index)
            }
        }
    }

    /// Whether an edge leads where a pointer points to, at an element of an array where that is moved.
    fn place_closed(&self, edge: Option<Target>, root: &Static, parts: &[Part], index: u64) -> bool
        requires program { IsProgram self.now }
        ensures { result ≡ F.place_closed (family_of self.now) (optional_target edge) (place_in root.now parts.now index) }
    {
        let root = self.static_root(root);
        if !has_target(root.target) {
            return false;
        }
        if !is_at(edge, self.place_of(root, parts)) {
            return false;
        }
        is_array_if(self.start, root.target, self.is_moved(parts, index))
    }

    /// The object that a constant names.
    fn static_root(&self, root: &Static) -> Root
        requires program { IsProgram self.now }
        ensures { root_in self.now.tac.now.types result ≡ F.static_part (family_of self.now) (static_of root.now) }
    {
        match root {
            Static::Variable(name) => match self.numbers.global(name.as_slice()) {
                Some(number) => global_root(self.tac, self.start, number),
                None => nothing(),
            },
            Static::Literal(place) => match self.numbers.literal(*place) {
                Some(number) => literal_root(self.tac, self.start, number),
                None => nothing(),
            },
        }
    }

    /// Where steps lead from an object.
    fn place_of(&self, root: Root, parts: &[Part]) -> Option<Reached>
        ensures { optional_reached result ≡ (F.first_part (family_of self.now) parts.now (root_in self.now.tac.now.types root)).target }
    {
        let types = &self.tac.types;
        let mut part = heap_graph::Part {
            target: widened(root.target),
            c_type: root.c_type,
        };
        for step in parts {
            part = match step {
                Part::Member { number, .. } => member_part(types, self.start, part, *number),
                Part::Elements { .. } => element_part(types, part),
            };
        }
        part.target
    }

    /// Whether an element of a row other than the first is named, or one of an array.
    fn is_moved(&self, parts: &[Part], index: u64) -> bool
        ensures { result ≡ (list_any (F.is_moved (family_of self.now)) parts.now || not (index == 0)) }
    {
        for part in parts {
            if self.moves(part) {
                return true;
            }
        }
        index != 0
    }

    fn moves(&self, part: &Part) -> bool
        ensures { result ≡ F.is_moved (family_of self.now) part.now }
    {
        let _ = self.tac;
        match part {
            Part::Member { index, .. } => *index != 0,
            Part::Elements { .. } => true,
        }
    }
}

/// Nothing, of which no object is.
fn nothing() -> Root
    ensures { (table : Interned) → root_in table result ≡ nothing }
{
    Root {
        target: None,
        c_type: CType::VOID,
    }
}
