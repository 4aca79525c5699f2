// What calls ask.

ghost use Rattle.std.specs.Prelude.{◌≡◌, ℕ, ◌<◌, ◌↔◌, true, false, length, map, Some, All, IfOk};
ghost use Rattle.tac_ir.specs.States.{Owner, InFunction};
ghost use Rattle.tac_ir.specs.Views.{op_in, callee_in, tac_of};
ghost use Rattle.call_graph.specs.ClassLists.{numbers_of};
ghost use Rattle.call_graph.specs.TargetLists.{AreTargets};
ghost use Rattle.heap_graph.specs.Closed.{group_of, crossing, AreOne};
ghost use Rattle.heap_graph.specs.Frozen.{static_in};
ghost use Rattle.heap_graph.specs.Edges.{EdgesAreFound};
ghost use Rattle.heap_graph.specs.Embeddings.{NodesHaveSlots};
ghost use Rattle.graph_checker.specs.Programs.{family_of, IsMember};
ghost use Rattle.heap_graph.specs.Asked.{TargetAsked, AllTargetsAsked, ClassAsked, OpAsked, AllAsked, AllOne, are_same};
ghost use Rattle.graph_checker.specs.Fits.{limit_of, OpFits, AllFit, EscapeWithin, AreEscaping, SoundBefore, IsFit};

use crate::calls::{Called, Caller, inner_call, outer_call};
use crate::embeddings::embedding_closed;
use crate::program::{Member, Program};
use crate::shared::share_names;
use heap_graph::{Crossing, NodeMarks, Target, escaping};
use indexmap::IndexMap;
use std::alloc::{AllocError, Global};
use tac_ir::{Callee, FunctionId, Op, Register};

impl<'a> Program<'a> {
    /// Whether what the calls of a function ask holds.
    pub fn calls_asked(
        self,
        alloc: Global,
        own: Member<'a>,
        points: &[Op],
    ) -> Result<bool, AllocError>
        requires program { IsFit self }
        requires sound { SoundBefore self (limit_of self own.group) }
        requires fit { AllFit self own.group (map (op_in self.tac.now.types) points.now) }
        ensures { IfOk result (λ asked. (owner : Owner) → IsMember self.entry.tac.now.types (family_of self.entry) owner own.entry
            → (asked ≡ true) ↔ AllAsked (family_of self.entry) owner (map (op_in self.entry.tac.now.types) points.now)) }
    {
        for op in points {
            if !self.op_asked(alloc, own, op)? {
                return Ok(false);
            }
        }
        Ok(true)
    }

    /// Whether what a point asks holds, if it is a call.
    fn op_asked(self, alloc: Global, own: Member<'a>, op: &Op) -> Result<bool, AllocError>
        requires program { IsFit self }
        requires sound { SoundBefore self (limit_of self own.group) }
        requires fits { OpFits self own.group (op_in self.tac.now.types op.now) }
        ensures { IfOk result (λ asked. (owner : Owner) → IsMember self.entry.tac.now.types (family_of self.entry) owner own.entry
            → (asked ≡ true) ↔ OpAsked (family_of self.entry) owner (op_in self.entry.tac.now.types op.now)) }
    {
        match op {
            Op::Call {
                site,
                callee,
                arguments,
            } => {
                let targets = self.groups.classes.targets(alloc, self.tac, *callee)?;
                if !self.targets_asked(alloc, own, *site, arguments, &targets)? {
                    return Ok(false);
                }
                Ok(self.class_asked(*callee, &targets))
            }
            _ => Ok(true),
        }
    }

    /// Whether what a call asks of the functions to which it may come holds.
    fn targets_asked(
        self,
        alloc: Global,
        own: Member<'a>,
        site: usize,
        arguments: &[Register],
        targets: &[FunctionId],
    ) -> Result<bool, AllocError>
        requires program { IsFit self }
        requires sound { SoundBefore self (limit_of self own.group) }
        requires within { All (λ called. called.0 < length self.tac.now.functions.items) targets.now }
        requires before { All (λ called. (own.group ≡ Some (group_of (family_of self) called.0) → ⊥) → group_of (family_of self) called.0 < limit_of self own.group) targets.now }
        ensures { IfOk result (λ asked. (owner : Owner) → IsMember self.entry.tac.now.types (family_of self.entry) owner own.entry
            → (asked ≡ true) ↔ AllTargetsAsked (family_of self.entry) owner site arguments.now (numbers_of targets.now)) }
    {
        for called in targets {
            if !self.target_asked(alloc, own, *called, site, arguments)? {
                return Ok(false);
            }
        }
        Ok(true)
    }

    fn target_asked(
        self,
        alloc: Global,
        own: Member<'a>,
        called: FunctionId,
        site: usize,
        arguments: &[Register],
    ) -> Result<bool, AllocError>
        requires program { IsFit self }
        requires sound { SoundBefore self (limit_of self own.group) }
        requires within { called.0 < length self.tac.now.functions.items }
        requires before { (own.group ≡ Some (group_of (family_of self) called.0) → ⊥) → group_of (family_of self) called.0 < limit_of self own.group }
        ensures { IfOk result (λ asked. (owner : Owner) → IsMember self.entry.tac.now.types (family_of self.entry) owner own.entry
            → (asked ≡ true) ↔ TargetAsked (family_of self.entry) owner site arguments.now called.0) }
    {
        let other = self.member(called);
        if is_same_group(own.group, other.group) {
            let caller = Caller {
                types: &self.tac.types,
                graph: own.graph,
                names: own.names,
            };
            return Ok(inner_call(caller, other.names, other.c_type, site, arguments));
        }
        self.outer_asked(alloc, own, other, called, site, arguments)
    }

    /// The same of a function of another group.
    fn outer_asked(
        self,
        alloc: Global,
        own: Member<'a>,
        other: Member<'a>,
        called: FunctionId,
        site: usize,
        arguments: &[Register],
    ) -> Result<bool, AllocError>
        requires program { IsFit self }
        requires some { NodesHaveSlots self.tac.now.types other.graph.now }
        requires edges { EdgesAreFound other.graph.now }
        requires called { IsMember self.tac.now.types (family_of self) (InFunction called.0) other }
        requires inside { EscapeWithin (family_of self) called.0 }
        requires apart { are_same own.group other.group ≡ false }
        ensures { IfOk result (λ asked. (owner : Owner) → IsMember self.entry.tac.now.types (family_of self.entry) owner own.entry
            → (asked ≡ true) ↔ TargetAsked (family_of self.entry) owner site arguments.now called.0) }
    {
        let escaping = escaping(alloc, other.graph, other.names)?;
        let crossing = Crossing {
            site,
            called: called.0,
        };
        match own.embeddings.get(&crossing) {
            Some(embedding) => {
                Ok(self.is_embedded(own, other, &escaping, embedding, site, arguments))
            }
            None => {
                let none = IndexMap::new(alloc);
                Ok(self.is_embedded(own, other, &escaping, &none, site, arguments))
            }
        }
    }

    /// Whether what a call asks of a function of another group holds, where this is the embedding and these nodes escape.
    fn is_embedded(
        self,
        own: Member<'a>,
        other: Member<'a>,
        escaping: &NodeMarks,
        embedding: &IndexMap<usize, Target>,
        site: usize,
        arguments: &[Register],
    ) -> bool
        requires program { IsFit self }
        requires some { NodesHaveSlots self.tac.now.types other.graph.now }
        requires apart { are_same own.group other.group ≡ false }
        ensures { (owner : Owner) (called : ℕ) → IsMember self.entry.tac.now.types (family_of self.entry) owner own.entry
            → IsMember self.entry.tac.now.types (family_of self.entry) (InFunction called) other.entry → EscapeWithin (family_of self.entry) called
            → ((node : ℕ) → (family_of self.entry).graphs.embedding (crossing (family_of self.entry) owner site called) node ≡ static_in embedding.now node)
            → AreEscaping (family_of self.entry) called other.entry escaping.now
            → (result ≡ true) ↔ TargetAsked (family_of self.entry) owner site arguments.now called }
    {
        let caller = Caller {
            types: &self.tac.types,
            graph: own.graph,
            names: own.names,
        };
        let called = Called {
            graph: other.graph,
            names: other.names,
            c_type: other.c_type,
        };
        let globals = self.tac.globals.len();
        let literals = self.tac.literals.len();
        outer_call(
            caller, called, embedding, globals, literals, site, arguments,
        ) && embedding_closed(caller, other.graph, escaping.as_slice(), embedding)
    }

    /// Whether functions to which a call may come through a pointer share formals and result.
    fn class_asked(self, callee: Callee, targets: &[FunctionId]) -> bool
        requires program { IsFit self }
        requires within { All (λ called. called.0 < length self.tac.now.functions.items) targets.now }
        ensures { AreTargets (tac_of self.entry.tac.now) (callee_in self.entry.tac.now.types callee) (numbers_of targets.now) → (result ≡ true) ↔ ClassAsked (family_of self.entry) (callee_in self.entry.tac.now.types callee) }
    {
        match callee {
            Callee::Function(_) => true,
            Callee::Through { .. } => match targets.first() {
                Some(first) => self.all_share(*first, targets),
                None => true,
            },
        }
    }

    /// Whether all of some functions share formals and result with one.
    fn all_share(self, first: FunctionId, targets: &[FunctionId]) -> bool
        requires program { IsFit self }
        requires first { first.0 < length self.tac.now.functions.items }
        requires within { All (λ called. called.0 < length self.tac.now.functions.items) targets.now }
        ensures { (result ≡ true) ↔ AllOne (family_of self.entry) first.0 (numbers_of targets.now) }
    {
        for called in targets {
            if !self.share(first, *called) {
                return false;
            }
        }
        true
    }

    /// Whether two functions are of one group, and share formals and result.
    fn share(self, a: FunctionId, b: FunctionId) -> bool
        requires program { IsFit self }
        requires first { a.0 < length self.tac.now.functions.items }
        requires second { b.0 < length self.tac.now.functions.items }
        ensures { (result ≡ true) ↔ AreOne (family_of self.entry) a.0 b.0 }
    {
        let one = self.member(a);
        let other = self.member(b);
        is_same_group(one.group, other.group) && share_names(one.names, other.names)
    }
}

/// Whether two functions are of one group; `start` is of none.
pub fn is_same_group(a: Option<usize>, b: Option<usize>) -> bool
    ensures { result ≡ are_same a b }
{
    match a {
        None => false,
        Some(a) => match b {
            None => false,
            Some(b) => a == b,
        },
    }
}
