// What points ask of the objects to which paths lead.

ghost use Rattle.std.specs.Prelude.{◌≡◌, ◌<◌, false, true, IfOk, OnOk, option_map};
ghost use Rattle.c_typed.specs.Layouts as L;
ghost use Rattle.tac_ir.specs.Code as C;
ghost use Rattle.tac_ir.specs.Views.{base_in, path_in, scalar_in};
ghost use Rattle.heap_graph.specs.Memory.{target_of};
ghost use Rattle.heap_graph.specs.Parts as P;
ghost use Rattle.heap_graph.specs.Points as Q;
ghost use Rattle.heap_graph.specs.Targets as T;
ghost use Rattle.graph_unification.specs.Memory.{name_of, IsGraph};
ghost use Rattle.heap_graph.specs.Asks as A;
ghost use Rattle.graph_unification.specs.Applying.{code_of, owner_of, shown, IsKnown, AppliesTo, IsPlace, IsLinked, IsTouched, IsHeld, IsKept, IsMemberTyped, base_at, path_at};
ghost use Rattle.graph_unification.specs.Fits.{is_object, has_own, PathFits, SlotsFit, ValueFits};

use crate::applied::{Applied, is_indexed};
use crate::graph::Graph;
use crate::marks::Mark;
use crate::name::Name;
use crate::name_steps::{either, is_certain, mark, mark_if, tell};
use crate::object_steps::{has_element, has_member, slots_to};
use heap_graph::{Element, Target, is_data_scalar};
use std::alloc::AllocError;
use tac_ir::{Base, Operand, Path, Register, Scalar};

impl<'a> Applied<'a> {
    /// Where a path leads.
    fn place(self, graph: &Graph, path: &Path) -> Option<Target>
        requires known { IsKnown self }
        requires graph { IsGraph self.tac.now.types graph.now }
        requires base { T.has_target (base_at self graph.now path.now.base).target ≡ true }
        requires fits { PathFits (code_of self) (shown self graph.now) (owner_of self) (path_in self.tac.now.types path.now) }
        requires typed { IsMemberTyped (code_of self) (owner_of self) (path_in self.tac.now.types path.now) (shown self graph.now) }
        ensures { option_map target_of result ≡ (path_at self.entry graph.now path.now).target }
    {
        let target = graph.target(self.base_name(&path.base))?;
        let steps = path.steps.as_slice();
        if !has_member(steps) {
            return Some(target);
        }
        let (element, _) = graph.node(target.node)?;
        let shift = match element {
            Element::Missing => 0,
            Element::OfType(_) => {
                let slots = slots_to(&self.tac.types, steps, self.base_type(&path.base));
                target.shift.saturating_add(slots)
            }
            Element::Collapsed => 0,
        };
        Some(Target {
            node: target.node,
            shift,
        })
    }

    /// Makes the target of a name the place to which a path leads.
    pub(crate) fn join_place(
        self,
        graph: &mut Graph,
        name: Name,
        path: &Path,
    ) -> Result<bool, AllocError>
        requires known { IsKnown self }
        requires graph { IsGraph self.tac.now.types graph.old }
        requires base { T.has_target (base_at self graph.old path.now.base).target ≡ true }
        requires fits { PathFits (code_of self) (shown self graph.old) (owner_of self) (path_in self.tac.now.types path.now) }
        requires typed { IsMemberTyped (code_of self) (owner_of self) (path_in self.tac.now.types path.now) (shown self graph.old) }
        requires target { T.has_target ((shown self graph.old).targets (name_of name)) ≡ true }
        ensures graph { OnOk result (IsGraph self.entry.tac.now.types graph.new) }
        ensures applies { IfOk result (λ changed. AppliesTo self.entry changed graph.old graph.new (IsPlace (code_of self.entry) (owner_of self.entry) (name_of name) (path_in self.entry.tac.now.types path.now))) }
    {
        let Some(place) = self.place(graph, path) else {
            return Ok(false);
        };
        let Some(target) = graph.target(name) else {
            return Ok(false);
        };
        crate::steps::make_one(graph, &self.tac.types, target, place)
    }

    /// Gives the place to which a path leads an edge to the target of a name.
    fn link(self, graph: &mut Graph, name: Name, path: &Path) -> Result<bool, AllocError>
        requires known { IsKnown self }
        requires graph { IsGraph self.tac.now.types graph.old }
        requires base { T.has_target (base_at self graph.old path.now.base).target ≡ true }
        requires fits { PathFits (code_of self) (shown self graph.old) (owner_of self) (path_in self.tac.now.types path.now) }
        requires typed { IsMemberTyped (code_of self) (owner_of self) (path_in self.tac.now.types path.now) (shown self graph.old) }
        requires target { T.has_target ((shown self graph.old).targets (name_of name)) ≡ true }
        ensures graph { OnOk result (IsGraph self.entry.tac.now.types graph.new) }
        ensures applies { IfOk result (λ changed. AppliesTo self.entry changed graph.old graph.new (IsLinked (code_of self.entry) (owner_of self.entry) (name_of name) (path_in self.entry.tac.now.types path.now))) }
    {
        let Some(place) = self.place(graph, path) else {
            return Ok(false);
        };
        let Some(target) = graph.target(name) else {
            return Ok(false);
        };
        crate::steps::set_edge_to(graph, &self.tac.types, place, target)
    }

    /// What a path's pointer points to is of the type that the pointer tells.
    fn tell_base(self, graph: &mut Graph, base: &Base) -> Result<bool, AllocError>
        requires known { IsKnown self }
        requires graph { IsGraph self.tac.now.types graph.old }
        requires base { T.has_target (base_at self graph.old base.now).target ≡ true }
        requires some { is_object (base_in self.tac.now.types base.now) ≡ false → L.is_complete (code_of self).structs (base_at self graph.old base.now).c_type ≡ true → 0 < P.slots_of (code_of self).structs (base_at self graph.old base.now).c_type }
        ensures graph { OnOk result (IsGraph self.entry.tac.now.types graph.new) }
        ensures typed { OnOk result (Q.base_typed (code_of self.entry) (shown self.entry graph.new) (owner_of self.entry) (base_in self.entry.tac.now.types base.now) ≡ true) }
        ensures applies { IfOk result (λ changed. AppliesTo self.entry changed graph.old graph.new (λ other. Q.base_typed (code_of self.entry) other (owner_of self.entry) (base_in self.entry.tac.now.types base.now) ≡ true)) }
    {
        match base {
            Base::Local(_) => Ok(false),
            Base::Global(_) => Ok(false),
            Base::Literal(_) => Ok(false),
            Base::Pointed { pointer, target } => {
                tell(graph, &self.tac.types, self.own(*pointer), *target)
            }
            Base::Indexed {
                pointer,
                target,
                ..
            } => tell(graph, &self.tac.types, self.own(*pointer), *target),
        }
    }

    /// Where a path has a member, what its pointer points to is of the type that the pointer tells.
    pub(crate) fn tell_member(self, graph: &mut Graph, path: &Path) -> Result<bool, AllocError>
        requires known { IsKnown self }
        requires graph { IsGraph self.tac.now.types graph.old }
        requires base { T.has_target (base_at self graph.old path.now.base).target ≡ true }
        requires fits { PathFits (code_of self) (shown self graph.old) (owner_of self) (path_in self.tac.now.types path.now) }
        ensures graph { OnOk result (IsGraph self.entry.tac.now.types graph.new) }
        ensures typed { OnOk result (IsMemberTyped (code_of self.entry) (owner_of self.entry) (path_in self.entry.tac.now.types path.now) (shown self.entry graph.new)) }
        ensures applies { IfOk result (λ changed. AppliesTo self.entry changed graph.old graph.new (IsMemberTyped (code_of self.entry) (owner_of self.entry) (path_in self.entry.tac.now.types path.now))) }
    {
        if has_member(path.steps.as_slice()) {
            self.tell_base(graph, &path.base)
        } else {
            Ok(false)
        }
    }

    /// The object of a path is of the type that a pointer tells, an array where it is indexed, and has a flag.
    pub(crate) fn touch(
        self,
        graph: &mut Graph,
        path: &Path,
        flag: Mark,
    ) -> Result<bool, AllocError>
        requires known { IsKnown self }
        requires graph { IsGraph self.tac.now.types graph.old }
        requires base { T.has_target (base_at self graph.old path.now.base).target ≡ true }
        requires fits { PathFits (code_of self) (shown self graph.old) (owner_of self) (path_in self.tac.now.types path.now) }
        requires slots { SlotsFit (code_of self) (shown self graph.old) (owner_of self) (path_in self.tac.now.types path.now) }
        ensures graph { OnOk result (IsGraph self.entry.tac.now.types graph.new) }
        ensures typed { OnOk result (IsMemberTyped (code_of self.entry) (owner_of self.entry) (path_in self.entry.tac.now.types path.now) (shown self.entry graph.new)) }
        ensures applies { IfOk result (λ changed. AppliesTo self.entry changed graph.old graph.new (IsTouched (code_of self.entry) (owner_of self.entry) (path_in self.entry.tac.now.types path.now) flag)) }
    {
        let types = &self.tac.types;
        let name = self.base_name(&path.base);
        let told = self.tell_base(graph, &path.base)?;
        let used = mark_if(graph, types, is_indexed(&path.base), name, Mark::Array);
        let touched = mark(graph, types, name, flag);
        Ok(either(told, either(used, touched)))
    }

    /// A pointer that is read from where a path leads is held by a register.
    pub(crate) fn hold(
        self,
        graph: &mut Graph,
        to: Register,
        scalar: Scalar,
        path: &Path,
    ) -> Result<bool, AllocError>
        requires known { IsKnown self }
        requires graph { IsGraph self.tac.now.types graph.old }
        requires base { T.has_target (base_at self graph.old path.now.base).target ≡ true }
        requires fits { PathFits (code_of self) (shown self graph.old) (owner_of self) (path_in self.tac.now.types path.now) }
        requires typed { IsMemberTyped (code_of self) (owner_of self) (path_in self.tac.now.types path.now) (shown self graph.old) }
        requires target { Q.is_data_pointer (scalar_in self.tac.now.types scalar) ≡ true → has_own (code_of self) (shown self graph.old) (owner_of self) to ≡ true }
        ensures graph { OnOk result (IsGraph self.entry.tac.now.types graph.new) }
        ensures applies { IfOk result (λ changed. AppliesTo self.entry changed graph.old graph.new (IsHeld (code_of self.entry) (owner_of self.entry) to (scalar_in self.entry.tac.now.types scalar) (path_in self.entry.tac.now.types path.now))) }
    {
        if !is_data_scalar(&self.tac.types, scalar) {
            return Ok(false);
        }
        let name = self.own(to);
        let linked = self.link(graph, name, path)?;
        let sure = mark(graph, &self.tac.types, name, Mark::Certain);
        Ok(either(linked, sure))
    }

    /// A pointer that is stored is kept where a path leads.
    pub(crate) fn keep_pointer(
        self,
        graph: &mut Graph,
        scalar: Scalar,
        register: Register,
        path: &Path,
    ) -> Result<bool, AllocError>
        requires known { IsKnown self }
        requires graph { IsGraph self.tac.now.types graph.old }
        requires base { T.has_target (base_at self graph.old path.now.base).target ≡ true }
        requires fits { PathFits (code_of self) (shown self graph.old) (owner_of self) (path_in self.tac.now.types path.now) }
        requires typed { IsMemberTyped (code_of self) (owner_of self) (path_in self.tac.now.types path.now) (shown self graph.old) }
        requires value { ValueFits (code_of self) (shown self graph.old) (owner_of self) (scalar_in self.tac.now.types scalar) (C.PointerOperand register) }
        ensures graph { OnOk result (IsGraph self.entry.tac.now.types graph.new) }
        ensures applies { IfOk result (λ changed. AppliesTo self.entry changed graph.old graph.new (IsKept (code_of self.entry) (owner_of self.entry) (scalar_in self.entry.tac.now.types scalar) (C.PointerOperand register) (path_in self.entry.tac.now.types path.now))) }
    {
        if !is_data_scalar(&self.tac.types, scalar) {
            return Ok(false);
        }
        if self.scope.nulls.is_marked(register) {
            return Ok(false);
        }
        self.link(graph, self.own(register), path)
    }
}
