// Points that handle objects.

ghost use Rattle.std.specs.Prelude.{◌≡◌, true, IfOk, OnOk};
ghost use Rattle.tac_ir.specs.Views.{path_in, scalar_in, operand_of};
ghost use Rattle.heap_graph.specs.Points as Q;
ghost use Rattle.heap_graph.specs.Targets as T;
ghost use Rattle.graph_unification.specs.Memory.{IsGraph};
ghost use Rattle.heap_graph.specs.Asks as A;
ghost use Rattle.graph_unification.specs.Applying.{code_of, owner_of, shown, IsKnown, AppliesTo, IsKept, IsMemberTyped, base_at};
ghost use Rattle.graph_unification.specs.Fits.{has_own, PathFits, SlotsFit, ValueFits};

use crate::applied::{Applied, is_indexed};
use crate::graph::Graph;
use crate::marks::Mark;
use crate::name_steps::{either, is_certain, mark_if};
use crate::object_steps::has_element;
use std::alloc::AllocError;
use tac_ir::{Operand, Path, Register, Scalar};

impl<'a> Applied<'a> {
    /// A value that is stored is kept where a path leads.
    fn keep(
        self,
        graph: &mut Graph,
        scalar: Scalar,
        value: &Operand,
        path: &Path,
    ) -> Result<bool, AllocError>
        requires known { IsKnown self }
        requires graph { IsGraph self.tac.now.types graph.old }
        requires base { T.has_target (base_at self graph.old path.now.base).target ≡ true }
        requires fits { PathFits (code_of self) (shown self graph.old) (owner_of self) (path_in self.tac.now.types path.now) }
        requires typed { IsMemberTyped (code_of self) (owner_of self) (path_in self.tac.now.types path.now) (shown self graph.old) }
        requires value { ValueFits (code_of self) (shown self graph.old) (owner_of self) (scalar_in self.tac.now.types scalar) (operand_of value.now) }
        ensures graph { OnOk result (IsGraph self.entry.tac.now.types graph.new) }
        ensures applies { IfOk result (λ changed. AppliesTo self.entry changed graph.old graph.new (IsKept (code_of self.entry) (owner_of self.entry) (scalar_in self.entry.tac.now.types scalar) (operand_of value.now) (path_in self.entry.tac.now.types path.now))) }
    {
        match value {
            Operand::Integer(_) => Ok(false),
            Operand::Pointer(register) => self.keep_pointer(graph, scalar, *register, path),
        }
    }

    /// A scalar is read from where a path leads.
    pub(crate) fn load(
        self,
        graph: &mut Graph,
        to: Register,
        scalar: Scalar,
        path: &Path,
    ) -> Result<bool, AllocError>
        requires known { IsKnown self }
        requires graph { IsGraph self.tac.now.types graph.old }
        requires target { Q.is_data_pointer (scalar_in self.tac.now.types scalar) ≡ true → has_own (code_of self) (shown self graph.old) (owner_of self) to ≡ true }
        requires fits { PathFits (code_of self) (shown self graph.old) (owner_of self) (path_in self.tac.now.types path.now) }
        requires slots { SlotsFit (code_of self) (shown self graph.old) (owner_of self) (path_in self.tac.now.types path.now) }
        ensures graph { OnOk result (IsGraph self.entry.tac.now.types graph.new) }
        ensures applies { IfOk result (λ changed. AppliesTo self.entry changed graph.old graph.new (λ other. A.load_asked (code_of self.entry) other (owner_of self.entry) to (scalar_in self.entry.tac.now.types scalar) (path_in self.entry.tac.now.types path.now) ≡ true)) }
    {
        if !is_certain(graph, self.base_name(&path.base)) {
            return Ok(false);
        }
        let touched = self.touch(graph, path, Mark::Read)?;
        let held = self.hold(graph, to, scalar, path)?;
        Ok(either(touched, held))
    }

    /// A value is stored where a path leads.
    pub(crate) fn store(
        self,
        graph: &mut Graph,
        path: &Path,
        scalar: Scalar,
        value: &Operand,
    ) -> Result<bool, AllocError>
        requires known { IsKnown self }
        requires graph { IsGraph self.tac.now.types graph.old }
        requires value { ValueFits (code_of self) (shown self graph.old) (owner_of self) (scalar_in self.tac.now.types scalar) (operand_of value.now) }
        requires fits { PathFits (code_of self) (shown self graph.old) (owner_of self) (path_in self.tac.now.types path.now) }
        requires slots { SlotsFit (code_of self) (shown self graph.old) (owner_of self) (path_in self.tac.now.types path.now) }
        ensures graph { OnOk result (IsGraph self.entry.tac.now.types graph.new) }
        ensures applies { IfOk result (λ changed. AppliesTo self.entry changed graph.old graph.new (λ other. A.store_asked (code_of self.entry) other (owner_of self.entry) (path_in self.entry.tac.now.types path.now) (scalar_in self.entry.tac.now.types scalar) (operand_of value.now) ≡ true)) }
    {
        if !is_certain(graph, self.base_name(&path.base)) {
            return Ok(false);
        }
        let touched = self.touch(graph, path, Mark::Modified)?;
        let kept = self.keep(graph, scalar, value, path)?;
        Ok(either(touched, kept))
    }

    /// A register gets the address of the object to which a path leads.
    pub(crate) fn take_address(
        self,
        graph: &mut Graph,
        to: Register,
        path: &Path,
    ) -> Result<bool, AllocError>
        requires known { IsKnown self }
        requires graph { IsGraph self.tac.now.types graph.old }
        requires target { has_own (code_of self) (shown self graph.old) (owner_of self) to ≡ true }
        requires fits { PathFits (code_of self) (shown self graph.old) (owner_of self) (path_in self.tac.now.types path.now) }
        ensures graph { OnOk result (IsGraph self.entry.tac.now.types graph.new) }
        ensures applies { IfOk result (λ changed. AppliesTo self.entry changed graph.old graph.new (λ other. A.address_asked (code_of self.entry) other (owner_of self.entry) to (path_in self.entry.tac.now.types path.now) ≡ true)) }
    {
        let name = self.base_name(&path.base);
        if !is_certain(graph, name) {
            return Ok(false);
        }
        let indexed = either(is_indexed(&path.base), has_element(path.steps.as_slice()));
        let told = self.tell_member(graph, path)?;
        let used = mark_if(graph, &self.tac.types, indexed, name, Mark::Array);
        let joined = self.join_place(graph, self.own(to), path)?;
        Ok(either(told, either(used, joined)))
    }
}
