// A function whose points are applied.

ghost use Rattle.std.specs.Prelude.{◌≡◌};
ghost use Rattle.c_typed.specs.Table.{Interned, type_in};
ghost use Rattle.tac_ir.specs.Views.{base_in};
ghost use Rattle.heap_graph.specs.Graphs as G;
ghost use Rattle.heap_graph.specs.Points as P;
ghost use Rattle.graph_unification.specs.Memory.{name_of};
ghost use Rattle.graph_unification.specs.Applying.{code_of, owner_of, IsKnown};

use crate::name::Name;
use crate::statics::{global_type, literal_type};
use c_typed::CType;
use heap_graph::Scope;
use tac_ir::{Base, Register, Tac};

/// A function of a program, and what is known of its code.
#[derive(Clone, Copy)]
pub struct Applied<'a> {
    pub tac: &'a Tac,
    pub scope: &'a Scope,
}

impl<'a> Applied<'a> {
    /// The name of a register.
    pub(crate) fn own(self, register: Register) -> Name
        ensures { name_of result ≡ G.OfRegister (owner_of self.entry) register }
    {
        Name::Register {
            function: self.scope.owner,
            register,
        }
    }

    /// The name of what the function returns.
    pub(crate) fn returned(self) -> Name
        ensures { name_of result ≡ G.OfResult (owner_of self.entry) }
    {
        Name::Returned(self.scope.owner)
    }

    /// The name of the object or of the pointer with which a path begins.
    pub(crate) fn base_name(self, base: &Base) -> Name
        ensures { (graph : G.Graph) → graph.targets (name_of result) ≡ (P.base_part (code_of self.entry) graph (owner_of self.entry) (base_in self.entry.tac.now.types base.now)).target }
    {
        match base {
            Base::Local(local) => Name::Object {
                function: self.scope.owner,
                local: *local,
            },
            Base::Global(global) => Name::Global(*global),
            Base::Literal(literal) => Name::Literal(*literal),
            Base::Pointed { pointer, .. } => self.own(*pointer),
            Base::Indexed { pointer, .. } => self.own(*pointer),
        }
    }

    /// The type of the object with which a path begins, or of what the pointer points to; `void` where that isn't known.
    pub(crate) fn base_type(self, base: &Base) -> CType
        requires known { IsKnown self }
        ensures { (graph : G.Graph) → type_in self.entry.tac.now.types result ≡ (P.base_part (code_of self.entry) graph (owner_of self.entry) (base_in self.entry.tac.now.types base.now)).c_type }
    {
        match base {
            Base::Local(local) => self.scope.locals.of(*local),
            Base::Global(global) => global_type(self.tac, *global),
            Base::Literal(literal) => literal_type(self.tac, *literal),
            Base::Pointed { target, .. } => *target,
            Base::Indexed { target, .. } => *target,
        }
    }
}

/// Whether a path begins with an element behind a pointer.
pub(crate) fn is_indexed(base: &Base) -> bool
    ensures { (table : Interned) → result ≡ P.is_indexed (base_in table base.now) }
{
    match base {
        Base::Local(_) => false,
        Base::Global(_) => false,
        Base::Literal(_) => false,
        Base::Pointed { .. } => false,
        Base::Indexed { .. } => true,
    }
}
