// A group of functions, and what its functions share.

ghost use Rattle.std.specs.Prelude.{◌≡◌, ℕ, true, false};
ghost use Rattle.tac_ir.specs.States.{InFunction};
ghost use Rattle.heap_graph.specs.Graphs.{OfRegister};
ghost use Rattle.heap_graph.specs.Closed as C;
ghost use Rattle.graph_unification.specs.Memory.{name_of};
ghost use Rattle.call_graph.specs.RowLists.{Has};
ghost use Rattle.call_graph.specs.ClassLists.{numbers_of};
ghost use Rattle.dsa_local.specs.Members.{is_inside};

use call_graph::Groups;
use graph_unification::Name;
use tac_ir::{FunctionId, Local, Register, Tac};

/// A group of a program's functions, whose graph is being made.
#[derive(Clone, Copy)]
pub struct Group<'a> {
    pub tac: &'a Tac,
    pub groups: &'a Groups,
    pub number: usize,
}

impl<'a> Group<'a> {
    /// Whether a function is in it.
    pub(crate) fn has(self, function: usize) -> bool
        ensures { result ≡ is_inside self.entry function }
    {
        match self.groups.group_of.get(function) {
            Some(number) => *number == self.number,
            None => false,
        }
    }

    /// Whether all of some functions are in it.
    pub(crate) fn has_all(self, functions: &[FunctionId]) -> bool
        ensures all { result ≡ true → (function : ℕ) → Has (numbers_of functions.now) function → is_inside self.entry function ≡ true }
        ensures outside { result ≡ false → (function : ℕ) × Has (numbers_of functions.now) function × (is_inside self.entry function ≡ false) }
    {
        for function in functions {
            if !self.has(function.0) {
                return false;
            }
        }
        true
    }
}

/// The name of a function's register.
pub(crate) fn register(function: FunctionId, register: Register) -> Name
    ensures { name_of result ≡ OfRegister (InFunction function.0) register }
{
    Name::Register {
        function: Some(function),
        register,
    }
}

/// The name of a function's formal.
pub(crate) fn formal(function: usize, number: usize) -> Name
    ensures { name_of result ≡ C.formal function number }
{
    register(
        FunctionId(function),
        Register::Local(Local::Parameter(number)),
    )
}
