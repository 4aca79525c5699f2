// Objects outside functions.

ghost use Rattle.std.specs.Prelude.{◌≡◌, option_map};
ghost use Rattle.c_typed.specs.Table.{type_in};
ghost use Rattle.c_typed.specs.DefinitionViews.{static_of, LiteralsStand};
ghost use Rattle.tac_ir.specs.Code as C;
ghost use Rattle.tac_ir.specs.States.{InStart};
ghost use Rattle.tac_ir.specs.Views.{tac_of};
ghost use Rattle.heap_graph.specs.Graphs as G;
ghost use Rattle.heap_graph.specs.Points.{base_part};
ghost use Rattle.graph_unification.specs.Memory.{name_of};
ghost use Rattle.heap_graph.specs.Numbers.{AreNumbers};
ghost use Rattle.tac_ir.specs.declared.program.Tac as memory;
ghost use Rattle.dsa_local.specs.Roots.{base_at};
ghost use Rattle.graph_unification.specs.GraphPremises.First.{base_of};

use c_typed::{CType, Static};
use graph_unification::Name;
use heap_graph::StaticNumbers;
use tac_ir::{GlobalId, LiteralId, Tac};

/// A variable outside functions, or a literal.
#[derive(Clone, Copy)]
pub enum Root {
    Global(GlobalId),
    Literal(LiteralId),
}

impl Root {
    /// Its name.
    pub fn name(self) -> Name
        ensures { (tac : C.Tac) (graph : G.Graph) → graph.targets (name_of result) ≡ (base_part tac graph InStart (base_at self)).target }
    {
        match self {
            Root::Global(global) => Name::Global(global),
            Root::Literal(literal) => Name::Literal(literal),
        }
    }

    /// Its type, or `void` where it isn't there.
    pub fn c_type(self, tac: &Tac) -> CType
        requires { LiteralsStand tac.now.types tac.now.literals.items }
        ensures { (graph : G.Graph) → type_in tac.now.types result ≡ (base_part (tac_of tac.now) graph InStart (base_at self)).c_type }
    {
        match self {
            Root::Global(global) => match tac.globals.get(global.0) {
                Some(definition) => definition.c_type,
                None => CType::VOID,
            },
            Root::Literal(literal) => match tac.literals.get(literal.0) {
                Some(definition) => definition.c_type,
                None => CType::VOID,
            },
        }
    }
}

/// The object that a constant names.
pub fn static_root(numbers: &StaticNumbers, root: &Static) -> Option<Root>
    ensures { (tac : memory.Tac) → AreNumbers tac numbers.now → option_map base_at result ≡ base_of (tac_of tac) (static_of root.now) }
{
    match root {
        Static::Variable(name) => match numbers.global(name.as_slice()) {
            Some(number) => Some(Root::Global(number)),
            None => None,
        },
        Static::Literal(place) => match numbers.literal(*place) {
            Some(number) => Some(Root::Literal(number)),
            None => None,
        },
    }
}
