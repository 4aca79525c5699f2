// What first values mention.

ghost use Rattle.tac_ir.specs.declared.program.Tac as memory_tac;
ghost use Rattle.tac_ir.specs.Views.{tac_of};
ghost use Rattle.c_typed.specs.DefinitionViews.{static_of, scalar_of, first_of, all_first};
ghost use Rattle.graph_unification.specs.GraphPremises.First.{base_of};
ghost use Rattle.heap_graph.specs.Numbers.{AreNumbers};
ghost use Rattle.dsa_inlining.specs.Counting.{begins_at, points_at};
ghost use Rattle.dsa_inlining.specs.Tallies.{Adds, begins};
ghost use Rattle.dsa_inlining.specs.FirstValues.{values_mention, first_names};

use crate::mentions::Mentions;
use c_typed::{First, Scalar, Static};
use heap_graph::StaticNumbers;
use tac_ir::{GlobalId, Tac};

impl Mentions {
    /// Adds the variables outside functions that have first values, and the objects into which these point.
    pub(crate) fn add_first(&mut self, tac: &Tac, numbers: &StaticNumbers)
        requires { AreNumbers tac.now numbers.now }
        ensures { Adds (first_names (tac_of tac.now) 0 (tac_of tac.now).globals) self.old self.new }
    {
        for (number, global) in tac.globals.iter().enumerate() {
            self.add_values(numbers, GlobalId(number), global.first.as_slice());
        }
    }

    /// The same of the first values of one variable.
    fn add_values(&mut self, numbers: &StaticNumbers, own: GlobalId, firsts: &[First])
        ensures { (tac : memory_tac.Tac) → AreNumbers tac numbers.now → Adds (values_mention (tac_of tac) own.0 (all_first firsts.now)) self.old self.new }
    {
        for first in firsts {
            self.add_value(numbers, own, first);
        }
    }

    fn add_value(&mut self, numbers: &StaticNumbers, own: GlobalId, first: &First)
        ensures { (tac : memory_tac.Tac) → AreNumbers tac numbers.now → Adds (values_mention (tac_of tac) own.0 (first_of first.now)) self.old self.new }
    {
        match first {
            First::Scalar(held) => {
                self.add_global(own);
                self.add_scalar(numbers, &held.value);
            }
            First::Text { bytes, .. } => {
                if !bytes.as_slice().is_empty() {
                    self.add_global(own);
                }
            }
        }
    }

    /// Adds the object into which a first value points, if it does.
    fn add_scalar(&mut self, numbers: &StaticNumbers, value: &Scalar)
        ensures { (tac : memory_tac.Tac) → AreNumbers tac numbers.now → Adds (λ name. points_at (tac_of tac) (begins name) (scalar_of value.now)) self.old self.new }
    {
        match value {
            Scalar::Integer(_) => {}
            Scalar::Null => {}
            Scalar::Function(_) => {}
            Scalar::Pointer { root, .. } => self.add_root(numbers, root),
        }
    }

    /// Adds the object that a constant names.
    fn add_root(&mut self, numbers: &StaticNumbers, root: &Static)
        ensures { (tac : memory_tac.Tac) → AreNumbers tac numbers.now → Adds (λ name. begins_at (begins name) (base_of (tac_of tac) (static_of root.now))) self.old self.new }
    {
        match root {
            Static::Variable(name) => match numbers.global(name.as_slice()) {
                Some(number) => self.add_global(number),
                None => {}
            },
            Static::Literal(place) => match numbers.literal(*place) {
                Some(number) => self.add_literal(number),
                None => {}
            },
        }
    }
}
