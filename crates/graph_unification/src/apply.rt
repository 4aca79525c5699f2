// Points, one after the other.

ghost use Rattle.std.specs.Prelude.{map, IfOk, OnOk};
ghost use Rattle.tac_ir.specs.Views.{op_in};
ghost use Rattle.graph_unification.specs.Memory.{IsGraph};
ghost use Rattle.graph_unification.specs.Applying.{code_of, owner_of, shown, IsKnown, AppliesTo, IsAsked, AllAsked};
ghost use Rattle.graph_unification.specs.Fits.{OpFits, AllFit};

use crate::applied::Applied;
use crate::graph::Graph;
use crate::name_steps::either;
use std::alloc::AllocError;
use tac_ir::Op;

impl<'a> Applied<'a> {
    /// Does what a point asks of a graph, unless it holds, and answers whether the graph was changed. Calls ask nothing here.
    pub fn apply(self, graph: &mut Graph, op: &Op) -> Result<bool, AllocError>
        requires known { IsKnown self }
        requires graph { IsGraph self.tac.now.types graph.old }
        requires fits { OpFits (code_of self) (shown self graph.old) (owner_of self) (op_in self.tac.now.types op.now) }
        ensures graph { OnOk result (IsGraph self.entry.tac.now.types graph.new) }
        ensures applies { IfOk result (λ changed. AppliesTo self.entry changed graph.old graph.new (IsAsked (code_of self.entry) (owner_of self.entry) (op_in self.entry.tac.now.types op.now))) }
    {
        match op {
            Op::Copy { to, from } => self.take(graph, self.own(*to), *from),
            Op::Move { to, pointer, .. } => self.move_pointer(graph, *to, *pointer),
            Op::Repoint { to, target, from } => self.repoint(graph, *to, *target, *from),
            Op::Address { to, path } => self.take_address(graph, *to, path),
            Op::Load { to, scalar, path } => self.load(graph, *to, *scalar, path),
            Op::Store {
                path,
                scalar,
                value,
            } => self.store(graph, path, *scalar, value),
            Op::Allocate { site, .. } => Ok(self.allocate(graph, *site)),
            Op::Return(value) => self.give_back(graph, value),
            _ => Ok(false),
        }
    }

    /// Does what points ask of a graph, one after the other, and answers whether the graph was changed.
    pub fn apply_all(self, graph: &mut Graph, points: &[Op]) -> Result<bool, AllocError>
        requires known { IsKnown self }
        requires graph { IsGraph self.tac.now.types graph.old }
        requires fit { AllFit (code_of self) (shown self graph.old) (owner_of self) (map (op_in self.tac.now.types) points.now) }
        ensures graph { OnOk result (IsGraph self.entry.tac.now.types graph.new) }
        ensures applies { IfOk result (λ changed. AppliesTo self.entry changed graph.old graph.new (AllAsked (code_of self.entry) (owner_of self.entry) (map (op_in self.entry.tac.now.types) points.now))) }
    {
        let mut changed = false;
        for op in points {
            let applied = self.apply(graph, op)?;
            changed = either(changed, applied);
        }
        Ok(changed)
    }
}
