// What a function asks of its group's graph, and what `start` asks.

ghost use Rattle.std.specs.Prelude.{◌≡◌, ◌<◌, ◌↔◌, true, length, map, Some, IfOk};
ghost use Rattle.tac_ir.specs.States.{InStart, function_of};
ghost use Rattle.tac_ir.specs.Views.{op_in, function_in, tac_of};
ghost use Rattle.heap_graph.specs.Closed.{group_of, FunctionClosed};
ghost use Rattle.heap_graph.specs.Known.{owner_at};
ghost use Rattle.graph_checker.specs.Programs.{family_of, IsMember};
ghost use Rattle.heap_graph.specs.Code.{CodeClosed, IsMemberClosed};
ghost use Rattle.graph_checker.specs.Fits.{limit_of, AllFit, SoundBefore, ObjectsFit, IsFit};

use crate::context::Context;
use crate::formals::formals_closed;
use crate::objects::locals_closed;
use crate::program::{Member, Program};
use heap_graph::scope_of;
use std::alloc::{AllocError, Global};
use tac_ir::{Function, FunctionId};

impl<'a> Program<'a> {
    /// Whether what a function asks of its group's graph holds.
    pub fn member_closed(self, alloc: Global, function: FunctionId) -> Result<bool, AllocError>
        requires program { IsFit self }
        requires within { function.0 < length self.tac.now.functions.items }
        requires sound { SoundBefore self (group_of (family_of self) function.0) }
        ensures { IfOk result (λ closed. (closed ≡ true) ↔ IsMemberClosed (family_of self.entry) function.0) }
    {
        let own = self.member(function);
        let code = &self.tac.functions[function.0];
        Ok(
            formals_closed(&self.tac.types, own.names, code.c_type)
                && self.code_closed(alloc, own, Some(function), code)?,
        )
    }

    /// Whether what `start` asks of its graph holds, but for first values.
    pub fn start_closed(self, alloc: Global) -> Result<bool, AllocError>
        requires program { IsFit self }
        requires sound { SoundBefore self (length self.groups.now.members.items) }
        ensures { IfOk result (λ closed. (closed ≡ true) ↔ FunctionClosed (family_of self.entry) InStart (tac_of self.entry.tac.now).start) }
    {
        self.code_closed(alloc, self.start(), None, &self.tac.start)
    }

    /// Whether what a function's locals in memory and its points ask holds.
    fn code_closed(
        self,
        alloc: Global,
        own: Member<'a>,
        owner: Option<FunctionId>,
        code: &Function,
    ) -> Result<bool, AllocError>
        requires program { IsFit self }
        requires sound { SoundBefore self (limit_of self own.group) }
        requires fit { AllFit self own.group (map (op_in self.tac.now.types) code.now.points.items) }
        requires objects { ObjectsFit self.tac.now code.now }
        requires code { function_of (tac_of self.tac.now) (owner_at owner) ≡ Some (function_in self.tac.now.types code.now) }
        ensures { IfOk result (λ closed. IsMember self.entry.tac.now.types (family_of self.entry) (owner_at owner) own.entry
            → (closed ≡ true) ↔ CodeClosed (family_of self.entry) (owner_at owner) (function_in self.entry.tac.now.types code.now)) }
    {
        let objects = code.objects.as_slice();
        if !locals_closed(&self.tac.types, own.graph, own.names, objects) {
            return Ok(false);
        }
        let scope = scope_of(alloc, owner, code)?;
        let context = Context {
            tac: self.tac,
            graph: own.graph,
            names: own.names,
            scope: &scope,
        };
        if !context.points_closed(code.points.as_slice()) {
            return Ok(false);
        }
        self.calls_asked(alloc, own, code.points.as_slice())
    }
}
