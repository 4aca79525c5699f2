// Programs.

ghost use Rattle.std.specs.Prelude.{◌≡◌, ◌≤◌, IfOk};
ghost use Rattle.c_typed.specs.Layouts.{greatest};
ghost use Rattle.c_typed.specs.DefinitionViews.{LiteralsStand};
ghost use Rattle.tac_ir.specs.Views.{tac_of};
ghost use Rattle.pool_ir.specs.Views.{code_of};
ghost use Rattle.pool_rewrite.specs.Rewriting.{rewritten};
ghost use Rattle.pool_rewrite.specs.Views.{plan_of};
ghost use Rattle.pool_rewrite.specs.Placing.{statics_size};
ghost use Rattle.pool_rewrite.specs.Firsts.{IsRewritable};
ghost use Rattle.pool_rewrite.specs.Made.{IsProgram};

use crate::contents::first_contents;
use crate::functions::{function_of, functions_of};
use crate::plan::Plan;
use crate::points::Found;
use crate::signatures::Signatures;
use crate::statics::Statics;
use pool_ir::PoolCode;
use std::alloc::{AllocError, Global};
use tac_ir::Tac;

/// The code with pools of a program, with a plan for each of its functions.
pub fn rewrite(alloc: Global, tac: &Tac, plan: &Plan) -> Result<PoolCode, AllocError>
    requires { IsRewritable tac.now plan.now }
    ensures { IfOk result (λ made. code_of made ≡ rewritten (plan_of plan.now) (tac_of tac.now)) }
{
    let found = find(alloc, tac)?;
    let plans = plan.functions.as_slice();
    Ok(PoolCode {
        functions: functions_of(alloc, tac, &found, plans, tac.functions.as_slice())?,
        start: function_of(alloc, tac, &found, &plan.start, &tac.start)?,
        kinds: Vec::from_slice(alloc, plan.kinds.as_slice())?,
        globals: found.statics.size,
        contents: first_contents(alloc, tac, &found.statics)?,
    })
}

/// What is found before the points are.
fn find(alloc: Global, tac: &Tac) -> Result<Found, AllocError>
    requires literals { LiteralsStand tac.now.types tac.now.literals.items }
    requires small { statics_size (tac_of tac.now) ≤ greatest }
    ensures { IfOk result (λ made. IsProgram tac.now made) }
{
    let statics = Statics::of_program(alloc, tac)?;
    let signatures = Signatures::of_functions(alloc, &tac.types, tac.functions.as_slice())?;
    Ok(Found {
        statics,
        signatures,
    })
}
