// Functions.

ghost use Rattle.std.specs.Prelude.{◌≡◌, map, IfOk};
ghost use Rattle.tac_ir.specs.Views.{tac_of, function_in};
ghost use Rattle.pool_ir.specs.Views as V;
ghost use Rattle.pool_rewrite.specs.Rewriting as R;
ghost use Rattle.pool_rewrite.specs.Views.{function_plan_of};
ghost use Rattle.pool_rewrite.specs.Rewritable.{FrameFits, FramesFit};
ghost use Rattle.pool_rewrite.specs.Made.{IsProgram};

use crate::frames::{layout_of, places_of};
use crate::locals::Locals;
use crate::plan::FunctionPlan;
use crate::points::{Found, points_of};
use pool_ir as pool;
use pool_ir::{Action, Edge};
use std::alloc::{AllocError, Global};
use tac_ir::{Function, Tac};

/// The functions, each with its plan.
pub(crate) fn functions_of(
    alloc: Global,
    tac: &Tac,
    found: &Found,
    plans: &[FunctionPlan],
    functions: &[Function],
) -> Result<Vec<pool::Function>, AllocError>
    requires fit { FramesFit tac.now.types plans.now functions.now }
    requires found { IsProgram tac.now found.now }
    ensures { IfOk result (λ made. map V.function_of made.items ≡ R.functions_of (tac_of tac.now) (map function_plan_of plans.now) (map (function_in tac.now.types) functions.now)) }
{
    let mut made = Vec::new(alloc);
    let mut number = 0;
    while number < plans.len() && number < functions.len() {
        made.push(function_of(alloc, tac, found, &plans[number], &functions[number])?)?;
        number += 1;
    }
    Ok(made)
}

/// A function with its plan.
pub(crate) fn function_of(
    alloc: Global,
    tac: &Tac,
    found: &Found,
    plan: &FunctionPlan,
    function: &Function,
) -> Result<pool::Function, AllocError>
    requires fits { FrameFits tac.now.types (function_plan_of plan.now) function.now }
    requires found { IsProgram tac.now found.now }
    ensures { IfOk result (λ made. V.function_of made ≡ R.function_of (tac_of tac.now) (function_plan_of plan.now) (function_in tac.now.types function.now)) }
{
    let places = places_of(alloc, &tac.types, plan, function)?;
    let locals = Locals::of_places(alloc, places.locals.as_slice())?;
    let points = function.points.as_slice();
    Ok(pool::Function {
        signature: found.signatures.of_type(&tac.types, function.c_type),
        taken: plan.taken,
        frame: layout_of(alloc, plan, function, &places)?,
        entering: copied_actions(alloc, plan.entering.as_slice())?,
        edges: copied_edges(alloc, plan.edges.as_slice())?,
        leaving: copied_actions(alloc, plan.leaving.as_slice())?,
        points: points_of(alloc, tac, found, plan, &locals, points)?,
    })
}

fn copied_actions(alloc: Global, actions: &[Action]) -> Result<Vec<Action>, AllocError>
    ensures { IfOk result (λ copy. copy.items ≡ actions.now) }
{
    Vec::from_slice(alloc, actions)
}

fn copied_edges(alloc: Global, edges: &[Edge]) -> Result<Vec<Edge>, AllocError>
    ensures { IfOk result (λ copy. map V.edge_of copy.items ≡ map V.edge_of edges.now) }
{
    let mut copy = Vec::new(alloc);
    for edge in edges {
        copy.push(Edge {
            from: edge.from,
            to: edge.to,
            actions: copied_actions(alloc, edge.actions.as_slice())?,
        })?;
    }
    Ok(copy)
}
