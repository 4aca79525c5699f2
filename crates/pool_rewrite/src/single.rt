// The plan of one pool.

ghost use Rattle.std.specs.Prelude.{◌≡◌, IfOk};
ghost use Rattle.tac_ir.specs.Views.{tac_of};
ghost use Rattle.tac_ir.specs.Code as C;
ghost use Rattle.pool_rewrite.specs.Plan as spec;
ghost use Rattle.pool_rewrite.specs.Views.{plan_of, function_plan_of};

use crate::plan::{FunctionPlan, Plan};
use pool_ir::{Action, Descriptor, KindId};
use slab_space::PoolKind;
use std::alloc::{AllocError, Global};
use tac_ir::Tac;

/// The one pool's descriptor in each function.
const POOL: Descriptor = Descriptor(0);

/// The plan in which one pool of objects of any size serves everywhere: `start` makes it, and each function takes it.
pub fn one_pool(alloc: Global, tac: &Tac) -> Result<Plan, AllocError>
    ensures { IfOk result (λ made. plan_of made ≡ spec.one_pool (tac_of tac.now)) }
{
    let mut kinds = Vec::new(alloc);
    kinds.push(PoolKind::Mixed)?;
    let mut functions = Vec::new(alloc);
    for _function in &tac.functions {
        functions.push(function_plan(alloc)?)?;
    }
    let start = start_plan(alloc)?;
    Ok(Plan {
        kinds,
        functions,
        start,
    })
}

/// A function takes it.
fn function_plan(alloc: Global) -> Result<FunctionPlan, AllocError>
    ensures { IfOk result (λ made. (function : C.Function) → function_plan_of made ≡ spec.one_pool_function function) }
{
    let mut passed = Vec::new(alloc);
    passed.push(POOL)?;
    Ok(FunctionPlan {
        descriptors: 1,
        taken: 1,
        entering: Vec::new(alloc),
        edges: Vec::new(alloc),
        leaving: Vec::new(alloc),
        pools: Vec::new(alloc),
        other_pool: POOL,
        passes: Vec::new(alloc),
        other_passes: passed,
    })
}

/// `start` makes it.
fn start_plan(alloc: Global) -> Result<FunctionPlan, AllocError>
    ensures { IfOk result (λ made. function_plan_of made ≡ spec.one_pool_start) }
{
    let mut entering = Vec::new(alloc);
    entering.push(Action::Make {
        descriptor: POOL,
        kind: KindId(0),
    })?;
    let mut passed = Vec::new(alloc);
    passed.push(POOL)?;
    Ok(FunctionPlan {
        descriptors: 1,
        taken: 0,
        entering,
        edges: Vec::new(alloc),
        leaving: Vec::new(alloc),
        pools: Vec::new(alloc),
        other_pool: POOL,
        passes: Vec::new(alloc),
        other_passes: passed,
    })
}
