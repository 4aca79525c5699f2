// Which pools serve.

ghost use Rattle.std.specs.Prelude.{◌≡◌, IfOk};
ghost use Rattle.pool_ir.specs.Views.{descriptors_of};
ghost use Rattle.pool_rewrite.specs.Views.{function_plan_of};

use pool_ir::{Action, Descriptor, Edge};
use slab_space::PoolKind;
use std::alloc::{AllocError, Global};

/// The pools of a function.
#[derive(Drop)]
pub struct FunctionPlan {
    /// How many descriptors it has.
    pub descriptors: usize,
    /// How many of them, from the first, it takes from its caller.
    pub taken: usize,
    /// What is done with pools before its first point.
    pub entering: Vec<Action>,
    /// What is done with pools on the way from a point to another.
    pub edges: Vec<Edge>,
    /// What is done with pools behind its last point.
    pub leaving: Vec<Action>,
    /// By sites, the pool of an allocation or a free.
    pub pools: Vec<Descriptor>,
    /// That of each site behind these.
    pub other_pool: Descriptor,
    /// By sites, the pools that a call passes.
    pub passes: Vec<Vec<Descriptor>>,
    /// Those of each site behind these.
    pub other_passes: Vec<Descriptor>,
}

/// The pools of a program: their kinds, and a plan for each function and for `start`.
#[derive(Drop)]
pub struct Plan {
    pub kinds: Vec<PoolKind>,
    pub functions: Vec<FunctionPlan>,
    pub start: FunctionPlan,
}

impl FunctionPlan {
    /// The pool of an allocation or a free.
    pub fn pool_of_site(&self, site: usize) -> Descriptor
        ensures { result.0 ≡ (function_plan_of self.now).pool_at site }
    {
        match self.pools.get(site) {
            Some(pool) => *pool,
            None => self.other_pool,
        }
    }

    /// The pools that a call passes.
    pub fn passed_at_site(&self, alloc: Global, site: usize) -> Result<Vec<Descriptor>, AllocError>
        ensures { IfOk result (λ passed. descriptors_of passed.items ≡ (function_plan_of self.now).passes site) }
    {
        match self.passes.get(site) {
            Some(passed) => Vec::from_slice(alloc, passed.as_slice()),
            None => Vec::from_slice(alloc, self.other_passes.as_slice()),
        }
    }
}
