//! Code with pools of three-address code, by a plan that says which pools serve.
//!
//! `specs/Rewriting.antt` has the code with pools of a program and a plan, `specs/Standing.antt` how its memory and words stand for objects
//! and values. `rewrite` makes this code, and `one_pool` the plan in which one pool serves everywhere.
#![tactic(auto)]

mod contents;
mod first;
mod frames;
mod functions;
mod locals;
mod names;
mod parts;
mod paths;
mod plain;
mod plan;
mod points;
mod program;
mod signatures;
mod single;
mod sizes;
mod statics;

pub use plan::{FunctionPlan, Plan};
pub use program::rewrite;
pub use single::one_pool;
