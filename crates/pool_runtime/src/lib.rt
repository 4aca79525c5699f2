//! Pools of cells in a space of slabs.
//!
//! `Pool` and `Pools` of slab_space's definitions say what pools are and what each call does; the contracts here are
//! equations with these.
#![tactic(auto)]

mod cells;
mod memory;
mod pool;
mod pools;
mod slabs;

pub use pools::{AllocEnd, NotLive, PoolId, Pools};
pub use raw_slab::OutOfMemory;
pub use slab_space::PoolKind;
