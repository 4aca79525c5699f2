//! Slabs of 4,096 bytes, taken and given back in runs of adjacent ones.
//!
//! `Pool` and `Pools` in its definitions say what pools of cells are and what each call on them does.
//!
//! Contracts see a space as the owner of each slab below the limit and as the bytes of all slabs in order.
//!
//! What it means that the heap is exhausted: the objects placed so far and the refused one need more slabs than there are.
//!
//! `specs/Needs.antt` says it, `proofs/Exhausted.antt` shows it.
#![tactic(auto)]

mod kind;
pub mod laws;
mod slots;
mod space;

pub use kind::PoolKind;
pub use space::{SlabSpace, TakeErr};
