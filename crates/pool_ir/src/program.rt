// Functions and programs in code with pools.

use crate::number::{Descriptor, KindId, Signature};
use crate::op::Op;
use slab_space::PoolKind;
use tac_ir::{Counts, Local, PointId};

/// What is done with a pool.
#[derive(Clone, Copy, Debug, PartialEq, Eq)]
pub enum Action {
    /// A pool of the kind is made, which the descriptor then holds.
    Make {
        descriptor: Descriptor,
        kind: KindId,
    },
    /// The pool of the descriptor is destroyed.
    Destroy(Descriptor),
}

/// What is done with pools on the way from a point to another.
#[derive(Drop)]
pub struct Edge {
    pub from: PointId,
    pub to: PointId,
    pub actions: Vec<Action>,
}

/// A local in memory, by how many bytes it lies behind the beginning of the frame, and its size.
#[derive(Clone, Copy, Debug, PartialEq, Eq)]
pub struct FrameObject {
    pub local: Local,
    pub offset: u64,
    pub size: u64,
}

/// The frame of a function: words for its descriptors, its parameters and its other registers, then its objects; and its size in bytes.
#[derive(Drop)]
pub struct FrameLayout {
    pub descriptors: usize,
    pub parameters: usize,
    pub registers: Counts,
    pub objects: Vec<FrameObject>,
    pub size: u64,
}

/// A function. It begins at its first point.
#[derive(Drop)]
pub struct Function {
    pub signature: Signature,
    /// How many descriptors it takes.
    pub taken: usize,
    pub frame: FrameLayout,
    pub entering: Vec<Action>,
    pub edges: Vec<Edge>,
    pub leaving: Vec<Action>,
    pub points: Vec<Op>,
}

/// A program in code with pools: its functions by number, `start`, which calls `main`, the kinds of its pools, and how many bytes the
/// globals have, with what stands there at first.
#[derive(Drop)]
pub struct PoolCode {
    pub functions: Vec<Function>,
    pub start: Function,
    pub kinds: Vec<PoolKind>,
    pub globals: u64,
    pub contents: Vec<u8>,
}
