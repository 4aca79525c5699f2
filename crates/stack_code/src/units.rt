// What is emitted, before it is linked.

use pool_isa::Instr;
use slab_space::PoolKind;

/// A function of the machine.
#[derive(Debug, Drop)]
pub struct Unit {
    /// How many parameters it has, a word each: the pools that it takes, and its own.
    pub parameters: u32,
    /// The bytes of its frame beyond the parameters.
    pub extra: u32,
    /// How many operands it may hold at once.
    pub height: u32,
    /// The number of its type.
    pub signature: u32,
    pub code: Vec<Instr>,
}

/// A program for the machine. Function 0 is `start`.
#[derive(Debug, Drop)]
pub struct Units {
    pub functions: Vec<Unit>,
    /// The kinds of pools that `PoolInit` names by their places here. A kind may stand at several places.
    pub kinds: Vec<PoolKind>,
    /// How many bytes the globals have.
    pub globals: u32,
    /// What stands there at first; zeros follow.
    pub contents: Vec<u8>,
}
