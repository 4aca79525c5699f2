// What an image holds.

use pool_isa::Instr;
use slab_space::PoolKind;
use thiserror::Error;

/// The limits within which an image runs.
#[derive(Clone, Copy, Debug, PartialEq, Eq)]
pub struct MachineLimits {
    /// How many slabs of 4,096 bytes the heap has: 1 to 1,048,576.
    pub slabs: u32,
    /// How many cells an indexed pool may have: 1 to 4,294,967,295.
    pub index: u32,
}

/// The globals: their first contents, then zeros up to the size in bytes.
#[derive(Debug, Drop)]
pub struct Globals {
    pub size: u32,
    pub contents: Vec<u8>,
}

/// A function of an image.
#[derive(Debug, Drop)]
pub struct Function {
    /// How many parameters it has, a word each: up to 320.
    pub parameters: u32,
    /// The bytes of its frame beyond the parameters: up to 67,108,864.
    pub extra: u32,
    /// How many operands it may hold at once: 1 to 65,536.
    pub height: u32,
    /// The number of its type, which an indirect call names.
    pub signature: u32,
    pub code: Vec<Instr>,
}

/// A program for the machine. Function 0 is `start`.
#[derive(Debug, Drop)]
pub struct Image {
    pub version: u8,
    pub limits: MachineLimits,
    pub globals: Globals,
    pub kinds: Vec<PoolKind>,
    pub functions: Vec<Function>,
}

/// Why bytes are no image.
#[derive(Debug, Drop, Error)]
pub enum ImageErr {
    /// No image's bytes begin with the bytes through this place; at the length, they are the front of an image's.
    #[error("no image at byte {0}")]
    Bad(usize),
    #[error("out of memory")]
    OutOfMemory,
}
