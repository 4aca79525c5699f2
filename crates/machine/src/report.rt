// What a machine has counted of its pools.

use crate::ends::RunEnd;
use pool_isa::PoolCounts;
use pool_runtime::PoolKind;

/// The pools of one instruction that makes them.
#[derive(Clone, Copy, Debug, PartialEq, Eq)]
pub struct ReportRow {
    /// The number of its function.
    pub function: usize,
    /// The kind of its pools.
    pub kind: PoolKind,
    pub counts: PoolCounts,
}

/// What was counted of all pools so far.
#[derive(Debug, Drop)]
pub struct Report {
    /// The last answer of `run`.
    pub last: Option<RunEnd>,
    /// A row for each instruction that makes pools, in the order of functions and instructions.
    pub rows: Vec<ReportRow>,
    /// The pools made.
    pub made: u64,
    /// The objects placed in them.
    pub objects: u64,
    /// The most slabs that were held at once.
    pub slabs: u32,
}
