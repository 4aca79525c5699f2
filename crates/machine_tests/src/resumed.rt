// Machines that are called twice, and their reports.

use crate::scenes::{CELLS, LARGE, NOTHING, Outside, alone, called_twice, with_pools};
use image_form::{MachineLimits, PoolKind};
use machine::{PoolCounts, Report, ReportRow, RunEnd};
use pool_isa::Instr;
use std::alloc::Global;
use std::test::Fail;

/// Reads two bytes, writes them, and ends with the second.
const TWO_BYTES: [Instr; 6] = [
    Instr::GetChar,
    Instr::PutChar,
    Instr::Discard,
    Instr::GetChar,
    Instr::PutChar,
    Instr::Exit,
];

const SPENT: RunEnd = RunEnd::StepsSpent;

const ENDED: RunEnd = RunEnd::Ended(b'b');

// The reads that fail, the steps of two calls, and what these answer.
const CONTINUED: [(&[u64], [u32; 2], [RunEnd; 2]); 9] = [
    (&[], [0, 6], [SPENT, ENDED]),
    (&[], [1, 5], [SPENT, ENDED]),
    (&[], [2, 9], [SPENT, ENDED]),
    (&[], [5, 1], [SPENT, ENDED]),
    // The step of the fault is not made.
    (&[1], [9, 6], [RunEnd::ReadFault, ENDED]),
    (&[2], [9, 3], [RunEnd::ReadFault, ENDED]),
    (&[2], [9, 2], [RunEnd::ReadFault, SPENT]),
    // A run that is over stays so.
    (&[], [6, 0], [ENDED, ENDED]),
    (&[], [9, 9], [ENDED, ENDED]),
];

/// The first row that does not hold. Each run leaves a byte of the input and writes two, and the report tells its last answer.
fn first_wrong(
    alloc: Global,
    rows: &[(&[u64], [u32; 2], [RunEnd; 2])],
) -> Result<Option<usize>, Fail> {
    for (index, (failing_reads, steps, ends)) in rows.iter().enumerate() {
        let outside = Outside {
            input: b"abc",
            failing_reads,
            failing_writes: &[],
        };
        let told = called_twice(alloc, &alone(&TWO_BYTES), &outside, *steps)?;
        let found = (told.ends, told.report.last, told.left);
        if found != (*ends, Some(ends[1]), 1) || told.written.as_slice() != b"ab".as_slice() {
            return Ok(Some(index));
        }
    }
    Ok(None)
}

#[test]
fn a_run_goes_on_where_it_was_broken_off(rt: HostRuntime) -> Result<(), Fail> {
    assert_eq!(rt; first_wrong(rt.alloc(), &CONTINUED)?, None);
    Ok(())
}

// Two objects, one of which is freed before the other is placed; then function 1 twice; then a pool without objects.
const MAKES_POOLS: [Instr; 13] = [
    Instr::PoolInit(0),
    Instr::Constant(12),
    Instr::PoolAlloc,
    Instr::Constant(1),
    Instr::Swap,
    Instr::PoolFree,
    Instr::Constant(1),
    Instr::Constant(12),
    Instr::PoolAlloc,
    Instr::Discard,
    Instr::Call(1),
    Instr::Call(1),
    Instr::PoolInit(2),
];

// Two objects of a slab each live at once, and then the pool is destroyed.
const DESTROYS: [Instr; 10] = [
    Instr::PoolInit(1),
    Instr::Duplicate,
    Instr::Constant(3000),
    Instr::PoolAlloc,
    Instr::Discard,
    Instr::Duplicate,
    Instr::Constant(3000),
    Instr::PoolAlloc,
    Instr::Discard,
    Instr::PoolDestroy,
];

const ROWS: [ReportRow; 3] = [
    ReportRow {
        function: 0,
        kind: CELLS,
        counts: PoolCounts {
            made: 1,
            objects: 2,
            peak: 1,
            slabs: 1,
        },
    },
    ReportRow {
        function: 0,
        kind: PoolKind::Mixed,
        counts: PoolCounts {
            made: 1,
            objects: 0,
            peak: 0,
            slabs: 0,
        },
    },
    ReportRow {
        function: 1,
        kind: LARGE,
        counts: PoolCounts {
            made: 2,
            objects: 4,
            peak: 2,
            slabs: 2,
        },
    },
];

/// The report on the program that makes pools, after two calls.
fn reported(alloc: Global, steps: [u32; 2]) -> Result<Report, Fail> {
    let limits = MachineLimits { slabs: 9, index: 9 };
    let scene = with_pools(limits, &MAKES_POOLS, 0, &DESTROYS);
    Ok(called_twice(alloc, &scene, &NOTHING, steps)?.report)
}

/// The last answer, and the numbers of rows, pools, objects and slabs.
fn totals(report: &Report) -> (Option<RunEnd>, usize, u64, u64, u32) {
    (
        report.last,
        report.rows.len(),
        report.made,
        report.objects,
        report.slabs,
    )
}

#[test]
fn a_report_tells_of_each_instruction_that_makes_pools(rt: HostRuntime) -> Result<(), Fail> {
    let report = reported(rt.alloc(), [5, 100])?;
    assert_eq!(rt; totals(&report), (Some(RunEnd::Ended(0)), 3, 4, 6, 3));
    assert_eq!(rt; report.rows.as_slice(), ROWS.as_slice());
    Ok(())
}

#[test]
fn at_first_nothing_is_counted(rt: HostRuntime) -> Result<(), Fail> {
    let report = reported(rt.alloc(), [0, 0])?;
    assert_eq!(rt; totals(&report), (Some(SPENT), 3, 0, 0, 0));
    Ok(())
}
