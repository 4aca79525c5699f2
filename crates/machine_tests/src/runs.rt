// How programs end, what they leave of the input, and what they write.

use crate::scenes::{NOTHING, Outside, Scene, alone, calling, ran, with_pools};
use c_num::{BinOp, IntType, Relation};
use image_form::MachineLimits;
use machine::RunEnd;
use pool_isa::{Instr, Width};
use run_theory::TrapKind;
use std::alloc::Global;
use std::test::Fail;

const EMPTY: RunEnd = RunEnd::Trapped(TrapKind::StackEmpty);

const FULL: RunEnd = RunEnd::Trapped(TrapKind::StackFull);

const REACHED: RunEnd = RunEnd::Trapped(TrapKind::Reached);

const BAD_ACCESS: RunEnd = RunEnd::Trapped(TrapKind::BadAccess);

const BAD_POOL: RunEnd = RunEnd::Trapped(TrapKind::BadPool);

const BAD_SIZE: RunEnd = RunEnd::Trapped(TrapKind::BadSize);

const BAD_FREE: RunEnd = RunEnd::Trapped(TrapKind::BadFree);

const BAD_CALL: RunEnd = RunEnd::Trapped(TrapKind::BadCall);

// Programs without input. A function may hold two operands here.
const ENDS: [(&[Instr], RunEnd); 30] = [
    (&[Instr::Constant(300), Instr::Exit], RunEnd::Ended(44)),
    (
        &[Instr::Constant(300), Instr::ReturnValue],
        RunEnd::Ended(44),
    ),
    (&[Instr::Return], RunEnd::Ended(0)),
    (&[Instr::Constant(1), Instr::Store(Width::One)], EMPTY),
    (
        &[Instr::Constant(1), Instr::Constant(2), Instr::GetChar],
        FULL,
    ),
    (&[Instr::Trap], REACHED),
    // The last word of the frame, and one that reaches past its end.
    (
        &[Instr::Local(8), Instr::Load(IntType::ULong), Instr::Exit],
        RunEnd::Ended(0),
    ),
    (
        &[Instr::Local(9), Instr::Load(IntType::ULong), Instr::Exit],
        BAD_ACCESS,
    ),
    // The low byte lies first.
    (
        &[
            Instr::Local(0),
            Instr::Constant(0x0702),
            Instr::Store(Width::Two),
            Instr::Local(1),
            Instr::Load(IntType::UChar),
            Instr::Exit,
        ],
        RunEnd::Ended(7),
    ),
    // The high byte of the word of a `short` of -2.
    (
        &[
            Instr::Local(0),
            Instr::Constant(0xFFFE),
            Instr::Store(Width::Eight),
            Instr::Local(0),
            Instr::Local(0),
            Instr::Load(IntType::Short),
            Instr::Store(Width::Eight),
            Instr::Local(7),
            Instr::Load(IntType::UChar),
            Instr::Exit,
        ],
        RunEnd::Ended(255),
    ),
    (&[Instr::Duplicate], EMPTY),
    (
        &[Instr::Constant(1), Instr::Constant(2), Instr::Duplicate],
        FULL,
    ),
    (
        &[
            Instr::Constant(7),
            Instr::Duplicate,
            Instr::Binary(BinOp::Add, IntType::Int),
            Instr::Exit,
        ],
        RunEnd::Ended(14),
    ),
    (&[Instr::Constant(1), Instr::Swap], EMPTY),
    (
        &[
            Instr::Constant(3),
            Instr::Constant(5),
            Instr::Swap,
            Instr::Binary(BinOp::Sub, IntType::Int),
            Instr::Exit,
        ],
        RunEnd::Ended(2),
    ),
    (&[Instr::JumpIfZero(0)], EMPTY),
    (
        &[
            Instr::Constant(0),
            Instr::JumpIfZero(3),
            Instr::Return,
            Instr::Trap,
        ],
        REACHED,
    ),
    (
        &[
            Instr::Constant(256),
            Instr::JumpIfZero(3),
            Instr::Return,
            Instr::Trap,
        ],
        RunEnd::Ended(0),
    ),
    (&[Instr::JumpIfNotZero(0)], EMPTY),
    (
        &[
            Instr::Constant(0),
            Instr::JumpIfNotZero(3),
            Instr::Return,
            Instr::Trap,
        ],
        RunEnd::Ended(0),
    ),
    (
        &[
            Instr::Constant(1 << 63),
            Instr::JumpIfNotZero(3),
            Instr::Return,
            Instr::Trap,
        ],
        REACHED,
    ),
    // The jumps have popped their words.
    (
        &[Instr::Constant(0), Instr::JumpIfZero(2), Instr::Exit],
        EMPTY,
    ),
    (
        &[Instr::Constant(0), Instr::JumpIfNotZero(2), Instr::Exit],
        EMPTY,
    ),
    (
        &[Instr::Constant(1), Instr::Binary(BinOp::Div, IntType::Int)],
        EMPTY,
    ),
    (
        &[
            Instr::Constant(1),
            Instr::Compare(Relation::Eq, IntType::Int),
        ],
        EMPTY,
    ),
    (&[Instr::Negate(IntType::Int)], EMPTY),
    (&[Instr::Complement(IntType::Int)], EMPTY),
    (&[Instr::Convert(IntType::Int)], EMPTY),
    // Two operands leave one, so that there is room for another.
    (
        &[
            Instr::Constant(9),
            Instr::Constant(2),
            Instr::Binary(BinOp::Sub, IntType::Int),
            Instr::Constant(3),
            Instr::Discard,
            Instr::Exit,
        ],
        RunEnd::Ended(7),
    ),
    (&[Instr::Trap], REACHED),
];

/// The word of function 1.
const CALLEE: Instr = Instr::Constant((1 << 48) + 1);

/// The address of the first slab.
const FIRST_SLAB: Instr = Instr::Constant(1 << 44);

// With one slab, and three cells in an indexed pool.
const POOLS: [(&[Instr], RunEnd, &[u8]); 18] = [
    // Globals begin with their contents, and are zero behind these.
    (
        &[
            Instr::Constant(4097),
            Instr::Load(IntType::UChar),
            Instr::PutChar,
            Instr::Discard,
            Instr::Constant(4099),
            Instr::Constant(258),
            Instr::Store(Width::One),
            Instr::Constant(4098),
            Instr::Load(IntType::UShort),
            Instr::Constant(256),
            Instr::Binary(BinOp::Div, IntType::Int),
            Instr::Exit,
        ],
        RunEnd::Ended(2),
        &[1],
    ),
    (
        &[Instr::Constant(4097), Instr::Load(IntType::Int)],
        BAD_ACCESS,
        &[],
    ),
    // An object is written, read and freed; reading it then is bad.
    (
        &[
            Instr::PoolInit(2),
            Instr::Constant(8),
            Instr::PoolAlloc,
            Instr::Duplicate,
            Instr::Constant(5),
            Instr::Store(Width::Four),
            Instr::Duplicate,
            Instr::Load(IntType::Int),
            Instr::PutChar,
            Instr::Discard,
            Instr::Duplicate,
            Instr::Constant(1),
            Instr::Swap,
            Instr::PoolFree,
            Instr::Load(IntType::Int),
        ],
        BAD_ACCESS,
        &[5],
    ),
    (
        &[
            Instr::PoolInit(2),
            Instr::Duplicate,
            Instr::PoolDestroy,
            Instr::PoolDestroy,
        ],
        BAD_POOL,
        &[],
    ),
    // Whether there is the pool is tested first.
    (
        &[Instr::Constant(1), Instr::Constant(8), Instr::PoolAlloc],
        BAD_POOL,
        &[],
    ),
    (
        &[Instr::Constant(1), Instr::Constant(0), Instr::PoolFree],
        BAD_POOL,
        &[],
    ),
    (
        &[Instr::PoolInit(0), Instr::Constant(8), Instr::PoolAlloc],
        BAD_SIZE,
        &[],
    ),
    (
        &[
            Instr::PoolInit(0),
            Instr::Constant(0),
            Instr::PoolAlloc,
            Instr::PutChar,
        ],
        RunEnd::Ended(0),
        &[0],
    ),
    (
        &[Instr::PoolInit(2), Instr::Constant(4096), Instr::PoolFree],
        BAD_FREE,
        &[],
    ),
    // Another pool's object.
    (
        &[
            Instr::PoolInit(2),
            Instr::Constant(8),
            Instr::PoolAlloc,
            Instr::PoolInit(2),
            Instr::Swap,
            Instr::PoolFree,
        ],
        BAD_FREE,
        &[],
    ),
    // Address 0 is of no object.
    (
        &[
            Instr::PoolInit(2),
            Instr::Constant(0),
            Instr::PoolFree,
            Instr::Constant(3),
            Instr::Exit,
        ],
        RunEnd::Ended(3),
        &[],
    ),
    (
        &[
            Instr::PoolInit(0),
            Instr::Discard,
            Instr::Constant(1),
            Instr::Constant(12),
            Instr::PoolAlloc,
            Instr::PutChar,
            Instr::Discard,
            Instr::Jump(2),
        ],
        RunEnd::IndexExhausted,
        &[0, 8, 16],
    ),
    (
        &[
            Instr::PoolInit(1),
            Instr::Discard,
            Instr::Constant(1),
            Instr::Constant(3000),
            Instr::PoolAlloc,
            Instr::PutChar,
            Instr::Discard,
            Instr::Jump(2),
        ],
        RunEnd::HeapExhausted,
        &[0],
    ),
    // The second cell's link is written to the first cell, and read from there.
    (
        &[
            Instr::PoolInit(0),
            Instr::Constant(12),
            Instr::PoolAlloc,
            Instr::Constant(1),
            Instr::Constant(12),
            Instr::PoolAlloc,
            Instr::Constant(1),
            Instr::StoreLink,
            FIRST_SLAB,
            Instr::Load(IntType::UInt),
            Instr::PutChar,
            Instr::Discard,
            FIRST_SLAB,
            Instr::Constant(1),
            Instr::LoadLink,
            Instr::PutChar,
            Instr::Exit,
        ],
        RunEnd::Ended(8),
        &[2, 8],
    ),
    // By its word with its signature a function is called, and takes its parameters.
    (
        &[
            Instr::Constant(5),
            Instr::Constant(9),
            CALLEE,
            Instr::CallIndirect(7),
            Instr::Exit,
        ],
        RunEnd::Ended(9),
        &[5],
    ),
    (
        &[
            Instr::Constant(5),
            Instr::Constant(9),
            CALLEE,
            Instr::CallIndirect(0),
        ],
        BAD_CALL,
        &[],
    ),
    // No function is named so.
    (
        &[Instr::Constant((1 << 48) + 2), Instr::CallIndirect(7)],
        BAD_CALL,
        &[],
    ),
    (&[Instr::Constant(1), Instr::CallIndirect(7)], BAD_CALL, &[]),
];

/// How a program ends on an input, of whose reads and writes some fail, so many bytes being left and these written.
struct WithInput {
    start: &'static [Instr],
    input: &'static [u8],
    failing: &'static [u64],
    steps: u32,
    end: RunEnd,
    left: usize,
    written: &'static [u8],
}

const ECHO: [Instr; 4] = [
    Instr::GetChar,
    Instr::PutChar,
    Instr::Discard,
    Instr::Jump(0),
];

const INPUTS: [WithInput; 4] = [
    WithInput {
        start: &ECHO,
        input: b"abc",
        failing: &[],
        steps: 8,
        end: RunEnd::StepsSpent,
        left: 1,
        written: b"ab",
    },
    // The end of the input is -1, whose low byte is 255.
    WithInput {
        start: &ECHO,
        input: b"a",
        failing: &[],
        steps: 6,
        end: RunEnd::StepsSpent,
        left: 0,
        written: b"a\xFF",
    },
    // The second read fails before the second write does.
    WithInput {
        start: &ECHO,
        input: b"abc",
        failing: &[2],
        steps: 100,
        end: RunEnd::ReadFault,
        left: 2,
        written: b"a",
    },
    WithInput {
        start: &[Instr::GetChar, Instr::PutChar, Instr::PutChar, Instr::Exit],
        input: b"abc",
        failing: &[2],
        steps: 100,
        end: RunEnd::WriteFault,
        left: 2,
        written: b"a",
    },
];

/// How a `start` ends that calls a function with so many parameters. Both may hold so many operands.
struct WithCallee {
    start: &'static [Instr],
    parameters: u32,
    callee: &'static [Instr],
    height: u32,
    steps: u32,
    end: RunEnd,
    written: &'static [u8],
}

const CALLS: [WithCallee; 5] = [
    // The second parameter.
    WithCallee {
        start: &[
            Instr::Constant(5),
            Instr::Constant(9),
            Instr::Call(1),
            Instr::Exit,
        ],
        parameters: 2,
        callee: &[
            Instr::Local(8),
            Instr::Load(IntType::ULong),
            Instr::ReturnValue,
        ],
        height: 2,
        steps: 100,
        end: RunEnd::Ended(9),
        written: &[],
    },
    // The callee stores 6 at the address that it is given, in its caller's frame.
    WithCallee {
        start: &[
            Instr::Local(3),
            Instr::Call(1),
            Instr::Local(3),
            Instr::Load(IntType::Char),
            Instr::Exit,
        ],
        parameters: 1,
        callee: &[
            Instr::Local(0),
            Instr::Load(IntType::ULong),
            Instr::Constant(6),
            Instr::Store(Width::Eight),
            Instr::Return,
        ],
        height: 2,
        steps: 100,
        end: RunEnd::Ended(6),
        written: &[],
    },
    // A callee's frame begins with its caller's address and a number; the innermost one doubles the numbers, from itself
    // outward.
    WithCallee {
        start: &[Instr::Constant(0), Instr::Constant(9), Instr::Call(1)],
        parameters: 2,
        callee: &CHAIN,
        height: 3,
        steps: 1000,
        end: RunEnd::Ended(0),
        written: &[2, 4, 6, 8, 10, 12, 14, 16, 18],
    },
    // The call at depth 10,000 ends the run.
    WithCallee {
        start: &[Instr::Call(1)],
        parameters: 0,
        callee: &[Instr::Call(1)],
        height: 2,
        steps: 10_000,
        end: RunEnd::StepsSpent,
        written: &[],
    },
    WithCallee {
        start: &[Instr::Call(1)],
        parameters: 0,
        callee: &[Instr::Call(1)],
        height: 2,
        steps: 10_001,
        end: RunEnd::Depth,
        written: &[],
    },
];

const CHAIN: [Instr; 37] = [
    Instr::Local(8),
    Instr::Load(IntType::ULong),
    Instr::JumpIfZero(10),
    Instr::Local(0),
    Instr::Local(8),
    Instr::Load(IntType::ULong),
    Instr::Constant(1),
    Instr::Binary(BinOp::Sub, IntType::ULong),
    Instr::Call(1),
    Instr::Return,
    // The caller's number is doubled and written out.
    Instr::Local(0),
    Instr::Load(IntType::ULong),
    Instr::JumpIfZero(34),
    Instr::Local(0),
    Instr::Load(IntType::ULong),
    Instr::Constant(8),
    Instr::Binary(BinOp::Add, IntType::ULong),
    Instr::Duplicate,
    Instr::Load(IntType::UChar),
    Instr::Duplicate,
    Instr::Binary(BinOp::Add, IntType::UChar),
    Instr::Store(Width::One),
    Instr::Local(0),
    Instr::Load(IntType::ULong),
    Instr::Constant(8),
    Instr::Binary(BinOp::Add, IntType::ULong),
    Instr::Load(IntType::UChar),
    Instr::PutChar,
    Instr::Discard,
    // The caller's caller is next.
    Instr::Local(0),
    Instr::Duplicate,
    Instr::Load(IntType::ULong),
    Instr::Load(IntType::ULong),
    Instr::Store(Width::Eight),
    Instr::Local(0),
    Instr::Load(IntType::ULong),
    Instr::JumpIfNotZero(10),
];

/// What the function does that programs with pools may call.
const SECOND: [Instr; 7] = [
    Instr::Local(0),
    Instr::Load(IntType::ULong),
    Instr::PutChar,
    Instr::Discard,
    Instr::Local(8),
    Instr::Load(IntType::ULong),
    Instr::ReturnValue,
];

/// How a run without input ends, and what it writes.
fn told(alloc: Global, scene: &Scene<'_>, steps: u32) -> Result<(RunEnd, Vec<u8>), Fail> {
    let (end, _, written) = ran(alloc, scene, &NOTHING, steps)?;
    Ok((end, written))
}

// Each of these gives the number of the first row that does not hold.

fn wrong_end(alloc: Global, rows: &[(&[Instr], RunEnd)]) -> Result<Option<usize>, Fail> {
    for (index, (code, wanted)) in rows.iter().enumerate() {
        if told(alloc, &alone(code), 1000)?.0 != *wanted {
            return Ok(Some(index));
        }
    }
    Ok(None)
}

fn wrong_input(alloc: Global, rows: &[WithInput]) -> Result<Option<usize>, Fail> {
    for (index, row) in rows.iter().enumerate() {
        let outside = Outside {
            input: row.input,
            failing_reads: row.failing,
            failing_writes: row.failing,
        };
        let (end, left, written) = ran(alloc, &alone(row.start), &outside, row.steps)?;
        if (end, left, written.as_slice()) != (row.end, row.left, row.written) {
            return Ok(Some(index));
        }
    }
    Ok(None)
}

fn wrong_call(alloc: Global, rows: &[WithCallee]) -> Result<Option<usize>, Fail> {
    for (index, row) in rows.iter().enumerate() {
        let mut scene = calling(row.start, row.parameters, row.callee);
        scene.start.height = row.height;
        scene.callee.height = row.height;
        let (end, written) = told(alloc, &scene, row.steps)?;
        if (end, written.as_slice()) != (row.end, row.written) {
            return Ok(Some(index));
        }
    }
    Ok(None)
}

fn wrong_pool(alloc: Global, rows: &[(&[Instr], RunEnd, &[u8])]) -> Result<Option<usize>, Fail> {
    let limits = MachineLimits { slabs: 1, index: 3 };
    for (index, (code, end, output)) in rows.iter().enumerate() {
        let scene = with_pools(limits, code, 2, &SECOND);
        let (found, written) = told(alloc, &scene, 1000)?;
        if (found, written.as_slice()) != (*end, *output) {
            return Ok(Some(index));
        }
    }
    Ok(None)
}

#[test]
fn ends_and_traps(rt: HostRuntime) -> Result<(), Fail> {
    assert_eq!(rt; wrong_end(rt.alloc(), &ENDS)?, None);
    Ok(())
}

#[test]
fn input_and_output(rt: HostRuntime) -> Result<(), Fail> {
    assert_eq!(rt; wrong_input(rt.alloc(), &INPUTS)?, None);
    Ok(())
}

#[test]
fn calls(rt: HostRuntime) -> Result<(), Fail> {
    assert_eq!(rt; wrong_call(rt.alloc(), &CALLS)?, None);
    Ok(())
}

#[test]
fn globals_pools_links_and_function_words(rt: HostRuntime) -> Result<(), Fail> {
    assert_eq!(rt; wrong_pool(rt.alloc(), &POOLS)?, None);
    Ok(())
}

/// Frames of 70,000 bytes. Such a frame lies in pages of 4,096 bytes, which are zero until they are written.
fn with_large_frame(start: &[Instr]) -> Scene<'_> {
    let mut scene = alone(start);
    scene.start.extra = 70_000;
    scene.callee.extra = 70_000;
    scene
}

/// Writes a word across two pages, prints its bytes and the next one, and moves it to the end of the frame.
fn across_pages(alloc: Global) -> Result<Vec<Instr>, Fail> {
    let mut code = Vec::new(alloc);
    code.extend_from_slice(&[
        Instr::Local(4092),
        Instr::Constant(0x0807_0605_0403_0201),
        Instr::Store(Width::Eight),
    ])?;
    for offset in 4092..4101 {
        code.extend_from_slice(&[
            Instr::Local(offset),
            Instr::Load(IntType::UChar),
            Instr::PutChar,
            Instr::Discard,
        ])?;
    }
    code.extend_from_slice(&[
        Instr::Local(69_992),
        Instr::Local(4091),
        Instr::Load(IntType::ULong),
        Instr::Store(Width::Eight),
        Instr::Local(69_992),
        Instr::Load(IntType::ULong),
        Instr::Constant(0x0706_0504_0302_0100),
        Instr::Compare(Relation::Eq, IntType::ULong),
        Instr::Exit,
    ])?;
    Ok(code)
}

#[test]
fn words_of_a_large_frame_cross_pages(rt: HostRuntime) -> Result<(), Fail> {
    let code = across_pages(rt.alloc())?;
    let (end, written) = told(rt.alloc(), &with_large_frame(&code), 1000)?;
    let bytes = [1, 2, 3, 4, 5, 6, 7, 8, 0];
    assert_eq!(rt;
        (end, written.as_slice()),
        (RunEnd::Ended(1), bytes.as_slice())
    );
    Ok(())
}

#[test]
fn a_large_frame_is_zero_up_to_its_end(rt: HostRuntime) -> Result<(), Fail> {
    let table = [
        (40_956, RunEnd::Ended(0)),
        (69_992, RunEnd::Ended(0)),
        (69_993, BAD_ACCESS),
    ];
    for (offset, wanted) in table {
        let code = [
            Instr::Local(offset),
            Instr::Load(IntType::ULong),
            Instr::Exit,
        ];
        let end = told(rt.alloc(), &with_large_frame(&code), 10)?.0;
        assert_eq!(rt; end, wanted, "{offset}");
    }
    Ok(())
}

/// The rest of a word of the globals' second page.
const IN_GLOBALS: [Instr; 5] = [
    Instr::Constant(4096 + 4094),
    Instr::Load(IntType::UInt),
    Instr::Constant(256 * 256 - 1),
    Instr::Binary(BinOp::Rem, IntType::UInt),
    Instr::Exit,
];

// The contents reach into the second page. 9 + 9 * 256 + 9 * 65,536, modulo 65,535 and then 256, is 18.
#[test]
fn large_globals_begin_with_their_contents(rt: HostRuntime) -> Result<(), Fail> {
    let contents = vec![in rt.alloc(); 9; 4097]?;
    let mut scene = alone(&IN_GLOBALS);
    scene.globals = 100_000;
    scene.contents = &contents;
    assert_eq!(rt; told(rt.alloc(), &scene, 1000)?.0, RunEnd::Ended(18));
    Ok(())
}
