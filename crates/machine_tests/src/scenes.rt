// Images of two functions, and runs of them.

ghost use Rattle.image_form.specs.Form.{form_of, IsImage};

use image_form::{Function, Globals, Image, MachineLimits, PoolKind, from_bytes, to_bytes};
use machine::{Machine, Report, RunEnd};
use pcc_outside::{MemSink, MemSource};
use pool_isa::Instr;
use std::alloc::{AllocError, Global};
use std::test::Fail;

/// A function that returns where it comes to the end of its code.
#[derive(Clone, Copy)]
pub(crate) struct Body<'a> {
    pub(crate) parameters: u32,
    pub(crate) extra: u32,
    pub(crate) height: u32,
    pub(crate) signature: u32,
    pub(crate) code: &'a [Instr],
}

/// What an image holds: function 0 is `start`, function 1 the callee.
#[derive(Clone, Copy)]
pub(crate) struct Scene<'a> {
    pub(crate) limits: MachineLimits,
    pub(crate) globals: u32,
    pub(crate) contents: &'a [u8],
    pub(crate) kinds: &'a [PoolKind],
    pub(crate) start: Body<'a>,
    pub(crate) callee: Body<'a>,
}

/// A function with room for two operands.
fn small_body(parameters: u32, code: &[Instr]) -> Body<'_> {
    Body {
        parameters,
        extra: 16,
        height: 2,
        signature: 0,
        code,
    }
}

/// A `start` and a callee with so many parameters, without globals and pools.
pub(crate) fn calling<'a>(start: &'a [Instr], parameters: u32, callee: &'a [Instr]) -> Scene<'a> {
    Scene {
        limits: MachineLimits { slabs: 1, index: 1 },
        globals: 0,
        contents: &[],
        kinds: &[],
        start: small_body(0, start),
        callee: small_body(parameters, callee),
    }
}

/// A `start` that calls nothing.
pub(crate) fn alone(start: &[Instr]) -> Scene<'_> {
    calling(start, 0, &[])
}

/// Cells that are numbered.
pub(crate) const CELLS: PoolKind = PoolKind::Homogeneous {
    source: 12,
    cell: 8,
    indexed: true,
};

/// Cells that fill a slab each.
pub(crate) const LARGE: PoolKind = PoolKind::Homogeneous {
    source: 3000,
    cell: 3000,
    indexed: false,
};

/// Four bytes of globals, three kinds of pools, a `start`, and a callee with a signature of its own.
pub(crate) fn with_pools<'a>(
    limits: MachineLimits,
    start: &'a [Instr],
    parameters: u32,
    callee: &'a [Instr],
) -> Scene<'a> {
    let mut scene = calling(start, parameters, callee);
    scene.limits = limits;
    scene.globals = 4;
    scene.contents = &[7, 1];
    scene.kinds = &[CELLS, LARGE, PoolKind::Mixed];
    scene.start.height = 4;
    scene.callee.height = 3;
    scene.callee.signature = 7;
    scene
}

fn function(alloc: Global, body: &Body<'_>) -> Result<Function, AllocError> {
    let mut code = body.code.to_vec(alloc)?;
    code.push(Instr::Return)?;
    Ok(Function {
        parameters: body.parameters,
        extra: body.extra,
        height: body.height,
        signature: body.signature,
        code,
    })
}

fn functions(alloc: Global, scene: &Scene<'_>) -> Result<Vec<Function>, Fail> {
    let start = function(alloc, &scene.start)?;
    let callee = function(alloc, &scene.callee)?;
    Ok(vec![in alloc; start, callee]?)
}

fn globals(alloc: Global, scene: &Scene<'_>) -> Result<Globals, AllocError> {
    Ok(Globals {
        size: scene.globals,
        contents: scene.contents.to_vec(alloc)?,
    })
}

/// The bytes of a scene's image.
fn bytes(alloc: Global, scene: &Scene<'_>) -> Result<Vec<u8>, Fail> {
    let image = Image {
        version: 1,
        limits: scene.limits,
        globals: globals(alloc, scene)?,
        kinds: scene.kinds.to_vec(alloc)?,
        functions: functions(alloc, scene)?,
    };
    Ok(to_bytes(alloc, &image)?)
}

/// What runs begin with: the bytes to read, and the numbers of the reads and of the writes that fail.
#[derive(Clone, Copy)]
pub(crate) struct Outside<'a> {
    pub(crate) input: &'a [u8],
    pub(crate) failing_reads: &'a [u64],
    pub(crate) failing_writes: &'a [u64],
}

/// No input, and no failures.
pub(crate) const NOTHING: Outside<'static> = Outside {
    input: b"",
    failing_reads: &[],
    failing_writes: &[],
};

/// What two calls of a machine answer, what they leave of the input, what they write, and the report then.
#[derive(Drop)]
pub(crate) struct Told {
    pub(crate) ends: [RunEnd; 2],
    pub(crate) left: usize,
    pub(crate) written: Vec<u8>,
    pub(crate) report: Report,
}

/// What two calls of a machine answer, and the report then.
fn called(
    alloc: Global,
    image: &Image,
    source: &mut MemSource,
    sink: &mut MemSink,
    steps: [u32; 2],
) -> Result<([RunEnd; 2], Report), AllocError>
    requires { IsImage (form_of image.now) }
{
    let mut machine = Machine::load(alloc, image, image.limits)?;
    let first = machine.run(source, sink, u64::from(steps[0]));
    let second = machine.run(source, sink, u64::from(steps[1]));
    Ok(([first, second], machine.report()?))
}

fn source(alloc: Global, outside: &Outside<'_>) -> Result<MemSource, AllocError> {
    let input = outside.input.to_vec(alloc)?;
    let failing = outside.failing_reads.to_vec(alloc)?;
    Ok(MemSource::new(input, failing, 1))
}

fn sink(alloc: Global, outside: &Outside<'_>) -> Result<MemSink, AllocError> {
    let failing = outside.failing_writes.to_vec(alloc)?;
    MemSink::new(alloc, 9, failing, 1)
}

/// What a machine tells that is called for so many steps, and again for so many.
pub(crate) fn called_twice(
    alloc: Global,
    scene: &Scene<'_>,
    outside: &Outside<'_>,
    steps: [u32; 2],
) -> Result<Told, Fail> {
    let image = from_bytes(alloc, &bytes(alloc, scene)?)?;
    let mut source = source(alloc, outside)?;
    let mut sink = sink(alloc, outside)?;
    let (ends, report) = called(alloc, &image, &mut source, &mut sink, steps)?;
    Ok(Told {
        ends,
        left: source.left().len(),
        written: sink.bytes().to_vec(alloc)?,
        report,
    })
}

/// How a run ends, how many bytes of the input it leaves, and what it writes. The second call makes no step.
pub(crate) fn ran(
    alloc: Global,
    scene: &Scene<'_>,
    outside: &Outside<'_>,
    steps: u32,
) -> Result<(RunEnd, usize, Vec<u8>), Fail> {
    let told = called_twice(alloc, scene, outside, [steps, 0])?;
    Ok((told.ends[0], told.left, told.written))
}
