// `exec FILE`: compiles a file and runs it.

ghost use Rattle.std.specs.Prelude.{◌≡◌, ◌≢◌, ℕ, ◌<◌, ◌≤◌, List, Some, length};
ghost use Rattle.pcc_outside.specs.Outside.{Rose, Holds};
ghost use Rattle.image_form.specs.Form.{form_of, IsImage};
ghost use Rattle.poolcc.specs.Premises.{AReadFailed, NoneFailed, AnswersMissing};
ghost use Rattle.poolcc.specs.Compiled.{RunsImageTo};
ghost use Rattle.poolcc.specs.Exec.{ExecGives, IsUsage, source_limit};
ghost use Rattle.poolcc.specs.Seen.{AreInRange, status_seen};

use crate::text::{Stop, image_of};
use image_form::{Image, MachineLimits};
use machine::{Machine, RunEnd};
use pcc_outside::{Files, ReadErr, Sink, Source, read_all};
use pcc_words::Status;
use std::alloc::Global;

/// The most bytes of a source.
pub(crate) const SOURCE_LIMIT: u64 = 1_048_576;

/// Compiles a file within limits, and runs its image on the input for at most so many steps.
pub fn exec<F: Files, I: Source, O: Sink>(
    alloc: Global,
    file: &str,
    limits: MachineLimits,
    steps: u64,
    files: &mut F,
    input: &mut I,
    out: &mut O,
) -> Status
    requires { AreInRange limits }
    ensures gives { (text left base : List ℕ) → F.contents files.old file.now ≡ Holds text → I.left input.old ≡ Some left → O.written out.old ≡ Some base
        → ExecGives text limits steps left base result (I.left input.new) (O.written out.new) }
    ensures missing { AnswersMissing (F.contents files.old file.now) result (I.left input.old) (I.left input.new) (O.written out.old) (O.written out.new) }
    ensures read_cause { result ≡ Status.ReadFault
        → AReadFailed (F.faults files.old file.now) (F.faults files.new file.now) (I.faults input.old) (I.faults input.new) }
    ensures write_cause { result ≡ Status.WriteFault → Rose (O.faults out.old) (O.faults out.new) }
    ensures memory_cause { result ≡ Status.OutOfMemory
        → NoneFailed (F.faults files.old) (F.faults files.new) (I.faults input.old) (I.faults input.new) (O.faults out.old) (O.faults out.new) }
    ensures long_cause { result ≡ Status.SourceTooLong → source_limit < F.reach files.new file.now }
    ensures no_image { result ≢ Status.ImageTooLong }
    ensures well_formed { IsUsage result → ⊥ }
    ensures files_counted { (name : List ℕ) → F.faults files.old name ≤ F.faults files.new name }
    ensures reads_counted { I.faults input.old ≤ I.faults input.new }
    ensures writes_counted { O.faults out.old ≤ O.faults out.new }
{
    match read_all(alloc, files, file, SOURCE_LIMIT) {
        Ok(text) => run_text(alloc, &text, limits, steps, input, out),
        Err(ReadErr::Failed) => Status::ReadFault,
        Err(ReadErr::TooLong) => Status::SourceTooLong,
        Err(ReadErr::OutOfMemory) => Status::OutOfMemory,
    }
}

// Compiles a text, and runs its image.
fn run_text<I: Source, O: Sink>(
    alloc: Global,
    text: &[u8],
    limits: MachineLimits,
    steps: u64,
    input: &mut I,
    out: &mut O,
) -> Status
    requires short { length text.now ≤ source_limit }
    requires limits { AreInRange limits }
    ensures gives { (left base : List ℕ) → I.left input.old ≡ Some left → O.written out.old ≡ Some base
        → ExecGives text.now limits steps left base result (I.left input.new) (O.written out.new) }
    ensures read_cause { result ≡ Status.ReadFault → Rose (I.faults input.old) (I.faults input.new) }
    ensures write_cause { result ≡ Status.WriteFault → Rose (O.faults out.old) (O.faults out.new) }
    ensures memory_cause { result ≡ Status.OutOfMemory → (I.faults input.new ≡ I.faults input.old) × (O.faults out.new ≡ O.faults out.old) }
    ensures short { result ≢ Status.SourceTooLong }
    ensures no_image { result ≢ Status.ImageTooLong }
    ensures well_formed { IsUsage result → ⊥ }
    ensures reads_counted { I.faults input.old ≤ I.faults input.new }
    ensures writes_counted { O.faults out.old ≤ O.faults out.new }
{
    match image_of(alloc, text, limits) {
        Ok(image) => status_of(run_image(alloc, &image, steps, input, out)),
        Err(Stop::Refused(refusal)) => Status::Refused(refusal),
        Err(Stop::OutOfMemory) => Status::OutOfMemory,
    }
}

/// Runs an image from its first step, within the limits that it holds.
pub(crate) fn run_image<I: Source, O: Sink>(
    alloc: Global,
    image: &Image,
    steps: u64,
    input: &mut I,
    out: &mut O,
) -> RunEnd
    requires { IsImage (form_of image.now) }
    ensures gives { (left base : List ℕ) → I.left input.old ≡ Some left → O.written out.old ≡ Some base
        → RunsImageTo (form_of image.now) left base steps result (I.left input.new) (O.written out.new) }
    ensures read_cause { result ≡ RunEnd.ReadFault → Rose (I.faults input.old) (I.faults input.new) }
    ensures write_cause { result ≡ RunEnd.WriteFault → Rose (O.faults out.old) (O.faults out.new) }
    ensures memory_cause { result ≡ RunEnd.OutOfMemory → (I.faults input.new ≡ I.faults input.old) × (O.faults out.new ≡ O.faults out.old) }
    ensures reads_counted { I.faults input.old ≤ I.faults input.new }
    ensures writes_counted { O.faults out.old ≤ O.faults out.new }
{
    let Ok(mut machine) = Machine::load(alloc, image, image.limits) else {
        return RunEnd::OutOfMemory;
    };
    machine.run(input, out, steps)
}

/// The answer of a run as the answer of a command.
pub(crate) fn status_of(end: RunEnd) -> Status
    ensures same { result ≡ status_seen end }
    ensures no_source { result ≢ Status.SourceTooLong }
    ensures no_image { result ≢ Status.ImageTooLong }
    ensures well_formed { IsUsage result → ⊥ }
{
    match end {
        RunEnd::Ended(status) => Status::Program(status),
        RunEnd::Depth => Status::Depth,
        RunEnd::HeapExhausted => Status::HeapExhausted,
        RunEnd::IndexExhausted => Status::IndexExhausted,
        RunEnd::StepsSpent => Status::StepsSpent,
        RunEnd::Trapped(kind) => Status::Trapped(kind),
        RunEnd::ReadFault => Status::ReadFault,
        RunEnd::WriteFault => Status::WriteFault,
        RunEnd::OutOfMemory => Status::OutOfMemory,
    }
}
