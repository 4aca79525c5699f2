// `ref FILE`: runs what a file's program means.

ghost use Rattle.std.specs.Prelude.{◌≡◌, ◌≢◌, ℕ, ◌<◌, ◌≤◌, List, Some, length};
ghost use Rattle.pcc_outside.specs.Outside.{Rose, Holds};
ghost use Rattle.c_typed.specs.DefinitionViews.{program_of, ProgramStands};
ghost use Rattle.c_typed.specs.Programs.{IsWellTyped};
ghost use Rattle.c_typed.specs.Sizes.{HasStorableTypes};
ghost use Rattle.ref_meaning.specs.Running.{behaviour_of};
ghost use Rattle.poolcc.specs.Premises.{AReadFailed, NoneFailed, AnswersMissing};
ghost use Rattle.poolcc.specs.Exec.{IsUsage, source_limit};
ghost use Rattle.poolcc.specs.Ref.{RefGives, ProgramGives};
ghost use Rattle.poolcc.specs.Seen.{end_seen};

use crate::execution::SOURCE_LIMIT;
use crate::text::{Stop, typed_program};
use c_typed::Program;
use pcc_outside::{Files, ReadErr, Sink, Source, read_all};
use pcc_words::Status;
use ref_meaning::{RefEnd, RefRun};
use std::alloc::Global;

/// Runs what a file's program means on the input, for at most so many units.
pub fn ref_file<F: Files, I: Source, O: Sink>(
    alloc: Global,
    file: &str,
    steps: u64,
    files: &mut F,
    input: &mut I,
    out: &mut O,
) -> Status
    ensures gives { (text left base : List ℕ) → F.contents files.old file.now ≡ Holds text → I.left input.old ≡ Some left → O.written out.old ≡ Some base
        → RefGives text steps left base result (I.left input.new) (O.written out.new) }
    ensures missing { AnswersMissing (F.contents files.old file.now) result (I.left input.old) (I.left input.new) (O.written out.old) (O.written out.new) }
    ensures read_cause { result ≡ Status.ReadFault
        → AReadFailed (F.faults files.old file.now) (F.faults files.new file.now) (I.faults input.old) (I.faults input.new) }
    ensures write_cause { result ≡ Status.WriteFault → Rose (O.faults out.old) (O.faults out.new) }
    ensures memory_cause { result ≡ Status.OutOfMemory
        → NoneFailed (F.faults files.old) (F.faults files.new) (I.faults input.old) (I.faults input.new) (O.faults out.old) (O.faults out.new) }
    ensures long_cause { result ≡ Status.SourceTooLong → source_limit < F.reach files.new file.now }
    ensures no_image { result ≢ Status.ImageTooLong }
    ensures well_formed { IsUsage result → ⊥ }
    ensures files_counted { (name : List ℕ) → F.faults files.old name ≤ F.faults files.new name }
    ensures reads_counted { I.faults input.old ≤ I.faults input.new }
    ensures writes_counted { O.faults out.old ≤ O.faults out.new }
{
    match read_all(alloc, files, file, SOURCE_LIMIT) {
        Ok(text) => ref_text(alloc, &text, steps, input, out),
        Err(ReadErr::Failed) => Status::ReadFault,
        Err(ReadErr::TooLong) => Status::SourceTooLong,
        Err(ReadErr::OutOfMemory) => Status::OutOfMemory,
    }
}

// Runs what a text's program means.
fn ref_text<I: Source, O: Sink>(
    alloc: Global,
    text: &[u8],
    steps: u64,
    input: &mut I,
    out: &mut O,
) -> Status
    requires { length text.now ≤ source_limit }
    ensures gives { (left base : List ℕ) → I.left input.old ≡ Some left → O.written out.old ≡ Some base
        → RefGives text.now steps left base result (I.left input.new) (O.written out.new) }
    ensures read_cause { result ≡ Status.ReadFault → Rose (I.faults input.old) (I.faults input.new) }
    ensures write_cause { result ≡ Status.WriteFault → Rose (O.faults out.old) (O.faults out.new) }
    ensures memory_cause { result ≡ Status.OutOfMemory → (I.faults input.new ≡ I.faults input.old) × (O.faults out.new ≡ O.faults out.old) }
    ensures short { result ≢ Status.SourceTooLong }
    ensures no_image { result ≢ Status.ImageTooLong }
    ensures well_formed { IsUsage result → ⊥ }
    ensures reads_counted { I.faults input.old ≤ I.faults input.new }
    ensures writes_counted { O.faults out.old ≤ O.faults out.new }
{
    match typed_program(alloc, text) {
        Ok(typed) => status_of(ref_program(alloc, &typed.program, steps, input, out)),
        Err(Stop::Refused(refusal)) => Status::Refused(refusal),
        Err(Stop::OutOfMemory) => Status::OutOfMemory,
    }
}

// Runs what a program means, from its beginning.
fn ref_program<I: Source, O: Sink>(
    alloc: Global,
    program: &Program,
    steps: u64,
    input: &mut I,
    out: &mut O,
) -> RefEnd
    requires stands { ProgramStands program.now }
    requires well_typed { IsWellTyped (program_of program.now) }
    requires storable { HasStorableTypes (program_of program.now) }
    ensures gives { (left base : List ℕ) → I.left input.old ≡ Some left → O.written out.old ≡ Some base
        → ProgramGives (behaviour_of (program_of program.now) left steps) base result (I.left input.new) (O.written out.new) }
    ensures read_cause { result ≡ RefEnd.ReadFault → Rose (I.faults input.old) (I.faults input.new) }
    ensures write_cause { result ≡ RefEnd.WriteFault → Rose (O.faults out.old) (O.faults out.new) }
    ensures memory_cause { result ≡ RefEnd.OutOfMemory → (I.faults input.new ≡ I.faults input.old) × (O.faults out.new ≡ O.faults out.old) }
    ensures reads_counted { I.faults input.old ≤ I.faults input.new }
    ensures writes_counted { O.faults out.old ≤ O.faults out.new }
{
    let Ok(mut run) = RefRun::new(alloc, program) else {
        return RefEnd::OutOfMemory;
    };
    run.run(input, out, steps)
}

// The answer of a run as the answer of the command.
fn status_of(end: RefEnd) -> Status
    ensures same { result ≡ end_seen end }
    ensures no_image { result ≢ Status.ImageTooLong }
    ensures well_formed { IsUsage result → ⊥ }
{
    match end {
        RefEnd::Ended(status) => Status::Program(status),
        RefEnd::Depth => Status::Depth,
        RefEnd::Undefined(kind, place) => Status::Undefined(kind, place),
        RefEnd::StepsSpent => Status::StepsSpent,
        RefEnd::ReadFault => Status::ReadFault,
        RefEnd::WriteFault => Status::WriteFault,
        RefEnd::OutOfMemory => Status::OutOfMemory,
    }
}
