// `build FILE`: compiles a file to the bytes of an image.

ghost use Rattle.std.specs.Prelude.{◌≡◌, ◌≢◌, ℕ, ◌<◌, ◌≤◌, List, Some, length};
ghost use Rattle.pcc_outside.specs.Outside.{Rose, Holds};
ghost use Rattle.poolcc.specs.Premises.{NoFileFailed, AnswersNoSource};
ghost use Rattle.poolcc.specs.Build.{BuildGives};
ghost use Rattle.poolcc.specs.Exec.{IsUsage, source_limit};
ghost use Rattle.poolcc.specs.Seen.{AreInRange};

use crate::execution::SOURCE_LIMIT;
use crate::text::{Stop, image_of};
use image_form::{MachineLimits, to_bytes};
use pcc_outside::{Files, ReadErr, Sink, read_all, write_all};
use pcc_words::Status;
use std::alloc::Global;

/// Compiles a file within limits, and writes the bytes of its image.
pub fn build_file<F: Files, O: Sink>(
    alloc: Global,
    file: &str,
    limits: MachineLimits,
    files: &mut F,
    out: &mut O,
) -> Status
    requires { AreInRange limits }
    ensures gives { (text base : List ℕ) → F.contents files.old file.now ≡ Holds text → O.written out.old ≡ Some base
        → BuildGives text limits base result (O.written out.new) }
    ensures missing { AnswersNoSource (F.contents files.old file.now) result (O.written out.old) (O.written out.new) }
    ensures read_cause { result ≡ Status.ReadFault → Rose (F.faults files.old file.now) (F.faults files.new file.now) }
    ensures write_cause { result ≡ Status.WriteFault → Rose (O.faults out.old) (O.faults out.new) }
    ensures memory_cause { result ≡ Status.OutOfMemory → NoFileFailed (F.faults files.old) (F.faults files.new) (O.faults out.old) (O.faults out.new) }
    ensures long_cause { result ≡ Status.SourceTooLong → source_limit < F.reach files.new file.now }
    ensures no_image { result ≢ Status.ImageTooLong }
    ensures well_formed { IsUsage result → ⊥ }
    ensures files_counted { (name : List ℕ) → F.faults files.old name ≤ F.faults files.new name }
    ensures writes_counted { O.faults out.old ≤ O.faults out.new }
{
    match read_all(alloc, files, file, SOURCE_LIMIT) {
        Ok(text) => build_text(alloc, &text, limits, out),
        Err(ReadErr::Failed) => Status::ReadFault,
        Err(ReadErr::TooLong) => Status::SourceTooLong,
        Err(ReadErr::OutOfMemory) => Status::OutOfMemory,
    }
}

// Compiles a text, and writes the bytes of its image.
fn build_text<O: Sink>(alloc: Global, text: &[u8], limits: MachineLimits, out: &mut O) -> Status
    requires short { length text.now ≤ source_limit }
    requires limits { AreInRange limits }
    ensures gives { (base : List ℕ) → O.written out.old ≡ Some base → BuildGives text.now limits base result (O.written out.new) }
    ensures no_fault { result ≢ Status.ReadFault }
    ensures write_cause { result ≡ Status.WriteFault → Rose (O.faults out.old) (O.faults out.new) }
    ensures memory_cause { result ≡ Status.OutOfMemory → O.faults out.new ≡ O.faults out.old }
    ensures short { result ≢ Status.SourceTooLong }
    ensures no_image { result ≢ Status.ImageTooLong }
    ensures well_formed { IsUsage result → ⊥ }
    ensures writes_counted { O.faults out.old ≤ O.faults out.new }
{
    let image = match image_of(alloc, text, limits) {
        Ok(image) => image,
        Err(Stop::Refused(refusal)) => return Status::Refused(refusal),
        Err(Stop::OutOfMemory) => return Status::OutOfMemory,
    };
    let Ok(bytes) = to_bytes(alloc, &image) else {
        return Status::OutOfMemory;
    };
    match write_all(out, &bytes) {
        Ok(()) => Status::Done,
        Err(_) => Status::WriteFault,
    }
}
