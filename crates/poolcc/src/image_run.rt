// `run FILE`: runs a file that is an image.

ghost use Rattle.std.specs.Prelude.{◌≡◌, ◌≢◌, ℕ, ◌<◌, ◌≤◌, List, Some, length};
ghost use Rattle.pcc_outside.specs.Outside.{Rose, Holds};
ghost use Rattle.poolcc.specs.Premises.{AReadFailed, NoneFailed, AnswersMissing};
ghost use Rattle.poolcc.specs.Exec.{IsUsage};
ghost use Rattle.poolcc.specs.ImageRun.{ImageGives, image_limit};

use crate::execution::{run_image, status_of};
use image_form::{ImageErr, from_bytes};
use pcc_outside::{Files, ReadErr, Sink, Source, read_all};
use pcc_words::Status;
use std::alloc::Global;

/// The most bytes of an image.
const IMAGE_LIMIT: u64 = 1 << 40;

/// Reads a file's bytes as an image, and runs it on the input for at most so many steps.
pub fn run_file<F: Files, I: Source, O: Sink>(
    alloc: Global,
    file: &str,
    steps: u64,
    files: &mut F,
    input: &mut I,
    out: &mut O,
) -> Status
    ensures gives { (bytes left base : List ℕ) → F.contents files.old file.now ≡ Holds bytes → I.left input.old ≡ Some left → O.written out.old ≡ Some base
        → ImageGives bytes steps left base result (I.left input.new) (O.written out.new) }
    ensures missing { AnswersMissing (F.contents files.old file.now) result (I.left input.old) (I.left input.new) (O.written out.old) (O.written out.new) }
    ensures read_cause { result ≡ Status.ReadFault
        → AReadFailed (F.faults files.old file.now) (F.faults files.new file.now) (I.faults input.old) (I.faults input.new) }
    ensures write_cause { result ≡ Status.WriteFault → Rose (O.faults out.old) (O.faults out.new) }
    ensures memory_cause { result ≡ Status.OutOfMemory
        → NoneFailed (F.faults files.old) (F.faults files.new) (I.faults input.old) (I.faults input.new) (O.faults out.old) (O.faults out.new) }
    ensures long_cause { result ≡ Status.ImageTooLong → image_limit < F.reach files.new file.now }
    ensures no_source { result ≢ Status.SourceTooLong }
    ensures well_formed { IsUsage result → ⊥ }
    ensures files_counted { (name : List ℕ) → F.faults files.old name ≤ F.faults files.new name }
    ensures reads_counted { I.faults input.old ≤ I.faults input.new }
    ensures writes_counted { O.faults out.old ≤ O.faults out.new }
{
    match read_all(alloc, files, file, IMAGE_LIMIT) {
        Ok(bytes) => run_bytes(alloc, &bytes, steps, input, out),
        Err(ReadErr::Failed) => Status::ReadFault,
        Err(ReadErr::TooLong) => Status::ImageTooLong,
        Err(ReadErr::OutOfMemory) => Status::OutOfMemory,
    }
}

// Runs the image that bytes are.
fn run_bytes<I: Source, O: Sink>(
    alloc: Global,
    bytes: &[u8],
    steps: u64,
    input: &mut I,
    out: &mut O,
) -> Status
    requires { length bytes.now ≤ image_limit }
    ensures gives { (left base : List ℕ) → I.left input.old ≡ Some left → O.written out.old ≡ Some base
        → ImageGives bytes.now steps left base result (I.left input.new) (O.written out.new) }
    ensures read_cause { result ≡ Status.ReadFault → Rose (I.faults input.old) (I.faults input.new) }
    ensures write_cause { result ≡ Status.WriteFault → Rose (O.faults out.old) (O.faults out.new) }
    ensures memory_cause { result ≡ Status.OutOfMemory → (I.faults input.new ≡ I.faults input.old) × (O.faults out.new ≡ O.faults out.old) }
    ensures short { result ≢ Status.ImageTooLong }
    ensures no_source { result ≢ Status.SourceTooLong }
    ensures well_formed { IsUsage result → ⊥ }
    ensures reads_counted { I.faults input.old ≤ I.faults input.new }
    ensures writes_counted { O.faults out.old ≤ O.faults out.new }
{
    match from_bytes(alloc, bytes) {
        Ok(image) => status_of(run_image(alloc, &image, steps, input, out)),
        Err(ImageErr::Bad(place)) => Status::BadImage(place as u64),
        Err(ImageErr::OutOfMemory) => Status::OutOfMemory,
    }
}
