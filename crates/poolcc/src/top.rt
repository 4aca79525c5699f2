// The top call.

ghost use Rattle.std.specs.Prelude.{◌≡◌, ℕ, Bool, ◌<◌, ◌≤◌, ◌⊎◌, List, Some};
ghost use Rattle.pcc_outside.specs.Outside.{Rose};
ghost use Rattle.pcc_words.specs.Said.{Said};
ghost use Rattle.pcc_words.specs.Line.{Limits as SaidLimits, NoCommand, NoLine, Build, Exec, Run, Ref, Graph};
ghost use Rattle.pcc_words.specs.Seen.{AreLimits, limits_seen};
ghost use Rattle.poolcc.specs.Premises.{line_said, FromText, FromSource, Undisturbed, AReadFailed, NoneFailed, ReachesBeyond};
ghost use Rattle.poolcc.specs.Command.{Names, machine_limits};
ghost use Rattle.poolcc.specs.Seen.{AreInRange};
ghost use Rattle.run_theory.specs.Runs.{IsUndefined};
ghost use Rattle.run_theory.specs.declared.ends.TrapKind.{TrapKind};
ghost use Rattle.pcc_outside.specs.Outside.{Holds};
ghost use Rattle.run_theory.specs.Places.{first_place};
ghost use Rattle.run_theory.specs.declared.place.Pos.{Pos};
ghost use Rattle.pcc_words.specs.declared.status.LexKind.{LexKind};
ghost use Rattle.pcc_words.specs.declared.status.Refusal.{Refusal};
ghost use Rattle.pcc_words.specs.declared.status.Refusal.TheVariants as Refusal;
ghost use Rattle.c_lexer.specs.Tokens.{Faults};
ghost use Rattle.poolcc.specs.Refused.{fault_of, IsRefused, IsUncompiled};
ghost use Rattle.poolcc.specs.Compiled.{IsAccepted, IsBuildable, image_run};
ghost use Rattle.c_syntax.specs.Trees.{ProgramTree};
ghost use Rattle.c_rules.specs.Elaborated.{typed_of};
ghost use Rattle.ref_semantics.specs.First.{reference};
ghost use Rattle.ref_meaning.specs.Running.{behaviour_of};
ghost use Rattle.poolcc.specs.Answering.{IsAnswer};
ghost use Rattle.poolcc.specs.Complete.{RunsUnlessMemory, IsToldUnlessMemory, IsReachedUnlessMemory, IsBuiltUnlessMemory, AreShownUnlessMemory, IsBadUnlessMemory};
ghost use Rattle.poolcc.specs.Exec.{source_limit};
ghost use Rattle.poolcc.specs.ImageRun.{image_limit};
ghost use Rattle.image_form.specs.Form.{Form, ImageOf, IsImageBytes};

use crate::build::build_file;
use crate::execution::exec;
use crate::graphs::graph_file;
use crate::image_run::run_file;
use crate::reference::ref_file;
use image_form::MachineLimits;
use pcc_outside::{Files, Sink, Source};
use pcc_words::{Limits, Line, Status, UsageKind, read_line, say};
use std::alloc::Global;

/// Does what a command line says, the program's name first: reads the named file from `files`, and the program's
/// input from `input`; writes the program's output or the image to `out`, and to `err` one line for every answer but success.
pub fn poolcc<F: Files, I: Source, O: Sink, E: Sink>(
    alloc: Global,
    words: &[String],
    files: &mut F,
    input: &mut I,
    out: &mut O,
    err: &mut E,
) -> Status
    // What the command answers, and the line that is written of it.
    ensures answers { (answer : Status)
        × IsAnswer (line_said words.now) (F.contents files.old) (I.left input.old) (O.written out.old) (I.left input.new) (O.written out.new) answer
        × Said answer result (E.written err.old) (E.written err.new) (E.faults err.old) (E.faults err.new) }

    // The cause of each answer that the text and the input don't give.
    ensures command_cause { result ≡ Status.Usage UsageKind.Command → line_said words.now ≡ NoCommand }
    ensures words_cause { result ≡ Status.Usage UsageKind.Words → line_said words.now ≡ NoLine }
    ensures read_cause { result ≡ Status.ReadFault → (file : List ℕ) × Names (line_said words.now) file
        × AReadFailed (F.faults files.old file) (F.faults files.new file) (I.faults input.old) (I.faults input.new) }
    ensures write_cause { result ≡ Status.WriteFault → Rose (O.faults out.old) (O.faults out.new) ⊎ Rose (E.faults err.old) (E.faults err.new) }
    ensures memory_cause { result ≡ Status.OutOfMemory → (E.faults err.new ≡ E.faults err.old)
        × NoneFailed (F.faults files.old) (F.faults files.new) (I.faults input.old) (I.faults input.new) (O.faults out.old) (O.faults out.new) }
    ensures long_cause { result ≡ Status.SourceTooLong → ReachesBeyond (line_said words.now) source_limit (F.reach files.new) }
    ensures image_long_cause { result ≡ Status.ImageTooLong → ReachesBeyond (line_said words.now) image_limit (F.reach files.new) }
    ensures trapped_cause { (kind : TrapKind) (file : List ℕ) (limits : SaidLimits) (one_pool : Bool) (steps : ℕ) (text left base : List ℕ)
        → result ≡ Status.Trapped kind → line_said words.now ≡ Exec file limits one_pool steps
        → F.contents files.old file ≡ Holds text → I.left input.old ≡ Some left → O.written out.old ≡ Some base
        → (program : ProgramTree) × IsAccepted text program × (n : ℕ) × IsUndefined (reference (typed_of program) left n) }

    // Where the text can be compiled and nothing outside fails, the answer is what the machine gives, or memory ran out.
    ensures complete { (file : List ℕ) (limits : SaidLimits) (one_pool : Bool) (steps : ℕ) (text left base : List ℕ) (program : ProgramTree)
        → line_said words.now ≡ Exec file limits one_pool steps
        → FromText source_limit (F.contents files.old file) text (I.left input.old) left (O.written out.old) base
        (Undisturbed (F.faults files.old file) (F.faults files.new file) (I.faults input.old) (I.faults input.new)
        (O.faults out.old) (O.faults out.new) (E.faults err.old) (E.faults err.new)
        (IsBuildable text program → RunsUnlessMemory text (machine_limits limits) steps left base result (O.written out.new))) }

    // Where the text has a fault and nothing outside fails, the answer is the fault's kind and place, or memory ran out.
    ensures lexical { (file : List ℕ) (limits : SaidLimits) (one_pool : Bool) (steps : ℕ) (text left base : List ℕ) (kind : LexKind) (place : Pos)
        → line_said words.now ≡ Exec file limits one_pool steps
        → FromText source_limit (F.contents files.old file) text (I.left input.old) left (O.written out.old) base
        (Undisturbed (F.faults files.old file) (F.faults files.new file) (I.faults input.old) (I.faults input.new)
        (O.faults out.old) (O.faults out.new) (E.faults err.old) (E.faults err.new)
        (Faults first_place text (fault_of kind place) → (result ≡ Status.OutOfMemory) ⊎ (result ≡ Status.Refused (Refusal.Lex kind place)))) }

    // Where the text is refused, for its heap graphs or before, and nothing outside fails, the answer is that refusal, or memory ran out.
    ensures refused { (file : List ℕ) (limits : SaidLimits) (one_pool : Bool) (steps : ℕ) (text left base : List ℕ) (refusal : Refusal)
        → line_said words.now ≡ Exec file limits one_pool steps
        → FromText source_limit (F.contents files.old file) text (I.left input.old) left (O.written out.old) base
        (Undisturbed (F.faults files.old file) (F.faults files.new file) (I.faults input.old) (I.faults input.new)
        (O.faults out.old) (O.faults out.new) (E.faults err.old) (E.faults err.new)
        (IsUncompiled text refusal → (result ≡ Status.OutOfMemory) ⊎ (result ≡ Status.Refused refusal))) }

    // Where the text of `ref` is accepted and nothing outside fails, the answer, the output and what is left of the input are those
    // of its program with so many units, or memory ran out; where it is refused, the answer is that refusal.
    ensures ref_complete { (file : List ℕ) (steps : ℕ) (text left base : List ℕ) (program : ProgramTree)
        → line_said words.now ≡ Ref file steps
        → FromText source_limit (F.contents files.old file) text (I.left input.old) left (O.written out.old) base
        (Undisturbed (F.faults files.old file) (F.faults files.new file) (I.faults input.old) (I.faults input.new)
        (O.faults out.old) (O.faults out.new) (E.faults err.old) (E.faults err.new)
        (IsAccepted text program → IsReachedUnlessMemory (behaviour_of (typed_of program) left steps) base result (I.left input.new) (O.written out.new))) }
    ensures ref_refused { (file : List ℕ) (steps : ℕ) (text left base : List ℕ) (refusal : Refusal)
        → line_said words.now ≡ Ref file steps
        → FromText source_limit (F.contents files.old file) text (I.left input.old) left (O.written out.old) base
        (Undisturbed (F.faults files.old file) (F.faults files.new file) (I.faults input.old) (I.faults input.new)
        (O.faults out.old) (O.faults out.new) (E.faults err.old) (E.faults err.new)
        (IsRefused text refusal → (result ≡ Status.OutOfMemory) ⊎ (result ≡ Status.Refused refusal))) }

    // Where the text of `build` can be compiled and nothing outside fails, the bytes of its image are written, or memory ran out; where
    // it is refused, the answer is that refusal.
    ensures build_complete { (file : List ℕ) (limits : SaidLimits) (one_pool : Bool) (text base : List ℕ) (program : ProgramTree)
        → line_said words.now ≡ Build file limits one_pool
        → FromSource source_limit (F.contents files.old file) text (O.written out.old) base
        (Undisturbed (F.faults files.old file) (F.faults files.new file) (I.faults input.old) (I.faults input.new)
        (O.faults out.old) (O.faults out.new) (E.faults err.old) (E.faults err.new)
        (IsBuildable text program → IsBuiltUnlessMemory text (machine_limits limits) base result (O.written out.new))) }
    ensures build_refused { (file : List ℕ) (limits : SaidLimits) (one_pool : Bool) (text base : List ℕ) (refusal : Refusal)
        → line_said words.now ≡ Build file limits one_pool
        → FromSource source_limit (F.contents files.old file) text (O.written out.old) base
        (Undisturbed (F.faults files.old file) (F.faults files.new file) (I.faults input.old) (I.faults input.new)
        (O.faults out.old) (O.faults out.new) (E.faults err.old) (E.faults err.new)
        (IsUncompiled text refusal → (result ≡ Status.OutOfMemory) ⊎ (result ≡ Status.Refused refusal))) }

    // Where the text of `graph` can be compiled and nothing outside fails, the lines of its heap graphs are written, or memory ran out;
    // where it is refused, the answer is that refusal.
    ensures graph_complete { (file text base : List ℕ) (program : ProgramTree)
        → line_said words.now ≡ Graph file
        → FromSource source_limit (F.contents files.old file) text (O.written out.old) base
        (Undisturbed (F.faults files.old file) (F.faults files.new file) (I.faults input.old) (I.faults input.new)
        (O.faults out.old) (O.faults out.new) (E.faults err.old) (E.faults err.new)
        (IsBuildable text program → AreShownUnlessMemory text base result (O.written out.new))) }
    ensures graph_refused { (file text base : List ℕ) (refusal : Refusal)
        → line_said words.now ≡ Graph file
        → FromSource source_limit (F.contents files.old file) text (O.written out.old) base
        (Undisturbed (F.faults files.old file) (F.faults files.new file) (I.faults input.old) (I.faults input.new)
        (O.faults out.old) (O.faults out.new) (E.faults err.old) (E.faults err.new)
        (IsUncompiled text refusal → (result ≡ Status.OutOfMemory) ⊎ (result ≡ Status.Refused refusal))) }

    // Where the bytes of `run` are an image and nothing outside fails, the answer and the output are those of the machine within
    // the steps, or memory ran out; where they are none, the answer is the place of the first byte with which no image goes on.
    ensures run_complete { (file : List ℕ) (steps : ℕ) (bytes left base : List ℕ) (form : Form)
        → line_said words.now ≡ Run file steps
        → FromText image_limit (F.contents files.old file) bytes (I.left input.old) left (O.written out.old) base
        (Undisturbed (F.faults files.old file) (F.faults files.new file) (I.faults input.old) (I.faults input.new)
        (O.faults out.old) (O.faults out.new) (E.faults err.old) (E.faults err.new)
        (ImageOf bytes form → IsToldUnlessMemory (image_run form left steps) base result (O.written out.new))) }
    ensures run_bad { (file : List ℕ) (steps : ℕ) (bytes left base : List ℕ)
        → line_said words.now ≡ Run file steps
        → FromText image_limit (F.contents files.old file) bytes (I.left input.old) left (O.written out.old) base
        (Undisturbed (F.faults files.old file) (F.faults files.new file) (I.faults input.old) (I.faults input.new)
        (O.faults out.old) (O.faults out.new) (E.faults err.old) (E.faults err.new)
        ((IsImageBytes bytes → ⊥) → IsBadUnlessMemory bytes result)) }

    // Counts of faults never fall.
    ensures files_counted { (name : List ℕ) → F.faults files.old name ≤ F.faults files.new name }
    ensures reads_counted { I.faults input.old ≤ I.faults input.new }
    ensures writes_counted { O.faults out.old ≤ O.faults out.new }
    ensures lines_counted { E.faults err.old ≤ E.faults err.new }
{
    let answer = command(alloc, words, files, input, out);
    say(err, answer)
}

// Does what a command line says, but for the line on the error output.
fn command<F: Files, I: Source, O: Sink>(
    alloc: Global,
    words: &[String],
    files: &mut F,
    input: &mut I,
    out: &mut O,
) -> Status
    ensures answers { IsAnswer (line_said words.now) (F.contents files.old) (I.left input.old) (O.written out.old)
        (I.left input.new) (O.written out.new) result }
    ensures command_cause { result ≡ Status.Usage UsageKind.Command → line_said words.now ≡ NoCommand }
    ensures words_cause { result ≡ Status.Usage UsageKind.Words → line_said words.now ≡ NoLine }
    ensures read_cause { result ≡ Status.ReadFault → (file : List ℕ) × Names (line_said words.now) file
        × AReadFailed (F.faults files.old file) (F.faults files.new file) (I.faults input.old) (I.faults input.new) }
    ensures write_cause { result ≡ Status.WriteFault → Rose (O.faults out.old) (O.faults out.new) }
    ensures memory_cause { result ≡ Status.OutOfMemory
        → NoneFailed (F.faults files.old) (F.faults files.new) (I.faults input.old) (I.faults input.new) (O.faults out.old) (O.faults out.new) }
    ensures long_cause { result ≡ Status.SourceTooLong → ReachesBeyond (line_said words.now) source_limit (F.reach files.new) }
    ensures image_long_cause { result ≡ Status.ImageTooLong → ReachesBeyond (line_said words.now) image_limit (F.reach files.new) }
    ensures files_counted { (name : List ℕ) → F.faults files.old name ≤ F.faults files.new name }
    ensures reads_counted { I.faults input.old ≤ I.faults input.new }
    ensures writes_counted { O.faults out.old ≤ O.faults out.new }
{
    let Ok(line) = read_line(alloc, words) else {
        return Status::OutOfMemory;
    };
    match line {
        Line::NoCommand => Status::Usage(UsageKind::Command),
        Line::NoLine => Status::Usage(UsageKind::Words),
        // Every program has one pool, whether the line asks for that or not.
        Line::Build { file, limits, .. } => build_file(alloc, file, limits_of(limits), files, out),
        Line::Exec {
            file,
            limits,
            steps,
            ..
        } => exec(alloc, file, limits_of(limits), steps, files, input, out),
        Line::Run { file, steps } => run_file(alloc, file, steps, files, input, out),
        Line::Ref { file, steps } => ref_file(alloc, file, steps, files, input, out),
        Line::Graph { file } => graph_file(alloc, file, files, out),
    }
}

// The limits that the image of a line holds.
fn limits_of(limits: Limits) -> MachineLimits
    requires { AreLimits limits }
    ensures is { result ≡ machine_limits (limits_seen limits) }
    ensures range { AreInRange result }
{
    MachineLimits {
        slabs: limits.slabs,
        index: limits.index,
    }
}
