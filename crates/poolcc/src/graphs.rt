// `graph FILE`: writes the heap graphs of a file's code.

ghost use Rattle.std.specs.Prelude.{◌≡◌, ◌≢◌, ℕ, ◌<◌, ◌≤◌, List, Some, length, IfOk, IfErr};
ghost use Rattle.pcc_outside.specs.Outside.{Rose, Holds};
ghost use Rattle.c_syntax.specs.Views.{program_tree};
ghost use Rattle.heap_graph.specs.Ascending.{GraphsAscend};
ghost use Rattle.poolcc.specs.Premises.{NoFileFailed, AnswersNoSource};
ghost use Rattle.poolcc.specs.Exec.{IsUsage, source_limit};
ghost use Rattle.poolcc.specs.Printed.{IsTextOf, IsPrinted, GraphGives};
ghost use Rattle.poolcc.specs.Refused.{IsHalt};

use crate::compilation::{CompileErr, analyse};
use crate::execution::SOURCE_LIMIT;
use crate::text::{Stop, elaborate, parse};
use c_syntax::Program;
use dsa_bottom_up::CodeGraphs;
use graph_text::{graph_lines, labels};
use pcc_outside::{Files, ReadErr, Sink, read_all, write_all};
use pcc_words::{Refusal, Status};
use std::alloc::{AllocError, Global};
use tac_ir::Tac;

/// Writes the heap graphs of a file's code: those of its groups of functions, callees first, and that of `start`.
pub fn graph_file<F: Files, O: Sink>(
    alloc: Global,
    file: &str,
    files: &mut F,
    out: &mut O,
) -> Status
    ensures gives { (text base : List ℕ) → F.contents files.old file.now ≡ Holds text → O.written out.old ≡ Some base
        → GraphGives text base result (O.written out.new) }
    ensures missing { AnswersNoSource (F.contents files.old file.now) result (O.written out.old) (O.written out.new) }
    ensures read_cause { result ≡ Status.ReadFault → Rose (F.faults files.old file.now) (F.faults files.new file.now) }
    ensures write_cause { result ≡ Status.WriteFault → Rose (O.faults out.old) (O.faults out.new) }
    ensures memory_cause { result ≡ Status.OutOfMemory → NoFileFailed (F.faults files.old) (F.faults files.new) (O.faults out.old) (O.faults out.new) }
    ensures long_cause { result ≡ Status.SourceTooLong → source_limit < F.reach files.new file.now }
    ensures no_image { result ≢ Status.ImageTooLong }
    ensures well_formed { IsUsage result → ⊥ }
    ensures files_counted { (name : List ℕ) → F.faults files.old name ≤ F.faults files.new name }
    ensures writes_counted { O.faults out.old ≤ O.faults out.new }
{
    match read_all(alloc, files, file, SOURCE_LIMIT) {
        Ok(text) => print_graphs(alloc, &text, out),
        Err(ReadErr::Failed) => Status::ReadFault,
        Err(ReadErr::TooLong) => Status::SourceTooLong,
        Err(ReadErr::OutOfMemory) => Status::OutOfMemory,
    }
}

// Writes the graphs of a text's code.
fn print_graphs<O: Sink>(alloc: Global, text: &[u8], out: &mut O) -> Status
    requires { length text.now ≤ source_limit }
    ensures gives { (base : List ℕ) → O.written out.old ≡ Some base → GraphGives text.now base result (O.written out.new) }
    ensures no_fault { result ≢ Status.ReadFault }
    ensures write_cause { result ≡ Status.WriteFault → Rose (O.faults out.old) (O.faults out.new) }
    ensures memory_cause { result ≡ Status.OutOfMemory → O.faults out.new ≡ O.faults out.old }
    ensures short { result ≢ Status.SourceTooLong }
    ensures no_image { result ≢ Status.ImageTooLong }
    ensures well_formed { IsUsage result → ⊥ }
    ensures writes_counted { O.faults out.old ≤ O.faults out.new }
{
    let lines = match graphs_of(alloc, text) {
        Ok(lines) => lines,
        Err(Stop::Refused(refusal)) => return Status::Refused(refusal),
        Err(Stop::OutOfMemory) => return Status::OutOfMemory,
    };
    match write_all(out, &lines) {
        Ok(()) => Status::Done,
        Err(_) => Status::WriteFault,
    }
}

/// The text of the graphs of a text's code.
fn graphs_of(alloc: Global, text: &[u8]) -> Result<Vec<u8>, Stop>
    requires { length text.now ≤ source_limit }
    ensures printed { IfOk result (λ lines. IsPrinted text.now lines.items) }
    ensures stop { IfErr result (IsHalt text.now) }
{
    let program = match parse(alloc, text) {
        Ok(program) => program,
        Err(stop) => return Err(stop),
    };
    let typed = match elaborate(alloc, &program) {
        Ok(typed) => typed,
        Err(stop) => return Err(stop),
    };
    let made = match analyse(alloc, typed) {
        Ok(made) => made,
        Err(CompileErr::Graph(count)) => return Err(Stop::Refused(Refusal::Graph(count))),
        Err(CompileErr::OutOfMemory) => return Err(Stop::OutOfMemory),
    };
    match lines_of(alloc, &program, &made.tac, &made.graphs) {
        Ok(lines) => Ok(lines),
        Err(_) => Err(Stop::OutOfMemory),
    }
}

/// The text of graphs, in which things are called as in the program.
fn lines_of(
    alloc: Global,
    program: &Program,
    tac: &Tac,
    graphs: &CodeGraphs,
) -> Result<Vec<u8>, AllocError>
    requires { GraphsAscend graphs.now.graphs }
    ensures { IfOk result (λ lines. IsTextOf (program_tree program.now) tac.now graphs.now lines.items) }
{
    let labels = labels(alloc, program, tac)?;
    graph_lines(alloc, tac, &graphs.groups, &graphs.graphs, &labels)
}
