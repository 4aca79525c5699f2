//! Runs what programs mean. A line of the input is a name: that of a file with `.c` behind it. The line of the output for it
//! tells why the file's text is refused, or how its program ended, how many units it spent, and what it wrote, in hexadecimal
//! digits.
#![tactic(auto)]

ghost use Rattle.std.specs.Prelude.{◌≤◌, length};
ghost use Rattle.c_typed.specs.DefinitionViews.{program_of, ProgramStands};
ghost use Rattle.c_typed.specs.Programs.{IsWellTyped};
ghost use Rattle.c_typed.specs.Sizes.{HasStorableTypes};

use c_lexer::{LexErr, tokens};
use c_reader::{SyntaxErr, read};
use c_types::{TypeErr, check, check_limits};
use pcc_outside::{HostFiles, MemSink, MemSource, read_all};
use ref_meaning::{RefEnd, RefRun};
use std::alloc::{AllocError, Global};
use std::io::{self, BufRead, BufReader, BufWriter, Write};

/// The most bytes of a source.
const SOURCE_LIMIT: u64 = 1_048_576;

/// The most units of a run.
const UNITS: u64 = 2_000_000;

/// What a program did.
#[derive(Drop)]
struct Ran {
    end: RefEnd,
    units: u64,
    out: String,
}

// Runs a program on no input.
fn run(alloc: Global, program: &c_typed::Program) -> Result<Ran, AllocError>
    requires stands { ProgramStands program.now }
    requires well_typed { IsWellTyped (program_of program.now) }
    requires storable { HasStorableTypes (program_of program.now) }
{
    let mut run = RefRun::new(alloc, program)?;
    let mut input = MemSource::new(Vec::new(alloc), Vec::new(alloc), 1);
    let mut out = MemSink::new(alloc, 1 << 20, Vec::new(alloc), 1)?;
    let end = run.run(&mut input, &mut out, UNITS);
    Ok(Ran {
        end,
        units: run.spent,
        out: hex::encode(alloc, out.bytes())?,
    })
}

fn write_end<W: Write>(end: RefEnd, out: &mut W) -> io::Result<()> {
    match end {
        RefEnd::Ended(status) => write!(out, "ended {status}"),
        RefEnd::Depth => write!(out, "call depth reached"),
        RefEnd::Undefined(kind, at) => write!(out, "undefined {kind} at {at}"),
        RefEnd::StepsSpent => write!(out, "steps spent"),
        RefEnd::ReadFault => write!(out, "read fault"),
        RefEnd::WriteFault => write!(out, "write fault"),
        RefEnd::OutOfMemory => write!(out, "out of memory"),
    }
}

fn write_fault<W: Write>(error: LexErr, out: &mut W) -> io::Result<()> {
    match error {
        LexErr::BadByte(at) => writeln!(out, "refused BadByte at {at}"),
        LexErr::BadLiteral(at) => writeln!(out, "refused BadLiteral at {at}"),
        LexErr::Unclosed(at) => writeln!(out, "refused Unclosed at {at}"),
        LexErr::BadDirective(at) => writeln!(out, "refused BadDirective at {at}"),
        LexErr::NameTooLong(at) => writeln!(out, "refused NameTooLong at {at}"),
        LexErr::OutOfMemory => writeln!(out, "out of memory"),
    }
}

// The answer to an accepted program.
fn answer_program<W: Write>(
    alloc: Global,
    program: &c_typed::Program,
    out: &mut W,
) -> io::Result<()>
    requires stands { ProgramStands program.now }
    requires well_typed { IsWellTyped (program_of program.now) }
    requires storable { HasStorableTypes (program_of program.now) }
{
    let ran = run(alloc, program)?;
    write_end(ran.end, out)?;
    writeln!(out, ", {} units, {}", ran.units, ran.out)
}

// The answer to a text.
fn answer<W: Write>(alloc: Global, text: &[u8], out: &mut W) -> io::Result<()>
    requires { length text.now ≤ 1048576 }
{
    let tokens = match tokens(alloc, text) {
        Ok(tokens) => tokens,
        Err(error) => return write_fault(error, out),
    };
    let program = match read(alloc, &tokens) {
        Ok(program) => program,
        Err(SyntaxErr::At(at)) => return writeln!(out, "refused syntax at {at}"),
        Err(SyntaxErr::TooDeep(at)) => return writeln!(out, "refused nesting at {at}"),
        Err(SyntaxErr::OutOfMemory) => return writeln!(out, "out of memory"),
    };
    let typed = match check(alloc, &program) {
        Ok(typed) => typed,
        Err(TypeErr::Rule(violation)) => {
            return writeln!(out, "refused {} at {}", violation.kind, violation.place);
        }
        Err(TypeErr::OutOfMemory) => return writeln!(out, "out of memory"),
    };
    if check_limits(&typed.program, typed.named.as_slice()).is_some() {
        return writeln!(out, "refused for a limit");
    }
    answer_program(alloc, &typed.program, out)
}

fn main(rt: HostRuntime) -> io::Result<()> {
    let alloc = rt.alloc();
    let mut out = BufWriter::new(alloc, io::writer(&rt))?;
    let mut names = Vec::new(alloc);
    for line in BufReader::new(alloc, rt.reader())?.lines(alloc) {
        names.push(line?)?;
    }
    let mut files = HostFiles::new(rt);
    for name in &names {
        write!(out, "{name}: ")?;
        let file = format!(in alloc; "{name}.c")?;
        match read_all(alloc, &mut files, file.as_str(), SOURCE_LIMIT) {
            Ok(text) => answer(alloc, &text, &mut out)?,
            Err(_) => writeln!(out, "no file")?,
        }
    }
    out.flush()
}
