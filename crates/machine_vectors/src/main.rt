//! Runs images. A line of the input is a name: that of a file with `.image` behind it. The line of the output for it tells how the
//! run ended, how many steps it made, how many pools it made and objects it placed in them, the most slabs that were held at
//! once, and what it wrote, in hexadecimal digits. An image whose name begins with `r` is given the input `ab` and 1,000 steps,
//! another no input and 1,000,000 steps.
#![tactic(auto)]

ghost use Rattle.image_form.specs.Form.{form_of, IsImage};

use image_form::{Image, ImageErr, from_bytes};
use machine::{Machine, Report, RunEnd};
use pcc_outside::{HostFiles, MemSink, MemSource, read_all};
use std::alloc::{AllocError, Global};
use std::io::{self, BufRead, BufReader, BufWriter, Write};

/// The most bytes of an image here.
const IMAGE_LIMIT: u64 = 1 << 20;

/// What an image did.
#[derive(Drop)]
struct Ran {
    end: RunEnd,
    steps: u64,
    report: Report,
    out: String,
}

// Runs an image on an input.
fn run(alloc: Global, image: &Image, input: &[u8], steps: u64) -> Result<Ran, AllocError>
    requires { IsImage (form_of image.now) }
{
    let mut machine = Machine::load(alloc, image, image.limits)?;
    let mut source = MemSource::new(Vec::from_slice(alloc, input)?, Vec::new(alloc), 1);
    let mut out = MemSink::new(alloc, 1 << 20, Vec::new(alloc), 1)?;
    let end = machine.run(&mut source, &mut out, steps);
    Ok(Ran {
        end,
        steps: machine.spent(),
        report: machine.report()?,
        out: hex::encode(alloc, out.bytes())?,
    })
}

fn write_end<W: Write>(end: RunEnd, out: &mut W) -> io::Result<()> {
    match end {
        RunEnd::Ended(status) => write!(out, "ended {status}"),
        RunEnd::Depth => write!(out, "call depth reached"),
        RunEnd::HeapExhausted => write!(out, "heap exhausted"),
        RunEnd::IndexExhausted => write!(out, "pool index exhausted"),
        RunEnd::StepsSpent => write!(out, "steps spent"),
        RunEnd::Trapped(kind) => write!(out, "trap {kind}"),
        RunEnd::ReadFault => write!(out, "read fault"),
        RunEnd::WriteFault => write!(out, "write fault"),
        RunEnd::OutOfMemory => write!(out, "out of memory"),
    }
}

// The answer to an image.
fn answer<W: Write>(alloc: Global, image: &Image, is_random: bool, out: &mut W) -> io::Result<()>
    requires { IsImage (form_of image.now) }
{
    let ran = if is_random {
        run(alloc, image, b"ab", 1_000)?
    } else {
        run(alloc, image, b"", 1_000_000)?
    };
    write_end(ran.end, out)?;
    writeln!(
        out,
        ", {} steps, {} pools, {} objects, {} slabs, {}",
        ran.steps, ran.report.made, ran.report.objects, ran.report.slabs, ran.out
    )
}

fn main(rt: HostRuntime) -> io::Result<()> {
    let alloc = rt.alloc();
    let mut out = BufWriter::new(alloc, io::writer(&rt))?;
    let mut names = Vec::new(alloc);
    for line in BufReader::new(alloc, rt.reader())?.lines(alloc) {
        names.push(line?)?;
    }
    let mut files = HostFiles::new(rt);
    for name in &names {
        write!(out, "{name}: ")?;
        let file = format!(in alloc; "{name}.image")?;
        let Ok(bytes) = read_all(alloc, &mut files, file.as_str(), IMAGE_LIMIT) else {
            writeln!(out, "no file")?;
            continue;
        };
        match from_bytes(alloc, &bytes) {
            Ok(image) => answer(alloc, &image, name.starts_with('r'), &mut out)?,
            Err(ImageErr::Bad(place)) => writeln!(out, "bad {place}")?,
            Err(ImageErr::OutOfMemory) => writeln!(out, "out of memory")?,
        }
    }
    out.flush()
}
