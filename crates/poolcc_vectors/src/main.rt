//! Runs command lines of `poolcc`. A line of the input is one without the program's name; behind `<` may stand a line that the program
//! reads, else it reads nothing. For each a line of the output tells the exit status, the line on the error output, and what was written, in
//! hexadecimal digits; for `graph` lines behind it do.
#![tactic(auto)]

use pcc_outside::{HostFiles, MemSink, MemSource};
use poolcc::poolcc;
use std::alloc::{AllocError, Global};
use std::io::{self, BufRead, BufReader, BufWriter, Write};
use std::rt;

/// The most bytes that a program writes.
const ROOM: usize = 1 << 20;

/// What a command did.
#[derive(Drop)]
struct Did {
    exit_status: u8,
    err: Vec<u8>,
    out: Vec<u8>,
}

// The words of a command line, with the program's name before them.
fn words_of(alloc: Global, line: &str) -> Result<Vec<String>, AllocError> {
    let mut words = Vec::new(alloc);
    words.push(String::from_str(alloc, "poolcc")?)?;
    for word in line.split(' ') {
        words.push(String::from_str(alloc, word)?)?;
    }
    Ok(words)
}

// Does what a command line says, with this input.
fn command<R: rt::Files>(
    alloc: Global,
    files: &mut HostFiles<R>,
    line: &str,
    input: &[u8],
) -> Result<Did, AllocError> {
    let words = words_of(alloc, line)?;
    let mut input = MemSource::new(Vec::from_slice(alloc, input)?, Vec::new(alloc), 1);
    let mut out = MemSink::new(alloc, ROOM, Vec::new(alloc), 1)?;
    let mut err = MemSink::new(alloc, ROOM, Vec::new(alloc), ROOM)?;
    let status = poolcc(alloc, &words, files, &mut input, &mut out, &mut err);
    Ok(Did {
        exit_status: status.exit_status(),
        err: Vec::from_slice(alloc, err.bytes())?,
        out: Vec::from_slice(alloc, out.bytes())?,
    })
}

// Does what a line of the input says, and tells what came of it.
fn answer<R: rt::Files, W: Write>(
    alloc: Global,
    files: &mut HostFiles<R>,
    line: &str,
    out: &mut W,
) -> io::Result<()> {
    let did = match line.split_once(" < ") {
        Some((words, read)) => {
            let input = format!(in alloc; "{read}\n")?;
            command(alloc, files, words, input.as_bytes())?
        }
        None => command(alloc, files, line, b"")?,
    };
    write!(out, "{line}: {}, ", did.exit_status)?;
    for byte in &did.err {
        if *byte != b'\n' {
            out.write_all(&[*byte])?;
        }
    }
    if line.starts_with("graph ") {
        writeln!(out, ",")?;
        return out.write_all(&did.out);
    }
    writeln!(out, ", {}", hex::encode(alloc, &did.out)?)
}

fn main(rt: HostRuntime) -> io::Result<()> {
    let alloc = rt.alloc();
    let mut out = BufWriter::new(alloc, io::writer(&rt))?;
    let mut lines = Vec::new(alloc);
    for line in BufReader::new(alloc, rt.reader())?.lines(alloc) {
        lines.push(line?)?;
    }
    let mut files = HostFiles::new(rt);
    for line in &lines {
        answer(alloc, &mut files, line.as_str(), &mut out)?;
    }
    out.flush()
}
