//! Compiles texts that are about as large as heap graphs may be. A line of the input has a name, a command and the pieces of a text, with tabs
//! between: `N:TEXT` stands N times, and `#` in it is the number of the repetition, from 0. For each a line of the output tells the exit status
//! of the command and the line on the error output; for `graph` lines behind it do.
#![tactic(auto)]

use pcc_outside::{MemFiles, MemSink, MemSource};
use poolcc::poolcc;
use std::alloc::{AllocError, Global};
use std::collections::BTreeMap;
use std::io::{self, BufRead, BufReader, BufWriter, Write};

/// The most bytes that are written.
const ROOM: usize = 1 << 22;

// Appends a piece of a text, repeated.
fn put_piece(alloc: Global, text: &mut Vec<u8>, piece: &str) -> Result<(), AllocError> {
    let Some((count, piece)) = piece.split_once(':') else {
        return Ok(());
    };
    let count: u32 = count.parse().unwrap_or(0);
    for number in 0..count {
        put_numbered(alloc, text, piece, number)?;
    }
    Ok(())
}

// Appends a piece in which `#` is a number.
fn put_numbered(
    alloc: Global,
    text: &mut Vec<u8>,
    piece: &str,
    number: u32,
) -> Result<(), AllocError> {
    for byte in piece.as_bytes() {
        if *byte == b'#' {
            let digits = format!(in alloc; "{number}")?;
            text.extend_from_slice(digits.as_bytes())?;
        } else {
            text.push(*byte)?;
        }
    }
    Ok(())
}

// Does a command on a text, without input, and tells what came of it.
fn answer<W: Write>(
    alloc: Global,
    name: &str,
    command: &str,
    text: Vec<u8>,
    out: &mut W,
) -> io::Result<()> {
    let words = vec![in alloc;
        String::from_str(alloc, "poolcc")?,
        String::from_str(alloc, command)?,
        String::from_str(alloc, "a.c")?,
    ]?;
    let mut contents = BTreeMap::new(alloc);
    contents.insert(String::from_str(alloc, "a.c")?, text)?;
    let mut files = MemFiles::new(contents, Vec::new(alloc));
    let mut input = MemSource::new(Vec::new(alloc), Vec::new(alloc), 1);
    let mut written = MemSink::new(alloc, ROOM, Vec::new(alloc), 1)?;
    let mut err = MemSink::new(alloc, ROOM, Vec::new(alloc), ROOM)?;
    let status = poolcc(
        alloc,
        &words,
        &mut files,
        &mut input,
        &mut written,
        &mut err,
    );
    write!(out, "{name}: {}, ", status.exit_status())?;
    if err.bytes().is_empty() {
        writeln!(out, "-")?;
    }
    out.write_all(err.bytes())?;
    if command == "graph" {
        out.write_all(written.bytes())?;
    }
    Ok(())
}

// Does so with the text of a line.
fn answer_line<W: Write>(alloc: Global, line: &str, out: &mut W) -> io::Result<()> {
    let Some((name, rest)) = line.split_once('\t') else {
        return Ok(());
    };
    let Some((command, pieces)) = rest.split_once('\t') else {
        return Ok(());
    };
    let mut text = Vec::new(alloc);
    for piece in pieces.split('\t') {
        put_piece(alloc, &mut text, piece)?;
    }
    answer(alloc, name, command, text, out)
}

fn main(rt: HostRuntime) -> io::Result<()> {
    let alloc = rt.alloc();
    let mut out = BufWriter::new(alloc, io::writer(&rt))?;
    for line in BufReader::new(alloc, rt.reader())?.lines(alloc) {
        let line = line?;
        answer_line(alloc, line.as_str(), &mut out)?;
    }
    out.flush()
}
