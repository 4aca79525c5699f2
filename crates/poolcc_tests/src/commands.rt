// What a command answers, over objects in memory, as one text.

use pcc_outside::{MemFiles, MemSink, MemSource};
use pcc_words::Status;
use poolcc::poolcc;
use std::alloc::{AllocError, Global};
use std::collections::BTreeMap;
use std::fmt::Write;

pub const EXEC: &str = "poolcc exec a.c";

pub const REF: &str = "poolcc ref a.c";

pub const BUILD: &str = "poolcc build a.c";

pub const RUN: &str = "poolcc run a.c";

/// Which calls are to fail, counted from 1; 0 is none.
#[derive(Clone, Copy)]
pub struct Failing {
    pub file: u64,
    pub input: u64,
    pub out: u64,
    pub err: u64,
}

pub const NONE: Failing = Failing {
    file: 0,
    input: 0,
    out: 0,
    err: 0,
};

/// What a command did.
#[derive(Drop)]
pub struct Did {
    pub status: Status,
    pub out: MemSink,
    pub err: MemSink,
    pub input: MemSource,
}

pub fn words_of(alloc: Global, line: &str) -> Result<Vec<String>, AllocError> {
    let mut words = Vec::new(alloc);
    for word in line.split(' ') {
        words.push(String::from_str(alloc, word)?)?;
    }
    Ok(words)
}

/// A file `a.c` that holds the text.
fn files_of(alloc: Global, text: &[u8], failing: u64) -> Result<MemFiles, AllocError> {
    let mut contents = BTreeMap::new(alloc);
    contents.insert(
        String::from_str(alloc, "a.c")?,
        Vec::from_slice(alloc, text)?,
    )?;
    Ok(MemFiles::new(contents, vec![in alloc; failing]?))
}

/// Does what the line says; the input comes in pieces of one byte.
pub fn command(
    alloc: Global,
    line: &str,
    text: &[u8],
    input: &[u8],
    failing: Failing,
) -> Result<Did, AllocError> {
    let words = words_of(alloc, line)?;
    let mut files = files_of(alloc, text, failing.file)?;
    let mut input = MemSource::new(
        Vec::from_slice(alloc, input)?,
        vec![in alloc; failing.input]?,
        1,
    );
    let mut out = MemSink::new(alloc, 4096, vec![in alloc; failing.out]?, 1)?;
    let mut err = MemSink::new(alloc, 4096, vec![in alloc; failing.err]?, 7)?;
    let status = poolcc(alloc, &words, &mut files, &mut input, &mut out, &mut err);
    Ok(Did {
        status,
        out,
        err,
        input,
    })
}

/// Each byte as the character with its number.
fn text_of(alloc: Global, bytes: &[u8]) -> Result<String, AllocError> {
    let mut text = String::new(alloc);
    for byte in bytes {
        text.push(char::from(*byte))?;
    }
    Ok(text)
}

/// A line on the error output without what each has.
fn line_of(err: &str) -> &str {
    match err.strip_prefix("poolcc: ") {
        Some(line) => line.strip_suffix("\n").unwrap_or(err),
        None if err.is_empty() => "no line",
        None => err,
    }
}

/// A program's status, `done`, or the exit status with the line on the error output; the kind of a usage in place of that status.
fn write_end(answer: &mut String, status: Status, err: &str) -> Result<(), AllocError> {
    let line = line_of(err);
    match status {
        Status::Program(status) => write!(answer, "{status}{err}"),
        Status::Done => write!(answer, "done{err}"),
        Status::Usage(kind) => write!(answer, "{kind:?}: {line}"),
        _ => write!(answer, "{}: {line}", status.exit_status()),
    }
}

/// Writes these bytes behind a word, if there are any.
fn write_bytes(answer: &mut String, word: &str, bytes: &str) -> Result<(), AllocError> {
    if bytes.is_empty() {
        return Ok(());
    }
    write!(answer, ", {word} {bytes}")
}

/// How it ended, what it wrote, and what it left of the input, as in `3, writes a!, leaves b`.
fn answer_of(alloc: Global, did: &Did) -> Result<String, AllocError> {
    let mut answer = String::new(alloc);
    write_end(
        &mut answer,
        did.status,
        text_of(alloc, did.err.bytes())?.as_str(),
    )?;
    write_bytes(
        &mut answer,
        "writes",
        text_of(alloc, did.out.bytes())?.as_str(),
    )?;
    write_bytes(
        &mut answer,
        "leaves",
        text_of(alloc, did.input.left())?.as_str(),
    )?;
    Ok(answer)
}

/// What a command answers, as one text.
pub fn answer(
    alloc: Global,
    line: &str,
    text: &[u8],
    input: &[u8],
    failing: Failing,
) -> Result<String, AllocError> {
    let did = command(alloc, line, text, input, failing)?;
    answer_of(alloc, &did)
}

/// The parts of a row `TEXT <- INPUT => ANSWER`; where nothing can be read, it has no ` <- INPUT`.
pub fn parts_of(row: &str) -> (&str, &str, &str) {
    let (program, answer) = row.split_once(" => ").unwrap_or((row, "no answer"));
    let (text, input) = program.split_once(" <- ").unwrap_or((program, ""));
    (text, input, answer)
}

/// The row and what is answered, if that isn't what the row says.
pub fn wrong(
    alloc: Global,
    line: &str,
    failing: Failing,
    row: &str,
) -> Result<Option<String>, AllocError> {
    let (text, input, wanted) = parts_of(row);
    let found = answer(alloc, line, text.as_bytes(), input.as_bytes(), failing)?;
    if found.as_str() == wanted {
        return Ok(None);
    }
    Ok(Some(format!(in alloc; "{line}: {row}, but {found}")?))
}

/// The first row that does not hold.
pub fn first_wrong(alloc: Global, line: &str, rows: &[&str]) -> Result<Option<String>, AllocError> {
    for row in rows {
        if let Some(found) = wrong(alloc, line, NONE, row)? {
            return Ok(Some(found));
        }
    }
    Ok(None)
}
