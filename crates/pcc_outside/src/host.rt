//! The real outside: readers, writers and files of the system. What they give and take is not told.

ghost use Rattle.std.specs.Prelude.{◌≡◌, ℕ, ◌<◌, ◌≤◌, List, length, take, IfOk, OnOk, OnErr, None};
ghost use Rattle.std.specs.Io.KnownBytes.{Keeps, Appends, Consumes, IsAtEnd};
ghost use Rattle.pcc_outside.specs.Host.{source_reader, source_faults, sink_writer, sink_faults};
ghost use Rattle.pcc_outside.specs.Outside.{Rose, Untold};

use crate::counts::{further, raised};
use crate::{Failed, Files, Sink, Source};
use std::io::{ErrorKind, Read, Seek, SeekFrom, Write};
use std::{fs, io, rt};

/// How many times a call that a signal interrupted is tried again.
const RETRIES: u32 = 1000;

fn is_interrupted(error: &io::Error) -> bool {
    error.kind() == ErrorKind::Interrupted
}

/// Counts a failure.
fn fail(faults: &mut u64) -> Failed
    ensures rose { Rose faults.old faults.new }
    ensures counted { faults.old ≤ faults.new }
{
    *faults = raised(*faults);
    Failed
}

/// A reader of the system as a source. It reads no byte ahead.
#[derive(Drop)]
pub struct StdSource<R> {
    reader: R,
    faults: u64,
}

impl<R: Read> StdSource<R> {
    /// A source over `reader`, such as a runtime's standard input.
    pub fn new(reader: R) -> Self
        ensures reader { source_reader result ≡ reader }
        ensures faults { source_faults result ≡ 0 }
    {
        StdSource { reader, faults: 0 }
    }
}

fn read_retrying<R: Read>(reader: &mut R, buf: &mut [u8]) -> io::Result<usize>
    requires { 0 < length buf.old }
    ensures within { IfOk result (λ n. n ≤ length buf.old) }
    ensures passes { IfOk result (λ n. Consumes (R.remaining reader.old) (R.remaining reader.new) (take n buf.new)) }
    ensures ends { IfOk result (λ n. n ≡ 0 → IsAtEnd (R.remaining reader.new)) }
    ensures stays { OnErr result (Keeps (R.remaining reader.old) (R.remaining reader.new)) }
{
    for _ in 0..RETRIES {
        match reader.read(buf) {
            Err(error) if is_interrupted(&error) => {}
            Err(error) => return Err(error),
            Ok(n) => return Ok(n),
        }
    }
    reader.read(buf)
}

impl<R: Read> Source for StdSource<R> {
    ghost left = { λ _. None };

    ghost faults = { source_faults };

    fn read(&mut self, buf: &mut [u8]) -> Result<usize, Failed>
        requires { 0 < length buf.old }
        ensures within { IfOk result (λ n. n ≤ length buf.old) }
        ensures fault { OnErr result (Rose (source_faults self.old) (source_faults self.new)) }
        ensures faultless { OnOk result (source_faults self.new ≡ source_faults self.old) }
        ensures counted { source_faults self.old ≤ source_faults self.new }

        // The bytes are the reader's, where it is known what it has left.
        ensures passes { IfOk result (λ n. Consumes (R.remaining (source_reader self.old)) (R.remaining (source_reader self.new)) (take n buf.new)) }
        ensures ends { IfOk result (λ n. n ≡ 0 → IsAtEnd (R.remaining (source_reader self.new))) }
        ensures stays { OnErr result (Keeps (R.remaining (source_reader self.old)) (R.remaining (source_reader self.new))) }
    {
        match read_retrying(&mut self.reader, buf) {
            Ok(n) => Ok(n),
            Err(_) => Err(fail(&mut self.faults)),
        }
    }
}

/// A writer of the system as a sink. Each write is flushed, and fails where its flush does.
#[derive(Drop)]
pub struct StdSink<W> {
    writer: W,
    faults: u64,
}

impl<W: Write> StdSink<W> {
    /// A sink over `writer`, such as a runtime's standard output or standard error.
    pub fn new(writer: W) -> Self
        ensures writer { sink_writer result ≡ writer }
        ensures faults { sink_faults result ≡ 0 }
    {
        StdSink { writer, faults: 0 }
    }
}

fn write_retrying<W: Write>(writer: &mut W, piece: &[u8]) -> io::Result<usize>
    ensures within { IfOk result (λ n. n ≤ length piece.now) }
    ensures passes { IfOk result (λ n. Appends (W.contents writer.old) (W.contents writer.new) (take n piece.now)) }
{
    for _ in 0..RETRIES {
        match writer.write(piece) {
            Err(error) if is_interrupted(&error) => {}
            Err(error) => return Err(error),
            Ok(n) => return Ok(n),
        }
    }
    writer.write(piece)
}

fn flush_retrying<W: Write>(writer: &mut W) -> io::Result<()>
    ensures { Keeps (W.contents writer.old) (W.contents writer.new) }
{
    for _ in 0..RETRIES {
        match writer.flush() {
            Err(error) if is_interrupted(&error) => {}
            Err(error) => return Err(error),
            Ok(()) => return Ok(()),
        }
    }
    writer.flush()
}

fn write_through<W: Write>(writer: &mut W, piece: &[u8]) -> io::Result<usize>
    ensures within { IfOk result (λ n. n ≤ length piece.now) }
    ensures passes { IfOk result (λ n. Appends (W.contents writer.old) (W.contents writer.new) (take n piece.now)) }
{
    let n = write_retrying(writer, piece)?;
    flush_retrying(writer)?;
    Ok(n)
}

impl<W: Write> Sink for StdSink<W> {
    ghost written = { λ _. None };

    ghost faults = { sink_faults };

    fn write(&mut self, piece: &[u8]) -> Result<usize, Failed>
        requires { 0 < length piece.now }
        ensures within { IfOk result (λ n. (0 < n) × (n ≤ length piece.now)) }
        ensures fault { OnErr result (Rose (sink_faults self.old) (sink_faults self.new)) }
        ensures faultless { OnOk result (sink_faults self.new ≡ sink_faults self.old) }
        ensures counted { sink_faults self.old ≤ sink_faults self.new }

        // The bytes come to the writer, where it is known what it holds.
        ensures passes { IfOk result (λ n. Appends (W.contents (sink_writer self.old)) (W.contents (sink_writer self.new)) (take n piece.now)) }
    {
        match write_through(&mut self.writer, piece) {
            Ok(n) if n > 0 => Ok(n),
            _ => Err(fail(&mut self.faults)),
        }
    }
}

/// The files of the system, by their paths. It keeps one count of failures and one reach for all names.
#[derive(Drop)]
pub struct HostFiles<R> {
    runtime: R,
    faults: u64,
    reach: u64,
}

impl<R: rt::Files> HostFiles<R> {
    /// The files that `runtime` opens.
    pub fn new(runtime: R) -> Self
        ensures faults { (name : List ℕ) → ⟦<HostFiles<R> as Files>⟧.faults result name ≡ 0 }
        ensures reach { (name : List ℕ) → ⟦<HostFiles<R> as Files>⟧.reach result name ≡ 0 }
    {
        HostFiles {
            runtime,
            faults: 0,
            reach: 0,
        }
    }
}

/// Opens a file, goes to a place, and reads once.
fn read_once<R: rt::Files>(runtime: &R, name: &str, at: u64, buf: &mut [u8]) -> io::Result<usize>
    ensures { IfOk result (λ n. n ≤ length buf.old) }
{
    let mut file = fs::open(runtime, name)?;
    file.seek(SeekFrom::Start(at))?;
    file.read(buf)
}

fn read_at_retrying<R: rt::Files>(
    runtime: &R,
    name: &str,
    at: u64,
    buf: &mut [u8],
) -> io::Result<usize>
    ensures { IfOk result (λ n. n ≤ length buf.old) }
{
    for _ in 0..RETRIES {
        match read_once(runtime, name, at, buf) {
            Err(error) if is_interrupted(&error) => {}
            Err(error) => return Err(error),
            Ok(n) => return Ok(n),
        }
    }
    read_once(runtime, name, at, buf)
}

impl<R: rt::Files> Files for HostFiles<R> {
    ghost contents = { λ _ _. Untold };

    ghost faults = { λ f _. f.faults };

    ghost reach = { λ f _. f.reach };

    fn read_at(&mut self, name: &str, at: u64, buf: &mut [u8]) -> Result<usize, Failed> {
        match read_at_retrying(&self.runtime, name, at, buf) {
            Ok(n) => {
                self.reach = further(self.reach, at, n);
                Ok(n)
            }
            Err(_) => Err(fail(&mut self.faults)),
        }
    }
}
