// The system's readers and writers, in the place of which others fail as they are told, and a file of its own.

ghost use Rattle.std.specs.Prelude.{◌≤◌, IfOk};

use pcc_outside::{Failed, Files, HostFiles, Sink, Source, StdSink, StdSource};
use std::io::{ErrorKind, Read, Write};
use std::test::Fail;
use std::{env, fs, io, process};

/// Answers `interrupts` calls with an interruption, and then what `kind` says, or that one byte was read or written. A
/// flush does what `flush` says.
#[derive(Drop)]
struct Flaky {
    interrupts: u32,
    kind: Option<ErrorKind>,
    flush: Option<ErrorKind>,
}

impl Flaky {
    fn answer(&mut self, room: usize) -> io::Result<usize>
        ensures { IfOk result (λ n. n ≤ room) }
    {
        if self.interrupts > 0 {
            self.interrupts -= 1;
            return Err(io::Error::from(ErrorKind::Interrupted));
        }
        match self.kind {
            Some(kind) => Err(io::Error::from(kind)),
            None => Ok(room.min(1)),
        }
    }
}

impl Read for Flaky {
    fn read(&mut self, buf: &mut [u8]) -> io::Result<usize> {
        let n = self.answer(buf.len())?;
        buf[..n].fill(7);
        Ok(n)
    }
}

impl Write for Flaky {
    fn write(&mut self, piece: &[u8]) -> io::Result<usize> {
        self.answer(piece.len())
    }

    fn flush(&mut self) -> io::Result<()> {
        match self.flush {
            Some(kind) => Err(io::Error::from(kind)),
            None => Ok(()),
        }
    }
}

fn make_flaky(interrupts: u32, kind: Option<ErrorKind>, flush: Option<ErrorKind>) -> Flaky {
    Flaky {
        interrupts,
        kind,
        flush,
    }
}

/// What one write or another answers.
type Answer = Result<usize, Failed>;

// Interruptions before a read and what it then says; the answer, and what then stands where it puts bytes.
const READS: [(u32, Option<ErrorKind>, Answer, [u8; 2]); 3] = [
    (1000, None, Ok(1), [7, 0]),
    (1001, None, Err(Failed), [0, 0]),
    (0, Some(ErrorKind::BrokenPipe), Err(Failed), [0, 0]),
];

// Interruptions before a write, what it then says, and what a flush says; the answers of two writes. A write whose flush fails has failed.
const WRITES: [(u32, Option<ErrorKind>, Option<ErrorKind>, [Answer; 2]); 3] = [
    (1000, None, None, [Ok(1), Ok(1)]),
    (
        0,
        Some(ErrorKind::BrokenPipe),
        None,
        [Err(Failed), Err(Failed)],
    ),
    (
        0,
        None,
        Some(ErrorKind::BrokenPipe),
        [Err(Failed), Err(Failed)],
    ),
];

/// The first read that is answered otherwise.
fn first_wrong_read() -> Option<usize> {
    for (index, (interrupts, kind, answer, bytes)) in READS.iter().enumerate() {
        let mut buf = [0u8; 2];
        let mut source = StdSource::new(make_flaky(*interrupts, *kind, None));
        if source.read(&mut buf) != *answer || buf != *bytes {
            return Some(index);
        }
    }
    None
}

/// The first writes that are answered otherwise.
fn first_wrong_write() -> Option<usize> {
    for (index, (interrupts, kind, flush, answers)) in WRITES.iter().enumerate() {
        let mut sink = StdSink::new(make_flaky(*interrupts, *kind, *flush));
        if [sink.write(b"ab"), sink.write(b"b")] != *answers {
            return Some(index);
        }
    }
    None
}

#[test]
fn sources_and_sinks_try_again(rt: HostRuntime) {
    assert_eq!(rt; first_wrong_read(), None);
    assert_eq!(rt; first_wrong_write(), None);
}

/// What reads of this file from 1 and from 4 and of another answer, and what the first one puts where it puts bytes.
fn read_places<F: Files>(files: &mut F, name: &str) -> ([Answer; 3], [u8; 3]) {
    let mut buf = [0u8; 3];
    let answers = [
        files.read_at(name, 1, &mut buf),
        files.read_at(name, 4, &mut [0; 3]),
        files.read_at("/no/such/file", 0, &mut [0; 3]),
    ];
    (answers, buf)
}

#[test]
fn files_of_the_host(rt: HostRuntime) -> Result<(), Fail> {
    let dir = env::temp_dir(&rt)?;
    let own = format!(in rt.alloc(); "pcc_tests-{}", process::id(rt.process()))?;
    let path = dir.as_path().join(rt.alloc(), own.as_str())?;
    fs::write(&rt, path.as_path(), b"abcd")?;
    let name = path.as_path().to_str().ok_or("a path that is text")?;
    let found = read_places(&mut HostFiles::new(rt.clone()?), name);
    assert_eq!(rt; found, ([Ok(3), Ok(0), Err(Failed)], *b"bcd"));
    fs::remove_file(&rt, path.as_path())?;
    Ok(())
}
