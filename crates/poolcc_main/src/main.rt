//! The program `poolcc` over the real files, standard input, output and error output.
#![tactic(auto)]

ghost use Rattle.std.specs.Prelude.{◌≡◌, ◌≢◌};

use pcc_outside::{HostFiles, StdSink, StdSource};
use pcc_words::{Status, UsageKind, say};
use poolcc::poolcc;
use std::io::ErrorKind;
use std::process::ExitCode;
use std::{env, io};

/// Does what the command line says.
fn main(rt: HostRuntime) -> ExitCode {
    let mut err = StdSink::new(rt.stderr());
    let status = match words_of(&rt) {
        Ok(words) => {
            let mut files = HostFiles::new(rt);
            let mut input = StdSource::new(rt.stdin());
            let mut out = StdSink::new(rt.stdout());
            poolcc(
                rt.alloc(),
                &words,
                &mut files,
                &mut input,
                &mut out,
                &mut err,
            )
        }
        Err(error) => say(&mut err, answer_without_words(error.kind())),
    };
    ExitCode::from(status.exit_status())
}

// The words of the command line, the program's name first.
fn words_of(rt: &HostRuntime) -> io::Result<Vec<String>> {
    let mut words = Vec::new(rt.alloc());
    for word in env::args(rt)? {
        words.push(word)?;
    }
    Ok(words)
}

// The answer where the words couldn't be read: one of them isn't UTF-8, or memory ran out.
fn answer_without_words(kind: ErrorKind) -> Status
    ensures encoding { kind ≡ ErrorKind.InvalidData → result ≡ Status.Usage UsageKind.Encoding }
    ensures memory_cause { kind ≢ ErrorKind.InvalidData → result ≡ Status.OutOfMemory }
{
    match kind {
        ErrorKind::InvalidData => Status::Usage(UsageKind::Encoding),
        _ => Status::OutOfMemory,
    }
}
