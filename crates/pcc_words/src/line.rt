//! Command lines.
ghost use Rattle.std.specs.Prelude.{◌≡◌, IfOk, map, string_bytes};
ghost use Rattle.pcc_words.specs.Line.{line_of};
ghost use Rattle.clap.specs.Words.{app_of};
ghost use Rattle.pcc_words.specs.Clap.{names_command};
ghost use Rattle.pcc_words.specs.Seen.{HasRanges, line_seen};

use crate::app::poolcc;
use crate::matches::line_found;
use clap::Command;
use clap::error::ErrorKind;
use std::alloc::{AllocError, Global};

/// How large the memory of a built program may grow.
#[derive(Clone, Copy, Debug, PartialEq, Eq)]
pub struct Limits {
    /// How many slabs it may have.
    pub slabs: u32,
    /// The last index that it may give to an object.
    pub index: u32,
}

/// What the words say. A file is named by its word.
#[derive(Clone, Copy, Debug, PartialEq, Eq)]
pub enum Line<'a> {
    /// The second word is missing or is no command.
    NoCommand,
    /// The command is known, and the rest is no line of it.
    NoLine,
    /// `build FILE`: compile it.
    Build {
        file: &'a str,
        limits: Limits,
        /// All objects come from one pool.
        one_pool: bool,
    },
    /// `exec FILE`: compile it, and run the program on its machine.
    Exec {
        file: &'a str,
        limits: Limits,
        /// All objects come from one pool.
        one_pool: bool,
        steps: u64,
    },
    /// `run FILE`: run a program that was compiled before.
    Run {
        file: &'a str,
        steps: u64,
    },
    /// `ref FILE`: run the text by the meaning of the language.
    Ref {
        file: &'a str,
        steps: u64,
    },
    /// `graph FILE`: write the heap graphs of a text's code.
    Graph {
        file: &'a str,
    },
}

/// Reads a command line, the program's name first. It fails only for want of memory.
///
/// Options stand before the file or behind it, as `--steps 5` or `--steps=5`, each at most once. A word that begins
/// with `-` is no file, unless it is `-` alone or stands behind `--`.
pub fn read_line<'a>(alloc: Global, words: &'a [String]) -> Result<Line<'a>, AllocError>
    ensures says { IfOk result (λ line. line_seen line ≡ line_of (map string_bytes words.entry.now)) }
    ensures ranges { IfOk result HasRanges }
{
    let command = poolcc(alloc)?;
    let is_command = names_command(&command, words);
    match command.try_get_matches_from(words) {
        Ok(matches) => Ok(line_found(&matches)),
        Err(error) => match error.kind() {
            ErrorKind::OutOfMemory => Err(AllocError),
            _ if is_command => Ok(Line::NoLine),
            _ => Ok(Line::NoCommand),
        },
    }
}

// Whether the second word is one of the commands.
fn names_command(poolcc: &Command<'_>, words: &[String]) -> bool
    ensures { result ≡ names_command (app_of poolcc.now) (map string_bytes words.now) }
{
    match words {
        [_, command, ..] => poolcc.find_subcommand(command.as_str()).is_some(),
        _ => false,
    }
}
