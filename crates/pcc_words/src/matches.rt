//! What a parse that succeeds found.
ghost use Rattle.std.specs.Prelude.{◌≡◌};
ghost use Rattle.clap.specs.Words.{found_of, rows_of, subcommand_rows_of};
ghost use Rattle.pcc_words.specs.Line.{OnePool, Steps};
ghost use Rattle.pcc_words.specs.Found.{flag_found, found_line, found_number, limits_found};
ghost use Rattle.pcc_words.specs.Seen.{limits_seen, line_seen};

use crate::line::{Limits, Line};
use clap::ArgMatches;

const DEFAULT_STEPS: u64 = 1_000_000_000;

const DEFAULT_SLABS: u32 = 65_536;

const DEFAULT_INDEX: u32 = 4_294_967_295;

/// The line that was found.
pub(crate) fn line_found<'a>(matches: &ArgMatches<'a>) -> Line<'a>
    ensures { line_seen result ≡ found_line (subcommand_rows_of matches.now) }
{
    let Some((name, found)) = matches.subcommand() else {
        return Line::NoCommand;
    };
    let Some(file) = found.get_str("file") else {
        return Line::NoLine;
    };
    match name {
        "build" => Line::Build {
            file,
            limits: limits_in(found),
            one_pool: one_pool_in(found),
        },
        "exec" => Line::Exec {
            file,
            limits: limits_in(found),
            one_pool: one_pool_in(found),
            steps: steps_in(found),
        },
        "run" => Line::Run {
            file,
            steps: steps_in(found),
        },
        "ref" => Line::Ref {
            file,
            steps: steps_in(found),
        },
        "graph" => Line::Graph { file },
        _ => Line::NoCommand,
    }
}

fn limits_in(found: &ArgMatches<'_>) -> Limits
    ensures { limits_seen result ≡ limits_found (rows_of (found_of found.now)) }
{
    Limits {
        slabs: found.get_one("slabs").unwrap_or(DEFAULT_SLABS),
        index: found.get_one("index").unwrap_or(DEFAULT_INDEX),
    }
}

fn one_pool_in(found: &ArgMatches<'_>) -> bool
    ensures { result ≡ flag_found OnePool (rows_of (found_of found.now)) }
{
    found.contains_id("one-pool")
}

fn steps_in(found: &ArgMatches<'_>) -> u64
    ensures { result ≡ found_number 64 Steps (rows_of (found_of found.now)) }
{
    found.get_one("steps").unwrap_or(DEFAULT_STEPS)
}
