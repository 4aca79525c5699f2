// What is read of command lines.

use crate::commands::words_of;
use pcc_words::read_line;
use std::alloc::{AllocError, Global};

// Lines whose second word is no command.
const NO_COMMANDS: [&str; 16] = [
    "poolcc",
    "poolcc frob x",
    "poolcc help",
    "poolcc help exec",
    "poolcc -h",
    "poolcc --help",
    "poolcc -V",
    "poolcc --version",
    "poolcc exe f",
    "poolcc -- exec f",
    "poolcc --steps 1 exec f",
    "poolcc - exec f",
    "poolcc  exec f",
    "poolcc EXEC f",
    "poolcc graphs a.c",
    "",
];

// Lines whose command is known, and whose other words are none of its.
const NO_LINES: [&str; 55] = [
    "poolcc exec",
    "poolcc exec f --steps 0",
    "poolcc exec f --steps 1 --steps 1",
    "poolcc exec f --steps 1 --steps=2",
    "poolcc exec f --step 5",
    "poolcc exec f --steps",
    "poolcc exec --steps f",
    "poolcc exec f --steps=",
    "poolcc exec f --steps -5",
    "poolcc exec f --steps x",
    "poolcc exec f --steps 4611686018427387905",
    "poolcc exec f --steps 18446744073709551617",
    "poolcc exec f --steps ++5",
    "poolcc exec f --steps -- 5",
    "poolcc exec f --slabs 1048577",
    "poolcc exec f --slabs 0",
    "poolcc exec f --index 4294967296",
    "poolcc exec f --index 0",
    "poolcc exec f g",
    "poolcc exec f -- g",
    "poolcc exec -- f --steps 5",
    "poolcc exec -f",
    "poolcc exec f -s 5",
    "poolcc exec --help",
    "poolcc exec f -h",
    "poolcc exec help f",
    "poolcc exec f --file g",
    "poolcc exec f --=5",
    "poolcc exec f --one-pool --one-pool",
    "poolcc build --one-pool f --one-pool",
    "poolcc exec f --one-pool=x",
    "poolcc exec f --one-pool=",
    "poolcc build f --one-pool=true",
    "poolcc exec f --one-pool true",
    "poolcc exec f -one-pool",
    "poolcc build f --one-poo",
    "poolcc exec f --one-pools",
    "poolcc exec --one-pool",
    "poolcc exec f --steps --one-pool",
    "poolcc exec f -- --one-pool",
    "poolcc run f --slabs 1",
    "poolcc run f --index 1",
    "poolcc run f --one-pool",
    "poolcc ref f --slabs 1",
    "poolcc ref --one-pool f",
    "poolcc build f --steps 1",
    "poolcc build",
    "poolcc ref",
    "poolcc run --",
    "poolcc graph",
    "poolcc graph --",
    "poolcc graph a.c b.c",
    "poolcc graph a.c --steps 5",
    "poolcc graph a.c --slabs 1",
    "poolcc graph a.c --one-pool",
];

// Lines, and what is read of them.
const LINES: [&str; 35] = [
    "poolcc exec f => Exec { file: \"f\", limits: Limits { slabs: 65536, index: 4294967295 }, one_pool: false, steps: 1000000000 }",
    "x exec f --steps 5 => Exec { file: \"f\", limits: Limits { slabs: 65536, index: 4294967295 }, one_pool: false, steps: 5 }",
    "poolcc exec f --steps=5 => Exec { file: \"f\", limits: Limits { slabs: 65536, index: 4294967295 }, one_pool: false, steps: 5 }",
    "poolcc exec --steps 5 f => Exec { file: \"f\", limits: Limits { slabs: 65536, index: 4294967295 }, one_pool: false, steps: 5 }",
    "poolcc exec --steps=5 f => Exec { file: \"f\", limits: Limits { slabs: 65536, index: 4294967295 }, one_pool: false, steps: 5 }",
    "poolcc exec --steps 5 -- -f => Exec { file: \"-f\", limits: Limits { slabs: 65536, index: 4294967295 }, one_pool: false, steps: 5 }",
    "poolcc exec -- -- => Exec { file: \"--\", limits: Limits { slabs: 65536, index: 4294967295 }, one_pool: false, steps: 1000000000 }",
    "poolcc exec f -- => Exec { file: \"f\", limits: Limits { slabs: 65536, index: 4294967295 }, one_pool: false, steps: 1000000000 }",
    "poolcc exec - => Exec { file: \"-\", limits: Limits { slabs: 65536, index: 4294967295 }, one_pool: false, steps: 1000000000 }",
    "poolcc exec  => Exec { file: \"\", limits: Limits { slabs: 65536, index: 4294967295 }, one_pool: false, steps: 1000000000 }",
    "poolcc exec exec => Exec { file: \"exec\", limits: Limits { slabs: 65536, index: 4294967295 }, one_pool: false, steps: 1000000000 }",
    "poolcc exec help => Exec { file: \"help\", limits: Limits { slabs: 65536, index: 4294967295 }, one_pool: false, steps: 1000000000 }",
    "poolcc exec f --steps +5 => Exec { file: \"f\", limits: Limits { slabs: 65536, index: 4294967295 }, one_pool: false, steps: 5 }",
    "poolcc exec f --steps 005 => Exec { file: \"f\", limits: Limits { slabs: 65536, index: 4294967295 }, one_pool: false, steps: 5 }",
    "poolcc exec f --steps 4611686018427387904 => Exec { file: \"f\", limits: Limits { slabs: 65536, index: 4294967295 }, one_pool: false, steps: 4611686018427387904 }",
    "poolcc exec f --slabs 1 --steps 2 --index=3 => Exec { file: \"f\", limits: Limits { slabs: 1, index: 3 }, one_pool: false, steps: 2 }",
    "poolcc exec f --one-pool => Exec { file: \"f\", limits: Limits { slabs: 65536, index: 4294967295 }, one_pool: true, steps: 1000000000 }",
    "poolcc exec --one-pool f => Exec { file: \"f\", limits: Limits { slabs: 65536, index: 4294967295 }, one_pool: true, steps: 1000000000 }",
    "poolcc exec --steps 5 --one-pool f => Exec { file: \"f\", limits: Limits { slabs: 65536, index: 4294967295 }, one_pool: true, steps: 5 }",
    "poolcc exec --one-pool f --steps=5 => Exec { file: \"f\", limits: Limits { slabs: 65536, index: 4294967295 }, one_pool: true, steps: 5 }",
    "poolcc exec --one-pool -- --one-pool => Exec { file: \"--one-pool\", limits: Limits { slabs: 65536, index: 4294967295 }, one_pool: true, steps: 1000000000 }",
    "poolcc exec -- --one-pool => Exec { file: \"--one-pool\", limits: Limits { slabs: 65536, index: 4294967295 }, one_pool: false, steps: 1000000000 }",
    "poolcc build f --slabs 1 --index 3 => Build { file: \"f\", limits: Limits { slabs: 1, index: 3 }, one_pool: false }",
    "poolcc build --index 3 f --slabs 1 => Build { file: \"f\", limits: Limits { slabs: 1, index: 3 }, one_pool: false }",
    "poolcc build --index 3 --one-pool f --slabs 1 => Build { file: \"f\", limits: Limits { slabs: 1, index: 3 }, one_pool: true }",
    "poolcc build f --one-pool --index 3 --slabs 1 => Build { file: \"f\", limits: Limits { slabs: 1, index: 3 }, one_pool: true }",
    "poolcc build f --slabs 1048576 --index 4294967295 => Build { file: \"f\", limits: Limits { slabs: 1048576, index: 4294967295 }, one_pool: false }",
    "poolcc build f => Build { file: \"f\", limits: Limits { slabs: 65536, index: 4294967295 }, one_pool: false }",
    "poolcc build one-pool => Build { file: \"one-pool\", limits: Limits { slabs: 65536, index: 4294967295 }, one_pool: false }",
    "poolcc run f => Run { file: \"f\", steps: 1000000000 }",
    "poolcc run --steps 7 f => Run { file: \"f\", steps: 7 }",
    "poolcc ref f => Ref { file: \"f\", steps: 1000000000 }",
    "poolcc ref f --steps 7 => Ref { file: \"f\", steps: 7 }",
    "poolcc graph a.c => Graph { file: \"a.c\" }",
    "poolcc graph -- -a.c => Graph { file: \"-a.c\" }",
];

/// What is read of the words, as it is shown for debugging.
fn shown(alloc: Global, words: &[String]) -> Result<String, AllocError> {
    let line = read_line(alloc, words)?;
    format!(in alloc; "{line:?}")
}

/// This is read of the line.
fn is_read(alloc: Global, line: &str, wanted: &str) -> Result<bool, AllocError> {
    let words = words_of(alloc, line)?;
    let found = shown(alloc, words.as_slice())?;
    Ok(found.as_str() == wanted)
}

/// The first line of which another is read than this.
fn first_unlike<'a>(
    alloc: Global,
    lines: &[&'a str],
    wanted: &str,
) -> Result<Option<&'a str>, AllocError> {
    for line in lines {
        if !is_read(alloc, line, wanted)? {
            return Ok(Some(line));
        }
    }
    Ok(None)
}

/// The first row of which another is read than stands behind the line.
fn first_misread<'a>(alloc: Global, rows: &[&'a str]) -> Result<Option<&'a str>, AllocError> {
    for row in rows {
        let (line, wanted) = row.split_once(" => ").unwrap_or((row, ""));
        if !is_read(alloc, line, wanted)? {
            return Ok(Some(row));
        }
    }
    Ok(None)
}

#[test]
fn lines_are_told_from_others(rt: HostRuntime) -> Result<(), AllocError> {
    let alloc = rt.alloc();
    assert_eq!(rt; first_unlike(alloc, &NO_COMMANDS, "NoCommand")?, None);
    assert_eq!(rt; first_unlike(alloc, &NO_LINES, "NoLine")?, None);
    assert_eq!(rt; shown(alloc, &[])?.as_str(), "NoCommand");
    Ok(())
}

#[test]
fn lines_are_read(rt: HostRuntime) -> Result<(), AllocError> {
    assert_eq!(rt; first_misread(rt.alloc(), &LINES)?, None);
    Ok(())
}
