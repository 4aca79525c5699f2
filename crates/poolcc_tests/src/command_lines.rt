// Command lines, and calls that fail.

use crate::commands::{BUILD, EXEC, Failing, NONE, REF, answer, wrong};
use std::alloc::{AllocError, Global};

const USAGE: &str = "usage: poolcc build|run|exec|ref|graph|report FILE [options] or poolcc demo N";

const NO_COMMANDS: [&str; 2] = ["poolcc", "poolcc frob x"];

// Lines whose command is known, and whose other words are none of its.
const NO_LINES: [&str; 39] = [
    "poolcc exec",
    "poolcc exec -x",
    "poolcc exec a.c b.c",
    "poolcc ref",
    "poolcc exec a.c --steps 4611686018427387905",
    "poolcc exec a.c --steps 18446744073709551624",
    "poolcc exec a.c --steps 0",
    "poolcc exec a.c --steps -8",
    "poolcc exec a.c --steps ",
    "poolcc exec a.c --steps 8x",
    "poolcc exec a.c --steps",
    "poolcc exec a.c --step 8",
    "poolcc exec a.c --steps 8 --steps 8",
    "poolcc build a.c --slabs 0",
    "poolcc build a.c --slabs 1 --slabs 1",
    "poolcc build a.c --slabs 1048577",
    "poolcc build a.c --index 0",
    "poolcc build a.c --index 4294967296",
    "poolcc build a.c --index 1 --index 1",
    "poolcc build a.c --steps 1",
    "poolcc build a.c --slabs",
    "poolcc build a.c --slabs 1 --index",
    "poolcc exec a.c --slabs 1 --steps 7 --slabs 1",
    "poolcc exec a.c --slabs 0 --steps 7",
    "poolcc run a.c --slabs 1",
    "poolcc run a.c --index 1",
    "poolcc run a.c --steps 0",
    "poolcc ref a.c --slabs 1",
    "poolcc ref a.c --steps 9 --index 1",
    "poolcc build",
    "poolcc build --steps 9",
    "poolcc run",
    "poolcc run --steps 9",
    "poolcc exec a.c --one-pool --one-pool",
    "poolcc exec a.c --one-pool=true",
    "poolcc exec --one-pool",
    "poolcc build a.c --one-pools",
    "poolcc run a.c --one-pool",
    "poolcc ref --one-pool a.c",
];

// `return 0;` takes 14 steps: three to make the pool; the address of the register for what `main` returns, the pool's number in two, and the
// call; 0, its conversion to the type of main, and the return; the store of what was returned; and three to exit with it.
const OPTIONS: [(&str, Failing, &str); 16] = [
    (
        "poolcc exec a.c --steps 1000",
        NONE,
        "int main(void) { while (1) ; } => 250: steps spent",
    ),
    (
        "poolcc exec a.c --steps 14",
        NONE,
        "int main(void) { return 0; } => 0",
    ),
    (
        "poolcc exec a.c --steps 13",
        NONE,
        "int main(void) { return 0; } => 250: steps spent",
    ),
    (
        "poolcc exec a.c --steps +14",
        NONE,
        "int main(void) { return 0; } => 0",
    ),
    (
        "poolcc exec a.c --steps 0014",
        NONE,
        "int main(void) { return 0; } => 0",
    ),
    (
        "poolcc exec a.c --steps 1",
        NONE,
        "int main(void) { return 0; } => 250: steps spent",
    ),
    (
        "poolcc exec a.c --steps 4611686018427387904",
        NONE,
        "int main(void) { return 0; } => 0",
    ),
    (
        "poolcc exec a.c --steps 100 --slabs 1 --index 1",
        NONE,
        "int main(void) { return 3; } => 3",
    ),
    (
        "poolcc exec --one-pool --steps 14 a.c",
        NONE,
        "int main(void) { return 0; } => 0",
    ),
    (
        "poolcc exec a.c --slabs 1 --one-pool --steps 13",
        NONE,
        "int main(void) { return 0; } => 250: steps spent",
    ),
    (
        "poolcc exec a.c --index 1 --steps 7 --slabs 1",
        NONE,
        "int main(void) { return 3; } => 250: steps spent",
    ),
    ("poolcc exec b.c", NONE, " => 251: read fault"),
    ("poolcc ref b.c", NONE, " => 251: read fault"),
    ("poolcc run b.c", NONE, " => 251: read fault"),
    (
        "poolcc ref a.c --steps 1000",
        NONE,
        "int main(void) { while (1) ; } => 250: steps spent",
    ),
    (
        BUILD,
        NONE,
        "int main(void) { return 08; } => 241: refused BadLiteral at 1:25",
    ),
];

// What is written before a fault is a front of the output. The fault of a write comes behind the read of its byte.
const FAULTS: [(&str, Failing, &str); 16] = [
    (
        EXEC,
        Failing { out: 2, ..NONE },
        "int main(void) { putchar('a'); putchar('b'); return getchar(); } <- x => 252: write fault, writes a, leaves x",
    ),
    (
        EXEC,
        Failing { input: 1, ..NONE },
        "int main(void) { putchar('a'); putchar('b'); return getchar(); } <- x => 251: read fault, writes ab, leaves x",
    ),
    (
        EXEC,
        Failing { file: 1, ..NONE },
        "int main(void) { putchar('a'); putchar('b'); return getchar(); } <- x => 251: read fault, leaves x",
    ),
    (
        EXEC,
        Failing {
            file: 1,
            err: 1,
            ..NONE
        },
        "int main(void) { putchar('a'); putchar('b'); return getchar(); } <- x => 251: no line, leaves x",
    ),
    (EXEC, Failing { err: 1, ..NONE }, " => 252: no line"),
    (
        EXEC,
        Failing { input: 1, ..NONE },
        "int main(void) { int c; while ((c = getchar()) != EOF) putchar(c); return 7; } <- ab\n => 251: read fault, leaves ab\n",
    ),
    (
        EXEC,
        Failing { input: 2, ..NONE },
        "int main(void) { int c; while ((c = getchar()) != EOF) putchar(c); return 7; } <- ab\n => 251: read fault, writes a, leaves b\n",
    ),
    (
        EXEC,
        Failing { input: 3, ..NONE },
        "int main(void) { int c; while ((c = getchar()) != EOF) putchar(c); return 7; } <- ab\n => 251: read fault, writes ab, leaves \n",
    ),
    (
        EXEC,
        Failing { input: 4, ..NONE },
        "int main(void) { int c; while ((c = getchar()) != EOF) putchar(c); return 7; } <- ab\n => 251: read fault, writes ab\n",
    ),
    (
        EXEC,
        Failing { out: 1, ..NONE },
        "int main(void) { int c; while ((c = getchar()) != EOF) putchar(c); return 7; } <- ab\n => 252: write fault, leaves b\n",
    ),
    (
        EXEC,
        Failing { out: 2, ..NONE },
        "int main(void) { int c; while ((c = getchar()) != EOF) putchar(c); return 7; } <- ab\n => 252: write fault, writes a, leaves \n",
    ),
    (
        EXEC,
        Failing { out: 3, ..NONE },
        "int main(void) { int c; while ((c = getchar()) != EOF) putchar(c); return 7; } <- ab\n => 252: write fault, writes ab",
    ),
    (
        REF,
        Failing { out: 2, ..NONE },
        "int main(void) { putchar('a'); putchar('b'); return 0; } => 252: write fault, writes a",
    ),
    (
        REF,
        Failing { input: 1, ..NONE },
        "int main(void) { putchar('a'); return getchar(); } <- xy => 251: read fault, writes a, leaves xy",
    ),
    (
        BUILD,
        Failing { out: 3, ..NONE },
        "int main(void) { return 0; } => 252: write fault, writes PA",
    ),
    (
        BUILD,
        Failing { file: 1, ..NONE },
        "int main(void) { return 0; } => 251: read fault",
    ),
];

/// The first row that does not hold.
fn first_wrong_line(
    alloc: Global,
    rows: &[(&str, Failing, &str)],
) -> Result<Option<String>, AllocError> {
    for (line, failing, row) in rows {
        if let Some(found) = wrong(alloc, line, *failing, row)? {
            return Ok(Some(found));
        }
    }
    Ok(None)
}

/// The first line that is not answered with this kind of a usage.
fn first_used<'a>(
    alloc: Global,
    lines: &[&'a str],
    kind: &str,
) -> Result<Option<&'a str>, AllocError> {
    let wanted = format!(in alloc; "{kind}: {USAGE}")?;
    for line in lines {
        let found = answer(alloc, line, b"int main(void) { return 3; }", b"", NONE)?;
        if found != wanted {
            return Ok(Some(line));
        }
    }
    Ok(None)
}

#[test]
fn faulty_words_are_told(rt: HostRuntime) -> Result<(), AllocError> {
    let alloc = rt.alloc();
    assert_eq!(rt; first_used(alloc, &NO_COMMANDS, "Command")?, None);
    assert_eq!(rt; first_used(alloc, &NO_LINES, "Words")?, None);
    Ok(())
}

#[test]
fn options_are_read(rt: HostRuntime) -> Result<(), AllocError> {
    assert_eq!(rt; first_wrong_line(rt.alloc(), &OPTIONS)?, None);
    Ok(())
}

#[test]
fn faults_are_told(rt: HostRuntime) -> Result<(), AllocError> {
    assert_eq!(rt; first_wrong_line(rt.alloc(), &FAULTS)?, None);
    Ok(())
}
