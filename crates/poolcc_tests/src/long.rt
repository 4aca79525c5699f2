// Texts at limits and beyond them.

use crate::commands::{EXEC, NONE, answer};
use std::alloc::{AllocError, Global};

/// Pieces of a text, and how often each stands; `#` in a piece is the number of its turn in three letters.
type Pieces = &'static [(&'static str, u32)];

// Texts and their answers. At most 200 nodes lie on one path: the body, the statement, the parentheses and the constant.
const TEXTS: [(Pieces, &str); 15] = [
    (
        &[
            ("int main(void) { return 0; }", 1),
            ("void f#(void){}", 4096),
        ],
        "241: refused L1 count 4097",
    ),
    (
        &[
            ("void f(int", 1),
            (",int", 64),
            ("); int main(void) { return 0; }", 1),
        ],
        "241: refused L2 count 65",
    ),
    (
        &[
            ("void f(int", 1),
            (",int", 63),
            ("); int main(void) { return 0; }", 1),
        ],
        "0",
    ),
    (
        &[
            ("struct s {", 1),
            ("int m#;", 1024),
            ("int n;}; int main(void) { return 0; }", 1),
        ],
        "241: refused L3 count 1025",
    ),
    (
        &[
            ("struct s {", 1),
            ("int m#;", 1024),
            ("}; int main(void) { return 0; }", 1),
        ],
        "0",
    ),
    (
        &[("char a[1048577];int main(void) { return 0; }", 1)],
        "241: refused L4 count 1048577",
    ),
    (&[("char a[1048576];int main(void) { return 0; }", 1)], "0"),
    (
        &[("int main(void) { char a[1048576]; int i; return 0; }", 1)],
        "241: refused L5 count 1048584",
    ),
    (&[("int main(void) { char a[1048576]; return 0; }", 1)], "0"),
    (
        &[
            ("char g#[1048576];", 1024),
            ("char c;int main(void) { return 0; }", 1),
        ],
        "241: refused L6 count 1073741832",
    ),
    (
        &[
            ("char g#[1048576];", 1024),
            ("int main(void) { return 0; }", 1),
        ],
        "0",
    ),
    (
        &[
            ("int main(void) { return ", 1),
            ("(", 197),
            ("7", 1),
            (")", 197),
            ("; }", 1),
        ],
        "7",
    ),
    (
        &[
            ("int main(void) { return ", 1),
            ("(", 198),
            ("7", 1),
            (")", 198),
            ("; }", 1),
        ],
        "241: refused nesting at 1:222",
    ),
    (
        &[("int main(void) { int ", 1), ("a", 256), ("; }", 1)],
        "241: refused NameTooLong at 1:22",
    ),
    (&[(" ", 1_048_577)], "242: source too long"),
];

// A text of 1,048,576 bytes.
const LARGEST: Pieces = &[
    ("int main(void) {int x = 0; int n = 0;\n", 1),
    ("x = x + 1; if (x > 9) { x = 0; n = n + 1; }\n", 10_000),
    ("putchar('z'); return n % 7; }", 1),
    (" ", 1_048_576 - 38 - 440_000 - 29),
];

const LETTERS: [char; 16] = [
    'a', 'b', 'c', 'd', 'e', 'f', 'g', 'h', 'i', 'j', 'k', 'l', 'm', 'n', 'o', 'p',
];

/// The number below 4,096 in three letters.
fn push_letters(text: &mut String, number: u32) -> Result<(), AllocError> {
    for place in [256, 16, 1] {
        text.push(LETTERS[(number / place % 16) as usize])?;
    }
    Ok(())
}

fn push_times(text: &mut String, piece: &str, times: u32) -> Result<(), AllocError> {
    for turn in 0..times {
        match piece.split_once("#") {
            Some((before, behind)) => {
                text.push_str(before)?;
                push_letters(text, turn)?;
                text.push_str(behind)?;
            }
            None => text.push_str(piece)?,
        }
    }
    Ok(())
}

/// What a text of such pieces is answered.
fn answer_to(alloc: Global, pieces: Pieces) -> Result<String, AllocError> {
    let mut text = String::new(alloc);
    for (piece, times) in pieces {
        push_times(&mut text, piece, *times)?;
    }
    answer(alloc, EXEC, text.as_str().as_bytes(), b"", NONE)
}

/// The first text that is answered otherwise, by its number, and that answer.
fn first_wrong(alloc: Global, rows: &[(Pieces, &str)]) -> Result<Option<String>, AllocError> {
    for (index, (pieces, wanted)) in rows.iter().enumerate() {
        let found = answer_to(alloc, pieces)?;
        if found.as_str() != *wanted {
            return Ok(Some(format!(in alloc; "text {index}: {found}")?));
        }
    }
    Ok(None)
}

#[test]
fn limits_are_told(rt: HostRuntime) -> Result<(), AllocError> {
    assert_eq!(rt; first_wrong(rt.alloc(), &TEXTS)?, None);
    Ok(())
}

#[test]
fn the_largest_source_is_run(rt: HostRuntime) -> Result<(), AllocError> {
    assert_eq!(rt; first_wrong(rt.alloc(), &[(LARGEST, "6, writes z")])?, None);
    Ok(())
}
