use run_theory::{Pos, TrapKind, UbKind};
use std::test::Fail;

// In `a`, newline, tab, `b` the `b` stands at 2:2.
#[test]
fn counts_lines_and_columns(rt: HostRuntime) {
    let start = Pos::start();
    let second = start.after(b'a');
    let below = second.after(b'\n');
    let last = below.after(b'\t');
    let found = [start, second, below, last].map(|place| (place.line, place.column));
    assert_eq!(rt; found, [(1, 1), (1, 2), (2, 1), (2, 2)]);
    assert!(rt; second < below);
}

#[test]
fn prints_ends(rt: HostRuntime) -> Result<(), Fail> {
    let place = Pos {
        line: 12,
        column: 5,
    };
    let text = format!(in rt.alloc(); "{} at {place}, {}", UbKind::U06, TrapKind::StackFull)?;
    assert_eq!(rt; text.as_str(), "U06 at 12:5, StackFull");
    Ok(())
}
