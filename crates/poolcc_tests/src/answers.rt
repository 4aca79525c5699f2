// What is said of each answer.

use pcc_outside::MemSink;
use pcc_words::{
    FuncName, LexKind, LimitKind, Refusal, Status, SyntaxKind, TypeRule, UsageKind, say,
};
use run_theory::{Pos, TrapKind, UbKind};
use std::alloc::{AllocError, Global};

// Answers, each with its exit status and its line.
const ANSWERS: [(Status, u8, &str); 21] = [
    (Status::Done, 0, ""),
    (Status::Program(245), 245, ""),
    (
        Status::Refused(Refusal::TypeRule(TypeRule::T01, Pos { line: 1, column: 1 })),
        241,
        "poolcc: refused T01 at 1:1\n",
    ),
    (
        Status::Refused(Refusal::Lex(
            LexKind::BadLiteral,
            Pos {
                line: 1,
                column: 25,
            },
        )),
        241,
        "poolcc: refused BadLiteral at 1:25\n",
    ),
    (
        Status::Refused(Refusal::Syntax(
            SyntaxKind::At,
            Pos {
                line: 1,
                column: 29,
            },
        )),
        241,
        "poolcc: refused syntax at 1:29\n",
    ),
    (
        Status::Refused(Refusal::Syntax(
            SyntaxKind::TooDeep,
            Pos {
                line: 1,
                column: 222,
            },
        )),
        241,
        "poolcc: refused nesting at 1:222\n",
    ),
    (
        Status::Refused(Refusal::Limit(LimitKind::L1, 4097)),
        241,
        "poolcc: refused L1 count 4097\n",
    ),
    (
        Status::Refused(Refusal::Graph(65_537)),
        241,
        "poolcc: refused graph nodes 65537\n",
    ),
    (
        Status::Undefined(
            UbKind::U06,
            Pos {
                line: 1,
                column: 72,
            },
        ),
        245,
        "poolcc: undefined U06 at 1:72\n",
    ),
    (
        Status::Trapped(TrapKind::BadAccess),
        246,
        "poolcc: trap BadAccess\n",
    ),
    (
        Status::Usage(UsageKind::Words),
        240,
        "poolcc: usage: poolcc build|run|exec|ref|graph|report FILE [options] or poolcc demo N\n",
    ),
    (Status::SourceTooLong, 242, "poolcc: source too long\n"),
    (Status::ImageTooLong, 243, "poolcc: image too long\n"),
    (Status::BadImage(24), 244, "poolcc: bad image at 24\n"),
    (Status::Depth, 247, "poolcc: call depth reached\n"),
    (Status::HeapExhausted, 248, "poolcc: heap exhausted\n"),
    (
        Status::IndexExhausted,
        249,
        "poolcc: pool index exhausted\n",
    ),
    (Status::StepsSpent, 250, "poolcc: steps spent\n"),
    (Status::ReadFault, 251, "poolcc: read fault\n"),
    (Status::WriteFault, 252, "poolcc: write fault\n"),
    (Status::OutOfMemory, 253, "poolcc: out of memory\n"),
];

// Answers that are said where the third call fails, behind two of four bytes each; what they become, and what is written.
const FAILING: [(Status, Status, &str); 4] = [
    (Status::Depth, Status::WriteFault, "poolcc: "),
    (Status::ReadFault, Status::ReadFault, "poolcc: "),
    (Status::WriteFault, Status::WriteFault, "poolcc: "),
    (Status::Program(3), Status::Program(3), ""),
];

/// Saying the answer gives that status and writes that line.
fn is_said(mut err: MemSink, answer: Status, becomes: Status, line: &str) -> bool {
    say(&mut err, answer) == becomes && err.bytes() == line.as_bytes()
}

/// The first line that isn't said so.
fn first_unlike(alloc: Global) -> Result<Option<&'static str>, AllocError> {
    for (answer, exit_status, line) in &ANSWERS {
        let err = MemSink::new(alloc, 100, Vec::new(alloc), 7)?;
        if !is_said(err, *answer, *answer, line) || answer.exit_status() != *exit_status {
            return Ok(Some(line));
        }
    }
    Ok(None)
}

/// The first of those answers that becomes another status or writes another line.
fn first_unlike_failing(alloc: Global) -> Result<Option<Status>, AllocError> {
    for (answer, becomes, line) in &FAILING {
        let err = MemSink::new(alloc, 100, [3].to_vec(alloc)?, 4)?;
        if !is_said(err, *answer, *becomes, line) {
            return Ok(Some(*answer));
        }
    }
    Ok(None)
}

#[test]
fn answers_have_their_lines(rt: HostRuntime) -> Result<(), AllocError> {
    let alloc = rt.alloc();
    assert_eq!(rt; first_unlike(alloc)?, None);
    let walk = FuncName::new(b"walk").unwrap();
    let pools = Status::Refused(Refusal::Pools(walk, 257));
    let err = MemSink::new(alloc, 100, Vec::new(alloc), 7)?;
    let is_said = is_said(err, pools, pools, "poolcc: refused pools of walk 257\n");
    assert_eq!(rt; (is_said, pools.exit_status()), (true, 241));
    Ok(())
}

#[test]
fn a_line_that_fails_is_told(rt: HostRuntime) -> Result<(), AllocError> {
    assert_eq!(rt; first_unlike_failing(rt.alloc())?, None);
    Ok(())
}
