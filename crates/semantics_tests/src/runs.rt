// Programs whose units were counted by hand: one as each expression, each statement and a function's body is entered.

ghost use Rattle.c_typed.specs.DefinitionViews.{program_of, ProgramStands};
ghost use Rattle.c_typed.specs.Programs.{IsWellTyped};
ghost use Rattle.c_typed.specs.Sizes.{HasStorableTypes};
ghost use Rattle.ref_meaning.specs.Running.{IsConsistentUnlessOver};

use crate::sources::program;
use c_typed::Program;
use pcc_outside::{MemSource, NullSink};
use ref_meaning::{RefEnd, RefRun};
use run_theory::{Pos, UbKind};
use std::alloc::{AllocError, Global};
use std::process::Abort;
use std::test::Fail;

/// How many units a run may spend from here on, its end, and how many it has spent then.
type Turn = (u64, RefEnd, u64);

/// A program, its input, its run in turns, and what is left of the input.
struct Row {
    text: &'static str,
    input: &'static [u8],
    turns: &'static [Turn],
    left: &'static [u8],
}

const DIVIDED_BY_ZERO: RefEnd = RefEnd::Undefined(
    UbKind::U02,
    Pos {
        line: 1,
        column: 25,
    },
);

const ROWS: [Row; 4] = [
    // an end is answered again
    Row {
        text: "int main(void) { return getchar(); }",
        input: b"AB",
        turns: &[
            (3, RefEnd::StepsSpent, 3),
            (3, RefEnd::Ended(65), 4),
            (3, RefEnd::Ended(65), 4),
        ],
        left: b"B",
    },
    // undefined behaviour, too
    Row {
        text: "int main(void) { return 1 / 0; }",
        input: b"",
        turns: &[(5, DIVIDED_BY_ZERO, 5), (0, DIVIDED_BY_ZERO, 5)],
        left: b"",
    },
    // a loop spends all units
    Row {
        text: "int main(void) { while (1) ; }",
        input: b"",
        turns: &[(10, RefEnd::StepsSpent, 10), (5, RefEnd::StepsSpent, 15)],
        left: b"",
    },
    // a parameter holds its argument
    Row {
        text: "int f(int a) { return a; } int main(void) { return f(7); }",
        input: b"",
        turns: &[(7, RefEnd::StepsSpent, 7), (1, RefEnd::Ended(7), 8)],
        left: b"",
    },
];

/// The run has these turns.
fn has_turns(rt: &impl Abort, run: &mut RefRun<'_>, input: &mut MemSource, turns: &[Turn])
    requires { IsConsistentUnlessOver run.old }
{
    for (units, end, spent) in turns {
        assert!(rt; run.spent <= 1000 && *units <= 1000);
        let found = run.run(input, &mut NullSink, *units);
        assert_eq!(rt; (found, run.spent), (*end, *spent));
    }
}

fn runs(rt: &impl Abort, alloc: Global, program: &Program, row: &Row) -> Result<(), AllocError>
    requires stand { ProgramStands program.now }
    requires well_typed { IsWellTyped (program_of program.now) }
    requires storable { HasStorableTypes (program_of program.now) }
{
    let mut run = RefRun::new(alloc, program)?;
    let mut input = MemSource::new(Vec::from_slice(alloc, row.input)?, Vec::new(alloc), 1);
    has_turns(rt, &mut run, &mut input, row.turns);
    assert_eq!(rt; input.left(), row.left);
    Ok(())
}

#[test]
fn programs_run_in_turns(rt: HostRuntime) -> Result<(), Fail> {
    let alloc = rt.alloc();
    for row in &ROWS {
        let program = program(alloc, row.text)?;
        runs(&rt, alloc, &program, row)?;
    }
    Ok(())
}

#[test]
fn ends_are_told_apart(rt: HostRuntime) {
    assert!(rt; RefEnd::Ended(1) != RefEnd::Depth);
}
