// The functions that calls of a small program may reach.

use crate::programs::{Action, Kind, KindTypes, Program};
use call_graph::Classes;
use std::alloc::{AllocError, Global};
use std::test::Fail;
use tac_ir::{Callee, FunctionId};

const KINDS: [Kind; 6] = [
    Kind::Unary,
    Kind::Nullary,
    Kind::Unary,
    Kind::Unary,
    Kind::Unary,
    Kind::Nullary,
];

/// A program in which addresses are taken by a function, by `start`, and by what a variable holds at first.
fn program(alloc: Global) -> Result<Program, AllocError> {
    let mut program = Program::of(alloc, &KINDS, &[(5, Action::Take(0))])?;
    program.add_to_start(alloc, Action::Take(2))?;
    program.add_pointer(alloc, 3)?;
    Ok(program)
}

/// What is called: a function by its number, or what a pointer points to.
#[derive(Clone, Copy)]
enum Called {
    Function(usize),
    Through(Kind),
}

/// The functions that a call may reach, the first one, and the first of their class where they are reached through a pointer.
struct Row {
    called: Called,
    targets: &'static [FunctionId],
    first: Option<usize>,
    class: Option<usize>,
}

const ROWS: [Row; 4] = [
    // those of the type whose address is taken
    Row {
        called: Called::Through(Kind::Unary),
        targets: &[FunctionId(0), FunctionId(2), FunctionId(3)],
        first: Some(0),
        class: Some(0),
    },
    // none, since no address of such a function is taken
    Row {
        called: Called::Through(Kind::Nullary),
        targets: &[],
        first: None,
        class: None,
    },
    // by name, whether the address is taken or not
    Row {
        called: Called::Function(2),
        targets: &[FunctionId(2)],
        first: Some(2),
        class: None,
    },
    Row {
        called: Called::Function(4),
        targets: &[FunctionId(4)],
        first: Some(4),
        class: None,
    },
];

fn callee(types: KindTypes, called: Called) -> Callee {
    match called {
        Called::Function(number) => Callee::Function(FunctionId(number)),
        Called::Through(kind) => types.through(kind),
    }
}

#[test]
fn calls_reach_their_targets(rt: HostRuntime) -> Result<(), Fail> {
    let alloc = rt.alloc();
    let program = program(alloc)?;
    let classes = Classes::of_program(alloc, &program.tac)?;
    for (number, row) in ROWS.iter().enumerate() {
        assert!(rt; is_reached(alloc, &program, &classes, row)?, "row {number}");
    }
    Ok(())
}

fn is_reached(
    alloc: Global,
    program: &Program,
    classes: &Classes,
    row: &Row,
) -> Result<bool, AllocError> {
    let callee = callee(program.types, row.called);
    let targets = classes.targets(alloc, &program.tac, callee)?;
    Ok(
        targets.as_slice() == row.targets
            && classes.first_target(&program.tac, callee) == row.first
            && classes.class_of(&program.tac, callee) == row.class,
    )
}
