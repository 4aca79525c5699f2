// The groups of small programs, and of long ones.

use crate::known_calls::calls_are_known;
use crate::programs::Action::{Call, CallThrough, Take};
use crate::programs::{Action, Kind, Program};
use call_graph::{Groups, groups};
use std::alloc::{AllocError, Global};
use std::test::Fail;
use tac_ir::FunctionId;

const NULLARY: Kind = Kind::Nullary;

const UNARY: Kind = Kind::Unary;

/// What the functions of a program do, and the number of each function's group.
struct Row {
    kinds: &'static [Kind],
    actions: &'static [(usize, Action)],
    group_of: &'static [usize],
}

const ROWS: [Row; 11] = [
    // one function
    Row {
        kinds: &[NULLARY],
        actions: &[],
        group_of: &[0],
    },
    // one that calls itself
    Row {
        kinds: &[NULLARY, NULLARY],
        actions: &[(0, Call(0)), (1, Call(0))],
        group_of: &[0, 1],
    },
    // callees come first
    Row {
        kinds: &[NULLARY, NULLARY, NULLARY],
        actions: &[(0, Call(1)), (2, Call(0))],
        group_of: &[1, 0, 2],
    },
    // the order is that of the text, not that of calls
    Row {
        kinds: &[NULLARY, NULLARY, NULLARY],
        actions: &[(2, Call(1)), (2, Call(0))],
        group_of: &[0, 1, 2],
    },
    // a function that has to wait lets later ones go first
    Row {
        kinds: &[NULLARY, NULLARY, NULLARY, NULLARY],
        actions: &[(0, Call(2)), (3, Call(0)), (3, Call(1))],
        group_of: &[2, 0, 1, 3],
    },
    // two functions that call each other
    Row {
        kinds: &[NULLARY, NULLARY, NULLARY],
        actions: &[(0, Call(1)), (1, Call(0)), (2, Call(0))],
        group_of: &[0, 0, 1],
    },
    // three that call each other in turn, and one between them that calls none
    Row {
        kinds: &[NULLARY, NULLARY, NULLARY, NULLARY, NULLARY],
        actions: &[
            (0, Call(3)),
            (1, Call(0)),
            (1, Call(2)),
            (3, Call(1)),
            (4, Call(3)),
        ],
        group_of: &[1, 1, 0, 1, 2],
    },
    // two that one call may reach
    Row {
        kinds: &[NULLARY, NULLARY, NULLARY, NULLARY],
        actions: &[(3, Take(0)), (3, Take(2)), (3, CallThrough(NULLARY))],
        group_of: &[0, 1, 0, 2],
    },
    // two that no call may reach
    Row {
        kinds: &[NULLARY, NULLARY, NULLARY],
        actions: &[(2, Take(0)), (2, Take(1)), (2, Call(0))],
        group_of: &[0, 1, 2],
    },
    // two of a type through which none calls, beside two that one call may reach
    Row {
        kinds: &[UNARY, NULLARY, UNARY, NULLARY, NULLARY],
        actions: &[
            (4, Take(0)),
            (4, Take(1)),
            (4, Take(2)),
            (4, Take(3)),
            (4, CallThrough(NULLARY)),
        ],
        group_of: &[0, 1, 2, 1, 3],
    },
    // two that one call may reach, of which one calls the function with that call
    Row {
        kinds: &[NULLARY, NULLARY, NULLARY],
        actions: &[
            (1, Call(2)),
            (2, Take(0)),
            (2, Take(1)),
            (2, CallThrough(NULLARY)),
        ],
        group_of: &[0, 0, 0],
    },
];

#[test]
fn groups_stand_in_their_order(rt: HostRuntime) -> Result<(), Fail> {
    for (number, row) in ROWS.iter().enumerate() {
        assert!(rt; is_grouped(rt.alloc(), row)?, "row {number}");
    }
    Ok(())
}

/// Whether each function has its number, no number is left out, and each member of a group has its number.
fn is_grouped(alloc: Global, row: &Row) -> Result<bool, AllocError> {
    let made = groups_of(alloc, row.kinds, row.actions)?;
    let last = row.group_of.iter().copied().max();
    Ok(
        made.group_of.as_slice() == row.group_of
            && made.members.len().checked_sub(1) == last
            && are_members(&made),
    )
}

/// How many functions there are in a long program.
const COUNT: usize = 4096;

/// A long program, each function of which calls the next one: whether the last one calls the first, how many groups there are, and the number
/// of the first one's.
struct LongRow {
    is_cycle: bool,
    groups: usize,
    first: usize,
}

const LONG_ROWS: [LongRow; 2] = [
    LongRow {
        is_cycle: false,
        groups: COUNT,
        first: COUNT - 1,
    },
    LongRow {
        is_cycle: true,
        groups: 1,
        first: 0,
    },
];

#[test]
fn many_functions_call_the_next_one(rt: HostRuntime) -> Result<(), Fail> {
    for row in &LONG_ROWS {
        assert!(rt; is_long_grouped(rt.alloc(), row)?, "{} groups", row.groups);
    }
    Ok(())
}

fn is_long_grouped(alloc: Global, row: &LongRow) -> Result<bool, AllocError> {
    let made = long_groups(alloc, row.is_cycle)?;
    Ok(
        made.members.len() == row.groups
            && made.group_of.first().copied() == Some(row.first)
            && made.group_of.last().copied() == Some(0)
            && are_members(&made),
    )
}

/// The groups of a long program.
fn long_groups(alloc: Global, is_cycle: bool) -> Result<Groups, AllocError> {
    let kinds = Vec::from_elem(alloc, NULLARY, COUNT)?;
    let mut actions = Vec::new(alloc);
    for number in 1..COUNT {
        actions.push((number - 1, Call(number)))?;
    }
    if is_cycle {
        actions.push((COUNT - 1, Call(0)))?;
    }
    groups_of(alloc, kinds.as_slice(), actions.as_slice())
}

fn groups_of(
    alloc: Global,
    kinds: &[Kind],
    actions: &[(usize, Action)],
) -> Result<Groups, AllocError> {
    let program = Program::of(alloc, kinds, actions)?;
    if !calls_are_known(&program.tac) {
        return Err(AllocError);
    }
    groups(alloc, &program.tac)
}

/// Whether each member of a group has its number.
fn are_members(made: &Groups) -> bool {
    for (number, members) in made.members.iter().enumerate() {
        if !have_number(made, members.as_slice(), number) {
            return false;
        }
    }
    true
}

fn have_number(made: &Groups, members: &[FunctionId], number: usize) -> bool {
    for member in members {
        if made.group_of.get(member.0).copied() != Some(number) {
            return false;
        }
    }
    true
}
