// The first group of which something that is asked doesn't hold.

ghost use Rattle.std.specs.Prelude.{◌≡◌, ℕ, ◌<◌, ◌↔◌, true, length, All, MatchOption, IfOk};
ghost use Rattle.call_graph.specs.ClassLists.{numbers_of};
ghost use Rattle.heap_graph.specs.Closed.{Closed, group_of};
ghost use Rattle.heap_graph.specs.Faults.{GroupClosed, StartClosed, IsFirstFault};
ghost use Rattle.graph_checker.specs.Programs.{family_of};
ghost use Rattle.graph_checker.specs.Fits.{IsFit, SoundBefore};
ghost use Rattle.graph_checker.specs.Members.{AreMembersClosed};
ghost use Rattle.call_graph.specs.GroupViews.{groups_of};
ghost use Rattle.heap_graph.specs.Programs.{family_in};

use crate::first::first_closed;
use crate::graphs::{group_graph_closed, start_graph_closed};
use crate::program::Program;
use call_graph::Groups;
use heap_graph::ProgramGraphs;
use std::alloc::{AllocError, Global};
use tac_ir::{FunctionId, Tac};

/// The first group of which something that is asked doesn't hold; none where that is `start`.
#[derive(Clone, Copy, Debug, PartialEq, Eq)]
pub struct Fault {
    pub group: Option<usize>,
}

/// The first fault of a program's graphs, if they aren't closed.
pub fn closed_fault(
    alloc: Global,
    tac: &Tac,
    groups: &Groups,
    graphs: &ProgramGraphs,
) -> Result<Option<Fault>, AllocError>
    requires { IsFit (record { tac = tac; groups = groups; graphs = graphs }) }
    ensures { IfOk result (λ found. MatchOption found (Closed (family_in tac.now (groups_of groups.now) graphs.now)) (λ fault. IsFirstFault (family_in tac.now (groups_of groups.now) graphs.now) fault.group)) }
{
    let program = Program {
        tac,
        groups,
        graphs,
    };
    for number in 0..groups.members.len() {
        if !group_closed(alloc, program, number)? {
            return Ok(Some(Fault {
                group: Some(number),
            }));
        }
    }
    if !start_closed(alloc, program)? {
        return Ok(Some(Fault { group: None }));
    }
    Ok(None)
}

/// Whether what is asked of a group and of its graph holds, where it does of the groups before.
fn group_closed(alloc: Global, program: Program<'_>, number: usize) -> Result<bool, AllocError>
    requires program { IsFit program }
    requires within { number < length program.groups.now.members.items }
    requires before { (before : ℕ) → before < number → GroupClosed (family_of program) before }
    ensures { IfOk result (λ closed. (closed ≡ true) ↔ GroupClosed (family_of program.entry) number) }
{
    if !group_graph_closed(alloc, program, number)? {
        return Ok(false);
    }
    let members = program.groups.members[number].as_slice();
    members_closed(alloc, program, number, members)
}

/// Whether what functions of a group ask holds.
fn members_closed(
    alloc: Global,
    program: Program<'_>,
    number: usize,
    members: &[FunctionId],
) -> Result<bool, AllocError>
    requires program { IsFit program }
    requires sound { SoundBefore program number }
    requires within { All (λ member. member.0 < length program.tac.now.functions.items) members.now }
    requires group { All (λ member. group_of (family_of program) member.0 ≡ number) members.now }
    ensures { IfOk result (λ closed. (closed ≡ true) ↔ AreMembersClosed (family_of program.entry) (numbers_of members.now)) }
{
    for member in members {
        if !program.member_closed(alloc, *member)? {
            return Ok(false);
        }
    }
    Ok(true)
}

/// Whether what is asked of `start` and of its graph holds, where it does of all groups.
fn start_closed(alloc: Global, program: Program<'_>) -> Result<bool, AllocError>
    requires program { IsFit program }
    requires groups { (number : ℕ) → number < length program.groups.now.members.items → GroupClosed (family_of program) number }
    ensures { IfOk result (λ closed. (closed ≡ true) ↔ StartClosed (family_of program.entry)) }
{
    if !start_graph_closed(alloc, program)? {
        return Ok(false);
    }
    if !program.start_closed(alloc)? {
        return Ok(false);
    }
    first_closed(alloc, program.tac, &program.graphs.start)
}
