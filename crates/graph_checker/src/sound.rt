// What is asked of a graph without its functions, and of the names of functions.

ghost use Rattle.std.specs.Prelude.{◌≡◌, ◌<◌, ◌↔◌, true, length, All, IfOk};
ghost use Rattle.c_typed.specs.Table.{Interned};
ghost use Rattle.tac_ir.specs.States.{Owner};
ghost use Rattle.tac_ir.specs.Views.{function_in};
ghost use Rattle.call_graph.specs.ClassLists.{numbers_of};
ghost use Rattle.heap_graph.specs.Shows.{ShowsGraph};
ghost use Rattle.graph_checker.specs.Programs.{family_of};
ghost use Rattle.graph_checker.specs.Fits.{IsFit};
ghost use Rattle.graph_checker.specs.ClosedGroups.Sound.{IsSoundGraph, AreSoundNames, IsSoundMember, AreSoundMembers};

use crate::edges::edges_are_sound;
use crate::owned::{names_are_own, statics_are_own};
use crate::program::Program;
use crate::slots::{names_are_slots, statics_are_slots};
use crate::statics::{globals_closed, literals_closed};
use heap_graph::{FrozenGraph, FunctionNames};
use std::alloc::{AllocError, Global};
use tac_ir::{Function, FunctionId};

/// Whether a graph keeps what is asked of edges, of variables outside functions and of literals.
pub(crate) fn is_sound(program: Program<'_>, graph: &FrozenGraph) -> bool
    requires program { IsFit program }
    ensures { (owner : Owner) → ShowsGraph program.entry.tac.now.types (family_of program.entry) owner graph.now
        → (result ≡ true) ↔ IsSoundGraph program.entry.tac.now.types (family_of program.entry) owner graph.now }
{
    let types = &program.tac.types;
    if !statics_are_slots(graph) {
        return false;
    }
    if !statics_are_own(program.tac, graph) {
        return false;
    }
    if !edges_are_sound(graph) {
        return false;
    }
    if !globals_closed(types, graph, program.tac.globals.as_slice()) {
        return false;
    }
    literals_closed(types, graph, program.tac.literals.as_slice())
}

/// Whether the names of functions are slots of a graph's nodes, and the functions have them.
pub(crate) fn are_members_sound(
    alloc: Global,
    program: Program<'_>,
    graph: &FrozenGraph,
    members: &[FunctionId],
) -> Result<bool, AllocError>
    requires program { IsFit program }
    requires within { All (λ member. member.0 < length program.tac.now.functions.items) members.now }
    ensures { IfOk result (λ sound. (sound ≡ true) ↔ AreSoundMembers program.entry.tac.now.types (family_of program.entry) graph.now program.entry.graphs.now.functions.items (numbers_of members.now)) }
{
    for member in members {
        if !is_member_sound(alloc, program, graph, *member)? {
            return Ok(false);
        }
    }
    Ok(true)
}

fn is_member_sound(
    alloc: Global,
    program: Program<'_>,
    graph: &FrozenGraph,
    member: FunctionId,
) -> Result<bool, AllocError>
    requires program { IsFit program }
    requires within { member.0 < length program.tac.now.functions.items }
    ensures { IfOk result (λ sound. (sound ≡ true) ↔ IsSoundMember program.entry.tac.now.types (family_of program.entry) graph.now program.entry.graphs.now.functions.items member.0) }
{
    let own = &program.graphs.functions[member.0];
    let code = &program.tac.functions[member.0];
    are_names_sound(alloc, graph, code, &own.names)
}

/// Whether a function's names are slots of a graph's nodes, and the function has them.
pub(crate) fn are_names_sound(
    alloc: Global,
    graph: &FrozenGraph,
    function: &Function,
    names: &FunctionNames,
) -> Result<bool, AllocError>
    ensures { IfOk result (λ sound. (table : Interned) → (sound ≡ true) ↔ AreSoundNames table graph.now (function_in table function.now) names.now) }
{
    if !names_are_slots(graph, names) {
        return Ok(false);
    }
    names_are_own(alloc, function, names)
}
