// What is asked of the graph of a group, and of that of `start`.

ghost use Rattle.std.specs.Prelude.{◌≡◌, ℕ, ◌<◌, ◌↔◌, true, length, slice_get, List, Some, All, IfOk};
ghost use Rattle.tac_ir.specs.States.{InStart, InFunction};
ghost use Rattle.call_graph.specs.ClassLists.{numbers_of};
ghost use Rattle.call_graph.specs.GroupViews.{groups_of};
ghost use Rattle.heap_graph.specs.Closed.{graph_of, is_in, is_start, of_group, GraphClosed};
ghost use Rattle.graph_checker.specs.Programs.{family_of};
ghost use Rattle.graph_checker.specs.Fits.{IsFit};
ghost use Rattle.graph_checker.specs.Needed.{AnyOf, IsNeededBy, IsNeededIn, AreNeeded};

use crate::needed::{add_members, add_points};
use crate::program::Program;
use crate::sound::{are_members_sound, are_names_sound, is_sound};
use heap_graph::{FrozenGraph, NeededNodes, all_complete, complete_closed};
use std::alloc::{AllocError, Global};
use tac_ir::FunctionId;

/// Whether what is asked of the graph of a group holds.
pub fn group_graph_closed(
    alloc: Global,
    program: Program<'_>,
    group: usize,
) -> Result<bool, AllocError>
    requires program { IsFit program }
    requires within { group < length program.groups.now.members.items }
    ensures { IfOk result (λ closed. (members : List ℕ) → slice_get (groups_of program.entry.groups.now) group ≡ Some members
        → (closed ≡ true) ↔ ((one : ℕ) → is_in one members ≡ true → GraphClosed (family_of program.entry) (graph_of (family_of program.entry) (InFunction one)) (of_group members) (InFunction one))) }
{
    let graph = &program.graphs.graphs[group];
    let members = program.groups.members[group].as_slice();
    if !is_sound(program, graph) {
        return Ok(false);
    }
    if !are_members_sound(alloc, program, graph, members)? {
        return Ok(false);
    }
    let functions = program.graphs.functions.as_slice();
    if !complete_closed(alloc, graph, functions, members)? {
        return Ok(false);
    }
    are_members_needed(alloc, program, graph, members)
}

/// Whether each node of a graph is needed by functions, or by variables outside functions or literals that it mentions.
fn are_members_needed(
    alloc: Global,
    program: Program<'_>,
    graph: &FrozenGraph,
    members: &[FunctionId],
) -> Result<bool, AllocError>
    requires program { IsFit program }
    requires within { All (λ member. member.0 < length program.tac.now.functions.items) members.now }
    ensures { IfOk result (λ needed. (needed ≡ true) ↔ AreNeeded graph.now (AnyOf (IsNeededIn (family_of program.entry) program.entry.graphs.now.functions.items) (numbers_of members.now))) }
{
    let mut needed = NeededNodes::new(alloc, graph)?;
    needed.add_statics(graph);
    add_members(alloc, program, members, &mut needed)?;
    Ok(needed.are_all(graph))
}

/// Whether what is asked of the graph of `start` holds.
pub fn start_graph_closed(alloc: Global, program: Program<'_>) -> Result<bool, AllocError>
    requires program { IsFit program }
    ensures { IfOk result (λ closed. (closed ≡ true) ↔ GraphClosed (family_of program.entry) (family_of program.entry).graphs.start is_start InStart) }
{
    let graph = &program.graphs.start;
    let names = &program.graphs.start_function.names;
    if !is_sound(program, graph) {
        return Ok(false);
    }
    if !are_names_sound(alloc, graph, &program.tac.start, names)? {
        return Ok(false);
    }
    if !all_complete(graph) {
        return Ok(false);
    }
    is_start_needed(alloc, program)
}

/// Whether each node of the graph of `start` is needed.
fn is_start_needed(alloc: Global, program: Program<'_>) -> Result<bool, AllocError>
    requires program { IsFit program }
    ensures { IfOk result (λ needed. (needed ≡ true) ↔ AreNeeded program.entry.graphs.now.start (IsNeededBy (family_of program.entry) InStart program.entry.graphs.now.start_function.names (family_of program.entry).tac.start.points)) }
{
    let graph = &program.graphs.start;
    let mut needed = NeededNodes::new(alloc, graph)?;
    needed.add_statics(graph);
    needed.add_names(&program.graphs.start_function.names);
    let points = program.tac.start.points.as_slice();
    add_points(alloc, program, program.start(), points, &mut needed)?;
    Ok(needed.are_all(graph))
}
