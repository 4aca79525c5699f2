// The text of all graphs of a program.

ghost use Rattle.std.specs.Prelude.{◌≡◌, ◌++◌, ℕ, [], Some, map, slice_get, IfOk, OnOk};
ghost use Rattle.heap_graph.specs.declared.frozen.FrozenGraph.{FrozenGraph as Graph};
ghost use Rattle.heap_graph.specs.Orders.{EdgesAscend};
ghost use Rattle.graph_text.specs.Names.{member_names, names_if, own_names};
ghost use Rattle.graph_text.specs.declared.names.Owner.TheVariants as O;
ghost use Rattle.graph_text.specs.Texts.{members_text, group_heading, start_heading, AppendsLines, AppendsGraph, AppendsGroup, AppendsGroups, AreNames, GraphIs, FunctionIs, GraphText};

use crate::function_labels::Labels;
use crate::lines::{put_names, put_nodes};
use crate::names::{Named, Owner, add_function, add_globals, add_literals};
use c_typed::TypeTable;
use call_graph::Groups;
use heap_graph::{FrozenGraph, FunctionGraph, ProgramGraphs, ordered};
use std::alloc::{AllocError, Global};
use tac_ir::{FunctionId, Tac};

/// The text of the graphs of a program: groups in their order, `start` last.
pub fn graph_lines(
    alloc: Global,
    tac: &Tac,
    groups: &Groups,
    graphs: &ProgramGraphs,
    labels: &Labels,
) -> Result<Vec<u8>, AllocError>
    requires groups { (number : ℕ) (graph : Graph) → slice_get graphs.now.graphs.items number ≡ Some graph → EdgesAscend graph.nodes.items }
    requires start { EdgesAscend graphs.now.start.nodes.items }
    ensures { IfOk result (λ text. GraphText tac.now groups.now graphs.now labels.now text.items) }
{
    let mut text = Vec::new(alloc);
    put_groups(
        alloc,
        &mut text,
        &tac.types,
        labels,
        graphs,
        groups.members.as_slice(),
    )?;
    Ok(text)
}

/// Appends the text of groups, and then that of `start`.
fn put_groups(
    alloc: Global,
    text: &mut Vec<u8>,
    table: &TypeTable,
    labels: &Labels,
    graphs: &ProgramGraphs,
    groups: &[Vec<FunctionId>],
) -> Result<(), AllocError>
    requires groups { (number : ℕ) (graph : Graph) → slice_get graphs.now.graphs.items number ≡ Some graph → EdgesAscend graph.nodes.items }
    requires start { EdgesAscend graphs.now.start.nodes.items }
    ensures { OnOk result (AppendsGroups table.now graphs.now labels.now 0 groups.now text.old.items text.new.items) }
{
    for (number, members) in groups.iter().enumerate() {
        put_numbered(alloc, text, table, labels, graphs, number, members)?;
    }
    put_start(alloc, text, table, labels, graphs)
}

/// Appends the text of a group, where it has a graph.
fn put_numbered(
    alloc: Global,
    text: &mut Vec<u8>,
    table: &TypeTable,
    labels: &Labels,
    graphs: &ProgramGraphs,
    number: usize,
    members: &[FunctionId],
) -> Result<(), AllocError>
    requires { (number : ℕ) (graph : Graph) → slice_get graphs.now.graphs.items number ≡ Some graph → EdgesAscend graph.nodes.items }
    ensures { OnOk result (AppendsGroup table.now graphs.now labels.now (slice_get graphs.now.graphs.items number) members.now text.old.items text.new.items) }
{
    let Some(graph) = graph_at(graphs, number) else {
        return Ok(());
    };
    put_heading(text, labels, members)?;
    put_group(alloc, text, table, labels, graph, graphs, members)?;
    Ok(())
}

/// The graph of a group.
fn graph_at(graphs: &ProgramGraphs, number: usize) -> Option<&FrozenGraph>
    ensures { GraphIs (slice_get graphs.now.graphs.items number) result }
{
    graphs.graphs.get(number)
}

/// Appends the line of a group's functions.
fn put_heading(
    text: &mut Vec<u8>,
    labels: &Labels,
    members: &[FunctionId],
) -> Result<(), AllocError>
    ensures { OnOk result (text.new.items ≡ text.old.items ++ group_heading labels.now members.now) }
{
    text.extend_from_slice(b"group")?;
    put_members(text, labels, members)?;
    text.push(b'\n')?;
    Ok(())
}

/// Appends the names of functions, each behind a space.
fn put_members(
    text: &mut Vec<u8>,
    labels: &Labels,
    members: &[FunctionId],
) -> Result<(), AllocError>
    ensures { OnOk result (text.new.items ≡ text.old.items ++ members_text labels.now members.now) }
{
    for member in members {
        text.push(b' ')?;
        labels.put_owner(text, Owner::Function(member.0))?;
    }
    Ok(())
}

/// Appends the names and the nodes of a group's graph.
fn put_group(
    alloc: Global,
    text: &mut Vec<u8>,
    table: &TypeTable,
    labels: &Labels,
    graph: &FrozenGraph,
    graphs: &ProgramGraphs,
    members: &[FunctionId],
) -> Result<(), AllocError>
    requires { EdgesAscend graph.now.nodes.items }
    ensures { OnOk result (AppendsGraph table.now labels.now graph.now (member_names graphs.now.functions.items members.now) text.old.items text.new.items) }
{
    let mut names = static_names(alloc, graph)?;
    add_members(&mut names, graphs, members)?;
    put_graph(alloc, text, table, labels, graph, names.as_slice())?;
    Ok(())
}

/// Appends the graph of `start`.
fn put_start(
    alloc: Global,
    text: &mut Vec<u8>,
    table: &TypeTable,
    labels: &Labels,
    graphs: &ProgramGraphs,
) -> Result<(), AllocError>
    requires { EdgesAscend graphs.now.start.nodes.items }
    ensures { OnOk result (AppendsGraph table.now labels.now graphs.now.start (own_names O.Start graphs.now.start_function.names) (text.old.items ++ start_heading) text.new.items) }
{
    text.extend_from_slice(b"group start\n")?;
    let mut names = static_names(alloc, &graphs.start)?;
    add_function(&mut names, Owner::Start, &graphs.start_function.names)?;
    put_graph(alloc, text, table, labels, &graphs.start, names.as_slice())?;
    Ok(())
}

/// Adds the names of functions that have targets.
fn add_members(
    found: &mut Vec<Named>,
    graphs: &ProgramGraphs,
    members: &[FunctionId],
) -> Result<(), AllocError>
    ensures { OnOk result (found.new.items ≡ found.old.items ++ member_names graphs.now.functions.items members.now) }
{
    for member in members {
        add_member(found, graphs, *member)?;
    }
    Ok(())
}

/// Adds the names of a function that have targets.
fn add_member(
    found: &mut Vec<Named>,
    graphs: &ProgramGraphs,
    member: FunctionId,
) -> Result<(), AllocError>
    ensures { OnOk result (found.new.items ≡ found.old.items ++ names_if member.0 (slice_get graphs.now.functions.items member.0)) }
{
    let Some(function) = function_at(graphs, member) else {
        return Ok(());
    };
    add_function(found, Owner::Function(member.0), &function.names)?;
    Ok(())
}

/// What the graphs tell of a function.
fn function_at(graphs: &ProgramGraphs, function: FunctionId) -> Option<&FunctionGraph>
    ensures { FunctionIs (slice_get graphs.now.functions.items function.0) result }
{
    graphs.functions.get(function.0)
}

/// The variables outside functions and the literals that have targets.
fn static_names(alloc: Global, graph: &FrozenGraph) -> Result<Vec<Named>, AllocError>
    ensures { IfOk result (λ names. AreNames graph.now [] names.items) }
{
    let mut names = Vec::new(alloc);
    add_globals(alloc, &mut names, &graph.globals)?;
    add_literals(alloc, &mut names, &graph.literals)?;
    Ok(names)
}

/// Appends the names and the nodes of a graph.
fn put_graph(
    alloc: Global,
    text: &mut Vec<u8>,
    table: &TypeTable,
    labels: &Labels,
    graph: &FrozenGraph,
    names: &[Named],
) -> Result<(), AllocError>
    requires { EdgesAscend graph.now.nodes.items }
    ensures { OnOk result (AppendsLines table.now labels.now graph.now.nodes.items names.now text.old.items text.new.items) }
{
    let starts = nodes_of(alloc, names)?;
    let order = ordered(alloc, graph, starts.as_slice())?;
    put_names(text, labels, &order, names)?;
    put_nodes(text, table, graph, &order)?;
    Ok(())
}

/// The nodes of targets.
fn nodes_of(alloc: Global, names: &[Named]) -> Result<Vec<usize>, AllocError>
    ensures { IfOk result (λ nodes. nodes.items ≡ map (λ named. named.target.node) names.now) }
{
    names.iter().map(|named| named.target.node).collect(alloc)
}
