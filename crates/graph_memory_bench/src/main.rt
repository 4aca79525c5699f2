//! Times merging of all nodes of a graph.
//!
//! A line of the input is a number of nodes. Its answer is a line of the output: that number, and for two orders in which they are merged one
//! by one the milliseconds that it takes: each into the first, and each with the one before it.
#![tactic(auto)]

ghost use Rattle.std.specs.Prelude.{IfOk, OnOk};
ghost use Rattle.c_typed.specs.Table.{structs_in};
ghost use Rattle.heap_graph.specs.Structures.{AreMade};
ghost use Rattle.graph_unification.specs.Memory.{IsGraph};

use c_typed::TypeTable;
use graph_unification::{Graph, Name};
use heap_graph::{Element, Flags, Target};
use std::alloc::{AllocError, Global};
use std::io::{self, BufRead, BufReader, BufWriter, Write};
use std::time::Instant;
use tac_ir::Register;

const NONE: Flags = Flags {
    heap: false,
    stack: false,
    global: false,
    array: false,
    modified: false,
    read: false,
    complete: false,
    certain: false,
};

fn name_of(number: usize) -> Name {
    Name::Register {
        function: None,
        register: Register::Expression(number),
    }
}

/// Gives a name a node of its own.
fn add(graph: &mut Graph, types: &TypeTable, name: Name) -> Result<(), AllocError>
    requires { IsGraph types.now graph.old }
    ensures { OnOk result (IsGraph types.now graph.new) }
{
    let _ = types;
    let node = graph.new_node(Element::Missing, NONE)?;
    graph.set_target(name, Target { node, shift: 0 })?;
    Ok(())
}

/// Makes the targets of two names one.
fn join(graph: &mut Graph, types: &TypeTable, a: Name, b: Name) -> Result<(), AllocError>
    requires made { AreMade (structs_in types.now) }
    requires graph { IsGraph types.now graph.old }
    ensures { OnOk result (IsGraph types.now graph.new) }
{
    let Some(one) = graph.target(a) else {
        return Ok(());
    };
    let Some(other) = graph.target(b) else {
        return Ok(());
    };
    graph.merge(types, one, other)
}

/// A graph of so many nodes, each with a name.
fn graph_of(alloc: Global, types: &TypeTable, count: usize) -> Result<Graph, AllocError>
    ensures { IfOk result (IsGraph types.now) }
{
    let mut graph = Graph::new(alloc);
    for number in 0..count {
        add(&mut graph, types, name_of(number))?;
    }
    Ok(graph)
}

/// Merges all nodes into the first.
fn merge_into_first(alloc: Global, types: &TypeTable, count: usize) -> Result<(), AllocError>
    requires { AreMade (structs_in types.now) }
{
    let mut graph = graph_of(alloc, types, count)?;
    for number in 0..count {
        join(&mut graph, types, name_of(0), name_of(number))?;
    }
    Ok(())
}

/// Merges each node with the one before it.
fn merge_in_pairs(alloc: Global, types: &TypeTable, count: usize) -> Result<(), AllocError>
    requires { AreMade (structs_in types.now) }
{
    let mut graph = graph_of(alloc, types, count)?;
    for number in 1..count {
        join(&mut graph, types, name_of(number), name_of(number - 1))?;
    }
    Ok(())
}

fn time<W: Write>(rt: &HostRuntime, alloc: Global, count: usize, out: &mut W) -> io::Result<()> {
    let types = TypeTable::new(alloc);
    let start = Instant::now(rt)?;
    merge_into_first(alloc, &types, count)?;
    let first = start.elapsed(rt)?.as_millis();
    let start = Instant::now(rt)?;
    merge_in_pairs(alloc, &types, count)?;
    let pairs = start.elapsed(rt)?.as_millis();
    writeln!(
        out,
        "{count} nodes: into the first {first} ms, in pairs {pairs} ms"
    )
}

fn main(rt: HostRuntime) -> io::Result<()> {
    let alloc = rt.alloc();
    let mut out = BufWriter::new(alloc, io::writer(&rt))?;
    for line in BufReader::new(alloc, rt.reader())?.lines(alloc) {
        if let Ok(count) = line?.as_str().parse::<usize>() {
            time(&rt, alloc, count, &mut out)?;
        }
    }
    out.flush()
}
