// The graph of calls. Its nodes are the functions. A call leads to the first function that it may reach; where there is a call through a
// pointer, that function and the others that it may reach lead to each other.

ghost use Rattle.std.specs.Prelude.{◌≡◌, false, map, slice_get, unwrap_or, IfOk, OnOk};
ghost use Rattle.tac_ir.specs.Views.{op_in, tac_of};
ghost use Rattle.call_graph.specs.ClassLists.{AreClasses};
ghost use Rattle.call_graph.specs.CallLists.{AddsCalls, AddsCalled, AddsClasses, IsCallGraph};

use crate::class_table::Classes;
use crate::mark_list::marks;
use std::alloc::{AllocError, Global};
use tac_ir::{Op, Tac};

/// The edges of the graph.
pub(crate) fn call_graph(
    alloc: Global,
    tac: &Tac,
    classes: &Classes,
) -> Result<Vec<(usize, usize)>, AllocError>
    requires { AreClasses tac.now classes.now }
    ensures { IfOk result (λ edges. IsCallGraph (tac_of tac.now) edges.items) }
{
    let mut edges = Vec::new(alloc);
    let mut called = Vec::new(alloc);
    for (caller, function) in tac.functions.iter().enumerate() {
        let points = function.points.as_slice();
        add_calls(&mut edges, tac, classes, caller, points)?;
        add_called(&mut called, tac, classes, points)?;
    }
    let is_called = marks(alloc, tac.functions.len(), called.as_slice())?;
    add_classes(&mut edges, classes.links.as_slice(), is_called.as_slice())?;
    Ok(edges)
}

/// Adds an edge for each call of a function.
fn add_calls(
    edges: &mut Vec<(usize, usize)>,
    tac: &Tac,
    classes: &Classes,
    caller: usize,
    points: &[Op],
) -> Result<(), AllocError>
    requires { AreClasses tac.now classes.now }
    ensures { OnOk result (AddsCalls (tac_of tac.now) caller (map (op_in tac.now.types) points.now) edges.old.items edges.new.items) }
{
    for op in points {
        if let Op::Call { callee, .. } = op {
            if let Some(node) = classes.first_target(tac, *callee) {
                edges.push((caller, node))?;
            }
        }
    }
    Ok(())
}

/// Adds the class of each call through a pointer, by its first function.
fn add_called(
    called: &mut Vec<usize>,
    tac: &Tac,
    classes: &Classes,
    points: &[Op],
) -> Result<(), AllocError>
    requires { AreClasses tac.now classes.now }
    ensures { OnOk result (AddsCalled (tac_of tac.now) (map (op_in tac.now.types) points.now) called.old.items called.new.items) }
{
    for op in points {
        if let Op::Call { callee, .. } = op {
            if let Some(first) = classes.class_of(tac, *callee) {
                called.push(first)?;
            }
        }
    }
    Ok(())
}

/// Adds edges between the functions of the classes that are called.
fn add_classes(
    edges: &mut Vec<(usize, usize)>,
    links: &[(usize, usize)],
    is_called: &[bool],
) -> Result<(), AllocError>
    ensures { OnOk result (AddsClasses is_called.now links.now edges.old.items edges.new.items) }
{
    for link in links {
        if is_marked(is_called, link.0) {
            edges.push((link.0, link.1))?;
            edges.push((link.1, link.0))?;
        }
    }
    Ok(())
}

/// Whether a number is marked.
fn is_marked(marks: &[bool], number: usize) -> bool
    ensures { result ≡ unwrap_or (slice_get marks.now number) false }
{
    match marks.get(number) {
        Some(mark) => *mark,
        None => false,
    }
}
