// Whether what is asked of a program and its graphs before faults are looked for holds.

ghost use Rattle.std.specs.Prelude.{◌≡◌, ◌↔◌, true};
ghost use Rattle.tac_ir.specs.Views.{tac_of};
ghost use Rattle.tac_ir.specs.Groups.{AreGroups};
ghost use Rattle.call_graph.specs.GroupViews.{CallsKnown, groups_of, IsOf};
ghost use Rattle.heap_graph.specs.Embeddings.{OptionHasSlots, NodesHaveSlots};
ghost use Rattle.graph_checker.specs.Fits.{IsFit};
ghost use Rattle.graph_tests.specs.Plain.{IsPlain, HasNoObjects, HaveNoObjects, HaveSlots};

use crate::known_calls::are_known;
use c_typed::TypeTable;
use graph_checker::Program;
use heap_graph::{Element, FrozenGraph, Node, slots_of};
use tac_ir::Function;

/// Whether there is a graph for each group and each function, no local lies in memory, and the types of nodes have slots.
pub(crate) fn is_fit(program: Program<'_>) -> bool
    requires groups { AreGroups (tac_of program.tac.now) (groups_of program.groups.now) }
    requires of { IsOf program.tac.now program.groups.now }
    requires known { CallsKnown (tac_of program.tac.now) }
    requires plain { IsPlain program.tac.now }
    ensures { result ≡ true → IsFit program.entry }
{
    let tac = program.tac;
    let graphs = program.graphs;
    if graphs.graphs.len() != program.groups.members.len() {
        return false;
    }
    if graphs.functions.len() != tac.functions.len() {
        return false;
    }
    if !are_known(tac, tac.start.points.as_slice()) {
        return false;
    }
    if !have_no_objects(tac.functions.as_slice()) {
        return false;
    }
    if !has_no_objects(&tac.start) {
        return false;
    }
    if !have_slots(&tac.types, graphs.graphs.as_slice()) {
        return false;
    }
    has_slots(&tac.types, &graphs.start)
}

fn have_no_objects(functions: &[Function]) -> bool
    ensures { (result ≡ true) ↔ HaveNoObjects functions.now }
{
    for function in functions {
        if !has_no_objects(function) {
            return false;
        }
    }
    true
}

fn has_no_objects(function: &Function) -> bool
    ensures { (result ≡ true) ↔ HasNoObjects function.now }
{
    function.objects.len() == 0
}

/// Whether the types of graphs' nodes have slots.
fn have_slots(types: &TypeTable, graphs: &[FrozenGraph]) -> bool
    ensures { (result ≡ true) ↔ HaveSlots types.now graphs.now }
{
    for graph in graphs {
        if !has_slots(types, graph) {
            return false;
        }
    }
    true
}

fn has_slots(types: &TypeTable, graph: &FrozenGraph) -> bool
    ensures { (result ≡ true) ↔ NodesHaveSlots types.now graph.now }
{
    let nodes = graph.nodes.as_slice();
    for node in nodes {
        if !has_slots_if(types, node) {
            return false;
        }
    }
    true
}

fn has_slots_if(types: &TypeTable, node: &Option<Node>) -> bool
    ensures { (result ≡ true) ↔ OptionHasSlots types.now node.now }
{
    match node {
        None => true,
        Some(node) => match node.element {
            Element::Missing => true,
            Element::OfType(t) => slots_of(types, types.number_of(t)) > 0,
            Element::Collapsed => true,
        },
    }
}
