// Graphs that are made step by step, and what is seen of them.

ghost use Rattle.std.specs.Prelude.{◌≡◌, IfOk, OnOk};
ghost use Rattle.c_typed.specs.Table.{structs_in};
ghost use Rattle.heap_graph.specs.Memory.{target_of, element_in, ElementStands};
ghost use Rattle.heap_graph.specs.Merging as merging;
ghost use Rattle.graph_unification.specs.Memory.{graph_in, IsGraph};
ghost use Rattle.graph_tests.specs.Objects.{AreTypes};

use crate::sights::{Sight, is_seen};
use crate::types::Types;
use c_typed::TypeTable;
use graph_unification::{Graph, Name};
use heap_graph::{Element, Flags, Target, slots_of};
use std::alloc::{AllocError, Global};
use tac_ir::{FunctionId, GlobalId, LiteralId, Register};

/// What a node's objects are.
#[derive(Clone, Copy)]
pub(crate) enum Kind {
    Missing,
    /// The type at a place of the list.
    Type(usize),
    Collapsed,
}

/// What has a target.
#[derive(Clone, Copy)]
pub(crate) enum Named {
    Register(usize),
    Global(usize),
    Literal(usize),
    Copy(usize),
}

/// A target.
#[derive(Clone, Copy)]
pub(crate) enum Place {
    At(usize, u64),
    /// That of a register.
    Of(usize),
    /// A slot of the node to which a register points.
    Beside(usize, u64),
}

/// What is done to a graph.
#[derive(Clone, Copy)]
pub(crate) enum Deed {
    Node(Kind, Flags),
    Name(Named, Place),
    Edge(Place, Place),
    Merge(Place, Place),
    Collapse(Place),
    SetFlags(Place, Flags),
    /// So many nodes, each with an edge to the one before it and with a register that points to it.
    Chain(usize),
    /// The targets of so many registers, each merged with that of the one before it.
    MergeChain(usize),
}

/// What is done, or what is to be seen then.
#[derive(Clone, Copy)]
pub(crate) enum Step {
    Do(Deed),
    See(Sight),
    /// The register that is told to have become certain.
    Certain(Option<usize>),
}

pub(crate) const NONE: Flags = Flags {
    heap: false,
    stack: false,
    global: false,
    array: false,
    modified: false,
    read: false,
    complete: false,
    certain: false,
};

/// Takes steps one after the other, from an empty graph on. The number of the first at which something else is seen.
pub(crate) fn first_wrong(
    alloc: Global,
    types: &Types,
    steps: &[Step],
) -> Result<Option<usize>, AllocError>
    requires { AreTypes types.now.table types.now.list.items }
{
    let mut graph = Graph::new(alloc);
    for (number, step) in steps.iter().enumerate() {
        if !take(alloc, types, &mut graph, *step)? {
            return Ok(Some(number));
        }
    }
    Ok(None)
}

/// Takes a step. Whether what is seen is what the step says.
fn take(alloc: Global, types: &Types, graph: &mut Graph, step: Step) -> Result<bool, AllocError>
    requires types { AreTypes types.now.table types.now.list.items }
    requires graph { IsGraph types.now.table graph.old }
    ensures { OnOk result (IsGraph types.now.table graph.new) }
{
    match step {
        Step::Do(deed) => {
            act(types, graph, deed)?;
            Ok(true)
        }
        Step::See(sight) => is_seen(alloc, types, graph, sight),
        Step::Certain(number) => {
            let told = graph.take_certain();
            Ok(told == number.map(register))
        }
    }
}

fn act(types: &Types, graph: &mut Graph, deed: Deed) -> Result<(), AllocError>
    requires types { AreTypes types.now.table types.now.list.items }
    requires graph { IsGraph types.now.table graph.old }
    ensures { OnOk result (IsGraph types.now.table graph.new) }
{
    match deed {
        Deed::Node(kind, flags) => add_node(types, graph, kind, flags),
        Deed::Name(named, place) => set_name(types, graph, named, place),
        Deed::Edge(from, to) => set_edge(types, graph, from, to),
        Deed::Merge(a, b) => merge(types, graph, a, b),
        Deed::Collapse(place) => {
            let at = slot(types, graph, place)?;
            graph.collapse(&types.table, at.node)
        }
        Deed::SetFlags(place, flags) => {
            let at = slot(types, graph, place)?;
            graph.set_flags(at.node, flags);
            Ok(())
        }
        Deed::Chain(count) => chain(types, graph, count),
        Deed::MergeChain(count) => merge_chain(types, graph, count),
    }
}

fn add_node(types: &Types, graph: &mut Graph, kind: Kind, flags: Flags) -> Result<(), AllocError>
    requires types { AreTypes types.now.table types.now.list.items }
    requires graph { IsGraph types.now.table graph.old }
    ensures { OnOk result (IsGraph types.now.table graph.new) }
{
    let element = element_of(types, kind)?;
    graph.new_node(element, flags)?;
    Ok(())
}

fn set_name(types: &Types, graph: &mut Graph, named: Named, place: Place) -> Result<(), AllocError>
    requires types { AreTypes types.now.table types.now.list.items }
    requires graph { IsGraph types.now.table graph.old }
    ensures { OnOk result (IsGraph types.now.table graph.new) }
{
    let to = slot(types, graph, place)?;
    graph.set_target(name_of(named), to)
}

fn set_edge(types: &Types, graph: &mut Graph, from: Place, to: Place) -> Result<(), AllocError>
    requires types { AreTypes types.now.table types.now.list.items }
    requires graph { IsGraph types.now.table graph.old }
    ensures { OnOk result (IsGraph types.now.table graph.new) }
{
    let at = slot(types, graph, from)?;
    let end = slot(types, graph, to)?;
    graph.set_edge(&types.table, at.node, at.shift, end)
}

fn merge(types: &Types, graph: &mut Graph, a: Place, b: Place) -> Result<(), AllocError>
    requires types { AreTypes types.now.table types.now.list.items }
    requires graph { IsGraph types.now.table graph.old }
    ensures { OnOk result (IsGraph types.now.table graph.new) }
{
    let one = slot(types, graph, a)?;
    let other = slot(types, graph, b)?;
    graph.merge(&types.table, one, other)
}

/// Makes nodes, each with an edge to the one before it and with a register that points to it.
fn chain(types: &Types, graph: &mut Graph, count: usize) -> Result<(), AllocError>
    requires types { AreTypes types.now.table types.now.list.items }
    requires graph { IsGraph types.now.table graph.old }
    ensures { OnOk result (IsGraph types.now.table graph.new) }
{
    for i in 0..count {
        link(types, graph, i)?;
    }
    Ok(())
}

/// Makes a node with an edge to the one before it and with a register that points to it.
fn link(types: &Types, graph: &mut Graph, i: usize) -> Result<(), AllocError>
    requires types { AreTypes types.now.table types.now.list.items }
    requires graph { IsGraph types.now.table graph.old }
    ensures { OnOk result (IsGraph types.now.table graph.new) }
{
    let kind = if i % 2 == 0 {
        Kind::Type(0)
    } else {
        Kind::Missing
    };
    add_node(types, graph, kind, NONE)?;
    set_name(types, graph, Named::Register(i), Place::At(i, 0))?;
    if i == 0 {
        return Ok(());
    }
    set_edge(types, graph, Place::At(i, 0), Place::At(i - 1, 0))
}

/// Makes the targets of registers one, each with that of the one before it.
fn merge_chain(types: &Types, graph: &mut Graph, count: usize) -> Result<(), AllocError>
    requires types { AreTypes types.now.table types.now.list.items }
    requires graph { IsGraph types.now.table graph.old }
    ensures { OnOk result (IsGraph types.now.table graph.new) }
{
    for i in 1..count {
        merge(types, graph, Place::Of(i - 1), Place::Of(i))?;
    }
    Ok(())
}

fn name_of(named: Named) -> Name {
    match named {
        Named::Register(number) => register(number),
        Named::Global(number) => Name::Global(GlobalId(number)),
        Named::Literal(number) => Name::Literal(LiteralId(number)),
        Named::Copy(number) => Name::Copy(number),
    }
}

pub(crate) fn register(number: usize) -> Name {
    Name::Register {
        function: Some(FunctionId(0)),
        register: Register::Expression(number),
    }
}

pub(crate) fn element_of(types: &Types, kind: Kind) -> Result<Element, AllocError>
    requires { AreTypes types.now.table types.now.list.items }
    ensures { IfOk result (λ element. ElementStands types.now.table element) }
{
    match kind {
        Kind::Missing => Ok(Element::Missing),
        Kind::Type(index) => {
            let t = types.get(index)?;
            Ok(Element::OfType(t))
        }
        Kind::Collapsed => Ok(Element::Collapsed),
    }
}

pub(crate) fn target_at(graph: &Graph, place: Place) -> Result<Target, AllocError> {
    match place {
        Place::At(node, shift) => Ok(Target { node, shift }),
        Place::Of(number) => target_of_register(graph, number),
        Place::Beside(number, shift) => {
            let target = target_of_register(graph, number)?;
            Ok(Target {
                node: target.node,
                shift,
            })
        }
    }
}

fn target_of_register(graph: &Graph, number: usize) -> Result<Target, AllocError> {
    match graph.target(register(number)) {
        Some(target) => Ok(target),
        None => Err(AllocError),
    }
}

/// The slot of a node that is there.
fn slot(types: &Types, graph: &Graph, place: Place) -> Result<Target, AllocError>
    requires types { AreTypes types.now.table types.now.list.items }
    requires graph { IsGraph types.now.table graph.now }
    ensures { IfOk result (λ target. merging.IsSlot (structs_in types.now.table) (graph_in types.now.table graph.now) (target_of target)) }
{
    let target = target_at(graph, place)?;
    match graph.node(target.node) {
        Some((element, _)) => {
            if target.shift < slots_in(&types.table, element) {
                Ok(target)
            } else {
                Err(AllocError)
            }
        }
        None => Err(AllocError),
    }
}

/// How many slots a node of an element has.
fn slots_in(table: &TypeTable, element: Element) -> u64
    requires { ElementStands table.now element }
    ensures { result ≡ merging.slots (structs_in table.now) (element_in table.now element) }
{
    match element {
        Element::Missing => 1,
        Element::OfType(t) => slots_of(table, t),
        Element::Collapsed => 1,
    }
}
