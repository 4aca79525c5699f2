// Names that get nodes of their own.

ghost use Rattle.std.specs.Prelude.{◌≡◌, ◌<◌, [], None, OnOk};
ghost use Rattle.c_typed.specs.Table.{structs_in};
ghost use Rattle.heap_graph.specs.Memory.{element_in, ElementStands, flags_of};
ghost use Rattle.heap_graph.specs.Merging.{slots};
ghost use Rattle.graph_unification.specs.Memory.{name_of, graph_in, IsGraph};
ghost use Rattle.graph_unification.specs.Adding.{AddsName, AddsMissing};

use crate::graph::Graph;
use crate::name::Name;
use c_typed::TypeTable;
use heap_graph::{Element, Flags, Target};
use std::alloc::AllocError;

/// Gives a name that has no target a node of its own, which has no edges.
pub fn add_name(
    graph: &mut Graph,
    types: &TypeTable,
    name: Name,
    element: Element,
    flags: Flags,
) -> Result<(), AllocError>
    requires graph { IsGraph types.now graph.old }
    requires stands { ElementStands types.now element }
    requires slot { 0 < slots (structs_in types.now) (element_in types.now element) }
    requires none { (graph_in types.now graph.old).targets (name_of name) ≡ None }
    ensures graph { OnOk result (IsGraph types.now graph.new) }
    ensures adds { OnOk result (AddsName (graph_in types.now graph.old) (graph_in types.now graph.new) (name_of name) (record { element = element_in types.now element; flags = flags_of flags; edges = [] })) }
{
    let _ = types;
    let node = graph.new_node(element, flags)?;
    graph.set_target(name, Target { node, shift: 0 })?;
    Ok(())
}

/// Does so where it has no target yet.
#[tactic(none)]
pub(crate) fn add_missing(
    graph: &mut Graph,
    types: &TypeTable,
    name: Name,
    element: Element,
    flags: Flags,
) -> Result<(), AllocError>
    requires graph { IsGraph types.now graph.old }
    requires stands { ElementStands types.now element }
    requires slot { 0 < slots (structs_in types.now) (element_in types.now element) }
    ensures graph { OnOk result (IsGraph types.now graph.new) }
    ensures adds { OnOk result (AddsMissing (graph_in types.now graph.old) (graph_in types.now graph.new) (name_of name) (record { element = element_in types.now element; flags = flags_of flags; edges = [] })) }
{
    match graph.target(name) {
        Some(_) => Ok(()),
        None => add_name(graph, types, name, element, flags),
    }
}
