// Copies of nodes, without edges.

ghost use Rattle.std.specs.Prelude.{◌≡◌, true, false, IfOk, OnOk};
ghost use Rattle.c_typed.specs.Table.{structs_in};
ghost use Rattle.heap_graph.specs.Memory.{element_in, ElementStands, flags_of};
ghost use Rattle.heap_graph.specs.Structures.{AreMade};
ghost use Rattle.graph_unification.specs.Memory.{graph_in, IsGraph};
ghost use Rattle.heap_graph.specs.Frozen.{bare};
ghost use Rattle.dsa_inlining.specs.Copied.{numbers_in};
ghost use Rattle.dsa_inlining.specs.Adding.{HaveSlots, AreFree, AreNumbered};
ghost use Rattle.dsa_inlining.specs.Steps.{GetsCopy, NodesAdded};

use crate::copies::Copies;
use c_typed::TypeTable;
use graph_unification::{Graph, Name, add_name};
use heap_graph::{Element, Flags, FrozenGraph};
use indexmap::IndexMap;
use std::alloc::{AllocError, Global};

/// Gives each of these nodes a copy without edges.
pub(crate) fn copy_nodes(
    alloc: Global,
    graph: &mut Graph,
    types: &TypeTable,
    callee: &FrozenGraph,
    escaping: &[usize],
    first: usize,
) -> Result<Copies, AllocError>
    requires made { AreMade (structs_in types.now) }
    requires graph { IsGraph types.now graph.old }
    requires slots { HaveSlots (structs_in types.now) (bare types.now callee.now) }
    requires free { AreFree (graph_in types.now graph.old) first }
    ensures graph { OnOk result (IsGraph types.now graph.new) }
    ensures numbered { IfOk result (λ copies. AreNumbered (bare types.now callee.now) escaping.now (numbers_in copies) first copies.next) }
    ensures added { IfOk result (λ copies. NodesAdded (structs_in types.now) (graph_in types.now graph.old) (graph_in types.now graph.new) (bare types.now callee.now) (numbers_in copies) first copies.next) }
{
    let mut copies = Copies {
        names: IndexMap::new(alloc),
        next: first,
    };
    for number in escaping {
        copies.add(graph, types, callee, *number)?;
    }
    Ok(copies)
}

impl Copies {
    /// Gives a node a copy, where it has none yet.
    fn add(
        &mut self,
        graph: &mut Graph,
        types: &TypeTable,
        callee: &FrozenGraph,
        number: usize,
    ) -> Result<(), AllocError>
        requires graph { IsGraph types.now graph.old }
        requires slots { HaveSlots (structs_in types.now) (bare types.now callee.now) }
        requires free { AreFree (graph_in types.now graph.old) self.old.next }
        ensures graph { OnOk result (IsGraph types.now graph.new) }
        ensures gets { OnOk result (GetsCopy (graph_in types.now graph.old) (graph_in types.now graph.new) (bare types.now callee.now) (numbers_in self.old) (numbers_in self.new) number self.old.next self.new.next) }
    {
        if self.names.get(&number).is_some() {
            return Ok(());
        }
        let Some(node) = callee.node(number) else {
            return Ok(());
        };
        let copy = self.next;
        let Some(next) = copy.checked_add(1) else {
            return Err(AllocError);
        };
        let element = standing(types, node.element);
        let flags = copied_flags(node.flags);
        add_name(graph, types, Name::Copy(copy), element, flags)?;
        self.next = next;
        match self.names.insert(number, copy) {
            Ok(_) => Ok(()),
            Err(_) => Err(AllocError),
        }
    }
}

/// The same element, by the one number of its type.
fn standing(types: &TypeTable, element: Element) -> Element
    ensures stands { ElementStands types.now result }
    ensures same { element_in types.now result ≡ element_in types.now element }
{
    match element {
        Element::Missing => Element::Missing,
        Element::OfType(c_type) => Element::OfType(types.number_of(c_type)),
        Element::Collapsed => Element::Collapsed,
    }
}

/// The flags of a copy.
fn copied_flags(flags: Flags) -> Flags
    ensures { flags_of result ≡ record (flags_of flags) { complete = false; certain = true } }
{
    Flags {
        complete: false,
        certain: true,
        ..flags
    }
}
