// What is to be seen of a graph and of its types.

ghost use Rattle.graph_tests.specs.Objects.{AreTypes};

use crate::scenes::{Kind, Place, element_of, register, target_at};
use crate::types::Types;
use graph_unification::Graph;
use heap_graph::{Flags, has_part, slots_of};
use std::alloc::{AllocError, Global};

#[derive(Clone, Copy)]
pub(crate) enum Sight {
    /// Whether at a slot of a type another begins.
    Part(usize, u64, usize, bool),
    /// The target of a register.
    Target(usize, Place),
    /// The target of the edge of a slot.
    Edge(Place, Option<Place>),
    /// The slot and the target of an edge of a node, by how many stand before it.
    EdgeAt(Place, usize, Option<(u64, Place)>),
    Node(Place, Option<(Kind, Flags)>),
    NodeCount(usize),
    /// The numbers of the variables outside functions.
    Globals(&'static [usize]),
    Literals(&'static [usize]),
}

/// Whether a graph looks so.
pub(crate) fn is_seen(
    alloc: Global,
    types: &Types,
    graph: &Graph,
    sight: Sight,
) -> Result<bool, AllocError>
    requires { AreTypes types.now.table types.now.list.items }
{
    match sight {
        Sight::Part(whole, slot, part, is) => is_part(types, whole, slot, part, is),
        Sight::Target(number, place) => is_target(graph, number, place),
        Sight::Edge(from, to) => is_edge(graph, from, to),
        Sight::EdgeAt(node, index, edge) => is_edge_at(graph, node, index, edge),
        Sight::Node(place, node) => is_node(types, graph, place, node),
        Sight::NodeCount(count) => Ok(graph.node_count() == count),
        Sight::Globals(numbers) => Ok(graph.globals(alloc)?.as_slice() == numbers),
        Sight::Literals(numbers) => Ok(graph.literals(alloc)?.as_slice() == numbers),
    }
}

/// Whether it is so that a part of a type begins at a slot of another.
fn is_part(
    types: &Types,
    whole: usize,
    slot: u64,
    part: usize,
    is: bool,
) -> Result<bool, AllocError>
    requires { AreTypes types.now.table types.now.list.items }
{
    let outer = types.get(whole)?;
    let inner = types.get(part)?;
    if slots_of(&types.table, inner) == 0 {
        return Err(AllocError);
    }
    Ok(has_part(&types.table, outer, slot, inner) == is)
}

fn is_target(graph: &Graph, number: usize, place: Place) -> Result<bool, AllocError> {
    let target = target_at(graph, place)?;
    Ok(graph.target(register(number)) == Some(target))
}

fn is_edge(graph: &Graph, from: Place, to: Option<Place>) -> Result<bool, AllocError> {
    let at = target_at(graph, from)?;
    let edge = graph.edge(at.node, at.shift);
    match to {
        Some(place) => Ok(edge == Some(target_at(graph, place)?)),
        None => Ok(edge == None),
    }
}

fn is_edge_at(
    graph: &Graph,
    node: Place,
    index: usize,
    wanted: Option<(u64, Place)>,
) -> Result<bool, AllocError> {
    let at = target_at(graph, node)?;
    let edge = graph.edge_at(at.node, index);
    match wanted {
        Some((slot, place)) => Ok(edge == Some((slot, target_at(graph, place)?))),
        None => Ok(edge == None),
    }
}

fn is_node(
    types: &Types,
    graph: &Graph,
    place: Place,
    wanted: Option<(Kind, Flags)>,
) -> Result<bool, AllocError>
    requires { AreTypes types.now.table types.now.list.items }
{
    let at = target_at(graph, place)?;
    let node = graph.node(at.node);
    match wanted {
        Some((kind, flags)) => Ok(node == Some((element_of(types, kind)?, flags))),
        None => Ok(node == None),
    }
}
