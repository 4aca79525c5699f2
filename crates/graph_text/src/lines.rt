// The lines of names and of nodes.

ghost use Rattle.std.specs.Prelude.{◌≡◌, ◌++◌, OnOk};
ghost use Rattle.heap_graph.specs.Orders.{number_of, by_slot, EdgesAscend, SlotsAscend};
ghost use Rattle.graph_text.specs.Texts.{target_text, name_text, own_text, name_line, name_lines, edge_text, edges_text, node_line, node_lines};

use crate::element::put_element;
use crate::flags::put_flags;
use crate::function_labels::{Labels, put_label};
use crate::names::{Kind, Name, Named, Owner};
use crate::number::put_number;
use c_typed::TypeTable;
use heap_graph::{Edge, FrozenGraph, Node, NodeOrder, Target};
use std::alloc::AllocError;

/// Appends the lines of names.
pub(crate) fn put_names(
    text: &mut Vec<u8>,
    labels: &Labels,
    order: &NodeOrder,
    names: &[Named],
) -> Result<(), AllocError>
    ensures { OnOk result (text.new.items ≡ text.old.items ++ name_lines labels.now (number_of order.now) names.now) }
{
    for named in names {
        put_named(text, labels, order, *named)?;
    }
    Ok(())
}

/// Appends the line of a name.
fn put_named(
    text: &mut Vec<u8>,
    labels: &Labels,
    order: &NodeOrder,
    named: Named,
) -> Result<(), AllocError>
    ensures { OnOk result (text.new.items ≡ text.old.items ++ name_line labels.now (number_of order.now) named) }
{
    put_name(text, labels, named.name)?;
    text.push(b' ')?;
    put_target(text, order, named.target)?;
    text.push(b'\n')?;
    Ok(())
}

/// Appends a name.
fn put_name(text: &mut Vec<u8>, labels: &Labels, name: Name) -> Result<(), AllocError>
    ensures { OnOk result (text.new.items ≡ text.old.items ++ name_text labels.now name) }
{
    match name {
        Name::Global(number) => {
            text.push(b'&')?;
            put_label(text, &labels.globals, number)
        }
        Name::Literal(number) => {
            text.extend_from_slice(b"literal ")?;
            put_number(text, labels.literal(number))
        }
        Name::Own {
            owner,
            kind,
            number,
        } => {
            labels.put_owner(text, owner)?;
            text.push(b' ')?;
            put_own(text, labels, owner, kind, number)
        }
    }
}

/// Appends the name of what belongs to a function.
fn put_own(
    text: &mut Vec<u8>,
    labels: &Labels,
    owner: Owner,
    kind: Kind,
    number: usize,
) -> Result<(), AllocError>
    ensures { OnOk result (text.new.items ≡ text.old.items ++ own_text labels.now owner kind number) }
{
    match kind {
        Kind::Formal => labels.put_parameter(text, owner, number),
        Kind::Returned => text.extend_from_slice(b"return"),
        Kind::ParameterObject => {
            text.push(b'&')?;
            labels.put_parameter(text, owner, number)
        }
        Kind::Variable => labels.put_variable(text, owner, number),
        Kind::VariableObject => {
            text.push(b'&')?;
            labels.put_variable(text, owner, number)
        }
        Kind::Call => {
            text.extend_from_slice(b"call ")?;
            put_number(text, labels.call(owner, number))
        }
        Kind::Argument => {
            text.extend_from_slice(b"arg ")?;
            put_number(text, labels.argument(owner, number))
        }
    }
}

/// Appends a node's number and a shift.
fn put_target(text: &mut Vec<u8>, order: &NodeOrder, target: Target) -> Result<(), AllocError>
    ensures { OnOk result (text.new.items ≡ text.old.items ++ target_text (number_of order.now) target) }
{
    text.push(b'n')?;
    put_number(text, order.number(target.node) as u64)?;
    text.push(b'+')?;
    put_number(text, target.shift)
}

/// Appends the lines of nodes.
pub(crate) fn put_nodes(
    text: &mut Vec<u8>,
    table: &TypeTable,
    graph: &FrozenGraph,
    order: &NodeOrder,
) -> Result<(), AllocError>
    requires { EdgesAscend graph.now.nodes.items }
    ensures { OnOk result (text.new.items ≡ text.old.items ++ node_lines table.now graph.now.nodes.items (number_of order.now) order.now.order.items) }
{
    for number in order.as_slice() {
        put_node(text, table, graph, order, *number)?;
    }
    Ok(())
}

/// Appends the line of a node.
fn put_node(
    text: &mut Vec<u8>,
    table: &TypeTable,
    graph: &FrozenGraph,
    order: &NodeOrder,
    number: usize,
) -> Result<(), AllocError>
    requires { EdgesAscend graph.now.nodes.items }
    ensures { OnOk result (text.new.items ≡ text.old.items ++ node_line table.now graph.now.nodes.items (number_of order.now) number) }
{
    let Some(node) = graph.node(number) else {
        return Ok(());
    };
    text.push(b'n')?;
    put_number(text, order.number(number) as u64)?;
    text.push(b' ')?;
    put_element(text, table, node.element)?;
    text.push(b' ')?;
    put_flags(text, node.element, node.flags)?;
    put_node_edges(text, order, node)?;
    text.push(b'\n')?;
    Ok(())
}

/// Appends the edges of a node by their slots.
fn put_node_edges(text: &mut Vec<u8>, order: &NodeOrder, node: &Node) -> Result<(), AllocError>
    requires { SlotsAscend node.now.edges.items }
    ensures { OnOk result (text.new.items ≡ text.old.items ++ edges_text (number_of order.now) (by_slot node.now.edges.items)) }
{
    put_edges(text, order, &node.edges)?;
    Ok(())
}

/// Appends edges.
fn put_edges(text: &mut Vec<u8>, order: &NodeOrder, edges: &[Edge]) -> Result<(), AllocError>
    ensures { OnOk result (text.new.items ≡ text.old.items ++ edges_text (number_of order.now) edges.now) }
{
    for edge in edges {
        put_edge(text, order, *edge)?;
    }
    Ok(())
}

/// Appends an edge.
fn put_edge(text: &mut Vec<u8>, order: &NodeOrder, edge: Edge) -> Result<(), AllocError>
    ensures { OnOk result (text.new.items ≡ text.old.items ++ edge_text (number_of order.now) edge) }
{
    text.push(b' ')?;
    put_number(text, edge.slot)?;
    text.push(b'>')?;
    put_target(text, order, edge.to)
}
