// The groups of a program's functions.

ghost use Rattle.std.specs.Prelude.{◌≡◌, length, IfOk};
ghost use Rattle.tac_ir.specs.Views.{tac_of};
ghost use Rattle.tac_ir.specs.Groups.{AreGroups};
ghost use Rattle.call_graph.specs.Heads.{AreInside};
ghost use Rattle.call_graph.specs.ClassLists.{numbers_of};
ghost use Rattle.call_graph.specs.GroupLists.{AreCallHeads, AreBelow, in_groups, links_of, AreNumbers, ArePlaces};
ghost use Rattle.call_graph.specs.GroupViews.{CallsKnown, lists_of, groups_of, IsOf};

use crate::class_table::Classes;
use crate::components::component_numbers;
use crate::first_nodes::heads;
use crate::graph::call_graph;
use crate::group_lists::Groups;
use crate::order::in_order;
use crate::row_lists::rows;
use std::alloc::{AllocError, Global};
use tac_ir::{FunctionId, Tac};

/// The groups of a program.
pub fn groups(alloc: Global, tac: &Tac) -> Result<Groups, AllocError>
    requires { CallsKnown (tac_of tac.now) }
    ensures groups { IfOk result (λ made. AreGroups (tac_of tac.now) (groups_of made)) }
    ensures of { IfOk result (λ made. IsOf tac.now made) }
{
    let classes = Classes::of_program(alloc, tac)?;
    let edges = call_graph(alloc, tac, &classes)?;
    let heads = call_heads(alloc, tac.functions.len(), edges.as_slice())?;
    let order = in_order(alloc, edges.as_slice(), heads.as_slice())?;
    let members = members(alloc, heads.as_slice(), order.as_slice())?;
    let group_of = group_numbers(alloc, heads.as_slice(), order.as_slice())?;
    Ok(Groups {
        members,
        group_of,
        classes,
    })
}

/// Of each function, the first of its group.
fn call_heads(
    alloc: Global,
    count: usize,
    edges: &[(usize, usize)],
) -> Result<Vec<usize>, AllocError>
    requires { AreInside count edges.now }
    ensures { IfOk result (λ made. AreCallHeads count edges.now made.items) }
{
    let rows = rows(alloc, count, edges)?;
    let numbers = component_numbers(alloc, rows.as_slice())?;
    heads(alloc, numbers.as_slice())
}

/// The functions of each group, where these are the first of each function's group and of the groups in their order.
fn members(
    alloc: Global,
    heads: &[usize],
    order: &[usize],
) -> Result<Vec<Vec<FunctionId>>, AllocError>
    requires { AreBelow (length heads.now) order.now }
    ensures { IfOk result (λ made. lists_of made.items ≡ in_groups heads.now order.now) }
{
    let links = links(alloc, heads)?;
    let rows = rows(alloc, heads.len(), links.as_slice())?;
    let mut members = Vec::new(alloc);
    for head in order {
        let own = functions(alloc, rows[*head].as_slice())?;
        members.push(own)?;
    }
    Ok(members)
}

/// Each function with the first of its group before it.
fn links(alloc: Global, heads: &[usize]) -> Result<Vec<(usize, usize)>, AllocError>
    ensures { IfOk result (λ made. made.items ≡ links_of 0 heads.now) }
{
    let mut links = Vec::new(alloc);
    for (function, head) in heads.iter().enumerate() {
        links.push((*head, function))?;
    }
    Ok(links)
}

fn functions(alloc: Global, numbers: &[usize]) -> Result<Vec<FunctionId>, AllocError>
    ensures { IfOk result (λ made. numbers_of made.items ≡ numbers.now) }
{
    let mut functions = Vec::new(alloc);
    for number in numbers {
        functions.push(FunctionId(*number))?;
    }
    Ok(functions)
}

/// The number of each function's group.
fn group_numbers(alloc: Global, heads: &[usize], order: &[usize]) -> Result<Vec<usize>, AllocError>
    requires heads { AreBelow (length heads.now) heads.now }
    requires order { AreBelow (length heads.now) order.now }
    ensures { IfOk result (λ made. AreNumbers heads.now order.now made.items) }
{
    let places = places(alloc, heads.len(), order)?;
    let mut numbers = Vec::new(alloc);
    for head in heads {
        numbers.push(places[*head])?;
    }
    Ok(numbers)
}

/// Where each of the first functions stands.
fn places(alloc: Global, count: usize, order: &[usize]) -> Result<Vec<usize>, AllocError>
    requires { AreBelow count order.now }
    ensures { IfOk result (λ made. ArePlaces count order.now made.items) }
{
    let mut places = Vec::from_elem(alloc, 0, count)?;
    for (place, head) in order.iter().enumerate() {
        places[*head] = place;
    }
    Ok(places)
}
