// Rounds over the functions of a group.

ghost use Rattle.std.specs.Prelude.{◌||◌, ◌≡◌, IfOk, OnOk};
ghost use Rattle.c_typed.specs.Table.{structs_in};
ghost use Rattle.tac_ir.specs.Views.{tac_of};
ghost use Rattle.graph_unification.specs.Memory.{graph_in, IsGraph};
ghost use Rattle.graph_unification.specs.Leading.{Leads};
ghost use Rattle.graph_unification.specs.Applying.{Applies};
ghost use Rattle.graph_unification.specs.Going.{GoesOn};
ghost use Rattle.dsa_local.specs.Rounds.{owners_of, Settled, AreFit, Advances};

use crate::agenda::{Agenda, Waiting};
use crate::code::points_of;
use graph_unification::{Applied, Graph, Name};
use heap_graph::Scope;
use std::alloc::AllocError;
use tac_ir::Tac;

/// Does what the points of functions ask of a graph, in rounds, until nothing is left to do.
pub fn settle(tac: &Tac, scopes: &[Scope], graph: &mut Graph) -> Result<(), AllocError>
    requires graph { IsGraph tac.now.types graph.old }
    requires fit { AreFit tac.now (graph_in tac.now.types graph.old) scopes.now }
    ensures graph { OnOk result (IsGraph tac.now.types graph.new) }
    ensures goes { OnOk result (GoesOn (structs_in tac.now.types) (graph_in tac.now.types graph.old) (graph_in tac.now.types graph.new)) }
    ensures settled { OnOk result (Settled (tac_of tac.now) (owners_of scopes.now) (graph_in tac.now.types graph.new)) }
    ensures leads { OnOk result (Leads (structs_in tac.now.types) (graph_in tac.now.types graph.old) (graph_in tac.now.types graph.new) (Settled (tac_of tac.now) (owners_of scopes.now))) }
{
    begin(tac, scopes, graph)?;
    for _round in 0..u64::MAX {
        if !round(tac, scopes, graph)? {
            return Ok(());
        }
    }
    Err(AllocError)
}

/// Does what the points of functions ask, one after the other, and answers whether the graph was changed.
fn round(tac: &Tac, scopes: &[Scope], graph: &mut Graph) -> Result<bool, AllocError>
    requires graph { IsGraph tac.now.types graph.old }
    requires fit { AreFit tac.now (graph_in tac.now.types graph.old) scopes.now }
    ensures graph { OnOk result (IsGraph tac.now.types graph.new) }
    ensures applies { IfOk result (λ changed. Applies (structs_in tac.now.types) changed (graph_in tac.now.types graph.old) (graph_in tac.now.types graph.new) (Settled (tac_of tac.now) (owners_of scopes.now))) }
{
    let mut changed = false;
    for scope in scopes {
        let applied = Applied { tac, scope };
        let touched = applied.apply_all(graph, points_of(tac, scope.owner))?;
        changed = either(changed, touched);
    }
    Ok(changed)
}

/// Whether one of two things was changed.
fn either(a: bool, b: bool) -> bool
    ensures { result ≡ (a || b) }
{
    if a { true } else { b }
}

// ---- before the rounds

/// A round, and then the points again whose registers' nodes became certain, so that the rounds find hardly anything to do.
fn begin(tac: &Tac, scopes: &[Scope], graph: &mut Graph) -> Result<(), AllocError>
    requires graph { IsGraph tac.now.types graph.old }
    requires fit { AreFit tac.now (graph_in tac.now.types graph.old) scopes.now }
    ensures graph { OnOk result (IsGraph tac.now.types graph.new) }
    ensures advances { OnOk result (Advances tac.now scopes.now (graph_in tac.now.types graph.old) (graph_in tac.now.types graph.new)) }
{
    let agenda = Agenda::of(*tac.functions.allocator(), tac, scopes)?;
    work(tac, scopes, &agenda, graph)
}

fn work(tac: &Tac, scopes: &[Scope], agenda: &Agenda, graph: &mut Graph) -> Result<(), AllocError>
    requires graph { IsGraph tac.now.types graph.old }
    requires fit { AreFit tac.now (graph_in tac.now.types graph.old) scopes.now }
    ensures graph { OnOk result (IsGraph tac.now.types graph.new) }
    ensures advances { OnOk result (Advances tac.now scopes.now (graph_in tac.now.types graph.old) (graph_in tac.now.types graph.new)) }
{
    round(tac, scopes, graph)?;
    for _turn in 0..u64::MAX {
        let Some(name) = graph.take_certain() else {
            return Ok(());
        };
        wake(tac, scopes, agenda, name, graph)?;
    }
    Ok(())
}

/// Does what the points ask that wait for a name.
fn wake(
    tac: &Tac,
    scopes: &[Scope],
    agenda: &Agenda,
    name: Name,
    graph: &mut Graph,
) -> Result<(), AllocError>
    requires graph { IsGraph tac.now.types graph.old }
    requires fit { AreFit tac.now (graph_in tac.now.types graph.old) scopes.now }
    ensures graph { OnOk result (IsGraph tac.now.types graph.new) }
    ensures advances { OnOk result (Advances tac.now scopes.now (graph_in tac.now.types graph.old) (graph_in tac.now.types graph.new)) }
{
    let mut next = agenda.last_for(name);
    for _turn in 0..agenda.waiting.len() {
        let Some(number) = next else {
            return Ok(());
        };
        let Some(waiting) = agenda.waiting.get(number) else {
            return Ok(());
        };
        apply_again(tac, scopes, *waiting, graph)?;
        next = waiting.before;
    }
    Ok(())
}

/// Does what a point asks.
fn apply_again(
    tac: &Tac,
    scopes: &[Scope],
    waiting: Waiting,
    graph: &mut Graph,
) -> Result<(), AllocError>
    requires graph { IsGraph tac.now.types graph.old }
    requires fit { AreFit tac.now (graph_in tac.now.types graph.old) scopes.now }
    ensures graph { OnOk result (IsGraph tac.now.types graph.new) }
    ensures advances { OnOk result (Advances tac.now scopes.now (graph_in tac.now.types graph.old) (graph_in tac.now.types graph.new)) }
{
    let Some(scope) = scopes.get(waiting.scope) else {
        return Ok(());
    };
    let Some(op) = points_of(tac, scope.owner).get(waiting.point) else {
        return Ok(());
    };
    let applied = Applied { tac, scope };
    applied.apply(graph, op)?;
    Ok(())
}
