// Variables outside functions and literals with which paths begin.

ghost use Rattle.std.specs.Prelude.{◌≡◌, map, Some, None, MatchOption, OnOk};
ghost use Rattle.c_typed.specs.Table.{Interned};
ghost use Rattle.c_typed.specs.DefinitionViews.{LiteralsStand};
ghost use Rattle.tac_ir.specs.Code.{AtGlobal, AtLiteral};
ghost use Rattle.tac_ir.specs.Views.{tac_of, base_in, path_in, op_in};
ghost use Rattle.graph_unification.specs.Memory.{graph_in, IsGraph};
ghost use Rattle.graph_unification.specs.Standing.{CodeStands};
ghost use Rattle.dsa_local.specs.Mentioned.{path_of};
ghost use Rattle.dsa_local.specs.Beginning.{AddsBase, AddsOp, AddsOps};

use graph_unification::{Graph, add_global, add_literal};
use std::alloc::AllocError;
use tac_ir::{Base, GlobalId, LiteralId, Op, Path, Tac};

/// Gives the variables outside functions and the literals with which paths of points begin nodes, where they have no targets yet.
pub(crate) fn add_mentioned(graph: &mut Graph, tac: &Tac, points: &[Op]) -> Result<(), AllocError>
    requires code { CodeStands (tac_of tac.now) }
    requires literals { LiteralsStand tac.now.types tac.now.literals.items }
    requires graph { IsGraph tac.now.types graph.old }
    ensures graph { OnOk result (IsGraph tac.now.types graph.new) }
    ensures adds { OnOk result (AddsOps (tac_of tac.now) (map (op_in tac.now.types) points.now) (graph_in tac.now.types graph.old) (graph_in tac.now.types graph.new)) }
{
    for op in points {
        add_outside(graph, tac, op)?;
    }
    Ok(())
}

/// The same for one point.
fn add_outside(graph: &mut Graph, tac: &Tac, op: &Op) -> Result<(), AllocError>
    requires code { CodeStands (tac_of tac.now) }
    requires literals { LiteralsStand tac.now.types tac.now.literals.items }
    requires graph { IsGraph tac.now.types graph.old }
    ensures graph { OnOk result (IsGraph tac.now.types graph.new) }
    ensures adds { OnOk result (AddsOp (tac_of tac.now) (op_in tac.now.types op.now) (graph_in tac.now.types graph.old) (graph_in tac.now.types graph.new)) }
{
    match path_of(op) {
        Some(path) => add_base(graph, tac, &path.base),
        None => Ok(()),
    }
}

/// The path of a point that has one.
fn path_of(op: &Op) -> Option<&Path>
    ensures { MatchOption result ((table : Interned) → path_of (op_in table op.now) ≡ None) (λ path. (table : Interned) → path_of (op_in table op.now) ≡ Some (path_in table path.now)) }
{
    match op {
        Op::Address { path, .. } => Some(path),
        Op::Load { path, .. } => Some(path),
        Op::Store { path, .. } => Some(path),
        _ => None,
    }
}

/// Gives what a path begins with a node, if it is outside functions.
fn add_base(graph: &mut Graph, tac: &Tac, base: &Base) -> Result<(), AllocError>
    requires code { CodeStands (tac_of tac.now) }
    requires literals { LiteralsStand tac.now.types tac.now.literals.items }
    requires graph { IsGraph tac.now.types graph.old }
    ensures graph { OnOk result (IsGraph tac.now.types graph.new) }
    ensures adds { OnOk result (AddsBase (tac_of tac.now) (base_in tac.now.types base.now) (graph_in tac.now.types graph.old) (graph_in tac.now.types graph.new)) }
{
    match base {
        Base::Local(_) => Ok(()),
        Base::Global(global) => mention_global(graph, tac, *global),
        Base::Literal(literal) => mention_literal(graph, tac, *literal),
        Base::Pointed { .. } => Ok(()),
        Base::Indexed { .. } => Ok(()),
    }
}

/// Gives a variable outside functions a node.
fn mention_global(graph: &mut Graph, tac: &Tac, global: GlobalId) -> Result<(), AllocError>
    requires code { CodeStands (tac_of tac.now) }
    requires graph { IsGraph tac.now.types graph.old }
    ensures graph { OnOk result (IsGraph tac.now.types graph.new) }
    ensures adds { OnOk result (AddsBase (tac_of tac.now) (AtGlobal global.0) (graph_in tac.now.types graph.old) (graph_in tac.now.types graph.new)) }
{
    match tac.globals.get(global.0) {
        Some(definition) => add_global(graph, &tac.types, global, definition.c_type),
        None => Ok(()),
    }
}

/// Gives a literal a node.
fn mention_literal(graph: &mut Graph, tac: &Tac, literal: LiteralId) -> Result<(), AllocError>
    requires code { CodeStands (tac_of tac.now) }
    requires literals { LiteralsStand tac.now.types tac.now.literals.items }
    requires graph { IsGraph tac.now.types graph.old }
    ensures graph { OnOk result (IsGraph tac.now.types graph.new) }
    ensures adds { OnOk result (AddsBase (tac_of tac.now) (AtLiteral literal.0) (graph_in tac.now.types graph.old) (graph_in tac.now.types graph.new)) }
{
    match tac.literals.get(literal.0) {
        Some(definition) => add_literal(graph, &tac.types, literal, definition.c_type),
        None => Ok(()),
    }
}
