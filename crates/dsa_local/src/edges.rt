// Edges that first values set.

ghost use Rattle.std.specs.Prelude.{◌≡◌, OnOk};
ghost use Rattle.c_typed.specs.DefinitionViews.{LiteralsStand};
ghost use Rattle.tac_ir.specs.States.{InStart};
ghost use Rattle.tac_ir.specs.Views.{tac_of};
ghost use Rattle.heap_graph.specs.Points.{path_part};
ghost use Rattle.heap_graph.specs.Targets.{edge_at};
ghost use Rattle.graph_unification.specs.Memory.{graph_in, IsGraph};
ghost use Rattle.graph_unification.specs.Standing.{CodeStands};
ghost use Rattle.graph_unification.specs.Named.{BaseNamed};
ghost use Rattle.dsa_local.specs.Keeping.{IsAsked, Keeps};
ghost use Rattle.dsa_local.specs.Roots.{base_at};
ghost use Rattle.graph_unification.specs.GraphPremises.First.{IsWithin, path_to};

use crate::places::place;
use crate::roots::Root;
use c_typed::Part;
use graph_unification::{Graph, set_edge_to};
use std::alloc::AllocError;
use tac_ir::Tac;

/// Gives the slot of a part of an object an edge to a part of an object.
pub fn point(
    graph: &mut Graph,
    tac: &Tac,
    root: Root,
    leaf: &[Part],
    target: Root,
    parts: &[Part],
) -> Result<(), AllocError>
    requires code { CodeStands (tac_of tac.now) }
    requires literals { LiteralsStand tac.now.types tac.now.literals.items }
    requires graph { IsGraph tac.now.types graph.old }
    requires leaf { IsWithin (tac_of tac.now) (base_at root) leaf.now }
    requires parts { IsWithin (tac_of tac.now) (base_at target) parts.now }
    requires from { BaseNamed (tac_of tac.now) (graph_in tac.now.types graph.old) (base_at root) }
    requires to { BaseNamed (tac_of tac.now) (graph_in tac.now.types graph.old) (base_at target) }
    requires asked { IsAsked (tac_of tac.now) (λ other. edge_at other (path_part (tac_of tac.now) other InStart (path_to (base_at root) leaf.now)).target
        ≡ (path_part (tac_of tac.now) other InStart (path_to (base_at target) parts.now)).target) }
    ensures graph { OnOk result (IsGraph tac.now.types graph.new) }
    ensures keeps { OnOk result (Keeps (tac_of tac.now) (graph_in tac.now.types graph.old) (graph_in tac.now.types graph.new)) }
    ensures edge { OnOk result (edge_at (graph_in tac.now.types graph.new) (path_part (tac_of tac.now) (graph_in tac.now.types graph.new) InStart (path_to (base_at root) leaf.now)).target
        ≡ (path_part (tac_of tac.now) (graph_in tac.now.types graph.new) InStart (path_to (base_at target) parts.now)).target) }
{
    let at = match place(graph, tac, root, leaf) {
        Some(at) => at,
        None => return Ok(()),
    };
    let end = match place(graph, tac, target, parts) {
        Some(end) => end,
        None => return Ok(()),
    };
    set_edge_to(graph, &tac.types, at, end)?;
    Ok(())
}
