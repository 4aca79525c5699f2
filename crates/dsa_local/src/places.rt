// Places in objects outside functions.

ghost use Rattle.std.specs.Prelude.{◌≡◌, true, option_map};
ghost use Rattle.c_typed.specs.Table.{structs_in};
ghost use Rattle.c_typed.specs.DefinitionViews.{LiteralsStand};
ghost use Rattle.tac_ir.specs.States.{InStart};
ghost use Rattle.tac_ir.specs.Views.{tac_of};
ghost use Rattle.heap_graph.specs.Memory.{target_of};
ghost use Rattle.heap_graph.specs.Points.{base_part, path_part};
ghost use Rattle.heap_graph.specs.Structures.{AreMade};
ghost use Rattle.heap_graph.specs.Targets.{has_target};
ghost use Rattle.graph_unification.specs.Memory.{graph_in, IsGraph};
ghost use Rattle.graph_unification.specs.Fits.{PathFits};
ghost use Rattle.dsa_local.specs.Roots.{base_at};
ghost use Rattle.graph_unification.specs.GraphPremises.First.{path_to};

use crate::parts::{has_member, slots_to};
use crate::roots::Root;
use c_typed::Part;
use graph_unification::Graph;
use heap_graph::{Element, Target};
use tac_ir::Tac;

/// Where steps lead from an object.
pub fn place(graph: &Graph, tac: &Tac, root: Root, parts: &[Part]) -> Option<Target>
    requires literals { LiteralsStand tac.now.types tac.now.literals.items }
    requires made { AreMade (structs_in tac.now.types) }
    requires graph { IsGraph tac.now.types graph.now }
    requires there { has_target (base_part (tac_of tac.now) (graph_in tac.now.types graph.now) InStart (base_at root)).target ≡ true }
    requires fits { PathFits (tac_of tac.now) (graph_in tac.now.types graph.now) InStart (path_to (base_at root) parts.now) }
    ensures { option_map target_of result ≡ (path_part (tac_of tac.now) (graph_in tac.now.types graph.now) InStart (path_to (base_at root) parts.now)).target }
{
    let target = graph.target(root.name())?;
    if !has_member(parts) {
        return Some(target);
    }
    let (element, _) = graph.node(target.node)?;
    let shift = match element {
        Element::Missing => 0,
        Element::OfType(_) => {
            let slots = slots_to(&tac.types, parts, root.c_type(tac));
            target.shift.saturating_add(slots)
        }
        Element::Collapsed => 0,
    };
    Some(Target {
        node: target.node,
        shift,
    })
}
