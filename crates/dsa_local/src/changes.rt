// What first values change: objects that are mentioned, and flags.

ghost use Rattle.std.specs.Prelude.{◌≡◌, true, OnOk};
ghost use Rattle.c_typed.specs.DefinitionViews.{LiteralsStand};
ghost use Rattle.tac_ir.specs.States.{InStart};
ghost use Rattle.tac_ir.specs.Views.{tac_of};
ghost use Rattle.heap_graph.specs.Points.{base_part};
ghost use Rattle.heap_graph.specs.Targets.{has_target, at_target};
ghost use Rattle.graph_unification.specs.Memory.{graph_in, IsGraph};
ghost use Rattle.graph_unification.specs.Asked.{has_mark};
ghost use Rattle.graph_unification.specs.Named.{BaseNamed};
ghost use Rattle.graph_unification.specs.Standing.{CodeStands, BaseStands};
ghost use Rattle.dsa_local.specs.Keeping.{IsAsked, Keeps};
ghost use Rattle.dsa_local.specs.Roots.{base_at};

use crate::roots::Root;
use graph_unification::{Graph, Mark, add_global, add_literal, tell};
use heap_graph::elements_of;
use std::alloc::AllocError;
use tac_ir::Tac;

/// Gives an object a node, where it has no target yet, and tells its type.
pub fn mention(graph: &mut Graph, tac: &Tac, root: Root) -> Result<(), AllocError>
    requires code { CodeStands (tac_of tac.now) }
    requires literals { LiteralsStand tac.now.types tac.now.literals.items }
    requires there { BaseStands (tac_of tac.now) InStart (tac_of tac.now).start (base_at root) }
    requires graph { IsGraph tac.now.types graph.old }
    requires asked { IsAsked (tac_of tac.now) (λ other. has_target (base_part (tac_of tac.now) other InStart (base_at root)).target ≡ true) }
    ensures graph { OnOk result (IsGraph tac.now.types graph.new) }
    ensures keeps { OnOk result (Keeps (tac_of tac.now) (graph_in tac.now.types graph.old) (graph_in tac.now.types graph.new)) }
    ensures named { OnOk result (BaseNamed (tac_of tac.now) (graph_in tac.now.types graph.new) (base_at root)) }
{
    add(graph, tac, root)?;
    tell_type(graph, tac, root)?;
    Ok(())
}

/// Gives an object a node, where it has no target yet.
fn add(graph: &mut Graph, tac: &Tac, root: Root) -> Result<(), AllocError>
    requires code { CodeStands (tac_of tac.now) }
    requires literals { LiteralsStand tac.now.types tac.now.literals.items }
    requires there { BaseStands (tac_of tac.now) InStart (tac_of tac.now).start (base_at root) }
    requires graph { IsGraph tac.now.types graph.old }
    requires asked { IsAsked (tac_of tac.now) (λ other. has_target (base_part (tac_of tac.now) other InStart (base_at root)).target ≡ true) }
    ensures graph { OnOk result (IsGraph tac.now.types graph.new) }
    ensures keeps { OnOk result (Keeps (tac_of tac.now) (graph_in tac.now.types graph.old) (graph_in tac.now.types graph.new)) }
    ensures has { OnOk result (has_target (base_part (tac_of tac.now) (graph_in tac.now.types graph.new) InStart (base_at root)).target ≡ true) }
{
    match root {
        Root::Global(global) => match tac.globals.get(global.0) {
            Some(definition) => add_global(graph, &tac.types, global, definition.c_type),
            None => Ok(()),
        },
        Root::Literal(literal) => match tac.literals.get(literal.0) {
            Some(definition) => add_literal(graph, &tac.types, literal, definition.c_type),
            None => Ok(()),
        },
    }
}

/// Tells the type of an object, or that of its elements.
fn tell_type(graph: &mut Graph, tac: &Tac, root: Root) -> Result<(), AllocError>
    requires code { CodeStands (tac_of tac.now) }
    requires literals { LiteralsStand tac.now.types tac.now.literals.items }
    requires there { BaseStands (tac_of tac.now) InStart (tac_of tac.now).start (base_at root) }
    requires graph { IsGraph tac.now.types graph.old }
    requires has { has_target (base_part (tac_of tac.now) (graph_in tac.now.types graph.old) InStart (base_at root)).target ≡ true }
    requires asked { IsAsked (tac_of tac.now) (λ other. has_target (base_part (tac_of tac.now) other InStart (base_at root)).target ≡ true) }
    ensures graph { OnOk result (IsGraph tac.now.types graph.new) }
    ensures keeps { OnOk result (Keeps (tac_of tac.now) (graph_in tac.now.types graph.old) (graph_in tac.now.types graph.new)) }
    ensures named { OnOk result (BaseNamed (tac_of tac.now) (graph_in tac.now.types graph.new) (base_at root)) }
{
    match graph.target(root.name()) {
        Some(target) => {
            let c_type = elements_of(&tac.types, root.c_type(tac));
            tell(graph, &tac.types, target, c_type)?;
            Ok(())
        }
        None => Ok(()),
    }
}

/// Sets a flag of an object's node.
pub fn mark(graph: &mut Graph, tac: &Tac, root: Root, flag: Mark)
    requires code { CodeStands (tac_of tac.now) }
    requires graph { IsGraph tac.now.types graph.old }
    requires there { has_target (base_part (tac_of tac.now) (graph_in tac.now.types graph.old) InStart (base_at root)).target ≡ true }
    requires asked { IsAsked (tac_of tac.now) (λ other. at_target other (base_part (tac_of tac.now) other InStart (base_at root)).target (λ node shift. has_mark flag node.flags) ≡ true) }
    ensures graph { IsGraph tac.now.types graph.new }
    ensures keeps { Keeps (tac_of tac.now) (graph_in tac.now.types graph.old) (graph_in tac.now.types graph.new) }
    ensures marked { at_target (graph_in tac.now.types graph.new) (base_part (tac_of tac.now) (graph_in tac.now.types graph.new) InStart (base_at root)).target (λ node shift. has_mark flag node.flags) ≡ true }
{
    let _ = tac;
    match graph.target(root.name()) {
        Some(target) => {
            graph_unification::mark(graph, target.node, flag);
        }
        None => (),
    }
}
