// First values that are stored into a variable.

ghost use Rattle.std.specs.Prelude.{◌≡◌, ◌<◌, true, length, OnOk};
ghost use Rattle.c_typed.specs.DefinitionViews.{scalar_of, held_of, LiteralsStand};
ghost use Rattle.c_typed.specs.Values as first;
ghost use Rattle.tac_ir.specs.Code.{AtGlobal};
ghost use Rattle.tac_ir.specs.States.{InStart};
ghost use Rattle.tac_ir.specs.Views.{tac_of};
ghost use Rattle.heap_graph.specs.Points.{base_part};
ghost use Rattle.heap_graph.specs.Targets.{has_target};
ghost use Rattle.graph_unification.specs.Memory.{graph_in, IsGraph};
ghost use Rattle.graph_unification.specs.GraphPremises.First.{IsWithin, PlaceStands, ValueStands, HeldStands};
ghost use Rattle.graph_unification.specs.Named.{HasGlobal};
ghost use Rattle.graph_unification.specs.Standing.{CodeStands};
ghost use Rattle.heap_graph.specs.Numbers.{AreNumbers};
ghost use Rattle.dsa_local.specs.Keeping.{IsAsked, Keeps};
ghost use Rattle.dsa_local.specs.Roots.{base_at};
ghost use Rattle.dsa_local.specs.Storing.{HasWritten, IsWritten, IsArrayIfMoved, PointsTo, IsValueStored, IsStored, place_in};

use crate::changes::{mark, mention};
use crate::edges::point;
use crate::parts::is_moved;
use crate::roots::{Root, static_root};
use c_typed::{Held, Part, Scalar, Static};
use graph_unification::{Graph, Mark};
use heap_graph::StaticNumbers;
use std::alloc::AllocError;
use tac_ir::{GlobalId, Tac};

/// Stores a first value into its variable.
pub(crate) fn store_held(
    graph: &mut Graph,
    tac: &Tac,
    numbers: &StaticNumbers,
    global: GlobalId,
    held: &Held,
) -> Result<(), AllocError>
    requires code { CodeStands (tac_of tac.now) }
    requires literals { LiteralsStand tac.now.types tac.now.literals.items }
    requires numbers { AreNumbers tac.now numbers.now }
    requires stands { HeldStands (tac_of tac.now) global.0 (held_of held.now) }
    requires graph { IsGraph tac.now.types graph.old }
    requires asked { IsAsked (tac_of tac.now) (λ other. IsStored (tac_of tac.now) other global.0 (held_of held.now)) }
    ensures graph { OnOk result (IsGraph tac.now.types graph.new) }
    ensures keeps { OnOk result (Keeps (tac_of tac.now) (graph_in tac.now.types graph.old) (graph_in tac.now.types graph.new)) }
    ensures stored { OnOk result (IsStored (tac_of tac.now) (graph_in tac.now.types graph.new) global.0 (held_of held.now)) }
{
    write(graph, tac, global)?;
    store_value(
        graph,
        tac,
        numbers,
        global,
        held.parts.as_slice(),
        &held.value,
    )?;
    Ok(())
}

/// Gives a variable a node that is written.
pub(crate) fn write(graph: &mut Graph, tac: &Tac, global: GlobalId) -> Result<(), AllocError>
    requires code { CodeStands (tac_of tac.now) }
    requires literals { LiteralsStand tac.now.types tac.now.literals.items }
    requires there { global.0 < length (tac_of tac.now).globals }
    requires graph { IsGraph tac.now.types graph.old }
    requires asked { IsAsked (tac_of tac.now) (λ other. HasWritten global.0 other) }
    ensures graph { OnOk result (IsGraph tac.now.types graph.new) }
    ensures keeps { OnOk result (Keeps (tac_of tac.now) (graph_in tac.now.types graph.old) (graph_in tac.now.types graph.new)) }
    ensures written { OnOk result (IsWritten (tac_of tac.now) (graph_in tac.now.types graph.new) global.0) }
{
    mention(graph, tac, Root::Global(global))?;
    mark(graph, tac, Root::Global(global), Mark::Modified);
    Ok(())
}

/// Stores a value into a part of a variable.
fn store_value(
    graph: &mut Graph,
    tac: &Tac,
    numbers: &StaticNumbers,
    global: GlobalId,
    leaf: &[Part],
    value: &Scalar,
) -> Result<(), AllocError>
    requires code { CodeStands (tac_of tac.now) }
    requires literals { LiteralsStand tac.now.types tac.now.literals.items }
    requires numbers { AreNumbers tac.now numbers.now }
    requires leaf { IsWithin (tac_of tac.now) (AtGlobal global.0) leaf.now }
    requires stands { ValueStands (tac_of tac.now) (scalar_of value.now) }
    requires graph { IsGraph tac.now.types graph.old }
    requires named { HasGlobal (tac_of tac.now) (graph_in tac.now.types graph.old) global.0 }
    requires asked { IsAsked (tac_of tac.now) (λ other. IsValueStored (tac_of tac.now) other global.0 leaf.now (scalar_of value.now)) }
    ensures graph { OnOk result (IsGraph tac.now.types graph.new) }
    ensures keeps { OnOk result (Keeps (tac_of tac.now) (graph_in tac.now.types graph.old) (graph_in tac.now.types graph.new)) }
    ensures stored { OnOk result (IsValueStored (tac_of tac.now) (graph_in tac.now.types graph.new) global.0 leaf.now (scalar_of value.now)) }
{
    match value {
        Scalar::Integer(_) => Ok(()),
        Scalar::Null => Ok(()),
        Scalar::Function(_) => Ok(()),
        Scalar::Pointer { root, parts, index } => {
            store_place(
                graph,
                tac,
                numbers,
                global,
                leaf,
                root,
                parts.as_slice(),
                *index,
            )
        }
    }
}

/// Stores a pointer to a part of the object that a constant names.
fn store_place(
    graph: &mut Graph,
    tac: &Tac,
    numbers: &StaticNumbers,
    global: GlobalId,
    leaf: &[Part],
    root: &Static,
    parts: &[Part],
    index: u64,
) -> Result<(), AllocError>
    requires code { CodeStands (tac_of tac.now) }
    requires literals { LiteralsStand tac.now.types tac.now.literals.items }
    requires numbers { AreNumbers tac.now numbers.now }
    requires leaf { IsWithin (tac_of tac.now) (AtGlobal global.0) leaf.now }
    requires stands { PlaceStands (tac_of tac.now) (place_in root.now parts.now index) }
    requires graph { IsGraph tac.now.types graph.old }
    requires named { HasGlobal (tac_of tac.now) (graph_in tac.now.types graph.old) global.0 }
    requires asked { IsAsked (tac_of tac.now) (λ other. IsValueStored (tac_of tac.now) other global.0 leaf.now (first.PointerValue (place_in root.now parts.now index))) }
    ensures graph { OnOk result (IsGraph tac.now.types graph.new) }
    ensures keeps { OnOk result (Keeps (tac_of tac.now) (graph_in tac.now.types graph.old) (graph_in tac.now.types graph.new)) }
    ensures stored { OnOk result (IsValueStored (tac_of tac.now) (graph_in tac.now.types graph.new) global.0 leaf.now (first.PointerValue (place_in root.now parts.now index))) }
{
    match static_root(numbers, root) {
        Some(target) => {
            store_pointer(graph, tac, global, leaf, target, parts, index)?;
            Ok(())
        }
        None => Ok(()),
    }
}

/// Stores a pointer to a part of an object.
fn store_pointer(
    graph: &mut Graph,
    tac: &Tac,
    global: GlobalId,
    leaf: &[Part],
    target: Root,
    parts: &[Part],
    index: u64,
) -> Result<(), AllocError>
    requires code { CodeStands (tac_of tac.now) }
    requires literals { LiteralsStand tac.now.types tac.now.literals.items }
    requires leaf { IsWithin (tac_of tac.now) (AtGlobal global.0) leaf.now }
    requires parts { IsWithin (tac_of tac.now) (base_at target) parts.now }
    requires graph { IsGraph tac.now.types graph.old }
    requires named { HasGlobal (tac_of tac.now) (graph_in tac.now.types graph.old) global.0 }
    requires asked { IsAsked (tac_of tac.now) (λ other. PointsTo (tac_of tac.now) other global.0 leaf.now (base_at target) parts.now index) }
    ensures graph { OnOk result (IsGraph tac.now.types graph.new) }
    ensures keeps { OnOk result (Keeps (tac_of tac.now) (graph_in tac.now.types graph.old) (graph_in tac.now.types graph.new)) }
    ensures points { OnOk result (PointsTo (tac_of tac.now) (graph_in tac.now.types graph.new) global.0 leaf.now (base_at target) parts.now index) }
{
    mention(graph, tac, target)?;
    mark_moved(graph, tac, target, parts, index);
    point(graph, tac, Root::Global(global), leaf, target, parts)?;
    Ok(())
}

/// Marks the node of an object as an array's where an element other than the first is named.
fn mark_moved(graph: &mut Graph, tac: &Tac, root: Root, parts: &[Part], index: u64)
    requires code { CodeStands (tac_of tac.now) }
    requires graph { IsGraph tac.now.types graph.old }
    requires there { has_target (base_part (tac_of tac.now) (graph_in tac.now.types graph.old) InStart (base_at root)).target ≡ true }
    requires asked { IsAsked (tac_of tac.now) (λ other. IsArrayIfMoved (tac_of tac.now) other (base_at root) parts.now index) }
    ensures graph { IsGraph tac.now.types graph.new }
    ensures keeps { Keeps (tac_of tac.now) (graph_in tac.now.types graph.old) (graph_in tac.now.types graph.new) }
    ensures array { IsArrayIfMoved (tac_of tac.now) (graph_in tac.now.types graph.new) (base_at root) parts.now index }
{
    if !is_moved(parts, index) {
        return;
    }
    mark(graph, tac, root, Mark::Array);
}
