// The first values of all variables outside functions.

ghost use Rattle.std.specs.Prelude.{◌≡◌, ◌<◌, length, OnOk};
ghost use Rattle.std.specs.List.{AllByRecursion};
ghost use Rattle.c_typed.specs.DefinitionViews.{first_of, all_first, LiteralsStand};
ghost use Rattle.tac_ir.specs.Views.{tac_of};
ghost use Rattle.graph_unification.specs.Memory.{graph_in, IsGraph};
ghost use Rattle.graph_unification.specs.GraphPremises.First.{HeldStands, FirstStands};
ghost use Rattle.graph_unification.specs.Standing.{CodeStands};
ghost use Rattle.heap_graph.specs.Numbers.{AreNumbers};
ghost use Rattle.dsa_local.specs.FirstTold.{FirstTold};
ghost use Rattle.dsa_local.specs.Keeping.{IsAsked, Keeps};
ghost use Rattle.dsa_local.specs.Storing.{AreStored};

use crate::stores::{store_held, write};
use c_typed::{First, GlobalDef};
use graph_unification::Graph;
use heap_graph::StaticNumbers;
use std::alloc::{AllocError, Global};
use tac_ir::{GlobalId, Tac};

/// Stores the first values of all variables outside functions into them.
pub fn apply_first(alloc: Global, tac: &Tac, graph: &mut Graph) -> Result<(), AllocError>
    requires code { CodeStands (tac_of tac.now) }
    requires literals { LiteralsStand tac.now.types tac.now.literals.items }
    requires first { FirstStands (tac_of tac.now) }
    requires graph { IsGraph tac.now.types graph.old }
    ensures graph { OnOk result (IsGraph tac.now.types graph.new) }
    ensures keeps { OnOk result (Keeps (tac_of tac.now) (graph_in tac.now.types graph.old) (graph_in tac.now.types graph.new)) }
    ensures told { OnOk result (FirstTold (tac_of tac.now) (graph_in tac.now.types graph.new)) }
{
    let numbers = StaticNumbers::of_program(alloc, tac)?;
    store_globals(graph, tac, &numbers, tac.globals.as_slice())
}

fn store_globals(
    graph: &mut Graph,
    tac: &Tac,
    numbers: &StaticNumbers,
    globals: &[GlobalDef],
) -> Result<(), AllocError>
    requires code { CodeStands (tac_of tac.now) }
    requires literals { LiteralsStand tac.now.types tac.now.literals.items }
    requires first { FirstStands (tac_of tac.now) }
    requires numbers { AreNumbers tac.now numbers.now }
    requires globals { globals.now ≡ tac.now.globals.items }
    requires graph { IsGraph tac.now.types graph.old }
    ensures graph { OnOk result (IsGraph tac.now.types graph.new) }
    ensures keeps { OnOk result (Keeps (tac_of tac.now) (graph_in tac.now.types graph.old) (graph_in tac.now.types graph.new)) }
    ensures told { OnOk result (FirstTold (tac_of tac.now) (graph_in tac.now.types graph.new)) }
{
    for (number, global) in globals.iter().enumerate() {
        store_all(
            graph,
            tac,
            numbers,
            GlobalId(number),
            global.first.as_slice(),
        )?;
    }
    Ok(())
}

/// Stores the first values of a variable into it.
fn store_all(
    graph: &mut Graph,
    tac: &Tac,
    numbers: &StaticNumbers,
    global: GlobalId,
    firsts: &[First],
) -> Result<(), AllocError>
    requires code { CodeStands (tac_of tac.now) }
    requires literals { LiteralsStand tac.now.types tac.now.literals.items }
    requires numbers { AreNumbers tac.now numbers.now }
    requires there { global.0 < length (tac_of tac.now).globals }
    requires stand { AllByRecursion (HeldStands (tac_of tac.now) global.0) (all_first firsts.now) }
    requires graph { IsGraph tac.now.types graph.old }
    requires asked { IsAsked (tac_of tac.now) (λ other. AreStored (tac_of tac.now) other global.0 (all_first firsts.now)) }
    ensures graph { OnOk result (IsGraph tac.now.types graph.new) }
    ensures keeps { OnOk result (Keeps (tac_of tac.now) (graph_in tac.now.types graph.old) (graph_in tac.now.types graph.new)) }
    ensures stored { OnOk result (AreStored (tac_of tac.now) (graph_in tac.now.types graph.new) global.0 (all_first firsts.now)) }
{
    for first in firsts {
        store_first(graph, tac, numbers, global, first)?;
    }
    Ok(())
}

/// Stores the first values that a part of an initializer gives. The characters of a text point nowhere.
fn store_first(
    graph: &mut Graph,
    tac: &Tac,
    numbers: &StaticNumbers,
    global: GlobalId,
    first: &First,
) -> Result<(), AllocError>
    requires code { CodeStands (tac_of tac.now) }
    requires literals { LiteralsStand tac.now.types tac.now.literals.items }
    requires numbers { AreNumbers tac.now numbers.now }
    requires there { global.0 < length (tac_of tac.now).globals }
    requires stand { AllByRecursion (HeldStands (tac_of tac.now) global.0) (first_of first.now) }
    requires graph { IsGraph tac.now.types graph.old }
    requires asked { IsAsked (tac_of tac.now) (λ other. AreStored (tac_of tac.now) other global.0 (first_of first.now)) }
    ensures graph { OnOk result (IsGraph tac.now.types graph.new) }
    ensures keeps { OnOk result (Keeps (tac_of tac.now) (graph_in tac.now.types graph.old) (graph_in tac.now.types graph.new)) }
    ensures stored { OnOk result (AreStored (tac_of tac.now) (graph_in tac.now.types graph.new) global.0 (first_of first.now)) }
{
    match first {
        First::Scalar(held) => {
            store_held(graph, tac, numbers, global, held)?;
            Ok(())
        }
        First::Text { bytes, .. } => {
            if bytes.as_slice().is_empty() {
                return Ok(());
            }
            write(graph, tac, global)?;
            Ok(())
        }
    }
}
