// What heap graphs ask of variables outside functions and of literals.

ghost use Rattle.std.specs.Prelude.{◌≡◌, map};
ghost use Rattle.c_typed.specs.DefinitionViews.{global_in, literal_of, LiteralsStand};
ghost use Rattle.c_typed.specs.Table.{structs_in, type_in};
ghost use Rattle.tac_ir.specs.States.{Owner};
ghost use Rattle.heap_graph.specs.Closed.{Family, globals_closed, literals_closed};
ghost use Rattle.heap_graph.specs.Structures.{AreMade};
ghost use Rattle.heap_graph.specs.Frozen.{bare, static_in};
ghost use Rattle.heap_graph.specs.Shows.{ShowsGraph};
ghost use Rattle.graph_checker.specs.Objects.{ObjectsHaveSlots, static_at};

use crate::objects::{Place, object_closed};
use c_typed::{GlobalDef, LiteralDef, TypeTable};
use heap_graph::FrozenGraph;
use tac_ir::{GlobalId, LiteralId};

/// Whether each variable outside functions of which the graph tells is an object of its target's node. Others aren't looked at.
pub fn globals_closed(types: &TypeTable, graph: &FrozenGraph, globals: &[GlobalDef]) -> bool
    requires made { AreMade (structs_in types.now) }
    requires some { ObjectsHaveSlots (structs_in types.now) (map (λ global. type_in types.now global.c_type) globals.now) }
    ensures { (family : Family) (owner : Owner) → ShowsGraph types.now family owner graph.now → result ≡ globals_closed family owner 0 (map (global_in types.now) globals.now) }
{
    for number in graph.globals.keys().as_slice() {
        if !global_closed(types, graph, globals, GlobalId(*number)) {
            return false;
        }
    }
    true
}

/// Whether each literal of which the graph tells is an object of its target's node. Others aren't looked at.
pub fn literals_closed(types: &TypeTable, graph: &FrozenGraph, literals: &[LiteralDef]) -> bool
    requires made { AreMade (structs_in types.now) }
    requires some { ObjectsHaveSlots (structs_in types.now) (map (λ literal. type_in types.now literal.c_type) literals.now) }
    requires stand { LiteralsStand types.now literals.now }
    ensures { (family : Family) (owner : Owner) → ShowsGraph types.now family owner graph.now → result ≡ literals_closed family owner 0 (map literal_of literals.now) }
{
    for number in graph.literals.keys().as_slice() {
        if !literal_closed(types, graph, literals, LiteralId(*number)) {
            return false;
        }
    }
    true
}

fn global_closed(
    types: &TypeTable,
    graph: &FrozenGraph,
    globals: &[GlobalDef],
    number: GlobalId,
) -> bool
    requires made { AreMade (structs_in types.now) }
    requires some { ObjectsHaveSlots (structs_in types.now) (map (λ global. type_in types.now global.c_type) globals.now) }
    ensures { result ≡ static_at (structs_in types.now) (bare types.now graph.now) (static_in graph.now.globals) (map (λ global. type_in types.now global.c_type) globals.now) number.0 }
{
    let Some(global) = globals.get(number.0) else {
        return true;
    };
    match graph.global(number) {
        None => true,
        Some(target) => object_closed(types, graph, global.c_type, Place::Static, Some(target)),
    }
}

fn literal_closed(
    types: &TypeTable,
    graph: &FrozenGraph,
    literals: &[LiteralDef],
    number: LiteralId,
) -> bool
    requires made { AreMade (structs_in types.now) }
    requires some { ObjectsHaveSlots (structs_in types.now) (map (λ literal. type_in types.now literal.c_type) literals.now) }
    ensures { result ≡ static_at (structs_in types.now) (bare types.now graph.now) (static_in graph.now.literals) (map (λ literal. type_in types.now literal.c_type) literals.now) number.0 }
{
    let Some(literal) = literals.get(number.0) else {
        return true;
    };
    match graph.literal(number) {
        None => true,
        Some(target) => object_closed(types, graph, literal.c_type, Place::Static, Some(target)),
    }
}
