// What is told of allocations when all types are final.

ghost use Rattle.std.specs.Prelude.{◌≡◌, true, map};
ghost use Rattle.c_typed.specs.Table.{structs_in};
ghost use Rattle.dsa_local.specs.Sizes.{is_size_of};
ghost use Rattle.tac_ir.specs.Views.{tree_of, op_in, tac_of};
ghost use Rattle.heap_graph.specs.Memory.{element_in};
ghost use Rattle.heap_graph.specs.Structures.{AreMade};
ghost use Rattle.heap_graph.specs.Known.{owner_at};
ghost use Rattle.graph_unification.specs.Memory.{name_of, graph_in, IsGraph};
ghost use Rattle.graph_unification.specs.Going.{GoesOn};
ghost use Rattle.heap_graph.specs.Asks.{sizes_told};
ghost use Rattle.dsa_local.specs.Rounds.{owners_of, Settled};
ghost use Rattle.dsa_local.specs.Growing.{OnlyFlagsGrow, OnlyArrays};
ghost use Rattle.dsa_local.specs.Sizes.{SizeIsTold, AllSizesTold, SizesTold, AsksSize, AsksOp, AsksPoint, AsksOwner};

use crate::code::points_of;
use c_typed::TypeTable;
use graph_unification::{Graph, Name};
use heap_graph::{Element, Flags, Scope, constant_of, size_of};
use tac_ir::{FunctionId, Op, Register, Tac, Tree};

/// Tells of the objects of each allocation that they are of an array, unless the size is a constant, that of one object of the node's type.
pub fn tell_sizes(tac: &Tac, scopes: &[Scope], graph: &mut Graph)
    requires made { AreMade (structs_in tac.now.types) }
    requires graph { IsGraph tac.now.types graph.old }
    requires settled { Settled (tac_of tac.now) (owners_of scopes.now) (graph_in tac.now.types graph.old) }
    ensures graph { IsGraph tac.now.types graph.new }
    ensures goes { GoesOn (structs_in tac.now.types) (graph_in tac.now.types graph.old) (graph_in tac.now.types graph.new) }
    ensures grows { OnlyFlagsGrow (graph_in tac.now.types graph.old) (graph_in tac.now.types graph.new) }
    ensures settled { Settled (tac_of tac.now) (owners_of scopes.now) (graph_in tac.now.types graph.new) }
    ensures told { SizesTold (tac_of tac.now) (owners_of scopes.now) (graph_in tac.now.types graph.new) }
    ensures arrays { OnlyArrays (AsksOwner (tac_of tac.now) (owners_of scopes.now) (graph_in tac.now.types graph.old)) (graph_in tac.now.types graph.old) (graph_in tac.now.types graph.new) }
{
    for scope in scopes {
        tell_all(tac, scope.owner, points_of(tac, scope.owner), graph);
    }
}

/// The same of the allocations of one function.
fn tell_all(tac: &Tac, owner: Option<FunctionId>, points: &[Op], graph: &mut Graph)
    requires made { AreMade (structs_in tac.now.types) }
    requires graph { IsGraph tac.now.types graph.old }
    ensures graph { IsGraph tac.now.types graph.new }
    ensures goes { GoesOn (structs_in tac.now.types) (graph_in tac.now.types graph.old) (graph_in tac.now.types graph.new) }
    ensures grows { OnlyFlagsGrow (graph_in tac.now.types graph.old) (graph_in tac.now.types graph.new) }
    ensures told { AllSizesTold (tac_of tac.now) (owner_at owner) (map (op_in tac.now.types) points.now) (graph_in tac.now.types graph.new) }
    ensures arrays { OnlyArrays (AsksPoint (tac_of tac.now) (owner_at owner) (map (op_in tac.now.types) points.now) (graph_in tac.now.types graph.old)) (graph_in tac.now.types graph.old) (graph_in tac.now.types graph.new) }
{
    for op in points {
        tell_point(tac, owner, op, graph);
    }
}

/// The same of a point, if it is an allocation.
fn tell_point(tac: &Tac, owner: Option<FunctionId>, op: &Op, graph: &mut Graph)
    requires made { AreMade (structs_in tac.now.types) }
    requires graph { IsGraph tac.now.types graph.old }
    ensures graph { IsGraph tac.now.types graph.new }
    ensures goes { GoesOn (structs_in tac.now.types) (graph_in tac.now.types graph.old) (graph_in tac.now.types graph.new) }
    ensures grows { OnlyFlagsGrow (graph_in tac.now.types graph.old) (graph_in tac.now.types graph.new) }
    ensures told { sizes_told (tac_of tac.now) (graph_in tac.now.types graph.new) (owner_at owner) (op_in tac.now.types op.now) ≡ true }
    ensures arrays { OnlyArrays (AsksOp (tac_of tac.now) (owner_at owner) (op_in tac.now.types op.now) (graph_in tac.now.types graph.old)) (graph_in tac.now.types graph.old) (graph_in tac.now.types graph.new) }
{
    match op {
        Op::Allocate { site, size } => {
            let name = Name::Register {
                function: owner,
                register: Register::Call(*site),
            };
            tell_size(&tac.types, name, size, graph)
        }
        _ => (),
    }
}

/// The same of the node of a name.
fn tell_size(types: &TypeTable, name: Name, size: &Tree, graph: &mut Graph)
    requires made { AreMade (structs_in types.now) }
    requires graph { IsGraph types.now graph.old }
    ensures graph { IsGraph types.now graph.new }
    ensures goes { GoesOn (structs_in types.now) (graph_in types.now graph.old) (graph_in types.now graph.new) }
    ensures grows { OnlyFlagsGrow (graph_in types.now graph.old) (graph_in types.now graph.new) }
    ensures told { SizeIsTold (structs_in types.now) (name_of name) (tree_of size.now) (graph_in types.now graph.new) }
    ensures arrays { OnlyArrays (AsksSize (structs_in types.now) (name_of name) (tree_of size.now) (graph_in types.now graph.old)) (graph_in types.now graph.old) (graph_in types.now graph.new) }
{
    let Some(target) = graph.target(name) else {
        return;
    };
    let Some((element, flags)) = graph.node(target.node) else {
        return;
    };
    if is_size_of(types, size, element) {
        return;
    }
    let flags = Flags {
        array: true,
        ..flags
    };
    graph.set_flags(target.node, flags);
}

/// Whether a size is a constant, that of an object of the type.
fn is_size_of(types: &TypeTable, size: &Tree, element: Element) -> bool
    ensures { result ≡ is_size_of (structs_in types.now) (tree_of size.now) (element_in types.now element) }
{
    match element {
        Element::Missing => false,
        Element::OfType(c_type) => match constant_of(size) {
            None => false,
            Some(value) => value == i128::from(size_of(types, c_type)),
        },
        Element::Collapsed => false,
    }
}
