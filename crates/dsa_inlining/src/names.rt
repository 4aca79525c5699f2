// The names of a group's functions.

ghost use Rattle.std.specs.Prelude.{◌≡◌, length, Some, IfOk, All};
ghost use Rattle.c_typed.specs.Table.{Interned};
ghost use Rattle.graph_unification.specs.Memory.{owner_of, graph_in, IsGraph};
ghost use Rattle.dsa_inlining.specs.Owners.{function_at, IsFunctionOf, TellsEach};

use graph_unification::{Graph, Owned, frozen_names};
use heap_graph::FunctionNames;
use std::alloc::{AllocError, Global};
use tac_ir::{Function, FunctionId, Tac};

/// The names of each owner, in the order of the owners.
pub(crate) fn names_of_owners(
    alloc: Global,
    tac: &Tac,
    graph: &Graph,
    owners: &[Option<FunctionId>],
) -> Result<Vec<FunctionNames>, AllocError>
    requires { All (IsFunctionOf tac.now) owners.now }
    ensures size { IfOk result (λ names. length names.items ≡ length owners.now) }
    ensures tells { IfOk result (λ names. (table : Interned) → IsGraph table graph.now → TellsEach (graph_in table graph.now) tac.now owners.now names.items) }
{
    let mut names = Vec::new(alloc);
    for owner in owners {
        let function = function_of(tac, *owner);
        let owned = Owned {
            owner: *owner,
            function,
        };
        let own = frozen_names(alloc, graph, owned)?;
        match names.push(own) {
            Ok(()) => {}
            Err(_) => return Err(AllocError),
        }
    }
    Ok(names)
}

/// The function of an owner.
fn function_of(tac: &Tac, owner: Option<FunctionId>) -> &Function
    requires { IsFunctionOf tac.now owner }
    ensures { function_at tac.now (owner_of owner) ≡ Some result.now }
{
    match owner {
        None => &tac.start,
        Some(function) => &tac.functions[function.0],
    }
}
