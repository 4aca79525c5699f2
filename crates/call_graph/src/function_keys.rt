// The types of the functions whose address is taken.

ghost use Rattle.std.specs.Prelude.{IfOk};
ghost use Rattle.tac_ir.specs.Views.{tac_of};
ghost use Rattle.call_graph.specs.TakenLists.{TellsTaken};
ghost use Rattle.call_graph.specs.ClassLists.{AreKeys};

use c_typed::CType;
use std::alloc::{AllocError, Global};
use tac_ir::Tac;

/// Of each function, the number of its type where its address is taken.
pub(crate) fn keys(
    alloc: Global,
    tac: &Tac,
    taken: &[bool],
) -> Result<Vec<Option<CType>>, AllocError>
    requires { TellsTaken (tac_of tac.now) taken.now }
    ensures { IfOk result (λ made. AreKeys tac.now made.items) }
{
    let mut keys = Vec::new(alloc);
    for (number, function) in tac.functions.iter().enumerate() {
        let own = tac.types.number_of(function.c_type);
        let key = if taken[number] { Some(own) } else { None };
        keys.push(key)?;
    }
    Ok(keys)
}
