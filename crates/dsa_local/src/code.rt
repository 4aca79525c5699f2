// The points of functions.

ghost use Rattle.std.specs.Prelude.{◌≡◌, map};
ghost use Rattle.tac_ir.specs.Views.{op_in, tac_of};
ghost use Rattle.heap_graph.specs.Known.{owner_at};
ghost use Rattle.dsa_local.specs.Rounds.{points_at};

use tac_ir::{FunctionId, Op, Tac};

/// The points of a function, or of `start`; none where there is no such function.
pub(crate) fn points_of(tac: &Tac, owner: Option<FunctionId>) -> &[Op]
    ensures { map (op_in tac.now.types) result.now ≡ points_at (tac_of tac.now) (owner_at owner) }
{
    match owner {
        None => tac.start.points.as_slice(),
        Some(number) => match tac.functions.get(number.0) {
            None => &[],
            Some(function) => function.points.as_slice(),
        },
    }
}
