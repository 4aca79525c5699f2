// Calls by name, of functions of the program.

ghost use Rattle.std.specs.Prelude.{◌≡◌, length, map, IsTrue};
ghost use Rattle.std.specs.List.{list_all};
ghost use Rattle.tac_ir.specs.Views.{op_in, tac_of};
ghost use Rattle.call_graph.specs.GroupViews.{CallsKnown};
ghost use Rattle.graph_tests.specs.KnownCalls.{is_known};

use tac_ir::{Callee, Op, Tac};

/// Whether each call by name is of a function of the program.
pub(crate) fn calls_are_known(tac: &Tac) -> bool
    ensures { IsTrue result → CallsKnown (tac_of tac.now) }
{
    for function in &tac.functions {
        if !are_known(tac, function.points.as_slice()) {
            return false;
        }
    }
    true
}

pub(crate) fn are_known(tac: &Tac, points: &[Op]) -> bool
    ensures { result ≡ list_all (is_known (length tac.now.functions.items)) (map (op_in tac.now.types) points.now) }
{
    for op in points {
        if !is_known(tac, op) {
            return false;
        }
    }
    true
}

/// Whether a point is no call by name, or one of a function of the program.
fn is_known(tac: &Tac, op: &Op) -> bool
    ensures { result ≡ is_known (length tac.now.functions.items) (op_in tac.now.types op.now) }
{
    match op {
        Op::Call { callee, .. } => match callee {
            Callee::Function(function) => function.0 < tac.functions.len(),
            Callee::Through { .. } => true,
        },
        _ => true,
    }
}
