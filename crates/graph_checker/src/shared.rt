// Functions to which one call may come.

ghost use Rattle.std.specs.Prelude.{◌≡◌, ◌↔◌, ℕ, true};
ghost use Rattle.tac_ir.specs.declared.register.Local.TheVariants as L;
ghost use Rattle.tac_ir.specs.declared.register.Register.TheVariants as R;
ghost use Rattle.heap_graph.specs.Frozen.{register_target};
ghost use Rattle.graph_checker.specs.Calling.{DecidesShared};

use heap_graph::{FunctionNames, same_target};
use tac_ir::{Local, Register};

/// Whether one function's formals and result are the other's, where both are in one group.
pub fn share_names(a: &FunctionNames, b: &FunctionNames) -> bool
    ensures { DecidesShared a.now b.now result }
{
    same_target(a.returned, b.returned) && share_formals(a, b)
}

/// Whether formals of the same numbers have the same targets.
fn share_formals(a: &FunctionNames, b: &FunctionNames) -> bool
    ensures { result ≡ true
        ↔ ((number : ℕ) → register_target a.now (R.Local (L.Parameter number)) ≡ register_target b.now (R.Local (L.Parameter number))) }
{
    for number in 0..a.parameters.len().max(b.parameters.len()) {
        let formal = Register::Local(Local::Parameter(number));
        if !same_target(a.register(formal), b.register(formal)) {
            return false;
        }
    }
    true
}
