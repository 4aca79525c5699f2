// Ways from a point to another, where the blocks of points lie at places.

ghost use Rattle.std.specs.Prelude.{◌≡◌, ◌<◌, ◌≤◌, ◌++◌, length, OnOk, slice_index, vec_len};
ghost use Rattle.pool_ir.specs.Views.{function_of};
ghost use Rattle.stack_code.specs.Emitting.{edge_code, keeping, way, way_at_zero, way_or_on};
ghost use Rattle.stack_code.specs.Fits.{AreLow, FrameServes};

use crate::pools::{actions_between, push_actions, push_edge};
use crate::words::STORE;
use pool_ir::Function;
use pool_isa::Instr;
use std::alloc::AllocError;

/// Appends the way to a point.
pub(crate) fn push_way(
    code: &mut Vec<Instr>,
    function: &Function,
    places: &[u64],
    from: usize,
    to: usize,
) -> Result<(), AllocError>
    requires frame { FrameServes (function_of function.now) }
    requires to { to < length places.now }
    ensures { OnOk result (code.new.items ≡ code.old.items ++ way (slice_index places.now) (function_of function.now) from to) }
{
    push_edge(code, function, from, to)?;
    code.extend_from_slice(&[Instr::Jump(places[to])])
}

/// Appends the way to a point, with no jump to the point behind.
pub(crate) fn push_way_or_on(
    code: &mut Vec<Instr>,
    function: &Function,
    places: &[u64],
    from: usize,
    to: usize,
) -> Result<(), AllocError>
    requires frame { FrameServes (function_of function.now) }
    requires from { from < length places.now }
    requires to { to < length places.now }
    ensures { OnOk result (code.new.items ≡ code.old.items ++ way_or_on (slice_index places.now) (function_of function.now) from to) }
{
    push_edge(code, function, from, to)?;
    if to == from + 1 {
        Ok(())
    } else {
        code.extend_from_slice(&[Instr::Jump(places[to])])
    }
}

/// Appends the way to a point where the word is 0. So many instructions of the block stand in front.
pub(crate) fn push_way_at_zero(
    code: &mut Vec<Instr>,
    function: &Function,
    places: &[u64],
    from: usize,
    to: usize,
    front: usize,
) -> Result<(), AllocError>
    requires frame { FrameServes (function_of function.now) }
    requires from { from < length places.now }
    requires to { to < length places.now }
    requires front { front ≤ vec_len code.old }
    requires low { AreLow places.now }
    ensures { OnOk result (code.new.items ≡ code.old.items ++ way_at_zero (slice_index places.now) from to front (edge_code (function_of function.now) from to)) }
{
    let actions = actions_between(function, from, to);
    if actions.is_empty() {
        return code.extend_from_slice(&[Instr::JumpIfZero(places[to])]);
    }
    let begin = code.len();
    code.push(Instr::JumpIfNotZero(0))?;
    push_actions(code, function, actions)?;
    code.push(Instr::Jump(places[to]))?;
    let behind = front + (code.len() - begin);
    code[begin] = Instr::JumpIfNotZero(places[from] + behind as u64);
    Ok(())
}

/// Appends what keeps a word that was pushed behind the address of its register, and the way to the point behind.
pub(crate) fn push_keeping(
    code: &mut Vec<Instr>,
    function: &Function,
    from: usize,
) -> Result<(), AllocError>
    requires frame { FrameServes (function_of function.now) }
    requires from { from < usize.MAX }
    ensures { OnOk result (code.new.items ≡ code.old.items ++ keeping (function_of function.now) from) }
{
    code.push(STORE)?;
    push_edge(code, function, from, from + 1)
}
