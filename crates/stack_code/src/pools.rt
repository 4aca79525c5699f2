// What is done with pools: actions, alone and on the way from a point to another.

ghost use Rattle.std.specs.Prelude.{◌≡◌, ◌++◌, map, OnOk};
ghost use Rattle.std.specs.List.{AllByRecursion};
ghost use Rattle.pool_ir.specs.States.{actions_from};
ghost use Rattle.pool_ir.specs.Views.{action_of, edge_of, frame_of, function_of};
ghost use Rattle.stack_code.specs.Emitting.{action_code, actions_code, edge_code};
ghost use Rattle.stack_code.specs.Fitting.{ActionFits};
ghost use Rattle.stack_code.specs.Fits.{FrameServes};

use crate::words::{STORE, descriptor_address, push_descriptor};
use pool_ir::{Action, Function};
use pool_isa::Instr;
use std::alloc::AllocError;

/// Appends what does an action.
fn push_action(code: &mut Vec<Instr>, function: &Function, action: Action) -> Result<(), AllocError>
    requires frame { FrameServes (function_of function.now) }
    requires fits { ActionFits (frame_of function.now.frame) (action_of action) }
    ensures { OnOk result (code.new.items ≡ code.old.items ++ action_code (function_of function.now) (action_of action)) }
{
    match action {
        Action::Make { descriptor, kind } => code.extend_from_slice(&[
            descriptor_address(function, descriptor),
            Instr::PoolInit(kind.0 as u64),
            STORE,
        ]),
        Action::Destroy(descriptor) => {
            push_descriptor(code, function, descriptor)?;
            code.extend_from_slice(&[Instr::PoolDestroy])
        }
    }
}

/// Appends what does actions.
pub(crate) fn push_actions(
    code: &mut Vec<Instr>,
    function: &Function,
    actions: &[Action],
) -> Result<(), AllocError>
    requires frame { FrameServes (function_of function.now) }
    requires fit { AllByRecursion (ActionFits (frame_of function.now.frame)) (map action_of actions.now) }
    ensures { OnOk result (code.new.items ≡ code.old.items ++ actions_code (function_of function.now) (map action_of actions.now)) }
{
    for action in actions {
        push_action(code, function, *action)?;
    }
    Ok(())
}

/// What is done on the way from a point to another.
pub(crate) fn actions_between(function: &Function, from: usize, to: usize) -> &[Action]
    ensures { map action_of result.now ≡ actions_from (map edge_of function.entry.now.edges.items) from to }
{
    for edge in &function.edges {
        if edge.from.0 == from && edge.to.0 == to {
            return &edge.actions;
        }
    }
    &[]
}

/// Appends what is done on the way from a point to another.
pub(crate) fn push_edge(
    code: &mut Vec<Instr>,
    function: &Function,
    from: usize,
    to: usize,
) -> Result<(), AllocError>
    requires frame { FrameServes (function_of function.now) }
    ensures { OnOk result (code.new.items ≡ code.old.items ++ edge_code (function_of function.now) from to) }
{
    push_actions(code, function, actions_between(function, from, to))
}
