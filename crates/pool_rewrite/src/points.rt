// The points of a function.

ghost use Rattle.std.specs.Prelude.{◌≡◌, true, IfOk};
ghost use Rattle.c_typed.specs.Table.{Interned};
ghost use Rattle.tac_ir.specs.Views.{callee_in, scalar_in, tac_of};
ghost use Rattle.pool_ir.specs.Views as V;
ghost use Rattle.pool_rewrite.specs.Rewriting as R;
ghost use Rattle.pool_rewrite.specs.Kinds.{is_sized, is_access, is_pooled};
ghost use Rattle.pool_rewrite.specs.Made.{IsProgram, MakesPoint, MakesPoints, MakesSized, MakesAccess, MakesPooled};

use crate::locals::Locals;
use crate::paths::path_of;
use crate::plain::{control_point, copied_operand, integer_point, pointer_point};
use crate::plan::FunctionPlan;
use crate::signatures::Signatures;
use crate::sizes::size_of;
use crate::statics::Statics;
use c_typed::TypeTable;
use pool_ir as pool;
use std::alloc::{AllocError, Global};
use tac_ir::{Callee, Op, Scalar, Tac};

/// What is found of a program before its points are rewritten.
#[derive(Drop)]
pub(crate) struct Found {
    pub(crate) statics: Statics,
    pub(crate) signatures: Signatures,
}

/// The points of a function, each for itself.
pub(crate) fn points_of(
    alloc: Global,
    tac: &Tac,
    found: &Found,
    plan: &FunctionPlan,
    locals: &Locals,
    points: &[Op],
) -> Result<Vec<pool::Op>, AllocError>
    requires { IsProgram tac.now found.now }
    ensures { IfOk result (λ made. MakesPoints tac.now plan.now locals.now points.now made.items) }
{
    let mut made = Vec::new(alloc);
    for op in points {
        made.push(point_of(alloc, tac, found, plan, locals, op)?)?;
    }
    Ok(made)
}

fn point_of(
    alloc: Global,
    tac: &Tac,
    found: &Found,
    plan: &FunctionPlan,
    locals: &Locals,
    op: &Op,
) -> Result<pool::Op, AllocError>
    requires { IsProgram tac.now found.now }
    ensures { IfOk result (λ made. MakesPoint tac.now plan.now locals.now op.now made) }
{
    match op {
        Op::Reserved => control_point(alloc, op),
        Op::Jump(_) => control_point(alloc, op),
        Op::Branch { .. } => control_point(alloc, op),
        Op::Exit { .. } => control_point(alloc, op),
        Op::Return(_) => control_point(alloc, op),
        Op::Null { .. } => Ok(pointer_point(op)),
        Op::FunctionAddress { .. } => Ok(pointer_point(op)),
        Op::Copy { .. } => Ok(pointer_point(op)),
        Op::Repoint { .. } => Ok(pointer_point(op)),
        Op::Assign { .. } => integer_point(alloc, op),
        Op::Test { .. } => integer_point(alloc, op),
        Op::ComparePointers { .. } => integer_point(alloc, op),
        Op::GetChar { .. } => integer_point(alloc, op),
        Op::PutChar { .. } => integer_point(alloc, op),
        Op::Move { .. } => sized_point(alloc, &tac.types, op),
        Op::Difference { .. } => sized_point(alloc, &tac.types, op),
        Op::Address { .. } => access_point(alloc, tac, found, locals, op),
        Op::Load { .. } => access_point(alloc, tac, found, locals, op),
        Op::Store { .. } => access_point(alloc, tac, found, locals, op),
        Op::Allocate { .. } => pool_point(alloc, tac, found, plan, op),
        Op::Free { .. } => pool_point(alloc, tac, found, plan, op),
        Op::Call { .. } => pool_point(alloc, tac, found, plan, op),
    }
}

/// A point that moves over elements or counts them.
fn sized_point(alloc: Global, types: &TypeTable, op: &Op) -> Result<pool::Op, AllocError>
    requires { is_sized op.now ≡ true }
    ensures { IfOk result (λ made. MakesSized types.now op.now made) }
{
    match op {
        Op::Move {
            to,
            pointer,
            element,
            is_minus,
            number,
        } => Ok(pool::Op::Move {
            to: *to,
            pointer: *pointer,
            size: size_of(types, *element),
            is_minus: *is_minus,
            number: number.copied(alloc)?,
        }),
        Op::Difference {
            to,
            element,
            left,
            right,
        } => Ok(pool::Op::Difference {
            to: *to,
            size: size_of(types, *element),
            left: *left,
            right: *right,
        }),
        _ => unreachable!(),
    }
}

/// A point with a path.
fn access_point(
    alloc: Global,
    tac: &Tac,
    found: &Found,
    locals: &Locals,
    op: &Op,
) -> Result<pool::Op, AllocError>
    requires kind { is_access op.now ≡ true }
    requires found { IsProgram tac.now found.now }
    ensures { IfOk result (λ made. MakesAccess tac.now locals.now op.now made) }
{
    let statics = &found.statics;
    match op {
        Op::Address { to, path } => Ok(pool::Op::Address {
            to: *to,
            path: path_of(alloc, tac, statics, locals, path)?,
        }),
        Op::Load { to, scalar, path } => Ok(pool::Op::Load {
            to: *to,
            slot: slot_of(*scalar),
            path: path_of(alloc, tac, statics, locals, path)?,
        }),
        Op::Store {
            path,
            scalar,
            value,
        } => {
            let value = copied_operand(alloc, value)?;
            Ok(pool::Op::Store {
                path: path_of(alloc, tac, statics, locals, path)?,
                slot: slot_of(*scalar),
                value,
            })
        }
        _ => unreachable!(),
    }
}

/// A point that needs pools.
fn pool_point(
    alloc: Global,
    tac: &Tac,
    found: &Found,
    plan: &FunctionPlan,
    op: &Op,
) -> Result<pool::Op, AllocError>
    requires kind { is_pooled op.now ≡ true }
    requires found { IsProgram tac.now found.now }
    ensures { IfOk result (λ made. MakesPooled tac.now plan.now op.now made) }
{
    match op {
        Op::Allocate { site, size } => Ok(pool::Op::Allocate {
            site: *site,
            size: size.copied(alloc)?,
            pool: plan.pool_of_site(*site),
        }),
        Op::Free { site, pointer } => Ok(pool::Op::Free {
            site: *site,
            pointer: *pointer,
            pool: plan.pool_of_site(*site),
        }),
        Op::Call {
            site,
            callee,
            arguments,
        } => Ok(pool::Op::Call {
            site: *site,
            callee: callee_of(tac, found, *callee),
            arguments: Vec::from_slice(alloc, arguments.as_slice())?,
            pools: plan.passed_at_site(alloc, *site)?,
        }),
        _ => unreachable!(),
    }
}

/// What is called.
fn callee_of(tac: &Tac, found: &Found, callee: Callee) -> pool::Callee
    requires { IsProgram tac.now found.now }
    ensures { V.callee_of result ≡ R.callee_of (tac_of tac.now) (callee_in tac.now.types callee) }
{
    match callee {
        Callee::Function(function) => pool::Callee::Function(function),
        Callee::Through { pointer, c_type } => pool::Callee::Through {
            pointer,
            signature: found.signatures.of_type(&tac.types, c_type),
        },
    }
}

/// How a scalar lies in memory.
fn slot_of(scalar: Scalar) -> pool::Slot
    ensures { (table : Interned) → V.slot_of result ≡ R.slot_of (scalar_in table scalar) }
{
    match scalar {
        Scalar::Integer(int_type) => pool::Slot::Integer(int_type),
        Scalar::Pointer(_) => pool::Slot::Address,
    }
}
