// Paths by bytes.

ghost use Rattle.std.specs.Prelude.{◌≡◌, map, slice_get, IfOk};
ghost use Rattle.c_typed.specs.Table.{structs_in};
ghost use Rattle.c_typed.specs.DefinitionViews.{LiteralsStand};
ghost use Rattle.tac_ir.specs.Code as C;
ghost use Rattle.tac_ir.specs.Views.{tac_of};
ghost use Rattle.tac_ir.specs.Views as T;
ghost use Rattle.tac_ir.specs.Layouts.{member_of};
ghost use Rattle.pool_ir.specs.Views as V;
ghost use Rattle.pool_rewrite.specs.Rewriting as R;
ghost use Rattle.pool_rewrite.specs.Rewritable.{known_type};
ghost use Rattle.pool_rewrite.specs.Places.{AreStatics};
ghost use Rattle.pool_rewrite.specs.Made.{IsInner, IsTypedStep, MakesBase, MakesPath, IsLocalBase};

use crate::locals::Locals;
use crate::sizes::{known_size, size_of};
use crate::statics::Statics;
use c_typed::{CType, Shape, TypeTable};
use pool_ir as pool;
use std::alloc::{AllocError, Global};
use tac_ir::{Base, GlobalId, LiteralId, Local, Path, Step, Tac};

/// Where a path begins, and the type of what is there where that is known.
#[derive(Drop)]
pub(crate) struct TypedBase {
    pub(crate) base: pool::Base,
    pub(crate) c_type: Option<CType>,
}

/// A step, and the type of that to which it leads.
#[derive(Drop)]
pub(crate) struct TypedStep {
    pub(crate) step: pool::Step,
    pub(crate) c_type: Option<CType>,
}

/// A part of an object: how many bytes behind the beginning, and its type.
#[derive(Clone, Copy, Debug, PartialEq, Eq)]
pub(crate) struct Inner {
    pub(crate) offset: u64,
    pub(crate) c_type: CType,
}

/// A path with offsets in place of types.
pub(crate) fn path_of(
    alloc: Global,
    tac: &Tac,
    statics: &Statics,
    locals: &Locals,
    path: &Path,
) -> Result<pool::Path, AllocError>
    requires literals { LiteralsStand tac.now.types tac.now.literals.items }
    requires statics { AreStatics (tac_of tac.now) statics.now }
    ensures { IfOk result (λ made. MakesPath tac.now locals.now path.now made) }
{
    let TypedBase { base, c_type } = base_of(alloc, tac, statics, locals, &path.base)?;
    let steps = steps_of(alloc, &tac.types, c_type, path.steps.as_slice())?;
    Ok(pool::Path { base, steps })
}

// ---- where paths begin

fn base_of(
    alloc: Global,
    tac: &Tac,
    statics: &Statics,
    locals: &Locals,
    base: &Base,
) -> Result<TypedBase, AllocError>
    requires literals { LiteralsStand tac.now.types tac.now.literals.items }
    requires statics { AreStatics (tac_of tac.now) statics.now }
    ensures { IfOk result (λ made. MakesBase tac.now locals.now base.now made) }
{
    match base {
        Base::Local(local) => Ok(local_base(locals, *local)),
        Base::Global(global) => Ok(TypedBase {
            base: pool::Base::Globals(statics.global(*global)),
            c_type: global_type(tac, *global),
        }),
        Base::Literal(literal) => Ok(TypedBase {
            base: pool::Base::Globals(statics.literal(*literal)),
            c_type: literal_type(tac, *literal),
        }),
        Base::Pointed { pointer, target } => Ok(TypedBase {
            base: pool::Base::Pointed(*pointer),
            c_type: Some(*target),
        }),
        Base::Indexed {
            pointer,
            target,
            number,
        } => Ok(TypedBase {
            base: pool::Base::Indexed {
                pointer: *pointer,
                size: size_of(&tac.types, *target),
                number: number.copied(alloc)?,
            },
            c_type: Some(*target),
        }),
    }
}

fn local_base(locals: &Locals, local: Local) -> TypedBase
    ensures { IsLocalBase locals.now local result }
{
    match locals.find(local) {
        Some(place) => TypedBase {
            base: pool::Base::Frame(place.object.offset),
            c_type: Some(place.c_type),
        },
        None => TypedBase {
            base: pool::Base::Frame(0),
            c_type: None,
        },
    }
}

/// The type of a variable outside functions.
fn global_type(tac: &Tac, global: GlobalId) -> Option<CType>
    ensures { known_type tac.now.types result ≡ R.global_type (slice_get (tac_of tac.now).globals global.0) }
{
    Some(tac.globals.get(global.0)?.c_type)
}

/// The type of a literal.
fn literal_type(tac: &Tac, literal: LiteralId) -> Option<CType>
    requires { LiteralsStand tac.now.types tac.now.literals.items }
    ensures { known_type tac.now.types result ≡ R.type_of_literal (slice_get (tac_of tac.now).literals literal.0) }
{
    Some(tac.literals.get(literal.0)?.c_type)
}

// ---- steps

fn steps_of(
    alloc: Global,
    types: &TypeTable,
    whole: Option<CType>,
    steps: &[Step],
) -> Result<Vec<pool::Step>, AllocError>
    ensures { IfOk result (λ made. map V.step_of made.items ≡ R.steps_of (structs_in types.now) (known_type types.now whole) (map T.step_of steps.now)) }
{
    let mut made = Vec::new(alloc);
    let mut c_type = whole;
    for step in steps {
        let next = step_of(alloc, types, c_type, step)?;
        made.push(next.step)?;
        c_type = next.c_type;
    }
    Ok(made)
}

/// A step from an object of a type.
fn step_of(
    alloc: Global,
    types: &TypeTable,
    whole: Option<CType>,
    step: &Step,
) -> Result<TypedStep, AllocError>
    ensures { IfOk result (λ made. IsTypedStep types.now (R.step_of (structs_in types.now) (known_type types.now whole) (T.step_of step.now)) made) }
{
    match step {
        Step::Member(number) => Ok(member_step(types, whole, *number)),
        Step::Element(index) => {
            let element = element_type(types, whole);
            Ok(TypedStep {
                step: pool::Step::Element {
                    size: known_size(types, element),
                    index: index.copied(alloc)?,
                },
                c_type: element,
            })
        }
    }
}

fn member_step(types: &TypeTable, whole: Option<CType>, number: u32) -> TypedStep
    ensures { IsTypedStep types.now (R.step_of (structs_in types.now) (known_type types.now whole) (C.Member number)) result }
{
    match member_place(types, whole, number) {
        Some(member) => TypedStep {
            step: pool::Step::Member(member.offset),
            c_type: Some(member.c_type),
        },
        None => TypedStep {
            step: pool::Step::Member(0),
            c_type: None,
        },
    }
}

/// The member of this number of an object of a type.
pub(crate) fn member_place(types: &TypeTable, whole: Option<CType>, number: u32) -> Option<Inner>
    ensures { IsInner types.now (member_of (structs_in types.now) number (record { offset = 0; c_type = known_type types.now whole })) result }
{
    let place = types.member_place(types.number_of(whole?), number as usize)?;
    Some(Inner {
        offset: place.offset,
        c_type: place.c_type?,
    })
}

/// The type of an array's elements.
pub(crate) fn element_type(types: &TypeTable, whole: Option<CType>) -> Option<CType>
    ensures { known_type types.now result ≡ R.element_type (known_type types.now whole) }
{
    match types.shape(types.number_of(whole?)) {
        Shape::Array { element, .. } => Some(element),
        _ => None,
    }
}
