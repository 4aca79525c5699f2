// Frames of functions.

ghost use Rattle.std.specs.Prelude.{◌≡◌, ◌≤◌, ◌*◌, map, IfOk};
ghost use Rattle.c_typed.specs.Layouts.{greatest};
ghost use Rattle.c_typed.specs.Table.{Interned, structs_in};
ghost use Rattle.tac_ir.specs.Views.{function_in};
ghost use Rattle.pool_ir.specs.Views.{object_of, frame_of};
ghost use Rattle.pool_rewrite.specs.Placing as P;
ghost use Rattle.pool_rewrite.specs.Placing.{end_behind};
ghost use Rattle.pool_rewrite.specs.Views.{function_plan_of};
ghost use Rattle.pool_rewrite.specs.Rewritable.{local_layouts, word_count, FrameFits};
ghost use Rattle.pool_rewrite.specs.Places.{IsPlace, ArePlaces, frame_objects_of, LiesInFrame};

use crate::plan::FunctionPlan;
use crate::sizes::{begin_of, size_of};
use c_typed::{CType, TypeTable};
use pool_ir::{FrameLayout, FrameObject};
use std::alloc::{AllocError, Global};
use tac_ir::{Function, LocalObject};

/// A local in memory, its place in the frame and its type.
#[derive(Clone, Copy, Debug, PartialEq, Eq)]
pub(crate) struct Place {
    pub(crate) object: FrameObject,
    pub(crate) c_type: CType,
}

/// The locals of a function in memory, in their order, and where the last of them ends.
#[derive(Drop)]
pub(crate) struct Places {
    pub(crate) locals: Vec<Place>,
    pub(crate) end: u64,
}

/// Where the locals of a function lie.
pub(crate) fn places_of(
    alloc: Global,
    types: &TypeTable,
    plan: &FunctionPlan,
    function: &Function,
) -> Result<Places, AllocError>
    requires { FrameFits types.now (function_plan_of plan.now) function.now }
    ensures { IfOk result (λ made. LiesInFrame types.now (function_plan_of plan.now) function.now made) }
{
    let front = front_of(plan, function);
    placed(alloc, types, front, function.objects.as_slice())
}

/// The bytes in front of the objects of a frame.
fn front_of(plan: &FunctionPlan, function: &Function) -> u64
    requires { 8 * word_count (function_plan_of plan.now) function.now ≤ greatest }
    ensures { result ≡ 8 * word_count (function_plan_of plan.now) function.now }
{
    let counts = function.counts;
    let words = plan.descriptors
        + function.parameters
        + counts.variables
        + counts.calls
        + counts.arguments
        + counts.expressions
        + counts.temporaries;
    8 * words as u64
}

/// Objects one behind another, behind so many bytes.
fn placed(
    alloc: Global,
    types: &TypeTable,
    front: u64,
    objects: &[LocalObject],
) -> Result<Places, AllocError>
    requires { end_behind front (local_layouts types.now objects.now) ≤ greatest }
    ensures { IfOk result (λ made. ArePlaces types.now front objects.now made) }
{
    let mut locals = Vec::new(alloc);
    let mut end = front;
    for object in objects {
        let place = place_of(types, end, *object);
        locals.push(place)?;
        end = place.object.offset + place.object.size;
    }
    Ok(Places { locals, end })
}

/// The place of a local that lies behind so many bytes.
fn place_of(types: &TypeTable, front: u64, object: LocalObject) -> Place
    requires { front ≤ greatest }
    ensures { IsPlace types.now front object result }
{
    Place {
        object: FrameObject {
            local: object.local,
            offset: begin_of(types, object.c_type, front),
            size: size_of(types, object.c_type),
        },
        c_type: object.c_type,
    }
}

/// The frame of a function with its locals in these places.
pub(crate) fn layout_of(
    alloc: Global,
    plan: &FunctionPlan,
    function: &Function,
    places: &Places,
) -> Result<FrameLayout, AllocError>
    ensures { IfOk result (λ made. (table : Interned) → LiesInFrame table (function_plan_of plan.now) function.now places.now → frame_of made ≡ P.frame_of (structs_in table) (function_plan_of plan.now) (function_in table function.now)) }
{
    Ok(FrameLayout {
        descriptors: plan.descriptors,
        parameters: function.parameters,
        registers: function.counts,
        objects: objects_of(alloc, places.locals.as_slice())?,
        size: places.end,
    })
}

/// Places without the types of what lies there.
fn objects_of(alloc: Global, places: &[Place]) -> Result<Vec<FrameObject>, AllocError>
    ensures { IfOk result (λ made. map object_of made.items ≡ frame_objects_of places.now) }
{
    let mut objects = Vec::new(alloc);
    for place in places {
        objects.push(place.object)?;
    }
    Ok(objects)
}
