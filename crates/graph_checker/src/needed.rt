// Nodes that functions need.

ghost use Rattle.std.specs.Prelude.{◌<◌, true, false, length, map, All, OnOk};
ghost use Rattle.tac_ir.specs.States.{Owner};
ghost use Rattle.tac_ir.specs.Views.{op_in};
ghost use Rattle.call_graph.specs.ClassLists.{numbers_of};
ghost use Rattle.heap_graph.specs.Marks.{Adds};
ghost use Rattle.graph_checker.specs.Programs.{family_of, IsMember};
ghost use Rattle.graph_checker.specs.Fits.{OpFits, AllFit, IsFit};
ghost use Rattle.graph_checker.specs.Needed.{AnyOf, IsImageAt, IsImageFrom, IsNeededIn};

use crate::asked_calls::is_same_group;
use crate::program::{Member, Program};
use heap_graph::{Crossing, NeededNodes};
use std::alloc::{AllocError, Global};
use tac_ir::{FunctionId, Op};

/// Adds the nodes that functions need.
pub(crate) fn add_members(
    alloc: Global,
    program: Program<'_>,
    members: &[FunctionId],
    needed: &mut NeededNodes,
) -> Result<(), AllocError>
    requires program { IsFit program }
    requires within { All (λ member. member.0 < length program.tac.now.functions.items) members.now }
    ensures { OnOk result (Adds needed.old.marks needed.new.marks (AnyOf (IsNeededIn (family_of program.entry) program.entry.graphs.now.functions.items) (numbers_of members.now))) }
{
    for member in members {
        add_member(alloc, program, *member, needed)?;
    }
    Ok(())
}

fn add_member(
    alloc: Global,
    program: Program<'_>,
    member: FunctionId,
    needed: &mut NeededNodes,
) -> Result<(), AllocError>
    requires program { IsFit program }
    requires within { member.0 < length program.tac.now.functions.items }
    ensures { OnOk result (Adds needed.old.marks needed.new.marks (IsNeededIn (family_of program.entry) program.entry.graphs.now.functions.items member.0)) }
{
    let own = program.member(member);
    let graph = &program.graphs.functions[member.0];
    let code = &program.tac.functions[member.0];
    needed.add_names(&graph.names);
    add_points(alloc, program, own, code.points.as_slice(), needed)
}

/// Adds images of nodes at calls out of a group.
pub(crate) fn add_points(
    alloc: Global,
    program: Program<'_>,
    own: Member<'_>,
    points: &[Op],
    needed: &mut NeededNodes,
) -> Result<(), AllocError>
    requires program { IsFit program }
    requires fit { AllFit program own.group (map (op_in program.tac.now.types) points.now) }
    ensures { OnOk result ((owner : Owner) → IsMember program.entry.tac.now.types (family_of program.entry) owner own.entry
        → Adds needed.old.marks needed.new.marks (AnyOf (IsImageFrom (family_of program.entry) owner) (map (op_in program.entry.tac.now.types) points.now))) }
{
    for op in points {
        add_point(alloc, program, own, op, needed)?;
    }
    Ok(())
}

fn add_point(
    alloc: Global,
    program: Program<'_>,
    own: Member<'_>,
    op: &Op,
    needed: &mut NeededNodes,
) -> Result<(), AllocError>
    requires program { IsFit program }
    requires fits { OpFits program own.group (op_in program.tac.now.types op.now) }
    ensures { OnOk result ((owner : Owner) → IsMember program.entry.tac.now.types (family_of program.entry) owner own.entry
        → Adds needed.old.marks needed.new.marks (IsImageFrom (family_of program.entry) owner (op_in program.entry.tac.now.types op.now))) }
{
    match op {
        Op::Call { site, callee, .. } => {
            let targets = program.groups.classes.targets(alloc, program.tac, *callee)?;
            add_targets(program, own, *site, &targets, needed);
            Ok(())
        }
        _ => Ok(()),
    }
}

/// Adds images of nodes of functions in other groups, at a call from this site.
fn add_targets(
    program: Program<'_>,
    own: Member<'_>,
    site: usize,
    targets: &[FunctionId],
    needed: &mut NeededNodes,
)
    requires program { IsFit program }
    requires within { All (λ called. called.0 < length program.tac.now.functions.items) targets.now }
    ensures { (owner : Owner) → IsMember program.entry.tac.now.types (family_of program.entry) owner own.entry
        → Adds needed.old.marks needed.new.marks (AnyOf (IsImageAt (family_of program.entry) owner site) (numbers_of targets.now)) }
{
    for called in targets {
        add_target(program, own, site, *called, needed);
    }
}

fn add_target(
    program: Program<'_>,
    own: Member<'_>,
    site: usize,
    called: FunctionId,
    needed: &mut NeededNodes,
)
    requires program { IsFit program }
    requires within { called.0 < length program.tac.now.functions.items }
    ensures { (owner : Owner) → IsMember program.entry.tac.now.types (family_of program.entry) owner own.entry
        → Adds needed.old.marks needed.new.marks (IsImageAt (family_of program.entry) owner site called.0) }
{
    let other = program.member(called);
    if is_same_group(own.group, other.group) {
        return;
    }
    let crossing = Crossing {
        site,
        called: called.0,
    };
    if let Some(embedding) = own.embeddings.get(&crossing) {
        needed.add_images(embedding);
    }
}
