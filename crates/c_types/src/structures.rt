// Structures (C17 6.7.2.1).

ghost use Rattle.std.specs.Prelude.{◌≡◌, [], IfOk, OnOk, map};
ghost use Rattle.run_theory.specs.declared.place.Pos.{Pos};
ghost use Rattle.c_syntax.specs.Trees as Trees;
ghost use Rattle.c_syntax.specs.Views.{name_tree, base_tree, member_tree};
ghost use Rattle.c_typed.specs.Types as T;
ghost use Rattle.c_typed.specs.Kept.{IsObject};
ghost use Rattle.c_typed.specs.Table.{Stands};
ghost use Rattle.c_types_state.specs.Finding.{AllStand, IsType};
ghost use Rattle.c_types.specs.Outside.{AreHeld};
ghost use Rattle.c_types.specs.Checked.{ReachesBase, IsBase, MakesMembers, CoversMembers, AddsMembers, CoversMember, AddsMember};

use crate::declarations::as_object;
use c_rules::TypeRule;
use c_syntax::{Base, Declarator, Member, Name};
use c_typed as typed;
use c_typed::{CType, Shape};
use c_types_expressions::{LengthRole, Pass, declared_name, declared_type, name_place, words_type};
use indexmap::IndexSet;
use std::alloc::{AllocError, Global};

/// The type that an item's words name, where they may complete a structure.
pub(crate) fn base_type(pass: &mut Pass, base: &Base) -> Result<Option<CType>, AllocError>
    ensures reaches { OnOk result (ReachesBase (base_tree base.now) pass.old pass.new) }
    ensures made { IfOk result (IsBase (base_tree base.now) pass.old pass.new) }
{
    match base {
        Base::Simple(simple) => words_type(&mut pass.checker, simple),
        Base::Struct { name, members, .. } => {
            Ok(Some(structure(pass, name, members.as_slice())?))
        }
    }
}

/// A structure with its members: it is completed once.
fn structure(pass: &mut Pass, name: &Name, members: &[Member]) -> Result<CType, AllocError>
    ensures reaches { OnOk result ((place : Pos) → ReachesBase (Trees.StructBody place (name_tree name.now) (map member_tree members.now)) pass.old pass.new) }
    ensures made { IfOk result (λ made. IsType pass.new.checker.table made (T.Struct name.now.bytes)) }
{
    let c_type = pass.checker.struct_type(name.bytes.as_slice())?;
    let is_open = !pass.checker.is_complete(c_type);
    pass.checker.require(is_open, TypeRule::T04, name.place);
    let members = all_members(pass, members)?;
    if let (Shape::Struct(id), true) = (pass.checker.shape(c_type), is_open) {
        pass.checker.complete(id, members)?;
    }
    pass.name_type(name.place, Some(c_type))?;
    Ok(c_type)
}

/// The members of a structure so far, each name of which stands once.
#[derive(Drop)]
struct Members {
    names: IndexSet<Vec<u8>>,
    members: Vec<typed::Member>,
}

impl Members {
    fn new(alloc: Global) -> Members
        ensures names { result.names.keys ≡ [] }
        ensures members { result.members.items ≡ [] }
    {
        Members {
            names: IndexSet::new(alloc),
            members: Vec::new(alloc),
        }
    }
}

fn all_members(pass: &mut Pass, trees: &[Member]) -> Result<Vec<typed::Member>, AllocError>
    ensures { IfOk result (MakesMembers (map member_tree trees.now) pass.old pass.new) }
{
    let mut members = Members::new(pass.alloc());
    for tree in trees {
        let base = words_type(&mut pass.checker, &tree.simple)?;
        declared_members(pass, tree, base, &mut members)?;
    }
    Ok(members.members)
}

/// The members of one declaration, behind those before it.
fn declared_members(
    pass: &mut Pass,
    tree: &Member,
    base: Option<CType>,
    members: &mut Members,
) -> Result<(), AllocError>
    requires base { AllStand Stands pass.old.checker.table base }
    requires held { AreHeld pass.old.checker.table members.old }
    ensures covers { OnOk result (CoversMembers tree.now base members.old pass.old pass.new) }
    ensures held { OnOk result (AreHeld pass.new.checker.table members.new) }
    ensures members { OnOk result (AddsMembers tree.now base members.old members.new pass.old pass.new) }
{
    for declarator in tree.declarators.as_slice() {
        let name = declared_name(declarator);
        let here = name_place(name, tree.simple.place);
        let declared = declared_type(pass, here, LengthRole::Required, base, declarator)?;
        let own = as_object(&mut pass.checker, here, declared);
        pass.name_type(here, own)?;
        if let Some(name) = name {
            add_member(pass, members, name, own)?;
        }
    }
    Ok(())
}

/// Adds a member, whose name no other has.
fn add_member(
    pass: &mut Pass,
    members: &mut Members,
    name: &Name,
    c_type: Option<CType>,
) -> Result<(), AllocError>
    requires c_type { AllStand IsObject pass.old.checker.table c_type }
    requires held { AreHeld pass.old.checker.table members.old }
    ensures covers { OnOk result (CoversMember (name_tree name.now) members.old pass.old pass.new) }
    ensures held { OnOk result (AreHeld pass.new.checker.table members.new) }
    ensures members { OnOk result (AddsMember (name_tree name.now) c_type members.old members.new pass.old pass.new) }
{
    let alloc = pass.alloc();
    let bytes = name.bytes.as_slice();
    let is_new = members.names.insert(Vec::from_slice(alloc, bytes)?)?;
    pass.checker.require(is_new, TypeRule::T04, name.place);
    members.members.push(typed::Member {
        name: Vec::from_slice(alloc, bytes)?,
        c_type,
    })?;
    Ok(())
}
