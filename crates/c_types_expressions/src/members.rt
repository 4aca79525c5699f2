// Members of structures (C17 6.5.2.3).

ghost use Rattle.std.specs.Prelude.{◌≡◌, IfOk};
ghost use Rattle.c_syntax.specs.Views.{name_tree};
ghost use Rattle.c_typed.specs.Table.{Interned, Stands, type_in};
ghost use Rattle.c_typed.specs.Views as views;
ghost use Rattle.c_typed.specs.Views.{ObjectStands};
ghost use Rattle.c_rules.specs.Operators as rules;
ghost use Rattle.c_types_state.specs.Finding.{IsExpr, ExprStands, TypedStands, typed_in};
ghost use Rattle.c_types_state.specs.NameTables.{scope_of};
ghost use Rattle.c_types_state.specs.Operands.{OperandStands};
ghost use Rattle.c_types_expressions.specs.Members.{IsMemberOf};
ghost use Rattle.c_types_state.specs.Promises.{FindsOfExpr, FindsOfOne};

use crate::names::object_at;
use c_rules::TypeRule;
use c_syntax::Name;
use c_typed::{CType, Object};
use c_types_state::types::{is_pointer_to_complete, target_of};
use c_types_state::{Checker, Known, Operand, TypedExpr, member_address};
use run_theory::Pos;
use std::alloc::{AllocError, Global};

/// A member that was looked for.
#[derive(Clone, Copy, Debug, PartialEq, Eq)]
struct Found {
    number: u32,
    c_type: CType,
}

/// The member of a name, of an object of this type.
fn member_of(checker: &mut Checker, whole: Pos, c_type: CType, member: &Name) -> Option<Found>
    requires { Stands checker.old.table c_type }
    ensures { IsMemberOf checker.old checker.new whole (type_in checker.old.table c_type) (name_tree member.now) result }
{
    let Some(found) = checker.member(c_type, member.bytes.as_slice()) else {
        checker.note(TypeRule::T15, whole);
        return None;
    };
    Some(Found {
        number: found.number,
        c_type: found.c_type?,
    })
}

/// `s.m`
pub fn object_member(
    checker: &mut Checker,
    whole: Pos,
    member: &Name,
    known: Known,
) -> Result<Option<Known>, AllocError>
    requires { ExprStands checker.old.table known }
    ensures { FindsOfExpr IsExpr (rules.object_member (scope_of checker.old) whole (name_tree member.now)) known checker.old checker.new result }
{
    let Known {
        c_type,
        typed,
        address,
        ..
    } = known;
    let Some(found) = member_of(checker, whole, c_type, member) else {
        return Ok(None);
    };
    let object = Object::MemberOf {
        place: whole,
        object: object_in(checker.alloc(), typed)?,
        number: found.number,
    };
    let object = Box::new(checker.alloc(), object)?;
    let address = member_address(address, found.number, found.c_type)?;
    Ok(Some(object_at(found.c_type, object, address)))
}

/// The object that an expression is. A structure that is none violates a rule itself.
fn object_in(alloc: Global, typed: TypedExpr) -> Result<Box<Object>, AllocError>
    ensures stands { IfOk result (λ object. (table : Interned) → TypedStands table typed → ObjectStands table object.value) }
    ensures object { IfOk result (λ object. (table : Interned) → views.object_in table object.value ≡ rules.object_in (typed_in table typed)) }
{
    match typed {
        TypedExpr::Object(object) => Ok(object),
        _other => Ok(Box::new(alloc, Object::Local(0))?),
    }
}

/// `p->m`
pub fn pointer_member(
    checker: &mut Checker,
    whole: Pos,
    member: &Name,
    pointer: Operand,
) -> Result<Option<Known>, AllocError>
    requires { OperandStands checker.old.table pointer }
    ensures { FindsOfOne IsExpr (rules.pointer_member (scope_of checker.old) whole (name_tree member.now)) pointer checker.old checker.new result }
{
    let is_complete = is_pointer_to_complete(checker, pointer.c_type);
    if !checker.require(is_complete, TypeRule::T14, whole) {
        return Ok(None);
    }
    let target = target_of(checker, pointer.c_type);
    let Some(found) = member_of(checker, whole, target, member) else {
        return Ok(None);
    };
    let object = Object::PointedMember {
        place: whole,
        pointer: pointer.value,
        number: found.number,
    };
    let object = Box::new(checker.alloc(), object)?;
    let address = member_address(pointer.address, found.number, found.c_type)?;
    Ok(Some(object_at(found.c_type, object, address)))
}
