// Names (C17 6.5.1).

ghost use Rattle.std.specs.Prelude.{IfOk};
ghost use Rattle.c_syntax.specs.Views.{name_tree};
ghost use Rattle.c_typed.specs.Table.{Stands};
ghost use Rattle.c_rules.specs.Operators as rules;
ghost use Rattle.c_types_state.specs.Finding.{Finds, IsExpr};
ghost use Rattle.c_types_state.specs.NameTables.{scope_of};
ghost use Rattle.c_types_state.specs.Promises.{FindsOfType};
ghost use Rattle.c_types_expressions.specs.Unary.{IsObjectAt};

use c_rules::{Constness, TypeRule};
use c_syntax::Name;
use c_typed::{ByteString, CType, Designator, Object, Static};
use c_types_state::types::is_function;
use c_types_state::{Address, Checker, Known, NameMeaning, TypedExpr};
use std::alloc::AllocError;

/// An identifier (C17 6.5.1 paragraph 2).
pub fn named(checker: &mut Checker, name: &Name) -> Result<Option<Known>, AllocError>
    ensures { IfOk result (Finds IsExpr (rules.named (scope_of checker.old) (name_tree name.now)) checker.old checker.new) }
{
    match checker.meaning(name.bytes.as_slice()) {
        NameMeaning::Nothing => {
            checker.note(TypeRule::T03, name.place);
            Ok(None)
        }
        NameMeaning::Library(_) => {
            checker.note(TypeRule::T23, name.place);
            Ok(None)
        }
        NameMeaning::Local {
            number,
            c_type: Some(c_type),
        } => {
            let object = Box::new(checker.alloc(), Object::Local(number))?;
            Ok(Some(object_at(c_type, object, Address::Unknown)))
        }
        NameMeaning::Outer {
            c_type: Some(c_type),
        } => outer_name(checker, name, c_type),
        _ => Ok(None),
    }
}

/// An object at an address.
pub(crate) fn object_at(c_type: CType, object: Box<Object>, address: Address) -> Known
    ensures { IsObjectAt c_type object address result }
{
    Known {
        c_type,
        typed: TypedExpr::Object(object),
        constness: Constness::NotConstant,
        is_null: false,
        address,
    }
}

/// A function outside, which has to be defined somewhere, or an object. One that is not has its declared type all the same.
fn outer_name(
    checker: &mut Checker,
    name: &Name,
    c_type: CType,
) -> Result<Option<Known>, AllocError>
    requires { Stands checker.old.table c_type }
    ensures { FindsOfType IsExpr (rules.outer_name (scope_of checker.old) (name_tree name.now)) c_type checker.old checker.new result }
{
    let alloc = checker.alloc();
    let bytes = name.bytes.as_slice();
    if !is_function(checker, c_type) {
        let address = Address::Element {
            root: Static::Variable(ByteString::from_slice(alloc, bytes)?),
            parts: Vec::new(alloc),
            c_type,
            count: 1,
            index: 0,
        };
        let object = Object::Global(ByteString::from_slice(alloc, bytes)?);
        let object = Box::new(alloc, object)?;
        return Ok(Some(object_at(c_type, object, address)));
    }
    let is_defined = checker.defines(bytes);
    checker.require(is_defined, TypeRule::T23, name.place);
    let function = Designator::Named(ByteString::from_slice(alloc, bytes)?);
    Ok(Some(Known {
        c_type,
        typed: TypedExpr::Function(Box::new(alloc, function)?),
        constness: Constness::NotConstant,
        is_null: false,
        address: Address::Function(ByteString::from_slice(alloc, bytes)?),
    }))
}
