// Objects that may be assigned to.

ghost use Rattle.std.specs.Prelude.{◌≡◌};
ghost use Rattle.c_rules.specs.Operators as rules;
ghost use Rattle.c_types_state.specs.Finding.{Finds, ExprStands, expr_in};
ghost use Rattle.c_types_state.specs.Operands.{IsTarget};

use crate::checker::Checker;
use crate::known::{Address, Known, TypedExpr};
use crate::types::is_array;
use c_rules::{Constness, TypeRule};
use c_typed::{CType, Object};
use run_theory::Pos;

/// An object that may be assigned to (C17 6.3.2.1 paragraph 1).
#[derive(Drop)]
pub struct Target {
    pub c_type: CType,
    pub object: Box<Object>,
    pub constness: Constness,
    pub is_null: bool,
    pub address: Address,
}

impl Target {
    /// The object alone.
    pub fn into_object(self) -> Box<Object>
        ensures { result ≡ self.object }
    {
        self.object
    }
}

/// An object that may be assigned to: no array (C17 6.3.2.1 paragraph 1).
pub fn modifiable(checker: &mut Checker, whole: Pos, operand: Known) -> Option<Target>
    requires { ExprStands checker.old.table operand }
    ensures { Finds IsTarget (rules.modifiable_rule whole (expr_in checker.old.table operand)) checker.old checker.new result }
{
    let Known {
        c_type,
        typed,
        constness,
        is_null,
        address,
    } = operand;
    let is_array = is_array(checker, c_type);
    match typed {
        TypedExpr::Object(object) => {
            if !checker.require(!is_array, TypeRule::T09, whole) {
                return None;
            }
            Some(Target {
                c_type,
                object,
                constness,
                is_null,
                address,
            })
        }
        _other => {
            checker.note(TypeRule::T09, whole);
            None
        }
    }
}
