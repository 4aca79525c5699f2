// Operands in memory.

ghost use Rattle.std.specs.Prelude.{◌≡◌};
ghost use Rattle.c_typed.specs.Table.{Interned};
ghost use Rattle.c_types_state.specs.Finding.{IsExpr};

use crate::constants::is_zero;
use crate::known::{Address, Known, TypedExpr};
use c_num::IntType;
use c_rules::Constness;
use c_typed::{CType, Value};

/// A value, and what is known of it.
#[derive(Drop)]
pub struct Operand {
    pub c_type: CType,
    pub value: Box<Value>,
    pub constness: Constness,
    /// Whether it is a null pointer constant.
    pub is_null: bool,
    pub address: Address,
}

impl Operand {
    ghost use Rattle.c_types_state.specs.Promises.{IsOfType, IsOfInteger};
    ghost use Rattle.c_types_state.specs.Operands.{OperandStands, operand_in};

    /// A value of a type, of which nothing else is known.
    pub fn of_type(c_type: CType, value: Box<Value>) -> Operand
        ensures { IsOfType c_type value result }
    {
        Operand {
            c_type,
            value,
            constness: Constness::NotConstant,
            is_null: false,
            address: Address::Unknown,
        }
    }

    /// A value of an integer type. A constant zero is a null pointer constant (C17 6.3.2.3 paragraph 3).
    pub fn integer(int_type: IntType, constness: Constness, value: Box<Value>) -> Operand
        ensures { IsOfInteger int_type constness value result }
    {
        Operand {
            constness,
            is_null: is_zero(constness),
            ..Operand::of_type(CType::integer(int_type), value)
        }
    }

    /// Its value alone.
    pub fn into_value(self) -> Box<Value>
        ensures { result ≡ self.value }
    {
        self.value
    }

    /// The same, as an expression.
    pub fn into_known(self) -> Known
        ensures { (table : Interned) → OperandStands table self → IsExpr table result (operand_in table self) }
    {
        Known {
            c_type: self.c_type,
            typed: TypedExpr::Value(self.value),
            constness: self.constness,
            is_null: self.is_null,
            address: self.address,
        }
    }
}
