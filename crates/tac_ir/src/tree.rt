// Integers that are computed at one point.

use crate::register::Register;
use c_num::{BinOp, IntType, Relation};

/// An integer expression over registers, without calls, loads and branches.
#[derive(Drop)]
pub enum Tree {
    Constant(i128),
    Held(Register),
    /// Converted to the type (C17 6.3.1.3).
    Convert {
        int_type: IntType,
        operand: Box<Tree>,
    },
    /// The bitwise complement of a value of the type (C17 6.5.3.3).
    Complement {
        int_type: IntType,
        operand: Box<Tree>,
    },
    /// 1 where a value of the type is 0, else 0 (C17 6.5.3.3).
    Not {
        int_type: IntType,
        operand: Box<Tree>,
    },
    /// Arithmetic on two values of the type (C17 6.5.5 to 6.5.12).
    Arithmetic {
        operator: BinOp,
        int_type: IntType,
        left: Box<Tree>,
        right: Box<Tree>,
    },
    /// Compares two values of the type, and gives 1 or 0 (C17 6.5.8, 6.5.9).
    Compare {
        relation: Relation,
        int_type: IntType,
        left: Box<Tree>,
        right: Box<Tree>,
    },
}
