// The operators: each works on the values that its operands stand for, and gives the word of its result.

ghost use Rattle.std.specs.Prelude.{◌≡◌, pos};
ghost use Rattle.c_num.specs.Arith.{compare_of};
ghost use Rattle.machine.specs.Words.{binary_word, negated_word, complement_word, compared_word};

use crate::bits::{converted_word, signed_value, unsigned_value};
use crate::division::{quotient_word, remainder_word};
use crate::shifts::{shifted_left_word, shifted_right_word};
use c_num::{BinOp, IntType, Relation};

/// The word of what a binary operator gives. The amount of a shift is taken modulo the width, `x / 0` is 0, and `x % 0` is `x`.
pub fn binary_word(operator: BinOp, int_type: IntType, left: u64, right: u64) -> u64
    ensures { result ≡ binary_word operator int_type left right }
{
    match operator {
        BinOp::Add => converted_word(left.wrapping_add(right), int_type),
        BinOp::Sub => converted_word(left.wrapping_sub(right), int_type),
        BinOp::Mul => converted_word(left.wrapping_mul(right), int_type),
        BinOp::Div => quotient_word(int_type, left, right),
        BinOp::Rem => remainder_word(int_type, left, right),
        BinOp::Shl => shifted_left_word(int_type, left, right),
        BinOp::Shr => shifted_right_word(int_type, left, right),
        BinOp::And => converted_word(left & right, int_type),
        BinOp::Or => converted_word(left | right, int_type),
        BinOp::Xor => converted_word(left ^ right, int_type),
    }
}

/// The word of the negative.
pub fn negated_word(int_type: IntType, operand: u64) -> u64
    ensures { result ≡ negated_word int_type operand }
{
    converted_word(0u64.wrapping_sub(operand), int_type)
}

/// The word of the bitwise complement.
pub fn complement_word(int_type: IntType, operand: u64) -> u64
    ensures { result ≡ complement_word int_type operand }
{
    converted_word(!operand, int_type)
}

fn compare_signed(relation: Relation, left: i64, right: i64) -> bool
    ensures { result ≡ compare_of relation left right }
{
    match relation {
        Relation::Eq => left == right,
        Relation::Ne => left != right,
        Relation::Lt => left < right,
        Relation::Le => left <= right,
        Relation::Gt => left > right,
        Relation::Ge => left >= right,
    }
}

fn compare_unsigned(relation: Relation, left: u64, right: u64) -> bool
    ensures { result ≡ compare_of relation (pos left) (pos right) }
{
    match relation {
        Relation::Eq => left == right,
        Relation::Ne => left != right,
        Relation::Lt => left < right,
        Relation::Le => left <= right,
        Relation::Gt => left > right,
        Relation::Ge => left >= right,
    }
}

/// 1 where the relation holds, otherwise 0.
pub fn compared_word(relation: Relation, int_type: IntType, left: u64, right: u64) -> u64
    ensures { result ≡ compared_word relation int_type left right }
{
    if int_type.is_signed() {
        let left = signed_value(left, int_type);
        let right = signed_value(right, int_type);
        u64::from(compare_signed(relation, left, right))
    } else {
        let left = unsigned_value(left, int_type);
        let right = unsigned_value(right, int_type);
        u64::from(compare_unsigned(relation, left, right))
    }
}
