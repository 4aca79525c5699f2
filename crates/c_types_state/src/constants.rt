// Integer constant expressions (C17 6.6).

ghost use Rattle.std.specs.Prelude.{◌≡◌, true};
ghost use Rattle.c_num.specs.Arith.{is_shift};
ghost use Rattle.c_rules.specs.Constants as spec;
ghost use Rattle.c_rules.specs.Operators as rules;
ghost use Rattle.c_rules.specs.Known as known;

use c_num::{ArithUb, BinOp, IntType, Relation, binary, compare, complement, convert, negate};
use c_rules::Constness;

/// What an operator gave.
fn outcome(result_of: Result<i128, ArithUb>) -> Constness
    ensures { result ≡ spec.outcome_constness result_of }
{
    match result_of {
        Ok(value) => Constness::Constant(value),
        Err(_) => Constness::Undefined,
    }
}

/// A truth value (C17 6.5.8 paragraph 6).
fn truth(holds: bool) -> Constness
    ensures { result ≡ spec.truth holds }
{
    Constness::Constant(i128::from(holds))
}

/// Whether it is the constant zero.
pub fn is_zero(constness: Constness) -> bool
    ensures { result ≡ known.is_zero constness }
{
    match constness {
        Constness::Constant(value) => value == 0,
        _ => false,
    }
}

/// Converted to an integer type (C17 6.3.1.3).
pub fn converted(int_type: IntType, constness: Constness) -> Constness
    ensures { result ≡ spec.converted int_type constness }
{
    match constness {
        Constness::Constant(value) => Constness::Constant(convert(value, int_type)),
        other => other,
    }
}

/// An operator on operands that are converted to one type first.
pub fn arithmetic(op: BinOp, int_type: IntType, left: Constness, right: Constness) -> Constness
    ensures { result ≡ spec.arithmetic op int_type (spec.converted int_type left) (spec.converted int_type right) }
{
    match (left, right) {
        (Constness::NotConstant, _) => Constness::NotConstant,
        (_, Constness::NotConstant) => Constness::NotConstant,
        (Constness::Constant(a), Constness::Constant(b)) => outcome(binary(
            op,
            int_type,
            convert(a, int_type),
            convert(b, int_type),
        )),
        (_, _) => Constness::Undefined,
    }
}

/// A shift, of which the left operand is converted first (C17 6.5.7).
pub fn shift(op: BinOp, int_type: IntType, left: Constness, right: Constness) -> Constness
    requires { is_shift op ≡ true }
    ensures { result ≡ spec.arithmetic op int_type (spec.converted int_type left) right }
{
    match (left, right) {
        (Constness::NotConstant, _) => Constness::NotConstant,
        (_, Constness::NotConstant) => Constness::NotConstant,
        (Constness::Constant(a), Constness::Constant(b)) => {
            outcome(binary(op, int_type, convert(a, int_type), b))
        }
        (_, _) => Constness::Undefined,
    }
}

/// A comparison of operands that are converted to one type first (C17 6.5.8, 6.5.9).
pub fn comparison(
    relation: Relation,
    int_type: IntType,
    left: Constness,
    right: Constness,
) -> Constness
    ensures { result ≡ spec.comparison relation (spec.converted int_type left) (spec.converted int_type right) }
{
    match (left, right) {
        (Constness::NotConstant, _) => Constness::NotConstant,
        (_, Constness::NotConstant) => Constness::NotConstant,
        (Constness::Constant(a), Constness::Constant(b)) => truth(compare(
            relation,
            convert(a, int_type),
            convert(b, int_type),
        )),
        (_, _) => Constness::Undefined,
    }
}

/// The unary `-` (C17 6.5.3.3 paragraph 3).
pub fn negated(int_type: IntType, constness: Constness) -> Constness
    ensures { result ≡ rules.negated int_type constness }
{
    match constness {
        Constness::Constant(value) => outcome(negate(int_type, convert(value, int_type))),
        other => other,
    }
}

/// The unary `~` (C17 6.5.3.3 paragraph 4).
pub fn complemented(int_type: IntType, constness: Constness) -> Constness
    ensures { result ≡ rules.complemented int_type constness }
{
    match constness {
        Constness::Constant(value) => Constness::Constant(complement(int_type, value)),
        other => other,
    }
}

/// Whether it is zero (C17 6.5.3.3 paragraph 5).
pub fn logical_not(constness: Constness) -> Constness
    ensures { result ≡ rules.not_constness constness }
{
    match constness {
        Constness::Constant(value) => truth(value == 0),
        other => other,
    }
}

/// Whether it isn't zero.
fn truth_of(constness: Constness) -> Constness
    ensures { result ≡ spec.truth_of constness }
{
    match constness {
        Constness::Constant(value) => truth(value != 0),
        other => other,
    }
}

fn is_constant(constness: Constness) -> bool
    ensures { result ≡ spec.is_constant constness }
{
    match constness {
        Constness::NotConstant => false,
        _ => true,
    }
}

/// `c ? a : b`, of which all have to be constant (C17 6.6 paragraph 3).
pub fn conditional(condition: Constness, then: Constness, otherwise: Constness) -> Constness
    ensures { result ≡ spec.conditional condition then otherwise }
{
    if !is_constant(then) || !is_constant(otherwise) {
        return Constness::NotConstant;
    }
    match condition {
        Constness::Constant(0) => otherwise,
        Constness::Constant(_) => then,
        other => other,
    }
}

/// `&&` (C17 6.5.13)
pub fn conjunction(left: Constness, right: Constness) -> Constness
    ensures { result ≡ spec.conjunction left right }
{
    conditional(left, truth_of(right), Constness::Constant(0))
}

/// `||` (C17 6.5.14)
pub fn disjunction(left: Constness, right: Constness) -> Constness
    ensures { result ≡ spec.disjunction left right }
{
    conditional(left, Constness::Constant(1), truth_of(right))
}
