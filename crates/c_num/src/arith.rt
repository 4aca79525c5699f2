// The operators on values of one integer type.
ghost use Rattle.std.specs.Prelude.{◌≡◌, ◌↔◌, ◌<◌, ◌^◌, true, false, pos, ◌*ℤ◌, IsTrue, IfOk, IfErr};
ghost use Rattle.c_num.specs.Types.{IsSigned, IsValue, least_of};
ghost use Rattle.c_num.specs.Conversion.{convert_to};
ghost use Rattle.c_num.specs.Arith.{quotient, remainder, exact, is_shift, IsRightOperand, divides_by_zero, is_out_of_range, is_bad_amount, is_bad_shift, overflows, outcome_of, wrapped_right, wrapped, fitted, negated_of, wrapped_negation, complement_of, Holds, compare_of};

use crate::{ArithUb, BinOp, IntType, Relation, convert, value_of_word, word};

/// The operator `op` on values `a` and `b` of type `t` (C17 6.5.5 to 6.5.7 and 6.5.10 to 6.5.12). The amount of a shift
/// may be any number.
pub fn binary(op: BinOp, t: IntType, a: i128, b: i128) -> Result<i128, ArithUb>
    requires left { IsValue t a }
    requires right { IsRightOperand op t b }
    ensures outcome { result ≡ outcome_of op t a b }

    // when each error comes
    ensures overflow { (result ≡ Err ArithUb.Overflow) ↔ IsTrue (overflows op t a b) }
    ensures divide_by_zero { (result ≡ Err ArithUb.DivideByZero) ↔ IsTrue (divides_by_zero op b) }
    ensures bad_shift { (result ≡ Err ArithUb.BadShift) ↔ IsTrue (is_bad_shift op t a b) }

    // what a result is
    ensures signed { IsSigned t → IfOk result (λ r. r ≡ exact op t a b) }
    ensures reduced { IfOk result (λ r. r ≡ convert_to t (exact op t a b)) }
    ensures in_range { IfOk result (λ r. IsValue t r) }
{
    match op {
        BinOp::Add => fit(t, a + b),
        BinOp::Sub => fit(t, a - b),
        BinOp::Mul => fit(t, product(t, a, b)),
        BinOp::Div => divide(t, a, b),
        BinOp::Rem => divide_for_remainder(t, a, b),
        BinOp::Shl => shift_left(t, a, b),
        BinOp::Shr => shift_right(t, a, b),
        BinOp::And => Ok(bit_and(t, a, b)),
        BinOp::Or => Ok(bit_or(t, a, b)),
        BinOp::Xor => Ok(bit_xor(t, a, b)),
    }
}

/// Whether a result does not fit the signed type `t`.
fn is_out_of_range(t: IntType, exact: i128) -> bool
    ensures { result ≡ is_out_of_range t exact }
{
    t.is_signed() && !t.contains(exact)
}

/// A result without regard to the range as a value of type `t`, or an overflow.
fn fit(t: IntType, exact: i128) -> Result<i128, ArithUb>
    ensures { result ≡ fitted t exact }
{
    if is_out_of_range(t, exact) {
        Err(ArithUb::Overflow)
    } else {
        Ok(convert(exact, t))
    }
}

/// The product of two values of type `t`; of an unsigned type, where it may have 128 bits, a number congruent to it
/// modulo 2^64.
fn product(t: IntType, a: i128, b: i128) -> i128
    requires left { IsValue t a }
    requires right { IsValue t b }
    ensures signed { IsSigned t → result ≡ a *ℤ b }
    ensures converted { convert_to t result ≡ convert_to t (a *ℤ b) }
{
    if t.is_signed() {
        a * b
    } else {
        word(a, t).wrapping_mul(word(b, t)) as i128
    }
}

/// The quotient without its fractional part, or 0 where there is none.
fn quotient(t: IntType, a: i128, b: i128) -> i128
    requires left { IsValue t a }
    requires right { IsValue t b }
    ensures { result ≡ quotient a b }
{
    if b == 0 { 0 } else { a / b }
}

/// What division leaves: all, where there is no quotient.
fn remainder(t: IntType, a: i128, b: i128) -> i128
    requires left { IsValue t a }
    requires right { IsValue t b }
    ensures { result ≡ remainder a b }
{
    if b == 0 { a } else { a % b }
}

fn divide(t: IntType, a: i128, b: i128) -> Result<i128, ArithUb>
    requires left { IsValue t a }
    requires right { IsValue t b }
    ensures { result ≡ outcome_of BinOp.Div t a b }
{
    if b == 0 {
        return Err(ArithUb::DivideByZero);
    }
    fit(t, quotient(t, a, b))
}

fn divide_for_remainder(t: IntType, a: i128, b: i128) -> Result<i128, ArithUb>
    requires left { IsValue t a }
    requires right { IsValue t b }
    ensures { result ≡ outcome_of BinOp.Rem t a b }
{
    if b == 0 {
        return Err(ArithUb::DivideByZero);
    }
    if is_out_of_range(t, quotient(t, a, b)) {
        return Err(ArithUb::Overflow);
    }
    Ok(convert(remainder(t, a, b), t))
}

/// Whether a shift by `b` is undefined at type `t`, whatever is shifted.
fn is_bad_amount(t: IntType, b: i128) -> bool
    ensures { result ≡ is_bad_amount t b }
{
    b < 0 || t.width() as i128 <= b
}

/// 2 to the power `amount`.
fn power_of_two(amount: u32) -> i128
    requires { amount < 64 }
    ensures { result ≡ pos (2 ^ amount) }
{
    (1u64 << amount) as i128
}

/// `a` times 2 to the power `b`.
fn shifted_left(t: IntType, a: i128, b: i128) -> i128
    requires value { IsValue t a }
    requires amount { is_bad_amount t b ≡ false }
    ensures { result ≡ exact BinOp.Shl t a b }
{
    a * power_of_two(b as u32)
}

/// `a` divided by 2 to the power `b`, rounded down.
fn shifted_right(t: IntType, a: i128, b: i128) -> i128
    requires value { IsValue t a }
    requires amount { is_bad_amount t b ≡ false }
    ensures { result ≡ exact BinOp.Shr t a b }
{
    a >> b as u32
}

fn shift_left(t: IntType, a: i128, b: i128) -> Result<i128, ArithUb>
    requires { IsValue t a }
    ensures { result ≡ outcome_of BinOp.Shl t a b }
{
    if is_bad_amount(t, b) || a < 0 {
        return Err(ArithUb::BadShift);
    }
    let shifted = shifted_left(t, a, b);
    if is_out_of_range(t, shifted) {
        return Err(ArithUb::BadShift);
    }
    Ok(convert(shifted, t))
}

fn shift_right(t: IntType, a: i128, b: i128) -> Result<i128, ArithUb>
    requires { IsValue t a }
    ensures { result ≡ outcome_of BinOp.Shr t a b }
{
    if is_bad_amount(t, b) {
        return Err(ArithUb::BadShift);
    }
    Ok(convert(shifted_right(t, a, b), t))
}

fn bit_and(t: IntType, a: i128, b: i128) -> i128
    ensures { result ≡ exact BinOp.And t a b }
{
    value_of_word(word(a, t) & word(b, t), t)
}

fn bit_or(t: IntType, a: i128, b: i128) -> i128
    ensures { result ≡ exact BinOp.Or t a b }
{
    value_of_word(word(a, t) | word(b, t), t)
}

fn bit_xor(t: IntType, a: i128, b: i128) -> i128
    ensures { result ≡ exact BinOp.Xor t a b }
{
    value_of_word(word(a, t) ^ word(b, t), t)
}

/// The result of the operator without regard to the range of `t`, or a number congruent to it modulo 2^64.
fn unreduced(op: BinOp, t: IntType, a: i128, b: i128) -> i128
    requires left { IsValue t a }
    requires right { IsRightOperand op t b }
    requires amount { is_shift op ≡ true → is_bad_amount t b ≡ false }
    ensures { convert_to t result ≡ convert_to t (exact op t a b) }
{
    match op {
        BinOp::Add => a + b,
        BinOp::Sub => a - b,
        BinOp::Mul => product(t, a, b),
        BinOp::Div => quotient(t, a, b),
        BinOp::Rem => remainder(t, a, b),
        BinOp::Shl => shifted_left(t, a, b),
        BinOp::Shr => shifted_right(t, a, b),
        BinOp::And => bit_and(t, a, b),
        BinOp::Or => bit_or(t, a, b),
        BinOp::Xor => bit_xor(t, a, b),
    }
}

/// The right operand of the operator made total.
fn wrapped_right(op: BinOp, t: IntType, b: i128) -> i128
    ensures { result ≡ wrapped_right op t b }
{
    match op {
        BinOp::Shl | BinOp::Shr => b.rem_euclid(t.width() as i128),
        _ => convert(b, t),
    }
}

/// The operator made total: both operands are converted to `t` first, but the amount of a shift is taken modulo the
/// width; the result is reduced modulo 2^width; `x / 0` is 0 and `x % 0` is `x`.
pub fn wrap_binary(op: BinOp, t: IntType, a: i128, b: i128) -> i128
    ensures value { result ≡ wrapped op t a b }
    ensures in_range { IsValue t result }
    // It is `binary` where that is defined.
    ensures defined { IsValue t a → IsRightOperand op t b → IfOk (outcome_of op t a b) (λ r. result ≡ r) }
{
    let left = convert(a, t);
    let right = wrapped_right(op, t, b);
    convert(unreduced(op, t, left, right), t)
}

/// The unary `-` of a value `a` of type `t` (C17 6.5.3.3 paragraph 3).
pub fn negate(t: IntType, a: i128) -> Result<i128, ArithUb>
    requires { IsValue t a }
    ensures outcome { result ≡ negated_of t a }
    ensures overflow { (result ≡ Err ArithUb.Overflow) ↔ (IsSigned t × (a ≡ least_of t)) }
    ensures only_overflow { IfErr result (λ e. e ≡ ArithUb.Overflow) }
    ensures in_range { IfOk result (λ r. IsValue t r) }
{
    fit(t, -a)
}

/// The unary `-` made total: of `a` converted to `t`, reduced modulo 2^width.
pub fn wrap_negate(t: IntType, a: i128) -> i128
    ensures value { result ≡ wrapped_negation t a }
    ensures in_range { IsValue t result }
    // It is `negate` where that is defined.
    ensures defined { IsValue t a → IfOk (negated_of t a) (λ r. result ≡ r) }
{
    convert(-convert(a, t), t)
}

/// The unary `~` of `a` converted to `t`: each bit inverted (C17 6.5.3.3 paragraph 4).
pub fn complement(t: IntType, a: i128) -> i128
    ensures value { result ≡ complement_of t a }
    ensures in_range { IsValue t result }
{
    value_of_word(!word(a, t), t)
}

/// Whether the relation holds between `a` and `b` (C17 6.5.8 and 6.5.9).
pub fn compare(relation: Relation, a: i128, b: i128) -> bool
    ensures value { result ≡ compare_of relation a b }
    ensures meaning { IsTrue result ↔ Holds relation a b }
{
    match relation {
        Relation::Eq => a == b,
        Relation::Ne => a != b,
        Relation::Lt => a < b,
        Relation::Le => a <= b,
        Relation::Gt => a > b,
        Relation::Ge => a >= b,
    }
}
