// Operators between two operands (C17 6.5.5 to 6.5.15).

ghost use Rattle.std.specs.Prelude.{◌≡◌, true, IfOk};
ghost use Rattle.c_num.specs.Arith.{is_shift};
ghost use Rattle.c_typed.specs.Table.{Stands, type_in};
ghost use Rattle.c_typed.specs.Views.{ValueStands};
ghost use Rattle.c_rules.specs.Known.{give, with_known};
ghost use Rattle.c_rules.specs.Operators as rules;
ghost use Rattle.c_types_state.specs.Finding.{Finds, IsType, ExprStands, AllStand, each_in, condition_in, AddressStands};
ghost use Rattle.c_types_state.specs.NameTables.{scope_of};
ghost use Rattle.c_types_state.specs.Operands.{IsOperand, OperandStands, operand_in};
ghost use Rattle.c_types_expressions.specs.Binary.{operand_rule, type_or_void, agreed_in, both_rule, either_rule, FindsMoved};
ghost use Rattle.c_types_state.specs.Promises.{FindsOfPart, FindsOfTwo};

use c_num::{BinOp, IntType, Relation, common};
use c_rules::TypeRule;
use c_syntax::BinaryOperator;
use c_typed::{CType, Value};
use c_types_state::constants::{
    arithmetic as constant, comparison, conditional, conjunction, converted as constant_as,
    disjunction, shift,
};
use c_types_state::types::{
    int_type_of, is_integer, is_object_pointer, is_pointer, is_pointer_to_complete, is_void,
    is_void_pointer, promoted_type, target_of,
};
use c_types_state::{
    Address, Checker, Condition, Direction, Known, Operand, as_integer, as_scalar, as_value,
    condition_of, converted, integer_as, moved, promoted_value, unconverted,
};
use run_theory::Pos;
use std::alloc::AllocError;

/// What an operator asks of each of its operands.
pub fn operand(
    checker: &mut Checker,
    operator: BinaryOperator,
    place: Pos,
    part: Option<Known>,
) -> Result<Option<Operand>, AllocError>
    requires { AllStand ExprStands checker.old.table part }
    ensures { FindsOfPart IsOperand (λ part. with_known part (operand_rule operator place)) part checker.old checker.new result }
{
    match operator {
        BinaryOperator::Add
        | BinaryOperator::Subtract
        | BinaryOperator::Less
        | BinaryOperator::Greater
        | BinaryOperator::LessEqual
        | BinaryOperator::GreaterEqual
        | BinaryOperator::Equal
        | BinaryOperator::NotEqual => as_value(checker, place, part),
        BinaryOperator::And | BinaryOperator::Or => as_scalar(checker, place, part),
        BinaryOperator::Multiply
        | BinaryOperator::Divide
        | BinaryOperator::Remainder
        | BinaryOperator::ShiftLeft
        | BinaryOperator::ShiftRight
        | BinaryOperator::BitAnd
        | BinaryOperator::BitXor
        | BinaryOperator::BitOr => as_integer(checker, place, part),
    }
}

/// What an operator gives of its operands; the whole stands where the left one does.
pub fn combined(
    checker: &mut Checker,
    operator: BinaryOperator,
    whole: Pos,
    right_place: Pos,
    left: Operand,
    right: Operand,
) -> Result<Option<Operand>, AllocError>
    requires left { OperandStands checker.old.table left }
    requires right { OperandStands checker.old.table right }
    ensures { FindsOfTwo IsOperand (rules.combined (scope_of checker.old) operator whole right_place) left right checker.old checker.new result }
{
    match operator {
        BinaryOperator::Multiply => arithmetic(checker, BinOp::Mul, whole, left, right),
        BinaryOperator::Divide => arithmetic(checker, BinOp::Div, whole, left, right),
        BinaryOperator::Remainder => arithmetic(checker, BinOp::Rem, whole, left, right),
        BinaryOperator::Add => sum(checker, whole, left, right),
        BinaryOperator::Subtract => difference(checker, whole, left, right),
        BinaryOperator::ShiftLeft => shifted(checker, BinOp::Shl, whole, left, right),
        BinaryOperator::ShiftRight => shifted(checker, BinOp::Shr, whole, left, right),
        BinaryOperator::Less => ordered(checker, Relation::Lt, whole, left, right),
        BinaryOperator::Greater => ordered(checker, Relation::Gt, whole, left, right),
        BinaryOperator::LessEqual => ordered(checker, Relation::Le, whole, left, right),
        BinaryOperator::GreaterEqual => ordered(checker, Relation::Ge, whole, left, right),
        BinaryOperator::Equal => equated(checker, Relation::Eq, whole, left, right),
        BinaryOperator::NotEqual => equated(checker, Relation::Ne, whole, left, right),
        BinaryOperator::BitAnd => arithmetic(checker, BinOp::And, whole, left, right),
        BinaryOperator::BitXor => arithmetic(checker, BinOp::Xor, whole, left, right),
        BinaryOperator::BitOr => arithmetic(checker, BinOp::Or, whole, left, right),
        BinaryOperator::And => both(checker, whole, right_place, left, right),
        BinaryOperator::Or => either(checker, whole, right_place, left, right),
    }
}

/// The type of the usual arithmetic conversions (C17 6.3.1.8).
pub(crate) fn common_type(checker: &Checker, a: &Operand, b: &Operand) -> IntType
    requires a { OperandStands checker.now.table a.now }
    requires b { OperandStands checker.now.table b.now }
    ensures { result ≡ rules.common_type (operand_in checker.now.table a.now) (operand_in checker.now.table b.now) }
{
    common(
        int_type_of(checker, a.c_type),
        int_type_of(checker, b.c_type),
    )
}

fn both_integers(checker: &Checker, a: &Operand, b: &Operand) -> bool
    requires a { OperandStands checker.now.table a.now }
    requires b { OperandStands checker.now.table b.now }
    ensures { result ≡ rules.both_integers (operand_in checker.now.table a.now) (operand_in checker.now.table b.now) }
{
    is_integer(checker, a.c_type) && is_integer(checker, b.c_type)
}

/// The usual arithmetic conversions, and the operator at their type.
fn arithmetic(
    checker: &mut Checker,
    op: BinOp,
    whole: Pos,
    left: Operand,
    right: Operand,
) -> Result<Option<Operand>, AllocError>
    requires left { OperandStands checker.old.table left }
    requires right { OperandStands checker.old.table right }
    ensures { FindsOfTwo IsOperand (rules.arithmetic op whole) left right checker.old checker.new result }
{
    let alloc = checker.alloc();
    let int_type = common_type(checker, &left, &right);
    let constness = constant(op, int_type, left.constness, right.constness);
    let left = left.into_value();
    let right = right.into_value();
    let value = Value::Arithmetic {
        op,
        place: whole,
        int_type,
        left: integer_as(alloc, int_type, left)?,
        right: integer_as(alloc, int_type, right)?,
    };
    let value = Box::new(alloc, value)?;
    Ok(Some(Operand::integer(int_type, constness, value)))
}

/// A shift works at the promoted type of its left operand (C17 6.5.7).
fn shifted(
    checker: &mut Checker,
    op: BinOp,
    whole: Pos,
    left: Operand,
    right: Operand,
) -> Result<Option<Operand>, AllocError>
    requires shift { is_shift op ≡ true }
    requires left { OperandStands checker.old.table left }
    requires right { OperandStands checker.old.table right }
    ensures { FindsOfTwo IsOperand (rules.shifted op whole) left right checker.old checker.new result }
{
    let alloc = checker.alloc();
    let int_type = promoted_type(checker, left.c_type);
    let constness = shift(op, int_type, left.constness, right.constness);
    let value = Value::Arithmetic {
        op,
        place: whole,
        int_type,
        left: promoted_value(checker, left)?,
        right: promoted_value(checker, right)?,
    };
    let value = Box::new(alloc, value)?;
    Ok(Some(Operand::integer(int_type, constness, value)))
}

/// `+` (C17 6.5.6)
fn sum(
    checker: &mut Checker,
    whole: Pos,
    left: Operand,
    right: Operand,
) -> Result<Option<Operand>, AllocError>
    requires left { OperandStands checker.old.table left }
    requires right { OperandStands checker.old.table right }
    ensures { FindsOfTwo IsOperand (rules.sum (scope_of checker.old) whole) left right checker.old checker.new result }
{
    if both_integers(checker, &left, &right) {
        return arithmetic(checker, BinOp::Add, whole, left, right);
    }
    let alloc = checker.alloc();
    if is_pointer(checker, left.c_type) && is_integer(checker, right.c_type) {
        let number = right.constness;
        let value = Value::PointerPlus {
            place: whole,
            pointer: left.value,
            number: right.into_value(),
        };
        let value = Box::new(alloc, value)?;
        let address = moved(left.address, Direction::Forward, number);
        return Ok(moved_pointer(checker, whole, value, left.c_type, address));
    }
    if is_integer(checker, left.c_type) && is_pointer(checker, right.c_type) {
        let number = left.constness;
        let value = Value::NumberPlus {
            place: whole,
            number: left.into_value(),
            pointer: right.value,
        };
        let value = Box::new(alloc, value)?;
        let address = moved(right.address, Direction::Forward, number);
        return Ok(moved_pointer(checker, whole, value, right.c_type, address));
    }
    checker.note(TypeRule::T11, whole);
    Ok(None)
}

/// `-` (C17 6.5.6)
fn difference(
    checker: &mut Checker,
    whole: Pos,
    left: Operand,
    right: Operand,
) -> Result<Option<Operand>, AllocError>
    requires left { OperandStands checker.old.table left }
    requires right { OperandStands checker.old.table right }
    ensures { FindsOfTwo IsOperand (rules.difference (scope_of checker.old) whole) left right checker.old checker.new result }
{
    if both_integers(checker, &left, &right) {
        return arithmetic(checker, BinOp::Sub, whole, left, right);
    }
    let alloc = checker.alloc();
    if is_pointer(checker, left.c_type) && is_integer(checker, right.c_type) {
        let number = right.constness;
        let value = Value::PointerMinus {
            place: whole,
            pointer: left.value,
            number: right.into_value(),
        };
        let value = Box::new(alloc, value)?;
        let address = moved(left.address, Direction::Back, number);
        return Ok(moved_pointer(checker, whole, value, left.c_type, address));
    }
    pointer_difference(checker, whole, left, right)
}

/// A pointer that was moved within its row, as this value at an address (C17 6.5.6 paragraph 8).
fn moved_pointer(
    checker: &mut Checker,
    whole: Pos,
    value: Box<Value>,
    c_type: CType,
    address: Address,
) -> Option<Operand>
    requires value { ValueStands checker.old.table value.value }
    requires c_type { Stands checker.old.table c_type }
    requires address { AddressStands checker.old.table address }
    ensures { FindsMoved whole value c_type address checker.old checker.new result }
{
    let is_complete = is_pointer_to_complete(checker, c_type);
    if !checker.require(is_complete, TypeRule::T14, whole) {
        return None;
    }
    Some(Operand {
        address,
        ..Operand::of_type(c_type, value)
    })
}

/// The difference of two pointers (C17 6.5.6 paragraph 9).
fn pointer_difference(
    checker: &mut Checker,
    whole: Pos,
    left: Operand,
    right: Operand,
) -> Result<Option<Operand>, AllocError>
    requires left { OperandStands checker.old.table left }
    requires right { OperandStands checker.old.table right }
    ensures { FindsOfTwo IsOperand (rules.pointer_difference (scope_of checker.old) whole) left right checker.old checker.new result }
{
    let agrees = is_pointer(checker, left.c_type) && checker.same(left.c_type, right.c_type);
    if !checker.require(agrees, TypeRule::T11, whole) {
        return Ok(None);
    }
    let is_complete = is_pointer_to_complete(checker, left.c_type);
    if !checker.require(is_complete, TypeRule::T14, whole) {
        return Ok(None);
    }
    let alloc = checker.alloc();
    let value = Value::PointerDifference {
        place: whole,
        left: left.into_value(),
        right: right.into_value(),
    };
    let value = Box::new(alloc, value)?;
    Ok(Some(Operand::of_type(CType::integer(IntType::Long), value)))
}

/// A comparison of integers.
fn compared(
    checker: &mut Checker,
    relation: Relation,
    left: Operand,
    right: Operand,
) -> Result<Option<Operand>, AllocError>
    requires left { OperandStands checker.old.table left }
    requires right { OperandStands checker.old.table right }
    ensures { FindsOfTwo IsOperand (rules.compared relation) left right checker.old checker.new result }
{
    let alloc = checker.alloc();
    let int_type = common_type(checker, &left, &right);
    let constness = comparison(relation, int_type, left.constness, right.constness);
    let left = left.into_value();
    let right = right.into_value();
    let value = Value::Compare {
        relation,
        left: integer_as(alloc, int_type, left)?,
        right: integer_as(alloc, int_type, right)?,
    };
    let value = Box::new(alloc, value)?;
    Ok(Some(Operand::integer(IntType::Int, constness, value)))
}

/// `<` and its like (C17 6.5.8)
fn ordered(
    checker: &mut Checker,
    relation: Relation,
    whole: Pos,
    left: Operand,
    right: Operand,
) -> Result<Option<Operand>, AllocError>
    requires left { OperandStands checker.old.table left }
    requires right { OperandStands checker.old.table right }
    ensures { FindsOfTwo IsOperand (rules.ordered relation whole) left right checker.old checker.new result }
{
    if both_integers(checker, &left, &right) {
        return compared(checker, relation, left, right);
    }
    let agrees = is_object_pointer(checker, left.c_type) && checker.same(left.c_type, right.c_type);
    if !checker.require(agrees, TypeRule::T11, whole) {
        return Ok(None);
    }
    let alloc = checker.alloc();
    let value = Value::ComparePointers {
        relation,
        place: whole,
        left: left.into_value(),
        right: right.into_value(),
    };
    let value = Box::new(alloc, value)?;
    Ok(Some(Operand::of_type(CType::integer(IntType::Int), value)))
}

/// Whether `==` compares two pointers, or `?:` chooses between them.
fn pointers_agree(checker: &Checker, a: &Operand, b: &Operand) -> bool
    requires a { OperandStands checker.now.table a.now }
    requires b { OperandStands checker.now.table b.now }
    ensures { result ≡ rules.pointers_agree (operand_in checker.now.table a.now) (operand_in checker.now.table b.now) }
{
    if is_pointer(checker, a.c_type) && b.is_null {
        return true;
    }
    if is_pointer(checker, b.c_type) && a.is_null {
        return true;
    }
    is_pointer(checker, a.c_type)
        && is_pointer(checker, b.c_type)
        && (checker.same(a.c_type, b.c_type)
            || (is_void_pointer(checker, a.c_type) && is_object_pointer(checker, b.c_type))
            || (is_void_pointer(checker, b.c_type) && is_object_pointer(checker, a.c_type)))
}

/// The type of two pointers that agree, where it is that of one of them; else it is `void *`.
fn agreed_type(checker: &Checker, a: &Operand, b: &Operand) -> Option<CType>
    requires a { OperandStands checker.now.table a.now }
    requires b { OperandStands checker.now.table b.now }
    ensures stands { AllStand Stands checker.now.table result }
    ensures agreed { type_or_void (each_in type_in checker.now.table result) ≡ agreed_in checker.now.table a.now b.now }
{
    if is_pointer(checker, a.c_type) && b.is_null {
        let is_other = a.is_null && is_pointer(checker, b.c_type);
        return Some(if is_other { b.c_type } else { a.c_type });
    }
    if is_pointer(checker, b.c_type) && a.is_null {
        return Some(b.c_type);
    }
    if checker.same(a.c_type, b.c_type) {
        return Some(a.c_type);
    }
    None
}

/// The type of two pointers that agree.
fn agreed_pointer(checker: &mut Checker, a: &Operand, b: &Operand) -> Result<CType, AllocError>
    requires a { OperandStands checker.old.table a.now }
    requires b { OperandStands checker.old.table b.now }
    ensures { IfOk result (λ made. Finds IsType (give (agreed_in checker.old.table a.now b.now)) checker.old checker.new (Some made)) }
{
    match agreed_type(checker, a, b) {
        Some(c_type) => Ok(c_type),
        None => checker.pointer_to(CType::VOID),
    }
}

/// What that type points to.
fn agreed_target(checker: &Checker, a: &Operand, b: &Operand) -> CType
    requires a { OperandStands checker.now.table a.now }
    requires b { OperandStands checker.now.table b.now }
    ensures stands { Stands checker.now.table result }
    ensures target { type_in checker.now.table result ≡ rules.target_of (agreed_in checker.now.table a.now b.now) }
{
    match agreed_type(checker, a, b) {
        Some(c_type) => target_of(checker, c_type),
        None => CType::VOID,
    }
}

/// `==` and `!=` (C17 6.5.9): no pointer is converted but a null pointer constant.
fn equated(
    checker: &mut Checker,
    relation: Relation,
    whole: Pos,
    left: Operand,
    right: Operand,
) -> Result<Option<Operand>, AllocError>
    requires left { OperandStands checker.old.table left }
    requires right { OperandStands checker.old.table right }
    ensures { FindsOfTwo IsOperand (rules.equated relation whole) left right checker.old checker.new result }
{
    if both_integers(checker, &left, &right) {
        return compared(checker, relation, left, right);
    }
    let agrees = pointers_agree(checker, &left, &right);
    if !checker.require(agrees, TypeRule::T11, whole) {
        return Ok(None);
    }
    let target = agreed_target(checker, &left, &right);
    let alloc = checker.alloc();
    let value = Value::ComparePointers {
        relation,
        place: whole,
        left: unconverted(alloc, target, left)?,
        right: unconverted(alloc, target, right)?,
    };
    let value = Box::new(alloc, value)?;
    Ok(Some(Operand::of_type(CType::integer(IntType::Int), value)))
}

/// `&&` (C17 6.5.13)
fn both(
    checker: &mut Checker,
    whole: Pos,
    right_place: Pos,
    left: Operand,
    right: Operand,
) -> Result<Option<Operand>, AllocError>
    requires left { OperandStands checker.old.table left }
    requires right { OperandStands checker.old.table right }
    ensures { FindsOfTwo IsOperand (both_rule whole right_place) left right checker.old checker.new result }
{
    let alloc = checker.alloc();
    let left = condition_of(checker, whole, left)?;
    let right = condition_of(checker, right_place, right)?;
    let constness = conjunction(left.constness, right.constness);
    let value = Value::And {
        left: left.test,
        right: right.test,
    };
    let value = Box::new(alloc, value)?;
    Ok(Some(Operand::integer(IntType::Int, constness, value)))
}

/// `||` (C17 6.5.14)
fn either(
    checker: &mut Checker,
    whole: Pos,
    right_place: Pos,
    left: Operand,
    right: Operand,
) -> Result<Option<Operand>, AllocError>
    requires left { OperandStands checker.old.table left }
    requires right { OperandStands checker.old.table right }
    ensures { FindsOfTwo IsOperand (either_rule whole right_place) left right checker.old checker.new result }
{
    let alloc = checker.alloc();
    let left = condition_of(checker, whole, left)?;
    let right = condition_of(checker, right_place, right)?;
    let constness = disjunction(left.constness, right.constness);
    let value = Value::Or {
        left: left.test,
        right: right.test,
    };
    let value = Box::new(alloc, value)?;
    Ok(Some(Operand::integer(IntType::Int, constness, value)))
}

/// `?:` (C17 6.5.15)
pub fn choice(
    checker: &mut Checker,
    whole: Pos,
    condition: Condition,
    then: Operand,
    otherwise: Operand,
) -> Result<Option<Operand>, AllocError>
    requires condition { ValueStands checker.old.table condition.test.value }
    requires then { OperandStands checker.old.table then }
    requires otherwise { OperandStands checker.old.table otherwise }
    ensures { FindsOfTwo IsOperand (rules.choice whole (condition_in checker.old.table condition)) then otherwise checker.old checker.new result }
{
    if both_integers(checker, &then, &otherwise) {
        return integer_choice(checker, condition, then, otherwise);
    }
    let alloc = checker.alloc();
    if is_void(checker, then.c_type) && is_void(checker, otherwise.c_type) {
        let value = Value::Conditional {
            condition: condition.test,
            then: then.into_value(),
            otherwise: otherwise.into_value(),
        };
        let value = Box::new(alloc, value)?;
        return Ok(Some(Operand::of_type(CType::VOID, value)));
    }
    let agrees = pointers_agree(checker, &then, &otherwise);
    if !checker.require(agrees, TypeRule::T11, whole) {
        return Ok(None);
    }
    let c_type = agreed_pointer(checker, &then, &otherwise)?;
    let value = Value::Conditional {
        condition: condition.test,
        then: converted(checker, whole, c_type, then)?,
        otherwise: converted(checker, whole, c_type, otherwise)?,
    };
    let value = Box::new(alloc, value)?;
    Ok(Some(Operand::of_type(c_type, value)))
}

/// `?:` between integers (C17 6.5.15 paragraph 5).
fn integer_choice(
    checker: &mut Checker,
    condition: Condition,
    then: Operand,
    otherwise: Operand,
) -> Result<Option<Operand>, AllocError>
    requires condition { ValueStands checker.old.table condition.test.value }
    requires then { OperandStands checker.old.table then }
    requires otherwise { OperandStands checker.old.table otherwise }
    ensures { FindsOfTwo IsOperand (rules.integer_choice (condition_in checker.old.table condition)) then otherwise checker.old checker.new result }
{
    let alloc = checker.alloc();
    let int_type = common_type(checker, &then, &otherwise);
    let constness = conditional(
        condition.constness,
        constant_as(int_type, then.constness),
        constant_as(int_type, otherwise.constness),
    );
    let then = then.into_value();
    let otherwise = otherwise.into_value();
    let value = Value::Conditional {
        condition: condition.test,
        then: integer_as(alloc, int_type, then)?,
        otherwise: integer_as(alloc, int_type, otherwise)?,
    };
    let value = Box::new(alloc, value)?;
    Ok(Some(Operand::integer(int_type, constness, value)))
}
