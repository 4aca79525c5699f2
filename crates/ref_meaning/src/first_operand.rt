// What an expression does once its first operand is known.

ghost use Rattle.std.specs.Prelude.{◌≡◌, ℕ, if◌then◌else◌, IfOk, pos, neg_ℤ};
ghost use Rattle.c_typed.specs.Table.{Interned};
ghost use Rattle.c_typed.specs.Views.{value_in, object_in};
ghost use Rattle.ref_meaning.specs.Trees.{ValueFits, ObjectFits};
ghost use Rattle.ref_semantics.specs.Meaning as meaning;
ghost use Rattle.ref_semantics.specs.Parts as parts;
ghost use Rattle.ref_meaning.specs.RefStore.Views.{ScalarStands, PlaceStands};
ghost use Rattle.ref_meaning.specs.RefStore.Holding.{IsStore};
ghost use Rattle.ref_meaning.specs.RefStore.Promises.{place_seen, value_seen, GivesScalar};
ghost use Rattle.ref_meaning.specs.Promises.{part_stored, GivesNext};
ghost use Rattle.ref_meaning.specs.Holding.{NodeStands, IsMember, IsPlaced, IsBehindFirst, PointsToElement};
ghost use Rattle.ref_meaning.specs.declared.control.Node.TheVariants as N;
ghost use Rattle.ref_meaning.specs.declared.first_operand.Next.TheVariants as X;
ghost use Rattle.ref_meaning.specs.Nexts.{scalar_next, place_next};
ghost use Rattle.ref_meaning.specs.Doing.{next_in, role_of, NextStands, NextFinds};

use crate::control::Node;
use crate::operand::{arithmetic, converted, stepped};
use crate::store::Store;
use crate::value::{Place, Scalar, Stop};
use c_num::{BinOp, IntType, common, convert};
use c_typed::{Object, Stepping, Value};
use run_theory::Pos;

/// What an expression does once its first operand is known: it comes to a value, or another is entered.
#[derive(Clone, Copy)]
pub(crate) enum Next<'a> {
    Given(Scalar<'a>),
    Enter { part: Node<'a>, role: Role },
}

/// What an expression is to one that enters it.
#[derive(Clone, Copy)]
pub(crate) enum Role {
    /// The second operand.
    Second,
    /// The right operand of `&&` or `||`.
    Right,
    /// All that the other one comes to.
    Whole,
}

/// What an expression does once its first operand is known.
pub(crate) fn after_first<'a>(
    store: &mut Store<'a>,
    node: Node<'a>,
    first: Scalar<'a>,
) -> Result<Next<'a>, Stop>
    requires store { IsStore store.old }
    requires node { NodeStands store.old.types.now node }
    requires first { ScalarStands store.old.types.now first }
    requires placed { IsPlaced node → PointsToElement store.old.types.now first }
    ensures gives { GivesNext store.old store.new (λ around.
        parts.next_of around (part_stored store.old node.entry) (value_seen store.old first.entry)) result }
    ensures stands { IfOk result (NextStands store.old.types.now) }
    ensures finds { IsBehindFirst node.entry → IfOk result (NextFinds store.old.types.now node.entry) }
    ensures types { store.new.types ≡ store.old.types }
    ensures locals { store.new.locals ≡ store.old.locals }
{
    match node {
        Node::Value(value) => after_value(store, value, first),
        Node::Object(object) => after_object(store, object, first),
        Node::Address(object) => after_object(store, object, first),
        _ => Ok(Next::Given(first)),
    }
}

/// That of an expression for its value: an operand may be left out (C17 6.5.13 to 6.5.15).
fn after_value<'a>(
    store: &mut Store<'a>,
    value: &'a Value,
    first: Scalar<'a>,
) -> Result<Next<'a>, Stop>
    requires store { IsStore store.old }
    requires value { ValueFits store.old.types.now value.now }
    requires first { ScalarStands store.old.types.now first }
    requires placed { IsPlaced (N.Value value) → PointsToElement store.old.types.now first }
    ensures gives { GivesNext store.old store.new (λ around.
        parts.value_next around (value_in store.old.types.now value.now) (value_seen store.old first.entry)) result }
    ensures stands { IfOk result (NextStands store.old.types.now) }
    ensures types { store.new.types ≡ store.old.types }
    ensures locals { store.new.locals ≡ store.old.locals }
{
    match value {
        Value::Read { place, .. } => given(store.read(*place, first.place())),
        Value::Decay { .. } => pointed(Ok(store.decayed(first.place()))),
        Value::Converted { int_type, .. } => Ok(Next::Given(converted(*int_type, first))),
        Value::Repointed { place, target, .. } => given(store.repointed(*place, *target, first)),
        Value::MadeNull { .. } => Ok(Next::Given(Scalar::Null)),
        Value::Tested { place, .. } => given(store.tested(*place, first)),
        Value::Minus {
            place,
            int_type,
            ..
        } => given(arithmetic(BinOp::Sub, *int_type, *place, Scalar::Integer(0), first)),
        Value::Complement { int_type, .. } => Ok(Next::Given(Scalar::Integer(convert(
            -1 - first.integer(),
            *int_type,
        )))),
        Value::Not(_) => Ok(Next::Given(Scalar::truth(!first.is_true()))),
        Value::Arithmetic { right, .. } => Ok(enters(right, Role::Second)),
        Value::Compare { right, .. } => Ok(enters(right, Role::Second)),
        Value::ComparePointers { right, .. } => Ok(enters(right, Role::Second)),
        Value::PointerPlus { number, .. } => Ok(enters(number, Role::Second)),
        Value::NumberPlus { pointer, .. } => Ok(enters(pointer, Role::Second)),
        Value::PointerMinus { number, .. } => Ok(enters(number, Role::Second)),
        Value::PointerDifference { right, .. } => Ok(enters(right, Role::Second)),
        Value::And { right, .. } => {
            if first.is_true() {
                Ok(enters(right, Role::Right))
            } else {
                Ok(Next::Given(Scalar::truth(false)))
            }
        }
        Value::Or { right, .. } => {
            if first.is_true() {
                Ok(Next::Given(Scalar::truth(true)))
            } else {
                Ok(enters(right, Role::Right))
            }
        }
        Value::Conditional {
            then,
            otherwise,
            ..
        } => {
            if first.is_true() {
                Ok(enters(then, Role::Whole))
            } else {
                Ok(enters(otherwise, Role::Whole))
            }
        }
        Value::Assign { value, .. } => Ok(enters(value, Role::Second)),
        Value::AssignArithmetic { value, .. } => Ok(enters(value, Role::Second)),
        Value::AssignMoved { number, .. } => Ok(enters(number, Role::Second)),
        Value::StepInteger {
            stepping,
            place,
            int_type,
            ..
        } => given(step_integer(store, *stepping, *place, *int_type, first.place())),
        Value::StepPointer {
            stepping,
            place,
            ..
        } => given(step_pointer(store, *stepping, *place, first.place())),
        _ => Ok(Next::Given(first)),
    }
}

/// It comes to what was found.
fn given<'a>(found: Result<Scalar<'a>, Stop>) -> Result<Next<'a>, Stop>
    ensures { result ≡ scalar_next found.entry }
{
    match found {
        Ok(value) => Ok(Next::Given(value)),
        Err(stop) => Err(stop),
    }
}

/// It comes to a pointer to what was found.
fn pointed<'a>(found: Result<Place<'a>, Stop>) -> Result<Next<'a>, Stop>
    ensures { result ≡ place_next found.entry }
{
    match found {
        Ok(place) => Ok(Next::Given(Scalar::Pointer(place))),
        Err(stop) => Err(stop),
    }
}

fn enters(part: &Value, role: Role) -> Next<'_>
    ensures is { result ≡ X.Enter (N.Value part.entry) role }
    ensures means { (table : Interned) → next_in table result ≡ parts.Enters (value_in table part.now) (role_of role) }
    ensures stands { (table : Interned) → ValueFits table part.now → NextStands table result }
{
    Next::Enter {
        part: Node::Value(part),
        role,
    }
}

/// That of an expression for its object, or for its address.
fn after_object<'a>(
    store: &mut Store<'a>,
    object: &'a Object,
    first: Scalar<'a>,
) -> Result<Next<'a>, Stop>
    requires store { IsStore store.old }
    requires object { ObjectFits store.old.types.now object.now }
    requires first { ScalarStands store.old.types.now first }
    requires placed { IsMember object.now → PointsToElement store.old.types.now first }
    ensures gives { GivesNext store.old store.new (λ around.
        parts.object_next around (object_in store.old.types.now object.now) (value_seen store.old first.entry)) result }
    ensures stands { IfOk result (NextStands store.old.types.now) }
    ensures finds { IsBehindFirst (N.Object object.entry) → IfOk result (NextFinds store.old.types.now (N.Object object.entry)) }
    ensures types { store.new.types ≡ store.old.types }
    ensures locals { store.new.locals ≡ store.old.locals }
{
    match object {
        Object::Pointed { place, .. } => pointed(store.accessed(*place, first)),
        Object::Element { number, .. } => Ok(enters(number, Role::Second)),
        Object::ElementOf { pointer, .. } => Ok(enters(pointer, Role::Second)),
        Object::MemberOf { number, .. } => pointed(Ok(store.member_at(first.place(), *number))),
        Object::PointedMember { place, number, .. } => {
            let found = store.accessed(*place, first)?;
            pointed(Ok(store.member_at(found, *number)))
        }
        _ => Ok(Next::Given(first)),
    }
}

/// The operator of `++` or `--`.
fn operator(stepping: Stepping) -> BinOp
    ensures { result ≡ meaning.step_operator stepping }
{
    match stepping {
        Stepping::PreIncrement | Stepping::PostIncrement => BinOp::Add,
        Stepping::PreDecrement | Stepping::PostDecrement => BinOp::Sub,
    }
}

/// Whether it is `--`.
fn is_minus(stepping: Stepping) -> bool
    ensures { (if result then neg_ℤ (pos 1) else pos 1) ≡ meaning.step_amount stepping }
{
    match stepping {
        Stepping::PreIncrement | Stepping::PostIncrement => false,
        Stepping::PreDecrement | Stepping::PostDecrement => true,
    }
}

/// `++` or `--` on an integer (C17 6.5.2.4, 6.5.3.1).
fn step_integer<'a>(
    store: &mut Store<'a>,
    stepping: Stepping,
    here: Pos,
    int_type: IntType,
    place: Place<'a>,
) -> Result<Scalar<'a>, Stop>
    requires store { IsStore store.old }
    requires place { PlaceStands store.old.types.now place }
    ensures gives { GivesScalar store.old store.new (λ around. parts.step_integer around stepping here int_type (place_seen store.old place.entry)) result }
    ensures stands { IfOk result (ScalarStands store.old.types.now) }
    ensures types { store.new.types ≡ store.old.types }
    ensures locals { store.new.locals ≡ store.old.locals }
{
    let old = store.read(here, place)?;
    let working = common(int_type, IntType::Int);
    let one = Scalar::Integer(1);
    let left = converted(working, old);
    let sum = arithmetic(operator(stepping), working, here, left, one)?;
    let new = converted(int_type, sum);
    store.write(here, place, new)?;
    Ok(stepped(stepping, old, new))
}

/// `++` or `--` on a pointer.
fn step_pointer<'a>(
    store: &mut Store<'a>,
    stepping: Stepping,
    here: Pos,
    place: Place<'a>,
) -> Result<Scalar<'a>, Stop>
    requires store { IsStore store.old }
    requires place { PlaceStands store.old.types.now place }
    ensures gives { GivesScalar store.old store.new (λ around. parts.step_pointer around stepping here (place_seen store.old place.entry)) result }
    ensures stands { IfOk result (ScalarStands store.old.types.now) }
    ensures types { store.new.types ≡ store.old.types }
    ensures locals { store.new.locals ≡ store.old.locals }
{
    let old = store.read(here, place)?;
    let new = store.added(here, old, 1, is_minus(stepping))?;
    store.write(here, place, new)?;
    Ok(stepped(stepping, old, new))
}
