// What an expression comes to once both operands are known.

ghost use Rattle.std.specs.Prelude.{◌≡◌, ℕ, IfOk};
ghost use Rattle.c_typed.specs.Table.{Interned};
ghost use Rattle.c_typed.specs.Views.{value_in, object_in};
ghost use Rattle.ref_semantics.specs.Store.{TypeEnvironment};
ghost use Rattle.ref_semantics.specs.Meaning as meaning;
ghost use Rattle.ref_semantics.specs.Parts as parts;
ghost use Rattle.ref_meaning.specs.declared.store.Store.{Store};
ghost use Rattle.ref_meaning.specs.RefStore.Views.{scalar_in, ScalarStands};
ghost use Rattle.ref_meaning.specs.RefStore.Holding.{IsStore, CallGives};
ghost use Rattle.ref_meaning.specs.RefStore.Promises.{value_seen, GivesScalar};
ghost use Rattle.ref_meaning.specs.Promises.{part_stored};
ghost use Rattle.ref_meaning.specs.Holding.{NodeStands, IsBehindBoth, PointsToElement};
ghost use Rattle.ref_meaning.specs.declared.control.Node.TheVariants as N;
ghost use Rattle.ref_meaning.specs.Doing.{IsAssignment};

use crate::control::Node;
use crate::store::Store;
use crate::value::{Place, Scalar, Stop};
use c_num::{ArithUb, BinOp, IntType, binary, compare, convert};
use c_typed::{Object, Stepping, Value};
use run_theory::{Pos, UbKind};

/// An integer, converted (C17 6.3.1.3).
pub(crate) fn converted<'a>(int_type: IntType, value: Scalar<'a>) -> Scalar<'a>
    ensures means { (table : Interned) → scalar_in table result ≡ meaning.converted int_type (scalar_in table value.entry) }
    ensures stands { (table : Interned) → ScalarStands table result }
{
    Scalar::Integer(convert(value.integer(), int_type))
}

/// What an operator gives in the type in which it works.
pub(crate) fn arithmetic<'a>(
    op: BinOp,
    int_type: IntType,
    here: Pos,
    left: Scalar<'a>,
    right: Scalar<'a>,
) -> Result<Scalar<'a>, Stop>
    ensures gives { (around : TypeEnvironment) (store : Store) (base : ℕ)
        → CallGives around store store base (scalar_in store.types.now)
        (meaning.arithmetic op int_type here (scalar_in store.types.now left.entry) (scalar_in store.types.now right.entry)) result }
    ensures stands { (table : Interned) → IfOk result (ScalarStands table) }
{
    let right = match op {
        BinOp::Shl | BinOp::Shr => right.integer(),
        _ => convert(right.integer(), int_type),
    };
    match binary(op, int_type, convert(left.integer(), int_type), right) {
        Ok(value) => Ok(Scalar::Integer(value)),
        Err(kind) => Err(Stop::Undefined(kind_of(kind), here)),
    }
}

fn kind_of(kind: ArithUb) -> UbKind
    ensures { result ≡ meaning.kind_of kind }
{
    match kind {
        ArithUb::Overflow => UbKind::U01,
        ArithUb::DivideByZero => UbKind::U02,
        ArithUb::BadShift => UbKind::U03,
    }
}

/// What `++` or `--` comes to.
pub(crate) fn stepped<'a>(stepping: Stepping, old: Scalar<'a>, new: Scalar<'a>) -> Scalar<'a>
    ensures means { (table : Interned) → scalar_in table result ≡ meaning.step_result stepping (scalar_in table old.entry) (scalar_in table new.entry) }
    ensures stands { (table : Interned) → ScalarStands table old.entry → ScalarStands table new.entry → ScalarStands table result }
{
    match stepping {
        Stepping::PostIncrement | Stepping::PostDecrement => old,
        Stepping::PreIncrement | Stepping::PreDecrement => new,
    }
}

/// What an expression comes to once both operands are known.
pub(crate) fn after_second<'a>(
    store: &mut Store<'a>,
    node: Node<'a>,
    first: Scalar<'a>,
    second: Scalar<'a>,
) -> Result<Scalar<'a>, Stop>
    requires store { IsStore store.old }
    requires node { NodeStands store.old.types.now node }
    requires first { ScalarStands store.old.types.now first }
    requires second { ScalarStands store.old.types.now second }
    ensures gives { GivesScalar store.old store.new (λ around.
        parts.both_of around (part_stored store.old node.entry) (value_seen store.old first.entry) (value_seen store.old second.entry)) result }
    ensures stands { IfOk result (ScalarStands store.old.types.now) }
    ensures finds { IsBehindBoth node.entry → IfOk result (PointsToElement store.old.types.now) }
    ensures types { store.new.types ≡ store.old.types }
    ensures locals { store.new.locals ≡ store.old.locals }
{
    match node {
        Node::Value(value) => after_value(store, value, first, second),
        Node::Object(object) => after_object(store, object, first, second),
        Node::Address(object) => after_address(store, object, first, second),
        _ => Ok(second),
    }
}

fn after_value<'a>(
    store: &mut Store<'a>,
    value: &'a Value,
    first: Scalar<'a>,
    second: Scalar<'a>,
) -> Result<Scalar<'a>, Stop>
    requires store { IsStore store.old }
    requires first { ScalarStands store.old.types.now first }
    requires second { ScalarStands store.old.types.now second }
    ensures gives { GivesScalar store.old store.new (λ around.
        parts.value_of_both around (value_in store.old.types.now value.now) (value_seen store.old first.entry) (value_seen store.old second.entry)) result }
    ensures stands { IfOk result (ScalarStands store.old.types.now) }
    ensures types { store.new.types ≡ store.old.types }
    ensures locals { store.new.locals ≡ store.old.locals }
{
    match value {
        Value::Arithmetic {
            op,
            place,
            int_type,
            ..
        } => arithmetic(*op, *int_type, *place, first, second),
        Value::Compare { relation, .. } => {
            let holds = compare(*relation, first.integer(), second.integer());
            Ok(Scalar::truth(holds))
        }
        Value::ComparePointers {
            relation,
            place,
            ..
        } => store.compared(*place, *relation, first, second),
        Value::PointerPlus { place, .. } => store.added(*place, first, second.integer(), false),
        Value::NumberPlus { place, .. } => store.added(*place, second, first.integer(), false),
        Value::PointerMinus { place, .. } => store.added(*place, first, second.integer(), true),
        Value::PointerDifference { place, .. } => store.difference(*place, first, second),
        Value::Assign { .. } | Value::AssignArithmetic { .. } | Value::AssignMoved { .. } => {
            after_assigned(store, value, first, second)
        }
        _ => Ok(second),
    }
}

/// That of an assignment (C17 6.5.16).
fn after_assigned<'a>(
    store: &mut Store<'a>,
    value: &'a Value,
    first: Scalar<'a>,
    second: Scalar<'a>,
) -> Result<Scalar<'a>, Stop>
    requires store { IsStore store.old }
    requires first { ScalarStands store.old.types.now first }
    requires second { ScalarStands store.old.types.now second }
    ensures gives { (around : TypeEnvironment) (base : ℕ) → IsAssignment (value_in store.old.types.now value.now)
        → CallGives around store.old store.new base (scalar_in store.old.types.now)
        (parts.value_of_both around (value_in store.old.types.now value.now) (value_seen store.old first.entry) (value_seen store.old second.entry)) result }
    ensures stands { IfOk result (ScalarStands store.old.types.now) }
    ensures types { store.new.types ≡ store.old.types }
    ensures locals { store.new.locals ≡ store.old.locals }
{
    let object = first.place();
    match value {
        Value::Assign { place, .. } => {
            store.write(*place, object, second)?;
            Ok(second)
        }
        Value::AssignArithmetic {
            op,
            place,
            object_type,
            int_type,
            ..
        } => {
            let old = store.read(*place, object)?;
            let old = converted(*int_type, old);
            let new = arithmetic(*op, *int_type, *place, old, second)?;
            let new = converted(*object_type, new);
            store.write(*place, object, new)?;
            Ok(new)
        }
        Value::AssignMoved {
            is_minus,
            place,
            ..
        } => {
            let old = store.read(*place, object)?;
            let new = store.added(*place, old, second.integer(), *is_minus)?;
            store.write(*place, object, new)?;
            Ok(new)
        }
        _ => Ok(second),
    }
}

fn after_object<'a>(
    store: &Store<'a>,
    object: &'a Object,
    first: Scalar<'a>,
    second: Scalar<'a>,
) -> Result<Scalar<'a>, Stop>
    requires first { ScalarStands store.now.types.now first }
    requires second { ScalarStands store.now.types.now second }
    ensures gives { GivesScalar store.now store.now (λ around.
        parts.object_of_both (object_in store.now.types.now object.now) (value_seen store.now first.entry) (value_seen store.now second.entry)) result }
    ensures stands { IfOk result (ScalarStands store.now.types.now) }
    ensures finds { IsBehindBoth (N.Object object.entry) → IfOk result (PointsToElement store.now.types.now) }
{
    let found: Place<'a> = match object {
        Object::Element { place, .. } => store.element(*place, first, second.integer())?,
        Object::ElementOf { place, .. } => store.element(*place, second, first.integer())?,
        _ => return Ok(second),
    };
    Ok(Scalar::Pointer(found))
}

fn after_address<'a>(
    store: &Store<'a>,
    object: &'a Object,
    first: Scalar<'a>,
    second: Scalar<'a>,
) -> Result<Scalar<'a>, Stop>
    requires first { ScalarStands store.now.types.now first }
    requires second { ScalarStands store.now.types.now second }
    ensures gives { GivesScalar store.now store.now (λ around.
        parts.address_of_both (object_in store.now.types.now object.now) (value_seen store.now first.entry) (value_seen store.now second.entry)) result }
    ensures stands { IfOk result (ScalarStands store.now.types.now) }
{
    match object {
        Object::Element { place, .. } => store.added(*place, first, second.integer(), false),
        Object::ElementOf { place, .. } => store.added(*place, second, first.integer(), false),
        _ => Ok(second),
    }
}
