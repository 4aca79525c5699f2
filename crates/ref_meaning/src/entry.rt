// What evaluation of an expression begins with.

ghost use Rattle.std.specs.Prelude.{◌≡◌, true, false};
ghost use Rattle.c_typed.specs.Table.{Interned};
ghost use Rattle.c_typed.specs.Views.{value_in, object_in, designator_in};
ghost use Rattle.ref_meaning.specs.Trees.{ValueFits, ObjectFits, DesignatorFits};
ghost use Rattle.ref_semantics.specs.Parts as parts;
ghost use Rattle.ref_meaning.specs.declared.control.Node as memory_node;
ghost use Rattle.ref_meaning.specs.declared.control.Node.TheVariants as N;
ghost use Rattle.ref_meaning.specs.declared.entry.Entry.TheVariants as E;
ghost use Rattle.ref_meaning.specs.Views.{part_in, entry_in};
ghost use Rattle.ref_meaning.specs.Holding.{NodeStands, Waits, IsObject, IsPlaced};
ghost use Rattle.ref_meaning.specs.Doing.{EntryStands, EntryFinds, EntersObject, IsAwaited};

use crate::control::Node;
use crate::value::{Name, Place, Row, Scalar};
use c_typed::{Designator, Object, Value};

/// What evaluation of an expression begins with.
#[derive(Clone, Copy)]
pub(crate) enum Entry<'a> {
    /// It is this value.
    Give(Scalar<'a>),
    /// It is a local, by its number.
    Local(usize),
    /// It is this object.
    Named(Name<'a>),
    /// It enters another, and waits for it as its first operand or the function of a call, or else comes to what that comes
    /// to.
    Enter { part: Node<'a>, waits: bool },
    /// It is a call of a library function, whose name stands in so many parentheses.
    Library(usize),
}

/// Whether a unit is spent as a part of the program is entered: nodes that stand for none of the text take none.
pub(crate) fn spends(node: Node<'_>) -> bool
    ensures { (table : Interned) → result ≡ parts.spends (part_in table node.entry) }
{
    match node {
        Node::Value(value) => match value {
            Value::Read { .. }
            | Value::Decay { .. }
            | Value::FunctionValue(_)
            | Value::Converted { .. }
            | Value::Repointed { .. }
            | Value::MadeNull { .. }
            | Value::Tested { .. } => false,
            _ => true,
        },
        Node::Designator(designator) => match designator {
            Designator::ThroughPointer { .. } => false,
            _ => true,
        },
        _ => true,
    }
}

/// What evaluation of an expression begins with.
pub(crate) fn beginning(node: Node<'_>) -> Entry<'_>
    requires { Waits node }
    ensures means { (table : Interned) → NodeStands table node.entry → entry_in table result ≡ parts.entry_of (part_in table node.entry) }
    ensures stands { (table : Interned) → NodeStands table node.entry → EntryStands table node.entry result }
    ensures finds { (table : Interned) → NodeStands table node.entry → IsObject node.entry → EntryFinds table node.entry result }
    ensures placed { IsPlaced node.entry → EntersObject result }
{
    match node {
        Node::Value(value) => value_entry(value),
        Node::Object(object) => object_entry(object),
        Node::Address(object) => address_entry(object),
        Node::Designator(designator) => designator_entry(designator),
        _ => Entry::Give(Scalar::Null),
    }
}

fn into(part: Node<'_>) -> Entry<'_>
    ensures { result ≡ E.Enter part.entry false }
{
    Entry::Enter { part, waits: false }
}

fn waits(part: Node<'_>) -> Entry<'_>
    ensures { result ≡ E.Enter part.entry true }
{
    Entry::Enter { part, waits: true }
}

fn value_entry(value: &Value) -> Entry<'_>
    ensures means { (table : Interned) → entry_in table result ≡ parts.value_entry (value_in table value.now) }
    ensures stands { (table : Interned) → ValueFits table value.now → EntryStands table (N.Value value.entry) result }
    ensures placed { IsPlaced (N.Value value.entry) → EntersObject result }
{
    match value {
        Value::Constant { value, .. } => Entry::Give(Scalar::Integer(*value)),
        Value::NullPointer => Entry::Give(Scalar::Null),
        Value::Grouped(inner) => into(Node::Value(&**inner)),
        Value::Plus(operand) => into(Node::Value(&**operand)),
        Value::Cast(operand) => into(Node::Value(&**operand)),
        Value::CastVoid(operand) => into(Node::Value(&**operand)),
        Value::FunctionValue(function) => into(Node::Designator(&**function)),
        Value::AddressOfFunction(function) => into(Node::Designator(&**function)),
        Value::AddressOf { object, .. } => into(Node::Address(&**object)),
        Value::LibraryCall { groups, .. } => Entry::Library(*groups),
        _ => operand_entry(value),
    }
}

/// That of an operator whose operands are evaluated before it works.
fn operand_entry(value: &Value) -> Entry<'_>
    ensures means { (table : Interned) → IsAwaited (parts.value_entry (value_in table value.now))
        → entry_in table result ≡ parts.value_entry (value_in table value.now) }
    ensures stands { (table : Interned) (node : memory_node.Node) → ValueFits table value.now → EntryStands table node result }
    ensures placed { IsPlaced (N.Value value.entry) → EntersObject result }
{
    waits(match value {
        Value::Read { object, .. } => Node::Object(&**object),
        Value::Decay { object, .. } => Node::Object(&**object),
        Value::Assign { object, .. } => Node::Object(&**object),
        Value::AssignArithmetic { object, .. } => Node::Object(&**object),
        Value::AssignMoved { object, .. } => Node::Object(&**object),
        Value::StepInteger { object, .. } => Node::Object(&**object),
        Value::StepPointer { object, .. } => Node::Object(&**object),
        Value::Converted { value, .. } => Node::Value(&**value),
        Value::Repointed { value, .. } => Node::Value(&**value),
        Value::MadeNull { value, .. } => Node::Value(&**value),
        Value::Tested { value, .. } => Node::Value(&**value),
        Value::Minus { operand, .. } => Node::Value(&**operand),
        Value::Complement { operand, .. } => Node::Value(&**operand),
        Value::Not(operand) => Node::Value(&**operand),
        Value::Arithmetic { left, .. } => Node::Value(&**left),
        Value::Compare { left, .. } => Node::Value(&**left),
        Value::ComparePointers { left, .. } => Node::Value(&**left),
        Value::PointerPlus { pointer, .. } => Node::Value(&**pointer),
        Value::NumberPlus { number, .. } => Node::Value(&**number),
        Value::PointerMinus { pointer, .. } => Node::Value(&**pointer),
        Value::PointerDifference { left, .. } => Node::Value(&**left),
        Value::And { left, .. } => Node::Value(&**left),
        Value::Or { left, .. } => Node::Value(&**left),
        Value::Conditional { condition, .. } => Node::Value(&**condition),
        Value::Call { function, .. } => Node::Designator(&**function),
        _ => return Entry::Give(Scalar::Null),
    })
}

fn object_entry(object: &Object) -> Entry<'_>
    ensures means { (table : Interned) → ObjectFits table object.now → entry_in table result ≡ parts.object_entry (object_in table object.now) }
    ensures stands { (table : Interned) (node : memory_node.Node) → ObjectFits table object.now → EntryStands table node result }
    ensures finds { (table : Interned) → ObjectFits table object.now → EntryFinds table (N.Object object.entry) result }
    ensures placed { IsPlaced (N.Object object.entry) → EntersObject result }
{
    match object {
        Object::Local(number) => Entry::Local(*number),
        Object::Global(name) => Entry::Named(Name::Outer(name.as_slice())),
        Object::Literal { place, c_type, .. } => {
            let row = Row {
                start: 0,
                c_type: *c_type,
                count: 1,
            };
            Entry::Give(Scalar::Pointer(Place::first(Name::Text(*place), row)))
        }
        Object::Grouped { inner, .. } => into(Node::Object(&**inner)),
        Object::Pointed { pointer, .. } => waits(Node::Value(&**pointer)),
        Object::Element { pointer, .. } => waits(Node::Value(&**pointer)),
        Object::ElementOf { number, .. } => waits(Node::Value(&**number)),
        Object::MemberOf { object, .. } => waits(Node::Object(&**object)),
        Object::PointedMember { pointer, .. } => waits(Node::Value(&**pointer)),
    }
}

fn address_entry(object: &Object) -> Entry<'_>
    ensures means { (table : Interned) → ObjectFits table object.now → entry_in table result ≡ parts.address_entry (object_in table object.now) }
    ensures stands { (table : Interned) (node : memory_node.Node) → ObjectFits table object.now → EntryStands table node result }
    ensures placed { IsPlaced (N.Address object.entry) → EntersObject result }
{
    match object {
        Object::Pointed { pointer, .. } => into(Node::Value(&**pointer)),
        Object::Grouped { inner, .. } => into(Node::Address(&**inner)),
        _ => object_entry(object),
    }
}

fn designator_entry(designator: &Designator) -> Entry<'_>
    ensures means { (table : Interned) → entry_in table result ≡ parts.designator_entry (designator_in table designator.now) }
    ensures stands { (table : Interned) (node : memory_node.Node) → DesignatorFits table designator.now → EntryStands table node result }
{
    match designator {
        Designator::Named(name) => Entry::Give(Scalar::Function(name.as_slice())),
        Designator::Grouped(inner) => into(Node::Designator(&**inner)),
        Designator::Pointed { pointer, .. } => into(Node::Value(&**pointer)),
        Designator::ThroughPointer { pointer, .. } => into(Node::Value(&**pointer)),
    }
}
