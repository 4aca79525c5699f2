// Where locals live, and which integer expressions have no point of their own.

ghost use Rattle.std.specs.Prelude.{◌≡◌};
ghost use Rattle.c_typed.specs.Table.{Interned, Stands, type_in};
ghost use Rattle.c_typed.specs.Views.{value_in, object_in};
ghost use Rattle.tac_build.specs.Homes as H;
ghost use Rattle.tac_build.specs.Building.{scope_in, optional_home, HomesStand, HomeStands};

use c_typed::{CType, Object, Shape, TypeTable, Value};
use tac_ir::Local;

/// A local in scope: which one it is, whether it is an object in memory, and its type.
#[derive(Clone, Copy, Debug, PartialEq, Eq)]
pub struct Home {
    pub local: Local,
    pub is_object: bool,
    pub c_type: CType,
}

/// The local with a number, by how many others are in scope at its declaration.
pub fn home_of(scope: &[Home], number: usize) -> Option<Home>
    ensures home { (table : Interned) → optional_home table result ≡ H.home_of (scope_in table scope.now) number }
    ensures stands { (table : Interned) → HomesStand table scope.now → HomeStands table result }
{
    scope.get(number).copied()
}

/// The local, where it lives in a register.
fn in_register(home: Option<Home>) -> Option<Home>
    ensures home { (table : Interned) → optional_home table result ≡ H.in_register (optional_home table home) }
    ensures stands { (table : Interned) → HomeStands table home → HomeStands table result }
{
    match home {
        Some(home) => { if home.is_object { None } else { Some(home) } }
        None => None,
    }
}

/// The local in a register that an expression names; `*&x` is x (C17 6.5.3.2 paragraph 4).
#[cycle(homes)]
pub fn register_home(scope: &[Home], object: &Object) -> Option<Home>
    ensures home { (table : Interned) → optional_home table result ≡ H.register_home (scope_in table scope.now) (object_in table object.now) }
    ensures stands { (table : Interned) → HomesStand table scope.now → HomeStands table result }
{
    match object {
        Object::Local(number) => in_register(home_of(scope, *number)),
        Object::Grouped { inner, .. } => register_home(scope, inner),
        Object::Pointed { pointer, .. } => home_behind(scope, pointer),
        _ => None,
    }
}

/// The local in a register to which a value points.
#[cycle(homes)]
fn home_behind(scope: &[Home], value: &Value) -> Option<Home>
    ensures home { (table : Interned) → optional_home table result ≡ H.home_behind (scope_in table scope.now) (value_in table value.now) }
    ensures stands { (table : Interned) → HomesStand table scope.now → HomeStands table result }
{
    match value {
        Value::Grouped(inner) => home_behind(scope, inner),
        Value::AddressOf { object, .. } => register_home(scope, object),
        _ => None,
    }
}

/// Whether it is an integer in a register.
fn holds_integer(types: &TypeTable, home: Option<Home>) -> bool
    requires { HomeStands types.now home }
    ensures { result ≡ H.holds_integer (optional_home types.now home) }
{
    match home {
        Some(home) => match types.shape(home.c_type) {
            Shape::Integer(_) => true,
            _ => false,
        },
        None => false,
    }
}

/// Whether it is an integer expression over constants and locals in registers: no call, load, assignment or branch stands in it.
pub fn is_pure(types: &TypeTable, scope: &[Home], value: &Value) -> bool
    requires { HomesStand types.now scope.now }
    ensures { result ≡ H.is_pure (scope_in types.now scope.now) (value_in types.now value.now) }
{
    match value {
        Value::Constant { .. } => true,
        Value::Grouped(inner) => is_pure(types, scope, inner),
        Value::Read { object, .. } => holds_integer(types, register_home(scope, object)),
        Value::Converted { value, .. } => is_pure(types, scope, value),
        Value::Plus(operand) => is_pure(types, scope, operand),
        Value::Minus { operand, .. } => is_pure(types, scope, operand),
        Value::Complement { operand, .. } => is_pure(types, scope, operand),
        Value::Not(operand) => is_pure(types, scope, operand),
        Value::Arithmetic { left, right, .. } => {
            is_pure(types, scope, left) && is_pure(types, scope, right)
        }
        Value::Compare { left, right, .. } => {
            is_pure(types, scope, left) && is_pure(types, scope, right)
        }
        Value::Cast(value) => is_pure(types, scope, value),
        _ => false,
    }
}

/// Whether a local lies in memory (C17 6.2.5 paragraphs 20, 21).
pub fn lies_in_memory(types: &TypeTable, c_type: CType, is_taken: bool) -> bool
    requires { Stands types.now c_type }
    ensures { result ≡ H.lies_in_memory (type_in types.now c_type) is_taken }
{
    match types.shape(c_type) {
        Shape::Array { .. } => true,
        Shape::Struct(_) => true,
        _ => is_taken,
    }
}
