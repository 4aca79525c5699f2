// What is known of an expression.

ghost use Rattle.std.specs.Prelude.{◌≡◌};
ghost use Rattle.c_typed.specs.Table.{Interned};
ghost use Rattle.c_typed.specs.Views.{object_in};
ghost use Rattle.c_rules.specs.Known.{read_place};

use c_rules::Constness;
use c_typed::{ByteString, CType, Designator, LibraryFunction, Object, Part, Static, Value};
use run_theory::Pos;

/// A typed tree: that of a value, an object or a function, or a library function's name in so many parentheses.
#[derive(Drop)]
pub enum TypedExpr {
    Value(Box<Value>),
    Object(Box<Object>),
    Function(Box<Designator>),
    Library {
        function: LibraryFunction,
        groups: usize,
    },
}

/// An address that is known before the program runs (C17 6.6 paragraph 9).
#[derive(Drop)]
pub enum Address {
    /// None is known.
    Unknown,
    /// It lies outside its object and its end.
    Outside,
    Null,
    Function(ByteString),
    /// That of the element with an index in a row of so many elements of one type, to which parts lead from the root. An
    /// object alone is a row of one.
    Element {
        root: Static,
        parts: Vec<Part>,
        c_type: CType,
        count: u64,
        index: u64,
    },
}

/// What is known of an expression that has a type. An object's address is that of it, a pointer's its value.
#[derive(Drop)]
pub struct Known {
    pub c_type: CType,
    pub typed: TypedExpr,
    pub constness: Constness,
    /// Whether it is a null pointer constant (C17 6.3.2.3 paragraph 3).
    pub is_null: bool,
    pub address: Address,
}

/// A condition, or an operand of `!`, `&&` or `||`.
#[derive(Drop)]
pub struct Condition {
    pub test: Box<Value>,
    pub constness: Constness,
}

/// Where the value of an object that begins at the place is read: in parentheses at the place of what stands in them.
pub fn read_place(place: Pos, object: &Object) -> Pos
    ensures { (table : Interned) → result ≡ read_place place (object_in table object.now) }
{
    match object {
        Object::Grouped { place, .. } => *place,
        _ => place,
    }
}
