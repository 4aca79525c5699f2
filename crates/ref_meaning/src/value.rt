// Values and places.

ghost use Rattle.std.specs.Prelude.{◌≡◌};
ghost use Rattle.c_typed.specs.Table.{Interned};
ghost use Rattle.ref_semantics.specs.Values as meaning;
ghost use Rattle.ref_semantics.specs.Meaning as meaning_rules;
ghost use Rattle.ref_semantics.specs.Pointers as pointers;
ghost use Rattle.ref_semantics.specs.Store as meaning_store;
ghost use Rattle.ref_meaning.specs.RefStore.Views.{place_in, scalar_in, ScalarStands, PlaceStands};

use c_typed::CType;
use run_theory::{Pos, UbKind};
use std::alloc::{AllocError, AllocFailed};

/// An object (C17 6.2.4).
#[derive(Clone, Copy, Debug, PartialEq, Eq, Hash)]
pub enum Name<'a> {
    /// That of an allocation.
    Heap(u64),
    /// A variable outside functions.
    Outer(&'a [u8]),
    /// A literal, by its place.
    Text(Pos),
    /// A local.
    Own(u64),
}

/// Elements of one type, side by side.
#[derive(Clone, Copy, Debug, PartialEq, Eq)]
pub struct Row {
    /// How many bytes they lie behind the beginning of their object.
    pub start: u64,
    pub c_type: CType,
    pub count: u64,
}

impl Row {
    /// No elements.
    pub const NOTHING: Row = Row {
        start: 0,
        c_type: CType::VOID,
        count: 0,
    };
}

/// An element of a row of an object, or the row's end.
#[derive(Clone, Copy, Debug, PartialEq, Eq)]
pub struct Place<'a> {
    pub name: Name<'a>,
    pub row: Row,
    pub index: u64,
}

impl<'a> Place<'a> {
    /// The first element of a row.
    pub fn first(name: Name<'a>, row: Row) -> Place<'a>
        ensures { result ≡ record { name = name.entry; row = row; index = 0 } }
    {
        Place {
            name,
            row,
            index: 0,
        }
    }

    /// Whether it is the row's end.
    pub fn is_end(self) -> bool
        ensures { (table : Interned) → result ≡ meaning.is_end (place_in table self.entry) }
    {
        self.index >= self.row.count
    }
}

/// A value of scalar type (C17 6.2.5 paragraph 21).
#[derive(Clone, Copy, Debug, PartialEq, Eq)]
pub enum Scalar<'a> {
    Integer(i128),
    Null,
    Function(&'a [u8]),
    Pointer(Place<'a>),
    /// A pointer to an allocation that has no type yet.
    Raw(u64),
}

impl<'a> Scalar<'a> {
    /// What it points to, where it is a pointer to an object.
    pub fn place(self) -> Place<'a>
        ensures means { (table : Interned) → place_in table result ≡ meaning.place_of (scalar_in table self.entry) }
        ensures stands { (table : Interned) → ScalarStands table self.entry → PlaceStands table result }
    {
        match self {
            Scalar::Pointer(place) => place,
            Scalar::Raw(number) => Place::first(Name::Heap(number), Row::NOTHING),
            _ => Place::first(Name::Heap(0), Row::NOTHING),
        }
    }

    /// The integer that it is.
    pub fn integer(self) -> i128
        ensures { (table : Interned) → result ≡ meaning.integer_of (scalar_in table self.entry) }
    {
        match self {
            Scalar::Integer(value) => value,
            _ => 0,
        }
    }

    /// 1 or 0 (C17 6.5.8 paragraph 6).
    pub fn truth(holds: bool) -> Scalar<'a>
        ensures means { (table : Interned) → scalar_in table result ≡ pointers.truth holds }
        ensures stands { (table : Interned) → ScalarStands table result }
    {
        Scalar::Integer(if holds { 1 } else { 0 })
    }

    /// Whether it is an integer other than zero.
    pub fn is_true(self) -> bool
        ensures { (table : Interned) → result ≡ meaning_rules.is_true (scalar_in table self.entry) }
    {
        match self {
            Scalar::Integer(value) => value != 0,
            _ => false,
        }
    }

    pub fn is_null(self) -> bool
        ensures { (table : Interned) → result ≡ meaning_store.is_null_pointer (scalar_in table self.entry) }
    {
        match self {
            Scalar::Null => true,
            _ => false,
        }
    }

    /// Whether it points to an object.
    pub fn is_into_object(self) -> bool
        ensures { (table : Interned) → result ≡ pointers.is_into_object (scalar_in table self.entry) }
    {
        match self {
            Scalar::Pointer(_) => true,
            Scalar::Raw(_) => true,
            _ => false,
        }
    }
}

/// Why an operation gives nothing.
#[derive(Clone, Copy, Debug, PartialEq, Eq)]
pub enum Stop {
    Undefined(UbKind, Pos),
    OutOfMemory,
}

impl From<AllocError> for Stop {
    ghost use Rattle.ref_meaning.specs.declared.value.Stop.TheVariants as S;

    ghost from_gives = { λ _ e. e ≡ S.OutOfMemory };

    fn from(_: AllocError) -> Stop {
        Stop::OutOfMemory
    }
}

impl<T: Drop> From<AllocFailed<T>> for Stop {
    ghost use Rattle.ref_meaning.specs.declared.value.Stop.TheVariants as S;

    ghost from_gives = { λ _ e. e ≡ S.OutOfMemory };

    fn from(_: AllocFailed<T>) -> Stop {
        Stop::OutOfMemory
    }
}
