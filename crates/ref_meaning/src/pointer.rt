// What operators do with pointers (C17 6.3.2.3, 6.5.2, 6.5.3, 6.5.6, 6.5.8, 6.5.9).

ghost use Rattle.std.specs.Prelude.{◌≡◌, ℕ, ◌/◌, ◌%◌, false, ◌==◌, if◌then◌else◌, neg_ℤ, Some, None, IfOk, IfErr};
ghost use Rattle.c_num.specs.declared.IntType.TheVariants as int_types;
ghost use Rattle.c_num.specs.Types.{is_value};
ghost use Rattle.c_typed.specs.Table.{Interned, Stands};
ghost use Rattle.c_typed.specs.Types.{is_like_void};
ghost use Rattle.ref_semantics.specs.Values as values;
ghost use Rattle.ref_semantics.specs.Values.{Heap};
ghost use Rattle.ref_semantics.specs.Pointers as meaning;
ghost use Rattle.ref_semantics.specs.Store.{is_dead_pointer, with_objects};
ghost use Rattle.ref_meaning.specs.RefStore.Promises.{ForTypes, GivesPlace, GivesScalar, InEach, type_seen, value_seen};
ghost use Rattle.ref_meaning.specs.Fitting.{IsObjectType};
ghost use Rattle.ref_meaning.specs.RefStore.Views.{row_in, scalar_in, IsElement, PlaceStands, ScalarStands};
ghost use Rattle.ref_meaning.specs.RefStore.Holding.{IsStore, IsMoved};
ghost use Rattle.ref_meaning.specs.Wanting.{GetsType, PointsUntyped, OutOnly};

use crate::object::{Content, Elements};
use crate::store::Store;
use crate::value::{Name, Place, Row, Scalar, Stop};
use c_num::{IntType, Relation, compare};
use c_typed::{CType, Shape};
use run_theory::{Pos, UbKind};

/// The index of an element so many elements further or back. What does not fit is past every row.
fn moved(index: u64, number: i128, is_minus: bool) -> i128
    ensures { IsMoved index (if is_minus then neg_ℤ number else number) result }
{
    let index = i128::from(index);
    let moved = if is_minus {
        index.checked_sub(number)
    } else {
        index.checked_add(number)
    };
    match moved {
        Some(moved) => moved,
        None => i128::MAX,
    }
}

/// Whether it points to the end of a row.
fn is_past(value: Scalar<'_>) -> bool
    ensures { (table : Interned) → result ≡ meaning.is_past (scalar_in table value.entry) }
{
    match value {
        Scalar::Pointer(place) => place.is_end(),
        _ => false,
    }
}

/// Whether two pointers point into one object.
fn is_one_object(a: Scalar<'_>, b: Scalar<'_>) -> bool
    ensures { (table : Interned) → result ≡ meaning.same_object (scalar_in table a.entry) (scalar_in table b.entry) }
{
    a.place().name == b.place().name
}

/// Whether one is an end where the other points into another object.
fn is_end_beside(a: Scalar<'_>, b: Scalar<'_>) -> bool
    ensures { (table : Interned) → result ≡ meaning.is_end_beside (scalar_in table a.entry) (scalar_in table b.entry) }
{
    a.is_into_object()
        && b.is_into_object()
        && a.place().name != b.place().name
        && (is_past(a) || is_past(b))
}

/// Whether both are null, or the same function's.
fn same_function(a: Scalar<'_>, b: Scalar<'_>) -> bool
    ensures { (table : Interned) → result ≡ meaning.same_function (scalar_in table a.entry) (scalar_in table b.entry) }
{
    match (a, b) {
        (Scalar::Function(a), Scalar::Function(b)) => a == b,
        (Scalar::Null, Scalar::Null) => true,
        _ => false,
    }
}

/// Whether a relation is `==` or `!=`.
fn is_equality(relation: Relation) -> bool
    ensures { result ≡ meaning.is_equality relation }
{
    match relation {
        Relation::Eq => true,
        Relation::Ne => true,
        _ => false,
    }
}

/// Whether an integer is a value of `long`.
fn is_long(value: i128) -> bool
    ensures { result ≡ is_value int_types.Long value }
{
    IntType::Long.contains(value)
}

/// How many parts of a size so many bytes are, where nothing is left. There are no parts of size 0: all bytes are left.
fn parts(bytes: u64, own: u64) -> Option<u64>
    ensures { result ≡ (if bytes % own == 0 then Some (bytes / own) else None) }
{
    if own == 0 {
        return if bytes == 0 { Some(0) } else { None };
    }
    if bytes % own == 0 {
        Some(bytes / own)
    } else {
        None
    }
}

impl<'a> Store<'a> {
    /// Whether a pointer points to a dead object.
    fn is_dead_pointer(&self, value: Scalar<'a>) -> bool
        ensures { InEach self.now (λ around state. result ≡ is_dead_pointer state.objects (value_seen self.now value.entry)) }
    {
        match value {
            Scalar::Pointer(place) => self.is_dead(place.name),
            Scalar::Raw(number) => self.is_dead(Name::Heap(number)),
            _ => false,
        }
    }

    /// The element that a pointer points to, for an access (C17 6.5.3.2 paragraph 4).
    pub fn accessed(&self, here: Pos, pointer: Scalar<'a>) -> Result<Place<'a>, Stop>
        ensures gives { GivesPlace self.now self.now (λ around. meaning.accessed here (value_seen self.now pointer.entry)) result }
        ensures stands { ScalarStands self.now.types.now pointer.entry → IfOk result (PlaceStands self.now.types.now) }
        ensures element { ScalarStands self.now.types.now pointer.entry → IfOk result (IsElement self.now.types.now) }
        ensures want { IfErr result (OutOnly ⊥) }
    {
        if self.is_dead_pointer(pointer) {
            return Err(Stop::Undefined(UbKind::U06, here));
        }
        if pointer.is_null() {
            return Err(Stop::Undefined(UbKind::U05, here));
        }
        let place = pointer.place();
        if place.is_end() {
            return Err(Stop::Undefined(UbKind::U07, here));
        }
        Ok(place)
    }

    /// A pointer and a number behind it, or less it (C17 6.5.6 paragraph 8).
    pub fn added(
        &self,
        here: Pos,
        pointer: Scalar<'a>,
        number: i128,
        is_minus: bool,
    ) -> Result<Scalar<'a>, Stop>
        ensures gives { GivesScalar self.now self.now (λ around.
            meaning.added here (value_seen self.now pointer.entry) (if is_minus then neg_ℤ number else number)) result }
        ensures stands { ScalarStands self.now.types.now pointer.entry → IfOk result (ScalarStands self.now.types.now) }
        ensures want { IfErr result (OutOnly ⊥) }
    {
        if self.is_dead_pointer(pointer) {
            return Err(Stop::Undefined(UbKind::U06, here));
        }
        if pointer.is_null() {
            return Err(Stop::Undefined(UbKind::U17, here));
        }
        let place = pointer.place();
        let index = moved(place.index, number, is_minus);
        if index < 0 || index > i128::from(place.row.count) {
            return Err(Stop::Undefined(UbKind::U08, here));
        }
        Ok(Scalar::Pointer(Place {
            index: index as u64,
            ..place
        }))
    }

    /// An element as an object (C17 6.5.2.1).
    pub fn element(&self, here: Pos, pointer: Scalar<'a>, number: i128) -> Result<Place<'a>, Stop>
        ensures gives { GivesPlace self.now self.now (λ around. meaning.element here (value_seen self.now pointer.entry) number) result }
        ensures stands { ScalarStands self.now.types.now pointer.entry → IfOk result (PlaceStands self.now.types.now) }
        ensures element { ScalarStands self.now.types.now pointer.entry → IfOk result (IsElement self.now.types.now) }
        ensures want { IfErr result (OutOnly ⊥) }
    {
        if self.is_dead_pointer(pointer) {
            return Err(Stop::Undefined(UbKind::U06, here));
        }
        if pointer.is_null() {
            return Err(Stop::Undefined(UbKind::U05, here));
        }
        let place = pointer.place();
        let index = moved(place.index, number, false);
        if index >= i128::from(place.row.count) {
            return Err(Stop::Undefined(UbKind::U07, here));
        }
        if index < 0 {
            return Err(Stop::Undefined(UbKind::U08, here));
        }
        Ok(Place {
            index: index as u64,
            ..place
        })
    }

    /// Whether pointers to a type point to objects without a type.
    fn is_like_void(&self, c_type: CType) -> bool
        requires { Stands self.now.types.now c_type }
        ensures { InEach self.now (λ around state. result ≡ is_like_void around.completed (type_seen self.now c_type)) }
    {
        match self.types.shape(c_type) {
            Shape::Void => true,
            Shape::Struct(id) => self.completed.get(self.types.tag(id)).is_none(),
            _ => false,
        }
    }

    /// An allocation gets a type, if it has none.
    fn of_allocation(&mut self, here: Pos, target: CType, number: u64) -> Result<Scalar<'a>, Stop>
        requires store { IsStore self.old }
        requires target { IsObjectType self.old.types.now target }
        ensures gives { GivesScalar self.old self.new (λ around.
            with_objects (λ objects. meaning.of_allocation around here (type_seen self.old target) number (objects (Heap number)))) result }
        ensures stands { IfOk result (ScalarStands self.old.types.now) }
        ensures types { self.new.types ≡ self.old.types }
        ensures locals { self.new.locals ≡ self.old.locals }
        ensures want { InEach self.old (λ around state. IfErr result (OutOnly (GetsType around (type_seen self.old target) (state.objects (Heap number))))) }
    {
        let name = Name::Heap(number);
        let row = match self.objects.get(&name) {
            None => return Err(Stop::Undefined(UbKind::U06, here)),
            Some(Content::Elements(elements)) => {
                let row = elements.row();
                if !self.types.same(row.c_type, target) {
                    return Err(Stop::Undefined(UbKind::U12, here));
                }
                let row = Row {
                    c_type: target,
                    ..row
                };
                return Ok(Scalar::Pointer(Place::first(name, row)));
            }
            Some(Content::Raw(size)) => {
                let Some(count) = parts(*size, self.types.size_of(target)) else {
                    return Err(Stop::Undefined(UbKind::U13, here));
                };
                Row {
                    start: 0,
                    c_type: target,
                    count,
                }
            }
        };
        let elements = Elements::new(self.alloc, false, target, row.count);
        self.objects.insert(name, Content::Elements(elements))?;
        Ok(Scalar::Pointer(Place::first(name, row)))
    }

    /// A pointer, converted to one to a type (C17 6.3.2.3, and this project's rules).
    pub fn repointed(
        &mut self,
        here: Pos,
        target: CType,
        value: Scalar<'a>,
    ) -> Result<Scalar<'a>, Stop>
        requires store { IsStore self.old }
        requires target { IsObjectType self.old.types.now target }
        requires value { ScalarStands self.old.types.now value }
        ensures gives { GivesScalar self.old self.new (λ around.
            meaning.repointed around here (type_seen self.old target) (value_seen self.old value.entry)) result }
        ensures stands { IfOk result (ScalarStands self.old.types.now) }
        ensures types { self.new.types ≡ self.old.types }
        ensures locals { self.new.locals ≡ self.old.locals }
        ensures want { InEach self.old (λ around state. IfErr result (OutOnly ((is_like_void around.completed (type_seen self.old target) ≡ false)
            × PointsUntyped around (type_seen self.old target) state.objects (value_seen self.old value.entry)))) }
    {
        if self.is_dead_pointer(value) {
            return Err(Stop::Undefined(UbKind::U06, here));
        }
        if self.is_like_void(target) {
            return Ok(value);
        }
        match value {
            Scalar::Raw(number) => self.of_allocation(here, target, number),
            Scalar::Pointer(place) => {
                if !self.types.same(place.row.c_type, target) {
                    return Err(Stop::Undefined(UbKind::U12, here));
                }
                Ok(value)
            }
            _ => Ok(value),
        }
    }

    /// Whether a pointer isn't null.
    pub fn tested(&self, here: Pos, value: Scalar<'a>) -> Result<Scalar<'a>, Stop>
        ensures gives { GivesScalar self.now self.now (λ around. meaning.tested here (value_seen self.now value.entry)) result }
        ensures stands { IfOk result (ScalarStands self.now.types.now) }
        ensures want { IfErr result (OutOnly ⊥) }
    {
        if self.is_dead_pointer(value) {
            return Err(Stop::Undefined(UbKind::U06, here));
        }
        Ok(Scalar::truth(!value.is_null()))
    }

    /// Whether two pointers are equal (C17 6.5.9 paragraph 6).
    fn are_equal(&self, a: Scalar<'a>, b: Scalar<'a>) -> bool
        requires a { ScalarStands self.now.types.now a }
        requires b { ScalarStands self.now.types.now b }
        ensures { ForTypes self.now.types.now (λ around. result ≡ meaning.are_equal around (value_seen self.now a.entry) (value_seen self.now b.entry)) }
    {
        if !(a.is_into_object() && b.is_into_object()) {
            return same_function(a, b);
        }
        if !is_one_object(a, b) {
            return false;
        }
        self.offset(a.place()) == self.offset(b.place())
    }

    /// A comparison of pointers (C17 6.5.8 paragraph 5, 6.5.9 paragraph 6).
    pub fn compared(
        &self,
        here: Pos,
        relation: Relation,
        a: Scalar<'a>,
        b: Scalar<'a>,
    ) -> Result<Scalar<'a>, Stop>
        requires a { ScalarStands self.now.types.now a }
        requires b { ScalarStands self.now.types.now b }
        ensures gives { GivesScalar self.now self.now (λ around.
            meaning.compared_pointers around relation here (value_seen self.now a.entry) (value_seen self.now b.entry)) result }
        ensures stands { IfOk result (ScalarStands self.now.types.now) }
        ensures want { IfErr result (OutOnly ⊥) }
    {
        if self.is_dead_pointer(a) || self.is_dead_pointer(b) {
            return Err(Stop::Undefined(UbKind::U06, here));
        }
        if is_equality(relation) {
            if is_end_beside(a, b) {
                return Err(Stop::Undefined(UbKind::U09, here));
            }
            let same = self.are_equal(a, b);
            return Ok(Scalar::truth(if relation == Relation::Ne {
                !same
            } else {
                same
            }));
        }
        if !self.are_in_one_row(a, b) {
            return Err(Stop::Undefined(UbKind::U09, here));
        }
        let (a, b) = (i128::from(a.place().index), i128::from(b.place().index));
        Ok(Scalar::truth(compare(relation, a, b)))
    }

    /// Whether two rows of an object are the same.
    fn same_row(&self, a: Row, b: Row) -> bool
        ensures { Stands self.now.types.now a.c_type → Stands self.now.types.now b.c_type
            → result ≡ values.same_row (row_in self.now.types.now a) (row_in self.now.types.now b) }
    {
        a.start == b.start && self.types.are_same(a.c_type, b.c_type) && a.count == b.count
    }

    /// A pointer to an allocation as a whole points to its first element, once that has a type.
    fn as_typed(&self, value: Scalar<'a>) -> Scalar<'a>
        ensures means { InEach self.now (λ around state. value_seen self.now result ≡ meaning.as_typed state.objects (value_seen self.now value.entry)) }
        ensures stands { InEach self.now (λ around state. ScalarStands self.now.types.now value.entry → ScalarStands self.now.types.now result) }
    {
        match value {
            Scalar::Raw(number) => self.to_first(number),
            _ => value,
        }
    }

    /// A pointer to an allocation, to its first element once it has a type.
    fn to_first(&self, number: u64) -> Scalar<'a>
        ensures means { InEach self.now (λ around state. value_seen self.now result ≡ meaning.to_first number (state.objects (Heap number))) }
        ensures stands { InEach self.now (λ around state. ScalarStands self.now.types.now result) }
    {
        match self.objects.get(&Name::Heap(number)) {
            Some(content) => content.to_first(number),
            None => Scalar::Raw(number),
        }
    }

    /// Whether two pointers point to elements of one row, or to its end, once allocations have types.
    fn are_in_one_row(&self, a: Scalar<'a>, b: Scalar<'a>) -> bool
        requires a { ScalarStands self.now.types.now a }
        requires b { ScalarStands self.now.types.now b }
        ensures { InEach self.now (λ around state. result ≡ meaning.are_in_one_row state.objects (value_seen self.now a.entry) (value_seen self.now b.entry)) }
    {
        self.is_one_row(self.as_typed(a), self.as_typed(b))
    }

    /// Whether two pointers point to elements of one row, or to its end.
    fn is_one_row(&self, a: Scalar<'a>, b: Scalar<'a>) -> bool
        ensures { ScalarStands self.now.types.now a.entry → ScalarStands self.now.types.now b.entry
            → result ≡ meaning.is_one_row (value_seen self.now a.entry) (value_seen self.now b.entry) }
    {
        match (a, b) {
            (Scalar::Pointer(a), Scalar::Pointer(b)) => {
                a.name == b.name && self.same_row(a.row, b.row)
            }
            (Scalar::Raw(a), Scalar::Raw(b)) => a == b,
            _ => false,
        }
    }

    /// How many elements lie between two pointers (C17 6.5.6 paragraph 9).
    pub fn difference(&self, here: Pos, a: Scalar<'a>, b: Scalar<'a>) -> Result<Scalar<'a>, Stop>
        requires a { ScalarStands self.now.types.now a }
        requires b { ScalarStands self.now.types.now b }
        ensures gives { GivesScalar self.now self.now (λ around. meaning.difference here (value_seen self.now a.entry) (value_seen self.now b.entry)) result }
        ensures stands { IfOk result (ScalarStands self.now.types.now) }
        ensures want { IfErr result (OutOnly ⊥) }
    {
        if self.is_dead_pointer(a) || self.is_dead_pointer(b) {
            return Err(Stop::Undefined(UbKind::U06, here));
        }
        if !self.are_in_one_row(a, b) {
            return Err(Stop::Undefined(UbKind::U10, here));
        }
        let (a, b) = (i128::from(a.place().index), i128::from(b.place().index));
        let between = a - b;
        if !is_long(between) {
            return Err(Stop::Undefined(UbKind::U10, here));
        }
        Ok(Scalar::Integer(between))
    }
}
