// The store: objects, locals, and the numbers that are given next.

ghost use Rattle.std.specs.Prelude.{◌≡◌, ℕ, false, ◌≤◌, ◌-◌, [], ◌∷◌, ◌++◌, length, take, Some, Ok, IfOk, IfErr, OnOk, OnErr};
ghost use Rattle.c_typed.specs.Table.{Stands, type_in, structs_in};
ghost use Rattle.ref_semantics.specs.Values as values;
ghost use Rattle.ref_semantics.specs.Store as meaning;
ghost use Rattle.ref_semantics.specs.Store.{TypeEnvironment, State, is_dead};
ghost use Rattle.ref_semantics.specs.Pointers as pointers;
ghost use Rattle.ref_semantics.specs.Library as library;
ghost use Rattle.ref_semantics.specs.Meaning as rules;
ghost use Rattle.ref_meaning.specs.RefStore.Promises.{ForTypes, GivesPlace, GivesScalar, InEach, place_seen, type_seen, value_seen};
ghost use Rattle.ref_meaning.specs.Fitting.{IsObjectType};
ghost use Rattle.ref_meaning.specs.RefStore.Views.{name_of, place_in, scalar_in, IsElement, PlaceStands, ScalarStands};
ghost use Rattle.ref_meaning.specs.RefStore.Holding.{ContentIs, HeldIs, At, CallGives, Comes, new_local_of};
ghost use Rattle.ref_meaning.specs.Wanting.{OutOnly};

use crate::object::{Content, Elements};
use crate::value::{Name, Place, Row, Scalar, Stop};
use c_typed::{CType, Shape, TypeTable};
use indexmap::{IndexMap, IndexSet};
use run_theory::{Pos, UbKind};
use std::alloc::{AllocError, Global};

/// All objects that live, by their names, the locals of all calls, and the numbers that the next local and the next
/// allocation get.
#[derive(Drop)]
pub struct Store<'a> {
    pub(crate) alloc: Global,
    pub(crate) types: &'a TypeTable,
    /// The tags of the structures that the program completes.
    pub(crate) completed: IndexSet<&'a [u8]>,
    pub(crate) objects: IndexMap<Name<'a>, Content<'a>>,
    pub(crate) locals: Vec<u64>,
    pub(crate) next_local: u64,
    pub(crate) next_heap: u64,
}

impl<'a> Store<'a> {
    /// How many locals all calls have.
    pub fn height(&self) -> usize
        ensures { result ≡ length self.now.locals.items }
    {
        self.locals.len()
    }

    /// Whether an object is dead.
    pub fn is_dead(&self, name: Name<'a>) -> bool
        ensures { InEach self.now (λ around state. result ≡ is_dead (state.objects (name_of name.entry))) }
    {
        self.objects.get(&name).is_none()
    }

    /// An object alone.
    pub fn named(&self, name: Name<'a>) -> Place<'a>
        ensures gives { GivesPlace self.now self.now (λ around. rules.named (name_of name.entry)) (Ok result) }
        ensures stands { InEach self.now (λ around state. PlaceStands self.now.types.now result) }
        ensures element { InEach self.now (λ around state. IsElement self.now.types.now result) }
    {
        match self.objects.get(&name) {
            Some(content) => Place::first(name, content.row()),
            None => Place::first(name, Row::NOTHING),
        }
    }

    /// A local of a call, of which so many others of all calls stand before the first, by how many stand before it.
    pub fn local(&self, base: usize, number: usize) -> Place<'a>
        ensures gives { (around : TypeEnvironment)
            → CallGives around self.now self.now base (place_in self.now.types.now) (rules.local_place number) (Ok result) }
        ensures stands { (around : TypeEnvironment) (state : State) → At around self.now base state → PlaceStands self.now.types.now result }
        ensures element { (around : TypeEnvironment) (state : State) → At around self.now base state → IsElement self.now.types.now result }
    {
        let index = base.saturating_add(number);
        if index < self.height() {
            self.named(Name::Own(self.locals[index]))
        } else {
            self.named(Name::Own(0))
        }
    }

    /// How many bytes an element lies behind the beginning of its object.
    pub fn offset(&self, place: Place<'a>) -> u64
        requires { PlaceStands self.now.types.now place }
        ensures { ForTypes self.now.types.now (λ around. result ≡ meaning.offset_of around (place_seen self.now place.entry)) }
    {
        place.row.start + place.index * self.types.size_of(place.row.c_type)
    }

    /// A member of an element, by how many stand before it (C17 6.5.2.3).
    pub fn member_at(&self, place: Place<'a>, number: u32) -> Place<'a>
        requires place { PlaceStands self.now.types.now place }
        requires element { IsElement self.now.types.now place }
        ensures found { ForTypes self.now.types.now (λ around. place_seen self.now result ≡ meaning.member_at around (place_seen self.now place.entry) number) }
        ensures stands { PlaceStands self.now.types.now result }
        ensures element { IsElement self.now.types.now result }
    {
        let Some(member) = self.types.member_place(place.row.c_type, number as usize) else {
            return Place::first(place.name, Row::NOTHING);
        };
        let row = Row {
            start: self.offset(place) + member.offset,
            c_type: match member.c_type {
                Some(c_type) => c_type,
                None => CType::VOID,
            },
            count: 1,
        };
        Place::first(place.name, row)
    }

    /// The first element of an array (C17 6.3.2.1 paragraph 3).
    pub fn decayed(&self, place: Place<'a>) -> Place<'a>
        requires place { PlaceStands self.now.types.now place }
        requires element { IsElement self.now.types.now place }
        ensures found { ForTypes self.now.types.now (λ around. place_seen self.now result ≡ meaning.decayed around (place_seen self.now place.entry)) }
        ensures stands { PlaceStands self.now.types.now result }
    {
        let start = self.offset(place);
        let row = match self.types.shape(place.row.c_type) {
            Shape::Array { element, length } => Row {
                start,
                c_type: element,
                count: length,
            },
            _ => Row {
                start,
                c_type: place.row.c_type,
                count: 1,
            },
        };
        Place::first(place.name, row)
    }

    /// Zero or null (C17 6.7.9 paragraph 10).
    fn cleared(&self, c_type: CType) -> Scalar<'a>
        requires { Stands self.now.types.now c_type }
        ensures means { scalar_in self.now.types.now result ≡ meaning.cleared (type_in self.now.types.now c_type) }
        ensures stands { ScalarStands self.now.types.now result }
    {
        match self.types.shape(c_type) {
            Shape::Integer(_) => Scalar::Integer(0),
            _ => Scalar::Null,
        }
    }

    /// The scalar at a place, unless it is indeterminate.
    fn scalar_in(&self, content: &Content<'a>, place: Place<'a>) -> Option<Scalar<'a>>
        requires { PlaceStands self.now.types.now place }
        ensures { (around : TypeEnvironment) (held : values.Content) → around.structs ≡ structs_in self.now.types.now
            → ContentIs self.now.types.now (Some content.now) held
            → HeldIs self.now.types.now result (meaning.scalar_at around held (place_seen self.now place.entry)) }
    {
        let Content::Elements(elements) = content else {
            return None;
        };
        match elements.held(self.offset(place)) {
            Some(value) => Some(value),
            None => {
                if elements.is_static {
                    Some(self.cleared(place.row.c_type))
                } else {
                    None
                }
            }
        }
    }

    /// Reads the scalar at a place (C17 6.3.2.1 paragraph 2).
    pub fn read(&self, here: Pos, place: Place<'a>) -> Result<Scalar<'a>, Stop>
        requires { PlaceStands self.now.types.now place }
        ensures gives { GivesScalar self.now self.now (λ around. pointers.read around here (place_seen self.now place.entry)) result }
        ensures stands { InEach self.now (λ around state. IfOk result (ScalarStands self.now.types.now)) }
        ensures want { IfErr result (OutOnly ⊥) }
    {
        let Some(content) = self.objects.get(&place.name) else {
            return Err(Stop::Undefined(UbKind::U06, here));
        };
        match self.scalar_in(content, place) {
            Some(value) => Ok(value),
            None => Err(Stop::Undefined(UbKind::U04, here)),
        }
    }

    /// Stores a scalar at a place (C17 6.5.16.1 paragraph 2).
    pub fn write(&mut self, here: Pos, place: Place<'a>, value: Scalar<'a>) -> Result<(), Stop>
        requires place { PlaceStands self.old.types.now place }
        requires value { ScalarStands self.old.types.now value }
        ensures gives { (around : TypeEnvironment) (base : ℕ)
            → CallGives around self.old self.new base (λ done.
            value_seen self.old value.entry) (pointers.write around here (place_seen self.old place.entry) (value_seen self.old value.entry)) result }
        ensures types { self.new.types ≡ self.old.types }
        ensures locals { self.new.locals ≡ self.old.locals }
        ensures want { InEach self.old (λ around state. IfErr result (OutOnly (is_dead (state.objects (name_of place.entry.name)) ≡ false))) }
    {
        if self.is_dead(place.name) {
            return Err(Stop::Undefined(UbKind::U06, here));
        }
        let offset = self.offset(place);
        if let Some(content) = self.objects.get_mut(&place.name) {
            content.hold(offset, value)?;
        }
        Ok(())
    }

    /// A local begins to live (C17 6.2.4 paragraph 6).
    pub fn new_local(&mut self, c_type: CType) -> Result<Place<'a>, AllocError>
        requires { IsObjectType self.old.types.now c_type }
        ensures made { (around : TypeEnvironment) (base : ℕ) (state : State) → base ≤ length self.old.locals.items → At around self.old base state
            → IfOk result (λ place. Comes around self.new base (rules.new_local (type_seen self.old c_type)) state (place_seen self.old place)) }
        ensures stands { IfOk result (PlaceStands self.old.types.now) }
        ensures err { OnErr result ((around : TypeEnvironment) (base : ℕ) (state : State) → At around self.old base state → At around self.new base state) }
        ensures types { self.new.types ≡ self.old.types }
        ensures locals { OnOk result (self.new.locals.items ≡ self.old.locals.items ++ (self.old.next_local ∷ [])) }
        ensures same { OnErr result (self.new.locals.items ≡ self.old.locals.items) }
    {
        let number = self.next_local;
        let Some(next) = number.checked_add(1) else {
            return Err(AllocError);
        };
        self.locals.reserve(1)?;
        let elements = Elements::new(self.alloc, false, c_type, 1);
        let row = elements.row();
        self.objects
            .insert(Name::Own(number), Content::Elements(elements))?;
        self.locals.push(number).unwrap();
        self.next_local = next;
        Ok(Place::first(Name::Own(number), row))
    }

    /// A local that holds a value from its beginning (C17 6.9.1 paragraph 10).
    pub fn new_holding(&mut self, c_type: CType, value: Scalar<'a>) -> Result<(), AllocError>
        requires c_type { IsObjectType self.old.types.now c_type }
        requires value { ScalarStands self.old.types.now value }
        ensures made { (around : TypeEnvironment) (base : ℕ) (state : State) → base ≤ length self.old.locals.items → At around self.old base state
            → IfOk result (λ done.
            Comes around self.new base (new_local_of around (type_seen self.old c_type) (value_seen self.old value.entry)) state rules.Normal) }
        ensures err { OnErr result ((around : TypeEnvironment) (base : ℕ) (state : State) → At around self.old base state → At around self.new base state) }
        ensures types { self.new.types ≡ self.old.types }
        ensures locals { OnOk result (self.new.locals.items ≡ self.old.locals.items ++ (self.old.next_local ∷ [])) }
        ensures same { OnErr result (self.new.locals.items ≡ self.old.locals.items) }
    {
        let number = self.next_local;
        let Some(next) = number.checked_add(1) else {
            return Err(AllocError);
        };
        self.locals.reserve(1)?;
        let mut elements = Elements::new(self.alloc, false, c_type, 1);
        elements.hold(0, value)?;
        self.objects
            .insert(Name::Own(number), Content::Elements(elements))?;
        self.locals.push(number).unwrap();
        self.next_local = next;
        Ok(())
    }

    /// The newest locals die, until so many are left (C17 6.2.4 paragraph 6).
    pub fn leave(&mut self, height: usize)
        ensures left { (around : TypeEnvironment) (base : ℕ) (state : State) → base ≤ height → At around self.old base state
            → At around self.new base (record state {
              objects = rules.killed (height - base) state.locals state.objects;
              locals = rules.kept (height - base) state.locals;
            }) }
        ensures types { self.new.types ≡ self.old.types }
        ensures locals { take height self.new.locals.items ≡ take height self.old.locals.items }
    {
        while self.locals.len() > height {
            if let Some(number) = self.locals.pop() {
                self.objects.swap_remove(&Name::Own(number));
            }
        }
    }

    /// Makes an object of so many bytes that has no type yet; of none for no byte (C17 7.22.3.4).
    pub fn allocate(&mut self, size: i128) -> Result<Scalar<'a>, Stop>
        ensures gives { GivesScalar self.old self.new (λ around. library.allocated (library.natural_of size)) result }
        ensures stands { IfOk result (ScalarStands self.old.types.now) }
        ensures types { self.new.types ≡ self.old.types }
        ensures locals { self.new.locals ≡ self.old.locals }
        ensures want { IfErr result (OutOnly (1 ≤ library.natural_of size)) }
    {
        if size <= 0 {
            return Ok(Scalar::Null);
        }
        let Ok(bytes) = u64::try_from(size) else {
            return Err(Stop::OutOfMemory);
        };
        let number = self.next_heap;
        let Some(next) = number.checked_add(1) else {
            return Err(Stop::OutOfMemory);
        };
        self.objects
            .insert(Name::Heap(number), Content::Raw(bytes))?;
        self.next_heap = next;
        Ok(Scalar::Raw(number))
    }

    /// Whether a pointer does not point to the first byte of a living allocation.
    fn is_unfreeable(&self, value: Scalar<'a>) -> bool
        requires { ScalarStands self.now.types.now value }
        ensures { InEach self.now (λ around state. result ≡ library.is_unfreeable around state.objects (value_seen self.now value.entry)) }
    {
        match value {
            Scalar::Raw(number) => self.is_dead(Name::Heap(number)),
            Scalar::Pointer(place) => {
                let Name::Heap(_) = place.name else {
                    return true;
                };
                self.is_dead(place.name) || self.offset(place) != 0
            }
            _ => true,
        }
    }

    /// Frees an allocation (C17 7.22.3.3).
    pub fn free(&mut self, here: Pos, value: Scalar<'a>) -> Result<(), Stop>
        requires { ScalarStands self.old.types.now value }
        ensures gives { (around : TypeEnvironment) (base : ℕ)
            → CallGives around self.old self.new base (λ done. values.NullValue) (library.freed around here (value_seen self.old value.entry)) result }
        ensures types { self.new.types ≡ self.old.types }
        ensures locals { self.new.locals ≡ self.old.locals }
        ensures want { IfErr result (OutOnly ⊥) }
    {
        if value.is_null() {
            return Ok(());
        }
        if self.is_unfreeable(value) {
            return Err(Stop::Undefined(UbKind::U11, here));
        }
        self.objects.swap_remove(&value.place().name);
        Ok(())
    }
}
