// The store before a program runs (C17 5.1.2, 6.7.9 paragraph 10).

ghost use Rattle.std.specs.Prelude.{◌≡◌, ℕ, ◌<◌, ◌≤◌, true, List, [], Option, Some, length, IfOk, OnOk};
ghost use Rattle.c_typed.specs.Types as types;
ghost use Rattle.c_typed.specs.Table.{structs_in};
ghost use Rattle.c_typed.specs.DefinitionViews.{program_of, first_of, literal_of, scalar_of, static_of, ProgramStands, LiteralStands, LiteralsStand};
ghost use Rattle.c_typed.specs.Programs.{IsWellTyped};
ghost use Rattle.c_typed.specs.Sizes.{HasStorableTypes};
ghost use Rattle.ref_semantics.specs.Values as meaning;
ghost use Rattle.ref_semantics.specs.Values.{object_place};
ghost use Rattle.ref_semantics.specs.Store.{TypeEnvironment, State, with_content};
ghost use Rattle.ref_semantics.specs.First as rules;
ghost use Rattle.ref_semantics.specs.First.{around_of, first_state};
ghost use Rattle.ref_meaning.specs.RefStore.Promises.{ForTypes, place_seen, type_seen, value_seen};
ghost use Rattle.ref_meaning.specs.declared.object.Content.TheVariants as C;
ghost use Rattle.ref_meaning.specs.Fitting.{IsObjectType};
ghost use Rattle.ref_meaning.specs.RefStore.Views.{name_of, PlaceStands, ScalarStands};
ghost use Rattle.ref_meaning.specs.RefStore.Holding.{At, AllHeld, ContentIs, IsUndisturbed};
ghost use Rattle.ref_meaning.specs.Beginning.{IsUnfilled, unfilled};
ghost use Rattle.ref_meaning.specs.Firsts.{Has, unfilled_of, with_new, with_first, with_text, with_given, IsFirst, AreFirsts, AreCharacters, part_index, StepsLead, PlaceLeads, ValueLeads, AllLead, GlobalFits, GlobalsFit};

use crate::object::{Content, Elements};
use crate::store::Store;
use crate::value::{Name, Place, Row, Scalar};
use c_num::{IntType, convert};
use c_typed as typed;
use c_typed::{CType, First, Part, Program, Static};
use indexmap::{IndexMap, IndexSet};
use std::alloc::{AllocError, Global};

/// The name of an object that lives as long as the program.
fn static_name(root: &Static) -> Name<'_>
    ensures { name_of result ≡ rules.name_of (static_of root.now) }
{
    match root {
        Static::Variable(name) => Name::Outer(name.as_slice()),
        Static::Literal(place) => Name::Text(*place),
    }
}

impl<'a> Store<'a> {
    /// The store before a program runs: its variables outside functions, and its literals.
    pub fn new(alloc: Global, program: &'a Program) -> Result<Store<'a>, AllocError>
        requires stand { ProgramStands program.now }
        requires well_typed { IsWellTyped (program_of program.now) }
        requires storable { HasStorableTypes (program_of program.now) }
        ensures stands { (input : List ℕ) (units : ℕ) → IfOk result (λ store.
            At (around_of (program_of program.now)) store 0 (first_state (program_of program.now) input units)) }
        ensures types { IfOk result (λ store. store.types.now ≡ program.now.types) }
    {
        let mut store = Store::empty(alloc, program)?;
        store.add_globals(program)?;
        store.add_literals(program)?;
        let firsts = store.first_values(program)?;
        store.hold_firsts(program, firsts)?;
        Ok(store)
    }

    /// A store without objects.
    fn empty(alloc: Global, program: &'a Program) -> Result<Store<'a>, AllocError>
        ensures made { IfOk result (λ store. Has (program_of program.now) store (unfilled_of [] [])) }
        ensures types { IfOk result (λ store. store.types.now ≡ program.now.types) }
    {
        let mut completed = IndexSet::new(alloc);
        for tag in program.completed.iter() {
            completed.insert(tag.as_slice())?;
        }
        Ok(Store {
            alloc,
            types: &program.types,
            completed,
            objects: IndexMap::new(alloc),
            locals: Vec::new(alloc),
            next_local: 1,
            next_heap: 1,
        })
    }

    /// Variables outside functions, without first values. Of several of one name the first counts.
    fn add_globals(&mut self, program: &'a Program) -> Result<(), AllocError>
        requires fit { GlobalsFit (program_of program.now) program.now.types program.now.globals.items }
        requires types { self.old.types.now ≡ program.now.types }
        requires had { Has (program_of program.now) self.old (unfilled_of [] []) }
        ensures added { OnOk result (Has (program_of program.now) self.new (unfilled_of (program_of program.now).globals [])) }
        ensures types { self.new.types ≡ self.old.types }
    {
        for global in program.globals.iter() {
            self.add_global(global)?;
        }
        Ok(())
    }

    /// A variable without first values, where there is none of its name.
    fn add_global(&mut self, global: &'a typed::GlobalDef) -> Result<(), AllocError>
        requires { IsObjectType self.old.types.now global.now.c_type }
        ensures added { (around : TypeEnvironment) (base : ℕ) (state : State) → At around self.old base state
            → OnOk result (At around self.new base
            (record state {
              objects = with_new (meaning.GlobalObject global.now.name)
                  (unfilled (Some (type_seen self.old global.now.c_type))) state.objects;
            })) }
        ensures types { self.new.types ≡ self.old.types }
    {
        let name = Name::Outer(global.name.as_slice());
        if self.objects.get(&name).is_some() {
            return Ok(());
        }
        let elements = Elements::new(self.alloc, true, global.c_type, 1);
        self.objects.insert(name, Content::Elements(elements))?;
        Ok(())
    }

    /// The literals. Of several at one place the first counts.
    fn add_literals(&mut self, program: &'a Program) -> Result<(), AllocError>
        requires stand { LiteralsStand program.now.types program.now.literals.items }
        requires types { self.old.types.now ≡ program.now.types }
        requires had { Has (program_of program.now) self.old (unfilled_of (program_of program.now).globals []) }
        ensures added { OnOk result (IsUnfilled (program_of program.now) self.new) }
        ensures types { self.new.types ≡ self.old.types }
    {
        for literal in program.literals.iter() {
            self.add_literal(literal)?;
        }
        Ok(())
    }

    /// A literal, where there is none at its place.
    fn add_literal(&mut self, literal: &'a typed::LiteralDef) -> Result<(), AllocError>
        requires { LiteralStands self.old.types.now literal.now }
        ensures added { (around : TypeEnvironment) (base : ℕ) (state : State) → At around self.old base state
            → OnOk result (At around self.new base
            (record state {
              objects = with_new (meaning.LiteralObject literal.now.place)
                  (rules.literal_content (Some (literal_of literal.now))) state.objects;
            })) }
        ensures types { self.new.types ≡ self.old.types }
    {
        let name = Name::Text(literal.place);
        if self.objects.get(&name).is_some() {
            return Ok(());
        }
        let elements = self.characters(literal)?;
        self.objects.insert(name, Content::Elements(elements))?;
        Ok(())
    }

    /// The bytes of a literal, as the characters of its array.
    fn characters(&self, literal: &'a typed::LiteralDef) -> Result<Elements<'a>, AllocError>
        ensures { IfOk result (AreCharacters self.now.types.now literal.now) }
    {
        let mut elements = Elements::new(self.alloc, true, literal.c_type, 1);
        let mut offset = 0;
        for byte in literal.bytes.as_slice() {
            let value = convert(i128::from(*byte), IntType::Char);
            elements.hold(offset, Scalar::Integer(value))?;
            offset += 1;
        }
        Ok(elements)
    }

    /// The variables outside functions with their first values, in their order.
    fn first_values(&self, program: &'a Program) -> Result<Vec<Elements<'a>>, AllocError>
        requires fit { GlobalsFit (program_of program.now) program.now.types program.now.globals.items }
        requires types { self.now.types.now ≡ program.now.types }
        requires unfilled { IsUnfilled (program_of program.now) self.now }
        ensures firsts { IfOk result (λ firsts. AreFirsts (program_of program.now) self.now.types.now program.now.globals.items firsts.items) }
        ensures length { IfOk result (λ firsts. length firsts.items ≡ length program.now.globals.items) }
    {
        let mut firsts = Vec::new(self.alloc);
        for global in program.globals.iter() {
            let elements = self.first_elements(program, global)?;
            firsts.push(elements)?;
        }
        Ok(firsts)
    }

    /// Variables outside functions get their first values, the last one first.
    fn hold_firsts(
        &mut self,
        program: &'a Program,
        mut firsts: Vec<Elements<'a>>,
    ) -> Result<(), AllocError>
        requires fit { GlobalsFit (program_of program.now) program.now.types program.now.globals.items }
        requires types { self.old.types.now ≡ program.now.types }
        requires unfilled { IsUnfilled (program_of program.now) self.old }
        requires firsts { AreFirsts (program_of program.now) self.old.types.now program.now.globals.items firsts.items }
        requires length { length firsts.items ≡ length program.now.globals.items }
        ensures filled { OnOk result (Has (program_of program.now) self.new (rules.first_objects (program_of program.now))) }
        ensures types { self.new.types ≡ self.old.types }
    {
        while let Some(elements) = firsts.pop() {
            self.hold_global(&program.globals[firsts.len()], elements)?;
        }
        Ok(())
    }

    /// A variable becomes these elements.
    fn hold_global(
        &mut self,
        global: &'a typed::GlobalDef,
        elements: Elements<'a>,
    ) -> Result<(), AllocError>
        ensures held { (around : TypeEnvironment) (base : ℕ) (state : State) (content : meaning.Content)
            → ContentIs self.old.types.now (Some (C.Elements elements.entry)) content → At around self.old base state
            → OnOk result (At around self.new base (record state { objects = with_content (meaning.GlobalObject global.now.name) content state.objects })) }
        ensures types { self.new.types ≡ self.old.types }
    {
        let name = Name::Outer(global.name.as_slice());
        self.objects.insert(name, Content::Elements(elements))?;
        Ok(())
    }

    /// A variable with its first values.
    fn first_elements(
        &self,
        program: &'a Program,
        global: &'a typed::GlobalDef,
    ) -> Result<Elements<'a>, AllocError>
        requires fits { GlobalFits (program_of program.now) program.now.types global.now }
        requires types { self.now.types.now ≡ program.now.types }
        requires unfilled { IsUnfilled (program_of program.now) self.now }
        ensures { IfOk result (IsFirst (program_of program.now) self.now.types.now global.now) }
    {
        let mut elements = Elements::new(self.alloc, true, global.c_type, 1);
        let root = Place::first(Name::Heap(0), elements.row());
        for first in global.first.iter() {
            self.hold_given(program, &mut elements, root, first)?;
        }
        Ok(elements)
    }

    /// Stores what an initializer gives where none is stored.
    fn hold_given(
        &self,
        program: &'a Program,
        elements: &mut Elements<'a>,
        root: Place<'a>,
        first: &'a First,
    ) -> Result<(), AllocError>
        requires unfilled { IsUnfilled (program_of program.now) self.now }
        requires root { PlaceStands self.now.types.now root }
        requires leads { (c_type : types.CType) × (place_seen self.now root ≡ object_place (meaning.Heap 0) c_type)
            × AllLead (program_of program.now) c_type (first_of first.now) }
        ensures same { IsUndisturbed elements.old elements.new }
        ensures held { (c_type : types.CType) (held : ℕ → Option meaning.Scalar) → place_seen self.now root.entry ≡ object_place (meaning.Heap 0) c_type
            → AllHeld self.now.types.now elements.old.held held
            → OnOk result (AllHeld self.now.types.now elements.new.held (with_given (program_of program.now) c_type (first_of first.now) held)) }
    {
        match first {
            First::Scalar(held) => {
                let place = self.walked(root, held.parts.as_slice(), held.index);
                let value = self.first_scalar(program, &held.value);
                self.hold_first(elements, place, value)
            }
            First::Text {
                parts,
                int_type,
                bytes,
            } => {
                let bytes = bytes.as_slice();
                if bytes.is_empty() {
                    return Ok(());
                }
                let place = self.walked(root, parts.as_slice(), 0);
                self.hold_text(elements, place, *int_type, bytes)
            }
        }
    }

    /// Bytes as the elements of a row, converted to their type.
    fn hold_text(
        &self,
        elements: &mut Elements<'a>,
        place: Place<'a>,
        int_type: IntType,
        bytes: &[u8],
    ) -> Result<(), AllocError>
        requires place { PlaceStands self.now.types.now place }
        requires room { (index : ℕ) → index < length bytes.now → index ≤ place.row.count }
        ensures same { IsUndisturbed elements.old elements.new }
        ensures held { (around : TypeEnvironment) (held : ℕ → Option meaning.Scalar) → around.structs ≡ structs_in self.now.types.now
            → AllHeld self.now.types.now elements.old.held held
            → OnOk result (AllHeld self.now.types.now elements.new.held (with_text around (place_seen self.now place.entry) int_type 0 bytes.now held)) }
    {
        let mut index = 0;
        for byte in bytes {
            let element = Place { index, ..place };
            let value = convert(i128::from(*byte), int_type);
            self.hold_first(elements, element, Scalar::Integer(value))?;
            index += 1;
        }
        Ok(())
    }

    /// Stores a scalar where none is stored.
    fn hold_first(
        &self,
        elements: &mut Elements<'a>,
        place: Place<'a>,
        value: Scalar<'a>,
    ) -> Result<(), AllocError>
        requires place { PlaceStands self.now.types.now place }
        requires value { ScalarStands self.now.types.now value }
        ensures same { IsUndisturbed elements.old elements.new }
        ensures held { (around : TypeEnvironment) (held : ℕ → Option meaning.Scalar) → around.structs ≡ structs_in self.now.types.now
            → AllHeld self.now.types.now elements.old.held held
            → OnOk result (AllHeld self.now.types.now elements.new.held
            (with_first around (place_seen self.now place.entry) (value_seen self.now value.entry) held)) }
    {
        let offset = self.offset(place);
        if elements.held(offset).is_none() {
            elements.hold(offset, value)?;
        }
        Ok(())
    }

    /// A first value.
    fn first_scalar(&self, program: &'a Program, value: &'a typed::Scalar) -> Scalar<'a>
        requires unfilled { IsUnfilled (program_of program.now) self.now }
        requires leads { ValueLeads (program_of program.now) (scalar_of value.now) }
        ensures means { value_seen self.now result ≡ rules.first_scalar (program_of program.now) (scalar_of value.now) }
        ensures stands { ScalarStands self.now.types.now result }
    {
        match value {
            typed::Scalar::Integer(value) => Scalar::Integer(*value),
            typed::Scalar::Null => Scalar::Null,
            typed::Scalar::Function(name) => Scalar::Function(name.as_slice()),
            typed::Scalar::Pointer { root, parts, index } => {
                Scalar::Pointer(self.first_place(program, root, parts.as_slice(), *index))
            }
        }
    }

    /// An element of the row to which steps lead from an object that lives as long as the program.
    fn first_place(
        &self,
        program: &'a Program,
        root: &'a Static,
        parts: &[Part],
        index: u64,
    ) -> Place<'a>
        requires unfilled { IsUnfilled (program_of program.now) self.now }
        requires leads { PlaceLeads (program_of program.now) (record { root = static_of root.now; steps = parts.now; index = index }) }
        ensures means { place_seen self.now result
            ≡ rules.first_place (program_of program.now) (record { root = static_of root.now; steps = parts.now; index = index }) }
        ensures stands { PlaceStands self.now.types.now result }
    {
        let place = self.root(program, static_name(root));
        self.walked(place, parts, index)
    }

    /// An object that lives as long as the program.
    fn root(&self, program: &'a Program, name: Name<'a>) -> Place<'a>
        requires { IsUnfilled (program_of program.now) self.now }
        ensures means { place_seen self.now result ≡ object_place (name_of name.entry) (rules.static_type (program_of program.now) (name_of name.entry)) }
        ensures stands { PlaceStands self.now.types.now result }
    {
        match self.objects.get(&name) {
            Some(content) => Place::first(name, content.row()),
            None => Place::first(
                name,
                Row {
                    start: 0,
                    c_type: CType::VOID,
                    count: 1,
                },
            ),
        }
    }

    /// The element with an index of the row to which steps lead.
    fn walked(&self, place: Place<'a>, parts: &[Part], index: u64) -> Place<'a>
        requires place { PlaceStands self.now.types.now place }
        requires leads { ForTypes self.now.types.now (λ around. StepsLead around (place_seen self.now place) parts.now index) }
        ensures found { ForTypes self.now.types.now (λ around. place_seen self.now result ≡ rules.walked around (place_seen self.now place.entry) parts.now index) }
        ensures stands { PlaceStands self.now.types.now result }
    {
        let mut reached = place;
        for part in parts {
            reached = self.stepped(reached, *part);
        }
        Place { index, ..reached }
    }

    /// The first element of the row to which a step leads.
    fn stepped(&self, place: Place<'a>, part: Part) -> Place<'a>
        requires place { PlaceStands self.now.types.now place }
        requires below { part_index part < place.row.count }
        ensures found { ForTypes self.now.types.now (λ around. place_seen self.now result ≡ rules.stepped around (place_seen self.now place.entry) part) }
        ensures stands { PlaceStands self.now.types.now result }
    {
        match part {
            Part::Member { index, number } => self.member_at(Place { index, ..place }, number),
            Part::Elements { index } => self.decayed(Place { index, ..place }),
        }
    }
}
