// The table of types.

ghost use Rattle.std.specs.Prelude.{◌≡◌, ℕ, ◌<◌, ◌≤◌, true, false, Some, IfOk, IfSome, OnOk, OnErr, slice_get};
ghost use Rattle.c_typed.specs.Types as T;
ghost use Rattle.c_typed.specs.Types.{same_type, is_array};
ghost use Rattle.c_typed.specs.Layouts.{is_complete, layouts, layout_of, known_layout, slot_at};
ghost use Rattle.c_typed.specs.Extents.{extent_layout, IsSmall};
ghost use Rattle.c_typed.specs.Table.{empty, numbered, derived_meaning, meaning_of, Stands, type_in, IsNumberOf, ListStands, types_in, TagStands, tag_in, structs_in, members_of, IsMember, IsMemberType, IsMemberPlace, base_meaning, the_type, Interned, KnownStands, known_in, member_entries, IsCompleteMember, AreComplete, MakesType, MakesList, completed, HasShape, IsSplit};
ghost use Rattle.c_typed.specs.Inside.{IsSomething, is_sized, is_known_sized, IsBuilt, HasExtent, MakesEntry, EntryIs, StructureIs, IsStep};
ghost use Rattle.c_typed.specs.declared.structure.Step.TheVariants as Steps;

use crate::c_type::{CType, Derived, FIRST_ENTRY, Parameters, Shape, StructId};
use crate::extent::{Extent, saturated_sum};
use crate::structure::{Member, MemberAt, MemberPlace, Step, Structure};
use c_num::IntType;
use indexmap::IndexMap;
use std::alloc::{AllocError, Global};
use std::marker::Model;

/// The types of a program, each once.
#[derive(Drop)]
pub struct TypeTable {
    alloc: Global,
    /// Each with its extent, where it is no structure.
    entries: IndexMap<Derived, Extent>,
    /// The tags of structures, each with the index of its structure once that is completed.
    tags: IndexMap<Vec<u8>, Option<usize>>,
    /// In the order in which they were completed.
    structures: Vec<Structure>,
}

impl Model for TypeTable {
    ghost use Rattle.c_typed.specs.Table.{Interned};
    ghost use Rattle.c_typed.specs.Inside.{interned, IsTable};

    ghost Value = { Interned };

    ghost view = { λ table. interned table.entries.entries table.tags.entries table.structures.items };

    ghost invariant = { λ table. IsTable table.entries.entries table.tags.entries table.structures.items };
}

impl TypeTable {
    /// The table with the types that are in every table.
    pub fn new(alloc: Global) -> TypeTable
        ensures { result ≡ empty }
    {
        TypeTable {
            alloc,
            entries: IndexMap::new(alloc),
            tags: IndexMap::new(alloc),
            structures: Vec::new(alloc),
        }
    }

    /// The pointers to a type (C17 6.2.5 paragraph 20).
    pub fn pointer_to(&mut self, target: CType) -> Result<CType, AllocError>
        requires { Stands self.old target }
        ensures ok { IfOk result (λ made. MakesType self.old self.new made (T.Pointer (type_in self.old target))) }
        ensures err { OnErr result (self.new ≡ self.old) }
    {
        Ok(CType(self.intern(Derived::Pointer(target), Extent::scalar(8))?))
    }

    /// The arrays of so many elements of a type (C17 6.2.5 paragraph 20).
    pub fn array_of(&mut self, element: CType, length: u64) -> Result<CType, AllocError>
        requires stands { Stands self.old element }
        requires complete { is_complete (structs_in self.old) (type_in self.old element) ≡ true }
        ensures ok { IfOk result (λ made. MakesType self.old self.new made (T.Array (type_in self.old element) length)) }
        ensures err { OnErr result (self.new ≡ self.old) }
    {
        let extent = self.extent(element).repeated(length);
        Ok(CType(self.intern(Derived::Array { element, length }, extent)?))
    }

    /// The arrays of so many elements of a type, where they have been made.
    pub fn find_array(&self, element: CType, length: u64) -> Option<CType>
        requires { Stands self.now element }
        ensures { IfSome result (λ t. Stands self.now t × (type_in self.now t ≡ T.Array (type_in self.now element) length)) }
    {
        let index = self
            .entries
            .get_index_of(&Derived::Array { element, length })?;
        Some(CType(index as u32 + FIRST_ENTRY))
    }

    /// The structure with a tag, completed or not (C17 6.7.2.3).
    pub fn struct_type(&mut self, tag: &[u8]) -> Result<CType, AllocError>
        ensures ok { IfOk result (λ made. MakesType self.old self.new made (T.Struct tag.now)) }
        ensures err { OnErr result (self.new ≡ self.old) }
    {
        match self.tags.get_index_of(tag) {
            Some(index) => {
                let structure = Derived::Struct(StructId(index as u32));
                Ok(CType(self.intern(structure, Extent::NOTHING)?))
            }
            None => self.new_struct_type(tag),
        }
    }

    /// The functions with a result and with parameters (C17 6.2.5 paragraph 20).
    pub fn function(&mut self, returned: CType, parameters: Parameters) -> Result<CType, AllocError>
        requires returned { Stands self.old returned }
        requires parameters { ListStands self.old parameters }
        ensures ok { IfOk result (λ made. MakesType self.old self.new made (T.Function (type_in self.old returned) (types_in self.old parameters))) }
        ensures err { OnErr result (self.new ≡ self.old) }
    {
        let function = Derived::Function {
            result: returned,
            parameters,
        };
        Ok(CType(self.intern(function, Extent::NOTHING)?))
    }

    /// The list of no parameters.
    pub fn no_parameters(&mut self) -> Result<Parameters, AllocError>
        ensures ok { IfOk result (λ made. MakesList self.old self.new made (T.NoTypes)) }
        ensures err { OnErr result (self.new ≡ self.old) }
    {
        Ok(Parameters(self.intern(Derived::NoParameters, Extent::NOTHING)?))
    }

    /// A list of parameters with one more in front.
    pub fn parameter(&mut self, first: CType, others: Parameters) -> Result<Parameters, AllocError>
        requires first { Stands self.old first }
        requires others { ListStands self.old others }
        ensures ok { IfOk result (λ made. MakesList self.old self.new made (T.MoreTypes (type_in self.old first) (types_in self.old others))) }
        ensures err { OnErr result (self.new ≡ self.old) }
    {
        let parameter = Derived::Parameter { first, others };
        Ok(Parameters(self.intern(parameter, Extent::NOTHING)?))
    }

    /// Completes a structure, whose members are in their order (C17 6.7.2.1 paragraph 8).
    pub fn complete(&mut self, id: StructId, members: Vec<Member>) -> Result<(), AllocError>
        requires tag { TagStands self.old id }
        requires open_until_now { is_complete (structs_in self.old) (T.Struct (tag_in self.old id)) ≡ false }
        requires members { AreComplete self.old (member_entries members.items) }
        ensures ok { OnOk result (self.new ≡ completed self.old id.0 (member_entries members.items)) }
        ensures err { OnErr result (self.new ≡ self.old) }
    {
        let structure = self.placed(id, members)?;
        self.structures.reserve(1)?;
        let index = self.structures.len();
        self.structures.push(structure).unwrap();
        self.tags[id.0 as usize] = Some(index);
        Ok(())
    }

    /// How a structure's tag is spelt.
    pub fn tag(&self, id: StructId) -> &[u8]
        requires { TagStands self.now id }
        ensures { result.now ≡ tag_in self.now id }
    {
        match self.tags.get_index(id.0 as usize) {
            Some((tag, _)) => tag.as_slice(),
            None => unreachable!(),
        }
    }

    /// Whether a structure is completed.
    pub fn is_completed(&self, id: StructId) -> bool
        requires { TagStands self.now id }
        ensures { result ≡ is_complete (structs_in self.now) (T.Struct (tag_in self.now id)) }
    {
        self.structure(id).is_some()
    }

    /// What a type is.
    pub fn shape(&self, t: CType) -> Shape
        requires { Stands self.now t }
        ensures { HasShape self.now (type_in self.now t) result }
    {
        if t.0 < FIRST_ENTRY {
            base_shape(t.0)
        } else {
            self.derived_shape(t)
        }
    }

    /// The first of a list of parameters, and the others.
    pub fn first_parameter(&self, parameters: Parameters) -> Option<(CType, Parameters)>
        requires { ListStands self.now parameters }
        ensures { IsSplit self.now (types_in self.now parameters) result }
    {
        match self.entry(parameters.0) {
            Some(Derived::Parameter { first, others }) => Some((first, others)),
            _ => None,
        }
    }

    /// The number of a type, of which each type has one: of any number, that of the type for which it stands, and that of `void` where it
    /// stands for none.
    pub fn number_of(&self, t: CType) -> CType
        ensures { IsNumberOf self.now (type_in self.now t) result }
    {
        let entries = &self.entries;
        if t.0 < FIRST_ENTRY {
            return t;
        }
        match entries.get_index((t.0 - FIRST_ENTRY) as usize) {
            Some((entry, _)) => { if entry.is_type() { t } else { CType::VOID } }
            None => CType::VOID,
        }
    }

    /// Whether two types are the same (C17 6.2.7 paragraph 1).
    pub fn same(&self, a: CType, b: CType) -> bool
        requires a { Stands self.now a }
        requires b { Stands self.now b }
        ensures { result ≡ same_type (type_in self.now a) (type_in self.now b) }
    {
        self.are_same(a, b)
    }

    /// The same of any two numbers, of which nothing is said where one stands for no type.
    pub fn are_same(&self, a: CType, b: CType) -> bool
        ensures { Stands self.now a → Stands self.now b → result ≡ same_type (type_in self.now a) (type_in self.now b) }
    {
        let _ = &self.alloc;
        a == b
    }

    /// Whether it is an object type whose size is known (C17 6.2.5 paragraph 1).
    pub fn is_complete(&self, t: CType) -> bool
        requires { Stands self.now t }
        ensures { result ≡ is_complete (structs_in self.now) (type_in self.now t) }
    {
        match self.shape(t) {
            Shape::Void => false,
            Shape::Integer(_) => true,
            Shape::Pointer(_) => true,
            Shape::Array { .. } => true,
            Shape::Struct(id) => self.is_completed(id),
            Shape::Function { .. } => false,
        }
    }

    /// The size of an object of a type in bytes (C17 6.5.3.4 paragraph 2).
    pub fn size_of(&self, t: CType) -> u64
        requires { Stands self.now t }
        ensures { result ≡ (layout_of (structs_in self.now) (type_in self.now t)).size }
    {
        self.extent(t).size
    }

    /// The alignment of a type in bytes (C17 6.2.8 paragraph 1).
    pub fn align_of(&self, t: CType) -> u64
        requires { Stands self.now t }
        ensures { result ≡ (layout_of (structs_in self.now) (type_in self.now t)).alignment }
    {
        self.extent(t).alignment
    }

    /// The slots of an object of a type, where an array has those of one element.
    pub fn slots(&self, t: CType) -> u64
        requires { Stands self.now t }
        ensures { result ≡ (layout_of (structs_in self.now) (type_in self.now t)).slots }
    {
        self.extent(t).slots
    }

    /// The first member of a name that a structure has (C17 6.5.2.3).
    pub fn member(&self, t: CType, name: &[u8]) -> Option<MemberAt>
        requires { Stands self.now t }
        ensures { IsMember self.now (members_of (structs_in self.now) (type_in self.now t)) name.now result }
    {
        match self.shape(t) {
            Shape::Struct(id) => self.structure(id)?.member(name),
            _ => None,
        }
    }

    /// The type of a structure's member, by how many stand before it, where that has one.
    pub fn member_at(&self, id: StructId, number: usize) -> Option<Option<CType>>
        requires { TagStands self.now id }
        ensures { IsMemberType self.now (slice_get (members_of (structs_in self.now) (T.Struct (tag_in self.now id))) number) result }
    {
        self.structure(id)?.member_type(number)
    }

    /// A member's place within its structure, by how many members stand before it (C17 6.7.2.1 paragraph 15).
    pub fn member_place(&self, t: CType, number: usize) -> Option<MemberPlace>
        requires { Stands self.now t }
        ensures { IsMemberPlace self.now (members_of (structs_in self.now) (type_in self.now t)) number result }
    {
        match self.shape(t) {
            Shape::Struct(id) => self.structure(id)?.member_place(number),
            _ => None,
        }
    }

    /// The number of the slot at which the part of an object begins to which a path leads.
    pub fn slot_of(&self, t: CType, path: &[Step]) -> u64
        requires { Stands self.now t }
        ensures { result ≡ slot_at (structs_in self.now) (Some (type_in self.now t)) path.now }
    {
        let mut slot = 0;
        let mut part = Some(t);
        for step in path {
            let (slots, next) = self.step(part, *step);
            slot = saturated_sum(slot, slots);
            part = next;
        }
        slot
    }

    /// How many slots lie between the beginning of an object and that of a part of it, and the type of this part.
    fn step(&self, whole: Option<CType>, step: Step) -> (u64, Option<CType>)
        requires { KnownStands self.now whole }
        ensures { IsStep self.now (known_in self.now.tags self.now.entries whole) step result }
    {
        let Some(whole) = whole else {
            return (0, None);
        };
        match self.shape(whole) {
            Shape::Struct(id) => match step {
                Step::Member(number) => self.member_step(id, number),
                Step::Element(_) => (0, None),
            },
            Shape::Array { element, .. } => match step {
                Step::Member(_) => (0, None),
                Step::Element(_) => (0, Some(element)),
            },
            _ => (0, None),
        }
    }

    /// How many slots the members before this one have, and its type.
    fn member_step(&self, id: StructId, number: u32) -> (u64, Option<CType>)
        requires { TagStands self.now id }
        ensures { IsStep self.now (Some (T.Struct (tag_in self.now id))) (Steps.Member number) result }
    {
        match self.structure(id) {
            Some(structure) => structure.slots_before(number),
            None => (0, None),
        }
    }

    /// What a type is that isn't in every table.
    fn derived_shape(&self, t: CType) -> Shape
        requires stands { Stands self.now t }
        requires derived { 9 ≤ t.0 }
        ensures { HasShape self.now (type_in self.now t) result }
    {
        match self.entry(t.0) {
            Some(Derived::Pointer(target)) => Shape::Pointer(target),
            Some(Derived::Array { element, length }) => Shape::Array { element, length },
            Some(Derived::Struct(id)) => Shape::Struct(id),
            Some(
                Derived::Function {
                    result: returned,
                    parameters,
                },
            ) => Shape::Function {
                result: returned,
                parameters,
            },
            _ => unreachable!(),
        }
    }

    /// The size, the alignment and the slots of an object of a type.
    fn extent(&self, t: CType) -> Extent
        requires { Stands self.now t }
        ensures layout { extent_layout result ≡ layout_of (structs_in self.now) (type_in self.now t) }
        ensures small { IsSmall (extent_layout result) }
        ensures sized { is_complete (structs_in self.now) (type_in self.now t) ≡ true → is_sized (structs_in self.now) (type_in self.now t) ≡ true }
    {
        match self.shape(t) {
            Shape::Void => Extent::NOTHING,
            Shape::Integer(int_type) => Extent::scalar(u64::from(int_type.width() / 8)),
            Shape::Pointer(_) => Extent::scalar(8),
            Shape::Array { .. } => self.array_extent(t),
            Shape::Struct(id) => self.struct_extent(id),
            Shape::Function { .. } => Extent::NOTHING,
        }
    }

    /// That of an array.
    fn array_extent(&self, t: CType) -> Extent
        requires stands { Stands self.now t }
        requires array { is_array (type_in self.now t) ≡ true }
        ensures layout { extent_layout result ≡ layout_of (structs_in self.now) (type_in self.now t) }
        ensures sized { is_sized (structs_in self.now) (type_in self.now t) ≡ true }
    {
        match self.entries.get_index((t.0 - FIRST_ENTRY) as usize) {
            Some((_, extent)) => *extent,
            None => Extent::NOTHING,
        }
    }

    /// That of a structure.
    fn struct_extent(&self, id: StructId) -> Extent
        requires { TagStands self.now id }
        ensures layout { extent_layout result ≡ layout_of (structs_in self.now) (T.Struct (tag_in self.now id)) }
    {
        match self.structure(id) {
            Some(structure) => structure.extent,
            None => Extent::NOTHING,
        }
    }

    /// A structure, once it is completed.
    fn structure(&self, id: StructId) -> Option<&Structure>
        requires { TagStands self.now id }
        ensures { StructureIs self.now id result }
    {
        let (_, completed) = self.tags.get_index(id.0 as usize)?;
        let index = (*completed)?;
        Some(&self.structures[index])
    }

    /// The structure with these members, one behind another.
    fn placed(&self, id: StructId, members: Vec<Member>) -> Result<Structure, AllocError>
        requires { AreComplete self.now (member_entries members.items) }
        ensures { IfOk result (λ structure. IsBuilt self.now id (member_entries members.items) structure) }
    {
        let mut structure = Structure::new(self.alloc, id);
        for member in members {
            let extent = self.member_extent(member.c_type);
            structure.push(self.alloc, member, extent)?;
        }
        structure.extent = structure.extent.closed();
        Ok(structure)
    }

    /// That of a member.
    fn member_extent(&self, c_type: Option<CType>) -> Extent
        requires { IsCompleteMember self.now c_type }
        ensures layout { extent_layout result ≡ known_layout (layouts (structs_in self.now)) (known_in self.now.tags self.now.entries c_type) }
        ensures small { IsSmall (extent_layout result) }
        ensures sized { is_known_sized (structs_in self.now) (known_in self.now.tags self.now.entries c_type) ≡ true }
    {
        match c_type {
            Some(t) => self.extent(t),
            None => Extent::NOTHING,
        }
    }

    /// The entry of this number.
    fn entry(&self, number: u32) -> Option<Derived>
        requires { 9 ≤ number }
        ensures { EntryIs self.now number result }
    {
        match self.entries.get_index((number - FIRST_ENTRY) as usize) {
            Some((entry, _)) => Some(*entry),
            None => None,
        }
    }

    /// The structure with a tag that is new.
    fn new_struct_type(&mut self, tag: &[u8]) -> Result<CType, AllocError>
        requires { (n : ℕ) → numbered self.old.tags n ≡ Some tag.now → ⊥ }
        ensures ok { IfOk result (λ made. MakesType self.old self.new made (T.Struct tag.now)) }
        ensures err { OnErr result (self.new ≡ self.old) }
    {
        let index = self.entries.len();
        let id = self.tags.len();
        if index >= GREATEST_COUNT || id >= GREATEST_COUNT {
            return Err(AllocError);
        }
        self.entries.reserve(1)?;
        self.tags.insert(Vec::from_slice(self.alloc, tag)?, None)?;
        let structure = Derived::Struct(StructId(id as u32));
        self.entries.insert(structure, Extent::NOTHING).unwrap();
        Ok(CType(index as u32 + FIRST_ENTRY))
    }

    /// The number of an entry, which is added where it is new.
    fn intern(&mut self, entry: Derived, extent: Extent) -> Result<u32, AllocError>
        requires means { IsSomething (derived_meaning self.old.tags (meaning_of self.old) entry) }
        requires extent { HasExtent self.old entry extent }
        ensures ok { IfOk result (λ n. MakesEntry self.old self.new n entry) }
        ensures err { OnErr result (self.new ≡ self.old) }
    {
        if let Some(index) = self.entries.get_index_of(&entry) {
            return Ok(index as u32 + FIRST_ENTRY);
        }
        let index = self.entries.len();
        if index >= GREATEST_COUNT {
            return Err(AllocError);
        }
        self.entries.insert(entry, extent)?;
        Ok(index as u32 + FIRST_ENTRY)
    }
}

/// More entries than this can't be numbered.
const GREATEST_COUNT: usize = 0xffff_fff0;

/// What a type is that is in every table.
fn base_shape(number: u32) -> Shape
    requires { number < 9 }
    ensures { (table : Interned) → HasShape table (the_type (base_meaning number)) result }
{
    match number {
        0 => Shape::Void,
        1 => Shape::Integer(IntType::Char),
        2 => Shape::Integer(IntType::UChar),
        3 => Shape::Integer(IntType::Short),
        4 => Shape::Integer(IntType::UShort),
        5 => Shape::Integer(IntType::Int),
        6 => Shape::Integer(IntType::UInt),
        7 => Shape::Integer(IntType::Long),
        _ => Shape::Integer(IntType::ULong),
    }
}
