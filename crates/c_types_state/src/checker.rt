// What a checker holds at a place of the text.

ghost use Rattle.std.specs.Prelude.{◌≡◌, ◌∷◌, ◌++◌, ◌≤◌, true, false, Some, None, List, IfOk, OnOk, OnErr, length, slice_get};
ghost use Rattle.c_syntax.specs.Views.{name_tree};
ghost use Rattle.c_typed.specs.Types as T;
ghost use Rattle.c_typed.specs.Layouts.{is_complete, layout_of};
ghost use Rattle.c_typed.specs.Table.{structs_in, Stands, type_in, ListStands, types_in, KnownStands, known_in, TagStands, tag_in};
ghost use Rattle.c_typed.specs.Table.{members_of, IsMember, IsMemberType, HasShape, IsSplit, AreComplete, member_entries, completed};
ghost use Rattle.c_rules.specs.Known.{give, unless};
ghost use Rattle.c_rules.specs.Names.{LocalName, declares_tag, is_local_here, meaning_of, with_local, with_file_name, file_name, entered};
ghost use Rattle.c_typed.specs.Names.{contains};
ghost use Rattle.c_types_state.specs.NameTables.{no_state, with_tag, with_once, meaning_in, MeaningStands, file_row, IsFileEntry, scope_of, ScopeGrows};
ghost use Rattle.c_types_state.specs.Finding.{lesser, noted, Finds, IsType, IsTypes};

use crate::file_name::FileEntry;
use crate::locals::Locals;
use crate::name_meaning::{NameMeaning, library_function};
use c_rules::{TypeRule, Violation, is_before};
use c_syntax::Name;
use c_typed::{CType, Member, MemberAt, Parameters, Shape, StructId, TypeTable};
use indexmap::{IndexMap, IndexSet};
use run_theory::Pos;
use std::alloc::{AllocError, Global};
use std::marker::Model;

/// The types of a program, what is known at a place of its text (C17 6.2.1 to 6.2.3), and the least violation that was found
/// so far.
#[derive(Drop)]
pub struct Checker {
    alloc: Global,
    types: TypeTable,
    /// The tags that the program declares, each with its first place.
    tags: IndexMap<Vec<u8>, Pos>,
    /// The tags of the structures that it completes.
    completed: IndexSet<Vec<u8>>,
    /// The functions that it defines.
    defined: IndexSet<Vec<u8>>,
    /// The names outside functions that are declared so far.
    file: IndexMap<Vec<u8>, FileEntry>,
    locals: Locals,
    least: Option<Violation>,
}

impl Model for Checker {
    ghost use Rattle.c_types_state.specs.NameTables.{State};

    ghost Value = { State };

    ghost use Rattle.c_types_state.specs.Checkers.{state_of, AreNames};

    ghost view = { λ c. state_of c.types c.tags.entries c.completed.keys c.defined.keys c.file.entries c.locals c.least };

    ghost invariant = { λ c. AreNames c.types c.file.entries c.locals };
}

impl Checker {
    /// Before a program: no name is declared.
    pub fn new(alloc: Global) -> Checker
        ensures { result ≡ no_state }
    {
        Checker {
            alloc,
            types: TypeTable::new(alloc),
            tags: IndexMap::new(alloc),
            completed: IndexSet::new(alloc),
            defined: IndexSet::new(alloc),
            file: IndexMap::new(alloc),
            locals: Locals::new(alloc),
            least: None,
        }
    }

    /// Where its memory comes from.
    pub fn alloc(&self) -> Global {
        self.alloc
    }

    // ---- the program

    /// A tag that the program declares, whose earlier places came before.
    pub fn add_tag(&mut self, tag: &Name) -> Result<(), AllocError>
        ensures done { OnOk result (self.new ≡ record self.old { tags = with_tag self.old.tags (name_tree tag.now) }) }
        ensures undone { OnErr result (self.new ≡ self.old) }
    {
        let bytes = tag.bytes.as_slice();
        if self.tags.get(bytes).is_none() {
            self.tags
                .insert(Vec::from_slice(self.alloc, bytes)?, tag.place)?;
        }
        Ok(())
    }

    /// A structure that the program completes.
    pub fn add_completed(&mut self, tag: &[u8]) -> Result<(), AllocError>
        ensures done { OnOk result (self.new ≡ record self.old { completed = with_once self.old.completed tag.now }) }
        ensures undone { OnErr result (self.new ≡ self.old) }
    {
        if !self.completed.contains(tag) {
            self.completed.insert(Vec::from_slice(self.alloc, tag)?)?;
        }
        Ok(())
    }

    /// A function that the program defines.
    pub fn add_defined(&mut self, name: &[u8]) -> Result<(), AllocError>
        ensures done { OnOk result (self.new ≡ record self.old { defined = with_once self.old.defined name.now }) }
        ensures undone { OnErr result (self.new ≡ self.old) }
    {
        if !self.defined.contains(name) {
            self.defined.insert(Vec::from_slice(self.alloc, name)?)?;
        }
        Ok(())
    }

    /// Whether the program declares a tag no later than there.
    pub fn declares_tag(&self, tag: &Name) -> bool
        ensures { result ≡ declares_tag self.now.tags (name_tree tag.now) }
    {
        match self.tags.get(tag.bytes.as_slice()) {
            Some(first) => !is_before(tag.place, *first),
            None => false,
        }
    }

    /// Whether the program completes a structure.
    pub fn completes(&self, id: StructId) -> bool
        requires { TagStands self.now.table id }
        ensures { result ≡ contains self.now.completed (tag_in self.now.table id) }
    {
        self.completed.contains(self.types.tag(id))
    }

    /// Whether the program defines a function.
    pub fn defines(&self, name: &[u8]) -> bool
        ensures { result ≡ contains self.now.defined name.now }
    {
        self.defined.contains(name)
    }

    // ---- violations

    /// The least violation so far, by its place and then its rule.
    pub fn least(&self) -> Option<Violation>
        ensures { result ≡ self.now.least }
    {
        self.least
    }

    /// Notes a violation.
    pub fn note(&mut self, kind: TypeRule, place: Pos)
        ensures { self.new ≡ record self.old { least = lesser self.old.least (record { kind = kind; place = place }) } }
    {
        let violation = Violation { kind, place };
        let is_later = match self.least {
            Some(least) => least.comes_first(violation),
            None => false,
        };
        if !is_later {
            self.least = Some(violation);
        }
    }

    /// Forgets the violations that were noted since this one was the least.
    pub fn restore(&mut self, least: Option<Violation>)
        ensures { self.new ≡ record self.old { least = least } }
    {
        self.least = least;
    }

    /// Notes a violation, unless this holds.
    pub fn require(&mut self, holds: bool, kind: TypeRule, place: Pos) -> bool
        ensures result { result ≡ holds }
        ensures noted { self.new ≡ record self.old { least = noted self.old.least (unless holds kind place) } }
    {
        if !holds {
            self.note(kind, place);
        }
        holds
    }

    // ---- types

    /// What a type is.
    pub fn shape(&self, t: CType) -> Shape
        requires { Stands self.now.table t }
        ensures { HasShape self.now.table (type_in self.now.table t) result }
    {
        self.types.shape(t)
    }

    /// The first of a list of parameters, and the others.
    pub fn first_parameter(&self, parameters: Parameters) -> Option<(CType, Parameters)>
        requires { ListStands self.now.table parameters }
        ensures { IsSplit self.now.table (types_in self.now.table parameters) result }
    {
        self.types.first_parameter(parameters)
    }

    /// Whether two types are the same (C17 6.2.7 paragraph 1).
    pub fn same(&self, a: CType, b: CType) -> bool
        requires a { Stands self.now.table a }
        requires b { Stands self.now.table b }
        ensures { result ≡ T.same_type (type_in self.now.table a) (type_in self.now.table b) }
    {
        self.types.same(a, b)
    }

    /// Whether it is an object type whose size is known (C17 6.2.5 paragraph 1).
    pub fn is_complete(&self, t: CType) -> bool
        requires { Stands self.now.table t }
        ensures { result ≡ is_complete (structs_in self.now.table) (type_in self.now.table t) }
    {
        self.types.is_complete(t)
    }

    /// The size of an object of a type in bytes (C17 6.5.3.4 paragraph 2).
    pub fn size_of(&self, t: CType) -> u64
        requires { Stands self.now.table t }
        ensures { result ≡ (layout_of (structs_in self.now.table) (type_in self.now.table t)).size }
    {
        self.types.size_of(t)
    }

    /// The first member of a name that a structure has (C17 6.5.2.3).
    pub fn member(&self, t: CType, name: &[u8]) -> Option<MemberAt>
        requires { Stands self.now.table t }
        ensures { IsMember self.now.table (members_of (structs_in self.now.table) (type_in self.now.table t)) name.now result }
    {
        self.types.member(t, name)
    }

    /// The pointers to a type (C17 6.2.5 paragraph 20).
    pub fn pointer_to(&mut self, target: CType) -> Result<CType, AllocError>
        requires { Stands self.old.table target }
        ensures made { IfOk result (λ made. Finds IsType (give (T.Pointer (type_in self.old.table target))) self.old self.new (Some made)) }
        ensures unmade { OnErr result (self.new ≡ self.old) }
    {
        Ok(self.types.pointer_to(target)?)
    }

    /// The arrays of so many elements of a type (C17 6.2.5 paragraph 20).
    pub fn array_of(&mut self, element: CType, length: u64) -> Result<CType, AllocError>
        requires stands { Stands self.old.table element }
        requires complete { is_complete (structs_in self.old.table) (type_in self.old.table element) ≡ true }
        ensures made { IfOk result (λ made. Finds IsType (give (T.Array (type_in self.old.table element) length)) self.old self.new (Some made)) }
        ensures unmade { OnErr result (self.new ≡ self.old) }
    {
        Ok(self.types.array_of(element, length)?)
    }

    /// The structure with a tag, completed or not (C17 6.7.2.3).
    pub fn struct_type(&mut self, tag: &[u8]) -> Result<CType, AllocError>
        ensures made { IfOk result (λ made. Finds IsType (give (T.Struct tag.now)) self.old self.new (Some made)) }
        ensures unmade { OnErr result (self.new ≡ self.old) }
    {
        Ok(self.types.struct_type(tag)?)
    }

    /// The functions with a result and with parameters (C17 6.2.5 paragraph 20).
    pub fn function(&mut self, returned: CType, parameters: Parameters) -> Result<CType, AllocError>
        requires returned { Stands self.old.table returned }
        requires parameters { ListStands self.old.table parameters }
        ensures made { IfOk result (λ made.
            Finds IsType (give (T.Function (type_in self.old.table returned) (types_in self.old.table parameters))) self.old self.new (Some made)) }
        ensures unmade { OnErr result (self.new ≡ self.old) }
    {
        Ok(self.types.function(returned, parameters)?)
    }

    /// The list of no parameters.
    pub fn no_parameters(&mut self) -> Result<Parameters, AllocError>
        ensures made { IfOk result (λ made. Finds IsTypes (give T.NoTypes) self.old self.new (Some made)) }
        ensures unmade { OnErr result (self.new ≡ self.old) }
    {
        Ok(self.types.no_parameters()?)
    }

    /// A list of parameters with one more in front.
    pub fn parameter(&mut self, first: CType, others: Parameters) -> Result<Parameters, AllocError>
        requires first { Stands self.old.table first }
        requires others { ListStands self.old.table others }
        ensures made { IfOk result (λ made.
            Finds IsTypes (give (T.MoreTypes (type_in self.old.table first) (types_in self.old.table others))) self.old self.new (Some made)) }
        ensures unmade { OnErr result (self.new ≡ self.old) }
    {
        Ok(self.types.parameter(first, others)?)
    }

    /// Whether a structure is completed (C17 6.7.2.1 paragraph 8).
    pub fn is_completed(&self, id: StructId) -> bool
        requires { TagStands self.now.table id }
        ensures { result ≡ is_complete (structs_in self.now.table) (T.Struct (tag_in self.now.table id)) }
    {
        self.types.is_completed(id)
    }

    /// The type of a structure's member, by how many stand before it, where that has one.
    pub fn member_at(&self, id: StructId, number: usize) -> Option<Option<CType>>
        requires { TagStands self.now.table id }
        ensures { IsMemberType self.now.table (slice_get (members_of (structs_in self.now.table) (T.Struct (tag_in self.now.table id))) number) result }
    {
        self.types.member_at(id, number)
    }

    /// Completes a structure by its members, in their order.
    pub fn complete(&mut self, id: StructId, members: Vec<Member>) -> Result<(), AllocError>
        requires tag { TagStands self.old.table id }
        requires open_until_now { is_complete (structs_in self.old.table) (T.Struct (tag_in self.old.table id)) ≡ false }
        requires members { AreComplete self.old.table (member_entries members.items) }
        ensures done { OnOk result (self.new ≡ record self.old { table = completed self.old.table id.0 (member_entries members.items) }) }
        ensures undone { OnErr result (self.new ≡ self.old) }
    {
        Ok(self.types.complete(id, members)?)
    }

    /// The types of the whole program.
    pub fn into_types(self) -> TypeTable
        ensures { result ≡ self.table }
    {
        self.types
    }

    // ---- names

    /// What a name means there: its innermost declaration that is in scope (C17 6.2.1 paragraph 4).
    pub fn meaning(&self, name: &[u8]) -> NameMeaning
        ensures means { meaning_in self.now.table result ≡ meaning_of (scope_of self.now) name.now }
        ensures stands { MeaningStands self.now.table result }
    {
        if let Some(number) = self.locals.number(name) {
            return NameMeaning::Local {
                number,
                c_type: self.locals.c_type(name),
            };
        }
        if let Some(entry) = self.file.get(name) {
            return NameMeaning::Outer {
                c_type: entry.c_type,
            };
        }
        match library_function(name) {
            Some(function) => NameMeaning::Library(function),
            None => NameMeaning::Nothing,
        }
    }

    /// Whether the innermost block has declared a name.
    pub fn is_local_here(&self, name: &[u8]) -> bool
        ensures { result ≡ is_local_here (scope_of self.now) name.now }
    {
        self.locals.is_declared_in_block(name)
    }

    /// Declares a local in the innermost block.
    pub fn declare_local(&mut self, name: &[u8], c_type: Option<CType>) -> Result<(), AllocError>
        requires { KnownStands self.old.table c_type }
        ensures done { OnOk result (
            ScopeGrows (with_local name.now (known_in self.old.table.tags self.old.table.entries c_type) (scope_of self.old)) self.old self.new) }
        ensures undone { OnErr result (self.new ≡ self.old) }
    {
        self.locals.declare(name, c_type)
    }

    /// Enters a block. The number that it returns is for leaving it.
    pub fn enter(&mut self) -> usize
        ensures scope { ScopeGrows (entered (scope_of self.old)) self.old self.new }
        ensures outer { result ≡ length (scope_of self.old).outer }
    {
        self.locals.enter()
    }

    /// Leaves the innermost block, whose locals are no longer in scope.
    pub fn leave(&mut self, outer: usize)
        requires { outer ≤ length (scope_of self.old).outer }
        ensures { (block around : List LocalName) → (scope_of self.old).outer ≡ block ++ around → length around ≡ outer
            → ScopeGrows (record (scope_of self.old) { inner = block; outer = around }) self.old self.new }
    {
        self.locals.leave(outer);
    }

    /// What is known of a name outside functions.
    pub fn file_entry(&self, name: &[u8]) -> Option<FileEntry>
        ensures { IsFileEntry self.now.table (file_name (scope_of self.now).file name.now) result }
    {
        self.file.get(name).copied()
    }

    /// Puts what is known of a name outside functions in the place of what was known of it.
    pub fn put_file_entry(&mut self, name: &[u8], entry: FileEntry) -> Result<(), AllocError>
        requires { KnownStands self.old.table entry.c_type }
        ensures done { OnOk result (ScopeGrows (record (scope_of self.old) {
          file = with_file_name (file_row self.old.table (record { name = name.now; entry = entry })) (scope_of self.old).file;
        }) self.old self.new) }
        ensures undone { OnErr result (self.new ≡ self.old) }
    {
        self.file.insert(Vec::from_slice(self.alloc, name)?, entry)?;
        Ok(())
    }
}
