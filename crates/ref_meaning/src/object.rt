// What objects hold.

ghost use Rattle.std.specs.Prelude.{◌≡◌, ℕ, Some, None, OnOk, OnErr, nat_eq, if◌then◌else◌, ◌==◌};
ghost use Rattle.indexmap.specs.IndexMap.{get};
ghost use Rattle.c_typed.specs.Table.{Interned, Stands, structs_in};
ghost use Rattle.ref_semantics.specs.Values as meaning;
ghost use Rattle.ref_semantics.specs.Store as meaning_store;
ghost use Rattle.ref_semantics.specs.Pointers as pointers;
ghost use Rattle.ref_meaning.specs.Fitting.{Fits, HasRoom};
ghost use Rattle.ref_meaning.specs.RefStore.Views.{row_in, scalar_in, ScalarStands};
ghost use Rattle.ref_meaning.specs.RefStore.Holding.{ContentIs, IsUndisturbed};

use crate::value::{Name, Place, Row, Scalar};
use c_typed::CType;
use indexmap::IndexMap;
use std::alloc::{AllocFailed, Global};

/// What a living object holds.
#[derive(Drop)]
pub enum Content<'a> {
    /// The bytes of an allocation that has no type yet, by their number.
    Raw(u64),
    Elements(Elements<'a>),
}

/// A row of elements of one type.
#[derive(Drop)]
pub struct Elements<'a> {
    /// Whether what was never stored is zero or null (C17 6.7.9 paragraph 10), or else indeterminate.
    pub is_static: bool,
    pub c_type: CType,
    pub count: u64,
    /// The scalars that were stored last, by how many bytes they lie behind the beginning of the object.
    held: IndexMap<u64, Scalar<'a>>,
}

impl<'a> Elements<'a> {
    /// Elements of which none was stored.
    pub fn new(alloc: Global, is_static: bool, c_type: CType, count: u64) -> Elements<'a>
        ensures is_static { result.is_static ≡ is_static }
        ensures c_type { result.c_type ≡ c_type }
        ensures count { result.count ≡ count }
        ensures held { (offset : ℕ) → get nat_eq result.held offset ≡ None }
    {
        Elements {
            is_static,
            c_type,
            count,
            held: IndexMap::new(alloc),
        }
    }

    /// The row that they are.
    pub fn row(&self) -> Row
        ensures { result ≡ record { start = 0; c_type = self.now.c_type; count = self.now.count } }
    {
        Row {
            start: 0,
            c_type: self.c_type,
            count: self.count,
        }
    }

    /// The scalar that was stored last at an offset.
    pub fn held(&self, offset: u64) -> Option<Scalar<'a>>
        ensures { result ≡ get nat_eq self.now.held offset }
    {
        self.held.get(&offset).copied()
    }

    /// Stores a scalar.
    pub fn hold(
        &mut self,
        offset: u64,
        value: Scalar<'a>,
    ) -> Result<(), AllocFailed<(u64, Scalar<'a>)>>
        ensures same { IsUndisturbed self.old self.new }
        ensures held { OnOk result ((other : ℕ) → get nat_eq self.new.held other
            ≡ (if offset == other then Some value.entry else get nat_eq self.old.held other)) }
        ensures err { OnErr result ((other : ℕ) → get nat_eq self.new.held other ≡ get nat_eq self.old.held other) }
    {
        self.held.insert(offset, value)?;
        Ok(())
    }
}

impl<'a> Content<'a> {
    /// The row that an object alone is, or an allocation with a type.
    pub fn row(&self) -> Row
        ensures means { (table : Interned) (content : meaning.Content) → ContentIs table (Some self.now) content
            → row_in table result ≡ meaning_store.row_of content }
        ensures stands { (table : Interned) (content : meaning.Content) → ContentIs table (Some self.now) content → Stands table result.c_type }
        ensures fits { (table : Interned) (content : meaning.Content) → ContentIs table (Some self.now) content
            → Fits (structs_in table) (row_in table result) × HasRoom (structs_in table) (row_in table result) 0 }
    {
        match self {
            Content::Raw(_) => Row::NOTHING,
            Content::Elements(elements) => elements.row(),
        }
    }

    /// A pointer to an allocation with this content, to its first element once it has a type.
    pub(crate) fn to_first(&self, number: u64) -> Scalar<'a>
        ensures means { (table : Interned) (content : meaning.Content) → ContentIs table (Some self.now) content
            → scalar_in table result ≡ pointers.to_first number content }
        ensures stands { (table : Interned) (content : meaning.Content) → ContentIs table (Some self.now) content → ScalarStands table result }
    {
        match self {
            Content::Raw(_) => Scalar::Raw(number),
            Content::Elements(elements) => {
                Scalar::Pointer(Place::first(Name::Heap(number), elements.row()))
            }
        }
    }

    /// Stores a scalar, unless the content has no type yet.
    pub(crate) fn hold(
        &mut self,
        offset: u64,
        value: Scalar<'a>,
    ) -> Result<(), AllocFailed<(u64, Scalar<'a>)>>
        ensures held { OnOk result ((table : Interned) (content : meaning.Content) → ScalarStands table value.entry → ContentIs table (Some self.old) content
            → ContentIs table (Some self.new) (meaning_store.holding offset (scalar_in table value.entry) content)) }
        ensures err { OnErr result ((table : Interned) (content : meaning.Content) → ContentIs table (Some self.old) content
            → ContentIs table (Some self.new) content) }
    {
        if let Content::Elements(elements) = self {
            elements.hold(offset, value)?;
        }
        Ok(())
    }
}
