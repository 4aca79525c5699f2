// Structures with their members.

ghost use Rattle.std.specs.Prelude.{◌≡◌, slice_get, option_map, OnOk};
ghost use Rattle.c_typed.specs.Extents.{extent_layout, IsSmall};

use crate::c_type::{CType, StructId};
use crate::extent::Extent;
use indexmap::IndexMap;
use std::alloc::{AllocError, Global};

/// A member as it is declared: its name, and its type where it has one (C17 6.7.2.1).
#[derive(Drop)]
pub struct Member {
    pub name: Vec<u8>,
    pub c_type: Option<CType>,
}

/// A member that was looked for (C17 6.5.2.3).
#[derive(Clone, Copy, Debug, PartialEq, Eq)]
pub struct MemberAt {
    /// How many members stand before it.
    pub number: u32,
    pub c_type: Option<CType>,
}

/// Where a member stands in its structure (C17 6.7.2.1 paragraph 15).
#[derive(Clone, Copy, Debug, PartialEq, Eq)]
pub struct MemberPlace {
    /// How many bytes stand in front of it.
    pub offset: u64,
    pub c_type: Option<CType>,
}

/// A step from an object to a part of it.
#[derive(Clone, Copy, Debug, PartialEq, Eq)]
pub enum Step {
    /// The member of this number, from 0.
    Member(u32),
    /// The element of this index, from 0.
    Element(u64),
}

/// A member in its place.
#[derive(Drop)]
pub(crate) struct PlacedMember {
    pub(crate) name: Vec<u8>,
    pub(crate) c_type: Option<CType>,
    /// How many slots the members before it have.
    pub(crate) slots_before: u64,
    /// How many bytes stand in front of it.
    pub(crate) offset: u64,
}

/// A structure that is completed (C17 6.7.2.1 paragraph 8).
#[derive(Drop)]
pub(crate) struct Structure {
    pub(crate) id: StructId,
    pub(crate) members: Vec<PlacedMember>,
    /// The number of the first member of each name.
    pub(crate) numbers: IndexMap<Vec<u8>, u32>,
    pub(crate) extent: Extent,
}

impl Structure {
    ghost use Rattle.c_typed.specs.Inside.{AreNumbered, IsFirst, before, Pushes, IsEmpty};

    /// The structure of no members.
    pub(crate) fn new(alloc: Global, id: StructId) -> Structure
        ensures { IsEmpty result id }
    {
        Structure {
            id,
            members: Vec::new(alloc),
            numbers: IndexMap::new(alloc),
            extent: Extent::NOTHING,
        }
    }

    /// Places a member behind the others.
    pub(crate) fn push(
        &mut self,
        alloc: Global,
        member: Member,
        extent: Extent,
    ) -> Result<(), AllocError>
        requires all { IsSmall (extent_layout self.old.extent) }
        requires one { IsSmall (extent_layout extent) }
        ensures { OnOk result (Pushes self.old self.new member extent) }
    {
        let Ok(number) = u32::try_from(self.members.len()) else {
            return Err(AllocError);
        };
        number_name(alloc, &mut self.numbers, &member.name, number)?;
        let placed = PlacedMember {
            name: member.name,
            c_type: member.c_type,
            slots_before: self.extent.slots,
            offset: self.extent.rounded_up(extent.alignment),
        };
        self.members.push(placed)?;
        self.extent = self.extent.followed_by(extent);
        Ok(())
    }

    /// The first member of a name.
    pub(crate) fn member(&self, name: &[u8]) -> Option<MemberAt>
        requires { AreNumbered self.now.numbers self.now.members.items }
        ensures { IsFirst self.now.members.items name.now result }
    {
        let number = *self.numbers.get(name)?;
        Some(MemberAt {
            number,
            c_type: self.members[number as usize].c_type,
        })
    }

    /// How many slots the members before this one have, and its type.
    pub(crate) fn slots_before(&self, number: u32) -> (u64, Option<CType>)
        ensures { result ≡ before (slice_get self.now.members.items number) }
    {
        match self.members.get(number as usize) {
            Some(member) => (member.slots_before, member.c_type),
            None => (0, None),
        }
    }

    /// The type of the member of this number, where there is one and it has a type.
    pub(crate) fn member_type(&self, number: usize) -> Option<Option<CType>>
        ensures { result ≡ option_map (λ member. member.c_type) (slice_get self.now.members.items number) }
    {
        match self.members.get(number) {
            Some(member) => Some(member.c_type),
            None => None,
        }
    }

    /// Where the member of this number stands, where there is one.
    pub(crate) fn member_place(&self, number: usize) -> Option<MemberPlace>
        ensures { result ≡ option_map (λ member. record { offset = member.offset; c_type = member.c_type }) (slice_get self.now.members.items number) }
    {
        match self.members.get(number) {
            Some(member) => Some(MemberPlace {
                offset: member.offset,
                c_type: member.c_type,
            }),
            None => None,
        }
    }
}

ghost use Rattle.c_typed.specs.Inside.{Numbers};

/// Gives a name a number, where it has none.
fn number_name(
    alloc: Global,
    numbers: &mut IndexMap<Vec<u8>, u32>,
    name: &[u8],
    number: u32,
) -> Result<(), AllocError>
    ensures { OnOk result (Numbers numbers.old numbers.new name.now number) }
{
    if numbers.get(name).is_some() {
        return Ok(());
    }
    numbers.insert(Vec::from_slice(alloc, name)?, number)?;
    Ok(())
}
