// Addresses that are known before the program runs (C17 6.6 paragraph 9).

ghost use Rattle.std.specs.Prelude.{◌≡◌, pos, ◌+ℤ◌, IfOk};
ghost use Rattle.c_typed.specs.Table.{Interned, Stands, type_in};
ghost use Rattle.c_rules.specs.Known as known;
ghost use Rattle.c_typed.specs.Types as types;
ghost use Rattle.c_rules.specs.Constants as spec;
ghost use Rattle.c_types_state.specs.Finding.{AddressStands, address_in};
ghost use Rattle.c_types_state.specs.NameTables.{scope_of};
ghost use Rattle.c_types_state.specs.Operands.{directed};
ghost use Rattle.c_types_state.specs.Directions.{directed_number};
ghost use Rattle.c_types_state.specs.Promises.{IsRetyped};

use crate::checker::Checker;
use crate::known::Address;
use c_rules::Constness;
use c_typed::{CType, Part, Shape};
use std::alloc::AllocError;

/// Whether a number is added or subtracted.
#[derive(Clone, Copy, Debug, PartialEq, Eq)]
pub enum Direction {
    Forward,
    Back,
}

/// The index of an element so many behind or in front of another, where it lies within the row or at its end.
fn index_within(count: u64, index: u64, direction: Direction, number: i128) -> Option<u64>
    ensures { result ≡ spec.index_within count (pos index +ℤ directed_number direction number) }
{
    let from = i128::from(index);
    let to = match direction {
        Direction::Forward => from.checked_add(number)?,
        Direction::Back => from.checked_sub(number)?,
    };
    if 0 <= to && to <= i128::from(count) {
        Some(to as u64)
    } else {
        None
    }
}

/// A pointer to which a number is added, or from which it is subtracted (C17 6.5.6 paragraph 8).
pub fn moved(address: Address, direction: Direction, number: Constness) -> Address
    ensures stands { (table : Interned) → AddressStands table address → AddressStands table result }
    ensures moved { (table : Interned) → address_in table result ≡ spec.moved (address_in table address) (directed direction number) }
{
    match (address, number) {
        (Address::Unknown, _) => Address::Unknown,
        (_, Constness::NotConstant) => Address::Unknown,
        (
            Address::Element {
                root,
                parts,
                c_type,
                count,
                index,
            },
            Constness::Constant(number),
        ) => match index_within(count, index, direction, number) {
            Some(index) => Address::Element {
                root,
                parts,
                c_type,
                count,
                index,
            },
            None => Address::Outside,
        },
        (_, _) => Address::Outside,
    }
}

/// A member of the object at an address (C17 6.5.2.3).
pub fn member_address(address: Address, number: u32, c_type: CType) -> Result<Address, AllocError>
    ensures stands { IfOk result (λ r. (table : Interned) → Stands table c_type → AddressStands table r) }
    ensures member { IfOk result (λ r. (table : Interned) → address_in table r ≡ spec.member_address (address_in table address) number (type_in table c_type)) }
{
    match address {
        Address::Unknown => Ok(Address::Unknown),
        Address::Element {
            root,
            mut parts,
            count,
            index,
            ..
        } if index < count => {
            parts.push(Part::Member { index, number })?;
            Ok(Address::Element {
                root,
                parts,
                c_type,
                count: 1,
                index: 0,
            })
        }
        _ => Ok(Address::Outside),
    }
}

/// The address of the first element of an array at an address (C17 6.3.2.1 paragraph 3).
pub fn first_element(checker: &Checker, address: Address) -> Result<Address, AllocError>
    requires { AddressStands checker.now.table address }
    ensures stands { IfOk result (AddressStands checker.now.table) }
    ensures first { IfOk result (λ r. address_in checker.now.table r ≡ known.first_element (address_in checker.now.table address)) }
{
    match address {
        Address::Unknown => Ok(Address::Unknown),
        Address::Element {
            root,
            mut parts,
            c_type,
            count,
            index,
        } => match checker.shape(c_type) {
            Shape::Array { element, length } if index < count => {
                parts.push(Part::Elements { index })?;
                Ok(Address::Element {
                    root,
                    parts,
                    c_type: element,
                    count: length,
                    index: 0,
                })
            }
            _ => Ok(Address::Outside),
        },
        _ => Ok(Address::Outside),
    }
}

/// Whether a target is treated as `void`.
fn is_like_void(checker: &Checker, target: CType) -> bool
    requires { Stands checker.now.table target }
    ensures { result ≡ types.is_like_void (scope_of checker.now).completed (type_in checker.now.table target) }
{
    match checker.shape(target) {
        Shape::Void => true,
        Shape::Struct(id) => !checker.completes(id),
        _ => false,
    }
}

/// A pointer's value, converted to a pointer to another type.
pub fn retyped(checker: &Checker, target: CType, address: Address) -> Address
    requires target { Stands checker.now.table target }
    requires address { AddressStands checker.now.table address }
    ensures stands { AddressStands checker.now.table result }
    ensures retyped { IsRetyped checker.now target address result }
{
    match &address {
        Address::Element { c_type, .. } => {
            if is_like_void(checker, target) || checker.same(*c_type, target) {
                address
            } else {
                Address::Outside
            }
        }
        _ => address,
    }
}
