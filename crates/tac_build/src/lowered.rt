// What expressions come to, and what they are needed for.

ghost use Rattle.std.specs.Prelude.{◌≡◌};
ghost use Rattle.c_typed.specs.Table.{Interned};
ghost use Rattle.tac_build.specs.Spots.{is_used, is_followed, is_address, cast_mode, pointed_mode};
ghost use Rattle.tac_build.specs.Building.{lowered_in, integer_of, pointer_in, place_in, mode_of, IsInteger, IsPointer, IsObject};

use c_num::IntType;
use c_typed::CType;
use tac_ir::{Path, Register, Tree};

/// What an expression comes to: an integer of a type is computed by a tree, a pointer to a type lies in a register, and a path leads to
/// an object of a type. Some expressions have no value.
#[derive(Drop)]
pub enum Lowered {
    Integer { int_type: IntType, tree: Box<Tree> },
    Pointer { register: Register, target: CType },
    Object { path: Box<Path>, c_type: CType },
    Nothing,
}

/// An integer of a type.
#[derive(Drop)]
pub struct IntegerValue {
    pub int_type: IntType,
    pub tree: Box<Tree>,
}

/// A pointer to a type.
#[derive(Clone, Copy, Debug, PartialEq, Eq)]
pub struct PointerValue {
    pub register: Register,
    pub target: CType,
}

/// An object of a type.
#[derive(Drop)]
pub struct Place {
    pub path: Box<Path>,
    pub c_type: CType,
}

/// An integer expression has a tree.
pub fn integer(lowered: Lowered) -> IntegerValue
    requires { IsInteger lowered }
    ensures { (table : Interned) → lowered_in table lowered ≡ integer_of result }
{
    match lowered {
        Lowered::Integer { int_type, tree } => IntegerValue { int_type, tree },
        _ => unreachable!(),
    }
}

/// A pointer that is kept lies in a register.
pub fn pointer(lowered: Lowered) -> PointerValue
    requires { IsPointer lowered }
    ensures { (table : Interned) → lowered_in table lowered ≡ pointer_in table result }
{
    match lowered {
        Lowered::Pointer { register, target } => PointerValue { register, target },
        _ => unreachable!(),
    }
}

/// An expression for an object has a path.
pub fn object_of(lowered: Lowered) -> Place
    requires { IsObject lowered }
    ensures { (table : Interned) → lowered_in table lowered ≡ place_in table result }
{
    match lowered {
        Lowered::Object { path, c_type } => Place { path, c_type },
        _ => unreachable!(),
    }
}

/// What a value is needed for: itself, or no value; the object that it points to; or an element of the row into which it points. Where
/// more code follows before an object is used, its path stands in registers that this doesn't write.
#[derive(Clone, Copy, Debug, PartialEq, Eq)]
pub enum Mode {
    Kept,
    Dropped,
    Behind { is_followed: bool },
    Row { is_followed: bool },
}

impl Mode {
    /// Whether a value is needed.
    pub fn is_used(self) -> bool
        ensures { result ≡ is_used (mode_of self) }
    {
        match self {
            Mode::Dropped => false,
            Mode::Kept => true,
            Mode::Behind { .. } => true,
            Mode::Row { .. } => true,
        }
    }

    /// Whether more code follows before the object is used.
    pub fn is_followed(self) -> bool
        ensures { result ≡ is_followed (mode_of self) }
    {
        match self {
            Mode::Kept => false,
            Mode::Dropped => false,
            Mode::Behind { is_followed } => is_followed,
            Mode::Row { is_followed } => is_followed,
        }
    }

    /// Whether an address is kept as a value.
    pub fn is_address(self) -> bool
        ensures { result ≡ is_address (mode_of self) }
    {
        match self {
            Mode::Behind { .. } => false,
            Mode::Kept => true,
            Mode::Dropped => true,
            Mode::Row { .. } => true,
        }
    }

    /// What the operand of a cast is needed for (C17 6.5.4).
    pub fn of_cast(self) -> Mode
        ensures { mode_of result ≡ cast_mode (mode_of self) }
    {
        match self {
            Mode::Dropped => Mode::Dropped,
            Mode::Kept => Mode::Kept,
            Mode::Behind { .. } => Mode::Kept,
            Mode::Row { .. } => Mode::Kept,
        }
    }

    /// What the pointer is needed for in `*p` (C17 6.5.3.2).
    pub fn of_pointer(is_kept: bool, is_followed: bool) -> Mode
        ensures { mode_of result ≡ pointed_mode is_kept is_followed }
    {
        if is_kept {
            Mode::Kept
        } else {
            Mode::Behind { is_followed }
        }
    }
}
