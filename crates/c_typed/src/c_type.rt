// Types by their numbers.

ghost use Rattle.std.specs.Prelude.{◌≡◌};
ghost use Rattle.c_typed.specs.Table.{integer_number};
ghost use Rattle.c_typed.specs.Inside.{is_type_entry};

use c_num::IntType;

/// A type, by its number in a table. The numbers below 9 are those of `void` and of the integer types in every table.
#[derive(Clone, Copy, Debug, PartialEq, Eq, Hash)]
pub struct CType(pub(crate) u32);

/// The types of a function's parameters, by their number in a table.
#[derive(Clone, Copy, Debug, PartialEq, Eq, Hash)]
pub struct Parameters(pub(crate) u32);

/// A structure, by the number of its tag.
#[derive(Clone, Copy, Debug, PartialEq, Eq, Hash)]
pub struct StructId(pub(crate) u32);

/// What a table has: a type that is made of others (C17 6.2.5 paragraph 20), or a list of parameters.
#[derive(Clone, Copy, Debug, PartialEq, Eq, Hash)]
pub enum Derived {
    Pointer(CType),
    Array {
        element: CType,
        length: u64,
    },
    Struct(StructId),
    Function {
        result: CType,
        parameters: Parameters,
    },
    NoParameters,
    Parameter {
        first: CType,
        others: Parameters,
    },
}

impl Derived {
    /// Whether it is a type, not a list of parameters.
    pub(crate) fn is_type(&self) -> bool
        ensures { result ≡ is_type_entry self.now }
    {
        match self {
            Derived::NoParameters => false,
            Derived::Parameter { .. } => false,
            _ => true,
        }
    }
}

/// What a type is (C17 6.2.5).
#[derive(Clone, Copy, Debug, PartialEq, Eq)]
pub enum Shape {
    Void,
    Integer(IntType),
    Pointer(CType),
    Array {
        element: CType,
        length: u64,
    },
    Struct(StructId),
    Function {
        result: CType,
        parameters: Parameters,
    },
}

/// The number of the first type that a table has.
pub(crate) const FIRST_ENTRY: u32 = 9;

impl CType {
    /// The type `void` (C17 6.2.5 paragraph 19).
    pub const VOID: CType = CType(0);

    /// An integer type (C17 6.2.5 paragraphs 4 to 6 and 15).
    pub fn integer(int_type: IntType) -> CType
        ensures { result.0 ≡ integer_number int_type }
    {
        match int_type {
            IntType::Char => CType(1),
            IntType::UChar => CType(2),
            IntType::Short => CType(3),
            IntType::UShort => CType(4),
            IntType::Int => CType(5),
            IntType::UInt => CType(6),
            IntType::Long => CType(7),
            IntType::ULong => CType(8),
        }
    }
}
