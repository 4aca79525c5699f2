//! Integer arithmetic of the language: C17 6.2.5, 6.3.1 and 6.5, with the widths of this project's profile.
//!
//! A value of any type is held in an `i128`. `binary`, `negate` and `compare` are the operators of the language,
//! undefined where it is; `wrap_binary`, `wrap_negate` and `complement` are total, as a machine needs them.
#![tactic(auto)]

ghost use Rattle.std.specs.Prelude.{◌≡◌, ◌↔◌, IsTrue, ℤ};
ghost use Rattle.c_num.specs.Types.{width_of, is_signed, IsValue, promoted, common_of};

mod arith;
mod conversion;

pub use arith::{binary, compare, complement, negate, wrap_binary, wrap_negate};
pub use conversion::{convert, value_of_word, word};
use thiserror::Error;

/// An integer type. `char` is signed and has 8 bits, `short` 16, `int` 32 and `long` 64 (C17 6.2.5).
#[derive(Clone, Copy, Debug, PartialEq, Eq)]
pub enum IntType {
    Char,
    UChar,
    Short,
    UShort,
    Int,
    UInt,
    Long,
    ULong,
}

/// A binary operator on integers of one type (C17 6.5.5 to 6.5.7 and 6.5.10 to 6.5.12).
#[derive(Clone, Copy, Debug, PartialEq, Eq)]
pub enum BinOp {
    Add,
    Sub,
    Mul,
    Div,
    Rem,
    Shl,
    Shr,
    And,
    Or,
    Xor,
}

/// A relation between integers (C17 6.5.8 and 6.5.9).
#[derive(Clone, Copy, Debug, PartialEq, Eq)]
pub enum Relation {
    Eq,
    Ne,
    Lt,
    Le,
    Gt,
    Ge,
}

/// Why an operation on integers is undefined.
#[derive(Clone, Copy, Debug, PartialEq, Eq, Error)]
pub enum ArithUb {
    /// A signed result that is no value of its type (C17 6.5 paragraph 5), that of the least value by -1 included.
    #[error("signed overflow")]
    Overflow,
    /// `/` or `%` by zero (C17 6.5.5 paragraph 5).
    #[error("division by zero")]
    DivideByZero,
    /// A shift by a negative amount or by at least the width, or a signed left shift of a negative value or past the
    /// range (C17 6.5.7 paragraphs 3 and 4).
    #[error("bad shift")]
    BadShift,
}

impl IntType {
    /// How many bits a value has, the sign's included.
    pub fn width(self) -> u32
        ensures { result ≡ width_of self }
    {
        match self {
            IntType::Char | IntType::UChar => 8,
            IntType::Short | IntType::UShort => 16,
            IntType::Int | IntType::UInt => 32,
            IntType::Long | IntType::ULong => 64,
        }
    }

    pub fn is_signed(self) -> bool
        ensures { result ≡ is_signed self }
    {
        match self {
            IntType::Char | IntType::Short | IntType::Int | IntType::Long => true,
            IntType::UChar | IntType::UShort | IntType::UInt | IntType::ULong => false,
        }
    }

    /// Whether `v` is a value of the type.
    pub fn contains(self, v: i128) -> bool
        ensures { IsTrue result ↔ IsValue self v }
    {
        convert(v, self) == v
    }
}

/// The type after the integer promotions (C17 6.3.1.1 paragraph 2).
pub fn promote(t: IntType) -> IntType
    ensures value { result ≡ promoted t }
    ensures holds { (z : ℤ) → IsValue t z → IsValue result z }
{
    match t {
        IntType::Char | IntType::UChar | IntType::Short | IntType::UShort => IntType::Int,
        IntType::Int | IntType::UInt | IntType::Long | IntType::ULong => t,
    }
}

/// The type in which an operator on operands of types `a` and `b` works: that of the usual arithmetic conversions, the
/// promotions first (C17 6.3.1.8).
pub fn common(a: IntType, b: IntType) -> IntType
    ensures value { result ≡ common_of a b }
    ensures promoted { promoted result ≡ result }
{
    match (promote(a), promote(b)) {
        (IntType::ULong, _) => IntType::ULong,
        (_, IntType::ULong) => IntType::ULong,
        (IntType::Long, _) => IntType::Long,
        (_, IntType::Long) => IntType::Long,
        (IntType::UInt, _) => IntType::UInt,
        (_, IntType::UInt) => IntType::UInt,
        (_, _) => IntType::Int,
    }
}
