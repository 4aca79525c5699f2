// The words of a type that stand one after another.

ghost use Rattle.std.specs.Prelude.{◌≡◌};
ghost use Rattle.c_grammar.specs.Forms.{with_void, with_char, with_size, with_int, with_sign, with_word, is_type};

use crate::kind::Kind;

/// Which word of sign stands already.
#[derive(Clone, Copy, Debug, PartialEq, Eq)]
pub enum Sign {
    /// None.
    NoSign,
    /// `signed`
    IsSigned,
    /// `unsigned`
    IsUnsigned,
}

/// Which word of size stands already.
#[derive(Clone, Copy, Debug, PartialEq, Eq)]
pub enum Size {
    /// None.
    NoSize,
    /// `char`
    CharSize,
    /// `short`
    ShortSize,
    /// `long`
    LongSize,
}

/// Which words of a type stand already (C17 6.7.2 paragraph 2).
#[derive(Clone, Copy, Debug, PartialEq, Eq)]
pub enum Words {
    /// None, but perhaps `const`.
    NoWord,
    /// `void` or a struct, to which no word can be added.
    FullType,
    /// Words of an integer type.
    Integers {
        sign: Sign,
        size: Size,
        has_int: bool,
    },
}

impl Words {
    /// The words with one more; none where it may not stand among them. `struct` is no such word.
    pub fn with(self, word: Kind) -> Option<Words>
        ensures { result ≡ with_word word self }
    {
        match word {
            Kind::Const => Some(self),
            Kind::Void => self.with_void(),
            Kind::Char => self.with_char(),
            Kind::Short => self.with_size(Size::ShortSize),
            Kind::Long => self.with_size(Size::LongSize),
            Kind::Int => self.with_int(),
            Kind::Signed => self.with_sign(Sign::IsSigned),
            Kind::Unsigned => self.with_sign(Sign::IsUnsigned),
            _ => None,
        }
    }

    fn with_void(self) -> Option<Words>
        ensures { result ≡ with_void self }
    {
        match self {
            Words::NoWord => Some(Words::FullType),
            Words::FullType => None,
            Words::Integers { .. } => None,
        }
    }

    fn with_char(self) -> Option<Words>
        ensures { result ≡ with_char self }
    {
        match self {
            Words::NoWord => Some(Words::Integers {
                sign: Sign::NoSign,
                size: Size::CharSize,
                has_int: false,
            }),
            Words::Integers {
                sign,
                size: Size::NoSize,
                has_int: false,
            } => Some(Words::Integers {
                sign,
                size: Size::CharSize,
                has_int: false,
            }),
            _ => None,
        }
    }

    fn with_size(self, size: Size) -> Option<Words>
        ensures { result ≡ with_size size self }
    {
        match self {
            Words::NoWord => Some(Words::Integers {
                sign: Sign::NoSign,
                size,
                has_int: false,
            }),
            Words::Integers {
                sign,
                size: Size::NoSize,
                has_int,
            } => Some(Words::Integers {
                sign,
                size,
                has_int,
            }),
            _ => None,
        }
    }

    fn with_int(self) -> Option<Words>
        ensures { result ≡ with_int self }
    {
        match self {
            Words::NoWord => Some(Words::Integers {
                sign: Sign::NoSign,
                size: Size::NoSize,
                has_int: true,
            }),
            Words::Integers {
                sign,
                size: Size::NoSize,
                has_int: false,
            } => Some(Words::Integers {
                sign,
                size: Size::NoSize,
                has_int: true,
            }),
            Words::Integers {
                sign,
                size: Size::ShortSize,
                has_int: false,
            } => Some(Words::Integers {
                sign,
                size: Size::ShortSize,
                has_int: true,
            }),
            Words::Integers {
                sign,
                size: Size::LongSize,
                has_int: false,
            } => Some(Words::Integers {
                sign,
                size: Size::LongSize,
                has_int: true,
            }),
            _ => None,
        }
    }

    fn with_sign(self, sign: Sign) -> Option<Words>
        ensures { result ≡ with_sign sign self }
    {
        match self {
            Words::NoWord => Some(Words::Integers {
                sign,
                size: Size::NoSize,
                has_int: false,
            }),
            Words::Integers {
                sign: Sign::NoSign,
                size,
                has_int,
            } => Some(Words::Integers {
                sign,
                size,
                has_int,
            }),
            _ => None,
        }
    }

    /// Whether they name a type.
    pub fn name_a_type(self) -> bool
        ensures { result ≡ is_type self }
    {
        match self {
            Words::NoWord => false,
            Words::FullType => true,
            Words::Integers { .. } => true,
        }
    }
}
