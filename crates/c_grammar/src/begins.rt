// What the kind of a token begins.

ghost use Rattle.std.specs.Prelude.{◌≡◌};
ghost use Rattle.c_grammar.specs.Kinds.{is};
ghost use Rattle.c_grammar.specs.Chooses.{begins_item};

use crate::kind::Kind;

impl Kind {
    /// Whether it is this kind.
    pub fn is(self, kind: Kind) -> bool
        ensures { result ≡ is self kind }
    {
        self == kind
    }

    /// Whether it begins what stands outside functions.
    pub fn begins_item(self) -> bool
        ensures { result ≡ begins_item self }
    {
        match self {
            Kind::Static => true,
            Kind::Extern => true,
            _ => self.is_type_word(),
        }
    }
}
