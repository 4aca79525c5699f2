// Violations of type rules.

ghost use Rattle.std.specs.Prelude.{◌≡◌};
ghost use Rattle.c_rules.specs.Known.{is_before, rule_number};

use crate::rule::TypeRule;
use run_theory::Pos;

/// A type rule, and where it is violated.
#[derive(Clone, Copy, Debug, PartialEq, Eq)]
pub struct Violation {
    pub kind: TypeRule,
    pub place: Pos,
}

impl Violation {
    ghost use Rattle.c_rules.specs.Known.{comes_first};

    /// Whether its place comes first, or at one place its rule.
    pub fn comes_first(self, other: Violation) -> bool
        ensures { result ≡ comes_first self other }
    {
        is_before(self.place, other.place)
            || (self.place == other.place && number(self.kind) <= number(other.kind))
    }
}

/// Whether a place comes before another.
pub fn is_before(a: Pos, b: Pos) -> bool
    ensures { result ≡ is_before a b }
{
    a.line < b.line || (a.line == b.line && a.column < b.column)
}

/// The number of a rule, from 1 to 24.
fn number(rule: TypeRule) -> u32
    ensures { result ≡ rule_number rule }
{
    match rule {
        TypeRule::T01 => 1,
        TypeRule::T02 => 2,
        TypeRule::T03 => 3,
        TypeRule::T04 => 4,
        TypeRule::T05 => 5,
        TypeRule::T06 => 6,
        TypeRule::T07 => 7,
        TypeRule::T08 => 8,
        TypeRule::T09 => 9,
        TypeRule::T10 => 10,
        TypeRule::T11 => 11,
        TypeRule::T12 => 12,
        TypeRule::T13 => 13,
        TypeRule::T14 => 14,
        TypeRule::T15 => 15,
        TypeRule::T16 => 16,
        TypeRule::T17 => 17,
        TypeRule::T18 => 18,
        TypeRule::T19 => 19,
        TypeRule::T20 => 20,
        TypeRule::T21 => 21,
        TypeRule::T22 => 22,
        TypeRule::T23 => 23,
        TypeRule::T24 => 24,
    }
}
