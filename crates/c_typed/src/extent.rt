// The arithmetic of layouts.

ghost use Rattle.std.specs.Prelude.{◌≡◌, ◌≤◌, ◌+◌, ◌*◌};
ghost use Rattle.c_typed.specs.Layouts as spec;
ghost use Rattle.c_typed.specs.Extents.{extent_layout, IsSmall};

/// Where a size or a number of slots ends, 2 to the 62nd.
const GREATEST: u64 = 1 << 62;

/// The size, the alignment and the number of slots of an object (C17 6.2.6.1, 6.2.8).
#[derive(Clone, Copy, Debug, PartialEq, Eq)]
pub(crate) struct Extent {
    pub(crate) size: u64,
    pub(crate) alignment: u64,
    pub(crate) slots: u64,
}

impl Extent {
    /// That of nothing.
    pub(crate) const NOTHING: Extent = Extent {
        size: 0,
        alignment: 1,
        slots: 0,
    };

    /// That of a scalar, which is aligned to its size.
    pub(crate) fn scalar(size: u64) -> Extent
        ensures { extent_layout result ≡ record { size = size; alignment = size; slots = 1 } }
    {
        Extent {
            size,
            alignment: size,
            slots: 1,
        }
    }

    /// That of an array (C17 6.5.3.4 paragraph 4).
    pub(crate) fn repeated(self, length: u64) -> Extent
        requires { IsSmall (extent_layout self) }
        ensures { extent_layout result ≡ record { size = spec.saturated (self.size * length); alignment = self.alignment; slots = self.slots } }
    {
        let size = u128::from(self.size) * u128::from(length);
        Extent {
            size: size.min(u128::from(GREATEST)) as u64,
            ..self
        }
    }

    /// That of the members so far with one more behind them (C17 6.7.2.1 paragraphs 14 and 15).
    pub(crate) fn followed_by(self, member: Extent) -> Extent
        requires all { IsSmall (extent_layout self) }
        requires one { IsSmall (extent_layout member) }
        ensures { extent_layout result ≡ spec.behind (extent_layout self) (extent_layout member) }
    {
        Extent {
            size: saturated_sum(self.rounded_up(member.alignment), member.size),
            alignment: self.alignment.max(member.alignment),
            slots: saturated_sum(self.slots, member.slots),
        }
    }

    /// That of a structure with all its members (C17 6.7.2.1 paragraph 17).
    pub(crate) fn closed(self) -> Extent
        requires { IsSmall (extent_layout self) }
        ensures { extent_layout result ≡ record (extent_layout self) { size = spec.saturated (spec.aligned self.alignment self.size) } }
    {
        Extent {
            size: self.rounded_up(self.alignment),
            ..self
        }
    }

    /// The size, rounded up to an alignment (C17 6.2.8 paragraph 1).
    pub(crate) fn rounded_up(self, alignment: u64) -> u64
        requires small { IsSmall (extent_layout self) }
        requires least { 1 ≤ alignment }
        requires greatest { alignment ≤ 8 }
        ensures { result ≡ spec.saturated (spec.aligned alignment self.size) }
    {
        let rounded = (self.size + alignment - 1) / alignment * alignment;
        rounded.min(GREATEST)
    }
}

/// The sum of two sizes or numbers of slots.
pub(crate) fn saturated_sum(a: u64, b: u64) -> u64
    requires a { a ≤ spec.greatest }
    requires b { b ≤ spec.greatest }
    ensures { result ≡ spec.saturated (a + b) }
{
    (a + b).min(GREATEST)
}
