// What the ends of runs name: kinds of undefined behaviour, kinds of traps.

ghost use Rattle.std.specs.Prelude.{◌≡◌, Some};

use std::fmt;

/// A kind of undefined behaviour, as it is printed.
#[derive(Clone, Copy, Debug, PartialEq, Eq, PartialOrd, Ord)]
pub enum UbKind {
    /// Signed overflow, or the least value divided by -1 (C17 6.5 paragraph 5, 6.5.5).
    U01,
    /// A zero divisor (C17 6.5.5).
    U02,
    /// A bad shift (C17 6.5.7).
    U03,
    /// An indeterminate value read as an operand (C17 6.3.2.1, 6.7.9; stricter than C).
    U04,
    /// Access through null (C17 6.5.3.2).
    U05,
    /// Use of a pointer to a dead object, other than copying or freeing it (C17 6.2.4).
    U06,
    /// Access past the end of its array (C17 6.5.6).
    U07,
    /// Pointer arithmetic that leaves its array (C17 6.5.6).
    U08,
    /// A bad comparison of pointers (C17 6.5.8, 6.5.9; stricter than C).
    U09,
    /// A bad subtraction of pointers (C17 6.5.6).
    U10,
    /// A bad `free`, of a dead object too (C17 7.22.3.3).
    U11,
    /// A bad conversion of a pointer (C17 6.3.2.3, 6.5).
    U12,
    /// The size of the element type doesn't divide the raw length (this project's own).
    U13,
    /// A call through a pointer to a function of another type (C17 6.5.2.2).
    U14,
    /// A call through null (C17 6.5.2.2).
    U15,
    /// The value of a call whose function ended without `return` is used (C17 6.9.1).
    U16,
    /// Pointer arithmetic on null (C17 6.5.6).
    U17,
}

impl UbKind {
    ghost use Rattle.run_theory.specs.Names.{undefined_name};

    /// The kind as it is printed, from `U01` to `U17`.
    pub fn name(self) -> &'static str
        ensures { result.now ≡ undefined_name self }
    {
        match self {
            UbKind::U01 => "U01",
            UbKind::U02 => "U02",
            UbKind::U03 => "U03",
            UbKind::U04 => "U04",
            UbKind::U05 => "U05",
            UbKind::U06 => "U06",
            UbKind::U07 => "U07",
            UbKind::U08 => "U08",
            UbKind::U09 => "U09",
            UbKind::U10 => "U10",
            UbKind::U11 => "U11",
            UbKind::U12 => "U12",
            UbKind::U13 => "U13",
            UbKind::U14 => "U14",
            UbKind::U15 => "U15",
            UbKind::U16 => "U16",
            UbKind::U17 => "U17",
        }
    }
}

impl fmt::Display for UbKind {
    ghost use Rattle.run_theory.specs.Names.{undefined_name};

    ghost output = { λ kind. Some (undefined_name kind) };

    fn fmt<W: fmt::Write>(&self, f: &mut fmt::Formatter<W>) -> fmt::Result {
        f.write_str(self.name())
    }
}

/// Why the machine trapped.
#[derive(Clone, Copy, Debug, PartialEq, Eq)]
pub enum TrapKind {
    /// An access outside the globals, one living frame, and one live cell or object.
    BadAccess,
    /// A pool instruction on a pool that doesn't live.
    BadPool,
    /// A free of what isn't the start of a live cell or object of the pool.
    BadFree,
    /// An allocation of another size than the pool's cells hold.
    BadSize,
    /// An indirect call of no function, or of one with another signature.
    BadCall,
    /// An operand is missing.
    StackEmpty,
    /// An operand is pushed above the function's height.
    StackFull,
    /// The instruction `trap` was reached.
    Reached,
}

impl TrapKind {
    ghost use Rattle.run_theory.specs.Names.{trap_name};

    /// The kind as it is printed.
    pub fn name(self) -> &'static str
        ensures { result.now ≡ trap_name self }
    {
        match self {
            TrapKind::BadAccess => "BadAccess",
            TrapKind::BadPool => "BadPool",
            TrapKind::BadFree => "BadFree",
            TrapKind::BadSize => "BadSize",
            TrapKind::BadCall => "BadCall",
            TrapKind::StackEmpty => "StackEmpty",
            TrapKind::StackFull => "StackFull",
            TrapKind::Reached => "Reached",
        }
    }
}

impl fmt::Display for TrapKind {
    ghost use Rattle.run_theory.specs.Names.{trap_name};

    ghost output = { λ kind. Some (trap_name kind) };

    fn fmt<W: fmt::Write>(&self, f: &mut fmt::Formatter<W>) -> fmt::Result {
        f.write_str(self.name())
    }
}
