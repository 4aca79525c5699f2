// Places in a source.

ghost use Rattle.std.specs.Prelude.{◌≡◌, ◌+◌, ◌^◌, ◌<◌, Some};

use std::fmt;

/// A place in a source: line and column, both counted from 1, columns in bytes.
#[derive(Clone, Copy, Debug, PartialEq, Eq, PartialOrd, Ord, Hash)]
pub struct Pos {
    pub line: u32,
    pub column: u32,
}

impl Pos {
    ghost use Rattle.run_theory.specs.Places.{first_place, place_after};

    /// The place of a source's first byte, 1:1.
    pub fn start() -> Pos
        ensures { result ≡ first_place }
    {
        Pos { line: 1, column: 1 }
    }

    /// The place behind `byte`, where `byte` stands at this place. A newline ends its line (C17 5.2.1 paragraph 3).
    pub fn after(self, byte: u8) -> Pos
        requires line_room { self.line + 1 < 2 ^ 32 }
        requires column_room { self.column + 1 < 2 ^ 32 }
        ensures { result ≡ place_after self byte }
    {
        if byte == b'\n' {
            Pos {
                line: self.line + 1,
                column: 1,
            }
        } else {
            Pos {
                line: self.line,
                column: self.column + 1,
            }
        }
    }
}

/// As `12:5`, the line first.
impl fmt::Display for Pos {
    ghost use Rattle.run_theory.specs.Places.{place_text};

    ghost output = { λ place. Some (place_text place) };

    fn fmt<W: fmt::Write>(&self, f: &mut fmt::Formatter<W>) -> fmt::Result {
        write!(f, "{}:{}", self.line, self.column)
    }
}
