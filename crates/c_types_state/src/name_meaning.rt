// What names mean.

ghost use Rattle.std.specs.Prelude.{◌≡◌};
ghost use Rattle.c_rules.specs.Names.{library_named};

use c_typed::{CType, LibraryFunction};

/// What a name means (C17 6.2.1 to 6.2.3).
#[derive(Clone, Copy, Debug, PartialEq, Eq)]
pub enum NameMeaning {
    /// None of its declarations is in scope.
    Nothing,
    /// A local, numbered by how many others were in scope at its declaration, and its type where it has one.
    Local {
        number: usize,
        c_type: Option<CType>,
    },
    /// A variable or function outside functions.
    Outer {
        c_type: Option<CType>,
    },
    /// A library function that the file doesn't declare.
    Library(LibraryFunction),
}

/// The library function of a name.
pub fn library_function(name: &[u8]) -> Option<LibraryFunction>
    ensures { result ≡ library_named name.now }
{
    if name == b"malloc".as_slice() {
        Some(LibraryFunction::Malloc)
    } else if name == b"free".as_slice() {
        Some(LibraryFunction::Free)
    } else if name == b"getchar".as_slice() {
        Some(LibraryFunction::GetChar)
    } else if name == b"putchar".as_slice() {
        Some(LibraryFunction::PutChar)
    } else if name == b"exit".as_slice() {
        Some(LibraryFunction::Exit)
    } else {
        None
    }
}
