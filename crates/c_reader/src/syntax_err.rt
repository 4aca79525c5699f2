// Why tokens are no program.

ghost use Rattle.std.specs.Prelude.{◌≡◌};
ghost use Rattle.c_reader.specs.declared.syntax_err.SyntaxErr.TheVariants.{OutOfMemory};

use run_theory::Pos;
use std::alloc::{AllocError, AllocFailed};
use thiserror::Error;

/// Why tokens are no program.
#[derive(Debug, Drop, Error)]
pub enum SyntaxErr {
    /// The tokens before the one at this place begin a program, and those through it begin none.
    #[error("a token that doesn't fit")]
    At(Pos),
    /// The same, where the token would fit if nesting had no limit.
    #[error("nesting too deep")]
    TooDeep(Pos),
    #[error("out of memory")]
    OutOfMemory,
}

impl From<AllocError> for SyntaxErr {
    ghost from_gives = { λ _ e. e ≡ OutOfMemory };

    fn from(_failed: AllocError) -> SyntaxErr {
        SyntaxErr::OutOfMemory
    }
}

impl<T: Drop> From<AllocFailed<T>> for SyntaxErr {
    ghost from_gives = { λ _ e. e ≡ OutOfMemory };

    fn from(_failed: AllocFailed<T>) -> SyntaxErr {
        SyntaxErr::OutOfMemory
    }
}
