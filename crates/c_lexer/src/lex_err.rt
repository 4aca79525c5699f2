// Why a text has no tokens.

use run_theory::Pos;
use thiserror::Error;

/// Why a text has no tokens. Each refusal holds the place where the token, the comment or the `#` begins, or where the
/// byte stands that begins none.
#[derive(Debug, Drop, Error)]
pub enum LexErr {
    /// The byte begins no token.
    #[error("a byte that begins no token")]
    BadByte(Pos),
    /// A number that is no integer constant or fits no type, a character constant of another length than one, or a bad
    /// escape.
    #[error("a bad constant")]
    BadLiteral(Pos),
    /// A comment, or a literal or character constant that isn't closed on its line.
    #[error("a comment or constant that isn't closed")]
    Unclosed(Pos),
    /// A directive that isn't accepted.
    #[error("a directive that isn't accepted")]
    BadDirective(Pos),
    /// A name of more than 255 bytes.
    #[error("a name that is too long")]
    NameTooLong(Pos),
    #[error("out of memory")]
    OutOfMemory,
}
