// Names and literals.

ghost use Rattle.std.specs.Prelude.{◌≡◌, ◌<◌, length, IfOk};
ghost use Rattle.c_grammar.specs.Leaves.{leaves_of};
ghost use Rattle.c_reader.specs.Steps.{first_bytes, GivesName};

use crate::syntax_err::SyntaxErr;
use crate::token::pass;
use c_grammar::{ByteString, Kind, Lexeme, Token};
use c_syntax::Name;
use std::alloc::{AllocError, Global};

/// A name that was passed, and the tokens behind it.
#[derive(Drop)]
pub struct PassedName<'a> {
    pub name: Name,
    pub rest: &'a [Token],
}

/// The same bytes once more.
pub fn copy(alloc: Global, bytes: &ByteString) -> Result<ByteString, AllocError>
    ensures { IfOk result (λ copy. copy ≡ bytes.now) }
{
    let bytes = Vec::from_slice(alloc, bytes.as_slice())?;
    Ok(ByteString::new(bytes))
}

/// The bytes of the first of the tokens, where it is a name or a literal, else none.
pub fn token_bytes(alloc: Global, tokens: &[Token]) -> Result<ByteString, AllocError>
    ensures { IfOk result (λ bytes. bytes ≡ first_bytes (leaves_of tokens.now)) }
{
    match tokens.first() {
        Some(token) => {
            match &token.lexeme {
                Lexeme::Name(bytes) => copy(alloc, bytes),
                Lexeme::Literal(bytes) => copy(alloc, bytes),
                _ => Ok(ByteString::new(Vec::new(alloc))),
            }
        }
        None => Ok(ByteString::new(Vec::new(alloc))),
    }
}

/// Passes a name, which has to stand at the front.
pub fn pass_name(alloc: Global, tokens: &[Token]) -> Result<PassedName<'_>, SyntaxErr>
    ensures gives { GivesName (leaves_of tokens.now) result }
    ensures shorter { IfOk result (λ passed. length passed.rest.now < length tokens.now) }
{
    let passed = pass(tokens, Kind::Name)?;
    let bytes = token_bytes(alloc, tokens)?;
    Ok(PassedName {
        name: Name {
            bytes,
            place: passed.place,
        },
        rest: passed.rest,
    })
}
