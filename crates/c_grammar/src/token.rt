// Tokens.

ghost use Rattle.std.specs.Prelude.{◌≡◌};
ghost use Rattle.c_grammar.specs.Leaves.{kind_of_lexeme};

use crate::kind::Kind;
use c_num::IntType;
use run_theory::{ByteString, Pos};

/// What a token is.
#[derive(Debug, Drop)]
pub enum Lexeme {
    /// A word or punctuator of the grammar, which its kind tells whole; a keyword that the language leaves out is
    /// `Kind::Reserved`.
    Fixed(Kind),
    /// A name (C17 6.4.2.1).
    Name(ByteString),
    /// An integer constant (C17 6.4.4.1).
    Integer { value: u64, int_type: IntType },
    /// A character constant: the byte between its quotes, or the one that its escape stands for (C17 6.4.4.4).
    Character(u8),
    /// A literal (C17 6.4.5): the bytes between its quotes, escapes resolved, without the zero at its end. Adjacent
    /// literals are tokens of their own.
    Literal(ByteString),
    /// The end of the text.
    EndOfText,
}

impl Lexeme {
    /// The kind of token that it is in the grammar.
    pub fn kind(&self) -> Kind
        ensures { result ≡ kind_of_lexeme self.now }
    {
        match self {
            Lexeme::Fixed(kind) => *kind,
            Lexeme::Name(_) => Kind::Name,
            Lexeme::Integer { .. } => Kind::Integer,
            Lexeme::Character(_) => Kind::Character,
            Lexeme::Literal(_) => Kind::Literal,
            Lexeme::EndOfText => Kind::End,
        }
    }
}

/// A token, with the bytes `start..end` of the text that spell it and the place of the first.
#[derive(Debug, Drop)]
pub struct Token {
    pub lexeme: Lexeme,
    pub start: usize,
    pub end: usize,
    pub place: Pos,
}
