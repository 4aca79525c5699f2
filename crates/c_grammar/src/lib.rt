//! Reading by a table of a grammar.
//!
//! A grammar is a table of rows (`specs/Table.antt`); a reader goes from left to right and looks at two leaves
//! (`specs/Runs.antt`). For a table that keeps the laws of `specs/Laws.antt`, `proofs/Places.antt` shows what such a
//! reader comes to: it reads exactly the trees of the grammar, and a refusal stands at the first leaf that no tree goes
//! on with, or at the first that is nested too deep.
//!
//! The grammar of the language, as a table of rows over the kinds of tokens.
//!
//! `specs/Forms.antt` has the rows, `specs/Chooses.antt` how a reader chooses them, `specs/Language.antt` the table, and
//! `specs/Follows.antt` what begins a tree and what may stand behind it.
//!
//! The tokens of a text, and the kinds of them that the grammar tells apart.
#![tactic(auto)]

mod begins;
mod kind;
mod token;
mod words;

pub use kind::Kind;
pub use run_theory::ByteString;
pub use token::{Lexeme, Token};
pub use words::{Sign, Size, Words};
