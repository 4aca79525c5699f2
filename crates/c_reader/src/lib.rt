//! Steps of the reader over single tokens: names, the words and stars of types, and which row of the grammar stands next.
//!
//! Reads the tokens of expressions, of the names of types and of declarators into their syntax trees (C17 6.5, 6.7.6, 6.7.7).
//!
//! Reads the tokens of declarations and statements into their syntax trees (C17 6.7, 6.8).
//!
//! Reads the tokens of a program into its syntax tree (C17 6.5, 6.7, 6.8, 6.9).
#![tactic(auto)]

mod choice;
mod declaration;
mod declarator;
mod expr;
mod following;
mod item;
mod name;
mod operand;
mod part;
mod program;
mod second;
mod stars;
mod statement;
mod syntax_err;
mod term;
mod token;
mod words;

pub use choice::{
    First, Joining, Next, Wrapping, assign_operator, binary_operator, first_of, next_at,
    prefix_operator,
};
pub use declaration::{read_declarators, read_first_value};
pub use declarator::{read_declarator, read_simple};
pub use expr::read_expr;
pub use name::{PassedName, copy, pass_name, token_bytes};
pub use part::{Part, has_room};
pub use program::read;
pub use second::{DirectRow, SizeofRow, direct_row, sizeof_row};
pub use stars::{Stars, read_after_star, read_stars};
pub use statement::read_block_items;
pub use syntax_err::SyntaxErr;
pub use term::LOOSEST;
pub use token::{
    Passed, Read, first_kind, first_place, pass, room_behind, room_below, second_kind,
};
pub use words::{PassedWords, pass_words, words_type};
