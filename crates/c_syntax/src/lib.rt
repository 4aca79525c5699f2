//! The syntax trees of the whole language.
//!
//! The trees here lie in memory; `specs/Trees.antt` has the same trees as plain data, which grammar and rules speak of,
//! and `specs/Views.antt` the views that lead from these to those.
//!
//! Of `const`, `static` and `extern` nothing stands in a tree, since they change nothing in this language.
#![tactic(auto)]

mod declaration;
mod expr;
mod name;
mod operator;
mod statement;

pub use declaration::{Base, Declaration, Init, InitDeclarator, Item, Member, Program};
pub use expr::{Declarator, Direct, Expr, Parameter, Simple, SimpleKind, Suffix, TypeName};
pub use name::Name;
pub use operator::{AssignOperator, BinaryOperator, PrefixOperator};
pub use run_theory::{ByteString, Pos};
pub use statement::{Block, BlockItem, ForFirst, Stmt, SwitchItem};
