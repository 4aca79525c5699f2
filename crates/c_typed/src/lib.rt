//! The types of the language in memory, each once and compared by its number, the layouts of complete object types (C17
//! 6.2.5, 6.2.6.1, 6.2.8, 6.7.2.1), and typed trees.
//!
//! `specs/Types.antt` and `specs/Layouts.antt` say what types and layouts are, and `specs/Table.antt` which type a number
//! stands for. `specs/Typed.antt` has typed trees as plain data, and `specs/Views.antt` leads from those in memory to these.
//!
//! What well typed trees are: the type of each expression in its surroundings, and what a statement, a first value and a program ask of
//! it (C17 6.5 to 6.9).
//!
//! `specs/Expressions.antt` has the types of expressions, `specs/Statements.antt` and `specs/Programs.antt` what is well typed.
//! `proofs/Rows.antt` evaluates them on trees of every form.
//!
//! How many nodes a syntax tree and a typed tree have: what bounds the code of a program by its text.
//!
//! `specs/SyntaxNodes.antt` counts what a program's functions do, `specs/TypedNodes.antt` the same in the typed tree.
//!
//! How deep the expressions of a program nest, in syntax trees and in typed trees: definitions alone.
//!
//! How many arguments the calls of a typed tree have. A crate of definitions alone.
#![tactic(auto)]

mod c_type;
mod definition;
mod extent;
mod part;
mod statement;
mod structure;
mod type_table;
mod typed;

pub use c_type::{CType, Derived, Parameters, Shape, StructId};
pub use definition::{First, FunctionDef, GlobalDef, Held, LiteralDef, Program, Scalar, Static};
pub use part::Part;
pub use run_theory::ByteString;
pub use statement::{BlockItem, ForStart, LocalDef, Stmt, SwitchItem};
pub use structure::{Member, MemberAt, MemberPlace, Step};
pub use type_table::TypeTable;
pub use typed::{Designator, LibraryFunction, Object, Stepping, Value};
