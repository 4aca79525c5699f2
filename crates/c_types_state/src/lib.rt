//! What the checker of types holds while it goes through a program: the types, the names in scope and the least violation so
//! far; what is known of an expression; and what the text of a program lists: the tags that it declares, the structures that
//! it completes, the functions that it defines, and its literals (C17 6.2.1, 6.4.5).
//!
//! Operands: expressions for their values, what their types are and how they are converted (C17 6.3).
//!
//! Each function here is one rule of `c_rules`, specs/Operators.antt or specs/Constants.antt, on operands in memory.
#![tactic(auto)]

mod addresses;
mod checker;
pub mod constants;
mod conversions;
mod file_name;
mod known;
mod literals;
mod locals;
mod name_meaning;
mod names;
mod operands;
mod tags;
mod targets;
pub mod types;
mod values;

pub use addresses::{Direction, member_address, moved, retyped};
pub use checker::Checker;
pub use conversions::{converted, fits, integer_as, promoted_value, unconverted};
pub use file_name::FileEntry;
pub use known::{Address, Condition, Known, TypedExpr, read_place};
pub use literals::literals_of;
pub use name_meaning::{NameMeaning, library_function};
pub use names::declared_name;
pub use operands::Operand;
pub use tags::outermost;
pub use targets::{Target, modifiable};
pub use values::{
    as_condition, as_integer, as_scalar, as_value, condition_of, leave_unused, value_from,
};
