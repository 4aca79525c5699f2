//! What operators between two operands, and `?:`, ask of their operands, and what they give (C17 6.5.5 to 6.5.15).
//!
//! Each function here is one rule of `c_rules`, specs/Operators.antt, on operands in memory.
//!
//! Names, elements, members and operators of one operand: what they ask for, and what they give (C17 6.5.1 to 6.5.4).
//!
//! Each function here is one rule of `c_rules`, specs/Operators.antt, on operands in memory.
//!
//! What calls and assignments ask of their parts, and what they give (C17 6.5.2.2, 6.5.16).
//!
//! Each function here is one rule of `c_rules`, specs/Operators.antt, on operands in memory.
//!
//! Expressions, names of types and declarators of the whole language: which type rules they violate, and their typed trees (C17
//! 6.5, 6.7.6, 6.7.7).
#![tactic(auto)]

mod assignments;
mod binary;
mod calls;
mod casts;
mod constants;
mod declarators;
mod derived;
mod expressions;
mod forms;
mod members;
mod names;
mod pass;
mod place;
mod pointers;
mod role;
mod unary;
mod words;

pub use assignments::{assigned_object, assigned_value, assignment, operator_of};
pub use binary::{choice, combined, operand};
pub use calls::{Argument, call, library};
pub use casts::cast_to;
pub use declarators::{declared_type, optional_type};
pub use derived::{constant_value, is_character, is_void, parameter_type};
pub use expressions::expr;
pub use members::{object_member, pointer_member};
pub use names::named;
pub use pass::{NamedType, Pass};
pub use place::place_of;
pub use pointers::{address_of, dereferenced, indexed};
pub use role::LengthRole;
pub use unary::{postfixed, prefixed, size_of};
pub use words::{adds, declared_name, is_void_alone, name_place, optional_name, words_type};
