//! The checker of the whole language: which type rules a program violates, and its typed tree (C17
//! 6.7 to 6.9).
//!
//! The limits of this project on programs: what each counts, and the first that is exceeded.
#![tactic(auto)]

mod declarations;
mod defined;
mod initializers;
mod items;
mod labels;
mod limits;
mod parameters;
mod program;
mod scalars;
mod scopes;
mod statements;
mod structures;
mod values;

pub use limits::{Limit, LimitErr, check_limits};
pub use parameters::own_parameters;
pub use program::{TypeErr, Typed, check};
pub use scopes::{declare_item, declare_local, enter_body};
