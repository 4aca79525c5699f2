//! The command line of `poolcc`: its words, read with `clap`.
//!
//! What a command comes to, and what is said of it: the program's answers, their exit statuses and their lines.
#![tactic(auto)]

mod app;
mod line;
mod lines;
mod matches;
mod status;

pub use c_rules::TypeRule;
pub use line::{Limits, Line, read_line};
pub use lines::say;
pub use status::{FuncName, LexKind, LimitKind, Refusal, Status, SyntaxKind, UsageKind};
