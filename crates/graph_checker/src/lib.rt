//! What the points of a function ask of its graph, but for calls.
//!
//! What heap graphs ask of formals, of locals in memory, of variables outside functions and of literals.
//!
//! What calls ask of heap graphs: of arguments, of results, of the nodes that escape the function that is called, and of functions to which
//! one call may come.
//!
//! `specs/Calling.antt` says what is decided, in the words of `heap_graph`.
//!
//! Whether the graph of `start` keeps what the first values of variables outside functions ask: `start` stores each into its variable.
//!
//! Whether the targets of a graph are slots of its nodes, and the names that have targets are the program's.
//!
//! `specs/Sound.antt` says what is decided.
//!
//! Whether what a function asks of its group's graph holds, and what its calls ask.
//!
//! Whether the graph of a group of functions, or that of `start`, keeps what is asked of graphs.
//!
//! `specs/Needed.antt` says which nodes a function needs.
//!
//! Whether the graphs of a program are closed, and the first group of which something that is asked doesn't hold.
#![tactic(auto)]

mod asked_calls;
mod call_statics;
mod calls;
mod context;
mod edges;
mod embeddings;
mod faults;
mod first;
mod formals;
mod functions;
mod graphs;
mod held;
mod images;
mod kept;
mod needed;
mod objects;
mod owned;
mod points;
mod program;
mod shared;
mod slotless;
mod slots;
mod sound;
mod sound_objects;
mod statics;
mod values;

pub use asked_calls::is_same_group;
pub use calls::{Called, Caller, inner_call, outer_call};
pub use context::Context;
pub use edges::edges_are_sound;
pub use embeddings::{Escaping, embedding_closed, listed_embedding_closed};
pub use faults::{Fault, closed_fault};
pub use first::first_closed;
pub use formals::formals_closed;
pub use graphs::{group_graph_closed, start_graph_closed};
pub use held::points_to;
pub use objects::locals_closed;
pub use owned::{names_are_own, statics_are_own};
pub use program::{Member, Program};
pub use shared::share_names;
pub use slots::{names_are_slots, statics_are_slots};
pub use statics::{globals_closed, literals_closed};
