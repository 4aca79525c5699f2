//! Copies of the nodes that escape a function that is called, in the graph of its caller while that is made.
//!
//! `specs/Copied.antt` says when nodes are copied.
//!
//! Calls out of a group of functions, in a heap graph that is being made: what is passed and given is joined with the copies of the callee's
//! nodes, and so are variables outside functions and literals.
//!
//! `specs/Crossed.antt` says what holds of the graph afterwards.
//!
//! The variables outside functions and the literals of which the heap graphs of groups tell: what a group's own functions mention, and what
//! the graphs of the groups tell whose functions these call.
//!
//! `specs/Groups.antt` says what is known of them.
//!
//! From the graph of a group that was made to the one that is only read, with the names of the group's functions.
//!
//! `specs/Kept.antt` says what is kept of the graph that was made.
//!
//! All calls out of a group of functions, in the heap graph of the group while that is made: the nodes that escape the functions that are
//! called are copied, and the calls are joined with the copies.
//!
//! `specs/Before.antt` says what is known of the groups before, and `specs/Crossings.antt` what holds of the graph afterwards.
//!
//! How many nodes the graph of a group has before any of them are merged.
//!
//! `specs/Counting.antt` says what counts.
#![tactic(auto)]

mod arguments;
mod before;
mod callee_copies;
mod chosen;
mod complete;
mod copies;
mod crossed;
mod crossing;
mod crossing_telling;
mod edges;
mod first_values;
mod freezing;
mod group;
mod groups;
mod joined;
mod live;
mod marks;
mod mentions;
mod names;
mod nodes;
mod outside;
mod own;
mod representatives;
mod search;
mod statics;
mod sums;
mod tally;
mod telling;
mod told_statics;

pub use before::{Before, Crossings, JoinedCalls};
pub use callee_copies::frozen_copies;
pub use copies::{Copies, copy_escaping};
pub use crossed::{Crossed, join_call, join_statics};
pub use freezing::frozen_crossings;
pub use group::{Frozen, freeze_group};
pub use groups::{group_count, start_count};
pub use live::LiveTargets;
pub use search::tell_group;
pub use telling::tell_copies;
pub use told_statics::{GroupStatics, Statics};
