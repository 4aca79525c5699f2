//! Code with pools: three-address code's points over the machine's own memory, with offsets in bytes in place of types, and with the pools
//! of what is allocated.
//!
//! `specs/Code.antt` has the code as plain data, `specs/Views.antt` leads to that from code in memory, and `specs/Meaning.antt` says what
//! it does (`pool_run`).
#![tactic(auto)]

mod number;
mod op;
mod path;
mod program;

pub use number::{Descriptor, KindId, Signature};
pub use op::{Callee, Op};
pub use path::{Base, Path, Slot, Step};
pub use program::{Action, Edge, FrameLayout, FrameObject, Function, PoolCode};
