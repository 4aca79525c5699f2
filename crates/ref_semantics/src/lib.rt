//! What programs of the language mean, with neither pools nor addresses: the reference (C17 5.1.2.3, 6.2.4, 6.5 to 6.9).
//!
//! `specs/Store.antt` has objects and evaluations on them, and `specs/Meaning.antt` one rule for each form of the typed tree.
//!
//! The reference in small steps: what is done next, and what waits for it.
//!
//! `specs/Steps.antt` has the steps, and `proofs/Agreeing.antt` shows that to do a step and then the rest is what is left to do: so
//! a program that makes these steps does what `ref_semantics` says. `laws` says what a reader expects of budgets.
//!
//! The reference keeps types: from a sound state a well typed tree gives a value of its type and a sound state (C17 6.2.6, 6.3, 6.5).
//!
//! `specs/Rows.antt` has the rows and leaves of an object, `specs/Sound.antt` what a value of a type and a sound state are.
#![tactic(auto)]

mod laws;

pub use laws::{a_larger_budget_extends_the_trace, an_end_stays, going_spends_all};
