// What a call answered, as the tables write it.

/// The number that was answered, 1 for `true` and 0 for `false`, or why there is none.
pub(crate) type Answer = Result<u64, &'static str>;

/// The answer of a call that only does something.
pub(crate) const DONE: Answer = Ok(0);
