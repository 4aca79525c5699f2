//! Code with pools does what three-address code does, while that is defined, or its heap is exhausted. A crate of proofs alone.
#![tactic(auto)]
