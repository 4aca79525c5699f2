//! From the units of a program to its image.
//!
//! The image holds each kind of pools once, in the order in which the kinds first stand in the units' list, and
//! `PoolInit` names the kind by its number there.
#![tactic(auto)]

mod kinds;
mod linking;

pub use linking::link;
