// The graphs of the groups before.

use crate::copies::Copies;
use crate::live::LiveTargets;
use crate::told_statics::GroupStatics;
use call_graph::{Groups, SharedLists};
use heap_graph::{Crossing, FrozenGraph, FunctionGraph};
use indexmap::IndexMap;
use tac_ir::Tac;

/// The graphs of the groups so far, by the numbers of the groups; what they tell of functions, and which nodes escape each function, by the
/// numbers of the functions. Where nothing escapes a function, a call to it needs no copies.
#[derive(Clone, Copy)]
pub struct Before<'a> {
    pub tac: &'a Tac,
    pub groups: &'a Groups,
    pub graphs: &'a [FrozenGraph],
    pub functions: &'a [FunctionGraph],
    pub escaping: &'a SharedLists,
    pub live: &'a LiveTargets,
    /// What the graphs tell of variables outside functions and literals, by the numbers of the groups.
    pub statics: &'a [GroupStatics],
}

/// The calls out of a group that were joined: the copies, by the places of the owners, and the groups of the functions that are called, each
/// once.
#[derive(Drop)]
pub struct JoinedCalls {
    pub crossings: Vec<Crossings>,
    pub bases: Vec<usize>,
}

/// The copies at the calls that one function makes to functions of other groups.
#[derive(Drop)]
pub struct Crossings {
    pub copies: IndexMap<Crossing, Copies>,
    /// No copies with this number or a greater one have targets.
    pub next: usize,
}
