// Paths to objects.

use crate::register::{GlobalId, LiteralId, Local, Register};
use crate::tree::Tree;
use c_typed::CType;

/// Where a path begins.
#[derive(Drop)]
pub enum Base {
    /// A local in memory.
    Local(Local),
    Global(GlobalId),
    Literal(LiteralId),
    /// What a pointer to the type points to (C17 6.5.3.2).
    Pointed {
        pointer: Register,
        target: CType,
    },
    /// The element so many places behind the one that a pointer to the type points to (C17 6.5.2.1).
    Indexed {
        pointer: Register,
        target: CType,
        number: Tree,
    },
}

/// A step from an object to a part of it.
#[derive(Drop)]
pub enum Step {
    /// The member of this number, from 0 (C17 6.5.2.3).
    Member(u32),
    /// The element of an array with this index (C17 6.5.2.1).
    Element(Tree),
}

/// A path to an object, such as `p->a[i].b`.
#[derive(Drop)]
pub struct Path {
    pub base: Base,
    pub steps: Vec<Step>,
}
