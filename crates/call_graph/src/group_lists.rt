// Groups of functions in memory.

use crate::class_table::Classes;
use tac_ir::FunctionId;

/// The functions of a program by groups, callees first.
#[derive(Drop)]
pub struct Groups {
    /// The functions of each group, in the order of the text.
    pub members: Vec<Vec<FunctionId>>,
    /// The number of each function's group.
    pub group_of: Vec<usize>,
    /// What tells the functions that a call may reach.
    pub classes: Classes,
}
