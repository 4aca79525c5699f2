// Names outside functions.

use c_typed::CType;

/// What is known of a name outside functions (C17 6.9.2).
#[derive(Clone, Copy, Debug, PartialEq, Eq)]
pub struct FileEntry {
    /// Its type, where it has one.
    pub c_type: Option<CType>,
    pub has_init: bool,
    pub has_body: bool,
}
