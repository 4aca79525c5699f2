// What of a text has labels.

ghost use Rattle.std.specs.Prelude.{◌≡◌, ◌++◌, ◌≤◌, [], ◌∷◌, length, List, OnOk};
ghost use Rattle.c_rules.specs.Names.{LocalName, entered};
ghost use Rattle.c_types_state.specs.NameTables.{no_state};
ghost use Rattle.graph_text.specs.Adding.{mark_of, scope_at, Adds};

use c_types_expressions::Pass;
use std::alloc::{AllocError, Global};

/// What of a text has a label: a local, by its name; a call, which gives a pointer or not; or an argument of a call, which is for a pointer
/// or not. What stands in `sizeof` isn't done (C17 6.5.3.4 paragraph 2).
#[derive(Drop)]
pub enum Mark {
    Local(Vec<u8>),
    Call { is_done: bool, is_pointer: bool },
    Argument { is_done: bool, is_pointer: bool },
}

/// A pass over a text, and what was found in a function so far.
#[derive(Drop)]
pub(crate) struct Marker {
    pub(crate) pass: Pass,
    pub(crate) marks: Vec<Mark>,
}

impl Marker {
    /// Before a program.
    pub(crate) fn new(alloc: Global) -> Marker
        ensures state { result.pass.checker ≡ no_state }
        ensures marks { result.marks.items ≡ [] }
    {
        Marker {
            pass: Pass::new(alloc),
            marks: Vec::new(alloc),
        }
    }

    /// Adds a mark.
    pub(crate) fn add(&mut self, mark: Mark) -> Result<(), AllocError>
        ensures scope { OnOk result (scope_at self.new ≡ scope_at self.old) }
        ensures marks { OnOk result (Adds (mark_of mark ∷ []) self.old self.new) }
    {
        self.marks.push(mark)?;
        Ok(())
    }

    /// Enters a block. The number that it returns is for leaving it.
    pub(crate) fn enter(&mut self) -> usize
        ensures scope { scope_at self.new ≡ entered (scope_at self.old) }
        ensures marks { self.new.marks ≡ self.old.marks }
        ensures outer { result ≡ length (scope_at self.old).outer }
    {
        self.pass.checker.enter()
    }

    /// Leaves the innermost block.
    pub(crate) fn leave(&mut self, outer: usize)
        requires { outer ≤ length (scope_at self.old).outer }
        ensures scope { (block around : List LocalName) → (scope_at self.old).outer ≡ block ++ around → length around ≡ outer
            → scope_at self.new ≡ record (scope_at self.old) { inner = block; outer = around } }
        ensures marks { self.new.marks ≡ self.old.marks }
    {
        self.pass.checker.leave(outer);
    }
}
