// The locals in scope.

ghost use Rattle.std.specs.Prelude.{◌≡◌, ◌↔◌, ◌∷◌, IsTrue, ◌<◌, ◌≤◌, ◌++◌, List, [], OnOk, OnErr, length, drop};
ghost use Rattle.c_types_state.specs.NameTables.{LocalEntry, all_locals, no_locals, local_number, local_type, has_entry};

use c_typed::CType;
use indexmap::IndexMap;
use std::alloc::{AllocError, Global};
use std::marker::Model;

/// A local in scope.
#[derive(Drop)]
struct Local {
    name: Vec<u8>,
    c_type: Option<CType>,
    /// The number of the local that the name meant before.
    hidden: Option<usize>,
}

/// The locals in scope, and which of them a name means (C17 6.2.1).
#[derive(Drop)]
pub(crate) struct Locals {
    alloc: Global,
    /// The number of the local that each name means.
    numbers: IndexMap<Vec<u8>, usize>,
    /// In the order of their declarations.
    locals: Vec<Local>,
    /// How many locals were declared outside of the innermost block.
    outer: usize,
}

impl Model for Locals {
    ghost use Rattle.c_types_state.specs.NameTables.{LocalTable};

    ghost Value = { LocalTable };

    ghost use Rattle.c_types_state.specs.LocalTables.{table_of, IsTable};

    ghost view = { λ table. table_of table.locals.items table.outer };

    ghost invariant = { λ table. IsTable table.numbers table.locals.items table.outer };
}

impl Locals {
    /// The table where no local is in scope.
    pub(crate) fn new(alloc: Global) -> Locals
        ensures { result ≡ no_locals }
    {
        Locals {
            alloc,
            numbers: IndexMap::new(alloc),
            locals: Vec::new(alloc),
            outer: 0,
        }
    }

    /// The number of the local that a name means.
    pub(crate) fn number(&self, name: &[u8]) -> Option<usize>
        ensures { result ≡ local_number (all_locals self.now) name.now }
    {
        self.numbers.get(name).copied()
    }

    /// The type of the local that a name means, where it has one.
    pub(crate) fn c_type(&self, name: &[u8]) -> Option<CType>
        ensures { result ≡ local_type (all_locals self.now) name.now }
    {
        let number = self.number(name)?;
        self.locals[number].c_type
    }

    /// Whether the innermost block has declared a name.
    pub(crate) fn is_declared_in_block(&self, name: &[u8]) -> bool
        ensures { result ≡ has_entry self.now.inner name.now }
    {
        match self.number(name) {
            Some(number) => number >= self.outer,
            None => false,
        }
    }

    /// Declares a local in the innermost block.
    pub(crate) fn declare(&mut self, name: &[u8], c_type: Option<CType>) -> Result<(), AllocError>
        ensures ok { OnOk result (self.new ≡ record self.old { inner = record { name = name.now; c_type = c_type } ∷ self.old.inner }) }
        ensures err { OnErr result (self.new ≡ self.old) }
    {
        let key = Vec::from_slice(self.alloc, name)?;
        let name = Vec::from_slice(self.alloc, name)?;
        self.locals.reserve(1)?;
        let number = self.locals.len();
        let hidden = self.numbers.insert(key, number)?;
        let local = Local {
            name,
            c_type,
            hidden,
        };
        self.locals.push(local).unwrap();
        Ok(())
    }

    /// Enters a block. The number that it returns is for leaving it.
    pub(crate) fn enter(&mut self) -> usize
        ensures scope { self.new ≡ record { inner = []; outer = all_locals self.old } }
        ensures outer { result ≡ length self.old.outer }
    {
        let outer = self.outer;
        self.outer = self.locals.len();
        outer
    }

    /// Leaves the innermost block, whose locals are no longer in scope.
    pub(crate) fn leave(&mut self, outer: usize)
        requires { outer ≤ length self.old.outer }
        ensures { (block around : List LocalEntry) → self.old.outer ≡ block ++ around → length around ≡ outer
            → self.new ≡ record { inner = block; outer = around } }
    {
        while self.has_locals_in_block() {
            self.forget_newest();
        }
        self.outer = outer;
    }

    /// Whether the innermost block has declared a local.
    fn has_locals_in_block(&self) -> bool
        ensures { IsTrue result ↔ (0 < length self.now.inner) }
    {
        self.locals.len() > self.outer
    }

    /// Forgets the newest local, and restores what its name meant before.
    fn forget_newest(&mut self)
        requires { 0 < length self.old.inner }
        ensures { self.new ≡ record self.old { inner = drop 1 self.old.inner } }
    {
        if let Some(local) = self.locals.pop() {
            match local.hidden {
                Some(number) => {
                    if let Some(meant) = self.numbers.get_mut(&local.name) {
                        *meant = number;
                    }
                }
                None => {
                    self.numbers.swap_remove(&local.name);
                }
            }
        }
    }
}
