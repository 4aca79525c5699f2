// Which names have nodes that became certain. No proof speaks of it.

use crate::name::Name;
use indexmap::IndexMap;
use std::alloc::{AllocError, Global};

/// Cells whose nodes became certain, and the names for which cells were made.
#[derive(Drop)]
pub(crate) struct Hints {
    /// A cell stands here at most once. There is room for all cells.
    certain: Vec<usize>,
    names: IndexMap<usize, Name>,
}

impl Hints {
    /// No hints.
    pub(crate) fn new(alloc: Global) -> Hints {
        Hints {
            certain: Vec::new(alloc),
            names: IndexMap::new(alloc),
        }
    }

    /// Makes room for so many cells in all.
    pub(crate) fn make_room(&mut self, cells: usize) -> Result<(), AllocError> {
        self.certain
            .reserve(cells.saturating_sub(self.certain.len()))
    }

    /// Notes the name for which a cell was made.
    pub(crate) fn note_name(&mut self, cell: usize, name: Name) -> Result<(), AllocError> {
        match self.names.insert(cell, name) {
            Ok(_) => Ok(()),
            Err(_) => Err(AllocError),
        }
    }

    /// Notes the cells of a node, if it wasn't certain and is now.
    pub(crate) fn note_cells(&mut self, was_certain: bool, is_certain: bool, cells: &[usize]) {
        if !was_certain && is_certain {
            match self.certain.extend_from_slice(cells) {
                Ok(()) => {}
                Err(_) => {}
            }
        }
    }

    /// Takes off the last cell that was made for a name.
    pub(crate) fn take(&mut self) -> Option<Name> {
        while let Some(cell) = self.certain.pop() {
            match self.names.get(&cell) {
                Some(name) => return Some(*name),
                None => {}
            }
        }
        None
    }
}
