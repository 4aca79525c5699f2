// Lists by number, kept once each.

ghost use Rattle.std.specs.Prelude.{◌≡◌, ◌<◌, [], All, length, replicate, set, slice_get, option_copied, IfOk, OnOk, OnErr};

use indexmap::IndexSet;
use std::alloc::{AllocError, Global};

/// Lists of numbers by number, of which equal ones share their memory: each list that was ever set is kept once, whichever and however
/// many numbers have it, and each number takes one word more.
#[derive(Drop)]
pub struct SharedLists {
    lists: IndexSet<Vec<usize>>,
    /// Of each number, the index of its list.
    list_of: Vec<usize>,
    ghost within: { All (λ index. index < length lists.keys) list_of.items },
}

impl SharedLists {
    ghost use Rattle.call_graph.specs.Lists.{rows_in};

    /// So many lists, all empty.
    pub fn new(alloc: Global, count: usize) -> Result<SharedLists, AllocError>
        ensures { IfOk result (λ made. rows_in made ≡ replicate count []) }
    {
        let mut lists = IndexSet::new(alloc);
        let empty = lists.insert_full(Vec::new(alloc))?.0;
        let list_of = Vec::from_elem(alloc, empty, count)?;
        Ok(SharedLists { lists, list_of })
    }

    /// The list of a number, if there are so many.
    pub fn get(&self, number: usize) -> Option<&[usize]>
        ensures { option_copied result ≡ slice_get (rows_in self.now) number }
    {
        let index = *self.list_of.get(number)?;
        Some(self.lists.get_index(index)?.as_slice())
    }

    /// Gives a number this list, which takes no memory of its own where an equal one was set before; without memory all lists stay.
    pub fn set(&mut self, number: usize, list: Vec<usize>) -> Result<(), AllocError>
        requires { number < length (rows_in self.old) }
        ensures set { OnOk result (rows_in self.new ≡ set (rows_in self.old) number list.items) }
        ensures stay { OnErr result (rows_in self.new ≡ rows_in self.old) }
    {
        let index = self.lists.insert_full(list)?.0;
        self.list_of[number] = index;
        Ok(())
    }
}
