// The strong components of a graph, by one search along paths (Gabow: Path-based depth-first search for strong and biconnected
// components).

ghost use Rattle.std.specs.Prelude.{◌≡◌, ◌<◌, ◌≤◌, [], length, map, slice_get, Some, IfOk, OnOk, vec_items};
ghost use Rattle.call_graph.specs.declared.components.Mark.TheVariants.{Unseen};
ghost use Rattle.call_graph.specs.Searches.{AreInside, AreMarked, IsLast, IsFresh, Opens, Merges, Closes, Finishes, IsSearching, Advances, Ends, component_of, AreComponents};

use std::alloc::{AllocError, Global};

/// How far the search is with a node.
#[derive(Clone, Copy, Debug, PartialEq, Eq)]
pub(crate) enum Mark {
    Unseen,
    /// On the path, at this place.
    Open(usize),
    /// In the component of this number.
    Done(usize),
}

/// A search for strong components.
#[derive(Drop)]
pub(crate) struct Search {
    pub(crate) marks: Vec<Mark>,
    /// The nodes on the path.
    pub(crate) members: Vec<usize>,
    /// Where the groups of nodes on the path start that are known to reach each other.
    pub(crate) starts: Vec<usize>,
    /// Edges that were not looked at yet, from places on the path.
    pub(crate) waiting: Vec<(usize, usize)>,
    /// How many components are done.
    pub(crate) count: usize,
}

impl Search {
    fn new(alloc: Global, nodes: usize) -> Result<Search, AllocError>
        ensures { IfOk result (λ made. IsFresh nodes made) }
    {
        Ok(Search {
            marks: Vec::from_elem(alloc, Mark::Unseen, nodes)?,
            members: Vec::new(alloc),
            starts: Vec::new(alloc),
            waiting: Vec::new(alloc),
            count: 0,
        })
    }

    /// Opens a node, as a group of its own.
    fn open(&mut self, edges: &[Vec<usize>], node: usize) -> Result<(), AllocError>
        requires node { node < length edges.now }
        requires marks { length self.old.marks.items ≡ length edges.now }
        ensures { OnOk result (Opens (map vec_items edges.now) node self.old self.new) }
    {
        let place = self.members.len();
        self.marks[node] = Mark::Open(place);
        self.members.push(node)?;
        self.starts.push(place)?;
        for next in edges[node].as_slice() {
            self.waiting.push((place, *next))?;
        }
        Ok(())
    }

    /// Makes the groups that start above a place one with that of the place.
    fn merge(&mut self, place: usize)
        ensures { Merges place self.old self.new }
    {
        while let Some(start) = self.starts.last().copied() {
            if start <= place {
                break;
            }
            self.starts.pop();
        }
    }

    /// Makes a component of the last group, which starts at this place.
    fn close(&mut self, start: usize) -> Result<(), AllocError>
        requires { AreMarked self.old.members.items self.old.marks.items }
        ensures { OnOk result (Closes start self.old self.new) }
    {
        let count = self.count.checked_add(1).ok_or(AllocError)?;
        while self.members.len() > start {
            self.finish_last();
        }
        self.starts.pop();
        self.count = count;
        Ok(())
    }

    /// Tells of the last node on the path that it is done.
    fn finish_last(&mut self)
        requires some { 0 < length self.old.members.items }
        requires marked { AreMarked self.old.members.items self.old.marks.items }
        ensures { Finishes self.old self.new }
    {
        if let Some(node) = self.members.pop() {
            self.marks[node] = Mark::Done(self.count);
        }
    }

    /// Looks at the last edge that waits, where it is one of the last group, which starts at this place; otherwise closes the group.
    fn step(&mut self, edges: &[Vec<usize>], start: usize) -> Result<(), AllocError>
        requires inside { AreInside (map vec_items edges.now) }
        requires start { IsLast start self.old.starts.items }
        requires kept { IsSearching (map vec_items edges.now) self.old }
        ensures { OnOk result (Advances (map vec_items edges.now) self.old self.new) }
    {
        match self.waiting.last().copied() {
            Some((place, node)) if place >= start => self.follow(edges, start, place, node),
            _ => self.close(start),
        }
    }

    /// Follows the last edge that waits, from a place to a node.
    fn follow(
        &mut self,
        edges: &[Vec<usize>],
        start: usize,
        place: usize,
        node: usize,
    ) -> Result<(), AllocError>
        requires inside { AreInside (map vec_items edges.now) }
        requires start { IsLast start self.old.starts.items }
        requires edge { IsLast (place, node) self.old.waiting.items }
        requires here { start ≤ place }
        requires kept { IsSearching (map vec_items edges.now) self.old }
        ensures { OnOk result (Advances (map vec_items edges.now) self.old self.new) }
    {
        self.waiting.pop();
        match self.marks[node] {
            Mark::Unseen => self.open(edges, node),
            Mark::Open(at) => {
                self.merge(at);
                Ok(())
            }
            Mark::Done(_) => Ok(()),
        }
    }

    /// Searches from a node, where no node is open.
    fn search(&mut self, edges: &[Vec<usize>], root: usize) -> Result<(), AllocError>
        requires inside { AreInside (map vec_items edges.now) }
        requires root { root < length edges.now }
        requires kept { IsSearching (map vec_items edges.now) self.old }
        requires ended { self.old.starts.items ≡ [] }
        ensures { OnOk result (Ends (map vec_items edges.now) root self.old self.new) }
    {
        match self.marks[root] {
            Mark::Unseen => self.search_unseen(edges, root),
            _ => Ok(()),
        }
    }

    /// Searches from a node that wasn't seen.
    fn search_unseen(&mut self, edges: &[Vec<usize>], root: usize) -> Result<(), AllocError>
        requires inside { AreInside (map vec_items edges.now) }
        requires root { root < length edges.now }
        requires unseen { slice_get self.old.marks.items root ≡ Some Unseen }
        requires kept { IsSearching (map vec_items edges.now) self.old }
        requires ended { self.old.starts.items ≡ [] }
        ensures { OnOk result (Ends (map vec_items edges.now) root self.old self.new) }
    {
        self.open(edges, root)?;
        while let Some(start) = self.starts.last().copied() {
            self.step(edges, start)?;
        }
        Ok(())
    }
}

/// The number of each node's component: nodes have the same where they reach each other, and edges lead to the same or a lower one.
pub fn component_numbers(alloc: Global, edges: &[Vec<usize>]) -> Result<Vec<usize>, AllocError>
    requires { AreInside (map vec_items edges.now) }
    ensures { IfOk result (λ numbers. AreComponents (map vec_items edges.now) numbers.items) }
{
    let mut search = Search::new(alloc, edges.len())?;
    for root in 0..edges.len() {
        search.search(edges, root)?;
    }
    numbers(alloc, search.marks.as_slice())
}

/// The numbers of components that marks tell.
fn numbers(alloc: Global, marks: &[Mark]) -> Result<Vec<usize>, AllocError>
    ensures { IfOk result (λ numbers. numbers.items ≡ map component_of marks.now) }
{
    let mut numbers = Vec::with_capacity(alloc, marks.len())?;
    for mark in marks {
        numbers.push(match mark {
            Mark::Done(component) => *component,
            _ => 0,
        })?;
    }
    Ok(numbers)
}
