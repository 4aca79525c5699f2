// The functions of groups before from which something escapes.

ghost use Rattle.std.specs.Prelude.{◌≡◌, [], IfOk, OnOk};
ghost use Rattle.tac_ir.specs.Views.{callee_in};
ghost use Rattle.call_graph.specs.ClassLists.{AreClasses, numbers_of};
ghost use Rattle.call_graph.specs.GroupViews.{IsOf};
ghost use Rattle.call_graph.specs.Lists.{rows_in};
ghost use Rattle.dsa_inlining.specs.Before.{graphs_before, is_listed};
ghost use Rattle.dsa_inlining.specs.Live.{class_in, row_in, TellClasses, AreNoneLive, AddsLive, AddsMembers, AreLive, AreLiveTargets};

use crate::before::Before;
use call_graph::{Classes, SharedLists, add_edge, functions, rows};
use std::alloc::{AllocError, Global};
use tac_ir::{Callee, FunctionId, Tac};

/// The functions of groups before from which something escapes, where their address is taken.
#[derive(Drop)]
pub struct LiveTargets {
    /// The class of each function whose address is taken, by the first function of that.
    classes: Vec<Option<usize>>,
    /// Those of each class, by its first function.
    rows: Vec<Vec<usize>>,
}

impl LiveTargets {
    /// None of a program's.
    pub fn new(alloc: Global, tac: &Tac, classes: &Classes) -> Result<LiveTargets, AllocError>
        requires { AreClasses tac.now classes.now }
        ensures { IfOk result (AreNoneLive tac.now) }
    {
        let count = tac.functions.len();
        let numbers = class_numbers(alloc, count, classes.links.as_slice())?;
        let rows = rows(alloc, count, &[])?;
        Ok(LiveTargets {
            classes: numbers,
            rows,
        })
    }

    /// Adds those of a group's functions from which something escapes, where these are the nodes that escape each function.
    pub fn add_members(
        &mut self,
        members: &[FunctionId],
        escaping: &SharedLists,
    ) -> Result<(), AllocError>
        ensures { OnOk result (AddsMembers (rows_in escaping.now) (numbers_of members.now) self.old self.new) }
    {
        for member in members {
            if is_live(escaping, member.0) {
                self.add(member.0)?;
            }
        }
        Ok(())
    }

    /// Adds a function, if its address is taken.
    fn add(&mut self, called: usize) -> Result<(), AllocError>
        ensures { OnOk result (AddsLive called self.old self.new) }
    {
        match self.class_of(called) {
            Some(first) => add_edge(&mut self.rows, (first, called)),
            None => Ok(()),
        }
    }

    /// The class of a function, if its address is taken.
    fn class_of(&self, called: usize) -> Option<usize>
        ensures { result ≡ class_in self.now called }
    {
        match self.classes.get(called) {
            Some(class) => *class,
            None => None,
        }
    }

    /// Those of a class.
    fn of_class(&self, class: Option<usize>) -> &[usize]
        ensures { result.now ≡ row_in self.now class }
    {
        match class {
            Some(first) => match self.rows.get(first) {
                Some(row) => row.as_slice(),
                None => &[],
            },
            None => &[],
        }
    }
}

impl<'a> Before<'a> {
    /// The functions to which a call may come and from which something escapes.
    pub fn live_targets(self, alloc: Global, callee: Callee) -> Result<Vec<FunctionId>, AllocError>
        requires groups { IsOf self.tac.now self.groups.now }
        requires live { AreLive self.tac.now (rows_in self.escaping.now) self.live.now }
        ensures { IfOk result (λ made. AreLiveTargets (graphs_before self.entry) (callee_in self.entry.tac.now.types callee) (numbers_of made.items)) }
    {
        match callee {
            Callee::Function(function) => {
                if is_live(self.escaping, function.0) {
                    functions(alloc, &[function.0])
                } else {
                    Ok(Vec::new(alloc))
                }
            }
            Callee::Through { .. } => {
                let class = self.groups.classes.class_of(self.tac, callee);
                functions(alloc, self.live.of_class(class))
            }
        }
    }
}

/// Whether something escapes a function.
fn is_live(escaping: &SharedLists, called: usize) -> bool
    ensures { result ≡ is_listed (rows_in escaping.now) called }
{
    match escaping.get(called) {
        Some(numbers) => !numbers.is_empty(),
        None => false,
    }
}

/// Of each function the class with which it is linked, if there is one.
fn class_numbers(
    alloc: Global,
    count: usize,
    links: &[(usize, usize)],
) -> Result<Vec<Option<usize>>, AllocError>
    ensures { IfOk result (λ made. TellClasses count links.now made.items) }
{
    let mut classes = no_classes(alloc, count)?;
    for link in links {
        if link.1 < count {
            classes[link.1] = Some(link.0);
        }
    }
    Ok(classes)
}

fn no_classes(alloc: Global, count: usize) -> Result<Vec<Option<usize>>, AllocError>
    ensures { IfOk result (λ made. TellClasses count [] made.items) }
{
    let mut classes = Vec::new(alloc);
    for _ in 0..count {
        classes.push(None)?;
    }
    Ok(classes)
}
