// The graphs of the groups so far.

ghost use Rattle.std.specs.Prelude.{◌≡◌, ◌<◌, ℕ, suc, length, map, Some, All, IfOk, OnOk};
ghost use Rattle.tac_ir.specs.Views.{tac_of};
ghost use Rattle.call_graph.specs.GroupViews.{groups_of, IsOf};
ghost use Rattle.dsa_local.specs.Called.{AreCalled};
ghost use Rattle.heap_graph.specs.Closed.{Closed};
ghost use Rattle.heap_graph.specs.Least.{Least};
ghost use Rattle.heap_graph.specs.declared.program.ProgramGraphs as memory_program;
ghost use Rattle.heap_graph.specs.Programs.{family_in};
ghost use Rattle.tac_ir.specs.declared.program.Tac as memory;
ghost use Rattle.heap_graph.specs.Edges.{EdgesAreFound};
ghost use Rattle.call_graph.specs.Lists.{rows_in};
ghost use Rattle.dsa_inlining.specs.Before.{graphs_before};
ghost use Rattle.dsa_bottom_up.specs.AssembledGroups.Making.{IsGrouped, BeginsWith, IsMaking, ListsEscaping};
ghost use Rattle.dsa_bottom_up.specs.LeastGraphs.Making.{AreLeast};
ghost use Rattle.dsa_bottom_up.specs.Smallest.{IsSmallest};
ghost use Rattle.dsa_bottom_up.specs.Bare.{AreBare};
ghost use Rattle.heap_graph.specs.Ascending.{GraphsAscend};
ghost use Rattle.dsa_bottom_up.specs.Making.{made_in, IsEmpty, AreKeptBelow, AreApart, KeepsOne, KeepsMembers};

use crate::assembling::{Assembled, assemble};
use call_graph::{Groups, SharedLists};
use dsa_inlining::{Before, GroupStatics, LiveTargets};
use dsa_local::{CalledClasses, LocalGraph, apply_first, joined_group, joined_start};
use heap_graph::{FrozenGraph, FunctionGraph, FunctionNames, ProgramGraphs, escaping};
use indexmap::IndexMap;
use std::alloc::{AllocError, Global};
use tac_ir::{FunctionId, Tac};

/// The graphs of the groups so far, and what they tell of variables outside functions and literals, by the numbers of the groups; what they
/// tell of functions, and which nodes escape each function, by the numbers of the functions; and of which functions some do.
#[derive(Drop)]
pub(crate) struct Making {
    graphs: Vec<FrozenGraph>,
    functions: Vec<FunctionGraph>,
    escaping: SharedLists,
    live: LiveTargets,
    statics: Vec<GroupStatics>,
    /// That of `start`, of which nothing is told as long as groups have none.
    start: FrozenGraph,
    start_function: FunctionGraph,
}

impl Making {
    /// No graphs.
    pub(crate) fn new(alloc: Global, tac: &Tac, groups: &Groups) -> Result<Making, AllocError>
        requires { IsOf tac.now groups.now }
        ensures { IfOk result (IsEmpty tac.now) }
    {
        let mut functions = Vec::new(alloc);
        for _ in tac.functions.as_slice() {
            match functions.push(blank_function(alloc)) {
                Ok(()) => {}
                Err(_) => return Err(AllocError),
            }
        }
        Ok(Making {
            graphs: Vec::new(alloc),
            functions,
            escaping: SharedLists::new(alloc, tac.functions.len())?,
            live: LiveTargets::new(alloc, tac, &groups.classes)?,
            statics: Vec::new(alloc),
            start: blank_graph(alloc),
            start_function: blank_function(alloc),
        })
    }

    /// The graphs of the groups so far, for the next one.
    pub(crate) fn before<'a>(&'a self, tac: &'a Tac, groups: &'a Groups) -> Before<'a>
        ensures { graphs_before result ≡ made_in tac.now groups.now self.now }
    {
        Before {
            tac,
            groups,
            graphs: self.graphs.as_slice(),
            functions: self.functions.as_slice(),
            escaping: &self.escaping,
            live: &self.live,
            statics: self.statics.as_slice(),
        }
    }

    /// Adds the graph of the next group.
    pub(crate) fn add_group(
        &mut self,
        alloc: Global,
        tac: &Tac,
        groups: &Groups,
        called: &CalledClasses,
        number: usize,
    ) -> Result<(), AllocError>
        requires grouped { IsGrouped tac.now groups.now }
        requires called { AreCalled tac.now called.now }
        requires making { IsMaking (made_in tac.now groups.now self.old) number }
        requires kept { AreKeptBelow (made_in tac.now groups.now self.old) number }
        requires within { number < length groups.now.members.items }
        ensures making { OnOk result (IsMaking (made_in tac.now groups.now self.new) (suc number)) }
        ensures kept { OnOk result (AreKeptBelow (made_in tac.now groups.now self.new) (suc number)) }
        ensures begins { OnOk result ((all : memory_program.ProgramGraphs) → BeginsWith (made_in tac.now groups.now self.new) (suc number) all → BeginsWith (made_in tac.now groups.now self.old) number all) }
        ensures least { OnOk result ((tac_of tac.now).start.parameters ≡ 0 → AreLeast (made_in tac.now groups.now self.old) number → AreLeast (made_in tac.now groups.now self.new) (suc number)) }
        ensures bare { OnOk result ((tac_of tac.now).start.parameters ≡ 0 → AreLeast (made_in tac.now groups.now self.old) number → AreBare (made_in tac.now groups.now self.old) number → AreBare (made_in tac.now groups.now self.new) (suc number)) }
    {
        let members = groups.members[number].as_slice();
        let owners = owners_of(alloc, members)?;
        let local = joined_group(alloc, tac, groups, called, number)?;
        let made = assemble(
            alloc,
            self.before(tac, groups),
            local,
            &owners,
            Some(number),
        )?;
        let Assembled {
            graph,
            functions,
            bases,
        } = made;
        let statics = GroupStatics::of_graph(alloc, self.statics.as_slice(), &graph, bases)?;
        self.keep(alloc, members, &graph, functions)?;
        match self.statics.push(statics) {
            Ok(()) => {}
            Err(_) => return Err(AllocError),
        }
        match self.graphs.push(graph) {
            Ok(()) => Ok(()),
            Err(_) => Err(AllocError),
        }
    }

    /// Keeps what is told of the functions of a group.
    fn keep(
        &mut self,
        alloc: Global,
        members: &[FunctionId],
        graph: &FrozenGraph,
        functions: Vec<FunctionGraph>,
    ) -> Result<(), AllocError>
        requires functions { All (λ member. member.0 < length self.old.functions.items) members.now }
        requires lists { length (rows_in self.old.escaping) ≡ length self.old.functions.items }
        requires apart { AreApart members.now }
        requires size { length functions.items ≡ length members.now }
        requires found { EdgesAreFound graph.now }
        ensures { OnOk result (KeepsMembers self.old self.new members.now graph.now functions.items) }
    {
        for (place, own) in functions.into_iter().enumerate() {
            self.keep_one(alloc, members[place].0, graph, own)?;
        }
        self.live.add_members(members, &self.escaping)
    }

    /// Keeps what is told of one function.
    fn keep_one(
        &mut self,
        alloc: Global,
        member: usize,
        graph: &FrozenGraph,
        own: FunctionGraph,
    ) -> Result<(), AllocError>
        requires within { member < length self.old.functions.items }
        requires lists { length (rows_in self.old.escaping) ≡ length self.old.functions.items }
        requires found { EdgesAreFound graph.now }
        ensures { OnOk result (KeepsOne self.old self.new member graph.now own) }
    {
        let numbers = escaping_numbers(alloc, graph, &own.names)?;
        self.escaping.set(member, numbers)?;
        self.functions[member] = own;
        Ok(())
    }

    /// The graphs of the program, with that of `start`.
    pub(crate) fn finish(
        self,
        alloc: Global,
        tac: &Tac,
        groups: &Groups,
    ) -> Result<ProgramGraphs, AllocError>
        requires grouped { IsGrouped tac.now groups.now }
        requires making { IsMaking (made_in tac.now groups.now self) (length (groups_of groups.now)) }
        requires kept { AreKeptBelow (made_in tac.now groups.now self) (length (groups_of groups.now)) }
        ensures closed { IfOk result (λ graphs. Closed (family_in tac.now (groups_of groups.now) graphs)) }
        ensures smallest { IfOk result (λ graphs. (tac_of tac.now).start.parameters ≡ 0 → AreLeast (made_in tac.now groups.now self) (length (groups_of groups.now)) → IsSmallest (family_in tac.now (groups_of groups.now) graphs)) }
        ensures least { IfOk result (λ graphs. (tac_of tac.now).start.parameters ≡ 0 → AreLeast (made_in tac.now groups.now self) (length (groups_of groups.now)) → AreBare (made_in tac.now groups.now self) (length (groups_of groups.now))
            → Least (family_in tac.now (groups_of groups.now) graphs)) }
        ensures begins { IfOk result (BeginsWith (made_in tac.now groups.now self) (length (groups_of groups.now))) }
        ensures graphs { IfOk result (λ graphs. length graphs.graphs.items ≡ length groups.now.members.items) }
        ensures ascend { IfOk result GraphsAscend }
    {
        let LocalGraph { mut graph, scopes } = joined_start(alloc, tac)?;
        apply_first(alloc, tac, &mut graph)?;
        let mut owners = Vec::new(alloc);
        owners.push(None)?;
        let local = LocalGraph { graph, scopes };
        let made = assemble(alloc, self.before(tac, groups), local, &owners, None)?;
        let Assembled {
            graph: start,
            mut functions,
            bases,
        } = made;
        drop(bases);
        let start_function = match functions.pop() {
            Some(own) => own,
            None => return Err(AllocError),
        };
        let Making {
            graphs,
            functions,
            escaping,
            live,
            statics,
            start: blank,
            start_function: blank_function,
        } = self;
        drop(escaping);
        drop(live);
        drop(statics);
        drop(blank);
        drop(blank_function);
        Ok(ProgramGraphs {
            graphs,
            functions,
            start,
            start_function,
        })
    }
}

/// The functions of a group.
pub(crate) fn owners_of(
    alloc: Global,
    members: &[FunctionId],
) -> Result<Vec<Option<FunctionId>>, AllocError>
    ensures { IfOk result (λ owners. owners.items ≡ map Some members.now) }
{
    let mut owners = Vec::new(alloc);
    for member in members {
        owners.push(Some(*member))?;
    }
    Ok(owners)
}

/// The nodes that escape a function, by their numbers, which rise.
fn escaping_numbers(
    alloc: Global,
    graph: &FrozenGraph,
    names: &FunctionNames,
) -> Result<Vec<usize>, AllocError>
    requires { EdgesAreFound graph.now }
    ensures { IfOk result (λ numbers. (tac : memory.Tac) (called : ℕ) → ListsEscaping tac called graph.now names.now numbers.items) }
{
    let marks = escaping(alloc, graph, names)?;
    let mut numbers = Vec::new(alloc);
    for (number, is_marked) in marks.as_slice().iter().enumerate() {
        if *is_marked {
            numbers.push(number)?;
        }
    }
    Ok(numbers)
}

/// A graph of which nothing is told.
fn blank_graph(alloc: Global) -> FrozenGraph {
    FrozenGraph {
        nodes: Vec::new(alloc),
        globals: IndexMap::new(alloc),
        literals: IndexMap::new(alloc),
    }
}

/// A function of which nothing is told.
fn blank_function(alloc: Global) -> FunctionGraph {
    FunctionGraph {
        names: FunctionNames {
            parameters: Vec::new(alloc),
            variables: Vec::new(alloc),
            calls: Vec::new(alloc),
            arguments: Vec::new(alloc),
            expressions: Vec::new(alloc),
            parameter_objects: Vec::new(alloc),
            variable_objects: Vec::new(alloc),
            returned: None,
        },
        embeddings: IndexMap::new(alloc),
    }
}
