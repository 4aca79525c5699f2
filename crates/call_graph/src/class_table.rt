// Functions that calls through one pointer may reach, by classes of one type.

ghost use Rattle.std.specs.Prelude.{◌≡◌, IfOk, OnOk};
ghost use Rattle.tac_ir.specs.Views.{tac_of, callee_in};
ghost use Rattle.call_graph.specs.ClassLists.{AreClasses, LinksKeys, Links, FindsFirst, members_from, numbers_of};
ghost use Rattle.call_graph.specs.TargetLists.{AreTargets, IsFirstTarget, IsClassOf};

use crate::function_keys::keys;
use crate::row_lists::rows;
use crate::taken::taken_functions;
use c_typed::{CType, TypeTable};
use indexmap::IndexMap;
use std::alloc::{AllocError, Global};
use tac_ir::{Callee, FunctionId, Tac};

/// The functions whose address is taken, by classes of one type, each named by its first function.
#[derive(Drop)]
pub struct Classes {
    /// The first function of each type.
    firsts: IndexMap<CType, usize>,
    /// The first function of its class with each function, in the order of the text.
    pub links: Vec<(usize, usize)>,
    /// The functions of each class, in the order of the text.
    members: Vec<Vec<usize>>,
}

/// Classes without their members.
#[derive(Drop)]
pub(crate) struct Linked {
    pub(crate) firsts: IndexMap<CType, usize>,
    pub(crate) links: Vec<(usize, usize)>,
}

impl Linked {
    /// Those of functions that have their address taken where they have a key, the number of their type.
    fn of_keys(alloc: Global, keys: &[Option<CType>]) -> Result<Linked, AllocError>
        ensures { IfOk result (λ made. LinksKeys keys.now made.firsts made.links.items) }
    {
        let mut linked = Linked {
            firsts: IndexMap::new(alloc),
            links: Vec::new(alloc),
        };
        for (number, key) in keys.iter().enumerate() {
            if let Some(own) = key {
                linked.add(number, *own)?;
            }
        }
        Ok(linked)
    }

    /// Adds a function of this key.
    fn add(&mut self, number: usize, own: CType) -> Result<(), AllocError>
        ensures { OnOk result (Links number own self.old self.new) }
    {
        match self.firsts.get(&own).copied() {
            Some(first) => self.links.push((first, number))?,
            None => {
                self.firsts.insert(own, number)?;
                self.links.push((number, number))?;
            }
        }
        Ok(())
    }
}

impl Classes {
    /// Those of a program.
    pub fn of_program(alloc: Global, tac: &Tac) -> Result<Classes, AllocError>
        ensures { IfOk result (λ made. AreClasses tac.now made) }
    {
        let taken = taken_functions(alloc, tac)?;
        let keys = keys(alloc, tac, taken.as_slice())?;
        let linked = Linked::of_keys(alloc, keys.as_slice())?;
        let members = rows(alloc, keys.len(), linked.links.as_slice())?;
        Ok(Classes {
            firsts: linked.firsts,
            links: linked.links,
            members,
        })
    }

    /// The functions to which a call may come, in the order of the text.
    pub fn targets(
        &self,
        alloc: Global,
        tac: &Tac,
        callee: Callee,
    ) -> Result<Vec<FunctionId>, AllocError>
        ensures { IfOk result (λ made. AreClasses tac.now self.now → AreTargets (tac_of tac.now) (callee_in tac.now.types callee) (numbers_of made.items)) }
    {
        match callee {
            Callee::Function(function) => functions(alloc, &[function.0]),
            Callee::Through { c_type, .. } => {
                let first = self.first_of(&tac.types, c_type);
                functions(alloc, self.members_from(first))
            }
        }
    }

    /// The first function to which a call may come.
    pub fn first_target(&self, tac: &Tac, callee: Callee) -> Option<usize>
        ensures { AreClasses tac.now self.now → IsFirstTarget (tac_of tac.now) (callee_in tac.now.types callee) result }
    {
        match callee {
            Callee::Function(function) => Some(function.0),
            Callee::Through { c_type, .. } => self.first_of(&tac.types, c_type),
        }
    }

    /// The first function to which a call may come through a pointer.
    pub fn class_of(&self, tac: &Tac, callee: Callee) -> Option<usize>
        ensures { AreClasses tac.now self.now → IsClassOf (tac_of tac.now) (callee_in tac.now.types callee) result }
    {
        match callee {
            Callee::Function(_) => None,
            Callee::Through { c_type, .. } => self.first_of(&tac.types, c_type),
        }
    }

    /// The first function of a type whose address is taken.
    fn first_of(&self, types: &TypeTable, c_type: CType) -> Option<usize>
        ensures { FindsFirst types.now c_type self.now result }
    {
        let own = types.number_of(c_type);
        self.firsts.get(&own).copied()
    }

    /// The functions of the class with this first function, none where there is none.
    fn members_from(&self, first: Option<usize>) -> &[usize]
        ensures { result.now ≡ members_from self.now.members first }
    {
        match first {
            Some(first) => match self.members.get(first) {
                Some(members) => members.as_slice(),
                None => &[],
            },
            None => &[],
        }
    }
}

/// The functions that have these numbers.
pub fn functions(alloc: Global, numbers: &[usize]) -> Result<Vec<FunctionId>, AllocError>
    ensures { IfOk result (λ made. numbers_of made.items ≡ numbers.now) }
{
    let mut functions = Vec::new(alloc);
    for number in numbers {
        functions.push(FunctionId(*number))?;
    }
    Ok(functions)
}
