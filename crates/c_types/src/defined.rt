// The variables and functions that a program defines.

ghost use Rattle.std.specs.Prelude.{◌≡◌, ◌==◌, [], OnOk, length};
ghost use Rattle.c_typed.specs.Table.{Interned, Stands};
ghost use Rattle.c_typed.specs.DefinitionViews.{all_first, GlobalsStand};
ghost use Rattle.c_types.specs.Globals.{AddsGlobal};

use c_typed::{ByteString, CType, First, FunctionDef, GlobalDef};
use indexmap::IndexMap;
use std::alloc::{AllocError, Global};
use std::marker::Model;

/// The variables and functions of a program so far.
#[derive(Drop)]
pub(crate) struct Defined {
    pub(crate) globals: Globals,
    pub(crate) functions: Vec<FunctionDef>,
}

impl Defined {
    pub(crate) fn new(alloc: Global) -> Defined
        ensures globals { result.globals ≡ [] }
        ensures functions { result.functions.items ≡ [] }
    {
        Defined {
            globals: Globals::new(alloc),
            functions: Vec::new(alloc),
        }
    }
}

/// The variables of a program, each once, in the order of their first declarations.
#[derive(Drop)]
pub(crate) struct Globals {
    alloc: Global,
    /// Where the variable of each name stands.
    numbers: IndexMap<Vec<u8>, usize>,
    globals: Vec<GlobalDef>,
}

impl Model for Globals {
    ghost use Rattle.c_typed.specs.declared.definition.GlobalDef as memory_global;
    ghost use Rattle.std.specs.Prelude.{◌≡◌, List, ℕ};
    ghost use Rattle.c_types_state.specs.LocalTables.{number_in};
    ghost use Rattle.c_types.specs.Globals.{global_number};

    ghost Value = { List memory_global.GlobalDef };

    ghost view = { λ g. g.globals.items };

    ghost invariant = { λ g. (name : List ℕ) → number_in g.numbers name ≡ global_number g.globals.items name };
}

impl Globals {
    fn new(alloc: Global) -> Globals
        ensures { result ≡ [] }
    {
        Globals {
            alloc,
            numbers: IndexMap::new(alloc),
            globals: Vec::new(alloc),
        }
    }

    /// Adds a declaration of a variable, which may be declared more than once and is initialized once (C17 6.9.2).
    pub(crate) fn add(
        &mut self,
        name: &[u8],
        c_type: CType,
        first: Vec<First>,
    ) -> Result<(), AllocError>
        ensures globals { OnOk result (AddsGlobal name.now c_type first.items self.old self.new) }
        ensures stand { OnOk result ((table : Interned) → GlobalsStand table self.old → Stands table c_type → GlobalsStand table self.new) }
    {
        if let Some(number) = self.numbers.get(name) {
            if !are_none(first.as_slice()) {
                self.globals[*number].first = first;
            }
            return Ok(());
        }
        let key = Vec::from_slice(self.alloc, name)?;
        let name = ByteString::from_slice(self.alloc, name)?;
        self.globals.reserve(1)?;
        let number = self.globals.len();
        self.numbers.insert(key, number)?;
        let global = GlobalDef {
            name,
            c_type,
            first,
        };
        self.globals.push(global).unwrap();
        Ok(())
    }

    /// The variables in order.
    pub(crate) fn into_vec(self) -> Vec<GlobalDef>
        ensures { result.items ≡ self }
    {
        self.globals
    }
}

/// Whether these first values are none: a literal may have no bytes.
fn are_none(first: &[First]) -> bool
    ensures { result ≡ (length (all_first first.now) == 0) }
{
    for one in first {
        let is_none = match one {
            First::Scalar(_) => false,
            First::Text { bytes, .. } => bytes.as_slice().is_empty(),
        };
        if !is_none {
            return false;
        }
    }
    true
}
