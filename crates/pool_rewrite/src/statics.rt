// Where variables outside functions and literals lie.

ghost use Rattle.std.specs.Prelude.{◌≡◌, ◌≤◌, [], ◌∷◌, get_or, IfOk, OnOk};
ghost use Rattle.c_typed.specs.Layouts.{greatest};
ghost use Rattle.c_typed.specs.DefinitionViews.{LiteralsStand};
ghost use Rattle.tac_ir.specs.Views.{tac_of};
ghost use Rattle.tac_ir.specs.Code as C;
ghost use Rattle.pool_rewrite.specs.Placing.{end_behind, global_offset, literal_offset, statics_size};
ghost use Rattle.pool_rewrite.specs.Rewritable.{layout_in_table, global_layouts, literal_layouts};
ghost use Rattle.pool_rewrite.specs.Places.{PlacesMore, AreStatics};

use crate::sizes::{begin_of, size_of};
use c_typed::{CType, GlobalDef, LiteralDef, TypeTable};
use std::alloc::{AllocError, Global};
use tac_ir::{GlobalId, LiteralId, Tac};

/// Where variables outside functions and literals lie, in bytes behind the beginning of the globals.
#[derive(Drop)]
pub(crate) struct Statics {
    /// Where each variable begins, and behind these each literal.
    pub(crate) begins: Vec<u64>,
    /// How many variables there are.
    pub(crate) globals: usize,
    /// The bytes of all.
    pub(crate) size: u64,
}

impl Statics {
    /// Those of a program.
    pub(crate) fn of_program(alloc: Global, tac: &Tac) -> Result<Statics, AllocError>
        requires literals { LiteralsStand tac.now.types tac.now.literals.items }
        requires small { statics_size (tac_of tac.now) ≤ greatest }
        ensures { IfOk result (λ made. AreStatics (tac_of tac.now) made) }
    {
        let mut statics = Statics {
            begins: Vec::new(alloc),
            globals: tac.globals.len(),
            size: 0,
        };
        statics.place_globals(&tac.types, tac.globals.as_slice())?;
        statics.place_literals(&tac.types, tac.literals.as_slice())?;
        Ok(statics)
    }

    /// Where a variable lies.
    pub(crate) fn global(&self, global: GlobalId) -> u64
        ensures { (tac : C.Tac) → AreStatics tac self.now → result ≡ global_offset tac global.0 }
    {
        self.begin(global.0)
    }

    /// Where a literal lies.
    pub(crate) fn literal(&self, literal: LiteralId) -> u64
        ensures { (tac : C.Tac) → AreStatics tac self.now → result ≡ literal_offset tac literal.0 }
    {
        match self.globals.checked_add(literal.0) {
            Some(number) => self.begin(number),
            None => self.size,
        }
    }

    /// Where the one of this number lies.
    fn begin(&self, number: usize) -> u64
        ensures { result ≡ get_or self.now.begins.items number self.now.size }
    {
        self.begins.get(number).copied().unwrap_or(self.size)
    }

    fn place_globals(&mut self, types: &TypeTable, globals: &[GlobalDef]) -> Result<(), AllocError>
        requires { end_behind self.old.size (global_layouts types.now globals.now) ≤ greatest }
        ensures { OnOk result (PlacesMore self.old self.new (global_layouts types.now globals.now)) }
    {
        for global in globals {
            self.place(types, global.c_type)?;
        }
        Ok(())
    }

    fn place_literals(
        &mut self,
        types: &TypeTable,
        literals: &[LiteralDef],
    ) -> Result<(), AllocError>
        requires stand { LiteralsStand types.now literals.now }
        requires small { end_behind self.old.size (literal_layouts types.now literals.now) ≤ greatest }
        ensures { OnOk result (PlacesMore self.old self.new (literal_layouts types.now literals.now)) }
    {
        for literal in literals {
            self.place(types, literal.c_type)?;
        }
        Ok(())
    }

    /// Places an object of a type behind the others.
    fn place(&mut self, types: &TypeTable, c_type: CType) -> Result<(), AllocError>
        requires { end_behind self.old.size (layout_in_table types.now c_type ∷ []) ≤ greatest }
        ensures { OnOk result (PlacesMore self.old self.new (layout_in_table types.now c_type ∷ [])) }
    {
        let begin = begin_of(types, c_type, self.size);
        self.begins.push(begin)?;
        self.size = begin + size_of(types, c_type);
        Ok(())
    }
}
