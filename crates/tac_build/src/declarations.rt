// Locals that begin to live, with their first values (C17 6.2.4 paragraph 5, 6.7.9).

ghost use Rattle.std.specs.Prelude.{◌≡◌, ℕ, ◌+◌, true, Bool, List, [], ◌∷◌, ◌++◌, length, map, slice_get, Some, OnOk};
ghost use Rattle.tac_build.specs.Lowering.{names_for, types_of_source, IsSource, scope_of, IsScope, LieInMemory};
ghost use Rattle.tac_build.specs.LoweringStatements.{LocalTyped, LocalsTyped, StartTyped, Foretold, Declares, LocalLowers, LocalsLower, StartLowers};
ghost use Rattle.tac_build.specs.LoweringDefinitions.{IsNewHome};
ghost use Rattle.tac_build.specs.Taken.{taken_locals, taken_start, depth_behind};
ghost use Rattle.tac_build.specs.Spots.{with_variable};
ghost use Rattle.tac_build.specs.StatementCode as code;
ghost use Rattle.tac_build.specs.Building.{lowered_in, home_in, spot_of, IsScalar, IsScalarType, LeadsIn, Grows, HasRoom, Adds};
ghost use Rattle.tac_build.specs.Homes.{takes_optional, takes_first, takes_start};
ghost use Rattle.c_typed.specs.Table.{Interned, Stands, type_in};
ghost use Rattle.c_typed.specs.StatementViews.{local_in, start_in};
ghost use Rattle.c_typed.specs.TypedNodes.{local_nodes, locals_nodes, start_nodes};
ghost use Rattle.tac_build.specs.declared.homes.Home as memory_home;

use crate::addressed::Addressed;
use crate::builder::Builder;
use crate::homes::{Home, lies_in_memory};
use crate::lowered::{Lowered, Mode};
use crate::names::Source;
use crate::objects::scalar;
use c_typed::{ForStart, LocalDef, TypeTable};
use std::alloc::AllocError;
use tac_ir::{Base, Local, LocalObject, Operand, Register};

impl Builder {
    /// The home of the next local of the body.
    fn new_home(&mut self, local: &LocalDef, types: &TypeTable, addressed: &Addressed) -> Home
        requires stands { Stands types.now local.now.c_type }
        requires own { (is_taken : Bool) × (slice_get addressed.now.variables.items self.old.counts.variables ≡ Some is_taken) }
        requires room { HasRoom self.old 1 }
        ensures home { (is_taken : Bool) → slice_get addressed.now.variables.items self.old.counts.variables ≡ Some is_taken → IsNewHome types.now self.old local.now is_taken result }
        ensures spot { (table : Interned) → spot_of table self.new ≡ with_variable (spot_of table self.old) }
        ensures points { self.new.points.items ≡ self.old.points.items }
        ensures adds { Adds self.old self.new 1 }
    {
        let number = self.counts.variables;
        self.counts.variables += 1;
        Home {
            local: Local::Variable(number),
            is_object: lies_in_memory(types, local.c_type, addressed.variables[number]),
            c_type: local.c_type,
        }
    }

    /// A local that lies in memory is one of the function's objects.
    pub fn with_home(&mut self, home: Home) -> Result<(), AllocError>
        ensures spot { OnOk result ((table : Interned) → spot_of table self.new ≡ code.with_home (home_in table home) (spot_of table self.old)) }
        ensures points { self.new.points.items ≡ self.old.points.items }
        ensures counts { self.new.counts ≡ self.old.counts }
    {
        if home.is_object {
            self.objects.push(LocalObject {
                local: home.local,
                c_type: home.c_type,
            })?;
        }
        Ok(())
    }

    /// A local that begins to live; its first value stands in its own scope (C17 6.2.1 paragraph 7).
    pub fn declare(
        &mut self,
        local: &LocalDef,
        source: &Source,
        addressed: &Addressed,
        scope: &mut Vec<Home>,
    ) -> Result<(), AllocError>
        requires source { IsSource source.now }
        requires homes { IsScope source.now scope.old.items }
        requires typed { LocalTyped source.now scope.old.items local.now }
        requires lives { LieInMemory (scope_of source.now scope.old.items) (λ number. takes_optional number (local_in (types_of_source source.now) local.now).first) }
        requires own { (is_taken : Bool) × (slice_get addressed.now.variables.items self.old.counts.variables ≡ Some is_taken) × (takes_optional (length scope.old.items) (local_in (types_of_source source.now) local.now).first ≡ true → is_taken ≡ true) }
        requires room { HasRoom self.old (names_for (local_nodes (local_in (types_of_source source.now) local.now))) }
        ensures code { OnOk result ((home : memory_home.Home) × (scope.new.items ≡ scope.old.items ++ home ∷ []) × ((is_taken : Bool) → slice_get addressed.now.variables.items self.old.counts.variables ≡ Some is_taken → LocalLowers source.now scope.old.items local.now is_taken home self.old self.new)) }
        ensures homes { OnOk result (IsScope source.now scope.new.items) }
        ensures grows { OnOk result (Grows self.old self.new) }
        ensures adds { OnOk result (Adds self.old self.new (names_for (local_nodes (local_in (types_of_source source.now) local.now)))) }
        ensures variables { OnOk result (self.new.counts.variables ≡ self.old.counts.variables + 1) }
    {
        let home = self.new_home(local, source.types(), addressed);
        self.with_home(home)?;
        scope.push(home)?;
        match &local.first {
            Some(value) => {
                let given = self.value(value, source, scope.as_slice(), Mode::Kept)?;
                self.begin(home, given, source.types())
            }
            None => Ok(()),
        }
    }

    /// The first value of a local comes to its register or to memory.
    fn begin(&mut self, home: Home, value: Lowered, types: &TypeTable) -> Result<(), AllocError>
        requires stands { Stands types.now home.c_type }
        requires kind { IsScalarType (type_in types.now home.c_type) }
        requires value { IsScalar value }
        ensures code { OnOk result (LeadsIn types.now (λ points. code.Begins points (home_in types.now home) (lowered_in types.now value)) self.old self.new) }
        ensures grows { OnOk result (Grows self.old self.new) }
        ensures adds { OnOk result (Adds self.old self.new 0) }
    {
        if home.is_object {
            self.store_first(home, value, types)
        } else {
            self.write(Register::Local(home.local), value)
        }
    }

    /// The first value of a local in memory is stored.
    fn store_first(
        &mut self,
        home: Home,
        value: Lowered,
        types: &TypeTable,
    ) -> Result<(), AllocError>
        requires stands { Stands types.now home.c_type }
        requires kind { IsScalarType (type_in types.now home.c_type) }
        requires object { home.is_object ≡ true }
        requires value { IsScalar value }
        ensures code { OnOk result (LeadsIn types.now (λ points. code.Begins points (home_in types.now home) (lowered_in types.now value)) self.old self.new) }
        ensures grows { OnOk result (Grows self.old self.new) }
        ensures adds { OnOk result (Adds self.old self.new 0) }
    {
        let path = self.path(Base::Local(home.local))?;
        let scalar = scalar(types, home.c_type);
        match value {
            Lowered::Integer { tree, .. } => {
                self.store_operand(path, scalar, Operand::Integer(Box::into_inner(tree)))
            }
            Lowered::Pointer { register, .. } => {
                self.store_operand(path, scalar, Operand::Pointer(register))
            }
            _ => unreachable!(),
        }
    }

    /// The locals of a `for`.
    fn declare_all(
        &mut self,
        locals: &[LocalDef],
        source: &Source,
        addressed: &Addressed,
        scope: &mut Vec<Home>,
    ) -> Result<(), AllocError>
        requires source { IsSource source.now }
        requires homes { IsScope source.now scope.old.items }
        requires typed { LocalsTyped source.now scope.old.items locals.now }
        requires lives { LieInMemory (scope_of source.now scope.old.items) (λ number. takes_first number (map (local_in (types_of_source source.now)) locals.now)) }
        requires foretold { (is_taken : ℕ → Bool) × Foretold addressed.now self.old.counts.variables (taken_locals (length scope.old.items) is_taken (map (local_in (types_of_source source.now)) locals.now)) }
        requires room { HasRoom self.old (names_for (locals_nodes (map (local_in (types_of_source source.now)) locals.now))) }
        ensures code { OnOk result ((is_taken : ℕ → Bool) → Foretold addressed.now self.old.counts.variables (taken_locals (length scope.old.items) is_taken (map (local_in (types_of_source source.now)) locals.now)) → LocalsLower source.now scope.old.items is_taken locals.now scope.new.items self.old self.new) }
        ensures scope { OnOk result ((begun : List memory_home.Home) × (scope.new.items ≡ scope.old.items ++ begun)) }
        ensures homes { OnOk result (IsScope source.now scope.new.items) }
        ensures depth { OnOk result (length scope.new.items ≡ length locals.now + length scope.old.items) }
        ensures grows { OnOk result (Grows self.old self.new) }
        ensures adds { OnOk result (Adds self.old self.new (names_for (locals_nodes (map (local_in (types_of_source source.now)) locals.now)))) }
        ensures variables { OnOk result (self.new.counts.variables ≡ self.old.counts.variables + length locals.now) }
    {
        for local in locals {
            self.declare(local, source, addressed, scope)?;
        }
        Ok(())
    }

    /// What a `for` begins with (C17 6.8.5.3).
    pub fn start(
        &mut self,
        start: &ForStart,
        source: &Source,
        addressed: &Addressed,
        scope: &mut Vec<Home>,
    ) -> Result<(), AllocError>
        requires source { IsSource source.now }
        requires homes { IsScope source.now scope.old.items }
        requires typed { StartTyped source.now scope.old.items start.now }
        requires lives { LieInMemory (scope_of source.now scope.old.items) (λ number. takes_start number (start_in (types_of_source source.now) start.now)) }
        requires foretold { (is_taken : ℕ → Bool) × Foretold addressed.now self.old.counts.variables (taken_start (length scope.old.items) is_taken (start_in (types_of_source source.now) start.now)) }
        requires room { HasRoom self.old (names_for (start_nodes (start_in (types_of_source source.now) start.now))) }
        ensures code { OnOk result ((is_taken : ℕ → Bool) → Foretold addressed.now self.old.counts.variables (taken_start (length scope.old.items) is_taken (start_in (types_of_source source.now) start.now)) → StartLowers source.now scope.old.items is_taken start.now scope.new.items self.old self.new) }
        ensures scope { OnOk result ((begun : List memory_home.Home) × (scope.new.items ≡ scope.old.items ++ begun)) }
        ensures homes { OnOk result (IsScope source.now scope.new.items) }
        ensures depth { OnOk result (length scope.new.items ≡ depth_behind (length scope.old.items) (start_in (types_of_source source.now) start.now)) }
        ensures grows { OnOk result (Grows self.old self.new) }
        ensures adds { OnOk result (Adds self.old self.new (names_for (start_nodes (start_in (types_of_source source.now) start.now)))) }
        ensures variables { (is_taken : ℕ → Bool) → OnOk result (Declares self.old self.new (taken_start (length scope.old.items) is_taken (start_in (types_of_source source.now) start.now))) }
    {
        match start {
            ForStart::Nothing => Ok(()),
            ForStart::Value(value) => self.effect(value, source, scope.as_slice()),
            ForStart::Locals(locals) => {
                self.declare_all(locals.as_slice(), source, addressed, scope)
            }
        }
    }
}
