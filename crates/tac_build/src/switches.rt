// `switch` (C17 6.8.4.2).

ghost use Rattle.std.specs.Prelude.{◌≡◌, suc, ◌+◌, false, length, Option, OnOk, IfOk};
ghost use Rattle.tac_build.specs.Lowering.{names_for, types_of_source, IsSource, scope_of, IsScope, LieInMemory};
ghost use Rattle.tac_build.specs.LoweringStatements.{ConditionTyped, ItemsTyped, Foretold, Declares, SwitchLowers, SwitchedLowers, ItemsLower, TestsCode, stored, label_test};
ghost use Rattle.tac_build.specs.Taken.{taken_items};
ghost use Rattle.tac_build.specs.Building.{Grows, Leads, HasRoom, Adds};
ghost use Rattle.tac_build.specs.Homes.{takes, takes_items};
ghost use Rattle.tac_build.specs.Code.{Emits};
ghost use Rattle.c_typed.specs.Views.{value_in};
ghost use Rattle.c_typed.specs.StatementViews.{switch_in};
ghost use Rattle.c_typed.specs.TypedNodes.{value_nodes, switch_nodes};
ghost use Rattle.c_typed.specs.Statements.{Within};

use crate::addressed::Addressed;
use crate::builder::Builder;
use crate::homes::Home;
use crate::lowered::{Mode, integer};
use crate::names::Source;
use crate::statements::Ways;
use c_num::{IntType, Relation};
use c_typed::{SwitchItem, Value};
use std::alloc::AllocError;
use tac_ir::{Op, PointId, Register, Tree};

/// A label, and the point at which what it labels is done.
#[derive(Clone, Copy, Debug, PartialEq, Eq)]
pub struct Label {
    pub value: i128,
    pub place: PointId,
}

/// The labels of a `switch` in their order, and the point of what `default` labels.
#[derive(Drop)]
pub struct Labels {
    pub cases: Vec<Label>,
    pub default: Option<PointId>,
}

/// An integer in a register, with its type.
#[derive(Clone, Copy, Debug, PartialEq, Eq)]
pub struct Switched {
    pub register: Register,
    pub int_type: IntType,
}

impl Builder {
    /// The value, the way to the tests, the way out, the items, the way out from them, and the tests of the labels.
    #[cycle(statements)]
    pub fn switch(
        &mut self,
        items: &[SwitchItem],
        value: &Value,
        source: &Source,
        addressed: &Addressed,
        scope: &mut Vec<Home>,
        ways: Ways,
    ) -> Result<(), AllocError>
        requires source { IsSource source.now }
        requires homes { IsScope source.now scope.old.items }
        requires value { ConditionTyped source.now scope.old.items value.now }
        requires typed { (within : Within) × (own : Option IntType) × ItemsTyped source.now scope.old.items within own items.now }
        requires switched { LieInMemory (scope_of source.now scope.old.items) (λ number. takes false number (value_in (types_of_source source.now) value.now)) }
        requires lives { LieInMemory (scope_of source.now scope.old.items) (λ number. takes_items number (switch_in (types_of_source source.now) items.now)) }
        requires foretold { Foretold addressed.now self.old.counts.variables (taken_items (length scope.old.items) (switch_in (types_of_source source.now) items.now)) }
        requires room { HasRoom self.old (names_for (value_nodes (value_in (types_of_source source.now) value.now) + switch_nodes (switch_in (types_of_source source.now) items.now))) }
        ensures code { OnOk result (SwitchLowers source.now scope.old.items ways value.now items.now self.old self.new) }
        ensures scope { OnOk result (scope.new.items ≡ scope.old.items) }
        ensures grows { OnOk result (Grows self.old self.new) }
        ensures adds { OnOk result (Adds self.old self.new (names_for (value_nodes (value_in (types_of_source source.now) value.now) + switch_nodes (switch_in (types_of_source source.now) items.now)))) }
        ensures variables { OnOk result (Declares self.old self.new (taken_items (length scope.old.items) (switch_in (types_of_source source.now) items.now))) }
    {
        let switched = self.switched(value, source, scope.as_slice())?;
        let begin = self.reserve()?;
        let exit = self.reserve()?;
        let inner = Ways {
            broken: exit,
            continued: ways.continued,
        };
        let labels = self.switch_items(items, source, addressed, scope, inner)?;
        self.append(Op::Jump(exit))?;
        self.fill_jump(begin);
        self.tests(labels.cases.as_slice(), switched)?;
        self.append(Op::Jump(labels.default.unwrap_or(exit)))?;
        self.fill_jump(exit);
        Ok(())
    }

    /// The value comes to a temporary.
    fn switched(
        &mut self,
        value: &Value,
        source: &Source,
        scope: &[Home],
    ) -> Result<Switched, AllocError>
        requires source { IsSource source.now }
        requires homes { IsScope source.now scope.now }
        requires typed { ConditionTyped source.now scope.now value.now }
        requires lives { LieInMemory (scope_of source.now scope.now) (λ number. takes false number (value_in (types_of_source source.now) value.now)) }
        requires room { HasRoom self.old (names_for (value_nodes (value_in (types_of_source source.now) value.now))) }
        ensures code { IfOk result (SwitchedLowers source.now scope.now value.now self.old self.new) }
        ensures grows { OnOk result (Grows self.old self.new) }
        ensures adds { OnOk result (Adds self.old self.new (names_for (value_nodes (value_in (types_of_source source.now) value.now)))) }
        ensures variables { OnOk result (self.new.counts.variables ≡ self.old.counts.variables) }
    {
        let value = integer(self.value(value, source, scope, Mode::Kept)?);
        let register = self.new_temporary();
        self.append(Op::Assign {
            to: register,
            tree: Box::into_inner(value.tree),
        })?;
        Ok(Switched {
            register,
            int_type: value.int_type,
        })
    }

    /// The items, of which at most one is `default`.
    #[cycle(statements)]
    fn switch_items(
        &mut self,
        items: &[SwitchItem],
        source: &Source,
        addressed: &Addressed,
        scope: &mut Vec<Home>,
        ways: Ways,
    ) -> Result<Labels, AllocError>
        requires source { IsSource source.now }
        requires homes { IsScope source.now scope.old.items }
        requires typed { (within : Within) × (own : Option IntType) × ItemsTyped source.now scope.old.items within own items.now }
        requires lives { LieInMemory (scope_of source.now scope.old.items) (λ number. takes_items number (switch_in (types_of_source source.now) items.now)) }
        requires foretold { Foretold addressed.now self.old.counts.variables (taken_items (length scope.old.items) (switch_in (types_of_source source.now) items.now)) }
        requires room { HasRoom self.old (names_for (switch_nodes (switch_in (types_of_source source.now) items.now))) }
        ensures code { IfOk result (ItemsLower source.now scope.old.items ways items.now self.old self.new) }
        ensures scope { OnOk result (scope.new.items ≡ scope.old.items) }
        ensures grows { OnOk result (Grows self.old self.new) }
        ensures adds { OnOk result (Adds self.old self.new (names_for (switch_nodes (switch_in (types_of_source source.now) items.now)))) }
        ensures variables { OnOk result (Declares self.old self.new (taken_items (length scope.old.items) (switch_in (types_of_source source.now) items.now))) }
    {
        let mut cases = Vec::new(self.alloc);
        let mut default: Option<PointId> = None;
        for item in items {
            match item {
                SwitchItem::Case(value) => cases.push(Label {
                    value: *value,
                    place: self.here(),
                })?,
                SwitchItem::Default => default = Some(default.unwrap_or(self.here())),
                SwitchItem::Statement(stmt) => {
                    self.statement(stmt, source, addressed, scope, ways)?
                }
            }
        }
        Ok(Labels { cases, default })
    }

    /// The tests of the labels (C17 6.8.4.2 paragraph 5).
    fn tests(&mut self, cases: &[Label], switched: Switched) -> Result<(), AllocError>
        ensures code { OnOk result (Leads (λ table. TestsCode cases.now switched) self.old self.new) }
        ensures grows { OnOk result (Grows self.old self.new) }
        ensures counts { self.new.counts ≡ self.old.counts }
    {
        for case in cases {
            self.label_test(*case, switched)?;
        }
        Ok(())
    }

    /// The test of a label: where the value isn't this one, it goes on at the next test.
    fn label_test(&mut self, case: Label, switched: Switched) -> Result<(), AllocError>
        ensures code { OnOk result (Leads (λ table points from to. Emits points (label_test switched.int_type switched.register (stored case.value) case.place.0 (suc from.at)) from to) self.old self.new) }
        ensures grows { OnOk result (Grows self.old self.new) }
        ensures counts { self.new.counts ≡ self.old.counts }
    {
        let condition = Tree::Compare {
            relation: Relation::Eq,
            int_type: switched.int_type,
            left: Box::new(self.alloc, Tree::Held(switched.register))?,
            right: Box::new(self.alloc, Tree::Constant(case.value))?,
        };
        let zero = PointId(self.points.len() + 1);
        self.append(Op::Branch {
            int_type: IntType::Int,
            condition,
            nonzero: case.place,
            zero,
        })
    }
}
