// Expressions for their values (C17 6.5).

ghost use Rattle.std.specs.Prelude.{◌≡◌, not, OnOk, IfOk};
ghost use Rattle.c_typed.specs.Table.{Interned};
ghost use Rattle.c_typed.specs.Views.{value_in};
ghost use Rattle.tac_ir.specs.Views.{tree_of};
ghost use Rattle.tac_ir.specs.Code as C;
ghost use Rattle.tac_build.specs.Homes as H;
ghost use Rattle.tac_build.specs.Spots.{AsInteger};
ghost use Rattle.tac_build.specs.Code.{KeepsTree};
ghost use Rattle.tac_build.specs.Building.{lowered_in, scope_in, HomesStand, IsInteger, Grows, LeadsIn, HasRoom, Adds, mode_of};
ghost use Rattle.tac_build.specs.Lowering.{names_for, AddsFewer, types_of_source, IsSource, scope_of, IsScope, ValueTyped, ValueLives, ValueLowers, IsOperation, IsPointerOperation};
ghost use Rattle.c_typed.specs.TypedNodes.{value_nodes};

use crate::builder::Builder;
use crate::homes::{Home, is_pure};
use crate::lowered::{IntegerValue, Lowered, Mode, integer, object_of, pointer};
use crate::names::Source;
use crate::trees::{arithmetic, comparison, complement, conversion, negated, negative};
use c_num::IntType;
use c_typed::{CType, TypeTable, Value};
use std::alloc::AllocError;
use tac_ir::Tree;

impl Builder {
    /// An expression for its value.
    #[cycle(values)]
    pub fn value(
        &mut self,
        value: &Value,
        source: &Source,
        scope: &[Home],
        mode: Mode,
    ) -> Result<Lowered, AllocError>
        requires source { IsSource source.now }
        requires homes { IsScope source.now scope.now }
        requires typed { ValueTyped source.now scope.now value.now }
        requires lives { ValueLives (scope_of source.now scope.now) (mode_of mode) (value_in (types_of_source source.now) value.now) }
        requires room { HasRoom self.old (names_for (value_nodes (value_in (types_of_source source.now) value.now))) }
        ensures code { IfOk result (ValueLowers source.now scope.now mode value.now self.old self.new) }
        ensures grows { OnOk result (Grows self.old self.new) }
        ensures adds { OnOk result (AddsFewer self.old self.new (names_for (value_nodes (value_in (types_of_source source.now) value.now)))) }
    {
        match value {
            Value::Grouped(inner) => self.value(inner, source, scope, mode),
            Value::Read { object, .. } => {
                let target = self.target(object, source, scope, false)?;
                self.read(target, source.types())
            }
            Value::Decay { object, .. } => {
                let found = self.object(object, source, scope, false, mode.is_followed())?;
                self.decay(mode, object_of(found), source.types())
            }
            Value::AddressOf { object, .. } => {
                let (is_kept, is_followed) = (mode.is_address(), mode.is_followed());
                let found = self.object(object, source, scope, is_kept, is_followed)?;
                self.take_address(mode, found)
            }
            Value::FunctionValue(function) => {
                let called = self.designator(function, source, scope)?;
                self.function_address(called)
            }
            Value::AddressOfFunction(function) => {
                let called = self.designator(function, source, scope)?;
                self.function_address(called)
            }
            Value::Cast(inner) => self.value(inner, source, scope, mode.of_cast()),
            Value::CastVoid(inner) => {
                self.value(inner, source, scope, Mode::Dropped)?;
                Ok(Lowered::Nothing)
            }
            Value::And { left, right } => {
                let to = self.new_temporary();
                let left = integer(self.value(left, source, scope, Mode::Kept)?);
                let test = self.reserve()?;
                let right = integer(self.value(right, source, scope, Mode::Kept)?);
                self.decide(true, to, test, left, right)
            }
            Value::Or { left, right } => {
                let to = self.new_temporary();
                let left = integer(self.value(left, source, scope, Mode::Kept)?);
                let test = self.reserve()?;
                let right = integer(self.value(right, source, scope, Mode::Kept)?);
                self.decide(false, to, test, left, right)
            }
            Value::Conditional {
                condition,
                then,
                otherwise,
            } => {
                let condition = integer(self.value(condition, source, scope, Mode::Kept)?);
                let test = self.reserve()?;
                let one = self.value(then, source, scope, Mode::Kept)?;
                let way = self.end_way(test, condition, one)?;
                let other = self.value(otherwise, source, scope, Mode::Kept)?;
                self.join_ways(way, other)
            }
            Value::Call {
                is_used,
                function,
                c_type,
                arguments,
                ..
            } => {
                let called = self.designator(function, source, scope)?;
                let site = self.new_call();
                let arguments = self.arguments(arguments.as_slice(), source, scope)?;
                self.call(called, site, arguments)?;
                self.given(*is_used, *c_type, site, source.types())
            }
            Value::LibraryCall {
                function,
                arguments,
                ..
            } => self.library_call(*function, arguments.as_slice(), source, scope),
            _ => self.operation(value, source, scope, mode),
        }
    }

    /// An operation on integers (C17 6.5.3.3, 6.5.5 to 6.5.12), or one that has no such operands.
    #[cycle(values)]
    fn operation(
        &mut self,
        value: &Value,
        source: &Source,
        scope: &[Home],
        mode: Mode,
    ) -> Result<Lowered, AllocError>
        requires source { IsSource source.now }
        requires homes { IsScope source.now scope.now }
        requires typed { ValueTyped source.now scope.now value.now }
        requires lives { ValueLives (scope_of source.now scope.now) (mode_of mode) (value_in (types_of_source source.now) value.now) }
        requires kind { IsOperation value.now }
        requires room { HasRoom self.old (names_for (value_nodes (value_in (types_of_source source.now) value.now))) }
        ensures code { IfOk result (ValueLowers source.now scope.now mode value.now self.old self.new) }
        ensures grows { OnOk result (Grows self.old self.new) }
        ensures adds { OnOk result (AddsFewer self.old self.new (names_for (value_nodes (value_in (types_of_source source.now) value.now)))) }
    {
        match value {
            Value::Constant { int_type, value } => self.constant(*int_type, *value),
            Value::Converted { int_type, value } => {
                let operand = integer(self.value(value, source, scope, Mode::Kept)?);
                self.computed(*int_type, conversion(*int_type, operand.tree))
            }
            Value::Plus(operand) => self.value(operand, source, scope, Mode::Kept),
            Value::Minus {
                int_type,
                operand,
                ..
            } => {
                let operand = integer(self.value(operand, source, scope, Mode::Kept)?);
                let tree = negative(self.alloc, *int_type, operand.tree)?;
                self.computed(*int_type, tree)
            }
            Value::Complement { int_type, operand } => {
                let operand = integer(self.value(operand, source, scope, Mode::Kept)?);
                self.computed(*int_type, complement(*int_type, operand.tree))
            }
            Value::Not(operand) => {
                let operand = integer(self.value(operand, source, scope, Mode::Kept)?);
                self.computed(IntType::Int, negated(operand.int_type, operand.tree))
            }
            Value::Arithmetic {
                op,
                int_type,
                left,
                right,
                ..
            } => {
                let left = self.value(left, source, scope, Mode::Kept)?;
                let left = self.left_operand(left, right, source.types(), scope)?;
                let right = integer(self.value(right, source, scope, Mode::Kept)?);
                let tree = arithmetic(*op, *int_type, left.tree, right.tree);
                self.computed(*int_type, tree)
            }
            Value::Compare {
                relation,
                left,
                right,
            } => {
                let left = self.value(left, source, scope, Mode::Kept)?;
                let left = self.left_operand(left, right, source.types(), scope)?;
                let right = integer(self.value(right, source, scope, Mode::Kept)?);
                let tree = comparison(*relation, left.int_type, left.tree, right.tree);
                self.computed(IntType::Int, tree)
            }
            _ => self.pointer_operation(value, source, scope, mode),
        }
    }

    /// The left operand of an operator: where the right one has points of its own, a temporary holds it.
    fn left_operand(
        &mut self,
        left: Lowered,
        right: &Value,
        types: &TypeTable,
        scope: &[Home],
    ) -> Result<IntegerValue, AllocError>
        requires integer { IsInteger left }
        requires homes { HomesStand types.now scope.now }
        requires room { HasRoom self.old 1 }
        ensures code { IfOk result (λ kept. LeadsIn types.now (λ points start end. (tree : C.Tree) × (lowered_in types.now left ≡ AsInteger kept.int_type tree) × KeepsTree points (not (H.is_pure (scope_in types.now scope.now) (value_in types.now right.now))) tree start end (tree_of kept.tree.value)) self.old self.new) }
        ensures grows { OnOk result (Grows self.old self.new) }
        ensures adds { OnOk result (Adds self.old self.new 1) }
    {
        let IntegerValue { int_type, tree } = integer(left);
        let is_followed = !is_pure(types, scope, right);
        let tree = self.keep(is_followed, tree)?;
        Ok(IntegerValue { int_type, tree })
    }

    /// An operation on pointers (C17 6.3.2.3, 6.5.6, 6.5.8, 6.5.9), or one that has no such operands.
    #[cycle(values)]
    fn pointer_operation(
        &mut self,
        value: &Value,
        source: &Source,
        scope: &[Home],
        mode: Mode,
    ) -> Result<Lowered, AllocError>
        requires source { IsSource source.now }
        requires homes { IsScope source.now scope.now }
        requires typed { ValueTyped source.now scope.now value.now }
        requires lives { ValueLives (scope_of source.now scope.now) (mode_of mode) (value_in (types_of_source source.now) value.now) }
        requires kind { IsPointerOperation value.now }
        requires room { HasRoom self.old (names_for (value_nodes (value_in (types_of_source source.now) value.now))) }
        ensures code { IfOk result (ValueLowers source.now scope.now mode value.now self.old self.new) }
        ensures grows { OnOk result (Grows self.old self.new) }
        ensures adds { OnOk result (AddsFewer self.old self.new (names_for (value_nodes (value_in (types_of_source source.now) value.now)))) }
    {
        match value {
            Value::NullPointer => self.null(CType::VOID),
            Value::Repointed { target, value, .. } => {
                let from = pointer(self.value(value, source, scope, Mode::Kept)?);
                self.repoint(from, *target)
            }
            Value::MadeNull { target, value } => {
                self.value(value, source, scope, Mode::Dropped)?;
                self.null(*target)
            }
            Value::Tested { value, .. } => {
                let from = pointer(self.value(value, source, scope, Mode::Kept)?);
                self.test_pointer(from)
            }
            Value::ComparePointers {
                relation,
                left,
                right,
                ..
            } => {
                let left = pointer(self.value(left, source, scope, Mode::Kept)?);
                let right = pointer(self.value(right, source, scope, Mode::Kept)?);
                self.compare_pointers(*relation, left, right)
            }
            Value::PointerPlus {
                pointer: from,
                number,
                ..
            } => {
                let from = pointer(self.value(from, source, scope, Mode::Kept)?);
                let number = integer(self.value(number, source, scope, Mode::Kept)?);
                self.moved(from, false, number.tree)
            }
            Value::NumberPlus {
                number,
                pointer: from,
                ..
            } => {
                let number = integer(self.value(number, source, scope, Mode::Kept)?);
                let tree = self.keep(true, number.tree)?;
                let from = pointer(self.value(from, source, scope, Mode::Kept)?);
                self.moved(from, false, tree)
            }
            Value::PointerMinus {
                pointer: from,
                number,
                ..
            } => {
                let from = pointer(self.value(from, source, scope, Mode::Kept)?);
                let number = integer(self.value(number, source, scope, Mode::Kept)?);
                self.moved(from, true, number.tree)
            }
            Value::PointerDifference { left, right, .. } => {
                let left = pointer(self.value(left, source, scope, Mode::Kept)?);
                let right = pointer(self.value(right, source, scope, Mode::Kept)?);
                self.difference(left, right)
            }
            _ => self.assignment(value, source, scope, mode),
        }
    }

    /// A constant.
    fn constant(&self, int_type: IntType, value: i128) -> Result<Lowered, AllocError>
        ensures { IfOk result (λ lowered. (table : Interned) → lowered_in table lowered ≡ AsInteger int_type (C.Constant value)) }
    {
        self.computed(int_type, Tree::Constant(value))
    }
}
