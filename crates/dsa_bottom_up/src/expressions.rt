// Expressions: their types, and how many of them count.

ghost use Rattle.std.specs.Prelude.{IfOk};
ghost use Rattle.dsa_bottom_up.specs.Counts.{CountsValue, CountsAlike, CountsAs, CountsRead, CountsDecay, CountsFunction, CountsFirst, CountsBothAs, CountsChoice, CountsAddress, CountsFunctionAddress, CountsAssigned, CountsStepped, CountsCall, CountsValues, CountsOptional};

use crate::counts::{Counted, expression, sum};
use crate::names::Names;
use crate::types::{decayed, library_returned, returned, shape_of};
use c_num::IntType;
use c_typed::{CType, Designator, Object, Shape, TypeTable, Value};
use std::alloc::AllocError;

const INT: Shape = Shape::Integer(IntType::Int);

const LONG: Shape = Shape::Integer(IntType::Long);

impl Names {
    /// An expression for its value.
    #[cycle(expressions)]
    pub(crate) fn value(
        &self,
        types: &TypeTable,
        scope: &[CType],
        value: &Value,
    ) -> Result<Counted, AllocError>
        ensures { IfOk result (CountsValue types.now self.now scope.now value.now) }
    {
        match value {
            Value::Constant { int_type, .. } => Ok(Counted::new(Shape::Integer(*int_type), 0)),
            Value::NullPointer => Ok(Counted::new(Shape::Pointer(CType::VOID), 1)),
            Value::Grouped(inner) => self.alike(types, scope, inner),
            Value::Read { object, .. } => self.read(types, scope, object),
            Value::Decay { object, .. } => self.first_element(types, scope, object),
            Value::FunctionValue(function) => self.pointer_to(types, scope, function),
            Value::Converted { int_type, value } => {
                self.one_as(types, scope, value, Shape::Integer(*int_type))
            }
            Value::Repointed { target, value, .. } => {
                self.one_as(types, scope, value, Shape::Pointer(*target))
            }
            Value::MadeNull { target, value } => {
                self.one_as(types, scope, value, Shape::Pointer(*target))
            }
            Value::Tested { value, .. } => self.one_as(types, scope, value, INT),
            Value::Plus(operand) => self.alike(types, scope, operand),
            Value::Minus { operand, .. } => self.alike(types, scope, operand),
            Value::Complement { operand, .. } => self.alike(types, scope, operand),
            Value::Not(operand) => self.one_as(types, scope, operand, INT),
            Value::Arithmetic { left, right, .. } => self.like_first(types, scope, left, right),
            Value::Compare { left, right, .. } => self.both_as(types, scope, left, right, INT),
            Value::ComparePointers { left, right, .. } => {
                self.both_as(types, scope, left, right, INT)
            }
            Value::PointerPlus {
                pointer,
                number,
                ..
            } => self.like_first(types, scope, pointer, number),
            Value::NumberPlus {
                number,
                pointer,
                ..
            } => self.like_first(types, scope, pointer, number),
            Value::PointerMinus {
                pointer,
                number,
                ..
            } => self.like_first(types, scope, pointer, number),
            Value::PointerDifference { left, right, .. } => {
                self.both_as(types, scope, left, right, LONG)
            }
            Value::And { left, right } => self.both_as(types, scope, left, right, INT),
            Value::Or { left, right } => self.both_as(types, scope, left, right, INT),
            Value::Conditional {
                condition,
                then,
                otherwise,
            } => self.choice(types, scope, condition, then, otherwise),
            Value::AddressOf { object, .. } => self.address(types, scope, object),
            Value::AddressOfFunction(function) => self.function_address(types, scope, function),
            Value::Cast(value) => self.alike(types, scope, value),
            Value::CastVoid(value) => self.one_as(types, scope, value, Shape::Void),
            Value::Assign { object, value, .. } => self.assigned(types, scope, object, value),
            Value::AssignArithmetic { object, value, .. } => {
                self.assigned(types, scope, object, value)
            }
            Value::AssignMoved { object, number, .. } => {
                self.assigned(types, scope, object, number)
            }
            Value::StepInteger { object, .. } => self.stepped(types, scope, object),
            Value::StepPointer { object, .. } => self.stepped(types, scope, object),
            Value::Call {
                function,
                c_type,
                arguments,
                ..
            } => {
                let name = self.designator(types, scope, function)?;
                let arguments = self.values(types, scope, arguments.as_slice())?;
                call(returned(types, *c_type), name.count, arguments)
            }
            Value::LibraryCall {
                function,
                groups,
                arguments,
                ..
            } => {
                let name = sum(1, *groups as u64)?;
                let arguments = self.values(types, scope, arguments.as_slice())?;
                call(library_returned(*function), name, arguments)
            }
        }
    }

    /// An expression of the type of its operand.
    #[cycle(expressions)]
    fn alike(
        &self,
        types: &TypeTable,
        scope: &[CType],
        operand: &Value,
    ) -> Result<Counted, AllocError>
        ensures { IfOk result (CountsAlike types.now self.now scope.now operand.now) }
    {
        let operand = self.value(types, scope, operand)?;
        expression(operand.shape, operand.count)
    }

    /// A value as one of another type, which doesn't count itself.
    #[cycle(expressions)]
    fn one_as(
        &self,
        types: &TypeTable,
        scope: &[CType],
        operand: &Value,
        shape: Shape,
    ) -> Result<Counted, AllocError>
        ensures { IfOk result (CountsAs types.now self.now scope.now operand.now shape) }
    {
        let operand = self.value(types, scope, operand)?;
        Ok(Counted::new(shape, operand.count))
    }

    /// What an object holds (C17 6.3.2.1 paragraph 2).
    #[cycle(expressions)]
    fn read(
        &self,
        types: &TypeTable,
        scope: &[CType],
        object: &Object,
    ) -> Result<Counted, AllocError>
        ensures { IfOk result (CountsRead types.now self.now scope.now object.now) }
    {
        let object = self.object(types, scope, object)?;
        Ok(Counted::new(shape_of(types, object.c_type), object.count))
    }

    /// The address of an array's first element (C17 6.3.2.1 paragraph 3).
    #[cycle(expressions)]
    fn first_element(
        &self,
        types: &TypeTable,
        scope: &[CType],
        object: &Object,
    ) -> Result<Counted, AllocError>
        ensures { IfOk result (CountsDecay types.now self.now scope.now object.now) }
    {
        let object = self.object(types, scope, object)?;
        Ok(Counted::new(decayed(types, object.c_type), object.count))
    }

    /// A function as a value (C17 6.3.2.1 paragraph 4).
    #[cycle(expressions)]
    fn pointer_to(
        &self,
        types: &TypeTable,
        scope: &[CType],
        function: &Designator,
    ) -> Result<Counted, AllocError>
        ensures { IfOk result (CountsFunction types.now self.now scope.now function.now) }
    {
        let function = self.designator(types, scope, function)?;
        Ok(Counted::new(Shape::Pointer(function.c_type), function.count))
    }

    /// An expression of the type of the first of two operands.
    #[cycle(expressions)]
    fn like_first(
        &self,
        types: &TypeTable,
        scope: &[CType],
        first: &Value,
        second: &Value,
    ) -> Result<Counted, AllocError>
        ensures { IfOk result (CountsFirst types.now self.now scope.now first.now second.now) }
    {
        let first = self.value(types, scope, first)?;
        let second = self.value(types, scope, second)?;
        let below = sum(first.count, second.count)?;
        expression(first.shape, below)
    }

    /// An expression of this type, which doesn't count itself, of two operands.
    #[cycle(expressions)]
    fn both_as(
        &self,
        types: &TypeTable,
        scope: &[CType],
        first: &Value,
        second: &Value,
        shape: Shape,
    ) -> Result<Counted, AllocError>
        ensures { IfOk result (CountsBothAs types.now self.now scope.now first.now second.now shape) }
    {
        let first = self.value(types, scope, first)?;
        let second = self.value(types, scope, second)?;
        let below = sum(first.count, second.count)?;
        Ok(Counted::new(shape, below))
    }

    /// `c ? a : b` (C17 6.5.15)
    #[cycle(expressions)]
    fn choice(
        &self,
        types: &TypeTable,
        scope: &[CType],
        condition: &Value,
        then: &Value,
        otherwise: &Value,
    ) -> Result<Counted, AllocError>
        ensures { IfOk result (CountsChoice types.now self.now scope.now condition.now then.now otherwise.now) }
    {
        let condition = self.value(types, scope, condition)?;
        let then = self.value(types, scope, then)?;
        let otherwise = self.value(types, scope, otherwise)?;
        let branches = sum(then.count, otherwise.count)?;
        let below = sum(condition.count, branches)?;
        expression(then.shape, below)
    }

    /// The address of an object (C17 6.5.3.2).
    #[cycle(expressions)]
    fn address(
        &self,
        types: &TypeTable,
        scope: &[CType],
        object: &Object,
    ) -> Result<Counted, AllocError>
        ensures { IfOk result (CountsAddress types.now self.now scope.now object.now) }
    {
        let object = self.object(types, scope, object)?;
        let count = sum(1, object.count)?;
        Ok(Counted::new(Shape::Pointer(object.c_type), count))
    }

    /// The address of a function.
    #[cycle(expressions)]
    fn function_address(
        &self,
        types: &TypeTable,
        scope: &[CType],
        function: &Designator,
    ) -> Result<Counted, AllocError>
        ensures { IfOk result (CountsFunctionAddress types.now self.now scope.now function.now) }
    {
        let function = self.designator(types, scope, function)?;
        let count = sum(1, function.count)?;
        Ok(Counted::new(Shape::Pointer(function.c_type), count))
    }

    /// An expression that gives an object a value, of the object's type.
    #[cycle(expressions)]
    fn assigned(
        &self,
        types: &TypeTable,
        scope: &[CType],
        object: &Object,
        value: &Value,
    ) -> Result<Counted, AllocError>
        ensures { IfOk result (CountsAssigned types.now self.now scope.now object.now value.now) }
    {
        let object = self.object(types, scope, object)?;
        let value = self.value(types, scope, value)?;
        let below = sum(object.count, value.count)?;
        expression(shape_of(types, object.c_type), below)
    }

    /// An expression that steps an object, of the object's type.
    #[cycle(expressions)]
    fn stepped(
        &self,
        types: &TypeTable,
        scope: &[CType],
        object: &Object,
    ) -> Result<Counted, AllocError>
        ensures { IfOk result (CountsStepped types.now self.now scope.now object.now) }
    {
        let object = self.object(types, scope, object)?;
        expression(shape_of(types, object.c_type), object.count)
    }

    /// Arguments.
    #[cycle(expressions)]
    pub(crate) fn values(
        &self,
        types: &TypeTable,
        scope: &[CType],
        values: &[Value],
    ) -> Result<u64, AllocError>
        ensures { IfOk result (CountsValues types.now self.now scope.now values.now) }
    {
        let mut count = 0;
        for value in values {
            let one = self.value(types, scope, value)?;
            count = sum(count, one.count)?;
        }
        Ok(count)
    }

    /// A value, or none.
    pub(crate) fn optional(
        &self,
        types: &TypeTable,
        scope: &[CType],
        value: &Option<Value>,
    ) -> Result<u64, AllocError>
        ensures { IfOk result (CountsOptional types.now self.now scope.now value.now) }
    {
        match value {
            Some(value) => {
                let value = self.value(types, scope, value)?;
                Ok(value.count)
            }
            None => Ok(0),
        }
    }
}

/// A call, by what counts in the called expression and in the arguments.
fn call(shape: Shape, name: u64, arguments: u64) -> Result<Counted, AllocError>
    ensures { IfOk result (CountsCall shape name arguments) }
{
    let below = sum(name, arguments)?;
    expression(shape, below)
}
