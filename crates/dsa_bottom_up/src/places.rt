// Expressions for objects and for functions.

ghost use Rattle.std.specs.Prelude.{IfOk};
ghost use Rattle.dsa_bottom_up.specs.Counts.{CountsObject, CountsGrouped, CountsPointed, CountsElement, CountsMember, CountsPointedMember, CountsDesignator, CountsGroupedFunction, CountsPointedFunction, CountsCalledPointer};

use crate::counts::{CountedPlace, place, sum};
use crate::names::Names;
use crate::types::{local, member, target};
use c_typed::{CType, Designator, Object, TypeTable, Value};
use std::alloc::AllocError;

impl Names {
    /// An expression for its object.
    #[cycle(expressions)]
    pub(crate) fn object(
        &self,
        types: &TypeTable,
        scope: &[CType],
        object: &Object,
    ) -> Result<CountedPlace, AllocError>
        ensures { IfOk result (CountsObject types.now self.now scope.now object.now) }
    {
        match object {
            Object::Local(number) => place(types, local(scope, *number), 0),
            Object::Global(name) => place(types, self.variable(name.as_slice()), 0),
            Object::Literal { c_type, .. } => place(types, *c_type, 0),
            Object::Grouped { inner, .. } => self.grouped(types, scope, inner),
            Object::Pointed { pointer, .. } => self.pointed(types, scope, pointer),
            Object::Element {
                pointer,
                number,
                ..
            } => self.element(types, scope, pointer, number),
            Object::ElementOf {
                number,
                pointer,
                ..
            } => self.element(types, scope, pointer, number),
            Object::MemberOf { object, number, .. } => {
                self.member(types, scope, object, *number)
            }
            Object::PointedMember {
                pointer,
                number,
                ..
            } => self.pointed_member(types, scope, pointer, *number),
        }
    }

    /// An object in parentheses.
    #[cycle(expressions)]
    fn grouped(
        &self,
        types: &TypeTable,
        scope: &[CType],
        object: &Object,
    ) -> Result<CountedPlace, AllocError>
        ensures { IfOk result (CountsGrouped types.now self.now scope.now object.now) }
    {
        let inner = self.object(types, scope, object)?;
        place(types, inner.c_type, inner.count)
    }

    /// `*p` (C17 6.5.3.2)
    #[cycle(expressions)]
    fn pointed(
        &self,
        types: &TypeTable,
        scope: &[CType],
        pointer: &Value,
    ) -> Result<CountedPlace, AllocError>
        ensures { IfOk result (CountsPointed types.now self.now scope.now pointer.now) }
    {
        let pointer = self.value(types, scope, pointer)?;
        place(types, target(pointer.shape), pointer.count)
    }

    /// `p[i]` (C17 6.5.2.1)
    #[cycle(expressions)]
    fn element(
        &self,
        types: &TypeTable,
        scope: &[CType],
        pointer: &Value,
        number: &Value,
    ) -> Result<CountedPlace, AllocError>
        ensures { IfOk result (CountsElement types.now self.now scope.now pointer.now number.now) }
    {
        let pointer = self.value(types, scope, pointer)?;
        let number = self.value(types, scope, number)?;
        let below = sum(pointer.count, number.count)?;
        place(types, target(pointer.shape), below)
    }

    /// `s.m` (C17 6.5.2.3)
    #[cycle(expressions)]
    fn member(
        &self,
        types: &TypeTable,
        scope: &[CType],
        object: &Object,
        number: u32,
    ) -> Result<CountedPlace, AllocError>
        ensures { IfOk result (CountsMember types.now self.now scope.now object.now number) }
    {
        let whole = self.object(types, scope, object)?;
        place(types, member(types, whole.c_type, number), whole.count)
    }

    /// `p->m`
    #[cycle(expressions)]
    fn pointed_member(
        &self,
        types: &TypeTable,
        scope: &[CType],
        pointer: &Value,
        number: u32,
    ) -> Result<CountedPlace, AllocError>
        ensures { IfOk result (CountsPointedMember types.now self.now scope.now pointer.now number) }
    {
        let pointer = self.value(types, scope, pointer)?;
        let whole = target(pointer.shape);
        place(types, member(types, whole, number), pointer.count)
    }

    /// An expression for its function.
    #[cycle(expressions)]
    pub(crate) fn designator(
        &self,
        types: &TypeTable,
        scope: &[CType],
        function: &Designator,
    ) -> Result<CountedPlace, AllocError>
        ensures { IfOk result (CountsDesignator types.now self.now scope.now function.now) }
    {
        match function {
            Designator::Named(name) => Ok(CountedPlace::new(self.function(name.as_slice()), 1)),
            Designator::Grouped(inner) => self.grouped_function(types, scope, inner),
            Designator::Pointed { pointer, .. } => self.pointed_function(types, scope, pointer),
            Designator::ThroughPointer { pointer, .. } => {
                self.called_pointer(types, scope, pointer)
            }
        }
    }

    /// A function in parentheses.
    #[cycle(expressions)]
    fn grouped_function(
        &self,
        types: &TypeTable,
        scope: &[CType],
        function: &Designator,
    ) -> Result<CountedPlace, AllocError>
        ensures { IfOk result (CountsGroupedFunction types.now self.now scope.now function.now) }
    {
        let inner = self.designator(types, scope, function)?;
        let count = sum(1, inner.count)?;
        Ok(CountedPlace::new(inner.c_type, count))
    }

    /// The function to which a pointer points.
    #[cycle(expressions)]
    fn pointed_function(
        &self,
        types: &TypeTable,
        scope: &[CType],
        pointer: &Value,
    ) -> Result<CountedPlace, AllocError>
        ensures { IfOk result (CountsPointedFunction types.now self.now scope.now pointer.now) }
    {
        let pointer = self.value(types, scope, pointer)?;
        let count = sum(1, pointer.count)?;
        Ok(CountedPlace::new(target(pointer.shape), count))
    }

    /// A pointer that is called.
    #[cycle(expressions)]
    fn called_pointer(
        &self,
        types: &TypeTable,
        scope: &[CType],
        pointer: &Value,
    ) -> Result<CountedPlace, AllocError>
        ensures { IfOk result (CountsCalledPointer types.now self.now scope.now pointer.now) }
    {
        let pointer = self.value(types, scope, pointer)?;
        Ok(CountedPlace::new(target(pointer.shape), pointer.count))
    }
}
