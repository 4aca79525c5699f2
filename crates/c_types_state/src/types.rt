// Questions about types.

ghost use Rattle.std.specs.Prelude.{◌≡◌, true, IfOk, Some};
ghost use Rattle.c_typed.specs.Types as T;
ghost use Rattle.c_typed.specs.Table.{Stands, type_in};
ghost use Rattle.c_rules.specs.Known.{give};
ghost use Rattle.c_rules.specs.Operators as rules;
ghost use Rattle.c_types_state.specs.Finding.{Finds, IsType};
ghost use Rattle.c_types_state.specs.NameTables.{scope_of};

use crate::checker::Checker;
use c_num::{IntType, promote};
use c_typed::{CType, Shape};
use std::alloc::AllocError;

pub fn is_integer(checker: &Checker, t: CType) -> bool
    requires { Stands checker.now.table t }
    ensures { result ≡ T.is_integer (type_in checker.now.table t) }
{
    match checker.shape(t) {
        Shape::Integer(_) => true,
        _ => false,
    }
}

pub fn is_void(checker: &Checker, t: CType) -> bool
    requires { Stands checker.now.table t }
    ensures { result ≡ T.is_void (type_in checker.now.table t) }
{
    match checker.shape(t) {
        Shape::Void => true,
        _ => false,
    }
}

pub fn is_array(checker: &Checker, t: CType) -> bool
    requires { Stands checker.now.table t }
    ensures { result ≡ T.is_array (type_in checker.now.table t) }
{
    match checker.shape(t) {
        Shape::Array { .. } => true,
        _ => false,
    }
}

pub fn is_struct(checker: &Checker, t: CType) -> bool
    requires { Stands checker.now.table t }
    ensures { result ≡ T.is_struct (type_in checker.now.table t) }
{
    match checker.shape(t) {
        Shape::Struct(_) => true,
        _ => false,
    }
}

pub fn is_function(checker: &Checker, t: CType) -> bool
    requires { Stands checker.now.table t }
    ensures { result ≡ T.is_function (type_in checker.now.table t) }
{
    match checker.shape(t) {
        Shape::Function { .. } => true,
        _ => false,
    }
}

pub fn is_pointer(checker: &Checker, t: CType) -> bool
    requires { Stands checker.now.table t }
    ensures { result ≡ T.is_pointer (type_in checker.now.table t) }
{
    match checker.shape(t) {
        Shape::Pointer(_) => true,
        _ => false,
    }
}

/// Whether it is a pointer to an object type or to `void`.
pub fn is_object_pointer(checker: &Checker, t: CType) -> bool
    requires { Stands checker.now.table t }
    ensures { result ≡ T.is_object_pointer (type_in checker.now.table t) }
{
    match checker.shape(t) {
        Shape::Pointer(target) => !is_function(checker, target),
        _ => false,
    }
}

pub fn is_void_pointer(checker: &Checker, t: CType) -> bool
    requires { Stands checker.now.table t }
    ensures { result ≡ T.is_void_pointer (type_in checker.now.table t) }
{
    match checker.shape(t) {
        Shape::Pointer(target) => is_void(checker, target),
        _ => false,
    }
}

pub fn is_function_pointer(checker: &Checker, t: CType) -> bool
    requires { Stands checker.now.table t }
    ensures { result ≡ T.is_function_pointer (type_in checker.now.table t) }
{
    match checker.shape(t) {
        Shape::Pointer(target) => is_function(checker, target),
        _ => false,
    }
}

pub fn is_scalar(checker: &Checker, t: CType) -> bool
    requires { Stands checker.now.table t }
    ensures { result ≡ rules.is_scalar (type_in checker.now.table t) }
{
    is_integer(checker, t) || is_pointer(checker, t)
}

/// Whether it is a pointer to an object type whose size is known.
pub fn is_pointer_to_complete(checker: &Checker, t: CType) -> bool
    requires { Stands checker.now.table t }
    ensures { result ≡ rules.is_pointer_to_complete (scope_of checker.now) (type_in checker.now.table t) }
{
    match checker.shape(t) {
        Shape::Pointer(target) => checker.is_complete(target),
        _ => false,
    }
}

/// What a pointer points to; of another type itself.
pub fn target_of(checker: &Checker, t: CType) -> CType
    requires { Stands checker.now.table t }
    ensures stands { Stands checker.now.table result }
    ensures target { type_in checker.now.table result ≡ rules.target_of (type_in checker.now.table t) }
{
    match checker.shape(t) {
        Shape::Pointer(target) => target,
        _ => t,
    }
}

/// An integer type; of another type `int`.
pub fn int_type_of(checker: &Checker, t: CType) -> IntType
    requires { Stands checker.now.table t }
    ensures { result ≡ rules.int_type_of (type_in checker.now.table t) }
{
    match checker.shape(t) {
        Shape::Integer(int_type) => int_type,
        _ => IntType::Int,
    }
}

/// The same after the integer promotions (C17 6.3.1.1 paragraph 2).
pub fn promoted_type(checker: &Checker, t: CType) -> IntType
    requires { Stands checker.now.table t }
    ensures { result ≡ rules.promoted_type (type_in checker.now.table t) }
{
    promote(int_type_of(checker, t))
}

/// What an array's or a function's type is as that of a value (C17 6.3.2.1 paragraphs 3 and 4).
pub fn decayed(checker: &mut Checker, t: CType) -> Result<CType, AllocError>
    requires { Stands checker.old.table t }
    ensures { IfOk result (λ made. Finds IsType (give (T.decayed (type_in checker.old.table t))) checker.old checker.new (Some made)) }
{
    match checker.shape(t) {
        Shape::Array { element, .. } => checker.pointer_to(element),
        Shape::Function { .. } => checker.pointer_to(t),
        _ => Ok(t),
    }
}
