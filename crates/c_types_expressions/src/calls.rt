// Calls (C17 6.5.2.2).

ghost use Rattle.std.specs.Prelude.{◌≡◌, true, Some, IfOk};
ghost use Rattle.c_typed.specs.Types as T;
ghost use Rattle.c_typed.specs.Table.{Interned, Stands, type_in, ListStands, types_in};
ghost use Rattle.c_typed.specs.Typed as typed;
ghost use Rattle.c_typed.specs.Views.{ValueStands, designator_in, DesignatorStands};
ghost use Rattle.c_rules.specs.Known.{give};
ghost use Rattle.c_rules.specs.Operators as rules;
ghost use Rattle.c_types_state.specs.Finding.{Finds, IsExpr, IsType, ExprStands, AllStand, each_in, TypedStands, typed_in};
ghost use Rattle.c_types_state.specs.Operands.{IsOperand, OperandStands, operand_in};
ghost use Rattle.c_types_expressions.specs.Arguments.{ArgumentStands, arguments_in, ArgumentsStand};
ghost use Rattle.c_types_expressions.specs.Calls.{call_of_part, library_known, FindsPassed, FindsPassedOne, CallStands, MakesCall, FindsFunction};
ghost use Rattle.c_types_expressions.specs.Signatures.{IsSignature};
ghost use Rattle.c_rules.specs.Names as names;
ghost use Rattle.c_types_state.specs.Promises.{FindsOfPart, MakesInEach};

use c_num::IntType;
use c_rules::{Constness, TypeRule};
use c_typed::{CType, Designator, LibraryFunction, Parameters, Shape, Value};
use c_types_state::types::{is_array, is_struct};
use c_types_state::{
    Address, Checker, Known, Operand, TypedExpr, converted, fits, unconverted, value_from,
};
use run_theory::Pos;
use std::alloc::{AllocError, Global};

/// An argument of a call: the place of its first token, and its value where that is known.
#[derive(Drop)]
pub struct Argument {
    pub place: Pos,
    pub value: Option<Operand>,
}

/// A call of a function with arguments; the whole stands where the function does.
pub fn call(
    checker: &mut Checker,
    whole: Pos,
    function: Option<Known>,
    arguments: Vec<Argument>,
) -> Result<Option<Operand>, AllocError>
    requires function { AllStand ExprStands checker.old.table function }
    requires arguments { ArgumentsStand checker.old.table arguments.items }
    ensures { FindsOfPart IsOperand (call_of_part whole (arguments_in checker.old.table arguments.items)) function checker.old checker.new result }
{
    let Some(function) = function else {
        return Ok(None);
    };
    let is_value = !is_struct(checker, function.c_type);
    checker.require(is_value, TypeRule::T19, whole);
    let Some(signature) = called_signature(checker, whole, function.c_type) else {
        return Ok(None);
    };
    let agrees = are_as_many(checker, signature.parameters, &arguments);
    if !checker.require(agrees, TypeRule::T13, whole) {
        return Ok(None);
    }
    let is_free = match function.typed {
        TypedExpr::Library {
            function: LibraryFunction::Free,
            ..
        } => true,
        _ => false,
    };
    let passed = passed(checker, whole, is_free, signature.parameters, arguments)?;
    let Some(values) = passed else {
        return Ok(None);
    };
    let is_array = is_array(checker, function.c_type);
    let value = call_value(
        checker.alloc(),
        whole,
        is_array,
        function.typed,
        signature.c_type,
        values,
    )?;
    Ok(Some(Operand::of_type(signature.returned, value)))
}

/// The type of a function that is called.
#[derive(Clone, Copy, Debug, PartialEq, Eq)]
struct Signature {
    c_type: CType,
    returned: CType,
    parameters: Parameters,
}

/// The function that is called, or to which what is called points.
fn called_signature(checker: &mut Checker, whole: Pos, c_type: CType) -> Option<Signature>
    requires { Stands checker.old.table c_type }
    ensures { IsSignature checker.old checker.new whole (type_in checker.old.table c_type) result }
{
    let called = match checker.shape(c_type) {
        Shape::Pointer(target) => target,
        Shape::Array { element, .. } => element,
        _ => c_type,
    };
    match checker.shape(called) {
        Shape::Function {
            result: returned,
            parameters,
        } => Some(Signature {
            c_type: called,
            returned,
            parameters,
        }),
        _ => {
            checker.note(TypeRule::T12, whole);
            None
        }
    }
}

/// Whether there are as many arguments as parameters.
fn are_as_many(checker: &Checker, parameters: Parameters, arguments: &[Argument]) -> bool
    requires { ListStands checker.now.table parameters }
    ensures { result ≡ rules.as_many (types_in checker.now.table parameters) (arguments_in checker.now.table arguments.now) }
{
    let mut parameters = parameters;
    for _ in arguments {
        match checker.first_parameter(parameters) {
            Some((_, others)) => parameters = others,
            None => return false,
        }
    }
    checker.first_parameter(parameters).is_none()
}

/// The values of arguments, where all are known and fit. What `free` is given needs no conversion.
fn passed(
    checker: &mut Checker,
    whole: Pos,
    is_free: bool,
    parameters: Parameters,
    arguments: Vec<Argument>,
) -> Result<Option<Vec<Value>>, AllocError>
    requires parameters { ListStands checker.old.table parameters }
    requires arguments { ArgumentsStand checker.old.table arguments.items }
    ensures { FindsPassed whole is_free parameters arguments.items checker.old checker.new result }
{
    let mut parameters = parameters;
    let mut values = Vec::new(checker.alloc());
    let mut are_known = true;
    for argument in arguments {
        let Some((parameter, others)) = checker.first_parameter(parameters) else {
            if is_free {
                let passed = unconverted_argument(checker.alloc(), argument.value)?;
                values.push(Box::into_inner(passed))?;
                continue;
            }
            break;
        };
        parameters = others;
        match passed_value(checker, whole, is_free, parameter, argument)? {
            Some(value) => values.push(value)?,
            None => are_known = false,
        }
    }
    Ok(are_known.then_some(values))
}

/// The value of an argument, where it is known and fits a parameter.
fn passed_value(
    checker: &mut Checker,
    whole: Pos,
    is_free: bool,
    parameter: CType,
    argument: Argument,
) -> Result<Option<Value>, AllocError>
    requires parameter { Stands checker.old.table parameter }
    requires argument { ArgumentStands checker.old.table argument }
    ensures { FindsPassedOne whole is_free parameter argument checker.old checker.new result }
{
    let Argument { place, value } = argument;
    let Some(operand) = value else {
        return Ok(None);
    };
    let fits = fits(checker, parameter, &operand);
    if !checker.require(fits, TypeRule::T10, place) {
        return Ok(None);
    }
    if is_free {
        let value = given_to_free(checker.alloc(), operand)?;
        return Ok(Some(Box::into_inner(value)));
    }
    let value = converted(checker, whole, parameter, operand)?;
    Ok(Some(Box::into_inner(value)))
}

/// What `free` is given: a value as it is, but for a null pointer constant, which becomes a pointer to `void`.
fn given_to_free(alloc: Global, operand: Operand) -> Result<Box<Value>, AllocError>
    ensures stands { IfOk result (λ value. (table : Interned) → OperandStands table operand → ValueStands table value.value) }
    ensures unconverted { MakesInEach (λ table. rules.unconverted_value T.Void (operand_in table operand)) result }
{
    unconverted(alloc, CType::VOID, operand)
}

/// An argument that is passed without a conversion, where it is known.
fn unconverted_argument(alloc: Global, argument: Option<Operand>) -> Result<Box<Value>, AllocError>
    ensures stands { IfOk result (λ value. (table : Interned) → AllStand OperandStands table argument → ValueStands table value.value) }
    ensures unconverted { MakesInEach (λ table. rules.unconverted_argument (each_in operand_in table argument)) result }
{
    match argument {
        Some(operand) => given_to_free(alloc, operand),
        None => Ok(Box::new(alloc, Value::NullPointer)?),
    }
}

/// A call of what the called expression stands for.
fn call_value(
    alloc: Global,
    whole: Pos,
    is_array: bool,
    function: TypedExpr,
    c_type: CType,
    values: Vec<Value>,
) -> Result<Box<Value>, AllocError>
    ensures stands { CallStands (λ table. TypedStands table function) c_type values.items result }
    ensures call { MakesCall (λ table. rules.call_of whole is_array (typed_in table function)) c_type values.items result }
{
    match function {
        TypedExpr::Library { function, groups } => {
            let value = Value::LibraryCall {
                function,
                groups,
                place: whole,
                arguments: values,
            };
            Ok(Box::new(alloc, value)?)
        }
        TypedExpr::Function(function) => designated_call(alloc, whole, function, c_type, values),
        pointer => {
            let function = Designator::ThroughPointer {
                place: whole,
                pointer: value_from(alloc, whole, is_array, pointer)?,
            };
            let function = Box::new(alloc, function)?;
            designated_call(alloc, whole, function, c_type, values)
        }
    }
}

/// A call of a function that is designated.
fn designated_call(
    alloc: Global,
    whole: Pos,
    function: Box<Designator>,
    c_type: CType,
    values: Vec<Value>,
) -> Result<Box<Value>, AllocError>
    ensures stands { CallStands (λ table. DesignatorStands table function.value) c_type values.items result }
    ensures call { MakesCall (λ table. typed.Call true whole (designator_in table function.value)) c_type values.items result }
{
    let value = Value::Call {
        is_used: true,
        place: whole,
        function,
        c_type,
        arguments: values,
    };
    Ok(Box::new(alloc, value)?)
}

/// A library function that is called by its name, which stands in so many parentheses.
pub fn library(
    checker: &mut Checker,
    function: LibraryFunction,
    groups: usize,
) -> Result<Known, AllocError>
    ensures { IfOk result (λ known. Finds IsExpr (give (library_known function groups)) checker.old checker.new (Some known)) }
{
    Ok(Known {
        c_type: library_type(checker, function)?,
        typed: TypedExpr::Library { function, groups },
        constness: Constness::NotConstant,
        is_null: false,
        address: Address::Unknown,
    })
}

/// The type of a library function.
fn library_type(checker: &mut Checker, function: LibraryFunction) -> Result<CType, AllocError>
    ensures { IfOk result (λ made. Finds IsType (give (names.library_type function)) checker.old checker.new (Some made)) }
{
    let int = CType::integer(IntType::Int);
    match function {
        LibraryFunction::Malloc => {
            let returned = checker.pointer_to(CType::VOID)?;
            function_of(checker, returned, CType::integer(IntType::ULong))
        }
        LibraryFunction::Free => {
            let parameter = checker.pointer_to(CType::VOID)?;
            function_of(checker, CType::VOID, parameter)
        }
        LibraryFunction::GetChar => {
            let none = checker.no_parameters()?;
            checker.function(int, none)
        }
        LibraryFunction::PutChar => function_of(checker, int, int),
        LibraryFunction::Exit => function_of(checker, CType::VOID, int),
    }
}

/// The functions of one parameter.
fn function_of(
    checker: &mut Checker,
    returned: CType,
    parameter: CType,
) -> Result<CType, AllocError>
    requires returned { Stands checker.old.table returned }
    requires parameter { Stands checker.old.table parameter }
    ensures { FindsFunction returned parameter checker.old checker.new result }
{
    let none = checker.no_parameters()?;
    let parameters = checker.parameter(parameter, none)?;
    checker.function(returned, parameters)
}
