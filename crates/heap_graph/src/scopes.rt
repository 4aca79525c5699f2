// What is known of a function, collected from its code.

ghost use Rattle.std.specs.Prelude.{◌≡◌, map, IfOk, OnOk};
ghost use Rattle.c_typed.specs.Table.{Interned};
ghost use Rattle.tac_ir.specs.declared.register.Register.{Register};
ghost use Rattle.tac_ir.specs.Views.{op_in};
ghost use Rattle.heap_graph.specs.Known.{Describes};
ghost use Rattle.heap_graph.specs.Scopes.{AreBlank, Marks, MarksNull, MarksNulls, TellsTypes, AddsType};

use crate::scope::{LocalTypes, RegisterMarks, Scope};
use crate::tables::put;
use c_typed::CType;
use std::alloc::{AllocError, Global};
use tac_ir::{Function, FunctionId, Local, LocalObject, Op, Register};

/// What is known of a function, or of `start`.
pub fn scope_of(
    alloc: Global,
    owner: Option<FunctionId>,
    function: &Function,
) -> Result<Scope, AllocError>
    ensures owner { IfOk result (λ scope. scope.owner ≡ owner) }
    ensures describes { IfOk result (λ scope. (table : Interned) → Describes table function.now scope) }
{
    let mut nulls = no_marks(alloc);
    mark_nulls(&mut nulls, function.points.as_slice())?;
    let locals = types_of(alloc, function.objects.as_slice())?;
    Ok(Scope {
        owner,
        nulls,
        locals,
    })
}

// ---- null pointer constants

fn no_marks(alloc: Global) -> RegisterMarks
    ensures { AreBlank result }
{
    RegisterMarks {
        parameters: Vec::new(alloc),
        variables: Vec::new(alloc),
        calls: Vec::new(alloc),
        arguments: Vec::new(alloc),
        expressions: Vec::new(alloc),
        temporaries: Vec::new(alloc),
    }
}

/// Marks the registers of null pointer constants.
fn mark_nulls(marks: &mut RegisterMarks, points: &[Op]) -> Result<(), AllocError>
    ensures { OnOk result ((table : Interned) → MarksNulls marks.old marks.new (map (op_in table) points.now)) }
{
    for op in points {
        mark_null(marks, op)?;
    }
    Ok(())
}

fn mark_null(marks: &mut RegisterMarks, op: &Op) -> Result<(), AllocError>
    ensures { OnOk result ((table : Interned) → MarksNull marks.old marks.new (op_in table op.now)) }
{
    match op {
        Op::Null { to } => mark(marks, *to),
        _ => Ok(()),
    }
}

fn mark(marks: &mut RegisterMarks, register: Register) -> Result<(), AllocError>
    ensures { OnOk result (Marks marks.old marks.new register) }
{
    match register {
        Register::Local(Local::Parameter(number)) => put(
            &mut marks.parameters,
            number,
            true,
            false,
        ),
        Register::Local(Local::Variable(number)) => put(&mut marks.variables, number, true, false),
        Register::Call(number) => put(&mut marks.calls, number, true, false),
        Register::Argument(number) => put(&mut marks.arguments, number, true, false),
        Register::Expression(number) => put(&mut marks.expressions, number, true, false),
        Register::Temporary(number) => put(&mut marks.temporaries, number, true, false),
    }
}

// ---- locals in memory

/// The types of these objects; of several of one local that of the first.
fn types_of(alloc: Global, objects: &[LocalObject]) -> Result<LocalTypes, AllocError>
    ensures { IfOk result (λ locals. TellsTypes objects.now locals) }
{
    let mut locals = LocalTypes {
        parameters: Vec::new(alloc),
        variables: Vec::new(alloc),
    };
    let mut number = objects.len();
    while number > 0 {
        number -= 1;
        put_object(&mut locals, objects[number])?;
    }
    Ok(locals)
}

/// Puts an object in front of others.
fn put_object(locals: &mut LocalTypes, object: LocalObject) -> Result<(), AllocError>
    ensures { OnOk result (AddsType locals.old locals.new object) }
{
    match object.local {
        Local::Parameter(number) => {
            put(&mut locals.parameters, number, object.c_type, CType::VOID)
        }
        Local::Variable(number) => put(&mut locals.variables, number, object.c_type, CType::VOID),
    }
}
