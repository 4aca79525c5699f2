// Classes of functions that calls may reach through pointers.

ghost use Rattle.std.specs.Prelude.{◌≡◌, length, map, IfOk};
ghost use Rattle.tac_ir.specs.Views.{op_in};
ghost use Rattle.call_graph.specs.ClassLists.{AreClasses};
ghost use Rattle.dsa_local.specs.Called.{call_at, AreNone, AreCalled, AddsCalled};

use call_graph::Classes;
use std::alloc::{AllocError, Global};
use tac_ir::{Callee, Function, Op, Tac};

/// The classes of functions that calls of a program may reach through a pointer.
#[derive(Drop)]
pub struct CalledClasses {
    /// Of each function, a call through a pointer of which it is the first target, if there is one.
    callees: Vec<Option<Callee>>,
}

impl CalledClasses {
    /// Those of a program.
    pub fn of_program(
        alloc: Global,
        tac: &Tac,
        classes: &Classes,
    ) -> Result<CalledClasses, AllocError>
        requires { AreClasses tac.now classes.now }
        ensures { IfOk result (λ made. AreCalled tac.now made) }
    {
        let mut callees = no_calls(alloc, &tac.functions)?;
        for function in tac.functions.as_slice() {
            add_called(&mut callees, tac, classes, &function.points);
        }
        add_called(&mut callees, tac, classes, &tac.start.points);
        Ok(CalledClasses { callees })
    }

    /// A call through a pointer of which a function is the first target.
    pub(crate) fn call_to(&self, function: usize) -> Option<Callee>
        ensures { result ≡ call_at self.now.callees.items function }
    {
        *self.callees.get(function)?
    }
}

/// No call for each of some functions.
fn no_calls(alloc: Global, functions: &[Function]) -> Result<Vec<Option<Callee>>, AllocError>
    ensures { IfOk result (λ made. AreNone (length functions.now) made.items) }
{
    let mut callees = Vec::new(alloc);
    for _ in functions {
        callees.push(None)?;
    }
    Ok(callees)
}

/// Adds the calls of some points.
fn add_called(callees: &mut Vec<Option<Callee>>, tac: &Tac, classes: &Classes, points: &[Op])
    requires classes { AreClasses tac.now classes.now }
    requires each { length callees.old.items ≡ length tac.now.functions.items }
    ensures { AddsCalled tac.now (map (op_in tac.now.types) points.now) callees.old.items callees.new.items }
{
    for op in points {
        if let Op::Call { callee, .. } = op {
            if let Some(first) = classes.class_of(tac, *callee) {
                callees[first] = Some(*callee);
            }
        }
    }
}
