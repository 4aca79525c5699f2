// Points that wait for a register: what they ask is asked once the node of its target is certain.

use crate::code::points_of;
use graph_unification::Name;
use heap_graph::Scope;
use indexmap::IndexMap;
use std::alloc::{AllocError, Global};
use std::hash::Hash;
use tac_ir::{Base, FunctionId, Local, Op, Register, Tac};

/// The kinds of registers.
#[derive(Clone, Copy, Debug, PartialEq, Eq, Hash)]
enum Kind {
    Parameter,
    Variable,
    Call,
    Argument,
    Expression,
    Temporary,
}

/// A register of a function, or of `start`.
#[derive(Clone, Copy, Debug, PartialEq, Eq, Hash)]
struct Awaited {
    function: Option<usize>,
    kind: Kind,
    number: usize,
}

/// A point that waits: the number of its function among the scopes, its own number, and which waits for the same register and was found
/// before it.
#[derive(Clone, Copy)]
pub(crate) struct Waiting {
    pub(crate) scope: usize,
    pub(crate) point: usize,
    pub(crate) before: Option<usize>,
}

/// The points that wait, and for each register the last of those that wait for it.
#[derive(Drop)]
pub(crate) struct Agenda {
    pub(crate) waiting: Vec<Waiting>,
    last: IndexMap<Awaited, usize>,
}

impl Agenda {
    /// The points of functions that wait for registers.
    pub(crate) fn of(alloc: Global, tac: &Tac, scopes: &[Scope]) -> Result<Agenda, AllocError> {
        let mut agenda = Agenda {
            waiting: Vec::new(alloc),
            last: IndexMap::new(alloc),
        };
        for (number, scope) in scopes.iter().enumerate() {
            agenda.add_points(scope.owner, number, points_of(tac, scope.owner))?;
        }
        Ok(agenda)
    }

    /// The last point that waits for a name, if that is a register.
    pub(crate) fn last_for(&self, name: Name) -> Option<usize> {
        match name {
            Name::Register { function, register } => {
                self.last.get(&key_of(function, register)).copied()
            }
            _ => None,
        }
    }

    fn add_points(
        &mut self,
        owner: Option<FunctionId>,
        scope: usize,
        points: &[Op],
    ) -> Result<(), AllocError> {
        for (point, op) in points.iter().enumerate() {
            match register_of(op) {
                Some(register) => self.add(key_of(owner, register), scope, point)?,
                None => (),
            }
        }
        Ok(())
    }

    fn add(&mut self, awaited: Awaited, scope: usize, point: usize) -> Result<(), AllocError> {
        let before = match self.last.insert(awaited, self.waiting.len()) {
            Ok(before) => before,
            Err(_) => return Err(AllocError),
        };
        let waiting = Waiting {
            scope,
            point,
            before,
        };
        match self.waiting.push(waiting) {
            Ok(()) => Ok(()),
            Err(_) => Err(AllocError),
        }
    }
}

fn key_of(function: Option<FunctionId>, register: Register) -> Awaited {
    let (kind, number) = match register {
        Register::Local(Local::Parameter(number)) => (Kind::Parameter, number),
        Register::Local(Local::Variable(number)) => (Kind::Variable, number),
        Register::Call(number) => (Kind::Call, number),
        Register::Argument(number) => (Kind::Argument, number),
        Register::Expression(number) => (Kind::Expression, number),
        Register::Temporary(number) => (Kind::Temporary, number),
    };
    let function = match function {
        None => None,
        Some(function) => Some(function.0),
    };
    Awaited {
        function,
        kind,
        number,
    }
}

/// The register for which a point waits.
fn register_of(op: &Op) -> Option<Register> {
    match op {
        Op::Move { pointer, .. } => Some(*pointer),
        Op::Repoint { from, .. } => Some(*from),
        Op::Address { path, .. } => pointer_of(&path.base),
        Op::Load { path, .. } => pointer_of(&path.base),
        Op::Store { path, .. } => pointer_of(&path.base),
        _ => None,
    }
}

/// The pointer with which a path begins.
fn pointer_of(base: &Base) -> Option<Register> {
    match base {
        Base::Pointed { pointer, .. } => Some(*pointer),
        Base::Indexed { pointer, .. } => Some(*pointer),
        _ => None,
    }
}
