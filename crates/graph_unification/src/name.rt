// Names of pointers and objects.

ghost use Rattle.std.specs.Prelude.{◌≡◌, IfOk};
ghost use Rattle.graph_unification.specs.Memory.{name_of, owner_of, key_of, function_of, register_place, object_place};
ghost use Rattle.graph_unification.specs.Statics.{global_of, literal_of, global_numbers, literal_numbers};

use std::alloc::{AllocError, Global};
use std::hash::Hash;
use tac_ir::{FunctionId, GlobalId, LiteralId, Local, Register};

/// What may have a target. A function of none is `start`.
#[derive(Clone, Copy, Debug, PartialEq, Eq)]
pub enum Name {
    Register {
        function: Option<FunctionId>,
        register: Register,
    },
    /// What a function returns.
    Returned(Option<FunctionId>),
    /// A local in memory.
    Object {
        function: Option<FunctionId>,
        local: Local,
    },
    Global(GlobalId),
    Literal(LiteralId),
    /// The copy of a node that escapes a function that is called, while the graph of its caller is made.
    Copy(usize),
}

/// What a name of a function stands for.
#[derive(Clone, Copy, Debug, PartialEq, Eq, Hash)]
pub(crate) enum Place {
    Parameter(usize),
    Variable(usize),
    Call(usize),
    Argument(usize),
    Expression(usize),
    Temporary(usize),
    Returned,
    ParameterObject(usize),
    VariableObject(usize),
}

/// A name as a key.
#[derive(Clone, Copy, Debug, PartialEq, Eq, Hash)]
pub(crate) enum NameKey {
    Local {
        function: Option<usize>,
        place: Place,
    },
    Global(usize),
    Literal(usize),
    Copy(usize),
}

impl Name {
    /// Its key.
    pub(crate) fn key(self) -> NameKey
        ensures { result ≡ key_of (name_of self) }
    {
        match self {
            Name::Register { function, register } => NameKey::Local {
                function: number_of(function),
                place: place_of(register),
            },
            Name::Returned(function) => NameKey::Local {
                function: number_of(function),
                place: Place::Returned,
            },
            Name::Object { function, local } => NameKey::Local {
                function: number_of(function),
                place: object_of(local),
            },
            Name::Global(global) => NameKey::Global(global.0),
            Name::Literal(literal) => NameKey::Literal(literal.0),
            Name::Copy(number) => NameKey::Copy(number),
        }
    }
}

impl NameKey {
    /// The number of a variable outside functions.
    fn global(self) -> Option<usize>
        ensures { result ≡ global_of self }
    {
        match self {
            NameKey::Global(number) => Some(number),
            NameKey::Local { .. } => None,
            NameKey::Literal(_) => None,
            NameKey::Copy(_) => None,
        }
    }

    /// The number of a literal.
    fn literal(self) -> Option<usize>
        ensures { result ≡ literal_of self }
    {
        match self {
            NameKey::Literal(number) => Some(number),
            NameKey::Local { .. } => None,
            NameKey::Global(_) => None,
            NameKey::Copy(_) => None,
        }
    }
}

/// The numbers of the variables outside functions among names.
pub(crate) fn globals_among(alloc: Global, keys: &[NameKey]) -> Result<Vec<usize>, AllocError>
    ensures { IfOk result (λ numbers. numbers.items ≡ global_numbers keys.now) }
{
    let mut numbers = Vec::new(alloc);
    for key in keys {
        match key.global() {
            Some(number) => numbers.push(number)?,
            None => {}
        }
    }
    Ok(numbers)
}

/// The numbers of the literals among names.
pub(crate) fn literals_among(alloc: Global, keys: &[NameKey]) -> Result<Vec<usize>, AllocError>
    ensures { IfOk result (λ numbers. numbers.items ≡ literal_numbers keys.now) }
{
    let mut numbers = Vec::new(alloc);
    for key in keys {
        match key.literal() {
            Some(number) => numbers.push(number)?,
            None => {}
        }
    }
    Ok(numbers)
}

/// The number of a function.
fn number_of(function: Option<FunctionId>) -> Option<usize>
    ensures { result ≡ function_of (owner_of function) }
{
    match function {
        Some(id) => Some(id.0),
        None => None,
    }
}

/// The place of a register.
fn place_of(register: Register) -> Place
    ensures { result ≡ register_place register }
{
    match register {
        Register::Local(local) => match local {
            Local::Parameter(number) => Place::Parameter(number),
            Local::Variable(number) => Place::Variable(number),
        },
        Register::Call(number) => Place::Call(number),
        Register::Argument(number) => Place::Argument(number),
        Register::Expression(number) => Place::Expression(number),
        Register::Temporary(number) => Place::Temporary(number),
    }
}

/// The place of a local in memory.
fn object_of(local: Local) -> Place
    ensures { result ≡ object_place local }
{
    match local {
        Local::Parameter(number) => Place::ParameterObject(number),
        Local::Variable(number) => Place::VariableObject(number),
    }
}
