// What is asked often of a function's code.

ghost use Rattle.std.specs.Prelude.{◌≡◌, false, get_or};
ghost use Rattle.heap_graph.specs.Known.{is_marked, local_type};

use c_typed::CType;
use tac_ir::{FunctionId, Local, Register};

/// Registers that are marked, by their numbers.
#[derive(Drop)]
pub struct RegisterMarks {
    pub parameters: Vec<bool>,
    pub variables: Vec<bool>,
    pub calls: Vec<bool>,
    pub arguments: Vec<bool>,
    pub expressions: Vec<bool>,
    pub temporaries: Vec<bool>,
}

/// The types of locals in memory, by their numbers; `void` where there is no such local.
#[derive(Drop)]
pub struct LocalTypes {
    pub parameters: Vec<CType>,
    pub variables: Vec<CType>,
}

/// What is known of a function, or of `start`.
#[derive(Drop)]
pub struct Scope {
    pub owner: Option<FunctionId>,
    /// The registers of null pointer constants.
    pub nulls: RegisterMarks,
    pub locals: LocalTypes,
}

impl RegisterMarks {
    /// Whether a register is marked.
    pub fn is_marked(&self, register: Register) -> bool
        ensures { result ≡ is_marked self.now register }
    {
        match register {
            Register::Local(Local::Parameter(number)) => is_set(&self.parameters, number),
            Register::Local(Local::Variable(number)) => is_set(&self.variables, number),
            Register::Call(number) => is_set(&self.calls, number),
            Register::Argument(number) => is_set(&self.arguments, number),
            Register::Expression(number) => is_set(&self.expressions, number),
            Register::Temporary(number) => is_set(&self.temporaries, number),
        }
    }
}

impl LocalTypes {
    /// The type of a local in memory, or `void`.
    pub fn of(&self, local: Local) -> CType
        ensures { result ≡ local_type self.now local }
    {
        match local {
            Local::Parameter(number) => self.parameters.get(number).copied().unwrap_or(CType::VOID),
            Local::Variable(number) => self.variables.get(number).copied().unwrap_or(CType::VOID),
        }
    }
}

/// Whether a number is marked.
fn is_set(marks: &Vec<bool>, number: usize) -> bool
    ensures { result ≡ get_or marks.now.items number false }
{
    marks.get(number).copied().unwrap_or(false)
}
