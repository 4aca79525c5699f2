// Three-address code of small programs, by what their functions call.

use c_num::IntType;
use c_typed::{CType, First, GlobalDef, Held, Scalar, TypeTable};
use run_theory::ByteString;
use std::alloc::{AllocError, Global};
use tac_ir::{Callee, Counts, Function, FunctionId, Op, Register, Tac};

/// The functions of a type: those of no parameter or of one, an `int`, that give an `int`.
#[derive(Clone, Copy)]
pub(crate) enum Kind {
    Nullary,
    Unary,
}

/// The types of the kinds.
#[derive(Clone, Copy)]
pub(crate) struct KindTypes {
    nullary: CType,
    unary: CType,
}

impl KindTypes {
    fn of(self, kind: Kind) -> CType {
        match kind {
            Kind::Nullary => self.nullary,
            Kind::Unary => self.unary,
        }
    }

    /// A pointer to functions of a kind.
    pub(crate) fn through(self, kind: Kind) -> Callee {
        Callee::Through {
            pointer: Register::Expression(0),
            c_type: self.of(kind),
        }
    }

    fn made(table: &mut TypeTable) -> Result<KindTypes, AllocError> {
        let int = CType::integer(IntType::Int);
        let none = table.no_parameters()?;
        let nullary = table.function(int, none)?;
        let one = table.parameter(int, none)?;
        let unary = table.function(int, one)?;
        Ok(KindTypes { nullary, unary })
    }
}

/// What a function does: it calls a function by its number or through a pointer, or takes a function's address.
#[derive(Clone, Copy)]
pub(crate) enum Action {
    Call(usize),
    CallThrough(Kind),
    Take(usize),
}

impl Action {
    fn op(self, alloc: Global, types: KindTypes) -> Op {
        match self {
            Action::Call(number) => Op::Call {
                site: 0,
                callee: Callee::Function(FunctionId(number)),
                arguments: Vec::new(alloc),
            },
            Action::CallThrough(kind) => Op::Call {
                site: 0,
                callee: types.through(kind),
                arguments: Vec::new(alloc),
            },
            Action::Take(number) => Op::FunctionAddress {
                to: Register::Expression(0),
                function: FunctionId(number),
            },
        }
    }
}

#[derive(Drop)]
pub(crate) struct Program {
    pub(crate) tac: Tac,
    pub(crate) types: KindTypes,
}

impl Program {
    /// The program of functions of these kinds, each of which does what is listed with its number.
    pub(crate) fn of(
        alloc: Global,
        kinds: &[Kind],
        actions: &[(usize, Action)],
    ) -> Result<Program, AllocError> {
        let mut table = TypeTable::new(alloc);
        let types = KindTypes::made(&mut table)?;
        let functions = functions(alloc, types, kinds)?;
        let start = function(alloc, types.nullary, kinds.len())?;
        let tac = Tac {
            types: table,
            globals: Vec::new(alloc),
            literals: Vec::new(alloc),
            functions,
            start,
        };
        let mut program = Program { tac, types };
        program.add(alloc, actions)?;
        Ok(program)
    }

    fn add(&mut self, alloc: Global, actions: &[(usize, Action)]) -> Result<(), AllocError> {
        for (number, action) in actions {
            if let Some(function) = self.tac.functions.get_mut(*number) {
                function.points.push(action.op(alloc, self.types))?;
            }
        }
        Ok(())
    }

    /// Adds what `start` does.
    pub(crate) fn add_to_start(&mut self, alloc: Global, action: Action) -> Result<(), AllocError> {
        self.tac.start.points.push(action.op(alloc, self.types))?;
        Ok(())
    }

    /// Adds a variable outside functions that holds the address of a function at first.
    pub(crate) fn add_pointer(&mut self, alloc: Global, number: usize) -> Result<(), AllocError> {
        let mut first = Vec::new(alloc);
        first.push(First::Scalar(Held {
            parts: Vec::new(alloc),
            index: 0,
            value: Scalar::Function(name(alloc, number)?),
        }))?;
        self.tac.globals.push(GlobalDef {
            name: ByteString::from_slice(alloc, b"pointer")?,
            c_type: CType::VOID,
            first,
        })?;
        Ok(())
    }
}

/// Functions of these kinds, which do nothing yet.
fn functions(alloc: Global, types: KindTypes, kinds: &[Kind]) -> Result<Vec<Function>, AllocError> {
    let mut functions = Vec::new(alloc);
    for (number, kind) in kinds.iter().enumerate() {
        functions.push(function(alloc, types.of(*kind), number)?)?;
    }
    Ok(functions)
}

/// A function of this type and number, which does nothing yet.
fn function(alloc: Global, c_type: CType, number: usize) -> Result<Function, AllocError> {
    Ok(Function {
        name: name(alloc, number)?,
        c_type,
        parameters: 0,
        counts: Counts {
            variables: 0,
            calls: 0,
            arguments: 0,
            expressions: 1,
            temporaries: 0,
        },
        objects: Vec::new(alloc),
        points: Vec::new(alloc),
    })
}

/// The name of a function.
fn name(alloc: Global, number: usize) -> Result<ByteString, AllocError> {
    let name = format!(in alloc; "f{number}")?;
    ByteString::from_slice(alloc, name.as_bytes())
}
