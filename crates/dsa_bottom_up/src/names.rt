// The types of variables and functions by their names.

ghost use Rattle.std.specs.Prelude.{◌≡◌, IfOk};
ghost use Rattle.c_typed.specs.Table.{Interned, type_in};
ghost use Rattle.dsa_bottom_up.specs.ExpressionTypes.{type_or_void};
ghost use Rattle.dsa_bottom_up.specs.Counts.{type_by_name, VariableTypes, FunctionTypes};

use c_typed::{CType, FunctionDef, GlobalDef, Program};
use indexmap::IndexMap;
use std::alloc::{AllocError, Global};

/// The types of a program's variables and functions. Where several have one name, it is that of the first.
#[derive(Drop)]
pub(crate) struct Names {
    variables: IndexMap<Vec<u8>, CType>,
    functions: IndexMap<Vec<u8>, CType>,
}

fn variable_types(
    alloc: Global,
    globals: &[GlobalDef],
) -> Result<IndexMap<Vec<u8>, CType>, AllocError>
    ensures { IfOk result (λ types. VariableTypes types globals.now) }
{
    let mut types = IndexMap::new(alloc);
    let mut number = globals.len();
    while number > 0 {
        number -= 1;
        let global = &globals[number];
        let name = Vec::from_slice(alloc, global.name.as_slice())?;
        types.insert(name, global.c_type)?;
    }
    Ok(types)
}

fn function_types(
    alloc: Global,
    functions: &[FunctionDef],
) -> Result<IndexMap<Vec<u8>, CType>, AllocError>
    ensures { IfOk result (λ types. FunctionTypes types functions.now) }
{
    let mut types = IndexMap::new(alloc);
    let mut number = functions.len();
    while number > 0 {
        number -= 1;
        let function = &functions[number];
        let name = Vec::from_slice(alloc, function.name.as_slice())?;
        types.insert(name, function.c_type)?;
    }
    Ok(types)
}

impl Names {
    pub(crate) fn of_program(alloc: Global, program: &Program) -> Result<Names, AllocError>
        ensures variables { IfOk result (λ names. VariableTypes names.variables program.now.globals.items) }
        ensures functions { IfOk result (λ names. FunctionTypes names.functions program.now.functions.items) }
    {
        let variables = variable_types(alloc, program.globals.as_slice())?;
        let functions = function_types(alloc, program.functions.as_slice())?;
        Ok(Names {
            variables,
            functions,
        })
    }

    /// The type of a variable outside functions.
    pub(crate) fn variable(&self, name: &[u8]) -> CType
        ensures { (table : Interned) → type_in table result ≡ type_or_void (type_by_name table self.now.variables name.now) }
    {
        match self.variables.get(name) {
            Some(c_type) => *c_type,
            None => CType::VOID,
        }
    }

    /// The type of a function.
    pub(crate) fn function(&self, name: &[u8]) -> CType
        ensures { (table : Interned) → type_in table result ≡ type_or_void (type_by_name table self.now.functions name.now) }
    {
        match self.functions.get(name) {
            Some(c_type) => *c_type,
            None => CType::VOID,
        }
    }
}
