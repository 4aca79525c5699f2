// The signatures of functions.

ghost use Rattle.std.specs.Prelude.{◌≡◌, List, map, IfOk};
ghost use Rattle.c_typed.specs.Table.{type_in};
ghost use Rattle.tac_ir.specs.declared.program.Function.{Function};
ghost use Rattle.tac_ir.specs.Views.{function_in};
ghost use Rattle.pool_rewrite.specs.Rewriting.{signature_from};
ghost use Rattle.pool_rewrite.specs.Places.{TellsSignatures};

use c_typed::{CType, TypeTable};
use indexmap::IndexMap;
use pool_ir::Signature;
use std::alloc::{AllocError, Global};
use tac_ir::Function;

/// For the type of each function, how many functions stand before the first of that type.
#[derive(Drop)]
pub(crate) struct Signatures {
    pub(crate) firsts: IndexMap<CType, usize>,
    /// How many functions there are.
    pub(crate) count: usize,
}

impl Signatures {
    /// Those of a program's functions.
    pub(crate) fn of_functions(
        alloc: Global,
        types: &TypeTable,
        functions: &[Function],
    ) -> Result<Signatures, AllocError>
        ensures { IfOk result (λ made. TellsSignatures types.now functions.now made) }
    {
        let mut firsts = IndexMap::new(alloc);
        let mut number = functions.len();
        while number > 0 {
            number -= 1;
            firsts.insert(types.number_of(functions[number].c_type), number)?;
        }
        Ok(Signatures {
            firsts,
            count: functions.len(),
        })
    }

    /// The signature of a type.
    pub(crate) fn of_type(&self, types: &TypeTable, c_type: CType) -> Signature
        ensures { (functions : List Function) → TellsSignatures types.now functions self.now → result.0 ≡ signature_from 0 (map (function_in types.now) functions) (type_in types.now c_type) }
    {
        let number = types.number_of(c_type);
        Signature(self.firsts.get(&number).copied().unwrap_or(self.count))
    }
}
