// What is carried over a program.

use c_typed::CType;
use c_types_state::Checker;
use run_theory::Pos;
use std::alloc::{AllocError, Global};

/// A type that the text names, and the place of the declared name, or of the first token of the type's name.
#[derive(Clone, Copy, Debug, PartialEq, Eq)]
pub struct NamedType {
    pub place: Pos,
    pub c_type: CType,
}

/// One pass over a program: what is known at a place of its text, and the types that were named before it.
#[derive(Drop)]
pub struct Pass {
    pub checker: Checker,
    pub named: Vec<NamedType>,
}

impl Pass {
    ghost use Rattle.std.specs.Prelude.{◌≡◌, IfOk, OnOk, Some, None, [], List};
    ghost use Rattle.c_typed.specs.Table.{KnownStands, known_in};
    ghost use Rattle.c_types_state.specs.NameTables.{no_state};
    ghost use Rattle.c_types_expressions.specs.Parts.{NamesAt};

    /// Before a program.
    pub fn new(alloc: Global) -> Pass
        ensures checker { result.checker ≡ no_state }
        ensures named { result.named.items ≡ [] }
    {
        Pass {
            checker: Checker::new(alloc),
            named: Vec::new(alloc),
        }
    }

    /// Where its memory comes from.
    pub fn alloc(&self) -> Global {
        self.checker.alloc()
    }

    /// Notes a type that is named there, where it has one.
    pub fn name_type(&mut self, place: Pos, c_type: Option<CType>) -> Result<(), AllocError>
        requires { KnownStands self.old.checker.table c_type }
        ensures checker { OnOk result (self.new.checker ≡ self.old.checker) }
        ensures names { OnOk result (NamesAt place c_type self.old self.new) }
    {
        if let Some(c_type) = c_type {
            self.named.push(NamedType { place, c_type })?;
        }
        Ok(())
    }
}
