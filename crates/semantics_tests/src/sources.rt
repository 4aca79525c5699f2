// Programs of texts.

ghost use Rattle.std.specs.Prelude.{IfOk};
ghost use Rattle.c_typed.specs.DefinitionViews.{program_of, ProgramStands};
ghost use Rattle.c_typed.specs.Programs.{IsWellTyped};
ghost use Rattle.c_typed.specs.Sizes.{HasStorableTypes};

use c_lexer::tokens;
use c_reader::read;
use c_typed::Program;
use c_types::{check, check_limits};
use std::alloc::{AllocError, Global};

/// The typed tree of a text that is accepted, of at most 1,048,576 bytes. A test fails where there is none.
pub(crate) fn program(alloc: Global, text: &str) -> Result<Program, AllocError>
    ensures stands { IfOk result ProgramStands }
    ensures well_typed { IfOk result (λ made. IsWellTyped (program_of made)) }
    ensures storable { IfOk result (λ made. HasStorableTypes (program_of made)) }
{
    if text.len() > 1_048_576 {
        return Err(AllocError);
    }
    let Ok(tokens) = tokens(alloc, text.as_bytes()) else {
        return Err(AllocError);
    };
    let Ok(program) = read(alloc, &tokens) else {
        return Err(AllocError);
    };
    let Ok(typed) = check(alloc, &program) else {
        return Err(AllocError);
    };
    if check_limits(&typed.program, typed.named.as_slice()).is_some() {
        return Err(AllocError);
    }
    Ok(typed.program)
}
