// The program.

ghost use Rattle.std.specs.Prelude.{◌≡◌, ◌||◌, IfOk, IfErr};
ghost use Rattle.c_grammar.specs.Runs.{Whole};
ghost use Rattle.c_grammar.specs.Forms as forms;
ghost use Rattle.c_grammar.specs.Kinds.{is};
ghost use Rattle.c_grammar.specs.Chooses.{begins_item};
ghost use Rattle.c_grammar.specs.Leaves.{leaves_of};
ghost use Rattle.c_syntax.specs.Trees.{ProgramTree};
ghost use Rattle.c_syntax.specs.Views.{program_tree};
ghost use Rattle.c_reader.specs.Shapes.{program_of};
ghost use Rattle.c_reader.specs.ProgramReadings.{IsProgram, Refuses, IsReadUnlessMemory};
ghost use Rattle.c_reader.specs.Rows.{GivesPart};

use crate::item::read_items;
use crate::part::Part;
use crate::syntax_err::SyntaxErr;
use crate::token::{first_kind, first_place, pass};
use c_grammar::{Kind, Token};
use c_syntax::Program;
use std::alloc::Global;

/// How many nodes may lie on one path of a program.
const NESTING_LIMIT: u32 = 200;

/// Reads the program that the tokens spell.
pub fn read(alloc: Global, tokens: &[Token]) -> Result<Program, SyntaxErr>
    ensures found { IfOk result (λ program. IsProgram (leaves_of tokens.now) (program_tree program)) }
    ensures refused { IfErr result (Refuses (leaves_of tokens.now)) }
    ensures only { (program : ProgramTree) → IsProgram (leaves_of tokens.now) program → IsReadUnlessMemory result program }
{
    let program = read_program(alloc, tokens, NESTING_LIMIT)?;
    if !program.rest.is_empty() {
        return Err(SyntaxErr::At(first_place(program.rest)));
    }
    Ok(program.value)
}

/// Reads a program, which other tokens may follow.
fn read_program(alloc: Global, tokens: &[Token], room: u32) -> Result<Part<'_, Program>, SyntaxErr>
    ensures { GivesPart (Whole forms.Program 0) room (leaves_of tokens.now) program_of program_tree result }
{
    if !begins_program(first_kind(tokens)?) {
        return Err(SyntaxErr::At(first_place(tokens)));
    }
    let items = read_items(alloc, tokens, room)?;
    let end = pass(items.rest, Kind::End)?;
    Ok(Part {
        value: Program {
            items: items.value,
            end: end.place,
        },
        rest: end.rest,
    })
}

/// Whether a token begins a program.
fn begins_program(kind: Kind) -> bool
    ensures { result ≡ (is kind Kind.End || begins_item kind) }
{
    kind.is(Kind::End) || kind.begins_item()
}
