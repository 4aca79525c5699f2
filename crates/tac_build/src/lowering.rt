// The code of a program.

ghost use Rattle.std.specs.Prelude.{◌≡◌, ◌≤◌, [], IfOk};
ghost use Rattle.c_typed.specs.DefinitionViews.{ProgramStands, LiteralsStand, program_of};
ghost use Rattle.c_typed.specs.TypedNodes.{program_nodes, greatest_nodes};
ghost use Rattle.c_typed.specs.Programs.{IsWellTyped};
ghost use Rattle.c_typed.specs.Table.{Interned};
ghost use Rattle.tac_ir.specs.Views as tac;
ghost use Rattle.tac_build.specs.ProgramCode.{Code, start_points, start_counts};
ghost use Rattle.tac_build.specs.Lowering.{program_in, IsSource};
ghost use Rattle.tac_build.specs.LoweringDefinitions.{FunctionsLower};

use crate::functions::function;
use crate::names::Source;
use c_typed::{ByteString, CType, Program};
use std::alloc::{AllocError, Global};
use tac_ir::{Callee, Counts, Function, FunctionId, Op, Register, Tac, Tree};

/// The code of a program, in time linear in its size. Each statement has its points, also behind a `return`. Only want of memory is an
/// error.
pub fn lower(alloc: Global, program: Program) -> Result<Tac, AllocError>
    requires stand { ProgramStands program }
    requires well_typed { IsWellTyped (program_of program) }
    requires nodes { program_nodes (program_of program) ≤ greatest_nodes }
    ensures code { IfOk result (λ made. Code (program_of program) (tac.tac_of made)) }
    ensures literals { IfOk result (λ made. LiteralsStand made.types made.literals.items) }
{
    let source = Source::new(alloc, program)?;
    let functions = functions(alloc, &source)?;
    let main = source.function(b"main".as_slice());
    let start = start(alloc, main)?;
    let program = source.program;
    Ok(Tac {
        types: program.types,
        globals: program.globals,
        literals: program.literals,
        functions,
        start,
    })
}

/// The functions in their order.
fn functions(alloc: Global, source: &Source) -> Result<Vec<Function>, AllocError>
    requires source { IsSource source.now }
    requires nodes { program_nodes (program_in source.now) ≤ greatest_nodes }
    ensures { IfOk result (λ functions. FunctionsLower source.now functions.items) }
{
    let mut functions = Vec::new(alloc);
    for definition in &source.program.functions {
        functions.push(function(alloc, definition, source)?)?;
    }
    Ok(functions)
}

/// What calls `main`, and ends with what that gives (C17 5.1.2.2.3).
fn start(alloc: Global, main: FunctionId) -> Result<Function, AllocError>
    ensures points { IfOk result (λ start. (table : Interned) → (tac.function_in table start).points ≡ start_points main.0) }
    ensures objects { IfOk result (λ start. (table : Interned) → (tac.function_in table start).objects ≡ []) }
    ensures counts { IfOk result (λ start. start.counts ≡ start_counts) }
    ensures parameters { IfOk result (λ start. start.parameters ≡ 0) }
{
    let mut points = Vec::new(alloc);
    points.push(Op::Call {
        site: 0,
        callee: Callee::Function(main),
        arguments: Vec::new(alloc),
    })?;
    points.push(Op::Exit {
        status: Tree::Held(Register::Call(0)),
    })?;
    Ok(Function {
        name: ByteString::new(Vec::new(alloc)),
        c_type: CType::VOID,
        parameters: 0,
        counts: Counts {
            variables: 0,
            calls: 1,
            arguments: 0,
            expressions: 0,
            temporaries: 0,
        },
        objects: Vec::new(alloc),
        points,
    })
}
