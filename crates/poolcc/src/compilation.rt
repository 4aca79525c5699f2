// From the typed tree of a program to its image.

ghost use Rattle.std.specs.Prelude.{◌≡◌, ℕ, Err, IfOk};
ghost use Rattle.c_typed.specs.DefinitionViews.{program_of, LiteralsStand};
ghost use Rattle.tac_ir.specs.Views.{tac_of};
ghost use Rattle.tac_build.specs.ProgramCode.{Code};
ghost use Rattle.call_graph.specs.GroupViews.{groups_of};
ghost use Rattle.heap_graph.specs.Ascending.{GraphsAscend};
ghost use Rattle.dsa_bottom_up.specs.Graphed.{HasGraphs, IsOvergrown};
ghost use Rattle.dsa_bottom_up.specs.CodeGraphs.Made.{graphs_in};
ghost use Rattle.pool_isa.specs.Ranges.{IsWithin};
ghost use Rattle.image_form.specs.Form.{form_of};
ghost use Rattle.poolcc.specs.Compiled.{IsCompilable, IsGraphed, IsImageFor};
ghost use Rattle.poolcc.specs.Lowered.{first_of, IsStanding, IsLowered};

use c_types::Typed;
use dsa_bottom_up::{CodeGraphs, GraphErr, heap_graphs, own_counts};
use image_form::{Image, MachineLimits};
use pool_linker::link;
use pool_rewrite::{one_pool, rewrite};
use stack_code::emit;
use std::alloc::{AllocError, Global};
use tac_build::lower;
use tac_ir::Tac;
use thiserror::Error;

/// Why a program has no image.
#[derive(Clone, Copy, Debug, PartialEq, Eq, Error)]
pub enum CompileErr {
    /// The heap graph of a group of functions would begin with so many nodes; 65,536 is the most.
    #[error("a group of functions with too many nodes in its heap graph")]
    Graph(u64),
    #[error("out of memory")]
    OutOfMemory,
}

/// The three-address code of a program, with the groups of its functions and their heap graphs.
#[derive(Drop)]
pub struct Analysed {
    pub tac: Tac,
    pub graphs: CodeGraphs,
}

/// Lowers a program, and makes the heap graphs of its code.
pub fn analyse(alloc: Global, typed: Typed) -> Result<Analysed, CompileErr>
    requires stands { IsStanding typed }
    requires compilable { IsCompilable (program_of typed.program) }
    ensures code { IfOk result (λ made. Code (program_of typed.program) (tac_of made.tac)) }
    ensures literals { IfOk result (λ made. LiteralsStand made.tac.types made.tac.literals.items) }
    ensures graphs { IfOk result (λ made. HasGraphs (program_of typed.program) (first_of typed) (tac_of made.tac) (groups_of made.graphs.groups) (graphs_in made.tac made.graphs)) }
    ensures ascend { IfOk result (λ made. GraphsAscend made.graphs.graphs) }
    ensures refused { (count : ℕ) → result ≡ Err (CompileErr.Graph count) → IsOvergrown (program_of typed.program) (first_of typed) count }
{
    let Typed {
        program,
        named,
        first_values,
    } = typed;
    drop(named);
    let Ok(counts) = own_counts(alloc, &program, first_values.as_slice()) else {
        return Err(CompileErr::OutOfMemory);
    };
    let Ok(tac) = lower(alloc, program) else {
        return Err(CompileErr::OutOfMemory);
    };
    match heap_graphs(alloc, &tac, &counts) {
        Ok(graphs) => Ok(Analysed { tac, graphs }),
        Err(GraphErr::TooMany(count)) => Err(CompileErr::Graph(count)),
        Err(GraphErr::OutOfMemory) => Err(CompileErr::OutOfMemory),
    }
}

/// The image of a program, within limits. One pool holds all objects of its heap; its heap graphs are made and not used yet.
pub fn compile(alloc: Global, typed: Typed, limits: MachineLimits) -> Result<Image, CompileErr>
    requires stands { IsStanding typed }
    requires compilable { IsCompilable (program_of typed.program) }
    requires slabs { IsWithin 1 1048576 limits.slabs }
    requires index { IsWithin 1 4294967295 limits.index }
    ensures image { IfOk result (λ image. IsImageFor (program_of typed.program) limits (form_of image)) }
    ensures graphs { IfOk result (λ image. IsGraphed (program_of typed.program) (first_of typed)) }
    ensures refused { (count : ℕ) → result ≡ Err (CompileErr.Graph count) → IsOvergrown (program_of typed.program) (first_of typed) count }
{
    match analyse(alloc, typed) {
        Ok(Analysed { tac, graphs }) => {
            drop(graphs);
            match emitted_image(alloc, &tac, limits) {
                Ok(image) => Ok(image),
                Err(_) => Err(CompileErr::OutOfMemory),
            }
        }
        Err(error) => Err(error),
    }
}

/// The image of code, all of whose heap lies in one pool.
fn emitted_image(alloc: Global, tac: &Tac, limits: MachineLimits) -> Result<Image, AllocError>
    requires lowered { IsLowered tac.now }
    requires slabs { IsWithin 1 1048576 limits.slabs }
    requires index { IsWithin 1 4294967295 limits.index }
    ensures { (lowered : IsLowered tac.now) → IfOk result (λ image. IsImageFor lowered.program limits (form_of image)) }
{
    let plan = one_pool(alloc, tac)?;
    let code = rewrite(alloc, tac, &plan)?;
    let units = emit(alloc, &code)?;
    link(alloc, units, limits)
}
