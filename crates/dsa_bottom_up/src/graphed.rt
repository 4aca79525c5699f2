// The graphs of code.

ghost use Rattle.std.specs.Prelude.{◌≡◌, ℕ, Err, IfOk};
ghost use Rattle.c_typed.specs.Typed as plain;
ghost use Rattle.c_typed.specs.Views.{values_in, ValuesStand};
ghost use Rattle.c_typed.specs.DefinitionViews.{program_of, ProgramStands};
ghost use Rattle.tac_ir.specs.Views.{tac_of};
ghost use Rattle.call_graph.specs.GroupViews.{groups_of};
ghost use Rattle.dsa_bottom_up.specs.AssembledGroups.Making.{IsGrouped};
ghost use Rattle.heap_graph.specs.Ascending.{GraphsAscend};
ghost use Rattle.dsa_bottom_up.specs.Graphed.{AreCounts, IsSource, HasGraphs, IsOvergrown};
ghost use Rattle.dsa_bottom_up.specs.CodeGraphs.Made.{graphs_in};

use crate::functions::{expression_counts, value_count};
use crate::program::{Counts, GraphErr, bottom_up};
use c_typed::{Program, Value};
use call_graph::{Groups, groups};
use heap_graph::ProgramGraphs;
use std::alloc::{AllocError, Global};
use tac_ir::Tac;

/// The groups of a program's functions, and their heap graphs.
#[derive(Drop)]
pub struct CodeGraphs {
    pub groups: Groups,
    pub graphs: ProgramGraphs,
}

/// How many nodes each function of a program counts by itself, and the first values of its variables.
pub fn own_counts(
    alloc: Global,
    program: &Program,
    first_values: &[Value],
) -> Result<Counts, AllocError>
    requires stands { ProgramStands program.now }
    requires first { ValuesStand program.now.types first_values.now }
    ensures { IfOk result (AreCounts (program_of program.now) (values_in program.now.types first_values.now)) }
{
    let functions = expression_counts(alloc, program)?;
    let start = value_count(alloc, program, first_values)?;
    Ok(Counts { functions, start })
}

/// The groups and the heap graphs of the code of a program, whose functions and first values count so much by themselves. Where a group
/// would begin with too many nodes, there are none.
pub fn heap_graphs(alloc: Global, tac: &Tac, counts: &Counts) -> Result<CodeGraphs, GraphErr>
    requires { (program : plain.Program) × (first : plain.Values) × IsSource program first tac.now counts.now }
    ensures graphs { (program : plain.Program) (first : plain.Values) → IsSource program first tac.now counts.now → IfOk result (λ made. HasGraphs program first (tac_of tac.now) (groups_of made.groups) (graphs_in tac.now made)) }
    ensures grouped { IfOk result (λ made. IsGrouped tac.now made.groups) }
    ensures ascend { IfOk result (λ made. GraphsAscend made.graphs) }
    ensures refused { (program : plain.Program) (first : plain.Values) → IsSource program first tac.now counts.now → (count : ℕ) → result ≡ Err (GraphErr.TooMany count) → IsOvergrown program first count }
{
    let groups = groups(alloc, tac)?;
    let graphs = bottom_up(alloc, tac, &groups, counts)?;
    Ok(CodeGraphs { groups, graphs })
}
