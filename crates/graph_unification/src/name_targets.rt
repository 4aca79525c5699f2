// The targets of a function's names.

ghost use Rattle.std.specs.Prelude.{◌≡◌, ℕ, ◌==◌, if◌then◌else◌, IfOk, OnOk};
ghost use Rattle.c_typed.specs.Table.{Interned};
ghost use Rattle.heap_graph.specs.Graphs.{OfRegister};
ghost use Rattle.graph_unification.specs.Memory.{owner_of, graph_in, IsGraph};
ghost use Rattle.heap_graph.specs.Frozen.{optional_target, target_in};
ghost use Rattle.graph_unification.specs.Freezing.{TellsNames, TellsBelow, TellsObjects, numbered};

use crate::certain::certain_target;
use crate::graph::Graph;
use crate::name::Name;
use heap_graph::{FunctionNames, Target};
use std::alloc::{AllocError, Global};
use tac_ir::{Function, FunctionId, Local, LocalObject, Register};

/// A function of the graph's group, or `start`, whose names are told.
#[derive(Clone, Copy)]
pub struct Owned<'a> {
    pub owner: Option<FunctionId>,
    pub function: &'a Function,
}

/// The kinds of registers that may hold pointers.
#[derive(Clone, Copy)]
pub(crate) enum RegisterKind {
    Parameter,
    Variable,
    Call,
    Argument,
    Expression,
}

/// The targets of locals in memory, by their numbers.
#[derive(Drop)]
pub(crate) struct ObjectTargets {
    pub(crate) parameters: Vec<Option<Target>>,
    pub(crate) variables: Vec<Option<Target>>,
}

impl RegisterKind {
    /// The register with a number.
    fn register(self, number: usize) -> Register
        ensures { result ≡ numbered self number }
    {
        match self {
            RegisterKind::Parameter => Register::Local(Local::Parameter(number)),
            RegisterKind::Variable => Register::Local(Local::Variable(number)),
            RegisterKind::Call => Register::Call(number),
            RegisterKind::Argument => Register::Argument(number),
            RegisterKind::Expression => Register::Expression(number),
        }
    }
}

/// The targets of a function's names, where their nodes are certain.
pub fn frozen_names(
    alloc: Global,
    graph: &Graph,
    owned: Owned<'_>,
) -> Result<FunctionNames, AllocError>
    ensures { IfOk result (λ names. (table : Interned) → IsGraph table graph.now → TellsNames (graph_in table graph.now) (owner_of owned.entry.owner) owned.entry.function.now names) }
{
    let Owned { owner, function } = owned;
    let counts = function.counts;
    let parameters = register_targets(
        alloc,
        graph,
        owner,
        RegisterKind::Parameter,
        function.parameters,
    )?;
    let variables = register_targets(
        alloc,
        graph,
        owner,
        RegisterKind::Variable,
        counts.variables,
    )?;
    let calls = register_targets(alloc, graph, owner, RegisterKind::Call, counts.calls)?;
    let arguments = register_targets(
        alloc,
        graph,
        owner,
        RegisterKind::Argument,
        counts.arguments,
    )?;
    let expressions = register_targets(
        alloc,
        graph,
        owner,
        RegisterKind::Expression,
        counts.expressions,
    )?;
    let objects = object_targets(alloc, graph, owner, &function.objects)?;
    Ok(FunctionNames {
        parameters,
        variables,
        calls,
        arguments,
        expressions,
        parameter_objects: objects.parameters,
        variable_objects: objects.variables,
        returned: certain_target(graph, Name::Returned(owner)),
    })
}

/// The targets of the registers of a kind.
fn register_targets(
    alloc: Global,
    graph: &Graph,
    function: Option<FunctionId>,
    kind: RegisterKind,
    count: usize,
) -> Result<Vec<Option<Target>>, AllocError>
    ensures { IfOk result (λ targets. (table : Interned) → IsGraph table graph.now → TellsBelow (graph_in table graph.now) (λ number. OfRegister (owner_of function) (numbered kind number)) count targets.items) }
{
    let mut targets = Vec::new(alloc);
    for number in 0..count {
        let register = kind.register(number);
        targets.push(certain_target(graph, Name::Register { function, register }))?;
    }
    Ok(targets)
}

/// The targets of the locals in memory.
fn object_targets(
    alloc: Global,
    graph: &Graph,
    function: Option<FunctionId>,
    objects: &[LocalObject],
) -> Result<ObjectTargets, AllocError>
    ensures { IfOk result (λ targets. (table : Interned) → IsGraph table graph.now → TellsObjects (graph_in table graph.now) (owner_of function) objects.now targets.parameters.items targets.variables.items) }
{
    let mut parameters = Vec::new(alloc);
    let mut variables = Vec::new(alloc);
    for object in objects {
        let local = object.local;
        let target = certain_target(graph, Name::Object { function, local });
        match local {
            Local::Parameter(number) => put(&mut parameters, number, target)?,
            Local::Variable(number) => put(&mut variables, number, target)?,
        }
    }
    Ok(ObjectTargets {
        parameters,
        variables,
    })
}

/// Puts a target at a number, behind as many places without one as are needed.
fn put(
    targets: &mut Vec<Option<Target>>,
    number: usize,
    target: Option<Target>,
) -> Result<(), AllocError>
    ensures { OnOk result ((other : ℕ) → target_in targets.new.items other ≡ (if number == other then optional_target target else target_in targets.old.items other)) }
{
    while targets.len() <= number {
        targets.push(None)?;
    }
    targets[number] = target;
    Ok(())
}
