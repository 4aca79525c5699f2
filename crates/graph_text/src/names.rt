// The names that have targets, in the order of the text.

ghost use Rattle.std.specs.Prelude.{◌≡◌, ◌++◌, nat_eq, IfOk, OnOk};
ghost use Rattle.indexmap.specs.IndexMap.{keys, IsUnique};
ghost use Rattle.graph_text.specs.Names.{named_if, target_at, numbered_names, local_name, local_names, own_names, AreStatics, AddsStatics};
ghost use Rattle.graph_text.specs.declared.names.Name.TheVariants as N;

use heap_graph::{FunctionNames, Target};
use indexmap::IndexMap;
use std::alloc::{AllocError, Global};

/// A function, or `start`.
#[derive(Clone, Copy)]
pub enum Owner {
    Start,
    Function(usize),
}

/// What of a function has a target.
#[derive(Clone, Copy)]
pub enum Kind {
    Formal,
    Returned,
    ParameterObject,
    Variable,
    VariableObject,
    Call,
    Argument,
}

/// What has a target.
#[derive(Clone, Copy)]
pub enum Name {
    Global(usize),
    Literal(usize),
    Own {
        owner: Owner,
        kind: Kind,
        number: usize,
    },
}

/// A name and its target.
#[derive(Clone, Copy)]
pub struct Named {
    pub name: Name,
    pub target: Target,
}

/// Adds the names of a function that have targets.
pub(crate) fn add_function(
    found: &mut Vec<Named>,
    owner: Owner,
    names: &FunctionNames,
) -> Result<(), AllocError>
    ensures { OnOk result (found.new.items ≡ found.old.items ++ own_names owner names.now) }
{
    add_numbered(found, owner, Kind::Formal, &names.parameters)?;
    let returned = Name::Own {
        owner,
        kind: Kind::Returned,
        number: 0,
    };
    add(found, returned, names.returned)?;
    add_numbered(
        found,
        owner,
        Kind::ParameterObject,
        &names.parameter_objects,
    )?;
    add_locals(found, owner, &names.variable_objects, &names.variables)?;
    add_numbered(found, owner, Kind::Call, &names.calls)?;
    add_numbered(found, owner, Kind::Argument, &names.arguments)
}

/// Adds a name, if it has a target.
fn add(found: &mut Vec<Named>, name: Name, target: Option<Target>) -> Result<(), AllocError>
    ensures { OnOk result (found.new.items ≡ found.old.items ++ named_if name target) }
{
    if let Some(target) = target {
        found.push(Named { name, target })?;
    }
    Ok(())
}

/// Adds the names of one kind that have targets, by their numbers.
fn add_numbered(
    found: &mut Vec<Named>,
    owner: Owner,
    kind: Kind,
    targets: &[Option<Target>],
) -> Result<(), AllocError>
    ensures { OnOk result (found.new.items ≡ found.old.items ++ numbered_names owner kind 0 targets.now) }
{
    for (number, target) in targets.iter().enumerate() {
        let name = Name::Own {
            owner,
            kind,
            number,
        };
        add(found, name, *target)?;
    }
    Ok(())
}

/// Adds the locals that have targets, by their numbers: their places where they lie in memory, or else their registers.
fn add_locals(
    found: &mut Vec<Named>,
    owner: Owner,
    objects: &[Option<Target>],
    registers: &[Option<Target>],
) -> Result<(), AllocError>
    ensures { OnOk result (found.new.items ≡ found.old.items ++ local_names owner objects.now 0 registers.now) }
{
    for (number, register) in registers.iter().enumerate() {
        add_local(found, owner, number, objects, *register)?;
    }
    Ok(())
}

/// Adds a local.
fn add_local(
    found: &mut Vec<Named>,
    owner: Owner,
    number: usize,
    objects: &[Option<Target>],
    register: Option<Target>,
) -> Result<(), AllocError>
    ensures { OnOk result (found.new.items ≡ found.old.items ++ local_name owner number (target_at objects.now number) register) }
{
    let register_name = Name::Own {
        owner,
        kind: Kind::Variable,
        number,
    };
    let object_name = Name::Own {
        owner,
        kind: Kind::VariableObject,
        number,
    };
    match objects.get(number) {
        None => add(found, register_name, register),
        Some(None) => add(found, register_name, register),
        Some(Some(object)) => add(found, object_name, Some(*object)),
    }
}

/// The numbers that have targets, ascending.
fn sorted_numbers(
    alloc: Global,
    targets: &IndexMap<usize, Target>,
) -> Result<Vec<usize>, AllocError>
    ensures { IfOk result (λ numbers. AreStatics targets.now numbers.items) }
{
    let mut numbers = numbers_of(alloc, targets)?;
    numbers.sort_unstable();
    Ok(numbers)
}

/// The numbers that have targets.
fn numbers_of(alloc: Global, targets: &IndexMap<usize, Target>) -> Result<Vec<usize>, AllocError>
    ensures { IfOk result (λ numbers. (numbers.items ≡ keys targets.now) × IsUnique nat_eq targets.now) }
{
    let mut numbers = Vec::new(alloc);
    for (number, _) in targets.iter() {
        numbers.push(*number)?;
    }
    Ok(numbers)
}

/// Adds the variables outside functions that have targets, by their numbers.
pub(crate) fn add_globals(
    alloc: Global,
    found: &mut Vec<Named>,
    targets: &IndexMap<usize, Target>,
) -> Result<(), AllocError>
    ensures { OnOk result (AddsStatics N.Global targets.now found.old.items found.new.items) }
{
    let numbers = sorted_numbers(alloc, targets)?;
    for number in numbers.as_slice() {
        add(found, Name::Global(*number), targets.get(number).copied())?;
    }
    Ok(())
}

/// Adds the literals that have targets, by their numbers.
pub(crate) fn add_literals(
    alloc: Global,
    found: &mut Vec<Named>,
    targets: &IndexMap<usize, Target>,
) -> Result<(), AllocError>
    ensures { OnOk result (AddsStatics N.Literal targets.now found.old.items found.new.items) }
{
    let numbers = sorted_numbers(alloc, targets)?;
    for number in numbers.as_slice() {
        add(found, Name::Literal(*number), targets.get(number).copied())?;
    }
    Ok(())
}
