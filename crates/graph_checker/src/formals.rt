// What heap graphs ask of formals.

ghost use Rattle.std.specs.Prelude.{◌≡◌, ℕ, suc};
ghost use Rattle.c_typed.specs.Table.{ListStands, type_in, types_in};
ghost use Rattle.tac_ir.specs.States.{InFunction};
ghost use Rattle.heap_graph.specs.Closed.{Family, parameters_in, parameters_of, formals_closed};
ghost use Rattle.heap_graph.specs.Points.{is_data_pointer};
ghost use Rattle.heap_graph.specs.Targets.{has_target, implies};
ghost use Rattle.heap_graph.specs.Frozen.{target_in};
ghost use Rattle.heap_graph.specs.Shows.{ShowsNames};
ghost use Rattle.graph_checker.specs.Formals.{have_targets};

use c_typed::{CType, Parameters, Shape, TypeTable};
use heap_graph::{FunctionNames, Target, has_target, is_data_pointer};

/// Whether each formal of a function of this type that is a pointer to an object or to void has a target.
pub fn formals_closed(types: &TypeTable, names: &FunctionNames, c_type: CType) -> bool
    ensures { (family : Family) (function : ℕ) → ShowsNames family (InFunction function) names.now → result ≡ formals_closed family (InFunction function) function 0 (parameters_of (type_in types.now c_type)) }
{
    match types.shape(types.number_of(c_type)) {
        Shape::Void => true,
        Shape::Integer(_) => true,
        Shape::Pointer(_) => true,
        Shape::Array { .. } => true,
        Shape::Struct(_) => true,
        Shape::Function { parameters, .. } => {
            have_targets(types, parameters, names.parameters.as_slice())
        }
    }
}

/// Whether each parameter that is a pointer to an object or to void has a target.
fn have_targets(types: &TypeTable, parameters: Parameters, targets: &[Option<Target>]) -> bool
    requires { ListStands types.now parameters }
    ensures { result ≡ have_targets (target_in targets.now) 0 (parameters_in (types_in types.now parameters)) }
{
    let mut rest = parameters;
    let mut left = targets;
    while let Some((c_type, others)) = types.first_parameter(rest) {
        if !has_first_target(types, c_type, left) {
            return false;
        }
        rest = others;
        left = without_first(left);
    }
    true
}

/// Whether there is a first target, where the type is a pointer to an object or to void.
fn has_first_target(types: &TypeTable, c_type: CType, targets: &[Option<Target>]) -> bool
    ensures { result ≡ implies (is_data_pointer (type_in types.now c_type)) (has_target (target_in targets.now 0)) }
{
    if !is_data_pointer(types, c_type) {
        return true;
    }
    match targets.first() {
        Some(target) => has_target(*target),
        None => false,
    }
}

/// All but the first of a list of targets.
fn without_first(targets: &[Option<Target>]) -> &[Option<Target>]
    ensures { (number : ℕ) → target_in result.now number ≡ target_in targets.now (suc number) }
{
    match targets.split_first() {
        Some((_, others)) => others,
        None => targets,
    }
}
