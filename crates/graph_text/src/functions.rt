// What the things of a function are called.

ghost use Rattle.std.specs.Prelude.{◌≡◌, [], IfOk, OnOk, map};
ghost use Rattle.c_syntax.specs.declared.expr.Parameter.{out-Parameter};
ghost use Rattle.c_syntax.specs.Views.{name_tree, declarator_tree, parameters_of, optional_of, block_of};
ghost use Rattle.c_rules.specs.Expressions.{optional_name};
ghost use Rattle.c_types.specs.Outside.{IsOutside};
ghost use Rattle.graph_text.specs.Adding.{scope_at};
ghost use Rattle.graph_text.specs.ProgramLabels as L;

use crate::function_labels::FunctionLabels;
use crate::marks::Marker;
use crate::numbers::{argument_numbers, call_numbers, local_names};
use c_syntax::{Block, Declarator, Name, Parameter};
use c_types::{enter_body, own_parameters};
use c_types_expressions::{is_void_alone, optional_name};
use std::alloc::{AllocError, Global};

impl Marker {
    /// What the things of a function are called, whose name is declared already.
    pub(crate) fn function(
        &mut self,
        name: &Name,
        declarator: &Declarator,
        body: &Block,
    ) -> Result<FunctionLabels, AllocError>
        requires outside { IsOutside (scope_at self.old) }
        ensures scope { OnOk result (scope_at self.new ≡ scope_at self.old) }
        ensures labels { IfOk result (λ own. L.own_in own ≡ L.function_labels (scope_at self.old) (name_tree name.now) (declarator_tree declarator.now) (block_of body.now.items.items)) }
    {
        self.marks.clear();
        let outer = enter_body(&mut self.pass, declarator)?;
        self.block(body.items.as_slice())?;
        self.leave(outer);
        let alloc = self.pass.alloc();
        let marks = self.marks.as_slice();
        Ok(FunctionLabels {
            name: Vec::from_slice(alloc, name.bytes.as_slice())?,
            parameters: parameter_names(alloc, own_parameters(declarator))?,
            variables: local_names(alloc, marks)?,
            calls: call_numbers(alloc, marks)?,
            arguments: argument_numbers(alloc, marks)?,
        })
    }
}

/// The names of parameters.
fn parameter_names(alloc: Global, parameters: &[Parameter]) -> Result<Vec<Vec<u8>>, AllocError>
    ensures { IfOk result (λ names. map (λ name. name.items) names.items ≡ L.parameter_names (parameters_of parameters.now)) }
{
    if is_void_alone(parameters) {
        return Ok(Vec::new(alloc));
    }
    all_names(alloc, parameters)
}

fn all_names(alloc: Global, parameters: &[Parameter]) -> Result<Vec<Vec<u8>>, AllocError>
    ensures { IfOk result (λ names. map (λ name. name.items) names.items ≡ L.names_of (parameters_of parameters.now)) }
{
    let mut names = Vec::new(alloc);
    for parameter in parameters {
        names.push(parameter_name(alloc, parameter)?)?;
    }
    Ok(names)
}

/// The name of a parameter, empty where there is none.
fn parameter_name(alloc: Global, parameter: &Parameter) -> Result<Vec<u8>, AllocError>
    ensures { IfOk result (λ name. name.items ≡ L.name_or_none (optional_name (optional_of (out-Parameter parameter.now).declarator))) }
{
    match optional_name(&parameter.declarator) {
        Some(name) => Vec::from_slice(alloc, name.bytes.as_slice()),
        None => Ok(Vec::new(alloc)),
    }
}
