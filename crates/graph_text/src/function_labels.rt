// What things of a program are called in the text of its graphs.

ghost use Rattle.std.specs.Prelude.{◌≡◌, ◌++◌, OnOk, get_or};
ghost use Rattle.graph_text.specs.Labels.{OwnIs, labels_of, label_in, owner_text, parameter_text, variable_text, call_number, argument_number};

use crate::names::Owner;
use std::alloc::AllocError;

/// What things of a function are called.
#[derive(Drop)]
pub struct FunctionLabels {
    pub name: Vec<u8>,
    /// The names of parameters, by their numbers.
    pub parameters: Vec<Vec<u8>>,
    /// The names of locals, by their numbers.
    pub variables: Vec<Vec<u8>>,
    /// Which call of the text each call is that gives a pointer.
    pub calls: Vec<u64>,
    /// Which argument of the text each argument is.
    pub arguments: Vec<u64>,
}

/// What things of a program are called: functions, variables outside functions and literals, by their numbers. A name that is missing is
/// printed as an empty one, and a number as 0.
#[derive(Drop)]
pub struct Labels {
    pub functions: Vec<FunctionLabels>,
    pub globals: Vec<Vec<u8>>,
    pub literals: Vec<u64>,
}

impl Labels {
    fn own(&self, owner: Owner) -> Option<&FunctionLabels>
        ensures { OwnIs self.now owner result }
    {
        match owner {
            Owner::Start => None,
            Owner::Function(number) => self.functions.get(number),
        }
    }

    /// Appends the name of a function.
    pub(crate) fn put_owner(&self, text: &mut Vec<u8>, owner: Owner) -> Result<(), AllocError>
        ensures { OnOk result (text.new.items ≡ text.old.items ++ owner_text self.now owner) }
    {
        match owner {
            Owner::Start => text.extend_from_slice(b"start"),
            Owner::Function(number) => match self.functions.get(number) {
                None => Ok(()),
                Some(own) => text.extend_from_slice(&own.name),
            },
        }
    }

    /// Appends the name of a parameter.
    pub(crate) fn put_parameter(
        &self,
        text: &mut Vec<u8>,
        owner: Owner,
        number: usize,
    ) -> Result<(), AllocError>
        ensures { OnOk result (text.new.items ≡ text.old.items ++ parameter_text (labels_of self.now owner) number) }
    {
        match self.own(owner) {
            None => Ok(()),
            Some(own) => put_label(text, &own.parameters, number),
        }
    }

    /// Appends the name of a local.
    pub(crate) fn put_variable(
        &self,
        text: &mut Vec<u8>,
        owner: Owner,
        number: usize,
    ) -> Result<(), AllocError>
        ensures { OnOk result (text.new.items ≡ text.old.items ++ variable_text (labels_of self.now owner) number) }
    {
        match self.own(owner) {
            None => Ok(()),
            Some(own) => put_label(text, &own.variables, number),
        }
    }

    /// Which call of the text it is.
    pub(crate) fn call(&self, owner: Owner, number: usize) -> u64
        ensures { result ≡ call_number (labels_of self.now owner) number }
    {
        match self.own(owner) {
            None => 0,
            Some(own) => own.calls.get(number).copied().unwrap_or(0),
        }
    }

    /// Which argument of the text it is.
    pub(crate) fn argument(&self, owner: Owner, number: usize) -> u64
        ensures { result ≡ argument_number (labels_of self.now owner) number }
    {
        match self.own(owner) {
            None => 0,
            Some(own) => own.arguments.get(number).copied().unwrap_or(0),
        }
    }

    /// Which literal of the text it is.
    pub(crate) fn literal(&self, number: usize) -> u64
        ensures { result ≡ get_or self.now.literals.items number 0 }
    {
        self.literals.get(number).copied().unwrap_or(0)
    }
}

/// Appends the name with this number.
pub(crate) fn put_label(
    text: &mut Vec<u8>,
    labels: &Vec<Vec<u8>>,
    number: usize,
) -> Result<(), AllocError>
    ensures { OnOk result (text.new.items ≡ text.old.items ++ label_in labels.now.items number) }
{
    match labels.get(number) {
        None => Ok(()),
        Some(label) => text.extend_from_slice(label),
    }
}
