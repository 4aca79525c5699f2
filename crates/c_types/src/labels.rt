// The labels of a `switch` (C17 6.8.4.2 paragraph 3).

ghost use Rattle.std.specs.Prelude.{◌≡◌, false, true, not, [], IfOk, OnOk};
ghost use Rattle.c_rules.specs.Statements as statements;
ghost use Rattle.c_types.specs.Parts.{SameLabels};

use c_num::{IntType, convert};
use indexmap::IndexSet;
use std::alloc::{AllocError, Global};

/// The labels that stood before.
#[derive(Drop)]
pub(crate) struct Labels {
    values: IndexSet<i128>,
    has_default: bool,
}

impl Labels {
    pub(crate) fn new(alloc: Global) -> Labels
        ensures values { result.values.keys ≡ [] }
        ensures has_default { result.has_default ≡ false }
    {
        Labels {
            values: IndexSet::new(alloc),
            has_default: false,
        }
    }

    /// Adds the label of a `case`, where it has a value. Answers whether it is new.
    pub(crate) fn add(&mut self, label: Option<i128>) -> Result<bool, AllocError>
        ensures is_new { IfOk result (λ is_new. is_new ≡ not (statements.repeats self.old.values.keys label)) }
        ensures values { OnOk result (SameLabels self.new.values.keys (statements.with_label label self.old.values.keys)) }
        ensures has_default { OnOk result (self.new.has_default ≡ self.old.has_default) }
    {
        match label {
            Some(label) => Ok(self.values.insert(label)?),
            None => Ok(true),
        }
    }

    /// Adds `default`. Answers whether it is the first.
    pub(crate) fn add_default(&mut self) -> bool
        ensures is_first { result ≡ not self.old.has_default }
        ensures added { self.new ≡ record self.old { has_default = true } }
    {
        !std::mem::replace(&mut self.has_default, true)
    }
}

/// A label, converted to the type of the value.
pub(crate) fn converted_label(int_type: Option<IntType>, label: Option<i128>) -> Option<i128>
    ensures { result ≡ statements.converted_label int_type label }
{
    match (int_type, label) {
        (Some(int_type), Some(label)) => Some(convert(label, int_type)),
        _ => None,
    }
}
