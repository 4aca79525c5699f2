// Programs (C17 6.9).

ghost use Rattle.std.specs.Prelude.{◌≡◌, [], Some, map, IfOk, Err};
ghost use Rattle.c_syntax.specs.Views.{program_tree};
ghost use Rattle.c_typed.specs.Views.{value_in, ValuesStand};
ghost use Rattle.c_typed.specs.DefinitionViews.{program_of, ProgramStands};
ghost use Rattle.c_rules.specs.Programs as rules;
ghost use Rattle.c_rules.specs.Elaborated as elaborated;
ghost use Rattle.c_typed.specs.Programs.{IsWellTyped};
ghost use Rattle.c_types.specs.Literals.{LiteralsApart};
ghost use Rattle.c_types_expressions.specs.Passes.{named_type, AllNamedStand};
ghost use Rattle.c_rules.specs.NamedItems.{named_types};
ghost use Rattle.c_types.specs.InitialValues.{first_values};

use crate::defined::Defined;
use crate::items::item;
use c_rules::{TypeRule, Violation};
use c_syntax::{Base, Item, Program};
use c_typed as typed;
use c_typed::{ByteString, Value};
use c_types_expressions::{NamedType, Pass};
use c_types_state::{literals_of, outermost};
use indexmap::IndexSet;
use std::alloc::{AllocError, Global};

/// A program that violates no type rule, and the types that its text names.
#[derive(Drop)]
pub struct Typed {
    pub program: typed::Program,
    pub named: Vec<NamedType>,
    /// The expressions of the first values of variables outside functions, of which the program keeps the values alone.
    pub first_values: Vec<Value>,
}

/// Why there is no typed tree.
#[derive(Clone, Copy, Debug, PartialEq, Eq)]
pub enum TypeErr {
    /// The least pair of place and rule among all that the program violates.
    Rule(Violation),
    OutOfMemory,
}

impl From<AllocError> for TypeErr {
    ghost use Rattle.c_types.specs.declared.program.TypeErr.TheVariants as E;

    ghost from_gives = { λ _ e. e ≡ E.OutOfMemory };

    fn from(_: AllocError) -> TypeErr {
        TypeErr::OutOfMemory
    }
}

/// The typed tree of a program, where it violates no type rule.
pub fn check(alloc: Global, program: &Program) -> Result<Typed, TypeErr>
    ensures accepted { IfOk result (λ typed. rules.violations (program_tree program.now) ≡ []) }
    ensures typed { IfOk result (λ typed. program_of typed.program ≡ elaborated.typed_of (program_tree program.now)) }
    ensures well_typed { IfOk result (λ typed. LiteralsApart (program_tree program.now) → IsWellTyped (program_of typed.program)) }
    ensures named { IfOk result (λ typed. map (named_type typed.program.types) typed.named.items ≡ named_types (program_tree program.now)) }
    ensures stands { IfOk result (λ typed. ProgramStands typed.program × AllNamedStand typed.program.types typed.named.items) }
    ensures first { IfOk result (λ typed. map (value_in typed.program.types) typed.first_values.items ≡ first_values (program_tree program.now)) }
    ensures first_stands { IfOk result (λ typed. ValuesStand typed.program.types typed.first_values.items) }
    ensures refused { (violation : Violation) → result ≡ Err (TypeErr.Rule violation) → rules.refusal (program_tree program.now) ≡ Some violation }
{
    let completed = completed_by(alloc, program)?;
    let mut pass = Pass::new(alloc);
    outermost(&mut pass.checker, program)?;
    let mut defined = Defined::new(alloc);
    let mut first_values = Vec::new(alloc);
    for tree in program.items.as_slice() {
        item(&mut pass, &mut defined, &mut first_values, tree)?;
    }
    let has_main = pass.checker.defines(b"main");
    pass.checker.require(has_main, TypeRule::T01, program.end);
    if let Some(violation) = pass.checker.least() {
        return Err(TypeErr::Rule(violation));
    }
    let Pass { checker, named } = pass;
    let Defined { globals, functions } = defined;
    let mut types = checker.into_types();
    let literals = literals_of(alloc, &mut types, program)?;
    Ok(Typed {
        program: typed::Program {
            types,
            completed,
            globals: globals.into_vec(),
            literals,
            functions,
        },
        named,
        first_values,
    })
}

/// The structures that a program completes, each once.
fn completed_by(alloc: Global, program: &Program) -> Result<Vec<ByteString>, AllocError>
    ensures { IfOk result (λ completed. map (λ tag. tag) completed.items ≡ rules.each_once [] (rules.completed_in (program_tree program.now).items)) }
{
    let mut tags = IndexSet::new(alloc);
    let mut completed = Vec::new(alloc);
    for item in program.items.as_slice() {
        let base = match item {
            Item::Declaration { base, .. } => base,
            Item::Function { base, .. } => base,
        };
        if let Base::Struct { name, .. } = base {
            let bytes = name.bytes.as_slice();
            if tags.insert(Vec::from_slice(alloc, bytes)?)? {
                completed.push(ByteString::from_slice(alloc, bytes)?)?;
            }
        }
    }
    Ok(completed)
}
