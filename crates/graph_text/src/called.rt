// What is called.

ghost use Rattle.std.specs.Prelude.{◌≡◌, map, IfOk, OnOk};
ghost use Rattle.c_syntax.specs.Views.{expr_tree};
ghost use Rattle.c_typed.specs.Types as T;
ghost use Rattle.c_typed.specs.Table.{Interned, Stands, ListStands, type_in, types_in};
ghost use Rattle.c_rules.specs.Elaborated.{types_in as listed};
ghost use Rattle.c_rules.specs.Expressions as rules;
ghost use Rattle.c_types_state.specs.NameTables.{meaning_in};
ghost use Rattle.graph_text.specs.Adding.{scope_at};
ghost use Rattle.graph_text.specs.Marks as M;

use crate::marks::Marker;
use c_syntax::Expr;
use c_typed::{CType, LibraryFunction, Parameters, Shape};
use c_types_expressions::expr;
use c_types_state::{Checker, NameMeaning};
use std::alloc::AllocError;

/// Whether what is called gives a pointer, and which of its parameters are pointers.
#[derive(Drop)]
pub(crate) struct Called {
    pub(crate) gives_pointer: bool,
    pub(crate) pointers: Vec<bool>,
}

impl Marker {
    /// What is called.
    pub(crate) fn called(&mut self, function: &Expr) -> Result<Called, AllocError>
        ensures scope { OnOk result (scope_at self.new ≡ scope_at self.old) }
        ensures marks { self.new.marks ≡ self.old.marks }
        ensures gives { IfOk result (λ called. called.gives_pointer ≡ M.gives_pointer (rules.expr (scope_at self.old) (expr_tree function.now)).known) }
        ensures pointers { IfOk result (λ called. called.pointers.items ≡ M.called_pointers (rules.expr (scope_at self.old) (expr_tree function.now)).known) }
    {
        match expr(&mut self.pass, function)? {
            Some(known) => self.function_behind(known.c_type),
            None => Ok(Called {
                gives_pointer: false,
                pointers: Vec::new(self.pass.alloc()),
            }),
        }
    }

    /// Whether `malloc` is called, whose name may stand in parentheses.
    pub(crate) fn calls_malloc(&self, function: &Expr) -> bool
        ensures { result ≡ M.calls_malloc (scope_at self.now) (expr_tree function.now) }
    {
        match function {
            Expr::Named(name) => is_malloc(self.pass.checker.meaning(name.bytes.as_slice())),
            Expr::Parenthesized { inner, .. } => self.calls_malloc(inner),
            _ => false,
        }
    }

    /// A function, or what a pointer of the type points to.
    fn function_behind(&self, c_type: CType) -> Result<Called, AllocError>
        requires { Stands self.now.pass.checker.table c_type }
        ensures gives { IfOk result (λ called. called.gives_pointer ≡ M.returns_pointer (M.called_type (type_in self.now.pass.checker.table c_type))) }
        ensures pointers { IfOk result (λ called. called.pointers.items ≡ M.pointers_of (M.called_type (type_in self.now.pass.checker.table c_type))) }
    {
        self.of_type(called_type(&self.pass.checker, c_type))
    }

    /// A function of a type.
    fn of_type(&self, c_type: CType) -> Result<Called, AllocError>
        requires { Stands self.now.pass.checker.table c_type }
        ensures gives { IfOk result (λ called. called.gives_pointer ≡ M.returns_pointer (type_in self.now.pass.checker.table c_type)) }
        ensures pointers { IfOk result (λ called. called.pointers.items ≡ M.pointers_of (type_in self.now.pass.checker.table c_type)) }
    {
        match self.pass.checker.shape(c_type) {
            Shape::Function {
                result: returned,
                parameters,
            } => Ok(Called {
                gives_pointer: is_pointer(&self.pass.checker, returned),
                pointers: self.pointers(parameters)?,
            }),
            _ => Ok(Called {
                gives_pointer: false,
                pointers: Vec::new(self.pass.alloc()),
            }),
        }
    }

    /// Which parameters are pointers.
    fn pointers(&self, parameters: Parameters) -> Result<Vec<bool>, AllocError>
        requires { ListStands self.now.pass.checker.table parameters }
        ensures { IfOk result (λ pointers. pointers.items ≡ map T.is_pointer (listed (types_in self.now.pass.checker.table parameters))) }
    {
        let checker = &self.pass.checker;
        let mut pointers = Vec::new(self.pass.alloc());
        let mut rest = parameters;
        while let Some((first, others)) = checker.first_parameter(rest) {
            pointers.push(is_pointer(checker, first))?;
            rest = others;
        }
        Ok(pointers)
    }
}

/// The type itself, or that to which a pointer of the type points.
fn called_type(checker: &Checker, c_type: CType) -> CType
    requires { Stands checker.now.table c_type }
    ensures stands { Stands checker.now.table result }
    ensures is { type_in checker.now.table result ≡ M.called_type (type_in checker.now.table c_type) }
{
    match checker.shape(c_type) {
        Shape::Pointer(target) => target,
        _ => c_type,
    }
}

/// Whether a type is that of a pointer.
fn is_pointer(checker: &Checker, c_type: CType) -> bool
    requires { Stands checker.now.table c_type }
    ensures { result ≡ T.is_pointer (type_in checker.now.table c_type) }
{
    match checker.shape(c_type) {
        Shape::Pointer(_) => true,
        _ => false,
    }
}

fn is_malloc(meaning: NameMeaning) -> bool
    ensures { (table : Interned) → result ≡ M.is_malloc (meaning_in table meaning) }
{
    match meaning {
        NameMeaning::Library(LibraryFunction::Malloc) => true,
        _ => false,
    }
}
