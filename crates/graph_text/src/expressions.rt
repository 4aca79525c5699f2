// What of expressions has labels.

ghost use Rattle.std.specs.Prelude.{◌≡◌, OnOk};
ghost use Rattle.c_syntax.specs.Views.{expr_tree, arguments_of, type_tree, declarator_tree, parameters_of, value_tree, init_tree};
ghost use Rattle.graph_text.specs.Adding.{scope_at, AddsHere, call_marks, suffix_marks};
ghost use Rattle.graph_text.specs.Marks.{argument_mark, marks_in, marks_in_arguments, marks_in_type, marks_in_declarator, marks_in_parameters, marks_in_value, first_marks};

use crate::marks::{Mark, Marker};
use c_syntax::{Declarator, Direct, Expr, Init, Parameter, Suffix, TypeName};
use std::alloc::AllocError;

impl Marker {
    /// An expression, done or in `sizeof`.
    #[cycle(expr)]
    pub(crate) fn expr(&mut self, is_done: bool, tree: &Expr) -> Result<(), AllocError>
        ensures scope { OnOk result (scope_at self.new ≡ scope_at self.old) }
        ensures marks { AddsHere (λ scope. marks_in scope is_done (expr_tree tree.now)) self.old self.new result }
    {
        match tree {
            Expr::Parenthesized { inner, .. } => self.expr(is_done, inner),
            Expr::Index { array, index } => {
                self.expr(is_done, array)?;
                self.expr(is_done, index)
            }
            Expr::Call {
                function,
                arguments,
                ..
            } => self.call(is_done, function, arguments.as_slice()),
            Expr::Member { object, .. } => self.expr(is_done, object),
            Expr::PointerMember { pointer, .. } => self.expr(is_done, pointer),
            Expr::PostIncrement { operand } => self.expr(is_done, operand),
            Expr::PostDecrement { operand } => self.expr(is_done, operand),
            Expr::Prefix { operand, .. } => self.expr(is_done, operand),
            Expr::SizeofExpr { operand, .. } => self.expr(false, operand),
            Expr::SizeofType { type_name, .. } => self.type_name(type_name),
            Expr::Cast {
                type_name,
                operand,
                ..
            } => {
                self.type_name(type_name)?;
                self.expr(is_done, operand)
            }
            Expr::Binary { left, right, .. } => {
                self.expr(is_done, left)?;
                self.expr(is_done, right)
            }
            Expr::Conditional {
                condition,
                then,
                otherwise,
            } => {
                self.expr(is_done, condition)?;
                self.expr(is_done, then)?;
                self.expr(is_done, otherwise)
            }
            Expr::Assign { object, value, .. } => {
                self.expr(is_done, object)?;
                self.expr(is_done, value)
            }
            _ => Ok(()),
        }
    }

    /// A call.
    #[cycle(expr)]
    fn call(&mut self, is_done: bool, function: &Expr, arguments: &[Expr]) -> Result<(), AllocError>
        ensures scope { OnOk result (scope_at self.new ≡ scope_at self.old) }
        ensures marks { AddsHere (λ scope. call_marks scope is_done (expr_tree function.now) (arguments_of arguments.now)) self.old self.new result }
    {
        self.expr(is_done, function)?;
        let called = self.called(function)?;
        let is_malloc = self.calls_malloc(function);
        self.add(Mark::Call {
            is_done,
            is_pointer: is_malloc || called.gives_pointer,
        })?;
        self.arguments(is_done, called.pointers.as_slice(), arguments)?;
        Ok(())
    }

    /// Arguments, where these parameters are pointers.
    #[cycle(expr)]
    fn arguments(
        &mut self,
        is_done: bool,
        pointers: &[bool],
        arguments: &[Expr],
    ) -> Result<(), AllocError>
        ensures scope { OnOk result (scope_at self.new ≡ scope_at self.old) }
        ensures marks { AddsHere (λ scope. marks_in_arguments scope is_done pointers.now 0 (arguments_of arguments.now)) self.old self.new result }
    {
        for (number, argument) in arguments.iter().enumerate() {
            self.argument(is_done, pointers.get(number).copied())?;
            self.expr(is_done, argument)?;
        }
        Ok(())
    }

    /// An argument itself, where it has a parameter.
    fn argument(&mut self, is_done: bool, is_pointer: Option<bool>) -> Result<(), AllocError>
        ensures scope { OnOk result (scope_at self.new ≡ scope_at self.old) }
        ensures marks { AddsHere (λ scope. argument_mark is_done is_pointer) self.old self.new result }
    {
        match is_pointer {
            Some(is_pointer) => self.add(Mark::Argument {
                is_done,
                is_pointer,
            }),
            None => Ok(()),
        }
    }

    /// The name of a type.
    #[cycle(expr)]
    fn type_name(&mut self, tree: &TypeName) -> Result<(), AllocError>
        ensures scope { OnOk result (scope_at self.new ≡ scope_at self.old) }
        ensures marks { AddsHere (λ scope. marks_in_type scope (type_tree tree.now)) self.old self.new result }
    {
        match &tree.declarator {
            Some(declarator) => self.declarator(declarator),
            None => Ok(()),
        }
    }

    #[cycle(expr)]
    pub(crate) fn declarator(&mut self, tree: &Declarator) -> Result<(), AllocError>
        ensures scope { OnOk result (scope_at self.new ≡ scope_at self.old) }
        ensures marks { AddsHere (λ scope. marks_in_declarator scope (declarator_tree tree.now)) self.old self.new result }
    {
        if let Direct::Nested(inner) = &tree.direct {
            self.declarator(inner)?;
        }
        for suffix in tree.suffixes.as_slice() {
            self.suffix(suffix)?;
        }
        Ok(())
    }

    #[cycle(expr)]
    fn suffix(&mut self, tree: &Suffix) -> Result<(), AllocError>
        ensures scope { OnOk result (scope_at self.new ≡ scope_at self.old) }
        ensures marks { AddsHere (λ scope. suffix_marks scope tree.now) self.old self.new result }
    {
        match tree {
            Suffix::Array(Some(length)) => self.expr(false, length),
            Suffix::Array(None) => Ok(()),
            Suffix::Function(parameters) => self.parameters(parameters.as_slice()),
        }
    }

    #[cycle(expr)]
    fn parameters(&mut self, trees: &[Parameter]) -> Result<(), AllocError>
        ensures scope { OnOk result (scope_at self.new ≡ scope_at self.old) }
        ensures marks { AddsHere (λ scope. marks_in_parameters scope (parameters_of trees.now)) self.old self.new result }
    {
        for parameter in trees {
            if let Some(declarator) = &parameter.declarator {
                self.declarator(declarator)?;
            }
        }
        Ok(())
    }

    /// An expression that may be left out.
    pub(crate) fn optional(&mut self, tree: &Option<Expr>) -> Result<(), AllocError>
        ensures scope { OnOk result (scope_at self.new ≡ scope_at self.old) }
        ensures marks { AddsHere (λ scope. marks_in_value scope (value_tree tree.now)) self.old self.new result }
    {
        match tree {
            Some(value) => self.expr(true, value),
            None => Ok(()),
        }
    }

    /// The initializer of a local.
    pub(crate) fn init(&mut self, tree: &Init) -> Result<(), AllocError>
        ensures scope { OnOk result (scope_at self.new ≡ scope_at self.old) }
        ensures marks { AddsHere (λ scope. first_marks scope (init_tree tree.now)) self.old self.new result }
    {
        match tree {
            Init::Value(value) => self.expr(true, value),
            Init::List { .. } => Ok(()),
        }
    }
}
