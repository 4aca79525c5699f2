// Variables outside functions and literals that are mentioned.

ghost use Rattle.std.specs.Prelude.{◌≡◌, ◌+◌, length, Some, None, MatchOption, IfOk};
ghost use Rattle.c_typed.specs.Table.{Interned};
ghost use Rattle.tac_ir.specs.Code.{AtGlobal, AtLiteral};
ghost use Rattle.tac_ir.specs.Views.{tac_of, base_in, path_in, op_in};
ghost use Rattle.dsa_local.specs.Mentioned.{path_of, op_begins};
ghost use Rattle.dsa_inlining.specs.Counting.{count_below};
ghost use Rattle.dsa_inlining.specs.Marks.{is_marked};
ghost use Rattle.dsa_inlining.specs.Tallies.{Adds, AreNone, any_of, begins, is_listed, own_names};

use crate::marks::{mark, mark_all, marked};
use crate::sums::sum;
use crate::told_statics::{GroupStatics, Statics};
use std::alloc::{AllocError, Global};
use tac_ir::{Base, GlobalId, LiteralId, Op, Path, Tac};

/// The variables outside functions and the literals of a program that are mentioned, by their numbers.
#[derive(Drop)]
pub(crate) struct Mentions {
    globals: Vec<bool>,
    literals: Vec<bool>,
}

impl Mentions {
    /// None of a program's.
    pub(crate) fn new(alloc: Global, tac: &Tac) -> Result<Mentions, AllocError>
        ensures { IfOk result (AreNone (tac_of tac.now)) }
    {
        Ok(Mentions {
            globals: Vec::from_elem(alloc, false, tac.globals.len())?,
            literals: Vec::from_elem(alloc, false, tac.literals.len())?,
        })
    }

    /// Adds a variable outside functions.
    pub(crate) fn add_global(&mut self, global: GlobalId)
        ensures { Adds (λ name. begins name (AtGlobal global.0)) self.old self.new }
    {
        mark(&mut self.globals, global.0);
    }

    /// Adds a literal.
    pub(crate) fn add_literal(&mut self, literal: LiteralId)
        ensures { Adds (λ name. begins name (AtLiteral literal.0)) self.old self.new }
    {
        mark(&mut self.literals, literal.0);
    }

    /// Adds what a path begins with, if it is outside functions.
    fn add_base(&mut self, base: &Base)
        ensures { (table : Interned) → Adds (λ name. begins name (base_in table base.now)) self.old self.new }
    {
        match base {
            Base::Local(_) => {}
            Base::Global(global) => self.add_global(*global),
            Base::Literal(literal) => self.add_literal(*literal),
            Base::Pointed { .. } => {}
            Base::Indexed { .. } => {}
        }
    }

    /// Adds what the path of a point begins with, if it has one.
    pub(crate) fn add_path(&mut self, op: &Op)
        ensures { (table : Interned) → Adds (λ name. op_begins (begins name) (op_in table op.now)) self.old self.new }
    {
        match path_of(op) {
            Some(path) => self.add_base(&path.base),
            None => {}
        }
    }

    /// Adds those that are listed.
    fn add_statics(&mut self, statics: &Statics)
        ensures { Adds (is_listed statics.now) self.old self.new }
    {
        mark_all(&mut self.globals, statics.globals.as_slice());
        mark_all(&mut self.literals, statics.literals.as_slice());
    }

    /// Adds those that a group lists as its own.
    fn add_group(&mut self, all: &[GroupStatics], group: usize)
        ensures { Adds (own_names all.now group) self.old self.new }
    {
        match all.get(group) {
            Some(its) => self.add_statics(&its.own),
            None => {}
        }
    }

    /// The same of some groups.
    pub(crate) fn add_groups(&mut self, all: &[GroupStatics], groups: &[usize])
        ensures { Adds (any_of (own_names all.now) groups.now) self.old self.new }
    {
        for group in groups {
            self.add_group(all, *group);
        }
    }

    /// How many there are.
    pub(crate) fn count(&self) -> Result<u64, AllocError>
        ensures { IfOk result (λ count. count ≡ count_below (length self.now.globals.items) (is_marked self.now.globals.items) + count_below (length self.now.literals.items) (is_marked self.now.literals.items)) }
    {
        let globals = marked(self.globals.as_slice());
        let literals = marked(self.literals.as_slice());
        sum(globals as u64, literals as u64)
    }
}

/// The path of a point that has one.
fn path_of(op: &Op) -> Option<&Path>
    ensures { MatchOption result ((table : Interned) → path_of (op_in table op.now) ≡ None) (λ path. (table : Interned) → path_of (op_in table op.now) ≡ Some (path_in table path.now)) }
{
    match op {
        Op::Address { path, .. } => Some(path),
        Op::Load { path, .. } => Some(path),
        Op::Store { path, .. } => Some(path),
        _ => None,
    }
}
