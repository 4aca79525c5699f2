// Parts of objects to which the paths of a function lead.

ghost use Rattle.std.specs.Prelude.{◌≡◌, map};
ghost use Rattle.std.specs.List.{list_any};
ghost use Rattle.tac_ir.specs.Views.{base_in, path_in, step_of};
ghost use Rattle.heap_graph.specs.Targets as G;
ghost use Rattle.heap_graph.specs.Points as P;
ghost use Rattle.heap_graph.specs.Frozen.{optional_target};
ghost use Rattle.heap_graph.specs.Reached.{optional_reached};
ghost use Rattle.heap_graph.specs.TargetParts.Parts.{root_in};
ghost use Rattle.graph_checker.specs.Contexts.{code_of, graph_of, owner_of, IsContext};

use heap_graph::{
    FrozenGraph, FunctionNames, Part, Reached, Root, Scope, Target, edge_at, element_part,
    global_root, literal_root, member_part, widened,
};
use tac_ir::{Base, Path, Step, Tac};

/// A function of a program: the graph of its group, its names, and what is known of its code.
#[derive(Clone, Copy)]
pub struct Context<'a> {
    pub tac: &'a Tac,
    pub graph: &'a FrozenGraph,
    pub names: &'a FunctionNames,
    pub scope: &'a Scope,
}

impl<'a> Context<'a> {
    /// The object with which a path begins.
    pub fn root_of(&self, base: &Base) -> Root
        requires context { IsContext self.now }
        ensures { root_in self.now.tac.now.types result ≡ P.base_part (code_of self.now) (graph_of self.now) (owner_of self.now) (base_in self.now.tac.now.types base.now) }
    {
        match base {
            Base::Local(local) => Root {
                target: self.names.object(*local),
                c_type: self.scope.locals.of(*local),
            },
            Base::Global(global) => global_root(self.tac, self.graph, *global),
            Base::Literal(literal) => literal_root(self.tac, self.graph, *literal),
            Base::Pointed { pointer, target } => Root {
                target: self.names.register(*pointer),
                c_type: *target,
            },
            Base::Indexed {
                pointer,
                target,
                ..
            } => Root {
                target: self.names.register(*pointer),
                c_type: *target,
            },
        }
    }

    /// The target of the object with which a path begins.
    pub fn base_target(&self, base: &Base) -> Option<Target>
        requires context { IsContext self.now }
        ensures { optional_target result ≡ (P.base_part (code_of self.now) (graph_of self.now) (owner_of self.now) (base_in self.now.tac.now.types base.now)).target }
    {
        let root = self.root_of(base);
        root.target
    }

    /// Where a path leads.
    pub fn place(&self, path: &Path) -> Option<Reached>
        requires context { IsContext self.now }
        ensures { optional_reached result ≡ (P.path_part (code_of self.now) (graph_of self.now) (owner_of self.now) (path_in self.now.tac.now.types path.now)).target }
    {
        let root = self.root_of(&path.base);
        self.place_of(root, path.steps.as_slice())
    }

    /// What the pointer points to that is where a path leads.
    pub fn edge(&self, path: &Path) -> Option<Target>
        requires context { IsContext self.now }
        ensures { optional_target result ≡ G.edge_at (graph_of self.now) (P.path_part (code_of self.now) (graph_of self.now) (owner_of self.now) (path_in self.now.tac.now.types path.now)).target }
    {
        let at = self.place(path);
        edge_at(self.graph, at)
    }

    /// Whether a path begins with an element behind a pointer.
    pub fn is_indexed(&self, base: &Base) -> bool
        ensures { result ≡ P.is_indexed (base_in self.now.tac.now.types base.now) }
    {
        let _ = self.tac;
        match base {
            Base::Local(_) => false,
            Base::Global(_) => false,
            Base::Literal(_) => false,
            Base::Pointed { .. } => false,
            Base::Indexed { .. } => true,
        }
    }

    /// Where steps lead from an object.
    pub fn place_of(&self, root: Root, steps: &[Step]) -> Option<Reached>
        ensures { optional_reached result ≡ (P.steps_part (code_of self.now) (graph_of self.now) (owner_of self.now) (map step_of steps.now) (root_in self.now.tac.now.types root)).target }
    {
        let types = &self.tac.types;
        let mut part = Part {
            target: widened(root.target),
            c_type: root.c_type,
        };
        for step in steps {
            part = match step {
                Step::Member(number) => member_part(types, self.graph, part, *number),
                Step::Element(_) => element_part(types, part),
            };
        }
        part.target
    }
}

/// Whether a path has a member.
pub fn has_member(steps: &[Step]) -> bool
    ensures { result ≡ list_any P.is_member (map step_of steps.now) }
{
    for step in steps {
        match step {
            Step::Member(_) => return true,
            Step::Element(_) => (),
        }
    }
    false
}

/// Whether a path has an element of an array.
pub fn has_element(steps: &[Step]) -> bool
    ensures { result ≡ list_any P.is_element (map step_of steps.now) }
{
    for step in steps {
        match step {
            Step::Element(_) => return true,
            Step::Member(_) => (),
        }
    }
    false
}
