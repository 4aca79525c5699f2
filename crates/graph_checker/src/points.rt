// What the points of a function ask of its graph, but for calls.

ghost use Rattle.std.specs.Prelude.{◌≡◌, ◌&&◌, map};
ghost use Rattle.c_typed.specs.Table.{type_in};
ghost use Rattle.tac_ir.specs.Views.{base_in, path_in, scalar_in, operand_of, optional_operand, op_in};
ghost use Rattle.tac_ir.specs.States.{Owner};
ghost use Rattle.heap_graph.specs.Closed.{Family, base_mentioned, mentions_closed};
ghost use Rattle.heap_graph.specs.Targets as G;
ghost use Rattle.heap_graph.specs.Points as P;
ghost use Rattle.heap_graph.specs.Frozen.{optional_target, register_target};
ghost use Rattle.heap_graph.specs.Shows.{ShowsGraph, ShowsNames};
ghost use Rattle.graph_checker.specs.Contexts.{code_of, graph_of, owner_of, IsContext};
ghost use Rattle.heap_graph.specs.Plain.{plain_point_closed, plain_closed};
ghost use Rattle.graph_checker.specs.Stored.{stored_at, has_index, array_of, base_read, base_modified, member_typed};

use crate::context::{Context, has_element, has_member};
use crate::held::{is_allocated, points_to};
use c_typed::CType;
use heap_graph::{
    Target, has_target, is_array_if, is_at, is_data_scalar, is_modified, is_read, same_target,
};
use tac_ir::{Base, Op, Operand, Path, Register, Scalar};

impl<'a> Context<'a> {
    /// Whether nothing is asked of what comes from a register, or what it holds comes to a target.
    fn takes(&self, target: Option<Target>, from: Register) -> bool
        requires context { IsContext self.now }
        ensures { result ≡ P.takes (code_of self.now) (graph_of self.now) (owner_of self.now) (optional_target target) from }
    {
        self.scope.nulls.is_marked(from) || same_target(target, self.names.register(from))
    }

    /// Whether what a path's pointer points to is of the type that the pointer tells.
    fn base_typed(&self, base: &Base) -> bool
        requires context { IsContext self.now }
        ensures { result ≡ P.base_typed (code_of self.now) (graph_of self.now) (owner_of self.now) (base_in self.now.tac.now.types base.now) }
    {
        match base {
            Base::Local(_) => true,
            Base::Global(_) => true,
            Base::Literal(_) => true,
            Base::Pointed { pointer, target } => self.is_told(*target, *pointer),
            Base::Indexed {
                pointer,
                target,
                ..
            } => self.is_told(*target, *pointer),
        }
    }

    /// Whether what a register points to is of a type.
    fn is_told(&self, target: CType, pointer: Register) -> bool
        requires context { IsContext self.now }
        ensures { result ≡ G.points_to (code_of self.now).structs (graph_of self.now) (type_in self.now.tac.now.types target) (register_target self.now.names.now pointer) }
    {
        points_to(
            &self.tac.types,
            self.graph,
            target,
            self.names.register(pointer),
        )
    }

    /// Whether an index behind a pointer, with which a path begins, is one of an array.
    fn base_used(&self, path: &Path) -> bool
        requires context { IsContext self.now }
        ensures { result ≡ P.base_used (code_of self.now) (graph_of self.now) (owner_of self.now) (path_in self.now.tac.now.types path.now) }
    {
        let base = self.base_target(&path.base);
        let asked = self.is_indexed(&path.base);
        is_array_if(self.graph, base, asked)
    }

    /// Whether the object of a path that has an index is an array.
    fn is_array_of(&self, path: &Path) -> bool
        requires context { IsContext self.now }
        ensures { result ≡ array_of (code_of self.now) (graph_of self.now) (owner_of self.now) (path_in self.now.tac.now.types path.now) }
    {
        let base = self.base_target(&path.base);
        let asked = self.has_index(path);
        is_array_if(self.graph, base, asked)
    }

    fn has_index(&self, path: &Path) -> bool
        ensures { result ≡ has_index (path_in self.now.tac.now.types path.now) }
    {
        if self.is_indexed(&path.base) {
            true
        } else {
            has_element(path.steps.as_slice())
        }
    }

    /// Whether the object of a path is read.
    fn is_base_read(&self, path: &Path) -> bool
        requires context { IsContext self.now }
        ensures { result ≡ base_read (code_of self.now) (graph_of self.now) (owner_of self.now) (path_in self.now.tac.now.types path.now) }
    {
        let base = self.base_target(&path.base);
        is_read(self.graph, base)
    }

    /// Whether the object of a path is written.
    fn is_base_modified(&self, path: &Path) -> bool
        requires context { IsContext self.now }
        ensures { result ≡ base_modified (code_of self.now) (graph_of self.now) (owner_of self.now) (path_in self.now.tac.now.types path.now) }
    {
        let base = self.base_target(&path.base);
        is_modified(self.graph, base)
    }

    /// Whether what a path's pointer points to is of the type that the pointer tells, where the path has a member.
    fn is_member_typed(&self, path: &Path) -> bool
        requires context { IsContext self.now }
        ensures { result ≡ member_typed (code_of self.now) (graph_of self.now) (owner_of self.now) (path_in self.now.tac.now.types path.now) }
    {
        if has_member(path.steps.as_slice()) {
            self.base_typed(&path.base)
        } else {
            true
        }
    }

    fn address_closed(&self, to: Register, path: &Path) -> bool
        requires context { IsContext self.now }
        ensures { result ≡ P.address_closed (code_of self.now) (graph_of self.now) (owner_of self.now) to (path_in self.now.tac.now.types path.now) }
    {
        let base = self.base_target(&path.base);
        if !has_target(base) {
            return true;
        }
        if !is_at(self.names.register(to), self.place(path)) {
            return false;
        }
        if !self.is_member_typed(path) {
            return false;
        }
        self.is_array_of(path)
    }

    fn load_closed(&self, to: Register, scalar: Scalar, path: &Path) -> bool
        requires context { IsContext self.now }
        ensures { result ≡ P.load_closed (code_of self.now) (graph_of self.now) (owner_of self.now) to (scalar_in self.now.tac.now.types scalar) (path_in self.now.tac.now.types path.now) }
    {
        let base = self.base_target(&path.base);
        if !has_target(base) {
            return true;
        }
        if !self.base_typed(&path.base) {
            return false;
        }
        if !self.base_used(path) {
            return false;
        }
        if !self.is_base_read(path) {
            return false;
        }
        if !is_data_scalar(&self.tac.types, scalar) {
            return true;
        }
        is_same_place(self.names.register(to), self.edge(path))
    }

    fn store_closed(&self, path: &Path, scalar: Scalar, value: &Operand) -> bool
        requires context { IsContext self.now }
        ensures { result ≡ P.store_closed (code_of self.now) (graph_of self.now) (owner_of self.now) (path_in self.now.tac.now.types path.now) (scalar_in self.now.tac.now.types scalar) (operand_of value.now) }
    {
        let base = self.base_target(&path.base);
        if !has_target(base) {
            return true;
        }
        if !self.base_typed(&path.base) {
            return false;
        }
        if !self.base_used(path) {
            return false;
        }
        if !self.is_base_modified(path) {
            return false;
        }
        self.is_stored(scalar, value, self.edge(path))
    }

    /// Whether a value comes to what an edge points to.
    fn is_stored(&self, scalar: Scalar, value: &Operand, edge: Option<Target>) -> bool
        requires context { IsContext self.now }
        ensures { result ≡ stored_at (code_of self.now) (graph_of self.now) (owner_of self.now) (scalar_in self.now.tac.now.types scalar) (operand_of value.now) (optional_target edge) }
    {
        match value {
            Operand::Integer(_) => true,
            Operand::Pointer(register) => {
                !is_data_scalar(&self.tac.types, scalar) || self.takes(edge, *register)
            }
        }
    }

    fn move_closed(&self, to: Register, from: Register) -> bool
        requires context { IsContext self.now }
        ensures { result ≡ P.move_closed (code_of self.now) (graph_of self.now) (owner_of self.now) to from }
    {
        if !self.takes(self.names.register(to), from) {
            return false;
        }
        self.scope.nulls.is_marked(from) || self.is_of_array(self.names.register(from))
    }

    /// Whether what a target points to is one of an array's elements.
    fn is_of_array(&self, target: Option<Target>) -> bool
        ensures { result ≡ G.at_target (graph_of self.now) (optional_target target) (λ node shift. node.flags.array) }
    {
        is_array_if(self.graph, target, true)
    }

    fn repoint_closed(&self, to: Register, target: CType, from: Register) -> bool
        requires context { IsContext self.now }
        ensures { result ≡ P.repoint_closed (code_of self.now) (graph_of self.now) (owner_of self.now) to (type_in self.now.tac.now.types target) from }
    {
        if !self.takes(self.names.register(to), from) {
            return false;
        }
        self.scope.nulls.is_marked(from) || self.is_told(target, from)
    }

    fn return_closed(&self, value: &Option<Operand>) -> bool
        requires context { IsContext self.now }
        ensures { result ≡ P.return_closed (code_of self.now) (graph_of self.now) (owner_of self.now) (optional_operand value.now) }
    {
        match value {
            None => true,
            Some(Operand::Integer(_)) => true,
            Some(Operand::Pointer(register)) => self.takes(self.names.returned, *register),
        }
    }

    /// Whether the graph keeps what a point asks that is no call.
    pub fn point_closed(&self, op: &Op) -> bool
        requires context { IsContext self.now }
        ensures { result ≡ P.point_closed (code_of self.now) (graph_of self.now) (owner_of self.now) (op_in self.now.tac.now.types op.now) }
    {
        match op {
            Op::Copy { to, from } => self.takes(self.names.register(*to), *from),
            Op::Move { to, pointer, .. } => self.move_closed(*to, *pointer),
            Op::Repoint { to, target, from } => self.repoint_closed(*to, *target, *from),
            Op::Address { to, path } => self.address_closed(*to, path),
            Op::Load { to, scalar, path } => self.load_closed(*to, *scalar, path),
            Op::Store {
                path,
                scalar,
                value,
            } => self.store_closed(path, *scalar, value),
            Op::Allocate { site, size } => {
                is_allocated(
                    &self.tac.types,
                    self.graph,
                    self.names.register(Register::Call(*site)),
                    size,
                )
            }
            Op::Return(value) => self.return_closed(value),
            _ => true,
        }
    }

    /// Whether the graph has a target of the variable outside functions or of the literal with which a path begins.
    fn is_mentioned(&self, base: &Base) -> bool
        ensures { (family : Family) (owner : Owner) → ShowsGraph self.now.tac.now.types family owner self.now.graph.now → result ≡ base_mentioned family owner (base_in self.now.tac.now.types base.now) }
    {
        match base {
            Base::Local(_) => true,
            Base::Global(global) => has_target(self.graph.global(*global)),
            Base::Literal(literal) => has_target(self.graph.literal(*literal)),
            Base::Pointed { .. } => true,
            Base::Indexed { .. } => true,
        }
    }

    /// Whether the graph has a target of the variable outside functions or of the literal with which a point's path begins.
    pub fn mentions_closed(&self, op: &Op) -> bool
        ensures { (family : Family) (owner : Owner) → ShowsGraph self.now.tac.now.types family owner self.now.graph.now → result ≡ mentions_closed family owner (op_in self.now.tac.now.types op.now) }
    {
        match op {
            Op::Address { path, .. } => self.is_mentioned(&path.base),
            Op::Load { path, .. } => self.is_mentioned(&path.base),
            Op::Store { path, .. } => self.is_mentioned(&path.base),
            _ => true,
        }
    }

    /// Whether the graph keeps what a point asks that is no call, with what its path begins with.
    fn plain_point_closed(&self, op: &Op) -> bool
        requires context { IsContext self.now }
        ensures { (family : Family) → ShowsGraph self.now.tac.now.types family (owner_of self.now) self.now.graph.now → ShowsNames family (owner_of self.now) self.now.names.now → result ≡ plain_point_closed (code_of self.now) family (owner_of self.now) (op_in self.now.tac.now.types op.now) }
    {
        if self.mentions_closed(op) {
            self.point_closed(op)
        } else {
            false
        }
    }

    /// Whether the graph keeps what a function's points ask that are no calls.
    pub fn points_closed(&self, points: &[Op]) -> bool
        requires context { IsContext self.now }
        ensures { (family : Family) → ShowsGraph self.now.tac.now.types family (owner_of self.now) self.now.graph.now → ShowsNames family (owner_of self.now) self.now.names.now → result ≡ plain_closed (code_of self.now) family (owner_of self.now) (map (op_in self.now.tac.now.types) points.now) }
    {
        for op in points {
            if !self.plain_point_closed(op) {
                return false;
            }
        }
        true
    }
}

/// Whether there are two targets, which are the same.
fn is_same_place(a: Option<Target>, b: Option<Target>) -> bool
    ensures { result ≡ (G.has_target (optional_target a) && G.same_target (optional_target a) (optional_target b)) }
{
    has_target(a) && same_target(a, b)
}
