// The points of a function that stand so far. Points are only appended; a branch or a jump whose target isn't known yet is reserved,
// and filled in once it is.

use crate::lowered::{Lowered, PointerValue};
use c_num::IntType;
use c_typed::CType;
use std::alloc::{AllocError, Global};
use tac_ir::{Base, Counts, LocalObject, Op, Path, PointId, Register, Tree};

/// The points of a function that stand so far, how many registers they name, and the locals that lie in memory.
#[derive(Drop)]
pub struct Builder {
    pub alloc: Global,
    pub points: Vec<Op>,
    pub counts: Counts,
    pub objects: Vec<LocalObject>,
}

/// No registers.
pub const NO_COUNTS: Counts = Counts {
    variables: 0,
    calls: 0,
    arguments: 0,
    expressions: 0,
    temporaries: 0,
};

impl Builder {
    ghost use Rattle.std.specs.Prelude.{◌≡◌, ◌+◌, true, length, List, [], OnOk, IfOk};
    ghost use Rattle.c_typed.specs.Table.{Interned, type_in};
    ghost use Rattle.tac_ir.specs.declared.register.Register.TheVariants as R;
    ghost use Rattle.tac_ir.specs.Code.{Held};
    ghost use Rattle.tac_ir.specs.Code as C;
    ghost use Rattle.tac_ir.specs.Views.{tree_of, base_in, path_in, op_in};
    ghost use Rattle.tac_build.specs.Spots.{behind, AsInteger, AsObject, with_call, with_argument, with_temporary, argument, temporary};
    ghost use Rattle.tac_build.specs.Code.{HasOp, Emits, GivesInteger, GivesPointer, KeepsTree, path_from};
    ghost use Rattle.tac_build.specs.Building.{lowered_in, pointer_in, is_filled, Fills, Grows, GrowsBut, IsReserved, points_in, spot_of, Leads, Lowers, HasRoom, Adds};

    /// Neither points nor registers.
    pub fn new(alloc: Global) -> Builder
        ensures points { result.points.items ≡ [] }
        ensures counts { result.counts ≡ record { variables = 0; calls = 0; arguments = 0; expressions = 0; temporaries = 0 } }
        ensures objects { result.objects.items ≡ [] }
    {
        Builder {
            alloc,
            points: Vec::new(alloc),
            counts: NO_COUNTS,
            objects: Vec::new(alloc),
        }
    }

    /// The point that comes next.
    pub fn here(&self) -> PointId
        ensures { result.0 ≡ length self.now.points.items }
    {
        PointId(self.points.len())
    }

    /// One more point.
    pub fn append(&mut self, op: Op) -> Result<(), AllocError>
        requires filled { is_filled op ≡ true }
        ensures code { OnOk result (Leads (λ table points. Emits points (op_in table op)) self.old self.new) }
        ensures grows { OnOk result (Grows self.old self.new) }
        ensures counts { self.new.counts ≡ self.old.counts }
    {
        self.points.push(op)?;
        Ok(())
    }

    /// A point that is to be filled in.
    pub fn reserve(&mut self) -> Result<PointId, AllocError>
        ensures at { IfOk result (λ at. at.0 ≡ length self.old.points.items) }
        ensures reserved { IfOk result (λ at. IsReserved self.new at.0) }
        ensures spot { OnOk result ((table : Interned) → spot_of table self.new ≡ behind (spot_of table self.old)) }
        ensures grows { OnOk result (Grows self.old self.new) }
        ensures counts { self.new.counts ≡ self.old.counts }
    {
        let at = self.here();
        self.points.push(Op::Reserved)?;
        Ok(at)
    }

    /// Fills in a point.
    pub fn fill(&mut self, at: PointId, op: Op)
        requires filled { is_filled op ≡ true }
        requires reserved { IsReserved self.old at.0 }
        ensures code { (table : Interned) (points : List C.Op) → Fills (points_in table self.new) points → HasOp points at.0 (op_in table op) }
        ensures spot { (table : Interned) → spot_of table self.new ≡ spot_of table self.old }
        ensures grows { GrowsBut at.0 self.old self.new }
        ensures counts { self.new.counts ≡ self.old.counts }
    {
        self.points[at.0] = op;
    }

    /// Fills in a jump to the point that comes next.
    pub fn fill_jump(&mut self, at: PointId)
        requires { IsReserved self.old at.0 }
        ensures code { (table : Interned) (points : List C.Op) → Fills (points_in table self.new) points → HasOp points at.0 (C.Jump (length self.old.points.items)) }
        ensures spot { (table : Interned) → spot_of table self.new ≡ spot_of table self.old }
        ensures grows { GrowsBut at.0 self.old self.new }
        ensures counts { self.new.counts ≡ self.old.counts }
    {
        let here = self.here();
        self.fill(at, Op::Jump(here));
    }

    /// A call's site.
    pub fn new_call(&mut self) -> usize
        requires room { HasRoom self.old 1 }
        ensures named { result ≡ self.old.counts.calls }
        ensures spot { (table : Interned) → spot_of table self.new ≡ with_call (spot_of table self.old) }
        ensures points { self.new.points.items ≡ self.old.points.items }
        ensures adds { Adds self.old self.new 1 }
    {
        let site = self.counts.calls;
        self.counts.calls += 1;
        site
    }

    /// The register of an argument.
    pub fn new_argument(&mut self) -> Register
        requires room { HasRoom self.old 1 }
        ensures named { result ≡ R.Argument self.old.counts.arguments }
        ensures spot { (table : Interned) → spot_of table self.new ≡ with_argument (spot_of table self.old) }
        ensures points { self.new.points.items ≡ self.old.points.items }
        ensures adds { Adds self.old self.new 1 }
    {
        let argument = Register::Argument(self.counts.arguments);
        self.counts.arguments += 1;
        argument
    }

    /// A register for an integer.
    pub fn new_temporary(&mut self) -> Register
        requires room { HasRoom self.old 1 }
        ensures named { result ≡ R.Temporary self.old.counts.temporaries }
        ensures spot { (table : Interned) → spot_of table self.new ≡ with_temporary (spot_of table self.old) }
        ensures points { self.new.points.items ≡ self.old.points.items }
        ensures adds { Adds self.old self.new 1 }
    {
        let temporary = Register::Temporary(self.counts.temporaries);
        self.counts.temporaries += 1;
        temporary
    }

    /// The register of the expression of pointer type that comes next.
    pub fn expression(&self) -> Register
        ensures { result ≡ R.Expression self.now.counts.expressions }
    {
        Register::Expression(self.counts.expressions)
    }

    /// The temporary that comes next.
    pub fn temporary(&self) -> Register
        ensures { result ≡ R.Temporary self.now.counts.temporaries }
    {
        Register::Temporary(self.counts.temporaries)
    }

    /// A point that writes a pointer to the register of its expression.
    pub fn give_pointer(&mut self, op: Op, target: CType) -> Result<PointerValue, AllocError>
        requires filled { is_filled op ≡ true }
        requires room { HasRoom self.old 1 }
        ensures code { IfOk result (λ given. Leads (λ table points from to. GivesPointer points (λ register. op_in table op) (type_in table target) from to (pointer_in table given)) self.old self.new) }
        ensures grows { OnOk result (Grows self.old self.new) }
        ensures adds { OnOk result (Adds self.old self.new 1) }
    {
        let register = self.expression();
        self.append(op)?;
        self.counts.expressions += 1;
        Ok(PointerValue { register, target })
    }

    /// The same, as what an expression comes to.
    pub fn pointer_value(&mut self, op: Op, target: CType) -> Result<Lowered, AllocError>
        requires filled { is_filled op ≡ true }
        requires room { HasRoom self.old 1 }
        ensures code { IfOk result (Lowers (λ table points. GivesPointer points (λ register. op_in table op) (type_in table target)) self.old self.new) }
        ensures grows { OnOk result (Grows self.old self.new) }
        ensures adds { OnOk result (Adds self.old self.new 1) }
    {
        let PointerValue { register, target } = self.give_pointer(op, target)?;
        Ok(Lowered::Pointer { register, target })
    }

    /// A point that writes an integer to a new temporary.
    pub fn integer_value(&mut self, op: Op, int_type: IntType) -> Result<Lowered, AllocError>
        requires filled { is_filled op ≡ true }
        requires room { HasRoom self.old 1 }
        ensures code { IfOk result (Lowers (λ table points. GivesInteger points (λ register. op_in table op) int_type) self.old self.new) }
        ensures grows { OnOk result (Grows self.old self.new) }
        ensures adds { OnOk result (Adds self.old self.new 1) }
    {
        self.append(op)?;
        let register = self.new_temporary();
        self.held(register, int_type)
    }

    /// What a register holds.
    pub fn held(&self, register: Register, int_type: IntType) -> Result<Lowered, AllocError>
        ensures { IfOk result (λ lowered. (table : Interned) → lowered_in table lowered ≡ AsInteger int_type (Held register)) }
    {
        self.computed(int_type, Tree::Held(register))
    }

    /// An integer that a tree computes.
    pub fn computed(&self, int_type: IntType, tree: Tree) -> Result<Lowered, AllocError>
        ensures { IfOk result (λ lowered. (table : Interned) → lowered_in table lowered ≡ AsInteger int_type (tree_of tree)) }
    {
        let tree = Box::new(self.alloc, tree)?;
        Ok(Lowered::Integer { int_type, tree })
    }

    /// A tree that is used later: a temporary holds it where more code follows.
    pub fn keep(&mut self, is_followed: bool, tree: Box<Tree>) -> Result<Box<Tree>, AllocError>
        requires room { HasRoom self.old 1 }
        ensures code { IfOk result (λ kept. Leads (λ table points from to. KeepsTree points is_followed (tree_of tree.value) from to (tree_of kept.value)) self.old self.new) }
        ensures grows { OnOk result (Grows self.old self.new) }
        ensures adds { OnOk result (Adds self.old self.new 1) }
    {
        if !is_followed {
            return Ok(tree);
        }
        let to = self.temporary();
        self.append(Op::Assign {
            to,
            tree: Box::into_inner(tree),
        })?;
        self.counts.temporaries += 1;
        Ok(Box::new(self.alloc, Tree::Held(to))?)
    }

    /// A path without steps.
    pub fn path(&self, base: Base) -> Result<Box<Path>, AllocError>
        ensures { IfOk result (λ path. (table : Interned) → path_in table path.value ≡ path_from (base_in table base)) }
    {
        let steps = Vec::new(self.alloc);
        Ok(Box::new(self.alloc, Path { base, steps })?)
    }

    /// A whole object.
    pub fn whole(&self, base: Base, c_type: CType) -> Result<Lowered, AllocError>
        ensures { IfOk result (λ lowered. (table : Interned) → lowered_in table lowered ≡ AsObject (path_from (base_in table base)) (type_in table c_type)) }
    {
        let path = self.path(base)?;
        Ok(Lowered::Object { path, c_type })
    }
}
