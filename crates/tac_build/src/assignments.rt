// Assignments (C17 6.5.16), `++` and `--` (C17 6.5.2.4, 6.5.3.1).

ghost use Rattle.std.specs.Prelude.{◌≡◌, if◌then◌else◌, true, not, ◌&&◌, OnOk, IfOk};
ghost use Rattle.c_typed.specs.Types.{Integer};
ghost use Rattle.c_typed.specs.Table.{Interned, Stands, type_in};
ghost use Rattle.tac_build.specs.Spots as S;
ghost use Rattle.tac_ir.specs.Views.{tree_of, path_in, scalar_in, operand_of};
ghost use Rattle.tac_ir.specs.Code as C;
ghost use Rattle.tac_build.specs.Spots.{behind, with_temporary, temporary, AsInteger};
ghost use Rattle.tac_build.specs.Code.{compound_tree, gives_old, HasOp, Emits, WritesLocal, Stores};
ghost use Rattle.tac_build.specs.Building.{lowered_in, pointer_in, at_moment, home_in, IsScalar, Grows, Leads, Lowers, LowersIn, TargetStands, AssignsTarget, IsPointerType, TargetPoints, ShiftsLocal, ShiftsObject, ShiftsTarget, UpdatesTarget, StepsTarget, HasRoom, Adds, mode_of};
ghost use Rattle.tac_build.specs.Lowering.{names_for, AddsFewer, types_of_source, IsSource, scope_of, IsScope, ValueTyped, ValueLives, LoweredHolds, ValueLowers, IsAssignment};
ghost use Rattle.c_typed.specs.Views.{value_in};
ghost use Rattle.c_typed.specs.TypedNodes.{value_nodes};

use crate::builder::Builder;
use crate::homes::{Home, is_pure};
use crate::lowered::{Lowered, Mode, Place, PointerValue, integer, pointer};
use crate::names::Source;
use crate::objects::{Target, scalar};
use crate::trees::{Update, gives_old, is_up};
use c_num::IntType;
use c_typed::{Stepping, TypeTable, Value};
use std::alloc::AllocError;
use tac_ir::{Op, Operand, Path, Register, Scalar, Tree};

/// Which value of a pointer that moves is that of the expression.
#[derive(Clone, Copy, Debug, PartialEq, Eq)]
pub enum Moment {
    Before,
    After,
}

impl Moment {
    /// That of `p++` and its like.
    fn of_step(stepping: Stepping) -> Moment
        ensures { (old : S.Lowered) (new : S.Lowered) → at_moment result old new ≡ (if gives_old stepping then old else new) }
    {
        if gives_old(stepping) {
            Moment::Before
        } else {
            Moment::After
        }
    }
}

/// How a pointer moves, and which value it gives.
#[derive(Drop)]
pub struct Motion {
    pub is_minus: bool,
    pub number: Box<Tree>,
    pub moment: Moment,
}

impl Builder {
    /// An assignment or a step.
    #[cycle(values)]
    pub fn assignment(
        &mut self,
        value: &Value,
        source: &Source,
        scope: &[Home],
        mode: Mode,
    ) -> Result<Lowered, AllocError>
        requires source { IsSource source.now }
        requires homes { IsScope source.now scope.now }
        requires typed { ValueTyped source.now scope.now value.now }
        requires lives { ValueLives (scope_of source.now scope.now) (mode_of mode) (value_in (types_of_source source.now) value.now) }
        requires kind { IsAssignment value.now }
        requires room { HasRoom self.old (names_for (value_nodes (value_in (types_of_source source.now) value.now))) }
        ensures code { IfOk result (ValueLowers source.now scope.now mode value.now self.old self.new) }
        ensures grows { OnOk result (Grows self.old self.new) }
        ensures adds { OnOk result (AddsFewer self.old self.new (names_for (value_nodes (value_in (types_of_source source.now) value.now)))) }
    {
        match value {
            Value::Assign { object, value, .. } => {
                let is_followed = !is_pure(source.types(), scope, value);
                let target = self.target(object, source, scope, is_followed)?;
                let given = self.value(value, source, scope, Mode::Kept)?;
                self.assign(target, given, mode.is_used(), source.types())
            }
            Value::AssignArithmetic {
                op,
                object_type,
                int_type,
                object,
                value,
                ..
            } => {
                let update = Update {
                    operator: *op,
                    object_type: *object_type,
                    int_type: *int_type,
                };
                let is_followed = !is_pure(source.types(), scope, value);
                let target = self.target(object, source, scope, is_followed)?;
                let operand = integer(self.value(value, source, scope, Mode::Kept)?);
                self.update(target, update, operand.tree, mode.is_used())
            }
            Value::AssignMoved {
                is_minus,
                object,
                number,
                ..
            } => {
                let is_followed = !is_pure(source.types(), scope, number);
                let target = self.target(object, source, scope, is_followed)?;
                let number = integer(self.value(number, source, scope, Mode::Kept)?);
                let motion = Motion {
                    is_minus: *is_minus,
                    number: number.tree,
                    moment: Moment::After,
                };
                self.shift(target, motion, source.types())
            }
            Value::StepInteger {
                stepping,
                int_type,
                object,
                ..
            } => {
                let target = self.target(object, source, scope, false)?;
                self.step_integer(target, *stepping, *int_type, mode.is_used())
            }
            Value::StepPointer {
                stepping,
                object,
                ..
            } => {
                let target = self.target(object, source, scope, false)?;
                let motion = Motion {
                    is_minus: !is_up(*stepping),
                    number: Box::new(self.alloc, Tree::Constant(1))?,
                    moment: Moment::of_step(*stepping),
                };
                self.shift(target, motion, source.types())
            }
            _ => unreachable!(),
        }
    }

    /// A value is assigned (C17 6.5.16.1).
    fn assign(
        &mut self,
        target: Target,
        value: Lowered,
        is_used: bool,
        types: &TypeTable,
    ) -> Result<Lowered, AllocError>
        requires value { IsScalar value }
        requires target { TargetStands types.now target }
        requires room { HasRoom self.old 1 }
        ensures code { IfOk result (LowersIn types.now (AssignsTarget types.now is_used target (lowered_in types.now value)) self.old self.new) }
        ensures holds { IfOk result (λ lowered. LoweredHolds types.now value → LoweredHolds types.now lowered) }
        ensures grows { OnOk result (Grows self.old self.new) }
        ensures adds { OnOk result (Adds self.old self.new 1) }
    {
        match target {
            Target::Register(home) => self.write_local(home, value),
            Target::Memory(place) => {
                let scalar = scalar(types, place.c_type);
                self.store(is_used, place.path, scalar, value)
            }
        }
    }

    /// A value is assigned to a local in a register, and is the value of the assignment.
    fn write_local(&mut self, home: Home, value: Lowered) -> Result<Lowered, AllocError>
        requires { IsScalar value }
        ensures code { IfOk result (Lowers (λ table points. WritesLocal points (home_in table home) (lowered_in table value)) self.old self.new) }
        ensures grows { OnOk result (Grows self.old self.new) }
        ensures adds { OnOk result (Adds self.old self.new 0) }
    {
        let to = Register::Local(home.local);
        match value {
            Lowered::Integer { int_type, tree } => {
                let tree = Box::into_inner(tree);
                self.append(Op::Assign { to, tree })?;
                self.held(to, int_type)
            }
            Lowered::Pointer { register, target } => {
                self.append(Op::Copy { to, from: register })?;
                Ok(Lowered::Pointer { register, target })
            }
            _ => unreachable!(),
        }
    }

    /// A value is stored in memory, and is the value of the assignment, if that is used.
    fn store(
        &mut self,
        is_used: bool,
        path: Box<Path>,
        scalar: Scalar,
        value: Lowered,
    ) -> Result<Lowered, AllocError>
        requires value { IsScalar value }
        requires room { HasRoom self.old 1 }
        ensures code { IfOk result (Lowers (λ table points. Stores points is_used (path_in table path.value) (scalar_in table scalar) (lowered_in table value)) self.old self.new) }
        ensures grows { OnOk result (Grows self.old self.new) }
        ensures adds { OnOk result (Adds self.old self.new 1) }
    {
        match value {
            Lowered::Integer { int_type, tree } => {
                if is_used {
                    self.store_kept(path, int_type, scalar, tree)
                } else {
                    self.store_operand(path, scalar, Operand::Integer(Box::into_inner(tree)))?;
                    Ok(Lowered::Nothing)
                }
            }
            Lowered::Pointer { register, target } => {
                self.store_operand(path, scalar, Operand::Pointer(register))?;
                Ok(Lowered::Pointer { register, target })
            }
            _ => unreachable!(),
        }
    }

    /// An integer is stored, and kept in a temporary.
    fn store_kept(
        &mut self,
        path: Box<Path>,
        int_type: IntType,
        scalar: Scalar,
        tree: Box<Tree>,
    ) -> Result<Lowered, AllocError>
        requires room { HasRoom self.old 1 }
        ensures code { IfOk result (Lowers (λ table points. Stores points true (path_in table path.value) (scalar_in table scalar) (AsInteger int_type (tree_of tree.value))) self.old self.new) }
        ensures grows { OnOk result (Grows self.old self.new) }
        ensures adds { OnOk result (Adds self.old self.new 1) }
    {
        let to = self.new_temporary();
        let tree = Box::into_inner(tree);
        self.append(Op::Assign { to, tree })?;
        self.store_operand(path, scalar, Operand::Integer(Tree::Held(to)))?;
        self.held(to, int_type)
    }

    /// A point that stores a value.
    pub fn store_operand(
        &mut self,
        path: Box<Path>,
        scalar: Scalar,
        value: Operand,
    ) -> Result<(), AllocError>
        ensures code { OnOk result (Leads (λ table points. Emits points (C.Store (path_in table path.value) (scalar_in table scalar) (operand_of value))) self.old self.new) }
        ensures grows { OnOk result (Grows self.old self.new) }
        ensures adds { OnOk result (Adds self.old self.new 0) }
    {
        self.append(Op::Store {
            path: Box::into_inner(path),
            scalar,
            value,
        })
    }

    /// A compound assignment to an integer (C17 6.5.16.2 paragraph 3).
    fn update(
        &mut self,
        target: Target,
        update: Update,
        operand: Box<Tree>,
        is_used: bool,
    ) -> Result<Lowered, AllocError>
        requires room { HasRoom self.old 2 }
        ensures code { IfOk result (Lowers (λ table. UpdatesTarget table is_used target update.object_type (λ register. compound_tree update.operator update.object_type update.int_type register (tree_of operand.value))) self.old self.new) }
        ensures grows { OnOk result (Grows self.old self.new) }
        ensures adds { OnOk result (Adds self.old self.new 2) }
    {
        match target {
            Target::Register(home) => {
                let local = Register::Local(home.local);
                self.update_register(local, update, operand)?;
                self.held(local, update.object_type)
            }
            Target::Memory(place) => {
                let old = self.load_old(&place, update.object_type)?;
                self.store_updated(place.path, update, old, operand, is_used)
            }
        }
    }

    /// The new value of a local in a register, from the old one.
    fn update_register(
        &mut self,
        local: Register,
        update: Update,
        operand: Box<Tree>,
    ) -> Result<(), AllocError>
        ensures code { OnOk result (Leads (λ table points. Emits points (C.Assign local (compound_tree update.operator update.object_type update.int_type local (tree_of operand.value)))) self.old self.new) }
        ensures grows { OnOk result (Grows self.old self.new) }
        ensures adds { OnOk result (Adds self.old self.new 0) }
    {
        let tree = update.new_value(self.alloc, local, operand)?;
        self.append(Op::Assign {
            to: local,
            tree: Box::into_inner(tree),
        })
    }

    /// The old value of an integer in memory comes to a temporary.
    fn load_old(&mut self, place: &Place, object_type: IntType) -> Result<Register, AllocError>
        requires room { HasRoom self.old 1 }
        ensures code { IfOk result (λ register. Leads (λ table points start end. HasOp points start.at (C.Load (temporary start) (Integer object_type) (path_in table place.now.path.value)) × (end ≡ behind (with_temporary start)) × (register ≡ temporary start)) self.old self.new) }
        ensures grows { OnOk result (Grows self.old self.new) }
        ensures adds { OnOk result (Adds self.old self.new 1) }
    {
        let path = place.path.copied(self.alloc)?;
        let to = self.new_temporary();
        self.append(Op::Load {
            to,
            scalar: Scalar::Integer(object_type),
            path,
        })?;
        Ok(to)
    }

    /// The new value of an integer in memory, from the old one in a register.
    fn store_updated(
        &mut self,
        path: Box<Path>,
        update: Update,
        old: Register,
        operand: Box<Tree>,
        is_used: bool,
    ) -> Result<Lowered, AllocError>
        requires room { HasRoom self.old 1 }
        ensures code { IfOk result (Lowers (λ table points. Stores points is_used (path_in table path.value) (Integer update.object_type) (AsInteger update.object_type (compound_tree update.operator update.object_type update.int_type old (tree_of operand.value)))) self.old self.new) }
        ensures grows { OnOk result (Grows self.old self.new) }
        ensures adds { OnOk result (Adds self.old self.new 1) }
    {
        let tree = update.new_value(self.alloc, old, operand)?;
        let int_type = update.object_type;
        let value = Lowered::Integer { int_type, tree };
        self.store(is_used, path, Scalar::Integer(int_type), value)
    }

    /// `++` and `--` of an integer (C17 6.5.2.4, 6.5.3.1).
    fn step_integer(
        &mut self,
        target: Target,
        stepping: Stepping,
        int_type: IntType,
        is_used: bool,
    ) -> Result<Lowered, AllocError>
        requires room { HasRoom self.old 2 }
        ensures code { IfOk result (Lowers (λ table. StepsTarget table is_used stepping target int_type) self.old self.new) }
        ensures grows { OnOk result (Grows self.old self.new) }
        ensures adds { OnOk result (Adds self.old self.new 2) }
    {
        let update = Update::of_step(stepping, int_type);
        let one = Box::new(self.alloc, Tree::Constant(1))?;
        match target {
            Target::Register(home) => {
                let local = Register::Local(home.local);
                if is_used && gives_old(stepping) {
                    self.step_behind(local, update, one)
                } else {
                    self.update_register(local, update, one)?;
                    self.held(local, int_type)
                }
            }
            Target::Memory(place) => {
                let old = self.load_old(&place, int_type)?;
                let is_new_used = needs_new(is_used, stepping);
                let new = self.store_updated(place.path, update, old, one, is_new_used)?;
                if gives_old(stepping) {
                    self.held(old, int_type)
                } else {
                    Ok(new)
                }
            }
        }
    }

    /// A step of a local in a register, whose old value is used.
    fn step_behind(
        &mut self,
        local: Register,
        update: Update,
        one: Box<Tree>,
    ) -> Result<Lowered, AllocError>
        requires room { HasRoom self.old 1 }
        ensures code { IfOk result (Lowers (λ table points start end lowered. HasOp points start.at (C.Assign (temporary start) (C.Held local)) × Emits points (C.Assign local (compound_tree update.operator update.object_type update.int_type local (tree_of one.value))) (behind (with_temporary start)) end × (lowered ≡ AsInteger update.object_type (C.Held (temporary start)))) self.old self.new) }
        ensures grows { OnOk result (Grows self.old self.new) }
        ensures adds { OnOk result (Adds self.old self.new 1) }
    {
        let old = self.new_temporary();
        self.append(Op::Assign {
            to: old,
            tree: Tree::Held(local),
        })?;
        self.update_register(local, update, one)?;
        self.held(old, update.object_type)
    }

    /// A pointer is read, moved and written (C17 6.5.6 paragraph 8).
    fn shift(
        &mut self,
        target: Target,
        motion: Motion,
        types: &TypeTable,
    ) -> Result<Lowered, AllocError>
        requires target { TargetPoints types.now target }
        requires room { HasRoom self.old 2 }
        ensures code { IfOk result (LowersIn types.now (ShiftsTarget types.now target motion.is_minus (tree_of motion.number.value) motion.moment) self.old self.new) }
        ensures grows { OnOk result (Grows self.old self.new) }
        ensures adds { OnOk result (Adds self.old self.new 2) }
    {
        match target {
            Target::Register(home) => self.shift_local(home, motion, types),
            Target::Memory(place) => self.shift_object(place, motion, types),
        }
    }

    /// That of a local in a register.
    fn shift_local(
        &mut self,
        home: Home,
        motion: Motion,
        types: &TypeTable,
    ) -> Result<Lowered, AllocError>
        requires stands { Stands types.now home.c_type }
        requires kind { IsPointerType (type_in types.now home.c_type) }
        requires room { HasRoom self.old 2 }
        ensures code { IfOk result (LowersIn types.now (ShiftsLocal (home_in types.now home) motion.is_minus (tree_of motion.number.value) motion.moment) self.old self.new) }
        ensures grows { OnOk result (Grows self.old self.new) }
        ensures adds { OnOk result (Adds self.old self.new 2) }
    {
        let old = pointer(self.read_local(home, types)?);
        let new = self.move_pointer(old, motion.is_minus, motion.number)?;
        self.append(Op::Copy {
            to: Register::Local(home.local),
            from: new.register,
        })?;
        Ok(moved_value(old, new, motion.moment))
    }

    /// That of an object in memory.
    fn shift_object(
        &mut self,
        place: Place,
        motion: Motion,
        types: &TypeTable,
    ) -> Result<Lowered, AllocError>
        requires stands { Stands types.now place.c_type }
        requires kind { IsPointerType (type_in types.now place.c_type) }
        requires room { HasRoom self.old 2 }
        ensures code { IfOk result (LowersIn types.now (ShiftsObject (path_in types.now place.path.value) (type_in types.now place.c_type) motion.is_minus (tree_of motion.number.value) motion.moment) self.old self.new) }
        ensures grows { OnOk result (Grows self.old self.new) }
        ensures adds { OnOk result (Adds self.old self.new 2) }
    {
        let scalar = scalar(types, place.c_type);
        let path = place.path.copied(self.alloc)?;
        let path = Box::new(self.alloc, path)?;
        let old = pointer(self.load(path, scalar)?);
        let new = self.move_pointer(old, motion.is_minus, motion.number)?;
        self.store_operand(place.path, scalar, Operand::Pointer(new.register))?;
        Ok(moved_value(old, new, motion.moment))
    }
}

/// Whether the new value is used of an integer that steps.
fn needs_new(is_used: bool, stepping: Stepping) -> bool
    ensures { result ≡ (is_used && not (gives_old stepping)) }
{
    is_used && !gives_old(stepping)
}

/// What an expression comes to that moves a pointer.
fn moved_value(old: PointerValue, new: PointerValue, moment: Moment) -> Lowered
    ensures { (table : Interned) → lowered_in table result ≡ at_moment moment (pointer_in table old) (pointer_in table new) }
{
    let PointerValue { register, target } = match moment {
        Moment::Before => old,
        Moment::After => new,
    };
    Lowered::Pointer { register, target }
}
