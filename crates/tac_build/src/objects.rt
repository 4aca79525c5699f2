// Expressions for their objects (C17 6.3.2.1 paragraph 1), and the addresses of these.

ghost use Rattle.std.specs.Prelude.{◌≡◌, ℕ, false, Some, OnOk, IfOk, length};
ghost use Rattle.c_typed.specs.Types.{Array};
ghost use Rattle.c_typed.specs.Types as T;
ghost use Rattle.c_typed.specs.Table.{Interned, Stands, structs_in, type_in};
ghost use Rattle.tac_ir.specs.Views.{tree_of, path_in, step_of, scalar_in};
ghost use Rattle.tac_ir.specs.Code as C;
ghost use Rattle.tac_build.specs.Spots.{AsObject};
ghost use Rattle.tac_build.specs.Homes as H;
ghost use Rattle.tac_build.specs.Code.{type_of_member, path_from, then_step, pointed_by, GivesPointer, ReadsLocal, Loads, TakesAddress, Indexes, Decays};
ghost use Rattle.tac_build.specs.Building.{lowered_in, pointer_in, mode_of, home_in, scope_in, IsScalarType, ScalarStands, IsArrayType, Grows, Lowers, LowersIn, TargetStands, ReadsTarget, IsRow, HasRoom, Adds};
ghost use Rattle.tac_build.specs.Lowering.{names_for, AddsFewer, types_of_source, IsSource, scope_of, IsScope, ObjectTyped, LieInMemory, ObjectLives, LoweredHolds, ObjectLowers, TargetLowers};
ghost use Rattle.tac_build.specs.Homes.{takes_in};
ghost use Rattle.c_typed.specs.Views.{object_in};
ghost use Rattle.c_typed.specs.TypedNodes.{object_nodes};

use crate::builder::Builder;
use crate::homes::{Home, home_of, is_pure, register_home};
use crate::lowered::{Lowered, Mode, Place, PointerValue, integer, object_of};
use crate::names::Source;
use c_typed::{CType, Object, Shape, TypeTable};
use std::alloc::AllocError;
use tac_ir::{Base, Op, Path, Register, Scalar, Step, Tree};

/// What is read or written: a local in a register, or an object in memory.
#[derive(Drop)]
pub enum Target {
    Register(Home),
    Memory(Place),
}

/// The scalar type that a type is (C17 6.2.5 paragraph 21).
pub fn scalar(types: &TypeTable, c_type: CType) -> Scalar
    requires stands { Stands types.now c_type }
    requires kind { IsScalarType (type_in types.now c_type) }
    ensures code { scalar_in types.now result ≡ type_in types.now c_type }
    ensures stands { ScalarStands types.now result }
{
    match types.shape(c_type) {
        Shape::Integer(int_type) => Scalar::Integer(int_type),
        Shape::Pointer(target) => Scalar::Pointer(target),
        _ => unreachable!(),
    }
}

/// The type of the elements of an array.
fn element_type(types: &TypeTable, c_type: CType) -> CType
    requires stands { Stands types.now c_type }
    requires kind { IsArrayType (type_in types.now c_type) }
    ensures { Stands types.now result × (length : ℕ) × (type_in types.now c_type ≡ Array (type_in types.now result) length) }
{
    match types.shape(c_type) {
        Shape::Array { element, .. } => element,
        _ => unreachable!(),
    }
}

/// The type of the member with this number of a structure (C17 6.5.2.3).
fn member_type(types: &TypeTable, c_type: CType, number: u32) -> CType
    requires stands { Stands types.now c_type }
    requires there { (found : T.CType) × (type_of_member (structs_in types.now) (type_in types.now c_type) number ≡ Some found) }
    ensures { Stands types.now result × (type_of_member (structs_in types.now) (type_in types.now c_type) number ≡ Some (type_in types.now result)) }
{
    match types.shape(c_type) {
        Shape::Struct(id) => match types.member_at(id, number as usize) {
            Some(Some(c_type)) => c_type,
            _ => unreachable!(),
        },
        _ => unreachable!(),
    }
}

/// A part of the object to which a path leads.
fn then_step(path: Box<Path>, step: Step) -> Result<Box<Path>, AllocError>
    ensures { IfOk result (λ part. (table : Interned) → path_in table part.value ≡ then_step (path_in table path.value) (step_of step)) }
{
    let mut path = path;
    path.steps.push(step)?;
    Ok(path)
}

/// The element of an array.
fn element(types: &TypeTable, array: Place, index: Tree) -> Result<Place, AllocError>
    requires stands { Stands types.now array.c_type }
    requires kind { IsArrayType (type_in types.now array.c_type) }
    ensures { IfOk result (λ part. Stands types.now part.c_type × (length : ℕ) × (type_in types.now array.c_type ≡ Array (type_in types.now part.c_type) length) × (path_in types.now part.path.value ≡ then_step (path_in types.now array.path.value) (C.Element (tree_of index)))) }
{
    let c_type = element_type(types, array.c_type);
    let path = then_step(array.path, Step::Element(index))?;
    Ok(Place { path, c_type })
}

/// The member of a structure.
fn member(types: &TypeTable, place: Place, number: u32) -> Result<Lowered, AllocError>
    requires stands { Stands types.now place.c_type }
    requires there { (found : T.CType) × (type_of_member (structs_in types.now) (type_in types.now place.c_type) number ≡ Some found) }
    ensures code { IfOk result (λ lowered. (found : T.CType) × (type_of_member (structs_in types.now) (type_in types.now place.c_type) number ≡ Some found) × (lowered_in types.now lowered ≡ AsObject (then_step (path_in types.now place.path.value) (C.Member number)) found)) }
    ensures holds { IfOk result (LoweredHolds types.now) }
{
    let c_type = member_type(types, place.c_type, number);
    let path = then_step(place.path, Step::Member(number))?;
    Ok(Lowered::Object { path, c_type })
}

impl Builder {
    /// What is read or written.
    #[cycle(values)]
    pub fn target(
        &mut self,
        object: &Object,
        source: &Source,
        scope: &[Home],
        is_followed: bool,
    ) -> Result<Target, AllocError>
        requires source { IsSource source.now }
        requires homes { IsScope source.now scope.now }
        requires typed { ObjectTyped source.now scope.now object.now }
        requires lives { LieInMemory (scope_of source.now scope.now) (λ number. takes_in number (object_in (types_of_source source.now) object.now)) }
        requires room { HasRoom self.old (names_for (object_nodes (object_in (types_of_source source.now) object.now))) }
        ensures code { IfOk result (TargetLowers source.now scope.now is_followed object.now self.old self.new) }
        ensures grows { OnOk result (Grows self.old self.new) }
        ensures adds { OnOk result (AddsFewer self.old self.new (names_for (object_nodes (object_in (types_of_source source.now) object.now)))) }
    {
        match register_home(scope, object) {
            Some(home) => Ok(Target::Register(home)),
            None => {
                let found = self.object(object, source, scope, false, is_followed)?;
                Ok(Target::Memory(object_of(found)))
            }
        }
    }

    /// An object in memory; or, where its address is kept as a value, perhaps that: `&*p` is p, and `&p[i]` is p + i (C17 6.5.3.2
    /// paragraph 3).
    #[cycle(values)]
    pub fn object(
        &mut self,
        object: &Object,
        source: &Source,
        scope: &[Home],
        is_kept: bool,
        is_followed: bool,
    ) -> Result<Lowered, AllocError>
        requires source { IsSource source.now }
        requires homes { IsScope source.now scope.now }
        requires typed { ObjectTyped source.now scope.now object.now }
        requires lives { ObjectLives (scope_of source.now scope.now) is_kept (object_in (types_of_source source.now) object.now) }
        requires room { HasRoom self.old (names_for (object_nodes (object_in (types_of_source source.now) object.now))) }
        ensures code { IfOk result (ObjectLowers source.now scope.now is_kept is_followed object.now self.old self.new) }
        ensures grows { OnOk result (Grows self.old self.new) }
        ensures adds { OnOk result (AddsFewer self.old self.new (names_for (object_nodes (object_in (types_of_source source.now) object.now)))) }
    {
        match object {
            Object::Local(number) => self.local(scope, *number),
            Object::Global(name) => {
                let found = source.global(name.as_slice());
                self.whole(Base::Global(found.global), found.c_type)
            }
            Object::Literal { place, c_type, .. } => {
                self.whole(Base::Literal(source.literal(*place)), *c_type)
            }
            Object::Grouped { inner, .. } => {
                self.object(inner, source, scope, is_kept, is_followed)
            }
            Object::Pointed { pointer, .. } => {
                let mode = Mode::of_pointer(is_kept, is_followed);
                let found = self.value(pointer, source, scope, mode)?;
                self.pointed(is_kept, found)
            }
            Object::Element {
                pointer,
                number,
                ..
            } => {
                let is_row_followed = is_followed || !is_pure(source.types(), scope, number);
                let mode = Mode::Row {
                    is_followed: is_row_followed,
                };
                let row = self.value(pointer, source, scope, mode)?;
                let index = integer(self.value(number, source, scope, Mode::Kept)?);
                self.indexed(is_kept, is_followed, row, index.tree, source.types())
            }
            Object::ElementOf {
                number,
                pointer,
                ..
            } => {
                let index = integer(self.value(number, source, scope, Mode::Kept)?);
                let kept = self.keep(true, index.tree)?;
                let row = self.value(pointer, source, scope, Mode::Row { is_followed })?;
                self.indexed(is_kept, false, row, kept, source.types())
            }
            Object::MemberOf { object, number, .. } => {
                let found = self.object(object, source, scope, false, is_followed)?;
                member(source.types(), object_of(found), *number)
            }
            Object::PointedMember {
                pointer,
                number,
                ..
            } => {
                let found = self.value(pointer, source, scope, Mode::Behind { is_followed })?;
                let place = object_of(self.pointed(false, found)?);
                member(source.types(), place, *number)
            }
        }
    }

    /// A local in memory.
    fn local(&self, scope: &[Home], number: usize) -> Result<Lowered, AllocError>
        requires { (table : Interned) × (home : H.Home) × (H.home_of (scope_in table scope.now) number ≡ Some home) }
        ensures { IfOk result (λ lowered. (table : Interned) → (home : H.Home) × (H.home_of (scope_in table scope.now) number ≡ Some home) × (lowered_in table lowered ≡ AsObject (path_from (C.AtLocal home.local)) home.c_type)) }
    {
        match home_of(scope, number) {
            Some(home) => self.whole(Base::Local(home.local), home.c_type),
            None => unreachable!(),
        }
    }

    /// What a pointer points to, or the pointer where that is kept (C17 6.5.3.2).
    fn pointed(&self, is_kept: bool, found: Lowered) -> Result<Lowered, AllocError>
        ensures { IfOk result (λ lowered. (table : Interned) → lowered_in table lowered ≡ pointed_by is_kept (lowered_in table found)) }
    {
        if is_kept {
            return Ok(found);
        }
        match found {
            Lowered::Pointer { register, target } => {
                let base = Base::Pointed {
                    pointer: register,
                    target,
                };
                self.whole(base, target)
            }
            other => Ok(other),
        }
    }

    /// An element of an array, or behind a pointer; or its address, where that is kept (C17 6.5.2.1).
    fn indexed(
        &mut self,
        is_kept: bool,
        is_followed: bool,
        row: Lowered,
        index: Box<Tree>,
        types: &TypeTable,
    ) -> Result<Lowered, AllocError>
        requires row { IsRow types.now row }
        requires room { HasRoom self.old 1 }
        ensures code { IfOk result (LowersIn types.now (λ points. Indexes points is_kept is_followed (lowered_in types.now row) (tree_of index.value)) self.old self.new) }
        ensures grows { OnOk result (Grows self.old self.new) }
        ensures adds { OnOk result (Adds self.old self.new 1) }
    {
        match row {
            Lowered::Object { path, c_type } => {
                let kept = self.keep(is_followed, index)?;
                let array = Place { path, c_type };
                let Place { path, c_type } = element(types, array, Box::into_inner(kept))?;
                Ok(Lowered::Object { path, c_type })
            }
            Lowered::Pointer { register, target } => {
                let from = PointerValue { register, target };
                if is_kept {
                    self.moved(from, false, index)
                } else {
                    self.behind_pointer(from, is_followed, index)
                }
            }
            _ => unreachable!(),
        }
    }

    /// The object so many places behind the one to which a pointer points (C17 6.5.2.1).
    fn behind_pointer(
        &mut self,
        from: PointerValue,
        is_followed: bool,
        index: Box<Tree>,
    ) -> Result<Lowered, AllocError>
        requires room { HasRoom self.old 1 }
        ensures code { IfOk result (Lowers (λ table points. Indexes points false is_followed (pointer_in table from) (tree_of index.value)) self.old self.new) }
        ensures grows { OnOk result (Grows self.old self.new) }
        ensures adds { OnOk result (Adds self.old self.new 1) }
    {
        let kept = self.keep(is_followed, index)?;
        let base = Base::Indexed {
            pointer: from.register,
            target: from.target,
            number: Box::into_inner(kept),
        };
        self.whole(base, from.target)
    }

    /// The address of an object.
    fn address(&mut self, place: Place) -> Result<Lowered, AllocError>
        requires room { HasRoom self.old 1 }
        ensures code { IfOk result (Lowers (λ table points. GivesPointer points (λ register. C.AddressOf register (path_in table place.path.value)) (type_in table place.c_type)) self.old self.new) }
        ensures grows { OnOk result (Grows self.old self.new) }
        ensures adds { OnOk result (Adds self.old self.new 1) }
    {
        let op = Op::Address {
            to: self.expression(),
            path: Box::into_inner(place.path),
        };
        self.pointer_value(op, place.c_type)
    }

    /// What an array is needed for: its first element's address, that element, or the array itself (C17 6.3.2.1 paragraph 3).
    pub fn decay(
        &mut self,
        mode: Mode,
        array: Place,
        types: &TypeTable,
    ) -> Result<Lowered, AllocError>
        requires stands { Stands types.now array.c_type }
        requires kind { IsArrayType (type_in types.now array.c_type) }
        requires room { HasRoom self.old 1 }
        ensures code { IfOk result (LowersIn types.now (λ points start end lowered. (element : T.CType) × (count : ℕ) × (type_in types.now array.c_type ≡ Array element count) × Decays points (mode_of mode) (path_in types.now array.path.value) element count start end lowered) self.old self.new) }
        ensures holds { IfOk result (LoweredHolds types.now) }
        ensures grows { OnOk result (Grows self.old self.new) }
        ensures adds { OnOk result (Adds self.old self.new 1) }
    {
        if let Mode::Row { .. } = mode {
            let Place { path, c_type } = array;
            return Ok(Lowered::Object { path, c_type });
        }
        let first = element(types, array, Tree::Constant(0))?;
        if mode.is_address() {
            self.address(first)
        } else {
            let Place { path, c_type } = first;
            Ok(Lowered::Object { path, c_type })
        }
    }

    /// An address is kept as a value, or what stands there is used at once (C17 6.5.3.2).
    pub fn take_address(&mut self, mode: Mode, found: Lowered) -> Result<Lowered, AllocError>
        requires room { HasRoom self.old 1 }
        ensures code { IfOk result (Lowers (λ table points. TakesAddress points (mode_of mode) (lowered_in table found)) self.old self.new) }
        ensures grows { OnOk result (Grows self.old self.new) }
        ensures adds { OnOk result (Adds self.old self.new 1) }
    {
        if !mode.is_address() {
            return Ok(found);
        }
        match found {
            Lowered::Object { path, c_type } => self.address(Place { path, c_type }),
            other => Ok(other),
        }
    }

    /// The value of a local in a register, or of an object in memory (C17 6.3.2.1 paragraph 2).
    pub fn read(&mut self, target: Target, types: &TypeTable) -> Result<Lowered, AllocError>
        requires target { TargetStands types.now target }
        requires room { HasRoom self.old 1 }
        ensures code { IfOk result (LowersIn types.now (ReadsTarget types.now target) self.old self.new) }
        ensures holds { IfOk result (LoweredHolds types.now) }
        ensures grows { OnOk result (Grows self.old self.new) }
        ensures adds { OnOk result (Adds self.old self.new 1) }
    {
        match target {
            Target::Register(home) => self.read_local(home, types),
            Target::Memory(place) => {
                let scalar = scalar(types, place.c_type);
                self.load(place.path, scalar)
            }
        }
    }

    /// What a local in a register holds.
    pub fn read_local(&mut self, home: Home, types: &TypeTable) -> Result<Lowered, AllocError>
        requires stands { Stands types.now home.c_type }
        requires kind { IsScalarType (type_in types.now home.c_type) }
        requires room { HasRoom self.old 1 }
        ensures code { IfOk result (LowersIn types.now (λ points. ReadsLocal points (home_in types.now home)) self.old self.new) }
        ensures holds { IfOk result (LoweredHolds types.now) }
        ensures grows { OnOk result (Grows self.old self.new) }
        ensures adds { OnOk result (Adds self.old self.new 1) }
    {
        let from = Register::Local(home.local);
        match scalar(types, home.c_type) {
            Scalar::Integer(int_type) => self.held(from, int_type),
            Scalar::Pointer(target) => {
                let to = self.expression();
                self.pointer_value(Op::Copy { to, from }, target)
            }
        }
    }

    /// What an object in memory holds.
    pub fn load(&mut self, path: Box<Path>, scalar: Scalar) -> Result<Lowered, AllocError>
        requires room { HasRoom self.old 1 }
        ensures code { IfOk result (Lowers (λ table points. Loads points (scalar_in table scalar) (path_in table path.value)) self.old self.new) }
        ensures grows { OnOk result (Grows self.old self.new) }
        ensures adds { OnOk result (Adds self.old self.new 1) }
    {
        let path = Box::into_inner(path);
        match scalar {
            Scalar::Integer(int_type) => {
                let to = self.temporary();
                self.integer_value(Op::Load { to, scalar, path }, int_type)
            }
            Scalar::Pointer(target) => {
                let to = self.expression();
                self.pointer_value(Op::Load { to, scalar, path }, target)
            }
        }
    }
}
