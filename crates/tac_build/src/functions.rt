// Functions (C17 6.9.1).

ghost use Rattle.std.specs.Prelude.{◌≡◌, ℕ, true, [], length, map, bytes_eq, codes, OnOk, IfOk};
ghost use Rattle.c_typed.specs.Typed.{Block};
ghost use Rattle.c_typed.specs.Table.{Interned, Stands, type_in};
ghost use Rattle.c_typed.specs.DefinitionViews.{TypesStand};
ghost use Rattle.c_typed.specs.Programs.{are_scalars};
ghost use Rattle.tac_ir.specs.declared.register.Local.TheVariants as L;
ghost use Rattle.tac_ir.specs.declared.register.Register.TheVariants as R;
ghost use Rattle.tac_ir.specs.Views.{scalar_in, operand_of};
ghost use Rattle.tac_build.specs.Code.{Emits};
ghost use Rattle.tac_build.specs.ProgramCode as code;
ghost use Rattle.tac_build.specs.Building.{home_in, IsScalarType, Leads, LeadsIn, Grows};
ghost use Rattle.tac_build.specs.Lowering.{types_of_source, IsSource};
ghost use Rattle.tac_build.specs.LoweringDefinitions.{ParametersForetold, parameter_homes, ParametersLower, FunctionTyped, FunctionLowers};

use crate::addressed::{Addressed, find_addressed};
use crate::builder::Builder;
use crate::homes::{Home, lies_in_memory};
use crate::names::Source;
use crate::objects::scalar;
use crate::statements::Ways;
use c_typed::{ByteString, CType, FunctionDef};
use std::alloc::{AllocError, Global};
use tac_ir::{Base, Function, Local, Op, Operand, PointId, Register, Scalar, Tree};

/// The name of the function with which a program begins (C17 5.1.2.2.1).
pub(crate) fn is_main(name: &[u8]) -> bool
    ensures { result ≡ bytes_eq name.now (codes "main") }
{
    name == b"main".as_slice()
}

impl Builder {
    /// The parameters are the first locals. An argument of one in memory is stored there.
    fn parameters(
        &mut self,
        parameters: &[CType],
        source: &Source,
        addressed: &Addressed,
        scope: &mut Vec<Home>,
    ) -> Result<(), AllocError>
        requires stand { TypesStand (types_of_source source.now) parameters.now }
        requires scalars { are_scalars (map (type_in (types_of_source source.now)) parameters.now) ≡ true }
        requires foretold { (body : Block) × ParametersForetold addressed.now (length parameters.now) body }
        requires none { scope.old.items ≡ [] }
        ensures code { OnOk result ((body : Block) → ParametersForetold addressed.now (length parameters.now) body → ParametersLower source.now body parameters.now scope.new.items self.old self.new) }
        ensures scope { OnOk result ((body : Block) → ParametersForetold addressed.now (length parameters.now) body → scope.new.items ≡ parameter_homes (types_of_source source.now) body 0 parameters.now) }
        ensures grows { OnOk result (Grows self.old self.new) }
        ensures counts { OnOk result (self.new.counts ≡ self.old.counts) }
    {
        for number in 0..parameters.len() {
            let c_type = parameters[number];
            let is_taken = addressed.parameters[number];
            let home = Home {
                local: Local::Parameter(number),
                is_object: lies_in_memory(source.types(), c_type, is_taken),
                c_type,
            };
            self.parameter(home, source)?;
            scope.push(home)?;
        }
        Ok(())
    }

    /// A parameter.
    fn parameter(&mut self, home: Home, source: &Source) -> Result<(), AllocError>
        requires stands { Stands (types_of_source source.now) home.c_type }
        requires kind { IsScalarType (type_in (types_of_source source.now) home.c_type) }
        ensures code { OnOk result ((number : ℕ) → home.local ≡ L.Parameter number → LeadsIn (types_of_source source.now) (λ points. code.ParameterCode points (home_in (types_of_source source.now) home) number) self.old self.new) }
        ensures grows { OnOk result (Grows self.old self.new) }
        ensures counts { OnOk result (self.new.counts ≡ self.old.counts) }
    {
        if !home.is_object {
            return Ok(());
        }
        self.with_home(home)?;
        let path = self.path(Base::Local(home.local))?;
        let scalar = scalar(source.types(), home.c_type);
        let argument = stored_argument(Register::Local(home.local), scalar);
        self.store_operand(path, scalar, argument)
    }

    /// The end of a function. Reaching the closing brace of `main` returns 0 (C17 5.1.2.2.3).
    fn end(&mut self, name: &[u8]) -> Result<(), AllocError>
        ensures code { OnOk result (Leads (λ table points. Emits points (code.end_of name.now)) self.old self.new) }
        ensures grows { OnOk result (Grows self.old self.new) }
    {
        if is_main(name) {
            self.append(Op::Return(Some(Operand::Integer(Tree::Constant(0)))))
        } else {
            self.append(Op::Return(None))
        }
    }
}

/// The argument that a register of a parameter holds.
fn stored_argument(register: Register, scalar: Scalar) -> Operand
    ensures { (table : Interned) (number : ℕ) → register ≡ R.Local (L.Parameter number) → operand_of result ≡ code.stored_argument number (scalar_in table scalar) }
{
    match scalar {
        Scalar::Integer(_) => Operand::Integer(Tree::Held(register)),
        Scalar::Pointer(_) => Operand::Pointer(register),
    }
}

/// The code of a function.
pub(crate) fn function(
    alloc: Global,
    definition: &FunctionDef,
    source: &Source,
) -> Result<Function, AllocError>
    requires source { IsSource source.now }
    requires typed { FunctionTyped source.now definition.now }
    ensures { IfOk result (FunctionLowers source.now definition.now) }
{
    let name = ByteString::from_slice(alloc, definition.name.as_slice())?;
    let parameters = definition.parameters.len();
    let addressed = find_addressed(alloc, parameters, definition.body.as_slice())?;
    let mut builder = Builder::new(alloc);
    let mut scope = Vec::new(alloc);
    let types = definition.parameters.as_slice();
    builder.parameters(types, source, &addressed, &mut scope)?;
    let nowhere = Ways {
        broken: PointId(0),
        continued: PointId(0),
    };
    let body = definition.body.as_slice();
    builder.block(body, source, &addressed, &mut scope, nowhere)?;
    builder.end(definition.name.as_slice())?;
    Ok(Function {
        name,
        c_type: definition.c_type,
        parameters,
        counts: builder.counts,
        objects: builder.objects,
        points: builder.points,
    })
}
