// The functions and the image.

ghost use Rattle.std.specs.Prelude.{◌≡◌, ◌≢◌, ◌<◌, ◌≤◌, length, map, AllPairs, IfOk};
ghost use Rattle.std.specs.List.{AllByRecursion};
ghost use Rattle.pool_isa.specs.Ranges.{IsWithin, IsFunction};
ghost use Rattle.stack_code.specs.Units.{unit_function, unit_functions, units_code};
ghost use Rattle.image_form.specs.Form.{IsKind, BeginsWithStart, IsImage, function_of, form_of};
ghost use Rattle.pool_linker.specs.Linking.{NamesBelow, linked_instr, linked_function, without_zeros, linked, KeepsKinds};

use crate::kinds::Numbering;
use image_form::{Function, Globals, Image, MachineLimits};
use pool_isa::Instr;
use stack_code::{Unit, Units};
use std::alloc::{AllocError, Global};

/// The instruction, naming its kind by the new number.
fn linked_instr(instr: Instr, numbers: &[u64]) -> Instr
    requires { NamesBelow (length numbers.now) instr }
    ensures { result ≡ linked_instr numbers.now instr }
{
    match instr {
        Instr::PoolInit(kind) => Instr::PoolInit(numbers[kind as usize]),
        _ => instr,
    }
}

/// Gives each kind that the instructions name its new number.
fn link_code(code: &mut [Instr], numbers: &[u64])
    requires { AllByRecursion (NamesBelow (length numbers.now)) code.old }
    ensures { code.new ≡ map (linked_instr numbers.now) code.old }
{
    for instr in code.iter_mut() {
        *instr = linked_instr(*instr, numbers);
    }
}

/// The image's function of a unit.
fn linked_function(unit: Unit, numbers: &[u64]) -> Function
    requires { AllByRecursion (NamesBelow (length numbers.now)) unit.code.items }
    ensures { function_of result ≡ linked_function numbers.now (unit_function unit) }
{
    let mut code = unit.code;
    link_code(&mut code, numbers);
    Function {
        parameters: unit.parameters,
        extra: unit.extra,
        height: unit.height,
        signature: unit.signature,
        code,
    }
}

/// The bytes without the zeros at their end.
fn without_zeros(bytes: Vec<u8>) -> Vec<u8>
    ensures { result.items ≡ without_zeros bytes.items }
{
    let mut bytes = bytes;
    let mut count = bytes.len();
    while count > 0 && bytes[count - 1] == 0 {
        count -= 1;
    }
    bytes.truncate(count);
    bytes
}

/// The image of the units, with these limits, in time linear in their kinds, instructions and contents.
pub fn link(alloc: Global, units: Units, limits: MachineLimits) -> Result<Image, AllocError>
    requires functions { AllByRecursion (IsFunction (length units.kinds.items) (length (unit_functions units))) (unit_functions units) }
    requires count { length (unit_functions units) ≤ 4097 }
    requires start { BeginsWithStart (unit_functions units) }
    requires kinds { (length units.kinds.items ≤ 1048576) × AllByRecursion IsKind units.kinds.items }
    requires globals { units.globals ≤ 1073741824 }
    requires contents { length units.contents.items ≤ units.globals }
    requires bytes { AllByRecursion (λ byte. byte < 256) units.contents.items }
    requires slabs { IsWithin 1 1048576 limits.slabs }
    requires index { IsWithin 1 4294967295 limits.index }

    ensures holds { IfOk result (λ image. form_of image ≡ linked (units_code units) limits) }
    ensures ranges { IfOk result (λ image. IsImage (form_of image)) }
    ensures same_kinds { IfOk result (λ image. KeepsKinds units.kinds.items image.kinds.items) }
    ensures once { IfOk result (λ image. AllPairs (λ first later. first ≢ later) image.kinds.items) }
{
    let numbering = Numbering::of(alloc, &units.kinds)?;
    let mut functions = Vec::with_capacity(alloc, units.functions.len())?;
    for unit in units.functions {
        functions.push(linked_function(unit, &numbering.numbers))?;
    }
    Ok(Image {
        version: 1,
        limits,
        globals: Globals {
            size: units.globals,
            contents: without_zeros(units.contents),
        },
        kinds: numbering.kinds,
        functions,
    })
}
