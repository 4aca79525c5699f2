// The functions of an image.

ghost use Rattle.std.specs.Prelude.{◌≡◌, ◌==◌, ℕ, ◌≤◌, length, if◌then◌else◌};
ghost use Rattle.image_form.specs.Form.{function_of, function_bytes, counted};
ghost use Rattle.image_form.specs.Reading.{IsDecoded, IsHead, head_bytes, function_with, IsFunctionUpTo, most_at, IsFunctions, IsAllFunctions, functions_of, functions_bytes};

use crate::code::{Counts, code};
use crate::image::{Function, ImageErr};
use crate::number::{number_within, small_number};
use pool_isa::Instr;
use std::alloc::Global;

// The numbers of a function: what it is without its instructions, and how many these are.
#[derive(Clone, Copy)]
struct Head {
    parameters: u32,
    extra: u32,
    height: u32,
    signature: u32,
    count: u64,
}

impl Head {
    // The function of these numbers and instructions.
    fn with(self, code: Vec<Instr>) -> Function
        ensures { function_of result ≡ function_with self code.items }
    {
        Function {
            parameters: self.parameters,
            extra: self.extra,
            height: self.height,
            signature: self.signature,
            code,
        }
    }
}

// The numbers of a function with no more parameters than `most`.
fn read_head(bytes: &[u8], at: usize, most: u32) -> Result<(Head, usize), ImageErr>
    requires { at ≤ length bytes.now }
    ensures { IsDecoded (IsHead most) head_bytes (λ head. head) bytes.now at result }
{
    let (parameters, at) = match small_number(bytes, at, 0, most) {
        Ok(found) => found,
        Err(fault) => return Err(fault),
    };
    let (extra, at) = match small_number(bytes, at, 0, 67_108_864) {
        Ok(found) => found,
        Err(fault) => return Err(fault),
    };
    let (height, at) = match small_number(bytes, at, 1, 65_536) {
        Ok(found) => found,
        Err(fault) => return Err(fault),
    };
    let (signature, at) = match small_number(bytes, at, 0, u32::MAX) {
        Ok(found) => found,
        Err(fault) => return Err(fault),
    };
    let (count, at) = match number_within(bytes, at, 1, 4_294_967_295) {
        Ok(found) => found,
        Err(fault) => return Err(fault),
    };
    Ok((
        Head {
            parameters,
            extra,
            height,
            signature,
            count,
        },
        at,
    ))
}

// A function with no more parameters than `most`, in an image of so many kinds of pools and functions.
fn function(
    alloc: Global,
    bytes: &[u8],
    at: usize,
    most: u32,
    kinds: u64,
    functions: u64,
) -> Result<(Function, usize), ImageErr>
    requires within { at ≤ length bytes.now }
    requires few { most ≤ 320 }
    ensures { IsDecoded (IsFunctionUpTo most kinds functions) function_bytes function_of bytes.now at result }
{
    let (head, at) = match read_head(bytes, at, most) {
        Ok(found) => found,
        Err(fault) => return Err(fault),
    };
    let counts = Counts {
        kinds,
        functions,
        instrs: head.count,
    };
    match code(alloc, bytes, at, counts) {
        Ok((code, end)) => Ok((head.with(code), end)),
        Err(fault) => Err(fault),
    }
}

// How many parameters a function may have. Function 0 is `start`, and has none.
fn most_parameters(index: u64) -> u32
    ensures { result ≡ most_at index }
{
    if index == 0 { 0 } else { 320 }
}

// So many functions.
fn functions(
    alloc: Global,
    bytes: &[u8],
    at: usize,
    kinds: u64,
    count: u64,
) -> Result<(Vec<Function>, usize), ImageErr>
    requires { at ≤ length bytes.now }
    ensures { IsDecoded (IsFunctions kinds count) functions_bytes functions_of bytes.now at result }
{
    let mut functions = Vec::new(alloc);
    let mut here = at;
    for index in 0..count {
        let most = most_parameters(index);
        let (next, end) = match function(alloc, bytes, here, most, kinds, count) {
            Ok(found) => found,
            Err(fault) => return Err(fault),
        };
        match functions.push(next) {
            Ok(()) => here = end,
            Err(_) => return Err(ImageErr::OutOfMemory),
        }
    }
    Ok((functions, here))
}

/// The functions of an image with so many kinds of pools: how many, and then each.
pub(crate) fn counted_functions(
    alloc: Global,
    bytes: &[u8],
    at: usize,
    kinds: u64,
) -> Result<(Vec<Function>, usize), ImageErr>
    requires { at ≤ length bytes.now }
    ensures { IsDecoded (IsAllFunctions kinds) (counted function_bytes) functions_of bytes.now at result }
{
    let (count, at) = match number_within(bytes, at, 1, 4_097) {
        Ok(found) => found,
        Err(fault) => return Err(fault),
    };
    functions(alloc, bytes, at, kinds, count)
}
