// The bytes of an image.

ghost use Rattle.std.specs.Prelude.{◌≡◌, ◌++◌, map, IfOk, OnOk};
ghost use Rattle.pool_isa.specs.Instr.{spelling};
ghost use Rattle.image_form.specs.Form.{form_of, function_of, function_bytes, kind_bytes, counted, header_bytes, contents_bytes, image_bytes};

use crate::image::{Function, Image};
use pool_isa::{Instr, append, append_number};
use slab_space::PoolKind;
use std::alloc::{AllocError, Global};

/// The bytes of an image.
pub fn to_bytes(alloc: Global, image: &Image) -> Result<Vec<u8>, AllocError>
    ensures { IfOk result (λ bytes. bytes.items ≡ image_bytes (form_of image.now)) }
{
    let mut bytes = Vec::new(alloc);
    append_header(&mut bytes, image)?;
    append_contents(&mut bytes, &image.globals.contents)?;
    append_kinds(&mut bytes, &image.kinds)?;
    append_functions(&mut bytes, &image.functions)?;
    Ok(bytes)
}

fn append_header(bytes: &mut Vec<u8>, image: &Image) -> Result<(), AllocError>
    ensures { OnOk result (bytes.new.items ≡ bytes.old.items ++ header_bytes (form_of image.now)) }
{
    bytes.extend_from_slice(b"PAIM")?;
    bytes.push(image.version)?;
    append_number(bytes, u64::from(image.limits.slabs))?;
    append_number(bytes, u64::from(image.limits.index))?;
    append_number(bytes, u64::from(image.globals.size))
}

fn append_contents(bytes: &mut Vec<u8>, contents: &[u8]) -> Result<(), AllocError>
    ensures { OnOk result (bytes.new.items ≡ bytes.old.items ++ contents_bytes contents.now) }
{
    append_number(bytes, contents.len() as u64)?;
    bytes.extend_from_slice(contents)
}

// The kinds of pools: how many, and then each.
fn append_kinds(bytes: &mut Vec<u8>, kinds: &[PoolKind]) -> Result<(), AllocError>
    ensures { OnOk result (bytes.new.items ≡ bytes.old.items ++ counted kind_bytes kinds.now) }
{
    append_number(bytes, kinds.len() as u64)?;
    for kind in kinds {
        append_kind(bytes, *kind)?;
    }
    Ok(())
}

fn append_kind(bytes: &mut Vec<u8>, kind: PoolKind) -> Result<(), AllocError>
    ensures { OnOk result (bytes.new.items ≡ bytes.old.items ++ kind_bytes kind) }
{
    match kind {
        PoolKind::Mixed => bytes.push(0)?,
        PoolKind::Homogeneous {
            source,
            cell,
            indexed,
        } => {
            bytes.push(1)?;
            append_number(bytes, source)?;
            append_number(bytes, cell / 4)?;
            bytes.push(u8::from(indexed))?;
        }
    }
    Ok(())
}

// The functions of an image: how many, and then each.
fn append_functions(bytes: &mut Vec<u8>, functions: &[Function]) -> Result<(), AllocError>
    ensures { OnOk result (bytes.new.items ≡ bytes.old.items ++ counted function_bytes (map function_of functions.now)) }
{
    append_number(bytes, functions.len() as u64)?;
    for function in functions {
        append_function(bytes, function)?;
    }
    Ok(())
}

fn append_function(bytes: &mut Vec<u8>, function: &Function) -> Result<(), AllocError>
    ensures { OnOk result (bytes.new.items ≡ bytes.old.items ++ function_bytes (function_of function.now)) }
{
    append_number(bytes, u64::from(function.parameters))?;
    append_number(bytes, u64::from(function.extra))?;
    append_number(bytes, u64::from(function.height))?;
    append_number(bytes, u64::from(function.signature))?;
    append_code(bytes, &function.code)
}

fn append_code(bytes: &mut Vec<u8>, code: &[Instr]) -> Result<(), AllocError>
    ensures { OnOk result (bytes.new.items ≡ bytes.old.items ++ counted spelling code.now) }
{
    append_number(bytes, code.len() as u64)?;
    for instr in code {
        append(bytes, *instr)?;
    }
    Ok(())
}
