// The kinds of pools of an image.

ghost use Rattle.std.specs.Prelude.{◌≤◌, length};
ghost use Rattle.image_form.specs.Form.{kind_bytes, counted, IsKind};
ghost use Rattle.image_form.specs.Reading.{IsDecoded, IsHomogeneous, homogeneous_bytes, IsKinds, IsSomeKinds, kinds_of, kinds_bytes};

use crate::image::ImageErr;
use crate::number::{number_within, small_number};
use slab_space::PoolKind;
use std::alloc::Global;

// What follows the first byte of a kind with cells of one size.
fn homogeneous(bytes: &[u8], at: usize) -> Result<(PoolKind, usize), ImageErr>
    requires { at ≤ length bytes.now }
    ensures { IsDecoded IsHomogeneous homogeneous_bytes (λ kind. kind) bytes.now at result }
{
    let (source, at) = match small_number(bytes, at, 1, 1_048_576) {
        Ok(found) => found,
        Err(fault) => return Err(fault),
    };
    let (words, at) = match small_number(bytes, at, 1, 262_144) {
        Ok(found) => found,
        Err(fault) => return Err(fault),
    };
    let (indexed, at) = match number_within(bytes, at, 0, 1) {
        Ok((number, end)) => (number == 1, end),
        Err(fault) => return Err(fault),
    };
    let kind = PoolKind::Homogeneous {
        source: u64::from(source),
        cell: u64::from(4 * words),
        indexed,
    };
    Ok((kind, at))
}

// A kind of pool. Its first byte, as a number, is 0 or 1.
fn kind(bytes: &[u8], at: usize) -> Result<(PoolKind, usize), ImageErr>
    requires { at ≤ length bytes.now }
    ensures { IsDecoded IsKind kind_bytes (λ kind. kind) bytes.now at result }
{
    match number_within(bytes, at, 0, 1) {
        Ok((0, end)) => Ok((PoolKind::Mixed, end)),
        Ok((_, end)) => homogeneous(bytes, end),
        Err(fault) => Err(fault),
    }
}

// So many kinds.
fn kinds(
    alloc: Global,
    bytes: &[u8],
    at: usize,
    count: u64,
) -> Result<(Vec<PoolKind>, usize), ImageErr>
    requires { at ≤ length bytes.now }
    ensures { IsDecoded (IsSomeKinds count) kinds_bytes kinds_of bytes.now at result }
{
    let mut kinds = Vec::new(alloc);
    let mut here = at;
    for index in 0..count {
        let (next, end) = match kind(bytes, here) {
            Ok(found) => found,
            Err(fault) => return Err(fault),
        };
        match kinds.push(next) {
            Ok(()) => here = end,
            Err(_) => return Err(ImageErr::OutOfMemory),
        }
    }
    Ok((kinds, here))
}

/// The kinds of pools of an image: how many, and then each.
pub(crate) fn counted_kinds(
    alloc: Global,
    bytes: &[u8],
    at: usize,
) -> Result<(Vec<PoolKind>, usize), ImageErr>
    requires { at ≤ length bytes.now }
    ensures { IsDecoded IsKinds (counted kind_bytes) kinds_of bytes.now at result }
{
    let (count, at) = match number_within(bytes, at, 0, 1_048_576) {
        Ok(found) => found,
        Err(fault) => return Err(fault),
    };
    kinds(alloc, bytes, at, count)
}
