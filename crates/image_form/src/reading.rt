// An image from its bytes.

ghost use Rattle.std.specs.Prelude.{ℕ, ◌≤◌, length, IfOk, IfErr};
ghost use Rattle.image_form.specs.Form.{Form, form_of, contents_bytes, image_bytes, IsContents, IsImage, ImageOf};
ghost use Rattle.image_form.specs.Faults.{IsBad};
ghost use Rattle.image_form.specs.Reading.{IsDecoded, IsFirst, first_bytes_of, IsContentsOf, contents_of, IsHeader, opening_bytes, IsDecodedUnlessMemory};

use crate::functions::counted_functions;
use crate::image::{Globals, Image, ImageErr, MachineLimits};
use crate::kinds::counted_kinds;
use crate::number::{number_within, small_number};
use std::alloc::Global;

// The first bytes, which are the same in every image of version 1.
const FIRST: [u8; 5] = [80, 65, 73, 77, 1];

// The place behind the first bytes.
fn first_bytes(bytes: &[u8]) -> Result<((), usize), ImageErr>
    ensures { IsDecoded IsFirst first_bytes_of (λ nothing. nothing) bytes.now 0 result }
{
    for (index, byte) in FIRST.iter().enumerate() {
        if index >= bytes.len() || bytes[index] != *byte {
            return Err(ImageErr::Bad(index));
        }
    }
    Ok(((), FIRST.len()))
}

// The numbers of an image behind its first bytes: the limits and the bytes of globals.
#[derive(Clone, Copy)]
struct Header {
    slabs: u32,
    index: u32,
    size: u32,
}

fn read_header(bytes: &[u8]) -> Result<(Header, usize), ImageErr>
    ensures { IsDecoded IsHeader opening_bytes (λ header. header) bytes.now 0 result }
{
    let ((), at) = match first_bytes(bytes) {
        Ok(found) => found,
        Err(fault) => return Err(fault),
    };
    let (slabs, at) = match small_number(bytes, at, 1, 1_048_576) {
        Ok(found) => found,
        Err(fault) => return Err(fault),
    };
    let (index, at) = match small_number(bytes, at, 1, u32::MAX) {
        Ok(found) => found,
        Err(fault) => return Err(fault),
    };
    let (size, at) = match small_number(bytes, at, 0, 1_073_741_824) {
        Ok(found) => found,
        Err(fault) => return Err(fault),
    };
    Ok((Header { slabs, index, size }, at))
}

// So many bytes, of which the last isn't 0.
fn contents(
    alloc: Global,
    bytes: &[u8],
    at: usize,
    count: usize,
) -> Result<(Vec<u8>, usize), ImageErr>
    requires { at ≤ length bytes.now }
    ensures { IsDecoded (IsContentsOf count) (λ contents. contents) contents_of bytes.now at result }
{
    let rest = &bytes[at..];
    if rest.len() < count {
        return Err(ImageErr::Bad(bytes.len()));
    }
    if count > 0 && rest[count - 1] == 0 {
        return Err(ImageErr::Bad(at + (count - 1)));
    }
    match Vec::from_slice(alloc, &rest[..count]) {
        Ok(contents) => Ok((contents, at + count)),
        Err(_) => Err(ImageErr::OutOfMemory),
    }
}

// The first contents of globals of so many bytes: how many bytes, and then these.
fn counted_contents(
    alloc: Global,
    bytes: &[u8],
    at: usize,
    size: u32,
) -> Result<(Vec<u8>, usize), ImageErr>
    requires { at ≤ length bytes.now }
    ensures { IsDecoded (IsContents size) contents_bytes contents_of bytes.now at result }
{
    let (count, at) = match small_number(bytes, at, 0, size) {
        Ok(found) => found,
        Err(fault) => return Err(fault),
    };
    contents(alloc, bytes, at, count as usize)
}

// An image, and the place behind it.
fn image(alloc: Global, bytes: &[u8]) -> Result<(Image, usize), ImageErr>
    ensures { IsDecoded IsImage image_bytes form_of bytes.now 0 result }
{
    let (header, at) = match read_header(bytes) {
        Ok(found) => found,
        Err(fault) => return Err(fault),
    };
    let (contents, at) = match counted_contents(alloc, bytes, at, header.size) {
        Ok(found) => found,
        Err(fault) => return Err(fault),
    };
    let (kinds, at) = match counted_kinds(alloc, bytes, at) {
        Ok(found) => found,
        Err(fault) => return Err(fault),
    };
    let (functions, end) = match counted_functions(alloc, bytes, at, kinds.len() as u64) {
        Ok(found) => found,
        Err(fault) => return Err(fault),
    };
    let limits = MachineLimits {
        slabs: header.slabs,
        index: header.index,
    };
    let globals = Globals {
        size: header.size,
        contents,
    };
    let image = Image {
        version: 1,
        limits,
        globals,
        kinds,
        functions,
    };
    Ok((image, end))
}

/// The image that the bytes are.
pub fn from_bytes(alloc: Global, bytes: &[u8]) -> Result<Image, ImageErr>
    // What is found has these bytes.
    ensures found { IfOk result (λ image. ImageOf bytes.now (form_of image)) }
    // What has these bytes is found, unless memory runs out.
    ensures only { (form : Form) → ImageOf bytes.now form → IsDecodedUnlessMemory form_of result form }
    // The place is that of the first byte with which no image goes on, or the end.
    ensures bad { IfErr result (IsBad bytes.now) }
{
    match image(alloc, bytes) {
        Ok((image, end)) => {
            if end == bytes.len() {
                Ok(image)
            } else {
                Err(ImageErr::Bad(end))
            }
        }
        Err(fault) => Err(fault),
    }
}
