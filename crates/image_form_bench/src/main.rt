//! Says of byte strings whether they are images.
//!
//! A line of the input is a byte string in hexadecimal digits. Its answer is a line of the output: `image`, or `bad` and
//! the place of the first fault. A line with a space and a number behind the digits asks for its continuations instead:
//! the answer is how many images there are that go on from the bytes by 1 byte up to so many, at most 2.
#![tactic(auto)]

use image_form::{ImageErr, from_bytes};
use std::alloc::{AllocError, Global};
use std::io::{self, BufRead, BufReader, BufWriter, Write};

fn is_image(alloc: Global, bytes: &[u8]) -> bool {
    from_bytes(alloc, bytes).is_ok()
}

// How many images go on from the bytes by one byte.
fn images_after(alloc: Global, bytes: &mut Vec<u8>) -> Result<u64, AllocError> {
    let mut count = 0u64;
    for byte in 0..=u8::MAX {
        bytes.push(byte)?;
        if is_image(alloc, bytes) {
            count = count.saturating_add(1);
        }
        bytes.pop();
    }
    Ok(count)
}

// How many images go on from the bytes by two bytes.
fn images_two_after(alloc: Global, bytes: &mut Vec<u8>) -> Result<u64, AllocError> {
    let mut count = 0u64;
    for byte in 0..=u8::MAX {
        bytes.push(byte)?;
        count = count.saturating_add(images_after(alloc, bytes)?);
        bytes.pop();
    }
    Ok(count)
}

fn write_place<W: Write>(alloc: Global, bytes: &[u8], out: &mut W) -> io::Result<()> {
    match from_bytes(alloc, bytes) {
        Ok(_) => writeln!(out, "image"),
        Err(ImageErr::Bad(place)) => writeln!(out, "bad {place}"),
        Err(ImageErr::OutOfMemory) => writeln!(out, "out of memory"),
    }
}

fn write_count<W: Write>(
    alloc: Global,
    bytes: &mut Vec<u8>,
    most: &str,
    out: &mut W,
) -> io::Result<()> {
    let mut count = images_after(alloc, bytes)?;
    if most == "2" {
        count = count.saturating_add(images_two_after(alloc, bytes)?);
    }
    writeln!(out, "{count}")
}

fn answer<W: Write>(alloc: Global, line: &str, out: &mut W) -> io::Result<()> {
    let (digits, most) = match line.split_once(' ') {
        Some((digits, most)) => (digits, most),
        None => (line, ""),
    };
    match hex::decode(alloc, digits) {
        Ok(mut bytes) => match most {
            "" => write_place(alloc, &bytes, out),
            _ => write_count(alloc, &mut bytes, most, out),
        },
        Err(_) => writeln!(out, "no bytes"),
    }
}

fn main(rt: HostRuntime) -> io::Result<()> {
    let alloc = rt.alloc();
    let mut out = BufWriter::new(alloc, io::writer(&rt))?;
    for line in BufReader::new(alloc, rt.reader())?.lines(alloc) {
        answer(alloc, line?.as_str(), &mut out)?;
    }
    out.flush()
}
