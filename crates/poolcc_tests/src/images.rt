// Images that are built and run.

use crate::commands::{BUILD, Failing, NONE, RUN, answer, command, parts_of};
use pcc_words::Status;
use std::alloc::{AllocError, Global};

/// The image of a start that puts 7 and exits with it.
const SEVEN: [u8; 25] = [
    0x50, 0x41, 0x49, 0x4d, 0x01, 0x80, 0x80, 0x04, 0xff, 0xff, 0xff, 0xff, 0x0f, 0x00, 0x00, 0x00,
    0x01, 0x00, 0x00, 0x01, 0x00, 0x02, 0x01, 0x07, 0x27,
];

// Lines, texts and inputs, and the first bytes of the images that are built of them.
const FRONTS: [(&str, &str, &str, &[u8]); 4] = [
    (
        BUILD,
        "int main(void) { return 263; }",
        "x",
        &[
            0x50, 0x41, 0x49, 0x4d, 0x01, 0x80, 0x80, 0x04, 0xff, 0xff, 0xff, 0xff, 0x0f, 0x00,
        ],
    ),
    (
        "poolcc build a.c --index 2 --slabs 1048576",
        "int main(void) { return 0; }",
        "",
        &[0x50, 0x41, 0x49, 0x4d, 0x01, 0x80, 0x80, 0x40, 0x02],
    ),
    (
        "poolcc build a.c --index 4294967295 --slabs +1",
        "int main(void) { return 0; }",
        "",
        &[
            0x50, 0x41, 0x49, 0x4d, 0x01, 0x01, 0xff, 0xff, 0xff, 0xff, 0x0f,
        ],
    ),
    (
        "poolcc build --slabs 2 --one-pool a.c --index 3",
        "int main(void) { return 0; }",
        "",
        &[0x50, 0x41, 0x49, 0x4d, 0x01, 0x02, 0x03],
    ),
];

// Programs that are built and then run.
const PROGRAMS: [&str; 2] = [
    "int main(void) { return 263; } => 7",
    "int main(void) { int c; while ((c = getchar()) != EOF) putchar(c); return 7; } <- ab => 7, writes ab",
];

// So many bytes of the image above and then these are run by this line, with what comes of it: the input is left.
const IMAGES: [(&str, usize, &[u8], &str); 9] = [
    (RUN, 25, &[], "7, leaves x"),
    (RUN, 24, &[], "244: bad image at 24, leaves x"),
    (RUN, 25, &[0x00], "244: bad image at 25, leaves x"),
    (
        RUN,
        23,
        &[0x87, 0x00, 0x27],
        "244: bad image at 24, leaves x",
    ),
    (
        RUN,
        17,
        &[0x00, 0x00, 0x01, 0x00, 0x01, 0x27],
        "246: trap StackEmpty, leaves x",
    ),
    (
        RUN,
        17,
        &[0x00, 0x00, 0x01, 0x00, 0x01, 0x20, 0x01],
        "244: bad image at 23, leaves x",
    ),
    (RUN, 0, &[], "244: bad image at 0, leaves x"),
    (RUN, 5, &[0x00], "244: bad image at 5, leaves x"),
    (
        "poolcc run a.c --steps 5",
        17,
        &[0x00, 0x00, 0x01, 0x00, 0x01, 0x20, 0x00],
        "250: steps spent, leaves x",
    ),
];

/// The image that is built, if nothing is told and nothing read of the input.
fn built(
    alloc: Global,
    line: &str,
    text: &str,
    input: &str,
) -> Result<Option<Vec<u8>>, AllocError> {
    let did = command(alloc, line, text.as_bytes(), input.as_bytes(), NONE)?;
    let image = Vec::from_slice(alloc, did.out.bytes())?;
    match did.status {
        Status::Done if did.err.bytes().is_empty() && did.input.left() == input.as_bytes() => Ok(
            Some(image),
        ),
        _ => Ok(None),
    }
}

/// The first line whose image doesn't begin so.
fn first_unlike(alloc: Global) -> Result<Option<&'static str>, AllocError> {
    for (line, text, input, front) in &FRONTS {
        match built(alloc, line, text, input)? {
            Some(image) if image.as_slice().starts_with(front) => {}
            _ => return Ok(Some(line)),
        }
    }
    Ok(None)
}

/// What is answered to a program that is built and then run.
fn answer_to(alloc: Global, text: &str, input: &str) -> Result<String, AllocError> {
    match built(alloc, BUILD, text, "")? {
        Some(image) => answer(alloc, RUN, image.as_slice(), input.as_bytes(), NONE),
        None => String::from_str(alloc, "not built"),
    }
}

/// The first program that ends otherwise.
fn first_wrong_program(alloc: Global) -> Result<Option<String>, AllocError> {
    for row in &PROGRAMS {
        let (text, input, wanted) = parts_of(row);
        let found = answer_to(alloc, text, input)?;
        if found.as_str() != wanted {
            return Ok(Some(found));
        }
    }
    Ok(None)
}

fn image_of(alloc: Global, front: usize, rest: &[u8]) -> Result<Vec<u8>, AllocError> {
    let mut bytes = Vec::from_slice(alloc, SEVEN.get(..front).unwrap_or(&SEVEN))?;
    bytes.extend_from_slice(rest)?;
    Ok(bytes)
}

/// The number of the first image that is answered otherwise, and that answer.
fn first_wrong_image(alloc: Global) -> Result<Option<String>, AllocError> {
    for (index, (line, front, rest, wanted)) in IMAGES.iter().enumerate() {
        let image = image_of(alloc, *front, rest)?;
        let found = answer(alloc, line, image.as_slice(), b"x", NONE)?;
        if found.as_str() != *wanted {
            return Ok(Some(format!(in alloc; "image {index}: {found}")?));
        }
    }
    Ok(None)
}

#[test]
fn images_are_built_and_run(rt: HostRuntime) -> Result<(), AllocError> {
    assert_eq!(rt; first_unlike(rt.alloc())?, None);
    assert_eq!(rt; first_wrong_program(rt.alloc())?, None);
    Ok(())
}

#[test]
fn bytes_are_run_as_an_image(rt: HostRuntime) -> Result<(), AllocError> {
    let alloc = rt.alloc();
    assert_eq!(rt; first_wrong_image(alloc)?, None);
    let unread = Failing { file: 1, ..NONE };
    let found = answer(alloc, RUN, &SEVEN, b"", unread)?;
    assert_eq!(rt; found.as_str(), "251: read fault");
    Ok(())
}
