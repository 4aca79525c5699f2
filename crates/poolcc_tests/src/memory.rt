// Files, inputs and outputs in memory.

use pcc_outside::{Failed, Files, MemFiles, MemSink, MemSource, NullSink, Sink, Source};
use std::alloc::{AllocError, Global};
use std::collections::BTreeMap;

// What reads answer, what then stands where they put bytes, and what is left. The input is 1 to 5 in pieces of two bytes, and the second
// read fails.
const READS: [(Result<usize, Failed>, [u8; 3], &[u8]); 5] = [
    (Ok(2), [1, 2, 0], &[3, 4, 5]),
    (Err(Failed), [1, 2, 0], &[3, 4, 5]),
    (Ok(2), [3, 4, 0], &[5]),
    (Ok(1), [5, 4, 0], &[]),
    (Ok(0), [5, 4, 0], &[]),
];

// What is written into a room of three bytes in pieces of two, with the answers. The first write fails.
const WRITES: [(&[u8], Result<usize, Failed>); 4] = [
    (&[1, 2, 3, 4], Err(Failed)),
    (&[1, 2, 3, 4], Ok(2)),
    (&[3, 4], Ok(1)),
    (&[4], Err(Failed)),
];

// The place in a file of the bytes 1 to 4 that is read, the answer, and what then stands where it puts bytes. The second read fails.
const PLACES: [(&str, u64, Result<usize, Failed>, [u8; 2]); 6] = [
    ("a.c", 1, Ok(2), [2, 3]),
    ("a.c", 1, Err(Failed), [2, 3]),
    ("a.c", 3, Ok(1), [4, 3]),
    ("a.c", 4, Ok(0), [4, 3]),
    ("a.c", 9, Ok(0), [4, 3]),
    ("b.c", 0, Err(Failed), [4, 3]),
];

/// The first read that is answered otherwise.
fn first_wrong_read(mut source: MemSource) -> Option<usize> {
    let mut buf = [0u8; 3];
    for (index, (answer, bytes, left)) in READS.iter().enumerate() {
        if source.read(&mut buf) != *answer || buf != *bytes || source.left() != *left {
            return Some(index);
        }
    }
    None
}

/// The first write that is answered otherwise. No write may be empty.
fn first_wrong_write(sink: &mut MemSink) -> Option<usize> {
    for (index, (piece, answer)) in WRITES.iter().enumerate() {
        if piece.is_empty() || sink.write(piece) != *answer {
            return Some(index);
        }
    }
    None
}

/// The first place whose read is answered otherwise. No place may lie far behind a file.
fn first_wrong_place(files: &mut MemFiles) -> Option<usize> {
    let mut buf = [0u8; 2];
    for (index, (name, at, answer, bytes)) in PLACES.iter().enumerate() {
        if *at > 9 || files.read_at(name, *at, &mut buf) != *answer || buf != *bytes {
            return Some(index);
        }
    }
    None
}

pub fn one_file(alloc: Global, bytes: &[u8], failing: &[u64]) -> Result<MemFiles, AllocError> {
    let mut files = BTreeMap::new(alloc);
    files.insert(String::from_str(alloc, "a.c")?, bytes.to_vec(alloc)?)?;
    Ok(MemFiles::new(files, failing.to_vec(alloc)?))
}

#[test]
fn sources_and_sinks_go_by_pieces(rt: HostRuntime) -> Result<(), AllocError> {
    let alloc = rt.alloc();
    let source = MemSource::new([1, 2, 3, 4, 5].to_vec(alloc)?, [2].to_vec(alloc)?, 2);
    assert_eq!(rt; first_wrong_read(source), None);
    let mut sink = MemSink::new(alloc, 3, [1].to_vec(alloc)?, 2)?;
    assert_eq!(rt; first_wrong_write(&mut sink), None);
    assert_eq!(rt; sink.bytes(), [1, 2, 3].as_slice());
    assert_eq!(rt; NullSink.write(&[1, 2, 3]), Ok(3));
    Ok(())
}

#[test]
fn files_are_read_by_name(rt: HostRuntime) -> Result<(), AllocError> {
    let mut files = one_file(rt.alloc(), &[1, 2, 3, 4], &[2])?;
    assert_eq!(rt; first_wrong_place(&mut files), None);
    Ok(())
}
