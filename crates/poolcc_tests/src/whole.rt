// Whole files are read, and all bytes written.

use crate::memory::one_file;
use pcc_outside::{Failed, MemSink, ReadErr, read_all, write_all};
use std::alloc::{AllocError, Global};

// The numbers of the calls that fail where five bytes are written in pieces of two, the answer, and what is written.
const WRITES: [(&[u64], Result<(), Failed>, &[u8]); 2] = [
    (&[], Ok(()), b"abcde"),
    (&[2], Err(Failed), b"ab"),
];

// The length of a file, the limit, and the answer.
const READS: [(usize, u32, Result<usize, ReadErr>); 4] = [
    (3, 3, Ok(3)),
    (4, 3, Err(ReadErr::TooLong)),
    (0, 0, Ok(0)),
    (200_000, 1 << 20, Ok(200_000)),
];

/// The first row of writes that does not hold.
fn first_wrong_write(alloc: Global) -> Result<Option<usize>, AllocError> {
    for (index, (failing, answer, written)) in WRITES.iter().enumerate() {
        let mut sink = MemSink::new(alloc, 9, failing.to_vec(alloc)?, 2)?;
        if write_all(&mut sink, b"abcde") != *answer || sink.bytes() != *written {
            return Ok(Some(index));
        }
    }
    Ok(None)
}

/// What comes of reading a file of so many sevens: their number, if all are read.
fn read(alloc: Global, len: usize, limit: u32) -> Result<Result<usize, ReadErr>, AllocError> {
    let sevens = vec![in alloc; 7u8; len]?;
    let mut files = one_file(alloc, sevens.as_slice(), &[])?;
    Ok(match read_all(alloc, &mut files, "a.c", u64::from(limit)) {
        Ok(bytes) if bytes == sevens => Ok(len),
        Ok(_) => Err(ReadErr::Failed),
        Err(err) => Err(err),
    })
}

/// The first row of reads that does not hold.
fn first_wrong_read(alloc: Global) -> Result<Option<usize>, AllocError> {
    for (index, (len, limit, answer)) in READS.iter().enumerate() {
        if read(alloc, *len, *limit)? != *answer {
            return Ok(Some(index));
        }
    }
    Ok(None)
}

#[test]
fn all_bytes_are_written_and_read(rt: HostRuntime) -> Result<(), AllocError> {
    assert_eq!(rt; first_wrong_write(rt.alloc())?, None);
    assert_eq!(rt; first_wrong_read(rt.alloc())?, None);
    Ok(())
}

// The second call on the files fails, and another file isn't there.
#[test]
fn a_failure_ends_the_reading(rt: HostRuntime) -> Result<(), AllocError> {
    let alloc = rt.alloc();
    let mut files = one_file(alloc, &[7; 3], &[2])?;
    let failed = matches!(read_all(alloc, &mut files, "a.c", 3), Err(ReadErr::Failed));
    let missing = matches!(read_all(alloc, &mut files, "b.c", 3), Err(ReadErr::Failed));
    assert_eq!(rt; (failed, missing), (true, true));
    Ok(())
}
