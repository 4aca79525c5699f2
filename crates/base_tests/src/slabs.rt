use crate::answers::{Answer, DONE};
use raw_slab::RawSlab;
use std::process::Abort;
use std::test::Fail;

/// The bytes at an offset, so many, are read as a number, or written.
#[derive(Clone, Copy)]
enum Call {
    Read(usize, usize),
    Write(usize, usize, u64),
}

const NEW_SLAB_IS_ZERO: [(Call, Answer); 3] = [
    (Call::Read(0, 8), Ok(0)),
    (Call::Read(4088, 8), Ok(0)),
    (Call::Read(4095, 1), Ok(0)),
];

const WORDS_LIE_LOW_BYTE_FIRST: [(Call, Answer); 6] = [
    (Call::Write(4088, 8, 0x0807_0605_0403_0201), DONE),
    (Call::Read(4088, 1), Ok(1)),
    (Call::Read(4089, 2), Ok(0x0302)),
    (Call::Read(4091, 4), Ok(0x0706_0504)),
    (Call::Read(4095, 1), Ok(8)),
    (Call::Read(4088, 8), Ok(0x0807_0605_0403_0201)),
];

const WRITE_LEAVES_ITS_NEIGHBOURS: [(Call, Answer); 6] = [
    (Call::Write(16, 8, u64::MAX), DONE),
    (Call::Write(18, 2, 0x1234_5678), DONE),
    (Call::Read(16, 8), Ok(0xffff_ffff_5678_ffff)),
    (Call::Write(23, 1, 0x100), DONE),
    (Call::Read(16, 8), Ok(0x00ff_ffff_5678_ffff)),
    (Call::Read(24, 8), Ok(0)),
];

fn answer(slab: &mut RawSlab, call: Call) -> Answer {
    match call {
        Call::Read(offset, width) => {
            if width < 1 || width > 8 || offset > 4096 - width {
                return Err("outside");
            }
            Ok(slab.read(offset, width))
        }
        Call::Write(offset, width, word) => {
            if width > 8 || offset > 4096 - width {
                return Err("outside");
            }
            slab.write(offset, width, word);
            DONE
        }
    }
}

/// Each call has its answer.
fn play(rt: &impl Abort, mut slab: RawSlab, calls: &[(Call, Answer)]) {
    for (row, (call, expected)) in calls.iter().enumerate() {
        assert_eq!(rt; answer(&mut slab, *call), *expected, "call {row}");
    }
}

#[test]
fn slabs_hold_what_was_written(rt: HostRuntime) -> Result<(), Fail> {
    let alloc = rt.alloc();
    play(&rt, RawSlab::new(alloc)?, &NEW_SLAB_IS_ZERO);
    play(&rt, RawSlab::new(alloc)?, &WORDS_LIE_LOW_BYTE_FIRST);
    play(&rt, RawSlab::new(alloc)?, &WRITE_LEAVES_ITS_NEIGHBOURS);
    Ok(())
}

#[test]
fn slabs_are_apart(rt: HostRuntime) -> Result<(), Fail> {
    let mut one = RawSlab::new(rt.alloc())?;
    let mut two = RawSlab::new(rt.alloc())?;
    one.write(0, 4, 1);
    two.write(0, 4, 2);
    assert_eq!(rt; (one.read(0, 8), two.read(0, 8)), (1, 2));
    Ok(())
}
