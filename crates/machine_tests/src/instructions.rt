// Instructions and numbers as bytes.

use c_num::{BinOp, IntType, Relation};
use pool_isa::{
    BadInstr, BadNumber, Instr, Width, append, append_number, decode_number, decode_one, encode,
};
use std::alloc::{AllocError, Global};
use std::test::Fail;

// One row for each code, as the table of the machine's instructions has it; 624485 is the example that LEB128 is
// mostly explained by.
const CODES: [(Instr, &[u8]); 53] = [
    (Instr::Constant(0), &[0x01, 0x00]),
    (Instr::Discard, &[0x02]),
    (Instr::Duplicate, &[0x03]),
    (Instr::Swap, &[0x04]),
    (Instr::Local(127), &[0x05, 0x7F]),
    (Instr::Load(IntType::Char), &[0x10]),
    (Instr::Load(IntType::UChar), &[0x11]),
    (Instr::Load(IntType::Short), &[0x12]),
    (Instr::Load(IntType::UShort), &[0x13]),
    (Instr::Load(IntType::Int), &[0x14]),
    (Instr::Load(IntType::UInt), &[0x15]),
    (Instr::Load(IntType::Long), &[0x16]),
    (Instr::Load(IntType::ULong), &[0x17]),
    (Instr::Store(Width::One), &[0x18]),
    (Instr::Store(Width::Two), &[0x19]),
    (Instr::Store(Width::Four), &[0x1A]),
    (Instr::Store(Width::Eight), &[0x1B]),
    (Instr::LoadLink, &[0x1C]),
    (Instr::StoreLink, &[0x1D]),
    (Instr::Jump(128), &[0x20, 0x80, 0x01]),
    (Instr::JumpIfZero(16384), &[0x21, 0x80, 0x80, 0x01]),
    (Instr::JumpIfNotZero(3), &[0x22, 0x03]),
    (Instr::Call(624485), &[0x23, 0xE5, 0x8E, 0x26]),
    (
        Instr::CallIndirect(18446744073709551615),
        &[
            0x24, 0xFF, 0xFF, 0xFF, 0xFF, 0xFF, 0xFF, 0xFF, 0xFF, 0xFF, 0x01,
        ],
    ),
    (Instr::Return, &[0x25]),
    (Instr::ReturnValue, &[0x26]),
    (Instr::Exit, &[0x27]),
    (Instr::Trap, &[0x28]),
    (Instr::Binary(BinOp::Add, IntType::Char), &[0x30, 0x00]),
    (Instr::Binary(BinOp::Sub, IntType::UChar), &[0x31, 0x01]),
    (Instr::Binary(BinOp::Mul, IntType::Short), &[0x32, 0x02]),
    (Instr::Binary(BinOp::Div, IntType::UShort), &[0x33, 0x03]),
    (Instr::Binary(BinOp::Rem, IntType::Int), &[0x34, 0x04]),
    (Instr::Binary(BinOp::Shl, IntType::UInt), &[0x35, 0x05]),
    (Instr::Binary(BinOp::Shr, IntType::Long), &[0x36, 0x06]),
    (Instr::Binary(BinOp::And, IntType::ULong), &[0x37, 0x07]),
    (Instr::Binary(BinOp::Or, IntType::Char), &[0x38, 0x00]),
    (Instr::Binary(BinOp::Xor, IntType::UChar), &[0x39, 0x01]),
    (Instr::Negate(IntType::Short), &[0x3A, 0x02]),
    (Instr::Complement(IntType::UShort), &[0x3B, 0x03]),
    (Instr::Compare(Relation::Eq, IntType::Int), &[0x3C, 0x04]),
    (Instr::Compare(Relation::Ne, IntType::UInt), &[0x3D, 0x05]),
    (Instr::Compare(Relation::Lt, IntType::Long), &[0x3E, 0x06]),
    (Instr::Compare(Relation::Le, IntType::ULong), &[0x3F, 0x07]),
    (Instr::Compare(Relation::Gt, IntType::Char), &[0x40, 0x00]),
    (Instr::Compare(Relation::Ge, IntType::UChar), &[0x41, 0x01]),
    (Instr::Convert(IntType::Short), &[0x42, 0x02]),
    (Instr::PoolInit(300), &[0x50, 0xAC, 0x02]),
    (Instr::PoolDestroy, &[0x51]),
    (Instr::PoolAlloc, &[0x52]),
    (Instr::PoolFree, &[0x53]),
    (Instr::GetChar, &[0x60]),
    (Instr::PutChar, &[0x61]),
];

// Bytes with which no instruction begins, and the place of the fault.
const BAD: [(&[u8], usize); 12] = [
    (&[], 0),
    (&[0x00], 0),
    (&[0x06, 0x01], 0),
    (&[0x2F], 0),
    (&[0x43, 0x00], 0),
    (&[0x62], 0),
    (&[0xFF], 0),
    (&[0x30], 1),
    (&[0x30, 0x08], 1),
    (&[0x20, 0x80], 2),
    (&[0x20, 0x87, 0x00], 2),
    (
        &[
            0x01, 0xFF, 0xFF, 0xFF, 0xFF, 0xFF, 0xFF, 0xFF, 0xFF, 0xFF, 0x02,
        ],
        10,
    ),
];

// The first instruction that isn't encoded as these bytes, or not decoded from them.
fn first_wrong(alloc: Global, rows: &[(Instr, &[u8])]) -> Result<Option<Instr>, AllocError> {
    for (instr, bytes) in rows {
        let code = encode(alloc, *instr)?;
        if code.as_slice() != *bytes || decode_one(bytes, 0) != Ok((*instr, bytes.len())) {
            return Ok(Some(*instr));
        }
    }
    Ok(None)
}

#[test]
fn every_code(rt: HostRuntime) -> Result<(), Fail> {
    assert_eq!(rt; first_wrong(rt.alloc(), &CODES)?, None);
    Ok(())
}

// The first row whose fault is found elsewhere, or not at all.
fn first_misplaced(rows: &[(&[u8], usize)]) -> Option<usize> {
    rows.iter().position(|(bytes, place)| decode_one(bytes, 0) != Err(BadInstr(*place)))
}

#[test]
fn bad_bytes(rt: HostRuntime) {
    assert_eq!(rt; first_misplaced(&BAD), None);
}

// An instruction and two numbers.
const THREE: [u8; 13] = [
    0x1B, 0x80, 0x01, 0xFF, 0xFF, 0xFF, 0xFF, 0xFF, 0xFF, 0xFF, 0xFF, 0xFF, 0x01,
];

#[test]
fn behind_other_bytes(rt: HostRuntime) -> Result<(), Fail> {
    let mut code = Vec::new(rt.alloc());
    append(&mut code, Instr::Store(Width::Eight))?;
    append_number(&mut code, 128)?;
    append_number(&mut code, u64::MAX)?;
    assert_eq!(rt; code.as_slice(), THREE.as_slice());
    Ok(())
}

#[test]
fn numbers_are_found(rt: HostRuntime) {
    let numbers = (decode_number(&THREE, 1), decode_number(&THREE, 3));
    assert_eq!(rt; numbers, (Ok((128, 3)), Ok((u64::MAX, 13))));
}

#[test]
fn printed(rt: HostRuntime) -> Result<(), Fail> {
    let text = format!(in rt.alloc(); "{}\n{}", BadInstr(7), BadNumber(0))?;
    assert_eq!(rt;
        text.as_str(),
        "no instruction: the byte at 7 is wrong or missing\n\
         no number: the byte at 0 is wrong or missing"
    );
    Ok(())
}
