// The words that operators leave.

use crate::scenes::{NOTHING, alone, ran};
use c_num::{BinOp, IntType, Relation};
use pool_isa::{Instr, Width};
use std::alloc::Global;
use std::test::Fail;

/// An instruction, the words that it takes, and the word that it leaves, each as a signed number of 64 bits.
type Row = (Instr, &'static [i64], i64);

const LEAST_INT: i64 = -0x8000_0000;

// Values as C17 6.5.5 to 6.5.12 has them; where those leave them undefined, results are reduced modulo 2^width, the
// amount of a shift modulo the width, and a divisor of zero gives 0 and leaves all.
const BINARY: [Row; 29] = [
    (
        Instr::Binary(BinOp::Add, IntType::Int),
        &[0x7FFF_FFFF, 1],
        LEAST_INT,
    ),
    (
        Instr::Binary(BinOp::Add, IntType::UInt),
        &[0xFFFF_FFFF, 1],
        0,
    ),
    (Instr::Binary(BinOp::Add, IntType::Char), &[127, 1], -128),
    (
        Instr::Binary(BinOp::Add, IntType::Int),
        &[0x1_0000_0001, 1],
        2,
    ),
    (Instr::Binary(BinOp::Sub, IntType::UChar), &[0, 1], 255),
    (Instr::Binary(BinOp::Sub, IntType::Int), &[3, 5], -2),
    (
        Instr::Binary(BinOp::Sub, IntType::Long),
        &[i64::MIN, 1],
        0x7FFF_FFFF_FFFF_FFFF,
    ),
    (Instr::Binary(BinOp::Mul, IntType::Short), &[256, 256], 0),
    (Instr::Binary(BinOp::Mul, IntType::ULong), &[-1, -1], 1),
    (Instr::Binary(BinOp::Mul, IntType::Int), &[-3, 5], -15),
    (Instr::Binary(BinOp::Div, IntType::Int), &[-7, 2], -3),
    (
        Instr::Binary(BinOp::Div, IntType::UInt),
        &[-7, 2],
        2147483644,
    ),
    (
        Instr::Binary(BinOp::Div, IntType::Int),
        &[LEAST_INT, -1],
        LEAST_INT,
    ),
    (Instr::Binary(BinOp::Div, IntType::Long), &[5, 0], 0),
    (Instr::Binary(BinOp::Rem, IntType::Int), &[-7, 2], -1),
    (Instr::Binary(BinOp::Rem, IntType::ULong), &[-1, 10], 5),
    (Instr::Binary(BinOp::Rem, IntType::Short), &[-2, 0], -2),
    (Instr::Binary(BinOp::Rem, IntType::Int), &[LEAST_INT, -1], 0),
    (Instr::Binary(BinOp::Shl, IntType::Int), &[1, 31], LEAST_INT),
    (Instr::Binary(BinOp::Shl, IntType::Int), &[1, 33], 2),
    (Instr::Binary(BinOp::Shl, IntType::Int), &[1, -1], LEAST_INT),
    (Instr::Binary(BinOp::Shl, IntType::UChar), &[0x81, 1], 2),
    (Instr::Binary(BinOp::Shr, IntType::Int), &[-8, 1], -4),
    (
        Instr::Binary(BinOp::Shr, IntType::UInt),
        &[-8, 1],
        0x7FFF_FFFC,
    ),
    (
        Instr::Binary(BinOp::Shr, IntType::Long),
        &[i64::MIN, 63],
        -1,
    ),
    (
        Instr::Binary(BinOp::And, IntType::Char),
        &[0xF0, 0x8F],
        -128,
    ),
    (
        Instr::Binary(BinOp::Or, IntType::UShort),
        &[0xFF00, 0x00FF],
        0xFFFF,
    ),
    (Instr::Binary(BinOp::Xor, IntType::Int), &[-1, 1], -2),
    (
        Instr::Binary(BinOp::Xor, IntType::UShort),
        &[-1, 0x0F0F],
        0xF0F0,
    ),
];

// C17 6.5.8 and 6.5.9, at values that differ by type.
const RELATIONS: [Row; 15] = [
    (Instr::Compare(Relation::Lt, IntType::Int), &[1, 2], 1),
    (Instr::Compare(Relation::Lt, IntType::Int), &[2, 1], 0),
    (Instr::Compare(Relation::Lt, IntType::Int), &[-1, 0], 1),
    (Instr::Compare(Relation::Lt, IntType::UInt), &[-1, 0], 0),
    (
        Instr::Compare(Relation::Lt, IntType::Char),
        &[0x80, 0x7F],
        1,
    ),
    (
        Instr::Compare(Relation::Lt, IntType::UChar),
        &[0x80, 0x7F],
        0,
    ),
    (
        Instr::Compare(Relation::Gt, IntType::Long),
        &[i64::MIN, 1],
        0,
    ),
    (
        Instr::Compare(Relation::Gt, IntType::ULong),
        &[i64::MIN, 1],
        1,
    ),
    (Instr::Compare(Relation::Le, IntType::Short), &[7, 7], 1),
    (Instr::Compare(Relation::Le, IntType::UShort), &[8, 7], 0),
    (Instr::Compare(Relation::Ge, IntType::Short), &[7, 7], 1),
    (Instr::Compare(Relation::Ge, IntType::Short), &[-8, 7], 0),
    (
        Instr::Compare(Relation::Eq, IntType::Int),
        &[0x1_0000_0001, 1],
        1,
    ),
    (
        Instr::Compare(Relation::Eq, IntType::Long),
        &[0x1_0000_0001, 1],
        0,
    ),
    (Instr::Compare(Relation::Ne, IntType::UChar), &[0x101, 1], 0),
];

// C17 6.5.3.3 and 6.3.1.3.
const UNARY: [Row; 12] = [
    (Instr::Negate(IntType::Int), &[5], -5),
    (Instr::Negate(IntType::Int), &[LEAST_INT], LEAST_INT),
    (Instr::Negate(IntType::UInt), &[1], 0xFFFF_FFFF),
    (Instr::Negate(IntType::Char), &[0x80], -128),
    (Instr::Complement(IntType::Int), &[0], -1),
    (Instr::Complement(IntType::UChar), &[0x0F], 0xF0),
    (Instr::Complement(IntType::ULong), &[1], -2),
    (Instr::Convert(IntType::Char), &[0x80], -128),
    (Instr::Convert(IntType::UShort), &[-1], 0xFFFF),
    (Instr::Convert(IntType::Int), &[0x1_8000_0000], LEAST_INT),
    (Instr::Convert(IntType::UInt), &[LEAST_INT], 0x8000_0000),
    (Instr::Convert(IntType::Long), &[-1], -1),
];

/// The word that an instruction leaves of these operands: it is stored, and its bytes are written out.
fn left_by(alloc: Global, instr: Instr, operands: &[i64]) -> Result<Vec<u8>, Fail> {
    let mut code = Vec::new(alloc);
    for word in operands {
        code.push(Instr::Constant(word.cast_unsigned()))?;
    }
    code.extend_from_slice(&[
        instr,
        Instr::Local(0),
        Instr::Swap,
        Instr::Store(Width::Eight),
    ])?;
    for offset in 0..8 {
        code.extend_from_slice(&[
            Instr::Local(offset),
            Instr::Load(IntType::UChar),
            Instr::PutChar,
            Instr::Discard,
        ])?;
    }
    Ok(ran(alloc, &alone(&code), &NOTHING, 1000)?.2)
}

/// The first instruction that leaves another word.
fn first_wrong(alloc: Global, rows: &[Row]) -> Result<Option<Row>, Fail> {
    for row in rows {
        let left = left_by(alloc, row.0, row.1)?;
        if left.as_slice() != row.2.to_le_bytes().as_slice() {
            return Ok(Some(*row));
        }
    }
    Ok(None)
}

#[test]
fn binary_operators(rt: HostRuntime) -> Result<(), Fail> {
    assert_eq!(rt; first_wrong(rt.alloc(), &BINARY)?, None);
    Ok(())
}

#[test]
fn relations(rt: HostRuntime) -> Result<(), Fail> {
    assert_eq!(rt; first_wrong(rt.alloc(), &RELATIONS)?, None);
    Ok(())
}

#[test]
fn unary_operators_and_conversions(rt: HostRuntime) -> Result<(), Fail> {
    assert_eq!(rt; first_wrong(rt.alloc(), &UNARY)?, None);
    Ok(())
}
