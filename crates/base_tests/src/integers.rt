//! The operators against tables from outside: `outside/digests.py` of `c_num` made the digests, a C compiler the common types.

use c_num::IntType::{self, Char, Int, Long, Short, UChar, UInt, ULong, UShort};
use c_num::{
    ArithUb, BinOp, Relation, binary, common, compare, complement, convert, negate, promote,
    value_of_word, word, wrap_binary, wrap_negate,
};

/// What each operator gives on all 8-bit operands, of `char` and of `unsigned char`.
const EIGHT_BITS: [(BinOp, u64, u64); 10] = [
    (BinOp::Add, 0x4f9b0b5123d897a5, 0x7389d6818fd22b25),
    (BinOp::Sub, 0xae712df006049fa5, 0x8dfc274eaf75d325),
    (BinOp::Mul, 0x2821b18743d25bfc, 0x8ba3a848f1766b25),
    (BinOp::Div, 0x53c0e8459922bd22, 0x010ae4c44a043209),
    (BinOp::Rem, 0xb52b9535a847d7d4, 0x47d2682c2dcdad51),
    (BinOp::Shl, 0x21a255511d6c3a28, 0x860107ec811cff25),
    (BinOp::Shr, 0xe440f0e1f7c6a3a5, 0x4f6f88a44b0ff605),
    (BinOp::And, 0x3aac0b543f5f6825, 0x7a5234f8dc725c25),
    (BinOp::Or, 0x51c1521c7d58a825, 0xaa8b257b228b9c25),
    (BinOp::Xor, 0x4ac9cb4a2d48a325, 0x1af7362163bf0325),
];

/// What the operators give on pairs of corners at each type, and the two shifts of corners by amounts.
const AT_CORNERS: [(IntType, u64, u64, u64); 8] = [
    (
        Char,
        0x14bf980a41dec5b8,
        0x0484a4c543e43276,
        0x4f85f2808df62a35,
    ),
    (
        UChar,
        0xbc2bc36c4af76969,
        0x634931dd648db995,
        0x31a51bdb709dd611,
    ),
    (
        Short,
        0xbbb8893b580d6474,
        0x09189b7de43a0df7,
        0x8431f47d738ebf53,
    ),
    (
        UShort,
        0x4eff1c46cd1e7123,
        0x8131e19c1e1130cd,
        0x70b1197928252a43,
    ),
    (
        Int,
        0x30efb0a3876ac7f1,
        0xf79dbfdb8d22a16a,
        0x7930834db115b92d,
    ),
    (
        UInt,
        0x3897620b55134007,
        0xee19461b195db855,
        0x29533427b7590a11,
    ),
    (
        Long,
        0x5856c1869fb62710,
        0x2cbfceb2e14de931,
        0xe93624e8304e0491,
    ),
    (
        ULong,
        0xf4b4b432220a6d4d,
        0x81115e1f045cfded,
        0x1282eb4cdd95e8f9,
    ),
];

/// The types in their order.
const TYPES: [IntType; 8] = [Char, UChar, Short, UShort, Int, UInt, Long, ULong];

/// The type of `+a` and of `a + b` for each pair, as a C compiler with these widths has them.
const COMMON: [(IntType, IntType, [IntType; 8]); 8] = [
    (Char, Int, [Int, Int, Int, Int, Int, UInt, Long, ULong]),
    (UChar, Int, [Int, Int, Int, Int, Int, UInt, Long, ULong]),
    (Short, Int, [Int, Int, Int, Int, Int, UInt, Long, ULong]),
    (UShort, Int, [Int, Int, Int, Int, Int, UInt, Long, ULong]),
    (Int, Int, [Int, Int, Int, Int, Int, UInt, Long, ULong]),
    (
        UInt,
        UInt,
        [UInt, UInt, UInt, UInt, UInt, UInt, Long, ULong],
    ),
    (
        Long,
        Long,
        [Long, Long, Long, Long, Long, Long, Long, ULong],
    ),
    (
        ULong,
        ULong,
        [ULong, ULong, ULong, ULong, ULong, ULong, ULong, ULong],
    ),
];

/// Values at the ends of each width.
const CORNERS: [i128; 24] = [
    0x0,
    0x1,
    0x2,
    0x3,
    0x7f,
    0x80,
    0x81,
    0xfe,
    0xff,
    0x7fff,
    0x8000,
    0x8001,
    0xfffe,
    0xffff,
    0x7fffffff,
    0x80000000,
    0x80000001,
    0xfffffffe,
    0xffffffff,
    0x7fffffffffffffff,
    0x8000000000000000,
    0x8000000000000001,
    0xfffffffffffffffe,
    0xffffffffffffffff,
];

/// Shifts by these.
const AMOUNTS: [i128; 15] = [
    -1,
    0,
    1,
    7,
    8,
    15,
    16,
    31,
    32,
    63,
    64,
    65,
    0x1_0000_0000_0000_0000,
    0x1_0000_0000_0000_0001,
    -0x10_0000_0000_0000_0000_0000_0000,
];

/// A call on one value of a type.
#[derive(Clone, Copy)]
enum Unary {
    Negate,
    WrapNegate,
    Complement,
    Word,
    ValueOfWord,
}

const UNARY: [(Unary, IntType, i128, Result<i128, ArithUb>); 9] = [
    (Unary::Negate, Int, 5, Ok(-5)),
    (Unary::Negate, Int, -0x8000_0000, Err(ArithUb::Overflow)),
    (Unary::Negate, UInt, 1, Ok(0xffff_ffff)),
    (Unary::WrapNegate, Int, -0x8000_0000, Ok(-0x8000_0000)),
    (Unary::Complement, Int, 0, Ok(-1)),
    (Unary::Complement, UShort, 1, Ok(0xfffe)),
    (Unary::Word, Int, -1, Ok(0xffff_ffff_ffff_ffff)),
    (Unary::Word, UInt, -1, Ok(0xffff_ffff)),
    (Unary::ValueOfWord, Int, 0x1_ffff_ffff, Ok(-1)),
];

const RELATIONS: [(Relation, i128, i128, bool); 6] = [
    (Relation::Lt, -1, 0, true),
    (Relation::Ge, 2, 2, true),
    (Relation::Ne, 1, 2, true),
    (Relation::Gt, -1, 0, false),
    (Relation::Le, 3, 2, false),
    (Relation::Eq, 1, 2, false),
];

const EMPTY: u64 = 0xcbf2_9ce4_8422_2325;

/// FNV-1a, by words in place of bytes.
fn mix(digest: u64, word: u64) -> u64 {
    (digest ^ word).wrapping_mul(0x100_0000_01b3)
}

fn mix_value(digest: u64, value: i128) -> u64 {
    mix(digest, word(value, ULong))
}

fn mix_outcome(digest: u64, outcome: Result<i128, ArithUb>) -> u64 {
    match outcome {
        Ok(value) => mix_value(mix(digest, 0), value),
        Err(ArithUb::Overflow) => mix(digest, 1),
        Err(ArithUb::DivideByZero) => mix(digest, 2),
        Err(ArithUb::BadShift) => mix(digest, 3),
    }
}

fn mix_answers(digest: u64, op: BinOp, t: IntType, a: i128, b: i128) -> u64 {
    let outcome = binary(op, t, convert(a, t), convert(b, t));
    mix_value(mix_outcome(digest, outcome), wrap_binary(op, t, a, b))
}

fn eight_bits(op: BinOp, t: IntType) -> u64 {
    let mut digest = EMPTY;
    for a in 0..=u8::MAX {
        for b in 0..=u8::MAX {
            digest = mix_answers(digest, op, t, a as i128, b as i128);
        }
    }
    digest
}

fn at_corners(op: BinOp, t: IntType) -> u64 {
    let mut digest = EMPTY;
    for a in CORNERS {
        for b in CORNERS {
            digest = mix_answers(digest, op, t, a, b);
        }
    }
    digest
}

/// `a` shifted by any amount, to the right by `Shr`.
fn shifted(shift: BinOp, t: IntType, a: i128, b: i128) -> Result<i128, ArithUb> {
    match shift {
        BinOp::Shr => binary(BinOp::Shr, t, convert(a, t), b),
        _ => binary(BinOp::Shl, t, convert(a, t), b),
    }
}

fn by_amounts(shift: BinOp, t: IntType) -> u64 {
    let mut digest = EMPTY;
    for a in CORNERS {
        for b in AMOUNTS {
            let outcome = mix_outcome(digest, shifted(shift, t, a, b));
            digest = mix_value(outcome, wrap_binary(shift, t, a, b));
        }
    }
    digest
}

/// The digest of all operators' digests on pairs of corners, and those of the two shifts by amounts.
fn corners(t: IntType) -> (u64, u64, u64) {
    let mut digest = EMPTY;
    for (op, _, _) in EIGHT_BITS {
        digest = mix(digest, at_corners(op, t));
    }
    (digest, by_amounts(BinOp::Shl, t), by_amounts(BinOp::Shr, t))
}

/// What a call gives on one value of a type.
fn outcome(call: Unary, t: IntType, a: i128) -> Result<i128, ArithUb> {
    match call {
        Unary::Negate => negate(t, convert(a, t)),
        Unary::WrapNegate => Ok(wrap_negate(t, a)),
        Unary::Complement => Ok(complement(t, a)),
        Unary::Word => Ok(word(a, t) as i128),
        Unary::ValueOfWord => Ok(value_of_word(word(a, ULong), t)),
    }
}

#[test]
fn all_eight_bit_operands(rt: HostRuntime) {
    for (op, char, unsigned_char) in EIGHT_BITS {
        let found = (eight_bits(op, Char), eight_bits(op, UChar));
        assert_eq!(rt; found, (char, unsigned_char), "{op:?}");
    }
}

#[test]
fn corners_of_each_width(rt: HostRuntime) {
    for (t, operators, left, right) in AT_CORNERS {
        assert_eq!(rt; corners(t), (operators, left, right), "{t:?}");
    }
}

#[test]
fn common_types(rt: HostRuntime) {
    for (a, promoted, row) in COMMON {
        let found = (promote(a), TYPES.map(|b| common(a, b)));
        assert_eq!(rt; found, (promoted, row), "{a:?}");
    }
}

#[test]
fn unary_operators_and_words(rt: HostRuntime) {
    for (row, (call, t, a, expected)) in UNARY.into_iter().enumerate() {
        assert_eq!(rt; outcome(call, t, a), expected, "row {row}");
    }
}

#[test]
fn relations(rt: HostRuntime) {
    for (relation, a, b, expected) in RELATIONS {
        assert_eq!(rt; compare(relation, a, b), expected, "{relation:?}");
    }
}
