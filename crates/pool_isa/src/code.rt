// The codes of instructions, and of the types, widths and operators in them.

ghost use Rattle.std.specs.Prelude.{◌≡◌, ◌<◌};
ghost use Rattle.pool_isa.specs.Code.{type_code, width_code, operator_code, relation_code};
ghost use Rattle.pool_isa.specs.Instr.{code_of, operand_of};

use crate::instr::{Instr, Width};
use c_num::{BinOp, IntType, Relation};

/// What follows the code of an instruction.
#[derive(Clone, Copy, Debug, PartialEq, Eq)]
pub(crate) enum Operand {
    Nothing,
    Number(u64),
    Typed(IntType),
}

/// The byte of an integer type.
pub(crate) fn type_byte(int_type: IntType) -> u8
    ensures code { result ≡ type_code int_type }
    ensures small { result < 8 }
{
    match int_type {
        IntType::Char => 0,
        IntType::UChar => 1,
        IntType::Short => 2,
        IntType::UShort => 3,
        IntType::Int => 4,
        IntType::UInt => 5,
        IntType::Long => 6,
        IntType::ULong => 7,
    }
}

fn width_byte(width: Width) -> u8
    ensures code { result ≡ width_code width }
    ensures small { result < 4 }
{
    match width {
        Width::One => 0,
        Width::Two => 1,
        Width::Four => 2,
        Width::Eight => 3,
    }
}

fn operator_byte(operator: BinOp) -> u8
    ensures code { result ≡ operator_code operator }
    ensures small { result < 10 }
{
    match operator {
        BinOp::Add => 0,
        BinOp::Sub => 1,
        BinOp::Mul => 2,
        BinOp::Div => 3,
        BinOp::Rem => 4,
        BinOp::Shl => 5,
        BinOp::Shr => 6,
        BinOp::And => 7,
        BinOp::Or => 8,
        BinOp::Xor => 9,
    }
}

fn relation_byte(relation: Relation) -> u8
    ensures code { result ≡ relation_code relation }
    ensures small { result < 6 }
{
    match relation {
        Relation::Eq => 0,
        Relation::Ne => 1,
        Relation::Lt => 2,
        Relation::Le => 3,
        Relation::Gt => 4,
        Relation::Ge => 5,
    }
}

impl Instr {
    /// The first byte of the spelling.
    pub(crate) fn code(self) -> u8
        ensures { result ≡ code_of self }
    {
        match self {
            Instr::Constant(_) => 0x01,
            Instr::Discard => 0x02,
            Instr::Duplicate => 0x03,
            Instr::Swap => 0x04,
            Instr::Local(_) => 0x05,
            Instr::Load(int_type) => 0x10 + type_byte(int_type),
            Instr::Store(width) => 0x18 + width_byte(width),
            Instr::LoadLink => 0x1C,
            Instr::StoreLink => 0x1D,
            Instr::Jump(_) => 0x20,
            Instr::JumpIfZero(_) => 0x21,
            Instr::JumpIfNotZero(_) => 0x22,
            Instr::Call(_) => 0x23,
            Instr::CallIndirect(_) => 0x24,
            Instr::Return => 0x25,
            Instr::ReturnValue => 0x26,
            Instr::Exit => 0x27,
            Instr::Trap => 0x28,
            Instr::Binary(operator, _) => 0x30 + operator_byte(operator),
            Instr::Negate(_) => 0x3A,
            Instr::Complement(_) => 0x3B,
            Instr::Compare(relation, _) => 0x3C + relation_byte(relation),
            Instr::Convert(_) => 0x42,
            Instr::PoolInit(_) => 0x50,
            Instr::PoolDestroy => 0x51,
            Instr::PoolAlloc => 0x52,
            Instr::PoolFree => 0x53,
            Instr::GetChar => 0x60,
            Instr::PutChar => 0x61,
        }
    }

    /// What follows the code.
    pub(crate) fn operand(self) -> Operand
        ensures { result ≡ operand_of self }
    {
        match self {
            Instr::Constant(number)
            | Instr::Local(number)
            | Instr::Jump(number)
            | Instr::JumpIfZero(number)
            | Instr::JumpIfNotZero(number)
            | Instr::Call(number)
            | Instr::CallIndirect(number)
            | Instr::PoolInit(number) => Operand::Number(number),
            Instr::Binary(_, int_type)
            | Instr::Negate(int_type)
            | Instr::Complement(int_type)
            | Instr::Compare(_, int_type)
            | Instr::Convert(int_type) => Operand::Typed(int_type),
            _ => Operand::Nothing,
        }
    }
}
