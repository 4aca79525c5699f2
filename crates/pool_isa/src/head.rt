// What the first byte of an instruction says.

ghost use Rattle.std.specs.Prelude.{◌≡◌, ◌≢◌, IfSome, IfNone};
ghost use Rattle.c_num.specs.declared.BinOp.{BinOp as ABinOp};
ghost use Rattle.c_num.specs.declared.IntType.{IntType as AnIntType};
ghost use Rattle.c_num.specs.declared.Relation.{Relation as ARelation};
ghost use Rattle.pool_isa.specs.declared.instr.Instr.{Instr as AnInstr};
ghost use Rattle.pool_isa.specs.declared.instr.Width.{Width as AWidth};
ghost use Rattle.pool_isa.specs.Code.{type_code, width_code, operator_code, relation_code};
ghost use Rattle.pool_isa.specs.Instr.{code_of};
ghost use Rattle.pool_isa.specs.Head.{with_number, with_type, HasCode};

use crate::instr::{Instr, Width};
use c_num::{BinOp, IntType, Relation};

/// What an instruction's code says of the bytes behind it.
#[derive(Clone, Copy, Debug, PartialEq, Eq)]
pub(crate) enum Head {
    /// The code is the whole instruction.
    Alone(Instr),
    /// A number follows.
    Numbered(NumberForm),
    /// The byte of an integer type follows.
    Typed(TypeForm),
}

/// An instruction without its number.
#[derive(Clone, Copy, Debug, PartialEq, Eq)]
pub(crate) enum NumberForm {
    Constant,
    Local,
    Jump,
    JumpIfZero,
    JumpIfNotZero,
    Call,
    CallIndirect,
    PoolInit,
}

/// An instruction without its integer type.
#[derive(Clone, Copy, Debug, PartialEq, Eq)]
pub(crate) enum TypeForm {
    Binary(BinOp),
    Negate,
    Complement,
    Compare(Relation),
    Convert,
}

impl NumberForm {
    /// The instruction with this number.
    pub(crate) fn with(self, number: u64) -> Instr
        ensures { result ≡ with_number self number }
    {
        match self {
            NumberForm::Constant => Instr::Constant(number),
            NumberForm::Local => Instr::Local(number),
            NumberForm::Jump => Instr::Jump(number),
            NumberForm::JumpIfZero => Instr::JumpIfZero(number),
            NumberForm::JumpIfNotZero => Instr::JumpIfNotZero(number),
            NumberForm::Call => Instr::Call(number),
            NumberForm::CallIndirect => Instr::CallIndirect(number),
            NumberForm::PoolInit => Instr::PoolInit(number),
        }
    }
}

impl TypeForm {
    /// The instruction at this type.
    pub(crate) fn with(self, int_type: IntType) -> Instr
        ensures { result ≡ with_type self int_type }
    {
        match self {
            TypeForm::Binary(operator) => Instr::Binary(operator, int_type),
            TypeForm::Negate => Instr::Negate(int_type),
            TypeForm::Complement => Instr::Complement(int_type),
            TypeForm::Compare(relation) => Instr::Compare(relation, int_type),
            TypeForm::Convert => Instr::Convert(int_type),
        }
    }
}

/// The type whose byte this is.
pub(crate) fn type_of(byte: u8) -> Option<IntType>
    ensures known { IfSome result (λ t. type_code t ≡ byte) }
    ensures unknown { IfNone result ((t : AnIntType) → type_code t ≢ byte) }
{
    Some(match byte {
        0 => IntType::Char,
        1 => IntType::UChar,
        2 => IntType::Short,
        3 => IntType::UShort,
        4 => IntType::Int,
        5 => IntType::UInt,
        6 => IntType::Long,
        7 => IntType::ULong,
        _ => return None,
    })
}

fn width_of(byte: u8) -> Option<Width>
    ensures known { IfSome result (λ w. width_code w ≡ byte) }
    ensures unknown { IfNone result ((w : AWidth) → width_code w ≢ byte) }
{
    Some(match byte {
        0 => Width::One,
        1 => Width::Two,
        2 => Width::Four,
        3 => Width::Eight,
        _ => return None,
    })
}

fn operator_of(byte: u8) -> Option<BinOp>
    ensures known { IfSome result (λ o. operator_code o ≡ byte) }
    ensures unknown { IfNone result ((o : ABinOp) → operator_code o ≢ byte) }
{
    Some(match byte {
        0 => BinOp::Add,
        1 => BinOp::Sub,
        2 => BinOp::Mul,
        3 => BinOp::Div,
        4 => BinOp::Rem,
        5 => BinOp::Shl,
        6 => BinOp::Shr,
        7 => BinOp::And,
        8 => BinOp::Or,
        9 => BinOp::Xor,
        _ => return None,
    })
}

fn relation_of(byte: u8) -> Option<Relation>
    ensures known { IfSome result (λ r. relation_code r ≡ byte) }
    ensures unknown { IfNone result ((r : ARelation) → relation_code r ≢ byte) }
{
    Some(match byte {
        0 => Relation::Eq,
        1 => Relation::Ne,
        2 => Relation::Lt,
        3 => Relation::Le,
        4 => Relation::Gt,
        5 => Relation::Ge,
        _ => return None,
    })
}

/// The head that a code stands for, if an instruction begins with it.
pub(crate) fn head_of(code: u8) -> Option<Head>
    ensures known { IfSome result (λ h. HasCode h code) }
    ensures unknown { IfNone result ((i : AnInstr) → code_of i ≢ code) }
{
    Some(match code {
        0x01 => Head::Numbered(NumberForm::Constant),
        0x02 => Head::Alone(Instr::Discard),
        0x03 => Head::Alone(Instr::Duplicate),
        0x04 => Head::Alone(Instr::Swap),
        0x05 => Head::Numbered(NumberForm::Local),
        0x10..=0x17 => Head::Alone(Instr::Load(type_of(code - 0x10)?)),
        0x18..=0x1B => Head::Alone(Instr::Store(width_of(code - 0x18)?)),
        0x1C => Head::Alone(Instr::LoadLink),
        0x1D => Head::Alone(Instr::StoreLink),
        0x20 => Head::Numbered(NumberForm::Jump),
        0x21 => Head::Numbered(NumberForm::JumpIfZero),
        0x22 => Head::Numbered(NumberForm::JumpIfNotZero),
        0x23 => Head::Numbered(NumberForm::Call),
        0x24 => Head::Numbered(NumberForm::CallIndirect),
        0x25 => Head::Alone(Instr::Return),
        0x26 => Head::Alone(Instr::ReturnValue),
        0x27 => Head::Alone(Instr::Exit),
        0x28 => Head::Alone(Instr::Trap),
        0x30..=0x39 => Head::Typed(TypeForm::Binary(operator_of(code - 0x30)?)),
        0x3A => Head::Typed(TypeForm::Negate),
        0x3B => Head::Typed(TypeForm::Complement),
        0x3C..=0x41 => Head::Typed(TypeForm::Compare(relation_of(code - 0x3C)?)),
        0x42 => Head::Typed(TypeForm::Convert),
        0x50 => Head::Numbered(NumberForm::PoolInit),
        0x51 => Head::Alone(Instr::PoolDestroy),
        0x52 => Head::Alone(Instr::PoolAlloc),
        0x53 => Head::Alone(Instr::PoolFree),
        0x60 => Head::Alone(Instr::GetChar),
        0x61 => Head::Alone(Instr::PutChar),
        _ => return None,
    })
}
