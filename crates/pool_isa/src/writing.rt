// Instructions as bytes.

ghost use Rattle.std.specs.Prelude.{◌≡◌, ◌++◌, length, take, IfOk, OnOk, OnErr};
ghost use Rattle.pool_isa.specs.Instr.{spelling};

use crate::code::{Operand, type_byte};
use crate::instr::Instr;
use crate::number::append_number;
use std::alloc::{AllocError, Global};

fn push_spelling(code: &mut Vec<u8>, instr: Instr) -> Result<(), AllocError>
    ensures ok { OnOk result (code.new.items ≡ code.old.items ++ spelling instr) }
    ensures kept { take (length code.old.items) code.new.items ≡ code.old.items }
{
    code.push(instr.code())?;
    match instr.operand() {
        Operand::Nothing => {}
        Operand::Number(number) => append_number(code, number)?,
        Operand::Typed(int_type) => code.push(type_byte(int_type))?,
    }
    Ok(())
}

/// Writes an instruction at the end.
pub fn append(code: &mut Vec<u8>, instr: Instr) -> Result<(), AllocError>
    ensures ok { OnOk result (code.new.items ≡ code.old.items ++ spelling instr) }
    ensures err { OnErr result (code.new.items ≡ code.old.items) }
{
    let start = code.len();
    let pushed = push_spelling(code, instr);
    if pushed.is_err() {
        code.truncate(start);
    }
    pushed
}

/// The one spelling of an instruction.
pub fn encode(alloc: Global, instr: Instr) -> Result<Vec<u8>, AllocError>
    ensures { IfOk result (λ v. v.items ≡ spelling instr) }
{
    let mut code = Vec::new(alloc);
    append(&mut code, instr)?;
    Ok(code)
}
