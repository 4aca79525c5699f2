// Instructions from bytes.

ghost use Rattle.std.specs.Prelude.{◌≡◌, ℕ, ◌+◌, ◌<◌, ◌≤◌, List, ◌∷◌, ◌++◌, length, drop, Ok, IfOk, IfErr};
ghost use Rattle.pool_isa.specs.Spelling.{StandsAt, IsFault, IsFaultAt};
ghost use Rattle.pool_isa.specs.Code.{type_code, IsTypeSpelling};
ghost use Rattle.pool_isa.specs.Instr.{spelling, Fits, IsInstrSpelling};
ghost use Rattle.pool_isa.specs.declared.instr.Instr.{Instr as AnInstr};

use crate::head::{Head, head_of, type_of};
use crate::instr::Instr;
use crate::number::number_front;
use c_num::IntType;
use thiserror::Error;

/// No instruction is spelled here.
#[derive(Clone, Copy, Debug, PartialEq, Eq, Error)]
#[error("no instruction: the byte at {0} is wrong or missing")]
pub struct BadInstr(pub usize);

// Gives the type at the front with what follows it, or how many bytes are good.
fn type_front(bytes: &[u8]) -> Result<(IntType, &[u8]), usize>
    ensures parts { IfOk result (λ r. bytes.now ≡ type_code r.0 ∷ r.1.now) }
    ensures fault { IfErr result (λ good. IsFault IsTypeSpelling bytes.now good) }
{
    let [byte, rest @ ..] = bytes else {
        return Err(0);
    };
    match type_of(*byte) {
        Some(int_type) => Ok((int_type, rest)),
        None => Err(0),
    }
}

// Gives the instruction at the front with what follows it, or how many bytes are good.
fn instr_front(bytes: &[u8]) -> Result<(Instr, &[u8]), usize>
    ensures parts { IfOk result (λ r. bytes.now ≡ spelling r.0 ++ r.1.now) }
    ensures fits { IfOk result (λ r. Fits r.0) }
    ensures fault { IfErr result (λ good. IsFault IsInstrSpelling bytes.now good) }
{
    let [code, rest @ ..] = bytes else {
        return Err(0);
    };
    match head_of(*code) {
        None => Err(0),
        Some(Head::Alone(instr)) => Ok((instr, rest)),
        Some(Head::Numbered(form)) => match number_front(rest) {
            Ok((number, rest)) => Ok((form.with(number), rest)),
            Err(good) => Err(good + 1),
        },
        Some(Head::Typed(form)) => match type_front(rest) {
            Ok((int_type, rest)) => Ok((form.with(int_type), rest)),
            Err(good) => Err(good + 1),
        },
    }
}

/// Reads the instruction at a place, and the place after it.
pub fn decode_one(bytes: &[u8], at: usize) -> Result<(Instr, usize), BadInstr>
    requires { at ≤ length bytes.now }
    // What is found stands there.
    ensures found { IfOk result (λ r. StandsAt bytes.now at r.1 (spelling r.0)) }
    ensures fits { IfOk result (λ r. Fits r.0) }
    ensures later { IfOk result (λ r. at < r.1) }
    // What stands there is found.
    ensures only { (i : AnInstr) (rest : List ℕ) → Fits i → drop at bytes.now ≡ spelling i ++ rest
        → result ≡ Ok (i, at + length (spelling i)) }
    // The place is that of the first byte with which no instruction begins, or the end.
    ensures fault { IfErr result (λ bad. IsFaultAt IsInstrSpelling bytes.now at bad.0) }
{
    match instr_front(&bytes[at..]) {
        Ok((instr, rest)) => Ok((instr, bytes.len() - rest.len())),
        Err(good) => Err(BadInstr(at + good)),
    }
}
