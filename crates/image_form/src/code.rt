// The instructions of a function.

ghost use Rattle.std.specs.Prelude.{◌≡◌, ℕ, ◌≤◌, length, IfSome, IfNone};
ghost use Rattle.std.specs.Bool.{MatchBool};
ghost use Rattle.pool_isa.specs.declared.instr.Instr.{Instr as AnInstr};
ghost use Rattle.pool_isa.specs.Instr.{code_of, spelling};
ghost use Rattle.image_form.specs.Reading.{IsDecoded, refer, range_of, NamesNothing, EndsWell, IsInstr, IsCode, instrs_of, code_bytes};

use crate::image::ImageErr;
use crate::number::number_within;
use pool_isa::{BadInstr, Instr, decode_one};
use std::alloc::Global;

/// How many there are of what an instruction names by a number.
#[derive(Clone, Copy)]
pub(crate) struct Counts {
    /// The kinds of pools of the image.
    pub kinds: u64,
    /// Its functions.
    pub functions: u64,
    /// The instructions of the function.
    pub instrs: u64,
}

// An instruction that names something of its image by a number, without that number.
#[derive(Clone, Copy)]
enum Reference {
    Jump,
    JumpIfZero,
    JumpIfNotZero,
    Call,
    PoolInit,
}

impl Reference {
    // The one with this code.
    fn of(code: u8) -> Option<Reference>
        ensures known { IfSome result (λ reference. (n : ℕ) → code_of (refer reference n) ≡ code) }
        ensures unknown { IfNone result ((i : AnInstr) → code_of i ≡ code → NamesNothing i) }
    {
        match code {
            0x20 => Some(Reference::Jump),
            0x21 => Some(Reference::JumpIfZero),
            0x22 => Some(Reference::JumpIfNotZero),
            0x23 => Some(Reference::Call),
            0x50 => Some(Reference::PoolInit),
            _ => None,
        }
    }

    fn with(self, number: u64) -> Instr
        ensures { result ≡ refer self number }
    {
        match self {
            Reference::Jump => Instr::Jump(number),
            Reference::JumpIfZero => Instr::JumpIfZero(number),
            Reference::JumpIfNotZero => Instr::JumpIfNotZero(number),
            Reference::Call => Instr::Call(number),
            Reference::PoolInit => Instr::PoolInit(number),
        }
    }

    // How many numbers there are for it.
    fn range(self, counts: Counts) -> u64
        ensures { result ≡ range_of counts self }
    {
        match self {
            Reference::Jump | Reference::JumpIfZero | Reference::JumpIfNotZero => counts.instrs,
            Reference::Call => counts.functions,
            Reference::PoolInit => counts.kinds,
        }
    }
}

// Whether the instructions with this code may stand there: at the end of a function control doesn't fall through them.
fn may_stand(code: u8, at_end: bool) -> bool
    ensures { MatchBool result ((i : AnInstr) → code_of i ≡ code → EndsWell at_end i) ((i : AnInstr) → code_of i ≡ code → EndsWell at_end i → ⊥) }
{
    !at_end || matches!(code, 0x20 | 0x25 | 0x26 | 0x27 | 0x28)
}

// The instruction at a place. At the end of a function it is one that control doesn't fall through.
fn instr(bytes: &[u8], at: usize, counts: Counts, at_end: bool) -> Result<(Instr, usize), ImageErr>
    requires { at ≤ length bytes.now }
    ensures { IsDecoded (IsInstr counts at_end) spelling (λ i. i) bytes.now at result }
{
    let Some(code) = bytes.get(at) else {
        return Err(ImageErr::Bad(at));
    };
    if !may_stand(*code, at_end) {
        return Err(ImageErr::Bad(at));
    }
    match Reference::of(*code) {
        Some(reference) => {
            let range = reference.range(counts);
            if range == 0 {
                return Err(ImageErr::Bad(at));
            }
            match number_within(bytes, at + 1, 0, range - 1) {
                Ok((number, end)) => Ok((reference.with(number), end)),
                Err(fault) => Err(fault),
            }
        }
        None => match decode_one(bytes, at) {
            Ok(found) => Ok(found),
            Err(BadInstr(place)) => Err(ImageErr::Bad(place)),
        },
    }
}

/// The instructions of a function, as many as it has.
pub(crate) fn code(
    alloc: Global,
    bytes: &[u8],
    at: usize,
    counts: Counts,
) -> Result<(Vec<Instr>, usize), ImageErr>
    requires { at ≤ length bytes.now }
    ensures { IsDecoded (IsCode counts) code_bytes instrs_of bytes.now at result }
{
    let mut code = Vec::new(alloc);
    let mut here = at;
    for index in 0..counts.instrs {
        let at_end = index + 1 == counts.instrs;
        let (next, end) = match instr(bytes, here, counts, at_end) {
            Ok(found) => found,
            Err(fault) => return Err(fault),
        };
        match code.push(next) {
            Ok(()) => here = end,
            Err(_) => return Err(ImageErr::OutOfMemory),
        }
    }
    Ok((code, here))
}
