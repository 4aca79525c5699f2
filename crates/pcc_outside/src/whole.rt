//! Whole outputs and whole files, over calls that may take or give a part at a time.

ghost use Rattle.std.specs.Prelude.{◌≡◌, ℕ, ◌^◌, ◌<◌, ◌≤◌, List, vec_len, IfOk, OnOk, OnErr, IsErrOf};
ghost use Rattle.pcc_outside.specs.Outside.{Rose, Adds, AddsPart, IsWhole, IsLonger};

use crate::{Failed, Files, Sink};
use std::alloc::{AllocError, Global};
use thiserror::Error;

/// Why a whole file was not read.
#[derive(Clone, Copy, Debug, PartialEq, Eq, Error)]
pub enum ReadErr {
    #[error("a read failed")]
    Failed,
    #[error("the file is too long")]
    TooLong,
    #[error("out of memory")]
    OutOfMemory,
}

impl From<Failed> for ReadErr {
    ghost use Rattle.pcc_outside.specs.declared.whole.ReadErr.TheVariants as E;

    ghost from_gives = { λ _ e. e ≡ E.Failed };

    fn from(_error: Failed) -> ReadErr {
        ReadErr::Failed
    }
}

impl From<AllocError> for ReadErr {
    ghost use Rattle.pcc_outside.specs.declared.whole.ReadErr.TheVariants as E;

    ghost from_gives = { λ _ e. e ≡ E.OutOfMemory };

    fn from(_error: AllocError) -> ReadErr {
        ReadErr::OutOfMemory
    }
}

/// Writes all of `bytes`, in as many calls as it takes.
pub fn write_all<S: Sink>(sink: &mut S, bytes: &[u8]) -> Result<(), Failed>
    ensures all { OnOk result (Adds (S.written sink.old) bytes.now (S.written sink.new)) }
    ensures part { OnErr result (AddsPart (S.written sink.old) bytes.now (S.written sink.new)) }
    ensures fault { OnErr result (Rose (S.faults sink.old) (S.faults sink.new)) }
    ensures faultless { OnOk result (S.faults sink.new ≡ S.faults sink.old) }
    ensures counted { S.faults sink.old ≤ S.faults sink.new }
{
    let mut rest = bytes;
    while !rest.is_empty() {
        let n = sink.write(rest)?;
        rest = &rest[n..];
    }
    Ok(())
}

/// The most bytes that one call asks for.
const PIECE: usize = 64 * 1024;

/// Reads the whole file `name`, of at most `limit` bytes. It reads on at the limit to see whether the file ends there.
pub fn read_all<F: Files>(
    alloc: Global,
    files: &mut F,
    name: &str,
    limit: u64,
) -> Result<Vec<u8>, ReadErr>
    requires { limit ≤ 2 ^ 40 }
    ensures whole { IfOk result (λ v. IsWhole (F.contents files.old name.now) v.items) }
    ensures fits { IfOk result (λ v. vec_len v ≤ limit) }
    ensures longer { IsErrOf result ReadErr.TooLong → IsLonger (F.contents files.old name.now) limit }
    ensures beyond { IsErrOf result ReadErr.TooLong → limit < F.reach files.new name.now }
    ensures fault { IsErrOf result ReadErr.Failed → Rose (F.faults files.old name.now) (F.faults files.new name.now) }
    // After any other answer no call has failed: want of memory, too, is told of only where none has.
    ensures faultless { OnOk result ((other : List ℕ) → F.faults files.new other ≡ F.faults files.old other) }
    ensures long_cause { IsErrOf result ReadErr.TooLong → (other : List ℕ) → F.faults files.new other ≡ F.faults files.old other }
    ensures memory_cause { IsErrOf result ReadErr.OutOfMemory → (other : List ℕ) → F.faults files.new other ≡ F.faults files.old other }
    ensures counted { (other : List ℕ) → F.faults files.old other ≤ F.faults files.new other }
    ensures kept { (other : List ℕ) → F.contents files.new other ≡ F.contents files.old other }
{
    let mut bytes = Vec::new(alloc);
    let mut buf = vec![in alloc; 0u8; PIECE]?;
    loop {
        let at = bytes.len() as u64;
        let n = files.read_at(name, at, &mut buf)?;
        if n == 0 {
            return Ok(bytes);
        }
        if n as u64 > limit - at {
            return Err(ReadErr::TooLong);
        }
        bytes.extend_from_slice(&buf[..n])?;
    }
}
