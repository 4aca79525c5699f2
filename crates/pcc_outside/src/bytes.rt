//! One byte at a time.

ghost use Rattle.std.specs.Prelude.{◌≡◌, ◌≤◌, [], ◌∷◌, IfOk, OnOk, OnErr};
ghost use Rattle.pcc_outside.specs.Outside.{Rose, TakesByte, Adds};

use crate::{Failed, Sink, Source};

/// Reads the next byte; none at the end of the input.
pub fn read_byte<I: Source>(input: &mut I) -> Result<Option<u8>, Failed>
    ensures read { IfOk result (λ byte. TakesByte (I.left input.old) byte (I.left input.new)) }
    ensures unread { OnErr result (I.left input.new ≡ I.left input.old) }
    ensures fault { OnErr result (Rose (I.faults input.old) (I.faults input.new)) }
    ensures faultless { OnOk result (I.faults input.new ≡ I.faults input.old) }
    ensures counted { I.faults input.old ≤ I.faults input.new }
{
    let mut byte = [0u8; 1];
    match input.read(&mut byte) {
        Ok(0) => Ok(None),
        Ok(_) => Ok(Some(byte[0])),
        Err(failed) => Err(failed),
    }
}

/// Writes a byte.
pub fn write_byte<O: Sink>(out: &mut O, byte: u8) -> Result<(), Failed>
    ensures written { OnOk result (Adds (O.written out.old) (byte ∷ []) (O.written out.new)) }
    ensures unwritten { OnErr result (O.written out.new ≡ O.written out.old) }
    ensures fault { OnErr result (Rose (O.faults out.old) (O.faults out.new)) }
    ensures faultless { OnOk result (O.faults out.new ≡ O.faults out.old) }
    ensures counted { O.faults out.old ≤ O.faults out.new }
{
    match out.write(&[byte]) {
        Ok(_) => Ok(()),
        Err(failed) => Err(failed),
    }
}
