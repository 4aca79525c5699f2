// What stands in the globals at first.

ghost use Rattle.std.specs.Prelude.{◌≡◌, ◌<◌, ◌≤◌, ◌+◌, ◌^◌, [], ◌∷◌, length, IfOk};
ghost use Rattle.byteorder.specs.Endian.{little_bytes};
ghost use Rattle.c_typed.specs.Layouts.{greatest};
ghost use Rattle.c_typed.specs.Table.{type_in};
ghost use Rattle.c_typed.specs.DefinitionViews as D;
ghost use Rattle.c_typed.specs.DefinitionViews.{LiteralsStand};
ghost use Rattle.tac_ir.specs.Views.{tac_of};
ghost use Rattle.pool_isa.specs.Machine.{spliced};
ghost use Rattle.pool_ir.specs.Memory.{slot_size};
ghost use Rattle.pool_rewrite.specs.Rewriting as R;
ghost use Rattle.pool_rewrite.specs.Placing.{statics_size};
ghost use Rattle.pool_rewrite.specs.Places.{AreStatics};
ghost use Rattle.pool_rewrite.specs.Firsts.{IsFirstProgram, GlobalsFit, FirstsFit, HeldFits, TextFits, LeafFits, with_word};

use crate::first::word_of;
use crate::names::Names;
use crate::parts::element_of_row;
use crate::statics::Statics;
use byteorder::{ByteOrder, LittleEndian};
use c_num::{IntType, convert, word};
use c_typed::{CType, First, Held, Part, Shape, TypeTable};
use std::alloc::{AllocError, Global};
use tac_ir::{GlobalId, LiteralId, Tac};

/// A variable outside functions: its type, and where it lies among the globals.
#[derive(Clone, Copy, Debug, PartialEq, Eq)]
pub(crate) struct Target {
    pub(crate) c_type: CType,
    pub(crate) start: u64,
}

/// The bytes of the globals, with first values.
pub(crate) fn first_contents(
    alloc: Global,
    tac: &Tac,
    statics: &Statics,
) -> Result<Vec<u8>, AllocError>
    requires literals { LiteralsStand tac.now.types tac.now.literals.items }
    requires small { statics_size (tac_of tac.now) < greatest }
    requires fit { GlobalsFit tac.now }
    requires few { length tac.now.functions.items < 2 ^ 47 }
    requires statics { AreStatics (tac_of tac.now) statics.now }
    ensures { IfOk result (λ made. made.items ≡ R.first_contents (tac_of tac.now)) }
{
    let names = Names::of_program(alloc, tac)?;
    let mut bytes = Vec::from_elem(alloc, 0, statics.size as usize)?;
    write_globals(tac, statics, &names, bytes.as_mut_slice());
    write_literals(tac, statics, bytes.as_mut_slice());
    Ok(bytes)
}

fn write_globals(tac: &Tac, statics: &Statics, names: &Names, bytes: &mut [u8])
    requires program { IsFirstProgram tac.now statics.now names.now }
    requires fit { GlobalsFit tac.now }
    requires long { length bytes.old ≡ statics_size (tac_of tac.now) }
    ensures { bytes.new ≡ R.with_globals (tac_of tac.now) 0 (tac_of tac.now).globals bytes.old }
{
    for number in 0..tac.globals.len() {
        let global = &tac.globals[number];
        let target = Target {
            c_type: global.c_type,
            start: statics.global(GlobalId(number)),
        };
        write_firsts(tac, statics, names, target, global.first.as_slice(), bytes);
    }
}

/// First values of a variable, the last of them first.
fn write_firsts(
    tac: &Tac,
    statics: &Statics,
    names: &Names,
    target: Target,
    firsts: &[First],
    bytes: &mut [u8],
)
    requires program { IsFirstProgram tac.now statics.now names.now }
    requires fit { FirstsFit tac.now target (length bytes.old) firsts.now }
    ensures { bytes.new ≡ R.with_first (tac_of tac.now) (type_in tac.now.types target.c_type) target.start (D.all_first firsts.now) bytes.old }
{
    let mut number = firsts.len();
    while number > 0 {
        number -= 1;
        match &firsts[number] {
            First::Scalar(held) => write_held(tac, statics, names, target, held, bytes),
            First::Text {
                parts,
                int_type,
                bytes: text,
            } => write_text(
                tac,
                target,
                parts.as_slice(),
                *int_type,
                text.as_slice(),
                bytes,
            ),
        }
    }
}

/// The first value of one scalar.
fn write_held(
    tac: &Tac,
    statics: &Statics,
    names: &Names,
    target: Target,
    held: &Held,
    bytes: &mut [u8],
)
    requires program { IsFirstProgram tac.now statics.now names.now }
    requires fits { HeldFits tac.now target (length bytes.old) held.now }
    ensures { bytes.new ≡ R.with_first (tac_of tac.now) (type_in tac.now.types target.c_type) target.start (D.held_of held.now ∷ []) bytes.old }
{
    let value = word_of(tac, statics, names, &held.value);
    write_scalar(
        &tac.types,
        target,
        held.parts.as_slice(),
        held.index,
        value,
        bytes,
    );
}

/// The bytes of a text as elements of a row, the last of them first.
fn write_text(
    tac: &Tac,
    target: Target,
    parts: &[Part],
    int_type: IntType,
    text: &[u8],
    bytes: &mut [u8],
)
    requires { TextFits tac.now target (length bytes.old) parts.now 0 text.now }
    ensures { bytes.new ≡ R.with_first (tac_of tac.now) (type_in tac.now.types target.c_type) target.start (D.characters_held parts.now int_type 0 text.now) bytes.old }
{
    let mut index = text.len();
    while index > 0 {
        index -= 1;
        let character = convert(i128::from(text[index]), int_type);
        let value = word(character, IntType::ULong);
        write_scalar(&tac.types, target, parts, index as u64, value, bytes);
    }
}

/// One scalar of a variable: an element of the row to which steps lead, where it is there.
fn write_scalar(
    types: &TypeTable,
    target: Target,
    parts: &[Part],
    index: u64,
    value: u64,
    bytes: &mut [u8],
)
    requires { LeafFits types.now target (length bytes.old) parts.now index }
    ensures { bytes.new ≡ with_word types.now target parts.now index value bytes.old }
{
    if let Some(element) = element_of_row(types, target.c_type, parts, index) {
        let size = scalar_size(types, element.c_type);
        write_word(bytes, (target.start + element.offset) as usize, size, value);
    }
}

/// The bytes of a scalar of a type.
fn scalar_size(types: &TypeTable, c_type: CType) -> usize
    ensures { result ≡ slot_size (R.slot_of (type_in types.now c_type)) }
{
    match types.shape(types.number_of(c_type)) {
        Shape::Integer(int_type) => (int_type.width() / 8) as usize,
        _ => 8,
    }
}

/// The lowest bytes of a word in the place of as many old ones, the lowest of them first.
fn write_word(bytes: &mut [u8], at: usize, size: usize, word: u64)
    requires small { size ≤ 8 }
    requires inside { at + size ≤ length bytes.old }
    ensures { bytes.new ≡ spliced bytes.old at (little_bytes size word) }
{
    let mut word_bytes = [0u8; 8];
    LittleEndian::write_u64(&mut word_bytes, word);
    bytes[at..at + size].copy_from_slice(&word_bytes[..size]);
}

fn write_literals(tac: &Tac, statics: &Statics, bytes: &mut [u8])
    requires small { statics_size (tac_of tac.now) < greatest }
    requires statics { AreStatics (tac_of tac.now) statics.now }
    requires long { length bytes.old ≡ statics_size (tac_of tac.now) }
    ensures { bytes.new ≡ R.with_literals (tac_of tac.now) 0 (tac_of tac.now).literals bytes.old }
{
    for number in 0..tac.literals.len() {
        let start = statics.literal(LiteralId(number)) as usize;
        write_bytes(bytes, start, tac.literals[number].bytes.as_slice());
    }
}

/// Bytes in the place of as many old ones.
fn write_bytes(bytes: &mut [u8], at: usize, text: &[u8])
    requires { at + length text.now ≤ length bytes.old }
    ensures { bytes.new ≡ spliced bytes.old at (R.character_bytes text.now) }
{
    bytes[at..at + text.len()].copy_from_slice(text);
}
