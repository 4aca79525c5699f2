//! The line of an answer on the error output.

ghost use Rattle.std.specs.Prelude.{◌≡◌, ◌≤◌, ◌∷◌, ◌++◌, [], codes, decimal};
ghost use Rattle.pcc_words.specs.Texts.{at_place, refusal_text, error_text};
ghost use Rattle.pcc_words.specs.Said.{Puts, Said, after_failed_line, line_of};

use crate::status::{Refusal, Status};
use itoa::Buffer;
use pcc_outside::{Failed, Sink, write_all};
use run_theory::Pos;

/// Writes the line of an answer, and says what the answer becomes: a line that can't be written makes it `WriteFault`,
/// unless it is `ReadFault` or `WriteFault` already.
pub fn say<E: Sink>(err: &mut E, status: Status) -> Status
    ensures said { Said status result
        (E.written err.old) (E.written err.new) (E.faults err.old) (E.faults err.new) }
    ensures counted { E.faults err.old ≤ E.faults err.new }
{
    match put_answer(err, status) {
        Ok(()) => status,
        Err(Failed) => unsaid(status),
    }
}

/// What an answer becomes whose line can't be written.
fn unsaid(status: Status) -> Status
    ensures { result ≡ after_failed_line status }
{
    match status {
        Status::ReadFault => Status::ReadFault,
        _ => Status::WriteFault,
    }
}

const USAGE: &str = "usage: poolcc build|run|exec|ref|graph|report FILE [options] or poolcc demo N";

/// Writes the line of an answer, if it has one.
fn put_answer<E: Sink>(err: &mut E, status: Status) -> Result<(), Failed>
    ensures puts { Puts result (error_text status)
        (E.written err.old) (E.written err.new) (E.faults err.old) (E.faults err.new) }
    ensures counted { E.faults err.old ≤ E.faults err.new }
{
    match status {
        Status::Done | Status::Program(_) => Ok(()),
        Status::Depth => put_line(err, &["call depth reached"]),
        Status::HeapExhausted => put_line(err, &["heap exhausted"]),
        Status::IndexExhausted => put_line(err, &["pool index exhausted"]),
        Status::StepsSpent => put_line(err, &["steps spent"]),
        Status::Trapped(kind) => put_line(err, &["trap ", kind.name()]),
        Status::Undefined(kind, place) => put_at_place(err, "undefined ", kind.name(), place),
        Status::Refused(refusal) => put_refusal(err, refusal),
        Status::BadImage(at) => put_number(err, "bad image at ", at),
        Status::SourceTooLong => put_line(err, &["source too long"]),
        Status::ImageTooLong => put_line(err, &["image too long"]),
        Status::Usage(_) => put_line(err, &[USAGE]),
        Status::ReadFault => put_line(err, &["read fault"]),
        Status::WriteFault => put_line(err, &["write fault"]),
        Status::OutOfMemory => put_line(err, &["out of memory"]),
    }
}

/// Writes the line of a refusal.
fn put_refusal<E: Sink>(err: &mut E, refusal: Refusal) -> Result<(), Failed>
    ensures puts { Puts result (codes "poolcc: refused " ++ refusal_text refusal ++ 10 ∷ [])
        (E.written err.old) (E.written err.new) (E.faults err.old) (E.faults err.new) }
    ensures counted { E.faults err.old ≤ E.faults err.new }
{
    match refusal {
        Refusal::Lex(kind, place) => put_at_place(err, "refused ", kind.name(), place),
        Refusal::Syntax(kind, place) => put_at_place(err, "refused ", kind.name(), place),
        Refusal::TypeRule(rule, place) => put_at_place(err, "refused ", rule.name(), place),
        Refusal::Limit(limit, count) => {
            let mut digits = Buffer::new();
            let count = digits.format(count);
            put_line(err, &["refused ", limit.name(), " count ", count])
        }
        Refusal::Graph(nodes) => put_number(err, "refused graph nodes ", nodes),
        Refusal::Pools(function, pools) => put_pools(err, function.as_slice(), pools),
    }
}

/// Writes the line of a function that has too many pools.
fn put_pools<E: Sink>(err: &mut E, function: &[u8], pools: u64) -> Result<(), Failed>
    ensures puts { Puts result (codes "poolcc: refused pools of " ++ (function.now ++ (32 ∷ (decimal pools ++ 10 ∷ []))))
        (E.written err.old) (E.written err.new) (E.faults err.old) (E.faults err.new) }
    ensures counted { E.faults err.old ≤ E.faults err.new }
{
    let mut digits = Buffer::new();
    let pools = digits.format(pools);
    write_all(err, b"poolcc: refused pools of ")?;
    write_all(err, function)?;
    put_pieces(err, &[" ", pools])
}

/// Writes a line of words that end in a space, and a number.
fn put_number<E: Sink>(err: &mut E, words: &str, number: u64) -> Result<(), Failed>
    ensures puts { Puts result (codes "poolcc: " ++ (words.now ++ (decimal number ++ 10 ∷ [])))
        (E.written err.old) (E.written err.new) (E.faults err.old) (E.faults err.new) }
    ensures counted { E.faults err.old ≤ E.faults err.new }
{
    let mut digits = Buffer::new();
    put_line(err, &[words, digits.format(number)])
}

/// Writes a line of a word that ends in a space, a name, and the place where it holds.
fn put_at_place<E: Sink>(err: &mut E, word: &str, name: &str, place: Pos) -> Result<(), Failed>
    ensures puts { Puts result (codes "poolcc: " ++ (word.now ++ (at_place name.now place ++ 10 ∷ [])))
        (E.written err.old) (E.written err.new) (E.faults err.old) (E.faults err.new) }
    ensures counted { E.faults err.old ≤ E.faults err.new }
{
    let mut line = Buffer::new();
    let mut column = Buffer::new();
    let line = line.format(place.line);
    let column = column.format(place.column);
    put_line(err, &[word, name, " at ", line, ":", column])
}

/// Writes a line of pieces, with the program's name in front and the newline behind.
fn put_line<E: Sink>(err: &mut E, pieces: &[&str]) -> Result<(), Failed>
    ensures puts { Puts result (codes "poolcc: " ++ line_of pieces.now)
        (E.written err.old) (E.written err.new) (E.faults err.old) (E.faults err.new) }
    ensures counted { E.faults err.old ≤ E.faults err.new }
{
    write_all(err, b"poolcc: ")?;
    put_pieces(err, pieces)
}

/// Writes pieces, and the newline behind.
fn put_pieces<E: Sink>(err: &mut E, pieces: &[&str]) -> Result<(), Failed>
    ensures puts { Puts result (line_of pieces.now)
        (E.written err.old) (E.written err.new) (E.faults err.old) (E.faults err.new) }
    ensures counted { E.faults err.old ≤ E.faults err.new }
{
    for piece in pieces {
        write_all(err, piece.as_bytes())?;
    }
    write_all(err, b"\n")
}
