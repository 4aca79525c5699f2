// From a text to its image.

ghost use Rattle.std.specs.Prelude.{◌≡◌, ◌≤◌, ℕ, true, List, length, IfOk, IfErr};
ghost use Rattle.run_theory.specs.Places.{first_place};
ghost use Rattle.c_syntax.specs.Trees as whole;
ghost use Rattle.c_rules.specs.Elaborated as elaborated;
ghost use Rattle.c_typed.specs.DefinitionViews.{program_of as typed_program_of};
ghost use Rattle.c_grammar.specs.Leaves.{Leaf, leaves_of};
ghost use Rattle.c_lexer.specs.Tokens.{Divides};
ghost use Rattle.c_syntax.specs.Views.{program_tree};
ghost use Rattle.pool_isa.specs.Ranges.{IsWithin};
ghost use Rattle.image_form.specs.Form.{form_of, IsImage, ImageOf};
ghost use Rattle.poolcc.specs.Compiled.{ReadsAs, IsAccepted, IsCompilable, initial_values, Compiles};
ghost use Rattle.poolcc.specs.Exec.{source_limit};
ghost use Rattle.poolcc.specs.Lowered.{first_of, IsStanding};
ghost use Rattle.poolcc.specs.Refused.{IsStop, IsHalt, limit_named, stop_of};

use crate::compilation::{CompileErr, compile};
use c_grammar::Token;
use c_lexer::{LexErr, tokens};
use c_reader::{SyntaxErr, read};
use c_rules::Violation;
use c_syntax::Program;
use c_types::{Limit, LimitErr, Typed, check_limits};
use image_form::{Image, ImageErr, MachineLimits, from_bytes, to_bytes};
use pcc_words::{LexKind, LimitKind, Refusal, SyntaxKind};
use std::alloc::Global;

/// Why a text has no typed tree or image.
#[derive(Clone, Copy)]
pub enum Stop {
    Refused(Refusal),
    OutOfMemory,
}

// The tokens of a text.
fn divide(alloc: Global, text: &[u8]) -> Result<Vec<Token>, Stop>
    requires { length text.now ≤ source_limit }
    ensures found { IfOk result (λ v. Divides first_place text.now (leaves_of v.items)) }
    ensures only { IfOk result (λ v. (leaves : List Leaf) → Divides first_place text.now leaves → leaves_of v.items ≡ leaves) }
    ensures stop { IfErr result (IsStop text.now) }
{
    match tokens(alloc, text) {
        Ok(tokens) => Ok(tokens),
        Err(error) => Err(stop_of(error)),
    }
}

// What a text comes to for a fault of the lexer.
fn stop_of(error: LexErr) -> Stop
    ensures { result ≡ stop_of error }
{
    match error {
        LexErr::BadByte(place) => Stop::Refused(Refusal::Lex(LexKind::BadByte, place)),
        LexErr::BadLiteral(place) => Stop::Refused(Refusal::Lex(LexKind::BadLiteral, place)),
        LexErr::Unclosed(place) => Stop::Refused(Refusal::Lex(LexKind::Unclosed, place)),
        LexErr::BadDirective(place) => Stop::Refused(Refusal::Lex(LexKind::BadDirective, place)),
        LexErr::NameTooLong(place) => Stop::Refused(Refusal::Lex(LexKind::NameTooLong, place)),
        LexErr::OutOfMemory => Stop::OutOfMemory,
    }
}

/// The program that a text within the source limit reads as.
pub fn parse(alloc: Global, text: &[u8]) -> Result<Program, Stop>
    requires { length text.now ≤ source_limit }
    ensures found { IfOk result (λ program. ReadsAs text.now (program_tree program)) }
    ensures stop { IfErr result (IsStop text.now) }
{
    let tokens = match divide(alloc, text) {
        Ok(tokens) => tokens,
        Err(stop) => return Err(stop),
    };
    match read(alloc, &tokens) {
        Ok(program) => Ok(program),
        Err(SyntaxErr::At(place)) => Err(Stop::Refused(Refusal::Syntax(SyntaxKind::At, place))),
        Err(SyntaxErr::TooDeep(place)) => {
            Err(Stop::Refused(Refusal::Syntax(SyntaxKind::TooDeep, place)))
        }
        Err(SyntaxErr::OutOfMemory) => Err(Stop::OutOfMemory),
    }
}

/// The typed tree of a program that violates no type rule and exceeds no limit.
pub(crate) fn elaborate(alloc: Global, program: &Program) -> Result<Typed, Stop>
    ensures accepted { (text : List ℕ) → ReadsAs text (program_tree program.now) → IfOk result (λ typed. IsAccepted text (program_tree program.now)) }
    ensures typed { IfOk result (λ typed. typed_program_of typed.program ≡ elaborated.typed_of (program_tree program.now)) }
    ensures first { IfOk result (λ typed. first_of typed ≡ initial_values (program_tree program.now)) }
    ensures stands { IfOk result IsStanding }
    ensures stop { (text : List ℕ) → ReadsAs text (program_tree program.now) → IfErr result (IsStop text) }
{
    let typed = match c_types::check(alloc, program) {
        Ok(typed) => typed,
        Err(c_types::TypeErr::Rule(Violation { kind, place })) => {
            return Err(Stop::Refused(Refusal::TypeRule(kind, place)));
        }
        Err(c_types::TypeErr::OutOfMemory) => return Err(Stop::OutOfMemory),
    };
    match check_limits(&typed.program, typed.named.as_slice()) {
        Some(LimitErr { which, count }) => {
            Err(Stop::Refused(Refusal::Limit(limit_kind(which), count)))
        }
        None => Ok(typed),
    }
}

/// The typed tree that an accepted text within the source limit has.
pub fn typed_program(alloc: Global, text: &[u8]) -> Result<Typed, Stop>
    requires { length text.now ≤ source_limit }
    ensures found { IfOk result (λ typed.
        (program : whole.ProgramTree) × IsAccepted text.now program × (typed_program_of typed.program ≡ elaborated.typed_of program) × (first_of typed ≡ initial_values program)) }
    ensures compilable { IfOk result (λ typed. IsCompilable (typed_program_of typed.program)) }
    ensures stands { IfOk result IsStanding }
    ensures stop { IfErr result (IsStop text.now) }
{
    let program = match parse(alloc, text) {
        Ok(program) => program,
        Err(stop) => return Err(stop),
    };
    match elaborate(alloc, &program) {
        Ok(typed) => Ok(typed),
        Err(stop) => Err(stop),
    }
}

// A limit as a refusal names it.
fn limit_kind(limit: Limit) -> LimitKind
    ensures { limit_named result ≡ limit }
{
    match limit {
        Limit::L1 => LimitKind::L1,
        Limit::L2 => LimitKind::L2,
        Limit::L3 => LimitKind::L3,
        Limit::L4 => LimitKind::L4,
        Limit::L5 => LimitKind::L5,
        Limit::L6 => LimitKind::L6,
    }
}

// The image that the bytes of an image are.
fn round_trip(alloc: Global, image: &Image) -> Result<Image, Stop>
    requires { IsImage (form_of image.now) }
    ensures same { IfOk result (λ decoded. (encoded : List ℕ) × ImageOf encoded (form_of decoded) × (form_of decoded ≡ form_of image.now)) }
    ensures stop { IfErr result (λ stop. stop ≡ Stop.OutOfMemory) }
{
    let Ok(bytes) = to_bytes(alloc, image) else {
        return Err(Stop::OutOfMemory);
    };
    match from_bytes(alloc, &bytes) {
        Ok(decoded) => Ok(decoded),
        Err(ImageErr::Bad(_)) => unreachable!(),
        Err(ImageErr::OutOfMemory) => Err(Stop::OutOfMemory),
    }
}

/// The image of a text within the source limit. It has been encoded and decoded.
pub fn image_of(alloc: Global, text: &[u8], limits: MachineLimits) -> Result<Image, Stop>
    requires short { length text.now ≤ source_limit }
    requires slabs { IsWithin 1 1048576 limits.slabs }
    requires index { IsWithin 1 4294967295 limits.index }
    ensures compiled { IfOk result (λ image. Compiles text.now limits (form_of image)) }
    ensures stop { IfErr result (IsHalt text.now) }
{
    let typed = match typed_program(alloc, text) {
        Ok(typed) => typed,
        Err(stop) => return Err(stop),
    };
    let image = match compile(alloc, typed, limits) {
        Ok(image) => image,
        Err(CompileErr::Graph(count)) => return Err(Stop::Refused(Refusal::Graph(count))),
        Err(CompileErr::OutOfMemory) => return Err(Stop::OutOfMemory),
    };
    match round_trip(alloc, &image) {
        Ok(image) => Ok(image),
        Err(stop) => Err(stop),
    }
}
