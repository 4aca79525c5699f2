// What the program answers.

ghost use Rattle.std.specs.Prelude.{◌≡◌};
ghost use Rattle.pcc_words.specs.Status.{exit_status_of};

use c_rules::TypeRule;
use run_theory::{Pos, TrapKind, UbKind};

/// What a command comes to.
#[derive(Clone, Copy, Debug, PartialEq, Eq)]
pub enum Status {
    /// The command is done.
    Done,
    /// The program ended with this status.
    Program(u8),
    /// Calls nest deeper than 10,000.
    Depth,
    /// An allocation needs more adjacent slabs than are free.
    HeapExhausted,
    /// An indexed pool has as many cells as the index limit, and none is free.
    IndexExhausted,
    /// The step limit was reached before an end.
    StepsSpent,
    /// The machine trapped.
    Trapped(TrapKind),
    /// The program's behaviour is undefined, of this kind and at this place.
    Undefined(UbKind, Pos),
    /// The source was refused.
    Refused(Refusal),
    /// The bytes are no image: no image's bytes begin with those through this place.
    BadImage(u64),
    /// The source has more than 1,048,576 bytes.
    SourceTooLong,
    /// The image has more than 2^40 bytes.
    ImageTooLong,
    /// The command line is faulty.
    Usage(UsageKind),
    /// A read failed.
    ReadFault,
    /// A write failed.
    WriteFault,
    OutOfMemory,
}

/// What is wrong with a command line.
#[derive(Clone, Copy, Debug, PartialEq, Eq)]
pub enum UsageKind {
    /// The second word is missing or is no command.
    Command,
    /// The command is known, and the rest is no line of it.
    Words,
    /// A word isn't UTF-8.
    Encoding,
}

/// Why a source was refused.
#[derive(Clone, Copy, Debug, PartialEq, Eq)]
pub enum Refusal {
    /// The text doesn't divide into tokens.
    Lex(LexKind, Pos),
    /// The tokens are no program.
    Syntax(SyntaxKind, Pos),
    /// A type rule is violated.
    TypeRule(TypeRule, Pos),
    /// A limit is exceeded, with the count that exceeds it.
    Limit(LimitKind, u64),
    /// The heap graph of a group has more nodes than its limit.
    Graph(u64),
    /// A function has more pools than its limit.
    Pools(FuncName, u64),
}

/// A function's name: the first of these bytes, so many.
#[derive(Clone, Copy, Debug, PartialEq, Eq)]
pub struct FuncName {
    bytes: [u8; 255],
    length: u8,
}

impl FuncName {
    ghost use Rattle.std.specs.Prelude.{◌<◌, length, MatchOption};
    ghost use Rattle.pcc_words.specs.Texts.{func_name};

    /// The name of these bytes, if they are no more than a name may have.
    pub fn new(name: &[u8]) -> Option<FuncName>
        ensures { MatchOption result (255 < length name.now) (λ function. func_name function ≡ name.now) }
    {
        let length = u8::try_from(name.len()).ok()?;
        let mut bytes = [0u8; 255];
        bytes[..name.len()].copy_from_slice(name);
        Some(FuncName { bytes, length })
    }

    /// Its bytes.
    pub fn as_slice(&self) -> &[u8]
        ensures { result.now ≡ func_name self.now }
    {
        &self.bytes[..self.length as usize]
    }
}

/// A lexical refusal.
#[derive(Clone, Copy, Debug, PartialEq, Eq)]
pub enum LexKind {
    BadByte,
    BadLiteral,
    Unclosed,
    BadDirective,
    NameTooLong,
}

impl LexKind {
    ghost use Rattle.pcc_words.specs.Texts.{lex_name};

    /// The kind as it is printed.
    pub fn name(self) -> &'static str
        ensures { result.now ≡ lex_name self }
    {
        match self {
            LexKind::BadByte => "BadByte",
            LexKind::BadLiteral => "BadLiteral",
            LexKind::Unclosed => "Unclosed",
            LexKind::BadDirective => "BadDirective",
            LexKind::NameTooLong => "NameTooLong",
        }
    }
}

/// A syntactic refusal.
#[derive(Clone, Copy, Debug, PartialEq, Eq)]
pub enum SyntaxKind {
    /// The token doesn't fit.
    At,
    /// The token would fit if nesting had no limit.
    TooDeep,
}

impl SyntaxKind {
    ghost use Rattle.pcc_words.specs.Texts.{syntax_name};

    /// The kind as it is printed.
    pub fn name(self) -> &'static str
        ensures { result.now ≡ syntax_name self }
    {
        match self {
            SyntaxKind::At => "syntax",
            SyntaxKind::TooDeep => "nesting",
        }
    }
}

/// A limit of a source, as it is printed.
#[derive(Clone, Copy, Debug, PartialEq, Eq)]
pub enum LimitKind {
    /// Functions defined: 4,096.
    L1,
    /// Parameters of one function type: 64.
    L2,
    /// Slots of one type: 1,024.
    L3,
    /// Bytes of one type: 1,048,576.
    L4,
    /// Bytes of one frame: 1,048,576.
    L5,
    /// Bytes of globals and literals: 1,073,741,824.
    L6,
}

impl LimitKind {
    ghost use Rattle.pcc_words.specs.Texts.{limit_name};

    /// The limit as it is printed, from `L1` to `L6`.
    pub fn name(self) -> &'static str
        ensures { result.now ≡ limit_name self }
    {
        match self {
            LimitKind::L1 => "L1",
            LimitKind::L2 => "L2",
            LimitKind::L3 => "L3",
            LimitKind::L4 => "L4",
            LimitKind::L5 => "L5",
            LimitKind::L6 => "L6",
        }
    }
}

impl Status {
    /// The exit status that tells it to the shell.
    pub fn exit_status(self) -> u8
        ensures { result ≡ exit_status_of self }
    {
        match self {
            Status::Program(status) => status,
            Status::Done => 0,
            Status::Usage(_) => 240,
            Status::Refused(_) => 241,
            Status::SourceTooLong => 242,
            Status::ImageTooLong => 243,
            Status::BadImage(_) => 244,
            Status::Undefined(..) => 245,
            Status::Trapped(_) => 246,
            Status::Depth => 247,
            Status::HeapExhausted => 248,
            Status::IndexExhausted => 249,
            Status::StepsSpent => 250,
            Status::ReadFault => 251,
            Status::WriteFault => 252,
            Status::OutOfMemory => 253,
        }
    }
}
