// The words of a type (C17 6.7.2), one after another.

ghost use Rattle.std.specs.Prelude.{◌≡◌, ℕ, ◌<◌, ◌≤◌, ◌⊎◌, Bool, length, IfSome, IfNone};
ghost use Rattle.c_grammar.specs.declared.words.Sign.TheVariants as sign;
ghost use Rattle.c_grammar.specs.Leaves.{leaves_of};
ghost use Rattle.c_syntax.specs.Views.{simple_tree};
ghost use Rattle.c_reader.specs.Shapes.{int_type_of, type_of_words};
ghost use Rattle.c_reader.specs.Steps.{PassesWord, PassesWords, EndsWords};

use c_grammar::{Kind, Sign, Size, Token, Words};
use c_num::IntType;
use c_syntax::SimpleKind;

/// The words that stand after some were passed, and the tokens behind them.
#[derive(Clone, Copy)]
pub struct PassedWords<'a> {
    pub words: Words,
    pub rest: &'a [Token],
}

/// Passes the words that may stand behind the first ones. It stops at `struct`, too.
pub fn pass_words(tokens: &[Token], first: Words) -> PassedWords<'_>
    ensures passes { (own : Bool) (room : ℕ) → PassesWords own room (leaves_of tokens.now) first (leaves_of result.rest.now) result.words }
    ensures ends { EndsWords result.words (leaves_of result.rest.now) }
    ensures shorter { length result.rest.now ≤ length tokens.now }
    ensures passed { (result.words ≡ first) ⊎ (length result.rest.now < length tokens.now) }
{
    let mut words = first;
    let mut rest = tokens;
    while let Some(next) = next_words(rest, words) {
        words = next.words;
        rest = next.rest;
    }
    PassedWords { words, rest }
}

/// Passes one more word, where one may stand there.
fn next_words(tokens: &[Token], words: Words) -> Option<PassedWords<'_>>
    ensures passes { IfSome result (λ next. PassesWord words (leaves_of tokens.now) next.words (leaves_of next.rest.now)) }
    ensures shorter { IfSome result (λ next. length next.rest.now < length tokens.now) }
    ensures ends { IfNone result (EndsWords words (leaves_of tokens.now)) }
{
    let (token, rest) = tokens.split_first()?;
    let words = words.with(token.lexeme.kind())?;
    Some(PassedWords { words, rest })
}

/// The type that the words of an integer type name.
fn int_type(sign: Sign, size: Size) -> IntType
    ensures { result ≡ int_type_of sign size }
{
    match sign {
        Sign::IsUnsigned => {
            match size {
                Size::CharSize => IntType::UChar,
                Size::ShortSize => IntType::UShort,
                Size::LongSize => IntType::ULong,
                Size::NoSize => IntType::UInt,
            }
        }
        Sign::IsSigned => signed_type(size),
        Sign::NoSign => signed_type(size),
    }
}

/// The signed type of a size.
fn signed_type(size: Size) -> IntType
    ensures { result ≡ int_type_of sign.IsSigned size }
{
    match size {
        Size::CharSize => IntType::Char,
        Size::ShortSize => IntType::Short,
        Size::LongSize => IntType::Long,
        Size::NoSize => IntType::Int,
    }
}

/// The type that words name which are all that stand.
pub fn words_type(words: Words) -> SimpleKind
    ensures { simple_tree result ≡ type_of_words words }
{
    match words {
        Words::Integers { sign, size, .. } => SimpleKind::Integer(int_type(sign, size)),
        _ => SimpleKind::Void,
    }
}
