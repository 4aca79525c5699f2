// The words of types, and declarators (C17 6.7.2, 6.7.6).

ghost use Rattle.std.specs.Prelude.{◌≡◌, ℕ, ◌+◌, ◌<◌, ◌≤◌, Bool, true, false, [], length, IfOk, IfErr, OnErr};
ghost use Rattle.c_grammar.specs.Runs.{Whole};
ghost use Rattle.c_grammar.specs.declared.words.Words.TheVariants.{NoWord};
ghost use Rattle.c_grammar.specs.Forms as forms;
ghost use Rattle.c_grammar.specs.Leaves.{leaves_of};
ghost use Rattle.c_syntax.specs.Views.{words_tree, declarator_tree, type_tree};
ghost use Rattle.c_syntax.specs.Views as views;
ghost use Rattle.c_reader.specs.Shapes.{words_of, place_of, declarator_of, parameters_of, suffixes_of};
ghost use Rattle.c_reader.specs.Readings.{IsReading, Begins};
ghost use Rattle.c_reader.specs.Steps.{EndsWords, GivesTag};
ghost use Rattle.c_reader.specs.ExpressionSteps.{built_of, parameter_type, GivesType, GivesNamed, GivesSuffix, BeginsOptional, EndsOptional, GivesOptional};

use crate::expr::read_expr;
use crate::name::{PassedName, pass_name};
use crate::second::{DirectRow, direct_row};
use crate::stars::{Stars, read_after_star, read_stars};
use crate::syntax_err::SyntaxErr;
use crate::token::{Read, first_kind, first_place, pass, room_below};
use crate::words::{PassedWords, pass_words, words_type};
use c_grammar::{Kind, Token, Words};
use c_syntax::{Declarator, Direct, Parameter, Simple, SimpleKind, Suffix, TypeName};
use std::alloc::Global;

/// Reads the words of a type, where a struct has no members.
pub fn read_simple(
    alloc: Global,
    tokens: &[Token],
    room: u32,
) -> Result<Read<'_, Simple>, SyntaxErr>
    ensures gives { IsReading (Whole (forms.Base false NoWord) 0) room (leaves_of tokens.now) words_of words_tree result }
    ensures shorter { IfOk result (λ read. length read.rest.now < length tokens.now) }
{
    let place = first_place(tokens);
    let PassedWords { words, rest } = pass_words(tokens, Words::NoWord);
    match words {
        Words::NoWord => {
            let tag = read_tag(alloc, rest)?;
            Ok(Read {
                value: Simple {
                    place,
                    kind: SimpleKind::Struct(tag.name),
                },
                height: 0,
                rest: tag.rest,
            })
        }
        _ => {
            first_kind(rest)?;
            Ok(Read {
                value: Simple {
                    place,
                    kind: words_type(words),
                },
                height: 0,
                rest,
            })
        }
    }
}

/// Reads `struct`, its name, and what words may stand behind that.
fn read_tag(alloc: Global, tokens: &[Token]) -> Result<PassedName<'_>, SyntaxErr>
    requires { EndsWords NoWord (leaves_of tokens.now) }
    ensures gives { (room : ℕ) → GivesTag room (leaves_of tokens.now) result }
    ensures shorter { IfOk result (λ tag. length tag.rest.now < length tokens.now) }
{
    let word = pass(tokens, Kind::Struct)?;
    let PassedName { name, rest } = pass_name(alloc, word.rest)?;
    let PassedWords { rest, .. } = pass_words(rest, Words::FullType);
    first_kind(rest)?;
    Ok(PassedName { name, rest })
}

/// Reads the words of a type and a declarator that may be left out, which with `named` may have a name: a parameter, or
/// the name of a type.
#[cycle(expr)]
pub(crate) fn read_type(
    alloc: Global,
    tokens: &[Token],
    named: bool,
    room: u32,
) -> Result<Read<'_, TypeName>, SyntaxErr>
    ensures gives { GivesType named room (leaves_of tokens.now) result }
    ensures shorter { IfOk result (λ read. length read.rest.now < length tokens.now) }
{
    if !first_kind(tokens)?.is_type_word() {
        return Err(SyntaxErr::At(first_place(tokens)));
    }
    let simple = read_simple(alloc, tokens, room)?;
    if !begins_optional(simple.rest, named)? {
        return Ok(Read {
            value: TypeName {
                simple: simple.value,
                declarator: None,
            },
            height: simple.height,
            rest: simple.rest,
        });
    }
    let declarator = read_inner(alloc, simple.rest, named, room)?;
    Ok(Read {
        value: TypeName {
            simple: simple.value,
            declarator: Some(declarator.value),
        },
        height: simple.height.max(declarator.height),
        rest: declarator.rest,
    })
}

/// Does a declarator begin here that may lack its name? With `named` it may have one.
fn begins_optional(tokens: &[Token], named: bool) -> Result<bool, SyntaxErr>
    ensures found { IfOk result (λ begins. begins ≡ true → BeginsOptional named (leaves_of tokens.now)) }
    ensures missing { IfOk result (λ begins. begins ≡ false → EndsOptional named (leaves_of tokens.now)) }
    ensures none { OnErr result (leaves_of tokens.now ≡ []) }
    ensures misfit { IfErr result (λ fault. fault ≡ SyntaxErr.At (place_of (leaves_of tokens.now))) }
{
    let kind = first_kind(tokens)?;
    Ok(kind == Kind::Star || kind.begins_direct(named))
}

/// Reads a declarator that may lack its name. With `named` it may have one.
#[cycle(expr)]
fn read_inner(
    alloc: Global,
    tokens: &[Token],
    named: bool,
    room: u32,
) -> Result<Read<'_, Declarator>, SyntaxErr>
    ensures gives { IsReading (Whole (forms.Inner named) 0) room (leaves_of tokens.now) declarator_of declarator_tree result }
    ensures optional { BeginsOptional named (leaves_of tokens.now) → GivesOptional named room (leaves_of tokens.now) result }
    ensures shorter { IfOk result (λ read. length read.rest.now < length tokens.now) }
{
    let kind = first_kind(tokens)?;
    if kind != Kind::Star && !kind.begins_direct(named) {
        return Err(SyntaxErr::At(first_place(tokens)));
    }
    let below = room_below(tokens, 1, room)?;
    if kind != Kind::Star {
        let direct = read_param_direct(alloc, tokens, named, 0, below)?;
        return Ok(Read {
            value: direct.value,
            height: direct.height + 1,
            rest: direct.rest,
        });
    }
    let star = pass(tokens, Kind::Star)?;
    let Stars { count, rest } = read_after_star(star.rest)?;
    if !first_kind(rest)?.begins_direct(named) {
        return Ok(Read {
            value: Declarator {
                stars: count + 1,
                direct: Direct::Nothing,
                suffixes: Vec::new(alloc),
            },
            height: 1,
            rest,
        });
    }
    let direct = read_param_direct(alloc, rest, named, count + 1, below)?;
    Ok(Read {
        value: direct.value,
        height: direct.height + 1,
        rest: direct.rest,
    })
}

/// Reads what a declarator with so many stars is built on, where it may lack its name, and what follows.
#[cycle(expr)]
fn read_param_direct(
    alloc: Global,
    tokens: &[Token],
    named: bool,
    stars: usize,
    room: u32,
) -> Result<Read<'_, Declarator>, SyntaxErr>
    ensures gives { IsReading (Whole (forms.ParamDirect named) 0) room (leaves_of tokens.now) (built_of stars) declarator_tree result }
    ensures shorter { IfOk result (λ read. length read.rest.now < length tokens.now) }
{
    match direct_row(tokens, named, room)? {
        DirectRow::Name => {
            let PassedName { name, rest } = pass_name(alloc, tokens)?;
            let suffixes = read_suffixes(alloc, rest, room)?;
            Ok(Read {
                value: Declarator {
                    stars,
                    direct: Direct::Named(name),
                    suffixes: suffixes.value,
                },
                height: suffixes.height,
                rest: suffixes.rest,
            })
        }
        DirectRow::Nested => {
            let open = pass(tokens, Kind::OpenParenthesis)?;
            let inner = read_inner(alloc, open.rest, named, room)?;
            let nested = Box::new(alloc, inner.value)?;
            let close = pass(inner.rest, Kind::CloseParenthesis)?;
            let suffixes = read_suffixes(alloc, close.rest, room)?;
            Ok(Read {
                value: Declarator {
                    stars,
                    direct: Direct::Nested(nested),
                    suffixes: suffixes.value,
                },
                height: inner.height.max(suffixes.height),
                rest: suffixes.rest,
            })
        }
        _ => {
            let suffixes = read_suffixes(alloc, tokens, room)?;
            Ok(Read {
                value: Declarator {
                    stars,
                    direct: Direct::Nothing,
                    suffixes: suffixes.value,
                },
                height: suffixes.height,
                rest: suffixes.rest,
            })
        }
    }
}

/// Reads what follows in a declarator: lengths of arrays and parameters of functions.
#[cycle(expr)]
fn read_suffixes(
    alloc: Global,
    tokens: &[Token],
    room: u32,
) -> Result<Read<'_, Vec<Suffix>>, SyntaxErr>
    ensures gives { IsReading (Whole forms.Suffixes 0) room (leaves_of tokens.now) suffixes_of (λ suffixes. views.suffixes_of suffixes.items) result }
    ensures shorter { IfOk result (λ read. length read.rest.now ≤ length tokens.now) }
{
    let mut suffixes = Vec::new(alloc);
    let mut height: u32 = 0;
    let mut rest = tokens;
    loop {
        let suffix = match first_kind(rest)? {
            Kind::OpenBracket => read_array(alloc, rest, room)?,
            Kind::OpenParenthesis => read_function(alloc, rest, room)?,
            _ => {
                return Ok(Read {
                    value: suffixes,
                    height,
                    rest,
                });
            }
        };
        suffixes.push(suffix.value)?;
        height = height.max(suffix.height);
        rest = suffix.rest;
    }
}

/// Reads the length of an array in brackets, which may be left out.
#[cycle(expr)]
fn read_array(alloc: Global, tokens: &[Token], room: u32) -> Result<Read<'_, Suffix>, SyntaxErr>
    requires { Begins Kind.OpenBracket (leaves_of tokens.now) }
    ensures gives { GivesSuffix room (leaves_of tokens.now) result }
    ensures shorter { IfOk result (λ read. length read.rest.now < length tokens.now) }
{
    let open = pass(tokens, Kind::OpenBracket)?;
    if !first_kind(open.rest)?.begins_expr() {
        let close = pass(open.rest, Kind::CloseBracket)?;
        return Ok(Read {
            value: Suffix::Array(None),
            height: 0,
            rest: close.rest,
        });
    }
    room_below(open.rest, 1, room)?;
    let length = read_expr(alloc, open.rest, 14, room)?;
    let close = pass(length.rest, Kind::CloseBracket)?;
    Ok(Read {
        value: Suffix::Array(Some(Box::into_inner(length.value))),
        height: length.height,
        rest: close.rest,
    })
}

/// Reads the parameters of a function in parentheses.
#[cycle(expr)]
fn read_function(alloc: Global, tokens: &[Token], room: u32) -> Result<Read<'_, Suffix>, SyntaxErr>
    requires { Begins Kind.OpenParenthesis (leaves_of tokens.now) }
    ensures gives { GivesSuffix room (leaves_of tokens.now) result }
    ensures shorter { IfOk result (λ read. length read.rest.now < length tokens.now) }
{
    let open = pass(tokens, Kind::OpenParenthesis)?;
    let parameters = read_parameters(alloc, open.rest, room)?;
    let close = pass(parameters.rest, Kind::CloseParenthesis)?;
    Ok(Read {
        value: Suffix::Function(parameters.value),
        height: parameters.height,
        rest: close.rest,
    })
}

/// Reads parameters, of which there may be none.
#[cycle(expr)]
fn read_parameters(
    alloc: Global,
    tokens: &[Token],
    room: u32,
) -> Result<Read<'_, Vec<Parameter>>, SyntaxErr>
    ensures gives { IsReading (Whole forms.Params 0) room (leaves_of tokens.now) parameters_of (λ parameters. views.parameters_of parameters.items) result }
    ensures shorter { IfOk result (λ read. length read.rest.now ≤ length tokens.now) }
{
    let mut parameters = Vec::new(alloc);
    if !first_kind(tokens)?.is_type_word() {
        return Ok(Read {
            value: parameters,
            height: 0,
            rest: tokens,
        });
    }
    let first = read_type(alloc, tokens, true, room)?;
    parameters.push(parameter(first.value))?;
    let mut height = first.height;
    let mut rest = first.rest;
    while let Kind::Comma = first_kind(rest)? {
        let comma = pass(rest, Kind::Comma)?;
        let next = read_type(alloc, comma.rest, true, room)?;
        parameters.push(parameter(next.value))?;
        height = height.max(next.height);
        rest = next.rest;
    }
    Ok(Read {
        value: parameters,
        height,
        rest,
    })
}

/// A parameter of this type, with the name in its declarator.
fn parameter(type_name: TypeName) -> Parameter
    ensures { parameter_type result ≡ type_tree type_name }
{
    Parameter {
        simple: type_name.simple,
        declarator: type_name.declarator,
    }
}

/// Reads a declarator that has a name.
#[cycle(declarator)]
pub fn read_declarator(
    alloc: Global,
    tokens: &[Token],
    room: u32,
) -> Result<Read<'_, Declarator>, SyntaxErr>
    ensures gives { IsReading (Whole forms.Declarator 0) room (leaves_of tokens.now) declarator_of declarator_tree result }
    ensures shorter { IfOk result (λ read. length read.rest.now < length tokens.now) }
{
    if !first_kind(tokens)?.begins_declarator() {
        return Err(SyntaxErr::At(first_place(tokens)));
    }
    let below = room_below(tokens, 1, room)?;
    let Stars { count, rest } = read_stars(tokens)?;
    let direct = read_direct(alloc, rest, count, below)?;
    Ok(Read {
        value: direct.value,
        height: direct.height + 1,
        rest: direct.rest,
    })
}

/// Reads what a declarator with so many stars is built on, and what follows.
#[cycle(declarator)]
fn read_direct(
    alloc: Global,
    tokens: &[Token],
    stars: usize,
    room: u32,
) -> Result<Read<'_, Declarator>, SyntaxErr>
    ensures gives { IsReading (Whole forms.Direct 0) room (leaves_of tokens.now) (built_of stars) declarator_tree result }
    ensures shorter { IfOk result (λ read. length read.rest.now < length tokens.now) }
{
    match first_kind(tokens)? {
        Kind::Name => read_named(alloc, tokens, stars, room),
        Kind::OpenParenthesis => {
            room_below(tokens, 1, room)?;
            let open = pass(tokens, Kind::OpenParenthesis)?;
            let inner = read_declarator(alloc, open.rest, room)?;
            let nested = Box::new(alloc, inner.value)?;
            let close = pass(inner.rest, Kind::CloseParenthesis)?;
            let suffixes = read_suffixes(alloc, close.rest, room)?;
            Ok(Read {
                value: Declarator {
                    stars,
                    direct: Direct::Nested(nested),
                    suffixes: suffixes.value,
                },
                height: inner.height.max(suffixes.height),
                rest: suffixes.rest,
            })
        }
        _ => Err(SyntaxErr::At(first_place(tokens))),
    }
}

/// Reads the name of a declarator with so many stars, and what follows.
fn read_named(
    alloc: Global,
    tokens: &[Token],
    stars: usize,
    room: u32,
) -> Result<Read<'_, Declarator>, SyntaxErr>
    ensures gives { GivesNamed stars room (leaves_of tokens.now) result }
    ensures shorter { IfOk result (λ read. length read.rest.now < length tokens.now) }
{
    let PassedName { name, rest } = pass_name(alloc, tokens)?;
    let suffixes = read_suffixes(alloc, rest, room)?;
    Ok(Read {
        value: Declarator {
            stars,
            direct: Direct::Named(name),
            suffixes: suffixes.value,
        },
        height: suffixes.height,
        rest: suffixes.rest,
    })
}
