// Declarations and initializers (C17 6.7, 6.7.9).

ghost use Rattle.std.specs.Prelude.{◌<◌, ◌≤◌, [], ◌∷◌, length, option_map, IfOk};
ghost use Rattle.c_grammar.specs.Runs.{Whole};
ghost use Rattle.c_grammar.specs.Forms as forms;
ghost use Rattle.c_grammar.specs.Leaves.{leaves_of};
ghost use Rattle.c_syntax.specs.Views.{init_tree, declaration_tree};
ghost use Rattle.c_syntax.specs.Trees as trees;
ghost use Rattle.c_reader.specs.Shapes.{init_of, inits_of, first_value_of, declarators_of, declaration_of};
ghost use Rattle.c_reader.specs.Rows.{GivesPart, GivesElement, GivesForm, GivesMore, TellsRow, Tells};
ghost use Rattle.c_reader.specs.RowForms.{init_form, init_more_form, init_next_form, first_value_form, declarators_form};
ghost use Rattle.c_reader.specs.StatementLists.{init_before, inits_behind, inits_in, inits_from, declarator_before, declarators_in, declarators_from};

use crate::declarator::{read_declarator, read_simple};
use crate::expr::read_expr;
use crate::part::{Part, has_room};
use crate::syntax_err::SyntaxErr;
use crate::term::LOOSEST;
use crate::token::{first_kind, first_place, pass, room_below};
use c_grammar::{Kind, Token};
use c_syntax::{Declaration, Init, InitDeclarator};
use std::alloc::Global;

/// The rows of an initializer.
enum InitRow {
    Value,
    List,
}

fn init_row(kind: Kind) -> Option<InitRow>
    ensures { TellsRow forms.Init init_form kind result }
{
    if kind.is(Kind::OpenBrace) {
        Some(InitRow::List)
    } else if kind.begins_expr() {
        Some(InitRow::Value)
    } else {
        None
    }
}

/// Reads an initializer.
#[cycle(init)]
fn read_init(alloc: Global, tokens: &[Token], room: u32) -> Result<Part<'_, Init>, SyntaxErr>
    ensures gives { GivesPart (Whole forms.Init 0) room (leaves_of tokens.now) init_of init_tree result }
    ensures shorter { IfOk result (λ part. length part.rest.now < length tokens.now) }
{
    match init_row(first_kind(tokens)?) {
        Some(InitRow::List) => {
            let below = room_below(tokens, 3, room)?;
            read_init_list(alloc, tokens, below)
        }
        Some(InitRow::Value) => {
            let below = room_below(tokens, 2, room)?;
            let value = read_expr(alloc, tokens, LOOSEST, below)?;
            Ok(Part {
                value: Init::Value(Box::into_inner(value.value)),
                rest: value.rest,
            })
        }
        None => Err(SyntaxErr::At(first_place(tokens))),
    }
}

/// Reads initializers in braces.
#[cycle(init)]
fn read_init_list(alloc: Global, tokens: &[Token], room: u32) -> Result<Part<'_, Init>, SyntaxErr>
    ensures gives { GivesForm forms.InitList room (leaves_of tokens.now) init_of init_tree result }
    ensures shorter { IfOk result (λ part. length part.rest.now < length tokens.now) }
{
    let opening = pass(tokens, Kind::OpenBrace)?;
    let first = read_init(alloc, opening.rest, room)?;
    let mut inits = Vec::new(alloc);
    inits.push(first.value)?;
    let more = read_inits(alloc, first.rest, room, inits)?;
    Ok(Part {
        value: Init::List {
            place: opening.place,
            inits: more.value,
        },
        rest: more.rest,
    })
}

/// Reads the initializers behind some, and the brace that closes them.
#[cycle(init)]
fn read_inits(
    alloc: Global,
    tokens: &[Token],
    room: u32,
    before: Vec<Init>,
) -> Result<Part<'_, Vec<Init>>, SyntaxErr>
    ensures gives { GivesPart (Whole forms.InitMore 0) room (leaves_of tokens.now) (inits_from before.items) inits_in result }
    ensures shorter { IfOk result (λ part. length part.rest.now < length tokens.now) }
{
    let mut inits = before;
    let mut rest = tokens;
    loop {
        let next = read_next_init(alloc, rest, room)?;
        rest = next.rest;
        match next.value {
            Some(init) => inits.push(init)?,
            None => return Ok(Part { value: inits, rest }),
        }
    }
}

/// The rows behind an initializer in braces.
enum InitMoreRow {
    End,
    Comma,
}

fn init_more_row(kind: Kind) -> Option<InitMoreRow>
    ensures { TellsRow forms.InitMore init_more_form kind result }
{
    if kind.is(Kind::CloseBrace) {
        Some(InitMoreRow::End)
    } else if kind.is(Kind::Comma) {
        Some(InitMoreRow::Comma)
    } else {
        None
    }
}

/// Reads the next initializer, or the brace that closes them.
#[cycle(init)]
fn read_next_init(
    alloc: Global,
    tokens: &[Token],
    room: u32,
) -> Result<Part<'_, Option<Init>>, SyntaxErr>
    ensures gives { GivesMore forms.InitMore room (leaves_of tokens.now) inits_of init_before trees.NoInits result }
    ensures shorter { IfOk result (λ part. length part.rest.now < length tokens.now) }
{
    match init_more_row(first_kind(tokens)?) {
        Some(InitMoreRow::End) => {
            let end = pass(tokens, Kind::CloseBrace)?;
            Ok(Part {
                value: None,
                rest: end.rest,
            })
        }
        Some(InitMoreRow::Comma) => {
            let comma = pass(tokens, Kind::Comma)?;
            read_init_behind_comma(alloc, comma.rest, room)
        }
        None => Err(SyntaxErr::At(first_place(tokens))),
    }
}

/// The rows behind the comma behind an initializer.
enum InitNextRow {
    Close,
    Other,
}

fn init_next_row(kind: Kind) -> Option<InitNextRow>
    ensures { TellsRow forms.InitNext init_next_form kind result }
{
    if kind.is(Kind::CloseBrace) {
        Some(InitNextRow::Close)
    } else if kind.is(Kind::OpenBrace) || kind.begins_expr() {
        Some(InitNextRow::Other)
    } else {
        None
    }
}

/// Reads an initializer behind a comma, or the brace that may follow the comma.
#[cycle(init)]
fn read_init_behind_comma(
    alloc: Global,
    tokens: &[Token],
    room: u32,
) -> Result<Part<'_, Option<Init>>, SyntaxErr>
    ensures gives { GivesElement (Whole forms.InitNext 0) room (leaves_of tokens.now) inits_behind init_before trees.NoInits
        (Whole forms.InitMore 0) inits_of result }
    ensures shorter { IfOk result (λ part. length part.rest.now < length tokens.now) }
{
    match init_next_row(first_kind(tokens)?) {
        Some(InitNextRow::Close) => {
            let close = pass(tokens, Kind::CloseBrace)?;
            Ok(Part {
                value: None,
                rest: close.rest,
            })
        }
        Some(InitNextRow::Other) => {
            has_room(tokens, 2, room)?;
            let init = read_init(alloc, tokens, room)?;
            Ok(Part {
                value: Some(init.value),
                rest: init.rest,
            })
        }
        None => Err(SyntaxErr::At(first_place(tokens))),
    }
}

/// The rows of a first value, which may be left out.
enum FirstValueRow {
    Value,
    Nothing,
}

fn first_value_row(kind: Kind) -> FirstValueRow
    ensures { Tells forms.FirstValue kind (first_value_form result) }
{
    if kind.is(Kind::Equal) {
        FirstValueRow::Value
    } else {
        FirstValueRow::Nothing
    }
}

/// Reads a first value, where there is one.
pub fn read_first_value(
    alloc: Global,
    tokens: &[Token],
    room: u32,
) -> Result<Part<'_, Option<Init>>, SyntaxErr>
    ensures gives { GivesPart (Whole forms.FirstValue 0) room (leaves_of tokens.now) first_value_of (option_map init_tree) result }
    ensures not_longer { IfOk result (λ part. length part.rest.now ≤ length tokens.now) }
{
    match first_value_row(first_kind(tokens)?) {
        FirstValueRow::Value => {
            has_room(tokens, 2, room)?;
            let equal = pass(tokens, Kind::Equal)?;
            let init = read_init(alloc, equal.rest, room)?;
            Ok(Part {
                value: Some(init.value),
                rest: init.rest,
            })
        }
        FirstValueRow::Nothing => Ok(Part {
            value: None,
            rest: tokens,
        }),
    }
}

/// The rows behind a declarator.
enum DeclaratorsRow {
    End,
    Next,
}

fn declarators_row(kind: Kind) -> Option<DeclaratorsRow>
    ensures { TellsRow forms.DeclaratorsMore declarators_form kind result }
{
    if kind.is(Kind::Semicolon) {
        Some(DeclaratorsRow::End)
    } else if kind.is(Kind::Comma) {
        Some(DeclaratorsRow::Next)
    } else {
        None
    }
}

/// Reads the next declarator of a declaration, or the semicolon at its end.
fn read_next_declarator(
    alloc: Global,
    tokens: &[Token],
    room: u32,
) -> Result<Part<'_, Option<InitDeclarator>>, SyntaxErr>
    ensures gives { GivesMore forms.DeclaratorsMore room (leaves_of tokens.now) declarators_of declarator_before [] result }
    ensures shorter { IfOk result (λ part. length part.rest.now < length tokens.now) }
{
    match declarators_row(first_kind(tokens)?) {
        Some(DeclaratorsRow::End) => {
            let end = pass(tokens, Kind::Semicolon)?;
            Ok(Part {
                value: None,
                rest: end.rest,
            })
        }
        Some(DeclaratorsRow::Next) => {
            has_room(tokens, 1, room)?;
            let comma = pass(tokens, Kind::Comma)?;
            let declarator = read_declarator(alloc, comma.rest, room)?;
            let init = read_first_value(alloc, declarator.rest, room)?;
            Ok(Part {
                value: Some(InitDeclarator {
                    declarator: declarator.value,
                    init: init.value,
                }),
                rest: init.rest,
            })
        }
        None => Err(SyntaxErr::At(first_place(tokens))),
    }
}

/// Reads the declarators of a declaration behind its first one, and its semicolon.
pub fn read_declarators(
    alloc: Global,
    tokens: &[Token],
    room: u32,
    first: InitDeclarator,
) -> Result<Part<'_, Vec<InitDeclarator>>, SyntaxErr>
    ensures gives { GivesPart (Whole forms.DeclaratorsMore 0) room (leaves_of tokens.now) (declarators_from first) declarators_in result }
    ensures shorter { IfOk result (λ part. length part.rest.now < length tokens.now) }
{
    let mut declarators = Vec::new(alloc);
    declarators.push(first)?;
    let mut rest = tokens;
    loop {
        let next = read_next_declarator(alloc, rest, room)?;
        rest = next.rest;
        match next.value {
            Some(declarator) => declarators.push(declarator)?,
            None => {
                return Ok(Part {
                    value: declarators,
                    rest,
                });
            }
        }
    }
}

/// Reads a declaration in a block.
pub(crate) fn read_declaration(
    alloc: Global,
    tokens: &[Token],
    room: u32,
) -> Result<Part<'_, Declaration>, SyntaxErr>
    ensures gives { GivesPart (Whole forms.Declaration 0) room (leaves_of tokens.now) declaration_of declaration_tree result }
    ensures shorter { IfOk result (λ part. length part.rest.now < length tokens.now) }
{
    if !first_kind(tokens)?.is_type_word() {
        return Err(SyntaxErr::At(first_place(tokens)));
    }
    has_room(tokens, 1, room)?;
    let simple = read_simple(alloc, tokens, room)?;
    let declarator = read_declarator(alloc, simple.rest, room)?;
    let init = read_first_value(alloc, declarator.rest, room)?;
    let first = InitDeclarator {
        declarator: declarator.value,
        init: init.value,
    };
    let declarators = read_declarators(alloc, init.rest, room, first)?;
    Ok(Part {
        value: Declaration {
            simple: simple.value,
            declarators: declarators.value,
        },
        rest: declarators.rest,
    })
}
