// What stands outside functions (C17 6.9): declarations, structs with their members, and functions.

ghost use Rattle.std.specs.Prelude.{◌<◌, ◌≤◌, [], ◌∷◌, true, length, map, IfOk, IfSome};
ghost use Rattle.c_grammar.specs.Runs.{Whole};
ghost use Rattle.c_grammar.specs.declared.words.Words.TheVariants.{NoWord};
ghost use Rattle.c_grammar.specs.Forms as forms;
ghost use Rattle.c_grammar.specs.Leaves.{leaves_of};
ghost use Rattle.c_syntax.specs.Views.{base_tree, item_tree, member_tree};
ghost use Rattle.c_reader.specs.Shapes as shapes;
ghost use Rattle.c_reader.specs.Rows.{GivesPart, GivesForm, GivesMore, TellsRow, Tells};
ghost use Rattle.c_reader.specs.Steps.{EndsWords};
ghost use Rattle.c_reader.specs.ItemForms.{item_form, items_form, tail_form, after_form, members_opt_form, members_form, member_more_form};
ghost use Rattle.c_reader.specs.ItemLists.{item_before, member_before, member_declarator_before, member_declarators_in, member_declarators_from, members_in, members_from, struct_from, after_in, body_in};

use crate::declaration::{read_declarators, read_first_value};
use crate::declarator::{read_declarator, read_simple};
use crate::name::pass_name;
use crate::part::{Part, has_room};
use crate::statement::read_block_items;
use crate::syntax_err::SyntaxErr;
use crate::token::{first_kind, first_place, pass, room_below};
use crate::words::{PassedWords, pass_words, words_type};
use c_grammar::{Kind, Token, Words};
use c_syntax::{
    Base, Block, Declarator, InitDeclarator, Item, Member, Name, Pos, Simple, SimpleKind,
};
use std::alloc::Global;

/// The rows behind a declarator of a member.
#[derive(Clone, Copy)]
enum MemberMoreRow {
    End,
    Next,
}

fn member_more_row(kind: Kind) -> Option<MemberMoreRow>
    ensures { TellsRow forms.MemberMore member_more_form kind result }
{
    if kind.is(Kind::Semicolon) {
        Some(MemberMoreRow::End)
    } else if kind.is(Kind::Comma) {
        Some(MemberMoreRow::Next)
    } else {
        None
    }
}

/// Reads the next declarator of a member, or the semicolon at its end.
fn read_next_member_declarator(
    alloc: Global,
    tokens: &[Token],
    room: u32,
) -> Result<Part<'_, Option<Declarator>>, SyntaxErr>
    ensures gives { GivesMore forms.MemberMore room (leaves_of tokens.now) shapes.member_declarators_of member_declarator_before [] result }
    ensures shorter { IfOk result (λ part. length part.rest.now < length tokens.now) }
{
    match member_more_row(first_kind(tokens)?) {
        Some(MemberMoreRow::End) => {
            let end = pass(tokens, Kind::Semicolon)?;
            Ok(Part {
                value: None,
                rest: end.rest,
            })
        }
        Some(MemberMoreRow::Next) => {
            has_room(tokens, 1, room)?;
            let comma = pass(tokens, Kind::Comma)?;
            let declarator = read_declarator(alloc, comma.rest, room)?;
            Ok(Part {
                value: Some(declarator.value),
                rest: declarator.rest,
            })
        }
        None => Err(SyntaxErr::At(first_place(tokens))),
    }
}

/// Reads the declarators of a member behind its first one, and its semicolon.
fn read_member_declarators(
    alloc: Global,
    tokens: &[Token],
    room: u32,
    first: Declarator,
) -> Result<Part<'_, Vec<Declarator>>, SyntaxErr>
    ensures gives { GivesPart (Whole forms.MemberMore 0) room (leaves_of tokens.now) (member_declarators_from first) member_declarators_in result }
    ensures shorter { IfOk result (λ part. length part.rest.now < length tokens.now) }
{
    let mut declarators = Vec::new(alloc);
    declarators.push(first)?;
    let mut rest = tokens;
    loop {
        let next = read_next_member_declarator(alloc, rest, room)?;
        rest = next.rest;
        match next.value {
            Some(declarator) => declarators.push(declarator)?,
            None => return Ok(Part {
                value: declarators,
                rest,
            }),
        }
    }
}

/// Reads members that are declared together.
fn read_member(alloc: Global, tokens: &[Token], room: u32) -> Result<Part<'_, Member>, SyntaxErr>
    ensures gives { GivesPart (Whole forms.MemberSort 0) room (leaves_of tokens.now) shapes.member_of member_tree result }
    ensures shorter { IfOk result (λ part. length part.rest.now < length tokens.now) }
{
    if !first_kind(tokens)?.is_type_word() {
        return Err(SyntaxErr::At(first_place(tokens)));
    }
    has_room(tokens, 1, room)?;
    let simple = read_simple(alloc, tokens, room)?;
    let first = read_declarator(alloc, simple.rest, room)?;
    let declarators = read_member_declarators(alloc, first.rest, room, first.value)?;
    Ok(Part {
        value: Member {
            simple: simple.value,
            declarators: declarators.value,
        },
        rest: declarators.rest,
    })
}

/// The rows behind a member.
#[derive(Clone, Copy)]
enum MembersRow {
    End,
    Next,
}

fn members_row(kind: Kind) -> Option<MembersRow>
    ensures { TellsRow forms.MembersMore members_form kind result }
{
    if kind.is(Kind::CloseBrace) {
        Some(MembersRow::End)
    } else if kind.is_type_word() {
        Some(MembersRow::Next)
    } else {
        None
    }
}

/// Reads the next members, or the brace that closes them.
fn read_next_member(
    alloc: Global,
    tokens: &[Token],
    room: u32,
) -> Result<Part<'_, Option<Member>>, SyntaxErr>
    ensures gives { GivesMore forms.MembersMore room (leaves_of tokens.now) shapes.more_members_of member_before [] result }
    ensures shorter { IfOk result (λ part. length part.rest.now < length tokens.now) }
{
    match members_row(first_kind(tokens)?) {
        Some(MembersRow::End) => {
            let end = pass(tokens, Kind::CloseBrace)?;
            Ok(Part {
                value: None,
                rest: end.rest,
            })
        }
        Some(MembersRow::Next) => {
            has_room(tokens, 1, room)?;
            let member = read_member(alloc, tokens, room)?;
            Ok(Part {
                value: Some(member.value),
                rest: member.rest,
            })
        }
        None => Err(SyntaxErr::At(first_place(tokens))),
    }
}

/// Reads the members behind the first ones, and the brace that closes them.
fn read_members(
    alloc: Global,
    tokens: &[Token],
    room: u32,
    first: Member,
) -> Result<Part<'_, Vec<Member>>, SyntaxErr>
    ensures gives { GivesPart (Whole forms.MembersMore 0) room (leaves_of tokens.now) (members_from first) members_in result }
    ensures shorter { IfOk result (λ part. length part.rest.now < length tokens.now) }
{
    let mut members = Vec::new(alloc);
    members.push(first)?;
    let mut rest = tokens;
    loop {
        let next = read_next_member(alloc, rest, room)?;
        rest = next.rest;
        match next.value {
            Some(member) => members.push(member)?,
            None => return Ok(Part {
                value: members,
                rest,
            }),
        }
    }
}

/// The rows of members, which may be left out.
#[derive(Clone, Copy)]
enum MembersOptRow {
    Members,
    Nothing,
}

fn members_opt_row(kind: Kind) -> MembersOptRow
    ensures { Tells forms.MembersOpt kind (members_opt_form result) }
{
    if kind.is(Kind::OpenBrace) {
        MembersOptRow::Members
    } else {
        MembersOptRow::Nothing
    }
}

/// Reads the members of a struct of a name at a place, where they are there.
fn read_struct(
    alloc: Global,
    tokens: &[Token],
    room: u32,
    place: Pos,
    name: Name,
) -> Result<Part<'_, Base>, SyntaxErr>
    ensures gives { GivesPart (Whole forms.MembersOpt 0) room (leaves_of tokens.now) (struct_from place name) base_tree result }
    ensures not_longer { IfOk result (λ part. length part.rest.now ≤ length tokens.now) }
{
    match members_opt_row(first_kind(tokens)?) {
        MembersOptRow::Members => {
            has_room(tokens, 1, room)?;
            let opening = pass(tokens, Kind::OpenBrace)?;
            let first = read_member(alloc, opening.rest, room)?;
            let members = read_members(alloc, first.rest, room, first.value)?;
            Ok(Part {
                value: Base::Struct {
                    place,
                    name,
                    members: members.value,
                },
                rest: members.rest,
            })
        }
        MembersOptRow::Nothing => Ok(Part {
            value: Base::Simple(Simple {
                place,
                kind: SimpleKind::Struct(name),
            }),
            rest: tokens,
        }),
    }
}

/// The rows behind the first declarator of an item.
#[derive(Clone, Copy)]
enum AfterRow {
    Body,
    Values,
}

fn after_row(kind: Kind) -> Option<AfterRow>
    ensures { TellsRow forms.AfterDeclarator after_form kind result }
{
    if kind.is(Kind::OpenBrace) {
        Some(AfterRow::Body)
    } else if kind.is(Kind::Equal) || kind.is(Kind::Comma) || kind.is(Kind::Semicolon) {
        Some(AfterRow::Values)
    } else {
        None
    }
}

/// Reads the body of a function.
fn read_function(
    alloc: Global,
    tokens: &[Token],
    room: u32,
    base: Box<Base>,
    declarator: Box<Declarator>,
) -> Result<Part<'_, Item>, SyntaxErr>
    ensures gives { GivesPart (Whole forms.Body 0) room (leaves_of tokens.now) (body_in base declarator) item_tree result }
    ensures shorter { IfOk result (λ part. length part.rest.now < length tokens.now) }
{
    if !first_kind(tokens)?.is(Kind::OpenBrace) {
        return Err(SyntaxErr::At(first_place(tokens)));
    }
    let below = room_below(tokens, 1, room)?;
    let opening = pass(tokens, Kind::OpenBrace)?;
    let items = read_block_items(alloc, opening.rest, below)?;
    Ok(Part {
        value: Item::Function {
            base: Box::into_inner(base),
            declarator: Box::into_inner(declarator),
            body: Block {
                place: opening.place,
                items: items.value,
            },
        },
        rest: items.rest,
    })
}

/// Reads what an item declares.
fn read_declared(
    alloc: Global,
    tokens: &[Token],
    room: u32,
    base: Box<Base>,
) -> Result<Part<'_, Item>, SyntaxErr>
    ensures gives { GivesPart (Whole forms.Declared 0) room (leaves_of tokens.now) (shapes.declared_of (base_tree base.value)) item_tree result }
    ensures shorter { IfOk result (λ part. length part.rest.now < length tokens.now) }
{
    if !first_kind(tokens)?.begins_declarator() {
        return Err(SyntaxErr::At(first_place(tokens)));
    }
    has_room(tokens, 1, room)?;
    let declarator = read_declarator(alloc, tokens, room)?;
    let boxed = Box::new(alloc, declarator.value)?;
    read_after_declarator(alloc, declarator.rest, room, base, boxed)
}

/// Reads what follows the first declarator of an item.
fn read_after_declarator(
    alloc: Global,
    tokens: &[Token],
    room: u32,
    base: Box<Base>,
    declarator: Box<Declarator>,
) -> Result<Part<'_, Item>, SyntaxErr>
    ensures gives { GivesPart (Whole forms.AfterDeclarator 0) room (leaves_of tokens.now) (after_in base declarator) item_tree result }
    ensures shorter { IfOk result (λ part. length part.rest.now < length tokens.now) }
{
    match after_row(first_kind(tokens)?) {
        Some(AfterRow::Body) => {
            has_room(tokens, 1, room)?;
            read_function(alloc, tokens, room, base, declarator)
        }
        Some(AfterRow::Values) => {
            let init = read_first_value(alloc, tokens, room)?;
            let first = InitDeclarator {
                declarator: Box::into_inner(declarator),
                init: init.value,
            };
            let declarators = read_declarators(alloc, init.rest, room, first)?;
            Ok(Part {
                value: Item::Declaration {
                    base: Box::into_inner(base),
                    declarators: declarators.value,
                },
                rest: declarators.rest,
            })
        }
        None => Err(SyntaxErr::At(first_place(tokens))),
    }
}

/// The rows behind a struct with which an item begins.
#[derive(Clone, Copy)]
enum TailRow {
    Alone,
    Typed,
}

fn tail_row(kind: Kind) -> Option<TailRow>
    ensures { TellsRow forms.StructTail tail_form kind result }
{
    if kind.is(Kind::Semicolon) {
        Some(TailRow::Alone)
    } else if kind.is(Kind::Const) || kind.begins_declarator() {
        Some(TailRow::Typed)
    } else {
        None
    }
}

/// Reads what follows a struct with which an item begins.
fn read_struct_tail(
    alloc: Global,
    tokens: &[Token],
    room: u32,
    base: Box<Base>,
) -> Result<Part<'_, Item>, SyntaxErr>
    ensures gives { GivesPart (Whole forms.StructTail 0) room (leaves_of tokens.now) (shapes.tail_of (base_tree base.value)) item_tree result }
    ensures shorter { IfOk result (λ part. length part.rest.now < length tokens.now) }
{
    match tail_row(first_kind(tokens)?) {
        Some(TailRow::Alone) => {
            let semicolon = pass(tokens, Kind::Semicolon)?;
            Ok(Part {
                value: Item::Declaration {
                    base: Box::into_inner(base),
                    declarators: Vec::new(alloc),
                },
                rest: semicolon.rest,
            })
        }
        Some(TailRow::Typed) => {
            has_room(tokens, 1, room)?;
            let consts = pass_words(tokens, Words::FullType);
            first_kind(consts.rest)?;
            read_declared(alloc, consts.rest, room, base)
        }
        None => Err(SyntaxErr::At(first_place(tokens))),
    }
}

/// Reads an item that begins with a struct.
fn read_struct_item(alloc: Global, tokens: &[Token], room: u32) -> Result<Part<'_, Item>, SyntaxErr>
    ensures gives { GivesForm forms.ItemStruct room (leaves_of tokens.now) shapes.item_of item_tree result }
    ensures shorter { IfOk result (λ part. length part.rest.now < length tokens.now) }
{
    let word = pass(tokens, Kind::Struct)?;
    let name = pass_name(alloc, word.rest)?;
    let base = read_struct(alloc, name.rest, room, word.place, name.name)?;
    let boxed = Box::new(alloc, base.value)?;
    read_struct_tail(alloc, base.rest, room, boxed)
}

/// Reads `struct`, its name, its members where they are there, and what words may stand behind these. The place is that of
/// the first word of the type.
fn read_struct_base(
    alloc: Global,
    tokens: &[Token],
    room: u32,
    place: Pos,
) -> Result<Part<'_, Base>, SyntaxErr>
    requires { EndsWords NoWord (leaves_of tokens.now) }
    ensures gives { GivesPart (Whole (forms.Base true NoWord) 0) room (leaves_of tokens.now) (shapes.base_from place) base_tree result }
    ensures not_longer { IfOk result (λ part. length part.rest.now ≤ length tokens.now) }
{
    let word = pass(tokens, Kind::Struct)?;
    let name = pass_name(alloc, word.rest)?;
    let base = read_struct(alloc, name.rest, room, place, name.name)?;
    let PassedWords { rest, .. } = pass_words(base.rest, Words::FullType);
    first_kind(rest)?;
    Ok(Part {
        value: base.value,
        rest,
    })
}

/// Reads the words of a type outside functions behind the first one, which stands at the place.
fn read_base(
    alloc: Global,
    tokens: &[Token],
    room: u32,
    place: Pos,
    first: Words,
) -> Result<Part<'_, Base>, SyntaxErr>
    ensures gives { GivesPart (Whole (forms.Base true first) 0) room (leaves_of tokens.now) (shapes.base_from place) base_tree result }
    ensures not_longer { IfOk result (λ part. length part.rest.now ≤ length tokens.now) }
{
    let PassedWords { words, rest } = pass_words(tokens, first);
    match words {
        Words::NoWord => read_struct_base(alloc, rest, room, place),
        _ => {
            first_kind(rest)?;
            Ok(Part {
                value: Base::Simple(Simple {
                    place,
                    kind: words_type(words),
                }),
                rest,
            })
        }
    }
}

/// Reads an item that begins with a word of another type, behind which these words stand.
fn read_typed_item(
    alloc: Global,
    tokens: &[Token],
    room: u32,
    kind: Kind,
    words: Words,
) -> Result<Part<'_, Item>, SyntaxErr>
    ensures gives { GivesForm (forms.ItemTyped kind words) room (leaves_of tokens.now) shapes.item_of item_tree result }
    ensures shorter { IfOk result (λ part. length part.rest.now < length tokens.now) }
{
    let word = pass(tokens, kind)?;
    let base = read_base(alloc, word.rest, room, word.place, words)?;
    let boxed = Box::new(alloc, base.value)?;
    read_declared(alloc, base.rest, room, boxed)
}

/// The rows of an item.
#[derive(Clone, Copy)]
enum ItemRow {
    Storage,
    Struct,
    /// With the words that its first word makes.
    Typed(Words),
}

fn item_row(kind: Kind) -> Option<ItemRow>
    ensures { TellsRow forms.Item (item_form kind) kind result }
{
    if kind.is(Kind::Static) || kind.is(Kind::Extern) {
        return Some(ItemRow::Storage);
    }
    if kind.is(Kind::Struct) {
        return Some(ItemRow::Struct);
    }
    let words = Words::NoWord.with(kind)?;
    Some(ItemRow::Typed(words))
}

/// Reads an item.
fn read_item(alloc: Global, tokens: &[Token], room: u32) -> Result<Part<'_, Item>, SyntaxErr>
    ensures gives { GivesPart (Whole forms.Item 0) room (leaves_of tokens.now) shapes.item_of item_tree result }
    ensures shorter { IfOk result (λ part. length part.rest.now < length tokens.now) }
{
    let mut rest = tokens;
    loop {
        let kind = first_kind(rest)?;
        match item_row(kind) {
            Some(ItemRow::Storage) => {
                let word = pass(rest, kind)?;
                rest = word.rest;
            }
            Some(ItemRow::Struct) => return read_struct_item(alloc, rest, room),
            Some(ItemRow::Typed(words)) => {
                has_room(rest, 1, room)?;
                return read_typed_item(alloc, rest, room, kind, words);
            }
            None => return Err(SyntaxErr::At(first_place(rest))),
        }
    }
}

/// The rows of items.
#[derive(Clone, Copy)]
enum ItemsRow {
    Item,
    End,
}

fn items_row(kind: Kind) -> ItemsRow
    ensures { Tells forms.Items kind (items_form result) }
{
    if kind.begins_item() {
        ItemsRow::Item
    } else {
        ItemsRow::End
    }
}

/// Reads the next item, where there is one.
fn read_next_item(
    alloc: Global,
    tokens: &[Token],
    room: u32,
) -> Result<Part<'_, Option<Item>>, SyntaxErr>
    ensures gives { GivesMore forms.Items room (leaves_of tokens.now) shapes.items_of item_before [] result }
    ensures shorter { IfOk result (λ part. IfSome part.value (λ item. length part.rest.now < length tokens.now)) }
{
    match items_row(first_kind(tokens)?) {
        ItemsRow::Item => {
            let item = read_item(alloc, tokens, room)?;
            Ok(Part {
                value: Some(item.value),
                rest: item.rest,
            })
        }
        ItemsRow::End => Ok(Part {
            value: None,
            rest: tokens,
        }),
    }
}

/// Reads items.
pub(crate) fn read_items(
    alloc: Global,
    tokens: &[Token],
    room: u32,
) -> Result<Part<'_, Vec<Item>>, SyntaxErr>
    ensures { GivesPart (Whole forms.Items 0) room (leaves_of tokens.now) shapes.items_of (λ items. map item_tree items.items) result }
{
    let mut items = Vec::new(alloc);
    let mut rest = tokens;
    loop {
        let next = read_next_item(alloc, rest, room)?;
        rest = next.rest;
        match next.value {
            Some(item) => items.push(item)?,
            None => return Ok(Part { value: items, rest }),
        }
    }
}
