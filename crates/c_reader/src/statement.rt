// Statements and blocks (C17 6.8).

ghost use Rattle.std.specs.Prelude.{◌≡◌, ◌<◌, ◌≤◌, length, option_map, IfOk};
ghost use Rattle.c_grammar.specs.Runs.{Whole};
ghost use Rattle.c_grammar.specs.Chooses as chooses;
ghost use Rattle.c_grammar.specs.Forms as forms;
ghost use Rattle.c_grammar.specs.Leaves.{leaves_of};
ghost use Rattle.c_syntax.specs.Views.{stmt_tree, for_tree, value_tree};
ghost use Rattle.c_syntax.specs.Trees as trees;
ghost use Rattle.c_reader.specs.Shapes as shapes;
ghost use Rattle.c_reader.specs.Rows.{GivesPart, GivesForm, GivesMore, GivesRow, TellsRow, Tells};
ghost use Rattle.c_reader.specs.StmtForms.{stmt_form, block_form, else_form, for_form, optional_form, switch_form, return_form};
ghost use Rattle.c_reader.specs.ExpressionSteps.{expr_in};
ghost use Rattle.c_reader.specs.StmtLists.{stmt_in, block_before, switch_before, block_in, switch_in};

use crate::declaration::read_declaration;
use crate::expr::read_expr;
use crate::part::{Part, has_room};
use crate::syntax_err::SyntaxErr;
use crate::term::LOOSEST;
use crate::token::{first_kind, first_place, pass, room_below};
use c_grammar::{Kind, Token};
use c_syntax::{Block, BlockItem, Expr, ForFirst, Pos, Stmt, SwitchItem};
use std::alloc::Global;

/// How loosely a constant expression binds (C17 6.6).
const CONDITIONAL: u32 = 14;

/// The rows of a statement.
#[derive(Clone, Copy)]
enum StmtRow {
    Block,
    Empty,
    Expression,
    If,
    While,
    Do,
    For,
    Switch,
    Break,
    Continue,
    Return,
}

impl StmtRow {
    /// How many nodes nest in a least statement of the row.
    fn need(self) -> u32
        ensures needs { result ≡ forms.row_need (stmt_form self) }
        ensures some { 1 ≤ result }
    {
        match self {
            StmtRow::Block => 1,
            StmtRow::Empty => 1,
            StmtRow::Break => 1,
            StmtRow::Continue => 1,
            StmtRow::Return => 1,
            _ => 2,
        }
    }
}

/// The row of a statement that its first token alone tells.
fn leading_row(kind: Kind) -> Option<StmtRow>
    ensures { option_map stmt_form result ≡ chooses.stmt_of kind }
{
    match kind {
        Kind::OpenBrace => Some(StmtRow::Block),
        Kind::Semicolon => Some(StmtRow::Empty),
        Kind::If => Some(StmtRow::If),
        Kind::While => Some(StmtRow::While),
        Kind::Do => Some(StmtRow::Do),
        Kind::For => Some(StmtRow::For),
        Kind::Switch => Some(StmtRow::Switch),
        Kind::Break => Some(StmtRow::Break),
        Kind::Continue => Some(StmtRow::Continue),
        Kind::Return => Some(StmtRow::Return),
        _ => None,
    }
}

fn stmt_row(kind: Kind) -> Option<StmtRow>
    ensures { TellsRow forms.Stmt stmt_form kind result }
{
    match leading_row(kind) {
        Some(row) => Some(row),
        None => {
            if kind.begins_expr() {
                Some(StmtRow::Expression)
            } else {
                None
            }
        }
    }
}

/// Whether a token begins a statement.
fn begins_stmt(kind: Kind) -> bool
    ensures { result ≡ chooses.begins_stmt kind }
{
    match kind {
        Kind::OpenBrace => true,
        Kind::Semicolon => true,
        Kind::If => true,
        Kind::While => true,
        Kind::Do => true,
        Kind::For => true,
        Kind::Switch => true,
        Kind::Break => true,
        Kind::Continue => true,
        Kind::Return => true,
        _ => kind.begins_expr(),
    }
}

/// Reads a statement.
#[cycle(stmt)]
fn read_stmt(alloc: Global, tokens: &[Token], room: u32) -> Result<Part<'_, Box<Stmt>>, SyntaxErr>
    ensures gives { GivesPart (Whole forms.Stmt 0) room (leaves_of tokens.now) shapes.stmt_of stmt_in result }
    ensures shorter { IfOk result (λ part. length part.rest.now < length tokens.now) }
{
    match stmt_row(first_kind(tokens)?) {
        Some(row) => {
            let below = room_below(tokens, row.need(), room)?;
            let stmt = read_stmt_row(alloc, tokens, below, row)?;
            Ok(Part {
                value: Box::new(alloc, stmt.value)?,
                rest: stmt.rest,
            })
        }
        None => Err(SyntaxErr::At(first_place(tokens))),
    }
}

/// Reads a statement of a row.
#[cycle(stmt)]
fn read_stmt_row(
    alloc: Global,
    tokens: &[Token],
    room: u32,
    row: StmtRow,
) -> Result<Part<'_, Stmt>, SyntaxErr>
    ensures gives { GivesForm (stmt_form row) room (leaves_of tokens.now) shapes.stmt_of stmt_tree result }
    ensures shorter { IfOk result (λ part. length part.rest.now < length tokens.now) }
{
    match row {
        StmtRow::Block => read_block_stmt(alloc, tokens, room),
        StmtRow::Empty => read_empty(alloc, tokens, room),
        StmtRow::Expression => read_expression(alloc, tokens, room),
        StmtRow::If => read_if(alloc, tokens, room),
        StmtRow::While => read_while(alloc, tokens, room),
        StmtRow::Do => read_do(alloc, tokens, room),
        StmtRow::For => read_for(alloc, tokens, room),
        StmtRow::Switch => read_switch(alloc, tokens, room),
        StmtRow::Break => read_break(alloc, tokens, room),
        StmtRow::Continue => read_continue(alloc, tokens, room),
        StmtRow::Return => read_return(alloc, tokens, room),
    }
}

/// Reads a block.
#[cycle(stmt)]
fn read_block_stmt(alloc: Global, tokens: &[Token], room: u32) -> Result<Part<'_, Stmt>, SyntaxErr>
    ensures gives { GivesForm forms.Block room (leaves_of tokens.now) shapes.stmt_of stmt_tree result }
    ensures shorter { IfOk result (λ part. length part.rest.now < length tokens.now) }
{
    let opening = pass(tokens, Kind::OpenBrace)?;
    let items = read_block_items(alloc, opening.rest, room)?;
    let block = Block {
        place: opening.place,
        items: items.value,
    };
    Ok(Part {
        value: Stmt::Block(block),
        rest: items.rest,
    })
}

/// Reads a semicolon alone.
fn read_empty(_alloc: Global, tokens: &[Token], room: u32) -> Result<Part<'_, Stmt>, SyntaxErr>
    ensures gives { GivesForm forms.Empty room (leaves_of tokens.now) shapes.stmt_of stmt_tree result }
    ensures shorter { IfOk result (λ part. length part.rest.now < length tokens.now) }
{
    let semicolon = pass(tokens, Kind::Semicolon)?;
    Ok(Part {
        value: Stmt::Empty {
            place: semicolon.place,
        },
        rest: semicolon.rest,
    })
}

/// Reads an expression whose value is dropped.
fn read_expression(alloc: Global, tokens: &[Token], room: u32) -> Result<Part<'_, Stmt>, SyntaxErr>
    ensures gives { GivesForm forms.Expression room (leaves_of tokens.now) shapes.stmt_of stmt_tree result }
    ensures shorter { IfOk result (λ part. length part.rest.now < length tokens.now) }
{
    let value = read_expr(alloc, tokens, LOOSEST, room)?;
    let semicolon = pass(value.rest, Kind::Semicolon)?;
    Ok(Part {
        value: Stmt::Expression(Box::into_inner(value.value)),
        rest: semicolon.rest,
    })
}

/// Reads `if`.
#[cycle(stmt)]
fn read_if(alloc: Global, tokens: &[Token], room: u32) -> Result<Part<'_, Stmt>, SyntaxErr>
    ensures gives { GivesForm forms.IfRow room (leaves_of tokens.now) shapes.stmt_of stmt_tree result }
    ensures shorter { IfOk result (λ part. length part.rest.now < length tokens.now) }
{
    let word = pass(tokens, Kind::If)?;
    let opening = pass(word.rest, Kind::OpenParenthesis)?;
    let condition = read_expr(alloc, opening.rest, LOOSEST, room)?;
    let close = pass(condition.rest, Kind::CloseParenthesis)?;
    let then = read_stmt(alloc, close.rest, room)?;
    let otherwise = read_else(alloc, then.rest, room)?;
    Ok(Part {
        value: if_stmt(word.place, condition.value, then.value, otherwise.value),
        rest: otherwise.rest,
    })
}

/// `if`, with `else` where there is a statement for it.
fn if_stmt(place: Pos, condition: Box<Expr>, then: Box<Stmt>, otherwise: Option<Box<Stmt>>) -> Stmt
    ensures { shapes.if_of place (expr_in condition) (stmt_in then) (option_map stmt_in otherwise) ≡ stmt_tree result }
{
    let condition = Box::into_inner(condition);
    match otherwise {
        Some(otherwise) => Stmt::IfElse {
            place,
            condition,
            then,
            otherwise,
        },
        None => Stmt::If {
            place,
            condition,
            then,
        },
    }
}

/// The rows of `else`, which may be left out.
#[derive(Clone, Copy)]
enum ElseRow {
    Else,
    Nothing,
}

fn else_row(kind: Kind) -> ElseRow
    ensures { Tells forms.ElseOpt kind (else_form result) }
{
    if kind.is(Kind::Else) {
        ElseRow::Else
    } else {
        ElseRow::Nothing
    }
}

/// Reads `else` and its statement, where they are there.
#[cycle(stmt)]
fn read_else(
    alloc: Global,
    tokens: &[Token],
    room: u32,
) -> Result<Part<'_, Option<Box<Stmt>>>, SyntaxErr>
    ensures gives { GivesPart (Whole forms.ElseOpt 0) room (leaves_of tokens.now) shapes.else_of (option_map stmt_in) result }
    ensures not_longer { IfOk result (λ part. length part.rest.now ≤ length tokens.now) }
{
    match else_row(first_kind(tokens)?) {
        ElseRow::Else => {
            has_room(tokens, 1, room)?;
            let word = pass(tokens, Kind::Else)?;
            let stmt = read_stmt(alloc, word.rest, room)?;
            Ok(Part {
                value: Some(stmt.value),
                rest: stmt.rest,
            })
        }
        ElseRow::Nothing => Ok(Part {
            value: None,
            rest: tokens,
        }),
    }
}

/// Reads `while`.
#[cycle(stmt)]
fn read_while(alloc: Global, tokens: &[Token], room: u32) -> Result<Part<'_, Stmt>, SyntaxErr>
    ensures gives { GivesForm forms.WhileRow room (leaves_of tokens.now) shapes.stmt_of stmt_tree result }
    ensures shorter { IfOk result (λ part. length part.rest.now < length tokens.now) }
{
    let word = pass(tokens, Kind::While)?;
    let opening = pass(word.rest, Kind::OpenParenthesis)?;
    let condition = read_expr(alloc, opening.rest, LOOSEST, room)?;
    let close = pass(condition.rest, Kind::CloseParenthesis)?;
    let body = read_stmt(alloc, close.rest, room)?;
    Ok(Part {
        value: Stmt::While {
            place: word.place,
            condition: Box::into_inner(condition.value),
            body: body.value,
        },
        rest: body.rest,
    })
}

/// Reads `do`.
#[cycle(stmt)]
fn read_do(alloc: Global, tokens: &[Token], room: u32) -> Result<Part<'_, Stmt>, SyntaxErr>
    ensures gives { GivesForm forms.DoRow room (leaves_of tokens.now) shapes.stmt_of stmt_tree result }
    ensures shorter { IfOk result (λ part. length part.rest.now < length tokens.now) }
{
    let word = pass(tokens, Kind::Do)?;
    let body = read_stmt(alloc, word.rest, room)?;
    let until = pass(body.rest, Kind::While)?;
    let opening = pass(until.rest, Kind::OpenParenthesis)?;
    let condition = read_expr(alloc, opening.rest, LOOSEST, room)?;
    let close = pass(condition.rest, Kind::CloseParenthesis)?;
    let semicolon = pass(close.rest, Kind::Semicolon)?;
    Ok(Part {
        value: Stmt::Do {
            place: word.place,
            body: body.value,
            condition: Box::into_inner(condition.value),
        },
        rest: semicolon.rest,
    })
}

/// Reads `for`.
#[cycle(stmt)]
fn read_for(alloc: Global, tokens: &[Token], room: u32) -> Result<Part<'_, Stmt>, SyntaxErr>
    ensures gives { GivesForm forms.ForRow room (leaves_of tokens.now) shapes.stmt_of stmt_tree result }
    ensures shorter { IfOk result (λ part. length part.rest.now < length tokens.now) }
{
    let word = pass(tokens, Kind::For)?;
    let opening = pass(word.rest, Kind::OpenParenthesis)?;
    let first = read_for_first(alloc, opening.rest, room)?;
    let start = Box::new(alloc, first.value)?;
    let condition = read_optional(alloc, first.rest, room)?;
    let semicolon = pass(condition.rest, Kind::Semicolon)?;
    let step = read_optional(alloc, semicolon.rest, room)?;
    let close = pass(step.rest, Kind::CloseParenthesis)?;
    let body = read_stmt(alloc, close.rest, room)?;
    Ok(Part {
        value: Stmt::For {
            place: word.place,
            first: Box::into_inner(start),
            condition: unboxed(condition.value),
            step: unboxed(step.value),
            body: body.value,
        },
        rest: body.rest,
    })
}

/// The rows of what a `for` begins with.
#[derive(Clone, Copy)]
enum ForRow {
    Declaration,
    Nothing,
    Expression,
}

fn for_row(kind: Kind) -> Option<ForRow>
    ensures { TellsRow forms.ForFirst for_form kind result }
{
    if kind.is_type_word() {
        Some(ForRow::Declaration)
    } else if kind.is(Kind::Semicolon) {
        Some(ForRow::Nothing)
    } else if kind.begins_expr() {
        Some(ForRow::Expression)
    } else {
        None
    }
}

/// Reads what a `for` begins with.
fn read_for_first(
    alloc: Global,
    tokens: &[Token],
    room: u32,
) -> Result<Part<'_, ForFirst>, SyntaxErr>
    ensures gives { GivesPart (Whole forms.ForFirst 0) room (leaves_of tokens.now) shapes.for_of for_tree result }
    ensures shorter { IfOk result (λ part. length part.rest.now < length tokens.now) }
{
    match for_row(first_kind(tokens)?) {
        Some(ForRow::Declaration) => {
            has_room(tokens, 1, room)?;
            let declaration = read_declaration(alloc, tokens, room)?;
            Ok(Part {
                value: ForFirst::Declaration(declaration.value),
                rest: declaration.rest,
            })
        }
        Some(ForRow::Nothing) => {
            let semicolon = pass(tokens, Kind::Semicolon)?;
            Ok(Part {
                value: ForFirst::Nothing,
                rest: semicolon.rest,
            })
        }
        Some(ForRow::Expression) => {
            has_room(tokens, 1, room)?;
            let value = read_expr(alloc, tokens, LOOSEST, room)?;
            let semicolon = pass(value.rest, Kind::Semicolon)?;
            Ok(Part {
                value: ForFirst::Expression(Box::into_inner(value.value)),
                rest: semicolon.rest,
            })
        }
        None => Err(SyntaxErr::At(first_place(tokens))),
    }
}

/// The rows of an expression that may be left out.
#[derive(Clone, Copy)]
enum OptionalRow {
    Value,
    Nothing,
}

fn optional_row(kind: Kind) -> OptionalRow
    ensures { Tells forms.ExprOpt kind (optional_form result) }
{
    if kind.begins_expr() {
        OptionalRow::Value
    } else {
        OptionalRow::Nothing
    }
}

/// Reads an expression that may be left out.
fn read_optional(
    alloc: Global,
    tokens: &[Token],
    room: u32,
) -> Result<Part<'_, Option<Box<Expr>>>, SyntaxErr>
    ensures gives { GivesPart (Whole forms.ExprOpt 0) room (leaves_of tokens.now) shapes.value_of (option_map expr_in) result }
    ensures not_longer { IfOk result (λ part. length part.rest.now ≤ length tokens.now) }
{
    match optional_row(first_kind(tokens)?) {
        OptionalRow::Value => {
            has_room(tokens, 1, room)?;
            let value = read_expr(alloc, tokens, LOOSEST, room)?;
            Ok(Part {
                value: Some(value.value),
                rest: value.rest,
            })
        }
        OptionalRow::Nothing => Ok(Part {
            value: None,
            rest: tokens,
        }),
    }
}

/// The expression out of its box, where there is one.
fn unboxed(value: Option<Box<Expr>>) -> Option<Expr>
    ensures { value_tree result ≡ option_map expr_in value }
{
    match value {
        Some(value) => Some(Box::into_inner(value)),
        None => None,
    }
}

/// Reads `switch`.
#[cycle(stmt)]
fn read_switch(alloc: Global, tokens: &[Token], room: u32) -> Result<Part<'_, Stmt>, SyntaxErr>
    ensures gives { GivesForm forms.SwitchRow room (leaves_of tokens.now) shapes.stmt_of stmt_tree result }
    ensures shorter { IfOk result (λ part. length part.rest.now < length tokens.now) }
{
    let word = pass(tokens, Kind::Switch)?;
    let opening = pass(word.rest, Kind::OpenParenthesis)?;
    let value = read_expr(alloc, opening.rest, LOOSEST, room)?;
    let close = pass(value.rest, Kind::CloseParenthesis)?;
    let brace = pass(close.rest, Kind::OpenBrace)?;
    let items = read_switch_items(alloc, brace.rest, room)?;
    Ok(Part {
        value: Stmt::Switch {
            place: word.place,
            value: Box::into_inner(value.value),
            items: items.value,
        },
        rest: items.rest,
    })
}

/// Reads `break`.
fn read_break(_alloc: Global, tokens: &[Token], room: u32) -> Result<Part<'_, Stmt>, SyntaxErr>
    ensures gives { GivesForm forms.BreakRow room (leaves_of tokens.now) shapes.stmt_of stmt_tree result }
    ensures shorter { IfOk result (λ part. length part.rest.now < length tokens.now) }
{
    let word = pass(tokens, Kind::Break)?;
    let semicolon = pass(word.rest, Kind::Semicolon)?;
    Ok(Part {
        value: Stmt::Break { place: word.place },
        rest: semicolon.rest,
    })
}

/// Reads `continue`.
fn read_continue(_alloc: Global, tokens: &[Token], room: u32) -> Result<Part<'_, Stmt>, SyntaxErr>
    ensures gives { GivesForm forms.ContinueRow room (leaves_of tokens.now) shapes.stmt_of stmt_tree result }
    ensures shorter { IfOk result (λ part. length part.rest.now < length tokens.now) }
{
    let word = pass(tokens, Kind::Continue)?;
    let semicolon = pass(word.rest, Kind::Semicolon)?;
    Ok(Part {
        value: Stmt::Continue { place: word.place },
        rest: semicolon.rest,
    })
}

/// Reads `return`.
fn read_return(alloc: Global, tokens: &[Token], room: u32) -> Result<Part<'_, Stmt>, SyntaxErr>
    ensures gives { GivesForm forms.ReturnRow room (leaves_of tokens.now) shapes.stmt_of stmt_tree result }
    ensures shorter { IfOk result (λ part. length part.rest.now < length tokens.now) }
{
    let word = pass(tokens, Kind::Return)?;
    let value = read_return_value(alloc, word.rest, room)?;
    Ok(Part {
        value: Stmt::Return {
            place: word.place,
            value: value.value,
        },
        rest: value.rest,
    })
}

/// The rows of what is returned.
#[derive(Clone, Copy)]
enum ReturnRow {
    Nothing,
    Value,
}

fn return_row(kind: Kind) -> Option<ReturnRow>
    ensures { TellsRow forms.ReturnValue return_form kind result }
{
    if kind.is(Kind::Semicolon) {
        Some(ReturnRow::Nothing)
    } else if kind.begins_expr() {
        Some(ReturnRow::Value)
    } else {
        None
    }
}

/// Reads what is returned, and the semicolon.
fn read_return_value(
    alloc: Global,
    tokens: &[Token],
    room: u32,
) -> Result<Part<'_, Option<Expr>>, SyntaxErr>
    ensures gives { GivesPart (Whole forms.ReturnValue 0) room (leaves_of tokens.now) shapes.value_of value_tree result }
    ensures shorter { IfOk result (λ part. length part.rest.now < length tokens.now) }
{
    match return_row(first_kind(tokens)?) {
        Some(ReturnRow::Nothing) => {
            let semicolon = pass(tokens, Kind::Semicolon)?;
            Ok(Part {
                value: None,
                rest: semicolon.rest,
            })
        }
        Some(ReturnRow::Value) => {
            has_room(tokens, 1, room)?;
            let value = read_expr(alloc, tokens, LOOSEST, room)?;
            let semicolon = pass(value.rest, Kind::Semicolon)?;
            Ok(Part {
                value: Some(Box::into_inner(value.value)),
                rest: semicolon.rest,
            })
        }
        None => Err(SyntaxErr::At(first_place(tokens))),
    }
}

/// The rows of what stands in a block.
#[derive(Clone, Copy)]
enum BlockRow {
    End,
    Declaration,
    Statement,
}

fn block_row(kind: Kind) -> Option<BlockRow>
    ensures { TellsRow forms.BlockItems block_form kind result }
{
    if kind.is(Kind::CloseBrace) {
        Some(BlockRow::End)
    } else if kind.is_type_word() {
        Some(BlockRow::Declaration)
    } else if begins_stmt(kind) {
        Some(BlockRow::Statement)
    } else {
        None
    }
}

/// Reads what stands in a block, and the brace that closes it.
#[cycle(stmt)]
pub fn read_block_items(
    alloc: Global,
    tokens: &[Token],
    room: u32,
) -> Result<Part<'_, Vec<BlockItem>>, SyntaxErr>
    ensures gives { GivesPart (Whole forms.BlockItems 0) room (leaves_of tokens.now) shapes.block_of block_in result }
    ensures shorter { IfOk result (λ part. length part.rest.now < length tokens.now) }
{
    let mut items = Vec::new(alloc);
    let mut rest = tokens;
    loop {
        let next = read_block_item(alloc, rest, room)?;
        rest = next.rest;
        match next.value {
            Some(item) => items.push(item)?,
            None => return Ok(Part { value: items, rest }),
        }
    }
}

/// Reads what stands next in a block, or the brace that closes it.
#[cycle(stmt)]
fn read_block_item(
    alloc: Global,
    tokens: &[Token],
    room: u32,
) -> Result<Part<'_, Option<BlockItem>>, SyntaxErr>
    ensures gives { GivesMore forms.BlockItems room (leaves_of tokens.now) shapes.block_of block_before trees.Close result }
    ensures shorter { IfOk result (λ part. length part.rest.now < length tokens.now) }
{
    match block_row(first_kind(tokens)?) {
        Some(BlockRow::End) => {
            let end = pass(tokens, Kind::CloseBrace)?;
            Ok(Part {
                value: None,
                rest: end.rest,
            })
        }
        Some(BlockRow::Declaration) => {
            has_room(tokens, 1, room)?;
            let declaration = read_declaration(alloc, tokens, room)?;
            Ok(Part {
                value: Some(BlockItem::Declaration(declaration.value)),
                rest: declaration.rest,
            })
        }
        Some(BlockRow::Statement) => {
            has_room(tokens, 1, room)?;
            let stmt = read_stmt(alloc, tokens, room)?;
            Ok(Part {
                value: Some(BlockItem::Statement(Box::into_inner(stmt.value))),
                rest: stmt.rest,
            })
        }
        None => Err(SyntaxErr::At(first_place(tokens))),
    }
}

/// The rows of what stands in the braces of a `switch`.
#[derive(Clone, Copy)]
enum SwitchRow {
    End,
    Case,
    Default,
    Statement,
}

fn switch_row(kind: Kind) -> Option<SwitchRow>
    ensures { TellsRow forms.SwitchItems switch_form kind result }
{
    if kind.is(Kind::CloseBrace) {
        Some(SwitchRow::End)
    } else if kind.is(Kind::Case) {
        Some(SwitchRow::Case)
    } else if kind.is(Kind::Default) {
        Some(SwitchRow::Default)
    } else if begins_stmt(kind) {
        Some(SwitchRow::Statement)
    } else {
        None
    }
}

/// Reads what stands in the braces of a `switch`, and the one that closes it.
#[cycle(stmt)]
fn read_switch_items(
    alloc: Global,
    tokens: &[Token],
    room: u32,
) -> Result<Part<'_, Vec<SwitchItem>>, SyntaxErr>
    ensures gives { GivesPart (Whole forms.SwitchItems 0) room (leaves_of tokens.now) shapes.switch_of switch_in result }
    ensures shorter { IfOk result (λ part. length part.rest.now < length tokens.now) }
{
    let mut items = Vec::new(alloc);
    let mut rest = tokens;
    loop {
        let next = read_switch_item(alloc, rest, room)?;
        rest = next.rest;
        match next.value {
            Some(item) => items.push(item)?,
            None => return Ok(Part { value: items, rest }),
        }
    }
}

/// Reads what stands next in the braces of a `switch`, or the one that closes it.
#[cycle(stmt)]
fn read_switch_item(
    alloc: Global,
    tokens: &[Token],
    room: u32,
) -> Result<Part<'_, Option<SwitchItem>>, SyntaxErr>
    ensures gives { GivesMore forms.SwitchItems room (leaves_of tokens.now) shapes.switch_of switch_before trees.SwitchEnd result }
    ensures shorter { IfOk result (λ part. length part.rest.now < length tokens.now) }
{
    match switch_row(first_kind(tokens)?) {
        Some(SwitchRow::End) => {
            let end = pass(tokens, Kind::CloseBrace)?;
            Ok(Part {
                value: None,
                rest: end.rest,
            })
        }
        Some(SwitchRow::Case) => {
            has_room(tokens, 1, room)?;
            read_case(alloc, tokens, room)
        }
        Some(SwitchRow::Default) => read_default(tokens, room),
        Some(SwitchRow::Statement) => {
            has_room(tokens, 1, room)?;
            let stmt = read_stmt(alloc, tokens, room)?;
            Ok(Part {
                value: Some(SwitchItem::Statement(Box::into_inner(stmt.value))),
                rest: stmt.rest,
            })
        }
        None => Err(SyntaxErr::At(first_place(tokens))),
    }
}

/// Reads `case` and its value.
fn read_case(
    alloc: Global,
    tokens: &[Token],
    room: u32,
) -> Result<Part<'_, Option<SwitchItem>>, SyntaxErr>
    ensures gives { GivesRow forms.CaseRow forms.SwitchItems room (leaves_of tokens.now) shapes.switch_of switch_before trees.SwitchEnd result }
    ensures shorter { IfOk result (λ part. length part.rest.now < length tokens.now) }
{
    let word = pass(tokens, Kind::Case)?;
    let value = read_expr(alloc, word.rest, CONDITIONAL, room)?;
    let colon = pass(value.rest, Kind::Colon)?;
    Ok(Part {
        value: Some(SwitchItem::Case {
            place: word.place,
            value: Box::into_inner(value.value),
        }),
        rest: colon.rest,
    })
}

/// Reads `default`.
fn read_default(tokens: &[Token], room: u32) -> Result<Part<'_, Option<SwitchItem>>, SyntaxErr>
    ensures gives { GivesRow forms.DefaultRow forms.SwitchItems room (leaves_of tokens.now) shapes.switch_of switch_before trees.SwitchEnd result }
    ensures shorter { IfOk result (λ part. length part.rest.now < length tokens.now) }
{
    let word = pass(tokens, Kind::Default)?;
    let colon = pass(word.rest, Kind::Colon)?;
    Ok(Part {
        value: Some(SwitchItem::Default { place: word.place }),
        rest: colon.rest,
    })
}
