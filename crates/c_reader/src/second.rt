// Rows that their second token decides.

ghost use Rattle.std.specs.Prelude.{◌≡◌, IfOk, IfErr};
ghost use Rattle.c_grammar.specs.Runs.{Whole};
ghost use Rattle.c_grammar.specs.Chooses.{choose_nested};
ghost use Rattle.c_grammar.specs.Forms as forms;
ghost use Rattle.c_grammar.specs.Leaves.{leaves_of};
ghost use Rattle.c_reader.specs.Readings.{Fails, Begins};
ghost use Rattle.c_reader.specs.Choices.{sizeof_form, direct_form, opened_choice};
ghost use Rattle.c_reader.specs.Steps.{BeginsRow, direct_starts};

use crate::syntax_err::SyntaxErr;
use crate::token::{first_kind, first_place, pass, room_below, second_kind};
use c_grammar::{Kind, Token};

/// What `sizeof` is of.
#[derive(Clone, Copy)]
pub enum SizeofRow {
    Type,
    Expr,
}

/// The row of the operand of `sizeof`, where there is room for it.
pub fn sizeof_row(tokens: &[Token], room: u32) -> Result<SizeofRow, SyntaxErr>
    ensures begins { IfOk result (λ row. BeginsRow forms.SizeofOperand 0 room (leaves_of tokens.now) (sizeof_form row)) }
    ensures fails { IfErr result (λ fault. Fails (Whole forms.SizeofOperand 0) room (leaves_of tokens.now) fault) }
{
    let kind = first_kind(tokens)?;
    if let Kind::OpenParenthesis = kind {
        return opened_operand(tokens, room);
    }
    if !kind.begins_expr() {
        return Err(SyntaxErr::At(first_place(tokens)));
    }
    room_below(tokens, 1, room)?;
    Ok(SizeofRow::Expr)
}

/// The same, where the first token is `(`.
fn opened_operand(tokens: &[Token], room: u32) -> Result<SizeofRow, SyntaxErr>
    requires { Begins Kind.OpenParenthesis (leaves_of tokens.now) }
    ensures begins { IfOk result (λ row. BeginsRow forms.SizeofOperand 0 room (leaves_of tokens.now) (sizeof_form row)) }
    ensures fails { IfErr result (λ fault. Fails (Whole forms.SizeofOperand 0) room (leaves_of tokens.now) fault) }
{
    let open = pass(tokens, Kind::OpenParenthesis)?;
    let next = second_kind(tokens);
    if next.is_type_word() {
        return Ok(SizeofRow::Type);
    }
    if !next.begins_expr() {
        return Err(SyntaxErr::At(first_place(open.rest)));
    }
    room_below(open.rest, 2, room)?;
    Ok(SizeofRow::Expr)
}

/// What a declarator without stars, which may lack its name, begins with.
#[derive(Clone, Copy)]
pub enum DirectRow {
    /// Its name.
    Name,
    /// A declarator in parentheses.
    Nested,
    /// Parameters.
    Function,
    /// The length of an array.
    Array,
}

/// The row of a declarator without stars, which may lack its name, where there is room for it. With `named` it may have
/// one.
pub fn direct_row(tokens: &[Token], named: bool, room: u32) -> Result<DirectRow, SyntaxErr>
    ensures begins { IfOk result (λ row. BeginsRow (forms.ParamDirect named) 0 room (leaves_of tokens.now) (direct_form named row)) }
    ensures starts { IfOk result (λ row. direct_starts row (leaves_of tokens.now)) }
    ensures fails { IfErr result (λ fault. Fails (Whole (forms.ParamDirect named) 0) room (leaves_of tokens.now) fault) }
{
    match first_kind(tokens)? {
        Kind::OpenParenthesis => opened_direct(tokens, named, room),
        Kind::OpenBracket => Ok(DirectRow::Array),
        Kind::Name if named => Ok(DirectRow::Name),
        _ => Err(SyntaxErr::At(first_place(tokens))),
    }
}

/// The same, where the first token is `(`.
fn opened_direct(tokens: &[Token], named: bool, room: u32) -> Result<DirectRow, SyntaxErr>
    requires { Begins Kind.OpenParenthesis (leaves_of tokens.now) }
    ensures begins { IfOk result (λ row. BeginsRow (forms.ParamDirect named) 0 room (leaves_of tokens.now) (direct_form named row)) }
    ensures starts { IfOk result (λ row. direct_starts row (leaves_of tokens.now)) }
    ensures fails { IfErr result (λ fault. Fails (Whole (forms.ParamDirect named) 0) room (leaves_of tokens.now) fault) }
{
    let open = pass(tokens, Kind::OpenParenthesis)?;
    match behind_open(second_kind(tokens), named) {
        Some(Opened::Function) => Ok(DirectRow::Function),
        Some(Opened::Nested) => {
            room_below(open.rest, 1, room)?;
            Ok(DirectRow::Nested)
        }
        None => Err(SyntaxErr::At(first_place(open.rest))),
    }
}

/// What stands behind `(` in a declarator that may lack its name.
#[derive(Clone, Copy)]
enum Opened {
    Function,
    Nested,
}

/// What stands behind `(` where this token follows.
fn behind_open(next: Kind, named: bool) -> Option<Opened>
    ensures { opened_choice named result ≡ choose_nested named next }
{
    if next == Kind::CloseParenthesis || next.is_type_word() {
        return Some(Opened::Function);
    }
    (next == Kind::Star || next.begins_direct(named)).then_some(Opened::Nested)
}
