// Which row of an expression a token begins, or goes on with.

ghost use Rattle.std.specs.Prelude.{◌≡◌, option_map, IfSome};
ghost use Rattle.c_grammar.specs.Table.{Never};
ghost use Rattle.c_grammar.specs.Kinds.{prefix_level, binary_right};
ghost use Rattle.c_grammar.specs.Chooses.{choose_expr, postfix_of, by_prefix, by_binary, goes_on_by};
ghost use Rattle.c_grammar.specs.Forms as forms;
ghost use Rattle.c_grammar.specs.Leaves.{leaves_of};
ghost use Rattle.c_reader.specs.Shapes.{prefix_of, binary_of, assign_of};
ghost use Rattle.c_reader.specs.Choices.{first_choice, form_of, level_of_next, next_form};

use c_grammar::{Kind, Token};
use c_syntax::{AssignOperator, BinaryOperator, PrefixOperator};

/// How an expression begins.
#[derive(Clone, Copy)]
pub enum First {
    /// A token alone, and no literal.
    Single,
    /// Literals.
    Text,
    Cast,
    Sizeof,
    Wrapped(Wrapping),
}

/// What stands before an operand.
#[derive(Clone, Copy)]
pub enum Wrapping {
    Parenthesis,
    /// An operator of this kind, and how loosely its operand may bind.
    Prefix { kind: Kind, operand: u32 },
}

/// How an expression of a level begins with a token of a kind, where one of another follows.
pub fn first_of(kind: Kind, next: Kind, level: u32) -> Option<First>
    ensures { first_choice kind result ≡ choose_expr level kind next }
{
    if kind.is_single() {
        return Some(First::Single);
    }
    match kind {
        Kind::Literal => Some(First::Text),
        Kind::OpenParenthesis => Some(opened(next, level)),
        Kind::Sizeof => (2 <= level).then_some(First::Sizeof),
        _ => prefix(kind, level),
    }
}

/// What stands behind `(` in an expression of a level.
fn opened(next: Kind, level: u32) -> First
    ensures { first_choice Kind.OpenParenthesis (Some result) ≡ choose_expr level Kind.OpenParenthesis next }
{
    if 3 <= level && next.is_type_word() {
        First::Cast
    } else {
        First::Wrapped(Wrapping::Parenthesis)
    }
}

/// An operator before its operand in an expression of a level.
fn prefix(kind: Kind, level: u32) -> Option<First>
    ensures { first_choice kind result ≡ by_prefix level kind (prefix_level kind) Never }
{
    let operand = kind.prefix_level()?;
    (2 <= level).then_some(First::Wrapped(Wrapping::Prefix { kind, operand }))
}

/// How an expression goes on.
#[derive(Clone, Copy)]
pub enum Next {
    Call,
    Member,
    PointerMember,
    PostIncrement,
    PostDecrement,
    Conditional,
    Joined(Joining),
}

/// What stands between two operands.
#[derive(Clone, Copy)]
pub enum Joining {
    Index,
    /// An assignment operator of this kind.
    Assign(Kind),
    /// An operator of this kind, how loosely its right operand may bind, and how loosely it binds itself.
    Binary { kind: Kind, right: u32, level: u32 },
}

/// How a postfix expression goes on with a token of a kind.
fn postfix(kind: Kind) -> Option<Next>
    ensures form { option_map form_of result ≡ postfix_of kind }
    ensures level { IfSome result (λ next. level_of_next next ≡ forms.level_of_form (form_of next)) }
{
    match kind {
        Kind::OpenBracket => Some(Next::Joined(Joining::Index)),
        Kind::OpenParenthesis => Some(Next::Call),
        Kind::Dot => Some(Next::Member),
        Kind::Arrow => Some(Next::PointerMember),
        Kind::PlusPlus => Some(Next::PostIncrement),
        Kind::MinusMinus => Some(Next::PostDecrement),
        _ => None,
    }
}

/// How an expression that binds as loosely as `own` goes on with a binary operator of a kind.
fn binary(kind: Kind, level: u32, own: u32) -> Option<Next>
    ensures form { option_map form_of result ≡ by_binary level own kind (binary_right kind) }
    ensures level { IfSome result (λ next. level_of_next next ≡ forms.level_of_form (form_of next)) }
{
    let right = kind.binary_right()?;
    (right < level && own <= right + 1).then_some(Next::Joined(Joining::Binary {
        kind,
        right,
        level: right + 1,
    }))
}

/// How an expression that binds as loosely as `own` goes on with a token of a kind, in one of a level.
fn next_of(kind: Kind, level: u32, own: u32) -> Option<Next>
    ensures form { option_map form_of result ≡ goes_on_by forms.Expr level own kind }
    ensures level { IfSome result (λ next. level_of_next next ≡ forms.level_of_form (form_of next)) }
{
    if let Some(next) = postfix(kind) {
        return (own <= 1 && 1 <= level).then_some(next);
    }
    if kind.is_assignment() && own <= 2 && 15 <= level {
        return Some(Next::Joined(Joining::Assign(kind)));
    }
    if kind == Kind::Question && own <= 13 && 14 <= level {
        return Some(Next::Conditional);
    }
    binary(kind, level, own)
}

/// How an expression that binds as loosely as `own` goes on with the tokens behind it, in one of a level.
pub fn next_at(tokens: &[Token], level: u32, own: u32) -> Option<Next>
    ensures form { option_map form_of result ≡ next_form level own (leaves_of tokens.now) }
    ensures level { IfSome result (λ next. level_of_next next ≡ forms.level_of_form (form_of next)) }
{
    match tokens.first() {
        Some(token) => next_of(token.lexeme.kind(), level, own),
        None => None,
    }
}

/// The operator that a kind of token is before an operand.
pub fn prefix_operator(kind: Kind) -> PrefixOperator
    ensures { result ≡ prefix_of kind }
{
    match kind {
        Kind::PlusPlus => PrefixOperator::Increment,
        Kind::MinusMinus => PrefixOperator::Decrement,
        Kind::Ampersand => PrefixOperator::Address,
        Kind::Star => PrefixOperator::Dereference,
        Kind::Plus => PrefixOperator::Plus,
        Kind::Minus => PrefixOperator::Minus,
        Kind::Tilde => PrefixOperator::Complement,
        _ => PrefixOperator::Not,
    }
}

/// The operator that a kind of token is between operands.
pub fn binary_operator(kind: Kind) -> BinaryOperator
    ensures { result ≡ binary_of kind }
{
    match kind {
        Kind::Star => BinaryOperator::Multiply,
        Kind::Slash => BinaryOperator::Divide,
        Kind::Percent => BinaryOperator::Remainder,
        Kind::Plus => BinaryOperator::Add,
        Kind::Minus => BinaryOperator::Subtract,
        Kind::ShiftLeft => BinaryOperator::ShiftLeft,
        Kind::ShiftRight => BinaryOperator::ShiftRight,
        Kind::Less => BinaryOperator::Less,
        Kind::Greater => BinaryOperator::Greater,
        Kind::LessEqual => BinaryOperator::LessEqual,
        Kind::GreaterEqual => BinaryOperator::GreaterEqual,
        Kind::EqualEqual => BinaryOperator::Equal,
        Kind::ExclamationEqual => BinaryOperator::NotEqual,
        Kind::Ampersand => BinaryOperator::BitAnd,
        Kind::Caret => BinaryOperator::BitXor,
        Kind::Bar => BinaryOperator::BitOr,
        Kind::AmpersandAmpersand => BinaryOperator::And,
        _ => BinaryOperator::Or,
    }
}

/// The assignment that a kind of token is.
pub fn assign_operator(kind: Kind) -> AssignOperator
    ensures { result ≡ assign_of kind }
{
    match kind {
        Kind::StarEqual => AssignOperator::Multiply,
        Kind::SlashEqual => AssignOperator::Divide,
        Kind::PercentEqual => AssignOperator::Remainder,
        Kind::PlusEqual => AssignOperator::Add,
        Kind::MinusEqual => AssignOperator::Subtract,
        Kind::ShiftLeftEqual => AssignOperator::ShiftLeft,
        Kind::ShiftRightEqual => AssignOperator::ShiftRight,
        Kind::AmpersandEqual => AssignOperator::BitAnd,
        Kind::CaretEqual => AssignOperator::BitXor,
        Kind::BarEqual => AssignOperator::BitOr,
        _ => AssignOperator::Assign,
    }
}
