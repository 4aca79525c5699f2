// The kinds of tokens that the grammar tells apart.

ghost use Rattle.std.specs.Prelude.{◌≡◌};
ghost use Rattle.c_grammar.specs.Kinds.{is_type_word, prefix_level, binary_right, is_assignment, is_single};
ghost use Rattle.c_grammar.specs.Chooses.{begins_expr, begins_declarator, begins_direct};

/// A kind of token (C17 6.4).
#[derive(Clone, Copy, Debug, PartialEq, Eq)]
pub enum Kind {
    /// A name
    Name,
    /// An integer constant
    Integer,
    /// A character constant
    Character,
    /// A literal
    Literal,
    /// The end of the text
    End,
    /// A keyword of C that the language leaves out
    Reserved,
    /// `const`
    Const,
    /// `void`
    Void,
    /// `char`
    Char,
    /// `short`
    Short,
    /// `int`
    Int,
    /// `long`
    Long,
    /// `signed`
    Signed,
    /// `unsigned`
    Unsigned,
    /// `struct`
    Struct,
    /// `static`
    Static,
    /// `extern`
    Extern,
    /// `sizeof`
    Sizeof,
    /// `NULL`
    Null,
    /// `EOF`
    EndOfFile,
    /// `if`
    If,
    /// `else`
    Else,
    /// `while`
    While,
    /// `do`
    Do,
    /// `for`
    For,
    /// `switch`
    Switch,
    /// `case`
    Case,
    /// `default`
    Default,
    /// `break`
    Break,
    /// `continue`
    Continue,
    /// `return`
    Return,
    /// `(`
    OpenParenthesis,
    /// `)`
    CloseParenthesis,
    /// `{`
    OpenBrace,
    /// `}`
    CloseBrace,
    /// `[`
    OpenBracket,
    /// `]`
    CloseBracket,
    /// `;`
    Semicolon,
    /// `,`
    Comma,
    /// `:`
    Colon,
    /// `?`
    Question,
    /// `.`
    Dot,
    /// `->`
    Arrow,
    /// `++`
    PlusPlus,
    /// `--`
    MinusMinus,
    /// `*`
    Star,
    /// `/`
    Slash,
    /// `%`
    Percent,
    /// `+`
    Plus,
    /// `-`
    Minus,
    /// `<<`
    ShiftLeft,
    /// `>>`
    ShiftRight,
    /// `<`
    Less,
    /// `>`
    Greater,
    /// `<=`
    LessEqual,
    /// `>=`
    GreaterEqual,
    /// `==`
    EqualEqual,
    /// `!=`
    ExclamationEqual,
    /// `&`
    Ampersand,
    /// `^`
    Caret,
    /// `|`
    Bar,
    /// `&&`
    AmpersandAmpersand,
    /// `||`
    BarBar,
    /// `~`
    Tilde,
    /// `!`
    Exclamation,
    /// `=`
    Equal,
    /// `*=`
    StarEqual,
    /// `/=`
    SlashEqual,
    /// `%=`
    PercentEqual,
    /// `+=`
    PlusEqual,
    /// `-=`
    MinusEqual,
    /// `<<=`
    ShiftLeftEqual,
    /// `>>=`
    ShiftRightEqual,
    /// `&=`
    AmpersandEqual,
    /// `^=`
    CaretEqual,
    /// `|=`
    BarEqual,
}

impl Kind {
    /// Whether it is a word of a type (C17 6.7.2, 6.7.3).
    pub fn is_type_word(self) -> bool
        ensures { result ≡ is_type_word self }
    {
        match self {
            Kind::Const => true,
            Kind::Void => true,
            Kind::Char => true,
            Kind::Short => true,
            Kind::Int => true,
            Kind::Long => true,
            Kind::Signed => true,
            Kind::Unsigned => true,
            Kind::Struct => true,
            _ => false,
        }
    }

    /// Whether it begins an expression.
    pub fn begins_expr(self) -> bool
        ensures { result ≡ begins_expr self }
    {
        match self {
            Kind::Name => true,
            Kind::Integer => true,
            Kind::Character => true,
            Kind::Literal => true,
            Kind::Null => true,
            Kind::EndOfFile => true,
            Kind::OpenParenthesis => true,
            Kind::Sizeof => true,
            Kind::PlusPlus => true,
            Kind::MinusMinus => true,
            Kind::Star => true,
            Kind::Ampersand => true,
            Kind::Plus => true,
            Kind::Minus => true,
            Kind::Tilde => true,
            Kind::Exclamation => true,
            _ => false,
        }
    }

    /// Whether it is an expression alone (C17 6.5.1), and no literal.
    pub fn is_single(self) -> bool
        ensures { result ≡ is_single self }
    {
        match self {
            Kind::Name => true,
            Kind::Integer => true,
            Kind::Character => true,
            Kind::Null => true,
            Kind::EndOfFile => true,
            _ => false,
        }
    }

    /// Whether it is an assignment operator (C17 6.5.16).
    pub fn is_assignment(self) -> bool
        ensures { result ≡ is_assignment self }
    {
        match self {
            Kind::Equal => true,
            Kind::StarEqual => true,
            Kind::SlashEqual => true,
            Kind::PercentEqual => true,
            Kind::PlusEqual => true,
            Kind::MinusEqual => true,
            Kind::ShiftLeftEqual => true,
            Kind::ShiftRightEqual => true,
            Kind::AmpersandEqual => true,
            Kind::CaretEqual => true,
            Kind::BarEqual => true,
            _ => false,
        }
    }

    /// Of an operator before its operand: how loosely that may bind (C17 6.5.3).
    pub fn prefix_level(self) -> Option<u32>
        ensures { result ≡ prefix_level self }
    {
        match self {
            Kind::PlusPlus => Some(2),
            Kind::MinusMinus => Some(2),
            Kind::Ampersand => Some(3),
            Kind::Star => Some(3),
            Kind::Plus => Some(3),
            Kind::Minus => Some(3),
            Kind::Tilde => Some(3),
            Kind::Exclamation => Some(3),
            _ => None,
        }
    }

    /// Of an operator between two operands that is joined left: how loosely its right operand may bind (C17 6.5.5 to
    /// 6.5.14).
    pub fn binary_right(self) -> Option<u32>
        ensures { result ≡ binary_right self }
    {
        match self {
            Kind::Star => Some(3),
            Kind::Slash => Some(3),
            Kind::Percent => Some(3),
            Kind::Plus => Some(4),
            Kind::Minus => Some(4),
            Kind::ShiftLeft => Some(5),
            Kind::ShiftRight => Some(5),
            Kind::Less => Some(6),
            Kind::Greater => Some(6),
            Kind::LessEqual => Some(6),
            Kind::GreaterEqual => Some(6),
            Kind::EqualEqual => Some(7),
            Kind::ExclamationEqual => Some(7),
            Kind::Ampersand => Some(8),
            Kind::Caret => Some(9),
            Kind::Bar => Some(10),
            Kind::AmpersandAmpersand => Some(11),
            Kind::BarBar => Some(12),
            _ => None,
        }
    }

    /// Whether it begins a declarator.
    pub fn begins_declarator(self) -> bool
        ensures { result ≡ begins_declarator self }
    {
        match self {
            Kind::Star => true,
            Kind::Name => true,
            Kind::OpenParenthesis => true,
            _ => false,
        }
    }

    /// Whether it begins a declarator that has no stars, and that may lack its name. With `named` it may have one.
    pub fn begins_direct(self, named: bool) -> bool
        ensures { result ≡ begins_direct named self }
    {
        match self {
            Kind::Name => named,
            Kind::OpenParenthesis => true,
            Kind::OpenBracket => true,
            _ => false,
        }
    }
}
