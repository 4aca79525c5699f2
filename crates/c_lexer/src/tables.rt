// The spellings of the grammar's words and punctuators.

ghost use Rattle.std.specs.Prelude.{◌≡◌, map};
ghost use Rattle.c_lexer.specs.Tables.{words, punctuators, kind_in};

use c_grammar::Kind;

/// The keywords (C17 6.4.1), `NULL` and `EOF`.
const WORDS: [(&[u8], Kind); 46] = [
    (b"auto", Kind::Reserved),
    (b"break", Kind::Break),
    (b"case", Kind::Case),
    (b"char", Kind::Char),
    (b"const", Kind::Const),
    (b"continue", Kind::Continue),
    (b"default", Kind::Default),
    (b"do", Kind::Do),
    (b"double", Kind::Reserved),
    (b"else", Kind::Else),
    (b"enum", Kind::Reserved),
    (b"extern", Kind::Extern),
    (b"float", Kind::Reserved),
    (b"for", Kind::For),
    (b"goto", Kind::Reserved),
    (b"if", Kind::If),
    (b"inline", Kind::Reserved),
    (b"int", Kind::Int),
    (b"long", Kind::Long),
    (b"register", Kind::Reserved),
    (b"restrict", Kind::Reserved),
    (b"return", Kind::Return),
    (b"short", Kind::Short),
    (b"signed", Kind::Signed),
    (b"sizeof", Kind::Sizeof),
    (b"static", Kind::Static),
    (b"struct", Kind::Struct),
    (b"switch", Kind::Switch),
    (b"typedef", Kind::Reserved),
    (b"union", Kind::Reserved),
    (b"unsigned", Kind::Unsigned),
    (b"void", Kind::Void),
    (b"volatile", Kind::Reserved),
    (b"while", Kind::While),
    (b"_Alignas", Kind::Reserved),
    (b"_Alignof", Kind::Reserved),
    (b"_Atomic", Kind::Reserved),
    (b"_Bool", Kind::Reserved),
    (b"_Complex", Kind::Reserved),
    (b"_Generic", Kind::Reserved),
    (b"_Imaginary", Kind::Reserved),
    (b"_Noreturn", Kind::Reserved),
    (b"_Static_assert", Kind::Reserved),
    (b"_Thread_local", Kind::Reserved),
    (b"NULL", Kind::Null),
    (b"EOF", Kind::EndOfFile),
];

/// The punctuators (C17 6.4.6).
const PUNCTUATORS: [(&[u8], Kind); 45] = [
    (b"(", Kind::OpenParenthesis),
    (b")", Kind::CloseParenthesis),
    (b"{", Kind::OpenBrace),
    (b"}", Kind::CloseBrace),
    (b"[", Kind::OpenBracket),
    (b"]", Kind::CloseBracket),
    (b";", Kind::Semicolon),
    (b",", Kind::Comma),
    (b":", Kind::Colon),
    (b"?", Kind::Question),
    (b".", Kind::Dot),
    (b"->", Kind::Arrow),
    (b"++", Kind::PlusPlus),
    (b"--", Kind::MinusMinus),
    (b"&", Kind::Ampersand),
    (b"*", Kind::Star),
    (b"+", Kind::Plus),
    (b"-", Kind::Minus),
    (b"~", Kind::Tilde),
    (b"!", Kind::Exclamation),
    (b"/", Kind::Slash),
    (b"%", Kind::Percent),
    (b"<<", Kind::ShiftLeft),
    (b">>", Kind::ShiftRight),
    (b"<", Kind::Less),
    (b">", Kind::Greater),
    (b"<=", Kind::LessEqual),
    (b">=", Kind::GreaterEqual),
    (b"==", Kind::EqualEqual),
    (b"!=", Kind::ExclamationEqual),
    (b"^", Kind::Caret),
    (b"|", Kind::Bar),
    (b"&&", Kind::AmpersandAmpersand),
    (b"||", Kind::BarBar),
    (b"=", Kind::Equal),
    (b"*=", Kind::StarEqual),
    (b"/=", Kind::SlashEqual),
    (b"%=", Kind::PercentEqual),
    (b"+=", Kind::PlusEqual),
    (b"-=", Kind::MinusEqual),
    (b"<<=", Kind::ShiftLeftEqual),
    (b">>=", Kind::ShiftRightEqual),
    (b"&=", Kind::AmpersandEqual),
    (b"^=", Kind::CaretEqual),
    (b"|=", Kind::BarEqual),
];

/// The kind that stands beside a spelling in a table.
fn kind_in(mut table: &[(&[u8], Kind)], spelling: &[u8]) -> Option<Kind>
    ensures { result ≡ kind_in (map (λ row. (row.0.now, row.1)) table.entry.now) spelling.now }
{
    while let [row, rest @ ..] = table {
        if row.0 == spelling {
            return Some(row.1);
        }
        table = rest;
    }
    None
}

/// The kind of a word that is not a name.
pub(crate) fn word_kind(word: &[u8]) -> Option<Kind>
    ensures { result ≡ kind_in words word.now }
{
    kind_in(&WORDS, word)
}

/// The kind of the punctuator that these bytes spell.
pub(crate) fn punctuator_kind(spelling: &[u8]) -> Option<Kind>
    ensures { result ≡ kind_in punctuators spelling.now }
{
    kind_in(&PUNCTUATORS, spelling)
}
