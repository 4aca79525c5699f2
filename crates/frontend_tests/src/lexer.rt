// Texts with their tokens or their refusal, worked out by hand from the rules of C17 6.4.

use c_grammar::{Lexeme, Token};
use c_lexer::{LexErr, tokens};
use c_num::IntType;
use run_theory::Pos;
use std::alloc::{AllocError, Global};
use std::fmt::Write;
use std::process::Abort;
use std::test::Fail;

/// The tokens of a text that isn't longer than any source.
fn tokens_of(alloc: Global, text: &[u8]) -> Result<Vec<Token>, LexErr> {
    if text.len() >= 0x8000_0000 {
        return Err(LexErr::OutOfMemory);
    }
    tokens(alloc, text)
}

fn write_bytes(out: &mut String, bytes: &[u8]) -> Result<(), AllocError> {
    out.push_str("text")?;
    for byte in bytes {
        write!(out, " {byte}")?;
    }
    Ok(())
}

fn write_name(out: &mut String, bytes: &[u8]) -> Result<(), AllocError> {
    for byte in bytes {
        out.push(char::from(*byte))?;
    }
    Ok(())
}

/// A lexeme as the rows below write it: a word or punctuator by its kind, a name by its spelling.
fn write_lexeme(out: &mut String, lexeme: &Lexeme) -> Result<(), AllocError> {
    match lexeme {
        Lexeme::Fixed(kind) => write!(out, "{kind:?}")?,
        Lexeme::Name(name) => write_name(out, name.as_slice())?,
        Lexeme::Integer {
            value,
            int_type: IntType::Int,
        } => write!(out, "{value}")?,
        Lexeme::Integer { value, int_type } => write!(out, "{value} {int_type:?}")?,
        Lexeme::Literal(literal) => write_bytes(out, literal.as_slice())?,
        Lexeme::Character(byte) => write!(out, "byte {byte}")?,
        Lexeme::EndOfText => out.push_str("end")?,
    }
    Ok(())
}

/// The tokens with their places, as `1:1 Int, 1:5 count, 1:10 end`.
fn list(alloc: Global, tokens: &[Token]) -> Result<String, AllocError> {
    let mut out = String::new(alloc);
    let mut comma = "";
    for token in tokens {
        let place = token.place;
        write!(out, "{comma}{place} ")?;
        write_lexeme(&mut out, &token.lexeme)?;
        comma = ", ";
    }
    Ok(out)
}

/// The kind of a refusal, and its place.
fn refusal(error: LexErr) -> (&'static str, Pos) {
    match error {
        LexErr::BadByte(place) => ("BadByte", place),
        LexErr::BadLiteral(place) => ("BadLiteral", place),
        LexErr::Unclosed(place) => ("Unclosed", place),
        LexErr::BadDirective(place) => ("BadDirective", place),
        LexErr::NameTooLong(place) => ("NameTooLong", place),
        LexErr::OutOfMemory => ("OutOfMemory", Pos::start()),
    }
}

/// The tokens of a text, or its refusal, as `BadByte 1:5`.
fn listing(alloc: Global, text: &[u8]) -> Result<String, AllocError> {
    match tokens_of(alloc, text) {
        Ok(found) => list(alloc, &found),
        Err(error) => {
            let (kind, place) = refusal(error);
            format!(in alloc; "{kind} {place}")
        }
    }
}

fn is_listed(rt: &impl Abort, alloc: Global, text: &str, expected: &str) -> Result<(), AllocError> {
    let found = listing(alloc, text.as_bytes())?;
    assert_eq!(rt; found.as_str(), expected, "{text:?}");
    Ok(())
}

/// Each text is listed so.
fn are_listed(rt: &impl Abort, alloc: Global, rows: &[(&str, &str)]) -> Result<(), AllocError> {
    for (text, expected) in rows {
        is_listed(rt, alloc, text, expected)?;
    }
    Ok(())
}

/// Each text is refused so.
fn are_refused(
    rt: &impl Abort,
    alloc: Global,
    expected: &str,
    texts: &[&str],
) -> Result<(), AllocError> {
    for text in texts {
        is_listed(rt, alloc, text, expected)?;
    }
    Ok(())
}

const BAD_NUMBERS: [&str; 21] = [
    "08",
    "0x",
    "0xg",
    "0xu",
    "12ab",
    "1.5",
    "1.",
    "0xE+1",
    "1e-5",
    "1_0",
    "1uu",
    "1ll",
    "1lul",
    "1ulu",
    "0b1",
    "9223372036854775808",
    "9223372036854775808l",
    "18446744073709551616u",
    "0x10000000000000000",
    "02000000000000000000000",
    "99999999999999999999",
];

const BAD_CONSTANTS: [&str; 22] = [
    "''",
    "'''",
    "'ab'",
    "'\u{e9}'",
    "'\\q'",
    "'\\q",
    "'a\\q\n'",
    "'\\400'",
    "'\\400",
    "'\\1234'",
    "'\\x'",
    "'\\x",
    "'\\x100'",
    "'\\x100 1",
    "'\\x1g'",
    "'\\\r\n'",
    "\"\\q",
    "\"\\q\"",
    "\"\\400\"",
    "\"a\\x100\n",
    "\"\\xg\"",
    "\"\\8\"",
];

const OPEN: [&str; 20] = [
    "'", "'ab", "'a\n'", "'\\", "'\\\n'", "'\\'", "'\\1234", "'\\x1g\n", "\"", "\"\n\"", "\"a\n",
    "\"\\", "\"\\\n\"", "\"\\\"", "/*", "/* a", "/*/", "/* * /", "/* a *", "/*\n\n#",
];

const OTHER_BYTES: [&str; 8] = ["$", "@", "`", "\\", "\\\n", "\0", "\u{7f}", "\u{e9}"];

const BAD_DIRECTIVES: [&str; 17] = [
    "#",
    "#\n",
    "#define X",
    "#include",
    "#include <string.h>",
    "#include \"stdio.h\"",
    "#include < stdio.h>",
    "#include <stdio.h> // a",
    "#include <stdio.h> /**/",
    "#include <stdio.h>\r ",
    "#include <stdio.h>\r\r",
    "#include <stdio.h",
    "#inc lude <stdio.h>",
    "#include\u{b}<stdio.h>",
    "##include <stdio.h>",
    "#include <STDIO.h>",
    "#include <stdio.h>;",
];

const DIRECTIVES_AND_COMMENTS: [(&str, &str); 12] = [
    ("#include <stdio.h>", "1:19 end"),
    (
        "#include <stdio.h>\n \t# \t include <stdlib.h> \t\r\n#include<stddef.h>\n a",
        "4:2 a, 4:3 end",
    ),
    ("a\n#include <stdio.h>\nb", "1:1 a, 3:1 b, 3:2 end"),
    ("/* x\n#define y */ a", "2:14 a, 2:15 end"),
    ("a/**/b", "1:1 a, 1:6 b, 1:7 end"),
    ("/***/a/* * / */b", "1:6 a, 1:16 b, 1:17 end"),
    ("// a /* b\nc", "2:1 c, 2:2 end"),
    ("// a \\\nc", "2:1 c, 2:2 end"),
    ("/* // */a", "1:9 a, 1:10 end"),
    ("/* \u{e9} */ // \u{e9}", "1:15 end"),
    ("a//", "1:1 a, 1:4 end"),
    ("\"/*\" a", "1:1 text 47 42, 1:6 a, 1:7 end"),
];

const FIRST_FAULTS: [(&str, &str); 31] = [
    ("\u{1} int main(void){return 0;}", "BadByte 1:1"),
    ("\u{e9} int main(void){return 0;}", "BadByte 1:1"),
    ("/* open int main(void){return 0;}", "Unclosed 1:1"),
    ("int a; /*/  int main(void){return 0;}", "Unclosed 1:8"),
    ("int a = 'a;\n int main(void){return 0;}", "Unclosed 1:9"),
    ("int a = 'ab'; int main(void){return 0;}", "BadLiteral 1:9"),
    ("int a = '\\q'; int main(void){return 0;}", "BadLiteral 1:9"),
    (
        "char *s = \"\\q\n int main(void){return 0;}",
        "BadLiteral 1:11",
    ),
    (
        "int a = '\\x100'; int main(void){return 0;}",
        "BadLiteral 1:9",
    ),
    ("int a = 0xE+1; int main(void){return 0;}", "BadLiteral 1:9"),
    ("int a = 1.5; int main(void){return 0;}", "BadLiteral 1:9"),
    ("int a = 1_0; int main(void){return 0;}", "BadLiteral 1:9"),
    (
        "long a = 9223372036854775808; int main(void){return 0;}",
        "BadLiteral 1:10",
    ),
    (
        "long a = 0x10000000000000000; int main(void){return 0;}",
        "BadLiteral 1:10",
    ),
    (
        "long a = 9223372036854775808l; int main(void){return 0;}",
        "BadLiteral 1:10",
    ),
    (
        "#include <string.h>\n int main(void){return 0;}",
        "BadDirective 1:1",
    ),
    (
        "  #define X\n int main(void){return 0;}",
        "BadDirective 1:3",
    ),
    (
        "#include < stdio.h>\n int main(void){return 0;}",
        "BadDirective 1:1",
    ),
    (
        "\u{c}#include <stdio.h>\n int main(void){return 0;}",
        "BadByte 1:2",
    ),
    ("int main(void) { return 0x; }", "BadLiteral 1:25"),
    ("int main(void) { return 08; }", "BadLiteral 1:25"),
    ("int\r\n\t\u{b}\u{c} main\n  (\u{7f}", "BadByte 3:4"),
    ("0 08 # '", "BadLiteral 1:3"),
    ("a # 08", "BadByte 1:3"),
    ("/**/#include <stdio.h>", "BadByte 1:5"),
    ("/*\n*/ #include <stdio.h>", "BadByte 2:4"),
    ("\u{b}#", "BadByte 1:2"),
    ("\r#", "BadByte 1:2"),
    ("'a' 'b\n 08", "Unclosed 1:5"),
    ("a\n \t# b", "BadDirective 2:3"),
    ("a\n /* b", "Unclosed 2:2"),
];

const KEYWORDS: [(&str, &str); 14] = [
    (
        "auto break case char",
        "1:1 Reserved, 1:6 Break, 1:12 Case, 1:17 Char, 1:21 end",
    ),
    (
        "const continue default do",
        "1:1 Const, 1:7 Continue, 1:16 Default, 1:24 Do, 1:26 end",
    ),
    (
        "double else enum extern",
        "1:1 Reserved, 1:8 Else, 1:13 Reserved, 1:18 Extern, 1:24 end",
    ),
    (
        "float for goto if",
        "1:1 Reserved, 1:7 For, 1:11 Reserved, 1:16 If, 1:18 end",
    ),
    (
        "inline int long register",
        "1:1 Reserved, 1:8 Int, 1:12 Long, 1:17 Reserved, 1:25 end",
    ),
    (
        "restrict return short signed",
        "1:1 Reserved, 1:10 Return, 1:17 Short, 1:23 Signed, 1:29 end",
    ),
    (
        "sizeof static struct switch",
        "1:1 Sizeof, 1:8 Static, 1:15 Struct, 1:22 Switch, 1:28 end",
    ),
    (
        "typedef union unsigned void",
        "1:1 Reserved, 1:9 Reserved, 1:15 Unsigned, 1:24 Void, 1:28 end",
    ),
    ("volatile while", "1:1 Reserved, 1:10 While, 1:15 end"),
    (
        "_Alignas _Alignof _Atomic",
        "1:1 Reserved, 1:10 Reserved, 1:19 Reserved, 1:26 end",
    ),
    (
        "_Bool _Complex _Generic",
        "1:1 Reserved, 1:7 Reserved, 1:16 Reserved, 1:24 end",
    ),
    (
        "_Imaginary _Noreturn",
        "1:1 Reserved, 1:12 Reserved, 1:21 end",
    ),
    (
        "_Static_assert _Thread_local",
        "1:1 Reserved, 1:16 Reserved, 1:29 end",
    ),
    (
        "NULL EOF main getchar putchar",
        "1:1 Null, 1:6 EndOfFile, 1:10 main, 1:15 getchar, 1:23 putchar, 1:30 end",
    ),
];

const PUNCTUATORS: [(&str, &str); 6] = [
    (
        "(){}[];,:?.~",
        "1:1 OpenParenthesis, 1:2 CloseParenthesis, 1:3 OpenBrace, 1:4 CloseBrace, 1:5 OpenBracket, 1:6 CloseBracket, 1:7 Semicolon, 1:8 Comma, 1:9 Colon, 1:10 Question, 1:11 Dot, 1:12 Tilde, 1:13 end",
    ),
    (
        "-> ++ -- & * + - !",
        "1:1 Arrow, 1:4 PlusPlus, 1:7 MinusMinus, 1:10 Ampersand, 1:12 Star, 1:14 Plus, 1:16 Minus, 1:18 Exclamation, 1:19 end",
    ),
    (
        "/ % << >> < > <= >=",
        "1:1 Slash, 1:3 Percent, 1:5 ShiftLeft, 1:8 ShiftRight, 1:11 Less, 1:13 Greater, 1:15 LessEqual, 1:18 GreaterEqual, 1:20 end",
    ),
    (
        "== != ^ | && || =",
        "1:1 EqualEqual, 1:4 ExclamationEqual, 1:7 Caret, 1:9 Bar, 1:11 AmpersandAmpersand, 1:14 BarBar, 1:17 Equal, 1:18 end",
    ),
    (
        "*= /= %= += -=",
        "1:1 StarEqual, 1:4 SlashEqual, 1:7 PercentEqual, 1:10 PlusEqual, 1:13 MinusEqual, 1:15 end",
    ),
    (
        "<<= >>= &= ^= |=",
        "1:1 ShiftLeftEqual, 1:5 ShiftRightEqual, 1:9 AmpersandEqual, 1:12 CaretEqual, 1:15 BarEqual, 1:17 end",
    ),
];

const LONGEST_PIECES: [(&str, &str); 19] = [
    ("a<=b", "1:1 a, 1:2 LessEqual, 1:4 b, 1:5 end"),
    ("a< =b", "1:1 a, 1:2 Less, 1:4 Equal, 1:5 b, 1:6 end"),
    ("===", "1:1 EqualEqual, 1:3 Equal, 1:4 end"),
    ("<<<=", "1:1 ShiftLeft, 1:3 LessEqual, 1:5 end"),
    (">>>=", "1:1 ShiftRight, 1:3 GreaterEqual, 1:5 end"),
    (
        "a+++++b",
        "1:1 a, 1:2 PlusPlus, 1:4 PlusPlus, 1:6 Plus, 1:7 b, 1:8 end",
    ),
    ("--5", "1:1 MinusMinus, 1:3 5, 1:4 end"),
    ("a->b", "1:1 a, 1:2 Arrow, 1:4 b, 1:5 end"),
    (
        "a-->b",
        "1:1 a, 1:2 MinusMinus, 1:4 Greater, 1:5 b, 1:6 end",
    ),
    (
        "a&&&b",
        "1:1 a, 1:2 AmpersandAmpersand, 1:4 Ampersand, 1:5 b, 1:6 end",
    ),
    ("a...", "1:1 a, 1:2 Dot, 1:3 Dot, 1:4 Dot, 1:5 end"),
    (
        "<:%>",
        "1:1 Less, 1:2 Colon, 1:3 Percent, 1:4 Greater, 1:5 end",
    ),
    ("a/ *b", "1:1 a, 1:2 Slash, 1:4 Star, 1:5 b, 1:6 end"),
    ("*/", "1:1 Star, 1:2 Slash, 1:3 end"),
    ("1-1", "1:1 1, 1:2 Minus, 1:3 1, 1:4 end"),
    ("0xF+1", "1:1 15, 1:4 Plus, 1:5 1, 1:6 end"),
    (".5", "1:1 Dot, 1:2 5, 1:3 end"),
    ("a.b", "1:1 a, 1:2 Dot, 1:3 b, 1:4 end"),
    ("inta int1", "1:1 inta, 1:6 int1, 1:10 end"),
];

const NAMES: [(&str, &str); 6] = [
    ("Int int1 _a9Z", "1:1 Int, 1:5 int1, 1:10 _a9Z, 1:14 end"),
    ("_ __ x0", "1:1 _, 1:3 __, 1:6 x0, 1:8 end"),
    (
        "whil whiles eof",
        "1:1 whil, 1:6 whiles, 1:13 eof, 1:16 end",
    ),
    (
        "malloc free exit",
        "1:1 malloc, 1:8 free, 1:13 exit, 1:17 end",
    ),
    (
        "null Main _Boo Alignas",
        "1:1 null, 1:6 Main, 1:11 _Boo, 1:16 Alignas, 1:23 end",
    ),
    ("az AZ_09", "1:1 az, 1:4 AZ_09, 1:9 end"),
];

const NUMBERS: [(&str, &str); 19] = [
    ("0 1 10", "1:1 0, 1:3 1, 1:5 10, 1:7 end"),
    ("2147483647", "1:1 2147483647, 1:11 end"),
    ("2147483648", "1:1 2147483648 Long, 1:11 end"),
    (
        "9223372036854775807",
        "1:1 9223372036854775807 Long, 1:20 end",
    ),
    ("010 00 0777", "1:1 8, 1:5 0, 1:8 511, 1:12 end"),
    ("0x1F 0XaB", "1:1 31, 1:6 171, 1:10 end"),
    (
        "0x7FFFFFFF 0x80000000",
        "1:1 2147483647, 1:12 2147483648 UInt, 1:22 end",
    ),
    ("0xFFFFFFFF", "1:1 4294967295 UInt, 1:11 end"),
    ("0x100000000", "1:1 4294967296 Long, 1:12 end"),
    (
        "0x8000000000000000",
        "1:1 9223372036854775808 ULong, 1:19 end",
    ),
    (
        "0xFFFFFFFFFFFFFFFF",
        "1:1 18446744073709551615 ULong, 1:19 end",
    ),
    (
        "01777777777777777777777",
        "1:1 18446744073709551615 ULong, 1:24 end",
    ),
    ("1u 1U", "1:1 1 UInt, 1:4 1 UInt, 1:6 end"),
    (
        "4294967295u 4294967296u",
        "1:1 4294967295 UInt, 1:13 4294967296 ULong, 1:24 end",
    ),
    (
        "18446744073709551615u",
        "1:1 18446744073709551615 ULong, 1:22 end",
    ),
    ("1l 0L", "1:1 1 Long, 1:4 0 Long, 1:6 end"),
    (
        "0x8000000000000000l",
        "1:1 9223372036854775808 ULong, 1:20 end",
    ),
    (
        "1lu 1UL 1Lu 0ul",
        "1:1 1 ULong, 1:5 1 ULong, 1:9 1 ULong, 1:13 0 ULong, 1:16 end",
    ),
    (
        "0;9(",
        "1:1 0, 1:2 Semicolon, 1:3 9, 1:4 OpenParenthesis, 1:5 end",
    ),
];

const LITERALS: [(&str, &str); 7] = [
    ("\"\"", "1:1 text, 1:3 end"),
    ("\"ab'\"", "1:1 text 97 98 39, 1:6 end"),
    ("\"a\" \"b\"", "1:1 text 97, 1:5 text 98, 1:8 end"),
    (
        "\"\\n\\0\\12a\\1234\"",
        "1:1 text 10 0 10 97 83 52, 1:16 end",
    ),
    ("\"\\x41g\\x00000fF\"", "1:1 text 65 103 255, 1:17 end"),
    ("\"\u{e9}\t#\"", "1:1 text 195 169 9 35, 1:7 end"),
    ("\"\\\"\\\\\"a", "1:1 text 34 92, 1:7 a, 1:8 end"),
];

const LINES_AND_COLUMNS: [(&str, &str); 5] = [
    ("", "1:1 end"),
    ("\n\n", "3:1 end"),
    (" \t\u{b}\u{c}\r ", "1:7 end"),
    (
        "while (a\n\t<= 10)\r\n{\n  a = a;\n}\n",
        "1:1 While, 1:7 OpenParenthesis, 1:8 a, 2:2 LessEqual, 2:5 10, 2:7 CloseParenthesis, 3:1 OpenBrace, 4:3 a, 4:5 Equal, 4:7 a, 4:8 Semicolon, 5:1 CloseBrace, 6:1 end",
    ),
    ("'\\n'\n'\\''a", "1:1 byte 10, 2:1 byte 39, 2:5 a, 2:6 end"),
];

const CHARACTERS: [(&str, &str); 1] = [(
    "'a''\"''\t''\\a''\\b''\\f''\\n''\\r''\\t''\\v''\\\\''\\'''\\\"''\\?''\\0''\\12''\\377''\\x4A''\\x000fF'",
    "1:1 byte 97, 1:4 byte 34, 1:7 byte 9, 1:10 byte 7, 1:14 byte 8, 1:18 byte 12, 1:22 byte 10, 1:26 byte 13, 1:30 byte 9, 1:34 byte 11, 1:38 byte 92, 1:42 byte 39, 1:46 byte 34, 1:50 byte 63, 1:54 byte 0, 1:58 byte 10, 1:63 byte 255, 1:69 byte 74, 1:75 byte 255, 1:84 end",
)];

#[test]
fn refuses_at_the_first_byte(rt: HostRuntime) -> Result<(), Fail> {
    let alloc = rt.alloc();
    are_refused(&rt, alloc, "BadLiteral 1:1", &BAD_NUMBERS)?;
    are_refused(&rt, alloc, "BadLiteral 1:1", &BAD_CONSTANTS)?;
    are_refused(&rt, alloc, "Unclosed 1:1", &OPEN)?;
    are_refused(&rt, alloc, "BadByte 1:1", &OTHER_BYTES)?;
    are_refused(&rt, alloc, "BadDirective 1:1", &BAD_DIRECTIVES)?;
    Ok(())
}

#[test]
fn refuses_the_first_fault(rt: HostRuntime) -> Result<(), Fail> {
    are_listed(&rt, rt.alloc(), &FIRST_FAULTS)?;
    Ok(())
}

#[test]
fn finds_each_token(rt: HostRuntime) -> Result<(), Fail> {
    let alloc = rt.alloc();
    are_listed(&rt, alloc, &DIRECTIVES_AND_COMMENTS)?;
    are_listed(&rt, alloc, &KEYWORDS)?;
    are_listed(&rt, alloc, &PUNCTUATORS)?;
    are_listed(&rt, alloc, &LONGEST_PIECES)?;
    are_listed(&rt, alloc, &NAMES)?;
    are_listed(&rt, alloc, &NUMBERS)?;
    are_listed(&rt, alloc, &LITERALS)?;
    are_listed(&rt, alloc, &LINES_AND_COLUMNS)?;
    are_listed(&rt, alloc, &CHARACTERS)?;
    Ok(())
}

/// The bytes of each token, its first and the one behind its last.
fn spans(alloc: Global, tokens: &[Token]) -> Result<Vec<(usize, usize)>, AllocError> {
    tokens
        .iter()
        .map(|token| (token.start, token.end))
        .collect(alloc)
}

#[test]
fn gives_the_span_of_each_token(rt: HostRuntime) -> Result<(), Fail> {
    let expected = [(0, 3), (5, 9), (9, 10), (10, 12), (12, 16), (17, 17)];
    let found = tokens_of(rt.alloc(), b"int\n '\\n';<=name\n")?;
    let found = spans(rt.alloc(), &found)?;
    assert_eq!(rt; found.as_slice(), expected.as_slice());
    Ok(())
}

/// A text, then another again and again, and then a last one.
fn repeated(
    alloc: Global,
    first: &str,
    then: &str,
    times: usize,
    last: &str,
) -> Result<String, AllocError> {
    let mut text = String::from_str(alloc, first)?;
    for _ in 0..times {
        text.push_str(then)?;
    }
    text.push_str(last)?;
    Ok(text)
}

#[test]
fn keeps_a_name_of_255_bytes(rt: HostRuntime) -> Result<(), Fail> {
    let text = repeated(rt.alloc(), "\n", "z", 255, "")?;
    let expected = repeated(rt.alloc(), "2:1 ", "z", 255, ", 2:256 end")?;
    is_listed(&rt, rt.alloc(), &text, &expected)?;
    Ok(())
}

/// A text and how often another follows it, with the listing.
const LONG: [(&str, &str, usize, &str); 12] = [
    ("", "a", 256, "NameTooLong 1:1"),
    ("int\n ", "_", 256, "NameTooLong 2:2"),
    ("int\n ", "_", 1_000_000, "NameTooLong 2:2"),
    ("", "1", 1_000_000, "BadLiteral 1:1"),
    ("'", "a", 1_000_000, "Unclosed 1:1"),
    ("'\\x", "0", 1_000_000, "Unclosed 1:1"),
    ("\"\\1", "1", 1_000_000, "Unclosed 1:1"),
    ("\n/*", "*", 1_000_000, "Unclosed 2:1"),
    ("//", "/", 1_000_000, "1:1000003 end"),
    ("#", " ", 1_000_000, "BadDirective 1:1"),
    ("\n", " ", 1_000_000, "2:1000001 end"),
    ("", "\n", 1_000_000, "1000001:1 end"),
];

#[test]
fn refuses_long_tokens(rt: HostRuntime) -> Result<(), Fail> {
    for (first, then, times, expected) in LONG {
        let text = repeated(rt.alloc(), first, then, times, "")?;
        let found = listing(rt.alloc(), text.as_bytes())?;
        assert_eq!(rt; found.as_str(), expected, "{first:?} {then:?}");
    }
    Ok(())
}

/// The number of tokens, and the place and bytes of the last one where it is the end of the text.
fn ending(tokens: &[Token]) -> Option<(usize, Pos, usize, usize)> {
    let end = tokens.last()?;
    match end.lexeme {
        Lexeme::EndOfText => Some((tokens.len(), end.place, end.start, end.end)),
        _ => None,
    }
}

#[test]
fn reads_a_mebibyte(rt: HostRuntime) -> Result<(), Fail> {
    // lines of 32 bytes and 10 tokens
    let line = "int _a9('x') { '\\x41'; 12345 } \n";
    let text = repeated(rt.alloc(), "", line, 32_768, "")?;
    let found = tokens_of(rt.alloc(), text.as_bytes())?;
    let place = Pos {
        line: 32_769,
        column: 1,
    };
    assert_eq!(rt;
        ending(&found),
        Some((327_681, place, 1_048_576, 1_048_576))
    );
    Ok(())
}
