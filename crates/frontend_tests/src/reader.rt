// Texts of which each character stands for a token.

use c_grammar::{ByteString, Kind, Lexeme, Token};
use c_num::IntType;
use c_reader::{SyntaxErr, read};
use run_theory::Pos;
use std::alloc::{AllocError, Global};
use std::test::Fail;

/// The words and punctuators.
const WORDS: [(u8, Kind); 25] = [
    (b'i', Kind::Int),
    (b'v', Kind::Void),
    (b'r', Kind::Return),
    (b's', Kind::Struct),
    (b'c', Kind::Const),
    (b'f', Kind::If),
    (b'e', Kind::Else),
    (b'w', Kind::While),
    (b'd', Kind::Do),
    (b'o', Kind::For),
    (b'h', Kind::Switch),
    (b'k', Kind::Case),
    (b'u', Kind::Default),
    (b'b', Kind::Break),
    (b't', Kind::Static),
    (b'(', Kind::OpenParenthesis),
    (b')', Kind::CloseParenthesis),
    (b'{', Kind::OpenBrace),
    (b'}', Kind::CloseBrace),
    (b';', Kind::Semicolon),
    (b',', Kind::Comma),
    (b':', Kind::Colon),
    (b'*', Kind::Star),
    (b'+', Kind::Plus),
    (b'=', Kind::Equal),
];

/// Texts, each with what `outcome` is for it.
const PROGRAMS: [(&str, u32); 19] = [
    ("$", 2000),
    ("ix(v){r1;}$", 2001),
    ("ix(v){r1+;}$", 10),
    ("csx;$", 4),
    ("sx;sx{ix,x;ix;};tix=1,x;$", 2003),
    ("sx{};$", 4),
    ("ix(v){f(1)x;ed;w(x);ix={1,{x,},};o(;;){}}$", 2001),
    ("ix(v){f(1)x;edxw(1);}$", 16),
    (
        "ix(v){f(1)x;edx;w(1);ix={1,{x,},};o(;;){}h(x){k1:x=1;b;u:b;}}$",
        2001,
    ),
    ("ix(v){h(x){ix;}}$", 12),
    ("ix(v){r1;}$$", 12),
    ("ix(v){r;}i$", 11),
    ("csx{ix;}x;$", 2001),
    ("cix;$", 2001),
    ("ciix;$", 3),
    ("ix", 1),
    ("sxcx;$", 2001),
    ("ix{r;}$", 2001),
    ("ix,x{r;}$", 5),
];

/// Five pieces, of which the second and the fourth are repeated so many times, and what `outcome` is for the text.
const NESTED: [([&str; 5], u32, u32); 7] = [
    (["ix(v){r", "(", "1", ")", ";}$"], 197, 2001),
    (["ix(v){r", "(", "1", ")", ";}$"], 198, 1205),
    (["ix(v){", "{", "", "}", "}$"], 198, 2001),
    (["ix(v){", "{", "", "}", "}$"], 199, 2001),
    (["ix(v){", "{", "", "}", "}$"], 200, 1206),
    (["ix(v){", "f(1)", ";", "", "}$"], 198, 2001),
    (["ix(v){", "f(1)", ";", "", "}$"], 199, 1799),
];

fn word(c: u8) -> Kind {
    for (byte, kind) in WORDS {
        if byte == c {
            return kind;
        }
    }
    Kind::Reserved
}

fn lexeme(alloc: Global, c: u8) -> Result<Lexeme, AllocError> {
    match c {
        b'x' => Ok(Lexeme::Name(ByteString::from_slice(alloc, b"x")?)),
        b'1' => Ok(Lexeme::Integer {
            value: 1,
            int_type: IntType::Int,
        }),
        b'$' => Ok(Lexeme::EndOfText),
        _ => Ok(Lexeme::Fixed(word(c))),
    }
}

/// The tokens of a text, each one column behind the one before it.
fn tokens(alloc: Global, text: &[u8]) -> Result<Vec<Token>, AllocError> {
    let mut tokens = Vec::new(alloc);
    let mut column: u32 = 1;
    for c in text {
        tokens.push(Token {
            lexeme: lexeme(alloc, *c)?,
            start: 0,
            end: 0,
            place: Pos { line: 1, column },
        })?;
        column = column.wrapping_add(1);
    }
    Ok(tokens)
}

/// The items of the program and 2000 more; or the column of the token that is refused, and 1000 more where nesting is too
/// deep.
fn outcome(alloc: Global, text: &[u8]) -> Result<u32, AllocError> {
    let tokens = tokens(alloc, text)?;
    match read(alloc, &tokens) {
        Ok(program) => {
            let items = u32::try_from(program.items.len()).unwrap_or(0);
            Ok(items.wrapping_add(2000))
        }
        Err(SyntaxErr::At(place)) => Ok(place.column),
        Err(SyntaxErr::TooDeep(place)) => Ok(place.column.wrapping_add(1000)),
        Err(SyntaxErr::OutOfMemory) => Ok(9999),
    }
}

#[test]
fn reads_programs(rt: HostRuntime) -> Result<(), Fail> {
    for (text, expected) in PROGRAMS {
        let found = outcome(rt.alloc(), text.as_bytes())?;
        assert_eq!(rt; found, expected, "{text}");
    }
    Ok(())
}

fn push_times(text: &mut String, piece: &str, count: u32) -> Result<(), AllocError> {
    for _ in 0..count {
        text.push_str(piece)?;
    }
    Ok(())
}

fn nested(alloc: Global, pieces: [&str; 5], count: u32) -> Result<String, AllocError> {
    let mut text = String::new(alloc);
    for (piece, times) in pieces.into_iter().zip([1, count, 1, count, 1]) {
        push_times(&mut text, piece, times)?;
    }
    Ok(text)
}

#[test]
fn nests_so_deep(rt: HostRuntime) -> Result<(), Fail> {
    for (pieces, count, expected) in NESTED {
        let text = nested(rt.alloc(), pieces, count)?;
        let found = outcome(rt.alloc(), text.as_bytes())?;
        assert_eq!(rt; found, expected, "{count} in {text}");
    }
    Ok(())
}
