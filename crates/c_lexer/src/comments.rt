// Comments (C17 6.4.9), and where a line ends.

ghost use Rattle.std.specs.Prelude.{◌≡◌, ◌<◌, ◌≤◌, ◌+◌, ◌&&◌, ◌==◌, length, drop, slice_index};
ghost use Rattle.std.specs.List.{prefix_len};
ghost use Rattle.c_lexer.specs.Classes.{is_in_line};
ghost use Rattle.c_lexer.specs.Fronts.{line_length, comment_end, as_comment};

use crate::classes::byte_at;
use crate::front::Front;
use crate::lex_err::LexErr;
use run_theory::Pos;

/// Whether a text begins with `//`.
pub(crate) fn is_line_comment(text: &[u8]) -> bool
    ensures { result ≡ (slice_index text.now 0 == 47 && slice_index text.now 1 == 47) }
{
    byte_at(text, 0) == b'/' && byte_at(text, 1) == b'/'
}

/// Whether a text begins with `/*`.
pub(crate) fn is_block_comment(text: &[u8]) -> bool
    ensures { result ≡ (slice_index text.now 0 == 47 && slice_index text.now 1 == 42) }
{
    byte_at(text, 0) == b'/' && byte_at(text, 1) == b'*'
}

/// How many bytes stand before the next end of a line, the first of the text in any case.
pub(crate) fn line_length(text: &[u8]) -> usize
    requires { 0 < length text.now }
    ensures value { result ≡ line_length text.now }
    ensures within { result ≤ length text.now }
{
    1 + line_run(&text[1..])
}

/// How many bytes stand before the first end of a line.
fn line_run(text: &[u8]) -> usize
    ensures value { result ≡ prefix_len is_in_line text.now }
    ensures within { result ≤ length text.now }
{
    let mut length = 0;
    while length < text.len() && text[length] != b'\n' {
        length += 1;
    }
    length
}

/// The comment that a text begins with, which stands at `place`.
pub(crate) fn block_comment(text: &[u8], place: Pos) -> Result<Front, LexErr>
    requires { 2 ≤ length text.now }
    ensures { result ≡ as_comment place (comment_end 2 (drop 2 text.now)) }
{
    match comment_end(text) {
        Some(length) => Ok(Front::Blank(length)),
        None => Err(LexErr::Unclosed(place)),
    }
}

/// How long the comment is that a text begins with.
fn comment_end(text: &[u8]) -> Option<usize>
    requires { 2 ≤ length text.now }
    ensures { result ≡ comment_end 2 (drop 2 text.now) }
{
    let mut rest = &text[2..];
    let mut count = 2;
    while let Some((first, others)) = rest.split_first() {
        if *first == b'*' && byte_at(others, 0) == b'/' {
            return Some(count + 2);
        }
        count += 1;
        rest = others;
    }
    None
}
