// Directives (C17 6.10): the inclusion of three headers is accepted, and passed.

ghost use Rattle.std.specs.Prelude.{◌≡◌, ◌<◌, length};
ghost use Rattle.c_lexer.specs.Fronts.{directive_front, is_accepted, is_known_header, is_header, after_blanks, is_line_end};

use crate::classes::is_blank;
use crate::comments::line_length;
use crate::front::Front;
use crate::lex_err::LexErr;
use run_theory::Pos;

/// The directive whose `#` begins a text and stands at `place`.
pub(crate) fn directive(text: &[u8], place: Pos) -> Result<Front, LexErr>
    requires { 0 < length text.now }
    ensures { result ≡ directive_front place text.now }
{
    let length = line_length(text);
    let line = &text[..length];
    if is_accepted(&line[1..]) {
        Ok(Front::Blank(length))
    } else {
        Err(LexErr::BadDirective(place))
    }
}

/// Whether what follows `#` on its line makes an accepted directive.
fn is_accepted(line: &[u8]) -> bool
    ensures { result ≡ is_accepted line.now }
{
    let word = after_blanks(line);
    word.starts_with(b"include") && is_known_header(after_blanks(&word[7..]))
}

/// Whether a line ends in the name of a header that may be included.
fn is_known_header(name: &[u8]) -> bool
    ensures { result ≡ is_known_header name.now }
{
    is_header(b"<stdio.h>", name)
        || is_header(b"<stdlib.h>", name)
        || is_header(b"<stddef.h>", name)
}

/// Whether nothing stands behind a header's name but spaces and tabs.
fn is_header(header: &[u8], name: &[u8]) -> bool
    ensures { result ≡ is_header header.now name.now }
{
    name.starts_with(header) && is_line_end(after_blanks(&name[header.len()..]))
}

/// What stands behind spaces and tabs.
fn after_blanks(line: &[u8]) -> &[u8]
    ensures { result.now ≡ after_blanks line.now }
{
    let mut rest = line;
    while let Some((first, others)) = rest.split_first() {
        if !is_blank(*first) {
            return rest;
        }
        rest = others;
    }
    rest
}

/// Whether a line ends here, or a CR is its last byte.
fn is_line_end(rest: &[u8]) -> bool
    ensures { result ≡ is_line_end rest.now }
{
    match rest {
        [] => true,
        [last] => *last == b'\r',
        _ => false,
    }
}
