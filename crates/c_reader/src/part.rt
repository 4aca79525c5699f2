// What the parts of the reader answer, where the height of a tree is of no account.

ghost use Rattle.std.specs.Prelude.{◌≡◌, ◌<◌, ◌≤◌, IfErr, OnErr, OnOk};
ghost use Rattle.c_grammar.specs.Leaves.{leaves_of};
ghost use Rattle.c_reader.specs.Shapes.{place_of};

use crate::syntax_err::SyntaxErr;
use crate::token::first_place;
use c_grammar::Token;

/// What was read, and the tokens behind it.
#[derive(Drop)]
pub struct Part<'a, T> {
    pub value: T,
    pub rest: &'a [Token],
}

/// May so many nodes nest in a tree that begins with the first of the tokens?
pub fn has_room(tokens: &[Token], least: u32, room: u32) -> Result<(), SyntaxErr>
    ensures fits { OnOk result (least ≤ room) }
    ensures none { OnErr result (room < least) }
    ensures deep { IfErr result (λ fault. fault ≡ SyntaxErr.TooDeep (place_of (leaves_of tokens.now))) }
{
    if room < least {
        return Err(SyntaxErr::TooDeep(first_place(tokens)));
    }
    Ok(())
}
