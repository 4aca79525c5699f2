// The stars of a declarator (C17 6.7.6.1).

ghost use Rattle.std.specs.Prelude.{ℕ, ◌+◌, ◌≤◌, length, IfOk};
ghost use Rattle.c_grammar.specs.Forms as forms;
ghost use Rattle.c_grammar.specs.Leaves.{leaves_of};
ghost use Rattle.c_reader.specs.Shapes.{stars_of, stars_after};
ghost use Rattle.c_reader.specs.Steps.{GivesStars};

use crate::syntax_err::SyntaxErr;
use crate::token::{first_kind, pass};
use c_grammar::{Kind, Token};

/// How many stars there were, and the tokens behind them.
#[derive(Clone, Copy)]
pub struct Stars<'a> {
    pub count: usize,
    pub rest: &'a [Token],
}

/// Reads what may follow a star of a declarator: further stars, and `const` among them.
pub fn read_after_star(tokens: &[Token]) -> Result<Stars<'_>, SyntaxErr>
    ensures gives { (room : ℕ) → GivesStars forms.AfterStar stars_after room (leaves_of tokens.now) result }
    ensures counted { IfOk result (λ stars. stars.count + length stars.rest.now ≤ length tokens.now) }
{
    let mut count = 0;
    let mut rest = tokens;
    loop {
        match first_kind(rest)? {
            Kind::Star => {
                rest = pass(rest, Kind::Star)?.rest;
                count += 1;
            }
            Kind::Const => rest = pass(rest, Kind::Const)?.rest,
            _ => return Ok(Stars { count, rest }),
        }
    }
}

/// Reads the stars with which a declarator may begin.
pub fn read_stars(tokens: &[Token]) -> Result<Stars<'_>, SyntaxErr>
    ensures gives { (room : ℕ) → GivesStars forms.Stars stars_of room (leaves_of tokens.now) result }
    ensures counted { IfOk result (λ stars. stars.count + length stars.rest.now ≤ length tokens.now) }
{
    match first_kind(tokens)? {
        Kind::Star => {
            let star = pass(tokens, Kind::Star)?;
            let Stars { count, rest } = read_after_star(star.rest)?;
            Ok(Stars {
                count: count + 1,
                rest,
            })
        }
        _ => {
            Ok(Stars {
                count: 0,
                rest: tokens,
            })
        }
    }
}
