// How many brackets are open.
ghost use Rattle.std.specs.Prelude.{◌≡◌, ◌<◌, ◌↔◌, ◌^◌, IsTrue};
ghost use Rattle.ereader.specs.Brackets.{open_after, IsTooDeep};
ghost use Rattle.ereader_grammar.specs.View.{plain};

use etoken::token::{Placed, Sign, Token};

/// How many brackets may be open at once.
const MOST_OPEN: usize = 100;

/// Whether more than `MOST_OPEN` brackets are open at once.
pub fn is_too_deep(tokens: &[Placed]) -> bool
    ensures { IsTrue result ↔ IsTooDeep (plain tokens.now) }
{
    let mut depth = 0;
    for placed in tokens {
        depth = depth_after(depth, &placed.token);
        if depth > MOST_OPEN {
            return true;
        }
    }
    false
}

/// How many brackets are open behind a token, where `depth` are before it.
fn depth_after(depth: usize, token: &Token) -> usize
    requires { depth < 2 ^ 63 }
    ensures { result ≡ open_after depth token.now }
{
    match token {
        Token::Sign(Sign::OpenRound | Sign::OpenSquare | Sign::OpenCurly) => depth + 1,
        Token::Sign(Sign::CloseRound | Sign::CloseSquare | Sign::CloseCurly) => {
            depth.saturating_sub(1)
        }
        _ => depth,
    }
}
