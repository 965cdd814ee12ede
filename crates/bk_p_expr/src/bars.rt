// Whether a bar stands in the brackets that tokens stand in.

ghost use Rattle.std.specs.Prelude.{◌≡◌};
ghost use Rattle.bk_raw.specs.Grammar.Bars.{bar_follows, is_bar};
ghost use Rattle.bk_raw.specs.Grammar.Brackets.{closes_bracket, opens_bracket};
ghost use Rattle.bk_p_expr.specs.Roles.{is_bar_role, is_closing, is_opening};

use bk_form::{Token, TokenKind};
use bk_ops::sign;

/// Whether a bar follows before the bracket closes that the tokens stand in, inside of no further brackets.
pub(crate) fn has_bar(tokens: &[Token]) -> bool
    ensures { result ≡ bar_follows 0 tokens.now }
{
    let mut open: usize = 0;
    for token in tokens {
        match bracket_of(&token.kind) {
            Bracket::Opens => open += 1,
            Bracket::Closes if open == 0 => return false,
            Bracket::Closes => open -= 1,
            Bracket::Bar if open == 0 => return true,
            _ => {}
        }
    }
    false
}

/// What a token is among brackets.
#[derive(Clone, Copy)]
enum Bracket {
    Opens,
    Closes,
    Bar,
    Other,
}

fn bracket_of(kind: &TokenKind) -> Bracket
    ensures bar { is_bar kind.now ≡ is_bar_role result }
    ensures closing { closes_bracket kind.now ≡ is_closing result }
    ensures opening { opens_bracket kind.now ≡ is_opening result }
{
    match kind {
        TokenKind::Sign(op) => bracket_of_sign(*op),
        _ => Bracket::Other,
    }
}

fn bracket_of_sign(op: u16) -> Bracket
    ensures bar { is_bar (TokenKind.Sign op) ≡ is_bar_role result }
    ensures closing { closes_bracket (TokenKind.Sign op) ≡ is_closing result }
    ensures opening { opens_bracket (TokenKind.Sign op) ≡ is_opening result }
{
    match op {
        sign::OPEN_PAREN | sign::OPEN_BRACKET | sign::OPEN_BRACE => Bracket::Opens,
        sign::CLOSE_PAREN | sign::CLOSE_BRACKET | sign::CLOSE_BRACE => Bracket::Closes,
        sign::BAR => Bracket::Bar,
        _ => Bracket::Other,
    }
}
