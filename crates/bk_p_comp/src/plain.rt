// The tokens that a component may be written as.

ghost use Rattle.std.specs.Prelude.{◌≡◌, false};
ghost use Rattle.bk_p_comp.specs.Plain.{before_addition, is_addition, is_brace};

use bk_form::{Token, TokenKind};
use bk_ops::{sign, word};
use bk_raw::is_of_sequences;

/// The tokens before the first addition of printed formulas, or the first sign or word of sequences: no component is written
/// further than up to it.
pub(crate) fn before_addition(tokens: &[Token]) -> &[Token]
    ensures { result.now ≡ before_addition false tokens.now }
{
    let mut behind_brace = false;
    for end in 0..tokens.len() {
        let kind = &tokens[end].kind;
        if is_addition(behind_brace, kind) {
            return &tokens[..end];
        }
        behind_brace = is_brace(kind);
    }
    tokens
}

/// `$n`, `x$n` but `x$0`, `btrue` and `bfalse`, `:` directly after a brace, and a sign or word of sequences.
fn is_addition(behind_brace: bool, kind: &TokenKind) -> bool
    ensures { result ≡ is_addition behind_brace kind.now }
{
    match kind {
        TokenKind::BoundName(_) => true,
        TokenKind::LevelName(_, level) => *level != 0,
        TokenKind::Word(op) => {
            *op == word::BTRUE || *op == word::BFALSE || is_of_sequences(kind)
        }
        TokenKind::Sign(op) => is_of_sequences(kind) || (behind_brace && *op == sign::MEMBER),
        _ => false,
    }
}

fn is_brace(kind: &TokenKind) -> bool
    ensures { result ≡ is_brace kind.now }
{
    match kind {
        TokenKind::Sign(op) => *op == sign::OPEN_BRACE,
        _ => false,
    }
}
