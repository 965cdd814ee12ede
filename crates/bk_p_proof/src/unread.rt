// The tokens that a proof file may be written as.

ghost use Rattle.std.specs.Prelude.{◌≡◌, false};
ghost use Rattle.bk_p_proof.specs.Unread.{before_sequences, is_before_part, is_unread};

use bk_form::{Token, TokenKind};
use bk_ops::sign;
use bk_raw::is_of_sequences;

/// The tokens before the first sign or word of sequences that is no part of a script's name: no scripts are written further than
/// up to it.
pub(crate) fn before_sequences(tokens: &[Token]) -> &[Token]
    ensures { result.now ≡ before_sequences false tokens.now }
{
    let mut is_part = false;
    for end in 0..tokens.len() {
        let kind = &tokens[end].kind;
        if is_unread(is_part, kind) {
            return &tokens[..end];
        }
        is_part = is_before_part(kind);
    }
    tokens
}

/// A sign of sequences, and a word of them that is no part of a name.
fn is_unread(is_part: bool, kind: &TokenKind) -> bool
    ensures { result ≡ is_unread is_part kind.now }
{
    match kind {
        TokenKind::Sign(_) => is_of_sequences(kind),
        TokenKind::Word(_) => !is_part && is_of_sequences(kind),
        _ => false,
    }
}

/// `proof` and `.`: a part of a script's name stands directly behind one of them.
fn is_before_part(kind: &TokenKind) -> bool
    ensures { result ≡ is_before_part kind.now }
{
    match kind {
        TokenKind::Name(text) => text.as_bytes() == b"proof".as_slice(),
        TokenKind::Sign(op) => *op == sign::DOT,
        _ => false,
    }
}
