//! Which tokens open brackets, and where these are closed.

use bk_form::{Token, TokenKind};
use bk_io::Memory;
use bk_ops::sign;
use std::alloc::Global;

/// Whether the token opens a bracket.
pub(crate) fn opens(token: &Token) -> bool {
    match token.kind {
        TokenKind::Sign(op) => is_opening(op),
        _ => false,
    }
}

/// Whether it closes one.
pub(crate) fn closes(token: &Token) -> bool {
    match token.kind {
        TokenKind::Sign(op) => is_closing(op),
        _ => false,
    }
}

fn is_opening(op: u16) -> bool {
    op == sign::OPEN_PAREN || op == sign::OPEN_BRACKET || op == sign::OPEN_BRACE
}

fn is_closing(op: u16) -> bool {
    op == sign::CLOSE_PAREN || op == sign::CLOSE_BRACKET || op == sign::CLOSE_BRACE
}

/// For each token the one that closes the bracket that it opens; of others, and of brackets that stay open, the number of tokens.
pub(crate) fn closing_tokens(alloc: Global, tokens: &[Token]) -> Result<Vec<usize>, Memory> {
    let mut closing = vec![in alloc; tokens.len(); tokens.len()]?;
    let mut open: Vec<usize> = Vec::new(alloc);
    for (index, token) in tokens.iter().enumerate() {
        if opens(token) {
            open.push(index)?;
        }
        if closes(token) {
            close_last(&mut closing, &mut open, index);
        }
    }
    Ok(closing)
}

// The last open bracket is closed by this token.
fn close_last(closing: &mut Vec<usize>, open: &mut Vec<usize>, index: usize) {
    if let Some(opened) = open.pop() {
        if opened < closing.len() {
            closing[opened] = index;
        }
    }
}
