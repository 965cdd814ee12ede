// How many brackets and blocks are open.

ghost use Rattle.std.specs.Prelude.{◌≡◌, ◌≤◌, MatchOption};
ghost use Rattle.bk_raw.specs.Grammar.Brackets.{opens_bracket, closes_bracket, open_behind, opens_block, closes_block};
ghost use Rattle.bk_raw.specs.Errors.Limits.{IsShallow, IsTooDeep};

use bk_form::{Token, TokenKind};
use bk_limits::MOST_OPEN;
use bk_ops::{sign, word};

/// The first token at which more brackets, or more blocks, are open than may be.
pub fn too_deep(tokens: &[Token]) -> Option<usize>
    ensures { MatchOption result (IsShallow tokens.now) (IsTooDeep tokens.now) }
{
    let mut brackets = 0;
    let mut blocks = 0;
    for place in 0..tokens.len() {
        let kind = &tokens[place].kind;
        brackets = brackets_behind(brackets, kind);
        blocks = blocks_behind(blocks, kind);
        if brackets > MOST_OPEN || blocks > MOST_OPEN {
            return Some(place);
        }
    }
    None
}

fn brackets_behind(before: usize, kind: &TokenKind) -> usize
    requires { before ≤ MOST_OPEN }
    ensures { result ≡ open_behind opens_bracket closes_bracket before kind.now }
{
    match kind {
        TokenKind::Sign(op) => brackets_behind_sign(before, *op),
        _ => before,
    }
}

fn brackets_behind_sign(before: usize, op: u16) -> usize
    requires { before ≤ MOST_OPEN }
    ensures { result ≡ open_behind opens_bracket closes_bracket before (TokenKind.Sign op) }
{
    match op {
        sign::OPEN_PAREN | sign::OPEN_BRACKET | sign::OPEN_BRACE => before + 1,
        sign::CLOSE_PAREN | sign::CLOSE_BRACKET | sign::CLOSE_BRACE => before.saturating_sub(1),
        _ => before,
    }
}

fn blocks_behind(before: usize, kind: &TokenKind) -> usize
    requires { before ≤ MOST_OPEN }
    ensures { result ≡ open_behind opens_block closes_block before kind.now }
{
    match kind {
        TokenKind::Word(op) => blocks_behind_word(before, *op),
        _ => before,
    }
}

fn blocks_behind_word(before: usize, op: u16) -> usize
    requires { before ≤ MOST_OPEN }
    ensures { result ≡ open_behind opens_block closes_block before (TokenKind.Word op) }
{
    match op {
        word::BEGIN
        | word::PRE
        | word::ASSERT
        | word::IF
        | word::CHOICE
        | word::SELECT
        | word::ANY
        | word::LET
        | word::VAR
        | word::WHILE => before + 1,
        word::END => before.saturating_sub(1),
        _ => before,
    }
}
