// A text, token by token.

ghost use Rattle.std.specs.Prelude.{◌≤◌, ◌++◌, length, IfOk, IfErr, MatchResult};
ghost use Rattle.bk_lex.specs.Lexis.{NoComment, AreTokens};
ghost use Rattle.bk_lex.specs.Faults.{IsFaultOf};
ghost use Rattle.bk_lex.specs.Laws.{HasNoTokens};
ghost use Rattle.bk_lex.specs.Parts.{IsFirstIdentifier, IsFirstToken, IsTokenFault, IsAnswer};

use crate::fault::LexFault;
use crate::gap::after_gaps;
use crate::number::{level, number};
use crate::part::{first_dollar, first_identifier, first_numeral, first_sign};
use crate::table::Tables;
use bk_form::{Token, TokenKind};
use bk_io::Text;
use bk_limits::MOST_TOKENS;
use std::alloc::Global;

/// The tokens of a text.
///
/// Each is the longest that fits where it stands. Blanks and comments stand between them.
pub fn tokens(alloc: Global, text: &[u8]) -> Result<Vec<Token>, LexFault>
    ensures ok { IfOk result (λ found. AreTokens text.now found.items) }
    ensures limit { IfOk result (λ found. length found.items ≤ MOST_TOKENS) }
    ensures fault { IfErr result (IsFaultOf text.now) }
    ensures none { IfErr result (HasNoTokens text.now) }
{
    match str::from_utf8(text) {
        Ok(text) => cut(alloc, text),
        Err(error) => Err(LexFault::NotUtf8(error.valid_up_to())),
    }
}

fn cut(alloc: Global, text: &str) -> Result<Vec<Token>, LexFault>
    ensures { MatchResult result (λ found. IsAnswer text.now found.items) (IsFaultOf text.now) }
{
    let tables = Tables::new();
    let mut found = Vec::new(alloc);
    let mut rest = after_gaps(text, text.len())?;
    while !rest.is_empty() {
        let start = text.len() - rest.len();
        let (kind, after) = first_token(alloc, &tables, rest, start)?;
        if found.len() == MOST_TOKENS {
            return Err(LexFault::Limit(start));
        }
        let end = text.len() - after.len();
        found.push(Token { kind, start, end })?;
        rest = after_gaps(after, text.len())?;
    }
    Ok(found)
}

/// The token that the text begins with, and the rest. The text's place in the whole is `start`.
fn first_token<'a>(
    alloc: Global,
    tables: &Tables,
    text: &'a str,
    start: usize,
) -> Result<(TokenKind, &'a str), LexFault>
    requires { NoComment text.now }
    ensures { MatchResult result (λ pair. IsFirstToken pair.0 text.now pair.1.now) (IsTokenFault text.now start) }
{
    if let Some((word, rest)) = first_identifier(text) {
        return first_name(alloc, tables, word, rest, start);
    }
    if let Some((digits, rest)) = first_numeral(text) {
        let Some(number) = number(digits) else {
            return Err(LexFault::NumberTooWide(start));
        };
        return Ok((TokenKind::Number(number), rest));
    }
    if let Some((digits, rest)) = first_dollar(text) {
        let Some(number) = level(digits) else {
            return Err(LexFault::NumberTooWide(start));
        };
        return Ok((TokenKind::BoundName(number), rest));
    }
    let Some((op, rest)) = first_sign(tables, text) else {
        return Err(LexFault::BadChar(start));
    };
    Ok((TokenKind::Sign(op), rest))
}

/// The token that begins with this identifier, and what stands after it.
fn first_name<'a>(
    alloc: Global,
    tables: &Tables,
    word: &[u8],
    rest: &'a str,
    start: usize,
) -> Result<(TokenKind, &'a str), LexFault>
    requires first { IsFirstIdentifier (word.now ++ rest.now) word.now rest.now }
    requires comment { NoComment (word.now ++ rest.now) }
    ensures { MatchResult result
        (λ pair. IsFirstToken pair.0 (word.now ++ rest.now) pair.1.now) (IsTokenFault (word.now ++ rest.now) start) }
{
    if let Some((digits, rest)) = first_dollar(rest) {
        let Some(number) = level(digits) else {
            return Err(LexFault::NumberTooWide(start));
        };
        let name = Text::from_bytes(Vec::from_slice(alloc, word)?);
        return Ok((TokenKind::LevelName(name, number), rest));
    }
    if let Some(op) = tables.word_number(word) {
        return Ok((TokenKind::Word(op), rest));
    }
    let name = Text::from_bytes(Vec::from_slice(alloc, word)?);
    Ok((TokenKind::Name(name), rest))
}
