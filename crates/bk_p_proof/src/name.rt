// Names of scripts.

ghost use Rattle.std.specs.Prelude.{◌≡◌, ◌<◌, ◌-◌, length, None, Some, IfOk, IfSome, MatchOption};
ghost use Rattle.std.specs.List.{slice_get};
ghost use Rattle.bk_ops.specs.Words.{word_texts};
ghost use Rattle.bk_ops.specs.declared.sign.TheConstants.{DOT};
ghost use Rattle.bk_raw.specs.Grammar.Pieces.{Divided};
ghost use Rattle.bk_raw.specs.Grammar.ScriptSpelling.{PartNamed};
ghost use Rattle.bk_p_expr.specs.Fronts.{Longest, Nothing};
ghost use Rattle.bk_p_proof.specs.Ahead.{part_named};

use crate::token::{after_sign, first_token};
use bk_form::{Token, TokenKind};
use bk_io::{Memory, Text};
use bk_ops::{sign, words};
use bk_raw::NamePart;
use std::alloc::Global;

/// The number of the first word, after those of the signs.
const FIRST_WORD: u16 = 57;

/// A name in front, with dots between its parts, and what stands after it. Where no part stands after a dot, it ends
/// before the dot.
pub(crate) fn name(
    alloc: Global,
    tokens: &[Token],
) -> Result<Option<(Vec<NamePart>, &[Token])>, Memory>
    ensures found { IfOk result (λ r. MatchOption r (Nothing (Divided DOT PartNamed) tokens.now)
        (λ p. Longest (Divided DOT PartNamed) tokens.now p.0.items p.1.now)) }
    ensures shorter { IfOk result (λ r. IfSome r (λ p. length p.1.now < length tokens.now)) }
{
    let Some((first, after)) = part(alloc, tokens)? else {
        return Ok(None);
    };
    let mut all = Vec::new(alloc);
    all.push(first)?;
    let mut rest = after;
    while let Some(behind) = after_sign(rest, sign::DOT) {
        let Some((part, after)) = part(alloc, behind)? else {
            return Ok(Some((all, rest)));
        };
        all.push(part)?;
        rest = after;
    }
    Ok(Some((all, rest)))
}

/// A part of a name in front, and what stands after it.
fn part(alloc: Global, tokens: &[Token]) -> Result<Option<(NamePart, &[Token])>, Memory>
    ensures found { IfOk result (λ r. MatchOption r (Nothing PartNamed tokens.now)
        (λ p. Longest PartNamed tokens.now p.0 p.1.now)) }
    ensures shorter { IfOk result (λ r. IfSome r (λ p. length p.1.now < length tokens.now)) }
{
    let Some((first, rest)) = first_token(tokens) else {
        return Ok(None);
    };
    let Some(part) = part_of(alloc, &first.kind)? else {
        return Ok(None);
    };
    Ok(Some((part, rest)))
}

/// The part of a name that a token is.
fn part_of(alloc: Global, kind: &TokenKind) -> Result<Option<NamePart>, Memory>
    ensures { IfOk result (λ r. MatchOption r (part_named kind.now ≡ None) (λ p. part_named kind.now ≡ Some p)) }
{
    match kind {
        TokenKind::Name(text) => Ok(Some(NamePart::Letters(text.copy(alloc)?))),
        TokenKind::Word(op) => match word_text(alloc, *op)? {
            Some(text) => Ok(Some(NamePart::Letters(text))),
            None => Ok(None),
        },
        TokenKind::Number(value) => match u128::try_from(*value) {
            Ok(number) => Ok(Some(NamePart::Numeral(number))),
            Err(_) => Ok(None),
        },
        _ => Ok(None),
    }
}

/// The letters of the word with this number.
fn word_text(alloc: Global, op: u16) -> Result<Option<Text>, Memory>
    ensures { IfOk result (λ found. MatchOption found (slice_get word_texts (op - 57) ≡ None)
        (λ text. slice_get word_texts (op - 57) ≡ Some text)) }
{
    let words = words();
    match words.get(usize::from(op.saturating_sub(FIRST_WORD))) {
        Some(row) => Ok(Some(Text::from_bytes(Vec::from_slice(alloc, row.text())?))),
        None => Ok(None),
    }
}
