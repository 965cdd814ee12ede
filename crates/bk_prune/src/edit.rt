//! The changes of a text that make a script shorter.

use crate::numbering::Numbers;
use bk_form::Token;
use bk_io::Memory;
use bk_raw::{RawPlace, RawRule, RawScript, RulePart, RuleWord};
use bk_rule_texts::rule_tokens;
use std::alloc::Global;

/// The bytes from one place up to another give way to a number, or to nothing.
#[derive(Clone, Copy)]
pub(crate) struct Edit {
    pub(crate) start: usize,
    pub(crate) end: usize,
    pub(crate) number: Option<u32>,
}

/// The changes of a text by which the rules of a script go for which there are no numbers, and the others have these numbers; None where
/// a rule that stays names a hypothesis that is gone.
pub(crate) fn edits(
    alloc: Global,
    text: &[u8],
    tokens: &[Token],
    script: &RawScript,
    numberings: &[Option<Numbers>],
) -> Result<Option<Vec<Edit>>, Memory> {
    let mut edits = Vec::new(alloc);
    let tail = tail_of(script, numberings);
    for (index, rule) in script.rules.iter().enumerate() {
        let range = rule_tokens(text, tokens, rule.at);
        match numberings.get(index) {
            Some(Some(numbers)) => {
                if !renumber(&mut edits, tokens, rule, range, numbers)? {
                    return Ok(None);
                }
            }
            _ if index < tail => edits.push(cut(tokens, range))?,
            _ => {}
        }
    }
    if let Some(last) = tail_removal(text, tokens, script, tail) {
        edits.push(last)?;
    }
    Ok(Some(edits))
}

// After which number of rules none stays.
fn tail_of(script: &RawScript, numberings: &[Option<Numbers>]) -> usize {
    let mut tail = 0;
    for index in 0..script.rules.len() {
        if let Some(Some(_)) = numberings.get(index) {
            tail = index + 1;
        }
    }
    tail
}

// A rule goes, and the semicolon after it.
fn cut(tokens: &[Token], range: (usize, usize)) -> Edit {
    let (first, behind) = range;
    Edit {
        start: start_of(tokens, first),
        end: start_of(tokens, behind.saturating_add(1)),
        number: None,
    }
}

// The rules from one on go, and the semicolon before them.
fn tail_removal(text: &[u8], tokens: &[Token], script: &RawScript, tail: usize) -> Option<Edit> {
    let first = script.rules.get(tail)?;
    let last = script.rules.last()?;
    let (start, _) = rule_tokens(text, tokens, first.at);
    let (_, behind) = rule_tokens(text, tokens, last.at);
    Some(Edit {
        start: end_of(tokens, start.checked_sub(2)?),
        end: end_of(tokens, behind.checked_sub(1)?),
        number: None,
    })
}

/// The change by which one rule of a script goes.
pub(crate) fn removal(
    text: &[u8],
    tokens: &[Token],
    script: &RawScript,
    index: usize,
) -> Option<Edit> {
    let rule = script.rules.get(index)?;
    if script.rules.get(index.saturating_add(1)).is_none() {
        return tail_removal(text, tokens, script, index);
    }
    Some(cut(tokens, rule_tokens(text, tokens, rule.at)))
}

fn start_of(tokens: &[Token], index: usize) -> usize {
    match tokens.get(index) {
        Some(token) => token.start,
        None => 0,
    }
}

fn end_of(tokens: &[Token], index: usize) -> usize {
    match tokens.get(index) {
        Some(token) => token.end,
        None => 0,
    }
}

// The numbers in a rule that stays; false where one is that of a hypothesis that is gone.
fn renumber(
    edits: &mut Vec<Edit>,
    tokens: &[Token],
    rule: &RawRule,
    range: (usize, usize),
    numbers: &Numbers,
) -> Result<bool, Memory> {
    let (first, behind) = range;
    let own = own_numbers(&rule.word);
    let mut place = 1usize;
    for part in &rule.parts {
        let fits = match part {
            RulePart::Number(before) if place <= own => {
                let at = first.saturating_add(place);
                place = place.saturating_add(1);
                renumber_one(edits, tokens, at, *before, numbers)?
            }
            RulePart::Place(RawPlace::Hyp(before, path)) => {
                let at = behind.saturating_sub(path.len()).saturating_sub(1);
                renumber_one(edits, tokens, at, *before, numbers)?
            }
            RulePart::Certificate(listed, _) => {
                renumber_listed(edits, tokens, first, listed, numbers)?
            }
            _ => true,
        };
        if !fits {
            return Ok(false);
        }
    }
    Ok(true)
}

// How many numbers of hypotheses stand after the word.
fn own_numbers(word: &RuleWord) -> usize {
    match word {
        RuleWord::Absurd => 2,
        RuleWord::Hyp
        | RuleWord::False
        | RuleWord::Split
        | RuleWord::Cases
        | RuleWord::Apply
        | RuleWord::Inst
        | RuleWord::OpenSome
        | RuleWord::Drop
        | RuleWord::Eq
        | RuleWord::Qe
        | RuleWord::Interval => 1,
        _ => 0,
    }
}

// The token with this number is that of a hypothesis.
fn renumber_one(
    edits: &mut Vec<Edit>,
    tokens: &[Token],
    at: usize,
    before: u128,
    numbers: &Numbers,
) -> Result<bool, Memory> {
    let (Some(token), Some(now)) = (tokens.get(at), numbers.number_now(before)) else {
        return Ok(false);
    };
    if u128::from(now) != before {
        edits.push(Edit {
            start: token.start,
            end: token.end,
            number: Some(now),
        })?;
    }
    Ok(true)
}

// The numbers after `lin`, with commas between.
fn renumber_listed(
    edits: &mut Vec<Edit>,
    tokens: &[Token],
    first: usize,
    listed: &[u128],
    numbers: &Numbers,
) -> Result<bool, Memory> {
    let mut at = first.saturating_add(1);
    for before in listed {
        if !renumber_one(edits, tokens, at, *before, numbers)? {
            return Ok(false);
        }
        at = at.saturating_add(2);
    }
    Ok(true)
}
