// Rules of proof.

ghost use Rattle.std.specs.Prelude.{◌≡◌, ◌<◌, ◌≤◌, ◌∷◌, map, length, IfOk, IfSome, MatchOption};
ghost use Rattle.bk_raw.specs.Trees.ScriptTree.{RawRule as WrittenRule, rule_kind, shape_of};
ghost use Rattle.bk_raw.specs.Grammar.ScriptSpelling.{Rule};
ghost use Rattle.bk_p_expr.specs.Fronts.{Longest, Nothing};
ghost use Rattle.bk_p_proof.specs.Kept.{IsRule};
ghost use Rattle.bk_p_proof.specs.Kinds.{IsShape, kind_of};
ghost use Rattle.bk_p_proof.specs.Words.{first_named, propositions, hypotheses, rewritings, arithmetic, named_rule};

use crate::part::{PartKind, parts};
use crate::token::first_token;
use bk_form::{Token, TokenKind};
use bk_io::Memory;
use bk_ops::word;
use bk_raw::{RawRule, RuleWord};
use std::alloc::Global;

/// A rule in front, whether one of its terms is too high, and what stands after it.
pub(crate) fn rule(
    alloc: Global,
    tokens: &[Token],
) -> Result<Option<(RawRule, bool, &[Token])>, Memory>
    ensures found { IfOk result (λ r. MatchOption r (Nothing Rule tokens.now)
        (λ p. (x : WrittenRule) × Longest Rule tokens.now x p.2.now × IsRule x p.0 p.1)) }
    ensures shorter { IfOk result (λ r. IfSome r (λ p. length p.2.now < length tokens.now)) }
{
    let Some((first, behind)) = first_token(tokens) else {
        return Ok(None);
    };
    let Some(word) = word_of(&first.kind) else {
        return Ok(None);
    };
    let Some((parts, is_high, rest)) = parts(alloc, shape(&word), behind)? else {
        return Ok(None);
    };
    let at = first.start;
    Ok(Some((RawRule { word, at, parts }, is_high, rest)))
}

/// The rule whose word the token is.
fn word_of(kind: &TokenKind) -> Option<RuleWord>
    ensures { MatchOption result ((w : RuleWord) → rule_kind w ≡ kind.now → ⊥) (λ w. rule_kind w ≡ kind.now) }
{
    match kind {
        TokenKind::Name(text) => named(text.as_bytes()),
        TokenKind::Word(op) if *op == word::NOT => Some(RuleWord::Not),
        TokenKind::Word(op) if *op == word::OR => Some(RuleWord::Or),
        _ => None,
    }
}

/// The rule whose word has these letters.
fn named(text: &[u8]) -> Option<RuleWord>
    ensures { result ≡ named_rule text.now }
{
    if let Some(word) = of_propositions(text) {
        return Some(word);
    }
    if let Some(word) = of_hypotheses(text) {
        return Some(word);
    }
    if let Some(word) = of_rewritings(text) {
        return Some(word);
    }
    of_arithmetic(text)
}

fn of_propositions(text: &[u8]) -> Option<RuleWord>
    ensures { result ≡ first_named propositions text.now }
{
    if text == b"hyp".as_slice() {
        Some(RuleWord::Hyp)
    } else if text == b"true".as_slice() {
        Some(RuleWord::True)
    } else if text == b"same".as_slice() {
        Some(RuleWord::Same)
    } else if text == b"eval".as_slice() {
        Some(RuleWord::Eval)
    } else if text == b"false".as_slice() {
        Some(RuleWord::False)
    } else if text == b"absurd".as_slice() {
        Some(RuleWord::Absurd)
    } else if text == b"and".as_slice() {
        Some(RuleWord::And)
    } else if text == b"iff".as_slice() {
        Some(RuleWord::Iff)
    } else if text == b"imp".as_slice() {
        Some(RuleWord::Imp)
    } else if text == b"left".as_slice() {
        Some(RuleWord::Left)
    } else if text == b"right".as_slice() {
        Some(RuleWord::Right)
    } else {
        None
    }
}

fn of_hypotheses(text: &[u8]) -> Option<RuleWord>
    ensures { result ≡ first_named hypotheses text.now }
{
    if text == b"contra".as_slice() {
        Some(RuleWord::Contra)
    } else if text == b"fix".as_slice() {
        Some(RuleWord::Fix)
    } else if text == b"use".as_slice() {
        Some(RuleWord::UseTerms)
    } else if text == b"split".as_slice() {
        Some(RuleWord::Split)
    } else if text == b"cases".as_slice() {
        Some(RuleWord::Cases)
    } else if text == b"apply".as_slice() {
        Some(RuleWord::Apply)
    } else if text == b"inst".as_slice() {
        Some(RuleWord::Inst)
    } else if text == b"open".as_slice() {
        Some(RuleWord::OpenSome)
    } else if text == b"cut".as_slice() {
        Some(RuleWord::Cut)
    } else if text == b"case".as_slice() {
        Some(RuleWord::Case)
    } else if text == b"drop".as_slice() {
        Some(RuleWord::Drop)
    } else {
        None
    }
}

fn of_rewritings(text: &[u8]) -> Option<RuleWord>
    ensures { result ≡ first_named rewritings text.now }
{
    if text == b"eq".as_slice() {
        Some(RuleWord::Eq)
    } else if text == b"qe".as_slice() {
        Some(RuleWord::Qe)
    } else if text == b"law".as_slice() {
        Some(RuleWord::Law)
    } else if text == b"wal".as_slice() {
        Some(RuleWord::Wal)
    } else if text == b"type".as_slice() {
        Some(RuleWord::TypeOf)
    } else if text == b"neg".as_slice() {
        Some(RuleWord::Neg)
    } else if text == b"mem".as_slice() {
        Some(RuleWord::Mem)
    } else if text == b"val".as_slice() {
        Some(RuleWord::Val)
    } else if text == b"ext".as_slice() {
        Some(RuleWord::Ext)
    } else if text == b"sub".as_slice() {
        Some(RuleWord::Sub)
    } else if text == b"ex".as_slice() {
        Some(RuleWord::Ex)
    } else {
        None
    }
}

fn of_arithmetic(text: &[u8]) -> Option<RuleWord>
    ensures { result ≡ first_named arithmetic text.now }
{
    if text == b"pair".as_slice() {
        Some(RuleWord::Pair)
    } else if text == b"elems".as_slice() {
        Some(RuleWord::Elems)
    } else if text == b"interval".as_slice() {
        Some(RuleWord::Interval)
    } else if text == b"induct".as_slice() {
        Some(RuleWord::Induct)
    } else if text == b"poly".as_slice() {
        Some(RuleWord::Poly)
    } else if text == b"lin".as_slice() {
        Some(RuleWord::Lin)
    } else {
        None
    }
}

/// What the parts after a rule's word are.
fn shape(word: &RuleWord) -> &'static [PartKind]
    ensures shape { map kind_of result.now ≡ shape_of word.now }
    ensures told { IsShape (map kind_of result.now) }
{
    match word {
        RuleWord::Hyp
        | RuleWord::False
        | RuleWord::Split
        | RuleWord::Cases
        | RuleWord::Apply
        | RuleWord::Drop
        | RuleWord::Interval => { &[PartKind::Number] }
        RuleWord::Absurd => { &[PartKind::Number, PartKind::Number] }
        RuleWord::Eval => { &[PartKind::PerhapsPlace] }
        RuleWord::Fix => { &[PartKind::Typed] }
        RuleWord::UseTerms => { &[PartKind::Terms] }
        RuleWord::Inst => { &[PartKind::Number, PartKind::Terms] }
        RuleWord::OpenSome => { &[PartKind::Number, PartKind::Typed] }
        RuleWord::Cut | RuleWord::Case | RuleWord::Pair | RuleWord::Elems => { &[PartKind::Term] }
        RuleWord::Eq | RuleWord::Qe => { &[PartKind::Number, PartKind::Place] }
        RuleWord::Law | RuleWord::Wal => { &[PartKind::Law, PartKind::Place] }
        RuleWord::TypeOf
        | RuleWord::Neg
        | RuleWord::Mem
        | RuleWord::Val
        | RuleWord::Ext
        | RuleWord::Sub
        | RuleWord::Ex => { &[PartKind::Place] }
        RuleWord::Lin => { &[PartKind::Certificate] }
        _ => &[],
    }
}
