// Rules.

ghost use Rattle.std.specs.Prelude.{◌≡◌, ◌∷◌, [], IfOk, MatchOption, map};
ghost use Rattle.std.specs.Option.{option_map};
ghost use Rattle.bk_kernel.specs.declared.rule.Rule.TheVariants.{Inst, OpenSome, Eq, Qe, Law, Wal, Lin};
ghost use Rattle.bk_raw.specs.declared.script.RulePart.{RulePart as Part};
ghost use Rattle.bk_raw.specs.Codes.ScriptView.{part_of};
ghost use Rattle.bk_scripts.specs.Finding.{IsMeaning};
ghost use Rattle.bk_scripts.specs.Grounding.{RuleMeans, StandsFor};
ghost use Rattle.bk_scripts.specs.Parts.{NumberPart, TermPart, TermsPart, NamesPart, PlacePart, PerhapsPart, LawPart, CertificatePart, NoParts, One, Two};
ghost use Rattle.bk_scripts.specs.Reading.{around_of};

use crate::around::Around;
use crate::part::{certificate_part, number_part, perhaps_part, place_part};
use bk_form::Form;
use bk_io::Memory;
use bk_kernel::{Place, Rule};
use bk_lin::Line;
use bk_raw::{RawRule, RulePart, RuleWord};
use std::alloc::Global;

// The only part.
fn only(parts: &[RulePart]) -> Option<&RulePart>
    ensures { MatchOption result ((p : Part) → parts.now ≡ p ∷ [] → ⊥) (λ p. parts.now ≡ p.now ∷ []) }
{
    match parts {
        [part] => Some(part),
        _ => None,
    }
}

// The two parts.
fn both(parts: &[RulePart]) -> Option<(&RulePart, &RulePart)>
    ensures { MatchOption result ((p q : Part) → parts.now ≡ p ∷ q ∷ [] → ⊥) (λ p. parts.now ≡ p.0.now ∷ p.1.now ∷ []) }
{
    match parts {
        [first, second] => Some((first, second)),
        _ => None,
    }
}

// The rule, where there are no parts.
fn bare(parts: &[RulePart], rule: Rule) -> Option<Rule>
    ensures { IsMeaning (λ r. NoParts (map part_of parts.now) × (r ≡ rule)) result }
{
    if parts.is_empty() {
        return Some(rule);
    }
    None
}

fn one_number(parts: &[RulePart]) -> Option<u32>
    ensures { IsMeaning (One NumberPart (map part_of parts.now)) result }
{
    match only(parts) {
        Some(part) => number_part(part),
        None => None,
    }
}

fn two_numbers(parts: &[RulePart]) -> Option<(u32, u32)>
    ensures { IsMeaning (Two NumberPart NumberPart (map part_of parts.now)) result }
{
    let Some((first, second)) = both(parts) else {
        return None;
    };
    let Some(number) = number_part(first) else {
        return None;
    };
    let Some(other) = number_part(second) else {
        return None;
    };
    Some((number, other))
}

fn one_place(alloc: Global, parts: &[RulePart]) -> Result<Option<Place>, Memory>
    ensures { IfOk result (IsMeaning (One PlacePart (map part_of parts.now))) }
{
    match only(parts) {
        Some(part) => place_part(alloc, part),
        None => Ok(None),
    }
}

fn perhaps_place(alloc: Global, parts: &[RulePart]) -> Result<Option<Option<Place>>, Memory>
    ensures { IfOk result (IsMeaning (One PerhapsPart (map part_of parts.now))) }
{
    match only(parts) {
        Some(part) => perhaps_part(alloc, part),
        None => Ok(None),
    }
}

fn number_and_place(alloc: Global, parts: &[RulePart]) -> Result<Option<(u32, Place)>, Memory>
    ensures { IfOk result (IsMeaning (Two NumberPart PlacePart (map part_of parts.now))) }
{
    let Some((first, second)) = both(parts) else {
        return Ok(None);
    };
    let Some(number) = number_part(first) else {
        return Ok(None);
    };
    let Some(place) = place_part(alloc, second)? else {
        return Ok(None);
    };
    Ok(Some((number, place)))
}

fn certificate(alloc: Global, parts: &[RulePart]) -> Result<Option<(Vec<u32>, Vec<Line>)>, Memory>
    ensures { IfOk result (IsMeaning (One CertificatePart (map part_of parts.now))) }
{
    match only(parts) {
        Some(part) => certificate_part(alloc, part),
        None => Ok(None),
    }
}

// Rules of what their parts mean.
fn inst_rule(found: Option<(u32, Vec<Form>)>) -> Option<Rule>
    ensures { result ≡ option_map (λ p. Inst p.0 p.1) found }
{
    match found {
        Some((i, terms)) => Some(Rule::Inst(i, terms)),
        None => None,
    }
}

fn open_some_rule(found: Option<(u32, Vec<u32>)>) -> Option<Rule>
    ensures { result ≡ option_map (λ p. OpenSome p.0 p.1) found }
{
    match found {
        Some((i, names)) => Some(Rule::OpenSome(i, names)),
        None => None,
    }
}

fn eq_rule(found: Option<(u32, Place)>) -> Option<Rule>
    ensures { result ≡ option_map (λ p. Eq p.0 p.1) found }
{
    match found {
        Some((i, place)) => Some(Rule::Eq(i, place)),
        None => None,
    }
}

fn qe_rule(found: Option<(u32, Place)>) -> Option<Rule>
    ensures { result ≡ option_map (λ p. Qe p.0 p.1) found }
{
    match found {
        Some((i, place)) => Some(Rule::Qe(i, place)),
        None => None,
    }
}

fn law_rule(found: Option<((u16, Vec<Form>), Place)>) -> Option<Rule>
    ensures { result ≡ option_map (λ p. Law p.0.0 p.0.1 p.1) found }
{
    match found {
        Some(((law, picks), place)) => Some(Rule::Law { law, picks, place }),
        None => None,
    }
}

fn wal_rule(found: Option<((u16, Vec<Form>), Place)>) -> Option<Rule>
    ensures { result ≡ option_map (λ p. Wal p.0.0 p.0.1 p.1) found }
{
    match found {
        Some(((law, picks), place)) => Some(Rule::Wal { law, picks, place }),
        None => None,
    }
}

fn lin_rule(found: Option<(Vec<u32>, Vec<Line>)>) -> Option<Rule>
    ensures { result ≡ option_map (λ p. Lin p.0 p.1) found }
{
    match found {
        Some((facts, lines)) => Some(Rule::Lin { facts, lines }),
        None => None,
    }
}

impl Around<'_> {
    fn one_term(&self, parts: &[RulePart]) -> Result<Option<Form>, Memory>
        ensures { IfOk result (IsMeaning (One (TermPart (around_of self.now)) (map part_of parts.now))) }
    {
        match only(parts) {
            Some(part) => self.term_part(part),
            None => Ok(None),
        }
    }

    fn some_terms(&self, parts: &[RulePart]) -> Result<Option<Vec<Form>>, Memory>
        ensures { IfOk result (IsMeaning (One (TermsPart (around_of self.now)) (map part_of parts.now))) }
    {
        match only(parts) {
            Some(part) => self.terms_part(part),
            None => Ok(None),
        }
    }

    fn number_and_terms(&self, parts: &[RulePart]) -> Result<Option<(u32, Vec<Form>)>, Memory>
        ensures { IfOk result (IsMeaning (Two NumberPart (TermsPart (around_of self.now)) (map part_of parts.now))) }
    {
        let Some((first, second)) = both(parts) else {
            return Ok(None);
        };
        let Some(number) = number_part(first) else {
            return Ok(None);
        };
        let Some(terms) = self.terms_part(second)? else {
            return Ok(None);
        };
        Ok(Some((number, terms)))
    }

    fn some_names(&self, parts: &[RulePart]) -> Result<Option<Vec<u32>>, Memory>
        ensures { IfOk result (IsMeaning (One (NamesPart (around_of self.now)) (map part_of parts.now))) }
    {
        match only(parts) {
            Some(part) => self.names_part(part),
            None => Ok(None),
        }
    }

    fn number_and_names(&self, parts: &[RulePart]) -> Result<Option<(u32, Vec<u32>)>, Memory>
        ensures { IfOk result (IsMeaning (Two NumberPart (NamesPart (around_of self.now)) (map part_of parts.now))) }
    {
        let Some((first, second)) = both(parts) else {
            return Ok(None);
        };
        let Some(number) = number_part(first) else {
            return Ok(None);
        };
        let Some(names) = self.names_part(second)? else {
            return Ok(None);
        };
        Ok(Some((number, names)))
    }

    fn law_and_place(&self, parts: &[RulePart]) -> Result<Option<((u16, Vec<Form>), Place)>, Memory>
        ensures { IfOk result (IsMeaning (Two (LawPart (around_of self.now)) PlacePart (map part_of parts.now))) }
    {
        let Some((first, second)) = both(parts) else {
            return Ok(None);
        };
        let Some(law) = self.law_part(first)? else {
            return Ok(None);
        };
        let Some(place) = place_part(self.alloc, second)? else {
            return Ok(None);
        };
        Ok(Some((law, place)))
    }

    // The rule of the same kind, where the parts of a word's rule mean something.
    fn meaning(&self, word: &RuleWord, parts: &[RulePart]) -> Result<Option<Rule>, Memory>
        ensures { IfOk result (IsMeaning (RuleMeans (around_of self.now) word.now (map part_of parts.now))) }
    {
        let alloc = self.alloc;
        match word {
            RuleWord::Hyp => Ok(one_number(parts).map(Rule::Hyp)),
            RuleWord::True => Ok(bare(parts, Rule::True)),
            RuleWord::Same => Ok(bare(parts, Rule::Same)),
            RuleWord::Eval => Ok(perhaps_place(alloc, parts)?.map(Rule::Eval)),
            RuleWord::False => Ok(one_number(parts).map(Rule::False)),
            RuleWord::Absurd => Ok(two_numbers(parts).map(|(i, j)| Rule::Absurd(i, j))),
            RuleWord::And => Ok(bare(parts, Rule::And)),
            RuleWord::Iff => Ok(bare(parts, Rule::Iff)),
            RuleWord::Imp => Ok(bare(parts, Rule::Imp)),
            RuleWord::Not => Ok(bare(parts, Rule::Not)),
            RuleWord::Left => Ok(bare(parts, Rule::Left)),
            RuleWord::Right => Ok(bare(parts, Rule::Right)),
            RuleWord::Or => Ok(bare(parts, Rule::Or)),
            RuleWord::Contra => Ok(bare(parts, Rule::Contra)),
            RuleWord::Fix => Ok(self.some_names(parts)?.map(Rule::Fix)),
            RuleWord::UseTerms => Ok(self.some_terms(parts)?.map(Rule::UseTerms)),
            RuleWord::Split => Ok(one_number(parts).map(Rule::Split)),
            RuleWord::Cases => Ok(one_number(parts).map(Rule::Cases)),
            RuleWord::Apply => Ok(one_number(parts).map(Rule::Apply)),
            RuleWord::Inst => {
                let found = self.number_and_terms(parts)?;
                Ok(inst_rule(found))
            }
            RuleWord::OpenSome => {
                let found = self.number_and_names(parts)?;
                Ok(open_some_rule(found))
            }
            RuleWord::Cut => Ok(self.one_term(parts)?.map(Rule::Cut)),
            RuleWord::Case => Ok(self.one_term(parts)?.map(Rule::Case)),
            RuleWord::Drop => Ok(one_number(parts).map(Rule::Drop)),
            RuleWord::Eq => {
                let found = number_and_place(alloc, parts)?;
                Ok(eq_rule(found))
            }
            RuleWord::Qe => {
                let found = number_and_place(alloc, parts)?;
                Ok(qe_rule(found))
            }
            RuleWord::Law => {
                let found = self.law_and_place(parts)?;
                Ok(law_rule(found))
            }
            RuleWord::Wal => {
                let found = self.law_and_place(parts)?;
                Ok(wal_rule(found))
            }
            RuleWord::TypeOf => Ok(one_place(alloc, parts)?.map(Rule::TypeOf)),
            RuleWord::Neg => Ok(one_place(alloc, parts)?.map(Rule::Neg)),
            RuleWord::Mem => Ok(one_place(alloc, parts)?.map(Rule::Mem)),
            RuleWord::Val => Ok(one_place(alloc, parts)?.map(Rule::Val)),
            RuleWord::Ext => Ok(one_place(alloc, parts)?.map(Rule::Ext)),
            RuleWord::Sub => Ok(one_place(alloc, parts)?.map(Rule::Sub)),
            RuleWord::Ex => Ok(one_place(alloc, parts)?.map(Rule::Ex)),
            RuleWord::Pair => Ok(self.one_term(parts)?.map(Rule::Pair)),
            RuleWord::Elems => Ok(self.one_term(parts)?.map(Rule::Elems)),
            RuleWord::Interval => Ok(one_number(parts).map(Rule::Interval)),
            RuleWord::Induct => Ok(bare(parts, Rule::Induct)),
            RuleWord::Poly => Ok(bare(parts, Rule::Poly)),
            RuleWord::Lin => {
                let found = certificate(alloc, parts)?;
                Ok(lin_rule(found))
            }
        }
    }

    // The rule that a written one stands for.
    pub(crate) fn rule(&self, written: &RawRule) -> Result<Rule, Memory>
        ensures { IfOk result (StandsFor (around_of self.now) written.now) }
    {
        match self.meaning(&written.word, &written.parts)? {
            Some(rule) => Ok(rule),
            None => Ok(Rule::Unread),
        }
    }
}
