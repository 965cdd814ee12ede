//! Which rules of a proof can go.

use crate::steps::{Part, Step};
use crate::uses::uses;
use bk_io::Memory;
use bk_kernel::Rule;
use std::alloc::Global;

/// What becomes of a rule.
#[derive(Clone, Copy, PartialEq, Eq)]
pub(crate) enum Fate {
    /// It stays.
    Stays,
    /// It goes, and so do the proofs of all sequents that come of it but for the one with this number, from 0.
    Goes(usize),
}

// The proof of one sequent: how many rules of it stay, and which of the sequent's hypotheses they use, by their numbers.
#[derive(Drop)]
struct Proof {
    rules: usize,
    used: Vec<bool>,
}

/// What becomes of each rule. The rules prove their sequent; they make what `steps` says. Where `drops` is false each rule goes that
/// drops a hypothesis.
pub(crate) fn fates(
    alloc: Global,
    rules: &[Rule],
    steps: &[Step],
    drops: bool,
) -> Result<Vec<Fate>, Memory> {
    let mut fates = vec![in alloc; Fate::Stays; rules.len()]?;
    // the proofs of what comes of the rules after; that of the first sequent stands last
    let mut proofs = Vec::new(alloc);
    for behind in 0..rules.len() {
        let index = rules.len() - 1 - behind;
        let (Some(rule), Some(step)) = (rules.get(index), steps.get(index)) else {
            return Ok(fates);
        };
        let own = own_proofs(alloc, &mut proofs, step.parts.len())?;
        let fate = fate_of(rule, step, &own, drops);
        if index < fates.len() {
            fates[index] = fate;
        }
        proofs.push(proof_of(alloc, rule, step, own, fate)?)?;
    }
    Ok(fates)
}

// The last so many proofs, that of the first sequent first.
fn own_proofs(alloc: Global, proofs: &mut Vec<Proof>, count: usize) -> Result<Vec<Proof>, Memory> {
    let mut own = Vec::new(alloc);
    for _ in 0..count {
        if let Some(proof) = proofs.pop() {
            own.push(proof)?;
        }
    }
    Ok(own)
}

// What becomes of a rule, of which these are the proofs of the sequents that come of it.
fn fate_of(rule: &Rule, step: &Step, own: &[Proof], drops: bool) -> Fate {
    if let Rule::Drop(_) = rule {
        return if drops { Fate::Stays } else { Fate::Goes(0) };
    }
    let mut best: Option<(usize, usize)> = None;
    for (index, part) in step.parts.iter().enumerate() {
        if let Some(proof) = own.get(index) {
            if serves(step, part, proof) && best.is_none_or(|found| proof.rules < found.1) {
                best = Some((index, proof.rules));
            }
        }
    }
    match best {
        Some((index, _)) => Fate::Goes(index),
        None => Fate::Stays,
    }
}

// Whether the proof of a sequent that comes of a rule proves the one on which the rule works.
fn serves(step: &Step, part: &Part, proof: &Proof) -> bool {
    part.keeps_goal && !uses_past(proof, step.hyps)
}

// Whether a proof uses a hypothesis past the first so many.
fn uses_past(proof: &Proof, hyps: usize) -> bool {
    for (number, is_used) in proof.used.iter().enumerate() {
        if *is_used && number > hyps {
            return true;
        }
    }
    false
}

// The proof of the sequent on which a rule works.
fn proof_of(
    alloc: Global,
    rule: &Rule,
    step: &Step,
    own: Vec<Proof>,
    fate: Fate,
) -> Result<Proof, Memory> {
    let mut proof = Proof {
        rules: 0,
        used: vec![in alloc; false; step.hyps.saturating_add(1)]?,
    };
    for (index, part) in own.iter().enumerate() {
        if fate == Fate::Stays || fate == Fate::Goes(index) {
            add(&mut proof, part, dropped(rule));
        }
    }
    if fate == Fate::Stays {
        proof.rules = proof.rules.saturating_add(1);
        for number in &uses(alloc, rule)? {
            mark(&mut proof.used, *number as usize);
        }
    }
    Ok(proof)
}

// The hypothesis that a rule drops.
fn dropped(rule: &Rule) -> Option<usize> {
    match rule {
        Rule::Drop(number) => Some(*number as usize),
        _ => None,
    }
}

// Adds what the proof of a sequent uses that comes of a rule, which drops that hypothesis.
fn add(proof: &mut Proof, part: &Proof, dropped: Option<usize>) {
    proof.rules = proof.rules.saturating_add(part.rules);
    for (number, is_used) in part.used.iter().enumerate() {
        if *is_used {
            mark(&mut proof.used, number_before(number, dropped));
        }
    }
}

/// The number that a hypothesis had before that one was dropped.
pub(crate) fn number_before(number: usize, dropped: Option<usize>) -> usize {
    match dropped {
        Some(gone) if number >= gone => number.saturating_add(1),
        _ => number,
    }
}

fn mark(used: &mut Vec<bool>, number: usize) {
    if number < used.len() {
        used[number] = true;
    }
}
