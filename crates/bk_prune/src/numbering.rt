//! The numbers of hypotheses where rules are gone.

use crate::plan::Fate;
use crate::steps::Step;
use bk_io::Memory;
use bk_kernel::Rule;
use std::alloc::Global;

/// The numbers that the hypotheses of a sequent have now, by their numbers before, from 1; None of those that came of rules that are
/// gone.
#[derive(Drop)]
pub(crate) struct Numbers {
    now: Vec<Option<u32>>,
    count: u32,
}

impl Numbers {
    /// So many hypotheses whose numbers are as before.
    fn of_first(alloc: Global, hyps: usize) -> Result<Numbers, Memory> {
        let mut numbers = Numbers {
            now: Vec::new(alloc),
            count: 0,
        };
        numbers.add(hyps, true)?;
        Ok(numbers)
    }

    fn copy(&self, alloc: Global) -> Result<Numbers, Memory> {
        Ok(Numbers {
            now: Vec::from_slice(alloc, &self.now)?,
            count: self.count,
        })
    }

    // So many hypotheses more, which are there or not.
    fn add(&mut self, more: usize, are_there: bool) -> Result<(), Memory> {
        for _ in 0..more {
            if are_there {
                self.count = self.count.saturating_add(1);
                self.now.push(Some(self.count))?;
            } else {
                self.now.push(None)?;
            }
        }
        Ok(())
    }

    // The hypothesis with this number before is dropped by a rule that stays or is gone.
    fn drop_one(&mut self, number: usize, stays: bool) {
        let Some(index) = number.checked_sub(1) else {
            return;
        };
        if index >= self.now.len() {
            return;
        }
        let gone = self.now.remove(index);
        if let (Some(gone), true) = (gone, stays) {
            self.lower(gone);
        }
    }

    // The numbers past one that is gone are one less.
    fn lower(&mut self, gone: u32) {
        self.count = self.count.saturating_sub(1);
        for number in self.now.iter_mut() {
            *number = lowered(*number, gone);
        }
    }

    /// The number that a hypothesis has now.
    pub(crate) fn number_now(&self, before: u128) -> Option<u32> {
        let index = usize::try_from(before).ok()?.checked_sub(1)?;
        self.now.get(index).copied().flatten()
    }
}

// A number where this one is gone.
fn lowered(number: Option<u32>, gone: u32) -> Option<u32> {
    match number {
        Some(before) if before > gone => Some(before.saturating_sub(1)),
        other => other,
    }
}

/// For each rule that stays the numbers at the sequent on which it works; None for each that is gone.
pub(crate) fn numberings(
    alloc: Global,
    rules: &[Rule],
    steps: &[Step],
    fates: &[Fate],
) -> Result<Vec<Option<Numbers>>, Memory> {
    let mut all = Vec::new(alloc);
    // of the open sequents, of which the first stands last; None for one whose proof is gone
    let mut open = Vec::new(alloc);
    if let Some(first) = steps.first() {
        open.push(Some(Numbers::of_first(alloc, first.hyps)?))?;
    }
    for (index, rule) in rules.iter().enumerate() {
        let (Some(step), Some(fate)) = (steps.get(index), fates.get(index)) else {
            return Ok(all);
        };
        let here = open.pop().flatten();
        push_parts(alloc, &mut open, rule, step, *fate, here.as_ref())?;
        all.push(if *fate == Fate::Stays { here } else { None })?;
    }
    Ok(all)
}

// Puts the numbers of what comes of a rule before those of the open sequents.
fn push_parts(
    alloc: Global,
    open: &mut Vec<Option<Numbers>>,
    rule: &Rule,
    step: &Step,
    fate: Fate,
    here: Option<&Numbers>,
) -> Result<(), Memory> {
    for behind in 0..step.parts.len() {
        let index = step.parts.len() - 1 - behind;
        let part = match here {
            Some(numbers) if fate == Fate::Stays || fate == Fate::Goes(index) => {
                Some(part_numbers(alloc, rule, step, index, fate, numbers)?)
            }
            _ => None,
        };
        open.push(part)?;
    }
    Ok(())
}

// The numbers at the sequent with this number of those that come of a rule.
fn part_numbers(
    alloc: Global,
    rule: &Rule,
    step: &Step,
    index: usize,
    fate: Fate,
    here: &Numbers,
) -> Result<Numbers, Memory> {
    let mut numbers = here.copy(alloc)?;
    if let Rule::Drop(number) = rule {
        numbers.drop_one(*number as usize, fate == Fate::Stays);
        return Ok(numbers);
    }
    if let Some(part) = step.parts.get(index) {
        let more = part.hyps.saturating_sub(step.hyps);
        numbers.add(more, fate == Fate::Stays)?;
    }
    Ok(numbers)
}
