// Goals that follow from all hypotheses that linear arithmetic reads.

ghost use Rattle.std.specs.Prelude.{◌≡◌, ◌↔◌, ◌≤◌, ◌+◌, ◌++◌, ◌∷◌, [], true, false, All, IsTrue, IfOk, OnOk, MatchOption, is_none, None};
ghost use Rattle.std.specs.Int.RustNames.{unsigned_abs};
ghost use Rattle.bk_arith.specs.Comparison.{terms_of_goal};
ghost use Rattle.bk_arith.specs.Decision.{first_unread, terms_of, is_accepted};
ghost use Rattle.bk_seq.specs.Sequents.{sequent_of};
ghost use Rattle.bk_auto.specs.Easy.{comparisons, AreContradictory};
ghost use Rattle.bk_auto.specs.Found.{comparison_numbers, AreReadFrom, IsSmallFact, AreWithinBounds, Settles};

use crate::adding::{add, number_at};
use bk_arith::{ArithFault, facts, is_comparison};
use bk_elim::refute;
use bk_form::Form;
use bk_io::Memory;
use bk_kernel::Rule;
use bk_lin::{Fact, Line};
use bk_seq::Sequent;
use std::alloc::Global;

/// The most facts, and the most atoms, of which each contradiction is found.
const MOST_FACTS: usize = 16;

const MOST_ATOMS: usize = 4;

/// The greatest coefficient and the greatest constant, in absolute value, of such facts.
const GREATEST_COEFFICIENT: u128 = 20;

const GREATEST_CONSTANT: u128 = 1_099_511_627_776;

/// Adds the rule that closes the sequent by linear arithmetic, where all facts that are read contradict each other within the
/// bounds.
pub(crate) fn by_arithmetic(
    alloc: Global,
    sequent: &Sequent,
    rules: &mut Vec<Rule>,
) -> Result<bool, Memory>
    requires { is_none (terms_of_goal sequent.now.goal) ≡ false }
    ensures { IfOk result (λ b. Settles b rules.old.items rules.new.items (sequent_of sequent.now)) }
{
    let read = comparisons(alloc, &sequent.hyps)?;
    match certificate(alloc, &read, &sequent.goal)? {
        Some(line) => {
            let facts = comparison_numbers(alloc, &sequent.hyps)?;
            let lines = Vec::from_array(alloc, [line])?;
            add(rules, Rule::Lin { facts, lines })?;
            Ok(true)
        }
        None => Ok(false),
    }
}

// The hypotheses that are read.
fn comparisons(alloc: Global, hyps: &[Form]) -> Result<Vec<Form>, Memory>
    ensures { IfOk result (λ fs. fs.items ≡ comparisons hyps.now) }
{
    let mut read = Vec::new(alloc);
    for hyp in hyps {
        add_comparison(alloc, &mut read, hyp)?;
    }
    Ok(read)
}

// Adds the hypothesis, where it is read.
fn add_comparison(alloc: Global, read: &mut Vec<Form>, hyp: &Form) -> Result<(), Memory>
    ensures { OnOk result (read.new.items ≡ read.old.items ++ comparisons (hyp.now ∷ [])) }
{
    if !is_comparison(hyp) {
        return Ok(());
    }
    read.push(hyp.copy(alloc)?)?;
    Ok(())
}

// The numbers of the hypotheses that are read, from 1.
fn comparison_numbers(alloc: Global, hyps: &[Form]) -> Result<Vec<u32>, Memory>
    ensures { IfOk result (λ ns. ns.items ≡ comparison_numbers 1 hyps.now) }
{
    let mut numbers = Vec::new(alloc);
    for index in 0..hyps.len() {
        add_number(&mut numbers, &hyps[index], index)?;
    }
    Ok(numbers)
}

// Adds the number of the hypothesis at an index, where it is read.
fn add_number(numbers: &mut Vec<u32>, hyp: &Form, index: usize) -> Result<(), Memory>
    ensures { OnOk result (numbers.new.items ≡ numbers.old.items ++ comparison_numbers (index + 1) (hyp.now ∷ [])) }
{
    if !is_comparison(hyp) {
        return Ok(());
    }
    numbers.push(number_at(index)?)?;
    Ok(())
}

// The line of a certificate by which the goal follows from these hypotheses; None where their facts do not contradict each other
// within the bounds.
fn certificate(alloc: Global, hyps: &[Form], goal: &Form) -> Result<Option<Line>, Memory>
    requires { first_unread hyps.now goal.now ≡ None }
    ensures { IfOk result (λ o. MatchOption o (AreContradictory (terms_of hyps.now goal.now) → ⊥)
        (λ line. is_accepted hyps.now goal.now (line ∷ []) ≡ true)) }
{
    match facts(alloc, hyps, goal) {
        Ok(all) => refuted(alloc, hyps, goal, &all),
        Err(ArithFault::TooWide) => Ok(None),
        // all of them are read, so there is no other fault
        Err(_) => Err(Memory),
    }
}

// The same of the facts that were read.
fn refuted(alloc: Global, hyps: &[Form], goal: &Form, all: &[Fact]) -> Result<Option<Line>, Memory>
    requires { AreReadFrom hyps.now goal.now all.now }
    ensures { IfOk result (λ o. MatchOption o (AreContradictory (terms_of hyps.now goal.now) → ⊥)
        (λ line. is_accepted hyps.now goal.now (line ∷ []) ≡ true)) }
{
    let (_hyps, _goal) = (hyps, goal);
    if !are_small(all) {
        return Ok(None);
    }
    match refute(alloc, all) {
        Ok(found) => Ok(found),
        Err(_) => Err(Memory),
    }
}

// Whether the facts are within the bounds.
fn are_small(facts: &[Fact]) -> bool
    ensures { IsTrue result ↔ AreWithinBounds facts.now }
{
    facts.len() <= MOST_FACTS && all_small(facts)
}

fn all_small(facts: &[Fact]) -> bool
    ensures { IsTrue result ↔ All IsSmallFact facts.now }
{
    for fact in facts {
        if !is_small(fact) {
            return false;
        }
    }
    true
}

// Whether a fact has few and small coefficients, and a small constant.
fn is_small(fact: &Fact) -> bool
    ensures { IsTrue result ↔ IsSmallFact fact.now }
{
    fact.coefs.len() <= MOST_ATOMS
        && are_at_most(&fact.coefs, GREATEST_COEFFICIENT)
        && fact.constant.unsigned_abs() <= GREATEST_CONSTANT
}

// Whether no number is greater in absolute value.
fn are_at_most(numbers: &[i128], greatest: u128) -> bool
    ensures { IsTrue result ↔ All (λ z. unsigned_abs z ≤ greatest) numbers.now }
{
    for number in numbers {
        if number.unsigned_abs() > greatest {
            return false;
        }
    }
    true
}
