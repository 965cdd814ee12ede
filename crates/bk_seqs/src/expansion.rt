//! What the words and signs of sequences stand for.

ghost use Rattle.std.specs.Prelude.{◌≡◌, ◌<◌, ◌^◌, Err, IfOk, OnOk, is_some};
ghost use Rattle.std.specs.Option.{option_map};
ghost use Rattle.bk_form.specs.Formula.{formula_size, formula_height};
ghost use Rattle.bk_form.specs.Expansion.{expanded, takes_second};
ghost use Rattle.bk_bind.specs.Limits.{IsWithinLimits};
ghost use Rattle.bk_seqs.specs.Expanding.{expansion_of};
ghost use Rattle.bk_seqs.specs.declared.fault.SeqFault.TheVariants.{TooLarge};

use crate::fault::SeqFault;
use crate::{making, words};
use bk_form::{BinOp, Form, SeqSign};
use bk_io::Memory;
use bk_limits::{GREATEST_HEIGHT, MOST_NODES};
use std::alloc::Global;

/// The formula that a word or sign stands for at its operands: a second one where it is Member, whose second is the domain,
/// Append, Prepend or Concat. An operand may stand under binders: where the formula puts it under one more, its loose bound
/// numbers go up by one.
pub fn expand(
    alloc: Global,
    sign: SeqSign,
    first: &Form,
    second: Option<&Form>,
) -> Result<Form, SeqFault>
    requires { is_some second ≡ takes_second sign }
    ensures value { IfOk result (λ f. f ≡ expansion_of sign first.now (option_map (λ g. g.now) second.entry)) }
    ensures within { OnOk result (IsWithinLimits (expansion_of sign first.now (option_map (λ g. g.now) second.entry))) }
    ensures too_large { result ≡ Err TooLarge → IsWithinLimits (expansion_of sign first.now (option_map (λ g. g.now) second.entry)) → ⊥ }
{
    let other = match second {
        Some(second) => second,
        None => first,
    };
    if nodes(sign, first, other) > MOST_NODES {
        return Err(SeqFault::TooLarge);
    }
    if height(sign, first, other) > u64::from(GREATEST_HEIGHT) {
        return Err(SeqFault::TooLarge);
    }
    Ok(build(alloc, sign, first, other)?)
}

// How many nodes the formula has.
#[tactic(auto, using(crate::proofs::Measures::measures))]
fn nodes(sign: SeqSign, first: &Form, second: &Form) -> u64
    ensures { result ≡ formula_size (expanded sign first.now second.now) }
{
    let (one, other) = (first.size(), second.size());
    match sign {
        SeqSign::Member => 2 * one + other + 5,
        SeqSign::Size => one + 1,
        SeqSign::First => one + 2,
        SeqSign::Last => 2 * one + 2,
        SeqSign::Front => 2 * one + 6,
        SeqSign::Tail => 2 * one + 11,
        SeqSign::Rev => 3 * one + 11,
        SeqSign::Append => 2 * one + other + 6,
        SeqSign::Prepend => one + 2 * other + 15,
        SeqSign::Concat => 4 * one + 2 * other + 14,
    }
}

// How many nodes lie on its longest way down.
#[tactic(auto, using(crate::proofs::Measures::measures))]
fn height(sign: SeqSign, first: &Form, second: &Form) -> u64
    ensures { result ≡ formula_height (expanded sign first.now second.now) }
{
    let (one, other) = (u64::from(first.depth()), u64::from(second.depth()));
    match sign {
        SeqSign::Member => (one + 4).max(other + 2),
        SeqSign::Size => one + 1,
        SeqSign::First => one + 1,
        SeqSign::Last => one + 2,
        SeqSign::Front => one + 4,
        SeqSign::Tail => one + 4,
        SeqSign::Rev => one + 5,
        SeqSign::Append => (one + 5).max(other + 3),
        SeqSign::Prepend => (one + 3).max(other + 5),
        SeqSign::Concat => one.max(other) + 5,
    }
}

// The formula.
#[tactic(auto, using(crate::proofs::Measures::measures))]
fn build(alloc: Global, sign: SeqSign, first: &Form, second: &Form) -> Result<Form, Memory>
    requires { formula_size (expanded sign first.now second.now) < 2 ^ 32 }
    ensures { IfOk result (λ f. f ≡ expanded sign first.now second.now) }
{
    match sign {
        SeqSign::Member => {
            let size = making::card_of(alloc, first)?;
            making::sequence(alloc, first.copy(alloc)?, size, second.copy(alloc)?)
        }
        SeqSign::Size => making::card_of(alloc, first),
        SeqSign::First => {
            let one = making::number(alloc, 1)?;
            making::binary(alloc, BinOp::Apply, first.copy(alloc)?, one)
        }
        SeqSign::Last => {
            let size = making::card_of(alloc, first)?;
            making::binary(alloc, BinOp::Apply, first.copy(alloc)?, size)
        }
        SeqSign::Front => words::front(alloc, first),
        SeqSign::Tail => words::tail(alloc, first),
        SeqSign::Rev => words::rev(alloc, first),
        SeqSign::Append => words::append(alloc, first, second),
        SeqSign::Prepend => words::prepend(alloc, first, second),
        SeqSign::Concat => words::concat(alloc, first, second),
    }
}
