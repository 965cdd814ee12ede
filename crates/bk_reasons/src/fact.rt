//! The facts of a certificate, and those that its lines make.

ghost use Rattle.std.specs.Prelude.{pos, ◌≤ℤ◌};

use bk_io::Memory;
use bk_lin::{Fact, Line};
use std::alloc::Global;

/// The facts that lines make after given ones, up to the first line that makes none within 128 bits.
pub(crate) fn made_facts(
    alloc: Global,
    given: Vec<Fact>,
    lines: &[Line],
) -> Result<Vec<Fact>, Memory> {
    let mut facts = given;
    let width = match facts.first() {
        Some(fact) => fact.coefs.len(),
        None => 0,
    };
    for line in lines {
        let Some(fact) = made(alloc, width, &facts, line)? else {
            return Ok(facts);
        };
        facts.push(fact)?;
    }
    Ok(facts)
}

fn made(alloc: Global, width: usize, facts: &[Fact], line: &Line) -> Result<Option<Fact>, Memory> {
    match line {
        Line::Sum(multiples) => sum(alloc, width, facts, multiples),
        Line::Div { fact, by } => quotient(alloc, facts, *fact, *by),
    }
}

// The fact of this number, from 1.
fn fact_at(facts: &[Fact], number: u32) -> Option<&Fact> {
    let index = (number as usize).checked_sub(1)?;
    facts.get(index)
}

fn sum(
    alloc: Global,
    width: usize,
    facts: &[Fact],
    multiples: &[(i128, u32)],
) -> Result<Option<Fact>, Memory> {
    let mut total = Fact {
        coefs: vec![in alloc; 0i128; width]?,
        constant: 0,
    };
    for (multiplier, number) in multiples {
        let Some(fact) = fact_at(facts, *number) else {
            return Ok(None);
        };
        let Some(next) = added(alloc, &total, *multiplier, fact)? else {
            return Ok(None);
        };
        total = next;
    }
    Ok(Some(total))
}

// A fact and a multiple of another one; None where a number is past 128 bits.
fn added(
    alloc: Global,
    total: &Fact,
    multiplier: i128,
    fact: &Fact,
) -> Result<Option<Fact>, Memory> {
    let Some(constant) = sum_of(total.constant, multiplier, fact.constant) else {
        return Ok(None);
    };
    let mut coefs = Vec::new(alloc);
    for (index, before) in total.coefs.iter().enumerate() {
        let part = fact.coefs.get(index).copied().unwrap_or(0);
        let Some(coefficient) = sum_of(*before, multiplier, part) else {
            return Ok(None);
        };
        coefs.push(coefficient)?;
    }
    Ok(Some(Fact { coefs, constant }))
}

fn sum_of(before: i128, multiplier: i128, part: i128) -> Option<i128> {
    before.checked_add(multiplier.checked_mul(part)?)
}

fn quotient(alloc: Global, facts: &[Fact], number: u32, by: i128) -> Result<Option<Fact>, Memory> {
    let Some(fact) = fact_at(facts, number) else {
        return Ok(None);
    };
    if by < 1 {
        return Ok(None);
    }
    let made = divided(alloc, fact, by)?;
    Ok(Some(made))
}

// A fact divided by a positive number; what is not divisible is rounded down.
fn divided(alloc: Global, fact: &Fact, by: i128) -> Result<Fact, Memory>
    requires { pos 1 ≤ℤ by }
{
    let mut coefs = Vec::new(alloc);
    for coefficient in &fact.coefs {
        coefs.push(coefficient.div_euclid(by))?;
    }
    Ok(Fact {
        coefs,
        constant: fact.constant.div_euclid(by),
    })
}
