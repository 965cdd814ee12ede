//! The hypotheses that a rule names.

use bk_io::Memory;
use bk_kernel::{Place, Rule};
use std::alloc::Global;

/// The numbers of the hypotheses that a rule names.
pub(crate) fn uses(alloc: Global, rule: &Rule) -> Result<Vec<u32>, Memory> {
    let mut used = Vec::new(alloc);
    if let Some(number) = own_number(rule) {
        used.push(number)?;
    }
    match rule {
        Rule::Absurd(_, denial) => used.push(*denial)?,
        Rule::Lin { facts, lines: _ } => used.extend_from_slice(facts)?,
        _ => {}
    }
    if let Some(Place::Hyp(number, _)) = place_of(rule) {
        used.push(*number)?;
    }
    Ok(used)
}

// The number that stands after the word of a rule.
fn own_number(rule: &Rule) -> Option<u32> {
    match rule {
        Rule::Hyp(number)
        | Rule::False(number)
        | Rule::Absurd(number, _)
        | Rule::Split(number)
        | Rule::Cases(number)
        | Rule::Apply(number)
        | Rule::Inst(number, _)
        | Rule::OpenSome(number, _)
        | Rule::Drop(number)
        | Rule::Eq(number, _)
        | Rule::Qe(number, _)
        | Rule::Interval(number) => Some(*number),
        _ => None,
    }
}

// Where a rule changes something.
fn place_of(rule: &Rule) -> Option<&Place> {
    match rule {
        Rule::Eval(place) => place.as_ref(),
        Rule::Eq(_, place)
        | Rule::Qe(_, place)
        | Rule::TypeOf(place)
        | Rule::Neg(place)
        | Rule::Mem(place)
        | Rule::Val(place)
        | Rule::Ext(place)
        | Rule::Sub(place)
        | Rule::Ex(place) => Some(place),
        Rule::Law {
            law: _,
            picks: _,
            place,
        }
        | Rule::Wal {
            law: _,
            picks: _,
            place,
        } => Some(place),
        _ => None,
    }
}
