// Variables that both sides of a `||` write.

ghost use Rattle.std.specs.Prelude.{◌≡◌, ◌++◌, IfOk, OnOk};
ghost use Rattle.bk_gsl.specs.State.{among};
ghost use Rattle.bk_par.specs.Overlaps.{shared, overlaps, least_onto, least_of};

use bk_gsl::{Sub, SubNode, writes};
use bk_io::Memory;
use std::alloc::Global;

/// The smallest variable that both sides of some `||` write.
pub(crate) fn first_overlap(alloc: Global, sub: &Sub) -> Result<Option<u32>, Memory>
    ensures { IfOk result (λ o. o ≡ least_of (overlaps sub.now)) }
{
    let mut found = Vec::new(alloc);
    add_overlaps(alloc, sub, &mut found)?;
    Ok(smallest(&found))
}

// Adds, for each `||`, what its left side and its right side both write.
fn add_overlaps(alloc: Global, sub: &Sub, found: &mut Vec<u32>) -> Result<(), Memory>
    ensures { OnOk result (found.new.items ≡ found.old.items ++ overlaps sub.now) }
{
    match &*sub.node {
        SubNode::Pre(_, s) => add_overlaps(alloc, s, found),
        SubNode::Guard(_, s) => add_overlaps(alloc, s, found),
        SubNode::Choice(one, other) => {
            add_overlaps(alloc, one, found)?;
            add_overlaps(alloc, other, found)
        }
        SubNode::If(_, yes, no) => {
            add_overlaps(alloc, yes, found)?;
            add_overlaps(alloc, no, found)
        }
        SubNode::Any(_, s) => add_overlaps(alloc, s, found),
        SubNode::Seq(first, second) => {
            add_overlaps(alloc, first, found)?;
            add_overlaps(alloc, second, found)
        }
        SubNode::Par(left, right) => {
            add_overlaps(alloc, left, found)?;
            add_overlaps(alloc, right, found)?;
            add_shared(&writes(alloc, left)?, &writes(alloc, right)?, found)
        }
        SubNode::While { body, .. } => add_overlaps(alloc, body, found),
        SubNode::Assert(_, s) => add_overlaps(alloc, s, found),
        // an assignment, `x :(P)` and skip have no `||`
        _ => Ok(()),
    }
}

// Adds those of the first variables that are among the second.
fn add_shared(first: &[u32], second: &[u32], found: &mut Vec<u32>) -> Result<(), Memory>
    ensures { OnOk result (found.new.items ≡ found.old.items ++ shared first.now second.now) }
{
    for variable in first {
        if is_among(second, *variable) {
            found.push(*variable)?;
        }
    }
    Ok(())
}

// Whether the variable is one of these.
fn is_among(variables: &[u32], variable: u32) -> bool
    ensures { result ≡ among variables.now variable }
{
    for other in variables {
        if variable == *other {
            return true;
        }
    }
    false
}

// The smallest of the numbers, if there is one.
fn smallest(numbers: &[u32]) -> Option<u32>
    ensures { result ≡ least_of numbers.now }
{
    match numbers {
        [] => None,
        [first, others @ ..] => Some(smaller(*first, others)),
    }
}

// The smallest of the number and these.
fn smaller(number: u32, others: &[u32]) -> u32
    ensures { result ≡ least_onto number others.now }
{
    let mut best = number;
    for other in others {
        if *other < best {
            best = *other;
        }
    }
    best
}
