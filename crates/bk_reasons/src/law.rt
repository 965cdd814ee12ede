//! Laws that do not fit.

ghost use Rattle.std.specs.Prelude.{All};
ghost use Rattle.bk_bind.specs.Limits.{IsWithinLimits};

use crate::compare::say_difference;
use crate::naming::count;
use crate::within::{are_within, say_limits};
use crate::words::Words;
use bk_bind::{LawFault, LawInstance};
use bk_form::Form;
use bk_io::Memory;
use bk_law_texts::{LawText, text_of};
use bk_types::{Role, role_of};

/// Says that a law is not there, takes other terms, or has another formula than the one that stands at the place.
pub(crate) fn law_does_not_fit(
    words: &mut Words<'_>,
    law: u16,
    picks: &[Form],
    forward: bool,
    old: &Form,
) -> Result<bool, Memory> {
    if !are_within(picks) {
        words.say(b"a term exceeds ")?;
        say_limits(words)?;
        return Ok(true);
    }
    match law_at(words, law, picks) {
        Ok(instance) => other_formula(words, law, &instance, forward, old),
        Err(LawFault::Unknown) => {
            words.say(b"there is no such law")?;
            Ok(true)
        }
        Err(LawFault::Picks(number)) => {
            say_picks(words, law, picks.len(), number)?;
            Ok(true)
        }
        Err(LawFault::Memory) => Err(Memory),
    }
}

// The law at these terms.
fn law_at(words: &Words<'_>, law: u16, picks: &[Form]) -> Result<LawInstance, LawFault>
    requires { All IsWithinLimits picks.now }
{
    if law < 200 {
        return bk_laws_log::instance(words.alloc, law, picks);
    }
    if law < 300 {
        return bk_laws_set::instance(words.alloc, law, picks);
    }
    bk_laws_fun::instance(words.alloc, law, picks)
}

// Says that the law takes other terms: another number of them, or an empty set for that one.
fn say_picks(words: &mut Words<'_>, law: u16, given: usize, number: u32) -> Result<(), Memory> {
    let Some(text) = text_of(law) else {
        return words.say(b"the terms do not fit the law");
    };
    if text.count != given {
        say_count(words, &text, given)?;
    } else {
        words.say(b"the law takes only an empty set, {:T}, as term ")?;
        words.number(number as usize)?;
    }
    say_law(words, &text)
}

fn say_count(words: &mut Words<'_>, text: &LawText, given: usize) -> Result<(), Memory> {
    words.say(b"the law takes ")?;
    count(words, text.count, b"term")?;
    words.say(b", (")?;
    words.say(text.picks.as_bytes())?;
    words.say(b"), and ")?;
    words.number(given)?;
    words.say(if given == 1 {
        b" is given"
    } else {
        b" are given"
    })
}

// What a law says.
fn say_law(words: &mut Words<'_>, text: &LawText) -> Result<(), Memory> {
    words.say(b"; ")?;
    words.say(text.name.as_bytes())?;
    words.say(b"(")?;
    words.say(text.picks.as_bytes())?;
    words.say(b"): ")?;
    words.say(text.text.as_bytes())
}

// Says that another formula stands at the place than the law's, or that its sides are of two kinds.
fn other_formula(
    words: &mut Words<'_>,
    law: u16,
    instance: &LawInstance,
    forward: bool,
    old: &Form,
) -> Result<bool, Memory> {
    let (wanted, other) = if forward {
        (&instance.left, &instance.right)
    } else {
        (&instance.right, &instance.left)
    };
    if old.equal(wanted) {
        return says_two_kinds(words, instance);
    }
    words.say(b"at the place stands ")?;
    words.form(old)?;
    words.say(if forward {
        b", and the law's left side is "
    } else {
        b", and the law's right side is "
    })?;
    words.form(wanted)?;
    if old.equal(other) {
        words.say(if forward {
            b"; wal fits"
        } else {
            b"; law fits"
        })?;
    } else {
        say_difference(words, wanted, old)?;
    }
    if let Some(text) = text_of(law) {
        say_law(words, &text)?;
    }
    Ok(true)
}

// Says that both sides of a law are not of one kind, if that is so.
fn says_two_kinds(words: &mut Words<'_>, instance: &LawInstance) -> Result<bool, Memory> {
    let left = role_of(words.alloc, &instance.left, &[], words.table)?;
    let right = role_of(words.alloc, &instance.right, &[], words.table)?;
    if are_one(&left, &right) {
        return Ok(false);
    }
    words.say(b"at these terms the law's sides are not of one type: ")?;
    words.form(&instance.left)?;
    words.say(b" and ")?;
    words.form(&instance.right)?;
    Ok(true)
}

fn are_one(left: &Role, right: &Role) -> bool {
    match left {
        Role::Value(ty) => { matches!(right, Role::Value(other) if ty.equal(other)) }
        Role::Domain(ty) => { matches!(right, Role::Domain(other) if ty.equal(other)) }
        Role::Predicate => matches!(right, Role::Predicate),
        Role::Nothing => false,
    }
}
