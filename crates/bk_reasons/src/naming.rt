//! Terms and names for the variables of a quantifier, and terms of a type.

use crate::words::Words;
use bk_arith::{ArithFault, cases};
use bk_bind::free_in;
use bk_form::{BinOp, Form, Ty, TyView, View};
use bk_io::Memory;
use bk_seq::{Sequent, numbered};
use bk_types::{Role, role_of};

/// Terms do not fit the variables of a quantifier.
pub(crate) fn terms_do_not_fit(
    words: &mut Words<'_>,
    quantifier: &Form,
    terms: &[Form],
) -> Result<bool, Memory> {
    let types = bound_types(quantifier);
    if count_differs(words, types.len(), terms.len(), b"term")? {
        return Ok(true);
    }
    for (index, term) in terms.iter().enumerate() {
        if let Some(ty) = types.get(index) {
            if is_of_other_type(words, index, term, ty)? {
                return Ok(true);
            }
        }
    }
    Ok(false)
}

/// Names do not fit the variables of a quantifier, or are not new.
pub(crate) fn names_do_not_fit(
    words: &mut Words<'_>,
    sequent: &Sequent,
    quantifier: &Form,
    names: &[u32],
) -> Result<bool, Memory> {
    let types = bound_types(quantifier);
    if count_differs(words, types.len(), names.len(), b"name")? {
        return Ok(true);
    }
    for (index, name) in names.iter().enumerate() {
        if let Some(ty) = types.get(index) {
            if is_named_otherwise(words, *name, ty)? {
                return Ok(true);
            }
        }
        if is_taken(words, sequent, *name)? {
            return Ok(true);
        }
        if names[..index].contains(name) {
            say_name(words, *name)?;
            words.say(b" is given twice")?;
            return Ok(true);
        }
    }
    Ok(false)
}

// The types of the variables that a quantifier binds.
fn bound_types(form: &Form) -> &[Ty] {
    match form.view() {
        View::All(types, _) | View::Some(types, _) => types,
        _ => &[],
    }
}

// Says that the numbers of variables and of what is given differ.
fn count_differs(
    words: &mut Words<'_>,
    bound: usize,
    given: usize,
    kind: &[u8],
) -> Result<bool, Memory> {
    if bound == given {
        return Ok(false);
    }
    words.say(b"the quantifier binds ")?;
    count(words, bound, b"variable")?;
    words.say(b", and ")?;
    count(words, given, kind)?;
    words.say(if given == 1 {
        b" is given"
    } else {
        b" are given"
    })?;
    Ok(true)
}

// A number of things.
pub(crate) fn count(words: &mut Words<'_>, number: usize, kind: &[u8]) -> Result<(), Memory> {
    words.number(number)?;
    words.say(b" ")?;
    words.say(kind)?;
    if number != 1 {
        words.say(b"s")?;
    }
    Ok(())
}

// Says that a term has another type than its variable.
fn is_of_other_type(
    words: &mut Words<'_>,
    index: usize,
    term: &Form,
    ty: &Ty,
) -> Result<bool, Memory> {
    let role = role_of(words.alloc, term, &[], words.table)?;
    if gives(&role, ty) {
        return Ok(false);
    }
    words.say(b"term ")?;
    words.number(index.saturating_add(1))?;
    say_role(words, &role)?;
    words.say(b", and the variable is of type ")?;
    words.of_type(ty)?;
    Ok(true)
}

fn gives(role: &Role, ty: &Ty) -> bool {
    match role {
        Role::Value(other) => other.equal(ty),
        _ => false,
    }
}

// ` is of type INTEGER`, ` is a predicate` and the like.
fn say_role(words: &mut Words<'_>, role: &Role) -> Result<(), Memory> {
    match role {
        Role::Value(ty) => {
            words.say(b" is of type ")?;
            words.of_type(ty)
        }
        Role::Domain(_) => words.say(b" is not a value, since it is an infinite set"),
        Role::Predicate => words.say(b" is a predicate"),
        Role::Nothing => words.say(b" has no type"),
    }
}

// Says that a name has another type than its variable.
fn is_named_otherwise(words: &mut Words<'_>, name: u32, ty: &Ty) -> Result<bool, Memory> {
    let Some(own) = words.table.ty(name) else {
        return Ok(false);
    };
    if own.equal(ty) {
        return Ok(false);
    }
    say_name(words, name)?;
    words.say(b" is of type ")?;
    words.of_type(own)?;
    words.say(b", and the variable is of type ")?;
    words.of_type(ty)?;
    Ok(true)
}

fn say_name(words: &mut Words<'_>, name: u32) -> Result<(), Memory> {
    match words.table.text(name) {
        Some(text) => words.say(text.as_bytes()),
        None => words.say(b"the name"),
    }
}

// Says that a name stands in the sequent.
fn is_taken(words: &mut Words<'_>, sequent: &Sequent, name: u32) -> Result<bool, Memory> {
    if free_in(&sequent.goal, name) {
        say_name(words, name)?;
        words.say(b" occurs in the goal already: take another name")?;
        return Ok(true);
    }
    for (index, hypothesis) in sequent.hyps.iter().enumerate() {
        if free_in(hypothesis, name) {
            say_name(words, name)?;
            words.say(b" occurs in hypothesis ")?;
            words.number(index.saturating_add(1))?;
            words.say(b" already: take another name, or drop the hypothesis before")?;
            return Ok(true);
        }
    }
    Ok(false)
}

/// A term is no predicate.
pub(crate) fn no_predicate(words: &mut Words<'_>, form: &Form) -> Result<bool, Memory> {
    let role = role_of(words.alloc, form, &[], words.table)?;
    if let Role::Predicate = role {
        return Ok(false);
    }
    words.say(b"the term is not a predicate: ")?;
    words.form(form)?;
    say_role(words, &role)?;
    Ok(true)
}

/// A term is of no pair type, or its type is not one whose elements are listed.
pub(crate) fn no_type_of(
    words: &mut Words<'_>,
    term: &Form,
    wants_pair: bool,
) -> Result<bool, Memory> {
    let role = role_of(words.alloc, term, &[], words.table)?;
    if has_wanted(words, &role, wants_pair) {
        return Ok(false);
    }
    words.form(term)?;
    say_role(words, &role)?;
    words.say(if wants_pair {
        b", and pair takes a pair"
    } else {
        b", and elems takes a truth value or an element of a listed set"
    })?;
    Ok(true)
}

fn has_wanted(words: &Words<'_>, role: &Role, wants_pair: bool) -> bool {
    let Role::Value(ty) = role else {
        return false;
    };
    match ty.view() {
        TyView::Pair(_, _) => wants_pair,
        TyView::Bool => !wants_pair,
        TyView::Enum(set) => !wants_pair && words.table.elements(set).is_some(),
        _ => false,
    }
}

/// A hypothesis is no membership in an interval of at most 64 numbers.
pub(crate) fn no_cases(
    words: &mut Words<'_>,
    sequent: &Sequent,
    number: u32,
) -> Result<bool, Memory> {
    let Some(hypothesis) = numbered(&sequent.hyps, number) else {
        words.no_hypothesis(sequent, number)?;
        return Ok(true);
    };
    match cases(words.alloc, hypothesis) {
        Ok(_) => return Ok(false),
        Err(ArithFault::Memory) => return Err(Memory),
        Err(_) => {}
    }
    words.hypothesis(number)?;
    words.say(if is_in_interval(hypothesis) {
        b" is a membership in an interval of more than 64 numbers: it is "
    } else {
        b" is not a membership in an interval whose bounds are numbers: it is "
    })?;
    words.form(hypothesis)?;
    Ok(true)
}

// Whether a formula is a membership in an interval whose bounds are numbers.
fn is_in_interval(form: &Form) -> bool {
    match form.view() {
        View::Bin(BinOp::In, _, set) => match set.view() {
            View::Bin(BinOp::Range, low, high) => is_number(low) && is_number(high),
            _ => false,
        },
        _ => false,
    }
}

fn is_number(form: &Form) -> bool {
    matches!(form.view(), View::Int(_))
}
