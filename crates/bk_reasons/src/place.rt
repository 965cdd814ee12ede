//! Places in a sequent.

use crate::change::{Change, change_does_not_fit};
use crate::words::Words;
use bk_form::{Form, View};
use bk_io::Memory;
use bk_kernel::Place;
use bk_seq::{Sequent, at, numbered};

/// Says that a place is not there, or that nothing comes for what stands there.
pub(crate) fn place_does_not_fit(
    words: &mut Words<'_>,
    sequent: &Sequent,
    change: Change<'_>,
    place: &Place,
) -> Result<bool, Memory> {
    match place {
        Place::Goal(path) => path_does_not_fit(words, sequent, change, &sequent.goal, path),
        Place::Hyp(number, path) => match numbered(&sequent.hyps, *number) {
            Some(hypothesis) => path_does_not_fit(words, sequent, change, hypothesis, path),
            None => {
                words.no_hypothesis(sequent, *number)?;
                Ok(true)
            }
        },
    }
}

fn path_does_not_fit(
    words: &mut Words<'_>,
    sequent: &Sequent,
    change: Change<'_>,
    form: &Form,
    path: &[u32],
) -> Result<bool, Memory> {
    match at(form, path) {
        Some(old) => change_does_not_fit(words, sequent, change, old),
        None => {
            say_end(words, form, path)?;
            Ok(true)
        }
    }
}

// Says where a path leaves a formula.
fn say_end(words: &mut Words<'_>, form: &Form, path: &[u32]) -> Result<(), Memory> {
    for length in 0..path.len() {
        let front = &path[..length];
        if at(form, &path[..length + 1]).is_none() {
            if let Some(last) = at(form, front) {
                return say_parts(words, last, path[length]);
            }
        }
    }
    words.say(b"there is no such place")
}

// Says that a formula has no part of this number.
fn say_parts(words: &mut Words<'_>, form: &Form, number: u32) -> Result<(), Memory> {
    words.say(b"there is no such place: ")?;
    words.form(form)?;
    match parts_of(form) {
        Parts::Bound => words.say(b" binds variables, and a place cannot lead below a binder"),
        Parts::Are(0) => words.say(b" has no parts"),
        Parts::Are(count) => {
            words.say(b" has parts 1 to ")?;
            words.number(count)?;
            words.say(b", and no part ")?;
            words.number(number as usize)
        }
    }
}

// Which parts of a formula have places.
#[derive(Clone, Copy)]
enum Parts {
    // None: a binder.
    Bound,
    // So many.
    Are(usize),
}

fn parts_of(form: &Form) -> Parts {
    match form.view() {
        View::Un(_, _) => Parts::Are(1),
        View::Bin(_, _, _) => Parts::Are(2),
        View::All(_, _) | View::Some(_, _) => Parts::Bound,
        View::Compr(ranges, _) | View::Lam(ranges, _, _) => Parts::Are(ranges.len()),
        _ => Parts::Are(0),
    }
}
