//! Where two formulas differ.

use crate::words::Words;
use bk_form::{Form, View};
use bk_io::Memory;

/// Says where two formulas differ: the longest way down on which only one part differs at each node, and what stands after it.
pub(crate) fn say_difference(
    words: &mut Words<'_>,
    there: &Form,
    here: &Form,
) -> Result<(), Memory> {
    let mut path = Vec::new(words.alloc);
    let (left, right) = differing(there, here, &mut path)?;
    if path.is_empty() {
        return Ok(());
    }
    words.say(b"; they differ at place")?;
    for number in &path {
        words.say(b" ")?;
        words.number(*number as usize)?;
    }
    words.say(b": ")?;
    words.form(left)?;
    words.say(b" there, ")?;
    words.form(right)?;
    words.say(b" here")
}

// The parts of two formulas that differ; the numbers of the children on the way there are added.
fn differing<'a>(
    left: &'a Form,
    right: &'a Form,
    path: &mut Vec<u32>,
) -> Result<(&'a Form, &'a Form), Memory> {
    match left.view() {
        View::Un(op, part) => {
            let View::Un(other, counterpart) = right.view() else {
                return Ok((left, right));
            };
            if op != other {
                return Ok((left, right));
            }
            path.push(1)?;
            differing(part, counterpart, path)
        }
        View::Bin(op, first, second) => {
            let View::Bin(other, third, fourth) = right.view() else {
                return Ok((left, right));
            };
            if op != other || first.equal(third) == second.equal(fourth) {
                return Ok((left, right));
            }
            if first.equal(third) {
                path.push(2)?;
                return differing(second, fourth, path);
            }
            path.push(1)?;
            differing(first, third, path)
        }
        _ => Ok((left, right)),
    }
}
