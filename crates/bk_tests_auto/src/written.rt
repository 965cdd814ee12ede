// Sequents as texts.

use bk_form::Form;
use bk_seq::Sequent;
use bk_tests_notation::{Unread, formula};
use std::alloc::Global;

// The letters stand for variables of the types below.
const LETTERS: &str = "xyzwustr";

pub(crate) const TYPES: [&str; 8] = ["i", "i", "i", "i", "i", "Pi", "Pi", "PXii"];

pub(crate) fn form(alloc: Global, text: &str) -> Result<Form, Unread> {
    formula(alloc, LETTERS, text)
}

pub(crate) fn sequent(alloc: Global, hyps: &[&str], goal: &str) -> Result<Sequent, Unread> {
    let mut forms = Vec::new(alloc);
    for hyp in hyps {
        forms.push(form(alloc, hyp)?)?;
    }
    Ok(Sequent {
        hyps: forms,
        goal: form(alloc, goal)?,
    })
}
