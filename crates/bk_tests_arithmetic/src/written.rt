// Formulas over the variables x, y and z as texts, as `bk_tests_notation` reads them.

use bk_form::Form;
use bk_tests_notation::{Unread, formula};
use std::alloc::Global;

const LETTERS: &str = "xyz";

pub(crate) fn form(alloc: Global, text: &str) -> Result<Form, Unread> {
    formula(alloc, LETTERS, text)
}

// The formulas of texts with commas between them.
pub(crate) fn forms(alloc: Global, texts: &str) -> Result<Vec<Form>, Unread> {
    let mut forms = Vec::new(alloc);
    for text in texts.split(",") {
        forms.push(form(alloc, text)?)?;
    }
    Ok(forms)
}
