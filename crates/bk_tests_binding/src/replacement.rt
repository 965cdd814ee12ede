// Terms in place of variables, and whether a variable stands in a formula.

use crate::binding_texts::{FREE, LETTERS, REPLACED, WORDS};
use bk_bind::{free_in, replace};
use bk_form::Form;
use bk_tests_notation::{Unread, formula};
use std::alloc::Global;
use std::test::Fail;

fn form(alloc: Global, text: &str) -> Result<Form, Unread> {
    formula(alloc, LETTERS, text)
}

fn terms(alloc: Global, texts: &[(u32, &str)]) -> Result<Vec<(u32, Form)>, Unread> {
    let mut pairs = Vec::new(alloc);
    for (variable, text) in texts {
        pairs.push((*variable, form(alloc, text)?))?;
    }
    Ok(pairs)
}

#[test]
fn terms_in_place_of_variables(rt: HostRuntime) -> Result<(), Fail> {
    let alloc = rt.alloc();
    for (given, pairs, wanted) in REPLACED {
        let found = replace(alloc, &form(alloc, given)?, &terms(alloc, pairs)?)?;
        assert!(rt; found.equal(&form(alloc, wanted)?), "{wanted}");
    }
    Ok(())
}

#[test]
fn other_words_stay(rt: HostRuntime) -> Result<(), Fail> {
    let alloc = rt.alloc();
    let pairs = terms(alloc, &[(0, "v")])?;
    for word in WORDS {
        let given = form(alloc, word)?;
        assert!(rt; replace(alloc, &given, &pairs)?.equal(&given), "{word}");
        assert!(rt; !free_in(&given, 0), "{word}");
    }
    Ok(())
}

#[test]
fn free_variables(rt: HostRuntime) -> Result<(), Fail> {
    let alloc = rt.alloc();
    for (given, wanted) in FREE {
        let form = form(alloc, given)?;
        let found = [
            free_in(&form, 0),
            free_in(&form, 1),
            free_in(&form, 2),
            free_in(&form, 3),
        ];
        assert_eq!(rt; found, *wanted, "{given}");
    }
    Ok(())
}
