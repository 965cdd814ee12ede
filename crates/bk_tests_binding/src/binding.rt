// Variables made bound, bodies of binders opened, formulas under more binders, and variables in place of variables.

use crate::binding_texts::{CLOSED, LETTERS, LIFTED, OPENED, RENAMED};
use bk_bind::{close, closed, lift, open_body, raise, rename};
use bk_form::Form;
use bk_tests_notation::{Unread, formula};
use std::alloc::Global;
use std::test::Fail;

fn form(alloc: Global, text: &str) -> Result<Form, Unread> {
    formula(alloc, LETTERS, text)
}

fn forms(alloc: Global, texts: &[&str]) -> Result<Vec<Form>, Unread> {
    let mut forms = Vec::new(alloc);
    for text in texts {
        forms.push(form(alloc, text)?)?;
    }
    Ok(forms)
}

#[test]
fn variables_made_bound(rt: HostRuntime) -> Result<(), Fail> {
    let alloc = rt.alloc();
    for (given, variables, wanted) in CLOSED {
        let given = form(alloc, given)?;
        let expected = form(alloc, wanted)?;
        assert!(rt;
            close(alloc, &given, variables)?.equal(&expected),
            "{wanted}"
        );
        assert!(rt;
            closed(alloc, &given, variables)?.equal(&expected),
            "{wanted}"
        );
    }
    Ok(())
}

#[test]
fn bodies_opened(rt: HostRuntime) -> Result<(), Fail> {
    let alloc = rt.alloc();
    for (body, terms, wanted) in OPENED {
        let found = open_body(alloc, &form(alloc, body)?, &forms(alloc, terms)?)?;
        assert!(rt; found.equal(&form(alloc, wanted)?), "{wanted}");
    }
    Ok(())
}

#[test]
fn under_more_binders(rt: HostRuntime) -> Result<(), Fail> {
    let alloc = rt.alloc();
    for (given, more, wanted) in LIFTED {
        let given = form(alloc, given)?;
        let wanted_form = form(alloc, wanted)?;
        assert!(rt; lift(alloc, &given, *more)?.equal(&wanted_form), "{wanted}");
        assert!(rt;
            raise(alloc, &given, *more)?.equal(&wanted_form),
            "{wanted}"
        );
    }
    Ok(())
}

#[test]
fn other_names(rt: HostRuntime) -> Result<(), Fail> {
    let alloc = rt.alloc();
    for (given, pairs, wanted) in RENAMED {
        let found = rename(alloc, &form(alloc, given)?, pairs)?;
        assert!(rt; found.equal(&form(alloc, wanted)?), "{wanted}");
    }
    Ok(())
}
