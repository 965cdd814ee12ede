// What formulas print as, and that it is read as the same formula.

use crate::drawing::{Kind, write};
use crate::draws::Draws;
use crate::names::{LETTERS, scope, table};
use crate::texts::{
    BINDERS, LACKING, LEAVES, OBLIGATIONS, ONE_OPERAND, PARENTHESES, TWO_OPERANDS, TYPES,
};
use bk_form::Form;
use bk_lex::tokens;
use bk_p_expr::term;
use bk_raw::RawTerm;
use bk_show::{show, show_type};
use bk_tests_notation::{Unread, formula, type_of};
use std::alloc::Global;
use std::process::Abort;
use std::test::Fail;

// Whether the formula prints as this text.
fn prints_as(alloc: Global, form: &Form, wanted: &str) -> Result<bool, Unread> {
    let text = show(alloc, form, &table(alloc)?)?;
    Ok(text.as_slice() == wanted.as_bytes())
}

// The term that the whole text is.
fn parsed(alloc: Global, text: &[u8]) -> Option<RawTerm> {
    let found = tokens(alloc, text).ok()?;
    let (tree, end) = term(alloc, &found, 0).ok()?;
    (end == found.len()).then_some(tree)
}

// Whether the text that the formula prints as is read as this formula.
fn is_read_back(alloc: Global, form: &Form) -> Result<bool, Unread> {
    let table = table(alloc)?;
    let text = show(alloc, form, &table)?;
    let Some(tree) = parsed(alloc, &text) else {
        return Ok(false);
    };
    match bk_elab_terms::formula(alloc, &tree, &scope(alloc)?, &table) {
        Ok(found) => Ok(found.equal(form)),
        Err(_) => Ok(false),
    }
}

// Compares the texts of a list, and reads them.
fn compare(rt: &impl Abort, alloc: Global, list: &[(&str, &str)]) -> Result<(), Fail> {
    for (written, wanted) in list {
        let form = formula(alloc, LETTERS, written)?;
        assert!(rt; prints_as(alloc, &form, wanted)?, "{written}");
        assert!(rt; is_read_back(alloc, &form)?, "{written}");
    }
    Ok(())
}

#[test]
fn leaves(rt: HostRuntime) -> Result<(), Fail> {
    compare(&rt, rt.alloc(), &LEAVES)
}

#[test]
fn operators_on_one_operand(rt: HostRuntime) -> Result<(), Fail> {
    compare(&rt, rt.alloc(), &ONE_OPERAND)
}

#[test]
fn operators_on_two_operands(rt: HostRuntime) -> Result<(), Fail> {
    compare(&rt, rt.alloc(), &TWO_OPERANDS)
}

#[test]
fn parentheses(rt: HostRuntime) -> Result<(), Fail> {
    compare(&rt, rt.alloc(), &PARENTHESES)
}

#[test]
fn binders(rt: HostRuntime) -> Result<(), Fail> {
    compare(&rt, rt.alloc(), &BINDERS)
}

#[test]
fn obligations(rt: HostRuntime) -> Result<(), Fail> {
    compare(&rt, rt.alloc(), &OBLIGATIONS)
}

// Compares the texts of a list, which are not read.
fn compare_texts(rt: &impl Abort, alloc: Global, list: &[(&str, &str)]) -> Result<(), Fail> {
    for (written, wanted) in list {
        let form = formula(alloc, LETTERS, written)?;
        assert!(rt; prints_as(alloc, &form, wanted)?, "{written}");
    }
    Ok(())
}

#[test]
fn what_the_table_lacks(rt: HostRuntime) -> Result<(), Fail> {
    compare_texts(&rt, rt.alloc(), &LACKING)
}

// Whether the type of a text prints as this text.
fn type_prints_as(alloc: Global, written: &str, wanted: &str) -> Result<bool, Unread> {
    let ty = type_of(alloc, written)?;
    let text = show_type(alloc, &ty, &table(alloc)?)?;
    Ok(text.as_slice() == wanted.as_bytes())
}

fn compare_types(rt: &impl Abort, alloc: Global, list: &[(&str, &str)]) -> Result<(), Fail> {
    for (written, wanted) in list {
        assert!(rt; type_prints_as(alloc, written, wanted)?, "{wanted}");
    }
    Ok(())
}

#[test]
fn types(rt: HostRuntime) -> Result<(), Fail> {
    compare_types(&rt, rt.alloc(), &TYPES)
}

// The predicate that is drawn from a seed.
fn drawn(alloc: Global, seed: u64) -> Result<Form, Fail> {
    let mut text = Vec::new(alloc);
    let mut draws = Draws::new(seed);
    write(&mut text, &mut draws, Kind::Predicate, 0, 1 + seed % 5)?;
    let text = str::from_utf8(&text)?;
    Ok(formula(alloc, LETTERS, text)?)
}

#[test]
fn predicates_drawn_from_seeds_are_read_back(rt: HostRuntime) -> Result<(), Fail> {
    for seed in 0..1000 {
        let form = drawn(rt.alloc(), seed)?;
        assert!(rt; is_read_back(rt.alloc(), &form)?, "{seed}");
    }
    Ok(())
}
