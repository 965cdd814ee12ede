// Formulas that are shared, and how many different ones there are then.

use crate::pool_texts::{AFTER, BEFORE, LETTERS, SHARED};
use bk_bind::replace;
use bk_form::{Form, Pool};
use bk_tests_notation::{Unread, formula};
use std::alloc::Global;
use std::process::Abort;
use std::test::Fail;

fn form(alloc: Global, text: &str) -> Result<Form, Unread> {
    formula(alloc, LETTERS, text)
}

// Whether the formula of a text is shared as itself.
fn is_shared(alloc: Global, pool: &mut Pool, text: &str) -> Result<bool, Unread> {
    let given = form(alloc, text)?;
    Ok(pool.share(&given)?.equal(&given))
}

// Shares formulas into an empty pool, and compares its count after each.
fn share(rt: &impl Abort, alloc: Global, pool: &mut Pool, list: &[(&str, u64)]) {
    for (text, count) in list {
        assert!(rt; is_shared(alloc, pool, text) == Ok(true), "{text}");
        assert_eq!(rt; pool.count(), *count, "{text}");
    }
}

// Shares formulas into a pool that has all of them.
fn share_again(rt: &impl Abort, alloc: Global, pool: &mut Pool, list: &[(&str, u64)]) {
    for (text, _) in list {
        assert!(rt; is_shared(alloc, pool, text) == Ok(true), "{text}");
        assert_eq!(rt; pool.count(), 47, "{text}");
    }
}

#[test]
fn different_formulas_are_counted_once(rt: HostRuntime) -> Result<(), Fail> {
    let mut pool = Pool::new(rt.alloc())?;
    assert_eq!(rt; pool.count(), 0);
    share(&rt, rt.alloc(), &mut pool, &SHARED);
    Ok(())
}

#[test]
fn formulas_are_shared_again(rt: HostRuntime) -> Result<(), Fail> {
    let mut pool = Pool::new(rt.alloc())?;
    share(&rt, rt.alloc(), &mut pool, &SHARED);
    share_again(&rt, rt.alloc(), &mut pool, &SHARED);
    Ok(())
}

// The condition with this one in place of y.
fn with(alloc: Global, condition: &Form, behind: Form) -> Result<Form, Fail> {
    let mut pairs = Vec::new(alloc);
    pairs.push((1, behind))?;
    Ok(replace(alloc, condition, &pairs)?)
}

// What so many `IF n < 5` in sequence ask, each with a text of its own.
fn asked(alloc: Global, branches: u32) -> Result<Form, Fail> {
    let mut condition = form(alloc, AFTER)?;
    for _ in 0..branches {
        condition = with(alloc, &form(alloc, BEFORE)?, condition)?;
    }
    Ok(condition)
}

// Shares the condition of thirteen of them into an empty pool.
fn share_condition(rt: &impl Abort, pool: &mut Pool, condition: &Form) -> Result<(), Fail> {
    assert_eq!(rt; condition.size(), 106_486);
    let shared = pool.share(condition)?;
    assert_eq!(rt; pool.count(), 45);
    assert_eq!(rt; shared.size(), 106_486);
    assert!(rt; shared.equal(condition));
    Ok(())
}

#[test]
fn thirteen_conditionals_have_forty_five_parts(rt: HostRuntime) -> Result<(), Fail> {
    let alloc = rt.alloc();
    let mut pool = Pool::new(alloc)?;
    share_condition(&rt, &mut pool, &asked(alloc, 13)?)?;
    pool.share(&asked(alloc, 12)?)?;
    assert_eq!(rt; pool.count(), 45);
    Ok(())
}
