// Formulas of 200,000 nodes and 2,000 levels, and larger ones.

use bk_bind::{
    BindFault, binary, bounded, close, closed, for_all, for_some, lift, open_body, rename, replace,
    unary,
};
use bk_form::{BinOp, Form, Part, Ty, UnOp};
use bk_io::Memory;
use bk_tests_fixtures::shapes::{of_height, of_size};
use bk_tests_fixtures::{leaf, literal, of_variables, variable};
use std::alloc::Global;
use std::test::Fail;

fn is_too_large(outcome: Result<Form, BindFault>) -> bool {
    outcome.err() == Some(BindFault::TooLarge)
}

// Whether the formula is too large by itself, below an operator, and below each quantifier.
fn below_operators(alloc: Global, form: &Form) -> Result<[bool; 4], Memory> {
    Ok([
        is_too_large(bounded(form.copy(alloc)?)),
        is_too_large(unary(alloc, UnOp::Not, form.copy(alloc)?)),
        is_too_large(for_all(alloc, &[Ty::int()], form.copy(alloc)?)),
        is_too_large(for_some(alloc, &[Ty::int()], form.copy(alloc)?)),
    ])
}

#[test]
fn of_operators(rt: HostRuntime) -> Result<(), Fail> {
    let alloc = rt.alloc();
    let one_more = [false, true, true, true];
    assert_eq!(rt;
        below_operators(alloc, &of_size(alloc, 199_999)?)?,
        [false; 4]
    );
    assert_eq!(rt;
        below_operators(alloc, &of_size(alloc, 200_000)?)?,
        one_more
    );
    assert_eq!(rt;
        below_operators(alloc, &of_size(alloc, 200_001)?)?,
        [true; 4]
    );
    assert_eq!(rt;
        below_operators(alloc, &of_height(alloc, 1_999)?)?,
        [false; 4]
    );
    assert_eq!(rt;
        below_operators(alloc, &of_height(alloc, 2_000)?)?,
        one_more
    );
    assert_eq!(rt;
        below_operators(alloc, &of_height(alloc, 2_001)?)?,
        [true; 4]
    );
    Ok(())
}

// Whether `left - right` is too large.
fn is_too_large_between(alloc: Global, left: Form, right: Form) -> bool {
    is_too_large(binary(alloc, BinOp::Sub, left, right))
}

#[test]
fn of_two_operands(rt: HostRuntime) -> Result<(), Fail> {
    let alloc = rt.alloc();
    let (left, right) = (of_size(alloc, 99_999)?, of_size(alloc, 100_000)?);
    assert!(rt; !is_too_large_between(alloc, left, right));
    let (left, right) = (of_size(alloc, 100_000)?, of_size(alloc, 100_000)?);
    assert!(rt; is_too_large_between(alloc, left, right));
    let (left, right) = (of_height(alloc, 1_999)?, of_height(alloc, 1_999)?);
    assert!(rt; !is_too_large_between(alloc, left, right));
    let (left, right) = (of_height(alloc, 2_000)?, of_height(alloc, 1)?);
    assert!(rt; is_too_large_between(alloc, left, right));
    let (left, right) = (of_height(alloc, 1)?, of_height(alloc, 2_000)?);
    assert!(rt; is_too_large_between(alloc, left, right));
    Ok(())
}

// Whether the formula is too large to be closed, raised, and replaced in.
fn in_place(alloc: Global, form: &Form) -> [bool; 3] {
    [
        is_too_large(close(alloc, form, &[0])),
        is_too_large(lift(alloc, form, 1)),
        is_too_large(replace(alloc, form, &[])),
    ]
}

#[test]
fn nodes_of_the_formula(rt: HostRuntime) -> Result<(), Fail> {
    let alloc = rt.alloc();
    assert_eq!(rt; in_place(alloc, &of_size(alloc, 200_000)?), [false; 3]);
    assert_eq!(rt; in_place(alloc, &of_size(alloc, 200_001)?), [true; 3]);
    Ok(())
}

#[test]
fn levels_of_the_formula(rt: HostRuntime) -> Result<(), Fail> {
    let alloc = rt.alloc();
    assert_eq!(rt; in_place(alloc, &of_height(alloc, 2_000)?), [false; 3]);
    assert_eq!(rt; in_place(alloc, &of_height(alloc, 2_001)?), [true; 3]);
    Ok(())
}

// `closed` and `rename` take formulas of any size.
#[test]
fn of_any_size(rt: HostRuntime) -> Result<(), Fail> {
    let alloc = rt.alloc();
    let form = of_size(alloc, 200_001)?;
    assert_eq!(rt; closed(alloc, &form, &[0])?.size(), 200_001);
    assert_eq!(rt; rename(alloc, &form, &[(0, 1)])?.size(), 200_001);
    Ok(())
}

// Whether x0 - x0 with the term in place of x0, and the body b0 - b0 with it, are too large.
fn twice(alloc: Global, term: Form) -> Result<[bool; 2], Memory> {
    let form = of_variables(alloc, BinOp::Sub, 0, 0)?;
    let pairs = vec![in alloc; (0, term.copy(alloc)?)]?;
    let replaced = is_too_large(replace(alloc, &form, &pairs));
    let bound = leaf(alloc, Part::Bound(0))?;
    let body = bk_tests_fixtures::binary(alloc, BinOp::Sub, bound.copy(alloc)?, bound)?;
    let terms = vec![in alloc; term]?;
    Ok([replaced, is_too_large(open_body(alloc, &body, &terms))])
}

// The term counts as often as it stands in the result.
#[test]
fn of_terms(rt: HostRuntime) -> Result<(), Fail> {
    let alloc = rt.alloc();
    assert_eq!(rt; twice(alloc, of_size(alloc, 99_999)?)?, [false; 2]);
    assert_eq!(rt; twice(alloc, of_size(alloc, 100_000)?)?, [true; 2]);
    assert_eq!(rt; twice(alloc, of_height(alloc, 1_999)?)?, [false; 2]);
    assert_eq!(rt; twice(alloc, of_height(alloc, 2_000)?)?, [true; 2]);
    Ok(())
}

// 1 in place of x0, which stands at the bottom of 2,000 levels.
#[test]
fn levels_of_the_result(rt: HostRuntime) -> Result<(), Fail> {
    let alloc = rt.alloc();
    let pairs = vec![in alloc; (0, literal(alloc, 1)?)]?;
    let found = replace(alloc, &of_height(alloc, 2_000)?, &pairs)?;
    assert_eq!(rt; found.depth(), 2_000);
    Ok(())
}

// A term that stands nowhere in the result does not count.
#[test]
fn terms_that_go_away(rt: HostRuntime) -> Result<(), Fail> {
    let alloc = rt.alloc();
    let body = variable(alloc, 3)?;
    let terms = vec![in alloc; of_size(alloc, 200_001)?]?;
    assert!(rt; open_body(alloc, &body, &terms)?.equal(&body));
    let pairs = vec![in alloc; (0, of_size(alloc, 200_001)?)]?;
    assert!(rt; replace(alloc, &body, &pairs)?.equal(&body));
    Ok(())
}
