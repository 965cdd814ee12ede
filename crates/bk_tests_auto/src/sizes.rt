// Formulas at the bounds of size and height.

use crate::typed::rules;
use crate::written::{TYPES, form};
use bk_form::{BinOp, Form, UnOp};
use bk_seq::Sequent;
use bk_tests_fixtures::{binary, unary};
use bk_tests_notation::{Unread, table_of};
use std::alloc::Global;
use std::process::Abort;
use std::test::Fail;

// A predicate of 3 nodes, joined with itself again and again: 4 * 2 ^ n - 1 nodes.
fn doubled(alloc: Global, times: u32) -> Result<Form, Unread> {
    let mut whole = form(alloc, "( x = x )")?;
    for _ in 0..times {
        let other = whole.copy(alloc)?;
        whole = binary(alloc, BinOp::Or, whole, other)?;
    }
    Ok(whole)
}

// A predicate with so many nodes more, each above the last one: `not` again and again.
fn denied(alloc: Global, inner: Form, times: u32) -> Result<Form, Unread> {
    let mut whole = inner;
    for _ in 0..times {
        whole = unary(alloc, UnOp::Not, whole)?;
    }
    Ok(whole)
}

// Predicates of 65535, 16383, 4095, 2047, 1023, 511, 255 nodes, joined by six nodes, and so many nodes more.
fn of_nodes(alloc: Global, more: u32) -> Result<Form, Unread> {
    let mut whole = doubled(alloc, 14)?;
    for times in [12, 10, 9, 8, 7, 6] {
        whole = binary(alloc, BinOp::Or, whole, doubled(alloc, times)?)?;
    }
    denied(alloc, whole, more)
}

// Whether rules are found for an easy goal under the hypothesis.
fn is_found(alloc: Global, hyp: Form) -> Result<bool, Unread> {
    let mut table = table_of(alloc, &TYPES)?;
    let sequent = Sequent {
        hyps: Vec::from_array(alloc, [hyp])?,
        goal: form(alloc, "( x = x )")?,
    };
    Ok(rules(alloc, &mut table, &sequent)?.is_some())
}

#[test]
fn nodes(rt: HostRuntime) -> Result<(), Fail> {
    let alloc = rt.alloc();
    let most = of_nodes(alloc, 145)?;
    assert_eq!(rt; most.size(), 90_000);
    assert!(rt; is_found(alloc, most)?);
    assert!(rt; !is_found(alloc, of_nodes(alloc, 146)?)?);
    Ok(())
}

#[test]
fn height(rt: HostRuntime) -> Result<(), Fail> {
    let alloc = rt.alloc();
    let highest = denied(alloc, doubled(alloc, 0)?, 298)?;
    assert_eq!(rt; highest.depth(), 300);
    assert!(rt; is_found(alloc, highest)?);
    assert!(rt; !is_found(alloc, denied(alloc, doubled(alloc, 0)?, 299)?)?);
    Ok(())
}
