// Each case of easy sequents, and what is just outside of it: whether rules are found, and that they prove the sequent.

use crate::easy_texts::{
    BINDERS, CONJUNCTIONS, COUNTS, EQUATIONS, HIGH_TYPES, IMPLICATIONS, INTERVALS, LARGEST_CLOSED,
    LARGEST_OPEN, NUMBERS, OBVIOUS, ORDERS, OUT_OF_BOUNDS, Row, TRUE,
};
use crate::typed::{rules, verdict};
use crate::written::{TYPES, sequent};
use bk_kernel::Verdict;
use bk_tests_notation::{Unread, table_of};
use std::alloc::Global;
use std::process::Abort;
use std::test::Fail;

// What the rules that are found do to the sequent; None where none are found.
fn answer(alloc: Global, hyps: &[&str], goal: &str) -> Result<Option<Verdict>, Unread> {
    let mut table = table_of(alloc, &TYPES)?;
    let sequent = sequent(alloc, hyps, goal)?;
    match rules(alloc, &mut table, &sequent)? {
        Some(list) => Ok(Some(verdict(alloc, &table, sequent, &list)?)),
        None => Ok(None),
    }
}

fn compare(rt: &impl Abort, alloc: Global, rows: &[Row]) -> Result<(), Fail> {
    for (hyps, goal, found) in rows {
        let wanted = if *found { Some(Verdict::Closed) } else { None };
        assert_eq!(rt; answer(alloc, hyps, goal)?, wanted, "{goal}");
    }
    Ok(())
}

#[test]
fn obvious(rt: HostRuntime) -> Result<(), Fail> {
    compare(&rt, rt.alloc(), &OBVIOUS)
}

#[test]
fn truth(rt: HostRuntime) -> Result<(), Fail> {
    compare(&rt, rt.alloc(), &TRUE)
}

#[test]
fn conjunctions(rt: HostRuntime) -> Result<(), Fail> {
    compare(&rt, rt.alloc(), &CONJUNCTIONS)
}

#[test]
fn implications(rt: HostRuntime) -> Result<(), Fail> {
    compare(&rt, rt.alloc(), &IMPLICATIONS)
}

#[test]
fn binders(rt: HostRuntime) -> Result<(), Fail> {
    compare(&rt, rt.alloc(), &BINDERS)
}

#[test]
fn intervals(rt: HostRuntime) -> Result<(), Fail> {
    compare(&rt, rt.alloc(), &INTERVALS)
}

#[test]
fn equations(rt: HostRuntime) -> Result<(), Fail> {
    compare(&rt, rt.alloc(), &EQUATIONS)
}

#[test]
fn orders(rt: HostRuntime) -> Result<(), Fail> {
    compare(&rt, rt.alloc(), &ORDERS)
}

#[test]
fn out_of_bounds(rt: HostRuntime) -> Result<(), Fail> {
    compare(&rt, rt.alloc(), &OUT_OF_BOUNDS)
}

#[test]
fn numbers(rt: HostRuntime) -> Result<(), Fail> {
    compare(&rt, rt.alloc(), &NUMBERS)
}

#[test]
fn counts(rt: HostRuntime) -> Result<(), Fail> {
    compare(&rt, rt.alloc(), &COUNTS)
}

#[test]
fn largest_open(rt: HostRuntime) -> Result<(), Fail> {
    compare(&rt, rt.alloc(), &LARGEST_OPEN)
}

#[test]
fn largest_closed(rt: HostRuntime) -> Result<(), Fail> {
    compare(&rt, rt.alloc(), &LARGEST_CLOSED)
}

#[test]
fn high_types(rt: HostRuntime) -> Result<(), Fail> {
    compare(&rt, rt.alloc(), &HIGH_TYPES)
}
