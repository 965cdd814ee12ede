// Boxes of long sequences: how large they are.

ghost use Rattle.std.specs.Prelude.{IfOk};
ghost use Rattle.bk_gsl.specs.Flat.{IsFlat};

use crate::written::{flat, form};
use bk_form::VarTable;
use bk_gsl::Sub;
use bk_io::Memory;
use bk_wp::{WpFault, boxed};
use std::alloc::Global;
use std::test::Fail;

const BRANCH: &str = "IF ( x = 1 ) THEN x := 2 ELSE skip END";

// The substitution so many times, one after the other.
fn repeated(alloc: Global, sub: &Sub, times: u32) -> Result<Sub, Memory>
    requires { IsFlat sub.now }
    ensures { IfOk result (λ s. IsFlat s) }
{
    if times == 0 {
        return Ok(Sub::skip(alloc)?);
    }
    let others = repeated(alloc, sub, times - 1)?;
    Sub::seq(alloc, sub.copy(alloc)?, others)
}

// How many nodes the box has before `x = 2`.
fn box_size(alloc: Global, table: &VarTable, sub: &Sub) -> Result<Result<u64, WpFault>, Fail>
    requires { IsFlat sub.now }
{
    let post = form(alloc, "( x = 2 )")?;
    match boxed(alloc, table, sub, post) {
        Ok(found) => Ok(Ok(found.size())),
        Err(fault) => Ok(Err(fault)),
    }
}

fn nodes_of(
    alloc: Global,
    table: &VarTable,
    sub: &Sub,
    times: u32,
) -> Result<Result<u64, WpFault>, Fail>
    requires { IsFlat sub.now }
{
    let whole = repeated(alloc, sub, times)?;
    box_size(alloc, table, &whole)
}

// How many it has of the substitution so many times.
fn nodes(alloc: Global, text: &str, times: u32) -> Result<Result<u64, WpFault>, Fail> {
    let (table, sub) = flat(alloc, text)?;
    nodes_of(alloc, &table, &sub, times)
}

// each branch doubles what is to hold after it
#[test]
fn branches_in_sequence(rt: HostRuntime) -> Result<(), Fail> {
    assert_eq!(rt; nodes(rt.alloc(), BRANCH, 13)?, Ok(106_486));
    Ok(())
}

#[test]
fn one_branch_more_is_too_large(rt: HostRuntime) -> Result<(), Fail> {
    assert_eq!(rt; nodes(rt.alloc(), BRANCH, 14)?, Err(WpFault::TooLarge));
    Ok(())
}

#[test]
fn assignments_in_sequence(rt: HostRuntime) -> Result<(), Fail> {
    assert_eq!(rt; nodes(rt.alloc(), "x := 2", 2000)?, Ok(3));
    Ok(())
}
