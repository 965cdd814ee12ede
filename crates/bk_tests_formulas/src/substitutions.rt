// Copies of substitutions in which every variant stands, and the variables that substitutions write and read.

use bk_form::BinOp;
use bk_gsl::{Sub, reads, writes};
use bk_io::Memory;
use bk_tests_fixtures::{becomes, of_variables, variable};
use std::alloc::Global;
use std::test::Fail;

// x := y
fn copying(alloc: Global, x: u32, y: u32) -> Result<Sub, Memory> {
    becomes(alloc, x, variable(alloc, y)?)
}

// IF x5 THEN x6 := x7 ELSE skip END
fn branched(alloc: Global) -> Result<Sub, Memory> {
    let test = variable(alloc, 5)?;
    Sub::if_else(alloc, test, copying(alloc, 6, 7)?, Sub::skip(alloc)?)
}

// PRE x1 THEN SELECT x2 THEN CHOICE x3 := x4 OR IF x5 THEN x6 := x7 ELSE skip END END END END
fn guarded(alloc: Global) -> Result<Sub, Memory> {
    let first = copying(alloc, 3, 4)?;
    let inner = Sub::choice(alloc, first, branched(alloc)?)?;
    let inner = Sub::guard(alloc, variable(alloc, 2)?, inner)?;
    Sub::pre(alloc, variable(alloc, 1)?, inner)
}

// VAR x8, x9 IN x8 := x10 || x11 := x9 END
fn local(alloc: Global) -> Result<Sub, Memory> {
    let first = copying(alloc, 8, 10)?;
    let inner = Sub::par(alloc, first, copying(alloc, 11, 9)?)?;
    Sub::any(alloc, vec![in alloc; 8, 9]?, inner)
}

// WHILE x12 DO x13 := x14 INVARIANT x15 VARIANT x16 END
fn repeated(alloc: Global) -> Result<Sub, Memory> {
    let test = variable(alloc, 12)?;
    let body = copying(alloc, 13, 14)?;
    let invariant = variable(alloc, 15)?;
    Sub::while_loop(alloc, test, body, invariant, variable(alloc, 16)?)
}

// ASSERT x17 THEN x18 :(x18 = x19) END, where x19 stands for the old value of x18
fn chosen(alloc: Global) -> Result<Sub, Memory> {
    let equation = of_variables(alloc, BinOp::Eq, 18, 19)?;
    let inner = Sub::becomes_such(alloc, vec![in alloc; (18, 19)]?, equation)?;
    Sub::assertion(alloc, variable(alloc, 17)?, inner)
}

// The four one after another: every variant stands in it.
fn every(alloc: Global) -> Result<Sub, Memory> {
    let last = repeated(alloc)?;
    let last = Sub::seq(alloc, last, chosen(alloc)?)?;
    let last = Sub::seq(alloc, local(alloc)?, last)?;
    Sub::seq(alloc, guarded(alloc)?, last)
}

// Whether the substitution writes and reads these variables.
fn writes_and_reads(
    alloc: Global,
    sub: &Sub,
    written: &[u32],
    read: &[u32],
) -> Result<bool, Memory> {
    let found = writes(alloc, sub)?;
    Ok(found.as_slice() == written && reads(alloc, sub)?.as_slice() == read)
}

#[test]
fn copies(rt: HostRuntime) -> Result<(), Fail> {
    let alloc = rt.alloc();
    let copy = every(alloc)?.copy(alloc)?;
    let read = [1, 2, 4, 5, 7, 10, 12, 14, 15, 16, 17, 18];
    assert!(rt; writes_and_reads(alloc, &copy, &[3, 6, 11, 13, 18], &read)?);
    Ok(())
}

#[test]
fn writes_both_sides(rt: HostRuntime) -> Result<(), Fail> {
    let alloc = rt.alloc();
    let swap = Sub::par(alloc, copying(alloc, 1, 0)?, copying(alloc, 0, 1)?)?;
    assert!(rt; writes_and_reads(alloc, &swap, &[0, 1], &[0, 1])?);
    Ok(())
}

#[test]
fn leaves_locals_out(rt: HostRuntime) -> Result<(), Fail> {
    let alloc = rt.alloc();
    let local = local(alloc)?;
    assert!(rt; writes_and_reads(alloc, &local, &[11], &[10])?);
    Ok(())
}
