// Substitutions without `||`: the boxes of the rewritten, the entries of the copies, and what both sides write.

use crate::flattening_texts::{COPIED, OVERLAPPING, REWRITTEN};
use crate::transformers::compare_boxes;
use crate::written::{TYPES, number, substitution, table};
use bk_par::{ParFault, flatten};
use bk_tests_notation::Unread;
use std::alloc::Global;
use std::process::Abort;
use std::test::Fail;

#[test]
fn rewritten(rt: HostRuntime) -> Result<(), Fail> {
    compare_boxes(&rt, rt.alloc(), &REWRITTEN)
}

// Why the substitution of a text is not rewritten, and how many entries the table has more then.
fn rewriting(alloc: Global, text: &str) -> Result<(Option<ParFault>, usize), Unread> {
    let mut table = table(alloc)?;
    let sub = substitution(alloc, text)?;
    let fault = flatten(alloc, sub, &mut table).err();
    Ok((fault, table.variables().saturating_sub(TYPES.len())))
}

// Compares the numbers of copies.
fn count(rt: &impl Abort, alloc: Global, list: &[(&str, usize)]) -> Result<(), Fail> {
    for (text, copies) in list {
        assert_eq!(rt; rewriting(alloc, text)?, (None, *copies), "{text}");
    }
    Ok(())
}

#[test]
fn copied(rt: HostRuntime) -> Result<(), Fail> {
    count(&rt, rt.alloc(), &COPIED)
}

// Sees that substitutions are refused for these variables, and that the table is as it was.
fn refuse(rt: &impl Abort, alloc: Global, list: &[(&str, &str)]) -> Result<(), Fail> {
    for (text, letter) in list {
        let overlap = ParFault::Overlap(number(letter)?);
        assert_eq!(rt; rewriting(alloc, text)?, (Some(overlap), 0), "{text}");
    }
    Ok(())
}

#[test]
fn overlapping(rt: HostRuntime) -> Result<(), Fail> {
    refuse(&rt, rt.alloc(), &OVERLAPPING)
}
