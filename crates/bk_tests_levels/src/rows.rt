// The developments of some texts.

use crate::answers::{Untold, answer_of};
use crate::notation::notation;
use crate::row_texts::{COUNTER, COUNTER_I, COUNTER_R, LAMP, LAMP_I, TABLE, TABLE_I};
use bk_dev::{Development, Home};
use bk_form::{ArrayDomain, ArrayRow, Ty};
use std::alloc::Global;
use std::process::Abort;
use std::test::Fail;

// The development of the text below the others, where it is accepted.
fn development(alloc: Global, above: &[&str], text: &str) -> Result<Box<Development>, Untold> {
    answer_of(alloc, above, text)?
        .development
        .ok_or(Untold::Refused)
}

// A variable's text, type and home.
fn is_variable(development: &Development, number: u32, text: &str, ty: &Ty, home: Home) -> bool {
    development
        .table
        .text(number)
        .is_some_and(|found| found.as_bytes() == text.as_bytes())
        && development
            .table
            .ty(number)
            .is_some_and(|found| found.equal(ty))
        && development.homes.get(number as usize) == Some(&home)
}

// Each level has its n and its r; n is linked to the one above.
const CHAIN: [(u32, &str, Home); 6] = [
    (0, "n$0", Home::Abstract(0)),
    (1, "r$0", Home::Inner(0)),
    (2, "n$1", Home::Abstract(1)),
    (3, "r$1", Home::Inner(1)),
    (4, "n$2", Home::Concrete(2)),
    (5, "r$2", Home::Inner(2)),
];

fn compare_variables(
    rt: &impl Abort,
    development: &Development,
    ty: &Ty,
    rows: &[(u32, &str, Home)],
) {
    for (at, text, home) in rows {
        assert!(rt; is_variable(development, *at, text, ty, *home), "{text}");
    }
}

// Whether these are the links of the level.
fn is_linked(development: &Development, level: usize, links: &[(u32, u32)]) -> bool {
    development
        .levels
        .get(level)
        .is_some_and(|found| found.links.as_slice() == links)
}

const LINKS: [(usize, &[(u32, u32)]); 3] = [(0, &[]), (1, &[(2, 0)]), (2, &[(4, 2)])];

fn compare_links(rt: &impl Abort, development: &Development, rows: &[(usize, &[(u32, u32)])]) {
    for (level, links) in rows {
        assert!(rt; is_linked(development, *level, links), "{level}");
    }
}

#[test]
fn a_chain_of_three(rt: HostRuntime) -> Result<(), Fail> {
    let alloc = rt.alloc();
    let found = development(alloc, &[COUNTER, COUNTER_R], COUNTER_I)?;
    compare_variables(&rt, &found, &Ty::int(), &CHAIN);
    compare_links(&rt, &found, &LINKS);
    assert!(rt; found.is_complete() && found.levels.len() == 3);
    assert!(rt; found.heads.len() == 3 && found.values.is_empty() && found.sets.is_empty());
    Ok(())
}

#[test]
fn operations_of_a_chain(rt: HostRuntime) -> Result<(), Fail> {
    let alloc = rt.alloc();
    let found = development(alloc, &[COUNTER, COUNTER_R], COUNTER_I)?;
    let text = notation(alloc, &found)?;
    assert!(rt;
        text.as_slice()
            == b"\
        (operation [btrue] (assign v0 [0]))(operation [btrue] (assign v0 [10]))(operation [btrue] (assign v1 [v0]))\
        (operation [btrue] (assign v2 [0]))(operation [btrue] (assign v2 [10]))(operation [btrue] (assign v3 [v2]))\
        (operation [btrue] (assign v4 [0]))(operation [btrue] (assign v4 [10]))(operation [btrue] (assign v5 [v4]))"
                .as_slice()
    );
    Ok(())
}

// Whether the operation has these inputs and so many outputs.
fn has_header(development: &Development, operation: usize, inputs: &[u32], outputs: u32) -> bool {
    development.heads.get(operation).is_some_and(|head| head.inputs.as_slice() == inputs
        && head.outputs == outputs)
}

// tab is an array of ten numbers, each 0 at first.
#[test]
fn an_array_of_numbers(rt: HostRuntime) -> Result<(), Fail> {
    let alloc = rt.alloc();
    let found = development(alloc, &[TABLE], TABLE_I)?;
    assert!(rt; found.is_complete());
    let arrays = found.arrays(alloc)?;
    let domain = ArrayDomain::Interval { low: 0, high: 9 };
    assert!(rt; arrays.rows() == [ArrayRow { var: 3, domain }].as_slice());
    assert!(rt; found.heads.len() == 2);
    assert!(rt; has_header(&found, 0, [].as_slice(), 0));
    assert!(rt; has_header(&found, 1, [1].as_slice(), 1));
    Ok(())
}

// Whether the set has this name and so many elements.
fn is_set(development: &Development, number: usize, name: &[u8], elements: usize) -> bool {
    development.sets.get(number).is_some_and(|set| set.name.as_bytes() == name
        && set.elements.len() == elements)
}

const COLOURS: [(u32, &str, Home); 4] = [
    (0, "col$0", Home::Abstract(0)),
    (1, "cc$0", Home::Inner(0)),
    (2, "col$1", Home::Concrete(1)),
    (3, "cc$1", Home::Inner(1)),
];

// The set of the machine stands in the table and among the sets, and its variables have its type.
#[test]
fn an_enumerated_set(rt: HostRuntime) -> Result<(), Fail> {
    let alloc = rt.alloc();
    let found = development(alloc, &[LAMP], LAMP_I)?;
    assert!(rt; is_set(&found, 0, b"COLOR".as_slice(), 3));
    compare_variables(&rt, &found, &Ty::enumerated(0), &COLOURS);
    Ok(())
}
