// The texts of new variables.

use crate::typed::{rules, verdict};
use bk_form::{Ty, VarTable};
use bk_io::Text;
use bk_kernel::Verdict;
use bk_seq::Sequent;
use bk_tests_fixtures::text;
use bk_tests_notation::{Unread, formula};
use std::alloc::Global;
use std::test::Fail;

// Whether rules are found that prove the goal; x and y stand for the variables 0 and 1.
fn is_proved(alloc: Global, table: &mut VarTable, goal: &str) -> Result<bool, Unread> {
    let sequent = Sequent {
        hyps: Vec::new(alloc),
        goal: formula(alloc, "xy", goal)?,
    };
    match rules(alloc, table, &sequent)? {
        Some(list) => Ok(verdict(alloc, table, sequent, &list)? == Verdict::Closed),
        None => Ok(false),
    }
}

// Whether the variable of this number has this text.
fn is_named(table: &VarTable, number: u32, wanted: &[u8]) -> bool {
    match table.text(number) {
        Some(text) => is_text(text, wanted),
        None => false,
    }
}

fn is_text(text: &Text, wanted: &[u8]) -> bool {
    text.as_bytes() == wanted
}

// The set `v2` with the element `v3`, and the variable `v1`.
fn with_set(alloc: Global) -> Result<VarTable, Unread> {
    let mut table = VarTable::new(alloc);
    table.add_set(text(alloc, b"v2")?, vec![in alloc; text(alloc, b"v3")?]?, 1)?;
    table.add_variable(text(alloc, b"v1")?, Ty::int())?;
    Ok(table)
}

// Two variables of one text.
fn with_one_text(alloc: Global) -> Result<VarTable, Unread> {
    let mut table = VarTable::new(alloc);
    table.add_variable(text(alloc, b"v2")?, Ty::int())?;
    table.add_variable(text(alloc, b"v2")?, Ty::int())?;
    Ok(table)
}

// The first of `v` and a number, from the number of variables on, that is no text of the table.
#[test]
fn new_texts(rt: HostRuntime) -> Result<(), Fail> {
    let alloc = rt.alloc();
    let mut table = with_set(alloc)?;
    let goal = "( !ii ( ( b0 < x ) => ( ( b1 < b0 ) => ( b1 < x ) ) ) )";
    assert!(rt; is_proved(alloc, &mut table, goal)?);
    assert_eq!(rt; table.variables(), 3);
    assert!(rt; is_named(&table, 0, b"v1"));
    assert!(rt; is_named(&table, 1, b"v4"));
    assert!(rt; is_named(&table, 2, b"v5"));
    Ok(())
}

// Variables of one text are told apart by their numbers, and the new one has another text.
#[test]
fn one_text_twice(rt: HostRuntime) -> Result<(), Fail> {
    let alloc = rt.alloc();
    let mut table = with_one_text(alloc)?;
    let goal = "( ( x < y ) => ( !i ( ( b0 < x ) => ( b0 < y ) ) ) )";
    assert!(rt; is_proved(alloc, &mut table, goal)?);
    assert!(rt; is_named(&table, 2, b"v3"));
    Ok(())
}
