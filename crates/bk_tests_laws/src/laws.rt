// Each law at variables, against its text, and what is refused.

use crate::function_law_texts::FUNCTION_LAWS;
use crate::law_printing::{listed, text};
use crate::law_texts::LAWS;
use crate::set_law_texts::SET_LAWS;
use bk_bind::{LawFault, LawInstance};
use bk_form::{Form, Part, Ty, UnOp};
use bk_io::Memory;
use bk_limits::{GREATEST_HEIGHT, MOST_NODES};
use bk_tests_fixtures::{leaf, literal, unary, variable};
use std::alloc::Global;
use std::process::Abort;
use std::test::Fail;

// The crates of laws.
#[derive(Clone, Copy)]
enum Family {
    Logic,
    Sets,
    Functions,
}

// A variable for each letter, and an empty set for the letters o and p: of integers, and of truth values.
fn picks(alloc: Global, letters: &str) -> Result<Vec<Form>, Memory> {
    let mut list = Vec::new(alloc);
    let mut number = 0u32;
    for byte in letters.as_bytes() {
        let pick = match *byte {
            b'o' => leaf(alloc, Part::Empty(Ty::int()))?,
            b'p' => leaf(alloc, Part::Empty(Ty::boolean()))?,
            _ => variable(alloc, number)?,
        };
        list.push(pick)?;
        number = number.saturating_add(1);
    }
    Ok(list)
}

// The instance, where the formulas are within the limits.
fn tried(alloc: Global, family: Family, law: u16, picks: &[Form]) -> Result<LawInstance, LawFault> {
    for pick in picks {
        if pick.size() > MOST_NODES || pick.depth() > GREATEST_HEIGHT {
            return Err(LawFault::Memory);
        }
    }
    match family {
        Family::Logic => bk_laws_log::instance(alloc, law, picks),
        Family::Sets => bk_laws_set::instance(alloc, law, picks),
        Family::Functions => bk_laws_fun::instance(alloc, law, picks),
    }
}

// Whether this is the text of the formula.
fn is_shown(alloc: Global, form: &Form, letters: &str, wanted: &str) -> Result<bool, Memory> {
    Ok(text(alloc, form, letters)?.as_slice() == wanted.as_bytes())
}

// Whether this is the text of the list.
fn are_listed(alloc: Global, forms: &[Form], letters: &str, wanted: &str) -> Result<bool, Memory> {
    Ok(listed(alloc, forms, letters)?.as_slice() == wanted.as_bytes())
}

// Compares each law of a crate at variables with its texts.
fn compare(
    rt: &impl Abort,
    alloc: Global,
    family: Family,
    laws: &[(u16, &str, &str, &str, &str)],
) -> Result<(), Fail> {
    for &(law, letters, left, right, sides) in laws {
        let found = tried(alloc, family, law, &picks(alloc, letters)?)?;
        assert!(rt;
            is_shown(alloc, &found.left, letters, left)?,
            "left of {law}"
        );
        assert!(rt;
            is_shown(alloc, &found.right, letters, right)?,
            "right of {law}"
        );
        assert!(rt;
            are_listed(alloc, &found.sides, letters, sides)?,
            "sides of {law}"
        );
    }
    Ok(())
}

#[test]
fn each_law_of_logic_at_variables(rt: HostRuntime) -> Result<(), Fail> {
    compare(&rt, rt.alloc(), Family::Logic, &LAWS)
}

#[test]
fn each_law_of_sets_at_variables(rt: HostRuntime) -> Result<(), Fail> {
    compare(&rt, rt.alloc(), Family::Sets, &SET_LAWS)
}

#[test]
fn each_law_of_functions_at_variables(rt: HostRuntime) -> Result<(), Fail> {
    compare(&rt, rt.alloc(), Family::Functions, &FUNCTION_LAWS)
}

fn fault(alloc: Global, family: Family, law: u16, picks: &[Form]) -> Option<LawFault> {
    match tried(alloc, family, law, picks) {
        Ok(_) => None,
        Err(fault) => Some(fault),
    }
}

// A law, letters for its terms, and its fault, if any.
const FAULTS: &[(Family, u16, &str, Option<LawFault>)] = &[
    (Family::Logic, 0, "", Some(LawFault::Unknown)),
    (Family::Logic, 29, "PQ", Some(LawFault::Unknown)),
    (Family::Logic, 100, "ab", Some(LawFault::Unknown)),
    (Family::Logic, 131, "ab", Some(LawFault::Unknown)),
    (Family::Logic, 236, "abo", Some(LawFault::Unknown)),
    (Family::Logic, 105, "", Some(LawFault::Picks(0))),
    (Family::Logic, 105, "ab", Some(LawFault::Picks(2))),
    (Family::Logic, 105, "abcd", Some(LawFault::Picks(4))),
    (Family::Logic, 105, "abc", None),
    (Family::Logic, 19, "a", Some(LawFault::Picks(1))),
    (Family::Logic, 19, "", None),
    // another count is told first, then the first pick that has to be an empty set
    (Family::Logic, 116, "S", Some(LawFault::Picks(1))),
    (Family::Logic, 116, "SST", Some(LawFault::Picks(3))),
    (Family::Logic, 116, "ST", Some(LawFault::Picks(2))),
    (Family::Logic, 116, "oS", Some(LawFault::Picks(2))),
    (Family::Logic, 116, "oo", None),
    (Family::Logic, 122, "S", Some(LawFault::Picks(1))),
    (Family::Logic, 130, "STS", Some(LawFault::Picks(3))),
    (Family::Logic, 130, "STo", None),
    // there is no law 41 of sets, also not under its number alone
    (Family::Sets, 241, "ST", Some(LawFault::Unknown)),
    (Family::Sets, 41, "ST", Some(LawFault::Unknown)),
    (Family::Sets, 200, "x", Some(LawFault::Unknown)),
    (Family::Sets, 130, "STo", Some(LawFault::Unknown)),
    (Family::Sets, 301, "xyr", Some(LawFault::Unknown)),
    (Family::Sets, 236, "ab", Some(LawFault::Picks(2))),
    (Family::Sets, 236, "abS", Some(LawFault::Picks(3))),
    (Family::Sets, 236, "abo", None),
    (Family::Functions, 300, "x", Some(LawFault::Unknown)),
    (Family::Functions, 366, "fSBA", Some(LawFault::Unknown)),
    (Family::Functions, 240, "STU", Some(LawFault::Unknown)),
    (Family::Functions, 349, "fx", Some(LawFault::Picks(2))),
    (Family::Functions, 310, "SS", Some(LawFault::Picks(1))),
    (Family::Functions, 310, "oS", Some(LawFault::Picks(2))),
    (Family::Functions, 335, "ro", Some(LawFault::Picks(1))),
    (Family::Functions, 335, "or", None),
];

#[test]
fn faults(rt: HostRuntime) -> Result<(), Fail> {
    let alloc = rt.alloc();
    for (family, law, letters, wanted) in FAULTS {
        assert_eq!(rt;
            fault(alloc, *family, *law, &picks(alloc, letters)?),
            *wanted,
            "law {law} at {letters}"
        );
    }
    Ok(())
}

#[test]
fn overriding_gives_the_new_value(rt: HostRuntime) -> Result<(), Fail> {
    let alloc = rt.alloc();
    let picks = vec![in alloc; variable(alloc, 0)?, literal(alloc, 3)?, literal(alloc, 7)?]?;
    let found = tried(alloc, Family::Functions, 349, &picks)?;
    assert!(rt; is_shown(alloc, &found.left, "f", "(f <+ {3 |-> 7})(3)")?);
    assert!(rt; is_shown(alloc, &found.right, "f", "7")?);
    assert_eq!(rt; found.sides.len(), 0);
    Ok(())
}

#[test]
fn a_set_of_one_is_no_empty_set(rt: HostRuntime) -> Result<(), Fail> {
    let alloc = rt.alloc();
    let only = unary(alloc, UnOp::Single, literal(alloc, 5)?)?;
    let picks = vec![in alloc; literal(alloc, 5)?, literal(alloc, 4)?, only]?;
    assert_eq!(rt;
        fault(alloc, Family::Sets, 236, &picks),
        Some(LawFault::Picks(3))
    );
    Ok(())
}
