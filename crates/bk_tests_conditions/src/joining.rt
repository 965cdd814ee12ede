// Conditions put together, what the index of an array is asked, and what formulas ask under binders around them.

use crate::condition_texts::LETTERS;
use bk_form::{ArrayDomain, ArrayRow, Form, VarTable};
use bk_tests_notation::{Unread, formula, types_of};
use bk_wd::{
    all_over, both, defined_under, index_check, is_true, nothing, where_false, where_true,
};
use std::alloc::Global;
use std::test::Fail;

fn form(alloc: Global, text: &str) -> Result<Form, Unread> {
    formula(alloc, LETTERS, text)
}

// Two conditions, and what `both`, `where_true` and `where_false` make of them.
const PAIRS: &[(&str, &str, &str, &str, &str)] = &[
    (
        "( x = 0 )",
        "( y = 0 )",
        "( ( x = 0 ) & ( y = 0 ) )",
        "( ( x = 0 ) => ( y = 0 ) )",
        "( ( not ( x = 0 ) ) => ( y = 0 ) )",
    ),
    ("( x = 0 )", "btrue", "( x = 0 )", "btrue", "btrue"),
    (
        "btrue",
        "( y = 0 )",
        "( y = 0 )",
        "( y = 0 )",
        "( ( not btrue ) => ( y = 0 ) )",
    ),
    (
        "bfalse",
        "( y = 0 )",
        "( bfalse & ( y = 0 ) )",
        "( bfalse => ( y = 0 ) )",
        "( ( not bfalse ) => ( y = 0 ) )",
    ),
    ("btrue", "btrue", "btrue", "btrue", "btrue"),
];

#[test]
fn joined(rt: HostRuntime) -> Result<(), Fail> {
    let alloc = rt.alloc();
    for (first, second, conjunction, implication, alternative) in PAIRS {
        let found = both(alloc, form(alloc, first)?, form(alloc, second)?)?;
        assert!(rt; found.equal(&form(alloc, conjunction)?), "{conjunction}");
        let found = where_true(alloc, &form(alloc, first)?, form(alloc, second)?)?;
        assert!(rt; found.equal(&form(alloc, implication)?), "{implication}");
        let found = where_false(alloc, &form(alloc, first)?, form(alloc, second)?)?;
        assert!(rt; found.equal(&form(alloc, alternative)?), "{alternative}");
    }
    Ok(())
}

#[test]
fn nothing_asked(rt: HostRuntime) -> Result<(), Fail> {
    let alloc = rt.alloc();
    let nothing = nothing(alloc)?;
    assert!(rt; nothing.equal(&form(alloc, "btrue")?));
    assert!(rt; is_true(&nothing));
    assert!(rt; !is_true(&form(alloc, "( x = x )")?));
    Ok(())
}

#[test]
fn for_all_values(rt: HostRuntime) -> Result<(), Fail> {
    let alloc = rt.alloc();
    let types = types_of(alloc, "iPb")?;
    let cases = [
        ("( b1 = 0 )", "( !iPb ( b1 = 0 ) )"),
        ("btrue", "btrue"),
        ("bfalse", "( !iPb bfalse )"),
    ];
    for (given, wanted) in cases {
        let found = all_over(alloc, &types, form(alloc, given)?)?;
        assert!(rt; found.equal(&form(alloc, wanted)?), "{given}");
    }
    Ok(())
}

#[test]
fn indices(rt: HostRuntime) -> Result<(), Fail> {
    let alloc = rt.alloc();
    let cases = [
        (
            ArrayDomain::Interval { low: -3, high: 4 },
            "( ( -3 <= ( x + 1 ) ) & ( ( x + 1 ) <= 4 ) )",
        ),
        (ArrayDomain::Bool, "btrue"),
        (ArrayDomain::Set(0), "btrue"),
    ];
    let index = form(alloc, "( x + 1 )")?;
    for (domain, wanted) in cases {
        let row = ArrayRow { var: 2, domain };
        let found = index_check(alloc, Some(&row), &index)?;
        assert!(rt; found.equal(&form(alloc, wanted)?), "{wanted}");
    }
    assert!(rt; is_true(&index_check(alloc, None, &index)?));
    Ok(())
}

// The types that are bound around a formula, the innermost last, the formula, and what it asks.
const UNDER: &[(&str, &str, &str)] = &[
    ("", "( 1 / 2 )", "( not ( 2 = 0 ) )"),
    (
        "PXib",
        "( b0 of 7 )",
        "( ( b0 : ( INTEGER +-> BOOL ) ) & ( 7 : ( dom b0 ) ) )",
    ),
    (
        "PXibi",
        "( b1 of b0 )",
        "( ( b1 : ( INTEGER +-> BOOL ) ) & ( b0 : ( dom b1 ) ) )",
    ),
    (
        "iPXbi",
        "( !b ( ( b1 of b0 ) = b2 ) )",
        "( !b ( ( b1 : ( BOOL +-> INTEGER ) ) & ( b0 : ( dom b1 ) ) ) )",
    ),
];

#[test]
fn under_binders(rt: HostRuntime) -> Result<(), Fail> {
    let alloc = rt.alloc();
    let table = VarTable::new(alloc);
    for (around, given, condition) in UNDER {
        let types = types_of(alloc, around)?;
        let asked = defined_under(alloc, &table, &types, &form(alloc, given)?)?;
        assert!(rt; asked.equal(&form(alloc, condition)?), "{given}");
    }
    Ok(())
}
