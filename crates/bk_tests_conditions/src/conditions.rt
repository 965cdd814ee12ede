// What formulas ask, against the conditions that are written beside them.

use crate::condition_texts::{
    CONNECTIVES, EVERYWHERE, EXECUTED, LETTERS, OPERANDS, OPERATORS, QUANTIFIERS, RANGES, TYPES,
};
use bk_bind::BindFault;
use bk_form::{ArrayDomain, ArrayRow, Arrays, BinOp, Form, VarTable};
use bk_io::Memory;
use bk_tests_fixtures::shapes::{of_height, of_size};
use bk_tests_fixtures::{binary, variable};
use bk_tests_notation::{formula, table_of};
use bk_wd::{checked, defined};
use std::alloc::Global;
use std::process::Abort;
use std::test::Fail;

// Compares what the formulas of a list ask so that they are defined.
fn compare(rt: &impl Abort, alloc: Global, list: &[(&str, &str)]) -> Result<(), Fail> {
    let table = table_of(alloc, &TYPES)?;
    for (given, condition) in list {
        let form = formula(alloc, LETTERS, given)?;
        let asked = defined(alloc, &table, &form)?;
        let wanted = formula(alloc, LETTERS, condition)?;
        assert!(rt; asked.equal(&wanted), "{given}");
    }
    Ok(())
}

#[test]
fn operators(rt: HostRuntime) -> Result<(), Fail> {
    compare(&rt, rt.alloc(), &OPERATORS)
}

#[test]
fn operands(rt: HostRuntime) -> Result<(), Fail> {
    compare(&rt, rt.alloc(), &OPERANDS)
}

#[test]
fn connectives(rt: HostRuntime) -> Result<(), Fail> {
    compare(&rt, rt.alloc(), &CONNECTIVES)
}

#[test]
fn quantifiers(rt: HostRuntime) -> Result<(), Fail> {
    compare(&rt, rt.alloc(), &QUANTIFIERS)
}

#[test]
fn ranges(rt: HostRuntime) -> Result<(), Fail> {
    compare(&rt, rt.alloc(), &RANGES)
}

#[test]
fn defined_everywhere(rt: HostRuntime) -> Result<(), Fail> {
    let alloc = rt.alloc();
    let table = table_of(alloc, &TYPES)?;
    let nothing = formula(alloc, LETTERS, "btrue")?;
    for given in EVERYWHERE {
        let form = formula(alloc, LETTERS, given)?;
        assert!(rt; defined(alloc, &table, &form)?.equal(&nothing), "{given}");
    }
    Ok(())
}

// The arrays f, g and h, and numbers to 9.
fn arrays(alloc: Global) -> Result<Arrays, Memory> {
    let of_numbers = ArrayRow {
        var: 2,
        domain: ArrayDomain::Interval { low: 1, high: 5 },
    };
    let of_truth_values = ArrayRow {
        var: 3,
        domain: ArrayDomain::Bool,
    };
    let of_elements = ArrayRow {
        var: 4,
        domain: ArrayDomain::Set(0),
    };
    let rows = [of_numbers, of_truth_values, of_elements].to_vec(alloc)?;
    Ok(Arrays::from_rows(9, rows))
}

#[test]
fn executed(rt: HostRuntime) -> Result<(), Fail> {
    let alloc = rt.alloc();
    let arrays = arrays(alloc)?;
    for (given, condition) in EXECUTED {
        let form = formula(alloc, LETTERS, given)?;
        let asked = checked(alloc, &form, &arrays)?;
        let wanted = formula(alloc, LETTERS, condition)?;
        assert!(rt; asked.equal(&wanted), "{given}");
    }
    Ok(())
}

// ---- limits

// Whether what `x op form` asks so that it is defined is too large.
fn is_too_large(alloc: Global, op: BinOp, form: Form) -> Result<bool, Fail> {
    let whole = binary(alloc, op, variable(alloc, 0)?, form)?;
    let asked = defined(alloc, &VarTable::new(alloc), &whole);
    Ok(asked.err() == Some(BindFault::TooLarge))
}

// `0 <= form` has two nodes more than the form, and `not(form = 0)` three.
#[test]
fn most_nodes(rt: HostRuntime) -> Result<(), Fail> {
    let alloc = rt.alloc();
    assert!(rt; !is_too_large(alloc, BinOp::Power, of_size(alloc, 199_998)?)?);
    assert!(rt; is_too_large(alloc, BinOp::Power, of_size(alloc, 199_999)?)?);
    assert!(rt; !is_too_large(alloc, BinOp::Div, of_size(alloc, 199_997)?)?);
    assert!(rt; is_too_large(alloc, BinOp::Div, of_size(alloc, 199_998)?)?);
    Ok(())
}

// `0 <= form` is one level higher than the form, and `not(form = 0)` two.
#[test]
fn greatest_height(rt: HostRuntime) -> Result<(), Fail> {
    let alloc = rt.alloc();
    assert!(rt; !is_too_large(alloc, BinOp::Power, of_height(alloc, 1_999)?)?);
    assert!(rt; is_too_large(alloc, BinOp::Power, of_height(alloc, 2_000)?)?);
    assert!(rt; !is_too_large(alloc, BinOp::Div, of_height(alloc, 1_998)?)?);
    assert!(rt; is_too_large(alloc, BinOp::Div, of_height(alloc, 1_999)?)?);
    Ok(())
}

// Whether what `x / form` asks where it is executed is too large.
fn is_too_large_executed(alloc: Global, form: Form) -> Result<bool, Fail> {
    let whole = binary(alloc, BinOp::Div, variable(alloc, 0)?, form)?;
    let arrays = Arrays::from_rows(9, Vec::new(alloc));
    Ok(checked(alloc, &whole, &arrays).err() == Some(BindFault::TooLarge))
}

#[test]
fn most_nodes_where_executed(rt: HostRuntime) -> Result<(), Fail> {
    let alloc = rt.alloc();
    assert!(rt; !is_too_large_executed(alloc, of_size(alloc, 199_997)?)?);
    assert!(rt; is_too_large_executed(alloc, of_size(alloc, 199_998)?)?);
    Ok(())
}

#[test]
fn greatest_height_where_executed(rt: HostRuntime) -> Result<(), Fail> {
    let alloc = rt.alloc();
    assert!(rt; !is_too_large_executed(alloc, of_height(alloc, 1_998)?)?);
    assert!(rt; is_too_large_executed(alloc, of_height(alloc, 1_999)?)?);
    Ok(())
}

// What is asked counts, and not the formula.
#[test]
fn large_formulas_that_ask_nothing(rt: HostRuntime) -> Result<(), Fail> {
    let alloc = rt.alloc();
    let form = of_size(alloc, 200_001)?;
    let nothing = formula(alloc, LETTERS, "btrue")?;
    assert!(rt; defined(alloc, &VarTable::new(alloc), &form)?.equal(&nothing));
    let arrays = Arrays::from_rows(9, Vec::new(alloc));
    assert!(rt; checked(alloc, &form, &arrays)?.equal(&nothing));
    Ok(())
}
