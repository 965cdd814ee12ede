// Sets, functions and relations of values, their order, and arithmetic. A value is written as a number, as F or T, as a1 for the
// element 1 of set 0 or b0 for the element 0 of set 1, or as a pair of two of these with > between them; a set as its members
// between blanks.

use bk_val::{
    Memory, NumOp, TooWide, Val, ValSet, apply, contains, image, inter, minus, number, overridden,
    union, value_is_well_formed, values_are_well_formed,
};
use std::alloc::Global;
use std::process::Abort;
use std::test::Fail;

// ---- values as texts, which are None where there is no memory
fn leaf(word: &str) -> Option<Val> {
    match word {
        "F" => Some(Val::boolean(false)),
        "T" => Some(Val::boolean(true)),
        "a1" => Some(Val::element(0, 1)),
        "b0" => Some(Val::element(1, 0)),
        _ => word.parse::<i128>().ok().map(Val::int),
    }
}

fn value(alloc: Global, word: &str) -> Option<Val> {
    match word.split_once(">") {
        Some((first, second)) => Val::pair(alloc, leaf(first)?, leaf(second)?).ok(),
        None => leaf(word),
    }
}

fn values(alloc: Global, text: &str) -> Option<Vec<Val>> {
    let mut values = Vec::new(alloc);
    for word in text.split_whitespace() {
        values.push(value(alloc, word)?).ok()?;
    }
    Some(values)
}

fn set(alloc: Global, text: &str) -> Option<ValSet> {
    Some(ValSet::from_items(values(alloc, text)?))
}

// ---- sets and relations
#[derive(Clone, Copy)]
enum Operation {
    Union,
    Inter,
    Minus,
    Overridden,
    Image,
}

// An operation, its two operands, and what it gives.
type OnSets = (Operation, &'static str, &'static str, &'static str);

const SETS: [OnSets; 12] = [
    (Operation::Union, "1 3", "2 3", "1 2 3"),
    (Operation::Inter, "1 3", "2 3", "3"),
    (Operation::Minus, "1 3", "2 3", "1"),
    (Operation::Union, "3 1 3", "", "1 3"),
    (Operation::Inter, "3 1 3", "", ""),
    (Operation::Minus, "3 1 3", "", "1 3"),
    (Operation::Union, "", "-1", "-1"),
    (Operation::Inter, "", "-1", ""),
    (Operation::Minus, "", "-1", ""),
    (Operation::Union, "5 -7 2", "9 2 -7", "-7 2 5 9"),
    (Operation::Inter, "5 -7 2", "9 2 -7", "-7 2"),
    (Operation::Minus, "5 -7 2", "9 2 -7", "5"),
];

const RELATIONS: [OnSets; 4] = [
    (Operation::Overridden, "1>5", "1>6", "1>6"),
    (
        Operation::Overridden,
        "1>5 2>5 2>7",
        "1>6 3>0",
        "1>6 2>5 2>7 3>0",
    ),
    (Operation::Image, "1>5 2>5", "1 2", "5"),
    (Operation::Image, "1>9 2>8 3>7", "1 3 4", "7 9"),
];

fn operated(alloc: Global, operation: Operation, a: &ValSet, b: &ValSet) -> Result<ValSet, Memory> {
    match operation {
        Operation::Union => union(alloc, a, b),
        Operation::Inter => inter(alloc, a, b),
        Operation::Minus => minus(alloc, a, b),
        Operation::Overridden => overridden(alloc, a, b),
        Operation::Image => image(alloc, a, b),
    }
}

fn given(alloc: Global, operation: Operation, a: &str, b: &str) -> Option<ValSet> {
    let a = set(alloc, a)?;
    let b = set(alloc, b)?;
    operated(alloc, operation, &a, &b).ok()
}

// Whether it gives this set.
fn gives(alloc: Global, operation: Operation, a: &str, b: &str, wanted: &str) -> Option<bool> {
    let found = given(alloc, operation, a, b)?;
    let wanted = set(alloc, wanted)?;
    Some(found.as_slice() == wanted.as_slice())
}

fn operate(rt: &impl Abort, alloc: Global, list: &[OnSets]) {
    for (operation, a, b, wanted) in list {
        assert!(rt;
            gives(alloc, *operation, a, b, wanted) == Some(true),
            "{a} and {b}"
        );
    }
}

#[test]
fn combines_sets(rt: HostRuntime) {
    operate(&rt, rt.alloc(), &SETS);
}

#[test]
fn relates(rt: HostRuntime) {
    operate(&rt, rt.alloc(), &RELATIONS);
}

// A relation, an argument, and the value of the relation there, where it has one.
const APPLIED: [(&str, i128, Option<&str>); 4] = [
    ("1>5", 1, Some("5")),
    ("1>5", 2, None),
    ("1>5 1>6", 1, None),
    ("1>5 2>6 1>6", 2, Some("6")),
];

fn applied(alloc: Global, relation: &str, at: i128) -> Option<Option<Val>> {
    let relation = set(alloc, relation)?;
    apply(alloc, &relation, &Val::int(at)).ok()
}

// Whether the relation has this value there, or none.
fn has_value(alloc: Global, relation: &str, at: i128, wanted: Option<&str>) -> Option<bool> {
    match (applied(alloc, relation, at)?, wanted) {
        (Some(found), Some(word)) => Some(found == leaf(word)?),
        (found, wanted) => Some(found.is_none() && wanted.is_none()),
    }
}

fn compare_values(rt: &impl Abort, alloc: Global, list: &[(&str, i128, Option<&str>)]) {
    for (relation, at, wanted) in list {
        assert!(rt;
            has_value(alloc, relation, *at, *wanted) == Some(true),
            "at {at}"
        );
    }
}

#[test]
fn applies(rt: HostRuntime) {
    compare_values(&rt, rt.alloc(), &APPLIED);
}

// ---- sets of sets, and the order
// {{1, 2}, {}}, with one member given twice
const MEMBERS: [&str; 3] = ["2 1", "", "1 2 2"];

fn family(alloc: Global, texts: &[&str]) -> Option<ValSet> {
    let mut sets = Vec::new(alloc);
    for text in texts {
        sets.push(Val::set(set(alloc, text)?)).ok()?;
    }
    Some(ValSet::from_items(sets))
}

fn has_set(alloc: Global, family: &ValSet, text: &str) -> Option<bool> {
    let member = Val::set(set(alloc, text)?);
    Some(contains(family, &member))
}

fn is_its_copy(alloc: Global, set: &ValSet) -> Option<bool> {
    let copy = set.copy(alloc).ok()?;
    Some(set.as_slice() == copy.as_slice())
}

// Every kind of value, the least first, with a set.
fn kinds(alloc: Global, set: ValSet) -> Option<Vec<Val>> {
    let mut kinds = values(alloc, "-4 F T a1 b0 1>2 2>1 F>a1")?;
    kinds.push(Val::set(set)).ok()?;
    Some(kinds)
}

fn reversed(alloc: Global, values: &[Val]) -> Option<Vec<Val>> {
    let mut copies = Vec::new(alloc);
    for value in values.iter().rev() {
        copies.push(value.copy(alloc).ok()?).ok()?;
    }
    Some(copies)
}

// Sees that the values of a set rise as these do.
fn rise(rt: &impl Abort, found: &[Val], rising: &[Val]) {
    for (i, value) in found.iter().enumerate() {
        assert!(rt; i < rising.len() && *value == rising[i], "at {i}");
        value_is_well_formed(value);
    }
    values_are_well_formed(found);
}

// The set of these values, which are given in the opposite order.
fn ordered(alloc: Global, values: &[Val]) -> Option<ValSet> {
    Some(ValSet::from_items(reversed(alloc, values)?))
}

fn holds_sets(rt: &impl Abort, alloc: Global, family: &ValSet) {
    assert!(rt; family.len() == 2);
    assert!(rt; has_set(alloc, family, "1 2") == Some(true));
    assert!(rt; has_set(alloc, family, "1") == Some(false));
    assert!(rt; is_its_copy(alloc, family) == Some(true));
}

#[test]
fn nests(rt: HostRuntime) -> Result<(), Fail> {
    let alloc = rt.alloc();
    assert!(rt; ValSet::new(alloc).is_empty());
    let family = family(alloc, &MEMBERS).ok_or("memory")?;
    holds_sets(&rt, alloc, &family);
    let rising = kinds(alloc, family).ok_or("memory")?;
    let set = ordered(alloc, &rising).ok_or("memory")?;
    assert!(rt; !set.is_empty());
    rise(&rt, set.as_slice(), &rising);
    Ok(())
}

// ---- arithmetic
type Computed = (NumOp, i128, i128, Result<i128, TooWide>);

const COMPUTED: [Computed; 24] = [
    (NumOp::Add, 2, 3, Ok(5)),
    (NumOp::Add, i128::MAX, 1, Err(TooWide)),
    (NumOp::Sub, 2, 3, Ok(-1)),
    (NumOp::Sub, i128::MIN, 1, Err(TooWide)),
    (NumOp::Mul, -4, 3, Ok(-12)),
    (NumOp::Mul, i128::MAX, 2, Err(TooWide)),
    (NumOp::Div, -7, 2, Ok(-3)),
    (NumOp::Div, 7, -2, Ok(-3)),
    (NumOp::Div, 7, 0, Ok(0)),
    (NumOp::Div, i128::MIN, -1, Err(TooWide)),
    (NumOp::Mod, 7, 3, Ok(1)),
    (NumOp::Mod, -1, 3, Ok(0)),
    (NumOp::Mod, 7, 0, Ok(0)),
    (NumOp::Mod, 7, -3, Ok(0)),
    (NumOp::Power, 2, 126, Ok(1i128 << 126)),
    (NumOp::Power, 2, 127, Err(TooWide)),
    (NumOp::Power, -2, 127, Ok(i128::MIN)),
    (NumOp::Power, 0, 0, Ok(1)),
    (NumOp::Power, -5, 0, Ok(1)),
    (NumOp::Power, 5, -1, Ok(0)),
    (NumOp::Power, -1, 1000, Ok(1)),
    (NumOp::Power, -1, 1001, Ok(-1)),
    (NumOp::Power, 0, 1000, Ok(0)),
    (NumOp::Power, 3, 1000, Err(TooWide)),
];

fn compute(rt: &impl Abort, list: &[Computed]) {
    for (op, a, b, wanted) in list {
        assert_eq!(rt; number(*op, *a, *b), *wanted, "{a} and {b}");
    }
}

#[test]
fn computes(rt: HostRuntime) {
    compute(&rt, &COMPUTED);
}
