// Sequents are copied; what stands at a path, and another formula there. The letters x, y, z, u, v, w, p, q, r and s stand for the
// variables of the numbers 0 to 9.

ghost use Rattle.std.specs.Prelude.{◌<◌};

use bk_bind::BindFault;
use bk_form::{BinOp, Form};
use bk_io::Memory;
use bk_seq::{Sequent, at, numbered, put, split};
use bk_tests_fixtures::shapes::{of_height, of_size};
use bk_tests_fixtures::{binary, variable};
use bk_tests_notation::{Unread, formula};
use std::alloc::Global;
use std::process::Abort;
use std::test::Fail;

const LETTERS: &str = "xyzuvwpqrs";

fn form(alloc: Global, text: &str) -> Result<Form, Unread> {
    formula(alloc, LETTERS, text)
}

fn forms(alloc: Global, texts: &[&str]) -> Result<Vec<Form>, Unread> {
    let mut forms = Vec::new(alloc);
    for text in texts {
        forms.push(form(alloc, text)?)?;
    }
    Ok(forms)
}

// The hypotheses and the goal.
type Claim = (&'static [&'static str], &'static str);

fn sequent(alloc: Global, claim: &Claim) -> Result<Sequent, Unread> {
    let hyps = forms(alloc, claim.0)?;
    let goal = form(alloc, claim.1)?;
    Ok(Sequent { hyps, goal })
}

fn are_same(one: &Sequent, other: &Sequent) -> bool {
    Form::equal_all(&one.hyps, &other.hyps) && one.goal.equal(&other.goal)
}

const COPIED: Claim = (&["x", "y"], "z");

#[test]
fn copies(rt: HostRuntime) -> Result<(), Fail> {
    let sequent = sequent(rt.alloc(), &COPIED)?;
    let copy = sequent.copy(rt.alloc())?;
    assert!(rt; are_same(&copy, &sequent));
    Ok(())
}

// ---- what stands at a path
const SAMPLE: &str = "( ( not ( x - y ) ) - z )";

// the ranges x and y - z of a comprehension
const TWO_RANGES: &str = "( set2 x ( y - z ) s )";

// the range y - z of a lambda
const ONE_RANGE: &str = "( fun1 ( y - z ) r s )";

// A formula, a path, and what stands there, if anything does.
type Part = (&'static str, &'static [u32], Option<&'static str>);

const FOUND: [Part; 9] = [
    (SAMPLE, &[], Some(SAMPLE)),
    (SAMPLE, &[1, 1, 1], Some("x")),
    (SAMPLE, &[1, 1, 2], Some("y")),
    (SAMPLE, &[2], Some("z")),
    (SAMPLE, &[0], None),
    (SAMPLE, &[3], None),
    (SAMPLE, &[1, 0], None),
    (SAMPLE, &[1, 2], None),
    (SAMPLE, &[2, 1], None),
];

const FOUND_IN_RANGES: [Part; 8] = [
    (TWO_RANGES, &[1], Some("x")),
    (TWO_RANGES, &[2, 2], Some("z")),
    (TWO_RANGES, &[3], None),
    (ONE_RANGE, &[1, 1], Some("y")),
    (ONE_RANGE, &[2], None),
    (ONE_RANGE, &[3], None),
    ("( !i s )", &[1], None),
    ("( !i s )", &[2], None),
];

// Whether this is the formula, or there is none.
fn is_form(alloc: Global, found: Option<&Form>, wanted: Option<&str>) -> Result<bool, Unread> {
    match (found, wanted) {
        (Some(found), Some(text)) => Ok(found.equal(&form(alloc, text)?)),
        (None, None) => Ok(true),
        _ => Ok(false),
    }
}

fn has_part(alloc: Global, part: &Part) -> Result<bool, Unread> {
    let form = form(alloc, part.0)?;
    is_form(alloc, at(&form, part.1), part.2)
}

fn find(rt: &impl Abort, alloc: Global, list: &[Part]) {
    for part in list {
        assert!(rt;
            has_part(alloc, part) == Ok(true),
            "{} at {:?}",
            part.0,
            part.1
        );
    }
}

#[test]
fn finds(rt: HostRuntime) {
    find(&rt, rt.alloc(), &FOUND);
}

#[test]
fn enters_ranges_alone(rt: HostRuntime) {
    find(&rt, rt.alloc(), &FOUND_IN_RANGES);
}

const NUMBERED: [(u32, Option<&str>); 4] = [(1, Some("v")), (2, Some("w")), (0, None), (3, None)];

fn compare_numbered(rt: &impl Abort, alloc: Global, list: &[Form], wanted: &[(u32, Option<&str>)]) {
    for (number, text) in wanted {
        let found = numbered(list, *number);
        assert!(rt; is_form(alloc, found, *text) == Ok(true), "{number}");
    }
}

#[test]
fn numbers(rt: HostRuntime) -> Result<(), Fail> {
    let list = forms(rt.alloc(), &["v", "w"])?;
    compare_numbered(&rt, rt.alloc(), &list, &NUMBERED);
    Ok(())
}

// ---- another formula at a path
// A formula, a path, and the formula with the variable q there.
const PUT: [(&str, &[u32], &str); 4] = [
    (SAMPLE, &[], "q"),
    (SAMPLE, &[1, 1, 1], "( ( not ( q - y ) ) - z )"),
    (SAMPLE, &[1, 1, 2], "( ( not ( x - q ) ) - z )"),
    (SAMPLE, &[2], "( ( not ( x - y ) ) - q )"),
];

const PUT_INTO_RANGES: [(&str, &[u32], &str); 2] = [
    (TWO_RANGES, &[2, 1], "( set2 x ( q - z ) s )"),
    (ONE_RANGE, &[1, 2], "( fun1 ( y - q ) r s )"),
];

fn placed(alloc: Global, form: &Form, path: &[u32], new: Form) -> Result<Form, BindFault> {
    match at(form, path) {
        Some(_) => put(alloc, form, path, new),
        None => Err(BindFault::Memory),
    }
}

fn is_put(alloc: Global, text: &str, path: &[u32], wanted: &str) -> Result<bool, Unread> {
    let old = form(alloc, text)?;
    let new = form(alloc, "q")?;
    match placed(alloc, &old, path, new) {
        Ok(found) => Ok(found.equal(&form(alloc, wanted)?)),
        Err(_) => Ok(false),
    }
}

fn compare_put(rt: &impl Abort, alloc: Global, list: &[(&str, &[u32], &str)]) {
    for (text, path, wanted) in list {
        assert!(rt; is_put(alloc, text, path, wanted) == Ok(true), "{wanted}");
    }
}

#[test]
fn puts(rt: HostRuntime) {
    compare_put(&rt, rt.alloc(), &PUT);
}

#[test]
fn puts_into_ranges(rt: HostRuntime) {
    compare_put(&rt, rt.alloc(), &PUT_INTO_RANGES);
}

// ---- limits
// `x - y` with a formula of so many nodes for y
fn of_nodes(alloc: Global, nodes: u32) -> Result<Form, BindFault>
    requires { 0 < nodes }
{
    let new = of_size(alloc, nodes)?;
    let x = variable(alloc, 0)?;
    let old = binary(alloc, BinOp::Sub, x, variable(alloc, 1)?)?;
    placed(alloc, &old, &[2], new)
}

// `x - y` with a formula of this height for x
fn of_levels(alloc: Global, height: u32) -> Result<Form, BindFault> {
    let new = of_height(alloc, height)?;
    let x = variable(alloc, 0)?;
    let old = binary(alloc, BinOp::Sub, x, variable(alloc, 1)?)?;
    placed(alloc, &old, &[1], new)
}

// The difference of a large formula and a high one.
fn too_large(alloc: Global) -> Result<Form, Memory> {
    let large = of_size(alloc, 199_999)?;
    binary(alloc, BinOp::Sub, large, of_height(alloc, 2_000)?)
}

// A variable for all of it: what goes away does not count.
fn in_its_place(alloc: Global) -> Result<bool, BindFault> {
    let new = variable(alloc, 3)?;
    let found = placed(alloc, &too_large(alloc)?, &[], new)?;
    Ok(found.equal(&variable(alloc, 3)?))
}

#[test]
fn limits(rt: HostRuntime) -> Result<(), Fail> {
    let alloc = rt.alloc();
    assert!(rt; of_nodes(alloc, 199_998)?.size() == 200_000);
    assert!(rt; of_nodes(alloc, 199_999).err() == Some(BindFault::TooLarge));
    assert!(rt; of_levels(alloc, 1_999)?.depth() == 2_000);
    assert!(rt; of_levels(alloc, 2_000).err() == Some(BindFault::TooLarge));
    assert!(rt; in_its_place(alloc)?);
    Ok(())
}

// ---- goals taken apart
const GOAL: &str = "( ( x = y ) & ( ( x < y ) => ( ( y = x ) & ( y < x ) ) ) )";

const GOALS: [Claim; 3] = [
    (&[], "( x = y )"),
    (&["( x < y )"], "( y = x )"),
    (&["( x < y )"], "( y < x )"),
];

fn is_claimed(alloc: Global, found: Option<&Sequent>, claim: &Claim) -> Result<bool, Unread> {
    match found {
        Some(found) => Ok(are_same(found, &sequent(alloc, claim)?)),
        None => Ok(false),
    }
}

fn compare_split(rt: &impl Abort, alloc: Global, list: &[Sequent], wanted: &[Claim]) {
    assert!(rt; list.len() == wanted.len());
    for (i, claim) in wanted.iter().enumerate() {
        assert!(rt;
            is_claimed(alloc, list.get(i), claim) == Ok(true),
            "{}",
            claim.1
        );
    }
}

#[test]
fn splits(rt: HostRuntime) -> Result<(), Fail> {
    let alloc = rt.alloc();
    let list = split(alloc, Vec::new(alloc), form(alloc, GOAL)?)?;
    compare_split(&rt, alloc, &list, &GOALS);
    Ok(())
}
