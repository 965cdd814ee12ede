// A certificate over two facts, each fault, and which fault is answered.

ghost use Rattle.std.specs.Prelude.{◌≡◌};
ghost use Rattle.bk_lin.specs.Certificate.{width_of};

use bk_lin::{CertFault, Fact, Line, check};
use std::alloc::{AllocError, Global};
use std::process::Abort;
use std::test::Fail;

// A line of a certificate: a sum of multiples of facts, or a fact that is divided.
#[derive(Clone, Copy)]
enum Step {
    Sum(&'static [(i128, u32)]),
    Division(u32, i128),
}

// Facts of one atom, each its coefficient and its constant, the lines, what the check answers, and what this shows.
type Row = (
    &'static [(i128, i128)],
    &'static [Step],
    Result<(), CertFault>,
    &'static str,
);

// The two sides of `2x = 1`: 0 <= 2x - 1 and 0 <= -2x + 1.
const TWO_SIDES: &[(i128, i128)] = &[(2, -1), (-2, 1)];

const TWICE_A_WHOLE_NUMBER_IS_NOT_ONE: [Row; 1] = [(
    TWO_SIDES,
    // 0 <= x - 1, 0 <= -x, and their sum 0 <= -1.
    &[
        Step::Division(1, 2),
        Step::Division(2, 2),
        Step::Sum(&[(1, 3), (1, 4)]),
    ],
    Ok(()),
    "2x is not 1",
)];

const HIGH: i128 = 1 << 125;

const ONE_SUM: [Row; 9] = [
    (
        TWO_SIDES,
        &[Step::Sum(&[(1, 3)])],
        Err(CertFault::BadLine(1)),
        "cites itself",
    ),
    (
        TWO_SIDES,
        &[Step::Sum(&[(1, 0)])],
        Err(CertFault::BadLine(1)),
        "cites no fact",
    ),
    (
        TWO_SIDES,
        &[Step::Sum(&[(i128::MAX, 1), (1, 3)])],
        Err(CertFault::BadLine(1)),
        "the numbers before the widths",
    ),
    (
        TWO_SIDES,
        &[Step::Sum(&[(-1, 1)])],
        Err(CertFault::Negative(1)),
        "a negative multiplier",
    ),
    (
        TWO_SIDES,
        &[Step::Sum(&[(i128::MAX, 1), (-1, 1)])],
        Err(CertFault::Negative(1)),
        "the signs before the widths",
    ),
    (
        TWO_SIDES,
        &[Step::Sum(&[(i128::MAX, 1)])],
        Err(CertFault::TooWide(1)),
        "a product",
    ),
    (
        TWO_SIDES,
        &[Step::Sum(&[(HIGH, 1), (HIGH, 1)])],
        Err(CertFault::TooWide(1)),
        "a partial sum",
    ),
    (
        TWO_SIDES,
        &[Step::Sum(&[(HIGH, 1), (HIGH, 2), (HIGH, 1)])],
        Err(CertFault::NotClosed),
        "the partial sums fit",
    ),
    (
        TWO_SIDES,
        &[Step::Sum(&[(1, 1), (1, 2)])],
        Err(CertFault::NotClosed),
        "0 <= 0",
    ),
];

const ONE_DIVISION: [Row; 4] = [
    (
        TWO_SIDES,
        &[Step::Division(3, 0)],
        Err(CertFault::BadLine(1)),
        "the number before the divisor",
    ),
    (
        TWO_SIDES,
        &[Step::Division(1, 3)],
        Err(CertFault::BadLine(1)),
        "2 is no multiple of 3",
    ),
    (
        TWO_SIDES,
        &[Step::Division(1, 0)],
        Err(CertFault::Negative(1)),
        "a divisor of 0",
    ),
    (
        TWO_SIDES,
        &[Step::Division(1, -2)],
        Err(CertFault::Negative(1)),
        "a divisor below 0",
    ),
];

const SEVERAL_BAD_LINES: [Row; 1] = [(
    TWO_SIDES,
    &[
        Step::Sum(&[(1, 1)]),
        Step::Sum(&[(i128::MAX, 3)]),
        Step::Sum(&[(-1, 1)]),
    ],
    Err(CertFault::TooWide(2)),
    "the second line",
)];

// A given fact that is itself a contradiction: 0 <= -1.
const CONTRADICTION: [Row; 2] = [
    (&[(0, -1)], &[], Err(CertFault::NotClosed), "no line"),
    (
        &[(0, -1)],
        &[Step::Sum(&[(1, 1)])],
        Ok(()),
        "a line that cites it",
    ),
];

// ---- facts and lines

fn facts_of(alloc: Global, sides: &[(i128, i128)]) -> Result<Vec<Fact>, AllocError> {
    let mut facts = Vec::new(alloc);
    for (coef, constant) in sides {
        let coefs = vec![in alloc; *coef]?;
        facts.push(Fact {
            coefs,
            constant: *constant,
        })?;
    }
    Ok(facts)
}

fn lines_of(alloc: Global, steps: &[Step]) -> Result<Vec<Line>, AllocError> {
    let mut lines = Vec::new(alloc);
    for step in steps {
        lines.push(line_of(alloc, *step)?)?;
    }
    Ok(lines)
}

fn line_of(alloc: Global, step: Step) -> Result<Line, AllocError> {
    match step {
        Step::Sum(parts) => Ok(Line::Sum(parts.to_vec(alloc)?)),
        Step::Division(fact, by) => Ok(Line::Div { fact, by }),
    }
}

// How many coefficients each fact has.
fn width(facts: &[Fact]) -> usize
    ensures { result ≡ width_of facts.now }
{
    match facts {
        [] => 0,
        [first, ..] => first.coefs.len(),
    }
}

// What the check answers over facts of one atom.
fn answer(
    rt: &impl Abort,
    alloc: Global,
    facts: &[Fact],
    cert: &[Line],
) -> Result<Result<(), CertFault>, Fail> {
    assert!(rt; width(facts) == 1);
    assert!(rt; facts.iter().all(|fact| fact.coefs.len() == 1));
    assert!(rt; cert.len() < 100);
    let mut work = vec![in alloc; 0i128; 2 * cert.len()]?;
    Ok(check(facts, cert, work.as_mut_slice()))
}

fn answer_of(
    rt: &impl Abort,
    alloc: Global,
    sides: &[(i128, i128)],
    steps: &[Step],
) -> Result<Result<(), CertFault>, Fail> {
    let facts = facts_of(alloc, sides)?;
    let cert = lines_of(alloc, steps)?;
    answer(rt, alloc, &facts, &cert)
}

fn compare(rt: &impl Abort, alloc: Global, rows: &[Row]) -> Result<(), Fail> {
    for (sides, steps, wanted, what) in rows {
        assert_eq!(rt; answer_of(rt, alloc, sides, steps)?, *wanted, "{what}");
    }
    Ok(())
}

#[test]
fn twice_a_whole_number_is_not_one(rt: HostRuntime) -> Result<(), Fail> {
    compare(&rt, rt.alloc(), &TWICE_A_WHOLE_NUMBER_IS_NOT_ONE)
}

#[test]
fn one_sum_is_answered(rt: HostRuntime) -> Result<(), Fail> {
    compare(&rt, rt.alloc(), &ONE_SUM)
}

#[test]
fn one_division_is_answered(rt: HostRuntime) -> Result<(), Fail> {
    compare(&rt, rt.alloc(), &ONE_DIVISION)
}

#[test]
fn the_first_bad_line_is_answered(rt: HostRuntime) -> Result<(), Fail> {
    compare(&rt, rt.alloc(), &SEVERAL_BAD_LINES)
}

#[test]
fn only_a_line_closes(rt: HostRuntime) -> Result<(), Fail> {
    compare(&rt, rt.alloc(), &CONTRADICTION)
}
