// Hypotheses with commas between them, a goal, a sum of multiples of facts, and what a certificate of this one line is answered.

use bk_arith::ArithFault;
use bk_lin::CertFault;

pub(crate) type Row = (
    &'static str,
    &'static str,
    &'static [(i128, u32)],
    Result<(), ArithFault>,
);

const LARGEST: i128 = 170141183460469231731687303715884105727;

const NOT_CLOSED: Result<(), ArithFault> = Err(ArithFault::Cert(CertFault::NotClosed));

pub(crate) const ORDERS: [Row; 4] = [
    ("( x <= y )", "( x <= y )", &[(1, 1), (1, 2)], Ok(())),
    ("( x < y )", "( x < y )", &[(1, 1), (1, 2)], Ok(())),
    ("( x < y )", "( x <= y )", &[(1, 1), (1, 2)], Ok(())),
    ("( x <= y )", "( x < y )", &[(1, 1), (1, 2)], NOT_CLOSED),
];

// `x = y` states two facts.
pub(crate) const EQUALITIES: [Row; 2] = [
    ("( x = y )", "( x <= y )", &[(1, 1), (1, 3)], Ok(())),
    ("( x = y )", "( y <= x )", &[(1, 2), (1, 3)], Ok(())),
];

pub(crate) const INTERVALS: [Row; 2] = [
    (
        "( x : ( 2 .. 9 ) )",
        "( 2 <= x )",
        &[(1, 1), (1, 3)],
        Ok(()),
    ),
    (
        "( x : ( 2 .. 9 ) )",
        "( x <= 9 )",
        &[(1, 2), (1, 3)],
        Ok(()),
    ),
];

pub(crate) const NATURALS: [Row; 4] = [
    ("( x : NATURAL )", "( 0 <= x )", &[(1, 1), (1, 2)], Ok(())),
    (
        "( x : NATURAL )",
        "( 0 < x )",
        &[(1, 1), (1, 2)],
        NOT_CLOSED,
    ),
    ("( x : NATURAL1 )", "( 0 <= x )", &[(1, 1), (1, 2)], Ok(())),
    ("( x : NATURAL1 )", "( 0 < x )", &[(1, 1), (1, 2)], Ok(())),
];

// What is said of y and x.
pub(crate) const DENIALS: [Row; 4] = [
    ("( not ( x <= y ) )", "( y < x )", &[(1, 1), (1, 2)], Ok(())),
    (
        "( not ( x <= y ) )",
        "( y <= x )",
        &[(1, 1), (1, 2)],
        Ok(()),
    ),
    ("( not ( x < y ) )", "( y <= x )", &[(1, 1), (1, 2)], Ok(())),
    (
        "( not ( x < y ) )",
        "( y < x )",
        &[(1, 1), (1, 2)],
        NOT_CLOSED,
    ),
];

// The goal `bfalse` adds no fact.
pub(crate) const CONTRADICTIONS: [Row; 2] = [
    ("( x < x )", "bfalse", &[(1, 1)], Ok(())),
    (
        "( x <= x )",
        "bfalse",
        &[(1, 2)],
        Err(ArithFault::Cert(CertFault::BadLine(1))),
    ),
];

// `2 * x - -y`, `x + y + x` and `(x + x) * 1 + y` are one linear form.
pub(crate) const SIDES: [Row; 2] = [
    (
        "( ( ( 2 * x ) - ( neg y ) ) <= 3 )",
        "( ( ( x + y ) + x ) <= 3 )",
        &[(1, 1), (1, 2)],
        Ok(()),
    ),
    (
        "( ( ( 2 * x ) - ( neg y ) ) <= 3 )",
        "( ( ( ( x + x ) * 1 ) + y ) <= 3 )",
        &[(1, 1), (1, 2)],
        Ok(()),
    ),
];

// `x * y` is an atom, and `y * x` is another.
pub(crate) const PRODUCTS_OF_ATOMS: [Row; 2] = [
    (
        "( ( x * y ) <= 3 )",
        "( ( x * y ) <= 3 )",
        &[(1, 1), (1, 2)],
        Ok(()),
    ),
    (
        "( ( x * y ) <= 3 )",
        "( ( y * x ) <= 3 )",
        &[(1, 1), (1, 2)],
        NOT_CLOSED,
    ),
];

// ---- two projects

// The lines of the first project's scripts: a counter x that goes up by y.
pub(crate) const COUNTER_GOES_UP: [Row; 3] = [
    (
        "( x : ( 0 .. 10 ) ), ( y : ( 1 .. 10 ) )",
        "( 0 <= ( x + y ) )",
        &[(1, 1), (1, 3), (1, 5)],
        Ok(()),
    ),
    (
        "( x : ( 0 .. 10 ) ), ( y : ( 1 .. 10 ) )",
        "( -2147483648 <= ( x + y ) )",
        &[(1, 1), (1, 3), (1, 5)],
        Ok(()),
    ),
    (
        "( x : ( 0 .. 10 ) ), ( y : ( 1 .. 10 ) )",
        "( ( x + y ) <= 2147483647 )",
        &[(1, 2), (1, 4), (1, 5)],
        Ok(()),
    ),
];

// The new variable is z.
pub(crate) const COUNTER_STAYS_LINKED: [Row; 1] = [(
    "( z = x ), ( ( x + y ) <= 10 )",
    "( ( z + y ) <= 10 )",
    &[(1, 1), (1, 3), (1, 4)],
    Ok(()),
)];

pub(crate) const MULTIPLIER_IS_TOO_WIDE: [Row; 1] = [(
    "( x : ( 0 .. 10 ) ), ( y : ( 1 .. 10 ) )",
    "( 0 <= ( x + y ) )",
    &[(LARGEST, 2), (1, 5)],
    Err(ArithFault::Cert(CertFault::TooWide(1))),
)];

// The lines of the second project's scripts: a counter that goes up by 1 where it is below 10.
pub(crate) const STEPPER_GOES_UP: [Row; 2] = [
    (
        "( x : ( 0 .. 10 ) )",
        "( 0 <= ( x + 1 ) )",
        &[(1, 1), (1, 3)],
        Ok(()),
    ),
    (
        "( x < 10 )",
        "( ( x + 1 ) <= 10 )",
        &[(1, 1), (1, 2)],
        Ok(()),
    ),
];

// The new variable is y.
pub(crate) const STEPPER_STAYS_LINKED: [Row; 1] = [(
    "( y = x ), ( y < 10 )",
    "( x < 10 )",
    &[(1, 2), (1, 3), (1, 4)],
    Ok(()),
)];

// ---- what is refused

pub(crate) const NO_COMPARISONS: [Row; 4] = [
    (
        "( x or y )",
        "( x or y )",
        &[(1, 1)],
        Err(ArithFault::NotLinear(1)),
    ),
    (
        "( x <= y ), ( x or y ), ( x or y )",
        "( x <= y )",
        &[(1, 1)],
        Err(ArithFault::NotLinear(2)),
    ),
    (
        "( x <= y )",
        "( x = y )",
        &[(1, 1)],
        Err(ArithFault::NotLinear(2)),
    ),
    (
        "( x : INTEGER )",
        "bfalse",
        &[(1, 1)],
        Err(ArithFault::NotLinear(1)),
    ),
];

pub(crate) const WIDE_SIDES: [Row; 3] = [
    // A part is too wide: before the certificate's fault, which cites no fact.
    (
        "( ( ( 170141183460469231731687303715884105727 + 1 ) - 1 ) <= x )",
        "bfalse",
        &[(1, 7)],
        Err(ArithFault::TooWide),
    ),
    // After a formula that is no comparison.
    (
        "( ( ( 170141183460469231731687303715884105727 + 1 ) - 1 ) <= x ), x",
        "bfalse",
        &[(1, 7)],
        Err(ArithFault::NotLinear(2)),
    ),
    // Both sides fit, and their difference less 1 does not.
    (
        "( x < ( ( x - 170141183460469231731687303715884105727 ) - 1 ) )",
        "bfalse",
        &[(1, 1)],
        Err(ArithFault::TooWide),
    ),
];

// ---- sums of literals

// A term, and its value where it has one.
pub(crate) const CLOSED_SUMS: [(&str, Option<i128>); 7] = [
    ("( 2 + 3 )", Some(5)),
    ("( 2 - 3 )", Some(-1)),
    ("( 2 * 3 )", Some(6)),
    ("( 6 / 3 )", None),
    ("( 170141183460469231731687303715884105727 + 1 )", None),
    ("x", None),
    // A value on the way is too wide.
    (
        "( ( 170141183460469231731687303715884105727 + 1 ) - 1 )",
        None,
    ),
];

// -(-largest - 1) is too wide, -largest is not.
pub(crate) const CLOSED_NEGATIVES: [(&str, Option<i128>); 4] = [
    (
        "( neg 170141183460469231731687303715884105727 )",
        Some(-LARGEST),
    ),
    (
        "( ( neg 170141183460469231731687303715884105727 ) - 1 )",
        Some(-LARGEST - 1),
    ),
    (
        "( neg ( ( neg 170141183460469231731687303715884105727 ) - 1 ) )",
        None,
    ),
    ("( card 1 )", None),
];
