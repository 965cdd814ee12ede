// Scripts of proofs on their sequents, each verdict, and each rule at its edges. Two levels have a number from 0 to 10: x is that
// of the level above and y that of the level below, and u is an input.

use crate::reading::Claim;
use crate::stating;
use crate::stating::{Replay, Step, replays};
use bk_kernel::Verdict;
use std::test::Fail;

// The numbers of both levels, and that they are one.
const LEVELS: &str = "( x : ( 0 .. 10 ) ), ( y : ( 0 .. 10 ) ), ( y = x )";

// ---- adding the input to the variable
const ADDS_ABOVE: &str = "( x : ( 0 .. 10 ) ), ( u : ( 1 .. 10 ) ), ( ( x + u ) <= 10 )";

const ADDS_BELOW: &str =
    "( x : ( 0 .. 10 ) ), ( y : ( 0 .. 10 ) ), ( y = x ), ( u : ( 1 .. 10 ) ), ( ( x + u ) <= 10 ), ( u : ( -2147483647 .. 2147483647 ) )";

const MACHINE_KEEPS_THE_INVARIANT: [Replay; 1] = [(
    &[
        "law 105 goal : ( x + u ), 0, 10",
        "and",
        "lin 1 2 : 1 3 5",
        "hyp 3",
    ],
    (ADDS_ABOVE, "( ( x + u ) : ( 0 .. 10 ) )"),
    Verdict::Closed,
)];

const IMPLEMENTATION_KEEPS_THE_INVARIANT: [Replay; 1] = [(
    &[
        "law 105 goal : ( y + u ), 0, 10",
        "and",
        "lin 2 4 : 1 3 5",
        "lin 3 5 : 1 3 4",
    ],
    (ADDS_BELOW, "( ( y + u ) : ( 0 .. 10 ) )"),
    Verdict::Closed,
)];

const IMPLEMENTATION_KEEPS_THE_LINK: [Replay; 1] = [(
    &["eq 3 goal 1 1", "same"],
    (ADDS_BELOW, "( ( y + u ) = ( x + u ) )"),
    Verdict::Closed,
)];

const SUM_STAYS_IN_RANGE: [Replay; 2] = [
    (
        &["lin 2 4 : 1 3 5"],
        (ADDS_BELOW, "( -2147483647 <= ( y + u ) )"),
        Verdict::Closed,
    ),
    (
        &["lin 2 4 : 2 4 5"],
        (ADDS_BELOW, "( ( y + u ) <= 2147483647 )"),
        Verdict::Closed,
    ),
];

#[test]
fn machine_keeps_the_invariant(rt: HostRuntime) -> Result<(), Fail> {
    replays(&rt, rt.alloc(), &MACHINE_KEEPS_THE_INVARIANT)
}

#[test]
fn implementation_keeps_the_invariant(rt: HostRuntime) -> Result<(), Fail> {
    replays(&rt, rt.alloc(), &IMPLEMENTATION_KEEPS_THE_INVARIANT)
}

#[test]
fn implementation_keeps_the_link(rt: HostRuntime) -> Result<(), Fail> {
    replays(&rt, rt.alloc(), &IMPLEMENTATION_KEEPS_THE_LINK)
}

#[test]
fn sum_stays_in_range(rt: HostRuntime) -> Result<(), Fail> {
    replays(&rt, rt.alloc(), &SUM_STAYS_IN_RANGE)
}

// ---- adding one to the variable below 10
const MACHINE_STEPS: [Replay; 1] = [(
    &[
        "law 105 goal : ( x + 1 ), 0, 10",
        "and",
        "lin 1 : 1 3",
        "lin 2 : 1 2",
    ],
    (
        "( x : ( 0 .. 10 ) ), ( x < 10 )",
        "( ( x + 1 ) : ( 0 .. 10 ) )",
    ),
    Verdict::Closed,
)];

// The level below adds one: the level above does so too, or it stays.
const STEP_BELOW: Claim<'static> = (
    "( x : ( 0 .. 10 ) ), ( y : ( 0 .. 10 ) ), ( y = x ), ( y < 10 )",
    "( ( ( x < 10 ) & ( ( ( y + 1 ) : ( 0 .. 10 ) ) & ( ( y + 1 ) = ( x + 1 ) ) ) ) or ( ( not ( x < 10 ) ) & ( ( ( y + 1 ) : ( 0 .. 10 ) ) & ( ( y + 1 ) = x ) ) ) )",
);

// The other side asks that x is not below 10, which is no comparison.
const IMPLEMENTATION_STEPS: [Replay; 2] = [
    (
        &[
            "left",
            "and",
            "lin 3 4 : 2 3 4",
            "and",
            "law 105 goal : ( y + 1 ), 0, 10",
            "and",
            "lin 2 : 1 3",
            "lin 4 : 1 2",
            "eq 3 goal 1 1",
            "same",
        ],
        STEP_BELOW,
        Verdict::Closed,
    ),
    (
        &[
            "right",
            "and",
            "lin 3 4 : 2 3 4",
            "and",
            "law 105 goal : ( y + 1 ), 0, 10",
            "and",
            "lin 2 : 1 3",
            "lin 4 : 1 2",
            "eq 3 goal 1 1",
            "same",
        ],
        STEP_BELOW,
        Verdict::BadStep(3),
    ),
];

const IMPLEMENTATION_STAYS: [Replay; 1] = [(
    &[
        "right",
        "and",
        "qe 3 goal 1 1",
        "hyp 4",
        "and",
        "hyp 2",
        "hyp 3",
    ],
    (
        "( x : ( 0 .. 10 ) ), ( y : ( 0 .. 10 ) ), ( y = x ), ( not ( y < 10 ) )",
        "( ( ( x < 10 ) & ( ( y : ( 0 .. 10 ) ) & ( y = ( x + 1 ) ) ) ) or ( ( not ( x < 10 ) ) & ( ( y : ( 0 .. 10 ) ) & ( y = x ) ) ) )",
    ),
    Verdict::Closed,
)];

const NEXT_STAYS_IN_RANGE: [Replay; 2] = [
    (
        &["lin 2 : 1 3"],
        (
            "( x : ( 0 .. 10 ) ), ( y : ( 0 .. 10 ) )",
            "( -2147483647 <= ( y + 1 ) )",
        ),
        Verdict::Closed,
    ),
    (
        &["lin 2 : 2 3"],
        (
            "( x : ( 0 .. 10 ) ), ( y : ( 0 .. 10 ) )",
            "( ( y + 1 ) <= 2147483647 )",
        ),
        Verdict::Closed,
    ),
];

#[test]
fn machine_steps(rt: HostRuntime) -> Result<(), Fail> {
    replays(&rt, rt.alloc(), &MACHINE_STEPS)
}

#[test]
fn implementation_steps(rt: HostRuntime) -> Result<(), Fail> {
    replays(&rt, rt.alloc(), &IMPLEMENTATION_STEPS)
}

#[test]
fn implementation_stays(rt: HostRuntime) -> Result<(), Fail> {
    replays(&rt, rt.alloc(), &IMPLEMENTATION_STAYS)
}

#[test]
fn next_stays_in_range(rt: HostRuntime) -> Result<(), Fail> {
    replays(&rt, rt.alloc(), &NEXT_STAYS_IN_RANGE)
}

// ---- verdicts
// The levels under themselves, as one conjunction to the left.
const KNOWN: Claim<'static> = (
    LEVELS,
    "( ( ( x : ( 0 .. 10 ) ) & ( y : ( 0 .. 10 ) ) ) & ( y = x ) )",
);

const VERDICTS: [Replay; 4] = [
    (&[], KNOWN, Verdict::Open(1)),
    (&["and"], KNOWN, Verdict::Open(2)),
    (&["and", "and"], KNOWN, Verdict::Open(3)),
    (&["and", "and", "hyp 1", "hyp 2"], KNOWN, Verdict::Open(1)),
];

const RESULTS_STAND_FIRST: [Replay; 3] = [
    (
        &["and", "and", "hyp 1", "hyp 2", "hyp 3"],
        KNOWN,
        Verdict::Closed,
    ),
    (
        &["and", "and", "hyp 1", "hyp 2", "hyp 3", "same"],
        KNOWN,
        Verdict::Extra(6),
    ),
    (
        &["and", "and", "hyp 1", "hyp 2", "hyp 3", "same", "same"],
        KNOWN,
        Verdict::Extra(6),
    ),
];

const BAD_STEPS: [Replay; 9] = [
    (&["hyp 1"], KNOWN, Verdict::BadStep(1)),
    (&["same"], KNOWN, Verdict::BadStep(1)),
    (&["left"], KNOWN, Verdict::BadStep(1)),
    (&["right"], KNOWN, Verdict::BadStep(1)),
    (&["imp"], KNOWN, Verdict::BadStep(1)),
    (&["split 3"], KNOWN, Verdict::BadStep(1)),
    (&["and", "and", "hyp 0"], KNOWN, Verdict::BadStep(3)),
    (&["and", "and", "hyp 4"], KNOWN, Verdict::BadStep(3)),
    (
        &["and", "and", "hyp 2", "hyp 1"],
        KNOWN,
        Verdict::BadStep(3),
    ),
];

#[test]
fn verdicts(rt: HostRuntime) -> Result<(), Fail> {
    replays(&rt, rt.alloc(), &VERDICTS)
}

#[test]
fn results_stand_first(rt: HostRuntime) -> Result<(), Fail> {
    replays(&rt, rt.alloc(), &RESULTS_STAND_FIRST)
}

#[test]
fn bad_steps(rt: HostRuntime) -> Result<(), Fail> {
    replays(&rt, rt.alloc(), &BAD_STEPS)
}

// ---- rules at their edges
const SUPPOSED: Claim<'static> = (
    "( y : ( 0 .. 10 ) )",
    "( ( ( x : ( 0 .. 10 ) ) & ( y = x ) ) => ( y = x ) )",
);

// The left part comes before the right one.
const SUPPOSES_AND_SPLITS: [Replay; 2] = [
    (&["imp", "split 2", "hyp 4"], SUPPOSED, Verdict::Closed),
    (&["imp", "split 2", "hyp 3"], SUPPOSED, Verdict::BadStep(3)),
];

const EQUATED: Claim<'static> = ("( x : ( 0 .. 10 ) ), ( y = x )", "( y : ( 0 .. 10 ) )");

// x stands there; no such path; no such hypothesis; no equation
const REWRITES_HYPOTHESES: [Replay; 4] = [
    (&["qe 2 hyp 1 1", "hyp 3"], EQUATED, Verdict::Closed),
    (&["qe 2 hyp 1 3", "hyp 3"], EQUATED, Verdict::BadStep(1)),
    (&["qe 2 hyp 4 1", "hyp 3"], EQUATED, Verdict::BadStep(1)),
    (&["qe 1 hyp 1 1", "hyp 3"], EQUATED, Verdict::BadStep(1)),
];

// y does not stand there
const REWRITES_WHAT_STANDS_THERE: [Replay; 1] = [(
    &["eq 2 hyp 1 1", "hyp 3"],
    EQUATED,
    Verdict::BadStep(1),
)];

const ITSELF: Claim<'static> = ("( x : ( 0 .. 10 ) )", "( x : ( 0 .. 10 ) )");

// the law of the goal; another formula; another place; another number of formulas
const LAWS: [Replay; 4] = [
    (&["law 105 goal : x, 0, 10"], ITSELF, Verdict::Open(1)),
    (&["law 105 goal : y, 0, 10"], ITSELF, Verdict::BadStep(1)),
    (&["law 105 goal 1 : x, 0, 10"], ITSELF, Verdict::BadStep(1)),
    (&["law 104 goal : x, 0, 10"], ITSELF, Verdict::BadStep(1)),
];

const LAWS_IN_HYPOTHESES: [Replay; 1] = [(&["law 105 hyp 1 : x, 0, 10"], ITSELF, Verdict::Open(1))];

const NOT_NEGATIVE: Claim<'static> = ("( x : ( 0 .. 10 ) )", "( 0 <= ( x + 1 ) )");

// another sum; no such hypothesis
const CERTIFICATES: [Replay; 2] = [
    (&["lin 1 : 2 3"], NOT_NEGATIVE, Verdict::BadStep(1)),
    (&["lin 2 : 1 3"], NOT_NEGATIVE, Verdict::BadStep(1)),
];

const RULES_THAT_ARE_NOT_READ: [Replay; 1] = [(&["unread", "hyp 1"], ITSELF, Verdict::BadStep(1))];

#[test]
fn supposes_and_splits(rt: HostRuntime) -> Result<(), Fail> {
    replays(&rt, rt.alloc(), &SUPPOSES_AND_SPLITS)
}

#[test]
fn rewrites_hypotheses(rt: HostRuntime) -> Result<(), Fail> {
    replays(&rt, rt.alloc(), &REWRITES_HYPOTHESES)
}

#[test]
fn rewrites_what_stands_there(rt: HostRuntime) -> Result<(), Fail> {
    replays(&rt, rt.alloc(), &REWRITES_WHAT_STANDS_THERE)
}

#[test]
fn laws(rt: HostRuntime) -> Result<(), Fail> {
    replays(&rt, rt.alloc(), &LAWS)
}

#[test]
fn laws_in_hypotheses(rt: HostRuntime) -> Result<(), Fail> {
    replays(&rt, rt.alloc(), &LAWS_IN_HYPOTHESES)
}

#[test]
fn certificates(rt: HostRuntime) -> Result<(), Fail> {
    replays(&rt, rt.alloc(), &CERTIFICATES)
}

#[test]
fn rules_that_are_not_read(rt: HostRuntime) -> Result<(), Fail> {
    replays(&rt, rt.alloc(), &RULES_THAT_ARE_NOT_READ)
}

// ---- single steps
const BOTH: Claim<'static> = ("( y : ( 0 .. 10 ) )", "( ( x : ( 0 .. 10 ) ) & ( y = x ) )");

const STEPS: [Step; 1] = [(
    "and",
    BOTH,
    &[
        ("( y : ( 0 .. 10 ) )", "( x : ( 0 .. 10 ) )"),
        ("( y : ( 0 .. 10 ) )", "( y = x )"),
    ],
)];

const NO_STEPS: [(&str, Claim<'static>); 1] = [("left", BOTH)];

#[test]
fn steps(rt: HostRuntime) -> Result<(), Fail> {
    stating::steps(&rt, rt.alloc(), &STEPS)?;
    stating::no_steps(&rt, rt.alloc(), &NO_STEPS)
}
