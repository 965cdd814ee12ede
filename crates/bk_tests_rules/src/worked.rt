// Scripts that prove obligations, and what is said of them where one rule is another.

use crate::reading::Claim;
use crate::stating::{Replay, replays};
use bk_kernel::Verdict;
use std::test::Fail;

// ---- the claims
const NATURALS: Claim<'static> = ("", "( !i ( ( b0 : NATURAL ) => ( 0 <= b0 ) ) )");

// two picks, one under the other
const TWO: Claim<'static> = (
    "( y : ( 0 .. 10 ) )",
    "( !i ( ( b0 : ( 0 .. 10 ) ) => ( !i ( ( b0 : ( 0 .. 10 ) ) => ( b0 : ( 0 .. 10 ) ) ) ) ) )",
);

// a die: any number from 1 to 6 in the machine, 4 or 7 in the implementation
const MACHINE: Claim<'static> = (
    "( x : ( 1 .. 6 ) )",
    "( !i ( ( b0 : ( 1 .. 6 ) ) => ( b0 : ( 1 .. 6 ) ) ) )",
);

const FOUR: Claim<'static> = (
    "( x : ( 1 .. 6 ) ), ( y = x )",
    "( #i ( ( b0 : ( 1 .. 6 ) ) & ( ( 4 : ( 1 .. 6 ) ) & ( 4 = b0 ) ) ) )",
);

const SEVEN: Claim<'static> = (
    "( x : ( 1 .. 6 ) ), ( y = x )",
    "( #i ( ( b0 : ( 1 .. 6 ) ) & ( ( 7 : ( 1 .. 6 ) ) & ( 7 = b0 ) ) ) )",
);

// the greatest of a set that has a member
const NOT_EMPTY: Claim<'static> = (
    "( s : ( POW ( 0 .. 100 ) ) ), ( 0 : s )",
    "( not ( s = {}Pi ) )",
);

// a table that is read: a total function is applied to one of its arguments
const FUNCTION: Claim<'static> = (
    "( f : ( ( 0 .. 9 ) --> ( -9 .. 9 ) ) ), ( y : ( 0 .. 9 ) )",
    "( f : ( INTEGER +-> INTEGER ) )",
);

const ARGUMENT: Claim<'static> = (
    "( f : ( ( 0 .. 9 ) --> ( -9 .. 9 ) ) ), ( y : ( 0 .. 9 ) )",
    "( y : ( dom f ) )",
);

// ---- the scripts
const SCRIPTS: [Replay; 19] = [
    (&["fix u", "imp", "lin 1 : 1 2"], NATURALS, Verdict::Closed),
    (
        &["fix u", "imp", "lin 1 : 1"],
        NATURALS,
        Verdict::BadStep(3),
    ),
    (&["induct", "eval"], NATURALS, Verdict::Open(1)),
    (
        &["induct", "eval", "fix u", "imp", "split 1", "lin 3 : 1 2"],
        NATURALS,
        Verdict::Closed,
    ),
    (
        &["interval 1"],
        ("( x : ( 0 .. 63 ) )", "bfalse"),
        Verdict::Open(64),
    ),
    (
        &["interval 1"],
        ("( x : ( 0 .. 64 ) )", "bfalse"),
        Verdict::BadStep(1),
    ),
    (
        &["interval 1"],
        ("( x : ( 5 .. 4 ) )", "bfalse"),
        Verdict::Closed,
    ),
    (
        &["interval 1", "true"],
        ("( x : ( 5 .. 4 ) )", "bfalse"),
        Verdict::Extra(2),
    ),
    // the second name is not the first
    (
        &["fix u", "imp", "fix u", "imp", "hyp 3"],
        TWO,
        Verdict::BadStep(3),
    ),
    (
        &["fix u", "imp", "fix w", "imp", "hyp 3"],
        TWO,
        Verdict::Closed,
    ),
    (&["fix u", "imp", "hyp 2"], MACHINE, Verdict::Closed),
    (
        &["use : 4", "and", "eval", "and", "eval", "same"],
        FOUR,
        Verdict::Closed,
    ),
    (&["use : 4"], FOUR, Verdict::Open(1)),
    (
        &["use : 4", "and", "eval", "and", "eval"],
        FOUR,
        Verdict::Open(1),
    ),
    (
        &["use : 7", "and", "eval", "and", "eval", "same"],
        SEVEN,
        Verdict::BadStep(3),
    ),
    (
        &["not", "eq 3 hyp 2 2", "law 204 hyp 4 : 0, {}Pi", "false 5"],
        NOT_EMPTY,
        Verdict::Closed,
    ),
    (
        &["not", "eq 3 hyp 2 1", "law 204 hyp 4 : 0, {}Pi", "false 5"],
        NOT_EMPTY,
        Verdict::BadStep(2),
    ),
    (
        &[
            "law 340 hyp 1 : f, ( 0 .. 9 ), ( -9 .. 9 )",
            "split 3",
            "law 339 hyp 4 : f, ( 0 .. 9 ), ( -9 .. 9 )",
            "split 6",
            "law 339 goal : f, INTEGER, INTEGER",
            "and",
            "law 338 goal : f, INTEGER, INTEGER",
            "and",
            "sub goal",
            "fix u",
            "imp",
            "type goal",
            "true",
            "sub goal",
            "fix u",
            "imp",
            "type goal",
            "true",
            "hyp 8",
        ],
        FUNCTION,
        Verdict::Closed,
    ),
    (
        &[
            "law 340 hyp 1 : f, ( 0 .. 9 ), ( -9 .. 9 )",
            "split 3",
            "eq 5 goal 2",
            "hyp 2",
        ],
        ARGUMENT,
        Verdict::Closed,
    ),
];

// no whole number is a half
const HALVES: [Replay; 1] = [(
    &["lin 1 : 1 / 2 | 2 / 2 | 3 4"],
    ("( ( 2 * x ) = 1 )", "bfalse"),
    Verdict::Closed,
)];

#[test]
fn scripts(rt: HostRuntime) -> Result<(), Fail> {
    replays(&rt, rt.alloc(), &SCRIPTS)
}

#[test]
fn halves(rt: HostRuntime) -> Result<(), Fail> {
    replays(&rt, rt.alloc(), &HALVES)
}
