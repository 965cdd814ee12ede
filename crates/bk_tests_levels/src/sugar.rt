// What the words of the notation stand for: two bodies that are one, and two that are not.

use crate::answers::are_one;
use std::alloc::Global;
use std::process::Abort;
use std::test::Fail;

// An operation's body, in a machine with the number n, the truth value b and the function f.
const FRONT: &str =
    "MACHINE A VARIABLES n, b, f INVARIANT n : 0..10 & b : BOOL & f : 0..3 --> 0..9 \
    INITIALISATION n, b, f := 0, TRUE, (0..3) * {0} OPERATIONS op = ";

// Two bodies that are one substitution.
const ALIKE: [(&str, &str); 24] = [
    (
        "IF n = 1 THEN n := 2 END",
        "IF n = 1 THEN n := 2 ELSE skip END",
    ),
    (
        "IF n = 1 THEN n := 2 ELSIF n = 2 THEN n := 3 ELSE n := 4 END",
        "IF n = 1 THEN n := 2 ELSE IF n = 2 THEN n := 3 ELSE n := 4 END END",
    ),
    (
        "IF n = 1 THEN n := 2 ELSIF n = 2 THEN n := 3 END",
        "IF n = 1 THEN n := 2 ELSE IF n = 2 THEN n := 3 ELSE skip END END",
    ),
    (
        "IF n = 1 THEN n := 2 ELSIF n = 2 THEN n := 3 ELSIF n = 3 THEN n := 4 END",
        "IF n = 1 THEN n := 2 ELSE IF n = 2 THEN n := 3 ELSE IF n = 3 THEN n := 4 ELSE skip \
            END END END",
    ),
    (
        "CHOICE n := 1 OR n := 2 OR n := 3 END",
        "CHOICE CHOICE n := 1 OR n := 2 END OR n := 3 END",
    ),
    (
        "SELECT n = 1 THEN n := 2 WHEN n = 2 THEN n := 3 END",
        "CHOICE SELECT n = 1 THEN n := 2 END OR SELECT n = 2 THEN n := 3 END END",
    ),
    (
        "SELECT n = 1 THEN n := 2 ELSE n := 4 END",
        "CHOICE SELECT n = 1 THEN n := 2 END OR SELECT not(n = 1) THEN n := 4 END END",
    ),
    (
        "SELECT n = 1 THEN n := 2 WHEN n = 2 THEN n := 3 ELSE n := 4 END",
        "CHOICE CHOICE SELECT n = 1 THEN n := 2 END OR SELECT n = 2 THEN n := 3 END END OR \
            SELECT not(n = 1) & not(n = 2) THEN n := 4 END END",
    ),
    (
        "SELECT n = 1 THEN n := 2 WHEN n = 2 THEN n := 3 WHEN n = 3 THEN n := 4 ELSE skip END",
        "CHOICE CHOICE CHOICE SELECT n = 1 THEN n := 2 END OR SELECT n = 2 THEN n := 3 END END \
            OR SELECT n = 3 THEN n := 4 END END OR SELECT (not(n = 1) & not(n = 2)) & not(n = \
            3) THEN skip END END",
    ),
    (
        "LET x BE x = n IN n := x END",
        "ANY x WHERE x = n THEN n := x END",
    ),
    (
        "LET x, y BE x = 1 & y = n IN n := x + y END",
        "ANY x, y WHERE x = 1 & y = n THEN n := x + y END",
    ),
    ("n :: 0..3", "ANY z WHERE z : 0..3 THEN n := z END"),
    ("b :: BOOL", "ANY z WHERE z : BOOL THEN b := z END"),
    ("f(1) := 2", "f := f <+ {1 |-> 2}"),
    ("f(n) := n + 1", "f := f <+ {n |-> n + 1}"),
    ("BEGIN n := 1 END", "n := 1"),
    (
        "BEGIN BEGIN n := 1 END || b := TRUE END",
        "BEGIN n := 1 || b := TRUE END",
    ),
    (
        "BEGIN PRE n = 1 THEN n := 2 END END",
        "PRE n = 1 THEN n := 2 END",
    ),
    (
        "ANY n WHERE n : 0..3 THEN skip END",
        "ANY z WHERE z : 0..3 THEN skip END",
    ),
    ("n :( n = n$0 + 1 )", "n :( n = n$0 + 1 )"),
    ("n := MAXINT", "n := 2147483647"),
    ("n := succ(n)", "n := n + 1"),
    ("n := pred(n)", "n := n - 1"),
    ("b := bool(n /= 1)", "b := bool(not(n = 1))"),
];

// Two bodies that are not.
const DIFFERENT: [(&str, &str); 12] = [
    ("IF n = 1 THEN n := 2 END", "SELECT n = 1 THEN n := 2 END"),
    ("IF n = 1 THEN n := 2 END", "n := 2"),
    (
        "CHOICE n := 1 OR n := 2 OR n := 3 END",
        "CHOICE n := 1 OR CHOICE n := 2 OR n := 3 END END",
    ),
    (
        "SELECT n = 1 THEN n := 2 ELSE n := 4 END",
        "IF n = 1 THEN n := 2 ELSE n := 4 END",
    ),
    (
        "ASSERT n = 1 THEN n := 2 END",
        "SELECT n = 1 THEN n := 2 END",
    ),
    ("n, b := 1, TRUE", "BEGIN n := 1 || b := TRUE END"),
    ("n, b := 1, TRUE", "b, n := TRUE, 1"),
    ("n :: 0..3", "n :( n : 0..3 )"),
    ("LET x BE x = n IN n := x END", "n := n"),
    (
        "BEGIN n := 1 || b := TRUE END",
        "BEGIN b := TRUE || n := 1 END",
    ),
    ("f(1) := 2", "f := f <+ {2 |-> 1}"),
    (
        "SELECT n = 1 THEN n := 2 WHEN n = 2 THEN n := 3 END",
        "SELECT n = 2 THEN n := 3 WHEN n = 1 THEN n := 2 END",
    ),
];

fn compare(
    rt: &impl Abort,
    alloc: Global,
    rows: &[(&str, &str)],
    wanted: bool,
) -> Result<(), Fail> {
    for (first, second) in rows {
        let found = are_one(alloc, FRONT, first, second)?;
        assert!(rt; found == wanted, "{first}");
    }
    Ok(())
}

#[test]
fn one_substitution(rt: HostRuntime) -> Result<(), Fail> {
    compare(&rt, rt.alloc(), &ALIKE, true)
}

#[test]
fn two_substitutions(rt: HostRuntime) -> Result<(), Fail> {
    compare(&rt, rt.alloc(), &DIFFERENT, false)
}
