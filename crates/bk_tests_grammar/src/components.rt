// Texts and the components that are read from them.

use bk_lex::tokens;
use bk_p_comp::component;
use bk_p_expr::SynFault;
use std::alloc::Global;
use std::process::Abort;

// How many clauses the component has that the text is written for.
fn clauses(alloc: Global, text: &str) -> Result<usize, SynFault> {
    match tokens(alloc, text.as_bytes()) {
        Ok(found) => {
            let read = component(alloc, &found)?;
            Ok(read.clauses.len())
        }
        Err(_) => Err(SynFault::Memory),
    }
}

fn has_clauses(alloc: Global, text: &str, wanted: usize) -> bool {
    match clauses(alloc, text) {
        Ok(number) => number == wanted,
        Err(_) => false,
    }
}

fn fails_at(alloc: Global, text: &str, wanted: usize) -> bool {
    match clauses(alloc, text) {
        Ok(_) => false,
        Err(fault) => fault == SynFault::At(wanted),
    }
}

// A component, and how many clauses it has.
const COMPONENTS: [(&str, usize); 6] = [
    ("MACHINE M END", 0),
    ("REFINEMENT R REFINES M END", 0),
    (
        "IMPLEMENTATION I REFINES M VALUES c = 1 ; d = 2 CONCRETE_VARIABLES y END",
        2,
    ),
    (
        "MACHINE M SETS S = {a, b} ; T = {c} CONSTANTS d PROPERTIES d : S END",
        3,
    ),
    (
        "MACHINE M VARIABLES x INVARIANT x : NAT ASSERTIONS x < 9 ; x < 8 INITIALISATION x := 0 END",
        4,
    ),
    (
        "MACHINE M OPERATIONS inc = x := x + 1 ; r <-- get(a, b) = BEGIN r := x ; skip END END",
        1,
    ),
];

// A text, and the token that no component is read up to.
const FAULTS: [(&str, usize); 29] = [
    ("", 0),
    ("skip", 0),
    ("MACHINE", 0),
    ("REFINEMENT R END", 0),
    ("MACHINE M", 2),
    ("MACHINE M REFINES N END", 2),
    ("MACHINE M END END", 3),
    ("MACHINE M SETS S END", 2),
    ("MACHINE M VALUES c = 1 END", 2),
    ("IMPLEMENTATION I REFINES M VARIABLES x END", 4),
    ("MACHINE M CONSTANTS c CONCRETE_CONSTANTS d END", 4),
    ("MACHINE M VARIABLES x, END", 4),
    ("MACHINE M OPERATIONS o = skip ; END", 6),
    ("MACHINE M INVARIANT btrue END", 2),
    ("MACHINE M INVARIANT x = y btrue END", 6),
    ("MACHINE A SETS S END END", 2),
    ("MACHINE M SETS S ; T = {a} END", 2),
    ("MACHINE M SETS S = {a} ; T END", 8),
    ("MACHINE M INVARIANT a ^ b = c END", 4),
    ("MACHINE M INVARIANT s : seq(a) END", 4),
    ("MACHINE M INVARIANT first(s) = 1 END", 2),
    ("MACHINE M CONSTANTS c, tail END", 4),
    ("MACHINE M INITIALISATION op END", 2),
    ("MACHINE M INITIALISATION x := 1 ; op END", 6),
    ("MACHINE M OPERATIONS o = r <-- op(a) END", 2),
    ("MACHINE M OPERATIONS o = skip ; p = op END", 6),
    ("MACHINE M IMPORTS N END", 2),
    ("REFINEMENT R REFINES M IMPORTS N END", 4),
    ("IMPLEMENTATION I REFINES M IMPORTS N END", 4),
];

fn compare_clauses(rt: &impl Abort, alloc: Global, rows: &[(&str, usize)]) {
    for (text, wanted) in rows {
        assert!(rt; has_clauses(alloc, text, *wanted), "{text}");
    }
}

fn compare_faults(rt: &impl Abort, alloc: Global, rows: &[(&str, usize)]) {
    for (text, wanted) in rows {
        assert!(rt; fails_at(alloc, text, *wanted), "{text}");
    }
}

#[test]
fn components_are_read(rt: HostRuntime) {
    compare_clauses(&rt, rt.alloc(), &COMPONENTS);
}

#[test]
fn places_of_faults(rt: HostRuntime) {
    compare_faults(&rt, rt.alloc(), &FAULTS);
}
