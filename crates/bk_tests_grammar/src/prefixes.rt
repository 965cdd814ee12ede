// Every text that a component's text begins with has an answer, and no fault stands after its end.

use bk_lex::tokens;
use bk_p_comp::component;
use bk_p_expr::SynFault;
use std::alloc::Global;

const TALLY: &str = "MACHINE Tally
VARIABLES n
INVARIANT n : 0..10
INITIALISATION n := 0
OPERATIONS
  inc(k) = PRE k : 1..10 & n + k <= 10 THEN n := n + k END ;
  r <-- get = r := n
END
";

const TALLY_IMPLEMENTATION: &str = "IMPLEMENTATION Tally_i REFINES Tally
CONCRETE_VARIABLES n
INVARIANT n : 0..10
INITIALISATION n := 0
OPERATIONS
  inc(k) = n := n + k ;
  r <-- get = r := n
END
";

const TABLE: &str = "MACHINE Table
VARIABLES f
INVARIANT f : 0..9 --> INT
INITIALISATION f := (0..9) * {0}
OPERATIONS
  fill = f := (0..9) * {7} ;
  r <-- read(i) = PRE i : 0..9 THEN r := f(i) END
END
";

const TABLE_IMPLEMENTATION: &str = "IMPLEMENTATION Table_i REFINES Table
CONCRETE_VARIABLES tab
INVARIANT tab : 0..9 --> INT & tab = f
INITIALISATION tab := (0..9) * {0}
OPERATIONS
  fill = VAR i IN i := 0 ;
    WHILE i < 10 DO tab(i) := 7 ; i := i + 1
    INVARIANT i : 0..10 & tab : 0..9 --> INT & !j.(j : 0..i - 1 => tab(j) = 7)
    VARIANT 10 - i END
  END ;
  r <-- read(i) = r := tab(i)
END
";

// Whether it is answered as it has to be: read where it is the whole, else refused at one of its tokens or at its end.
fn is_answered(alloc: Global, text: &[u8], is_whole: bool) -> bool {
    let Ok(found) = tokens(alloc, text) else {
        return false;
    };
    match component(alloc, &found) {
        Ok(_) => is_whole,
        Err(SynFault::At(place)) => !is_whole && place <= found.len(),
        Err(_) => false,
    }
}

// The same of all that the text begins with; the whole ends with a line's end.
fn all_are_answered(alloc: Global, text: &[u8]) -> bool {
    for length in 0..text.len() {
        let Some(front) = text.get(..length) else {
            return false;
        };
        if !is_answered(alloc, front, length + 1 == text.len()) {
            return false;
        }
    }
    is_answered(alloc, text, true)
}

#[test]
fn of_a_machine(rt: HostRuntime) {
    assert!(rt; all_are_answered(rt.alloc(), TALLY.as_bytes()));
}

#[test]
fn of_an_implementation(rt: HostRuntime) {
    assert!(rt; all_are_answered(rt.alloc(), TALLY_IMPLEMENTATION.as_bytes()));
}

#[test]
fn of_a_machine_with_a_table(rt: HostRuntime) {
    assert!(rt; all_are_answered(rt.alloc(), TABLE.as_bytes()));
}

#[test]
fn of_an_implementation_with_a_loop(rt: HostRuntime) {
    assert!(rt; all_are_answered(rt.alloc(), TABLE_IMPLEMENTATION.as_bytes()));
}
