// Each front of a proof file.

use crate::texts::read;
use bk_p_proof::ScriptFault;
use bk_tests_fixtures::proof_texts::{TABLE, TALLY};
use std::alloc::Global;
use std::test::Fail;

// Whether the front of so many bytes is read, or is at fault within it: at a `$` that it ends with as a token that is none,
// else at what is not written.
fn is_answered(alloc: Global, text: &str, length: usize) -> bool {
    let Some(front) = text.get(..length) else {
        return false;
    };
    match read(alloc, &[front]) {
        Ok(_) => front.is_empty() || front.ends_with("end") || front.ends_with("end\n"),
        Err(
            ScriptFault::Fault {
                number: 2,
                place,
                ..
            },
        ) => { front.ends_with("$") && place < length && place + 1 == length }
        Err(
            ScriptFault::Fault {
                number: 3,
                place,
                ..
            },
        ) => place <= length,
        Err(_) => false,
    }
}

#[test]
fn each_front_is_answered(rt: HostRuntime) {
    for length in 0..TALLY.len() + 1 {
        assert!(rt; is_answered(rt.alloc(), TALLY, length));
    }
}

#[test]
fn each_front_of_a_long_file_is_answered(rt: HostRuntime) {
    for length in 0..TABLE.len() + 1 {
        assert!(rt; is_answered(rt.alloc(), TABLE, length));
    }
}
