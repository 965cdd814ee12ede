// Limits of proof files.

use crate::files::have_rules;
use bk_p_proof::{ScriptFault, Scripts, scripts};
use std::alloc::{AllocError, Global};
use std::test::Fail;

// A proof file with a term in so many parentheses.
fn parentheses(alloc: Global, count: usize) -> Result<Vec<u8>, AllocError> {
    let mut text = Vec::from_slice(alloc, b"proof A.1 cut ")?;
    for _ in 0..count {
        text.push(b'(')?;
    }
    text.push(b'x')?;
    for _ in 0..count {
        text.push(b')')?;
    }
    text.extend_from_slice(b" end")?;
    Ok(text)
}

// A proof file with a term that so many signs of inverses make higher than a name.
fn high(alloc: Global, count: usize) -> Result<Vec<u8>, AllocError> {
    let mut text = Vec::from_slice(alloc, b"proof A.1 cut x")?;
    for _ in 0..count {
        text.push(b'~')?;
    }
    text.extend_from_slice(b" end")?;
    Ok(text)
}

// A file of so many tokens, which nothing is written as.
fn many(alloc: Global, count: usize) -> Result<Vec<u8>, AllocError> {
    let mut text = Vec::new(alloc);
    for _ in 0..count {
        text.push(b';')?;
    }
    Ok(text)
}

// A proof file with a name of so many words that open blocks.
fn blocks(alloc: Global, count: usize) -> Result<Vec<u8>, AllocError> {
    let mut text = Vec::from_slice(alloc, b"proof A")?;
    for _ in 0..count {
        text.extend_from_slice(b".BEGIN")?;
    }
    text.extend_from_slice(b" end")?;
    Ok(text)
}

// A proof file with one script of so many rules, and one more before these.
fn rules(alloc: Global, name: &str, count: usize) -> Result<Vec<u8>, AllocError> {
    let mut text = Vec::from_slice(alloc, b"proof ")?;
    text.extend_from_slice(name.as_bytes())?;
    text.extend_from_slice(b".1 same")?;
    for _ in 0..count {
        text.extend_from_slice(b" ; same")?;
    }
    text.extend_from_slice(b" end")?;
    Ok(text)
}

/// What is told of the second of two files.
#[derive(Clone, Copy, PartialEq)]
enum Told {
    Nothing,
    Limit(u8),
    Fault(u8),
    Other,
}

fn answer(alloc: Global, text: Result<Vec<u8>, AllocError>) -> Told {
    match read(alloc, text) {
        Ok(_) => Told::Nothing,
        Err(ScriptFault::Limit { number, file: 1 }) => Told::Limit(number),
        Err(
            ScriptFault::Fault {
                number,
                file: 1,
                ..
            },
        ) => Told::Fault(number),
        Err(_) => Told::Other,
    }
}

// A file with one script, and then this one.
fn read(alloc: Global, text: Result<Vec<u8>, AllocError>) -> Result<Scripts, ScriptFault> {
    let mut files = Vec::new(alloc);
    files.push(Vec::from_slice(alloc, b"proof Z.1 end")?)?;
    files.push(text?)?;
    scripts(alloc, &files)
}

#[test]
fn brackets_within_the_limit_and_past_it(rt: HostRuntime) {
    assert!(rt; answer(rt.alloc(), parentheses(rt.alloc(), 400)) == Told::Nothing);
    assert!(rt; answer(rt.alloc(), parentheses(rt.alloc(), 401)) == Told::Limit(3));
}

#[test]
fn heights_within_the_limit_and_past_it(rt: HostRuntime) {
    assert!(rt; answer(rt.alloc(), high(rt.alloc(), 999)) == Told::Nothing);
    assert!(rt; answer(rt.alloc(), high(rt.alloc(), 1000)) == Told::Limit(12));
}

#[test]
fn tokens_within_the_limit_and_past_it(rt: HostRuntime) {
    assert!(rt; answer(rt.alloc(), many(rt.alloc(), 1000000)) == Told::Fault(3));
    assert!(rt; answer(rt.alloc(), many(rt.alloc(), 1000001)) == Told::Limit(2));
}

#[test]
fn blocks_within_the_limit_and_past_it(rt: HostRuntime) {
    assert!(rt; answer(rt.alloc(), blocks(rt.alloc(), 400)) == Told::Nothing);
    assert!(rt; answer(rt.alloc(), blocks(rt.alloc(), 401)) == Told::Limit(3));
}

// A script of n rules has 2 * n + 4 tokens, so there are too many tokens before there can be too many rules.
#[test]
fn rules_within_the_limit_and_past_it(rt: HostRuntime) {
    assert!(rt; answer(rt.alloc(), rules(rt.alloc(), "A", 499997)) == Told::Nothing);
    assert!(rt; answer(rt.alloc(), rules(rt.alloc(), "A", 499998)) == Told::Limit(2));
    assert!(rt; answer(rt.alloc(), rules(rt.alloc(), "A", 999999)) == Told::Limit(2));
}

// Three files with a million rules.
fn million(alloc: Global) -> Result<Scripts, ScriptFault> {
    let mut files = Vec::new(alloc);
    files.push(rules(alloc, "A", 333333)?)?;
    files.push(rules(alloc, "B", 333332)?)?;
    files.push(rules(alloc, "C", 333332)?)?;
    scripts(alloc, &files)
}

#[test]
fn a_million_rules(rt: HostRuntime) {
    assert!(rt; have_rules(million(rt.alloc()), &[333334, 333333, 333333]));
}

// A file with a term that is too high, and one with a name that has two types.
fn high_and_typed(alloc: Global) -> Result<Scripts, ScriptFault> {
    let mut files = Vec::new(alloc);
    files.push(high(alloc, 1000)?)?;
    files.push(Vec::from_slice(alloc, b"proof B.1 fix x : S ; fix x : T end")?)?;
    scripts(alloc, &files)
}

#[test]
fn a_second_type_comes_before_heights(rt: HostRuntime) {
    let is_right = match high_and_typed(rt.alloc()) {
        Err(
            ScriptFault::Fault {
                number,
                file,
                place,
            },
        ) => number == 3 && file == 1 && place == 26,
        _ => false,
    };
    assert!(rt; is_right);
}
