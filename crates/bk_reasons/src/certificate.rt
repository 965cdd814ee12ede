//! Certificates that prove nothing.

use crate::fact::made_facts;
use crate::words::Words;
use bk_arith::{ArithFault, atoms, facts, linear};
use bk_form::{Form, Part, View};
use bk_io::Memory;
use bk_lin::{CertFault, Fact, Line};
use bk_seq::{Sequent, numbered};

/// Says why a certificate over the listed hypotheses does not prove the goal.
pub(crate) fn certificate_is_wrong(
    words: &mut Words<'_>,
    sequent: &Sequent,
    numbers: &[u32],
    lines: &[Line],
) -> Result<bool, Memory> {
    let mut hyps = Vec::new(words.alloc);
    for number in numbers {
        let Some(hypothesis) = numbered(&sequent.hyps, *number) else {
            words.no_hypothesis(sequent, *number)?;
            return Ok(true);
        };
        hyps.push(hypothesis.copy(words.alloc)?)?;
    }
    let Err(fault) = linear(words.alloc, &hyps, &sequent.goal, lines) else {
        return Ok(false);
    };
    say_fault(words, numbers, &hyps, &sequent.goal, lines, fault)?;
    Ok(true)
}

fn say_fault(
    words: &mut Words<'_>,
    numbers: &[u32],
    hyps: &[Form],
    goal: &Form,
    lines: &[Line],
    fault: ArithFault,
) -> Result<(), Memory> {
    match fault {
        ArithFault::NotLinear(place) => say_not_linear(words, numbers, hyps, goal, place),
        ArithFault::Cert(fault) => {
            let given = facts_of(words, hyps, goal)?;
            say_certificate_fault(words, given.len(), lines, fault)?;
            say_facts(words, numbers, hyps, goal, lines, fault)
        }
        ArithFault::TooWide => words.say(b"a number of a fact is past 128 bits"),
        ArithFault::Cases => words.say(b"the certificate proves nothing"),
        ArithFault::Memory => Err(Memory),
    }
}

// A listed hypothesis, or the goal, is no comparison.
fn say_not_linear(
    words: &mut Words<'_>,
    numbers: &[u32],
    hyps: &[Form],
    goal: &Form,
    place: usize,
) -> Result<(), Memory> {
    let index = place.saturating_sub(1);
    let (Some(number), Some(hypothesis)) = (numbers.get(index), hyps.get(index)) else {
        words.say(b"the goal is not of the form a <= b, a < b or bfalse: it is ")?;
        words.form(goal)?;
        return words.say(
            b"; law O1 turns a = b into two of these, law O5 a : l .. h, and contra turns any goal into bfalse",
        );
    };
    words.hypothesis(*number)?;
    words.say(b" is not a comparison that lin takes: it is ")?;
    words.form(hypothesis)
}

// What is wrong with a certificate over so many facts.
fn say_certificate_fault(
    words: &mut Words<'_>,
    given: usize,
    lines: &[Line],
    fault: CertFault,
) -> Result<(), Memory> {
    match fault {
        CertFault::BadLine(line) => say_line(words, line, bad_line_words(given, lines, line)),
        CertFault::Negative(line) => say_line(words, line, negative_words(lines, line)),
        CertFault::TooWide(line) => say_line(words, line, b" makes a number past 128 bits"),
        CertFault::NotClosed => words.say(b"the last fact is not a contradiction"),
    }
}

// What is wrong with the line of this number, from 1, that names no fact, or divides one that is not divisible.
fn bad_line_words(given: usize, lines: &[Line], number: usize) -> &'static [u8] {
    let made = number.saturating_sub(1);
    match lines.get(made) {
        Some(Line::Div { fact, by: _ }) if is_one_of(*fact, given.saturating_add(made)) => {
            b" divides by a number that does not divide each coefficient of the fact"
        }
        _ => b" names a fact that does not stand before it",
    }
}

// Whether one of so many facts has this number.
fn is_one_of(number: u32, count: usize) -> bool {
    number > 0 && number as usize <= count
}

// What is wrong with the line of this number, from 1, that has a number below its least one.
fn negative_words(lines: &[Line], number: usize) -> &'static [u8] {
    match lines.get(number.saturating_sub(1)) {
        Some(Line::Div { fact: _, by: _ }) => b" divides by a number below 1",
        _ => b" has a negative multiplier",
    }
}

fn say_line(words: &mut Words<'_>, line: usize, text: &[u8]) -> Result<(), Memory> {
    words.say(b"line ")?;
    words.number(line)?;
    words.say(b" of the certificate")?;
    words.say(text)
}

// The facts with their numbers and what each comes from, and where all lines stand what the last one says.
fn say_facts(
    words: &mut Words<'_>,
    numbers: &[u32],
    hyps: &[Form],
    goal: &Form,
    lines: &[Line],
    fault: CertFault,
) -> Result<(), Memory> {
    let atoms = atoms_of(words, hyps, goal)?;
    let given = facts_of(words, hyps, goal)?;
    let own = counts(words, hyps)?;
    let count = given.len();
    let all = made_facts(words.alloc, given, lines)?;
    if fault == CertFault::NotClosed && all.len() > count {
        words.say(b": it says ")?;
        say_fact(words, &all[all.len() - 1], &atoms)?;
    }
    for index in 0..count {
        words.say(b"\n    fact ")?;
        words.number(index.saturating_add(1))?;
        say_source(words, numbers, &own, index)?;
        if let Some(fact) = all.get(index) {
            say_fact(words, fact, &atoms)?;
        }
    }
    Ok(())
}

// The facts, or none where they are not read.
fn facts_of(words: &Words<'_>, hyps: &[Form], goal: &Form) -> Result<Vec<Fact>, Memory> {
    match facts(words.alloc, hyps, goal) {
        Ok(list) => Ok(list),
        Err(ArithFault::Memory) => Err(Memory),
        Err(_) => Ok(Vec::new(words.alloc)),
    }
}

// Their atoms, or none.
fn atoms_of(words: &Words<'_>, hyps: &[Form], goal: &Form) -> Result<Vec<Form>, Memory> {
    match atoms(words.alloc, hyps, goal) {
        Ok(list) => Ok(list),
        Err(ArithFault::Memory) => Err(Memory),
        Err(_) => Ok(Vec::new(words.alloc)),
    }
}

// How many facts each hypothesis has.
fn counts(words: &Words<'_>, hyps: &[Form]) -> Result<Vec<usize>, Memory> {
    let never = Form::make(words.alloc, Part::False)?;
    let mut counts = Vec::new(words.alloc);
    for index in 0..hyps.len() {
        let own = facts_of(words, &hyps[index..index + 1], &never)?;
        counts.push(own.len())?;
    }
    Ok(counts)
}

// `, of hypothesis 3: ` or `, of the goal: `.
fn say_source(
    words: &mut Words<'_>,
    numbers: &[u32],
    own: &[usize],
    fact: usize,
) -> Result<(), Memory> {
    let mut behind = 0usize;
    for (index, count) in own.iter().enumerate() {
        behind = behind.saturating_add(*count);
        if fact < behind {
            words.say(b", of ")?;
            words.hypothesis(numbers.get(index).copied().unwrap_or(0))?;
            return words.say(b": ");
        }
    }
    words.say(b", of the goal's opposite: ")
}

// `0 <= 2 * x - 1`.
fn say_fact(words: &mut Words<'_>, fact: &Fact, atoms: &[Form]) -> Result<(), Memory> {
    words.say(b"0 <= ")?;
    let mut is_first = true;
    for (index, coefficient) in fact.coefs.iter().enumerate() {
        if *coefficient != 0 {
            say_multiple(words, *coefficient, atoms.get(index), is_first)?;
            is_first = false;
        }
    }
    if is_first {
        return words.whole(fact.constant);
    }
    if fact.constant == 0 {
        return Ok(());
    }
    say_sign(words, fact.constant, false)?;
    words.natural(fact.constant.unsigned_abs())
}

fn say_multiple(
    words: &mut Words<'_>,
    coefficient: i128,
    atom: Option<&Form>,
    is_first: bool,
) -> Result<(), Memory> {
    say_sign(words, coefficient, is_first)?;
    if coefficient.unsigned_abs() != 1 {
        words.natural(coefficient.unsigned_abs())?;
        words.say(b" * ")?;
    }
    match atom {
        Some(atom) => say_atom(words, atom),
        None => words.say(b"?"),
    }
}

// An atom, in parentheses where it is an operator between two terms.
fn say_atom(words: &mut Words<'_>, atom: &Form) -> Result<(), Memory> {
    if let View::Bin(_, _, _) = atom.view() {
        words.say(b"(")?;
        words.form(atom)?;
        return words.say(b")");
    }
    words.form(atom)
}

fn say_sign(words: &mut Words<'_>, number: i128, is_first: bool) -> Result<(), Memory> {
    if is_first {
        return words.say(if number < 0 { b"-" } else { b"" });
    }
    words.say(if number < 0 { b" - " } else { b" + " })
}
