// Texts and the terms that are read from them.

use crate::operator_table::{CONSTANTS, LEVELS, Level, SEQUENCE_SIGNS, WORD_OPERATORS};
use bk_lex::tokens;
use bk_p_expr::{SynFault, term};
use bk_raw::{Constant, InfixOp, RawNode, RawTerm, WordOp};
use std::alloc::{AllocError, Global};
use std::process::Abort;
use std::test::Fail;

// Whether both are the same term, whatever the places where they are written.
fn same(one: &RawTerm, other: &RawTerm) -> bool {
    match (&one.node, &other.node) {
        (RawNode::Name(name), RawNode::Name(text)) => name.equal(text),
        (RawNode::Number(value), RawNode::Number(number)) => value == number,
        (RawNode::Negative(a), RawNode::Negative(b)) => same(a, b),
        (RawNode::Inverse(a), RawNode::Inverse(b)) => same(a, b),
        (RawNode::Infix(op, a, b), RawNode::Infix(sign, c, d)) => {
            op == sign && same(a, c) && same(b, d)
        }
        (RawNode::Pair(a, b), RawNode::Pair(c, d)) => same(a, c) && same(b, d),
        (RawNode::Composition(a, b), RawNode::Composition(c, d)) => same(a, c) && same(b, d),
        (RawNode::Apply(a, b), RawNode::Apply(c, d)) => same(a, c) && same(b, d),
        (RawNode::Image(a, b), RawNode::Image(c, d)) => same(a, c) && same(b, d),
        _ => false,
    }
}

// The term at the front of the text, and the place of the token after it.
fn read(alloc: Global, text: &str) -> Result<Box<(RawTerm, usize)>, SynFault> {
    read_from(alloc, text, 0)
}

// The same from the token of this number on.
fn read_from(alloc: Global, text: &str, from: usize) -> Result<Box<(RawTerm, usize)>, SynFault> {
    match tokens(alloc, text.as_bytes()) {
        Ok(found) => Ok(Box::new(alloc, term(alloc, &found, from)?)?),
        Err(_) => Err(SynFault::Memory),
    }
}

// Whether the text is read, up to this token, as the other text is.
fn reads_as(alloc: Global, text: &str, end: usize, other: &str) -> bool {
    let Ok(found) = read(alloc, text) else {
        return false;
    };
    let Ok(wanted) = read(alloc, other) else {
        return false;
    };
    found.1 == end && same(&found.0, &wanted.0)
}

// A text, the token after the term that it begins with, and a text of the same term.
const ASSOCIATED: [(&str, usize, &str); 12] = [
    ("a - b - c", 5, "(a - b) - c"),
    ("a |-> b |-> c", 5, "(a |-> b) |-> c"),
    (
        "p = 1 & q = 1 or r = 1",
        11,
        "((p = 1) & (q = 1)) or (r = 1)",
    ),
    ("p = 1 <=> q = 1 & r = 1", 7, "(p = 1) <=> (q = 1)"),
    ("p <=> q <=> r", 3, "(p) <=> (q)"),
    ("a => b => c", 5, "(a => b) => c"),
    ("a = b = c", 3, "(a) = (b)"),
    ("a .. b .. c", 3, "(a) .. (b)"),
    ("a ** b ** c * d", 7, "(a ** (b ** c)) * d"),
    ("a + b * c - d", 7, "(a + (b * c)) - d"),
    ("-a ** b", 4, "(-a) ** b"),
    ("a - 5 - -5", 6, "(a - (5)) - (-5)"),
];

const LONGEST: [(&str, usize, &str); 11] = [
    ("a<-b", 3, "a <- b"),
    ("a->b", 3, "a -> b"),
    ("a<--b", 1, "a"),
    ("a^b^", 3, "a ^ b"),
    ("a -> seq", 1, "a"),
    ("a + b * ", 3, "a + b"),
    ("a ** b ** (", 3, "a ** b"),
    ("f(a ; b)", 1, "f"),
    ("f(a", 1, "f"),
    ("f[a]~(b", 5, "(f[a])~"),
    ("a , b", 1, "a"),
];

const BRACKETED: [(&str, usize, &str); 7] = [
    ("((a))", 5, "a"),
    ("f(a, b)", 6, "f((a, b))"),
    ("f(a, b, c)", 8, "f(((a, b), c))"),
    ("(a, b, c)", 7, "((a, b), c)"),
    ("(a ; b ; c)", 7, "((a ; b) ; c)"),
    ("f~[s](x)", 8, "((f~)[s])(x)"),
    ("-f(x)", 5, "-(f(x))"),
];

fn compare(rt: &impl Abort, alloc: Global, rows: &[(&str, usize, &str)]) {
    for (text, end, other) in rows {
        assert!(rt; reads_as(alloc, text, *end, other), "{text}");
    }
}

#[test]
fn operators_associate(rt: HostRuntime) {
    compare(&rt, rt.alloc(), &ASSOCIATED);
}

#[test]
fn the_longest_is_read(rt: HostRuntime) {
    compare(&rt, rt.alloc(), &LONGEST);
}

#[test]
fn brackets_are_read(rt: HostRuntime) {
    compare(&rt, rt.alloc(), &BRACKETED);
}

// ---- operators and words

// Whether the text is three tokens, of which the one in the middle is this operator.
fn is_infix(alloc: Global, text: &str, wanted: InfixOp) -> bool {
    match read(alloc, text) {
        Ok(found) => {
            found.1 == 3 && matches!(&found.0.node, RawNode::Infix(op, _, _) if *op == wanted)
        }
        Err(_) => false,
    }
}

// Compares operators between two names.
fn compare_operators(
    rt: &impl Abort,
    alloc: Global,
    operators: &[(&str, InfixOp)],
) -> Result<(), Fail> {
    for (sign, op) in operators {
        let text = format!(in alloc; "a {sign} b")?;
        assert!(rt; is_infix(alloc, &text, *op), "{sign}");
    }
    Ok(())
}

fn compare_levels(rt: &impl Abort, alloc: Global, levels: &[Level]) -> Result<(), Fail> {
    for (_, _, _, operators) in levels {
        compare_operators(rt, alloc, operators)?;
    }
    Ok(())
}

#[test]
fn each_operator_is_read(rt: HostRuntime) -> Result<(), Fail> {
    compare_levels(&rt, rt.alloc(), &LEVELS)
}

// Whether the text is four tokens, of which the first is this word before a term.
fn is_worded(alloc: Global, text: &str, wanted: WordOp) -> bool {
    match read(alloc, text) {
        Ok(found) => found.1 == 4 && matches!(&found.0.node, RawNode::Word(op, _) if *op == wanted),
        Err(_) => false,
    }
}

// Whether the word is this term by itself.
fn is_constant(alloc: Global, text: &str, wanted: Constant) -> bool {
    match read(alloc, text) {
        Ok(found) => {
            found.1 == 1 && matches!(&found.0.node, RawNode::Constant(word) if *word == wanted)
        }
        Err(_) => false,
    }
}

// Compares words before a name in parentheses.
fn compare_words(rt: &impl Abort, alloc: Global, words: &[(&str, WordOp)]) -> Result<(), Fail> {
    for (word, op) in words {
        let text = format!(in alloc; "{word}(a)")?;
        assert!(rt; is_worded(alloc, &text, *op), "{word}");
    }
    Ok(())
}

fn compare_constants(rt: &impl Abort, alloc: Global, words: &[(&str, Constant)]) {
    for (word, constant) in words {
        assert!(rt; is_constant(alloc, word, *constant), "{word}");
    }
}

#[test]
fn each_word_is_read(rt: HostRuntime) -> Result<(), Fail> {
    compare_constants(&rt, rt.alloc(), &CONSTANTS);
    compare_words(&rt, rt.alloc(), &WORD_OPERATORS)
}

// ---- signs of sequences beside other operators

// A text of two operators between names with the left one in parentheses, or else the right one.
fn grouped(alloc: Global, one: &str, other: &str, is_left: bool) -> Result<String, AllocError> {
    if is_left {
        return format!(in alloc; "(a {one} b) {other} c");
    }
    format!(in alloc; "a {one} (b {other} c)")
}

fn compare_grouped(
    rt: &impl Abort,
    alloc: Global,
    one: &str,
    other: &str,
    is_left: bool,
) -> Result<(), Fail> {
    let text = format!(in alloc; "a {one} b {other} c")?;
    let wanted = grouped(alloc, one, other, is_left)?;
    assert!(rt; reads_as(alloc, &text, 5, &wanted), "{text}");
    Ok(())
}

// Before an operator that binds as tightly or looser the sign is read first, and after one that binds looser.
fn compare_beside(
    rt: &impl Abort,
    alloc: Global,
    sign: &str,
    levels: &[Level],
) -> Result<(), Fail> {
    for (level, _, _, operators) in levels {
        for (other, _) in *operators {
            compare_grouped(rt, alloc, sign, other, *level <= 5)?;
            compare_grouped(rt, alloc, other, sign, *level >= 5)?;
        }
    }
    Ok(())
}

#[test]
fn signs_of_sequences_bind_as_maplets(rt: HostRuntime) -> Result<(), Fail> {
    for sign in SEQUENCE_SIGNS {
        compare_beside(&rt, rt.alloc(), sign, &LEVELS)?;
    }
    Ok(())
}

// ---- sets, quantifiers and what is printed

// What a term is, and how many parts it lists.
fn kind(term: &RawTerm) -> (&'static str, usize) {
    match &term.node {
        RawNode::Name(_) => ("name", 0),
        RawNode::LevelName(_, level) => ("level name", *level as usize),
        RawNode::BoundName(number) => ("bound name", *number as usize),
        RawNode::EmptySet => ("empty set", 0),
        RawNode::Extension(terms) => ("extension", terms.len()),
        RawNode::Comprehension(names, _) => ("comprehension", names.len()),
        RawNode::Lambda(names, _, _) => ("lambda", names.len()),
        RawNode::ForAll(names, _) => ("for all", names.len()),
        RawNode::Exists(names, _) => ("exists", names.len()),
        RawNode::TypedEmpty(_) => ("typed empty set", 0),
        RawNode::TypedForAll(bounds, _) => ("typed for all", bounds.len()),
        RawNode::TypedExists(bounds, _) => ("typed exists", bounds.len()),
        RawNode::RangedComprehension(ranges, _) => ("ranged comprehension", ranges.len()),
        RawNode::RangedLambda(ranges, _, _) => ("ranged lambda", ranges.len()),
        _ => ("other", 0),
    }
}

// Whether the text is read, up to this token, as a term of this kind.
fn is_kind(alloc: Global, text: &str, end: usize, name: &str, count: usize) -> bool {
    let Ok(found) = read(alloc, text) else {
        return false;
    };
    let (kind, listed) = kind(&found.0);
    found.1 == end && kind.as_bytes() == name.as_bytes() && listed == count
}

// A text, the token after the term that it begins with, what this is, and how many parts it lists.
const SETS_AND_QUANTIFIERS: [(&str, usize, &str, usize); 12] = [
    ("{}", 2, "empty set", 0),
    ("{a}", 3, "extension", 1),
    ("{a, b, c}", 7, "extension", 3),
    ("{a | a = 1}", 7, "comprehension", 1),
    ("{x, y | x = y}", 9, "comprehension", 2),
    ("{{x | x = 1}, a}", 11, "extension", 2),
    ("%x.(x = 1 | x)", 10, "lambda", 1),
    ("%(x, y).(x = y | x)", 14, "lambda", 2),
    ("!x.(x = x)", 8, "for all", 1),
    ("!(x, y).(x = y)", 12, "for all", 2),
    ("#x.(x = x)", 8, "exists", 1),
    ("#(x).(x = x)", 10, "exists", 1),
];

const PRINTED: [(&str, usize, &str, usize); 8] = [
    ("n$7", 1, "level name", 7),
    ("$3", 1, "bound name", 3),
    ("{:T}", 4, "typed empty set", 0),
    ("{:POW((INTEGER * BOOL))}", 11, "typed empty set", 0),
    ("!($1:T,$2:U).($1 = $2)", 16, "typed for all", 2),
    ("#($1:INTEGER).($1 = 1)", 12, "typed exists", 1),
    ("{$1:d | $1 = 1}", 9, "ranged comprehension", 1),
    ("%($1:d,$2:(e)).($1 = $2 | $1)", 20, "ranged lambda", 2),
];

fn compare_kinds(rt: &impl Abort, alloc: Global, rows: &[(&str, usize, &str, usize)]) {
    for (text, end, name, count) in rows {
        assert!(rt; is_kind(alloc, text, *end, name, *count), "{text}");
    }
}

#[test]
fn each_set_and_quantifier_is_read(rt: HostRuntime) {
    compare_kinds(&rt, rt.alloc(), &SETS_AND_QUANTIFIERS);
}

#[test]
fn each_printed_form_is_read(rt: HostRuntime) {
    compare_kinds(&rt, rt.alloc(), &PRINTED);
}

// Whether this is the text's fault.
fn fails(alloc: Global, text: &str, wanted: SynFault) -> bool {
    match read(alloc, text) {
        Ok(_) => false,
        Err(fault) => fault == wanted,
    }
}

// Texts that no term is read from.
const UNWRITTEN: [&str; 9] = [
    "",
    "--5",
    "(a ; b, c)",
    "{(x) | x = 1}",
    "dom(a, b)",
    "dom",
    "(a",
    ", a",
    "!(x, y) x",
];

fn refuse(rt: &impl Abort, alloc: Global, texts: &[&str]) {
    for text in texts {
        assert!(rt; fails(alloc, text, SynFault::At(0)), "{text}");
    }
}

#[test]
fn nothing_is_read(rt: HostRuntime) {
    refuse(&rt, rt.alloc(), &UNWRITTEN);
}

// What stands after a word from which no term is read.
const AFTER_WORDS: [&str; 5] = ["", " a", "()", "(a, b)", "(a"];

fn refuse_after(rt: &impl Abort, alloc: Global, word: &str, rows: &[&str]) -> Result<(), Fail> {
    for after in rows {
        let text = format!(in alloc; "{word}{after}")?;
        assert!(rt; fails(alloc, &text, SynFault::At(0)), "{text}");
    }
    Ok(())
}

fn refuse_words(rt: &impl Abort, alloc: Global, words: &[(&str, WordOp)]) -> Result<(), Fail> {
    for (word, _) in words {
        refuse_after(rt, alloc, word, &AFTER_WORDS)?;
    }
    Ok(())
}

#[test]
fn words_take_one_term(rt: HostRuntime) -> Result<(), Fail> {
    refuse_words(&rt, rt.alloc(), &WORD_OPERATORS)
}

// Whether the third token starts a pair up to the tenth, and the pair and its two parts start at these bytes.
fn is_pair_at(alloc: Global, text: &str, wanted: [usize; 3]) -> bool {
    let Ok(found) = read_from(alloc, text, 2) else {
        return false;
    };
    match &found.0.node {
        RawNode::Pair(left, right) => { found.1 == 9 && [found.0.at, left.at, right.at] == wanted }
        _ => false,
    }
}

#[test]
fn places_are_those_of_first_tokens(rt: HostRuntime) {
    assert!(rt; is_pair_at(rt.alloc(), "x := (a + b, c)", [5, 6, 13]));
}

// ---- limits

// So many times this piece before a name.
fn before_a_name(alloc: Global, piece: &str, count: usize) -> Result<String, AllocError> {
    let pieces = piece.repeat(alloc, count)?;
    format!(in alloc; "{pieces}a")
}

// A piece, how many times it stands before a name, and the fault then.
const TOO_MANY: [(&str, usize, SynFault); 5] = [
    ("a + ", 1001, SynFault::High),
    ("a ** ", 50000, SynFault::High),
    ("(", 401, SynFault::Depth(400)),
    ("(", 400, SynFault::At(0)),
    ("IF ", 401, SynFault::Depth(400)),
];

fn compare_faults(
    rt: &impl Abort,
    alloc: Global,
    rows: &[(&str, usize, SynFault)],
) -> Result<(), Fail> {
    for (piece, count, fault) in rows {
        let text = before_a_name(alloc, piece, *count)?;
        assert!(rt; fails(alloc, &text, *fault), "{count} times {piece}");
    }
    Ok(())
}

#[test]
fn high_and_deep_terms_are_refused(rt: HostRuntime) -> Result<(), Fail> {
    compare_faults(&rt, rt.alloc(), &TOO_MANY)
}

#[test]
fn lower_terms_are_read(rt: HostRuntime) -> Result<(), Fail> {
    let text = before_a_name(rt.alloc(), "a + ", 999)?;
    assert!(rt; read(rt.alloc(), &text).is_ok());
    Ok(())
}
