//! Faults of the spelling of texts.

use crate::say::{
    clause_before, is_clause, is_one_of, say, say_line, say_place, say_quoted, token_at, tokens_of,
    word_at, written,
};
use crate::source::{Source, SourceKind};
use bk_form::{Token, TokenKind};
use bk_grammar::{COMPONENT, Furthest, PROOF_FILE, Reading, Symbol, furthest_reading, part_words};
use bk_io::Memory;
use bk_lex::{LexFault, tokens};
use std::alloc::Global;

/// Bytes that are no text, or no tokens.
pub(crate) fn say_lexical_fault(
    alloc: Global,
    words: &mut Vec<u8>,
    source: Source<'_>,
) -> Result<(), Memory> {
    match tokens(alloc, source.text) {
        Err(LexFault::NotUtf8(_)) => say(
            words,
            "this byte belongs to no character of UTF-8: save the text as UTF-8\n",
        ),
        Err(LexFault::BadChar(_)) => say(words, "no token begins with this character\n"),
        Err(LexFault::OpenComment(_)) => say(words, "this comment does not end: */ is missing\n"),
        Err(LexFault::NumberTooWide(_)) => say(words, "this number is greater than 2^127 - 1\n"),
        Err(LexFault::Memory) => Err(Memory),
        _ => say(words, "save the text as UTF-8\n"),
    }
}

/// A text that is no component, or no file of scripts.
pub(crate) fn say_syntax_fault(
    alloc: Global,
    words: &mut Vec<u8>,
    source: Source<'_>,
    place: usize,
) -> Result<(), Memory> {
    let list = tokens_of(alloc, source.text)?;
    let start = if source.kind == SourceKind::Proofs {
        PROOF_FILE
    } else {
        COMPONENT
    };
    match furthest_reading(alloc, source.text, &list, start)? {
        Reading::Stops(furthest) => say_furthest(words, source, &list, &furthest, place),
        Reading::Whole => say_whole(words, source, &list, place),
        Reading::TooLong => say(
            words,
            "the clause, operation, conjunct or rule that begins there cannot be read; the text is too long to tell the token\n",
        ),
    }
}

// Nothing is wanting but how operators bind, what LET asks, that a clause stands once, or that a name has one type.
fn say_whole(
    words: &mut Vec<u8>,
    source: Source<'_>,
    list: &[Token],
    place: usize,
) -> Result<(), Memory> {
    let Some(index) = token_at(list, place) else {
        return say_binding(words);
    };
    if source.kind == SourceKind::Proofs {
        if word_at(source.text, list, index.saturating_add(1)) == b":".as_slice() {
            return say(
                words,
                "this script gives the name two types, by fix or open\n",
            );
        }
        return say_binding(words);
    }
    match same_clause(source.text, list, index) {
        Some(at) => {
            say_quoted(words, word_at(source.text, list, index))?;
            say(
                words,
                " begins a clause that is allowed only once; it begins first at ",
            )?;
            say_place(words, source, at)?;
            say(words, "\n")
        }
        None => say_binding(words),
    }
}

// Where the clause that begins at a token stands before it. INVARIANT stands in loops too.
fn same_clause(text: &[u8], list: &[Token], index: usize) -> Option<usize> {
    let word = clause_word(word_at(text, list, index));
    if !is_clause(word) || word == b"INVARIANT".as_slice() {
        return None;
    }
    for (number, token) in list.iter().enumerate() {
        if number < index && clause_word(written(text, token)) == word {
            return Some(token.start);
        }
    }
    None
}

// The one word of a clause that two words begin.
fn clause_word(word: &[u8]) -> &[u8] {
    match word {
        b"CONCRETE_CONSTANTS" => b"CONSTANTS",
        b"ABSTRACT_VARIABLES" => b"VARIABLES",
        _ => word,
    }
}

// How operators bind.
fn say_binding(words: &mut Vec<u8>) -> Result<(), Memory> {
    say(
        words,
        "each part is correct by itself, but parentheses are missing: a side of <=> that is made by &, or, => or <=> needs them, and so does a side of a comparison or of .. that is made by another one; or LET has not exactly one conjunct x = E for each name\n",
    )
}

// The furthest token that any reading reaches.
fn say_furthest(
    words: &mut Vec<u8>,
    source: Source<'_>,
    list: &[Token],
    furthest: &Furthest,
    place: usize,
) -> Result<(), Memory> {
    let token = list.get(furthest.token);
    let at = match token {
        Some(token) => token.start,
        None => source.text.len(),
    };
    say(words, "what begins there cannot be read")?;
    if at != place {
        say(words, ". The text is correct up to\n")?;
        say_line(words, source, at)?;
    } else {
        say(words, "\n")?;
    }
    match token {
        Some(token) => say_token(words, source, list, token, furthest)?,
        None => say(words, "here the text ends too early")?,
    }
    say_wanted(words, furthest)?;
    say_semicolon(words, source, list, furthest)
}

// What a token is that cannot stand there.
fn say_token(
    words: &mut Vec<u8>,
    source: Source<'_>,
    list: &[Token],
    token: &Token,
    furthest: &Furthest,
) -> Result<(), Memory> {
    let text = written(source.text, token);
    say_quoted(words, text)?;
    if let Some(hint) = hint_of(text) {
        return say(words, hint);
    }
    if source.kind.is_component() && is_addition(token, text) {
        return say(words, " is allowed only in printed formulas and in scripts");
    }
    if let Some(hint) = hint_of_clause(text, furthest) {
        return say(words, hint);
    }
    if source.kind.is_component() {
        if let Some(hint) = hint_of_place(source.text, list, text, furthest) {
            return say(words, hint);
        }
    }
    if is_small_word(token, text) && is_name_wanted(furthest) {
        return say(words, " is a reserved word and cannot be a name");
    }
    say(words, " is not expected here")
}

// Whether a token is one of those that printed formulas have and components have not.
fn is_addition(token: &Token, text: &[u8]) -> bool {
    match token.kind {
        TokenKind::LevelName(_, _) | TokenKind::BoundName(_) => true,
        _ => is_one_of(text, &["btrue", "bfalse"]),
    }
}

// What is said of a clause that components of the kind do not have.
fn hint_of_clause(text: &[u8], furthest: &Furthest) -> Option<&'static str> {
    if is_wanted(furthest, b"<clause>") || is_wanted(furthest, b"<clauses>") {
        if text == b"VALUES".as_slice() {
            return Some(" is a clause of implementations only");
        }
    }
    if is_wanted(furthest, b"<lowest-clause>") || is_wanted(furthest, b"<lowest-clauses>") {
        if is_one_of(text, &["VARIABLES", "ABSTRACT_VARIABLES"]) {
            return Some(
                " is not a clause of an implementation: its variables are declared in CONCRETE_VARIABLES",
            );
        }
    }
    None
}

// What is said of a token by the place where it stands: of notation that other tools read there.
fn hint_of_place(
    text: &[u8],
    list: &[Token],
    token: &[u8],
    furthest: &Furthest,
) -> Option<&'static str> {
    if furthest.token == 2 && token == b"(".as_slice() {
        return Some(" is not read here: a machine has no parameters");
    }
    if token == b"<--".as_slice() {
        return Some(" is not read here: a component calls no operations");
    }
    if is_of_sequences(text, list, token, furthest.token) {
        return Some(" is not read: there are no sequences");
    }
    if is_set_alone(text, list, furthest) {
        return Some(" is not expected here: the elements of a set are listed, as in S = {a, b}");
    }
    None
}

// Whether a token belongs to the notation of sequences: a sign, a bracket that begins a term, or a word before a parenthesis.
fn is_of_sequences(text: &[u8], list: &[Token], token: &[u8], index: usize) -> bool {
    if is_one_of(token, &["^", "->", "<-", "["]) {
        return true;
    }
    is_one_of(
        token,
        &["seq", "size", "first", "last", "front", "tail", "rev"],
    ) && word_at(text, list, index.saturating_add(1)) == b"(".as_slice()
}

// Whether the name of a set stands before the token, and its elements could.
fn is_set_alone(text: &[u8], list: &[Token], furthest: &Furthest) -> bool {
    clause_before(text, list, furthest.token) == b"SETS".as_slice() && waits_for_equal(furthest)
}

// Whether `=` alone could stand there.
fn waits_for_equal(furthest: &Furthest) -> bool {
    for symbol in &furthest.wanted {
        if !symbol.equal(&Symbol::Text(b"=")) {
            return false;
        }
    }
    !furthest.wanted.is_empty()
}

// Whether a part could stand there.
fn is_wanted(furthest: &Furthest, part: &[u8]) -> bool {
    for symbol in &furthest.wanted {
        if symbol.is_part(part) {
            return true;
        }
    }
    false
}

// Whether a name could stand there.
fn is_name_wanted(furthest: &Furthest) -> bool {
    for symbol in &furthest.wanted {
        if may_begin_with_name(*symbol) {
            return true;
        }
    }
    false
}

// Whether a token is a reserved word in small letters.
fn is_small_word(token: &Token, text: &[u8]) -> bool {
    match token.kind {
        TokenKind::Word(_) => match text.first() {
            Some(first) => first.is_ascii_lowercase(),
            None => false,
        },
        _ => false,
    }
}

// Whether what is waited for may begin with a name.
fn may_begin_with_name(symbol: Symbol) -> bool {
    match symbol {
        Symbol::Name => true,
        Symbol::Part(part) => begins_with_name(part),
        _ => false,
    }
}

// Whether a part may begin with a name.
fn begins_with_name(part: &[u8]) -> bool {
    is_one_of(
        part,
        &[
            "<names>",
            "<sets>",
            "<set>",
            "<assertions>",
            "<values>",
            "<value>",
            "<operations>",
            "<operation>",
            "<header>",
            "<body>",
            "<substitution>",
            "<statement>",
            "<condition>",
            "<choices>",
            "<guards>",
            "<terms>",
            "<term>",
            "<operand>",
            "<primary>",
            "<chain>",
            "<binder>",
            "<type>",
            "<typed>",
            "<instance>",
        ],
    )
}

// What could stand there.
fn say_wanted(words: &mut Vec<u8>, furthest: &Furthest) -> Result<(), Memory> {
    if furthest.wanted.is_empty() {
        return say(words, "; the text should end before it\n");
    }
    say(words, "; expected: ")?;
    for (index, symbol) in furthest.wanted.iter().enumerate() {
        if !is_said(&furthest.wanted, index, *symbol) {
            if index > 0 {
                say(words, ", ")?;
            }
            say_symbol(words, *symbol)?;
        }
    }
    say(words, "\n")
}

// Whether one of the first symbols has the same words.
fn is_said(symbols: &[Symbol], count: usize, symbol: Symbol) -> bool {
    for (index, other) in symbols.iter().enumerate() {
        if index < count && has_same_words(*other, symbol) {
            return true;
        }
    }
    false
}

fn has_same_words(one: Symbol, other: Symbol) -> bool {
    match (one, other) {
        (Symbol::Part(part), Symbol::Part(second)) => part_words(part) == part_words(second),
        _ => false,
    }
}

fn say_symbol(words: &mut Vec<u8>, symbol: Symbol) -> Result<(), Memory> {
    match symbol {
        Symbol::Text(text) => say_quoted(words, text),
        Symbol::Name => say(words, "a name"),
        Symbol::Number => say(words, "a number"),
        Symbol::LevelName => say(words, "a name with its level"),
        Symbol::OldName => say(words, "the old value of a variable"),
        Symbol::BoundName => say(words, "a bound variable"),
        Symbol::Reserved => say(words, "a reserved word"),
        Symbol::Part(part) => {
            words.extend_from_slice(part_words(part))?;
            Ok(())
        }
    }
}

// A semicolon before what ends a list, or one that is meant for the list of a body.
fn say_semicolon(
    words: &mut Vec<u8>,
    source: Source<'_>,
    list: &[Token],
    furthest: &Furthest,
) -> Result<(), Memory> {
    let before = furthest.token.saturating_sub(1);
    if word_at(source.text, list, before) != b";".as_slice() {
        return Ok(());
    }
    if ends_list(word_at(source.text, list, furthest.token)) {
        return say(
            words,
            "a semicolon separates two parts; there is none before the end\n",
        );
    }
    if is_wanted(furthest, b"<operation>") {
        return say(
            words,
            "a semicolon separates operations here: put a sequence of substitutions between BEGIN and END\n",
        );
    }
    Ok(())
}

fn ends_list(text: &[u8]) -> bool {
    is_one_of(
        text,
        &["END", "end", "ELSE", "ELSIF", "WHEN", "OR", "INVARIANT"],
    )
}

// What is said of a word that other tools read, or that is often meant for another one.
fn hint_of(text: &[u8]) -> Option<&'static str> {
    if is_one_of(
        text,
        &[
            "SEES",
            "USES",
            "INCLUDES",
            "EXTENDS",
            "PROMOTES",
            "IMPORTS",
            "LOCAL_OPERATIONS",
        ],
    ) {
        return Some(" is not read: a development stands alone");
    }
    if is_other_notation(text) {
        return Some(" is not read");
    }
    hint_of_word(text)
}

// What is said of a word that is meant for another one.
fn hint_of_word(text: &[u8]) -> Option<&'static str> {
    match text {
        b"CONSTRAINTS" => Some(" is not read: a machine has no parameters"),
        b"DEFINITIONS" => { Some(" is not read: write each definition out where it is used") }
        b"ABSTRACT_CONSTANTS" => Some(
            " is not read: constants are numbers, truth values or elements, declared in CONSTANTS",
        ),
        b"CASE" => Some(" is not read: write it as IF and ELSIF, or as SELECT"),
        b"ELSEIF" => Some(" is not a keyword: a further branch of IF begins with ELSIF"),
        _ => None,
    }
}

// Whether a word is one of notation that other tools read.
fn is_other_notation(text: &[u8]) -> bool {
    is_one_of(
        text,
        &[
            "SIGMA", "PI", "UNION", "INTER", "union", "inter", "iterate", "closure", "EITHER", "OF",
        ],
    )
}
