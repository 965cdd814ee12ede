//! Faults of names and types.

use crate::say::{
    clause_before, is_clause, is_one_of, say, say_place, say_quoted, token_at, tokens_of, word_at,
    written,
};
use crate::source::{Source, SourceKind};
use bk_form::{Token, TokenKind};
use bk_io::Memory;
use bk_reasons::nearest;
use std::alloc::Global;

/// A name that stands twice or is not in sight, a formula without a type or of the wrong kind.
pub(crate) fn say_name_fault(
    alloc: Global,
    words: &mut Vec<u8>,
    sources: &[Source<'_>],
    source: Source<'_>,
    number: u8,
    place: usize,
) -> Result<(), Memory> {
    let list = tokens_of(alloc, source.text)?;
    let Some(index) = token_at(&list, place) else {
        return Ok(());
    };
    match number {
        6 => say_twice(alloc, words, sources, source, &list, index),
        7 => say_unknown(alloc, words, source, &list, index),
        8 => say_untyped(words, source, &list, index),
        _ => say_kind(words, source, &list, index),
    }
}

// A name that stands twice.
fn say_twice(
    alloc: Global,
    words: &mut Vec<u8>,
    sources: &[Source<'_>],
    source: Source<'_>,
    list: &[Token],
    index: usize,
) -> Result<(), Memory> {
    if source.kind == SourceKind::Proofs {
        return say(
            words,
            "another script has this name already, in this file or in one before it\n",
        );
    }
    let Some(token) = list.get(index) else {
        return Ok(());
    };
    let name = written(source.text, token);
    say_quoted(words, name)?;
    if let Some(at) = brought_before(source.text, list, index) {
        say(words, " is declared twice; it is declared first at ")?;
        say_place(words, source, at)?;
        return say(words, "\n");
    }
    say(words, " is declared already")?;
    if let Some((above, at)) = declared_above(alloc, sources, source, name)? {
        say(words, ", at ")?;
        say_place(words, above, at)?;
    }
    say(words, "\n")
}

// Where the name of a token is declared before it; of a name that a header or a binder brings, the nearest place where it is brought.
fn brought_before(text: &[u8], list: &[Token], index: usize) -> Option<usize> {
    let name = word_at(text, list, index);
    let of_component = is_declared(text, list, index);
    for back in 0..index {
        let place = index - 1 - back;
        if word_at(text, list, place) == name && stands_first(text, list, place, of_component) {
            return start_of(list, place);
        }
    }
    None
}

// Whether a name is declared where a token stands, or is brought there.
fn stands_first(text: &[u8], list: &[Token], index: usize, of_component: bool) -> bool {
    if of_component {
        is_declared(text, list, index)
    } else {
        is_brought(text, list, index)
    }
}

// The byte at which a token starts.
fn start_of(list: &[Token], index: usize) -> Option<usize> {
    match list.get(index) {
        Some(token) => Some(token.start),
        None => None,
    }
}

// Whether a name is brought where a token stands: declared, given to an operation, or bound.
fn is_brought(text: &[u8], list: &[Token], index: usize) -> bool {
    is_declared(text, list, index)
        || (place_of_type(text, list, index).is_some() && !is_assigned(text, list, index))
}

// Whether a component declares a name where a token stands: its own, a set, an element, a constant, a variable or an operation.
fn is_declared(text: &[u8], list: &[Token], index: usize) -> bool {
    is_one_of(
        clause_before(text, list, index),
        &[
            "SETS",
            "CONSTANTS",
            "CONCRETE_CONSTANTS",
            "VARIABLES",
            "ABSTRACT_VARIABLES",
            "CONCRETE_VARIABLES",
        ],
    ) || names_operation(text, list, index)
        || is_one_of(
            word_before(text, list, index),
            &["MACHINE", "REFINEMENT", "IMPLEMENTATION"],
        )
}

// Whether an operation is named by a token: `=` stands after it, or after what is given to it.
fn names_operation(text: &[u8], list: &[Token], index: usize) -> bool {
    if !is_one_of(word_before(text, list, index), &["OPERATIONS", ";", "<--"]) {
        return false;
    }
    let behind = index.saturating_add(1);
    match word_at(text, list, behind) {
        b"=" => true,
        b"(" => closes_header(text, list, behind),
        _ => false,
    }
}

// Whether `=` stands after the first parenthesis that closes after a token.
fn closes_header(text: &[u8], list: &[Token], open: usize) -> bool {
    for place in open..list.len() {
        if word_at(text, list, place) == b")".as_slice() {
            return word_at(text, list, place.saturating_add(1)) == b"=".as_slice();
        }
    }
    false
}

// Whether the names of the list that a token stands in are written to.
fn is_assigned(text: &[u8], list: &[Token], index: usize) -> bool {
    for place in index..list.len() {
        let behind = word_at(text, list, place.saturating_add(1));
        if is_one_of(behind, &[":=", "::", ":"]) {
            return true;
        }
        if behind != b",".as_slice() && word_at(text, list, place) != b",".as_slice() {
            return false;
        }
    }
    false
}

// Where a component before this one declares the name.
fn declared_above<'a>(
    alloc: Global,
    sources: &[Source<'a>],
    source: Source<'_>,
    name: &[u8],
) -> Result<Option<(Source<'a>, usize)>, Memory> {
    for above in sources {
        if above.name == source.name {
            return Ok(None);
        }
        if above.kind.is_component() {
            let list = tokens_of(alloc, above.text)?;
            if let Some(at) = declared_at(above.text, &list, name) {
                return Ok(Some((*above, at)));
            }
        }
    }
    Ok(None)
}

// Where a text declares a name.
fn declared_at(text: &[u8], list: &[Token], name: &[u8]) -> Option<usize> {
    for index in 0..list.len() {
        if word_at(text, list, index) == name && is_declared(text, list, index) {
            return start_of(list, index);
        }
    }
    None
}

// A name that is not in sight.
fn say_unknown(
    alloc: Global,
    words: &mut Vec<u8>,
    source: Source<'_>,
    list: &[Token],
    index: usize,
) -> Result<(), Memory> {
    let Some(token) = list.get(index) else {
        return Ok(());
    };
    let name = written(source.text, token);
    say_quoted(words, name)?;
    if let TokenKind::LevelName(_, _) = &token.kind {
        return say(
            words,
            " is the old value of a variable: it is allowed only in P of x :(P)\n",
        );
    }
    say(words, " is not visible here")?;
    let names = other_names(alloc, source, list, name)?;
    if let Some(place) = nearest(alloc, name, &names)? {
        if let Some(near) = names.get(place) {
            say(words, "; the nearest name is ")?;
            say_quoted(words, *near)?;
        }
    }
    say(words, "\n")
}

// The other names of a text, but for those of components.
fn other_names<'a>(
    alloc: Global,
    source: Source<'a>,
    list: &[Token],
    name: &[u8],
) -> Result<Vec<&'a [u8]>, Memory> {
    let mut names: Vec<&'a [u8]> = Vec::new(alloc);
    let mut before: &'a [u8] = b"";
    for token in list {
        let text = written(source.text, token);
        let is_name = matches!(token.kind, TokenKind::Name(_)) && !names_component(before);
        if is_name && text != name && !names.contains(&text) {
            names.push(text)?;
        }
        before = text;
    }
    Ok(names)
}

// Whether the name of a component stands after a word.
fn names_component(word: &[u8]) -> bool {
    matches!(
        word,
        b"MACHINE" | b"REFINEMENT" | b"IMPLEMENTATION" | b"REFINES"
    )
}

// A name or a formula without a type.
fn say_untyped(
    words: &mut Vec<u8>,
    source: Source<'_>,
    list: &[Token],
    index: usize,
) -> Result<(), Memory> {
    let Some(token) = list.get(index) else {
        return Ok(());
    };
    let name = written(source.text, token);
    if let TokenKind::Name(_) = &token.kind {
        if let Some(place) = place_of_type(source.text, list, index) {
            return say_type_wanted(words, name, place);
        }
    }
    if name == b"NATURAL".as_slice()
        || name == b"INTEGER".as_slice()
        || name == b"NATURAL1".as_slice()
    {
        say_quoted(words, name)?;
        return say(
            words,
            " is not a value, since it is infinite: it is allowed only after : and within POW, * and the arrows\n",
        );
    }
    say(
        words,
        "this formula has no type, or not the one that is needed here: both sides of = and of an operator on sets have one type, the operands of + - * < <= are numbers, and {} has the type that its context gives\n",
    )
}

// How a name gets its type.
#[derive(Clone, Copy)]
enum TypePlace {
    /// By a conjunct that is to be added there.
    Conjunct(&'static str),
    /// By a term that is written to it.
    Assignment,
}

fn say_type_wanted(words: &mut Vec<u8>, name: &[u8], place: TypePlace) -> Result<(), Memory> {
    say_quoted(words, name)?;
    match place {
        TypePlace::Conjunct(place) => {
            say(words, " has no type: add `")?;
            words.extend_from_slice(name)?;
            say(words, " : SET`")?;
            say(words, place)
        }
        TypePlace::Assignment => say(
            words,
            " has no type: it takes the type of the first term that is assigned to it, and there is none\n",
        ),
    }
}

// Where the type of a name that is declared there is to be told; None of a name that is used.
fn place_of_type(text: &[u8], list: &[Token], index: usize) -> Option<TypePlace> {
    let clause = clause_before(text, list, index);
    if is_one_of(clause, &["CONSTANTS", "CONCRETE_CONSTANTS"]) {
        return Some(TypePlace::Conjunct(" to PROPERTIES\n"));
    }
    if is_one_of(
        clause,
        &["VARIABLES", "ABSTRACT_VARIABLES", "CONCRETE_VARIABLES"],
    ) {
        return Some(TypePlace::Conjunct(" to INVARIANT\n"));
    }
    let first = first_of_list(text, list, index);
    match word_before(text, list, first) {
        b"(" => place_in_parentheses(text, list, first.saturating_sub(1)),
        before => place_behind(before),
    }
}

// Of names in parentheses, of which this is the first.
fn place_in_parentheses(text: &[u8], list: &[Token], open: usize) -> Option<TypePlace> {
    let word = word_before(text, list, open);
    if is_one_of(word, &["!", "#", "%"]) {
        return place_behind(word);
    }
    let ahead = word_before(text, list, open.saturating_sub(1));
    if is_one_of(ahead, &["OPERATIONS", ";", "<--"]) && closes_header(text, list, open) {
        return Some(TypePlace::Conjunct(" to the PRE with which the machine's operation begins\n"));
    }
    None
}

// Of names after a word or a sign.
fn place_behind(word: &[u8]) -> Option<TypePlace> {
    match word {
        b"!" => Some(TypePlace::Conjunct(" before the => of the quantifier\n")),
        b"#" | b"{" | b"%" => Some(TypePlace::Conjunct(
            " as a conjunct of the predicate that it binds\n",
        )),
        b"VAR" | b"OPERATIONS" | b";" => Some(TypePlace::Assignment),
        b"ANY" => Some(TypePlace::Conjunct(" to WHERE\n")),
        _ => None,
    }
}

// The number of the first name of the list, with commas between, that a token stands in.
fn first_of_list(text: &[u8], list: &[Token], index: usize) -> usize {
    let mut first = index;
    for _ in 0..index {
        if first < 2 || word_before(text, list, first) != b",".as_slice() {
            return first;
        }
        first -= 2;
    }
    first
}

// What stands before a token.
fn word_before<'a>(text: &'a [u8], list: &[Token], index: usize) -> &'a [u8] {
    match index.checked_sub(1) {
        Some(before) => word_at(text, list, before),
        None => &[],
    }
}

// A formula of the wrong kind: what its place asks is told by what stands before it.
fn say_kind(
    words: &mut Vec<u8>,
    source: Source<'_>,
    list: &[Token],
    index: usize,
) -> Result<(), Memory> {
    let text = source.text;
    if is_strict_within(text, list, index) {
        return say(words, "neither side of <<: may contain another <<:\n");
    }
    let (open, before) = behind_parentheses(text, list, index);
    if asks_predicate(text, list, open, before) {
        say(
            words,
            "a predicate is needed here, such as n < 3 or x : S, and this is an expression; of a truth value b the predicate is b = TRUE\n",
        )
    } else {
        say(
            words,
            "an expression is needed here, and this is a predicate; bool(P) is the truth value of P\n",
        )
    }
}

// Whether a <<: begins at a token that stands within a side of another one.
fn is_strict_within(text: &[u8], list: &[Token], index: usize) -> bool {
    is_strict(text, list, index)
        && (is_right_of_strict(text, list, index) || is_left_of_strict(text, list, index))
}

// Whether the formula that begins at a token is a <<:.
fn is_strict(text: &[u8], list: &[Token], index: usize) -> bool {
    let mut open = 0usize;
    for place in index..list.len() {
        let word = word_at(text, list, place);
        if opens(word) {
            open = open.saturating_add(1);
        } else if closes(word) {
            if open == 0 {
                return false;
            }
            open -= 1;
        } else if open == 0 && (word == b"<<:".as_slice() || parts_formulas(word)) {
            return word == b"<<:".as_slice();
        }
    }
    false
}

// Whether brackets around a token stand on the right side of a <<:.
fn is_right_of_strict(text: &[u8], list: &[Token], index: usize) -> bool {
    let mut closed = 0usize;
    let mut is_side = false;
    for back in 0..index {
        let word = word_at(text, list, index - 1 - back);
        if closes(word) {
            closed = closed.saturating_add(1);
        } else if opens(word) {
            if closed == 0 {
                is_side = true;
            } else {
                closed -= 1;
            }
        } else if closed == 0 && is_side && word == b"<<:".as_slice() {
            return true;
        } else if closed == 0 && parts_formulas(word) {
            is_side = false;
        }
    }
    false
}

// Whether brackets around a token stand on the left side of a <<:.
fn is_left_of_strict(text: &[u8], list: &[Token], index: usize) -> bool {
    let mut open = 0usize;
    let mut is_side = false;
    for place in index..list.len() {
        let word = word_at(text, list, place);
        if opens(word) {
            open = open.saturating_add(1);
        } else if closes(word) {
            if open == 0 {
                is_side = true;
            } else {
                open -= 1;
            }
        } else if open == 0 && is_side && word == b"<<:".as_slice() {
            return true;
        } else if open == 0 && parts_formulas(word) {
            is_side = false;
        }
    }
    false
}

fn opens(word: &[u8]) -> bool {
    is_one_of(word, &["(", "{", "["])
}

fn closes(word: &[u8]) -> bool {
    is_one_of(word, &[")", "}", "]"])
}

// Whether another formula begins after a word.
fn parts_formulas(word: &[u8]) -> bool {
    is_one_of(
        word,
        &[
            "&", "or", "=>", "<=>", "|", ";", ",", "THEN", "DO", "WHERE", "END",
        ],
    ) || is_clause(word)
}

// How many parentheses open directly before a token, and the number of the token before these.
fn behind_parentheses(text: &[u8], list: &[Token], index: usize) -> (usize, usize) {
    let mut open = 0usize;
    for back in 0..index {
        let place = index - 1 - back;
        if word_at(text, list, place) != b"(".as_slice() {
            return (open, place);
        }
        open = open.saturating_add(1);
    }
    (open, 0)
}

// Whether a predicate is asked after a token and so many parentheses.
fn asks_predicate(text: &[u8], list: &[Token], open: usize, before: usize) -> bool {
    let behind = before.saturating_add(open).saturating_add(1);
    if is_one_of(word_at(text, list, behind), &["not", "!", "#"]) {
        return false;
    }
    match word_at(text, list, before) {
        b"bool" | b"." => open > 0,
        b":" => open > 0 && stands_behind_write(text, list, before),
        b"|" => encloses(text, list, before) == b"{".as_slice(),
        b";" => clause_before(text, list, before) == b"ASSERTIONS".as_slice(),
        word => joins_predicates(word) && (open == 0 || !is_operand(text, list, behind)),
    }
}

// Whether predicates stand after a word.
fn joins_predicates(word: &[u8]) -> bool {
    is_one_of(
        word,
        &[
            "&",
            "or",
            "=>",
            "<=>",
            "not",
            "PROPERTIES",
            "INVARIANT",
            "ASSERTIONS",
            "PRE",
            "ASSERT",
            "IF",
            "ELSIF",
            "SELECT",
            "WHEN",
            "WHERE",
            "BE",
            "WHILE",
        ],
    )
}

// The bracket that is open at a token.
fn encloses<'a>(text: &'a [u8], list: &[Token], index: usize) -> &'a [u8] {
    let mut closed = 0usize;
    for back in 0..index {
        let word = word_at(text, list, index - 1 - back);
        if closes(word) {
            closed = closed.saturating_add(1);
        } else if opens(word) {
            if closed == 0 {
                return word;
            }
            closed -= 1;
        }
    }
    &[]
}

// Whether an operator on values stands after the parenthesis that is open at a token.
fn is_operand(text: &[u8], list: &[Token], index: usize) -> bool {
    let mut open = 0usize;
    for place in index..list.len() {
        let word = word_at(text, list, place);
        if opens(word) {
            open = open.saturating_add(1);
        } else if closes(word) {
            if open == 0 {
                return joins_values(word_at(text, list, place.saturating_add(1)));
            }
            open -= 1;
        }
    }
    false
}

fn joins_values(word: &[u8]) -> bool {
    is_one_of(
        word,
        &[
            "=", "/=", "<", "<=", ">", ">=", ":", "/:", "<:", "/<:", "+", "-", "*", "/", "mod",
            "**", "..", "|->", "\\/", "/\\", "~",
        ],
    )
}

// Whether a `:` belongs to x :(P): the names before it begin a substitution.
fn stands_behind_write(text: &[u8], list: &[Token], colon: usize) -> bool {
    let first = first_of_list(text, list, colon.saturating_sub(1));
    is_one_of(
        word_before(text, list, first),
        &[
            "BEGIN",
            "THEN",
            "ELSE",
            "IN",
            "DO",
            ";",
            "||",
            "INITIALISATION",
        ],
    )
}
