//! Why a written rule means nothing at its obligation.

use crate::near::nearest;
use crate::words::Words;
use bk_elab_terms::{ElabFault, formula};
use bk_form::{Token, Ty, TyView, VarTable};
use bk_io::Memory;
use bk_law_texts::text_named;
use bk_raw::{
    RawLine, RawPlace, RawRule, RawTerm, RawType, RawTypeNode, RawTyped, RulePart, Scope,
};
use std::alloc::Global;

/// At most so many names in scope are told.
const MOST_NAMES: usize = 24;

/// A text and its tokens.
#[derive(Clone, Copy)]
pub struct Written<'a> {
    pub text: &'a [u8],
    pub tokens: &'a [Token],
}

impl<'a> Written<'a> {
    /// The token that starts at a byte, as it is written; empty where none does.
    pub fn token_at(&self, at: usize) -> &'a [u8] {
        for token in self.tokens {
            if token.start == at && token.start <= token.end && token.end <= self.text.len() {
                return &self.text[token.start..token.end];
            }
        }
        &[]
    }
}

/// Says why a written rule means nothing in the scope, over the table of the words.
pub fn write_unread(
    words: &mut Words<'_>,
    written: Written<'_>,
    scope: &Scope,
    rule: &RawRule,
) -> Result<(), Memory> {
    for part in &rule.parts {
        if part_is_unread(words, written, scope, part)? {
            return Ok(());
        }
    }
    words.say(b"the rule means nothing here")
}

fn part_is_unread(
    words: &mut Words<'_>,
    written: Written<'_>,
    scope: &Scope,
    part: &RulePart,
) -> Result<bool, Memory> {
    match part {
        RulePart::Number(number) => is_too_large(words, *number),
        RulePart::Term(term) => term_is_unread(words, written, scope, 1, term),
        RulePart::Terms(terms) => terms_are_unread(words, written, scope, terms),
        RulePart::Place(place) => place_is_unread(words, place),
        RulePart::NoPlace => Ok(false),
        RulePart::Typed(names) => names_are_unread(words, scope, names),
        RulePart::Law(name, terms) => {
            Ok(
                no_such_law(words, name.as_bytes())?
                    || terms_are_unread(words, written, scope, terms)?,
            )
        }
        RulePart::Certificate(numbers, lines) => {
            Ok(numbers_are_too_large(words, numbers)? || lines_are_unread(words, lines)?)
        }
    }
}

// ---- numbers
fn is_too_large(words: &mut Words<'_>, number: u128) -> Result<bool, Memory> {
    if u32::try_from(number).is_ok() {
        return Ok(false);
    }
    words.natural(number)?;
    words.say(b" is past 32 bits: nothing has this number")?;
    Ok(true)
}

fn numbers_are_too_large(words: &mut Words<'_>, numbers: &[u128]) -> Result<bool, Memory> {
    for number in numbers {
        if is_too_large(words, *number)? {
            return Ok(true);
        }
    }
    Ok(false)
}

fn place_is_unread(words: &mut Words<'_>, place: &RawPlace) -> Result<bool, Memory> {
    match place {
        RawPlace::Goal(path) => numbers_are_too_large(words, path),
        RawPlace::Hyp(number, path) => {
            Ok(is_too_large(words, *number)? || numbers_are_too_large(words, path)?)
        }
    }
}

fn lines_are_unread(words: &mut Words<'_>, lines: &[RawLine]) -> Result<bool, Memory> {
    for line in lines {
        if line_is_unread(words, line)? {
            return Ok(true);
        }
    }
    Ok(false)
}

fn line_is_unread(words: &mut Words<'_>, line: &RawLine) -> Result<bool, Memory> {
    match line {
        RawLine::Sum(multiples) => {
            for multiple in multiples {
                if is_too_large(words, multiple.fact)? {
                    return Ok(true);
                }
            }
            Ok(false)
        }
        RawLine::Quotient(fact, _) => is_too_large(words, *fact),
    }
}

// ---- laws
fn no_such_law(words: &mut Words<'_>, name: &[u8]) -> Result<bool, Memory> {
    if text_named(name).is_some() {
        return Ok(false);
    }
    words.say(b"there is no law ")?;
    words.say(name)?;
    words.say(b": the laws are G1 to G28, O1 to O30, S1 to S40 and M1 to M65")?;
    Ok(true)
}

// ---- terms
fn terms_are_unread(
    words: &mut Words<'_>,
    written: Written<'_>,
    scope: &Scope,
    terms: &[RawTerm],
) -> Result<bool, Memory> {
    for (index, term) in terms.iter().enumerate() {
        if term_is_unread(words, written, scope, index.saturating_add(1), term)? {
            return Ok(true);
        }
    }
    Ok(false)
}

// The term with this number, from 1.
fn term_is_unread(
    words: &mut Words<'_>,
    written: Written<'_>,
    scope: &Scope,
    number: usize,
    term: &RawTerm,
) -> Result<bool, Memory> {
    let Err(fault) = formula(words.alloc, term, scope, words.table) else {
        return Ok(false);
    };
    if let ElabFault::Memory = fault {
        return Err(Memory);
    }
    words.say(b"term ")?;
    words.number(number)?;
    say_fault(words, written, scope, fault)?;
    Ok(true)
}

fn say_fault(
    words: &mut Words<'_>,
    written: Written<'_>,
    scope: &Scope,
    fault: ElabFault,
) -> Result<(), Memory> {
    match fault {
        ElabFault::Fault { number, place } => say_at(words, written, scope, number, place),
        ElabFault::Limit(number) => {
            words.say(b" exceeds limit ")?;
            words.number(number as usize)
        }
        ElabFault::Memory => Err(Memory),
    }
}

// The fault of this number at this byte of the text.
fn say_at(
    words: &mut Words<'_>,
    written: Written<'_>,
    scope: &Scope,
    number: u8,
    place: usize,
) -> Result<(), Memory> {
    let token = written.token_at(place);
    match number {
        6 => say_quoted(words, b" binds ", token, b" twice"),
        7 => say_unknown(words, scope, token),
        8 => {
            say_quoted(
                words,
                b" has no type, or not the one that is needed, at ",
                token,
                b"",
            )?;
            words.say(
                b"; the empty set of a type T is {:T}, and NATURAL and INTEGER are not values",
            )
        }
        9 => say_quoted(
            words,
            b" has at ",
            token,
            b" a value where a predicate is needed, or the reverse",
        ),
        _ => say_quoted(words, b" is at fault at ", token, b""),
    }
}

fn say_quoted(
    words: &mut Words<'_>,
    before: &[u8],
    token: &[u8],
    behind: &[u8],
) -> Result<(), Memory> {
    words.say(before)?;
    words.say(b"`")?;
    words.say(token)?;
    words.say(b"`")?;
    words.say(behind)
}

// A name that is not in scope.
fn say_unknown(words: &mut Words<'_>, scope: &Scope, token: &[u8]) -> Result<(), Memory> {
    say_quoted(words, b" reads ", token, b", which is not in scope")?;
    if token.first() == Some(&b'$') {
        return words.say(b": it stands below no binder");
    }
    let names = names_in(words, scope)?;
    let alloc = words.alloc;
    if let Some(index) = like(alloc, token, &names)? {
        words.say(b"; the nearest name is ")?;
        words.say(names.get(index).copied().unwrap_or(&[]))?;
    }
    say_names(words, &names)
}

// The texts of the variables that are in scope.
fn names_in<'a>(words: &Words<'a>, scope: &Scope) -> Result<Vec<&'a [u8]>, Memory> {
    let table = words.table;
    let mut names = Vec::new(words.alloc);
    for index in 0..table.variables() {
        let Ok(number) = u32::try_from(index) else {
            return Ok(names);
        };
        if let Some(text) = table.text(number) {
            if scope.find(text.as_bytes()) == Some(number) {
                names.push(text.as_bytes())?;
            }
        }
    }
    Ok(names)
}

// The place of the name that is most like a token: one with the same letters before its level, else the nearest.
fn like(alloc: Global, token: &[u8], names: &[&[u8]]) -> Result<Option<usize>, Memory> {
    for (index, name) in names.iter().enumerate() {
        if letters_of(*name) == letters_of(token) {
            return Ok(Some(index));
        }
    }
    nearest(alloc, token, names)
}

// What stands before the dollar sign of a name.
fn letters_of(name: &[u8]) -> &[u8] {
    match name.iter().position(|byte| *byte == b'$') {
        Some(end) => &name[..end],
        None => name,
    }
}

fn say_names(words: &mut Words<'_>, names: &[&[u8]]) -> Result<(), Memory> {
    if names.is_empty() {
        return words.say(b"; no variable is in scope");
    }
    words.say(b"; in scope are ")?;
    for (index, name) in names.iter().enumerate() {
        if index == MOST_NAMES {
            return words.say(b" ..");
        }
        if index > 0 {
            words.say(b", ")?;
        }
        words.say(*name)?;
    }
    Ok(())
}

// ---- names that are brought
fn names_are_unread(
    words: &mut Words<'_>,
    scope: &Scope,
    names: &[RawTyped],
) -> Result<bool, Memory> {
    for name in names {
        if type_is_unread(words, &name.ty)? || name_is_other(words, scope, name)? {
            return Ok(true);
        }
    }
    Ok(false)
}

// Says that a name in a type is that of no set.
fn type_is_unread(words: &mut Words<'_>, ty: &RawType) -> Result<bool, Memory> {
    match &ty.node {
        RawTypeNode::Integer | RawTypeNode::Bool => Ok(false),
        RawTypeNode::Set(name) => no_such_set(words, name.as_bytes()),
        RawTypeNode::Power(elements) => type_is_unread(words, elements),
        RawTypeNode::Product(left, right) => {
            Ok(type_is_unread(words, left)? || type_is_unread(words, right)?)
        }
    }
}

fn no_such_set(words: &mut Words<'_>, name: &[u8]) -> Result<bool, Memory> {
    for index in 0..words.table.sets() {
        let Ok(number) = u32::try_from(index) else {
            return Ok(false);
        };
        if let Some(text) = words.table.set_name(number) {
            if text.as_bytes() == name {
                return Ok(false);
            }
        }
    }
    words.say(b"`")?;
    words.say(name)?;
    words.say(b"` is not a type: types are INTEGER, BOOL, the sets in scope, POW(T) and (T * U)")?;
    Ok(true)
}

// Says that a name is one of another type already.
fn name_is_other(words: &mut Words<'_>, scope: &Scope, name: &RawTyped) -> Result<bool, Memory> {
    let text = name.name.text.as_bytes();
    let Some(number) = scope.find(text) else {
        return Ok(false);
    };
    let table = words.table;
    let Some(ty) = table.ty(number) else {
        return Ok(false);
    };
    if is_written(table, &name.ty, ty) {
        return Ok(false);
    }
    words.say(b"`")?;
    words.say(text)?;
    words.say(b"` is of type ")?;
    words.of_type(ty)?;
    words.say(b" already, which is not the type that is written")?;
    Ok(true)
}

// Whether a written type is this one.
fn is_written(table: &VarTable, written: &RawType, ty: &Ty) -> bool {
    match &written.node {
        RawTypeNode::Integer => matches!(ty.view(), TyView::Int),
        RawTypeNode::Bool => matches!(ty.view(), TyView::Bool),
        RawTypeNode::Set(name) => match ty.view() {
            TyView::Enum(set) => has_name(table, set, name.as_bytes()),
            _ => false,
        },
        RawTypeNode::Power(elements) => match ty.view() {
            TyView::Set(inner) => is_written(table, elements, inner),
            _ => false,
        },
        RawTypeNode::Product(left, right) => match ty.view() {
            TyView::Pair(first, second) => {
                is_written(table, left, first) && is_written(table, right, second)
            }
            _ => false,
        },
    }
}

fn has_name(table: &VarTable, set: u32, name: &[u8]) -> bool {
    match table.set_name(set) {
        Some(text) => text.as_bytes() == name,
        None => false,
    }
}
