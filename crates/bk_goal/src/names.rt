//! Names that the texts of components have for bound variables.

use crate::written::add_substitution;
use bk_dev::{Development, Level};
use bk_form::{BinOp, Form, Ty, UnOp, View};
use bk_io::Memory;
use bk_raw::{
    ClauseParts, ClauseWord, InfixOp, RawClause, RawComponent, RawName, RawNode, RawOperation,
    RawTerm, WordOp,
};
use itoa::Buffer;
use std::alloc::Global;

/// A predicate that binds variables, and what its text calls them.
#[derive(Drop)]
pub struct Note {
    source: Source,
    words: Vec<u8>,
}

// Where a predicate is from.
#[derive(Drop)]
enum Source {
    // A conjunct of a level.
    Conjunct(Form),
    // A conjunct of a predicate in a substitution, by its binders and connectives in order; what stands between them is a dot.
    Written(Vec<u8>),
}

// A bound variable by its number, from the outermost binder on, and its name.
#[derive(Clone, Copy)]
struct BoundName<'a> {
    number: usize,
    name: &'a [u8],
}

/// What the texts of the components, that of the machine first, call the variables which their predicates bind.
pub fn notes(
    alloc: Global,
    dev: &Development,
    components: &[RawComponent],
) -> Result<Vec<Note>, Memory> {
    let mut notes = Vec::new(alloc);
    for (index, component) in components.iter().enumerate() {
        if let Some(level) = dev.levels.get(index) {
            add_level(alloc, &mut notes, level, component)?;
        }
    }
    Ok(notes)
}

fn add_level(
    alloc: Global,
    notes: &mut Vec<Note>,
    level: &Level,
    component: &RawComponent,
) -> Result<(), Memory> {
    for clause in &component.clauses {
        add_clause(alloc, notes, level, clause)?;
    }
    Ok(())
}

fn add_clause(
    alloc: Global,
    notes: &mut Vec<Note>,
    level: &Level,
    clause: &RawClause,
) -> Result<(), Memory> {
    match &clause.parts {
        ClauseParts::Term(term) => match &clause.word {
            ClauseWord::Properties => add_conjuncts(alloc, notes, &level.properties, term),
            _ => add_conjuncts(alloc, notes, &level.invariant, term),
        },
        ClauseParts::Terms(terms) => add_assertions(alloc, notes, &level.assertions, terms),
        ClauseParts::Substitution(sub) => add_substitution(alloc, notes, sub),
        ClauseParts::Operations(operations) => add_operations(alloc, notes, operations),
        _ => Ok(()),
    }
}

fn add_operations(
    alloc: Global,
    notes: &mut Vec<Note>,
    operations: &[RawOperation],
) -> Result<(), Memory> {
    for operation in operations {
        add_substitution(alloc, notes, &operation.body)?;
    }
    Ok(())
}

fn add_assertions(
    alloc: Global,
    notes: &mut Vec<Note>,
    forms: &[Form],
    terms: &[RawTerm],
) -> Result<(), Memory> {
    for (index, term) in terms.iter().enumerate() {
        if let Some(form) = forms.get(index) {
            add_conjuncts(alloc, notes, form, term)?;
        }
    }
    Ok(())
}

// Adds the conjuncts of a formula, which is read from this term.
fn add_conjuncts(
    alloc: Global,
    notes: &mut Vec<Note>,
    form: &Form,
    term: &RawTerm,
) -> Result<(), Memory> {
    let View::Bin(BinOp::And, left, right) = form.view() else {
        return add_note(alloc, notes, form, term);
    };
    let RawNode::Infix(InfixOp::And, first, second) = &term.node else {
        return Ok(());
    };
    add_conjuncts(alloc, notes, left, first)?;
    add_conjuncts(alloc, notes, right, second)
}

// Adds a conjunct that binds variables.
fn add_note(
    alloc: Global,
    notes: &mut Vec<Note>,
    form: &Form,
    term: &RawTerm,
) -> Result<(), Memory> {
    let mut names = Vec::new(alloc);
    add_names(&mut names, form, term, 0)?;
    if names.is_empty() {
        return Ok(());
    }
    let words = words_of(alloc, &names)?;
    notes.push(Note {
        source: Source::Conjunct(form.copy(alloc)?),
        words,
    })?;
    Ok(())
}

// Adds the names of the variables that a formula binds under so many others, down to where the term is no longer written as it is.
fn add_names<'a>(
    names: &mut Vec<BoundName<'a>>,
    form: &Form,
    term: &'a RawTerm,
    outer: usize,
) -> Result<(), Memory> {
    match form.view() {
        View::All(types, body) => {
            let RawNode::ForAll(own, inner) = &term.node else {
                return Ok(());
            };
            add_bound(names, own, outer)?;
            add_names(names, body, inner, outer.saturating_add(types.len()))
        }
        View::Some(types, body) => {
            let RawNode::Exists(own, inner) = &term.node else {
                return Ok(());
            };
            add_bound(names, own, outer)?;
            add_names(names, body, inner, outer.saturating_add(types.len()))
        }
        View::Un(UnOp::Not, operand) => {
            let RawNode::Word(WordOp::Not, inner) = &term.node else {
                return Ok(());
            };
            add_names(names, operand, inner, outer)
        }
        View::Bin(op, left, right) => {
            let RawNode::Infix(written, first, second) = &term.node else {
                return Ok(());
            };
            if !is_written_so(op, *written) {
                return Ok(());
            }
            add_names(names, left, first, outer)?;
            add_names(names, right, second, outer)
        }
        _ => Ok(()),
    }
}

fn add_bound<'a>(
    names: &mut Vec<BoundName<'a>>,
    own: &'a [RawName],
    outer: usize,
) -> Result<(), Memory> {
    for (index, name) in own.iter().enumerate() {
        names.push(BoundName {
            number: outer.saturating_add(index).saturating_add(1),
            name: name.text.as_bytes(),
        })?;
    }
    Ok(())
}

// Whether both are the same connective.
fn is_written_so(op: BinOp, written: InfixOp) -> bool {
    match op {
        BinOp::And => written == InfixOp::And,
        BinOp::Or => written == InfixOp::Or,
        BinOp::Imp => written == InfixOp::Implies,
        BinOp::Iff => written == InfixOp::Equivalent,
        _ => false,
    }
}

// `$1 is i, $2 is x`.
fn words_of(alloc: Global, names: &[BoundName<'_>]) -> Result<Vec<u8>, Memory> {
    let mut text = Vec::new(alloc);
    for (index, bound) in names.iter().enumerate() {
        if index > 0 {
            text.extend_from_slice(b", ")?;
        }
        text.extend_from_slice(b"$")?;
        text.extend_from_slice(Buffer::new().format(bound.number).as_bytes())?;
        text.extend_from_slice(b" is ")?;
        text.extend_from_slice(bound.name)?;
    }
    Ok(text)
}

/// Adds the conjuncts of a predicate in a substitution that bind variables.
pub(crate) fn add_written(
    alloc: Global,
    notes: &mut Vec<Note>,
    term: &RawTerm,
) -> Result<(), Memory> {
    if let RawNode::Infix(InfixOp::And, left, right) = &term.node {
        add_written(alloc, notes, left)?;
        return add_written(alloc, notes, right);
    }
    let mut names = Vec::new(alloc);
    let mut shape = Vec::new(alloc);
    add_shape(&mut names, &mut shape, term, 0)?;
    if names.is_empty() {
        return Ok(());
    }
    let words = words_of(alloc, &names)?;
    notes.push(Note {
        source: Source::Written(shape),
        words,
    })?;
    Ok(())
}

// Adds the names of the variables that a term binds under so many others, and its binders and connectives. A denial is left out, since
// some operators are read as one.
fn add_shape<'a>(
    names: &mut Vec<BoundName<'a>>,
    shape: &mut Vec<u8>,
    term: &'a RawTerm,
    outer: usize,
) -> Result<(), Memory> {
    match &term.node {
        RawNode::ForAll(own, inner) => {
            add_binders(names, shape, own, b'!', outer)?;
            add_shape(names, shape, inner, outer.saturating_add(own.len()))
        }
        RawNode::Exists(own, inner) => {
            add_binders(names, shape, own, b'#', outer)?;
            add_shape(names, shape, inner, outer.saturating_add(own.len()))
        }
        RawNode::Word(WordOp::Not, inner) => add_shape(names, shape, inner, outer),
        RawNode::Infix(
            InfixOp::And | InfixOp::Or | InfixOp::Implies | InfixOp::Equivalent,
            left,
            right,
        ) => {
            shape.push(written_sign(&term.node))?;
            add_shape(names, shape, left, outer)?;
            add_shape(names, shape, right, outer)
        }
        _ => {
            shape.push(b'.')?;
            Ok(())
        }
    }
}

fn add_binders<'a>(
    names: &mut Vec<BoundName<'a>>,
    shape: &mut Vec<u8>,
    own: &'a [RawName],
    sign: u8,
    outer: usize,
) -> Result<(), Memory> {
    for _ in own {
        shape.push(sign)?;
    }
    add_bound(names, own, outer)
}

// The sign of a connective.
fn written_sign(node: &RawNode) -> u8 {
    match node {
        RawNode::Infix(InfixOp::And, _, _) => b'&',
        RawNode::Infix(InfixOp::Or, _, _) => b'|',
        RawNode::Infix(InfixOp::Implies, _, _) => b'>',
        _ => b'=',
    }
}

fn sign_of(op: BinOp) -> u8 {
    match op {
        BinOp::And => b'&',
        BinOp::Or => b'|',
        BinOp::Imp => b'>',
        _ => b'=',
    }
}

impl Note {
    // Whether the formula is the conjunct.
    fn is_of(&self, form: &Form) -> bool {
        match &self.source {
            Source::Conjunct(own) => own.equal(form),
            Source::Written(_) => false,
        }
    }

    // Whether the formula may be made of the predicate.
    fn may_be_of(&self, form: &Form) -> bool {
        match &self.source {
            Source::Conjunct(own) => binds_alike(own, form),
            Source::Written(shape) => is_shaped(shape, form),
        }
    }
}

/// What a text calls the variables that the formula binds: that of the conjunct that it is, or of the predicates with the same binders if
/// they have one name for each; empty where that is not told.
pub(crate) fn words_for<'a>(notes: &'a [Note], form: &Form) -> &'a [u8] {
    for note in notes {
        if note.is_of(form) {
            return &note.words;
        }
    }
    let mut found: &[u8] = &[];
    for note in notes {
        if note.may_be_of(form) {
            if !found.is_empty() && found != note.words.as_slice() {
                return &[];
            }
            found = &note.words;
        }
    }
    found
}

// Whether a formula has these binders and connectives.
fn is_shaped(shape: &[u8], form: &Form) -> bool {
    match rest_behind(shape, form) {
        Some(rest) => rest.is_empty(),
        None => false,
    }
}

// What is left of binders and connectives after those of a formula.
fn rest_behind<'a>(shape: &'a [u8], form: &Form) -> Option<&'a [u8]> {
    match form.view() {
        View::All(types, body) => rest_behind(behind_signs(shape, b'!', types.len())?, body),
        View::Some(types, body) => rest_behind(behind_signs(shape, b'#', types.len())?, body),
        View::Un(UnOp::Not, operand) => rest_behind(shape, operand),
        View::Bin(BinOp::And | BinOp::Or | BinOp::Imp | BinOp::Iff, left, right) => {
            let behind = behind_connective(shape, form)?;
            rest_behind(rest_behind(behind, left)?, right)
        }
        _ => behind_signs(shape, b'.', 1),
    }
}

fn behind_connective<'a>(shape: &'a [u8], form: &Form) -> Option<&'a [u8]> {
    match form.view() {
        View::Bin(op, _, _) => behind_signs(shape, sign_of(op), 1),
        _ => None,
    }
}

// What stands after so many of a sign.
fn behind_signs(shape: &[u8], sign: u8, count: usize) -> Option<&[u8]> {
    if shape.len() < count {
        return None;
    }
    for byte in &shape[..count] {
        if *byte != sign {
            return None;
        }
    }
    Some(&shape[count..])
}

// Whether two formulas have the same connectives, and bind variables of the same types, down to their terms.
fn binds_alike(one: &Form, other: &Form) -> bool {
    match one.view() {
        View::All(types, body) => match other.view() {
            View::All(others, inner) => Ty::equal_all(types, others) && binds_alike(body, inner),
            _ => false,
        },
        View::Some(types, body) => match other.view() {
            View::Some(others, inner) => Ty::equal_all(types, others) && binds_alike(body, inner),
            _ => false,
        },
        View::Un(UnOp::Not, operand) => match other.view() {
            View::Un(UnOp::Not, denied) => binds_alike(operand, denied),
            _ => false,
        },
        View::Bin(op, left, right) => match other.view() {
            View::Bin(own, first, second) => {
                op == own
                    && (!connects(op) || binds_alike(left, first) && binds_alike(right, second))
            }
            _ => !connects(op),
        },
        _ => true,
    }
}

fn connects(op: BinOp) -> bool {
    matches!(op, BinOp::And | BinOp::Or | BinOp::Imp | BinOp::Iff)
}
