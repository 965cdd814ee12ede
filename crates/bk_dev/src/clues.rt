//! What the invariants of a development say of a variable: the domain that it is in, or the term that it equals.

ghost use Rattle.std.specs.Prelude.{◌≡◌, not, [], ◌++◌, IfOk, OnOk, Some};
ghost use Rattle.std.specs.List.{filter};
ghost use Rattle.bk_form.specs.Predicates.{conjuncts};
ghost use Rattle.bk_gsl.specs.State.{among, firsts};
ghost use Rattle.bk_dev.specs.Codes.ClueView.{clue_seen, is_this, spoken_list};
ghost use Rattle.bk_dev.specs.Layout.{clue_of, spoken_of, right_side, lacks_type, is_typing, first_clue, untyped, linked_to, typing_clue, reversed};

use crate::development::Level;
use bk_bind::free_in;
use bk_form::{BinOp, Form, UnOp, View};
use bk_io::Memory;
use std::alloc::Global;

/// What conjuncts say of a variable.
#[derive(Drop)]
pub enum Found {
    /// It is in this domain.
    InDomain(Form),
    /// It equals a term.
    Equals,
    /// Nothing.
    Silent,
}

/// What the invariant of the last of these levels says of the variable, or where it is silent the nearest above under
/// the same name.
#[tactic(auto, using(crate::proofs::Reversed::reversed_last))]
pub fn clue_in(alloc: Global, levels: &[Level], variable: u32) -> Result<Found, Memory>
    ensures { IfOk result (λ found. clue_seen found ≡ typing_clue (Some variable) (reversed levels.now [])) }
{
    let Some((level, above)) = levels.split_last() else {
        return Ok(Found::Silent);
    };
    match level_clue(alloc, level, variable)? {
        Found::Silent => match linked(&level.links, variable) {
            Some(upper) => clue_in(alloc, above, upper),
            None => Ok(Found::Silent),
        },
        found => Ok(found),
    }
}

/// The variable of the level above that a variable is linked to.
pub fn linked(links: &[(u32, u32)], variable: u32) -> Option<u32>
    ensures { result ≡ linked_to variable links.now }
{
    for (below, above) in links {
        if variable == *below {
            return Some(*above);
        }
    }
    None
}

// Whether a variable is linked to one of the level above.
fn is_linked(links: &[(u32, u32)], variable: u32) -> bool
    ensures { result ≡ among (firsts links.now) variable }
{
    for (below, _) in links {
        if variable == *below {
            return true;
        }
    }
    false
}

// What a level's invariant says of the variable.
fn level_clue(alloc: Global, level: &Level, variable: u32) -> Result<Found, Memory>
    ensures { IfOk result (λ found.
        clue_seen found ≡ first_clue variable (untyped level.now) (conjuncts level.now.invariant)) }
{
    let mut parts = Vec::new(alloc);
    add_conjuncts(alloc, &level.invariant, &mut parts)?;
    let typeless = without_type(alloc, level)?;
    first_found(alloc, variable, typeless, &parts)
}

// Adds the parts of a conjunction, without `btrue`.
fn add_conjuncts(alloc: Global, form: &Form, found: &mut Vec<Form>) -> Result<(), Memory>
    ensures { OnOk result (found.new.items ≡ found.old.items ++ conjuncts form.now) }
{
    match form.view() {
        View::Bin(BinOp::And, left, right) => {
            add_conjuncts(alloc, left, found)?;
            add_conjuncts(alloc, right, found)
        }
        View::True => Ok(()),
        _ => {
            found.push(form.copy(alloc)?)?;
            Ok(())
        }
    }
}

// The level's variables that have no type from above.
fn without_type(alloc: Global, level: &Level) -> Result<Vec<u32>, Memory>
    ensures { IfOk result (λ variables. variables.items ≡ untyped level.now) }
{
    let mut variables = Vec::new(alloc);
    for variable in &level.vars {
        if !is_linked(&level.links, *variable) {
            variables.push(*variable)?;
        }
    }
    Ok(variables)
}

// What the first conjunct says that gives the variable a type.
fn first_found(
    alloc: Global,
    variable: u32,
    typeless: Vec<u32>,
    parts: &[Form],
) -> Result<Found, Memory>
    ensures { IfOk result (λ found. clue_seen found ≡ first_clue variable typeless.items parts.now) }
{
    let mut left = typeless;
    for part in parts {
        if !gives_types(&left, part) {
            continue;
        }
        match clue(alloc, variable, part)? {
            Found::Silent => left = without(alloc, &left, spoken(part))?,
            found => return Ok(found),
        }
    }
    Ok(Found::Silent)
}

// What a conjunct says of the variable.
fn clue(alloc: Global, variable: u32, part: &Form) -> Result<Found, Memory>
    ensures { IfOk result (λ found. clue_seen found ≡ clue_of variable part.now) }
{
    match part.view() {
        View::Bin(BinOp::In, subject, domain) if is_variable(subject, variable) => {
            Ok(Found::InDomain(domain.copy(alloc)?))
        }
        View::Bin(BinOp::Eq, subject, _) if is_variable(subject, variable) => Ok(Found::Equals),
        _ => Ok(Found::Silent),
    }
}

// Whether a formula is this variable.
fn is_variable(form: &Form, variable: u32) -> bool
    ensures { result ≡ is_this variable form.now }
{
    match form.view() {
        View::Var(number) => variable == number,
        _ => false,
    }
}

// The variable that a conjunct speaks of.
fn spoken(part: &Form) -> Option<u32>
    ensures { spoken_list result ≡ spoken_of part.now }
{
    match part.view() {
        View::Bin(BinOp::In | BinOp::Eq, subject, _) => match subject.view() {
            View::Var(number) => Some(number),
            _ => None,
        },
        _ => None,
    }
}

// These variables without one.
fn without(alloc: Global, variables: &[u32], gone: Option<u32>) -> Result<Vec<u32>, Memory>
    ensures { IfOk result (λ left. left.items ≡ filter (λ n. not (among (spoken_list gone) n)) variables.now) }
{
    let mut left = Vec::new(alloc);
    for variable in variables {
        if !is_gone(gone, *variable) {
            left.push(*variable)?;
        }
    }
    Ok(left)
}

// Whether a variable is the one that is gone.
fn is_gone(gone: Option<u32>, variable: u32) -> bool
    ensures { result ≡ among (spoken_list gone) variable }
{
    match gone {
        Some(number) => variable == number,
        None => false,
    }
}

// Whether the right side of a conjunct has a type where these variables have none.
fn gives_types(typeless: &[u32], part: &Form) -> bool
    ensures { result ≡ is_typing typeless.now part.now }
{
    let side = right_side(part);
    typeless.iter().all(|variable| !free_in(side, *variable)) && !lacks_type(side)
}

// D of x : D, and E of x = E.
fn right_side(part: &Form) -> &Form
    ensures { result.now ≡ right_side part.now }
{
    match part.view() {
        View::Bin(_, _, right) => right,
        _ => part,
    }
}

// Whether a term is made of {} in such a way that it has no type of its own.
fn lacks_type(form: &Form) -> bool
    ensures { result ≡ lacks_type form.now }
{
    match form.view() {
        View::Empty(_) => true,
        View::Bin(BinOp::Union | BinOp::Inter | BinOp::Minus | BinOp::Over, left, right) => {
            lacks_type(left) && lacks_type(right)
        }
        View::Bin(BinOp::Maps, left, right) => lacks_type(left) || lacks_type(right),
        View::Un(UnOp::Single, operand) => lacks_type(operand),
        _ => false,
    }
}
