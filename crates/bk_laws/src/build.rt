//! The formulas that patterns stand for.

ghost use Rattle.std.specs.Prelude.{◌≡◌, ◌≤◌, ◌<◌, All, IfOk, slice_get};
ghost use Rattle.bk_form.specs.Formula.{empty_set};
ghost use Rattle.bk_laws.specs.Patterns.{formula_of, empty_type, is_empty_set, asks_empty};
ghost use Rattle.bk_laws.specs.Rows.{IsSmall, pick_at};
ghost use Rattle.bk_laws.specs.Tables.{made, pattern_at};

use crate::kind::{Kind, kind_of};
use bk_form::{Domain, Form, Part, Ty, View};
use bk_io::Memory;
use bk_ops::Pat;
use std::alloc::Global;

/// The formula of the pattern of this number, of which no way down has more nodes than `depth`, with the picks for its letters.
#[tactic(auto, using(crate::proofs::Built::pattern_steps))]
#[cycle(pattern)]
pub fn pattern(
    alloc: Global,
    pats: &[Pat],
    picks: &[Form],
    depth: u32,
    number: u16,
) -> Result<Form, Memory>
    requires picks { All IsSmall picks.now }
    requires depth { depth ≤ 8 }
    ensures { IfOk result (λ f. f ≡ formula_of (pick_at picks.now) (pattern_at pats.now depth number)) }
{
    if depth == 0 {
        return Form::make(alloc, Part::True);
    }
    match pat_at(pats, number) {
        Some(pat) => node(
            alloc,
            pats,
            picks,
            depth - 1,
            kind_of(pat.op),
            pat.first,
            pat.second,
        ),
        None => Form::make(alloc, Part::True),
    }
}

// A pattern of this kind, with the numbers of its parts, of which no way down has more nodes than `depth`.
#[tactic(auto, using(crate::proofs::Built::pattern_steps))]
#[cycle(pattern)]
fn node(
    alloc: Global,
    pats: &[Pat],
    picks: &[Form],
    depth: u32,
    kind: Kind,
    first: u16,
    second: u16,
) -> Result<Form, Memory>
    requires picks { All IsSmall picks.now }
    requires depth { depth < 8 }
    ensures { IfOk result
        (λ f. f ≡ formula_of (pick_at picks.now) (made (pattern_at pats.now depth) first second kind)) }
{
    match kind {
        Kind::Letter => pick(alloc, picks, first),
        Kind::EmptyLetter => empty_pick(alloc, picks, first),
        Kind::One(op) => {
            let operand = pattern(alloc, pats, picks, depth, first)?;
            Form::make(alloc, Part::Un(op, operand))
        }
        Kind::Two(op) => {
            let left = pattern(alloc, pats, picks, depth, first)?;
            let right = pattern(alloc, pats, picks, depth, second)?;
            Form::make(alloc, Part::Bin(op, left, right))
        }
        Kind::Number => Form::make(alloc, Part::Int(i128::from(first))),
        Kind::BTrue => Form::make(alloc, Part::True),
        Kind::BFalse => Form::make(alloc, Part::False),
        Kind::True => Form::make(alloc, Part::Bool(true)),
        Kind::False => Form::make(alloc, Part::Bool(false)),
        Kind::Natural => Form::make(alloc, Part::Name(Domain::Natural)),
        Kind::Natural1 => Form::make(alloc, Part::Name(Domain::Natural1)),
    }
}

// The pattern of this number.
fn pat_at(pats: &[Pat], number: u16) -> Option<Pat>
    ensures { result ≡ slice_get pats.now number }
{
    pats.get(usize::from(number)).copied()
}

// The pick of this number, and `btrue` past their end.
fn pick(alloc: Global, picks: &[Form], number: u16) -> Result<Form, Memory>
    ensures { IfOk result (λ f. f ≡ pick_at picks.now number) }
{
    match picks.get(usize::from(number)) {
        Some(form) => form.copy(alloc),
        None => Form::make(alloc, Part::True),
    }
}

// The empty set of the type of the pick of this number.
fn empty_pick(alloc: Global, picks: &[Form], number: u16) -> Result<Form, Memory>
    ensures { IfOk result (λ f. f ≡ empty_set (empty_type (pick_at picks.now number))) }
{
    match picks.get(usize::from(number)) {
        Some(form) => empty_like(alloc, form),
        None => Form::make(alloc, Part::Empty(Ty::boolean())),
    }
}

// The empty set of the formula's type where it is one.
fn empty_like(alloc: Global, form: &Form) -> Result<Form, Memory>
    ensures { IfOk result (λ f. f ≡ empty_set (empty_type form.now)) }
{
    match form.view() {
        View::Empty(_) => form.copy(alloc),
        _ => Form::make(alloc, Part::Empty(Ty::boolean())),
    }
}

/// Whether the formula is an empty set.
pub fn is_empty_set(form: &Form) -> bool
    ensures { result ≡ is_empty_set form.now }
{
    matches!(form.view(), View::Empty(_))
}

/// Whether letter `k` stands for an empty set in the pattern of this number.
#[tactic(auto, using(crate::proofs::Built::asks_steps))]
#[cycle(asks)]
pub fn asks_empty(pats: &[Pat], k: u16, depth: u32, number: u16) -> bool
    ensures { result ≡ asks_empty k (pattern_at pats.now depth number) }
{
    if depth == 0 {
        return false;
    }
    match pat_at(pats, number) {
        Some(pat) => node_asks(pats, k, depth - 1, kind_of(pat.op), pat.first, pat.second),
        None => false,
    }
}

// Whether it does in a pattern of this kind.
#[tactic(auto, using(crate::proofs::Built::asks_steps))]
#[cycle(asks)]
fn node_asks(pats: &[Pat], k: u16, depth: u32, kind: Kind, first: u16, second: u16) -> bool
    ensures { result ≡ asks_empty k (made (pattern_at pats.now depth) first second kind) }
{
    match kind {
        Kind::EmptyLetter => first == k,
        Kind::One(_) => asks_empty(pats, k, depth, first),
        Kind::Two(_) => asks_empty(pats, k, depth, first) || asks_empty(pats, k, depth, second),
        _ => false,
    }
}
