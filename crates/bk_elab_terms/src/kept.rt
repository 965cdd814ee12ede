// Right sides of conjuncts that were read for the types of bound names, and are kept for the body.

ghost use Rattle.std.specs.Prelude.{◌≡◌, ◌≤◌, ◌&&◌, ◌∷◌, length, not, cond, true, List, IfOk, ℤ, Some, None};
ghost use Rattle.bk_raw.specs.Meaning.Names.{Names};
ghost use Rattle.bk_raw.specs.Meaning.Outcome.{silent};
ghost use Rattle.bk_raw.specs.Trees.RawTree.{RawTree};
ghost use Rattle.bk_raw.specs.Meaning.TermReading.{reading};
ghost use Rattle.bk_elab_terms.specs.Kept.{names_untyped, dollar_untyped, has_unsettled, names_dollar, has_additions, IsKept, AreKept};
ghost use Rattle.bk_elab_terms.specs.Sights.{names_of, bounds_of};

use crate::dollar::{dollar_untyped, has_additions, has_unsettled, names_dollar};
use crate::outcome::Step;
use crate::sight::{Local, Reader, Seen};
use crate::written::stands_free;
use bk_io::Memory;
use bk_raw::{RawName, RawTerm};
use std::collections::VecDeque;

// What is kept for the next conjunct.
#[tactic(auto, using(crate::proofs::Keeping::keeping))]
pub(crate) fn next_kept(kept: &mut VecDeque<Option<Step>>) -> Option<Step>
    ensures next { (m : ℤ) (names : Names) (t : RawTree) (ts : List RawTree) →
        AreKept m names kept.old.items (t ∷ ts) → IsKept m names result t }
    ensures rest { (m : ℤ) (names : Names) (t : RawTree) (ts : List RawTree) →
        AreKept m names kept.old.items (t ∷ ts) → AreKept m names kept.new.items ts }
{
    match kept.pop_front() {
        Some(side) => side,
        None => None,
    }
}

// A right side, where it is to be kept.
pub(crate) fn kept_if(settled: bool, side: Step) -> Option<Step>
    ensures { result ≡ cond settled (Some side) None }
{
    if settled {
        return Some(side);
    }
    None
}

// Whether what the term reads as stays, whatever types the bound names still get, before which so many others stand.
pub(crate) fn is_settled(first: usize, locals: &[Local<'_>], term: &RawTerm) -> bool
    ensures { result ≡ (not (names_untyped (bounds_of locals.now) term.now) && not (has_unsettled first
        (length locals.now) (dollar_untyped (bounds_of locals.now)) term.now)) }
{
    if names_untyped(locals, term) {
        return false;
    }
    !has_unsettled(first, locals.len(), dollar_untyped(locals), term)
}

// Whether a right side that names none of these names has the same faults inside their binder, and tells the same types.
pub(crate) fn is_plain(names: &[RawName], term: &RawTerm) -> bool
    ensures { result ≡ not (has_additions (names_dollar names.now) term.now) }
{
    !has_additions(names_dollar(names), term)
}

// Whether one of the names that have no type stands free in the term.
fn names_untyped(locals: &[Local<'_>], term: &RawTerm) -> bool
    ensures { result ≡ names_untyped (bounds_of locals.now) term.now }
{
    for local in locals {
        if local.ty.is_none() && stands_free(local.text, term) {
            return true;
        }
    }
    false
}

impl<'a> Reader<'a> {
    // Whether one of the bound names from a place on that have no type stands free in the term, so that nothing is told
    // of it.
    pub(crate) fn is_untold(&self, first: usize, term: &RawTerm) -> Result<bool, Memory>
        requires { first ≤ length self.now.locals.items }
        ensures { IfOk result (λ b. b ≡ true → (m : ℤ) → (reading m (names_of self.now) term.now).outcome ≡ silent) }
    {
        for local in &self.locals[first..] {
            if local.ty.is_none() && self.is_untold_by(local.text, term)? {
                return Ok(true);
            }
        }
        Ok(false)
    }

    // Whether the name stands free in the term and has no type.
    #[tactic(auto, using(crate::proofs::Keeping::keeping))]
    fn is_untold_by(&self, text: &[u8], term: &RawTerm) -> Result<bool, Memory>
        ensures { IfOk result (λ b. b ≡ true → (m : ℤ) → (reading m (names_of self.now) term.now).outcome ≡ silent) }
    {
        if text.is_empty() || !stands_free(text, term) {
            return Ok(false);
        }
        let Seen::Untyped = self.find(text)? else {
            return Ok(false);
        };
        Ok(true)
    }
}
