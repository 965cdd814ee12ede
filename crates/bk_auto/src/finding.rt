//! Rules for a sequent.

ghost use Rattle.std.specs.Prelude.{◌≡◌, ◌↔◌, None, Ok, All, IfOk, IfSome, IsTrue};
ghost use Rattle.bk_seq.specs.Sequents.{sequent_of, Types};
ghost use Rattle.bk_kernel.specs.Derivations.{Derives};
ghost use Rattle.bk_auto.specs.Easy.{IsEasy};
ghost use Rattle.bk_auto.specs.NewVariables.{HasNew};
ghost use Rattle.bk_auto.specs.Named.{Brings};
ghost use Rattle.bk_auto.specs.Found.{IsShort};

use crate::easy::easy;
use crate::variables::is_formed;
use bk_form::{Form, VarTable};
use bk_io::Memory;
use bk_kernel::Rule;
use bk_seq::Sequent;
use std::alloc::Global;

/// The most nodes, and the greatest height, of a formula of an easy sequent.
const MOST_NODES: u64 = 90_000;

const GREATEST_HEIGHT: u32 = 300;

/// Rules that derive the sequent; None only where it is not easy. The rules bring the variables that are added to the table, each once
/// and in order, and their terms are parts of the goal.
pub fn find(
    alloc: Global,
    types: &mut VarTable,
    sequent: &Sequent,
) -> Result<Option<Vec<Rule>>, Memory>
    requires types { Types types.old (sequent_of sequent.now) }
    ensures derives { IfOk result (λ o. IfSome o (λ rules. Derives types.new rules.items (sequent_of sequent.now))) }
    ensures none { result ≡ Ok None → IsEasy types.old (sequent_of sequent.now) → ⊥ }
    ensures new { HasNew types.old types.new }
    ensures brings { IfOk result (λ o. IfSome o (λ rules. Brings types.old types.new sequent.now.goal rules.items)) }
{
    if !is_short(&sequent.goal) {
        return Ok(None);
    }
    if !are_short(&sequent.hyps) {
        return Ok(None);
    }
    is_formed(types);
    let mut rules = Vec::new(alloc);
    if !easy(alloc, types, sequent, &mut rules)? {
        return Ok(None);
    }
    is_formed(types);
    Ok(Some(rules))
}

// Whether none of the formulas is large.
fn are_short(forms: &[Form]) -> bool
    ensures { IsTrue result ↔ All IsShort forms.now }
{
    for form in forms {
        if !is_short(form) {
            return false;
        }
    }
    true
}

// Whether it has few nodes and a small height.
fn is_short(form: &Form) -> bool
    ensures { IsTrue result ↔ IsShort form.now }
{
    form.size() <= MOST_NODES && form.depth() <= GREATEST_HEIGHT
}
