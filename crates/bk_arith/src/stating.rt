//! The facts that hypotheses and a negated goal state, for those who look for certificates.

ghost use Rattle.std.specs.Prelude.{◌≡◌, ◌⊎◌, IfOk, IfErr, OnOk, All, Some, None, length, map, is_none, is_some, true, false};
ghost use Rattle.std.specs.List.{list_any};
ghost use Rattle.std.specs.Option.{option_map, some_prefix};
ghost use Rattle.bk_lin.specs.Certificate.{inequalities};
ghost use Rattle.bk_arith.specs.Comparison.{terms_of_hypothesis};
ghost use Rattle.bk_arith.specs.Reading.{atoms_of};
ghost use Rattle.bk_arith.specs.Decision.{first_unread, terms_of, readings, facts_fault};
ghost use Rattle.bk_arith.specs.Layout.{term_of};

use crate::comparison::{Term, hypothesis};
use crate::decision::{read_all, stated_terms};
use crate::error::ArithFault;
use crate::occurrence::atoms_of;
use bk_form::Form;
use bk_lin::Fact;
use std::alloc::Global;

/// Whether the formula is a comparison that is read where it is a hypothesis.
#[tactic(auto, using(crate::proofs::StatedFacts::told))]
pub fn is_comparison(form: &Form) -> bool
    ensures { result ≡ is_some (terms_of_hypothesis form.now) }
{
    hypothesis(form).is_some()
}

/// The facts of the hypotheses in order, then of the negated goal, each with a coefficient for each of the atoms of all, in the
/// order in which these first occur. They are the facts that a certificate speaks of.
pub fn facts(alloc: Global, hyps: &[Form], goal: &Form) -> Result<Vec<Fact>, ArithFault>
    ensures facts { IfOk result (λ fs. inequalities fs.items ≡ some_prefix (readings (terms_of hyps.now goal.now))) }
    ensures width { IfOk result (λ fs. All (λ f. length f.coefs.items ≡ length (atoms_of (terms_of hyps.now goal.now))) fs.items) }
    ensures right { OnOk result (facts_fault hyps.now goal.now ≡ None) }
    ensures fault { IfErr result (λ e. (e ≡ ArithFault.Memory) ⊎ (facts_fault hyps.now goal.now ≡ Some e)) }
{
    let terms = stated_terms(alloc, hyps, goal)?;
    facts_of(alloc, &terms)
}

fn facts_of(alloc: Global, terms: &[Term<'_>]) -> Result<Vec<Fact>, ArithFault>
    ensures facts { IfOk result (λ fs. inequalities fs.items ≡ some_prefix (readings (map term_of terms.now))) }
    ensures width { IfOk result (λ fs. All (λ f. length f.coefs.items ≡ length (atoms_of (map term_of terms.now))) fs.items) }
    ensures narrow { OnOk result (list_any is_none (readings (map term_of terms.now)) ≡ false) }
    ensures fault { IfErr result
        (λ e. (e ≡ ArithFault.Memory) ⊎
        ((e ≡ ArithFault.TooWide) × (list_any is_none (readings (map term_of terms.now)) ≡ true))) }
{
    let atoms = atoms_of(alloc, terms)?;
    read_all(alloc, terms, &atoms)
}

/// The atoms of these facts, in the order in which they first occur: what the coefficients of each fact multiply.
pub fn atoms(alloc: Global, hyps: &[Form], goal: &Form) -> Result<Vec<Form>, ArithFault>
    ensures atoms { IfOk result (λ forms. forms.items ≡ atoms_of (terms_of hyps.now goal.now)) }
    ensures right { OnOk result (first_unread hyps.now goal.now ≡ None) }
    ensures fault { IfErr result
        (λ e. (e ≡ ArithFault.Memory) ⊎ (option_map ArithFault.NotLinear (first_unread hyps.now goal.now) ≡ Some e)) }
{
    let stated = stated_terms(alloc, hyps, goal)?;
    Ok(atoms_of(alloc, &stated)?)
}
