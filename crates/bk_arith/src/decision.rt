//! Whether a certificate proves a goal from hypotheses.

ghost use Rattle.std.specs.Prelude.{◌≡◌, ◌⊎◌, ◌++◌, ◌*◌, ◌+◌, IsTrue, MatchResult, IfOk, IfErr, OnOk, All, Some, None, length, map, is_none, true, false};
ghost use Rattle.std.specs.List.{list_any};
ghost use Rattle.std.specs.Option.{option_map, some_prefix};
ghost use Rattle.bk_lin.specs.Certificate.{inequalities, width_of};
ghost use Rattle.bk_lin.specs.Answer.{certificate_fault};
ghost use Rattle.bk_arith.specs.Reading.{reading};
ghost use Rattle.bk_arith.specs.Decision.{first_unread, terms_of, fault_of_terms, linear_fault, is_accepted};
ghost use Rattle.bk_arith.specs.Layout.{term_of, terms_in};

use crate::comparison::{Stated, Term, hypothesis, negated_goal};
use crate::error::ArithFault;
use crate::occurrence::atoms_of;
use crate::reading::read_term;
use bk_form::Form;
use bk_io::Memory;
use bk_lin::{Fact, Line, check};
use std::alloc::Global;

/// Whether the certificate shows that the hypotheses and the negated goal contradict each other.
///
/// The facts are those of the hypotheses in order, then of the negated goal. A hypothesis `a <= b` states the fact
/// `0 <= b - a`, `a < b` states `0 <= b - a - 1`, and `a = b` states `0 <= b - a` and `0 <= a - b`; `a : l .. h` states
/// `0 <= a - l` and `0 <= h - a`, `a : NATURAL` states `0 <= a`, and `a : NATURAL1` states `0 <= a - 1`; `not(a <= b)`
/// states `0 <= a - b - 1`, and `not(a < b)` states `0 <= a - b`. The goal `bfalse` states nothing, `a <= b` what
/// `not(a <= b)` does, and `a < b` what `not(a < b)` does.
///
/// The facts' terms are read from the leaves up as linear forms: through `+`, `-`, unary minus and products one side of
/// which is a sum of literals. Every other subterm is an atom, and equal ones are one atom.
pub fn linear(alloc: Global, hyps: &[Form], goal: &Form, cert: &[Line]) -> Result<(), ArithFault>
    ensures accepted { OnOk result (IsTrue (is_accepted hyps.now goal.now cert.now)) }
    ensures fault { IfErr result (λ e. (e ≡ ArithFault.Memory) ⊎ (linear_fault hyps.now goal.now cert.now ≡ Some e)) }
{
    let terms = stated_terms(alloc, hyps, goal)?;
    check_terms(alloc, &terms, cert)
}

// The facts of the hypotheses in order, then of the negated goal.
pub(crate) fn stated_terms<'a>(
    alloc: Global,
    hyps: &'a [Form],
    goal: &'a Form,
) -> Result<Vec<Term<'a>>, ArithFault>
    ensures terms { IfOk result (λ ts. map term_of ts.items ≡ terms_of hyps.now goal.now) }
    ensures all { OnOk result (first_unread hyps.now goal.now ≡ None) }
    ensures fault { IfErr result
        (λ e. (e ≡ ArithFault.Memory) ⊎ (option_map ArithFault.NotLinear (first_unread hyps.now goal.now) ≡ Some e)) }
{
    let mut terms = Vec::new(alloc);
    for (index, hyp) in hyps.iter().enumerate() {
        let stated = hypothesis(hyp).ok_or(ArithFault::NotLinear(index + 1))?;
        push_stated(&mut terms, stated)?;
    }
    let stated = negated_goal(goal).ok_or(ArithFault::NotLinear(hyps.len() + 1))?;
    push_stated(&mut terms, stated)?;
    Ok(terms)
}

fn push_stated<'a>(terms: &mut Vec<Term<'a>>, stated: Stated<'a>) -> Result<(), Memory>
    ensures { OnOk result (map term_of terms.new.items ≡ map term_of terms.old.items ++ terms_in stated.entry) }
{
    match stated {
        Stated::Nothing => {}
        Stated::One(term) => terms.push(term)?,
        Stated::Two(first, second) => {
            terms.push(first)?;
            terms.push(second)?;
        }
    }
    Ok(())
}

// Whether the certificate shows that the facts contradict each other.
fn check_terms(alloc: Global, terms: &[Term<'_>], cert: &[Line]) -> Result<(), ArithFault>
    ensures accepted { OnOk result (fault_of_terms (map term_of terms.now) cert.now ≡ None) }
    ensures fault { IfErr result
        (λ e. (e ≡ ArithFault.Memory) ⊎ (fault_of_terms (map term_of terms.now) cert.now ≡ Some e)) }
{
    let atoms = atoms_of(alloc, terms)?;
    let facts = read_all(alloc, terms, &atoms)?;
    check_facts(alloc, &facts, atoms.len(), cert)
}

pub(crate) fn read_all(
    alloc: Global,
    terms: &[Term<'_>],
    atoms: &[Form],
) -> Result<Vec<Fact>, ArithFault>
    ensures facts { IfOk result
        (λ fs. inequalities fs.items ≡ some_prefix (map (reading atoms.now) (map term_of terms.now))) }
    ensures all { OnOk result (list_any is_none (map (reading atoms.now) (map term_of terms.now)) ≡ false) }
    ensures fault { IfErr result
        (λ e. (e ≡ ArithFault.Memory) ⊎
        ((e ≡ ArithFault.TooWide) × (list_any is_none (map (reading atoms.now) (map term_of terms.now)) ≡ true))) }
    ensures width { IfOk result (λ fs. All (λ f. length f.coefs.items ≡ length atoms.now) fs.items) }
{
    let mut facts = Vec::new(alloc);
    for term in terms {
        facts.push(read_term(alloc, *term, atoms)?)?;
    }
    Ok(facts)
}

fn check_facts(alloc: Global, facts: &[Fact], width: usize, cert: &[Line]) -> Result<(), ArithFault>
    requires one_width { All (λ f. length f.coefs.items ≡ width_of facts.now) facts.now }
    requires width { width ≡ width_of facts.now }
    ensures accepted { OnOk result (certificate_fault width (inequalities facts.now) cert.now ≡ None) }
    ensures fault { IfErr result
        (λ e. (e ≡ ArithFault.Memory) ⊎
        (option_map ArithFault.Cert (certificate_fault width (inequalities facts.now) cert.now) ≡ Some e)) }
{
    let size = width.checked_add(1).ok_or(ArithFault::Memory)?;
    let room = size.checked_mul(cert.len()).ok_or(ArithFault::Memory)?;
    let mut work = vec![in alloc; 0i128; room]?;
    check(facts, cert, work.as_mut_slice())?;
    Ok(())
}
