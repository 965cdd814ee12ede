//! Goals taken apart.

ghost use Rattle.std.specs.Prelude.{◌≡◌, ◌++◌, map, IfOk, OnOk};
ghost use Rattle.bk_form.specs.Predicates.{conjuncts};
ghost use Rattle.bk_seq.specs.Sequents.{sequent_of, split};

use crate::sequent::Sequent;
use bk_form::{BinOp, Form, View};
use bk_io::Memory;
use std::alloc::Global;

/// The sequents that a goal under hypotheses is taken apart into: both sides of a conjunction, the right side of an implication
/// under the conjuncts of the left one, and none of `btrue`. All of them are valid exactly where the sequent is.
pub fn split(alloc: Global, hyps: Vec<Form>, goal: Form) -> Result<Vec<Sequent>, Memory>
    ensures { IfOk result (λ list. map sequent_of list.items ≡ split hyps.items goal) }
{
    let mut found = Vec::new(alloc);
    add_sequents(alloc, &hyps, &goal, &mut found)?;
    Ok(found)
}

/// Adds the parts of a conjunction, without `btrue`. After `Memory` nothing is said of what `found` holds.
pub fn add_conjuncts(alloc: Global, form: &Form, found: &mut Vec<Form>) -> Result<(), Memory>
    ensures { OnOk result (found.new.items ≡ found.old.items ++ conjuncts form.now) }
{
    match form.view() {
        View::Bin(BinOp::And, left, right) => {
            add_conjuncts(alloc, left, found)?;
            add_conjuncts(alloc, right, found)
        }
        View::True => Ok(()),
        _ => {
            found.push(form.copy(alloc)?)?;
            Ok(())
        }
    }
}

// Adds the sequents that a goal is taken apart into.
fn add_sequents(
    alloc: Global,
    hyps: &[Form],
    goal: &Form,
    found: &mut Vec<Sequent>,
) -> Result<(), Memory>
    ensures { OnOk result (map sequent_of found.new.items ≡ map sequent_of found.old.items
        ++ split hyps.now goal.now) }
{
    match goal.view() {
        View::Bin(BinOp::And, left, right) => {
            add_sequents(alloc, hyps, left, found)?;
            add_sequents(alloc, hyps, right, found)
        }
        View::Bin(BinOp::Imp, left, right) => {
            let mut more = Form::copy_all(hyps, alloc)?;
            add_conjuncts(alloc, left, &mut more)?;
            add_sequents(alloc, &more, right, found)
        }
        View::True => Ok(()),
        _ => {
            found.push(Sequent {
                hyps: Form::copy_all(hyps, alloc)?,
                goal: goal.copy(alloc)?,
            })?;
            Ok(())
        }
    }
}
