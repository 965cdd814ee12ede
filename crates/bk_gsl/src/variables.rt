// The variables that a substitution writes, and those that it reads.

ghost use Rattle.std.specs.Prelude.{◌≡◌, ◌++◌, map, IfOk, OnOk};
ghost use Rattle.bk_form.specs.Formula.{formulas_of};
ghost use Rattle.bk_gsl.specs.State.{among, firsts};
ghost use Rattle.bk_gsl.specs.Run.{old_of};
ghost use Rattle.bk_gsl.specs.Writes.{written, in_order, writes};
ghost use Rattle.bk_gsl.specs.Reads.{variables_of, all_variables_of, variables_of_terms, outside, read, reads};

use crate::substitution::{Sub, SubNode};
use bk_form::{Form, View};
use bk_io::Memory;
use std::alloc::Global;

/// The variables that a substitution writes, in rising order, each once, without those that it binds itself.
pub fn writes(alloc: Global, sub: &Sub) -> Result<Vec<u32>, Memory>
    ensures { IfOk result (λ v. v.items ≡ writes sub.now) }
{
    let mut found = Vec::new(alloc);
    add_written(alloc, sub, &mut found)?;
    Ok(in_order(found))
}

/// The variables that a substitution's formulas read, in rising order, each once, without those that it binds itself.
/// Where `x :(P)` speaks of an old value, the variable whose old value it is counts as read.
pub fn reads(alloc: Global, sub: &Sub) -> Result<Vec<u32>, Memory>
    ensures { IfOk result (λ v. v.items ≡ reads sub.now) }
{
    let mut found = Vec::new(alloc);
    add_read(alloc, sub, &mut found)?;
    Ok(in_order(found))
}

// The same variables in rising order, each once.
fn in_order(mut variables: Vec<u32>) -> Vec<u32>
    ensures { result.items ≡ in_order variables.items }
{
    variables.sort_unstable();
    variables.dedup();
    variables
}

// Adds what a substitution writes, as often as it is written.
fn add_written(alloc: Global, sub: &Sub, found: &mut Vec<u32>) -> Result<(), Memory>
    ensures { OnOk result (found.new.items ≡ found.old.items ++ written sub.now) }
{
    match &*sub.node {
        SubNode::Skip => Ok(()),
        SubNode::Assign(terms) => add_firsts(terms, found),
        SubNode::Pre(_, s) => add_written(alloc, s, found),
        SubNode::Guard(_, s) => add_written(alloc, s, found),
        SubNode::Choice(one, other) => {
            add_written(alloc, one, found)?;
            add_written(alloc, other, found)
        }
        SubNode::If(_, yes, no) => {
            add_written(alloc, yes, found)?;
            add_written(alloc, no, found)
        }
        SubNode::Any(locals, s) => {
            let mut inner = Vec::new(alloc);
            add_written(alloc, s, &mut inner)?;
            add_outside(locals, &inner, found)
        }
        SubNode::Seq(first, second) => {
            add_written(alloc, first, found)?;
            add_written(alloc, second, found)
        }
        SubNode::Par(left, right) => {
            add_written(alloc, left, found)?;
            add_written(alloc, right, found)
        }
        SubNode::While { body, .. } => add_written(alloc, body, found),
        SubNode::Assert(_, s) => add_written(alloc, s, found),
        SubNode::BecomesSuch(pairs, _) => add_firsts(pairs, found),
    }
}

// Adds what a substitution reads, as often as it is read.
fn add_read(alloc: Global, sub: &Sub, found: &mut Vec<u32>) -> Result<(), Memory>
    ensures { OnOk result (found.new.items ≡ found.old.items ++ read sub.now) }
{
    match &*sub.node {
        SubNode::Skip => Ok(()),
        SubNode::Assign(terms) => add_variables_of_terms(terms, found),
        SubNode::Pre(p, s) => {
            add_variables(p, found)?;
            add_read(alloc, s, found)
        }
        SubNode::Guard(p, s) => {
            add_variables(p, found)?;
            add_read(alloc, s, found)
        }
        SubNode::Choice(one, other) => {
            add_read(alloc, one, found)?;
            add_read(alloc, other, found)
        }
        SubNode::If(p, yes, no) => {
            add_variables(p, found)?;
            add_read(alloc, yes, found)?;
            add_read(alloc, no, found)
        }
        SubNode::Any(locals, s) => {
            let mut inner = Vec::new(alloc);
            add_read(alloc, s, &mut inner)?;
            add_outside(locals, &inner, found)
        }
        SubNode::Seq(first, second) => {
            add_read(alloc, first, found)?;
            add_read(alloc, second, found)
        }
        SubNode::Par(left, right) => {
            add_read(alloc, left, found)?;
            add_read(alloc, right, found)
        }
        SubNode::While {
            test,
            body,
            invariant,
            variant,
        } => {
            add_variables(test, found)?;
            add_read(alloc, body, found)?;
            add_variables(invariant, found)?;
            add_variables(variant, found)
        }
        SubNode::Assert(p, s) => {
            add_variables(p, found)?;
            add_read(alloc, s, found)
        }
        SubNode::BecomesSuch(pairs, p) => add_read_by_predicate(alloc, pairs, p, found),
    }
}

// Adds what the predicate of `x :(P)` reads: its other variables, and the variables of the old values.
fn add_read_by_predicate(
    alloc: Global,
    pairs: &[(u32, u32)],
    predicate: &Form,
    found: &mut Vec<u32>,
) -> Result<(), Memory>
    ensures { OnOk result (found.new.items ≡ found.old.items
        ++ map (old_of pairs.now) (outside (firsts pairs.now) (variables_of predicate.now))) }
{
    let mut written = Vec::new(alloc);
    add_firsts(pairs, &mut written)?;
    let mut all = Vec::new(alloc);
    add_variables(predicate, &mut all)?;
    let mut others = Vec::new(alloc);
    add_outside(&written, &all, &mut others)?;
    add_old(pairs, &others, found)
}

// Adds the variables, and in place of a number for an old value the variable.
fn add_old(pairs: &[(u32, u32)], variables: &[u32], found: &mut Vec<u32>) -> Result<(), Memory>
    ensures { OnOk result (found.new.items ≡ found.old.items ++ map (old_of pairs.now) variables.now) }
{
    for variable in variables {
        found.push(old_of(pairs, *variable))?;
    }
    Ok(())
}

// The variable whose old value the number stands for, or the number itself.
fn old_of(pairs: &[(u32, u32)], number: u32) -> u32
    ensures { result ≡ old_of pairs.now number }
{
    for (variable, old) in pairs {
        if number == *old {
            return *variable;
        }
    }
    number
}

// Adds those of the variables that are not bound.
fn add_outside(bound: &[u32], variables: &[u32], found: &mut Vec<u32>) -> Result<(), Memory>
    ensures { OnOk result (found.new.items ≡ found.old.items ++ outside bound.now variables.now) }
{
    for variable in variables {
        if !is_among(bound, *variable) {
            found.push(*variable)?;
        }
    }
    Ok(())
}

// Whether the variable is one of these.
fn is_among(bound: &[u32], variable: u32) -> bool
    ensures { result ≡ among bound.now variable }
{
    for other in bound {
        if variable == *other {
            return true;
        }
    }
    false
}

// Adds the variables of the pairs.
fn add_firsts<T>(pairs: &[(u32, T)], found: &mut Vec<u32>) -> Result<(), Memory>
    ensures { OnOk result (found.new.items ≡ found.old.items ++ firsts pairs.now) }
{
    for (variable, _) in pairs {
        found.push(*variable)?;
    }
    Ok(())
}

// Adds the variables of the terms.
fn add_variables_of_terms(terms: &[(u32, Form)], found: &mut Vec<u32>) -> Result<(), Memory>
    ensures { OnOk result (found.new.items ≡ found.old.items ++ variables_of_terms terms.now) }
{
    for (_, term) in terms {
        add_variables(term, found)?;
    }
    Ok(())
}

// Adds the variables of a formula, as often as they stand in it.
#[tactic(auto, using(bk_form::proofs::Sizes::parts_are_equal))]
#[cycle(variables)]
fn add_variables(form: &Form, found: &mut Vec<u32>) -> Result<(), Memory>
    ensures { OnOk result (found.new.items ≡ found.old.items ++ variables_of form.now) }
{
    match form.view() {
        View::Var(n) => {
            found.push(n)?;
            Ok(())
        }
        View::Un(_, operand) => add_variables(operand, found),
        View::Bin(_, left, right) => {
            add_variables(left, found)?;
            add_variables(right, found)
        }
        View::All(_, body) => add_variables(body, found),
        View::Some(_, body) => add_variables(body, found),
        View::Compr(ranges, body) => {
            add_all_variables(ranges, found)?;
            add_variables(body, found)
        }
        View::Lam(ranges, body, value) => {
            add_all_variables(ranges, found)?;
            add_variables(body, found)?;
            add_variables(value, found)
        }
        _ => Ok(()),
    }
}

// Adds the variables of the formulas.
#[tactic(auto, using(bk_form::proofs::Sizes::parts_are_equal))]
#[cycle(variables)]
fn add_all_variables(forms: &[Form], found: &mut Vec<u32>) -> Result<(), Memory>
    ensures { OnOk result (found.new.items ≡ found.old.items ++ all_variables_of (formulas_of forms.now)) }
{
    for form in forms {
        add_variables(form, found)?;
    }
    Ok(())
}
