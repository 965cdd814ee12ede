//! What a substitution is asked beside what it does.

ghost use Rattle.std.specs.Prelude.{◌≡◌, [], Some, None, Err, IfOk, OnOk, MatchOption};
ghost use Rattle.std.specs.Option.{option_copied};
ghost use Rattle.bk_form.specs.Formula.{btrue};
ghost use Rattle.bk_bind.specs.Limits.{IsWithinLimits};
ghost use Rattle.bk_gsl.specs.Clean.{write_of};
ghost use Rattle.bk_gsl.specs.Flat.{IsFlat};
ghost use Rattle.bk_wd.specs.Joining.{both, where_true};
ghost use Rattle.bk_wd.specs.WellDefined.{defined};
ghost use Rattle.bk_wp.specs.Guarded.{over_variables, over_written, box_where, evaluated};
ghost use Rattle.bk_wp.specs.Guarded.{checked_write, checked_at, evaluated_term, evaluated_onto};
ghost use Rattle.bk_wp.specs.Guarded.{such_condition, loop_condition, guarded};
ghost use Rattle.bk_wp.specs.declared.error.WpFault.TheVariants.{TooLarge};

use crate::error::WpFault;
use crate::quantifiers::{all_of, all_written, firsts, new_values, types_of};
use crate::weakest::boxed;
use bk_bind::bounded;
use bk_form::{ArrayRow, Arrays, BinOp, Form, UnOp, VarTable, View};
use bk_gsl::{Sub, SubNode, writes};
use bk_wd::{
    all_over, both, checked, defined, defined_under, index_check, is_true, nothing, where_false,
    where_true,
};
use std::alloc::Global;

/// W(sub): that each formula which the substitution meets is defined or, where arrays are given, as in an implementation, that
/// the expressions which it executes fit the machine instead. Conditions that are `btrue` are left out. Together with
/// `[sub] post` it says that the substitution runs clean. One with `||` is rewritten by copies first.
pub fn guarded(
    alloc: Global,
    types: &VarTable,
    sub: &Sub,
    arrays: Option<&Arrays>,
) -> Result<Form, WpFault>
    requires { IsFlat sub.now }
    ensures value { IfOk result (λ f. f ≡ guarded types.now (option_copied arrays.entry) sub.now) }
    ensures within { OnOk result (IsWithinLimits (guarded types.now (option_copied arrays.entry) sub.now)) }
    ensures too_large { result ≡ Err TooLarge →
        IsWithinLimits (guarded types.now (option_copied arrays.entry) sub.now) → ⊥ }
{
    Ok(bounded(conditions(alloc, types, sub, arrays)?)?)
}

// The conditions of the substitution, which may be larger than the limits where they are a part of the formula.
#[tactic(auto, using(crate::proofs::Guarding::conditions_within))]
fn conditions(
    alloc: Global,
    types: &VarTable,
    sub: &Sub,
    arrays: Option<&Arrays>,
) -> Result<Form, WpFault>
    requires { IsFlat sub.now }
    ensures value { IfOk result (λ f. f ≡ guarded types.now (option_copied arrays.entry) sub.now) }
    ensures too_large { result ≡ Err TooLarge →
        IsWithinLimits (guarded types.now (option_copied arrays.entry) sub.now) → ⊥ }
{
    match &*sub.node {
        SubNode::Assign(terms) => evaluated_terms(alloc, types, arrays, terms),
        SubNode::Pre(p, s) | SubNode::Guard(p, s) | SubNode::Assert(p, s) => {
            let test = defined(alloc, types, p)?;
            let inner = conditions(alloc, types, s, arrays)?;
            Ok(both(alloc, test, where_true(alloc, p, inner)?)?)
        }
        SubNode::Choice(s, t) => {
            let first = conditions(alloc, types, s, arrays)?;
            let second = conditions(alloc, types, t, arrays)?;
            Ok(both(alloc, first, second)?)
        }
        SubNode::If(p, s, t) => {
            let test = evaluated(alloc, types, arrays, p)?;
            let yes = where_true(alloc, p, conditions(alloc, types, s, arrays)?)?;
            let no = where_false(alloc, p, conditions(alloc, types, t, arrays)?)?;
            Ok(both(alloc, both(alloc, test, yes)?, no)?)
        }
        SubNode::Any(locals, s) => {
            over_variables(alloc, types, locals, conditions(alloc, types, s, arrays)?)
        }
        SubNode::Seq(s, t) => {
            let first = conditions(alloc, types, s, arrays)?;
            let second = conditions(alloc, types, t, arrays)?;
            Ok(both(alloc, first, box_where(alloc, types, s, second)?)?)
        }
        SubNode::BecomesSuch(pairs, p) => such_condition(alloc, types, pairs, p),
        SubNode::While {
            test,
            body,
            invariant,
            variant,
        } => {
            let written = writes(alloc, body)?;
            let tested = evaluated(alloc, types, arrays, test)?;
            let inner = conditions(alloc, types, body, arrays)?;
            loop_condition(
                alloc, types, &written, test, invariant, variant, tested, inner,
            )
        }
        // only skip is left
        _ => Ok(nothing(alloc)?),
    }
}

// ---- what is evaluated

// That all terms of an assignment are evaluated, in order.
#[tactic(auto, using(crate::proofs::Guarding::conditions_within))]
fn evaluated_terms(
    alloc: Global,
    types: &VarTable,
    arrays: Option<&Arrays>,
    terms: &[(u32, Form)],
) -> Result<Form, WpFault>
    ensures value { IfOk result (λ f. f ≡ evaluated_onto types.now (option_copied arrays.entry) btrue terms.now) }
    ensures too_large { result ≡ Err TooLarge →
        IsWithinLimits (evaluated_onto types.now (option_copied arrays.entry) btrue terms.now) → ⊥ }
{
    let mut so_far = nothing(alloc)?;
    for (variable, term) in terms {
        let evaluated = evaluated_term(alloc, types, arrays, *variable, term)?;
        so_far = both(alloc, so_far, evaluated)?;
    }
    Ok(so_far)
}

// That the term for a variable is evaluated.
fn evaluated_term(
    alloc: Global,
    types: &VarTable,
    arrays: Option<&Arrays>,
    variable: u32,
    term: &Form,
) -> Result<Form, WpFault>
    ensures value { IfOk result
        (λ f. f ≡ evaluated_term types.now (option_copied arrays.entry) variable term.now) }
    ensures too_large { result ≡ Err TooLarge →
        IsWithinLimits (evaluated_term types.now (option_copied arrays.entry) variable term.now) → ⊥ }
{
    match arrays {
        Some(arrays) => checked_at(alloc, arrays, arrays.row(variable), variable, term),
        None => Ok(defined(alloc, types, term)?),
    }
}

// That the term fits the machine; of a write to an array, its index and its value.
#[tactic(auto, using(crate::proofs::Guarding::conditions_within))]
fn checked_at(
    alloc: Global,
    arrays: &Arrays,
    row: Option<&ArrayRow>,
    variable: u32,
    term: &Form,
) -> Result<Form, WpFault>
    ensures value { IfOk result (λ f. f ≡ checked_at arrays.now (option_copied row.entry) variable term.now) }
    ensures too_large { result ≡ Err TooLarge →
        IsWithinLimits (checked_at arrays.now (option_copied row.entry) variable term.now) → ⊥ }
{
    let Some(row) = row else {
        return Ok(checked(alloc, term, arrays)?);
    };
    let Some((index, value)) = write_of(variable, term) else {
        return Ok(checked(alloc, term, arrays)?);
    };
    let place = index_check(alloc, Some(row), index)?;
    let place = both(alloc, checked(alloc, index, arrays)?, place)?;
    Ok(both(alloc, place, checked(alloc, value, arrays)?)?)
}

// The index and the value that `x <+ {i |-> v}` writes to the array `x`.
fn write_of(variable: u32, term: &Form) -> Option<(&Form, &Form)>
    ensures { MatchOption result (write_of variable term.now ≡ None)
        (λ w. write_of variable term.now ≡ Some (w.0.now, w.1.now)) }
{
    let View::Bin(BinOp::Over, array, write) = term.view() else {
        return None;
    };
    let View::Var(number) = array.view() else {
        return None;
    };
    if number != variable {
        return None;
    }
    let View::Un(UnOp::Single, pair) = write.view() else {
        return None;
    };
    let View::Bin(BinOp::Maps, index, value) = pair.view() else {
        return None;
    };
    Some((index, value))
}

// That a test which is evaluated is defined or, where arrays are given, fits the machine.
fn evaluated(
    alloc: Global,
    types: &VarTable,
    arrays: Option<&Arrays>,
    form: &Form,
) -> Result<Form, WpFault>
    ensures value { IfOk result (λ f. f ≡ evaluated types.now (option_copied arrays.entry) form.now) }
    ensures too_large { result ≡ Err TooLarge →
        IsWithinLimits (evaluated types.now (option_copied arrays.entry) form.now) → ⊥ }
{
    match arrays {
        Some(arrays) => Ok(checked(alloc, form, arrays)?),
        None => Ok(defined(alloc, types, form)?),
    }
}

// ---- substitutions that bind variables

// `!variables.form`, and `btrue` where `form` is.
#[tactic(auto, using(crate::proofs::Guarding::joined_conditions))]
fn over_variables(
    alloc: Global,
    types: &VarTable,
    variables: &[u32],
    form: Form,
) -> Result<Form, WpFault>
    ensures value { IfOk result (λ f. f ≡ over_variables types.now variables.now form) }
    ensures too_large { result ≡ Err TooLarge → IsWithinLimits (over_variables types.now variables.now form) → ⊥ }
{
    if is_true(&form) {
        return Ok(form);
    }
    all_of(alloc, types, variables, form)
}

// The same over what a loop writes: no quantifier where it writes nothing.
#[tactic(auto, using(crate::proofs::Guarding::joined_conditions))]
fn over_written(
    alloc: Global,
    types: &VarTable,
    variables: &[u32],
    form: Form,
) -> Result<Form, WpFault>
    ensures value { IfOk result (λ f. f ≡ over_written types.now variables.now form) }
    ensures too_large { result ≡ Err TooLarge → IsWithinLimits (over_written types.now variables.now form) → ⊥ }
{
    if is_true(&form) {
        return Ok(form);
    }
    all_written(alloc, types, variables, form)
}

// `[sub] post`, and `btrue` where `post` is.
#[tactic(auto, using(crate::proofs::Guarding::joined_conditions))]
fn box_where(alloc: Global, types: &VarTable, sub: &Sub, post: Form) -> Result<Form, WpFault>
    requires { IsFlat sub.now }
    ensures value { IfOk result (λ f. f ≡ box_where types.now sub.now post) }
    ensures too_large { result ≡ Err TooLarge → IsWithinLimits (box_where types.now sub.now post) → ⊥ }
{
    if is_true(&post) {
        return Ok(post);
    }
    boxed(alloc, types, sub, post)
}

// That the predicate of `x :(P)` is defined for all new values.
#[tactic(auto, using(bk_wd::proofs::Within::within_all_over))]
fn such_condition(
    alloc: Global,
    types: &VarTable,
    pairs: &[(u32, u32)],
    predicate: &Form,
) -> Result<Form, WpFault>
    ensures value { IfOk result (λ f. f ≡ such_condition types.now pairs.now predicate.now) }
    ensures too_large { result ≡ Err TooLarge →
        IsWithinLimits (such_condition types.now pairs.now predicate.now) → ⊥ }
{
    let bound = types_of(alloc, types, &firsts(alloc, pairs)?)?;
    let inner = new_values(alloc, pairs, predicate)?;
    let condition = defined_under(alloc, types, &bound, &inner)?;
    Ok(all_over(alloc, &bound, condition)?)
}

// That the invariant, the test, the body and the variant are met as they should be at each turn of a loop, where `tested` is
// that the test is evaluated and `inner` what the body is asked.
#[tactic(auto, using(crate::proofs::Guarding::conditions_within))]
fn loop_condition(
    alloc: Global,
    types: &VarTable,
    written: &[u32],
    test: &Form,
    invariant: &Form,
    variant: &Form,
    tested: Form,
    inner: Form,
) -> Result<Form, WpFault>
    ensures value { IfOk result
        (λ f. f ≡ loop_condition types.now written.now test.now invariant.now variant.now tested inner) }
    ensures too_large { result ≡ Err TooLarge →
        IsWithinLimits (loop_condition types.now written.now test.now invariant.now variant.now tested inner) → ⊥ }
{
    let kept = over_written(alloc, types, written, defined(alloc, types, invariant)?)?;
    let turn = turn_condition(alloc, types, test, variant, tested, inner)?;
    let turn = where_true(alloc, invariant, turn)?;
    Ok(both(alloc, kept, over_written(alloc, types, written, turn)?)?)
}

// That the test, and where it is true the body and the variant, are met as they should be.
#[tactic(auto, using(crate::proofs::Guarding::conditions_within))]
fn turn_condition(
    alloc: Global,
    types: &VarTable,
    test: &Form,
    variant: &Form,
    tested: Form,
    inner: Form,
) -> Result<Form, WpFault>
    ensures value { IfOk result
        (λ f. f ≡ both tested (where_true test.now (both inner (defined types.now [] variant.now)))) }
    ensures too_large { result ≡ Err TooLarge →
        IsWithinLimits (both tested (where_true test.now (both inner (defined types.now [] variant.now)))) → ⊥ }
{
    let falls = defined(alloc, types, variant)?;
    let turn = where_true(alloc, test, both(alloc, inner, falls)?)?;
    Ok(both(alloc, tested, turn)?)
}
