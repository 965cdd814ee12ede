// Quantifiers over the values of variables.

ghost use Rattle.std.specs.Prelude.{◌≡◌, map, Err, IfOk, OnOk};
ghost use Rattle.bk_form.specs.Formula.{binary};
ghost use Rattle.bk_form.specs.declared.operator.BinOp.TheVariants.{And, Imp};
ghost use Rattle.bk_bind.specs.Closing.{closed_over_each};
ghost use Rattle.bk_bind.specs.Limits.{IsWithinLimits};
ghost use Rattle.bk_gsl.specs.State.{declared_type, firsts};
ghost use Rattle.bk_wp.specs.Quantifiers.{types_of, all_of, some_of, all_written};
ghost use Rattle.bk_wp.specs.Box.{new_values, all_new, some_new};
ghost use Rattle.bk_wp.specs.declared.error.WpFault.TheVariants.{TooLarge};

use crate::error::WpFault;
use bk_bind::{binary, closed, for_all, for_some, rename};
use bk_form::{BinOp, Form, Ty, VarTable};
use bk_io::Memory;
use std::alloc::Global;

// `!variables.form`, also where nothing is bound.
pub(crate) fn all_of(
    alloc: Global,
    types: &VarTable,
    variables: &[u32],
    form: Form,
) -> Result<Form, WpFault>
    ensures value { IfOk result (λ f. f ≡ all_of types.now variables.now form) }
    ensures within { OnOk result (IsWithinLimits (all_of types.now variables.now form)) }
    ensures too_large { result ≡ Err TooLarge → IsWithinLimits (all_of types.now variables.now form) → ⊥ }
{
    let bound = types_of(alloc, types, variables)?;
    Ok(for_all(alloc, &bound, closed(alloc, &form, variables)?)?)
}

// `#variables.form`, also where nothing is bound.
pub(crate) fn some_of(
    alloc: Global,
    types: &VarTable,
    variables: &[u32],
    form: Form,
) -> Result<Form, WpFault>
    ensures value { IfOk result (λ f. f ≡ some_of types.now variables.now form) }
    ensures within { OnOk result (IsWithinLimits (some_of types.now variables.now form)) }
    ensures too_large { result ≡ Err TooLarge → IsWithinLimits (some_of types.now variables.now form) → ⊥ }
{
    let bound = types_of(alloc, types, variables)?;
    Ok(for_some(alloc, &bound, closed(alloc, &form, variables)?)?)
}

// `!variables.form` over what a loop writes: without a quantifier where it writes nothing.
pub(crate) fn all_written(
    alloc: Global,
    types: &VarTable,
    variables: &[u32],
    form: Form,
) -> Result<Form, WpFault>
    ensures value { IfOk result (λ f. f ≡ all_written types.now variables.now form) }
    ensures too_large { result ≡ Err TooLarge → IsWithinLimits (all_written types.now variables.now form) → ⊥ }
{
    match variables {
        [] => Ok(form),
        [_, ..] => all_of(alloc, types, variables, form),
    }
}

// `!z.(P' => form')` of `x :(P)`, with the new values bound.
#[tactic(auto, using(bk_bind::proofs::Within::parts_within))]
pub(crate) fn all_new(
    alloc: Global,
    types: &VarTable,
    pairs: &[(u32, u32)],
    predicate: &Form,
    form: Form,
) -> Result<Form, WpFault>
    ensures value { IfOk result (λ f. f ≡ all_new types.now pairs.now predicate.now form) }
    ensures within { OnOk result (IsWithinLimits (all_new types.now pairs.now predicate.now form)) }
    ensures too_large { result ≡ Err TooLarge →
        IsWithinLimits (all_new types.now pairs.now predicate.now form) → ⊥ }
{
    let variables = firsts(alloc, pairs)?;
    let bound = types_of(alloc, types, &variables)?;
    let supposed = new_values(alloc, pairs, predicate)?;
    let shown = closed(alloc, &form, &variables)?;
    let implied = binary(alloc, BinOp::Imp, supposed, shown)?;
    Ok(for_all(alloc, &bound, implied)?)
}

// `#z.(P' & form')` of `x :(P)`, with the new values bound.
#[tactic(auto, using(bk_bind::proofs::Within::parts_within))]
pub(crate) fn some_new(
    alloc: Global,
    types: &VarTable,
    pairs: &[(u32, u32)],
    predicate: &Form,
    form: Form,
) -> Result<Form, WpFault>
    ensures value { IfOk result (λ f. f ≡ some_new types.now pairs.now predicate.now form) }
    ensures within { OnOk result (IsWithinLimits (some_new types.now pairs.now predicate.now form)) }
    ensures too_large { result ≡ Err TooLarge →
        IsWithinLimits (some_new types.now pairs.now predicate.now form) → ⊥ }
{
    let variables = firsts(alloc, pairs)?;
    let bound = types_of(alloc, types, &variables)?;
    let supposed = new_values(alloc, pairs, predicate)?;
    let shown = closed(alloc, &form, &variables)?;
    let both = binary(alloc, BinOp::And, supposed, shown)?;
    Ok(for_some(alloc, &bound, both)?)
}

// The predicate of `x :(P)` with new values bound for the variables, and the variables in place of what stands for their old
// values.
pub(crate) fn new_values(
    alloc: Global,
    pairs: &[(u32, u32)],
    predicate: &Form,
) -> Result<Form, Memory>
    ensures { IfOk result (λ f. f ≡ new_values pairs.now predicate.now) }
{
    let variables = firsts(alloc, pairs)?;
    let bound = closed(alloc, predicate, &variables)?;
    rename(alloc, &bound, &swapped(alloc, pairs)?)
}

// Each number for an old value, with its variable.
fn swapped(alloc: Global, pairs: &[(u32, u32)]) -> Result<Vec<(u32, u32)>, Memory>
    ensures { IfOk result (λ ps. ps.items ≡ map (λ p. (p.1, p.0)) pairs.now) }
{
    let mut others = Vec::new(alloc);
    for (variable, old) in pairs {
        others.push((*old, *variable))?;
    }
    Ok(others)
}

// The variables that `x :(P)` changes.
pub(crate) fn firsts(alloc: Global, pairs: &[(u32, u32)]) -> Result<Vec<u32>, Memory>
    ensures { IfOk result (λ zs. zs.items ≡ firsts pairs.now) }
{
    let mut variables = Vec::new(alloc);
    for (variable, _) in pairs {
        variables.push(*variable)?;
    }
    Ok(variables)
}

// The types of the variables.
pub(crate) fn types_of(
    alloc: Global,
    types: &VarTable,
    variables: &[u32],
) -> Result<Vec<Ty>, Memory>
    ensures { IfOk result (λ ts. ts.items ≡ types_of types.now variables.now) }
{
    let mut found = Vec::new(alloc);
    for variable in variables {
        found.push(declared_type(alloc, types, *variable)?)?;
    }
    Ok(found)
}

// The type of a variable; that of one which the table does not list does not matter.
fn declared_type(alloc: Global, types: &VarTable, variable: u32) -> Result<Ty, Memory>
    ensures { IfOk result (λ t. t ≡ declared_type types.now variable) }
{
    match types.ty(variable) {
        Some(ty) => ty.copy(alloc),
        None => Ok(Ty::boolean()),
    }
}
