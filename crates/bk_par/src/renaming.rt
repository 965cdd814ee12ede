// Variables in place of variables where a substitution reads them.

ghost use Rattle.std.specs.Prelude.{◌≡◌, IfOk};
ghost use Rattle.bk_form.specs.Replacement.{renamed};
ghost use Rattle.bk_bind.specs.Renaming.{new_name};
ghost use Rattle.bk_gsl.specs.Substitution.{if_else, any, becomes_such, loop};
ghost use Rattle.bk_gsl.specs.Flat.{renamed_terms, reading};

use bk_bind::rename;
use bk_form::Form;
use bk_gsl::{Sub, SubNode};
use bk_io::Memory;
use std::alloc::Global;

// The substitution with the second variable of each pair in place of the first where it is read; what it writes and binds
// stays.
#[cycle(reading)]
pub(crate) fn reading(alloc: Global, sub: &Sub, pairs: &[(u32, u32)]) -> Result<Sub, Memory>
    ensures { IfOk result (λ s. s ≡ reading (new_name pairs.now) sub.now) }
{
    match &*sub.node {
        SubNode::Skip => Sub::skip(alloc),
        SubNode::Assign(terms) => Sub::assign(alloc, renamed_terms(alloc, terms, pairs)?),
        SubNode::Pre(p, s) => {
            let (p, s) = reading_guarded(alloc, p, s, pairs)?;
            Sub::pre(alloc, p, s)
        }
        SubNode::Guard(p, s) => {
            let (p, s) = reading_guarded(alloc, p, s, pairs)?;
            Sub::guard(alloc, p, s)
        }
        SubNode::Choice(s, t) => {
            let (s, t) = reading_both(alloc, s, t, pairs)?;
            Sub::choice(alloc, s, t)
        }
        SubNode::If(p, s, t) => {
            let (s, t) = reading_both(alloc, s, t, pairs)?;
            reading_if(alloc, p, s, t, pairs)
        }
        SubNode::Any(locals, s) => reading_any(alloc, locals, reading(alloc, s, pairs)?),
        SubNode::Seq(s, t) => {
            let (s, t) = reading_both(alloc, s, t, pairs)?;
            Sub::seq(alloc, s, t)
        }
        SubNode::Par(s, t) => {
            let (s, t) = reading_both(alloc, s, t, pairs)?;
            Sub::par(alloc, s, t)
        }
        SubNode::While {
            test,
            body,
            invariant,
            variant,
        } => {
            let body = reading(alloc, body, pairs)?;
            reading_while(alloc, test, body, invariant, variant, pairs)
        }
        SubNode::Assert(p, s) => {
            let (p, s) = reading_guarded(alloc, p, s, pairs)?;
            Sub::assertion(alloc, p, s)
        }
        SubNode::BecomesSuch(olds, p) => reading_such(alloc, olds, p, pairs),
    }
}

// A formula and the substitution that it stands before, read so.
#[cycle(reading)]
fn reading_guarded(
    alloc: Global,
    condition: &Form,
    body: &Sub,
    pairs: &[(u32, u32)],
) -> Result<(Form, Sub), Memory>
    ensures condition { IfOk result (λ r. r.0 ≡ renamed (new_name pairs.now) condition.now) }
    ensures body { IfOk result (λ r. r.1 ≡ reading (new_name pairs.now) body.now) }
{
    let body = reading(alloc, body, pairs)?;
    Ok((rename(alloc, condition, pairs)?, body))
}

// Two substitutions, read so.
#[cycle(reading)]
fn reading_both(
    alloc: Global,
    first: &Sub,
    second: &Sub,
    pairs: &[(u32, u32)],
) -> Result<(Sub, Sub), Memory>
    ensures first { IfOk result (λ r. r.0 ≡ reading (new_name pairs.now) first.now) }
    ensures second { IfOk result (λ r. r.1 ≡ reading (new_name pairs.now) second.now) }
{
    let first = reading(alloc, first, pairs)?;
    Ok((first, reading(alloc, second, pairs)?))
}

// The `IF` of these branches, with the test read so.
fn reading_if(
    alloc: Global,
    test: &Form,
    yes: Sub,
    no: Sub,
    pairs: &[(u32, u32)],
) -> Result<Sub, Memory>
    ensures { IfOk result (λ s. s ≡ if_else (renamed (new_name pairs.now) test.now) yes no) }
{
    Sub::if_else(alloc, rename(alloc, test, pairs)?, yes, no)
}

// The `VAR` of this body.
fn reading_any(alloc: Global, locals: &[u32], body: Sub) -> Result<Sub, Memory>
    ensures { IfOk result (λ s. s ≡ any locals.now body) }
{
    Sub::any(alloc, Vec::from_slice(alloc, locals)?, body)
}

// The `WHILE` of this body, with its formulas read so.
fn reading_while(
    alloc: Global,
    test: &Form,
    body: Sub,
    invariant: &Form,
    variant: &Form,
    pairs: &[(u32, u32)],
) -> Result<Sub, Memory>
    ensures { IfOk result (λ s. s ≡ loop (renamed (new_name pairs.now) test.now) body
        (renamed (new_name pairs.now) invariant.now) (renamed (new_name pairs.now) variant.now)) }
{
    let test = rename(alloc, test, pairs)?;
    let invariant = rename(alloc, invariant, pairs)?;
    let variant = rename(alloc, variant, pairs)?;
    Sub::while_loop(alloc, test, body, invariant, variant)
}

// `x :(P)` with the predicate read so.
fn reading_such(
    alloc: Global,
    olds: &[(u32, u32)],
    predicate: &Form,
    pairs: &[(u32, u32)],
) -> Result<Sub, Memory>
    ensures { IfOk result (λ s. s ≡ becomes_such olds.now (renamed (new_name pairs.now) predicate.now)) }
{
    let predicate = rename(alloc, predicate, pairs)?;
    Sub::becomes_such(alloc, Vec::from_slice(alloc, olds)?, predicate)
}

// The terms with the variables renamed; the variables on the left stay.
fn renamed_terms(
    alloc: Global,
    terms: &[(u32, Form)],
    pairs: &[(u32, u32)],
) -> Result<Vec<(u32, Form)>, Memory>
    ensures { IfOk result (λ ts. ts.items ≡ renamed_terms (new_name pairs.now) terms.now) }
{
    let mut others = Vec::new(alloc);
    for (variable, term) in terms {
        others.push((*variable, rename(alloc, term, pairs)?))?;
    }
    Ok(others)
}
