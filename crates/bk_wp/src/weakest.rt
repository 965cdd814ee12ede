//! The box and the diamond of a substitution.

ghost use Rattle.std.specs.Prelude.{◌≡◌, [], ◌∷◌, Err, IfOk, OnOk};
ghost use Rattle.bk_form.specs.Formula.{variable, named, unary, binary};
ghost use Rattle.bk_form.specs.declared.operator.UnOp.TheVariants.{Not};
ghost use Rattle.bk_form.specs.declared.operator.BinOp.TheVariants.{And, Imp, In, Lt};
ghost use Rattle.bk_form.specs.declared.operator.Domain.TheVariants.{Natural};
ghost use Rattle.bk_form.specs.Replacement.{replaced, looked_up};
ghost use Rattle.bk_bind.specs.Limits.{IsWithinLimits};
ghost use Rattle.bk_gsl.specs.Flat.{IsFlat};
ghost use Rattle.bk_wp.specs.Box.{variant_before, loop_box, box, diamond};
ghost use Rattle.bk_wp.specs.Quantifiers.{all_written};
ghost use Rattle.bk_wp.specs.Shapes.{HasNoLoop};
ghost use Rattle.bk_wp.specs.declared.error.WpFault.TheVariants.{TooLarge};

use crate::error::WpFault;
use crate::quantifiers::{all_new, all_of, all_written, some_new, some_of};
use bk_bind::{binary, bounded, replace, unary};
use bk_form::{BinOp, Domain, Form, Part, UnOp, VarTable};
use bk_gsl::{Sub, SubNode, writes};
use bk_io::Memory;
use std::alloc::Global;

/// `[sub] post`, not simplified: what is true before the substitution exactly where it ends and all its results meet
/// `post` (B-Book, weakest preconditions). Where it has loops it says at least that much. A substitution with `||` is
/// rewritten by copies first.
#[tactic(auto, using(crate::proofs::Growth::parts_within, crate::proofs::Growth::loops_within))]
pub fn boxed(alloc: Global, types: &VarTable, sub: &Sub, post: Form) -> Result<Form, WpFault>
    requires { IsFlat sub.now }
    ensures value { IfOk result (λ f. f ≡ box types.now sub.now post) }
    ensures within { OnOk result (IsWithinLimits (box types.now sub.now post)) }
    ensures too_large { result ≡ Err TooLarge → IsWithinLimits (box types.now sub.now post) → ⊥ }
{
    match &*sub.node {
        SubNode::Assign(terms) => Ok(replace(alloc, &post, terms)?),
        SubNode::Pre(p, s) => joined(alloc, BinOp::And, p, boxed(alloc, types, s, post)?),
        SubNode::Guard(p, s) => joined(alloc, BinOp::Imp, p, boxed(alloc, types, s, post)?),
        SubNode::Choice(s, t) => {
            let first = boxed(alloc, types, s, post.copy(alloc)?)?;
            let second = boxed(alloc, types, t, post)?;
            Ok(binary(alloc, BinOp::And, first, second)?)
        }
        SubNode::If(p, s, t) => {
            let yes = boxed(alloc, types, s, post.copy(alloc)?)?;
            let no = boxed(alloc, types, t, post)?;
            by_test(alloc, BinOp::And, BinOp::Imp, p, yes, no)
        }
        SubNode::Any(locals, s) => all_of(alloc, types, locals, boxed(alloc, types, s, post)?),
        SubNode::Seq(s, t) => boxed(alloc, types, s, boxed(alloc, types, t, post)?),
        SubNode::Assert(p, s) => {
            let inner = joined(alloc, BinOp::Imp, p, boxed(alloc, types, s, post)?)?;
            joined(alloc, BinOp::And, p, inner)
        }
        SubNode::BecomesSuch(pairs, p) => all_new(alloc, types, pairs, p, post),
        SubNode::While {
            test,
            body,
            invariant,
            variant,
        } => {
            let written = writes(alloc, body)?;
            let kept = boxed(alloc, types, body, invariant.copy(alloc)?)?;
            let falls = boxed(alloc, types, body, is_less(alloc, types, variant)?)?;
            loop_box(
                alloc, types, &written, test, invariant, variant, post, kept, falls,
            )
        }
        // only skip is left
        _ => Ok(bounded(post)?),
    }
}

/// `<sub> post`, not simplified: what is true before the substitution exactly where it does not end or some result meets
/// `post`. Loops stand only in implementations, of which no diamond is asked; a substitution with `||` is rewritten by
/// copies first.
#[tactic(auto, using(crate::proofs::Growth::parts_within))]
pub fn diamond(alloc: Global, types: &VarTable, sub: &Sub, post: Form) -> Result<Form, WpFault>
    requires { HasNoLoop sub.now }
    ensures value { IfOk result (λ f. f ≡ diamond types.now sub.now post) }
    ensures within { OnOk result (IsWithinLimits (diamond types.now sub.now post)) }
    ensures too_large { result ≡ Err TooLarge → IsWithinLimits (diamond types.now sub.now post) → ⊥ }
{
    match &*sub.node {
        SubNode::Assign(terms) => Ok(replace(alloc, &post, terms)?),
        SubNode::Pre(p, s) => joined(alloc, BinOp::Imp, p, diamond(alloc, types, s, post)?),
        SubNode::Guard(p, s) => joined(alloc, BinOp::And, p, diamond(alloc, types, s, post)?),
        SubNode::Choice(s, t) => {
            let first = diamond(alloc, types, s, post.copy(alloc)?)?;
            let second = diamond(alloc, types, t, post)?;
            Ok(binary(alloc, BinOp::Or, first, second)?)
        }
        SubNode::If(p, s, t) => {
            let yes = diamond(alloc, types, s, post.copy(alloc)?)?;
            let no = diamond(alloc, types, t, post)?;
            by_test(alloc, BinOp::Or, BinOp::And, p, yes, no)
        }
        SubNode::Any(locals, s) => some_of(alloc, types, locals, diamond(alloc, types, s, post)?),
        SubNode::Seq(s, t) => diamond(alloc, types, s, diamond(alloc, types, t, post)?),
        SubNode::Assert(p, s) => {
            let inner = joined(alloc, BinOp::And, p, diamond(alloc, types, s, post)?)?;
            joined(alloc, BinOp::Imp, p, inner)
        }
        SubNode::BecomesSuch(pairs, p) => some_new(alloc, types, pairs, p, post),
        // only skip is left
        _ => Ok(bounded(post)?),
    }
}

// The operator on the test and the formula.
fn joined(alloc: Global, op: BinOp, test: &Form, inner: Form) -> Result<Form, WpFault>
    ensures value { IfOk result (λ f. f ≡ binary op test.now inner) }
    ensures within { OnOk result (IsWithinLimits (binary op test.now inner)) }
    ensures too_large { result ≡ Err TooLarge → IsWithinLimits (binary op test.now inner) → ⊥ }
{
    Ok(binary(alloc, op, test.copy(alloc)?, inner)?)
}

// The outer operator on both branches: the inner one on the test and `yes`, and on its negation and `no`.
#[tactic(auto, using(crate::proofs::Growth::parts_within))]
fn by_test(
    alloc: Global,
    outer: BinOp,
    inner: BinOp,
    test: &Form,
    yes: Form,
    no: Form,
) -> Result<Form, WpFault>
    ensures value { IfOk result
        (λ f. f ≡ binary outer (binary inner test.now yes) (binary inner (unary Not test.now) no)) }
    ensures within { OnOk result (IsWithinLimits
        (binary outer (binary inner test.now yes) (binary inner (unary Not test.now) no))) }
    ensures too_large { result ≡ Err TooLarge →
        IsWithinLimits (binary outer (binary inner test.now yes) (binary inner (unary Not test.now) no)) → ⊥ }
{
    let negated = unary(alloc, UnOp::Not, test.copy(alloc)?)?;
    let no = binary(alloc, inner, negated, no)?;
    let yes = joined(alloc, inner, test, yes)?;
    Ok(binary(alloc, outer, yes, no)?)
}

// `V < n`, where `n` stands for the value of the variant before a turn.
fn is_less(alloc: Global, types: &VarTable, variant: &Form) -> Result<Form, WpFault>
    ensures value { IfOk result (λ f. f ≡ binary Lt variant.now (variable (variant_before types.now))) }
    ensures too_large { result ≡ Err TooLarge →
        IsWithinLimits (binary Lt variant.now (variable (variant_before types.now))) → ⊥ }
{
    let before = Form::make(alloc, Part::Var(variant_before(types)?))?;
    Ok(binary(alloc, BinOp::Lt, variant.copy(alloc)?, before)?)
}

// The first number that the table does not list.
fn variant_before(types: &VarTable) -> Result<u32, Memory>
    ensures { IfOk result (λ n. n ≡ variant_before types.now) }
{
    if types.variables() > u32::MAX as usize {
        return Err(Memory);
    }
    Ok(types.variables() as u32)
}

// That number with the variant in its place.
fn value_before(alloc: Global, types: &VarTable, variant: &Form) -> Result<Vec<(u32, Form)>, Memory>
    ensures { IfOk result (λ ps. ps.items ≡ (variant_before types.now, variant.now) ∷ []) }
{
    Ok(vec![in alloc; (variant_before(types)?, variant.copy(alloc)?)]?)
}

// The five parts of a loop, of what its body is to keep and of how the variant is to fall.
#[tactic(auto, using(crate::proofs::Growth::loop_parts_within))]
fn loop_box(
    alloc: Global,
    types: &VarTable,
    written: &[u32],
    test: &Form,
    invariant: &Form,
    variant: &Form,
    post: Form,
    kept: Form,
    falls: Form,
) -> Result<Form, WpFault>
    ensures value { IfOk result
        (λ f. f ≡ loop_box types.now written.now test.now invariant.now variant.now post kept falls) }
    ensures within { OnOk result (IsWithinLimits
        (loop_box types.now written.now test.now invariant.now variant.now post kept falls)) }
    ensures too_large { result ≡ Err TooLarge →
        IsWithinLimits (loop_box types.now written.now test.now invariant.now variant.now post kept falls) → ⊥ }
{
    let keeps = each_turn(alloc, types, written, invariant, test, kept)?;
    let counts = counts_at_each_turn(alloc, types, written, invariant, test, variant)?;
    let falls = falls_at_each_turn(alloc, types, written, invariant, test, variant, falls)?;
    let leaves = after_the_last_turn(alloc, types, written, invariant, test, post)?;
    all_parts(alloc, invariant, keeps, counts, falls, leaves)
}

// That the variant is natural before each turn.
#[tactic(auto, using(crate::proofs::Growth::loop_parts_within))]
fn counts_at_each_turn(
    alloc: Global,
    types: &VarTable,
    written: &[u32],
    invariant: &Form,
    test: &Form,
    variant: &Form,
) -> Result<Form, WpFault>
    ensures value { IfOk result (λ f. f ≡ all_written types.now written.now
        (binary Imp (binary And invariant.now test.now) (binary In variant.now (named Natural)))) }
    ensures too_large { result ≡ Err TooLarge → IsWithinLimits (all_written types.now written.now
        (binary Imp (binary And invariant.now test.now) (binary In variant.now (named Natural)))) → ⊥ }
{
    let natural = Form::make(alloc, Part::Name(Domain::Natural))?;
    let counts = binary(alloc, BinOp::In, variant.copy(alloc)?, natural)?;
    each_turn(alloc, types, written, invariant, test, counts)
}

// That each turn meets `falls`, where the number of the variant before it stands for the variant.
#[tactic(auto, using(crate::proofs::Growth::loop_turns_within))]
fn falls_at_each_turn(
    alloc: Global,
    types: &VarTable,
    written: &[u32],
    invariant: &Form,
    test: &Form,
    variant: &Form,
    falls: Form,
) -> Result<Form, WpFault>
    ensures value { IfOk result (λ f. f ≡ all_written types.now written.now (binary Imp (binary And invariant.now test.now)
        (replaced (looked_up ((variant_before types.now, variant.now) ∷ [])) falls))) }
    ensures too_large { result ≡ Err TooLarge →
        IsWithinLimits (all_written types.now written.now (binary Imp (binary And invariant.now test.now)
        (replaced (looked_up ((variant_before types.now, variant.now) ∷ [])) falls))) → ⊥ }
{
    let before = value_before(alloc, types, variant)?;
    let falls = replace(alloc, &falls, &before)?;
    each_turn(alloc, types, written, invariant, test, falls)
}

// That `post` is met where the loop ends.
#[tactic(auto, using(crate::proofs::Growth::loop_parts_within))]
fn after_the_last_turn(
    alloc: Global,
    types: &VarTable,
    written: &[u32],
    invariant: &Form,
    test: &Form,
    post: Form,
) -> Result<Form, WpFault>
    ensures value { IfOk result (λ f. f ≡ all_written types.now written.now
        (binary Imp (binary And invariant.now (unary Not test.now)) post)) }
    ensures too_large { result ≡ Err TooLarge → IsWithinLimits (all_written types.now written.now
        (binary Imp (binary And invariant.now (unary Not test.now)) post)) → ⊥ }
{
    let negated = unary(alloc, UnOp::Not, test.copy(alloc)?)?;
    each_turn(alloc, types, written, invariant, &negated, post)
}

// The invariant and the four parts about turns.
#[tactic(auto, using(crate::proofs::Growth::loop_parts_within))]
fn all_parts(
    alloc: Global,
    invariant: &Form,
    keeps: Form,
    counts: Form,
    falls: Form,
    leaves: Form,
) -> Result<Form, WpFault>
    ensures value { IfOk result (λ f. f ≡
        binary And (binary And (binary And (binary And invariant.now keeps) counts) falls) leaves) }
    ensures within { OnOk result (IsWithinLimits
        (binary And (binary And (binary And (binary And invariant.now keeps) counts) falls) leaves)) }
    ensures too_large { result ≡ Err TooLarge → IsWithinLimits
        (binary And (binary And (binary And (binary And invariant.now keeps) counts) falls) leaves) → ⊥ }
{
    let parts = joined(alloc, BinOp::And, invariant, keeps)?;
    let parts = binary(alloc, BinOp::And, parts, counts)?;
    let parts = binary(alloc, BinOp::And, parts, falls)?;
    Ok(binary(alloc, BinOp::And, parts, leaves)?)
}

// `!x.(I & P => form)`, for all values of what the loop writes.
#[tactic(auto, using(crate::proofs::Growth::loop_parts_within))]
fn each_turn(
    alloc: Global,
    types: &VarTable,
    written: &[u32],
    invariant: &Form,
    test: &Form,
    form: Form,
) -> Result<Form, WpFault>
    ensures value { IfOk result
        (λ f. f ≡ all_written types.now written.now (binary Imp (binary And invariant.now test.now) form)) }
    ensures too_large { result ≡ Err TooLarge →
        IsWithinLimits (all_written types.now written.now (binary Imp (binary And invariant.now test.now) form)) → ⊥ }
{
    let turn = joined(alloc, BinOp::And, invariant, test.copy(alloc)?)?;
    let implied = binary(alloc, BinOp::Imp, turn, form)?;
    all_written(alloc, types, written, implied)
}
