//! The goals of the obligations, before they are taken apart.

ghost use Rattle.std.specs.Prelude.{◌≡◌, ◌++◌, ◌<◌, [], ◌∷◌, not, map, length, Err, IfOk, OnOk};
ghost use Rattle.std.specs.List.{filter};
ghost use Rattle.bk_form.specs.Formula.{binary};
ghost use Rattle.bk_form.specs.declared.operator.BinOp.TheVariants.{And, Imp};
ghost use Rattle.bk_bind.specs.Limits.{IsWithinLimits};
ghost use Rattle.bk_form.specs.Replacement.{replaced, looked_up};
ghost use Rattle.bk_wp.specs.Box.{box, diamond};
ghost use Rattle.bk_gsl.specs.Flat.{IsFlat};
ghost use Rattle.bk_wd.specs.WellDefined.{defined};
ghost use Rattle.bk_wp.specs.Shapes.{HasNoLoop};
ghost use Rattle.bk_wp.specs.declared.error.WpFault.TheVariants.{TooLarge};
ghost use Rattle.bk_dev.specs.Development.{is_btrue, whole, level_at, body_at};
ghost use Rattle.bk_form.specs.Predicates.{equation};
ghost use Rattle.bk_dev.specs.Claims.{beside};
ghost use Rattle.bk_po.specs.Obligations.{joined_onto, conjunction, each_after, defined_in_turn, values_goal};
ghost use Rattle.bk_po.specs.Obligations.{joined_goal, init_goal, operation_goal, evaluation_goal, goal_of};
ghost use Rattle.bk_po.specs.Supposed.{FitsClause};

use crate::clause::Clause;
use crate::flattening::FlatDevelopment;
use crate::hypotheses::add_links;
use bk_bind::{binary, replace};
use bk_dev::{Body, Level};
use bk_form::{BinOp, Form, VarTable, View};
use bk_gsl::Sub;
use bk_io::Memory;
use bk_wd::{both, defined, nothing, where_true};
use bk_wp::{WpFault, boxed, diamond, guarded};
use std::alloc::Global;

/// What the obligation of a clause at a level is to show.
pub(crate) fn goal(
    alloc: Global,
    dev: &FlatDevelopment<'_>,
    level: usize,
    clause: Clause,
) -> Result<Form, WpFault>
    requires level { level < length dev.now.levels }
    requires fits { FitsClause dev.now clause }
    ensures value { IfOk result (λ f. f ≡ goal_of dev.now level clause) }
    ensures too_large { result ≡ Err TooLarge → IsWithinLimits (goal_of dev.now level clause) → ⊥ }
{
    let stated = dev.level(level);
    match clause {
        Clause::PropertiesDefined => defined_goal(alloc, &dev.table, &stated.properties),
        Clause::ValuesMeet => values_goal(alloc, dev, level),
        Clause::InvariantDefined => defined_goal(alloc, &dev.table, &stated.invariant),
        Clause::AssertionsDefined => defined_in_turn(alloc, &dev.table, &stated.assertions),
        Clause::AssertionsHold => each_after(alloc, &stated.assertions),
        Clause::Initialisation => init_goal(alloc, dev, level),
        Clause::InitialisationDefined => init_evaluation(alloc, dev, level),
        Clause::Operation(operation) => operation_goal(alloc, dev, level, operation),
        Clause::OperationDefined(operation) => operation_evaluation(alloc, dev, level, operation),
    }
}

// That the formula is defined.
fn defined_goal(alloc: Global, types: &VarTable, form: &Form) -> Result<Form, WpFault>
    ensures value { IfOk result (λ f. f ≡ defined types.now [] form.now) }
    ensures too_large { result ≡ Err TooLarge → IsWithinLimits (defined types.now [] form.now) → ⊥ }
{
    Ok(defined(alloc, types, form)?)
}

// That each assertion is defined where those before it are true.
#[tactic(auto, using(bk_wd::proofs::Within::conditions_within))]
fn defined_in_turn(alloc: Global, types: &VarTable, assertions: &[Form]) -> Result<Form, WpFault>
    ensures value { IfOk result (λ f. f ≡ defined_in_turn types.now assertions.now) }
    ensures too_large { result ≡ Err TooLarge → IsWithinLimits (defined_in_turn types.now assertions.now) → ⊥ }
{
    match assertions {
        [] => Ok(nothing(alloc)?),
        [first, others @ ..] => {
            let condition = defined(alloc, types, first)?;
            let rest = defined_in_turn(alloc, types, others)?;
            Ok(both(alloc, condition, where_true(alloc, first, rest)?)?)
        }
    }
}

// The first assertion, and each other where those before it are true.
#[tactic(auto, using(crate::proofs::Growing::goals_within))]
fn each_after(alloc: Global, assertions: &[Form]) -> Result<Form, WpFault>
    ensures value { IfOk result (λ f. f ≡ each_after assertions.now) }
    ensures too_large { result ≡ Err TooLarge → IsWithinLimits (each_after assertions.now) → ⊥ }
{
    match assertions {
        [] => Ok(nothing(alloc)?),
        [first, others @ ..] => {
            if others.is_empty() {
                return Ok(first.copy(alloc)?);
            }
            followed(alloc, first, each_after(alloc, others)?)
        }
    }
}

// The assertion, and the rest where it is true.
#[tactic(auto, using(bk_wp::proofs::Growth::parts_within))]
fn followed(alloc: Global, first: &Form, rest: Form) -> Result<Form, WpFault>
    ensures value { IfOk result (λ f. f ≡ binary And first.now (binary Imp first.now rest)) }
    ensures too_large { result ≡ Err TooLarge → IsWithinLimits (binary And first.now (binary Imp first.now rest)) → ⊥ }
{
    let implied = binary(alloc, BinOp::Imp, first.copy(alloc)?, rest)?;
    Ok(binary(alloc, BinOp::And, first.copy(alloc)?, implied)?)
}

// That the constants' values have the properties of the levels.
fn values_goal(alloc: Global, dev: &FlatDevelopment<'_>, level: usize) -> Result<Form, WpFault>
    requires { level < length dev.now.levels }
    ensures value { IfOk result (λ f. f ≡ values_goal dev.now level) }
    ensures too_large { result ≡ Err TooLarge → IsWithinLimits (values_goal dev.now level) → ⊥ }
{
    let written = dev.written;
    valued(alloc, &dev.levels[..level + 1], &written.values)
}

// The levels' properties with the values in place of the constants.
#[tactic(auto, using(bk_wp::proofs::Growth::within_replaced))]
fn valued(alloc: Global, levels: &[Level], values: &[(u32, Form)]) -> Result<Form, WpFault>
    ensures value { IfOk result
        (λ f. f ≡ replaced (looked_up values.now) (conjunction (map (λ l. l.properties) levels.now))) }
    ensures too_large { result ≡ Err TooLarge →
        IsWithinLimits (replaced (looked_up values.now) (conjunction (map (λ l. l.properties) levels.now))) → ⊥ }
{
    let properties = properties(alloc, levels)?;
    let all = conjunction(alloc, &properties)?;
    Ok(replace(alloc, &all, values)?)
}

fn properties(alloc: Global, levels: &[Level]) -> Result<Vec<Form>, Memory>
    ensures { IfOk result (λ list. list.items ≡ map (λ l. l.properties) levels.now) }
{
    let mut list = Vec::new(alloc);
    for level in levels {
        list.push(level.properties.copy(alloc)?)?;
    }
    Ok(list)
}

// That the machine's initialisation meets its invariant, or that each other is answered by the one above.
#[tactic(auto, using(crate::proofs::FlatParts::flat_parts))]
fn init_goal(alloc: Global, dev: &FlatDevelopment<'_>, level: usize) -> Result<Form, WpFault>
    requires { level < length dev.now.levels }
    ensures value { IfOk result (λ f. f ≡ init_goal dev.now level) }
    ensures too_large { result ≡ Err TooLarge → IsWithinLimits (init_goal dev.now level) → ⊥ }
{
    dev.facts();
    let lower = dev.level(level);
    if level == 0 {
        return boxed(alloc, &dev.table, &lower.init, lower.invariant.copy(alloc)?);
    }
    answered_init(alloc, &dev.table, lower, dev.level(level - 1))
}

// That the initialisation is answered by the one above.
#[tactic(auto, using(bk_wp::proofs::Growth::parts_within))]
fn answered_init(
    alloc: Global,
    types: &VarTable,
    lower: &Level,
    upper: &Level,
) -> Result<Form, WpFault>
    requires lower { IsFlat lower.now.init }
    requires upper { HasNoLoop upper.now.init }
    ensures value { IfOk result
        (λ f. f ≡ box types.now lower.now.init (diamond types.now upper.now.init (joined_goal lower.now [] []))) }
    ensures too_large { result ≡ Err TooLarge →
        IsWithinLimits (box types.now lower.now.init
        (diamond types.now upper.now.init (joined_goal lower.now [] []))) → ⊥ }
{
    let joining = joining_goal(alloc, lower, &[], &[])?;
    let answered = diamond(alloc, types, &upper.init, joining)?;
    boxed(alloc, types, &lower.init, answered)
}

// That the machine's operation keeps its invariant, or that each other is answered by the one above.
#[tactic(auto, using(crate::proofs::FlatParts::flat_parts))]
fn operation_goal(
    alloc: Global,
    dev: &FlatDevelopment<'_>,
    level: usize,
    operation: usize,
) -> Result<Form, WpFault>
    requires level { level < length dev.now.levels }
    requires operation { operation < length dev.now.heads }
    ensures value { IfOk result (λ f. f ≡ operation_goal dev.now level operation) }
    ensures too_large { result ≡ Err TooLarge → IsWithinLimits (operation_goal dev.now level operation) → ⊥ }
{
    dev.facts();
    let lower = dev.level(level);
    let body = dev.body(level, operation);
    if level == 0 {
        return kept_goal(alloc, &dev.table, lower, body);
    }
    answered_goal(
        alloc,
        &dev.table,
        lower,
        body,
        dev.body(level - 1, operation),
    )
}

// That the machine's body, without its outermost precondition, keeps the invariant.
fn kept_goal(alloc: Global, types: &VarTable, level: &Level, body: &Body) -> Result<Form, WpFault>
    requires { IsFlat body.now.sub }
    ensures value { IfOk result (λ f. f ≡ box types.now body.now.sub level.now.invariant) }
    ensures too_large { result ≡ Err TooLarge → IsWithinLimits (box types.now body.now.sub level.now.invariant) → ⊥ }
{
    boxed(alloc, types, &body.sub, level.invariant.copy(alloc)?)
}

// That the whole body is answered by the body above, without that one's outermost precondition.
#[tactic(auto, using(bk_wp::proofs::Growth::parts_within, crate::proofs::FlatParts::whole_is_flat))]
fn answered_goal(
    alloc: Global,
    types: &VarTable,
    level: &Level,
    lower: &Body,
    upper: &Body,
) -> Result<Form, WpFault>
    requires lower { IsFlat lower.now.sub }
    requires upper { HasNoLoop upper.now.sub }
    ensures value { IfOk result
        (λ f. f ≡ box types.now (whole lower.now)
        (diamond types.now upper.now.sub (joined_goal level.now lower.now.outputs upper.now.outputs))) }
    ensures too_large { result ≡ Err TooLarge →
        IsWithinLimits (box types.now (whole lower.now)
        (diamond types.now upper.now.sub (joined_goal level.now lower.now.outputs upper.now.outputs))) → ⊥ }
{
    let joining = joining_goal(alloc, level, &lower.outputs, &upper.outputs)?;
    let answered = diamond(alloc, types, &upper.sub, joining)?;
    boxed(alloc, types, &whole(alloc, lower)?, answered)
}

// The body under its outermost precondition, where there is one.
fn whole(alloc: Global, body: &Body) -> Result<Sub, Memory>
    ensures { IfOk result (λ s. s ≡ whole body.now) }
{
    let sub = body.sub.copy(alloc)?;
    if is_true(&body.pre) {
        return Ok(sub);
    }
    Sub::pre(alloc, body.pre.copy(alloc)?, sub)
}

// That what the level's initialisation meets is defined, or that what it executes fits the machine.
#[tactic(auto, using(crate::proofs::FlatParts::flat_parts))]
fn init_evaluation(alloc: Global, dev: &FlatDevelopment<'_>, level: usize) -> Result<Form, WpFault>
    requires { level < length dev.now.levels }
    ensures value { IfOk result (λ f. f ≡ evaluation_goal dev.now level (level_at dev.now level).init) }
    ensures too_large { result ≡ Err TooLarge →
        IsWithinLimits (evaluation_goal dev.now level (level_at dev.now level).init) → ⊥ }
{
    dev.facts();
    evaluation_goal(alloc, dev, level, &dev.level(level).init)
}

// That what the whole body of an operation meets is defined, or that what it executes fits the machine.
#[tactic(auto, using(crate::proofs::FlatParts::flat_parts))]
fn operation_evaluation(
    alloc: Global,
    dev: &FlatDevelopment<'_>,
    level: usize,
    operation: usize,
) -> Result<Form, WpFault>
    requires level { level < length dev.now.levels }
    requires operation { operation < length dev.now.heads }
    ensures value { IfOk result (λ f. f ≡ evaluation_goal dev.now level (whole (body_at dev.now level operation))) }
    ensures too_large { result ≡ Err TooLarge →
        IsWithinLimits (evaluation_goal dev.now level (whole (body_at dev.now level operation))) → ⊥ }
{
    dev.facts();
    let whole = whole(alloc, dev.body(level, operation))?;
    evaluation_goal(alloc, dev, level, &whole)
}

// What a substitution of the level is asked beside what it does; in an implementation its expressions are executed.
fn evaluation_goal(
    alloc: Global,
    dev: &FlatDevelopment<'_>,
    level: usize,
    sub: &Sub,
) -> Result<Form, WpFault>
    requires level { level < length dev.now.levels }
    requires flat { IsFlat sub.now }
    ensures value { IfOk result (λ f. f ≡ evaluation_goal dev.now level sub.now) }
    ensures too_large { result ≡ Err TooLarge → IsWithinLimits (evaluation_goal dev.now level sub.now) → ⊥ }
{
    guarded(alloc, &dev.table, sub, dev.arrays_at(level))
}

// The invariant and the links of a level, and the equality of the outputs with those above.
#[tactic(auto, using(crate::proofs::Growing::goals_within))]
fn joining_goal(
    alloc: Global,
    level: &Level,
    outputs: &[u32],
    above: &[u32],
) -> Result<Form, WpFault>
    ensures value { IfOk result (λ f. f ≡ joined_goal level.now outputs.now above.now) }
    ensures too_large { result ≡ Err TooLarge → IsWithinLimits (joined_goal level.now outputs.now above.now) → ⊥ }
{
    let links = equations(alloc, &level.links)?;
    let outputs = beside(alloc, outputs, above)?;
    let equal_outputs = equations(alloc, &outputs)?;
    let parts = three(alloc, level.invariant.copy(alloc)?, links, equal_outputs)?;
    conjunction(alloc, &parts)
}

fn three(alloc: Global, first: Form, second: Form, third: Form) -> Result<Vec<Form>, Memory>
    ensures { IfOk result (λ list. list.items ≡ first ∷ second ∷ third ∷ []) }
{
    let mut list = Vec::new(alloc);
    list.push(first)?;
    list.push(second)?;
    list.push(third)?;
    Ok(list)
}

// That the variables of each pair are equal.
fn equations(alloc: Global, pairs: &[(u32, u32)]) -> Result<Form, WpFault>
    ensures value { IfOk result (λ f. f ≡ conjunction (map equation pairs.now)) }
    ensures too_large { result ≡ Err TooLarge → IsWithinLimits (conjunction (map equation pairs.now)) → ⊥ }
{
    let mut parts = Vec::new(alloc);
    add_links(alloc, pairs, &mut parts)?;
    conjunction(alloc, &parts)
}

// Each output with the one above.
fn beside(alloc: Global, outputs: &[u32], above: &[u32]) -> Result<Vec<(u32, u32)>, Memory>
    ensures { IfOk result (λ pairs. pairs.items ≡ beside outputs.now above.now) }
{
    let mut pairs = Vec::new(alloc);
    add_beside(outputs, above, &mut pairs)?;
    Ok(pairs)
}

fn add_beside(outputs: &[u32], above: &[u32], pairs: &mut Vec<(u32, u32)>) -> Result<(), Memory>
    ensures { OnOk result (pairs.new.items ≡ pairs.old.items ++ beside outputs.now above.now) }
{
    match outputs {
        [] => Ok(()),
        [output, outputs @ ..] => match above {
            [] => Ok(()),
            [other, above @ ..] => {
                pairs.push((*output, *other))?;
                add_beside(outputs, above, pairs)
            }
        },
    }
}

// The formulas' conjunction, joined to the left, without `btrue`; `btrue` where nothing is left.
fn conjunction(alloc: Global, parts: &[Form]) -> Result<Form, WpFault>
    ensures value { IfOk result (λ f. f ≡ conjunction parts.now) }
    ensures too_large { result ≡ Err TooLarge → IsWithinLimits (conjunction parts.now) → ⊥ }
{
    let kept = without_true(alloc, parts)?;
    match kept.as_slice() {
        [] => Ok(nothing(alloc)?),
        [first, others @ ..] => joined_onto(alloc, first.copy(alloc)?, others),
    }
}

#[tactic(auto, using(crate::proofs::Growing::goals_within))]
fn joined_onto(alloc: Global, first: Form, others: &[Form]) -> Result<Form, WpFault>
    ensures value { IfOk result (λ f. f ≡ joined_onto first others.now) }
    ensures too_large { result ≡ Err TooLarge → IsWithinLimits (joined_onto first others.now) → ⊥ }
{
    match others {
        [] => Ok(first),
        [other, others @ ..] => {
            let whole = binary(alloc, BinOp::And, first, other.copy(alloc)?)?;
            joined_onto(alloc, whole, others)
        }
    }
}

fn without_true(alloc: Global, parts: &[Form]) -> Result<Vec<Form>, Memory>
    ensures { IfOk result (λ kept. kept.items ≡ filter (λ p. not (is_btrue p)) parts.now) }
{
    let mut kept = Vec::new(alloc);
    for part in parts {
        if !is_true(part) {
            kept.push(part.copy(alloc)?)?;
        }
    }
    Ok(kept)
}

fn is_true(form: &Form) -> bool
    ensures { result ≡ is_btrue form.now }
{
    match form.view() {
        View::True => true,
        _ => false,
    }
}
