//! What comes for a formula where it stands, as the law at that formula. Each function answers the law, none where there is
//! none.

ghost use Rattle.std.specs.Prelude.{◌≡◌, ◌∷◌, [], All, Err, IfOk, OnOk, cond, is_some};
ghost use Rattle.std.specs.Option.{option_map, option_and_then};
ghost use Rattle.bk_form.specs.Role.{role};
ghost use Rattle.bk_form.specs.Formula.{bound, unary, binary, for_all, for_some};
ghost use Rattle.bk_form.specs.declared.operator.UnOp.TheVariants.{Dom, Ran};
ghost use Rattle.bk_form.specs.declared.operator.BinOp.TheVariants.{Eq, In, Maps, Image, Comp};
ghost use Rattle.bk_bind.specs.Limits.{IsWithinLimits};
ghost use Rattle.bk_bind.specs.declared.error.BindFault.TheVariants.{TooLarge};
ghost use Rattle.bk_laws.specs.Rows.{instance_at};
ghost use Rattle.bk_laws_log.specs.Rows.{rows as logic_and_order, instance_of};
ghost use Rattle.bk_laws_set.specs.Rows.{rows as sets};
ghost use Rattle.bk_laws_fun.specs.Rows.{rows as functions};
ghost use Rattle.bk_kernel.specs.Branches.{sides};
ghost use Rattle.bk_kernel.specs.Deciding.{decided, equal_constants, constant};
ghost use Rattle.bk_kernel.specs.Rewriting.{eq_to, eq_from, deciding, typing, negating, belonging, applying};
ghost use Rattle.bk_kernel.specs.Rewriting.{extending, including, witnessing, becomes, turned, law_instance};
ghost use Rattle.bk_kernel.specs.Rewriting.{negated, set_of_type, relation_of_types, witness, instance_for};
ghost use Rattle.bk_kernel.specs.Code.{meant_by};
ghost use Rattle.bk_kernel.specs.Held.{instance_in, IsLarge, HasLarge};

use crate::deciding::{decided, equal_constants};
use crate::lists::one_type;
use crate::membership::{applied_to, met_by};
use crate::obvious::has_all;
use crate::parts::are_within;
use crate::views::{operand, sides};
use bk_bind::{BindFault, LawFault, LawInstance, binary, for_all, for_some, unary};
use bk_form::{BinOp, Form, Part, Ty, TyView, UnOp, VarTable, View};
use bk_io::Memory;
use bk_seq::numbered;
use bk_types::{Role, role_of};
use std::alloc::Global;

/// The ways of rewriting a formula.
#[derive(Clone, Copy)]
pub enum Change<'a> {
    /// That hypothesis is `E = F`: `F` for `E`.
    EqTo(u32),
    /// That hypothesis is `E = F`: `E` for `F`.
    EqFrom(u32),
    /// The right side of a law for its left one.
    LawTo(u16, &'a [Form]),
    /// The left side of a law for its right one.
    LawFrom(u16, &'a [Form]),
    Deciding,
    Typing,
    Negating,
    Belonging,
    Applying,
    Extending,
    Including,
    Witnessing,
}

/// The law at the formula that stands at a place.
pub(crate) fn instance_for(
    alloc: Global,
    types: &VarTable,
    hyps: &[Form],
    change: &Change<'_>,
    old: &Form,
) -> Result<Option<LawInstance>, BindFault>
    ensures value { IfOk result (λ o. instance_in o ≡ instance_for types.now hyps.now (meant_by change.now) old.now) }
    ensures too_large { result ≡ Err TooLarge → HasLarge (instance_for types.now hyps.now (meant_by change.now) old.now) }
{
    match change {
        Change::EqTo(number) => Ok(by_equation(alloc, types, hyps, *number, old)?),
        Change::EqFrom(number) => Ok(by_reverse(alloc, types, hyps, *number, old)?),
        Change::LawTo(law, picks) => law_forward(alloc, *law, *picks),
        Change::LawFrom(law, picks) => law_backward(alloc, *law, *picks),
        Change::Deciding => Ok(by_deciding(alloc, types, hyps, old)?),
        Change::Typing => Ok(by_typing(alloc, types, hyps, old)?),
        Change::Negating => by_negating(alloc, types, hyps, old),
        Change::Belonging => by_belonging(alloc, types, hyps, old),
        Change::Applying => by_applying(alloc, types, hyps, old),
        Change::Extending => by_extending(alloc, types, hyps, old),
        Change::Including => by_including(alloc, types, hyps, old),
        Change::Witnessing => by_witnessing(alloc, types, hyps, old),
    }
}

// One formula for another, under no condition.
fn becomes(alloc: Global, old: &Form, new: Form) -> Result<LawInstance, Memory>
    ensures { IfOk result (λ i. instance_of i ≡ becomes old.now new) }
{
    Ok(LawInstance {
        sides: Vec::new(alloc),
        left: old.copy(alloc)?,
        right: new,
    })
}

// The formula that comes for the old one, as a law; None where there is none.
fn becoming(alloc: Global, old: &Form, new: Option<Form>) -> Result<Option<LawInstance>, Memory>
    ensures { IfOk result (λ o. instance_in o ≡ option_map (becomes old.now) new) }
{
    let Some(new) = new else {
        return Ok(None);
    };
    Ok(Some(becomes(alloc, old, new)?))
}

fn by_equation(
    alloc: Global,
    types: &VarTable,
    hyps: &[Form],
    number: u32,
    old: &Form,
) -> Result<Option<LawInstance>, Memory>
    ensures { IfOk result (λ o. instance_in o ≡ instance_for types.now hyps.now (eq_to number) old.now) }
{
    let _types = types;
    let _old = old;
    let Some(hypothesis) = numbered(hyps, number) else {
        return Ok(None);
    };
    let Some((left, right)) = sides(BinOp::Eq, hypothesis) else {
        return Ok(None);
    };
    Ok(Some(becomes(alloc, left, right.copy(alloc)?)?))
}

fn by_reverse(
    alloc: Global,
    types: &VarTable,
    hyps: &[Form],
    number: u32,
    old: &Form,
) -> Result<Option<LawInstance>, Memory>
    ensures { IfOk result (λ o. instance_in o ≡ instance_for types.now hyps.now (eq_from number) old.now) }
{
    let _types = types;
    let _old = old;
    let Some(hypothesis) = numbered(hyps, number) else {
        return Ok(None);
    };
    let Some((left, right)) = sides(BinOp::Eq, hypothesis) else {
        return Ok(None);
    };
    Ok(Some(becomes(alloc, right, left.copy(alloc)?)?))
}

// ---- laws
fn law_forward(alloc: Global, law: u16, picks: &[Form]) -> Result<Option<LawInstance>, BindFault>
    ensures value { IfOk result (λ o. instance_in o ≡ law_instance law picks.now) }
    ensures too_large { result ≡ Err TooLarge → HasLarge (law_instance law picks.now) }
{
    if !are_within(picks) {
        return Err(BindFault::TooLarge);
    }
    Ok(law_at(alloc, law, picks)?)
}

fn law_backward(alloc: Global, law: u16, picks: &[Form]) -> Result<Option<LawInstance>, BindFault>
    ensures value { IfOk result (λ o. instance_in o ≡ option_map turned (law_instance law picks.now)) }
    ensures too_large { result ≡ Err TooLarge → HasLarge (option_map turned (law_instance law picks.now)) }
{
    let Some(found) = law_forward(alloc, law, picks)? else {
        return Ok(None);
    };
    let LawInstance { sides, left, right } = found;
    Ok(Some(LawInstance {
        sides,
        left: right,
        right: left,
    }))
}

// The law of this number at the picks, in the table that has the number.
fn law_at(alloc: Global, law: u16, picks: &[Form]) -> Result<Option<LawInstance>, Memory>
    requires { All IsWithinLimits picks.now }
    ensures { IfOk result (λ o. instance_in o ≡ law_instance law picks.now) }
{
    if law < 200 {
        return logic_law(alloc, law, picks);
    }
    if law < 300 {
        return set_law(alloc, law, picks);
    }
    function_law(alloc, law, picks)
}

fn logic_law(alloc: Global, law: u16, picks: &[Form]) -> Result<Option<LawInstance>, Memory>
    requires { All IsWithinLimits picks.now }
    ensures { IfOk result (λ o. instance_in o ≡ instance_at logic_and_order law picks.now) }
{
    match bk_laws_log::instance(alloc, law, picks) {
        Ok(found) => Ok(Some(found)),
        Err(LawFault::Unknown) => Ok(None),
        Err(LawFault::Picks(_)) => Ok(None),
        Err(LawFault::Memory) => Err(Memory),
    }
}

fn set_law(alloc: Global, law: u16, picks: &[Form]) -> Result<Option<LawInstance>, Memory>
    requires { All IsWithinLimits picks.now }
    ensures { IfOk result (λ o. instance_in o ≡ instance_at sets law picks.now) }
{
    match bk_laws_set::instance(alloc, law, picks) {
        Ok(found) => Ok(Some(found)),
        Err(LawFault::Unknown) => Ok(None),
        Err(LawFault::Picks(_)) => Ok(None),
        Err(LawFault::Memory) => Err(Memory),
    }
}

fn function_law(alloc: Global, law: u16, picks: &[Form]) -> Result<Option<LawInstance>, Memory>
    requires { All IsWithinLimits picks.now }
    ensures { IfOk result (λ o. instance_in o ≡ instance_at functions law picks.now) }
{
    match bk_laws_fun::instance(alloc, law, picks) {
        Ok(found) => Ok(Some(found)),
        Err(LawFault::Unknown) => Ok(None),
        Err(LawFault::Picks(_)) => Ok(None),
        Err(LawFault::Memory) => Err(Memory),
    }
}

// ---- truths
fn by_deciding(
    alloc: Global,
    types: &VarTable,
    hyps: &[Form],
    old: &Form,
) -> Result<Option<LawInstance>, Memory>
    ensures { IfOk result (λ o. instance_in o ≡ instance_for types.now hyps.now deciding old.now) }
{
    let _types = types;
    let _hyps = hyps;
    let Some(truth) = truth_of(old) else {
        return Ok(None);
    };
    Ok(Some(becomes(alloc, old, constant(alloc, truth)?)?))
}

// Whether a closed comparison, a closed membership, or an equality of two elements or of two truth values is true.
fn truth_of(form: &Form) -> Option<bool>
    ensures { result ≡ cond (is_some (decided form.now)) (decided form.now)
        (option_and_then (λ x. equal_constants x.0 x.1) (sides Eq form.now)) }
{
    if let Some(truth) = decided(form) {
        return Some(truth);
    }
    let Some((left, right)) = sides(BinOp::Eq, form) else {
        return None;
    };
    equal_constants(left, right)
}

fn constant(alloc: Global, truth: bool) -> Result<Form, Memory>
    ensures { IfOk result (λ f. f ≡ constant truth) }
{
    if truth {
        return Form::make(alloc, Part::True);
    }
    Form::make(alloc, Part::False)
}

fn by_typing(
    alloc: Global,
    types: &VarTable,
    hyps: &[Form],
    old: &Form,
) -> Result<Option<LawInstance>, Memory>
    ensures { IfOk result (λ o. instance_in o ≡ instance_for types.now hyps.now typing old.now) }
{
    let _types = types;
    let _hyps = hyps;
    let Some((_, set)) = sides(BinOp::In, old) else {
        return Ok(None);
    };
    if !has_all(set) {
        return Ok(None);
    }
    Ok(Some(becomes(alloc, old, constant(alloc, true)?)?))
}

// ---- quantifiers
#[tactic(auto, using(crate::proofs::LargeParts::parts_within))]
fn by_negating(
    alloc: Global,
    types: &VarTable,
    hyps: &[Form],
    old: &Form,
) -> Result<Option<LawInstance>, BindFault>
    ensures value { IfOk result (λ o. instance_in o ≡ instance_for types.now hyps.now negating old.now) }
    ensures too_large { result ≡ Err TooLarge → HasLarge (instance_for types.now hyps.now negating old.now) }
{
    let _types = types;
    let _hyps = hyps;
    let Some(denied) = operand(UnOp::Not, old) else {
        return Ok(None);
    };
    let other = negated(alloc, denied)?;
    Ok(becoming(alloc, old, other)?)
}

// The other quantifier over the denied body; None of any other formula.
#[tactic(auto, using(crate::proofs::LargeParts::parts_within))]
fn negated(alloc: Global, form: &Form) -> Result<Option<Form>, BindFault>
    ensures value { IfOk result (λ o. o ≡ negated form.now) }
    ensures too_large { result ≡ Err TooLarge → IsLarge (negated form.now) }
{
    match form.view() {
        View::All(types, body) => {
            let denied = unary(alloc, UnOp::Not, body.copy(alloc)?)?;
            Ok(Some(for_some(alloc, types, denied)?))
        }
        View::Some(types, body) => {
            let denied = unary(alloc, UnOp::Not, body.copy(alloc)?)?;
            Ok(Some(for_all(alloc, types, denied)?))
        }
        _ => Ok(None),
    }
}

// ---- members
fn by_belonging(
    alloc: Global,
    types: &VarTable,
    hyps: &[Form],
    old: &Form,
) -> Result<Option<LawInstance>, BindFault>
    ensures value { IfOk result (λ o. instance_in o ≡ instance_for types.now hyps.now belonging old.now) }
    ensures too_large { result ≡ Err TooLarge → HasLarge (instance_for types.now hyps.now belonging old.now) }
{
    let _types = types;
    let _hyps = hyps;
    let Some((element, set)) = sides(BinOp::In, old) else {
        return Ok(None);
    };
    let met = met_by(alloc, element, set)?;
    Ok(becoming(alloc, old, met)?)
}

fn by_applying(
    alloc: Global,
    types: &VarTable,
    hyps: &[Form],
    old: &Form,
) -> Result<Option<LawInstance>, BindFault>
    ensures value { IfOk result (λ o. instance_in o ≡ instance_for types.now hyps.now applying old.now) }
    ensures too_large { result ≡ Err TooLarge → HasLarge (instance_for types.now hyps.now applying old.now) }
{
    let _types = types;
    let _hyps = hyps;
    let Some((function, argument)) = sides(BinOp::Apply, old) else {
        return Ok(None);
    };
    applied_to(alloc, old, function, argument)
}

#[tactic(auto, using(crate::proofs::LargeParts::parts_within))]
fn by_extending(
    alloc: Global,
    types: &VarTable,
    hyps: &[Form],
    old: &Form,
) -> Result<Option<LawInstance>, BindFault>
    ensures value { IfOk result (λ o. instance_in o ≡ instance_for types.now hyps.now extending old.now) }
    ensures too_large { result ≡ Err TooLarge → HasLarge (instance_for types.now hyps.now extending old.now) }
{
    let _hyps = hyps;
    let Some((left, right)) = sides(BinOp::Eq, old) else {
        return Ok(None);
    };
    let Some(ty) = elements_of(alloc, types, left)? else {
        return Ok(None);
    };
    let new = for_each(alloc, BinOp::Iff, left, right, ty)?;
    Ok(Some(becomes(alloc, old, new)?))
}

#[tactic(auto, using(crate::proofs::LargeParts::parts_within))]
fn by_including(
    alloc: Global,
    types: &VarTable,
    hyps: &[Form],
    old: &Form,
) -> Result<Option<LawInstance>, BindFault>
    ensures value { IfOk result (λ o. instance_in o ≡ instance_for types.now hyps.now including old.now) }
    ensures too_large { result ≡ Err TooLarge → HasLarge (instance_for types.now hyps.now including old.now) }
{
    let _hyps = hyps;
    let Some((smaller, power)) = sides(BinOp::In, old) else {
        return Ok(None);
    };
    let Some(larger) = operand(UnOp::Pow, power) else {
        return Ok(None);
    };
    let Some(ty) = elements_of(alloc, types, smaller)? else {
        return Ok(None);
    };
    let new = for_each(alloc, BinOp::Imp, smaller, larger, ty)?;
    Ok(Some(becomes(alloc, old, new)?))
}

// `!x.(x : S op x : T)` over this type.
#[tactic(auto, using(crate::proofs::LargeParts::parts_within))]
fn for_each(alloc: Global, op: BinOp, left: &Form, right: &Form, ty: Ty) -> Result<Form, BindFault>
    ensures value { IfOk result (λ f. f ≡ for_all (ty ∷ []) (binary op
        (binary In (bound 0) left.now) (binary In (bound 0) right.now))) }
    ensures too_large { result ≡ Err TooLarge → IsWithinLimits (for_all (ty ∷ []) (binary op
        (binary In (bound 0) left.now) (binary In (bound 0) right.now))) → ⊥ }
{
    let first = binary(alloc, BinOp::In, innermost(alloc)?, left.copy(alloc)?)?;
    let second = binary(alloc, BinOp::In, innermost(alloc)?, right.copy(alloc)?)?;
    let body = binary(alloc, op, first, second)?;
    let types = one_type(alloc, ty)?;
    for_all(alloc, &types, body)
}

// The innermost bound variable.
fn innermost(alloc: Global) -> Result<Form, Memory>
    ensures { IfOk result (λ f. f ≡ bound 0) }
{
    Form::make(alloc, Part::Bound(0))
}

fn by_witnessing(
    alloc: Global,
    types: &VarTable,
    hyps: &[Form],
    old: &Form,
) -> Result<Option<LawInstance>, BindFault>
    ensures value { IfOk result (λ o. instance_in o ≡ instance_for types.now hyps.now witnessing old.now) }
    ensures too_large { result ≡ Err TooLarge → HasLarge (instance_for types.now hyps.now witnessing old.now) }
{
    let _hyps = hyps;
    let Some((element, set)) = sides(BinOp::In, old) else {
        return Ok(None);
    };
    let there = witness(alloc, types, element, set)?;
    Ok(becoming(alloc, old, there)?)
}

// What makes it a member of a domain, a range, an image or a composition; None of any other set.
fn witness(
    alloc: Global,
    types: &VarTable,
    element: &Form,
    set: &Form,
) -> Result<Option<Form>, BindFault>
    ensures value { IfOk result (λ o. o ≡ witness types.now element.now set.now) }
    ensures too_large { result ≡ Err TooLarge → IsLarge (witness types.now element.now set.now) }
{
    match set.view() {
        View::Un(UnOp::Dom, relation) => in_domain(alloc, types, element, relation),
        View::Un(UnOp::Ran, relation) => in_range(alloc, types, element, relation),
        View::Bin(BinOp::Image, relation, set) => in_image(alloc, types, element, relation, set),
        View::Bin(BinOp::Comp, first, second) => {
            in_composition(alloc, types, element, first, second)
        }
        _ => Ok(None),
    }
}

#[tactic(auto, using(crate::proofs::LargeParts::parts_within))]
fn in_domain(
    alloc: Global,
    types: &VarTable,
    element: &Form,
    relation: &Form,
) -> Result<Option<Form>, BindFault>
    ensures value { IfOk result (λ o. o ≡ witness types.now element.now (unary Dom relation.now)) }
    ensures too_large { result ≡ Err TooLarge → IsLarge (witness types.now element.now (unary Dom relation.now)) }
{
    let Some((_, second)) = pairs_of(alloc, types, relation)? else {
        return Ok(None);
    };
    let body = starting_at(alloc, element, relation)?;
    Ok(Some(some_of(alloc, second, body)?))
}

#[tactic(auto, using(crate::proofs::LargeParts::parts_within))]
fn in_range(
    alloc: Global,
    types: &VarTable,
    element: &Form,
    relation: &Form,
) -> Result<Option<Form>, BindFault>
    ensures value { IfOk result (λ o. o ≡ witness types.now element.now (unary Ran relation.now)) }
    ensures too_large { result ≡ Err TooLarge → IsLarge (witness types.now element.now (unary Ran relation.now)) }
{
    let Some((first, _)) = pairs_of(alloc, types, relation)? else {
        return Ok(None);
    };
    let body = ending_at(alloc, element, relation)?;
    Ok(Some(some_of(alloc, first, body)?))
}

#[tactic(auto, using(crate::proofs::LargeParts::parts_within))]
fn in_image(
    alloc: Global,
    types: &VarTable,
    element: &Form,
    relation: &Form,
    set: &Form,
) -> Result<Option<Form>, BindFault>
    ensures value { IfOk result (λ o. o ≡ witness types.now element.now (binary Image relation.now set.now)) }
    ensures too_large { result ≡ Err TooLarge →
        IsLarge (witness types.now element.now (binary Image relation.now set.now)) }
{
    let Some((first, _)) = pairs_of(alloc, types, relation)? else {
        return Ok(None);
    };
    let inside = binary(alloc, BinOp::In, innermost(alloc)?, set.copy(alloc)?)?;
    let there = ending_at(alloc, element, relation)?;
    let body = binary(alloc, BinOp::And, inside, there)?;
    Ok(Some(some_of(alloc, first, body)?))
}

#[tactic(auto, using(crate::proofs::LargeParts::parts_within))]
fn in_composition(
    alloc: Global,
    types: &VarTable,
    element: &Form,
    first: &Form,
    second: &Form,
) -> Result<Option<Form>, BindFault>
    ensures value { IfOk result (λ o. o ≡ witness types.now element.now (binary Comp first.now second.now)) }
    ensures too_large { result ≡ Err TooLarge →
        IsLarge (witness types.now element.now (binary Comp first.now second.now)) }
{
    let Some((start, end)) = sides(BinOp::Maps, element) else {
        return Ok(None);
    };
    let Some((_, middle)) = pairs_of(alloc, types, first)? else {
        return Ok(None);
    };
    let there = starting_at(alloc, start, first)?;
    let onward = ending_at(alloc, end, second)?;
    let body = binary(alloc, BinOp::And, there, onward)?;
    Ok(Some(some_of(alloc, middle, body)?))
}

// `E |-> x : r` of the innermost bound variable x.
#[tactic(auto, using(crate::proofs::LargeParts::parts_within))]
fn starting_at(alloc: Global, element: &Form, relation: &Form) -> Result<Form, BindFault>
    ensures value { IfOk result (λ f. f ≡ binary In (binary Maps element.now (bound 0)) relation.now) }
    ensures within { OnOk result (IsWithinLimits (binary In (binary Maps element.now (bound 0)) relation.now)) }
    ensures too_large { result ≡ Err TooLarge →
        IsWithinLimits (binary In (binary Maps element.now (bound 0)) relation.now) → ⊥ }
{
    let pair = binary(alloc, BinOp::Maps, element.copy(alloc)?, innermost(alloc)?)?;
    binary(alloc, BinOp::In, pair, relation.copy(alloc)?)
}

// `x |-> E : r` of the innermost bound variable x.
#[tactic(auto, using(crate::proofs::LargeParts::parts_within))]
fn ending_at(alloc: Global, element: &Form, relation: &Form) -> Result<Form, BindFault>
    ensures value { IfOk result (λ f. f ≡ binary In (binary Maps (bound 0) element.now) relation.now) }
    ensures within { OnOk result (IsWithinLimits (binary In (binary Maps (bound 0) element.now) relation.now)) }
    ensures too_large { result ≡ Err TooLarge →
        IsWithinLimits (binary In (binary Maps (bound 0) element.now) relation.now) → ⊥ }
{
    let pair = binary(alloc, BinOp::Maps, innermost(alloc)?, element.copy(alloc)?)?;
    binary(alloc, BinOp::In, pair, relation.copy(alloc)?)
}

// `#x.(body)` over this type.
fn some_of(alloc: Global, ty: Ty, body: Form) -> Result<Form, BindFault>
    ensures value { IfOk result (λ f. f ≡ for_some (ty ∷ []) body) }
    ensures too_large { result ≡ Err TooLarge → IsWithinLimits (for_some (ty ∷ []) body) → ⊥ }
{
    let types = one_type(alloc, ty)?;
    for_some(alloc, &types, body)
}

// ---- types
// The type of the elements of a set value.
fn elements_of(alloc: Global, types: &VarTable, form: &Form) -> Result<Option<Ty>, Memory>
    ensures { IfOk result (λ o. o ≡ set_of_type (role types.now [] form.now)) }
{
    let none = Vec::new(alloc);
    match role_of(alloc, form, &none, types)? {
        Role::Value(ty) => match ty.view() {
            TyView::Set(elements) => Ok(Some(elements.copy(alloc)?)),
            _ => Ok(None),
        },
        _ => Ok(None),
    }
}

// The types of the first and second parts of a relation.
fn pairs_of(alloc: Global, types: &VarTable, form: &Form) -> Result<Option<(Ty, Ty)>, Memory>
    ensures { IfOk result (λ o. o ≡ relation_of_types (role types.now [] form.now)) }
{
    let Some(elements) = elements_of(alloc, types, form)? else {
        return Ok(None);
    };
    match elements.view() {
        TyView::Pair(first, second) => Ok(Some((first.copy(alloc)?, second.copy(alloc)?))),
        _ => Ok(None),
    }
}
