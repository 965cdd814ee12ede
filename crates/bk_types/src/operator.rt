// What operators on formulas stand for, by what the formulas do.

ghost use Rattle.std.specs.Prelude.{◌≡◌, IfOk};
ghost use Rattle.bk_val.specs.ValueType.{int_type, pair_type, set_type};
ghost use Rattle.bk_form.specs.Role as typed;
ghost use Rattle.bk_types.specs.Shown.{shown_role};

use crate::part::{elements, is_number, is_predicate, parts, ranged_over, value};
use crate::role::Role;
use crate::same::same;
use bk_form::{BinOp, Ty, UnOp};
use bk_io::Memory;
use std::alloc::Global;

// ---- one operand

// What an operator on one formula stands for.
pub(crate) fn unary_role(alloc: Global, op: UnOp, operand: &Role) -> Result<Role, Memory>
    ensures { IfOk result (λ r. shown_role r ≡ typed.unary_role op (shown_role operand.now)) }
{
    match op {
        UnOp::Not => Ok(of_predicate(operand, Role::Predicate)),
        UnOp::BoolOf => Ok(of_predicate(operand, Role::Value(Ty::boolean()))),
        UnOp::Neg => Ok(of_number(operand)),
        UnOp::Card => Ok(count(operand)),
        UnOp::Min | UnOp::Max => Ok(extreme(operand)),
        UnOp::Dom => domain(alloc, operand),
        UnOp::Ran => range(alloc, operand),
        UnOp::Inverse => inverse(alloc, operand),
        UnOp::Id => identity(alloc, operand),
        UnOp::Single => single(alloc, operand),
        UnOp::Pow | UnOp::Pow1 => power(alloc, operand),
    }
}

// This, where the operand is a predicate.
#[tactic(auto, using(crate::proofs::Operands::predicates))]
fn of_predicate(operand: &Role, role: Role) -> Role
    ensures { shown_role result ≡ typed.if_predicate (shown_role role) (shown_role operand.now) }
{
    if is_predicate(operand) {
        return role;
    }
    Role::Nothing
}

// `-a`, of a number.
#[tactic(auto, using(crate::proofs::Operands::numbers))]
fn of_number(operand: &Role) -> Role
    ensures { shown_role result ≡ typed.if_number (typed.gives int_type) (shown_role operand.now) }
{
    if is_number(operand) {
        return Role::Value(Ty::int());
    }
    Role::Nothing
}

// `card(S)`, of a set.
#[tactic(auto, using(crate::proofs::Operands::counts))]
fn count(operand: &Role) -> Role
    ensures { shown_role result ≡ typed.unary_role UnOp.Card (shown_role operand.now) }
{
    match elements(operand) {
        Some(_) => Role::Value(Ty::int()),
        None => Role::Nothing,
    }
}

// `min(S)` and `max(S)`, of a set of numbers.
#[tactic(auto, using(crate::proofs::Operands::extremes))]
fn extreme(operand: &Role) -> Role
    ensures { shown_role result ≡
        typed.if_set (λ t. typed.if_holds (typed.same_type t int_type) (typed.gives int_type))
        (shown_role operand.now) }
{
    match elements(operand) {
        Some(ty) if same(ty, &Ty::int()) => Role::Value(Ty::int()),
        _ => Role::Nothing,
    }
}

// `dom(r)`, of a relation.
#[tactic(auto, using(crate::proofs::Operands::domains))]
fn domain(alloc: Global, operand: &Role) -> Result<Role, Memory>
    ensures { IfOk result (λ r. shown_role r ≡ typed.unary_role UnOp.Dom (shown_role operand.now)) }
{
    let Some((first, _)) = parts(operand) else {
        return Ok(Role::Nothing);
    };
    Ok(Role::Value(Ty::set(alloc, first.copy(alloc)?)?))
}

// `ran(r)`, of a relation.
#[tactic(auto, using(crate::proofs::Operands::second_parts))]
fn range(alloc: Global, operand: &Role) -> Result<Role, Memory>
    ensures { IfOk result (λ r. shown_role r ≡ typed.unary_role UnOp.Ran (shown_role operand.now)) }
{
    let Some((_, second)) = parts(operand) else {
        return Ok(Role::Nothing);
    };
    Ok(Role::Value(Ty::set(alloc, second.copy(alloc)?)?))
}

// `r~`, of a relation.
#[tactic(auto, using(crate::proofs::Operands::inverses))]
fn inverse(alloc: Global, operand: &Role) -> Result<Role, Memory>
    ensures { IfOk result (λ r. shown_role r ≡ typed.unary_role UnOp.Inverse (shown_role operand.now)) }
{
    let Some((first, second)) = parts(operand) else {
        return Ok(Role::Nothing);
    };
    of_pairs(alloc, second, first)
}

// `id(S)`, of a set.
#[tactic(auto, using(crate::proofs::Operands::identities))]
fn identity(alloc: Global, operand: &Role) -> Result<Role, Memory>
    ensures { IfOk result (λ r. shown_role r ≡ typed.unary_role UnOp.Id (shown_role operand.now)) }
{
    let Some(ty) = elements(operand) else {
        return Ok(Role::Nothing);
    };
    let pair = Ty::pair(alloc, ty.copy(alloc)?, ty.copy(alloc)?)?;
    Ok(Role::Value(Ty::set(alloc, pair)?))
}

// `{E}`, of a value.
#[tactic(auto, using(crate::proofs::Operands::singles))]
fn single(alloc: Global, operand: &Role) -> Result<Role, Memory>
    ensures { IfOk result (λ r. shown_role r ≡ typed.unary_role UnOp.Single (shown_role operand.now)) }
{
    let Some(ty) = value(operand) else {
        return Ok(Role::Nothing);
    };
    Ok(Role::Value(Ty::set(alloc, ty.copy(alloc)?)?))
}

// `POW(D)` and `POW1(D)`, of a domain.
#[tactic(auto, using(crate::proofs::Operands::powers))]
fn power(alloc: Global, operand: &Role) -> Result<Role, Memory>
    ensures { IfOk result (λ r. shown_role r ≡
        typed.if_domain (λ t. typed.ranges_over (set_type t)) (shown_role operand.now)) }
{
    let Some(ty) = ranged_over(operand) else {
        return Ok(Role::Nothing);
    };
    Ok(Role::Domain(Ty::set(alloc, ty.copy(alloc)?)?))
}

// ---- two operands

// What an operator on two formulas stands for.
pub(crate) fn binary_role(
    alloc: Global,
    op: BinOp,
    left: &Role,
    right: &Role,
) -> Result<Role, Memory>
    ensures { IfOk result (λ r. shown_role r ≡ typed.binary_role op (shown_role left.now) (shown_role right.now)) }
{
    match op {
        BinOp::And | BinOp::Or | BinOp::Imp | BinOp::Iff => Ok(connective(left, right)),
        BinOp::Eq => Ok(equality(left, right)),
        BinOp::Lt | BinOp::Le => Ok(of_numbers(left, right, Role::Predicate)),
        BinOp::In => Ok(membership(left, right)),
        BinOp::Relations
        | BinOp::PartialFunctions
        | BinOp::TotalFunctions
        | BinOp::PartialInjections
        | BinOp::TotalInjections
        | BinOp::PartialSurjections
        | BinOp::TotalSurjections
        | BinOp::Bijections => arrow(alloc, left, right),
        BinOp::Union | BinOp::Inter | BinOp::Minus => sets(alloc, left, right),
        BinOp::Times => product(alloc, left, right),
        BinOp::DomRes | BinOp::DomSub => domain_part(alloc, right, left),
        BinOp::RanRes | BinOp::RanSub => range_part(alloc, left, right),
        BinOp::Over => overridden(alloc, left, right),
        BinOp::Maps => pair(alloc, left, right),
        BinOp::Range => Ok(of_numbers(left, right, Role::Value(Ty::set(alloc, Ty::int())?))),
        BinOp::Add | BinOp::Sub | BinOp::Mul | BinOp::Div | BinOp::Mod | BinOp::Power => {
            Ok(of_numbers(left, right, Role::Value(Ty::int())))
        }
        BinOp::Image => image(alloc, left, right),
        BinOp::Apply => application(alloc, left, right),
        BinOp::Comp => composition(alloc, left, right),
    }
}

// Two predicates.
#[tactic(auto, using(crate::proofs::Operands::connectives))]
fn connective(left: &Role, right: &Role) -> Role
    ensures { shown_role result ≡ typed.connective_role (shown_role left.now) (shown_role right.now) }
{
    if is_predicate(left) && is_predicate(right) {
        return Role::Predicate;
    }
    Role::Nothing
}

// This, where both operands are numbers.
#[tactic(auto, using(crate::proofs::Operands::two_numbers))]
fn of_numbers(left: &Role, right: &Role, role: Role) -> Role
    ensures { shown_role result ≡ typed.numbers_role (shown_role role) (shown_role left.now) (shown_role right.now) }
{
    if is_number(left) && is_number(right) {
        return role;
    }
    Role::Nothing
}

// `E = F`, of two values of one type.
#[tactic(auto, using(crate::proofs::Operands::equalities))]
fn equality(left: &Role, right: &Role) -> Role
    ensures { shown_role result ≡ typed.equality_role (shown_role left.now) (shown_role right.now) }
{
    match (value(left), value(right)) {
        (Some(one), Some(other)) if same(one, other) => Role::Predicate,
        _ => Role::Nothing,
    }
}

// `E : D`, of a value and a domain that ranges over its type.
#[tactic(auto, using(crate::proofs::Operands::memberships))]
fn membership(left: &Role, right: &Role) -> Role
    ensures { shown_role result ≡ typed.membership_role (shown_role left.now) (shown_role right.now) }
{
    match (value(left), ranged_over(right)) {
        (Some(one), Some(other)) if same(one, other) => Role::Predicate,
        _ => Role::Nothing,
    }
}

// The relations and functions between two domains.
#[tactic(auto, using(crate::proofs::Operands::arrows))]
fn arrow(alloc: Global, left: &Role, right: &Role) -> Result<Role, Memory>
    ensures { IfOk result (λ r. shown_role r ≡ typed.arrow_role (shown_role left.now) (shown_role right.now)) }
{
    let (Some(first), Some(second)) = (ranged_over(left), ranged_over(right)) else {
        return Ok(Role::Nothing);
    };
    let pair = Ty::pair(alloc, first.copy(alloc)?, second.copy(alloc)?)?;
    Ok(Role::Domain(Ty::set(alloc, pair)?))
}

// Two sets of one type.
#[tactic(auto, using(crate::proofs::Operands::two_sets))]
fn sets(alloc: Global, left: &Role, right: &Role) -> Result<Role, Memory>
    ensures { IfOk result (λ r. shown_role r ≡ typed.sets_role (shown_role left.now) (shown_role right.now)) }
{
    match (elements(left), elements(right)) {
        (Some(one), Some(other)) if same(one, other) => {
            Ok(Role::Value(Ty::set(alloc, one.copy(alloc)?)?))
        }
        _ => Ok(Role::Nothing),
    }
}

// `S * T`: of two set values a value, and of domains else a domain.
#[tactic(auto, using(crate::proofs::Operands::products))]
fn product(alloc: Global, left: &Role, right: &Role) -> Result<Role, Memory>
    ensures { IfOk result (λ r. shown_role r ≡ typed.product_role (shown_role left.now) (shown_role right.now)) }
{
    if let (Some(first), Some(second)) = (elements(left), elements(right)) {
        return of_pairs(alloc, first, second);
    }
    match (ranged_over(left), ranged_over(right)) {
        (Some(first), Some(second)) => {
            let pair = Ty::pair(alloc, first.copy(alloc)?, second.copy(alloc)?)?;
            Ok(Role::Domain(pair))
        }
        _ => Ok(Role::Nothing),
    }
}

// `S <| r` and `S <<| r`, of a relation and a set of its first parts.
#[tactic(auto, using(crate::proofs::Operands::domain_parts))]
fn domain_part(alloc: Global, relation: &Role, set: &Role) -> Result<Role, Memory>
    ensures { IfOk result (λ r. shown_role r ≡ typed.domain_part_role (shown_role relation.now) (shown_role set.now)) }
{
    match (parts(relation), elements(set)) {
        (Some((first, second)), Some(ty)) if same(ty, first) => of_pairs(alloc, first, second),
        _ => Ok(Role::Nothing),
    }
}

// `r |> S` and `r |>> S`, of a relation and a set of its second parts.
#[tactic(auto, using(crate::proofs::Operands::range_parts))]
fn range_part(alloc: Global, relation: &Role, set: &Role) -> Result<Role, Memory>
    ensures { IfOk result (λ r. shown_role r ≡ typed.range_part_role (shown_role relation.now) (shown_role set.now)) }
{
    match (parts(relation), elements(set)) {
        (Some((first, second)), Some(ty)) if same(ty, second) => of_pairs(alloc, first, second),
        _ => Ok(Role::Nothing),
    }
}

// A relation whose pairs have parts of these types.
fn of_pairs(alloc: Global, first: &Ty, second: &Ty) -> Result<Role, Memory>
    ensures { IfOk result (λ r. shown_role r ≡ typed.gives (set_type (pair_type first.now second.now))) }
{
    let pair = Ty::pair(alloc, first.copy(alloc)?, second.copy(alloc)?)?;
    Ok(Role::Value(Ty::set(alloc, pair)?))
}

// `r <+ s`, of two relations of one type.
#[tactic(auto, using(crate::proofs::Operands::overrides))]
fn overridden(alloc: Global, left: &Role, right: &Role) -> Result<Role, Memory>
    ensures { IfOk result (λ r. shown_role r ≡ typed.override_role (shown_role left.now) (shown_role right.now)) }
{
    match (parts(left), parts(right)) {
        (Some((first, second)), Some((other, last))) if same(first, other) && same(second, last) =>
            { of_pairs(alloc, first, second) }
        _ => Ok(Role::Nothing),
    }
}

// `E |-> F`, of two values.
#[tactic(auto, using(crate::proofs::Operands::pairs))]
fn pair(alloc: Global, left: &Role, right: &Role) -> Result<Role, Memory>
    ensures { IfOk result (λ r. shown_role r ≡ typed.pair_role (shown_role left.now) (shown_role right.now)) }
{
    let (Some(first), Some(second)) = (value(left), value(right)) else {
        return Ok(Role::Nothing);
    };
    Ok(Role::Value(Ty::pair(alloc, first.copy(alloc)?, second.copy(alloc)?)?))
}

// `r[S]`, of a relation and a set of its first parts.
#[tactic(auto, using(crate::proofs::Operands::images))]
fn image(alloc: Global, relation: &Role, set: &Role) -> Result<Role, Memory>
    ensures { IfOk result (λ r. shown_role r ≡ typed.image_role (shown_role relation.now) (shown_role set.now)) }
{
    match (parts(relation), elements(set)) {
        (Some((first, second)), Some(ty)) if same(ty, first) => {
            Ok(Role::Value(Ty::set(alloc, second.copy(alloc)?)?))
        }
        _ => Ok(Role::Nothing),
    }
}

// `f(x)`, of a relation and one of its first parts.
#[tactic(auto, using(crate::proofs::Operands::applications))]
fn application(alloc: Global, relation: &Role, argument: &Role) -> Result<Role, Memory>
    ensures { IfOk result (λ r. shown_role r ≡ typed.application_role (shown_role relation.now)
        (shown_role argument.now)) }
{
    match (parts(relation), value(argument)) {
        (Some((first, second)), Some(ty)) if same(ty, first) => Ok(Role::Value(second.copy(
            alloc,
        )?)),
        _ => Ok(Role::Nothing),
    }
}

// `(r ; s)`, where s takes up the type in which r ends.
#[tactic(auto, using(crate::proofs::Operands::compositions))]
fn composition(alloc: Global, left: &Role, right: &Role) -> Result<Role, Memory>
    ensures { IfOk result (λ r. shown_role r ≡ typed.composition_role (shown_role left.now) (shown_role right.now)) }
{
    match (parts(left), parts(right)) {
        (Some((first, middle)), Some((other, last))) if same(middle, other) => {
            of_pairs(alloc, first, last)
        }
        _ => Ok(Role::Nothing),
    }
}
