// What operators make of the parts beside them. A part stands at a byte of its own, and so does the whole.

ghost use Rattle.std.specs.Prelude.{◌≡◌, ℕ, true, false, List, Some, IfOk, MatchResult, is_some};
ghost use Rattle.bk_val.specs.ValueType.{int_type, pair_type, set_type};
ghost use Rattle.bk_form.specs.Formula.{unary, binary};
ghost use Rattle.bk_form.specs.Role.{same_type};
ghost use Rattle.bk_form.specs.declared.operator.UnOp.TheVariants.{Not, Pow};
ghost use Rattle.bk_form.specs.declared.operator.BinOp.TheVariants.{And, Eq, In, Times as Product};
ghost use Rattle.bk_raw.specs.Meaning.Outcome.{Partial, whole, whole_of, partial, ranging, ask, plainly, Reading};
ghost use Rattle.bk_raw.specs.Meaning.OperatorReadings as meant;
ghost use Rattle.bk_raw.specs.Errors.Blame.{blame};
ghost use Rattle.bk_raw.specs.Errors.Faults.{Fault as FaultAt};
ghost use Rattle.bk_elab_terms.specs.Joins.{joint_of_join};
ghost use Rattle.bk_elab_terms.specs.Shapes.{both_numbers, compared_by, gives_int, is_arrow_or_number, negated_by, IsAlike};
ghost use Rattle.bk_elab_terms.specs.Shown.{shown_outcome, told, IsRead, IsAsked};

use crate::blame::{Fault, earlier};
use crate::made::{binary, unary};
use crate::outcome::{Asked, Step, Told, no_type};
use crate::partial::{Expression, Join, Node, is_same};
use bk_form::{BinOp, Form, Ty, TyView, UnOp};
use bk_io::Memory;
use bk_raw::InfixOp;
use std::alloc::Global;

/// The bytes of a term between two parts: of the whole, of its left part and of its right part.
#[derive(Clone, Copy, PartialEq, Eq, Debug)]
pub struct Places {
    pub whole: usize,
    pub left: usize,
    pub right: usize,
}

// What an operator makes of the parts beside it.
pub(crate) fn infix(
    alloc: Global,
    op: InfixOp,
    at: Places,
    left: Told,
    right: Told,
) -> Result<Step, Memory>
    ensures { IfOk result (λ s. IsRead s
        (meant.infix_reading op at.whole at.left at.right (shown_outcome left) (shown_outcome right))) }
{
    match op {
        InfixOp::Equivalent => connected(alloc, BinOp::Iff, left, right),
        InfixOp::Implies => connected(alloc, BinOp::Imp, left, right),
        InfixOp::And => connected(alloc, BinOp::And, left, right),
        InfixOp::Or => connected(alloc, BinOp::Or, left, right),
        InfixOp::Equal => equal(alloc, false, at.whole, left, right),
        InfixOp::NotEqual => equal(alloc, true, at.whole, left, right),
        InfixOp::Less => compared(alloc, BinOp::Lt, false, at, left, right),
        InfixOp::AtMost => compared(alloc, BinOp::Le, false, at, left, right),
        InfixOp::Greater => compared(alloc, BinOp::Lt, true, at, left, right),
        InfixOp::AtLeast => compared(alloc, BinOp::Le, true, at, left, right),
        InfixOp::Member => member(alloc, false, at, left, right),
        InfixOp::NotMember => member(alloc, true, at, left, right),
        InfixOp::Subset => subset(alloc, false, at, left, right),
        InfixOp::NotSubset => subset(alloc, true, at, left, right),
        InfixOp::StrictSubset => strict_subset(alloc, at, left, right),
        InfixOp::Maplet => paired(alloc, left, right),
        InfixOp::Union => joined(alloc, Join::Union, at.whole, left, right),
        InfixOp::Intersection => joined(alloc, Join::Intersection, at.whole, left, right),
        InfixOp::Override => joined(alloc, Join::Override, at.whole, left, right),
        InfixOp::Minus => minus(alloc, at, left, right),
        InfixOp::Times => left.times(alloc, at, right),
        InfixOp::DomainRestriction => left_part(alloc, BinOp::DomRes, at, left, right),
        InfixOp::DomainSubtraction => left_part(alloc, BinOp::DomSub, at, left, right),
        InfixOp::RangeRestriction => right_part(alloc, BinOp::RanRes, at, left, right),
        InfixOp::RangeSubtraction => right_part(alloc, BinOp::RanSub, at, left, right),
        InfixOp::Concatenation | InfixOp::Prepend | InfixOp::Append => {
            Ok(Step::silent(no_type(at.whole)))
        }
        _ => arrow_or_number(alloc, op, at, left, right),
    }
}

// The relations and functions between two domains, and operators on numbers.
fn arrow_or_number(
    alloc: Global,
    op: InfixOp,
    at: Places,
    left: Told,
    right: Told,
) -> Result<Step, Memory>
    requires { is_arrow_or_number op ≡ true }
    ensures { IfOk result (λ s. IsRead s
        (meant.infix_reading op at.whole at.left at.right (shown_outcome left) (shown_outcome right))) }
{
    match op {
        InfixOp::Relations => arrow(alloc, BinOp::Relations, at, left, right),
        InfixOp::PartialFunctions => arrow(alloc, BinOp::PartialFunctions, at, left, right),
        InfixOp::TotalFunctions => arrow(alloc, BinOp::TotalFunctions, at, left, right),
        InfixOp::PartialInjections => arrow(alloc, BinOp::PartialInjections, at, left, right),
        InfixOp::TotalInjections => arrow(alloc, BinOp::TotalInjections, at, left, right),
        InfixOp::PartialSurjections => arrow(alloc, BinOp::PartialSurjections, at, left, right),
        InfixOp::TotalSurjections => arrow(alloc, BinOp::TotalSurjections, at, left, right),
        InfixOp::Bijections => arrow(alloc, BinOp::Bijections, at, left, right),
        InfixOp::Interval => interval(alloc, at, left, right),
        InfixOp::Plus => calculated(alloc, BinOp::Add, at, left, right),
        InfixOp::Divide => calculated(alloc, BinOp::Div, at, left, right),
        InfixOp::Mod => calculated(alloc, BinOp::Mod, at, left, right),
        _ => calculated(alloc, BinOp::Power, at, left, right),
    }
}

// `not(P)` where it is asked, else P.
fn negated(alloc: Global, negative: bool, form: Form) -> Result<Form, Memory>
    ensures { IfOk result (λ f. f ≡ negated_by negative form) }
{
    if negative {
        return unary(alloc, UnOp::Not, form);
    }
    Ok(form)
}

// Two predicates.
#[tactic(auto, using(bk_raw::proofs::Blamed::blames))]
pub(crate) fn connected(alloc: Global, op: BinOp, left: Told, right: Told) -> Result<Step, Memory>
    ensures { IfOk result (λ s. IsRead s (meant.connected op (shown_outcome left) (shown_outcome right))) }
{
    let (first, second) = (left.ask_predicate(), right.ask_predicate());
    let fault = earlier(first.fault, second.fault);
    match (first.answer, second.answer) {
        (Some(one), Some(other)) => Ok(Step {
            outcome: Told::Holding(binary(alloc, op, one, other)?),
            fault,
        }),
        _ => Ok(Step::silent(fault)),
    }
}

// Two numbers, where they are.
#[tactic(auto, using(bk_raw::proofs::Blamed::blames))]
fn numbers(
    alloc: Global,
    at: Places,
    left: Told,
    right: Told,
) -> Result<Asked<(Form, Form)>, Memory>
    ensures { IfOk result (λ a. IsAsked a.answer a.fault (both_numbers at (shown_outcome left) (shown_outcome right))) }
{
    let first = left.ask(alloc, at.left, &Ty::int())?;
    let second = right.ask(alloc, at.right, &Ty::int())?;
    let fault = earlier(first.fault, second.fault);
    match (first.answer, second.answer) {
        (Some(one), Some(other)) => Ok(Asked {
            answer: Some((one, other)),
            fault,
        }),
        _ => Ok(Asked {
            answer: None,
            fault,
        }),
    }
}

// A predicate on two numbers, the right one first where it is turned.
fn compared(
    alloc: Global,
    op: BinOp,
    turned: bool,
    at: Places,
    left: Told,
    right: Told,
) -> Result<Step, Memory>
    ensures { IfOk result (λ s. IsRead s
        (meant.compared (compared_by op turned) at.left at.right (shown_outcome left) (shown_outcome right))) }
{
    let Asked { answer, fault } = numbers(alloc, at, left, right)?;
    let Some((one, other)) = answer else {
        return Ok(Step::silent(fault));
    };
    let form = turned_by(alloc, op, turned, one, other)?;
    Ok(Step {
        outcome: Told::Holding(form),
        fault,
    })
}

// The operator on both, the right one first where it is turned.
fn turned_by(alloc: Global, op: BinOp, turned: bool, one: Form, other: Form) -> Result<Form, Memory>
    ensures { IfOk result (λ f. f ≡ compared_by op turned one other) }
{
    if turned {
        return binary(alloc, op, other, one);
    }
    binary(alloc, op, one, other)
}

// An operator on two numbers that gives a number.
#[tactic(auto, using(bk_raw::proofs::Blamed::blames))]
fn calculated(alloc: Global, op: BinOp, at: Places, left: Told, right: Told) -> Result<Step, Memory>
    ensures { IfOk result (λ s. IsRead s
        (meant.calculated op int_type at.left at.right (shown_outcome left) (shown_outcome right))) }
{
    let Asked { answer, fault } = numbers(alloc, at, left, right)?;
    match answer {
        Some((one, other)) => {
            let form = binary(alloc, op, one, other)?;
            Ok(Step::told(form, Ty::int(), fault))
        }
        None => Ok(Step::silent(fault)),
    }
}

// `a .. b`.
#[tactic(auto, using(bk_raw::proofs::Blamed::blames))]
fn interval(alloc: Global, at: Places, left: Told, right: Told) -> Result<Step, Memory>
    ensures { IfOk result (λ s. IsRead s (meant.calculated BinOp.Range (set_type int_type) at.left at.right
        (shown_outcome left) (shown_outcome right))) }
{
    let Asked { answer, fault } = numbers(alloc, at, left, right)?;
    match answer {
        Some((one, other)) => {
            let form = binary(alloc, BinOp::Range, one, other)?;
            Ok(Step::told(form, Ty::set(alloc, Ty::int())?, fault))
        }
        None => Ok(Step::silent(fault)),
    }
}

// A relation or function between two domains.
#[tactic(auto, using(bk_raw::proofs::Blamed::blames))]
fn arrow(alloc: Global, op: BinOp, at: Places, left: Told, right: Told) -> Result<Step, Memory>
    ensures { IfOk result (λ s. IsRead s
        (meant.arrow op at.whole at.left at.right (shown_outcome left) (shown_outcome right))) }
{
    let first = left.ask_domain(alloc, at.left)?;
    let second = right.ask_domain(alloc, at.right)?;
    let fault = earlier(first.fault, second.fault);
    match (first.answer, second.answer) {
        (Some(one), Some(other)) => {
            let (form, pair) = crossed(alloc, op, one, other)?;
            Ok(Step {
                outcome: Told::Ranging(form, Ty::set(alloc, pair)?, at.whole),
                fault,
            })
        }
        _ => Ok(Step::silent(fault)),
    }
}

// `E : D`, or its negation: D ranges over a type that E takes.
#[tactic(auto, using(bk_raw::proofs::Blamed::blames))]
fn member(
    alloc: Global,
    negative: bool,
    at: Places,
    left: Told,
    right: Told,
) -> Result<Step, Memory>
    ensures { IfOk result (λ s. IsRead s (meant.in_domain (λ e d. negated_by negative (binary In e d)) at.left at.right
        (shown_outcome left) (shown_outcome right))) }
{
    let Asked { answer, fault } = right.ask_domain(alloc, at.right)?;
    let Some((domain, ty)) = answer else {
        return Ok(Step::silent(earlier(fault, left.unvalued())));
    };
    let element = left.ask(alloc, at.left, &ty)?;
    let fault = earlier(fault, element.fault);
    let Some(element) = element.answer else {
        return Ok(Step::silent(fault));
    };
    let form = binary(alloc, BinOp::In, element, domain)?;
    Ok(Step {
        outcome: Told::Holding(negated(alloc, negative, form)?),
        fault,
    })
}

// `E <: D`, which is `E : POW(D)`, or its negation.
#[tactic(auto, using(bk_raw::proofs::Blamed::blames))]
fn subset(
    alloc: Global,
    negative: bool,
    at: Places,
    left: Told,
    right: Told,
) -> Result<Step, Memory>
    ensures { IfOk result (λ s. IsRead s (meant.in_power (λ e d. negated_by negative (binary In e d)) at.left at.right
        (shown_outcome left) (shown_outcome right))) }
{
    let Asked { answer, fault } = right.ask_domain(alloc, at.right)?;
    let Some((domain, ty)) = answer else {
        return Ok(Step::silent(earlier(fault, left.unvalued())));
    };
    let set = left.ask(alloc, at.left, &Ty::set(alloc, ty)?)?;
    let fault = earlier(fault, set.fault);
    let Some(set) = set.answer else {
        return Ok(Step::silent(fault));
    };
    let power = unary(alloc, UnOp::Pow, domain)?;
    let form = binary(alloc, BinOp::In, set, power)?;
    Ok(Step {
        outcome: Told::Holding(negated(alloc, negative, form)?),
        fault,
    })
}

// `S <<: T`, which is `S : POW(T) & not(S = T)`: T is a set value, whose type S takes.
#[tactic(auto, using(bk_raw::proofs::Blamed::blames))]
fn strict_subset(alloc: Global, at: Places, left: Told, right: Told) -> Result<Step, Memory>
    ensures { IfOk result (λ s. IsRead s (meant.strictly at.left at.right (shown_outcome left) (shown_outcome right))) }
{
    let Asked { answer, fault } = right.ask_set(alloc, at.right)?;
    let Some((whole, ty)) = answer else {
        return Ok(Step::silent(earlier(fault, left.unvalued())));
    };
    let part = left.ask(alloc, at.left, &Ty::set(alloc, ty)?)?;
    let fault = earlier(fault, part.fault);
    let Some(part) = part.answer else {
        return Ok(Step::silent(fault));
    };
    Ok(Step {
        outcome: Told::Holding(strictly_inside(alloc, part, whole)?),
        fault,
    })
}

// `S : POW(T) & not(S = T)`.
fn strictly_inside(alloc: Global, part: Form, whole: Form) -> Result<Form, Memory>
    ensures { IfOk result (λ f. f ≡
        binary And (binary In part (unary Pow whole)) (unary Not (binary Eq part whole))) }
{
    let power = unary(alloc, UnOp::Pow, whole.copy(alloc)?)?;
    let inside = binary(alloc, BinOp::In, part.copy(alloc)?, power)?;
    let same = binary(alloc, BinOp::Eq, part, whole)?;
    binary(alloc, BinOp::And, inside, unary(alloc, UnOp::Not, same)?)
}

// ---- two sides of one type

// Two expressions, or the first of the faults of domains that are no values.
#[tactic(auto, using(bk_raw::proofs::Blamed::blames))]
fn expressions(left: Told, right: Told) -> Result<(Expression, Expression), Step>
    ensures { MatchResult result
        (λ p. (shown_outcome left ≡ partial p.0) × (shown_outcome right ≡ partial p.1))
        (λ s. (k : Partial → Partial → Reading) → IsRead s (meant.on_values k (shown_outcome left)
        (shown_outcome right))) }
{
    let fault = earlier(left.unvalued(), right.unvalued());
    let Some(one) = left.expression() else {
        return Err(Step::silent(fault));
    };
    let Some(other) = right.expression() else {
        return Err(Step::silent(fault));
    };
    Ok((one, other))
}

// What two sides of one type come to: the formulas of both with the type.
#[derive(Drop)]
pub(crate) enum Alike {
    // Both are of this type.
    Both(Form, Form, Ty),
    // None of both gives a type.
    Neither(Expression, Expression),
    // They have no type in common.
    Different,
}

// Two sides of one type: where the left gives the right takes, else the right gives and the left takes.
fn taken_alike(alloc: Global, left: Expression, right: Expression) -> Result<Alike, Memory>
    ensures { IfOk result (λ a. IsAlike a left right) }
{
    match (left.node, right.node) {
        (Node::Whole(form, ty), node) => match (Expression { node }).fill(alloc, &ty)? {
            Some(other) => Ok(Alike::Both(form, other, ty)),
            None => Ok(Alike::Different),
        },
        (node, Node::Whole(form, ty)) => match (Expression { node }).fill(alloc, &ty)? {
            Some(other) => Ok(Alike::Both(other, form, ty)),
            None => Ok(Alike::Different),
        },
        (one, other) => Ok(Alike::Neither(Expression { node: one }, Expression { node: other })),
    }
}

// `E = F`, or its negation.
#[tactic(auto, using(crate::proofs::Alikes::alikes))]
fn equal(alloc: Global, negative: bool, at: usize, left: Told, right: Told) -> Result<Step, Memory>
    ensures { IfOk result (λ s. IsRead s
        (meant.on_values (meant.equal (λ e f. negated_by negative (binary Eq e f)) at) (shown_outcome left)
        (shown_outcome right))) }
{
    let (left, right) = match expressions(left, right) {
        Ok(both) => both,
        Err(step) => return Ok(step),
    };
    match taken_alike(alloc, left, right)? {
        Alike::Both(one, other, _) => {
            let form = binary(alloc, BinOp::Eq, one, other)?;
            let form = negated(alloc, negative, form)?;
            Ok(Step::plain(Told::Holding(form)))
        }
        _ => Ok(Step::silent(no_type(at))),
    }
}

// Two sets of one type.
fn joined(alloc: Global, join: Join, at: usize, left: Told, right: Told) -> Result<Step, Memory>
    ensures { IfOk result (λ s. IsRead s
        (meant.on_values (meant.joint (joint_of_join join) at) (shown_outcome left) (shown_outcome right))) }
{
    let (left, right) = match expressions(left, right) {
        Ok(both) => both,
        Err(step) => return Ok(step),
    };
    joint(alloc, join, at, left, right)
}

// Two set expressions of one type; where none of both gives it, the whole takes types part by part.
#[tactic(auto, using(crate::proofs::Alikes::alikes))]
fn joint(
    alloc: Global,
    join: Join,
    at: usize,
    left: Expression,
    right: Expression,
) -> Result<Step, Memory>
    ensures { IfOk result (λ s. IsRead s (meant.joint (joint_of_join join) at left right)) }
{
    match taken_alike(alloc, left, right)? {
        Alike::Both(one, other, ty) => {
            if join.is_for(&ty) {
                return Ok(Step::giving(binary(alloc, join.op(), one, other)?, ty));
            }
            Ok(Step::silent(no_type(at)))
        }
        Alike::Neither(one, other) => {
            let both = Expression::joined(alloc, join, one, other)?;
            Ok(Step::plain(Told::Expressed(both)))
        }
        Alike::Different => Ok(Step::silent(no_type(at))),
    }
}

// `a - b` of numbers or of sets, by the side that gives first.
#[tactic(auto, using(crate::proofs::Differences::differences))]
fn minus(alloc: Global, at: Places, left: Told, right: Told) -> Result<Step, Memory>
    ensures { IfOk result (λ s. IsRead s
        (meant.on_values (meant.minus at.whole at.left at.right) (shown_outcome left) (shown_outcome right))) }
{
    let (left, right) = match expressions(left, right) {
        Ok(both) => both,
        Err(step) => return Ok(step),
    };
    let left = match as_number(left) {
        Ok(form) => return difference(alloc, at.right, form, right),
        Err(left) => left,
    };
    if gives_number(&right) && !gives(&left) {
        return Ok(Step::silent(no_type(at.left)));
    }
    joint(alloc, Join::Difference, at.whole, left, right)
}

// The number that an expression gives, or else the expression.
fn as_number(expression: Expression) -> Result<Form, Expression>
    ensures { MatchResult result (λ f. expression ≡ whole f int_type)
        (λ e. (e ≡ expression) × (gives_int expression ≡ false)) }
{
    match expression.node {
        Node::Whole(form, ty) => {
            if is_number(&ty) {
                return Ok(form);
            }
            Err(Expression::whole(form, ty))
        }
        node => Err(Expression { node }),
    }
}

// `a - b` of a number and what takes the type of numbers, at a byte of its own.
fn difference(alloc: Global, place: usize, form: Form, right: Expression) -> Result<Step, Memory>
    ensures { IfOk result (λ s. (at x : ℕ) → IsRead s (meant.minus at x place (whole form int_type) right)) }
{
    match right.fill(alloc, &Ty::int())? {
        Some(other) => {
            let form = binary(alloc, BinOp::Sub, form, other)?;
            Ok(Step::giving(form, Ty::int()))
        }
        None => Ok(Step::silent(no_type(place))),
    }
}

// Whether it is the type of numbers.
fn is_number(ty: &Ty) -> bool
    ensures { result ≡ meant.is_number ty.now }
{
    matches!(ty.view(), TyView::Int)
}

// Whether an expression gives a type.
fn gives(expression: &Expression) -> bool
    ensures { result ≡ is_some (whole_of expression.now) }
{
    matches!(expression.node, Node::Whole(_, _))
}

// Whether it gives a number.
fn gives_number(expression: &Expression) -> bool
    ensures { result ≡ gives_int expression.now }
{
    match &expression.node {
        Node::Whole(_, ty) => is_number(ty),
        _ => false,
    }
}

// `E |-> F` of two expressions.
fn paired(alloc: Global, left: Told, right: Told) -> Result<Step, Memory>
    ensures { IfOk result (λ s. IsRead s (meant.pair_reading (shown_outcome left) (shown_outcome right))) }
{
    match expressions(left, right) {
        Ok((one, other)) => {
            let pair = Expression::pair(alloc, one, other)?;
            Ok(Step::plain(Told::Expressed(pair)))
        }
        Err(step) => Ok(step),
    }
}

// `(a, b)`.
pub(crate) fn pair(alloc: Global, left: Told, right: Told) -> Result<Step, Memory>
    ensures { IfOk result (λ s. IsRead s (meant.pair_reading (shown_outcome left) (shown_outcome right))) }
{
    paired(alloc, left, right)
}

// ---- products

// A product of a value that gives a type.
pub(crate) fn value_times(
    alloc: Global,
    at: Places,
    form: Form,
    ty: Ty,
    right: Told,
) -> Result<Step, Memory>
    ensures { IfOk result (λ s. IsRead s
        (meant.times at.whole at.left at.right (partial (whole form ty)) (shown_outcome right))) }
{
    match ty.view() {
        TyView::Int => multiplied(alloc, at.right, form, right),
        TyView::Set(elements) => {
            let elements = elements.copy(alloc)?;
            right.set_times(alloc, at.right, (form, elements))
        }
        _ => Ok(Step::silent(unmatched(at.whole, &right))),
    }
}

// What a product is at fault for whose left side gives neither a number nor a set: the whole, where the right side is
// told.
fn unmatched(at: usize, right: &Told) -> Option<Fault>
    ensures { told result ≡ blame (meant.unmatched at (shown_outcome right.now)) }
{
    match right {
        Told::Expressed(_) | Told::Ranging(_, _, _) => no_type(at),
        _ => None,
    }
}

// What a product is at fault for whose left side, at a byte of its own, gives no type: the left side, or the whole
// where the right side gives neither a number nor a set.
pub(crate) fn ungiven(at: usize, place: usize, right: &Told) -> Option<Fault>
    ensures { told result ≡ blame (meant.ungiven at place (shown_outcome right.now)) }
{
    match right {
        Told::Expressed(
            Expression {
                node: Node::Whole(_, ty),
            },
        ) => match ty.view() {
            TyView::Int | TyView::Set(_) => no_type(place),
            _ => no_type(at),
        },
        Told::Expressed(_) | Told::Ranging(_, _, _) => no_type(place),
        _ => None,
    }
}

// What a product is at fault for whose left side is a domain with a byte of its own and whose right side gives this
// type of no set: the domain, where numbers are multiplied, and else the whole.
pub(crate) fn no_number(at: usize, there: usize, ty: &Ty) -> Option<Fault>
    ensures { told result ≡ blame (meant.no_number at there ty.now) }
{
    match ty.view() {
        TyView::Int => no_type(there),
        _ => no_type(at),
    }
}

// A product of numbers.
#[tactic(auto, using(bk_raw::proofs::Blamed::blames))]
fn multiplied(alloc: Global, place: usize, form: Form, right: Told) -> Result<Step, Memory>
    ensures { IfOk result (λ s. (at x : ℕ) → IsRead s
        (meant.times at x place (partial (whole form int_type)) (shown_outcome right))) }
{
    let Asked { answer, fault } = right.ask(alloc, place, &Ty::int())?;
    match answer {
        Some(other) => {
            let product = binary(alloc, BinOp::Mul, form, other)?;
            Ok(Step::told(product, Ty::int(), fault))
        }
        None => Ok(Step::silent(fault)),
    }
}

// The product of a domain that is no value and of another domain over a type.
pub(crate) fn domain_product(
    alloc: Global,
    left: (Form, Ty, usize),
    other: Form,
    last: Ty,
) -> Result<Step, Memory>
    ensures { IfOk result (λ s. IsRead s
        (plainly (ranging (binary Product left.0 other) (pair_type left.1 last) left.2))) }
{
    let (form, first, there) = left;
    let (product, pair) = crossed(alloc, BinOp::Times, (form, first), (other, last))?;
    Ok(Step::plain(Told::Ranging(product, pair, there)))
}

// An operator on two formulas, and the type of pairs of theirs.
pub(crate) fn crossed(
    alloc: Global,
    op: BinOp,
    left: (Form, Ty),
    right: (Form, Ty),
) -> Result<(Form, Ty), Memory>
    ensures { IfOk result (λ p. (p.0 ≡ binary op left.0 right.0) × (p.1 ≡ pair_type left.1 right.1)) }
{
    let pair = Ty::pair(alloc, left.1, right.1)?;
    Ok((binary(alloc, op, left.0, right.0)?, pair))
}

// ---- relations

// A set of elements of this type.
fn as_set(alloc: Global, at: usize, part: Told, elements: &Ty) -> Result<Asked<Form>, Memory>
    ensures { IfOk result (λ a. IsAsked a.answer a.fault (ask at (shown_outcome part) (set_type elements.now))) }
{
    let set = Ty::set(alloc, elements.copy(alloc)?)?;
    part.ask(alloc, at, &set)
}

// The type of relations between these.
fn relation_type(alloc: Global, first: Ty, second: Ty) -> Result<Ty, Memory>
    ensures { IfOk result (λ t. t ≡ set_type (pair_type first second)) }
{
    let pair = Ty::pair(alloc, first, second)?;
    Ty::set(alloc, pair)
}

// `S <| r` and `S <<| r`: a relation, and a set of its first parts.
#[tactic(auto, using(bk_raw::proofs::Blamed::blames))]
fn left_part(alloc: Global, op: BinOp, at: Places, left: Told, right: Told) -> Result<Step, Memory>
    ensures { IfOk result (λ s. IsRead s
        (meant.left_part op at.left at.right (shown_outcome left) (shown_outcome right))) }
{
    let Asked { answer, fault } = right.ask_relation(alloc, at.right)?;
    let Some((relation, first, second)) = answer else {
        return Ok(Step::silent(earlier(fault, left.unvalued())));
    };
    let set = as_set(alloc, at.left, left, &first)?;
    let fault = earlier(fault, set.fault);
    let Some(set) = set.answer else {
        return Ok(Step::silent(fault));
    };
    let pairs = relation_type(alloc, first, second)?;
    Ok(Step::told(binary(alloc, op, set, relation)?, pairs, fault))
}

// `r |> S` and `r |>> S`: a relation, and a set of its second parts.
#[tactic(auto, using(bk_raw::proofs::Blamed::blames))]
fn right_part(alloc: Global, op: BinOp, at: Places, left: Told, right: Told) -> Result<Step, Memory>
    ensures { IfOk result (λ s. IsRead s
        (meant.right_part op at.left at.right (shown_outcome left) (shown_outcome right))) }
{
    let Asked { answer, fault } = left.ask_relation(alloc, at.left)?;
    let Some((relation, first, second)) = answer else {
        return Ok(Step::silent(earlier(fault, right.unvalued())));
    };
    let set = as_set(alloc, at.right, right, &second)?;
    let fault = earlier(fault, set.fault);
    let Some(set) = set.answer else {
        return Ok(Step::silent(fault));
    };
    let pairs = relation_type(alloc, first, second)?;
    Ok(Step::told(binary(alloc, op, relation, set)?, pairs, fault))
}

// `r[S]`: a relation, and a set of its first parts.
#[tactic(auto, using(bk_raw::proofs::Blamed::blames))]
pub(crate) fn image(alloc: Global, at: Places, left: Told, right: Told) -> Result<Step, Memory>
    ensures { IfOk result (λ s. IsRead s
        (meant.image_reading at.left at.right (shown_outcome left) (shown_outcome right))) }
{
    let Asked { answer, fault } = left.ask_relation(alloc, at.left)?;
    let Some((relation, first, second)) = answer else {
        return Ok(Step::silent(earlier(fault, right.unvalued())));
    };
    let set = right.ask(alloc, at.right, &Ty::set(alloc, first)?)?;
    let fault = earlier(fault, set.fault);
    let Some(set) = set.answer else {
        return Ok(Step::silent(fault));
    };
    let form = binary(alloc, BinOp::Image, relation, set)?;
    Ok(Step::told(form, Ty::set(alloc, second)?, fault))
}

// `f(x)`: a relation, and one of its first parts.
#[tactic(auto, using(bk_raw::proofs::Blamed::blames))]
pub(crate) fn application(
    alloc: Global,
    at: Places,
    left: Told,
    right: Told,
) -> Result<Step, Memory>
    ensures { IfOk result (λ s. IsRead s
        (meant.apply_reading at.left at.right (shown_outcome left) (shown_outcome right))) }
{
    let Asked { answer, fault } = left.ask_relation(alloc, at.left)?;
    let Some((relation, first, second)) = answer else {
        return Ok(Step::silent(earlier(fault, right.unvalued())));
    };
    let argument = right.ask(alloc, at.right, &first)?;
    let fault = earlier(fault, argument.fault);
    let Some(argument) = argument.answer else {
        return Ok(Step::silent(fault));
    };
    let form = binary(alloc, BinOp::Apply, relation, argument)?;
    Ok(Step::told(form, second, fault))
}

// `(r ; s)` of two relations, where s takes up the type in which r ends.
pub(crate) fn composition(
    alloc: Global,
    at: Places,
    left: Told,
    right: Told,
) -> Result<Step, Memory>
    ensures { IfOk result (λ s. IsRead s
        (meant.composition_reading at.whole at.left at.right (shown_outcome left) (shown_outcome right))) }
{
    let first = left.ask_relation(alloc, at.left)?;
    let second = right.ask_relation(alloc, at.right)?;
    let fault = earlier(first.fault, second.fault);
    let Some(one) = first.answer else {
        return Ok(Step::silent(fault));
    };
    let Some(other) = second.answer else {
        return Ok(Step::silent(fault));
    };
    composed(alloc, at.whole, one, other)
}

// The same of what both sides are.
fn composed(
    alloc: Global,
    at: usize,
    left: (Form, Ty, Ty),
    right: (Form, Ty, Ty),
) -> Result<Step, Memory>
    ensures { IfOk result (λ s. (fs : List FaultAt) → IsRead s (meant.composed at fs (Some left) (Some right))) }
{
    let (one, from, middle) = left;
    let (other, taken, to) = right;
    if !are_same(middle, taken) {
        return Ok(Step::silent(no_type(at)));
    }
    let pairs = relation_type(alloc, from, to)?;
    Ok(Step::giving(binary(alloc, BinOp::Comp, one, other)?, pairs))
}

// Whether the types are the same, both of which are done with.
fn are_same(one: Ty, other: Ty) -> bool
    ensures { result ≡ same_type one other }
{
    is_same(&one, &other)
}

// ---- {a, b, c}

// `{E}` of an expression.
#[tactic(auto, using(crate::proofs::Values::alone))]
pub(crate) fn single(alloc: Global, element: Told) -> Result<Step, Memory>
    ensures { IfOk result (λ s. IsRead s (meant.single_reading (shown_outcome element))) }
{
    let fault = element.unvalued();
    match element.expression() {
        Some(expression) => {
            let set = Expression::single(alloc, expression)?;
            Ok(Step::plain(Told::Expressed(set)))
        }
        None => Ok(Step::silent(fault)),
    }
}

// One element more.
pub(crate) fn extended(alloc: Global, at: usize, set: Told, element: Told) -> Result<Step, Memory>
    ensures { IfOk result (λ s. IsRead s (meant.extended at (shown_outcome set) (shown_outcome element))) }
{
    match expressions(set, element) {
        Ok((set, element)) => {
            let last = Expression::single(alloc, element)?;
            joint(alloc, Join::Union, at, set, last)
        }
        Err(step) => Ok(step),
    }
}
