// What a term turns out to be, and what places ask of it.

ghost use Rattle.std.specs.Prelude.{◌≡◌, ◌≢◌, ℕ, List, IfOk, MatchOption, []};
ghost use Rattle.bk_val.specs.ValueType.{ValueType, pair_type, set_type};
ghost use Rattle.bk_form.specs.Formula.{Formula};
ghost use Rattle.bk_raw.specs.Meaning.OperatorReadings as meant;
ghost use Rattle.bk_raw.specs.Meaning.Outcome as wanted;
ghost use Rattle.bk_raw.specs.Meaning.Outcome.{Reading};
ghost use Rattle.bk_raw.specs.Meaning.ScopeReading.{ask_formula};
ghost use Rattle.bk_raw.specs.Meaning.TermReading.{behind_faults, spoilt_by};
ghost use Rattle.bk_raw.specs.Errors.Blame.{blame};
ghost use Rattle.bk_raw.specs.Errors.Blame as blamed;
ghost use Rattle.bk_raw.specs.Errors.Faults.{Fault as FaultAt};
ghost use Rattle.bk_elab_terms.specs.Shown.{shown_outcome, told, IsRead, IsAsked};

use crate::blame::{Fault, earlier};
use crate::operator::{Places, crossed, domain_product, no_number, ungiven, value_times};
use crate::partial::{Expression, Node};
use bk_form::{BinOp, Form, Ty, TyView};
use bk_io::Memory;
use bk_raw::FaultKind;
use std::alloc::Global;

/// What a term turns out to be.
pub enum Told {
    /// An expression.
    Expressed(Expression),
    /// A domain that is no value, the type that it ranges over, and the byte of what is at fault where a value is
    /// asked.
    Ranging(Form, Ty, usize),
    /// A predicate.
    Holding(Form),
    /// No formula: a fault lies within, or a name has no type.
    Silent,
}

// By hand, so that letting one go is a call: a derived one is written out, and proved, wherever one is let go.
impl Drop for Told {
    fn drop(self) {
        match self {
            Told::Expressed(_expression) => {}
            Told::Ranging(_form, _ty, _) => {}
            Told::Holding(_form) => {}
            Told::Silent => {}
        }
    }
}

/// What comes of parts: an outcome, and the first of the faults.
#[derive(Drop)]
pub struct Step {
    pub outcome: Told,
    pub fault: Option<Fault>,
}

/// A part's answer to what its place asks, and the first of the faults that this adds.
#[derive(Drop)]
pub struct Asked<T> {
    pub answer: Option<T>,
    pub fault: Option<Fault>,
}

/// The fault of a formula or name without a type.
pub fn no_type(at: usize) -> Option<Fault>
    ensures { told result ≡ blame (wanted.no_type at) }
{
    Some(Fault {
        kind: FaultKind::NoType,
        place: at,
    })
}

impl Step {
    // An outcome without a fault.
    pub(crate) fn plain(outcome: Told) -> Step
        ensures { IsRead result (wanted.plainly (shown_outcome outcome)) }
    {
        Step {
            outcome,
            fault: None,
        }
    }

    // An expression that gives this type.
    pub(crate) fn giving(form: Form, ty: Ty) -> Step
        ensures { IsRead result (wanted.giving form ty) }
    {
        Step::plain(Told::Expressed(Expression::whole(form, ty)))
    }

    // An expression that gives this type, beside this first fault.
    pub(crate) fn told(form: Form, ty: Ty, fault: Option<Fault>) -> Step
        ensures outcome { shown_outcome result.outcome ≡ wanted.partial (wanted.whole form ty) }
        ensures fault { result.fault ≡ fault }
    {
        Step {
            outcome: Told::Expressed(Expression::whole(form, ty)),
            fault,
        }
    }

    // Nothing is told, and this is the first fault.
    pub(crate) fn silent(fault: Option<Fault>) -> Step
        ensures outcome { shown_outcome result.outcome ≡ wanted.silent }
        ensures fault { result.fault ≡ fault }
    {
        Step {
            outcome: Told::Silent,
            fault,
        }
    }

    // The same after the first of the faults of the parts.
    #[tactic(auto, using(bk_raw::proofs::Blamed::blames))]
    pub(crate) fn behind(self, fault: Option<Fault>) -> Step
        ensures { (fs : List FaultAt) (r : Reading) → told fault ≡ blame fs → IsRead self r →
            IsRead result (behind_faults fs r) }
    {
        Step {
            outcome: self.outcome,
            fault: earlier(fault, self.fault),
        }
    }

    // The same, where a fault leaves nothing to tell.
    #[tactic(auto, using(bk_raw::proofs::Blamed::blames))]
    pub(crate) fn spoilt_by(self, fault: Option<Fault>) -> Step
        ensures { (fs : List FaultAt) (r : Reading) → told fault ≡ blame fs → IsRead self r →
            IsRead result (spoilt_by fs r) }
    {
        if fault.is_none() {
            return self;
        }
        Step::silent(earlier(fault, self.fault))
    }
}

impl<T: Drop> Asked<T> {
    // The same after the first of the faults of the part.
    #[tactic(auto, using(bk_raw::proofs::Blamed::blames))]
    pub(crate) fn behind(self, fault: Option<Fault>) -> Asked<T>
        ensures answer { result.answer ≡ self.answer }
        ensures fault { told result.fault ≡ blamed.earlier (told fault) (told self.fault) }
    {
        Asked {
            answer: self.answer,
            fault: earlier(fault, self.fault),
        }
    }

    // It is there.
    pub(crate) fn answered(answer: T) -> Asked<T>
        ensures { IsAsked result.answer result.fault (wanted.answered answer) }
    {
        Asked {
            answer: Some(answer),
            fault: None,
        }
    }

    // It is not there, for a formula without a type.
    pub(crate) fn untyped(at: usize) -> Asked<T>
        ensures { IsAsked result.answer result.fault (wanted.refused (wanted.no_type at)) }
    {
        Asked {
            answer: None,
            fault: no_type(at),
        }
    }

    // It is not there, and what is at fault is told already.
    pub(crate) fn refused() -> Asked<T>
        ensures { IsAsked result.answer result.fault (wanted.refused []) }
    {
        Asked {
            answer: None,
            fault: None,
        }
    }
}

impl Told {
    // The expression, where it is one.
    pub(crate) fn expression(self) -> Option<Expression>
        ensures { MatchOption result ((e : wanted.Partial) → shown_outcome self ≢ wanted.partial e)
            (λ e. shown_outcome self ≡ wanted.partial e) }
    {
        match self {
            Told::Expressed(expression) => Some(expression),
            _ => None,
        }
    }

    // The predicate, where it is one.
    pub(crate) fn predicate(self) -> Option<Form>
        ensures { MatchOption result ((p : Formula) → shown_outcome self ≢ wanted.holding p)
            (λ p. shown_outcome self ≡ wanted.holding p) }
    {
        match self {
            Told::Holding(form) => Some(form),
            _ => None,
        }
    }

    // An expression that takes this type.
    pub(crate) fn ask(self, alloc: Global, at: usize, ty: &Ty) -> Result<Asked<Form>, Memory>
        ensures { IfOk result (λ a. IsAsked a.answer a.fault (wanted.ask at (shown_outcome self) ty.now)) }
    {
        match self {
            Told::Expressed(expression) => match expression.fill(alloc, ty)? {
                Some(form) => Ok(Asked::answered(form)),
                None => Ok(Asked::untyped(at)),
            },
            Told::Ranging(.., there) => Ok(Asked::untyped(there)),
            _ => Ok(Asked::refused()),
        }
    }

    // A value of any type.
    pub(crate) fn ask_value(self, at: usize) -> Asked<(Form, Ty)>
        ensures { IsAsked result.answer result.fault (wanted.ask_value at (shown_outcome self)) }
    {
        match self {
            Told::Expressed(expression) => match expression.node {
                Node::Whole(form, ty) => Asked::answered((form, ty)),
                _ => Asked::untyped(at),
            },
            Told::Ranging(.., there) => Asked::untyped(there),
            _ => Asked::refused(),
        }
    }

    // A set, with the type of its elements.
    pub(crate) fn ask_set(self, alloc: Global, at: usize) -> Result<Asked<(Form, Ty)>, Memory>
        ensures { IfOk result (λ a. IsAsked a.answer a.fault (wanted.ask_set at (shown_outcome self))) }
    {
        match self {
            Told::Expressed(
                Expression {
                    node: Node::Whole(form, ty),
                },
            ) => match ty.view() {
                TyView::Set(elements) => Ok(Asked::answered((form, elements.copy(alloc)?))),
                _ => Ok(Asked::untyped(at)),
            },
            Told::Expressed(..) => Ok(Asked::untyped(at)),
            Told::Ranging(.., there) => Ok(Asked::untyped(there)),
            _ => Ok(Asked::refused()),
        }
    }

    // A relation, with the types of its first and second parts.
    pub(crate) fn ask_relation(
        self,
        alloc: Global,
        at: usize,
    ) -> Result<Asked<(Form, Ty, Ty)>, Memory>
        ensures { IfOk result (λ a. IsAsked a.answer a.fault (wanted.ask_relation at (shown_outcome self))) }
    {
        match self {
            Told::Expressed(
                Expression {
                    node: Node::Whole(form, ty),
                },
            ) => match parts_of(&ty) {
                Some((first, second)) => {
                    Ok(Asked::answered((form, first.copy(alloc)?, second.copy(alloc)?)))
                }
                None => Ok(Asked::untyped(at)),
            },
            Told::Expressed(..) => Ok(Asked::untyped(at)),
            Told::Ranging(.., there) => Ok(Asked::untyped(there)),
            _ => Ok(Asked::refused()),
        }
    }

    // A domain, with the type that it ranges over.
    pub(crate) fn ask_domain(self, alloc: Global, at: usize) -> Result<Asked<(Form, Ty)>, Memory>
        ensures { IfOk result (λ a. IsAsked a.answer a.fault (wanted.ask_domain at (shown_outcome self))) }
    {
        match self {
            Told::Ranging(form, ty, _) => Ok(Asked::answered((form, ty))),
            other => other.ask_set(alloc, at),
        }
    }

    // A predicate.
    pub(crate) fn ask_predicate(self) -> Asked<Form>
        ensures { IsAsked result.answer result.fault (wanted.ask_predicate (shown_outcome self)) }
    {
        match self {
            Told::Holding(form) => Asked::answered(form),
            _ => Asked::refused(),
        }
    }

    // What a term by itself is asked: a predicate, a domain, or an expression that gives a type.
    pub(crate) fn ask_formula(self, at: usize) -> Asked<Form>
        ensures { IsAsked result.answer result.fault (ask_formula at (shown_outcome self)) }
    {
        match self {
            Told::Expressed(
                Expression {
                    node: Node::Whole(form, _),
                },
            ) => Asked::answered(form),
            Told::Expressed(..) => Asked::untyped(at),
            Told::Ranging(form, _ty, _) => Asked::answered(form),
            Told::Holding(form) => Asked::answered(form),
            Told::Silent => Asked::refused(),
        }
    }

    // In a place that asks nothing but a value a domain that is none is at fault.
    pub(crate) fn unvalued(&self) -> Option<Fault>
        ensures { told result ≡ blame (wanted.unvalued (shown_outcome self.now)) }
    {
        match self {
            Told::Ranging(_, _, there) => no_type(*there),
            _ => None,
        }
    }
}

// Products, each by what one of the sides is.
impl Told {
    // `a * b` of numbers or of sets by the side that gives first, or of two domains: this side is the left one.
    pub(crate) fn times(self, alloc: Global, at: Places, right: Told) -> Result<Step, Memory>
        ensures { IfOk result (λ s. IsRead s
            (meant.times at.whole at.left at.right (shown_outcome self) (shown_outcome right))) }
    {
        match self {
            Told::Expressed(
                Expression {
                    node: Node::Whole(form, ty),
                },
            ) => value_times(alloc, at, form, ty, right),
            Told::Expressed(..) => Ok(Step::silent(ungiven(at.whole, at.left, &right))),
            Told::Ranging(form, ty, there) => right.domain_times(alloc, at, (form, ty, there)),
            _ => Ok(Step::silent(None)),
        }
    }

    // A product of a set value on the left and this side.
    pub(crate) fn set_times(
        self,
        alloc: Global,
        place: usize,
        left: (Form, Ty),
    ) -> Result<Step, Memory>
        ensures { IfOk result (λ s. (at x : ℕ) → IsRead s
            (meant.times at x place (wanted.partial (wanted.whole left.0 (set_type left.1))) (shown_outcome self))) }
    {
        match self {
            Told::Ranging(other, last, there) => {
                let (product, pair) = crossed(alloc, BinOp::Times, left, (other, last))?;
                Ok(Step::plain(Told::Ranging(product, pair, there)))
            }
            Told::Expressed(..) => {
                let Asked { answer, fault } = self.ask_set(alloc, place)?;
                let Some((other, last)) = answer else {
                    return Ok(Step::silent(fault));
                };
                let (product, pair) = crossed(alloc, BinOp::Times, left, (other, last))?;
                Ok(Step::giving(product, Ty::set(alloc, pair)?))
            }
            _ => Ok(Step::silent(None)),
        }
    }

    // A product of a domain that is no value, which is at fault at a byte of its own where a value is asked, on the left
    // and this side.
    pub(crate) fn domain_times(
        self,
        alloc: Global,
        at: Places,
        left: (Form, Ty, usize),
    ) -> Result<Step, Memory>
        ensures { IfOk result (λ s. IsRead s
            (meant.times at.whole at.left at.right (wanted.ranging left.0 left.1 left.2) (shown_outcome self))) }
    {
        match self {
            Told::Expressed(
                Expression {
                    node: Node::Whole(other, ty),
                },
            ) => match ty.view() {
                TyView::Set(last) => {
                    let last = last.copy(alloc)?;
                    domain_product(alloc, left, other, last)
                }
                _ => Ok(Step::silent(no_number(at.whole, left.2, &ty))),
            },
            Told::Expressed(..) => Ok(Step::silent(no_type(at.right))),
            Told::Ranging(other, last, _) => domain_product(alloc, left, other, last),
            _ => Ok(Step::silent(None)),
        }
    }
}

// The types of the parts of a relation's pairs.
fn parts_of(ty: &Ty) -> Option<(&Ty, &Ty)>
    ensures { MatchOption result ((t u : ValueType) → ty.now ≢ set_type (pair_type t u))
        (λ p. ty.now ≡ set_type (pair_type p.0.now p.1.now)) }
{
    let TyView::Set(elements) = ty.view() else {
        return None;
    };
    match elements.view() {
        TyView::Pair(first, second) => Some((first, second)),
        _ => None,
    }
}
